//! The forms in memory: what a link receives and sends, what a door and a ticker hand out, and a gate.

use iio_io::{
    Dial, Door, Failed, Gate, Link, ListDoor, ListTicker, Listen, MemLink, MemSink, MemSource,
    OpenGate, Point, Ticker, send_whole,
};
use std::alloc::Global;
use std::test::Fail;

// A link with these bytes left, in pieces of at most three bytes, and room for five bytes.
fn link(alloc: Global, bytes: &[u8], reads: &[u64], writes: &[u64]) -> Result<MemLink, Fail> {
    let source = MemSource::new(bytes.to_vec(alloc)?, 3, reads.to_vec(alloc)?);
    let sink = MemSink::new(alloc, 5, writes.to_vec(alloc)?)?;
    Ok(MemLink::new(source, sink))
}

type Count = Result<usize, Failed>;

const NO: Count = Err(Failed);

/// The reads and writes that fail at a link with three bytes left, and what it returns, by turns, to receives into two bytes
/// and to sends of two bytes.
const TURNS: &[(&[u64], &[u64], [Count; 3], [Count; 3])] = &[
    (&[], &[], [Ok(2), Ok(1), Ok(0)], [Ok(2), Ok(2), Ok(1)]),
    (&[1], &[], [NO, Ok(2), Ok(1)], [Ok(2), Ok(2), Ok(1)]),
    (&[2], &[2], [Ok(2), NO, Ok(1)], [Ok(2), NO, Ok(2)]),
    (&[3], &[3], [Ok(2), Ok(1), NO], [Ok(2), Ok(2), NO]),
];

// Receives, and keeps the bytes.
fn hear(link: &mut MemLink, heard: &mut Vec<u8>) -> Result<Count, Fail> {
    let mut out = [0u8; 2];
    let got = link.recv(&mut out);
    heard.extend_from_slice(&out[..got.unwrap_or(0)])?;
    Ok(got)
}

// Sends, and keeps the bytes that were sent.
fn say(link: &mut MemLink, said: &mut Vec<u8>) -> Result<Count, Fail> {
    let put = link.send(b"xy");
    said.extend_from_slice(&b"xy"[..put.unwrap_or(0)])?;
    Ok(put)
}

// Whether a receive and a send return these, and the link shows all that was sent.
fn is_right_turn(
    link: &mut MemLink,
    heard: &mut Vec<u8>,
    said: &mut Vec<u8>,
    received: Count,
    sent: Count,
) -> Result<bool, Fail> {
    let got = hear(link, heard)?;
    let put = say(link, said)?;
    Ok(got == received && put == sent && link.sent() == said.as_slice())
}

// Whether a link with `abc` left returns these, by turns, and all of what was left was received.
fn is_two_ends(
    alloc: Global,
    reads: &[u64],
    writes: &[u64],
    received: &[Count],
    sent: &[Count],
) -> Result<bool, Fail> {
    let mut link = link(alloc, b"abc", reads, writes)?;
    let mut heard = Vec::new(alloc);
    let mut said = Vec::new(alloc);
    let mut right = link.dial("nowhere") == Ok(());
    for (recv, send) in received.iter().zip(sent) {
        if !is_right_turn(&mut link, &mut heard, &mut said, *recv, *send)? {
            right = false;
        }
    }
    Ok(right && heard.as_slice() == b"abc".as_slice())
}

// A failed call takes and adds nothing, and the other direction goes on.
#[test]
fn a_link_in_memory_is_its_two_ends(rt: HostRuntime) -> Result<(), Fail> {
    for (reads, writes, received, sent) in TURNS {
        let right = is_two_ends(rt.alloc(), reads, writes, received, sent)?;
        assert!(rt; right, "reads {reads:?}, writes {writes:?}");
    }
    Ok(())
}

// A whole send takes as many sends as it needs; if one fails, only a front part was sent.
#[test]
fn a_whole_send_is_cut_where_a_send_fails(rt: HostRuntime) -> Result<(), Fail> {
    let mut link = link(rt.alloc(), b"", &[], &[])?;
    let sends = (
        send_whole(&mut link, b"abc"),
        send_whole(&mut link, b"defg"),
    );
    assert_eq!(rt; sends, (Ok(()), Err(Failed)));
    assert_eq!(rt; link.sent(), b"abcde".as_slice());
    Ok(())
}

// What a door gives: the first byte of the link, none, or a failure.
type Given = Result<Option<u8>, Failed>;

const A: Given = Ok(Some(b'a'));

const B: Given = Ok(Some(b'b'));

const END: Given = Ok(None);

const FAILS: Given = Err(Failed);

/// The calls that fail at a door of two links, whether `listen` succeeds, and what the door then gives.
const DOORS: &[(&[u64], bool, &[Given])] = &[
    (&[], true, &[A, B, END, END]),
    (&[1], false, &[A, B, END, END]),
    (&[2], true, &[FAILS, A, B, END]),
    (&[3, 5], true, &[A, FAILS, B, FAILS, END]),
];

fn two_links(alloc: Global) -> Result<Vec<MemLink>, Fail> {
    let mut links = Vec::new(alloc);
    links.push(link(alloc, b"a", &[], &[])?)?;
    links.push(link(alloc, b"b", &[], &[])?)?;
    Ok(links)
}

fn given_by(door: &mut ListDoor<MemLink>) -> Result<Given, Fail> {
    let mut first = [0u8];
    match door.next() {
        Ok(Some(mut link)) => {
            link.recv(&mut first)?;
            Ok(Ok(Some(first[0])))
        }
        Ok(None) => Ok(END),
        Err(Failed) => Ok(FAILS),
    }
}

// Whether a door of two links, whose listed calls fail, listens exactly if `listens`, has no tick, and gives these.
fn is_door(alloc: Global, fails: &[u64], listens: bool, gives: &[Given]) -> Result<bool, Fail> {
    let mut door = ListDoor::new(two_links(alloc)?, fails.to_vec(alloc)?);
    let mut right = door.listen("nowhere").is_ok() == listens && door.ticker(1).next().is_none();
    for give in gives {
        if given_by(&mut door)? != *give {
            right = false;
        }
    }
    Ok(right)
}

// Calls are counted over both functions, and one that fails gives no link away.
#[test]
fn a_door_over_a_list_counts_its_calls(rt: HostRuntime) -> Result<(), Fail> {
    for (fails, listens, gives) in DOORS {
        let right = is_door(rt.alloc(), fails, *listens, gives)?;
        assert!(rt; right, "fails {fails:?}");
    }
    Ok(())
}

#[test]
fn a_ticker_over_a_list_gives_each_moment(rt: HostRuntime) -> Result<(), Fail> {
    let mut ticker = ListTicker::new(vec![in rt.alloc(); -5i64, 0, 1_000]?);
    for moment in [Some(-5i64), Some(0), Some(1_000), None, None] {
        assert_eq!(rt; ticker.next(), moment);
    }
    Ok(())
}

#[test]
fn an_open_gate_is_passed(rt: HostRuntime) -> Result<(), Fail> {
    OpenGate.pass(Point::Heard(1));
    OpenGate.pass(Point::Answered(1));
    let points = format!(in rt.alloc(); "{:?} {:?}", Point::Heard(1), Point::Answered(2))?;
    assert_eq!(rt; points.as_str(), "Heard(1) Answered(2)");
    Ok(())
}
