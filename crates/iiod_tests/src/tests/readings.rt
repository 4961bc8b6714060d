//! Answers in pieces, and readings over links in memory. The expected texts were written by hand.

ghost use Rattle.std.specs.Prelude.{◌≡◌, ◌<◌, ◌≤◌, ◌^◌, true, length, IfOk};
ghost use Rattle.iio_mask.specs.Mask.{has};
ghost use Rattle.iio_layout.specs.Shape.{count_of};
ghost use Rattle.iiod_client.specs.Ask.{IsAsk, wanted_by};

use iio_io::{MemLink, MemSink, MemSource};
use iio_layout::{Channel, Direction, Shape, read_id};
use iio_mask::Mask;
use iio_scan_type::{Endian, read_type};
use iiod_client::{Answer, Ask, ClientEnd, MAX_ASKED, State, read_device};
use std::alloc::Global;
use std::process::Abort;
use std::test::Fail;

// An answer to a READBUF for scans of four bytes under 00000005: the number of bytes asked for, the text, how many of its
// bytes are the answer's, its state and its data.
struct Fed {
    asked: u32,
    text: &'static [u8],
    taken: usize,
    state: State,
    body: &'static [u8],
}

const FED: &[Fed] = &[
    Fed {
        asked: 4,
        text: b"4\n00000005\nabcd",
        taken: 15,
        state: State::Done,
        body: b"abcd",
    },
    Fed {
        asked: 4,
        text: b"4\n00000005\nabcd0\n",
        taken: 15,
        state: State::Done,
        body: b"abcd",
    },
    Fed {
        asked: 8,
        text: b"4\n00000005\nabcd0\n7",
        taken: 17,
        state: State::Done,
        body: b"abcd",
    },
    Fed {
        asked: 8,
        text: b"4\n00000005\nabcd",
        taken: 15,
        state: State::More,
        body: b"abcd",
    },
    Fed {
        asked: 8,
        text: b"1\n00000005\na2\nbc005\ndefgh",
        taken: 25,
        state: State::Done,
        body: b"abcdefgh",
    },
    Fed {
        asked: 4,
        text: b"-16\n0\n",
        taken: 4,
        state: State::Refused(16),
        body: b"",
    },
    Fed {
        asked: 8,
        text: b"4\n00000005\nabcd-5\n",
        taken: 18,
        state: State::Refused(5),
        body: b"abcd",
    },
    Fed {
        asked: 8,
        text: b"3\n00000005\nabc-5\n",
        taken: 17,
        state: State::Malformed,
        body: b"abc",
    },
    Fed {
        asked: 4,
        text: b"3\n00000005\nabc0\n",
        taken: 16,
        state: State::Malformed,
        body: b"abc",
    },
    Fed {
        asked: 8,
        text: b"4\n00000005\nabcd00\n",
        taken: 18,
        state: State::Malformed,
        body: b"abcd",
    },
    Fed {
        asked: 4,
        text: b"0\n",
        taken: 2,
        state: State::Malformed,
        body: b"",
    },
    Fed {
        asked: 4,
        text: b"-0\n",
        taken: 3,
        state: State::Malformed,
        body: b"",
    },
    Fed {
        asked: 4,
        text: b"5\n00000005\n",
        taken: 2,
        state: State::Malformed,
        body: b"",
    },
    Fed {
        asked: 4,
        text: b"4\n00000003\nabcd",
        taken: 11,
        state: State::Malformed,
        body: b"",
    },
    Fed {
        asked: 6,
        text: b"6\n00000005\nabcdef",
        taken: 17,
        state: State::Malformed,
        body: b"abcdef",
    },
    Fed {
        asked: 4,
        text: b"00000000000000000000000000000000",
        taken: 32,
        state: State::More,
        body: b"",
    },
    Fed {
        asked: 4,
        text: b"0000000000000000000000000000000000",
        taken: 33,
        state: State::Malformed,
        body: b"",
    },
];

// Whether an answer has this reading if its text comes in two pieces.
fn is_answer(alloc: Global, row: &Fed, cut: usize) -> Result<bool, Fail> {
    if row.asked < 1 || row.asked > MAX_ASKED {
        return Ok(false);
    }
    let cut = cut.min(row.text.len());
    let mut answer = Answer::new(alloc, row.asked, Mask { bits: 5 }, 4, 4)?;
    let (first, _) = answer.feed(&row.text[..cut]);
    let (second, state) = answer.feed(&row.text[first..]);
    let taken = first.saturating_add(second);
    Ok(state == row.state && taken == row.taken && answer.body() == row.body)
}

#[test]
fn answers_at_every_cut(rt: HostRuntime) -> Result<(), Fail> {
    for row in FED {
        for cut in 0..=row.text.len() {
            let right = is_answer(rt.alloc(), row, cut)?;
            assert!(rt; right, "of {:?} at {cut}", row.text);
        }
    }
    Ok(())
}

// Makes a channel of that ID and type.
fn channel(id: &str, ty: &str) -> Result<Channel, Fail> {
    let (kind, suffix) = read_id(id.as_bytes()).ok_or("no ID")?;
    Ok(Channel {
        kind,
        suffix,
        direction: Direction::Input,
        ty: read_type(ty.as_bytes()).ok_or("no type")?,
    })
}

// voltage0, voltage1, accel_x and a timestamp.
fn adc(alloc: Global) -> Result<Shape, Fail> {
    let first = channel("voltage0", "le:u12/16>>4")?;
    let second = channel("voltage1", "le:u12/16>>4")?;
    let third = channel("accel_x", "be:s16/16>>0")?;
    let channels = vec![in alloc; first, second, third]?;
    let shape = Shape::new(channels, Some(Endian::Little), Vec::new(alloc));
    Ok(shape.ok_or("no shape")?)
}

// Asks for adc0 under a mask that has its first channel.
fn ask_under<'a>(shape: &'a Shape, mask: Mask, scans: u32) -> Ask<'a>
    requires below { mask.bits < 2 ^ count_of shape.now }
    requires channel { 0 < length shape.now.channels }
    requires first { has mask.bits 0 ≡ true }
    requires scans { 1 ≤ scans }
    ensures { IsAsk (wanted_by result) }
{
    Ask {
        device: b"adc0",
        shape,
        mask,
        samples: 1,
        scans,
    }
}

// Asks for adc0 under the mask that a text gives.
fn ask<'a>(rt: &impl Abort, shape: &'a Shape, mask: &str, scans: u32) -> Result<Ask<'a>, Fail>
    requires { 1 ≤ scans }
    ensures { IfOk result (λ ask. IsAsk (wanted_by ask)) }
{
    assert!(rt; shape.count() == 4 && shape.inputs() == 3);
    let mask = Mask::read(mask.as_bytes(), 4).ok_or("no mask")?;
    assert!(rt; mask.contains(0) && mask.bits < 16);
    Ok(ask_under(shape, mask, scans))
}

// Makes a source that gives these bytes in pieces, and fails these reads.
fn source(alloc: Global, bytes: &[u8], piece: usize, fails: &[u64]) -> Result<MemSource, Fail>
    requires { 1 ≤ piece }
{
    Ok(MemSource::new(bytes.to_vec(alloc)?, piece, fails.to_vec(alloc)?))
}

// Makes a sink with ample room, which fails these writes.
fn sink(alloc: Global, fails: &[u64]) -> Result<MemSink, Fail> {
    Ok(MemSink::new(alloc, 65_536, fails.to_vec(alloc)?)?)
}

// Makes a link that gives these bytes in pieces, and fails some of its calls.
fn link(
    alloc: Global,
    bytes: &[u8],
    piece: usize,
    receives: &[u64],
    sends: &[u64],
) -> Result<MemLink, Fail>
    requires { 1 ≤ piece }
{
    let source = source(alloc, bytes, piece, receives)?;
    Ok(MemLink::new(source, sink(alloc, sends)?))
}

// A reading: the mask, the number of wanted scans, what the link gives, what is sent and printed, and the end.
struct Row {
    mask: &'static str,
    scans: u32,
    given: &'static [u8],
    sent: &'static [u8],
    printed: &'static [u8],
    end: ClientEnd,
}

// What the link gives in the first reading, what is sent, and what is printed.
const GIVEN: &[u8] = b"0\n4\n00000005\n\x10\x00\xff\xfd0\n";

const SENT: &[u8] = b"OPEN adc0 1 00000005\nREADBUF adc0 4\nCLOSE adc0\nEXIT\n";

const PRINTED: &[u8] = b"1000fffd voltage0=1 accel_x=-3\n";

const OPEN_SENT: &[u8] = b"OPEN adc0 1 00000005\n";

const READ_SENT: &[u8] = b"OPEN adc0 1 00000005\nREADBUF adc0 4\n";

const READ_TWO_SENT: &[u8] = b"OPEN adc0 1 00000005\nREADBUF adc0 8\n";

const ROWS: &[Row] = &[
    Row {
        mask: "00000005",
        scans: 1,
        given: GIVEN,
        sent: SENT,
        printed: PRINTED,
        end: ClientEnd::Done,
    },
    // Bytes after the last answer aren't looked at.
    Row {
        mask: "00000005",
        scans: 3,
        given: b"0\n4\n00000005\n\x10\x00\xff\xfd8\n\x20\x00\x00\x01\xf0\xff\x80\x000\nmore",
        sent: b"OPEN adc0 1 00000005\nREADBUF adc0 12\nCLOSE adc0\nEXIT\n",
        printed: b"1000fffd voltage0=1 accel_x=-3\n20000001 voltage0=2 accel_x=1\nf0ff8000 voltage0=4095 accel_x=-32768\n",
        end: ClientEnd::Done,
    },
    Row {
        mask: "00000009",
        scans: 2,
        given: b"0\n16\n00000009\n\x10\x00\0\0\0\0\0\0\xe8\x03\0\0\0\0\0\x000\n16\n00000009\n\x20\x00\0\0\0\0\0\0\xff\xff\xff\xff\xff\xff\xff\xff0\n",
        sent: b"OPEN adc0 1 00000009\nREADBUF adc0 32\nREADBUF adc0 16\nCLOSE adc0\nEXIT\n",
        printed: b"1000000000000000e803000000000000 voltage0=1 timestamp=1000\n2000000000000000ffffffffffffffff voltage0=2 timestamp=-1\n",
        end: ClientEnd::Done,
    },
    Row {
        mask: "00000005",
        scans: 1,
        given: b"-16\n",
        sent: OPEN_SENT,
        printed: b"refused -16\n",
        end: ClientEnd::Refused(16),
    },
    Row {
        mask: "00000005",
        scans: 1,
        given: b"0\n3\n00000005\n\x10\x00\xff0\n",
        sent: READ_SENT,
        printed: b"",
        end: ClientEnd::Malformed,
    },
    Row {
        mask: "00000005",
        scans: 1,
        given: b"0\n-11\n",
        sent: READ_SENT,
        printed: b"refused -11\n",
        end: ClientEnd::Refused(11),
    },
    // The scans of an answer that ends as refused aren't printed.
    Row {
        mask: "00000005",
        scans: 2,
        given: b"0\n4\n00000005\n\x10\x00\xff\xfd-5\n",
        sent: READ_TWO_SENT,
        printed: b"refused -5\n",
        end: ClientEnd::Refused(5),
    },
    Row {
        mask: "00000005",
        scans: 1,
        given: b"0\n4\n00000005\n\x10\x00\xff\xfd-9\n",
        sent: b"OPEN adc0 1 00000005\nREADBUF adc0 4\nCLOSE adc0\n",
        printed: b"1000fffd voltage0=1 accel_x=-3\nrefused -9\n",
        end: ClientEnd::Refused(9),
    },
    Row {
        mask: "00000005",
        scans: 1,
        given: b"",
        sent: OPEN_SENT,
        printed: b"",
        end: ClientEnd::Cut,
    },
    Row {
        mask: "00000005",
        scans: 1,
        given: b"0\n4\n00000005\n\x10\x00",
        sent: READ_SENT,
        printed: b"",
        end: ClientEnd::Cut,
    },
    Row {
        mask: "00000005",
        scans: 1,
        given: b"1\n",
        sent: OPEN_SENT,
        printed: b"",
        end: ClientEnd::Malformed,
    },
    Row {
        mask: "00000005",
        scans: 1,
        given: b"-0\n",
        sent: OPEN_SENT,
        printed: b"",
        end: ClientEnd::Malformed,
    },
    Row {
        mask: "00000005",
        scans: 1,
        given: b"000000000000000000000000000000000",
        sent: OPEN_SENT,
        printed: b"",
        end: ClientEnd::Malformed,
    },
    Row {
        mask: "00000005",
        scans: 1,
        given: b"0\n4\n00000003\n",
        sent: READ_SENT,
        printed: b"",
        end: ClientEnd::Malformed,
    },
];

// Returns the end of a reading. Only what a link and a sink show of it is known.
fn end_of(alloc: Global, ask: &Ask<'_>, link: &mut MemLink, output: &mut MemSink) -> ClientEnd
    requires { IsAsk (wanted_by ask.now) }
{
    read_device(alloc, link, ask, output)
}

// Whether a reading over a link that gives its bytes in pieces of that size sends, prints and ends as the row says.
fn is_reading(alloc: Global, ask: &Ask<'_>, row: &Row, piece: usize) -> Result<bool, Fail>
    requires asked { IsAsk (wanted_by ask.now) }
    requires piece { 1 ≤ piece }
{
    let mut link = link(alloc, row.given, piece, &[], &[])?;
    let mut output = sink(alloc, &[])?;
    let end = end_of(alloc, ask, &mut link, &mut output);
    Ok(end == row.end && link.sent() == row.sent && output.written() == row.printed)
}

// Checks a row's reading over links that give their bytes in pieces of any size.
fn check_reading(rt: &impl Abort, alloc: Global, shape: &Shape, row: &Row) -> Result<(), Fail> {
    assert!(rt; 1 <= row.scans);
    let ask = ask(rt, shape, row.mask, row.scans)?;
    for piece in 1..row.given.len() + 2 {
        let right = is_reading(alloc, &ask, row, piece)?;
        assert!(rt; right, "of {:?} by {piece}", row.given);
    }
    Ok(())
}

#[test]
fn reads_in_any_pieces(rt: HostRuntime) -> Result<(), Fail> {
    let shape = adc(rt.alloc())?;
    for row in ROWS {
        check_reading(&rt, rt.alloc(), &shape, row)?;
    }
    Ok(())
}

// Whether a front part of the first row's bytes was sent and printed.
fn is_front(link: &MemLink, output: &MemSink) -> bool {
    SENT.starts_with(link.sent()) && PRINTED.starts_with(output.written())
}

// Returns how the reading of the first row ends if these calls fail,
// provided that a front part of the row's bytes was sent and printed.
fn faulty_end(
    alloc: Global,
    ask: &Ask<'_>,
    receives: &[u64],
    sends: &[u64],
    writes: &[u64],
) -> Result<Option<ClientEnd>, Fail>
    requires { IsAsk (wanted_by ask.now) }
{
    let mut link = link(alloc, GIVEN, 1, receives, sends)?;
    let mut output = sink(alloc, writes)?;
    let end = end_of(alloc, ask, &mut link, &mut output);
    let front = is_front(&link, &output);
    Ok(if front { Some(end) } else { None })
}

// Reads the first row while these calls fail, and compares the end.
fn check_faults(
    rt: &impl Abort,
    alloc: Global,
    shape: &Shape,
    receives: &[u64],
    sends: &[u64],
    writes: &[u64],
    want: ClientEnd,
) -> Result<(), Fail> {
    let ask = ask(rt, shape, "00000005", 1)?;
    let end = faulty_end(alloc, &ask, receives, sends, writes)?;
    assert_eq!(rt; end, Some(want), "with {receives:?}, {sends:?}, {writes:?}");
    Ok(())
}

// Reads the first row, of which 19 bytes come, one at a time, and 4 lines are sent, while each call fails in turn.
fn fail_each_call(rt: &impl Abort, alloc: Global, shape: &Shape) -> Result<(), Fail> {
    for call in 1..20 {
        check_faults(rt, alloc, shape, &[call], &[], &[], ClientEnd::LinkFault)?;
    }
    for call in 1..5 {
        check_faults(rt, alloc, shape, &[], &[call], &[], ClientEnd::LinkFault)?;
    }
    check_faults(rt, alloc, shape, &[], &[], &[1], ClientEnd::WriteFault)?;
    check_faults(rt, alloc, shape, &[20], &[5], &[2], ClientEnd::Done)
}

#[test]
fn each_call_fails_in_turn(rt: HostRuntime) -> Result<(), Fail> {
    let shape = adc(rt.alloc())?;
    fail_each_call(&rt, rt.alloc(), &shape)
}
