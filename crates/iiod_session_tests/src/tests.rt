//! A session over the shelf.

ghost use Rattle.std.specs.Prelude.{IfOk};
ghost use Rattle.iio_desc.specs.WellFormed.{IsWellFormed};
ghost use Rattle.iiod_bank.specs.FrontOf.{front_of};
ghost use Rattle.iiod_commands.specs.Client.{IsClient};
ghost use Rattle.iiod_session_tests.specs.Shelf.{seen_of};

use crate::shelf::{Shelf, ShelfSeat};
use iio_desc::{Desc, read_desc};
use iiod_session::{Going, Manner, Seen, Session, Watch};
use std::alloc::Global;
use std::process::Abort;
use std::test::Fail;

// Describes a device with two channels of one byte each.
fn described(alloc: Global) -> Result<Desc, Fail>
    ensures { IfOk result (λ desc. IsWellFormed 0 desc) }
{
    let text = b"trigger t0 1
device adc0 t0
channel voltage0 le:u8/8>>0
channel voltage1 le:u8/8>>0
row 0 1 2
";
    Ok(read_desc(alloc, text, 0)?)
}

// Creates a shelf on which these scans wait.
fn shelf_of(alloc: Global, scans: &[&[u8]]) -> Result<Shelf, Fail> {
    let mut shelf = Shelf::new(alloc, described(alloc)?)?;
    for scan in scans {
        shelf.scans.push(scan.to_vec(alloc)?)?;
    }
    Ok(shelf)
}

// The bytes received, the bytes answered, and how the connection then stands.
type Exchange<'a> = (&'a [u8], &'a [u8], Going);

// Feeds a piece, and checks the answers and how the connection then stands.
fn hear(
    rt: &impl Abort,
    alloc: Global,
    session: &mut Session<ShelfSeat>,
    shelf: &mut Shelf,
    exchange: Exchange<'_>,
) -> Result<(), Fail>
    requires { IsClient seen_of (front_of shelf.old.front) session.old.client }
    ensures { IsClient seen_of (front_of shelf.new.front) session.new.client }
{
    let (piece, answers, going) = exchange;
    let mut out = Vec::new(alloc);
    let now = session.feed(alloc, shelf, piece, &mut out)?;
    assert_eq!(rt; out.as_slice(), answers, "after {piece:?}");
    assert_eq!(rt; now, going, "after {piece:?}");
    Ok(())
}

fn hear_all(
    rt: &impl Abort,
    alloc: Global,
    session: &mut Session<ShelfSeat>,
    shelf: &mut Shelf,
    exchanges: &[Exchange<'_>],
) -> Result<(), Fail>
    requires { IsClient seen_of (front_of shelf.old.front) session.old.client }
    ensures { IsClient seen_of (front_of shelf.new.front) session.new.client }
{
    for exchange in exchanges {
        hear(rt, alloc, session, shelf, *exchange)?;
    }
    Ok(())
}

// Returns the scans that each closed seat had given: a line for each seat, and a space after each scan.
fn lists(alloc: Global, closed: &[Vec<Vec<u8>>]) -> Result<Vec<u8>, Fail> {
    let mut text = Vec::new(alloc);
    for seat in closed {
        for scan in seat {
            text.extend_from_slice(scan)?;
            text.push(b' ')?;
        }
        text.push(b'\n')?;
    }
    Ok(text)
}

// Returns the scans that the seats of a session had given, of those that wait on a shelf.
fn lists_after(
    rt: &impl Abort,
    alloc: Global,
    scans: &[&[u8]],
    exchanges: &[Exchange<'_>],
) -> Result<Vec<u8>, Fail> {
    let mut shelf = shelf_of(alloc, scans)?;
    let mut session = Session::new(alloc, 3, Manner::Server)?;
    hear_all(rt, alloc, &mut session, &mut shelf, exchanges)?;
    session.end(&mut shelf);
    lists(alloc, &shelf.closed)
}

// Three seats one after another, in pieces that end within lines and contain many. The last READBUF waits.
const EXCHANGES: &[Exchange<'static>] = &[
    (b"OPEN adc0 2 000", b"", Going::On),
    (
        b"00003\nREADBUF adc0 4\nREADB",
        b"0\n4\n00000003\naAbB",
        Going::On,
    ),
    (
        b"UF adc0 7\nREADBUF adc0 1\nREAD adc0 BUFFER length\nCLOSE adc0\nSET adc0 BUFFERS_COUNT 1\n",
        b"6\n00000003\ncCdDeE0\n0\n1\n8\n0\n0\n",
        Going::On,
    ),
    (
        b"OPEN adc0 3 00000002\nREADBUF adc0 9\nREAD adc0 BUFFER length\nCLOSE adc0\nCLOSE adc0\nCLOSE adc1\n",
        b"0\n2\n00000002\nxy0\n1\n3\n0\n-9\n-19\n",
        Going::On,
    ),
    (
        b"OPEN adc0 1 00000003\nREADBUF adc0 99\nREADBUF adc0 2\nREADBUF adc0 2\n",
        b"0\n2\n00000003\nfF0\n2\n00000003\ngG",
        Going::Waits(0),
    ),
];

// The data of each seat's READBUFs are the scans that it gave, and its mask and capacity are those of its OPEN.
#[test]
fn data_are_what_the_seats_gave(rt: HostRuntime) -> Result<(), Fail> {
    let scans: [&[u8]; 9] = [b"aA", b"bB", b"cC", b"dD", b"eE", b"x", b"y", b"fF", b"gG"];
    let given = lists_after(&rt, rt.alloc(), &scans, EXCHANGES)?;
    assert_eq!(rt;
        given.as_slice(),
        b"aA bB cC dD eE \nx y \nfF gG \n".as_slice()
    );
    Ok(())
}

// A seat that gets another mask: the scans that it gives from then on are a list of their own.
const REMASKED: &[Exchange<'static>] = &[
    (
        b"OPEN adc0 2 00000003\nREADBUF adc0 2\nREMASK adc0 00000002\n",
        b"0\n2\n00000003\naA0\n",
        Going::On,
    ),
    (
        b"READBUF adc0 2\nREAD adc0 BUFFER discarded\n",
        b"2\n00000002\nxy1\n2\n",
        Going::On,
    ),
];

// The data after a REMASK are the scans that the seat has given since then, under its new mask.
#[test]
fn a_remask_begins_the_data_anew(rt: HostRuntime) -> Result<(), Fail> {
    let scans: [&[u8]; 3] = [b"aA", b"x", b"y"];
    let given = lists_after(&rt, rt.alloc(), &scans, REMASKED)?;
    assert_eq!(rt; given.as_slice(), b"aA \nx y \n".as_slice());
    Ok(())
}

// What a watch was told: a letter for each item, and a digit for the number of scans that waited just before it.
#[derive(Drop)]
struct Letters {
    told: [u8; 32],
    count: usize,
}

impl Letters {
    fn new() -> Letters {
        Letters {
            told: [0; 32],
            count: 0,
        }
    }

    fn push(&mut self, letter: u8) {
        if self.count < 32 {
            self.told[self.count] = letter;
            self.count += 1;
        }
    }

    fn text(&self) -> &[u8] {
        if self.count <= 32 {
            &self.told[..self.count]
        } else {
            b""
        }
    }
}

impl Watch<Shelf> for Letters {
    ghost makes = { λ front told who item old new. Unit {0} };

    fn before(&mut self, iio: &Shelf, _who: u32, item: &Seen<'_>) {
        self.push(match item {
            Seen::Command(_) => b'c',
            Seen::Refused => b'r',
            Seen::TooLong => b'l',
        });
        self.push(b'0' + (iio.scans.len() % 10) as u8);
    }
}

// Feeds bytes to a watched session, and checks how it then stands, and all that the watch was told.
fn hear_watched(
    rt: &impl Abort,
    alloc: Global,
    session: &mut Session<ShelfSeat>,
    shelf: &mut Shelf,
    watch: &mut Letters,
    bytes: &[u8],
    want: (Going, &[u8]),
) -> Result<(), Fail>
    requires { IsClient seen_of (front_of shelf.old.front) session.old.client }
    ensures { IsClient seen_of (front_of shelf.new.front) session.new.client }
{
    let mut out = Vec::new(alloc);
    let going = session.feed_watched(alloc, shelf, watch, bytes, &mut out)?;
    let (now, told) = want;
    assert_eq!(rt; going, now, "after {bytes:?}");
    assert_eq!(rt; watch.text(), told, "after {bytes:?}");
    Ok(())
}

// Each item is told once, before it is carried out, and a READBUF that waits isn't told again.
fn hear_items(
    rt: &impl Abort,
    alloc: Global,
    session: &mut Session<ShelfSeat>,
    shelf: &mut Shelf,
) -> Result<(), Fail>
    requires { IsClient seen_of (front_of shelf.old.front) session.old.client }
    ensures { IsClient seen_of (front_of shelf.new.front) session.new.client }
{
    let mut watch = Letters::new();
    let bytes = b"OPEN adc0 1 00000003\nNONE\n\nREADBUF adc0 2\nREADBUF adc0 2\nVERSION\n";
    let waits = (Going::Waits(0), b"c1r1r1c1c0".as_slice());
    hear_watched(rt, alloc, session, shelf, &mut watch, bytes, waits)?;
    assert!(rt; session.holds(0) && !session.holds(1) && !session.holds_nothing());
    shelf.scans.push(b"bB".to_vec(alloc)?)?;
    let on = (Going::On, b"c1r1r1c1c0c0".as_slice());
    hear_watched(rt, alloc, session, shelf, &mut watch, b"EX", on)?;
    let ended = (Going::Ended, b"c1r1r1c1c0c0c0".as_slice());
    hear_watched(rt, alloc, session, shelf, &mut watch, b"IT\n\n", ended)?;
    assert!(rt; session.holds_nothing());
    Ok(())
}

#[test]
fn a_watch_is_told_each_item_once(rt: HostRuntime) -> Result<(), Fail> {
    let mut shelf = shelf_of(rt.alloc(), &[b"aA"])?;
    let mut session = Session::new(rt.alloc(), 3, Manner::Server)?;
    hear_items(&rt, rt.alloc(), &mut session, &mut shelf)?;
    session.end(&mut shelf);
    Ok(())
}

// Checks that a session ends with these bytes, and what a watch of it is told.
fn hear_limit(
    rt: &impl Abort,
    alloc: Global,
    shelf: &mut Shelf,
    bytes: &[u8],
    told: &[u8],
) -> Result<(), Fail> {
    let mut session = Session::new(alloc, 3, Manner::Script)?;
    let mut watch = Letters::new();
    let ended = (Going::Ended, told);
    hear_watched(rt, alloc, &mut session, shelf, &mut watch, bytes, ended)?;
    session.end(shelf);
    Ok(())
}

// Both broken limits: a line that is too long, and a payload that is too large, which is told as the WRITE.
#[test]
fn a_watch_is_told_a_broken_limit(rt: HostRuntime) -> Result<(), Fail> {
    let alloc = rt.alloc();
    let mut shelf = shelf_of(alloc, &[])?;
    let long = [b'x'; 1025];
    let large = b"WRITE adc0 sampling_frequency 2\n10WRITE adc0 x 65537\n";
    hear_limit(&rt, alloc, &mut shelf, &long, b"l0")?;
    hear_limit(&rt, alloc, &mut shelf, large, b"c0c0")
}
