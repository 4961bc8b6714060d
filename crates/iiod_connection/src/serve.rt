//! Serves a connection over a link.

ghost use Rattle.std.specs.Prelude.{◌≡◌, ◌<◌, ◌≤◌, ◌+◌, ◌++◌, drop, [], length, Some, IfSome, IfOk, OnOk};
ghost use Rattle.iiod_commands.specs.Client.{IsClient, state_of};
ghost use Rattle.iiod_commands.specs.declared.manner.Manner.TheVariants.{Server};
ghost use Rattle.iiod_connection.specs.Parts.{PartsAreShort, part_length};
ghost use Rattle.iiod_connection.specs.Place.{Place, place_of};
ghost use Rattle.iiod_connection.specs.SessionEnd.{EndFaults, Ends, IsServed, exchange};
ghost use Rattle.iiod_connection.specs.Talks.{Faults, IsLast, SendsOnce, StandsBy, Talks, Turns};

use crate::session_end::SessionEnd;
use iio_io::{Gate, Link, Point, send_whole};
use iio_text::line_len;
use iiod_grammar::cut_anywhere;
use iiod_session::{Bells, Going, Manner, Session};
use std::alloc::Global;
use std::sync::Wait;

// The most bytes that one receive asks for.
const PIECE: usize = 4_096;

// Feeds bytes, and sends all of their answers.
fn feed_and_send<L: Link, B: Bells>(
    alloc: Global,
    session: &mut Session<B::Seat>,
    iio: &mut B,
    link: &mut L,
    bytes: &[u8],
    out: &mut Vec<u8>,
) -> Result<Going, SessionEnd>
    requires manner { session.old.manner ≡ Server }
    requires client { IsClient B.seen (B.front (B.kept iio.old)) session.old.client }
    ensures manner { session.new.manner ≡ Server }
    ensures kept { B.kept iio.new ≡ B.kept iio.old }
    ensures client { IsClient B.seen (B.front (B.kept iio.new)) session.new.client }
    ensures left { L.left link.new ≡ L.left link.old }
    ensures faults { Faults result (L.faults link.old) (L.faults link.new) }
    ensures sends { SendsOnce (B.front (B.kept iio.old)) (place_of B.seen (B.told iio.old) session.old) bytes.now (L.written link.old)
        (place_of B.seen (B.told iio.new) session.new) (L.written link.new) result }
{
    out.clear();
    let Ok(going) = session.feed(alloc, iio, bytes, out) else {
        return Err(SessionEnd::Memory);
    };
    if send_whole(link, out).is_err() {
        return Err(SessionEnd::LinkFault);
    }
    Ok(going)
}

// The state carried from one part to the next: room for answers, and the last look at the bell that was waited for, taken
// before the last try.
#[derive(Drop)]
struct Carried {
    out: Vec<u8>,
    look: Option<Look>,
}

// How often a device's bell had rung at a look at it.
#[derive(Clone, Copy)]
struct Look {
    dev: u32,
    count: u64,
}

// Looks at a device's bell.
fn look_at<B: Bells>(iio: &B, dev: u32) -> Look
    requires { dev < length (B.front (B.kept iio.now)).devices }
    ensures { result.dev ≡ dev }
{
    Look {
        dev,
        count: iio.bell(dev),
    }
}

// Looks again at the bell that was looked at last.
fn look_again<B: Bells>(iio: &B, look: Option<Look>) -> Option<Look>
    requires { IfSome look (λ l. l.dev < length (B.front (B.kept iio.now)).devices) }
    ensures { IfSome result (λ l. l.dev < length (B.front (B.kept iio.now)).devices) }
{
    match look {
        Some(l) => Some(look_at(iio, l.dev)),
        None => None,
    }
}

// Waits for the device's bell to ring again, if it was looked at before the try that found nothing.
fn wait_for<B: Bells>(iio: &B, dev: u32, look: Option<Look>)
    requires { dev < length (B.front (B.kept iio.now)).devices }
{
    if let Some(l) = look {
        if l.dev == dev {
            iio.wait(dev, l.count);
        }
    }
}

// Waits for the bell of the device, and tries the READBUF that waits there again. The bell is looked at before the try, so that
// a scan that comes between the try and the next wait isn't slept through.
fn try_again<L: Link, B: Bells>(
    alloc: Global,
    session: &mut Session<B::Seat>,
    iio: &mut B,
    link: &mut L,
    carried: &mut Carried,
    dev: u32,
) -> Result<Going, SessionEnd>
    requires manner { session.old.manner ≡ Server }
    requires client { IsClient B.seen (B.front (B.kept iio.old)) session.old.client }
    requires there { dev < length (B.front (B.kept iio.old)).devices }
    ensures manner { session.new.manner ≡ Server }
    ensures kept { B.kept iio.new ≡ B.kept iio.old }
    ensures client { IsClient B.seen (B.front (B.kept iio.new)) session.new.client }
    ensures look { IfSome carried.new.look (λ l. l.dev < length (B.front (B.kept iio.new)).devices) }
    ensures left { L.left link.new ≡ L.left link.old }
    ensures faults { Faults result (L.faults link.old) (L.faults link.new) }
    ensures sends { SendsOnce (B.front (B.kept iio.old)) (place_of B.seen (B.told iio.old) session.old) [] (L.written link.old)
        (place_of B.seen (B.told iio.new) session.new) (L.written link.new) result }
{
    wait_for(iio, dev, carried.look);
    carried.look = Some(look_at(iio, dev));
    feed_and_send(alloc, session, iio, link, &[], &mut carried.out)
}

// Tries a READBUF that waits again, each time that its device's bell has rung, until nothing waits. The bell is looked at
// before each try, so that a scan that comes between the try and the wait isn't slept through. If the bell wasn't looked at
// before the first try, because another device was waited for last, the READBUF is tried once more before the wait.
fn settle<L: Link, B: Bells, R: Wait>(
    rt: &R,
    alloc: Global,
    session: &mut Session<B::Seat>,
    iio: &mut B,
    link: &mut L,
    carried: &mut Carried,
    going: Going,
) -> Result<(), SessionEnd>
    requires manner { session.old.manner ≡ Server }
    requires client { IsClient B.seen (B.front (B.kept iio.old)) session.old.client }
    requires look { IfSome carried.old.look (λ l. l.dev < length (B.front (B.kept iio.old)).devices) }
    requires stands { StandsBy (B.front (B.kept iio.old)) going (place_of B.seen (B.told iio.old) session.old) }
    ensures manner { session.new.manner ≡ Server }
    ensures kept { B.kept iio.new ≡ B.kept iio.old }
    ensures client { IsClient B.seen (B.front (B.kept iio.new)) session.new.client }
    ensures look { IfSome carried.new.look (λ l. l.dev < length (B.front (B.kept iio.new)).devices) }
    ensures left { L.left link.new ≡ L.left link.old }
    ensures faults { Faults result (L.faults link.old) (L.faults link.new) }
    ensures turns { Turns (B.front (B.kept iio.old)) (place_of B.seen (B.told iio.old) session.old) [] (L.written link.old)
        (place_of B.seen (B.told iio.new) session.new) (L.written link.new) result }
{
    let mut going = going;
    for _ in rt.forever() {
        let dev = match going {
            Going::On => return Ok(()),
            Going::Ended => return Err(SessionEnd::Ended),
            Going::Waits(dev) => dev,
        };
        going = try_again(alloc, session, iio, link, carried, dev)?;
    }
    unreachable!()
}

// Feeds a part of what was received, sends its answers, and tries again while a READBUF waits.
fn hear<L: Link, B: Bells, R: Wait>(
    rt: &R,
    alloc: Global,
    session: &mut Session<B::Seat>,
    iio: &mut B,
    link: &mut L,
    part: &[u8],
    carried: &mut Carried,
) -> Result<(), SessionEnd>
    requires manner { session.old.manner ≡ Server }
    requires client { IsClient B.seen (B.front (B.kept iio.old)) session.old.client }
    requires look { IfSome carried.old.look (λ l. l.dev < length (B.front (B.kept iio.old)).devices) }
    ensures manner { session.new.manner ≡ Server }
    ensures kept { B.kept iio.new ≡ B.kept iio.old }
    ensures client { IsClient B.seen (B.front (B.kept iio.new)) session.new.client }
    ensures look { IfSome carried.new.look (λ l. l.dev < length (B.front (B.kept iio.new)).devices) }
    ensures left { L.left link.new ≡ L.left link.old }
    ensures faults { Faults result (L.faults link.old) (L.faults link.new) }
    ensures turns { Turns (B.front (B.kept iio.old)) (place_of B.seen (B.told iio.old) session.old) part.now (L.written link.old)
        (place_of B.seen (B.told iio.new) session.new) (L.written link.new) result }
{
    carried.look = look_again(iio, carried.look);
    let going = feed_and_send(alloc, session, iio, link, part, &mut carried.out)?;
    settle(rt, alloc, session, iio, link, carried, going)
}

/// The law that a part completes at most two items, a payload and a line, wherever the stream stands; so it has at most two
/// answers. The call does nothing.
#[tactic(auto, using(crate::proofs::PartLaws::parts_are_short))]
pub fn parts_are_short()
    ensures { PartsAreShort }
{}

// Returns where the part that begins at `from` ends: after its first LF, or at the end of the bytes.
fn part_end(bytes: &[u8], from: usize) -> usize
    requires { from < length bytes.now }
    ensures more { from < result }
    ensures within { result ≤ length bytes.now }
    ensures part { result ≡ from + part_length (drop from bytes.now) }
{
    let lf = from + line_len(&bytes[from..]);
    if lf < bytes.len() { lf + 1 } else { lf }
}

// Feeds the bytes received part by part; each part is settled before the next one is fed.
fn turn<L: Link, B: Bells, R: Wait>(
    rt: &R,
    alloc: Global,
    session: &mut Session<B::Seat>,
    iio: &mut B,
    link: &mut L,
    bytes: &[u8],
    carried: &mut Carried,
) -> Result<(), SessionEnd>
    requires manner { session.old.manner ≡ Server }
    requires client { IsClient B.seen (B.front (B.kept iio.old)) session.old.client }
    requires look { IfSome carried.old.look (λ l. l.dev < length (B.front (B.kept iio.old)).devices) }
    requires settled { session.old.stream.items ≡ [] }
    ensures manner { session.new.manner ≡ Server }
    ensures kept { B.kept iio.new ≡ B.kept iio.old }
    ensures client { IsClient B.seen (B.front (B.kept iio.new)) session.new.client }
    ensures look { IfSome carried.new.look (λ l. l.dev < length (B.front (B.kept iio.new)).devices) }
    ensures left { L.left link.new ≡ L.left link.old }
    ensures faults { Faults result (L.faults link.old) (L.faults link.new) }
    ensures turns { Turns (B.front (B.kept iio.old)) (place_of B.seen (B.told iio.old) session.old) bytes.now (L.written link.old)
        (place_of B.seen (B.told iio.new) session.new) (L.written link.new) result }
{
    let mut done = 0;
    while done < bytes.len() {
        let until = part_end(bytes, done);
        hear(rt, alloc, session, iio, link, &bytes[done..until], carried)?;
        done = until;
    }
    Ok(())
}

// Receives and answers, until the connection ends.
fn talk<L: Link, B: Bells, G: Gate, R: Wait>(
    rt: &R,
    alloc: Global,
    session: &mut Session<B::Seat>,
    iio: &mut B,
    who: u32,
    link: &mut L,
    gate: &G,
) -> SessionEnd
    requires manner { session.old.manner ≡ Server }
    requires client { IsClient B.seen (B.front (B.kept iio.old)) session.old.client }
    requires settled { session.old.stream.items ≡ [] }
    ensures kept { B.kept iio.new ≡ B.kept iio.old }
    ensures client { IsClient B.seen (B.front (B.kept iio.new)) session.new.client }
    ensures faults { EndFaults result (L.faults link.old) (L.faults link.new) }
    ensures served { (b : Place)
        × Ends (Talks (B.front (B.kept iio.old)) (place_of B.seen (B.told iio.old) session.old)) result
        (L.left link.old) (L.written link.old) (L.left link.new) (L.written link.new) b
        × IsLast result b (place_of B.seen (B.told iio.new) session.new) }
{
    let mut carried = Carried {
        out: Vec::new(alloc),
        look: None,
    };
    let mut piece = [0; PIECE];
    for _ in rt.forever() {
        let Ok(count) = link.recv(&mut piece) else {
            return SessionEnd::LinkFault;
        };
        if count == 0 {
            return SessionEnd::Eof;
        }
        gate.pass(Point::Heard(who));
        if let Err(end) = turn(rt, alloc, session, iio, link, &piece[..count], &mut carried) {
            if end == SessionEnd::Ended {
                gate.pass(Point::Answered(who));
            }
            return end;
        }
        gate.pass(Point::Answered(who));
    }
    unreachable!()
}

/// Serves connection number `who` over a link to its end, and then closes what it has open.
///
/// What is received is fed part by part, each up to its first LF, and the answers to a part are sent before the next part is
/// fed. If a READBUF waits, it is tried again each time that its device's bell has rung, and nothing more is fed until it is
/// answered. The gate is passed at `Heard(who)` after each receive that returned bytes, and at `Answered(who)` after the
/// answers to these bytes were sent completely.
///
/// `Eof` if a receive returned nothing: everything received was heard, and each whole command was answered. `Ended` after EXIT
/// or a broken limit, when the answers up to there were sent. `LinkFault` if a receive or a send failed, and `Memory` if there
/// was no memory for the session or an answer.
pub fn serve_on<L: Link, B: Bells, G: Gate, R: Wait>(
    rt: &R,
    alloc: Global,
    iio: &mut B,
    who: u32,
    link: &mut L,
    gate: &G,
) -> SessionEnd
    ensures kept { B.kept iio.new ≡ B.kept iio.old }
    ensures faults { EndFaults result (L.faults link.old) (L.faults link.new) }
    ensures served { IsServed (B.front (B.kept iio.old)) who (exchange (B.told iio.old) (L.left link.old) (L.written link.old)) result
        (exchange (B.told iio.new) (L.left link.new) (L.written link.new)) }
{
    cut_anywhere();
    let Ok(mut session) = Session::new(alloc, who, Manner::Server) else {
        return SessionEnd::Memory;
    };
    let end = talk(rt, alloc, &mut session, iio, who, link, gate);
    session.end(iio);
    end
}
