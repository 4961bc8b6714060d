//! Answers that come over a link.

ghost use Rattle.std.specs.Prelude.{◌≡◌, ℕ, ◌≤◌, [], None};
ghost use Rattle.iiod_client.specs.Awaited.{Plain, Scans};
ghost use Rattle.iiod_client.specs.Exchange.{FaultsOf, Hears, SaysPlain};
ghost use Rattle.iiod_client.specs.Point.{point};
ghost use Rattle.iiod_client.specs.Standing.{new_answer};

use crate::answer::{Answer, State};
use crate::client_end::ClientEnd;
use crate::incoming::Incoming;
use crate::line::{MAX_LINE, read_refusal};
use arrayvec::ArrayVec;
use iio_io::Link;

// Returns what the line of a plain answer means.
fn plain_end(line: &[u8]) -> Result<(), ClientEnd>
    ensures { SaysPlain line.now result }
{
    if line == b"0".as_slice() {
        return Ok(());
    }
    match read_refusal(line) {
        Some(n) => Err(ClientEnd::Refused(n)),
        None => Err(ClientEnd::Malformed),
    }
}

/// Receives a plain answer: the line `0`, or a refusal.
pub(crate) fn hear_plain<L: Link>(link: &mut L, incoming: &mut Incoming) -> Result<(), ClientEnd>
    ensures hears { Hears Plain [] result (point (L.left link.old) incoming.old None None) (point (L.left link.new) incoming.new None None) }
    ensures written { L.written link.new ≡ L.written link.old }
    ensures faults { FaultsOf result (L.faults link.old) (L.faults link.new) 0 0 }
{
    let mut line: ArrayVec<u8, MAX_LINE> = ArrayVec::new();
    loop {
        let byte = incoming.next_byte(link)?;
        if byte == b'\n' {
            return plain_end(line.as_slice());
        }
        if line.try_push(byte).is_err() {
            return Err(ClientEnd::Malformed);
        }
    }
}

/// Receives an answer to READBUF, of which nothing has come yet.
pub(crate) fn hear_answer<L: Link>(
    link: &mut L,
    incoming: &mut Incoming,
    answer: &mut Answer,
) -> Result<(), ClientEnd>
    requires new { answer.old ≡ new_answer answer.old.asked }
    requires some { 1 ≤ answer.old.asked.bytes }
    ensures hears { Hears (Scans answer.old.asked) answer.new.body result (point (L.left link.old) incoming.old None None)
        (point (L.left link.new) incoming.new None None) }
    ensures written { L.written link.new ≡ L.written link.old }
    ensures faults { FaultsOf result (L.faults link.old) (L.faults link.new) 0 0 }
{
    loop {
        incoming.fill(link)?;
        let (taken, state) = answer.feed(incoming.pending());
        incoming.skip(taken);
        match state {
            State::More => {}
            State::Done => return Ok(()),
            State::Refused(n) => return Err(ClientEnd::Refused(n)),
            State::Malformed => return Err(ClientEnd::Malformed),
        }
    }
}
