//! Reads a device over a link.

ghost use Rattle.std.specs.Prelude.{◌≡◌, ◌⊎◌, ℕ, ◌+◌, ◌*◌, ◌^◌, ◌<◌, ◌≤◌, ◌++◌, [], List, Option, None, length, OnOk, OnErr, IfOk, IfErr, IfSome};
ghost use Rattle.iio_layout.specs.Layout.{scan_size};
ghost use Rattle.iio_layout.specs.Shape.{count_of};
ghost use Rattle.iiod_client.specs.Ask.{IsAsk, Wanted, batch, open_line, question, size_for, wanted_by};
ghost use Rattle.iiod_client.specs.Awaited.{Plain, Scans};
ghost use Rattle.iiod_client.specs.ClientEnd.{Ends, EndsBy, Faults};
ghost use Rattle.iiod_client.specs.Exchange.{Breaks, BreaksOf, Exchanges, FaultsOf, ReadsAll, Reads, Refuses};
ghost use Rattle.iiod_client.specs.Point.{Point, Goes, Wrote, WroteFront, point};
ghost use Rattle.iiod_client.specs.Printed.{refused_line, scan_line, scan_lines};
ghost use Rattle.iiod_client.specs.Standing.{new_answer};
ghost use Rattle.iiod_client.specs.Talk.{Closing, IsStage, Read, heard_of, printed_for, sent_for};

use crate::answer::{Answer, MAX_ASKED};
use crate::ask::Ask;
use crate::client_end::ClientEnd;
use crate::hearing::{hear_answer, hear_plain};
use crate::incoming::Incoming;
use crate::printing::{put_refused, put_scan};
use crate::requests::{put_close, put_exit, put_open, put_readbuf};
use iio_base::Mem;
use iio_io::{Link, Sink, send_whole, write_whole};
use iio_layout::{Shape, scan_size};
use iio_mask::Mask;
use std::alloc::Global;

/// The maximum number of scans that one READBUF asks for.
pub const MOST_SCANS: u32 = 64;

// Sends all of `bytes`. If a send fails, a front part was sent.
fn send_all<L: Link>(link: &mut L, bytes: &[u8]) -> Result<(), ClientEnd>
    ensures sends { OnOk result (Wrote (L.written link.old) bytes.now (L.written link.new)) }
    ensures part { OnErr result (WroteFront (L.written link.old) bytes.now (L.written link.new)) }
    ensures left { L.left link.new ≡ L.left link.old }
    ensures fails { IfErr result (λ e. e ≡ ClientEnd.LinkFault) }
    ensures faults { FaultsOf result (L.faults link.old) (L.faults link.new) 0 0 }
{
    match send_whole(link, bytes) {
        Ok(()) => Ok(()),
        Err(_) => Err(ClientEnd::LinkFault),
    }
}

// Prints all of `bytes`. If a write fails, a front part was printed.
fn print_all<K: Sink>(output: &mut K, bytes: &[u8]) -> Result<(), ClientEnd>
    ensures prints { OnOk result (Wrote (K.written output.old) bytes.now (K.written output.new)) }
    ensures part { OnErr result (WroteFront (K.written output.old) bytes.now (K.written output.new)) }
    ensures fails { IfErr result (λ e. e ≡ ClientEnd.WriteFault) }
    ensures faults { FaultsOf result 0 0 (K.faults output.old) (K.faults output.new) }
{
    match write_whole(output, bytes) {
        Ok(()) => Ok(()),
        Err(_) => Err(ClientEnd::WriteFault),
    }
}

// Sends a line, and hears its plain answer.
fn exchange_plain<L: Link>(
    link: &mut L,
    incoming: &mut Incoming,
    line: &[u8],
) -> Result<(), ClientEnd>
    ensures exchanges { (printed : Option (List ℕ)) → Exchanges Plain line.now [] result
        (point (L.left link.old) incoming.old (L.written link.old) printed) (point (L.left link.new) incoming.new (L.written link.new) printed) }
    ensures faults { FaultsOf result (L.faults link.old) (L.faults link.new) 0 0 }
{
    send_all(link, line)?;
    hear_plain(link, incoming)
}

// Sends a READBUF, and hears its answer.
fn exchange_scans<L: Link>(
    link: &mut L,
    incoming: &mut Incoming,
    line: &[u8],
    answer: &mut Answer,
) -> Result<(), ClientEnd>
    requires new { answer.old ≡ new_answer answer.old.asked }
    requires some { 1 ≤ answer.old.asked.bytes }
    ensures exchanges { (printed : Option (List ℕ)) → Exchanges (Scans answer.old.asked) line.now answer.new.body result
        (point (L.left link.old) incoming.old (L.written link.old) printed) (point (L.left link.new) incoming.new (L.written link.new) printed) }
    ensures faults { FaultsOf result (L.faults link.old) (L.faults link.new) 0 0 }
{
    send_all(link, line)?;
    hear_answer(link, incoming, answer)
}

// Prints a scan's line; it is put together in `line`.
fn print_scan<K: Sink>(
    output: &mut K,
    line: &mut Vec<u8>,
    shape: &Shape,
    mask: Mask,
    scan: &[u8],
) -> Result<(), ClientEnd>
    requires below { mask.bits < 2 ^ count_of shape.now }
    requires size { length scan.now ≡ scan_size shape.now mask.bits }
    ensures prints { OnOk result (Wrote (K.written output.old) (scan_line shape.now mask.bits scan.now) (K.written output.new)) }
    ensures part { OnErr result (WroteFront (K.written output.old) (scan_line shape.now mask.bits scan.now) (K.written output.new)) }
    ensures fails { IfErr result (λ e. (e ≡ ClientEnd.WriteFault) ⊎ (e ≡ ClientEnd.Memory)) }
    ensures faults { FaultsOf result 0 0 (K.faults output.old) (K.faults output.new) }
{
    if put_scan(line, shape, mask, scan).is_err() {
        return Err(ClientEnd::Memory);
    }
    print_all(output, line)
}

// Prints the lines of scans.
fn print_scans<K: Sink>(
    output: &mut K,
    line: &mut Vec<u8>,
    shape: &Shape,
    mask: Mask,
    size: u32,
    body: &[u8],
) -> Result<(), ClientEnd>
    requires below { mask.bits < 2 ^ count_of shape.now }
    requires size { size ≡ scan_size shape.now mask.bits }
    requires some { 1 ≤ size }
    ensures prints { OnOk result (Wrote (K.written output.old) (scan_lines shape.now mask.bits body.now) (K.written output.new)) }
    ensures part { OnErr result (WroteFront (K.written output.old) (scan_lines shape.now mask.bits body.now) (K.written output.new)) }
    ensures fails { IfErr result (λ e. (e ≡ ClientEnd.WriteFault) ⊎ (e ≡ ClientEnd.Memory)) }
    ensures faults { FaultsOf result 0 0 (K.faults output.old) (K.faults output.new) }
{
    let size = size as usize;
    for k in 0..body.len() / size {
        print_scan(output, line, shape, mask, &body[k * size..(k + 1) * size])?;
    }
    Ok(())
}

// Returns the number of bytes to ask for after `got` scans.
fn batch_of(ask: &Ask<'_>, got: u32, size: u32) -> u32
    requires ask { IsAsk (wanted_by ask.now) }
    requires size { size ≡ size_for (wanted_by ask.now) }
    requires few { size ≤ 1024 }
    requires some { 1 ≤ size }
    requires more { got < ask.now.scans }
    ensures value { result ≡ batch (wanted_by ask.now) got }
    ensures some { 1 ≤ result }
    ensures most { result ≤ MAX_ASKED }
{
    size * MOST_SCANS.min(ask.scans - got)
}

// Returns the size of a scan.
fn size_of(ask: &Ask<'_>) -> u32
    requires ask { IsAsk (wanted_by ask.now) }
    ensures value { result ≡ size_for (wanted_by ask.now) }
    ensures few { result ≤ 1024 }
    ensures some { 1 ≤ result }
{
    let _ = ask.shape.count();
    scan_size(ask.shape, ask.mask)
}

// Makes the answer that is awaited after `got` scans; nothing of it has come yet.
fn new_batch(alloc: Global, ask: &Ask<'_>, got: u32) -> Result<Answer, Mem>
    requires ask { IsAsk (wanted_by ask.now) }
    requires more { got < ask.now.scans }
    ensures new { IfOk result (λ answer. answer ≡ new_answer (question (wanted_by ask.now) got)) }
    ensures some { 1 ≤ batch (wanted_by ask.now) got }
{
    let size = size_of(ask);
    let bytes = batch_of(ask, got, size);
    Answer::new(alloc, bytes, ask.mask, ask.shape.count(), size)
}

// Asks for further scans after `got` scans, prints them, and returns their number.
fn read_batch<L: Link, K: Sink>(
    alloc: Global,
    link: &mut L,
    incoming: &mut Incoming,
    ask: &Ask<'_>,
    got: u32,
    output: &mut K,
    line: &mut Vec<u8>,
) -> Result<u32, ClientEnd>
    requires ask { IsAsk (wanted_by ask.now) }
    requires more { got < ask.now.scans }
    ensures some { IfOk result (λ n. (1 ≤ n) × (got + n ≤ ask.now.scans)) }
    ensures reads { Reads (wanted_by ask.now) got result
        (point (L.left link.old) incoming.old (L.written link.old) (K.written output.old))
        (point (L.left link.new) incoming.new (L.written link.new) (K.written output.new)) }
    ensures faults { FaultsOf result (L.faults link.old) (L.faults link.new) (K.faults output.old) (K.faults output.new) }
{
    let size = size_of(ask);
    put_readbuf(line, ask, batch_of(ask, got, size))?;
    let mut answer = new_batch(alloc, ask, got)?;
    exchange_scans(link, incoming, line, &mut answer)?;
    print_scans(output, line, ask.shape, ask.mask, size, answer.body())?;
    Ok((answer.body().len() / size as usize) as u32)
}

// Reads and prints all wanted scans of a device that was opened.
fn read_all<L: Link, K: Sink>(
    alloc: Global,
    link: &mut L,
    incoming: &mut Incoming,
    ask: &Ask<'_>,
    output: &mut K,
    line: &mut Vec<u8>,
) -> Result<(), ClientEnd>
    requires { IsAsk (wanted_by ask.now) }
    ensures reads { (a : Point) → Goes a (heard_of []) (open_line (wanted_by ask.now)) []
        (point (L.left link.old) incoming.old (L.written link.old) (K.written output.old)) →
        ReadsAll (wanted_by ask.now) result a (point (L.left link.new) incoming.new (L.written link.new) (K.written output.new)) }
    ensures faults { FaultsOf result (L.faults link.old) (L.faults link.new) (K.faults output.old) (K.faults output.new) }
{
    let mut got = 0;
    while got < ask.scans {
        got += read_batch(alloc, link, incoming, ask, got, output, line)?;
    }
    Ok(())
}

// Opens the device, and reads all wanted scans.
fn open_and_read<L: Link, K: Sink>(
    alloc: Global,
    link: &mut L,
    incoming: &mut Incoming,
    ask: &Ask<'_>,
    output: &mut K,
    line: &mut Vec<u8>,
) -> Result<(), ClientEnd>
    requires { IsAsk (wanted_by ask.now) }
    ensures reads { ReadsAll (wanted_by ask.now) result
        (point (L.left link.old) incoming.old (L.written link.old) (K.written output.old))
        (point (L.left link.new) incoming.new (L.written link.new) (K.written output.new)) }
    ensures faults { FaultsOf result (L.faults link.old) (L.faults link.new) (K.faults output.old) (K.faults output.new) }
{
    put_open(alloc, line, ask)?;
    exchange_plain(link, incoming, line)?;
    read_all(alloc, link, incoming, ask, output, line)
}

// Closes the device, and ends the connection with EXIT.
fn close_and_leave<L: Link>(
    link: &mut L,
    incoming: &mut Incoming,
    ask: &Ask<'_>,
    line: &mut Vec<u8>,
) -> Result<(), ClientEnd>
    ensures leaves { (a : Point) (reads : List Read) (printed : Option (List ℕ)) → IsStage (wanted_by ask.now) (Closing reads) →
        Goes a (heard_of reads) (sent_for (wanted_by ask.now) reads) (printed_for (wanted_by ask.now) reads)
        (point (L.left link.old) incoming.old (L.written link.old) printed) →
        BreaksOf (wanted_by ask.now) result a (point (L.left link.new) incoming.new (L.written link.new) printed) }
    ensures faults { FaultsOf result (L.faults link.old) (L.faults link.new) 0 0 }
{
    put_close(line, ask)?;
    exchange_plain(link, incoming, line)?;
    put_exit(line)?;
    send_all(link, line)
}

// Opens the device, reads all wanted scans, closes it, and ends the connection with EXIT.
fn talk<L: Link, K: Sink>(
    alloc: Global,
    link: &mut L,
    incoming: &mut Incoming,
    ask: &Ask<'_>,
    output: &mut K,
    line: &mut Vec<u8>,
) -> Result<(), ClientEnd>
    requires { IsAsk (wanted_by ask.now) }
    ensures talks { BreaksOf (wanted_by ask.now) result
        (point (L.left link.old) incoming.old (L.written link.old) (K.written output.old))
        (point (L.left link.new) incoming.new (L.written link.new) (K.written output.new)) }
    ensures faults { FaultsOf result (L.faults link.old) (L.faults link.new) (K.faults output.old) (K.faults output.new) }
{
    open_and_read(alloc, link, incoming, ask, output, line)?;
    close_and_leave(link, incoming, ask, line)
}

// Prints a refusal.
fn print_refused<K: Sink>(output: &mut K, line: &mut Vec<u8>, number: u32) -> ClientEnd
    ensures end { Refuses result number }
    ensures whole { result ≡ ClientEnd.Refused number → Wrote (K.written output.old) (refused_line number) (K.written output.new) }
    ensures part { WroteFront (K.written output.old) (refused_line number) (K.written output.new) }
    ensures faults { Faults result 0 0 (K.faults output.old) (K.faults output.new) }
{
    if put_refused(line, number).is_err() {
        return ClientEnd::Memory;
    }
    match print_all(output, line) {
        Ok(()) => ClientEnd::Refused(number),
        Err(end) => end,
    }
}

// Ends a talk that broke off: if the reason is a refusal, it is printed.
fn end_with<K: Sink>(output: &mut K, line: &mut Vec<u8>, end: ClientEnd) -> ClientEnd
    ensures ends { (w : Wanted) (a : Point) (left : Option (List ℕ)) (pending : List ℕ) (sent : Option (List ℕ))
        → Breaks w end a (point left pending sent (K.written output.old)) →
        Ends w result a (point left pending sent (K.written output.new)) }
    ensures faults { (link : ℕ) (link' : ℕ) (before : ℕ) → Faults end link link' before (K.faults output.old)
        → Faults result link link' before (K.faults output.new) }
{
    if let ClientEnd::Refused(number) = end {
        return print_refused(output, line, number);
    }
    end
}

/// Reads the scans of a device over a link, and prints a line for each: its bytes in hexadecimal, and the values of the
/// selected channels.
///
/// It sends OPEN, then READBUF for at most `MOST_SCANS` scans at a time until all wanted scans have come, then CLOSE and
/// EXIT. It awaits the answer to each line but EXIT before it sends the next. Scans are printed once the answer that brought
/// them is whole. If a refusal comes, `refused -N` is printed and nothing more is sent. No memory is taken for a scan: its
/// line is put together in a buffer that all share, and an answer has one for all its bytes.
pub fn read_device<L: Link, K: Sink>(
    alloc: Global,
    link: &mut L,
    ask: &Ask<'_>,
    output: &mut K,
) -> ClientEnd
    requires { IsAsk (wanted_by ask.now) }
    // What was heard, sent and printed; `pending` was received, and comes after what was heard.
    ensures ends { (pending : List ℕ) × Ends (wanted_by ask.now) result
        (point (L.left link.old) [] (L.written link.old) (K.written output.old)) (point (L.left link.new) pending (L.written link.new) (K.written output.new)) }
    ensures faults { Faults result (L.faults link.old) (L.faults link.new) (K.faults output.old) (K.faults output.new) }
    // Over a visible link the end is the one that its bytes come to, unless a call fails or memory runs out.
    ensures exact { IfSome (L.left link.old) (λ bytes. EndsBy (wanted_by ask.now) bytes result) }
{
    let mut incoming = Incoming::new();
    let mut line = Vec::new(alloc);
    if let Err(end) = talk(alloc, link, &mut incoming, ask, output, &mut line) {
        return end_with(output, &mut line, end);
    }
    ClientEnd::Done
}
