//! Carries out the items of a stream one after another.

ghost use Rattle.std.specs.Prelude.{◌≡◌, ◌≤◌, ◌++◌, [], Ok, Err, IfOk, OnOk, drop, false, length, true};
ghost use Rattle.iiod_grammar.specs.Command.{ReadBuf, command_of};
ghost use Rattle.iiod_grammar.specs.Lines.{LinesRecord, after_piece};
ghost use Rattle.iiod_grammar.specs.Scans.{scan_on};
ghost use Rattle.iiod_grammar.specs.Stream.{AtEnd, End, after_line, ended_by, no_item, with_payload};
ghost use Rattle.iiod_grammar.specs.View.{command_view};
ghost use Rattle.iiod_reply.specs.Reply.{text_of};
ghost use Rattle.iiod_commands.specs.Acts.{end_reply};
ghost use Rattle.iiod_commands.specs.Client.{IsClient, state_of, answering};
ghost use Rattle.iiod_session.specs.PendingWrite.{PendingRecord, pending_of};
ghost use Rattle.iiod_commands.specs.Performs.{IsAtOnce, Performs};
ghost use Rattle.iiod_session.specs.Session.{IsKept, IsReady, IsWhole, piece_by, stream_by, unread_of};
ghost use Rattle.iiod_session.specs.Watch.{Hears, IsSeen, is_waiting, scene_of};
ghost use Rattle.iiod_session.specs.declared.going.Going.{Going};
ghost use Rattle.iiod_commands.specs.declared.manner.Manner.{Manner};
ghost use Rattle.iiod_grammar.specs.declared.lines.Ready.{Ready};
ghost use Rattle.iiod_session.specs.Run.{feeding};

use crate::going::Going;
use crate::pending_write::PendingWrite;
use crate::watch::{Seen, Watch, count_of};
use iio_base::Mem;
use iio_text::Errno;
use iiod_commands::{
    Client, Iio, Manner, Progress, leave, perform, perform_refused, perform_streamed,
    perform_written, push_refusal, read_buffer,
};
use iiod_grammar::{Command, Lines, MAX_PAYLOAD, Ready, Refused, cut_anywhere, read_line};
use std::alloc::Global;

// Appends the answer to the end of a connection: nothing for EXIT, the error for a broken limit.
fn push_end(out: &mut Vec<u8>, error: Option<Errno>) -> Result<(), Mem>
    ensures { OnOk result (out.new.items ≡ out.old.items ++ text_of (end_reply error)) }
{
    match error {
        None => Ok(()),
        Some(errno) => push_refusal(out, errno),
    }
}

// Ends a connection: tells the watch, appends the answer, closes the seats and ends the holdings.
fn end<I: Iio, W: Watch<I>>(
    client: &mut Client<I::Seat>,
    iio: &mut I,
    watch: &mut W,
    error: Option<Errno>,
    seen: &Seen<'_>,
    out: &mut Vec<u8>,
) -> Result<Going, Mem>
    requires client { IsClient I.seen (I.front (I.kept iio.old)) client.old }
    requires seen { IsSeen (End error) seen.now }
    ensures kept { I.kept iio.new ≡ I.kept iio.old }
    ensures client { IsClient I.seen (I.front (I.kept iio.new)) client.new }
    ensures ended { IfOk result (λ going. going ≡ Going.Ended) }
    ensures hears { (manner : Manner) → IfOk result (λ going. Hears W.makes manner (I.front (I.kept iio.old))
        (feeding (scene_of I.seen (I.told iio.old) client.old watch.old false) (ended_by error) out.old.items)
        (feeding (scene_of I.seen (I.told iio.new) client.new watch.new false) (no_item AtEnd) out.new.items) going) }
{
    watch.before(iio, client.who, seen);
    push_end(out, error)?;
    leave(client, iio);
    Ok(Going::Ended)
}

// Answers a line that is no command.
fn hear_refused<I: Iio, W: Watch<I>>(
    manner: Manner,
    client: &Client<I::Seat>,
    iio: &I,
    watch: &mut W,
    why: Refused,
    out: &mut Vec<u8>,
) -> Result<Going, Mem>
    ensures ready { (lines : LinesRecord) (pending : PendingRecord) → lines ≡ after_piece lines.piece → IfOk result (λ going. IsReady going lines pending) }
    ensures hears { (lines : LinesRecord) (pending : PendingRecord) → lines ≡ after_piece lines.piece → command_of lines.piece ≡ Err why
        → IfOk result (λ going. Hears W.makes manner (I.front (I.kept iio.now))
        (feeding (scene_of I.seen (I.told iio.now) client.now watch.old false) (after_line lines.piece) out.old.items)
        (feeding (scene_of I.seen (I.told iio.now) client.now watch.new (is_waiting going)) (stream_by going lines pending) out.new.items) going) }
{
    watch.before(iio, client.who, &Seen::Refused);
    perform_refused(manner, client, iio, why, out)?;
    Ok(Going::On)
}

// Carries out a command that is answered at once: not EXIT, WRITE, WRITEBUF or READBUF.
fn hear_said<I: Iio, W: Watch<I>>(
    alloc: Global,
    manner: Manner,
    client: &mut Client<I::Seat>,
    iio: &mut I,
    watch: &mut W,
    command: &Command<'_>,
    out: &mut Vec<u8>,
) -> Result<Going, Mem>
    requires client { IsClient I.seen (I.front (I.kept iio.old)) client.old }
    requires at_once { IsAtOnce (Ok (command_view command.now)) }
    ensures kept { I.kept iio.new ≡ I.kept iio.old }
    ensures client { IsClient I.seen (I.front (I.kept iio.new)) client.new }
    ensures ready { (lines : LinesRecord) (pending : PendingRecord) → lines ≡ after_piece lines.piece → IfOk result (λ going. IsReady going lines pending) }
    ensures hears { (lines : LinesRecord) (pending : PendingRecord) → lines ≡ after_piece lines.piece → command_of lines.piece ≡ Ok (command_view command.now)
        → IfOk result (λ going. Hears W.makes manner (I.front (I.kept iio.old))
        (feeding (scene_of I.seen (I.told iio.old) client.old watch.old false) (after_line lines.piece) out.old.items)
        (feeding (scene_of I.seen (I.told iio.new) client.new watch.new (is_waiting going)) (stream_by going lines pending) out.new.items) going) }
{
    watch.before(iio, client.who, &Seen::Command(*command));
    perform(alloc, manner, client, iio, command, out)?;
    Ok(Going::On)
}

// Carries out a READBUF. If it waits, the words that it needs are kept, so that its line isn't parsed again.
fn hear_read<I: Iio, W: Watch<I>>(
    manner: Manner,
    client: &mut Client<I::Seat>,
    iio: &mut I,
    watch: &mut W,
    device: &[u8],
    asked: u32,
    pending: &mut PendingWrite,
    out: &mut Vec<u8>,
) -> Result<Going, Mem>
    requires client { IsClient I.seen (I.front (I.kept iio.old)) client.old }
    ensures kept { I.kept iio.new ≡ I.kept iio.old }
    ensures client { IsClient I.seen (I.front (I.kept iio.new)) client.new }
    ensures ready { (lines : LinesRecord) → lines ≡ after_piece lines.piece
        → command_of lines.piece ≡ Ok (ReadBuf device.now asked) → IfOk result (λ going. IsReady going lines pending.new) }
    ensures hears { (lines : LinesRecord) → lines ≡ after_piece lines.piece → command_of lines.piece ≡ Ok (ReadBuf device.now asked)
        → IfOk result (λ going. Hears W.makes manner (I.front (I.kept iio.old))
        (feeding (scene_of I.seen (I.told iio.old) client.old watch.old false) (after_line lines.piece) out.old.items)
        (feeding (scene_of I.seen (I.told iio.new) client.new watch.new (is_waiting going)) (stream_by going lines pending.new) out.new.items) going) }
{
    let command = Command::ReadBuf {
        dev: device,
        bytes: asked,
    };
    watch.before(iio, client.who, &Seen::Command(command));
    match read_buffer(manner, client, iio, device, asked, out)? {
        Progress::Done => Ok(Going::On),
        Progress::Waits(dev) => {
            pending.keep_read(device, asked)?;
            Ok(Going::Waits(dev))
        }
    }
}

// Tries the READBUF that waits again.
fn hear_again<I: Iio, W: Watch<I>>(
    manner: Manner,
    client: &mut Client<I::Seat>,
    iio: &mut I,
    _watch: &W,
    pending: &PendingWrite,
    out: &mut Vec<u8>,
) -> Result<Going, Mem>
    requires client { IsClient I.seen (I.front (I.kept iio.old)) client.old }
    ensures kept { I.kept iio.new ≡ I.kept iio.old }
    ensures client { IsClient I.seen (I.front (I.kept iio.new)) client.new }
    ensures ready { (lines : LinesRecord) → lines ≡ after_piece lines.piece
        → command_of lines.piece ≡ Ok (ReadBuf pending.now.device pending.now.asked) → IfOk result (λ going. IsReady going lines pending.now) }
    ensures hears { (lines : LinesRecord) → lines ≡ after_piece lines.piece → command_of lines.piece ≡ Ok (ReadBuf pending.now.device pending.now.asked)
        → IfOk result (λ going. Hears W.makes manner (I.front (I.kept iio.old))
        (feeding (scene_of I.seen (I.told iio.old) client.old _watch.now true) (after_line lines.piece) out.old.items)
        (feeding (scene_of I.seen (I.told iio.new) client.new _watch.now (is_waiting going)) (stream_by going lines pending.now) out.new.items) going) }
{
    match read_buffer(manner, client, iio, pending.device(), pending.asked(), out)? {
        Progress::Done => Ok(Going::On),
        Progress::Waits(dev) => Ok(Going::Waits(dev)),
    }
}

// Carries out a whole line. The words of a WRITE or WRITEBUF are kept until its payload has been received.
fn hear_line<I: Iio, W: Watch<I>>(
    alloc: Global,
    manner: Manner,
    client: &mut Client<I::Seat>,
    iio: &mut I,
    watch: &mut W,
    lines: &mut Lines,
    pending: &mut PendingWrite,
    out: &mut Vec<u8>,
) -> Result<Going, Mem>
    requires piece { lines.old ≡ after_piece lines.old.piece }
    requires client { IsClient I.seen (I.front (I.kept iio.old)) client.old }
    ensures kept { I.kept iio.new ≡ I.kept iio.old }
    ensures client { IsClient I.seen (I.front (I.kept iio.new)) client.new }
    ensures ready { IfOk result (λ going. IsReady going lines.new pending.new) }
    ensures hears { IfOk result (λ going. Hears W.makes manner (I.front (I.kept iio.old))
        (feeding (scene_of I.seen (I.told iio.old) client.old watch.old false) (after_line lines.old.piece) out.old.items)
        (feeding (scene_of I.seen (I.told iio.new) client.new watch.new (is_waiting going)) (stream_by going lines.new pending.new) out.new.items) going) }
{
    match &read_line(lines.piece()) {
        Err(why) => hear_refused(manner, client, iio, watch, *why, out),
        Ok(command) => match command {
            Command::Exit => end(client, iio, watch, None, &Seen::Command(*command), out),
            Command::Write { dev, target, count } => {
                if *count > MAX_PAYLOAD {
                    let seen = Seen::Command(*command);
                    return end(client, iio, watch, Some(Errno::EFBIG), &seen, out);
                }
                let count = *count;
                pending.keep(dev, *target)?;
                lines.want(count);
                Ok(Going::On)
            }
            Command::WriteBuf { dev, bytes } => {
                if *bytes > MAX_PAYLOAD {
                    let told = Seen::Command(*command);
                    return end(client, iio, watch, Some(Errno::EFBIG), &told, out);
                }
                let count = *bytes;
                pending.keep_scans(dev)?;
                lines.want(count);
                Ok(Going::On)
            }
            Command::ReadBuf { dev, bytes } => {
                hear_read(manner, client, iio, watch, dev, *bytes, pending, out)
            }
            command => hear_said(alloc, manner, client, iio, watch, command, out),
        },
    }
}

// Carries out the WRITE or WRITEBUF that was kept, with its whole payload.
fn hear_payload<I: Iio, W: Watch<I>>(
    alloc: Global,
    manner: Manner,
    client: &mut Client<I::Seat>,
    iio: &mut I,
    watch: &mut W,
    payload: &[u8],
    pending: &PendingWrite,
    out: &mut Vec<u8>,
) -> Result<Progress, Mem>
    requires client { IsClient I.seen (I.front (I.kept iio.old)) client.old }
    ensures kept { I.kept iio.new ≡ I.kept iio.old }
    ensures client { IsClient I.seen (I.front (I.kept iio.new)) client.new }
    ensures told { W.makes (I.front (I.kept iio.old)) (I.told iio.old) client.old.who
        (with_payload (pending_of pending.now) payload.now) watch.old watch.new }
    ensures served { IfOk result (Performs manner (I.front (I.kept iio.old)) (answering (state_of I.seen (I.told iio.old) client.old) out.old.items)
        (with_payload (pending_of pending.now) payload.now) (answering (state_of I.seen (I.told iio.new) client.new) out.new.items)) }
{
    if pending.is_scans() {
        let command = Command::WriteBuf {
            dev: pending.device(),
            bytes: count_of(payload),
        };
        watch.before(iio, client.who, &Seen::Command(command));
        return perform_streamed(manner, client, iio, pending.device(), payload, out);
    }
    let command = Command::Write {
        dev: pending.device(),
        target: pending.target(),
        count: count_of(payload),
    };
    watch.before(iio, client.who, &Seen::Command(command));
    perform_written(
        alloc,
        manner,
        client,
        iio,
        pending.device(),
        pending.target(),
        payload,
        out,
    )
}

// Carries out a piece that is whole: a line, the payload of the WRITE or WRITEBUF before it, or a line that is too long.
fn hear_piece<I: Iio, W: Watch<I>>(
    alloc: Global,
    manner: Manner,
    client: &mut Client<I::Seat>,
    iio: &mut I,
    watch: &mut W,
    lines: &mut Lines,
    pending: &mut PendingWrite,
    ready: Ready,
    out: &mut Vec<u8>,
) -> Result<Going, Mem>
    requires whole { IsWhole ready lines.old }
    requires client { IsClient I.seen (I.front (I.kept iio.old)) client.old }
    ensures kept { I.kept iio.new ≡ I.kept iio.old }
    ensures client { IsClient I.seen (I.front (I.kept iio.new)) client.new }
    ensures ready { IfOk result (λ going. IsReady going lines.new pending.new) }
    ensures payload { ready ≡ Ready.Payload → lines.new ≡ lines.old }
    ensures hears { IfOk result (λ going. Hears W.makes manner (I.front (I.kept iio.old))
        (feeding (scene_of I.seen (I.told iio.old) client.old watch.old false) (piece_by ready lines.old pending.old) out.old.items)
        (feeding (scene_of I.seen (I.told iio.new) client.new watch.new (is_waiting going)) (stream_by going lines.new pending.new) out.new.items) going) }
{
    match ready {
        Ready::More => Ok(Going::On),
        Ready::Line => {
            if lines.piece().is_empty() {
                return hear_refused(manner, client, iio, watch, Refused::Empty, out);
            }
            hear_line(alloc, manner, client, iio, watch, lines, pending, out)
        }
        Ready::Payload => {
            hear_payload(
                alloc,
                manner,
                client,
                iio,
                watch,
                lines.piece(),
                pending,
                out,
            )?;
            Ok(Going::On)
        }
        Ready::TooLong => end(client, iio, watch, Some(Errno::E2BIG), &Seen::TooLong, out),
    }
}

// Takes the pieces of further bytes one after another, and carries out each.
fn carry_on<I: Iio, W: Watch<I>>(
    alloc: Global,
    manner: Manner,
    client: &mut Client<I::Seat>,
    iio: &mut I,
    watch: &mut W,
    lines: &mut Lines,
    pending: &mut PendingWrite,
    bytes: &[u8],
    out: &mut Vec<u8>,
) -> Result<(usize, Going), Mem>
    requires ready { IsReady Going.On lines.old pending.old }
    requires client { IsClient I.seen (I.front (I.kept iio.old)) client.old }
    ensures kept { I.kept iio.new ≡ I.kept iio.old }
    ensures client { IsClient I.seen (I.front (I.kept iio.new)) client.new }
    ensures within { IfOk result (λ r. r.0 ≤ length bytes.now) }
    ensures ready { IfOk result (λ r. IsReady r.1 lines.new pending.new) }
    ensures hears { IfOk result (λ r. Hears W.makes manner (I.front (I.kept iio.old))
        (feeding (scene_of I.seen (I.told iio.old) client.old watch.old false) (scan_on (stream_by Going.On lines.old pending.old) bytes.now) out.old.items)
        (feeding (scene_of I.seen (I.told iio.new) client.new watch.new (is_waiting r.1)) (scan_on (stream_by r.1 lines.new pending.new) (drop r.0 bytes.now))
        out.new.items) r.1) }
    ensures all { IfOk result (λ r. r.1 ≡ Going.On → (r.0 ≡ length bytes.now) × ((stream_by Going.On lines.new pending.new).items ≡ [])) }
{
    cut_anywhere();
    let mut at = 0;
    loop {
        let (taken, ready) = lines.feed(&bytes[at..]);
        at += taken;
        if let Ready::More = ready {
            return Ok((at, Going::On));
        }
        match hear_piece(
            alloc, manner, client, iio, watch, lines, pending, ready, out,
        )? {
            Going::On => {}
            going => return Ok((at, going)),
        }
    }
}

/// Carries out the items that further bytes complete, beginning with the READBUF that waits, if there is one. Returns how many
/// of the bytes were looked at, and how the connection then stands.
pub(crate) fn carry_out<I: Iio, W: Watch<I>>(
    alloc: Global,
    manner: Manner,
    client: &mut Client<I::Seat>,
    iio: &mut I,
    watch: &mut W,
    lines: &mut Lines,
    pending: &mut PendingWrite,
    going: Going,
    bytes: &[u8],
    out: &mut Vec<u8>,
) -> Result<(usize, Going), Mem>
    requires ready { IsReady going lines.old pending.old }
    requires client { IsClient I.seen (I.front (I.kept iio.old)) client.old }
    ensures kept { I.kept iio.new ≡ I.kept iio.old }
    ensures client { IsClient I.seen (I.front (I.kept iio.new)) client.new }
    ensures within { IfOk result (λ r. r.0 ≤ length bytes.now) }
    ensures ready { IfOk result (λ r. IsReady r.1 lines.new pending.new) }
    ensures hears { IfOk result (λ r. Hears W.makes manner (I.front (I.kept iio.old))
        (feeding (scene_of I.seen (I.told iio.old) client.old watch.old (is_waiting going)) (scan_on (stream_by going lines.old pending.old) bytes.now)
        out.old.items)
        (feeding (scene_of I.seen (I.told iio.new) client.new watch.new (is_waiting r.1)) (scan_on (stream_by r.1 lines.new pending.new) (drop r.0 bytes.now))
        out.new.items) r.1) }
    ensures all { IfOk result (λ r. r.1 ≡ Going.On → (r.0 ≡ length bytes.now) × ((stream_by Going.On lines.new pending.new).items ≡ [])) }
{
    match going {
        Going::On => carry_on(
            alloc, manner, client, iio, watch, lines, pending, bytes, out,
        ),
        Going::Ended => Ok((0, Going::Ended)),
        Going::Waits(_) => match hear_again(manner, client, iio, watch, pending, out)? {
            Going::On => {
                if bytes.is_empty() {
                    return Ok((0, Going::On));
                }
                carry_on(
                    alloc, manner, client, iio, watch, lines, pending, bytes, out,
                )
            }
            going => Ok((0, going)),
        },
    }
}

// Returns the bytes that wait after a READBUF that waits.
fn unread(going: Going, taken: usize, bytes: &[u8]) -> &[u8]
    requires { taken ≤ length bytes.now }
    ensures { result.now ≡ unread_of going taken bytes.now }
{
    match going {
        Going::Waits(_) => &bytes[taken..],
        _ => b"",
    }
}

// Appends the bytes that wait after a READBUF to those that wait already.
fn keep_unread(left: &mut Vec<u8>, going: Going, taken: usize, bytes: &[u8]) -> Result<(), Mem>
    requires { taken ≤ length bytes.now }
    ensures { OnOk result (left.new.items ≡ left.old.items ++ unread_of going taken bytes.now) }
{
    match going {
        Going::Waits(_) => left.extend_from_slice(&bytes[taken..])?,
        Going::On | Going::Ended => {}
    }
    Ok(())
}

/// Does what [`carry_out`] does with the bytes that were kept waiting followed by `bytes`, and keeps those that wait after it.
pub(crate) fn hear<I: Iio, W: Watch<I>>(
    alloc: Global,
    manner: Manner,
    client: &mut Client<I::Seat>,
    iio: &mut I,
    watch: &mut W,
    lines: &mut Lines,
    pending: &mut PendingWrite,
    left: &mut Vec<u8>,
    was: Going,
    bytes: &[u8],
    out: &mut Vec<u8>,
) -> Result<Going, Mem>
    requires ready { IsKept was lines.old pending.old left.old.items }
    requires client { IsClient I.seen (I.front (I.kept iio.old)) client.old }
    ensures kept { I.kept iio.new ≡ I.kept iio.old }
    ensures client { IsClient I.seen (I.front (I.kept iio.new)) client.new }
    ensures ready { IfOk result (λ going. IsKept going lines.new pending.new left.new.items) }
    ensures hears { IfOk result (λ going. Hears W.makes manner (I.front (I.kept iio.old))
        (feeding (scene_of I.seen (I.told iio.old) client.old watch.old (is_waiting was))
        (scan_on (scan_on (stream_by was lines.old pending.old) left.old.items) bytes.now) out.old.items)
        (feeding (scene_of I.seen (I.told iio.new) client.new watch.new (is_waiting going)) (scan_on (stream_by going lines.new pending.new) left.new.items)
        out.new.items) going) }
    ensures all { IfOk result (λ going. going ≡ Going.On → (scan_on (stream_by going lines.new pending.new) left.new.items).items ≡ []) }
{
    if left.is_empty() {
        let (taken, going) = carry_out(
            alloc, manner, client, iio, watch, lines, pending, was, bytes, out,
        )?;
        keep_unread(left, going, taken, bytes)?;
        return Ok(going);
    }
    cut_anywhere();
    left.extend_from_slice(bytes)?;
    let (taken, going) = carry_out(
        alloc, manner, client, iio, watch, lines, pending, was, left, out,
    )?;
    let rest = Vec::from_slice(alloc, unread(going, taken, left))?;
    *left = rest;
    Ok(going)
}
