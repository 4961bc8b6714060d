//! Carries out one item of a connection.

ghost use Rattle.std.specs.Prelude.{◌≡◌, ◌<◌, length, option_map, vec_capacity, Ok, Err, IfOk, IfSome, OnOk};
ghost use Rattle.iiod_grammar.specs.Stream.{Said, Streamed, Written};
ghost use Rattle.iiod_grammar.specs.View.{command_view, target_view};
ghost use Rattle.iiod_commands.specs.Answers.{Fits, IsAt, ServesBy};
ghost use Rattle.iiod_commands.specs.Client.{IsClient, state_of, answering};
ghost use Rattle.iiod_commands.specs.Performs.{AnswersInRoom, IsAtOnce, Performs};
ghost use Rattle.iiod_commands.specs.declared.manner.Progress.{Progress};

use crate::answers::{ANSWER_ROOM, Answer, answered, finish, push_answer, push_no};
use crate::attributes::{read_attribute_at, write_attribute};
use crate::buffers::{remask_known, set_buffers_at, write_buffer};
use crate::client::Client;
use crate::events::{ev_close_known, ev_open_known, ev_read_known};
use crate::iio::{Iio, No};
use crate::manner::{Manner, Progress};
use crate::seats::{close_at, open_at};
use crate::triggers::{get_trigger_at, set_trigger_at};
use iio_base::Mem;
use iio_text::Errno;
use iiod_grammar::{Command, Place, Refused};
use std::alloc::Global;

// Carries out a command at the device of that number, the one that it names, or at none.
#[inline(always)]
fn at_device<I: Iio>(
    alloc: Global,
    dev: Option<u32>,
    client: &mut Client<I::Seat>,
    iio: &mut I,
    command: &Command<'_>,
) -> Result<Answer, No>
    requires within { IfSome dev (λ k. k < length (I.front (I.kept iio.old)).devices) }
    requires at { IsAt (I.front (I.kept iio.old)) dev (command_view command.now) }
    requires client { IsClient I.seen (I.front (I.kept iio.old)) client.old }
    ensures kept { I.kept iio.new ≡ I.kept iio.old }
    ensures client { IsClient I.seen (I.front (I.kept iio.new)) client.new }
    ensures fits { Fits result }
    ensures served { ServesBy (I.front (I.kept iio.old)) (state_of I.seen (I.told iio.old) client.old) (Said (Ok (command_view command.now))) result
        (state_of I.seen (I.told iio.new) client.new) }
{
    match dev {
        None => Err(No::Errno(Errno::ENODEV)),
        Some(dev) => match *command {
            Command::Open {
                samples,
                mask,
                cyclic,
                ..
            } => answered(0, open_at(client, iio, dev, samples, mask, cyclic)),
            Command::Close { .. } => answered(0, close_at(client, iio, dev)),
            Command::Read { place, attr, .. } => read_attribute_at(
                alloc, client, iio, dev, place, attr,
            ),
            Command::GetTrig { .. } => get_trigger_at(iio, dev),
            Command::SetTrig { trigger, .. } => answered(0, set_trigger_at(iio, dev, trigger)),
            Command::SetBuffers { count, .. } => answered(
                0,
                set_buffers_at(client, iio, dev, count),
            ),
            Command::Remask { mask, .. } => answered(0, remask_known(client, iio, dev, mask)),
            Command::EvOpen { .. } => answered(0, ev_open_known(client, iio, dev)),
            Command::EvRead { .. } => ev_read_known(client, iio, dev),
            Command::EvClose { .. } => answered(0, ev_close_known(client, iio, dev)),
            Command::Help
            | Command::Exit
            | Command::Version
            | Command::Print
            | Command::Timeout { .. }
            | Command::Write { .. }
            | Command::WriteBuf { .. }
            | Command::ReadBuf { .. } => Ok(Answer::Number(0)),
        },
    }
}

// Carries out a command that is answered at once: not EXIT, WRITE, WRITEBUF or READBUF.
#[inline(always)]
fn answer_to<I: Iio>(
    alloc: Global,
    client: &mut Client<I::Seat>,
    iio: &mut I,
    command: &Command<'_>,
) -> Result<Answer, No>
    requires at_once { IsAtOnce (Ok (command_view command.now)) }
    requires client { IsClient I.seen (I.front (I.kept iio.old)) client.old }
    ensures kept { I.kept iio.new ≡ I.kept iio.old }
    ensures client { IsClient I.seen (I.front (I.kept iio.new)) client.new }
    ensures fits { Fits result }
    ensures served { ServesBy (I.front (I.kept iio.old)) (state_of I.seen (I.told iio.old) client.old) (Said (Ok (command_view command.now))) result
        (state_of I.seen (I.told iio.new) client.new) }
{
    match *command {
        Command::Help => Ok(Answer::Help),
        Command::Version => Ok(Answer::Version),
        Command::Print => Ok(Answer::Context),
        Command::Timeout { .. } => Ok(Answer::Number(0)),
        Command::Exit
        | Command::Write { .. }
        | Command::WriteBuf { .. }
        | Command::ReadBuf { .. } => Ok(Answer::Number(0)),
        Command::Open { dev, .. } => at_device(alloc, iio.find(dev), client, iio, command),
        Command::Close { dev } => at_device(alloc, iio.find(dev), client, iio, command),
        Command::Read { dev, .. } => at_device(alloc, iio.find(dev), client, iio, command),
        Command::GetTrig { dev } => at_device(alloc, iio.find(dev), client, iio, command),
        Command::SetTrig { dev, .. } => at_device(alloc, iio.find(dev), client, iio, command),
        Command::SetBuffers { dev, .. } => at_device(alloc, iio.find(dev), client, iio, command),
        Command::Remask { dev, .. } => at_device(alloc, iio.find(dev), client, iio, command),
        Command::EvOpen { dev } => at_device(alloc, iio.find(dev), client, iio, command),
        Command::EvRead { dev } => at_device(alloc, iio.find(dev), client, iio, command),
        Command::EvClose { dev } => at_device(alloc, iio.find(dev), client, iio, command),
    }
}

/// Performs a command that is answered at once (not EXIT, WRITE, WRITEBUF or READBUF), and appends its answer to `out`.
///
/// If memory runs out, a server answers so, provided that there is room for a short answer; a script ends with `Mem`.
#[inline(always)]
pub fn perform<I: Iio>(
    alloc: Global,
    manner: Manner,
    client: &mut Client<I::Seat>,
    iio: &mut I,
    command: &Command<'_>,
    out: &mut Vec<u8>,
) -> Result<(), Mem>
    requires client { IsClient I.seen (I.front (I.kept iio.old)) client.old }
    requires at_once { IsAtOnce (Ok (command_view command.now)) }
    ensures kept { I.kept iio.new ≡ I.kept iio.old }
    ensures client { IsClient I.seen (I.front (I.kept iio.new)) client.new }
    ensures served { OnOk result (Performs manner (I.front (I.kept iio.old)) (answering (state_of I.seen (I.told iio.old) client.old) out.old.items)
        (Said (Ok (command_view command.now))) (answering (state_of I.seen (I.told iio.new) client.new) out.new.items) Progress.Done) }
    ensures answers { AnswersInRoom manner out.old.items (vec_capacity out.old) result }
{
    if out.reserve(ANSWER_ROOM).is_err() {
        return push_no(manner, No::Mem, out);
    }
    let answer = answer_to(alloc, client, iio, command);
    push_answer(manner, iio, answer, out)
}

/// Answers a line that is no command: appends `EINVAL` to `out`, or nothing for a line without a word. If memory runs out it
/// does what [`perform`] does.
pub fn perform_refused<I: Iio>(
    manner: Manner,
    client: &Client<I::Seat>,
    iio: &I,
    why: Refused,
    out: &mut Vec<u8>,
) -> Result<Progress, Mem>
    ensures served { IfOk result (Performs manner (I.front (I.kept iio.now)) (answering (state_of I.seen (I.told iio.now) client.now) out.old.items)
        (Said (Err why)) (answering (state_of I.seen (I.told iio.now) client.now) out.new.items)) }
    ensures answers { AnswersInRoom manner out.old.items (vec_capacity out.old) result }
{
    match why {
        Refused::Empty => Ok(Progress::Done),
        Refused::Unknown | Refused::Shape | Refused::Number => {
            finish(manner, No::Errno(Errno::EINVAL), out)
        }
    }
}

/// Performs a WRITE with its payload, and appends its answer to `out`. If memory runs out it does what [`perform`] does.
pub fn perform_written<I: Iio>(
    _alloc: Global,
    manner: Manner,
    client: &mut Client<I::Seat>,
    iio: &mut I,
    device: &[u8],
    target: Option<(Place<'_>, Option<&[u8]>)>,
    payload: &[u8],
    out: &mut Vec<u8>,
) -> Result<Progress, Mem>
    requires client { IsClient I.seen (I.front (I.kept iio.old)) client.old }
    ensures kept { I.kept iio.new ≡ I.kept iio.old }
    ensures client { IsClient I.seen (I.front (I.kept iio.new)) client.new }
    ensures done { IfOk result (λ p. p ≡ Progress.Done) }
    ensures served { IfOk result (Performs manner (I.front (I.kept iio.old)) (answering (state_of I.seen (I.told iio.old) client.old) out.old.items)
        (Written device.now (option_map target_view target.entry) payload.now) (answering (state_of I.seen (I.told iio.new) client.new) out.new.items)) }
    ensures answers { AnswersInRoom manner out.old.items (vec_capacity out.old) result }
{
    if out.reserve(ANSWER_ROOM).is_err() {
        return finish(manner, No::Mem, out);
    }
    let answer = write_attribute(client, iio, device, target, payload);
    push_answer(manner, iio, answer, out)?;
    Ok(Progress::Done)
}

/// Performs a WRITEBUF with its payload, and appends its answer to `out`. If memory runs out it does what [`perform`] does.
pub fn perform_streamed<I: Iio>(
    manner: Manner,
    client: &mut Client<I::Seat>,
    iio: &mut I,
    device: &[u8],
    payload: &[u8],
    out: &mut Vec<u8>,
) -> Result<Progress, Mem>
    requires client { IsClient I.seen (I.front (I.kept iio.old)) client.old }
    ensures kept { I.kept iio.new ≡ I.kept iio.old }
    ensures client { IsClient I.seen (I.front (I.kept iio.new)) client.new }
    ensures done { IfOk result (λ p. p ≡ Progress.Done) }
    ensures served { IfOk result (Performs manner (I.front (I.kept iio.old)) (answering (state_of I.seen (I.told iio.old) client.old) out.old.items)
        (Streamed device.now payload.now) (answering (state_of I.seen (I.told iio.new) client.new) out.new.items)) }
    ensures answers { AnswersInRoom manner out.old.items (vec_capacity out.old) result }
{
    if out.reserve(ANSWER_ROOM).is_err() {
        return finish(manner, No::Mem, out);
    }
    let answer = write_buffer(client, iio, device, payload);
    push_answer(manner, iio, answer, out)?;
    Ok(Progress::Done)
}
