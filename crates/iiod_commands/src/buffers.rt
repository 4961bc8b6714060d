//! The commands of buffers that open no seat: READBUF, REMASK, WRITEBUF and SET.

ghost use Rattle.std.specs.Prelude.{◌≡◌, ◌<◌, ◌≤◌, ◌==◌, filter, not, length, vec_capacity, Ok, IfOk, IfSome, IsOk};
ghost use Rattle.iiod_grammar.specs.Command.{ReadBuf};
ghost use Rattle.iiod_grammar.specs.Stream.{Said, Streamed};
ghost use Rattle.iiod_commands.specs.Acts.{remask_known, set_buffers_at, write_buffer_at};
ghost use Rattle.iiod_commands.specs.Answers.{Fits, ServesBy};
ghost use Rattle.iiod_commands.specs.declared.client.BuffersCount.{BuffersCount};
ghost use Rattle.iiod_commands.specs.declared.manner.Manner.{Manner};
ghost use Rattle.iiod_commands.specs.Client.{IsClient, client_of, traces_of, state_of, answering, with_count};
ghost use Rattle.iiod_commands.specs.Performs.{AnswersInRoom, AnswersRead, Comes, HasRoomAfter, Performs, client_by, reply_by, taken_by, MovesBy};
ghost use Rattle.iiod_commands.specs.Moves.{RemasksAt};

use crate::answers::{Answer, finish};
use crate::client::{BuffersCount, Client, MAX_BUFFERS};
use crate::iio::{Iio, No, Took};
use crate::kinds::{is_input, unknown_refusal};
use crate::manner::{Manner, Progress};
use crate::seats::{read_at, remask_at, write_at};
use crate::wanted::ensure;
use iio_base::Mem;
use iio_text::Errno;

/// REMASK at the device of that number, of any kind: only the mask of an input device's member can be changed.
pub(crate) fn remask_known<I: Iio>(
    client: &mut Client<I::Seat>,
    iio: &mut I,
    dev: u32,
    text: &[u8],
) -> Result<(), No>
    requires dev { dev < length (I.front (I.kept iio.old)).devices }
    requires client { IsClient I.seen (I.front (I.kept iio.old)) client.old }
    ensures kept { I.kept iio.new ≡ I.kept iio.old }
    ensures client { IsClient I.seen (I.front (I.kept iio.new)) client.new }
    ensures told { IfSome (I.told iio.old) (λ m. Comes m (client_of I.seen client.old)
        (remask_known (I.front (I.kept iio.old)) m (client_of I.seen client.old) text.now dev)
        (reply_by result) (I.told iio.new) (client_of I.seen client.new)) }
    ensures moves { MovesBy (RemasksAt (I.front (I.kept iio.old)) dev text.now) (state_of I.seen (I.told iio.old) client.old) result
        (state_of I.seen (I.told iio.new) client.new) }
{
    if !is_input(iio, dev) {
        return Err(No::Errno(unknown_refusal(iio, dev)));
    }
    remask_at(client, iio, dev, text)
}

/// READBUF: appends its answer to `out`. In manner Server one that finds nothing at a device that is plugged isn't answered, and
/// waits. Room for the whole block is taken before any scan is taken, so that no scan is lost if memory runs out.
pub fn read_buffer<I: Iio>(
    manner: Manner,
    client: &mut Client<I::Seat>,
    iio: &mut I,
    device: &[u8],
    asked: u32,
    out: &mut Vec<u8>,
) -> Result<Progress, Mem>
    requires client { IsClient I.seen (I.front (I.kept iio.old)) client.old }
    ensures kept { I.kept iio.new ≡ I.kept iio.old }
    ensures client { IsClient I.seen (I.front (I.kept iio.new)) client.new }
    ensures served { IfOk result (Performs manner (I.front (I.kept iio.old)) (answering (state_of I.seen (I.told iio.old) client.old) out.old.items)
        (Said (Ok (ReadBuf device.now asked))) (answering (state_of I.seen (I.told iio.new) client.new) out.new.items)) }
    ensures answers { AnswersInRoom manner out.old.items (vec_capacity out.old) result }
{
    match iio.find(device) {
        None => finish(manner, No::Errno(Errno::ENODEV), out),
        Some(dev) => {
            if iio.is_output(dev) {
                let errno = unknown_refusal(iio, dev);
                return finish(manner, No::Errno(errno), out);
            }
            let took = read_at(client, iio, dev, asked, out);
            finish_read(manner, dev, took, out)
        }
    }
}

// Finishes READBUF's answer.
fn finish_read(
    manner: Manner,
    dev: u32,
    took: Result<Took, Mem>,
    out: &mut Vec<u8>,
) -> Result<Progress, Mem>
    ensures read { IfOk result (AnswersRead manner dev took out.old.items out.new.items) }
    ensures answers { manner ≡ Manner.Server → HasRoomAfter took out.old.items (vec_capacity out.old) → IsOk result }
{
    match took {
        Ok(Took::Scan) => Ok(Progress::Done),
        Ok(Took::Gone) => finish(manner, No::Errno(Errno::ENODEV), out),
        Ok(Took::Empty) => match manner {
            Manner::Server => Ok(Progress::Waits(dev)),
            Manner::Script => finish(manner, No::Errno(Errno::EAGAIN), out),
        },
        Err(Mem) => finish(manner, No::Mem, out),
    }
}

/// SET at the device of that number.
pub(crate) fn set_buffers_at<I: Iio>(
    client: &mut Client<I::Seat>,
    iio: &I,
    dev: u32,
    count: u32,
) -> Result<(), No>
    requires dev { dev < length (I.front (I.kept iio.now)).devices }
    requires client { IsClient I.seen (I.front (I.kept iio.now)) client.old }
    ensures client { IsClient I.seen (I.front (I.kept iio.now)) client.new }
    ensures told { IfSome (I.told iio.now) (λ m. Comes m (client_of I.seen client.old) (set_buffers_at m (client_of I.seen client.old) count dev)
        (reply_by result) (I.told iio.now) (client_of I.seen client.new)) }
    ensures alters { client_of I.seen client.new ≡ client_by (with_count dev count) (client_of I.seen client.old) result }
    ensures held { client.new.held ≡ client.old.held }
{
    ensure(iio.plugged(dev), Errno::ENODEV)?;
    if count == 0 || count > MAX_BUFFERS {
        return Err(No::Errno(Errno::EINVAL));
    }
    client.buffers.reserve(1)?;
    forget_count(&mut client.buffers, dev);
    client.buffers.push_reserved(BuffersCount { dev, count });
    Ok(())
}

// Removes the counts of a device.
fn forget_count(buffers: &mut Vec<BuffersCount>, dev: u32)
    ensures items { buffers.new.items ≡ filter (λ (b : BuffersCount). not (b.dev == dev)) buffers.old.items }
    ensures fewer { length buffers.new.items ≤ length buffers.old.items }
    ensures room { vec_capacity buffers.new ≡ vec_capacity buffers.old }
{
    buffers.retain(|b| b.dev != dev);
}

// WRITEBUF at the device of that number.
fn write_buffer_at<I: Iio>(
    client: &mut Client<I::Seat>,
    iio: &mut I,
    dev: u32,
    payload: &[u8],
) -> Result<u32, No>
    requires dev { dev < length (I.front (I.kept iio.old)).devices }
    requires client { IsClient I.seen (I.front (I.kept iio.old)) client.old }
    ensures kept { I.kept iio.new ≡ I.kept iio.old }
    ensures client { IsClient I.seen (I.front (I.kept iio.new)) client.new }
    ensures same { client_of I.seen client.new ≡ client_of I.seen client.old }
    ensures traces { traces_of I.seen client.new.held.items ≡ traces_of I.seen client.old.held.items }
    ensures within { IfOk result (λ taken. taken ≤ length payload.now) }
    ensures told { IfSome (I.told iio.old) (λ m. Comes m (client_of I.seen client.old)
        (write_buffer_at (I.front (I.kept iio.old)) m (client_of I.seen client.old) payload.now dev)
        (taken_by result) (I.told iio.new) (client_of I.seen client.old)) }
{
    ensure(iio.plugged(dev), Errno::ENODEV)?;
    ensure(iio.is_output(dev), Errno::ENOSYS)?;
    write_at(client, iio, dev, payload)
}

/// WRITEBUF, with its whole payload, answered by the number of bytes taken. `ENODEV` if the device is unplugged, then `ENOSYS`
/// if it isn't an output device, `EBADF` if the connection has no seat at it, then the refusals of [`Iio::write_scans`].
pub(crate) fn write_buffer<I: Iio>(
    client: &mut Client<I::Seat>,
    iio: &mut I,
    device: &[u8],
    payload: &[u8],
) -> Result<Answer, No>
    requires client { IsClient I.seen (I.front (I.kept iio.old)) client.old }
    ensures kept { I.kept iio.new ≡ I.kept iio.old }
    ensures client { IsClient I.seen (I.front (I.kept iio.new)) client.new }
    ensures fits { Fits result }
    ensures served { ServesBy (I.front (I.kept iio.old)) (state_of I.seen (I.told iio.old) client.old) (Streamed device.now payload.now) result
        (state_of I.seen (I.told iio.new) client.new) }
{
    let dev = iio.find(device).ok_or(Errno::ENODEV)?;
    let taken = write_buffer_at(client, iio, dev, payload)?;
    Ok(Answer::Number(taken as usize))
}
