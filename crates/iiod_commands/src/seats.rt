//! A connection's seats: OPEN, CLOSE, REMASK, READBUF and WRITEBUF at the device of that number.

ghost use Rattle.std.specs.Prelude.{◌≡◌, ◌<◌, ◌≤◌, ◌&&◌, not, true, false, length, IfSome, IfOk, None, Err, vec_capacity};
ghost use Rattle.iiod_commands.specs.Acts.{close_at, joined_at, open_at, remask_at, write_at_place};
ghost use Rattle.iio_desc.specs.Kind.{is_input, is_output};
ghost use Rattle.iio_core.specs.Front.{kind_at, size_at};
ghost use Rattle.iiod_commands.specs.Client.{IsClient, IsHeld, seat_state_of, buffers_of, client_of, place_of, seats_of, trace_of, traces_of, state_of, answering};
ghost use Rattle.iiod_commands.specs.Performs.{Comes, ReadAt, ReadHeld, RemaskMoves, RemaskTold, WritesHeld, reply_by, taken_by, MovesBy};
ghost use Rattle.iio_core.specs.Calls.{open_of};
ghost use Rattle.iiod_commands.specs.Seat.{Answers, IsNew, MayOpen, SeatRecord, number_by};
ghost use Rattle.iiod_commands.specs.Wanted.{wanted_of_code};
ghost use Rattle.iio_text.specs.declared.errors.Errno.{Errno};
ghost use Rattle.iiod_commands.specs.declared.iio.No.{No};
ghost use Rattle.iiod_commands.specs.Reading.{reading};
ghost use Rattle.iiod_commands.specs.Moves.{JoinsAt, OpensAt, LeavesAt, RemasksAt};

use crate::answers::push_refusal;
use crate::client::{BuffersCount, Client, FIRST_BUFFERS, OpenSeat};
use crate::iio::{Iio, No, Took};
use crate::reading::read_sized;
use crate::wanted::{Wanted, ensure, mask_wanted_by, wanted_by};
use iio_base::Mem;
use iio_mask::Mask;
use iio_text::Errno;
use iiod_reply::number;

/// Returns the index of the seat at a device, if one of these seats is there.
pub fn place<S>(held: &[OpenSeat<S>], dev: u32) -> Option<usize>
    ensures place { (seen : S → SeatRecord) → result ≡ place_of dev (seats_of seen held.now) }
    ensures within { IfSome result (λ i. i < length held.now) }
{
    held.iter().position(|h| h.dev == dev)
}

// Returns the buffers count for an OPEN of a device.
fn buffers_of(buffers: &[BuffersCount], dev: u32) -> u32
    ensures { result ≡ buffers_of dev buffers.now }
{
    for b in buffers {
        if b.dev == dev {
            return b.count;
        }
    }
    FIRST_BUFFERS
}

// Opens a seat at a device of any kind.
fn open_seat<I: Iio>(
    iio: &mut I,
    dev: u32,
    mask: Mask,
    capacity: u32,
    cyclic: bool,
) -> Result<I::Seat, No>
    requires may_open { MayOpen (I.front (I.kept iio.old)) dev mask.bits capacity }
    requires cycles { (cyclic && not (is_output (kind_at (I.front (I.kept iio.old)) dev))) ≡ false }
    ensures kept { I.kept iio.new ≡ I.kept iio.old }
    ensures seat { IfOk result (λ s. IsNew (I.front (I.kept iio.old)) dev mask.bits capacity (I.seen s)) }
    ensures told { IfSome (I.told iio.old) (λ m. Answers (open_of (I.front (I.kept iio.old)) m dev mask.bits capacity cyclic) m
        (number_by I.seen result) (I.told iio.new)) }
{
    if iio.is_output(dev) {
        iio.open_out(dev, mask, capacity, cyclic)
    } else {
        iio.open(dev, mask, capacity)
    }
}

// The last part of OPEN: opens the seat and adds it. The room for it is taken first.
fn join<I: Iio>(
    client: &mut Client<I::Seat>,
    iio: &mut I,
    dev: u32,
    wanted: Wanted,
    cyclic: bool,
) -> Result<(), No>
    requires may_open { MayOpen (I.front (I.kept iio.old)) dev wanted.mask.bits wanted.capacity }
    requires size { wanted.size ≡ size_at (I.front (I.kept iio.old)) dev wanted.mask.bits }
    requires some { 1 ≤ wanted.size }
    requires free { place_of dev (seats_of I.seen client.old.held.items) ≡ None }
    requires cycles { (cyclic && not (is_output (kind_at (I.front (I.kept iio.old)) dev))) ≡ false }
    requires client { IsClient I.seen (I.front (I.kept iio.old)) client.old }
    ensures kept { I.kept iio.new ≡ I.kept iio.old }
    ensures client { IsClient I.seen (I.front (I.kept iio.new)) client.new }
    ensures told { IfSome (I.told iio.old) (λ m. Comes m (client_of I.seen client.old)
        (joined_at (I.front (I.kept iio.old)) m (client_of I.seen client.old) dev (wanted_of_code wanted) cyclic)
        (reply_by result) (I.told iio.new) (client_of I.seen client.new)) }
    ensures moves { MovesBy (JoinsAt dev (wanted_of_code wanted)) (state_of I.seen (I.told iio.old) client.old) result
        (state_of I.seen (I.told iio.new) client.new) }
{
    client.held.reserve(1)?;
    let seat = open_seat(iio, dev, wanted.mask, wanted.capacity, cyclic)?;
    client.held.push_reserved(OpenSeat {
        dev,
        mask: wanted.mask,
        capacity: wanted.capacity,
        size: wanted.size,
        discarded: 0,
        seat,
    });
    Ok(())
}

/// OPEN. The refusals are those of [`wanted_by`], then those of [`Iio::open`], or of [`Iio::open_out`] at an output device.
pub(crate) fn open_at<I: Iio>(
    client: &mut Client<I::Seat>,
    iio: &mut I,
    dev: u32,
    samples: u32,
    text: &[u8],
    cyclic: bool,
) -> Result<(), No>
    requires dev { dev < length (I.front (I.kept iio.old)).devices }
    requires client { IsClient I.seen (I.front (I.kept iio.old)) client.old }
    ensures kept { I.kept iio.new ≡ I.kept iio.old }
    ensures client { IsClient I.seen (I.front (I.kept iio.new)) client.new }
    ensures told { IfSome (I.told iio.old) (λ m. Comes m (client_of I.seen client.old)
        (open_at (I.front (I.kept iio.old)) m (client_of I.seen client.old) dev samples text.now cyclic)
        (reply_by result) (I.told iio.new) (client_of I.seen client.new)) }
    ensures moves { MovesBy (OpensAt (I.front (I.kept iio.old)) dev samples text.now cyclic) (state_of I.seen (I.told iio.old) client.old) result
        (state_of I.seen (I.told iio.new) client.new) }
{
    let is_open = place(&client.held, dev).is_some();
    let plugged = iio.plugged(dev);
    let buffers = buffers_of(&client.buffers, dev);
    let wanted = wanted_by(
        is_open,
        plugged,
        iio.is_output(dev),
        iio.shape(dev),
        buffers,
        samples,
        text,
        cyclic,
    )?;
    join(client, iio, dev, wanted, cyclic)
}

/// CLOSE. `EBADF` if the connection has no seat at the device.
pub(crate) fn close_at<I: Iio>(
    client: &mut Client<I::Seat>,
    iio: &mut I,
    dev: u32,
) -> Result<(), No>
    requires client { IsClient I.seen (I.front (I.kept iio.old)) client.old }
    ensures kept { I.kept iio.new ≡ I.kept iio.old }
    ensures client { IsClient I.seen (I.front (I.kept iio.new)) client.new }
    ensures told { IfSome (I.told iio.old) (λ m. Comes m (client_of I.seen client.old)
        (close_at (I.front (I.kept iio.old)) m (client_of I.seen client.old) (place_of dev (seats_of I.seen client.old.held.items)))
        (reply_by result) (I.told iio.new) (client_of I.seen client.new)) }
    ensures none { place_of dev (seats_of I.seen client.old.held.items) ≡ None → result ≡ Err (No.Errno Errno.EBADF) }
    ensures moves { MovesBy (LeavesAt dev) (state_of I.seen (I.told iio.old) client.old) result (state_of I.seen (I.told iio.new) client.new) }
{
    let Some(i) = place(&client.held, dev) else {
        return Err(No::Errno(Errno::EBADF));
    };
    let (at, seat) = client.held.remove(i).into_seat();
    iio.close(at, seat);
    Ok(())
}

// REMASK at a seat: its mask is replaced, and the scans that its queue held are counted as discarded.
fn remask_held<I: Iio>(iio: &mut I, h: &mut OpenSeat<I::Seat>, text: &[u8]) -> Result<(), No>
    requires held { IsHeld I.seen (I.front (I.kept iio.old)) h.old }
    requires input { is_input (kind_at (I.front (I.kept iio.old)) h.old.dev) ≡ true }
    ensures kept { I.kept iio.new ≡ I.kept iio.old }
    ensures held { IsHeld I.seen (I.front (I.kept iio.new)) h.new }
    ensures dev { h.new.dev ≡ h.old.dev }
    ensures told { IfSome (I.told iio.old) (λ m. RemaskTold (I.front (I.kept iio.old)) text.now m (seat_state_of I.seen h.old)
        result (I.told iio.new) (seat_state_of I.seen h.new)) }
    ensures moves { RemaskMoves (I.front (I.kept iio.old)) text.now (seat_state_of I.seen h.old) (trace_of I.seen h.old)
        result (seat_state_of I.seen h.new) (trace_of I.seen h.new) }
{
    let wanted = match mask_wanted_by(iio.shape(h.dev), h.capacity, text) {
        Err(errno) => return Err(No::Errno(errno)),
        Ok(wanted) => wanted,
    };
    match iio.remask(h.dev, &mut h.seat, wanted.mask) {
        Err(no) => Err(no),
        Ok(waiting) => {
            h.mask = wanted.mask;
            h.size = wanted.size;
            h.discarded = h.discarded.saturating_add(waiting);
            Ok(())
        }
    }
}

/// REMASK at an input device. `ENODEV` if the device is unplugged, `EBADF` if the connection has no seat at it, then the
/// refusals of [`mask_wanted_by`], then those of [`Iio::remask`]. A refusal changes nothing.
pub(crate) fn remask_at<I: Iio>(
    client: &mut Client<I::Seat>,
    iio: &mut I,
    dev: u32,
    text: &[u8],
) -> Result<(), No>
    requires dev { dev < length (I.front (I.kept iio.old)).devices }
    requires input { is_input (kind_at (I.front (I.kept iio.old)) dev) ≡ true }
    requires client { IsClient I.seen (I.front (I.kept iio.old)) client.old }
    ensures kept { I.kept iio.new ≡ I.kept iio.old }
    ensures client { IsClient I.seen (I.front (I.kept iio.new)) client.new }
    ensures told { IfSome (I.told iio.old) (λ m. Comes m (client_of I.seen client.old)
        (remask_at (I.front (I.kept iio.old)) m (client_of I.seen client.old) text.now dev)
        (reply_by result) (I.told iio.new) (client_of I.seen client.new)) }
    ensures moves { MovesBy (RemasksAt (I.front (I.kept iio.old)) dev text.now) (state_of I.seen (I.told iio.old) client.old) result
        (state_of I.seen (I.told iio.new) client.new) }
{
    ensure(iio.plugged(dev), Errno::ENODEV)?;
    let Some(i) = place(&client.held, dev) else {
        return Err(No::Errno(Errno::EBADF));
    };
    remask_held(iio, &mut client.held[i], text)
}

// READBUF at a seat.
fn read_held<I: Iio>(
    iio: &mut I,
    h: &mut OpenSeat<I::Seat>,
    asked: u32,
    out: &mut Vec<u8>,
) -> Result<Took, Mem>
    requires held { IsHeld I.seen (I.front (I.kept iio.old)) h.old }
    requires read { is_output (kind_at (I.front (I.kept iio.old)) h.old.dev) ≡ false }
    ensures kept { I.kept iio.new ≡ I.kept iio.old }
    ensures held { IsHeld I.seen (I.front (I.kept iio.new)) h.new }
    ensures bare { seat_state_of I.seen h.new ≡ seat_state_of I.seen h.old }
    ensures read { ReadHeld (I.front (I.kept iio.old)) asked (seat_state_of I.seen h.old)
        (reading (I.told iio.old) (I.seen h.old.seat) out.old.items) (reading (I.told iio.new) (I.seen h.new.seat) out.new.items) result }
    ensures capacity { vec_capacity out.old ≤ vec_capacity out.new }
{
    if asked < h.size {
        number(0, out)?;
        return Ok(Took::Scan);
    }
    read_sized(
        iio,
        h.dev,
        &mut h.seat,
        h.mask,
        h.capacity,
        h.size,
        asked,
        out,
    )
}

/// READBUF at a device that isn't an output device. It is answered by `EBADF` if the connection has no seat at the device.
pub(crate) fn read_at<I: Iio>(
    client: &mut Client<I::Seat>,
    iio: &mut I,
    dev: u32,
    asked: u32,
    out: &mut Vec<u8>,
) -> Result<Took, Mem>
    requires read { is_output (kind_at (I.front (I.kept iio.old)) dev) ≡ false }
    requires client { IsClient I.seen (I.front (I.kept iio.old)) client.old }
    ensures kept { I.kept iio.new ≡ I.kept iio.old }
    ensures client { IsClient I.seen (I.front (I.kept iio.new)) client.new }
    ensures same { client_of I.seen client.new ≡ client_of I.seen client.old }
    ensures read { ReadAt (I.front (I.kept iio.old)) dev asked (answering (state_of I.seen (I.told iio.old) client.old) out.old.items)
        (answering (state_of I.seen (I.told iio.new) client.new) out.new.items) result }
    ensures capacity { vec_capacity out.old ≤ vec_capacity out.new }
{
    match place(&client.held, dev) {
        None => {
            push_refusal(out, Errno::EBADF)?;
            Ok(Took::Scan)
        }
        Some(i) => read_held(iio, &mut client.held[i], asked, out),
    }
}

// WRITEBUF at a seat.
fn write_held<I: Iio>(iio: &mut I, h: &mut OpenSeat<I::Seat>, payload: &[u8]) -> Result<u32, No>
    requires held { IsHeld I.seen (I.front (I.kept iio.old)) h.old }
    requires written { is_output (kind_at (I.front (I.kept iio.old)) h.old.dev) ≡ true }
    ensures kept { I.kept iio.new ≡ I.kept iio.old }
    ensures held { IsHeld I.seen (I.front (I.kept iio.new)) h.new }
    ensures bare { seat_state_of I.seen h.new ≡ seat_state_of I.seen h.old }
    ensures trace { trace_of I.seen h.new ≡ trace_of I.seen h.old }
    ensures within { IfOk result (λ taken. taken ≤ length payload.now) }
    ensures told { WritesHeld (I.front (I.kept iio.old)) payload.now (I.told iio.old) (seat_state_of I.seen h.old) (taken_by result) (I.told iio.new) }
{
    iio.write_scans(h.dev, &mut h.seat, payload)
}

/// WRITEBUF at an output device; returns how many of the bytes were taken. `EBADF` if the connection has no seat at it, then
/// the refusals of [`Iio::write_scans`].
pub(crate) fn write_at<I: Iio>(
    client: &mut Client<I::Seat>,
    iio: &mut I,
    dev: u32,
    payload: &[u8],
) -> Result<u32, No>
    requires written { is_output (kind_at (I.front (I.kept iio.old)) dev) ≡ true }
    requires client { IsClient I.seen (I.front (I.kept iio.old)) client.old }
    ensures kept { I.kept iio.new ≡ I.kept iio.old }
    ensures client { IsClient I.seen (I.front (I.kept iio.new)) client.new }
    ensures same { client_of I.seen client.new ≡ client_of I.seen client.old }
    ensures traces { traces_of I.seen client.new.held.items ≡ traces_of I.seen client.old.held.items }
    ensures within { IfOk result (λ taken. taken ≤ length payload.now) }
    ensures told { IfSome (I.told iio.old) (λ m. Comes m (client_of I.seen client.old)
        (write_at_place (I.front (I.kept iio.old)) m (client_of I.seen client.old) payload.now (place_of dev (seats_of I.seen client.old.held.items)))
        (taken_by result) (I.told iio.new) (client_of I.seen client.old)) }
{
    let Some(i) = place(&client.held, dev) else {
        return Err(No::Errno(Errno::EBADF));
    };
    write_held(iio, &mut client.held[i], payload)
}
