//! Scans taken from a seat.

ghost use Rattle.std.specs.Prelude.{◌≡◌, ◌+◌, ◌*◌, ◌≤◌, ◌<◌, ◌^◌, length, vec_capacity, false};
ghost use Rattle.iio_desc.specs.Kind.{is_output};
ghost use Rattle.iio_core.specs.Front.{channel_count, kind_at, size_at};
ghost use Rattle.iiod_commands.specs.Reading.{ReadEnds, reading, TakesAs, block_of};
ghost use Rattle.iiod_commands.specs.Seat.{IsOfDevice, IsOwned, MayOpen};

use crate::iio::{Iio, Took};
use iio_base::Mem;
use iio_layout::scan_size;
use iio_mask::Mask;
use iiod_reply::{block_closing, block_head, block_room};

// The most bytes of a block's head if fewer than 2^32 bytes follow: the count, the mask, and an LF after each.
const BLOCK_HEAD: usize = 10 + 1 + 16 + 1;

// The most bytes of a block besides its scans: the head, the closing 0, and an LF after it.
const BLOCK_FRAME: usize = BLOCK_HEAD + 1 + 1;

// Appends the block of up to `want` scans, at least one. The scans are taken into the place after the room for the block's
// head, which is filled in only if some came. `out` has space for all of it.
fn read_into<I: Iio>(
    iio: &mut I,
    dev: u32,
    seat: &mut I::Seat,
    mask: Mask,
    size: u32,
    want: u32,
    asked: u32,
    out: &mut Vec<u8>,
) -> Took
    requires dev { dev < length (I.front (I.kept iio.old)).devices }
    requires read { is_output (kind_at (I.front (I.kept iio.old)) dev) ≡ false }
    requires owned { IsOfDevice (I.front (I.kept iio.old)) dev (I.seen seat.old) }
    requires size { size ≡ (I.seen seat.old).size }
    requires some { 1 ≤ size }
    requires wanted { 1 ≤ want }
    requires most { want * size ≤ asked }
    requires below { mask.bits < 2 ^ channel_count (I.front (I.kept iio.old)) dev }
    requires space { length out.old.items + (want * size + BLOCK_FRAME) ≤ vec_capacity out.old }
    ensures kept { I.kept iio.new ≡ I.kept iio.old }
    ensures read { TakesAs (block_of (channel_count (I.front (I.kept iio.old)) dev) mask.bits asked) dev want
        (reading (I.told iio.old) (I.seen seat.old) out.old.items) (reading (I.told iio.new) (I.seen seat.new) out.new.items) result }
    ensures capacity { vec_capacity out.old ≤ vec_capacity out.new }
{
    let channels = iio.shape(dev).count();
    let start = out.len();
    let most = want as usize * size as usize;
    let _ = block_room(channels, most, out);
    let first = out.len();
    let took = iio.take_scans(dev, seat, want, out);
    match took {
        Took::Scan => {
            let came = out.len() - first;
            block_head(mask, channels, most, came, start, out);
            let _ = block_closing(came, asked, out);
        }
        _ => out.truncate(start),
    }
    took
}

/// Does what [`read_scans`] does, at a seat whose scans have `size` bytes.
pub(crate) fn read_sized<I: Iio>(
    iio: &mut I,
    dev: u32,
    seat: &mut I::Seat,
    mask: Mask,
    capacity: u32,
    size: u32,
    asked: u32,
    out: &mut Vec<u8>,
) -> Result<Took, Mem>
    requires may_open { MayOpen (I.front (I.kept iio.old)) dev mask.bits capacity }
    requires read { is_output (kind_at (I.front (I.kept iio.old)) dev) ≡ false }
    requires owned { IsOwned (I.front (I.kept iio.old)) dev mask.bits capacity (I.seen seat.old) }
    requires size { size ≡ size_at (I.front (I.kept iio.old)) dev mask.bits }
    requires some { 1 ≤ size }
    requires asked { size ≤ asked }
    ensures kept { I.kept iio.new ≡ I.kept iio.old }
    ensures ends { ReadEnds (I.front (I.kept iio.old)) dev asked (reading (I.told iio.old) (I.seen seat.old) out.old.items)
        (reading (I.told iio.new) (I.seen seat.new) out.new.items) result }
    ensures capacity { vec_capacity out.old ≤ vec_capacity out.new }
{
    let want = (asked / size).min(capacity);
    out.reserve(want as usize * size as usize + BLOCK_FRAME)?;
    Ok(read_into(iio, dev, seat, mask, size, want, asked, out))
}

/// Carries out one READBUF of `asked` bytes at a seat that `open`, not `open_out`, returned for this mask and capacity: appends
/// to `out` the block of as many scans as are asked for and wait. The room for the block is taken first, and nothing is asked
/// of the devices but their shapes and these scans.
///
/// `Scan` if at least one scan was taken. `Empty` and `Gone` are the answer of the first take, and `out` is unchanged. After
/// `Mem` no take was made, and `out` is unchanged.
pub fn read_scans<I: Iio>(
    iio: &mut I,
    dev: u32,
    seat: &mut I::Seat,
    mask: Mask,
    capacity: u32,
    asked: u32,
    out: &mut Vec<u8>,
) -> Result<Took, Mem>
    requires may_open { MayOpen (I.front (I.kept iio.old)) dev mask.bits capacity }
    requires read { is_output (kind_at (I.front (I.kept iio.old)) dev) ≡ false }
    requires owned { IsOwned (I.front (I.kept iio.old)) dev mask.bits capacity (I.seen seat.old) }
    requires asked { size_at (I.front (I.kept iio.old)) dev mask.bits ≤ asked }
    ensures kept { I.kept iio.new ≡ I.kept iio.old }
    ensures ends { ReadEnds (I.front (I.kept iio.old)) dev asked (reading (I.told iio.old) (I.seen seat.old) out.old.items)
        (reading (I.told iio.new) (I.seen seat.new) out.new.items) result }
    ensures capacity { vec_capacity out.old ≤ vec_capacity out.new }
{
    let size = scan_size(iio.shape(dev), mask);
    read_sized(iio, dev, seat, mask, capacity, size, asked, out)
}
