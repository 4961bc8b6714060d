//! What an OPEN and a REMASK ask for.

ghost use Rattle.std.specs.Prelude.{◌≡◌, ◌<◌, ◌≤◌, ℕ, IfOk, Some, false, length};
ghost use Rattle.iio_desc.specs.Kind.{Kind, is_output};
ghost use Rattle.iio_base.specs.Refusals.{ensure};
ghost use Rattle.iio_layout.specs.Layout.{scan_size};
ghost use Rattle.iio_layout.specs.Shape.{count_of};
ghost use Rattle.iio_mask.specs.Text.{mask_of};
ghost use Rattle.iiod_commands.specs.Wanted.{mask_view, wanted_of_code, wanted_view};
ghost use Rattle.iiod_commands.specs.Client.{IsWanted, mask_wanted, wanted_of};
ghost use Rattle.iio_core.specs.Front.{Front, shape_at};
ghost use Rattle.iio_core.specs.Opening.{is_excess};
ghost use Rattle.iiod_commands.specs.Seat.{MayOpen};

use iio_core::MAX_SCANS;
use iio_kfifo::MAX_BYTES;
use iio_layout::{Shape, has_data, scan_size};
use iio_mask::Mask;
use iio_text::Errno;

/// A mask, the number of scans that the queue is to hold, and the bytes of one scan.
#[derive(Clone, Copy)]
pub(crate) struct Wanted {
    pub(crate) mask: Mask,
    pub(crate) capacity: u32,
    pub(crate) size: u32,
}

// Whether a member can't have a queue of `capacity` scans of `size` bytes.
fn is_excess(capacity: u64, size: u32) -> bool
    ensures { result ≡ is_excess capacity size }
{
    capacity == 0
        || capacity > u64::from(MAX_SCANS)
        || capacity * u64::from(size) > u64::from(MAX_BYTES)
}

// Returns `Ok` if the condition holds, otherwise that error.
pub(crate) fn ensure(holds: bool, errno: Errno) -> Result<(), Errno>
    ensures { result ≡ ensure holds errno }
{
    if holds { Ok(()) } else { Err(errno) }
}

/// Returns the mask and the capacity, which is the samples times the buffers count. The first refusal that applies is returned:
/// the device is unplugged, CYCLIC is given at a device that isn't an output device, the text is not a mask, the mask has no
/// data channel, the capacity is 0 or too large, the connection has the device open.
#[tactic(auto, unfolding(crate::specs::Client::wanted_of))]
pub(crate) fn wanted_by(
    is_open: bool,
    plugged: bool,
    may_cycle: bool,
    shape: &Shape,
    buffers: u32,
    samples: u32,
    text: &[u8],
    cyclic: bool,
) -> Result<Wanted, Errno>
    ensures value { (kind : Kind) → may_cycle ≡ is_output kind → wanted_view result ≡ wanted_of is_open plugged kind shape.now buffers samples text.now cyclic }
    ensures wanted { (kind : Kind) → may_cycle ≡ is_output kind
        → IfOk result (λ x. IsWanted kind shape.now buffers samples text.now cyclic (wanted_of_code x)) }
    ensures free { IfOk result (λ x. is_open ≡ false) }
    ensures size { IfOk result (λ x. x.size ≡ scan_size shape.now x.mask.bits) }
    ensures some { IfOk result (λ x. 1 ≤ x.size) }
    ensures may_open { (front : Front) (dev : ℕ) → shape.now ≡ shape_at front dev → dev < length front.devices
        → IfOk result (λ x. MayOpen front dev x.mask.bits x.capacity) }
{
    ensure(plugged, Errno::ENODEV)?;
    ensure(!(cyclic && !may_cycle), Errno::ENOSYS)?;
    let mask = Mask::read(text, shape.count()).ok_or(Errno::EINVAL)?;
    ensure(has_data(shape, mask), Errno::EINVAL)?;
    let capacity = u64::from(samples) * u64::from(buffers);
    let size = scan_size(shape, mask);
    ensure(!is_excess(capacity, size), Errno::EINVAL)?;
    ensure(!is_open, Errno::EBUSY)?;
    Ok(Wanted {
        mask,
        capacity: capacity as u32,
        size,
    })
}

/// Returns the mask of a REMASK, for a queue of that capacity. The first refusal that applies is returned: the text is not a
/// mask, the mask has no data channel, the queue would have too many bytes.
#[tactic(auto, unfolding(crate::specs::Client::mask_wanted))]
pub(crate) fn mask_wanted_by(shape: &Shape, capacity: u32, text: &[u8]) -> Result<Wanted, Errno>
    ensures value { mask_view result ≡ mask_wanted shape.now capacity text.now }
    ensures wanted { IfOk result (λ x. mask_of text.now (count_of shape.now) ≡ Some x.mask.bits) }
    ensures capacity { IfOk result (λ x. x.capacity ≡ capacity) }
    ensures size { IfOk result (λ x. x.size ≡ scan_size shape.now x.mask.bits) }
    ensures some { IfOk result (λ x. 1 ≤ x.size) }
    ensures may_open { (front : Front) (dev mask : ℕ) → shape.now ≡ shape_at front dev → MayOpen front dev mask capacity
        → IfOk result (λ x. MayOpen front dev x.mask.bits capacity) }
{
    let mask = Mask::read(text, shape.count()).ok_or(Errno::EINVAL)?;
    ensure(has_data(shape, mask), Errno::EINVAL)?;
    let size = scan_size(shape, mask);
    let bytes = u64::from(capacity) * u64::from(size);
    ensure(bytes <= u64::from(MAX_BYTES), Errno::EINVAL)?;
    Ok(Wanted {
        mask,
        capacity,
        size,
    })
}
