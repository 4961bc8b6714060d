//! The mask that a sensor is asked under.

ghost use Rattle.std.specs.Prelude.{◌≡◌, ◌≢◌, ℕ, ◌^◌, ◌<◌, ◌≤◌, true, length, option_map, IfSome, IsSome};
ghost use Rattle.iio_mask.specs.Mask.{has, is_within};
ghost use Rattle.iio_layout.specs.Active.{active_of, data_part, has_data, with_stamp};
ghost use Rattle.iio_layout.specs.Shape.{count_of};

use crate::Shape;
use iio_mask::{Mask, pick};

/// Returns the mask that the sensor is asked under if its clients want these channels, the union of their masks: the first
/// listed mask that contains the data channels among them, or these themselves if no masks are listed, and the timestamp if it
/// is wanted (kernel, `iio_scan_mask_match`). Returns `None` exactly if masks are listed and none of them contains the wanted
/// data channels.
pub fn active(shape: &Shape, wanted: Mask) -> Option<Mask>
    ensures value { option_map (λ m. m.bits) result ≡ active_of shape.now wanted.bits }
    ensures contains { IfSome result (λ m. is_within wanted.bits m.bits ≡ true) }
    // If there is one for these channels, there is one for fewer of them.
    ensures fewer { IfSome result (λ _. (less : ℕ) → is_within less wanted.bits ≡ true → IsSome (active_of shape.now less)) }
    ensures below { wanted.bits < 2 ^ count_of shape.now → IfSome result (λ m. m.bits < 2 ^ count_of shape.now) }
{
    let asked = pick(shape.listed(), data_part(shape, wanted))?;
    Some(with_stamp(shape, wanted, asked))
}

/// Whether a mask has a data channel. It has one exactly if its first channel is one.
pub fn has_data(shape: &Shape, mask: Mask) -> bool
    ensures { result ≡ has_data shape.now mask.bits }
{
    if mask.bits == 0 {
        return false;
    }
    mask.bits.trailing_zeros() < shape.inputs()
}

// The mask without the timestamp's bit.
fn data_part(shape: &Shape, mask: Mask) -> Mask
    ensures value { result.bits ≡ data_part shape.now mask.bits }
    ensures within { result.bits ≤ mask.bits }
{
    match shape.stamp() {
        None => mask,
        Some(_) => mask.without(shape.inputs()),
    }
}

// The mask, with the timestamp's bit if the wanted one has it.
fn with_stamp(shape: &Shape, wanted: Mask, mask: Mask) -> Mask
    ensures value { result.bits ≡ with_stamp shape.now wanted.bits mask.bits }
    ensures below { mask.bits < 2 ^ count_of shape.now → result.bits < 2 ^ count_of shape.now }
{
    let stamp = shape.inputs();
    if shape.stamp().is_none() || !wanted.contains(stamp) {
        return mask;
    }
    mask.union(Mask { bits: 1 << stamp })
}
