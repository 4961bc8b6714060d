//! What an output device was last given of each channel.

ghost use Rattle.std.specs.Prelude.{◌≡◌, ℕ, ◌^◌, ◌<◌, ◌+◌, ◌≤◌, length, take, drop, true, Some, slice_index, slice_index_or, pos};
ghost use Rattle.iio_mask.specs.Mask.{has};
ghost use Rattle.iio_scan_type.specs.Bytes.{value_at};
ghost use Rattle.iio_scan_type.specs.Format.{size_of};
ghost use Rattle.iio_layout.specs.Layout.{format_at, scan_size};
ghost use Rattle.iio_layout.specs.Shape.{count_of, formats_of};
ghost use Rattle.iio_output.specs.Last.{element_in, last_with};
ghost use Rattle.iio_output.specs.View.{ArePlaces, IsPlace};

use iio_layout::{MAX_CHANNELS, Shape, place};
use iio_mask::Mask;

// The places, in a scan, of the data channels that the mask selects.
pub(crate) fn places_of(shape: &Shape, mask: Mask) -> [u32; MAX_CHANNELS]
    requires { mask.bits < 2 ^ count_of shape.now }
    ensures { ArePlaces shape.now mask.bits result }
{
    let mut places = [0; MAX_CHANNELS];
    for c in 0..shape.inputs() {
        if mask.contains(c) {
            places[c as usize] = place(shape, mask, c);
        }
    }
    places
}

// The value of element 0 of data channel `c`, which stands at `place` in a scan.
fn element_at(shape: &Shape, c: u32, place: u32, scan: &[u8]) -> i64
    requires channel { c < length shape.now.channels }
    requires within { place + size_of (format_at (formats_of shape.now) c) ≤ length scan.now }
    ensures { let ty = format_at (formats_of shape.now) c in result ≡ value_at ty (take (size_of ty) (drop place scan.now)) 0 }
{
    let ty = shape.data_type(c);
    let start = place as usize;
    ty.get(&scan[start..start + ty.size() as usize], 0)
}

// Keeps element 0 of each data channel of a scan under the mask.
pub(crate) fn keep_last(
    shape: &Shape,
    mask: Mask,
    places: &[u32; MAX_CHANNELS],
    scan: &[u8],
    last: &mut [i64],
)
    requires places { ArePlaces shape.now mask.bits places.now }
    requires size { length scan.now ≡ scan_size shape.now mask.bits }
    requires all { length last.old ≡ length shape.now.channels }
    ensures { last.new ≡ last_with shape.now (Some (record { mask = mask.bits; bytes = scan.now })) last.old }
{
    for c in 0..shape.inputs() {
        if mask.contains(c) {
            last[c as usize] = element_at(shape, c, places[c as usize], scan);
        }
    }
}
