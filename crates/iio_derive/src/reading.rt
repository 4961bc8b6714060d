//! The values and the moment in a scan of all channels.

ghost use Rattle.std.specs.Prelude.{◌≡◌, ℕ, ◌+◌, ◌*◌, ◌^◌, ◌<◌, ◌≤◌, ◌++◌, length, vec_capacity};
ghost use Rattle.iio_scan_type.specs.Bytes.{value_at};
ghost use Rattle.iio_scan_type.specs.Format.{size_of};
ghost use Rattle.iio_layout.specs.Layout.{scan_size};
ghost use Rattle.iio_layout.specs.Scan.{elements_below};
ghost use Rattle.iio_layout.specs.Shape.{count_of};
ghost use Rattle.iio_derive.specs.Window.{full_mask};
ghost use Rattle.iio_derive.specs.ReadBack.{ReadingLaw};
ghost use Rattle.iio_derive.specs.Values.{moment_in, value_in, values_in};
ghost use Rattle.iio_derive.specs.View.{ArePlaces};

use iio_layout::{MAX_CHANNELS, Shape, place};
use iio_mask::Mask;
use iio_scan_type::{MAX_REPEAT, ScanType};

// The mask of all channels.
pub(crate) fn full_mask(shape: &Shape) -> Mask
    ensures value { result.bits ≡ full_mask shape.now }
    ensures below { result.bits < 2 ^ count_of shape.now }
{
    let count = shape.count();
    let bits = if count == 64 {
        u64::MAX
    } else {
        (1 << count) - 1
    };
    Mask { bits }
}

// Where each channel stands in a scan of all channels.
pub(crate) fn places_of(shape: &Shape) -> [u32; MAX_CHANNELS]
    ensures { ArePlaces shape.now result }
{
    let full = full_mask(shape);
    let mut places = [0; MAX_CHANNELS];
    for c in 0..shape.count() {
        places[c as usize] = place(shape, full, c);
    }
    places
}

// Appends the elements in a channel's bytes to `values`.
fn read_channel(ty: &ScanType, field: &[u8], values: &mut Vec<i64>)
    requires size { length field.now ≡ size_of ty.now }
    requires room { length values.old.items + MAX_REPEAT ≤ vec_capacity values.old }
    ensures values { values.new.items ≡ values.old.items ++ elements_below (value_at ty.now field.now) ty.now.repeat }
    ensures few { length values.new.items ≤ length values.old.items + MAX_REPEAT }
    ensures room { vec_capacity values.old ≤ vec_capacity values.new }
{
    for k in 0..u32::from(ty.repeat()) {
        values.push_reserved(ty.get(field, k));
    }
}

// Reads the elements of all data channels, in their order, from a scan of all channels.
pub(crate) fn read_values(
    shape: &Shape,
    places: &[u32; MAX_CHANNELS],
    scan: &[u8],
    values: &mut Vec<i64>,
)
    requires places { ArePlaces shape.now places.now }
    requires size { length scan.now ≡ scan_size shape.now (full_mask shape.now) }
    requires room { MAX_REPEAT * length shape.now.channels ≤ vec_capacity values.old }
    ensures values { values.new.items ≡ values_in shape.now scan.now }
    ensures room { vec_capacity values.old ≤ vec_capacity values.new }
{
    values.clear();
    for c in 0..shape.inputs() {
        let ty = shape.data_type(c);
        let start = places[c as usize] as usize;
        read_channel(ty, &scan[start..start + ty.size() as usize], values);
    }
}

// Element 0 of the channel after the data channels, in a scan of all channels.
fn read_last(shape: &Shape, places: &[u32; MAX_CHANNELS], scan: &[u8]) -> i64
    requires stamp { length shape.now.channels < count_of shape.now }
    requires places { ArePlaces shape.now places.now }
    requires size { length scan.now ≡ scan_size shape.now (full_mask shape.now) }
    ensures { result ≡ value_in shape.now scan.now (length shape.now.channels) 0 }
{
    let c = shape.inputs();
    let ty = shape.scan_type(c);
    let start = places[c as usize] as usize;
    ty.get(&scan[start..start + ty.size() as usize], 0)
}

// The moment in a scan of all channels; 0 if the shape has no timestamp.
pub(crate) fn read_moment(shape: &Shape, places: &[u32; MAX_CHANNELS], scan: &[u8]) -> i64
    requires places { ArePlaces shape.now places.now }
    requires size { length scan.now ≡ scan_size shape.now (full_mask shape.now) }
    ensures { result ≡ moment_in shape.now scan.now }
{
    match shape.stamp() {
        None => 0,
        Some(_) => read_last(shape, places, scan),
    }
}

/// The law that a scan of all channels gives back the values that it was laid out of, each of which is in the range of its
/// channel's type, and its moment if there is a timestamp. The call does nothing.
pub fn reading_law()
    ensures { ReadingLaw }
{}
