//! The scan of a capture.

ghost use Rattle.std.specs.Prelude.{◌≡◌, ℕ, ◌+◌, ◌^◌, ◌<◌, ◌≤◌, ◌++◌, replicate, true, length, slice_index, take};
ghost use Rattle.std.specs.Int.{IsPowerOfTwo, next_multiple_of};
ghost use Rattle.iio_mask.specs.Mask.{has};
ghost use Rattle.iio_scan_type.specs.Bytes.{channel_bytes, element_bytes};
ghost use Rattle.iio_scan_type.specs.Format.{size_of};
ghost use Rattle.iio_layout.specs.Layout.{Covers, end_below, format_at, place_of, scan_size, size_at};
ghost use Rattle.iio_layout.specs.Scan.{capture_values, elements_below, field_of, front_below, padded, scan_of, values_by};
ghost use Rattle.iio_layout.specs.Shape.{count_of, formats_of, width_of};

use crate::values::Listed;
use crate::{Shape, Values};
use iio_mask::Mask;
use iio_scan_type::ScanType;

/// Writes the scan of these values and this moment under the mask: each selected channel's bytes at its place, the timestamp's
/// last, and zero bytes elsewhere, whatever was there before. `values` has the elements of all data channels in their order,
/// including those that aren't selected.
pub fn fill(shape: &Shape, mask: Mask, values: &[i64], t: i64, out: &mut [u8])
    requires below { mask.bits < 2 ^ count_of shape.now }
    requires width { length values.now ≡ width_of shape.now }
    requires size { length out.old ≡ scan_size shape.now mask.bits }
    ensures scan { out.new ≡ scan_of shape.now mask.bits values.now t }

    // Byte j of a selected channel stands j bytes after the channel's place.
    ensures bytes { (c j : ℕ) → c < count_of shape.now → has mask.bits c ≡ true → j < size_at (formats_of shape.now) c
        → slice_index out.new (place_of shape.now mask.bits c + j) ≡ slice_index (field_of shape.now values.now t c) j }

    // A byte that lies in no selected channel is 0.
    ensures padding { (j : ℕ) → ((c : ℕ) → ¬ Covers shape.now mask.bits c j) → slice_index out.new j ≡ 0 }
{
    fill_from(shape, mask, &Listed { shape, values }, t, out);
}

/// Writes the scan of these values and this moment under the mask, as `fill` does, wherever the values stand. Only the selected
/// channels' values are asked for, each once.
#[inline]
pub fn fill_from<V: Values>(shape: &Shape, mask: Mask, values: &V, t: i64, out: &mut [u8])
    requires below { mask.bits < 2 ^ count_of shape.now }
    requires inputs { length shape.now.channels ≤ V.inputs values.now }
    requires size { length out.old ≡ scan_size shape.now mask.bits }
    ensures { out.new ≡ scan_of shape.now mask.bits (values_by shape.now (V.value values.now)) t }
{
    let end = put_channels(shape, mask, values, t, out);
    out[end..].fill(0);
}

// Writes the selected channels, and returns where they end.
#[inline]
fn put_channels<V: Values>(shape: &Shape, mask: Mask, values: &V, t: i64, out: &mut [u8]) -> usize
    requires below { mask.bits < 2 ^ count_of shape.now }
    requires inputs { length shape.now.channels ≤ V.inputs values.now }
    requires size { length out.old ≡ scan_size shape.now mask.bits }
    ensures end { result ≡ end_below (formats_of shape.now) mask.bits (count_of shape.now) }
    ensures front { take result out.new ≡ front_below (formats_of shape.now) mask.bits
        (capture_values (values_by shape.now (V.value values.now)) t) (count_of shape.now) }
{
    let mut end = 0;
    let mut rest = mask;
    while let Some(c) = rest.pop_first() {
        end = put_channel(shape, c, values, t, end, out);
    }
    end
}

// Writes channel `c` after those that end at `end`, with zero bytes up to its place, and returns where it ends. The bytes after
// that are unspecified.
#[inline]
fn put_channel<V: Values>(
    shape: &Shape,
    c: u32,
    values: &V,
    t: i64,
    end: usize,
    out: &mut [u8],
) -> usize
    requires channel { c < count_of shape.now }
    requires inputs { length shape.now.channels ≤ V.inputs values.now }
    requires room { next_multiple_of end (size_at (formats_of shape.now) c) + size_at (formats_of shape.now) c ≤ length out.old }
    ensures end { result ≡ next_multiple_of end (size_at (formats_of shape.now) c) + size_at (formats_of shape.now) c }
    ensures bytes { take result out.new ≡ padded (take end out.old) (size_at (formats_of shape.now) c)
        ++ field_of shape.now (values_by shape.now (V.value values.now)) t c }
{
    if c < shape.inputs() {
        put_data(shape, c, values, end, out)
    } else {
        put_stamp(shape, c, t, end, out)
    }
}

// Writes data channel `c` as `put_channel` does.
#[inline]
fn put_data<V: Values>(shape: &Shape, c: u32, values: &V, end: usize, out: &mut [u8]) -> usize
    requires channel { c < length shape.now.channels }
    requires inputs { length shape.now.channels ≤ V.inputs values.now }
    requires room { next_multiple_of end (size_at (formats_of shape.now) c) + size_at (formats_of shape.now) c ≤ length out.old }
    ensures end { result ≡ next_multiple_of end (size_at (formats_of shape.now) c) + size_at (formats_of shape.now) c }
    ensures bytes { take result out.new ≡ padded (take end out.old) (size_at (formats_of shape.now) c)
        ++ channel_bytes (format_at (formats_of shape.now) c) (elements_below (V.value values.now c) (format_at (formats_of shape.now) c).repeat) }
{
    let ty = shape.data_type(c);
    let size = ty.size() as usize;
    let place = padded_place(size, end, out);
    put_values(ty, c, values, &mut out[place..]);
    place + size
}

// Writes the moment as `put_channel` does; `c` is the timestamp's number.
#[inline]
fn put_stamp(shape: &Shape, c: u32, t: i64, end: usize, out: &mut [u8]) -> usize
    requires channel { c < count_of shape.now }
    requires stamp { (format_at (formats_of shape.now) c).repeat ≡ 1 }
    requires room { next_multiple_of end (size_at (formats_of shape.now) c) + size_at (formats_of shape.now) c ≤ length out.old }
    ensures end { result ≡ next_multiple_of end (size_at (formats_of shape.now) c) + size_at (formats_of shape.now) c }
    ensures bytes { take result out.new ≡ padded (take end out.old) (size_at (formats_of shape.now) c)
        ++ element_bytes (format_at (formats_of shape.now) c) t }
{
    let ty = shape.scan_type(c);
    let size = ty.size() as usize;
    let place = padded_place(size, end, out);
    ty.put_front(t, &mut out[place..]);
    place + size
}

// Writes zero bytes from `end` up to the place of a channel of that size, and returns that place.
#[inline]
fn padded_place(size: usize, end: usize, out: &mut [u8]) -> usize
    requires power { IsPowerOfTwo size }
    requires room { next_multiple_of end size + size ≤ length out.old }
    ensures place { result ≡ next_multiple_of end size }
    ensures bytes { take result out.new ≡ padded (take end out.old) size }
{
    let place = aligned(end, size);
    if end < place {
        put_gap(size, place - end, &mut out[end..]);
    }
    place
}

// Writes zero bytes over the gap before a channel of that size, which is larger than the gap. The bytes after the gap are
// unspecified: a fixed number of bytes is written faster than a small one.
#[inline]
fn put_gap(size: usize, gap: usize, out: &mut [u8])
    requires gap { gap < size }
    requires room { size ≤ length out.old }
    ensures { take gap out.new ≡ replicate gap 0 }
{
    if size == 8 {
        out[..8].fill(0);
    } else if size == 4 {
        out[..4].fill(0);
    } else {
        out[..gap].fill(0);
    }
}

// The least multiple of a power of two that isn't below a number (kernel, `ALIGN`).
#[inline]
fn aligned(end: usize, size: usize) -> usize
    requires power { IsPowerOfTwo size }
    requires fits { next_multiple_of end size + size < 2 ^ 64 }
    ensures { result ≡ next_multiple_of end size }
{
    let mask = size - 1;
    let last = end + mask;
    last - (last & mask)
}

// Writes the elements of data channel `c` to the front of `out`, which may be longer. The bytes after them are unspecified.
#[inline]
fn put_values<V: Values>(ty: &ScanType, c: u32, values: &V, out: &mut [u8])
    requires channel { c < V.inputs values.now }
    requires size { size_of ty.now ≤ length out.old }
    ensures { take (size_of ty.now) out.new ≡ channel_bytes ty.now (elements_below (V.value values.now c) ty.now.repeat) }
{
    if ty.repeat() == 1 {
        ty.put_front(values.value(c, 0), out);
    } else {
        put_several(ty, c, values, out);
    }
}

// Writes the elements of a data channel, like `put_values`. Most channels have only one.
#[cold]
fn put_several<V: Values>(ty: &ScanType, c: u32, values: &V, out: &mut [u8])
    requires channel { c < V.inputs values.now }
    requires size { size_of ty.now ≤ length out.old }
    ensures { take (size_of ty.now) out.new ≡ channel_bytes ty.now (elements_below (V.value values.now c) ty.now.repeat) }
{
    let size = ty.element_size() as usize;
    for k in 0..u32::from(ty.repeat()) {
        ty.put_front(values.value(c, k), &mut out[k as usize * size..]);
    }
}
