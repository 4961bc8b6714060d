//! Where channels stand in a scan.

ghost use Rattle.std.specs.Prelude.{◌≡◌, ◌≢◌, ℕ, ◌+◌, ◌*◌, ◌^◌, ◌<◌, ◌≤◌, true};
ghost use Rattle.std.specs.Int.{IsPowerOfTwo, next_multiple_of};
ghost use Rattle.iio_mask.specs.Mask.{has};
ghost use Rattle.iio_layout.specs.Active.{has_below, has_data};
ghost use Rattle.iio_layout.specs.Layout.{end_below, largest_below, place_of, scan_size, size_at};
ghost use Rattle.iio_layout.specs.Shape.{count_of, formats_of};

use crate::Shape;
use iio_mask::Mask;
use iio_scan_type::MAX_CHANNEL_SIZE;

/// The place of channel `c` in a scan under the mask, in bytes: the least multiple of its size that isn't below the end of the
/// selected channel before it (kernel, `iio_compute_scan_bytes`). The timestamp is the last channel.
pub fn place(shape: &Shape, mask: Mask, c: u32) -> u32
    requires below { mask.bits < 2 ^ count_of shape.now }
    requires channel { c < count_of shape.now }
    requires selected { has mask.bits c ≡ true }
    ensures value { result ≡ place_of shape.now mask.bits c }
    ensures within { result + size_at (formats_of shape.now) c ≤ scan_size shape.now mask.bits }
{
    end_below(shape, mask, c).next_multiple_of(shape.scan_type(c).size())
}

/// The size of a scan under the mask, in bytes: the least multiple of the largest selected channel's size that isn't
/// below the last end, and 0 for the empty mask (kernel, `iio_compute_scan_bytes`).
pub fn scan_size(shape: &Shape, mask: Mask) -> u32
    requires { mask.bits < 2 ^ count_of shape.now }
    ensures value { result ≡ scan_size shape.now mask.bits }
    ensures few { result ≤ MAX_CHANNEL_SIZE * count_of shape.now }
    ensures some { (c : ℕ) → c < count_of shape.now → has mask.bits c ≡ true → 1 ≤ result }
    ensures any { has_below mask.bits (count_of shape.now) ≡ true → 1 ≤ result }
    ensures data { has_data shape.now mask.bits ≡ true → 1 ≤ result }
{
    let Extent { end, largest } = extent_of(shape, mask);
    if largest == 0 {
        end
    } else {
        aligned(end, largest)
    }
}

/// The least multiple of a power of two that isn't below a number (kernel, `ALIGN`).
#[inline]
pub fn aligned(end: u32, size: u32) -> u32
    requires power { IsPowerOfTwo size }
    requires fits { next_multiple_of end size < 2 ^ 32 }
    ensures { result ≡ next_multiple_of end size }
{
    let mask = size - 1;
    end + ((size - (end & mask)) & mask)
}

// Where the last selected channel before channel `c` ends.
fn end_below(shape: &Shape, mask: Mask, c: u32) -> u32
    requires { c ≤ count_of shape.now }
    ensures value { result ≡ end_below (formats_of shape.now) mask.bits c }
    ensures few { result ≤ MAX_CHANNEL_SIZE * c }
    ensures some { (k : ℕ) → k < c → has mask.bits k ≡ true → 1 ≤ result }
{
    let mut end: u32 = 0;
    for k in 0..c {
        let size = shape.scan_type(k).size();
        let after = aligned(end, size) + size;
        if mask.contains(k) {
            end = after;
        }
    }
    end
}

// Where the selected channels end, and the size of the largest of them, or 0 if there is none.
#[derive(Clone, Copy)]
struct Extent {
    end: u32,
    largest: u32,
}

// The extent of the channels that the mask selects.
fn extent_of(shape: &Shape, mask: Mask) -> Extent
    requires { mask.bits < 2 ^ count_of shape.now }
    ensures end { result.end ≡ end_below (formats_of shape.now) mask.bits (count_of shape.now) }
    ensures largest { result.largest ≡ largest_below (formats_of shape.now) mask.bits (count_of shape.now) }
    ensures few { result.end ≤ MAX_CHANNEL_SIZE * count_of shape.now }
    ensures fits { result.largest ≢ 0 → MAX_CHANNEL_SIZE * count_of shape.now < 2 ^ 32 }
    ensures small { result.largest ≤ MAX_CHANNEL_SIZE }
    ensures power { result.largest ≢ 0 → IsPowerOfTwo result.largest }
    ensures some { (k : ℕ) → k < count_of shape.now → has mask.bits k ≡ true → 1 ≤ result.end }
{
    let mut end: u32 = 0;
    let mut largest: u32 = 0;
    let mut rest = mask;
    while let Some(c) = rest.pop_first() {
        let size = shape.scan_type(c).size();
        end = aligned(end, size) + size;
        largest = largest.max(size);
    }
    Extent { end, largest }
}
