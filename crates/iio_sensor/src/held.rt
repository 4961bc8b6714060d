//! Holding the scan that a driver gave last.

ghost use Rattle.std.specs.Prelude.{◌≡◌, ◌^◌, ◌+◌, ◌<◌, ◌≤◌, ◌++◌, ℕ, ℤ, List, IsTrue, drop, length, map, take};
ghost use Rattle.iio_scan_type.specs.Bytes.{element_bytes};
ghost use Rattle.iio_scan_type.specs.Format.{stamp_format};
ghost use Rattle.iio_layout.specs.Layout.{place_of, scan_size};
ghost use Rattle.iio_layout.specs.Scan.{scan_of, values_by};
ghost use Rattle.iio_layout.specs.Shape.{RowsRecord, count_of, formats_of};
ghost use Rattle.iio_sensor.specs.Held.{IsFor, IsHeld, IsScanOf, MomentStands};
ghost use Rattle.iio_sensor.specs.Recorded.{row_before, value_in};

use iio_layout::{MAX_CHANNELS, Shape, place, scan_size};
use iio_mask::Mask;
use iio_scan_type::{Endian, MAX_CHANNEL_SIZE, ScanType};

// The largest size in bytes of a scan.
const MOST: usize = MAX_CHANNELS * MAX_CHANNEL_SIZE as usize;

/// A scan, and what it was laid out for: the types of the channels, the mask, and the row. As long as these are the same, so is
/// the scan, except for its moment.
#[derive(Debug, Drop)]
pub(crate) struct Held {
    // The number of data channels; 0 if no scan is held.
    inputs: usize,
    types: [ScanType; MAX_CHANNELS],
    stamp: Option<Endian>,
    mask: Mask,
    // The number of moments that had come when a scan was laid out last.
    come: usize,
    // The moment's place in the scan, if it has one.
    place: usize,
    scan: [u8; MOST],
}

impl Held {
    /// Holds no scan.
    pub(crate) fn none() -> Held
        ensures { result.inputs ≡ 0 }
    {
        Held {
            inputs: 0,
            types: [ScanType::stamp(Endian::Little); MAX_CHANNELS],
            stamp: None,
            mask: Mask { bits: 0 },
            come: 0,
            place: 0,
            scan: [0; MOST],
        }
    }

    /// Forgets the scan.
    pub(crate) fn clear(&mut self)
        ensures { self.new.inputs ≡ 0 }
    {
        self.inputs = 0;
    }

    /// Whether a scan is held for the types of that shape, that mask, and the last of the first `come` rows.
    #[inline]
    pub(crate) fn is_for(&self, shape: &Shape, mask: Mask, come: usize) -> bool
        ensures shape { IsTrue result → IsFor self.now shape.now }
        ensures mask { IsTrue result → self.now.mask ≡ mask }
        ensures come { IsTrue result → self.now.come ≡ come }
    {
        self.come == come
            && self.mask == mask
            && self.inputs == shape.inputs() as usize
            && self.stamp == shape.stamp()
            && are_types_of(&self.types, shape)
    }

    /// Copies the scan to `out`, with another moment.
    #[inline]
    pub(crate) fn give(&self, shape: &Shape, t: i64, out: &mut [u8])
        requires shape { IsFor self.now shape.now }
        requires scan { (value : ℕ → ℕ → ℤ) × IsScanOf self.now shape.now value }
        requires size { length out.old ≡ scan_size shape.now self.now.mask.bits }
        ensures { (value : ℕ → ℕ → ℤ) → IsScanOf self.now shape.now value → out.new ≡ scan_of shape.now self.now.mask.bits (values_by shape.now value) t }
    {
        copy_front(&self.scan, out);
        if let Some(endian) = self.stamp {
            if self.mask.contains(shape.inputs()) {
                put_moment(endian, t, self.place, out);
            }
        }
    }

    /// Holds a scan if its row is also that of the scan that was laid out before it: rows that change at each ask aren't held.
    #[cold]
    #[inline(never)]
    pub(crate) fn keep(&mut self, shape: &Shape, mask: Mask, come: usize, scan: &[u8])
        requires bits { mask.bits < 2 ^ count_of shape.now }
        requires size { length scan.now ≡ scan_size shape.now mask.bits }
        ensures { (rows : RowsRecord) (biases : List ℤ) (t : ℤ)
            → scan.now ≡ scan_of shape.now mask.bits (values_by shape.now (value_in (row_before rows come) biases (formats_of shape.now))) t
            → IsHeld rows biases self.new }
    {
        if self.come != come {
            self.come = come;
            self.clear();
            return;
        }
        let size = scan_size(shape, mask) as usize;
        self.inputs = shape.inputs() as usize;
        copy_types(&mut self.types, shape);
        self.stamp = shape.stamp();
        self.mask = mask;
        self.place = moment_place(shape, mask);
        self.scan[..size].copy_from_slice(scan);
    }
}

// Whether the shape's data channels have these types.
#[inline]
fn are_types_of(types: &[ScanType; MAX_CHANNELS], shape: &Shape) -> bool
    ensures { IsTrue result → take (length shape.now.channels) types.now ≡ map (λ channel. channel.ty) shape.now.channels }
{
    for c in 0..shape.inputs() {
        if !is_same(&types[c as usize], shape.data_type(c)) {
            return false;
        }
    }
    true
}

// Whether two types are the same, without a branch for each of their parts: each capture asks this of each channel.
#[inline]
fn is_same(a: &ScanType, b: &ScanType) -> bool
    ensures { IsTrue result → a.now ≡ b.now }
{
    (a.realbits() == b.realbits())
        & (a.storagebits() == b.storagebits())
        & (a.shift() == b.shift())
        & (a.repeat() == b.repeat())
        & (a.sign() == b.sign())
        & (a.endian() == b.endian())
}

// Copies the types of the shape's data channels.
fn copy_types(types: &mut [ScanType; MAX_CHANNELS], shape: &Shape)
    ensures { take (length shape.now.channels) types.new ≡ map (λ channel. channel.ty) shape.now.channels }
{
    for c in 0..shape.inputs() {
        types[c as usize] = *shape.data_type(c);
    }
}

// The place of the moment in a scan, or 0 if it has none.
fn moment_place(shape: &Shape, mask: Mask) -> usize
    requires { mask.bits < 2 ^ count_of shape.now }
    ensures { MomentStands shape.now mask.bits → result ≡ place_of shape.now mask.bits (length shape.now.channels) }
{
    if shape.stamp().is_some() && mask.contains(shape.inputs()) {
        place(shape, mask, shape.inputs()) as usize
    } else {
        0
    }
}

// Fills `out` with the first bytes.
#[inline]
fn copy_front(bytes: &[u8], out: &mut [u8])
    requires { length out.old ≤ length bytes.now }
    ensures { out.new ≡ take (length out.old) bytes.now }
{
    out.copy_from_slice(&bytes[..out.len()]);
}

// Writes a moment at its place in a scan.
#[inline]
fn put_moment(endian: Endian, t: i64, place: usize, out: &mut [u8])
    requires { place + 8 ≤ length out.old }
    ensures { out.new ≡ take place out.old ++ (element_bytes (stamp_format endian) t ++ drop (place + 8) out.old) }
{
    ScanType::stamp(endian).put_element(t, &mut out[place..place + 8]);
}
