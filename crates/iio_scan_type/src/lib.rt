//! Scan types: how the values of a channel stand in the bytes of a scan.
//!
//! A type such as `le:s12/16X2>>4` says the byte order, the sign, the bits of a value, the bits of
//! its storage, the number of elements and how far the value is shifted to the left (kernel ABI,
//! sysfs-bus-iio).
#![tactic(auto)]

ghost use Rattle.std.specs.Prelude.{◌≡◌, ℕ, ◌+◌, ◌*◌, ◌/◌, ◌%◌, ◌^◌, ◌<◌, ◌≤◌, ◌+ℤ◌, ◌-◌, ◌≤ℤ◌, IsTrue, length, pos, slice_index_or, take, Some, None};
ghost use Rattle.std.specs.Int.{IsPowerOfTwo, saturate_signed, w64};
ghost use Rattle.iio_scan_type.specs.Bytes.{channel_bytes, element_at, element_bytes, low_bits, number_of, value_at, value_by, value_in};
ghost use Rattle.iio_scan_type.specs.Format.{IsInProfile, IsInRange, element_size, greatest_of, is_repeat, is_storage, least_of, max_realbits, saturated, size_of, stamp_format};
ghost use Rattle.iio_scan_type.specs.Text.{profiled};

use std::marker::Model;

mod bytes;
mod text;

use bytes::{read_number, write_number, write_word};
pub use iio_base::Mem;
pub use text::{print_type, read_type};

/// The most bytes of a channel, all its elements together.
pub const MAX_CHANNEL_SIZE: u32 = 16;

/// The most elements of a channel.
pub const MAX_REPEAT: u8 = 8;

/// Whether the values of a type have a sign.
#[derive(Clone, Copy, Debug, PartialEq, Eq)]
pub enum Sign {
    Signed,
    Unsigned,
}

/// The order of the bytes of an element.
#[derive(Clone, Copy, Debug, PartialEq, Eq)]
pub enum Endian {
    Big,
    Little,
}

/// The type of a channel's elements. Each one is in the profile: a storage of 8, 16, 32 or 64 bits,
/// 1, 2, 4 or `MAX_REPEAT` elements, at most `MAX_CHANNEL_SIZE` bytes in all, and a value of 1 to 63 bits, or of 64
/// if it is signed, which lies within its storage after the shift.
#[derive(Clone, Copy, Debug, PartialEq, Eq)]
pub struct ScanType {
    sign: Sign,
    realbits: u8,
    storagebits: u8,
    shift: u8,
    repeat: u8,
    endian: Endian,
}

impl Model for ScanType {
    ghost use Rattle.iio_scan_type.specs.Format.{Format};

    ghost Value = { Format };

    ghost use Rattle.iio_scan_type.specs.View.{format_of, inside_of, IsSound};

    ghost view = { format_of };

    ghost invariant = { IsSound };

    ghost inverse = { inside_of };
}

fn is_storage(bits: u8) -> bool
    ensures { result ≡ is_storage bits }
{
    bits == 8 || bits == 16 || bits == 32 || bits == 64
}

fn is_repeat(count: u8) -> bool
    ensures { result ≡ is_repeat count }
{
    count == 1 || count == 2 || count == 4 || count == MAX_REPEAT
}

fn max_realbits(sign: Sign) -> u8
    ensures { result ≡ max_realbits sign }
{
    match sign {
        Sign::Signed => 64,
        Sign::Unsigned => 63,
    }
}

// The sum, or the nearer end of 64 bits. Most biases are 0, and then nothing has to be computed.
#[inline]
fn saturating_add(value: i64, bias: i64) -> i64
    ensures { result ≡ saturate_signed w64 (value +ℤ bias) }
{
    if bias == 0 {
        return value;
    }
    value.saturating_add(bias)
}

impl ScanType {
    /// Makes the type of these parts. Returns `None` exactly if it isn't in the profile.
    pub fn new(
        sign: Sign,
        realbits: u8,
        storagebits: u8,
        shift: u8,
        repeat: u8,
        endian: Endian,
    ) -> Option<ScanType>
        ensures { result ≡ profiled (record {
          sign = sign;
          realbits = realbits;
          storagebits = storagebits;
          shift = shift;
          repeat = repeat;
          endian = endian;
        }) }
    {
        if is_storage(storagebits)
            && is_repeat(repeat)
            && storagebits as u32 / 8 * repeat as u32 <= MAX_CHANNEL_SIZE
            && 1 <= realbits
            && realbits <= max_realbits(sign)
            && realbits as u32 + shift as u32 <= storagebits as u32
        {
            Some(ScanType {
                sign,
                realbits,
                storagebits,
                shift,
                repeat,
                endian,
            })
        } else {
            None
        }
    }

    /// The type of a timestamp, `s64/64>>0`, in a byte order.
    pub fn stamp(endian: Endian) -> ScanType
        ensures { result ≡ stamp_format endian }
    {
        ScanType {
            sign: Sign::Signed,
            realbits: 64,
            storagebits: 64,
            shift: 0,
            repeat: 1,
            endian,
        }
    }

    /// Whether a value has a sign.
    pub fn sign(&self) -> Sign
        ensures { result ≡ self.now.sign }
    {
        self.sign
    }

    /// The number of bits of a value.
    pub fn realbits(&self) -> u8
        ensures { result ≡ self.now.realbits }
    {
        self.realbits
    }

    /// The number of bits of an element's storage.
    pub fn storagebits(&self) -> u8
        ensures { result ≡ self.now.storagebits }
    {
        self.storagebits
    }

    /// How many places a value is shifted to the left within its storage.
    pub fn shift(&self) -> u8
        ensures { result ≡ self.now.shift }
    {
        self.shift
    }

    /// The number of elements of a channel.
    #[inline]
    pub fn repeat(&self) -> u8
        ensures value { result ≡ self.now.repeat }
        ensures some { 1 ≤ result }
        ensures few { result ≤ MAX_REPEAT }
    {
        self.repeat
    }

    /// The byte order of an element.
    #[inline]
    pub fn endian(&self) -> Endian
        ensures { result ≡ self.now.endian }
    {
        self.endian
    }

    /// The size of one element in bytes, which is that of its storage.
    #[inline]
    pub fn element_size(&self) -> u32
        ensures value { result ≡ element_size self.now }
        ensures whole { result * self.now.repeat ≡ size_of self.now }
        ensures some { 1 ≤ result }
        ensures few { result ≤ MAX_CHANNEL_SIZE }
    {
        u32::from(self.storagebits / 8)
    }

    /// The size of a channel of this type in a scan, in bytes, with all its elements. It is a power of two.
    #[inline]
    pub fn size(&self) -> u32
        ensures value { result ≡ size_of self.now }
        ensures profile { IsInProfile self.now }
        ensures power { IsPowerOfTwo result }
        ensures some { 1 ≤ result }
        ensures few { result ≤ MAX_CHANNEL_SIZE }
    {
        self.storagebits as u32 / 8 * self.repeat as u32
    }

    /// The least and the greatest value.
    #[inline]
    pub fn range(&self) -> (i64, i64)
        ensures least { result.0 ≡ least_of self.now }
        ensures greatest { result.1 ≡ greatest_of self.now }
        ensures ordered { result.0 ≤ℤ result.1 }
    {
        match self.sign {
            Sign::Signed => {
                let above = 64 - self.realbits;
                (i64::MIN >> above, i64::MAX >> above)
            }
            Sign::Unsigned => (0, i64::MAX >> (63 - self.realbits)),
        }
    }

    /// The value, or the nearer end of the range if it lies outside.
    #[inline]
    pub fn saturate(&self, value: i64) -> i64
        ensures value { result ≡ saturated self.now value }
        ensures in_range { IsInRange self.now result }
    {
        self.saturating_sum(value, 0)
    }

    /// The exact sum of both, or the nearer end of the range if it lies outside.
    #[inline]
    pub fn saturating_sum(&self, value: i64, bias: i64) -> i64
        ensures value { result ≡ saturated self.now (value +ℤ bias) }
        ensures in_range { IsInRange self.now result }
    {
        let sum = saturating_add(value, bias);
        if self.carries(sum) {
            return sum;
        }
        let (least, greatest) = self.range();
        sum.clamp(least, greatest)
    }

    // Whether the lowest bits of a value give it back; then it lies in the range.
    #[inline]
    fn carries(&self, value: i64) -> bool
        ensures range { IsTrue result → IsInRange self.now value }
        ensures profile { IsInProfile self.now }
    {
        let word = value.cast_unsigned() << (64 - self.realbits);
        self.extended(word) == value
    }

    /// Writes a channel: its values as elements, the first one first. Bits that lie outside a shifted value are 0. If a value
    /// is outside the range, its lowest `realbits` bits are written.
    pub fn put(&self, values: &[i64], out: &mut [u8])
        requires repeat { length values.now ≡ self.now.repeat }
        requires size { length out.old ≡ size_of self.now }
        ensures bytes { out.new ≡ channel_bytes self.now values.now }
        // A value in range is read back.
        ensures back { (k : ℕ) → k < length values.now → IsInRange self.now (slice_index_or values.now k (pos 0)) →
            value_at self.now out.new k ≡ slice_index_or values.now k (pos 0) }
    {
        let size = (self.storagebits / 8) as usize;
        for (k, value) in values.iter().enumerate() {
            self.put_element(*value, &mut out[k * size..(k + 1) * size]);
        }
    }

    /// Writes one element in its storage. Bits that lie outside the shifted value are 0. If the value is outside the range, its
    /// lowest `realbits` bits are written.
    #[inline]
    pub fn put_element(&self, value: i64, out: &mut [u8])
        requires { length out.old ≡ element_size self.now }
        ensures { out.new ≡ element_bytes self.now value }
    {
        write_number(self.number(value), self.endian, out);
    }

    /// Writes one element, like `put_element`, to the front of `out`, which may be longer. The bytes after the element are
    /// unspecified.
    #[inline(always)]
    pub fn put_front(&self, value: i64, out: &mut [u8])
        requires { element_size self.now ≤ length out.old }
        ensures { take (element_size self.now) out.new ≡ element_bytes self.now value }
    {
        let number = self.number(value);
        if out.len() < 8 {
            write_number(
                number,
                self.endian,
                &mut out[..(self.storagebits / 8) as usize],
            );
        } else {
            write_word(number, self.storagebits, self.endian, &mut out[..8]);
        }
    }

    // The number that stands in the storage of a value's element.
    #[inline]
    fn number(&self, value: i64) -> u64
        ensures value { result ≡ low_bits self.now.realbits value * 2 ^ self.now.shift }
        ensures below { result < 2 ^ self.now.storagebits }
    {
        let above = 64 - self.realbits;
        value.cast_unsigned() << above >> (above - self.shift)
    }

    /// The value of element `k` of a channel's bytes. Bits outside the shifted value are not looked at.
    pub fn get(&self, bytes: &[u8], k: u32) -> i64
        requires size { length bytes.now ≡ size_of self.now }
        requires element { k < self.now.repeat }
        ensures value { result ≡ value_at self.now bytes.now k }
        ensures in_range { IsInRange self.now result }
        // The value's bits are those that stand there.
        ensures stands { low_bits self.now.realbits result
            ≡ number_of self.now.endian (element_at self.now bytes.now k) / 2 ^ self.now.shift % 2 ^ self.now.realbits }
    {
        let size = (self.storagebits / 8) as usize;
        let start = k as usize * size;
        let number = read_number(&bytes[start..start + size], self.endian);
        self.value_of(number)
    }

    /// The value of an element whose storage has this number.
    fn value_of(&self, number: u64) -> i64
        ensures { result ≡ value_in self.now number }
    {
        self.extended(number << (64 - self.realbits - self.shift))
    }

    /// The value whose bits are the highest ones of a word.
    #[inline]
    fn extended(&self, word: u64) -> i64
        ensures { result ≡ value_by self.now.sign self.now.realbits (word / 2 ^ (64 - self.now.realbits)) }
    {
        let above = 64 - self.realbits;
        match self.sign {
            Sign::Signed => word.cast_signed() >> above,
            Sign::Unsigned => (word >> above) as i64,
        }
    }
}
