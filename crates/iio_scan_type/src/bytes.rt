//! Numbers as bytes in a byte order.
#![tactic(auto)]

ghost use Rattle.std.specs.Prelude.{◌≡◌, ◌^◌, ◌-◌, ◌<◌, ◌≤◌, ◌*◌, ◌/◌, IsTrue, length, take, drop};
ghost use Rattle.iio_scan_type.specs.Format.{is_storage};
ghost use Rattle.iio_scan_type.specs.Bytes.{number_bytes, number_of};

use crate::Endian;

/// Writes the lowest bytes of a number, as many as `out` has.
#[inline]
pub fn write_number(number: u64, endian: Endian, out: &mut [u8])
    requires { length out.old ≤ 8 }
    ensures { out.new ≡ number_bytes endian (length out.old) number }
{
    match endian {
        Endian::Little => write_front(&number.to_le_bytes(), out),
        Endian::Big => write_back(&number.to_be_bytes(), out),
    }
}

/// Writes a number of `bits` bits, a whole number of bytes, to the front of eight bytes. The bytes after it are unspecified.
#[inline]
pub fn write_word(number: u64, bits: u8, endian: Endian, out: &mut [u8])
    requires storage { IsTrue (is_storage bits) }
    requires fits { number < 2 ^ bits }
    requires room { length out.old ≡ 8 }
    ensures { take (bits / 8) out.new ≡ number_bytes endian (bits / 8) number }
{
    match endian {
        Endian::Little => out.copy_from_slice(&number.to_le_bytes()),
        Endian::Big => out.copy_from_slice(&(number << (64 - bits)).to_be_bytes()),
    }
}

// Each size of an element has a copy of its own, whose length is known when it is compiled.

/// Copies the first bytes, as many as `out` has.
#[inline]
fn write_front(bytes: &[u8; 8], out: &mut [u8])
    requires { length out.old ≤ 8 }
    ensures { out.new ≡ take (length out.old) bytes.now }
{
    match out.len() {
        1 => out.copy_from_slice(&bytes[..1]),
        2 => out.copy_from_slice(&bytes[..2]),
        4 => out.copy_from_slice(&bytes[..4]),
        8 => out.copy_from_slice(bytes),
        size => out.copy_from_slice(&bytes[..size]),
    }
}

/// Copies the last bytes, as many as `out` has.
#[inline]
fn write_back(bytes: &[u8; 8], out: &mut [u8])
    requires { length out.old ≤ 8 }
    ensures { out.new ≡ drop (8 - length out.old) bytes.now }
{
    match out.len() {
        1 => out.copy_from_slice(&bytes[7..]),
        2 => out.copy_from_slice(&bytes[6..]),
        4 => out.copy_from_slice(&bytes[4..]),
        8 => out.copy_from_slice(bytes),
        size => out.copy_from_slice(&bytes[8 - size..]),
    }
}

/// The number that the bytes stand for.
pub fn read_number(bytes: &[u8], endian: Endian) -> u64
    requires { length bytes.now ≤ 8 }
    ensures { result ≡ number_of endian bytes.now }
{
    let size = bytes.len();
    let mut word = [0; 8];
    match endian {
        Endian::Little => {
            word[..size].copy_from_slice(bytes);
            u64::from_le_bytes(word)
        }
        Endian::Big => {
            word[8 - size..].copy_from_slice(bytes);
            u64::from_be_bytes(word)
        }
    }
}
