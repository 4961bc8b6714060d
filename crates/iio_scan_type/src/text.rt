//! The text of a scan type, read and printed.
#![tactic(auto)]

ghost use Rattle.std.specs.Prelude.{◌≡◌, ℕ, ◌<◌, ◌^◌, IfOk, IfSome, Some, None, option_map, option_copied, string_bytes};
ghost use Rattle.iio_scan_type.specs.Text.{IsTypeText, after_byte, endian_at, repeat_at, shift_at, sign_at, small_at, type_of, type_text};
ghost use Rattle.iio_scan_type.specs.Format.{Format, IsInProfile};

use crate::{Endian, Mem, ScanType, Sign};
use std::alloc::Global;
use std::fmt;

fn after_byte(text: &[u8], c: u8) -> Option<&[u8]>
    ensures { option_copied result ≡ after_byte c text.now }
{
    match text {
        [b, rest @ ..] if *b == c => Some(rest),
        _ => None,
    }
}

fn endian_at(text: &[u8]) -> Option<(Endian, &[u8])>
    ensures { option_map (λ x. (x.0, x.1.now)) result ≡ endian_at text.now }
{
    let (endian, rest) = match text {
        [b'b', rest @ ..] => (Endian::Big, rest),
        [b'l', rest @ ..] => (Endian::Little, rest),
        _ => return None,
    };
    let rest = after_byte(rest, b'e')?;
    let rest = after_byte(rest, b':')?;
    Some((endian, rest))
}

fn sign_at(text: &[u8]) -> Option<(Sign, &[u8])>
    ensures { option_map (λ x. (x.0, x.1.now)) result ≡ sign_at text.now }
{
    match text {
        [b's', rest @ ..] => Some((Sign::Signed, rest)),
        [b'u', rest @ ..] => Some((Sign::Unsigned, rest)),
        _ => None,
    }
}

/// Reads a number of one or two digits without a leading zero. No number in the profile has more.
fn small_at(text: &[u8]) -> Option<(u8, &[u8])>
    ensures { option_map (λ x. (x.0, x.1.now)) result ≡ small_at text.now }
{
    match text {
        [b'0', rest @ ..] => Some((0, rest)),
        [tens @ b'1'..=b'9', ones @ b'0'..=b'9', rest @ ..] => {
            Some((10 * (tens - b'0') + (ones - b'0'), rest))
        }
        [ones @ b'1'..=b'9', rest @ ..] => Some((ones - b'0', rest)),
        _ => None,
    }
}

fn repeat_at(text: &[u8]) -> Option<(u8, &[u8])>
    ensures { option_map (λ x. (x.0, x.1.now)) result ≡ repeat_at text.now }
{
    match text {
        [b'X', rest @ ..] => small_at(rest).filter(|x| x.0 != 1),
        _ => Some((1, text)),
    }
}

fn shift_at(text: &[u8]) -> Option<u8>
    ensures { result ≡ shift_at text.now }
{
    if text.is_empty() {
        return Some(0);
    }
    let rest = after_byte(text, b'>')?;
    let rest = after_byte(rest, b'>')?;
    let (shift, rest) = small_at(rest)?;
    if rest.is_empty() { Some(shift) } else { None }
}

fn spelled(text: &[u8]) -> Option<ScanType>
    ensures { result ≡ type_of text.now }
{
    let (endian, rest) = endian_at(text)?;
    let (sign, rest) = sign_at(rest)?;
    let (realbits, rest) = small_at(rest)?;
    let rest = after_byte(rest, b'/')?;
    let (storagebits, rest) = small_at(rest)?;
    let (repeat, rest) = repeat_at(rest)?;
    let shift = shift_at(rest)?;
    ScanType::new(sign, realbits, storagebits, shift, repeat, endian)
}

/// The type that a text spells: `be:` or `le:`, `s` or `u`, the real bits, `/`, the storage bits, `X` and the repeat if it is
/// above 1, `>>` and the shift. A text without `>>` has the shift 0. Returns `None` exactly if the text isn't such a spelling
/// of a type in the profile.
pub fn read_type(text: &[u8]) -> Option<ScanType>
    ensures value { result ≡ type_of text.now }
    // What is read has that spelling.
    ensures found { IfSome result (λ f. IsInProfile f × IsTypeText text.now f) }
    // What has that spelling is read.
    ensures only { (f : Format) → IsInProfile f → IsTypeText text.now f → result ≡ Some f }
{
    spelled(text)
}

impl fmt::Display for ScanType {
    ghost output = { λ f. Some (type_text f) };

    fn fmt<W: fmt::Write>(&self, f: &mut fmt::Formatter<W>) -> fmt::Result {
        let endian = match self.endian() {
            Endian::Big => "be",
            Endian::Little => "le",
        };
        let sign = match self.sign() {
            Sign::Signed => 's',
            Sign::Unsigned => 'u',
        };
        write!(
            f,
            "{endian}:{sign}{}/{}",
            self.realbits(),
            self.storagebits()
        )?;
        if self.repeat() != 1 {
            write!(f, "X{}", self.repeat())?;
        }
        write!(f, ">>{}", self.shift())
    }
}

/// The printed spelling of a type, always with its shift, and with its repeat if that isn't 1.
pub fn print_type(alloc: Global, ty: &ScanType) -> Result<String, Mem>
    ensures { IfOk result (λ s. string_bytes s ≡ type_text ty.now) }
{
    Ok(format!(in alloc; "{ty}")?)
}
