//! Reads numbers from their texts.

ghost use Rattle.std.specs.Prelude.{◌≡◌, ◌-◌, ◌^◌, ◌<◌, ◌≤◌, ℕ, ℤ, negsuc, Some, decimal, FitsSigned};
ghost use Rattle.std.specs.Int.{w64};
ghost use Rattle.std.specs.Fmt.{signed_decimal};
ghost use Rattle.iio_text.specs.Numbers.{value_up_to, plain_value, number_of, int_of};

// The number that decimal digits write, if it is at most `limit`.
pub(crate) fn value_up_to(text: &[u8], limit: u64) -> Option<u64>
    requires { limit ≤ 9223372036854775808 }
    ensures { result ≡ value_up_to limit text.now }
{
    let most = limit / 10;
    let mut value = 0;
    for byte in text {
        if !byte.is_ascii_digit() {
            return None;
        }
        if value > most {
            return None;
        }
        value = value * 10 + u64::from(*byte - b'0');
    }
    if value <= limit { Some(value) } else { None }
}

// The number that `0`, or digits without a leading zero, write, if it is at most `limit`.
fn plain_value(text: &[u8], limit: u64) -> Option<u64>
    requires { limit ≤ 9223372036854775808 }
    ensures { result ≡ plain_value limit text.now }
{
    match text {
        [] => None,
        [b'0'] => Some(0),
        [b'0', ..] => None,
        _ => value_up_to(text, limit),
    }
}

// Minus a number.
fn negated(value: u64) -> i64
    requires some { 0 < value }
    requires within { value ≤ 9223372036854775808 }
    ensures { result ≡ negsuc (value - 1) }
{
    -((value - 1) as i64) - 1
}

/// Reads the number of a command: one to ten decimal digits that write a number up to 4,294,967,295. Leading zeros are allowed.
/// Returns `None` for every other text.
pub fn read_number(text: &[u8]) -> Option<u32>
    ensures value { result ≡ number_of text.now }
    // A printed number is read back.
    ensures read_back { (n : ℕ) → n < 2 ^ 32 → number_of (decimal n) ≡ Some n }
{
    if text.is_empty() || text.len() > 10 {
        return None;
    }
    match value_up_to(text, u64::from(u32::MAX)) {
        Some(value) => Some(value as u32),
        None => None,
    }
}

/// Reads the integer of a description or a script: `0`, or an optional `-` and decimal digits without a leading zero, within 64
/// signed bits. Returns `None` for every other text, `-0` among them.
pub fn read_int(text: &[u8]) -> Option<i64>
    ensures value { result ≡ int_of text.now }
    // A printed integer is read back.
    ensures read_back { (z : ℤ) → FitsSigned w64 z → int_of (signed_decimal z) ≡ Some z }
{
    match text {
        [b'-', digits @ ..] => match plain_value(digits, 1 << 63) {
            None | Some(0) => None,
            Some(value) => Some(negated(value)),
        },
        _ => match plain_value(text, i64::MAX as u64) {
            Some(value) => Some(value as i64),
            None => None,
        },
    }
}
