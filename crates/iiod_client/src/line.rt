//! Lines of an answer.

ghost use Rattle.std.specs.Prelude.{◌≡◌};
ghost use Rattle.iiod_client.specs.Line.{refusal_of};

use iio_text::read_number;

/// The maximum number of bytes of a line before its LF.
pub const MAX_LINE: usize = 32;

/// Returns the number n of a negative number line -n: one to ten digits after a `-`, not 0. `None` for every other line.
pub fn read_refusal(line: &[u8]) -> Option<u32>
    ensures { result ≡ refusal_of line.now }
{
    match line {
        [b'-', digits @ ..] => match read_number(digits) {
            None | Some(0) => None,
            Some(n) => Some(n),
        },
        _ => None,
    }
}
