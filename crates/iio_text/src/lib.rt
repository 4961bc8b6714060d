//! The texts that every other crate reads or prints: lines and their words, error numbers, words of
//! refusals, numbers, and escaped bytes.
#![tactic(auto)]

mod appending;
mod decimals;
mod errors;
mod escapes;
mod faults;
mod lines;
mod numbers;
mod refusals;
mod runs;
mod values;
mod words;

pub use crate::appending::{append_reserved, push_hex};
pub use crate::decimals::{print_fixed, read_fixed};
pub use crate::errors::Errno;
pub use crate::escapes::{between_quotes, escape, escape_to, unescape, unescape_into};
pub use crate::faults::{LineFault, Unescape};
pub use crate::lines::{MAX_LINE_BYTES, copy_line, first_word, fits_line, line_len, next_line};
pub use crate::numbers::{read_int, read_number};
pub use crate::refusals::{Why, ensure};
pub use crate::values::{Fixed, Form};
pub use crate::words::{
    count_words, from_word, is_word, next_word, one_word, three_words, two_words,
};
pub use iio_base::Mem;
