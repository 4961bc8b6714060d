//! Scripts: reading them, playing them, and the text that is printed.
#![tactic(auto)]

mod digits;
mod ends;
mod keeping;
mod line_reader;
mod opening;
mod outline;
mod script;
mod status;
mod step;
mod step_word;
mod stop;

pub use digits::push_digits;
pub use ends::{end_cut, end_refused, end_with, push_refused};
pub use iio_base::Mem;
pub use iio_text::LineFault as StepFault;
pub use keeping::{Keeping, keep};
pub use line_reader::{LineReader, MAX_PIECE_BYTES};
pub use opening::{Opening, open};
pub use script::play;
pub use status::Status;
pub use step::read_step;
pub use stop::{Stop, kept, tally};
