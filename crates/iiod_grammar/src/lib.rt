//! What a connection sends to libiio 0.25's iiod, in its text protocol.
#![tactic(auto)]

mod blanks;
mod command;
mod kept;
mod line;
mod lines;
mod stream;
mod words;

pub use command::{Command, Place, Refused};
pub use iio_base::Mem;
pub use line::{read_line, without_returns};
pub use lines::{Lines, MAX_LINE, MAX_PAYLOAD, Ready};
pub use stream::cut_anywhere;
