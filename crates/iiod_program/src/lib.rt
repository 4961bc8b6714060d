//! What the program does for its words, over any input, output and door.
#![tactic(auto)]

mod command;
mod exit;
mod layout;
mod limits;
mod placing;
mod request;
mod serving;

pub use command::run;
pub use exit::{End, exit_code};
pub use limits::limits_are_these;
pub use request::{Request, request_of};
pub use serving::end_of;
