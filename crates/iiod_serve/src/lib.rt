//! `serve`: reads a description, opens a door, and serves its devices; and what the program's commands share: the line that
//! names them, numbers among their words, and the reading of a description.
#![tactic(auto)]

mod description;
mod opened;
mod serve_status;
mod serving;
mod spelled;
mod usage;
mod words;

pub use description::read_description;
pub use serve_status::ServeStatus;
pub use serving::serve;
pub use spelled::read_spelled;
pub use usage::print_usage;
