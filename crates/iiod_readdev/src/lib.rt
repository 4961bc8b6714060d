//! `readdev`: reads a device of a description over a link, and prints its scans.
#![tactic(auto)]

mod dialled;
mod exit;
mod read_status;
mod reading;
mod wanted;
mod words;

pub use exit::{exit_of, is_readdev};
pub use read_status::ReadStatus;
pub use reading::readdev;
