//! A bench, which is the devices and triggers of a description with one clock, as connections use it; and one connection at it.
#![tactic(auto)]

mod bench;
mod connection;
mod feed_lines;
mod feeding;
mod firing;
mod first;
mod guard;
mod iio;
mod inventory;
mod opening;
mod others;
mod together;

pub use bench::Bench;
pub use connection::Connection;
pub use feed_lines::{put_name, put_word};
pub use feeding::{feed_beside, feed_unwatched, lose};
pub use guard::may_end;
pub use others::Others;
