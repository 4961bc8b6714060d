//! What each command of libiio 0.25's iiod does for a connection, and what it asks of the devices.
#![tactic(auto)]

mod answers;
mod attributes;
mod buffers;
mod client;
mod events;
mod iio;
mod items;
mod kinds;
mod leaving;
mod manner;
mod reading;
mod seats;
mod targets;
mod triggers;
mod wanted;

pub use answers::push_refusal;
pub use buffers::read_buffer;
pub use client::{BuffersCount, Client, FIRST_BUFFERS, MAX_BUFFERS, OpenSeat};
pub use iio::{Bells, Counts, Iio, No, Took, held_no, holder_no, no_of, raw_no, remask_no};
pub use items::{perform, perform_refused, perform_streamed, perform_written};
pub use leaving::leave;
pub use manner::{Manner, Progress};
pub use reading::read_scans;
pub use seats::place;
