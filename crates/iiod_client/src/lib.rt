//! A client of iiod: it reads the scans of a device over a link, and prints their values.
#![tactic(auto)]

mod answer;
mod ask;
mod client;
mod client_end;
mod hearing;
mod incoming;
mod limits;
mod line;
mod printing;
mod requests;

pub use answer::{Answer, MAX_ASKED, State, one_reading};
pub use ask::Ask;
pub use client::{MOST_SCANS, read_device};
pub use client_end::ClientEnd;
pub use iio_base::Mem;
pub use limits::limits_are_these;
