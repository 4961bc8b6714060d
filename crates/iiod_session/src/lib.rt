//! The sessions of libiio 0.25's iiod: what a connection sends, what it is answered, and what becomes of the devices.
#![tactic(auto)]

mod feed;
mod going;
mod pending_write;
mod session;
mod watch;
mod word;

pub use going::Going;
pub use iio_base::Mem;
pub use iio_core::MAX_SCANS;
pub use iiod_commands::{
    Bells, Counts, FIRST_BUFFERS, Iio, MAX_BUFFERS, Manner, No, Took, held_no, holder_no, no_of,
    raw_no, read_scans, remask_no,
};
pub use session::Session;
pub use watch::{Seen, Unwatched, Watch};
