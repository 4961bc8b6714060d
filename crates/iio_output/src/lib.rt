//! Output devices: what a writer wrote, and what the device was given of it.
//!
//! An output device has at most one writer. What it writes waits in the order of its writing, as whole scans of its mask, and
//! each time the device is due it is given the first scan that waits; if none waits, that is an underrun, which is counted. A
//! cyclic writer writes once, and its scans are given round and round (kernel, driver-api/iio, output buffers; libiio,
//! `iio_device_create_buffer` with `cyclic`). The answers of a full and of a cyclic writer, and the count of underruns, are
//! this project's own.
#![tactic(auto)]

mod last;
mod out;
mod writer;

pub use iio_base::Mem;
pub use out::{Out, OutFault};
pub use writer::{Next, Wrote};
