//! Copy tables: from the scan of all that is captured to the scan that one buffer asked for.
//!
//! A device is asked once for each capture, under the active mask. Each buffer has a mask within it, and a table that
//! copies its channels from the active scan to their places in the buffer's scan (kernel, industrialio-buffer.c).
#![tactic(auto)]

mod table;

pub use iio_base::Mem;
pub use table::{Entry, Table};
