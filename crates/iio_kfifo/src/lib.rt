//! Bounded queues of whole scans.
//!
//! A queue holds at most its capacity. A scan that is offered to a full queue is lost and counted, and those that wait stay.
//! The queue is the kernel's kfifo (driver-api/iio, "Buffers"); the count of lost scans is this project's own.
//!
//! A `Kfifo` has one owner. A `ring` has two ends, a `Writer` and a `Reader`, which may be in two threads: it is the kernel's
//! kfifo between one writer and one reader (linux/kfifo.h, with its counts `in` and `out`), and neither end takes a lock. Its
//! closed word, by which the reader learns that no more scans come, is this project's own.
#![tactic(auto)]

mod cell;
mod ends;
mod kfifo;
mod limits;
mod reader;
mod rule;
mod tail;
mod view;
mod words;
mod writer;

pub use ends::{Receipt, give_back, ring};
pub use iio_base::Mem;
pub use kfifo::Kfifo;
pub use limits::MAX_BYTES;
pub use reader::{Ended, Ending, Mark, Reader};
pub use tail::{Offered, Tail};
pub use view::{Offer, Reading, Sent, Writing};
pub use writer::{Closing, Writer};
