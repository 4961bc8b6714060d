//! What every crate of the workspace builds on: lack of memory, counts and sums without an end, and definitions on counts of
//! faults.
#![tactic(auto)]

ghost use Rattle.std.specs.Prelude.{◌≡◌};
ghost use Rattle.iio_base.specs.declared.Mem.{Mem};

mod count;
mod sum;

pub use count::Count;
use std::alloc::{AllocError, AllocFailed};
use std::error::Error;
use std::fmt;
pub use sum::Sum;

/// Lack of memory. It is the one result that no argument explains: no clause says when it is returned.
#[derive(Clone, Copy, Debug)]
pub struct Mem;

impl fmt::Display for Mem {
    fn fmt<W: fmt::Write>(&self, f: &mut fmt::Formatter<W>) -> fmt::Result {
        write!(f, "out of memory")
    }
}

impl Error for Mem {}

impl From<AllocError> for Mem {
    fn from(_e: AllocError) -> Mem {
        Mem
    }
}

impl<T: Drop> From<AllocFailed<T>> for Mem {
    fn from(_e: AllocFailed<T>) -> Mem {
        Mem
    }
}
