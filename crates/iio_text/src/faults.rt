//! Why a text or a line can't be read.

ghost use Rattle.std.specs.Prelude.{◌≡◌};
ghost use Rattle.iio_text.specs.declared.faults.LineFault.TheVariants.{Why as Refused, Mem as OutOfMemory};

use crate::refusals::Why;
use iio_base::Mem;
use std::alloc::{AllocError, AllocFailed};
use thiserror::Error;

/// Why a text can't be unescaped.
#[derive(Clone, Copy, Debug, PartialEq, Eq, Error)]
pub enum Unescape {
    /// The place of the first byte or escape that isn't allowed, counted from 0.
    #[error("no byte or escape that is allowed at {0}")]
    BadEscape(usize),
    /// Memory ran out.
    #[error("out of memory")]
    Mem,
}

/// Why a line of a description or of a script can't be read.
#[derive(Clone, Copy, Debug, PartialEq, Eq, Error)]
pub enum LineFault {
    /// The first check that fails.
    #[error("refused: {}", .0.text())]
    Why(Why),
    /// Memory ran out.
    #[error("out of memory")]
    Mem,
}

impl From<Why> for LineFault {
    ghost from_gives = { λ why e. e ≡ Refused why };

    fn from(why: Why) -> LineFault {
        LineFault::Why(why)
    }
}

impl From<Mem> for LineFault {
    ghost from_gives = { λ _ e. e ≡ OutOfMemory };

    fn from(_e: Mem) -> LineFault {
        LineFault::Mem
    }
}

impl From<AllocError> for LineFault {
    ghost from_gives = { λ _ e. e ≡ OutOfMemory };

    fn from(_e: AllocError) -> LineFault {
        LineFault::Mem
    }
}

impl<T: Drop> From<AllocFailed<T>> for LineFault {
    ghost from_gives = { λ _ e. e ≡ OutOfMemory };

    fn from(_e: AllocFailed<T>) -> LineFault {
        LineFault::Mem
    }
}
