//! How a run of the program ends.

ghost use Rattle.std.specs.Prelude.{◌≡◌};
ghost use Rattle.iio_script.specs.Status.{code_of};
ghost use Rattle.iio_script.specs.declared.status.Status.TheVariants.{Memory as OutOfMemory};

use iio_base::Mem;
use iio_text::Why;

/// How a run ends.
#[derive(Clone, Copy, Debug, PartialEq, Eq)]
pub enum Status {
    /// The input was read to its end.
    Done,
    /// The line with this number, counted from 1, is the first that fails.
    Refused { line: u32, why: Why },
    /// The program's words are not one of its commands.
    Usage,
    /// Reading the input failed.
    ReadFault,
    /// Writing the output failed.
    WriteFault,
    /// Memory ran out.
    Memory,
    /// The input has more bytes than are looked at, and no looked-at line fails.
    TooLong,
}

impl From<Mem> for Status {
    ghost from_gives = { λ _ e. e ≡ OutOfMemory };

    fn from(_e: Mem) -> Status {
        Status::Memory
    }
}

impl Status {
    /// Returns the exit code of the process.
    pub fn code(&self) -> u8
        ensures { result ≡ code_of self.now }
    {
        match self {
            Status::Done => 0,
            Status::Refused { .. } => 1,
            Status::Usage => 2,
            Status::ReadFault => 3,
            Status::WriteFault => 4,
            Status::Memory => 5,
            Status::TooLong => 6,
        }
    }
}
