//! How `serve` ends.

ghost use Rattle.std.specs.Prelude.{◌≡◌};
ghost use Rattle.iiod_serve.specs.Served.{of_run, serve_code};

use iio_script::Status;
use iio_text::Why;

/// How a server ends.
#[derive(Clone, Copy, Debug, PartialEq, Eq)]
pub enum ServeStatus {
    /// The door gave no further connection, and those that it gave were served to their ends.
    DoorEnd,
    /// The line with this number, counted from 1, is the first of the description that fails.
    Refused { line: u32, why: Why },
    /// The program's words aren't those of `serve`.
    Usage,
    /// Reading the description failed.
    ReadFault,
    /// Writing the output failed.
    WriteFault,
    /// Memory, or threads, ran out before a connection was asked for.
    Memory,
    /// The description has more bytes than are looked at, and no looked-at line of it fails.
    TooLong,
    /// The door couldn't be opened at the address.
    NoAddress,
    /// The door failed after it was opened.
    DoorFault,
}

impl ServeStatus {
    /// Returns the exit code of the process.
    pub fn code(&self) -> u8
        ensures { result ≡ serve_code self.now }
    {
        match self {
            ServeStatus::DoorEnd => 0,
            ServeStatus::Refused { .. } => 1,
            ServeStatus::Usage => 2,
            ServeStatus::ReadFault => 3,
            ServeStatus::WriteFault => 4,
            ServeStatus::Memory => 5,
            ServeStatus::TooLong => 6,
            ServeStatus::NoAddress => 7,
            ServeStatus::DoorFault => 8,
        }
    }

    // Returns the status of a server that ended like a run, before its door was opened.
    pub(crate) fn of_run(status: Status) -> ServeStatus
        ensures { result ≡ of_run status }
    {
        match status {
            Status::Done => ServeStatus::DoorEnd,
            Status::Refused { line, why } => ServeStatus::Refused { line, why },
            Status::Usage => ServeStatus::Usage,
            Status::ReadFault => ServeStatus::ReadFault,
            Status::WriteFault => ServeStatus::WriteFault,
            Status::Memory => ServeStatus::Memory,
            Status::TooLong => ServeStatus::TooLong,
        }
    }
}
