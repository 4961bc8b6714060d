//! How `readdev` ends.

ghost use Rattle.std.specs.Prelude.{◌≡◌};
ghost use Rattle.iiod_readdev.specs.ReadStatus.{of_client, of_run, read_code};

use iio_script::Status;
use iio_text::Why;
use iiod_client::ClientEnd;

/// How `readdev` ended.
#[derive(Clone, Copy, Debug, PartialEq, Eq)]
pub enum ReadStatus {
    /// All wanted scans came and were printed, and the server confirmed the end.
    Done,
    /// The description was refused at this line; at line 0, the device or the mask among the words was refused.
    Refused { line: u32, why: Why },
    /// The words aren't those of `readdev`.
    Usage,
    /// A read of the description failed.
    ReadFault,
    /// A write failed.
    WriteFault,
    /// Memory ran out.
    Memory,
    /// The description has more bytes than are looked at, and no looked-at line of it fails.
    TooLong,
    /// The connection couldn't be begun at the address.
    NoAddress,
    /// A call of the link failed.
    LinkFault,
    /// What came isn't an answer.
    Malformed,
    /// The link ended before an answer's end.
    Cut,
    /// The server refused a command by this negative number.
    Answered(u32),
}

impl ReadStatus {
    /// Returns the exit code of the process.
    pub fn code(&self) -> u8
        ensures { result ≡ read_code self.now }
    {
        match self {
            ReadStatus::Done => 0,
            ReadStatus::Refused { .. } => 1,
            ReadStatus::Usage => 2,
            ReadStatus::ReadFault => 3,
            ReadStatus::WriteFault => 4,
            ReadStatus::Memory => 5,
            ReadStatus::TooLong => 6,
            ReadStatus::NoAddress => 7,
            ReadStatus::LinkFault => 8,
            ReadStatus::Malformed => 9,
            ReadStatus::Cut => 10,
            ReadStatus::Answered(_) => 11,
        }
    }

    // Returns the status of a run that ended without a description.
    pub(crate) fn of_run(status: Status) -> ReadStatus
        ensures { result ≡ of_run status }
    {
        match status {
            Status::Done => ReadStatus::Done,
            Status::Refused { line, why } => ReadStatus::Refused { line, why },
            Status::Usage => ReadStatus::Usage,
            Status::ReadFault => ReadStatus::ReadFault,
            Status::WriteFault => ReadStatus::WriteFault,
            Status::Memory => ReadStatus::Memory,
            Status::TooLong => ReadStatus::TooLong,
        }
    }

    // Returns the status of a reading over the link.
    pub(crate) fn of_client(end: ClientEnd) -> ReadStatus
        ensures { result ≡ of_client end }
    {
        match end {
            ClientEnd::Done => ReadStatus::Done,
            ClientEnd::Refused(number) => ReadStatus::Answered(number),
            ClientEnd::LinkFault => ReadStatus::LinkFault,
            ClientEnd::WriteFault => ReadStatus::WriteFault,
            ClientEnd::Memory => ReadStatus::Memory,
            ClientEnd::Malformed => ReadStatus::Malformed,
            ClientEnd::Cut => ReadStatus::Cut,
        }
    }
}
