//! How a reading ends.

ghost use Rattle.std.specs.Prelude.{◌≡◌};

use iio_base::Mem;

/// How a reading of a device ended.
#[derive(Clone, Copy, Debug, PartialEq, Eq)]
pub enum ClientEnd {
    /// All wanted scans came and were printed, and the server confirmed the end.
    Done,
    /// The server refused a command by this negative number.
    Refused(u32),
    /// A call of the link failed.
    LinkFault,
    /// A write of the output failed.
    WriteFault,
    /// Memory ran out.
    Memory,
    /// What came isn't an answer.
    Malformed,
    /// The link ended before an answer's end.
    Cut,
}

impl From<Mem> for ClientEnd {
    ghost use Rattle.iiod_client.specs.declared.client_end.ClientEnd.TheVariants.{Memory as NoMemory};

    ghost from_gives = { λ _ e. e ≡ NoMemory };

    fn from(_e: Mem) -> ClientEnd {
        ClientEnd::Memory
    }
}
