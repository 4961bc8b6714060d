//! Events and their codes.

ghost use Rattle.std.specs.Prelude.{◌≡◌};
ghost use Rattle.iio_event.specs.Code.{kind_number, modifier_of, channel_number, direction_of, code_of, event_bytes};

use iio_layout::{Kind, Suffix};

/// The edge of a threshold that a value crosses.
#[derive(Clone, Copy, Debug)]
pub enum Edge {
    /// From at or below the threshold to above it.
    Rising,
    /// From at or above the threshold to below it.
    Falling,
}

/// An event (kernel: `iio_event_data`).
#[derive(Clone, Copy, Debug, PartialEq, Eq)]
pub struct EventData {
    /// What happened at which channel, as `code` says it.
    pub code: u64,
    /// The moment.
    pub t: i64,
}

impl EventData {
    /// The event's 16 bytes: the code and the moment, both little endian.
    pub fn bytes(self) -> [u8; 16]
        ensures { result ≡ event_bytes self }
    {
        let mut bytes = [0u8; 16];
        bytes[..8].copy_from_slice(&self.code.to_le_bytes());
        bytes[8..].copy_from_slice(&self.t.to_le_bytes());
        bytes
    }
}

fn kind_number(kind: Kind) -> u64
    ensures { result ≡ kind_number kind }
{
    match kind {
        Kind::Voltage => 0,
        Kind::Current => 1,
        Kind::Accel => 3,
        Kind::Anglvel => 4,
        Kind::Magn => 5,
        Kind::Temp => 9,
    }
}

fn modifier(suffix: Suffix) -> u64
    ensures { result ≡ modifier_of suffix }
{
    match suffix {
        Suffix::X => 1,
        Suffix::Y => 2,
        Suffix::Z => 3,
        Suffix::Bare | Suffix::Number(_) => 0,
    }
}

fn channel_number(suffix: Suffix) -> u64
    ensures { result ≡ channel_number suffix }
{
    match suffix {
        Suffix::Number(number) => u64::from(number),
        _ => 0,
    }
}

fn direction(edge: Edge) -> u64
    ensures { result ≡ direction_of edge }
{
    match edge {
        Edge::Rising => 1,
        Edge::Falling => 2,
    }
}

/// The code of a threshold event at a channel of that kind and suffix (kernel: `IIO_EVENT_CODE`): the direction from bit
/// 48 on, 1 for rising and 2 for falling; the modifier from bit 40 on, 1, 2, 3 for `_x`, `_y`, `_z`; the kind from bit 32
/// on; and the number of the ID in the lowest bits.
pub fn code(kind: Kind, suffix: Suffix, edge: Edge) -> u64
    ensures { result ≡ code_of kind suffix edge }
{
    direction(edge) * 0x1_0000_0000_0000
        + modifier(suffix) * 0x100_0000_0000
        + kind_number(kind) * 0x1_0000_0000
        + channel_number(suffix)
}
