//! What a connection has open at the devices.

ghost use Rattle.std.specs.Prelude.{◌≡◌};

use iio_mask::Mask;

/// The buffers count of a device if the connection hasn't set one.
pub const FIRST_BUFFERS: u32 = 4;

/// The largest buffers count.
pub const MAX_BUFFERS: u32 = 64;

/// A seat, with its device, the mask of its OPEN or of the last REMASK, the capacity of its OPEN, the bytes of its scans, and
/// the number of scans that REMASKs discarded.
#[derive(Drop)]
pub struct OpenSeat<S> {
    pub(crate) dev: u32,
    pub(crate) mask: Mask,
    pub(crate) capacity: u32,
    pub(crate) size: u32,
    pub(crate) discarded: u64,
    pub(crate) seat: S,
}

impl<S> OpenSeat<S> {
    /// Returns the device's number, and the seat.
    pub(crate) fn into_seat(self) -> (u32, S)
        ensures dev { result.0 ≡ self.dev }
        ensures seat { result.1 ≡ self.seat }
    {
        let OpenSeat {
            dev,
            mask: _,
            capacity: _,
            size: _,
            discarded: _,
            seat,
        } = self;
        (dev, seat)
    }
}

/// The buffers count for later OPENs of a device.
#[derive(Clone, Copy, Debug)]
pub struct BuffersCount {
    pub(crate) dev: u32,
    pub(crate) count: u32,
}

/// A connection's number, its seats, the buffers counts that it has set, and the devices whose events it holds.
#[derive(Drop)]
pub struct Client<S> {
    /// The number by which the devices know who holds their events.
    pub who: u32,
    /// The seats, no two of which are at one device.
    pub held: Vec<OpenSeat<S>>,
    /// The buffers counts, of the devices for which one was set.
    pub buffers: Vec<BuffersCount>,
    /// The numbers of the devices whose events are held.
    pub holdings: Vec<u32>,
}
