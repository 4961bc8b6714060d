//! An input device of a bench, with the inner members that averaging devices have at it.

ghost use Rattle.std.proofs.Props.{props};
ghost use Rattle.iio_kinds.specs.Inner.{HasInners};

use iio_device::Device;
use iio_kfifo::Kfifo;

/// An inner member: a member of an input device that belongs to an averaging device.
#[derive(Clone, Copy, Debug)]
pub struct Inner {
    /// The member's number at the input device.
    pub(crate) number: u64,
    /// The number of the averaging device.
    pub(crate) average: u32,
}

/// An input device. Each inner member has the mask of all channels and takes its scan of each capture at once.
#[derive(Drop)]
pub struct InDevice {
    pub(crate) device: Device<Kfifo>,
    /// Its inner members, in the order in which they joined.
    pub(crate) inners: Vec<Inner>,
    /// The scan of all channels that the inner members took last.
    pub(crate) room: Vec<u8>,
    ghost sound: { HasInners device.core.roster.shape device.core.roster.members.items inners.items room.items } by { Prim.hlevel props },
}
