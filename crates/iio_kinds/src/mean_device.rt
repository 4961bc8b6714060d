//! An averaging device of a bench.

ghost use Rattle.std.proofs.Props.{props};
ghost use Rattle.iio_kinds.specs.Seated.{IsSeating};

use iio_attr::Name;
use iio_derive::Average;
use iio_device::Totals;
use iio_mask::Mask;

/// A member of an averaging device.
#[derive(Clone, Copy, Debug)]
pub struct MeanSeat {
    /// The member's number, which no other member ever has.
    pub(crate) number: u64,
    /// The member's number at the `Average`.
    pub(crate) slot: u32,
    pub(crate) mask: Mask,
    /// The number of scans that its queue can hold.
    pub(crate) capacity: u32,
}

/// An averaging device: it offers its members the means of its base's captures.
#[derive(Drop)]
pub struct MeanDevice {
    pub(crate) name: Name,
    /// The device's number in the description.
    pub(crate) number: u32,
    /// The number of its base.
    pub(crate) base: u32,
    pub(crate) average: Average,
    pub(crate) plugged: bool,
    /// The number of times that a first member has joined; it is the number of the present attachment.
    pub(crate) starts: u64,
    /// The number of the next member.
    pub(crate) next: u64,
    /// The number of means that it has made.
    pub(crate) captures: u64,
    pub(crate) totals: Totals,
    /// Its members, in the order in which they joined.
    pub(crate) seats: Vec<MeanSeat>,
    ghost sound: { IsSeating average captures next starts seats.items } by { Prim.hlevel props },
}
