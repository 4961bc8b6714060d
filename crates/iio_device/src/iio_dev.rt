//! What the core keeps of a device.

ghost use Rattle.std.specs.Prelude.{length};
ghost use Rattle.std.proofs.Props.{props};
ghost use Rattle.iio_device.specs.Whole.{IsWhole};

use crate::roster::Roster;
use crate::stored::Stored;
use crate::totals::Totals;
use iio_attr::Name;
use iio_kfifo::Tail;

/// What the core keeps of a device: everything except its driver (kernel: `struct iio_dev`).
#[derive(Drop)]
pub struct IioDev<Q: Tail> {
    pub roster: Roster<Q>,
    pub name: Name,
    /// The device's number in the description.
    pub number: u32,
    /// The number of its trigger, below 16. A device that has a member has a trigger.
    pub trigger: Option<u32>,
    /// The number of times that a first member has joined; it is the number of the present attachment.
    pub attachment: u64,
    pub stored: Stored,
    pub totals: Totals,
    ghost whole: { IsWhole (length roster.shape.channels) attachment roster.next trigger roster.members.items stored } by { Prim.hlevel props },
}
