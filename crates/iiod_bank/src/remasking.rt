//! REMASK at a device.

ghost use Rattle.std.specs.Prelude.{◌≡◌, ◌*◌, ◌≤◌, true};
ghost use Rattle.iio_kfifo.specs.declared.limits.TheConstants.{MAX_BYTES};
ghost use Rattle.iio_device.specs.Device.{view_of};
ghost use Rattle.iiod_bank.specs.Jobs.{MayOpenAt, RemaskMakes, buffer_of};
ghost use Rattle.iiod_bank.specs.Kept.{Kept};

use crate::bank::Work;
use crate::opening::is_sized;
use iio_device::{Device, Member, Plug, RemaskRefused};
use iio_kfifo::{Reader, Writer, ring};
use iio_layout::Shape;
use iio_mask::Mask;
use iio_sensor::Sensor;
use iiod_commands::{No, remask_no};
use std::alloc::Global;

/// The result of a REMASK's job: the writing end of the member's old ring, and the reading end of its new one.
pub struct Remasked {
    pub before: Writer,
    pub reader: Reader,
}

// Puts the member under that mask, with a new ring for `capacity` scans of `size` bytes, the size of the mask's scans. The
// refusals are those of `Device::may_remask`, then `Mem`; a refusal changes nothing.
fn remask_at(
    alloc: Global,
    device: &mut Device<Writer>,
    member: &Member,
    mask: Mask,
    capacity: u32,
    size: u32,
) -> Result<Remasked, No>
    requires may { MayOpenAt mask.bits size device.old.core.roster.shape }
    requires some { 1 ≤ capacity }
    requires bytes { 1 ≤ size }
    requires fits { capacity * size ≤ MAX_BYTES }
    ensures { RemaskMakes member.now.number (buffer_of mask capacity size) (view_of ⟦<Plug as Sensor>⟧.driver device.old) result
        (view_of ⟦<Plug as Sensor>⟧.driver device.new) }
{
    if let Err(fault) = device.may_remask(member, mask) {
        return Err(remask_no(fault));
    }
    let Ok((writer, reader)) = ring(alloc, capacity, size) else {
        return Err(No::Mem);
    };
    match device.remask(member, mask, writer) {
        Ok(before) => Ok(Remasked { before, reader }),
        Err(RemaskRefused { fault: _, tail: _ }) => {
            reader.end();
            Err(No::Mem)
        }
    }
}

/// The job of a REMASK.
#[derive(Drop)]
pub struct RemaskWork {
    pub alloc: Global,
    pub member: Member,
    pub mask: Mask,
    pub capacity: u32,
    pub size: u32,
    ghost some: { 1 ≤ capacity },
    ghost bytes: { 1 ≤ size },
    ghost fits: { capacity * size ≤ MAX_BYTES },
}

impl RemaskWork {
    /// Creates a REMASK of `member` to `mask`, with a new ring for `capacity` scans of `size` bytes.
    pub fn new(alloc: Global, member: Member, mask: Mask, capacity: u32, size: u32) -> RemaskWork
        requires some { 1 ≤ capacity }
        requires bytes { 1 ≤ size }
        requires fits { capacity * size ≤ MAX_BYTES }
        ensures { (result.member ≡ member) × (result.mask ≡ mask) × (result.capacity ≡ capacity) × (result.size ≡ size) }
    {
        RemaskWork {
            alloc,
            member,
            mask,
            capacity,
            size,
        }
    }
}

impl Work for RemaskWork {
    ghost use Rattle.iiod_bank.specs.Jobs.{MayOpenAt, RemaskMakes, buffer_of};

    type Out = Result<Remasked, No>;

    ghost may = { λ w shape. MayOpenAt w.mask.bits w.size shape };

    ghost does = { λ w a o b. RemaskMakes w.member.number (buffer_of w.mask w.capacity w.size) a o b };

    fn fits(&self, shape: &Shape) -> bool {
        is_sized(shape, self.mask, self.size)
    }

    fn run(self, device: &mut Device<Writer>) -> Result<Remasked, No> {
        remask_at(
            self.alloc,
            device,
            &self.member,
            self.mask,
            self.capacity,
            self.size,
        )
    }
}
