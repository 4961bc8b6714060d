//! OPEN and CLOSE at a device.

ghost use Rattle.std.specs.Prelude.{◌≡◌, ◌==◌, ◌*◌, ◌^◌, ◌≤◌, ◌<◌, nat_lt, true, Some, None, is_some};
ghost use Rattle.iio_layout.specs.Layout.{scan_size};
ghost use Rattle.iio_kfifo.specs.declared.limits.TheConstants.{MAX_BYTES};
ghost use Rattle.iio_device.specs.Device.{view_of};
ghost use Rattle.iiod_bank.specs.Jobs.{LeaveMakes, MayOpenAt, OpenMakes, buffer_of};
ghost use Rattle.iiod_bank.specs.Kept.{Kept};

use crate::bank::DeviceJob;
use iio_device::{Device, JoinRefused, Member, Plug};
use iio_kfifo::{Reader, Writer, ring};
use iio_layout::{Shape, scan_size};
use iio_mask::Mask;
use iio_sensor::Sensor;
use iio_text::Errno;
use iio_trigger::Trigger;
use iiod_commands::{No, no_of};
use std::alloc::Global;

/// A member, and the end of its ring from which scans are taken.
pub struct Opened {
    pub member: Member,
    pub reader: Reader,
}

// Whether a mask has only bits below that number of channels.
fn is_below(mask: Mask, channels: u32) -> bool
    requires { channels ≤ 64 }
    ensures { result ≡ nat_lt mask.bits (2 ^ channels) }
{
    channels == 64 || mask.bits < 1 << channels
}

/// Whether the scans of a mask have that size at a device of that shape.
pub(crate) fn is_sized(shape: &Shape, mask: Mask, size: u32) -> bool
    ensures may { result ≡ true → MayOpenAt mask.bits size shape.now }
    ensures exactly { MayOpenAt mask.bits size shape.now → result ≡ true }
{
    if !is_below(mask, shape.count()) {
        return false;
    }
    scan_size(shape, mask) == size
}

/// Joins a new member to a device and its trigger, with a ring for `capacity` scans of `size` bytes, the size of the mask's
/// scans. The refusals are those of `Device::may_join`, then `Mem`; a refusal changes nothing.
pub fn open_at(
    alloc: Global,
    device: &mut Device<Writer>,
    trigger: &mut Trigger,
    mask: Mask,
    capacity: u32,
    size: u32,
) -> Result<Opened, No>
    requires may { MayOpenAt mask.bits size device.old.core.roster.shape }
    requires some { 1 ≤ capacity }
    requires bytes { 1 ≤ size }
    requires fits { capacity * size ≤ MAX_BYTES }
    requires trigger { is_some device.old.core.trigger ≡ true }
    ensures { OpenMakes (buffer_of mask capacity size) (view_of ⟦<Plug as Sensor>⟧.driver device.old) (Some trigger.old) result
        (view_of ⟦<Plug as Sensor>⟧.driver device.new) (Some trigger.new) }
{
    if let Err(fault) = device.may_join(mask, Some(trigger)) {
        return Err(no_of(fault));
    }
    let Ok((writer, reader)) = ring(alloc, capacity, size) else {
        return Err(No::Mem);
    };
    match device.join(mask, writer, trigger) {
        Ok(member) => Ok(Opened { member, reader }),
        Err(JoinRefused { fault: _, tail: _ }) => {
            reader.end();
            Err(No::Mem)
        }
    }
}

// Refuses an OPEN at a device without a trigger.
fn open_alone(device: &Device<Writer>, mask: Mask, _capacity: u32, _size: u32) -> Result<Opened, No>
    requires none { device.now.core.trigger ≡ None }
    ensures { OpenMakes (buffer_of mask _capacity _size) (view_of ⟦<Plug as Sensor>⟧.driver device.now) None result
        (view_of ⟦<Plug as Sensor>⟧.driver device.now) None }
{
    match device.may_join(mask, None) {
        Err(fault) => Err(no_of(fault)),
        Ok(()) => Err(No::Errno(Errno::EINVAL)),
    }
}

/// The job of an OPEN.
#[derive(Drop)]
pub struct OpenJob {
    pub alloc: Global,
    pub mask: Mask,
    pub capacity: u32,
    pub size: u32,
    ghost some: { 1 ≤ capacity },
    ghost bytes: { 1 ≤ size },
    ghost fits: { capacity * size ≤ MAX_BYTES },
}

impl OpenJob {
    /// Creates an OPEN of `mask`, with a ring for `capacity` scans of `size` bytes.
    pub fn new(alloc: Global, mask: Mask, capacity: u32, size: u32) -> OpenJob
        requires some { 1 ≤ capacity }
        requires bytes { 1 ≤ size }
        requires fits { capacity * size ≤ MAX_BYTES }
        ensures { (result.mask ≡ mask) × (result.capacity ≡ capacity) × (result.size ≡ size) }
    {
        OpenJob {
            alloc,
            mask,
            capacity,
            size,
        }
    }
}

impl DeviceJob for OpenJob {
    ghost use Rattle.iiod_bank.specs.Jobs.{MayOpenAt, OpenMakes, buffer_of};

    type Out = Result<Opened, No>;

    ghost may = { λ j shape. MayOpenAt j.mask.bits j.size shape };

    ghost makes = { λ j a s o b t. OpenMakes (buffer_of j.mask j.capacity j.size) a s o b t };

    fn fits(&self, shape: &Shape) -> bool {
        is_sized(shape, self.mask, self.size)
    }

    fn alone(self, device: &mut Device<Writer>) -> Result<Opened, No> {
        open_alone(device, self.mask, self.capacity, self.size)
    }

    fn paired(self, device: &mut Device<Writer>, trigger: &mut Trigger) -> Result<Opened, No> {
        open_at(
            self.alloc,
            device,
            trigger,
            self.mask,
            self.capacity,
            self.size,
        )
    }
}

/// The job of a CLOSE.
#[derive(Drop)]
pub struct LeaveJob {
    pub member: Member,
}

impl DeviceJob for LeaveJob {
    ghost use Rattle.iiod_bank.specs.Jobs.{LeaveMakes};

    type Out = Option<Writer>;

    ghost may = { λ j shape. Unit {0} };

    ghost makes = { λ j a s o b t. LeaveMakes j.member.number a s o b t };

    fn fits(&self, _shape: &Shape) -> bool {
        true
    }

    // A device without a trigger has no member.
    fn alone(self, _device: &mut Device<Writer>) -> Option<Writer> {
        None
    }

    fn paired(self, device: &mut Device<Writer>, trigger: &mut Trigger) -> Option<Writer> {
        device.leave(self.member, trigger)
    }
}
