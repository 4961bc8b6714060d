//! How members join a device.

ghost use Rattle.std.specs.Prelude.{◌≡◌, ◌*◌, ◌^◌, ◌<◌, ◌≤◌, true, false, None, Some, is_some, length};
ghost use Rattle.iio_base.specs.Refusals.{first_refusal};
ghost use Rattle.iio_layout.specs.Active.{has_data};
ghost use Rattle.iio_layout.specs.Layout.{scan_size};
ghost use Rattle.iio_layout.specs.Shape.{count_of};
ghost use Rattle.iio_kfifo.specs.declared.limits.TheConstants.{MAX_BYTES};
ghost use Rattle.iio_desc.specs.Kind.{Input};
ghost use Rattle.iio_device.specs.Device.{has_no_place, join_faults, view_of};
ghost use Rattle.iio_kinds.specs.Acting.{KeepsCaptures};
ghost use Rattle.iio_kinds.specs.Faults.{Hosts, HostsAny, JoinsAny, JoinsBy, any_refusals, joining_of};
ghost use Rattle.iio_kinds.specs.Places.{is_hosted};
ghost use Rattle.iio_kinds.specs.Station.{station_by};

use crate::seat::Seat;
use iio_device::{Device, JoinFault, JoinRefused, Plug};
use iio_kfifo::Kfifo;
use iio_layout::scan_size;
use iio_mask::Mask;
use iio_sensor::Sensor;
use iio_trigger::Trigger;
use iiod_commands::{No, no_of};
use std::alloc::Global;

// Returns `trigger`, the number of the device's trigger, if a member of that mask may join by it.
fn host_at(
    device: &Device<Kfifo>,
    triggers: &[Trigger],
    trigger: usize,
    mask: Mask,
) -> Result<usize, JoinFault>
    requires own { device.now.core.trigger ≡ Some trigger }
    requires within { trigger < length triggers.now }
    ensures { Hosts triggers.now (view_of ⟦<Plug as Sensor>⟧.driver device.now) mask.bits result }
{
    match device.may_join(mask, Some(&triggers[trigger])) {
        Err(fault) => Err(fault),
        Ok(()) => Ok(trigger),
    }
}

// Returns the number of the device's trigger if a member of that mask may join by it.
fn host(device: &Device<Kfifo>, triggers: &[Trigger], mask: Mask) -> Result<usize, JoinFault>
    requires { is_hosted (length triggers.now) (station_by ⟦<Plug as Sensor>⟧.driver device.now) ≡ true }
    ensures { Hosts triggers.now (view_of ⟦<Plug as Sensor>⟧.driver device.now) mask.bits result }
{
    let Some(number) = device.trigger() else {
        device.may_join(mask, None)?;
        return Err(JoinFault::NoTrigger);
    };
    host_at(device, triggers, number as usize, mask)
}

// Adds a member to a device, which it may join.
fn join(
    alloc: Global,
    device: &mut Device<Kfifo>,
    trigger: &mut Trigger,
    mask: Mask,
    capacity: u32,
) -> Result<Seat, No>
    requires trigger { is_some device.old.core.trigger ≡ true }
    requires may { first_refusal (join_faults (view_of ⟦<Plug as Sensor>⟧.driver device.old) mask.bits (Some trigger.old)) ≡ None }
    requires below { mask.bits < 2 ^ count_of device.old.core.roster.shape }
    requires channel { has_data device.old.core.roster.shape mask.bits ≡ true }
    requires some { 1 ≤ capacity }
    requires bytes { capacity * scan_size device.old.core.roster.shape mask.bits ≤ MAX_BYTES }
    ensures { JoinsBy mask capacity result (view_of ⟦<Plug as Sensor>⟧.driver device.old)
        (view_of ⟦<Plug as Sensor>⟧.driver device.new) trigger.old trigger.new }
{
    let size = scan_size(device.shape(), mask);
    let Ok(tail) = Kfifo::new(alloc, capacity, size) else {
        return Err(No::Mem);
    };
    match device.join(mask, tail, trigger) {
        Ok(member) => Ok(Seat {
            number: member.number,
            mask,
            size,
            capacity,
        }),
        Err(JoinRefused { fault: _, tail: _ }) => Err(No::Mem),
    }
}

/// Returns the number of an input device's trigger if a member of that mask may join by it.
pub(crate) fn host_input(
    device: &Device<Kfifo>,
    triggers: &[Trigger],
    mask: Mask,
) -> Result<usize, No>
    requires hosted { is_hosted (length triggers.now) (station_by ⟦<Plug as Sensor>⟧.driver device.now) ≡ true }
    requires below { mask.bits < 2 ^ count_of device.now.core.roster.shape }
    requires channel { has_data device.now.core.roster.shape mask.bits ≡ true }
    ensures { HostsAny triggers.now Input device.now.core.number device.now.core.roster.shape
        (station_by ⟦<Plug as Sensor>⟧.driver device.now) mask.bits result }
{
    match host(device, triggers, mask) {
        Err(fault) => Err(no_of(fault)),
        Ok(trigger) => Ok(trigger),
    }
}

/// Adds a member to an input device, which it may join by that trigger.
pub(crate) fn join_input(
    alloc: Global,
    device: &mut Device<Kfifo>,
    trigger: &mut Trigger,
    mask: Mask,
    capacity: u32,
) -> Result<Seat, No>
    requires trigger { is_some device.old.core.trigger ≡ true }
    requires may { first_refusal
        (any_refusals (has_no_place device.old.core.number trigger.old) Input device.old.core.roster.shape (station_by ⟦<Plug as Sensor>⟧.driver device.old)
        mask.bits) ≡ None }
    requires below { mask.bits < 2 ^ count_of device.old.core.roster.shape }
    requires channel { has_data device.old.core.roster.shape mask.bits ≡ true }
    requires some { 1 ≤ capacity }
    requires bytes { capacity * scan_size device.old.core.roster.shape mask.bits ≤ MAX_BYTES }
    ensures joins { JoinsAny (joining_of device.old.core.number device.old.core.roster.shape mask capacity false None) result
        (station_by ⟦<Plug as Sensor>⟧.driver device.old) (station_by ⟦<Plug as Sensor>⟧.driver device.new) trigger.old trigger.new }
    ensures keeps { KeepsCaptures (view_of ⟦<Plug as Sensor>⟧.driver device.old) (view_of ⟦<Plug as Sensor>⟧.driver device.new) }
{
    join(alloc, device, trigger, mask, capacity)
}
