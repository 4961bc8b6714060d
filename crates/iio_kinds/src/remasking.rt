//! The exchange of a member's mask for another one.

ghost use Rattle.std.specs.Prelude.{◌≡◌, ◌*◌, ◌^◌, ◌<◌, ◌≤◌, true};
ghost use Rattle.iio_kfifo.specs.declared.limits.TheConstants.{MAX_BYTES};
ghost use Rattle.iio_layout.specs.Active.{has_data};
ghost use Rattle.iio_layout.specs.Layout.{scan_size};
ghost use Rattle.iio_layout.specs.Shape.{count_of};
ghost use Rattle.iio_device.specs.Device.{view_of};
ghost use Rattle.iio_core.specs.Calls.{station_after_remask};
ghost use Rattle.iio_kinds.specs.Acting.{Acts, KeepsCaptures, has_member, id_of};
ghost use Rattle.iio_kinds.specs.Remasking.{remask_answer};
ghost use Rattle.iio_kinds.specs.Station.{station_by};

use crate::seat::Seat;
use iio_device::{Device, Member, Plug, RemaskRefused};
use iio_kfifo::Kfifo;
use iio_mask::Mask;
use iio_sensor::Sensor;
use iio_text::Errno;
use iiod_commands::{No, remask_no};
use std::alloc::Global;

// Gives the member of a seat the mask, with a queue for scans of `size` bytes and of the seat's capacity. Returns how many
// scans waited.
fn exchange(
    alloc: Global,
    device: &mut Device<Kfifo>,
    seat: &Seat,
    mask: Mask,
    size: u32,
) -> Result<u64, No>
    requires there { has_member (id_of seat.now.number seat.now.mask) device.old.core.roster.members.items ≡ true }
    requires below { mask.bits < 2 ^ count_of device.old.core.roster.shape }
    requires channel { has_data device.old.core.roster.shape mask.bits ≡ true }
    requires sized { size ≡ scan_size device.old.core.roster.shape mask.bits }
    requires some { 1 ≤ seat.now.capacity }
    requires bytes { 1 ≤ size }
    requires fits { seat.now.capacity * size ≤ MAX_BYTES }
    ensures acts { Acts (station_after_remask seat.now.number mask.bits seat.now.capacity)
        (remask_answer device.old.core.roster.shape (station_by ⟦<Plug as Sensor>⟧.driver device.old) (id_of seat.now.number seat.now.mask) mask.bits)
        result (station_by ⟦<Plug as Sensor>⟧.driver device.old) (station_by ⟦<Plug as Sensor>⟧.driver device.new) }
    ensures keeps { KeepsCaptures (view_of ⟦<Plug as Sensor>⟧.driver device.old) (view_of ⟦<Plug as Sensor>⟧.driver device.new) }
{
    let member = Member {
        number: seat.number,
    };
    if let Err(fault) = device.may_remask(&member, mask) {
        return Err(remask_no(fault));
    }
    let Ok(tail) = Kfifo::new(alloc, seat.capacity, size) else {
        return Err(No::Mem);
    };
    match device.remask(&member, mask, tail) {
        Ok(before) => Ok(u64::from(before.waiting())),
        Err(RemaskRefused { fault: _, tail: _ }) => Err(No::Mem),
    }
}

/// Gives the member of a seat another mask, whose scans have `size` bytes: it begins anew. Returns how many scans waited for
/// it. The caller then sets the seat's mask and size to these.
pub(crate) fn remask(
    alloc: Global,
    device: &mut Device<Kfifo>,
    seat: &Seat,
    mask: Mask,
    size: u32,
) -> Result<u64, No>
    requires below { mask.bits < 2 ^ count_of device.old.core.roster.shape }
    requires channel { has_data device.old.core.roster.shape mask.bits ≡ true }
    requires sized { size ≡ scan_size device.old.core.roster.shape mask.bits }
    requires some { 1 ≤ seat.now.capacity }
    requires bytes { 1 ≤ size }
    requires fits { seat.now.capacity * size ≤ MAX_BYTES }
    ensures acts { Acts (station_after_remask seat.now.number mask.bits seat.now.capacity)
        (remask_answer device.old.core.roster.shape (station_by ⟦<Plug as Sensor>⟧.driver device.old) (id_of seat.now.number seat.now.mask) mask.bits)
        result (station_by ⟦<Plug as Sensor>⟧.driver device.old) (station_by ⟦<Plug as Sensor>⟧.driver device.new) }
    ensures keeps { KeepsCaptures (view_of ⟦<Plug as Sensor>⟧.driver device.old) (view_of ⟦<Plug as Sensor>⟧.driver device.new) }
{
    if !device.plugged() {
        return Err(No::Errno(Errno::ENODEV));
    }
    let member = Member {
        number: seat.number,
    };
    if !device.is_live_under(&member, seat.mask) {
        return Err(No::Errno(Errno::EBADF));
    }
    exchange(alloc, device, seat, mask, size)
}
