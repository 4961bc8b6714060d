//! The devices of a description, before anything is done with them.

ghost use Rattle.std.specs.Prelude.{◌≡◌, ◌<◌, ◌≤◌, All, AllPairs, IfOk, IfSome, None, Some, false, length, map, slice_get, slice_set};
ghost use Rattle.iio_desc.specs.WellFormed.{share_driver};
ghost use Rattle.iio_desc.specs.declared.limits.TheConstants.{MAX_DEVICES};
ghost use Rattle.iio_layout.specs.Rows.{IsRecording};
ghost use Rattle.iio_device.specs.declared.plug.Plug.TheVariants.{Given};
ghost use Rattle.iio_device.specs.Device.{new_view, view_of};
ghost use Rattle.iio_probe.specs.Devices.{IsFit, driver_from, first_devices, slot_in, slots_left};

use iio_base::Mem;
use iio_desc::DeviceDesc;
use iio_device::{Device, Plug};
use iio_kfifo::Tail;
use iio_layout::Rows;
use iio_sensor::{Recorded, Sensor};
use std::alloc::Global;

// A slot for each driver.
fn slots_of(
    alloc: Global,
    drivers: Vec<Box<dyn Sensor + Send>>,
) -> Result<Vec<Option<Box<dyn Sensor + Send>>>, Mem>
    ensures { IfOk result (λ v. v.items ≡ map (λ d. Some d) drivers.items) }
{
    let mut slots = Vec::new(alloc);
    for d in drivers {
        slots.push(Some(d))?;
    }
    Ok(slots)
}

// Takes what is in a slot.
fn take_slot(
    slots: &mut Vec<Option<Box<dyn Sensor + Send>>>,
    k: usize,
) -> Option<Box<dyn Sensor + Send>>
    requires { k < length slots.old.items }
    ensures taken { slice_get slots.old.items k ≡ Some result }
    ensures left { slots.new.items ≡ slice_set slots.old.items k None }
{
    slots[k].take()
}

// What a device samples: the driver in the slot of its driver's number, or its rows.
fn plug_of(slots: &mut Vec<Option<Box<dyn Sensor + Send>>>, driver: Option<u32>, rows: Rows) -> Plug
    requires within { IfSome driver (λ k. k < length slots.old.items) }
    requires recording { IsRecording rows }
    ensures plug { ⟦<Plug as Sensor>⟧.driver result ≡ driver_from (λ d. ⟦<Plug as Sensor>⟧.driver (Given d)) (slot_in driver slots.old.items) rows }
    ensures left { slots.new.items ≡ slots_left driver slots.old.items }
{
    match driver {
        None => Plug::Own(Recorded::new(rows)),
        Some(k) => match take_slot(slots, k as usize) {
            None => Plug::Own(Recorded::new(rows)),
            Some(given) => Plug::Given(given),
        },
    }
}

// Makes a device of a description. Its rows, if it samples them, go to its plug.
fn device_of<Q: Tail>(
    alloc: Global,
    desc: DeviceDesc,
    number: u32,
    slots: &mut Vec<Option<Box<dyn Sensor + Send>>>,
) -> Result<Device<Q>, Mem>
    requires { IsFit (length slots.old.items) desc }
    ensures device { IfOk result (λ d. view_of ⟦<Plug as Sensor>⟧.driver d
        ≡ new_view desc number (driver_from (λ d. ⟦<Plug as Sensor>⟧.driver (Given d)) (slot_in desc.driver slots.old.items) desc.rows)) }
    ensures left { slots.new.items ≡ slots_left desc.driver slots.old.items }
{
    let DeviceDesc {
        name,
        trigger,
        shape,
        rows,
        driver,
        attrs,
    } = desc;
    let plug = plug_of(slots, driver, rows);
    let rows = Rows {
        moments: Vec::new(alloc),
        values: Vec::new(alloc),
        width: 0,
    };
    let desc = DeviceDesc {
        name,
        trigger,
        shape,
        rows,
        driver,
        attrs,
    };
    Device::new(alloc, desc, number, plug)
}

/// Makes the devices of a description, numbered by their places in it: none has a member, each has the trigger and the
/// attributes that its description writes. A device with a driver's number samples that driver, any other its recorded rows.
/// Drivers that no device names are dropped.
pub fn devices_of<Q: Tail + Drop>(
    alloc: Global,
    descs: Vec<DeviceDesc>,
    drivers: Vec<Box<dyn Sensor + Send>>,
) -> Result<Vec<Device<Q>>, Mem>
    requires few { length descs.items ≤ MAX_DEVICES }
    requires fit { All (IsFit (length drivers.items)) descs.items }
    requires apart { AllPairs (λ a b. share_driver a b ≡ false) descs.items }
    ensures { IfOk result (λ v. map (view_of ⟦<Plug as Sensor>⟧.driver) v.items
        ≡ first_devices (map (λ d. ⟦<Plug as Sensor>⟧.driver (Given d)) drivers.items) 0 descs.items) }
{
    let mut slots = slots_of(alloc, drivers)?;
    let mut devices = Vec::new(alloc);
    for desc in descs {
        let number = devices.len() as u32;
        devices.push(device_of(alloc, desc, number, &mut slots)?)?;
    }
    Ok(devices)
}
