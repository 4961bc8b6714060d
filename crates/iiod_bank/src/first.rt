//! A hub's devices and triggers before anything has happened.

ghost use Rattle.std.specs.Prelude.{◌≡◌, ◌≤◌, All, IfOk, Some, length, map};
ghost use Rattle.iio_desc.specs.Description.{input_head};
ghost use Rattle.iio_desc.specs.WellFormed.{HasPlaces, IsWellFormed};
ghost use Rattle.iio_desc.specs.declared.limits.TheConstants.{MAX_TRIGGERS};
ghost use Rattle.iio_device.specs.declared.plug.Plug.TheVariants.{Given};
ghost use Rattle.iio_device.specs.Device.{view_of};
ghost use Rattle.iio_probe.specs.Devices.{first_devices};
ghost use Rattle.iiod_bank.specs.First.{first_told, first_triggers};
ghost use Rattle.iiod_bank.specs.FrontOf.{face_of, front_of, served_front};
ghost use Rattle.iiod_bank.specs.Own.{Fits};

use crate::bank::Bank;
use crate::front::{Face, HubFront};
use crate::own::OwnBank;
use iio_base::Mem;
use iio_desc::{Desc, DeviceDesc, MAX_TRIGGERS, TriggerDesc};
use iio_device::{Device, Plug};
use iio_kfifo::Writer;
use iio_probe::devices_of;
use iio_sensor::Sensor;
use iio_trigger::Trigger;
use std::alloc::Global;
use std::marker::PhantomData;

// Returns the names and shapes of the devices of a description.
fn faces_of(alloc: Global, descs: &[DeviceDesc]) -> Result<Vec<Face>, Mem>
    ensures { IfOk result (λ v. map face_of v.items ≡ map input_head descs.now) }
{
    let mut faces = Vec::new(alloc);
    for desc in descs {
        faces.push(Face {
            name: desc.name.copy(),
            shape: desc.shape.copy(alloc)?,
        })?;
    }
    Ok(faces)
}

// Returns the triggers of a hub: those of a description, followed by triggers with one place each.
fn triggers_of(alloc: Global, described: &[TriggerDesc]) -> Result<Vec<Trigger>, Mem>
    requires places { All HasPlaces described.now }
    requires few { length described.now ≤ MAX_TRIGGERS }
    ensures { IfOk result (λ v. v.items ≡ first_triggers described.now) }
{
    let mut triggers = Vec::new(alloc);
    for t in described {
        triggers.push(Trigger::new(t.places))?;
    }
    for _ in described.len()..MAX_TRIGGERS {
        triggers.push(Trigger::new(1))?;
    }
    Ok(triggers)
}

/// The parts of a hub, before anything has happened.
pub struct Parts {
    pub front: HubFront,
    pub devices: Vec<Device<Writer>>,
    pub triggers: Vec<Trigger>,
}

// Returns the parts of the hub of a description, which serves only its `device` lines.
fn made_of(alloc: Global, desc: Desc, drivers: Vec<Box<dyn Sensor + Send>>) -> Result<Parts, Mem>
    requires { IsWellFormed (length drivers.items) desc }
    ensures front { IfOk result (λ p. front_of p.front ≡ served_front desc) }
    ensures devices { IfOk result (λ p. map (λ d. view_of ⟦<Plug as Sensor>⟧.driver d) p.devices.items
        ≡ first_devices (map (λ d. ⟦<Plug as Sensor>⟧.driver (Given d)) drivers.items) 0 desc.devices) }
    ensures triggers { IfOk result (λ p. p.triggers.items ≡ first_triggers desc.triggers) }
{
    let Desc {
        context,
        triggers: described,
        devices: descs,
        outputs: _,
        averages: _,
    } = desc;
    let faces = faces_of(alloc, &descs)?;
    let triggers = triggers_of(alloc, &described)?;
    let devices = devices_of(alloc, descs, drivers)?;
    Ok(Parts {
        front: HubFront {
            context,
            triggers: described,
            devices: faces,
        },
        devices,
        triggers,
    })
}

/// Returns the parts of the hub of a description, which fit each other.
pub fn parts_of(
    alloc: Global,
    desc: Desc,
    drivers: Vec<Box<dyn Sensor + Send>>,
) -> Result<Parts, Mem>
    requires { IsWellFormed (length drivers.items) desc }
    ensures front { IfOk result (λ p. front_of p.front ≡ served_front desc) }
    ensures devices { IfOk result (λ p. map (λ d. view_of ⟦<Plug as Sensor>⟧.driver d) p.devices.items
        ≡ first_devices (map (λ d. ⟦<Plug as Sensor>⟧.driver (Given d)) drivers.items) 0 desc.devices) }
    ensures triggers { IfOk result (λ p. p.triggers.items ≡ first_triggers desc.triggers) }
    ensures fits { IfOk result (λ p. Fits p.front p.devices.items (length p.triggers.items)) }
{
    made_of(alloc, desc, drivers)
}

impl OwnBank {
    /// Creates the bank of a description, before anything has happened: no device has a member, each has the attributes that
    /// its description writes, no place at a trigger is taken, and the clock shows 0. A device with a driver's number samples
    /// the driver of that number, any other its recorded rows. Drivers that no device names are dropped. The names of output
    /// devices and of averaging devices are unknown.
    pub fn new(
        alloc: Global,
        desc: Desc,
        drivers: Vec<Box<dyn Sensor + Send>>,
    ) -> Result<OwnBank, Mem>
        requires { IsWellFormed (length drivers.items) desc }
        ensures front { IfOk result (λ b. ⟦<OwnBank as Bank>⟧.front b ≡ served_front desc) }
        ensures told { IfOk result (λ b. ⟦<OwnBank as Bank>⟧.told b ≡ Some (first_told (map (λ d. ⟦<Plug as Sensor>⟧.driver (Given d)) drivers.items) desc)) }
    {
        let Parts {
            front,
            devices,
            triggers,
        } = parts_of(alloc, desc, drivers)?;
        Ok(OwnBank {
            front,
            devices,
            triggers,
            clock: 0,
            of: PhantomData,
        })
    }
}
