//! A bench before the first step.

ghost use Rattle.std.specs.Prelude.{◌≡◌, ◌+◌, ◌++◌, ◌≤◌, [], All, AllPairs, IfOk, OnOk, Some, false, length, map};
ghost use Rattle.iio_desc.specs.Description.{input_head, output_head, shape_of_means};
ghost use Rattle.iio_desc.specs.WellFormed.{HasPlaces, IsWellFormed, IsWellFormedAverage, share_driver};
ghost use Rattle.iio_desc.specs.declared.limits.TheConstants.{MAX_DEVICES};
ghost use Rattle.iio_device.specs.declared.plug.Plug.TheVariants.{Given};
ghost use Rattle.iio_probe.specs.Devices.{IsFit};
ghost use Rattle.iio_core.specs.Front.{first_front};
ghost use Rattle.iio_bench.specs.First.{first_machine, first_state, first_station, mean_head_over, mean_station_over};
ghost use Rattle.iio_kinds.specs.OutStation.{first_out_station};
ghost use Rattle.iio_bench.specs.Bench.{front_of, machine_of};
ghost use Rattle.iio_bench.specs.Triggers.{IsNumbered};
ghost use Rattle.iio_kinds.specs.Station.{any_front, captures_by, head_by, number_by, station_by, stations_by};

use crate::bench::Bench;
use iio_base::Mem;
use iio_desc::{AverageDesc, Desc, DeviceDesc, OutDesc, TriggerDesc};
use iio_device::{Device, Plug};
use iio_kfifo::Kfifo;
use iio_kinds::{AnyDevice, InDevice, MeanDevice, OutDevice};
use iio_layout::Shape;
use iio_sensor::Sensor;
use iio_trigger::Trigger;
use std::alloc::Global;
use std::marker::PhantomData;

// Makes each of these devices an input device of a bench.
fn as_inputs(alloc: Global, devices: Vec<Device<Kfifo>>) -> Result<Vec<AnyDevice>, Mem>
    ensures stations { IfOk result (λ v. stations_by ⟦<Plug as Sensor>⟧.driver v.items ≡ map (λ d. station_by ⟦<Plug as Sensor>⟧.driver d) devices.items) }
    ensures fronts { IfOk result (λ v. map any_front v.items ≡ map (λ d. head_by d.core) devices.items) }
    ensures numbers { IfOk result (λ v. map number_by v.items ≡ map (λ d. d.core.number) devices.items) }
    ensures captures { IfOk result (λ v. map captures_by v.items ≡ map (λ d. d.core.roster.captures) devices.items) }
{
    let mut inputs = Vec::new(alloc);
    for device in devices {
        inputs.push(AnyDevice::Input(InDevice::new(alloc, device)))?;
    }
    Ok(inputs)
}

// The input devices of a description.
fn inputs_of(
    alloc: Global,
    descs: Vec<DeviceDesc>,
    drivers: Vec<Box<dyn Sensor + Send>>,
) -> Result<Vec<AnyDevice>, Mem>
    requires few { length descs.items ≤ MAX_DEVICES }
    requires fit { All (IsFit (length drivers.items)) descs.items }
    requires apart { AllPairs (λ a b. share_driver a b ≡ false) descs.items }
    ensures stations { IfOk result
        (λ v. stations_by ⟦<Plug as Sensor>⟧.driver v.items ≡ map (first_station (map (λ d. ⟦<Plug as Sensor>⟧.driver (Given d)) drivers.items)) descs.items) }
    ensures fronts { IfOk result (λ v. map any_front v.items ≡ map input_head descs.items) }
    ensures numbered { IfOk result (λ v. IsNumbered number_by v.items) }
    ensures captures { IfOk result (λ v. All (λ d. captures_by d ≡ 0) v.items) }
{
    let made = iio_probe::devices_of(alloc, descs, drivers)?;
    let devices = as_inputs(alloc, made)?;
    Ok(devices)
}

// Adds the output devices of a description; their numbers follow those of the devices that are there.
fn add_outputs(alloc: Global, devices: &mut Vec<AnyDevice>, descs: Vec<OutDesc>) -> Result<(), Mem>
    requires few { length devices.old.items + length descs.items ≤ MAX_DEVICES }
    requires unlisted { All (λ d. d.shape.listed ≡ []) descs.items }
    requires numbered { IsNumbered number_by devices.old.items }
    requires captures { All (λ d. captures_by d ≡ 0) devices.old.items }
    ensures stations { OnOk result
        (stations_by ⟦<Plug as Sensor>⟧.driver devices.new.items ≡ stations_by ⟦<Plug as Sensor>⟧.driver devices.old.items
        ++ map first_out_station descs.items) }
    ensures fronts { OnOk result (map any_front devices.new.items ≡ map any_front devices.old.items ++ map output_head descs.items) }
    ensures numbered { OnOk result (IsNumbered number_by devices.new.items) }
    ensures captures { OnOk result (All (λ d. captures_by d ≡ 0) devices.new.items) }
{
    for desc in descs {
        let number = devices.len() as u32;
        devices.push(AnyDevice::Output(OutDevice::new(alloc, desc, number)?))?;
    }
    Ok(())
}

// The shape of an averaging device over a device of that shape: its channels and its timestamp, without listed masks.
fn shape_of_means(alloc: Global, shape: &Shape) -> Result<Shape, Mem>
    ensures { IfOk result (λ s. s ≡ shape_of_means (Some shape.now)) }
{
    let mut channels = Vec::new(alloc);
    for c in 0..shape.inputs() {
        channels.push(*shape.channel(c))?;
    }
    match Shape::new(channels, shape.stamp(), Vec::new(alloc)) {
        Some(shape) => Ok(shape),
        None => unreachable!(),
    }
}

// Adds the averaging devices of a description; their numbers follow those of the devices that are there.
fn add_averages(
    alloc: Global,
    devices: &mut Vec<AnyDevice>,
    descs: Vec<AverageDesc>,
) -> Result<(), Mem>
    requires few { length devices.old.items + length descs.items ≤ MAX_DEVICES }
    requires over { All (IsWellFormedAverage (length devices.old.items)) descs.items }
    requires numbered { IsNumbered number_by devices.old.items }
    requires captures { All (λ d. captures_by d ≡ 0) devices.old.items }
    ensures stations { OnOk result
        (stations_by ⟦<Plug as Sensor>⟧.driver devices.new.items ≡ stations_by ⟦<Plug as Sensor>⟧.driver devices.old.items
        ++ map (mean_station_over (map any_front devices.old.items)) descs.items) }
    ensures fronts { OnOk result
        (map any_front devices.new.items ≡ map any_front devices.old.items ++ map (mean_head_over (map any_front devices.old.items)) descs.items) }
    ensures numbered { OnOk result (IsNumbered number_by devices.new.items) }
    ensures captures { OnOk result (All (λ d. captures_by d ≡ 0) devices.new.items) }
{
    for desc in descs {
        let number = devices.len() as u32;
        let shape = shape_of_means(alloc, devices[desc.base as usize].shape())?;
        devices.push(AnyDevice::Average(MeanDevice::new(
            alloc,
            desc.name,
            number,
            desc.base,
            shape,
            desc.window,
        )?))?;
    }
    Ok(())
}

// The triggers of a description.
fn triggers_of(alloc: Global, described: &[TriggerDesc]) -> Result<Vec<Trigger>, Mem>
    requires { All HasPlaces described.now }
    ensures { IfOk result (λ v. v.items ≡ map first_state described.now) }
{
    let mut triggers = Vec::new(alloc);
    for t in described {
        triggers.push(Trigger::new(t.places))?;
    }
    Ok(triggers)
}

impl Bench {
    /// The bench of a description before the first step: no device has a member, each has the attributes that its description
    /// writes, no place at a trigger is taken, and the clock shows 0. A device with a driver's number samples that driver, any
    /// other its recorded rows. Drivers that no device names are dropped.
    pub fn new(
        alloc: Global,
        desc: Desc,
        drivers: Vec<Box<dyn Sensor + Send>>,
    ) -> Result<Bench, Mem>
        requires { IsWellFormed (length drivers.items) desc }
        ensures front { IfOk result (λ b. front_of b ≡ first_front desc) }
        ensures told { IfOk result
            (λ b. machine_of ⟦<Plug as Sensor>⟧.driver b ≡ first_machine (map (λ d. ⟦<Plug as Sensor>⟧.driver (Given d)) drivers.items) desc) }
        ensures captures { IfOk result (λ b. All (λ d. captures_by d ≡ 0) b.devices.items) }
    {
        let Desc {
            context,
            triggers: described,
            devices: descs,
            outputs,
            averages,
        } = desc;
        let triggers = triggers_of(alloc, &described)?;
        let mut devices = inputs_of(alloc, descs, drivers)?;
        add_outputs(alloc, &mut devices, outputs)?;
        let first_average = devices.len() as u32;
        add_averages(alloc, &mut devices, averages)?;
        Ok(Bench {
            alloc,
            context,
            described,
            triggers,
            devices,
            first_average,
            clock: 0,
            of: PhantomData,
        })
    }
}
