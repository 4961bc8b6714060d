//! The names of a description, by which steps are read.

ghost use Rattle.std.specs.Prelude.{◌≡◌, IfOk, map};
ghost use Rattle.iio_script.specs.Outline.{FindsSame};

use iio_base::Mem;
use iio_desc::{AverageDesc, Desc, DeviceDesc, OutDesc, TriggerDesc};
use iio_layout::Rows;
use std::alloc::Global;

// Makes a device of the same name, without rows and attributes.
fn outline_device(alloc: Global, device: &DeviceDesc) -> Result<DeviceDesc, Mem>
    ensures { IfOk result (λ d. d.name ≡ device.now.name) }
{
    let rows = Rows {
        moments: Vec::new(alloc),
        values: Vec::new(alloc),
        width: 0,
    };
    Ok(DeviceDesc {
        name: device.name.copy(),
        trigger: None,
        shape: device.shape.copy(alloc)?,
        rows,
        driver: None,
        attrs: Vec::new(alloc),
    })
}

fn outline_devices(alloc: Global, devices: &[DeviceDesc]) -> Result<Vec<DeviceDesc>, Mem>
    ensures { IfOk result (λ v. map (λ d. d.name) v.items ≡ map (λ d. d.name) devices.now) }
{
    let mut outlines = Vec::new(alloc);
    for device in devices {
        outlines.push(outline_device(alloc, device)?)?;
    }
    Ok(outlines)
}

fn outline_outputs(alloc: Global, outputs: &[OutDesc]) -> Result<Vec<OutDesc>, Mem>
    ensures { IfOk result (λ v. map (λ d. d.name) v.items ≡ map (λ d. d.name) outputs.now) }
{
    let mut outlines = Vec::new(alloc);
    for device in outputs {
        outlines.push(OutDesc {
            name: device.name.copy(),
            trigger: None,
            shape: device.shape.copy(alloc)?,
        })?;
    }
    Ok(outlines)
}

fn copy_averages(alloc: Global, averages: &[AverageDesc]) -> Result<Vec<AverageDesc>, Mem>
    ensures { IfOk result (λ v. map (λ d. d.name) v.items ≡ map (λ d. d.name) averages.now) }
{
    let mut copies = Vec::new(alloc);
    for device in averages {
        copies.push(AverageDesc {
            name: device.name.copy(),
            base: device.base,
            window: device.window,
        })?;
    }
    Ok(copies)
}

fn copy_triggers(alloc: Global, triggers: &[TriggerDesc]) -> Result<Vec<TriggerDesc>, Mem>
    ensures { IfOk result (λ v. v.items ≡ triggers.now) }
{
    let mut copies = Vec::new(alloc);
    for trigger in triggers {
        copies.push(TriggerDesc {
            name: trigger.name.copy(),
            places: trigger.places,
        })?;
    }
    Ok(copies)
}

/// Makes a description with the same triggers, and with devices of the same names and kinds, but without rows and attributes.
pub fn outline(alloc: Global, desc: &Desc) -> Result<Desc, Mem>
    ensures { IfOk result (λ o. FindsSame o desc.now) }
{
    Ok(Desc {
        context: Vec::new(alloc),
        triggers: copy_triggers(alloc, &desc.triggers)?,
        devices: outline_devices(alloc, &desc.devices)?,
        outputs: outline_outputs(alloc, &desc.outputs)?,
        averages: copy_averages(alloc, &desc.averages)?,
    })
}
