//! The device under test: three channels of two bytes, and one row.

ghost use Rattle.std.specs.Prelude.{IfOk};
ghost use Rattle.iio_layout.specs.Rows.{IsRecording};
ghost use Rattle.iio_probe.specs.Devices.{IsFit};

use crate::tests::fixtures::voltage;
use iio_attr::Name;
use iio_desc::DeviceDesc;
use iio_device::Device;
use iio_kfifo::Kfifo;
use iio_layout::{Rows, Shape};
use iio_mask::Mask;
use iio_probe::{Mem, devices_of};
use std::alloc::Global;
use std::test::Fail;

// Masks for three channels.
fn masks_of(alloc: Global, texts: &[&str]) -> Result<Vec<Mask>, Fail> {
    let mut masks = Vec::new(alloc);
    for text in texts {
        masks.push(Mask::read(text.as_bytes(), 3).ok_or("no mask")?)?;
    }
    Ok(masks)
}

// One row, in which the channels have the values 1, 2 and 3.
fn one_row(alloc: Global) -> Result<Rows, Mem>
    ensures { IfOk result IsRecording }
{
    Ok(Rows {
        moments: Vec::from_slice(alloc, &[0])?,
        values: Vec::from_slice(alloc, &[1, 2, 3])?,
        width: 3,
    })
}

// The shape with the channels voltage0, voltage1 and voltage2 of two bytes, and these listed masks.
fn shape_of(alloc: Global, listed: &[&str]) -> Result<Shape, Fail> {
    let mut channels = Vec::new(alloc);
    for number in 0u16..3 {
        channels.push(voltage(number, "le:u16/16>>0")?)?;
    }
    let masks = masks_of(alloc, listed)?;
    Ok(Shape::new(channels, None, masks).ok_or("no shape")?)
}

fn named(text: &str) -> Result<Name, Fail> {
    Ok(Name::new(text.as_bytes()).ok_or("no name")?)
}

// The description of a device with these channels and masks, on the first trigger.
fn described(alloc: Global, listed: &[&str]) -> Result<DeviceDesc, Fail>
    ensures { IfOk result (λ d. IsFit 0 d) }
{
    let name = named("adc0")?;
    let shape = shape_of(alloc, listed)?;
    let rows = one_row(alloc)?;
    Ok(DeviceDesc {
        name,
        trigger: Some(0),
        shape,
        rows,
        driver: None,
        attrs: Vec::new(alloc),
    })
}

/// Makes that device.
pub(crate) fn device_of(alloc: Global, listed: &[&str]) -> Result<Device<Kfifo>, Fail> {
    let mut descs = Vec::new(alloc);
    descs.push(described(alloc, listed)?)?;
    let mut devices: Vec<Device<Kfifo>> = devices_of(alloc, descs, Vec::new(alloc))?;
    Ok(devices.pop().ok_or("no device")?)
}
