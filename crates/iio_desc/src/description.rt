//! What a description says.

ghost use Rattle.std.specs.Prelude.{◌≡◌, ◌≤◌, ◌<◌, IfSome, length, position};
ghost use Rattle.std.specs.Str.{bytes_eq};
ghost use Rattle.iio_desc.specs.Description.{input_number, trigger_number};

use iio_attr::{Attr, Name, Value};
use iio_layout::{Rows, Shape};
use std::marker::Model;

/// A trigger, and how many devices it can serve at once: 1 to 8.
#[derive(Debug, Drop)]
pub struct TriggerDesc {
    pub name: Name,
    pub places: u8,
}

/// A write to an attribute before the first step: to one of the device, or of the channel of that number.
#[derive(Debug, Drop)]
pub struct AttrDesc {
    pub channel: Option<u32>,
    pub attr: Attr,
    pub value: Value,
}

/// A device: the number of its trigger, if any, its shape, what its sensor recorded, the number of its driver, if one is handed
/// in, and the writes to its attributes in their order.
#[derive(Debug, Drop)]
pub struct DeviceDesc {
    pub name: Name,
    pub trigger: Option<u32>,
    pub shape: Shape,
    pub rows: Rows,
    pub driver: Option<u32>,
    pub attrs: Vec<AttrDesc>,
}

impl Model for DeviceDesc {
    ghost use Rattle.iio_desc.specs.Description.{DeviceRecord};

    ghost Value = { DeviceRecord };

    ghost view = { λ d. record { name = d.name; trigger = d.trigger; shape = d.shape; rows = d.rows; driver = d.driver; attrs = d.attrs.items } };
}

/// An output device: the number of its trigger, if any, and its shape.
#[derive(Debug, Drop)]
pub struct OutDesc {
    pub name: Name,
    pub trigger: Option<u32>,
    pub shape: Shape,
}

impl Model for OutDesc {
    ghost use Rattle.iio_desc.specs.Description.{OutputRecord};

    ghost Value = { OutputRecord };

    ghost view = { λ d. record { name = d.name; trigger = d.trigger; shape = d.shape } };
}

/// An averaging device: the number of the device whose captures it averages, and how many make a mean.
#[derive(Debug, Drop)]
pub struct AverageDesc {
    pub name: Name,
    pub base: u32,
    pub window: u32,
}

impl Model for AverageDesc {
    ghost use Rattle.iio_desc.specs.Description.{AverageRecord};

    ghost Value = { AverageRecord };

    ghost view = { λ d. record { name = d.name; base = d.base; window = d.window } };
}

/// A whole description, with the devices of each kind in the order of their lines. It has at most 16 triggers and 16 devices.
/// Output devices are numbered after all devices of `device` lines, and averaging devices after the output devices.
#[derive(Debug, Drop)]
pub struct Desc {
    pub context: Vec<u8>,
    pub triggers: Vec<TriggerDesc>,
    pub devices: Vec<DeviceDesc>,
    pub outputs: Vec<OutDesc>,
    pub averages: Vec<AverageDesc>,
}

impl Model for Desc {
    ghost use Rattle.std.specs.Prelude.{◌+◌, ◌≤◌, length};
    ghost use Rattle.iio_desc.specs.Description.{Description};
    ghost use Rattle.iio_desc.specs.declared.limits.TheConstants.{MAX_TRIGGERS, MAX_DEVICES};

    ghost Value = { Description };

    ghost view = { λ d. record {
      context = d.context.items;
      triggers = d.triggers.items;
      devices = d.devices.items;
      outputs = d.outputs.items;
      averages = d.averages.items;
    } };

    ghost invariant = { λ d. (length d.triggers.items ≤ MAX_TRIGGERS)
        × (length d.devices.items + length d.outputs.items + length d.averages.items ≤ MAX_DEVICES) };
}

/// The number of the trigger of that name.
pub(crate) fn trigger_number(triggers: &[TriggerDesc], name: &[u8]) -> Option<usize>
    ensures value { result ≡ trigger_number triggers.now name.now }
    ensures within { IfSome result (λ number. number < length triggers.now) }
{
    triggers.iter().position(|t| t.name.is(name))
}

/// The number of the `device` line of that name.
pub(crate) fn device_number(devices: &[DeviceDesc], name: &[u8]) -> Option<usize>
    ensures value { result ≡ input_number devices.now name.now }
    ensures within { IfSome result (λ number. number < length devices.now) }
{
    devices.iter().position(|d| d.name.is(name))
}

fn output_number(outputs: &[OutDesc], name: &[u8]) -> Option<usize>
    ensures value { result ≡ position (λ d. bytes_eq d.name name.now) outputs.now }
    ensures within { IfSome result (λ number. number < length outputs.now) }
{
    outputs.iter().position(|d| d.name.is(name))
}

fn average_number(averages: &[AverageDesc], name: &[u8]) -> Option<usize>
    ensures value { result ≡ position (λ d. bytes_eq d.name name.now) averages.now }
    ensures within { IfSome result (λ number. number < length averages.now) }
{
    averages.iter().position(|d| d.name.is(name))
}

impl Desc {
    ghost use Rattle.std.specs.Prelude.{◌≡◌};
    ghost use Rattle.iio_desc.specs.Description.{find_trigger, find_device};

    /// The number of the trigger of that name. Returns `None` exactly if no trigger has it.
    pub fn find_trigger(&self, name: &[u8]) -> Option<u32>
        ensures { result ≡ find_trigger self.now name.now }
    {
        match trigger_number(self.triggers.as_slice(), name) {
            None => None,
            Some(number) => Some(number as u32),
        }
    }

    /// The number of the device of that name, of any kind. Returns `None` exactly if no device has it.
    pub fn find_device(&self, name: &[u8]) -> Option<u32>
        ensures { result ≡ find_device self.now name.now }
    {
        if let Some(number) = device_number(self.devices.as_slice(), name) {
            return Some(number as u32);
        }
        let devices = self.devices.len();
        if let Some(number) = output_number(self.outputs.as_slice(), name) {
            return Some((devices + number) as u32);
        }
        match average_number(self.averages.as_slice(), name) {
            None => None,
            Some(number) => Some((devices + self.outputs.len() + number) as u32),
        }
    }
}
