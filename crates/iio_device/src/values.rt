//! What is written to a device's attributes and read from them.

ghost use Rattle.std.specs.Prelude.{◌≡◌, ◌<◌, ℕ, Bool, Option, Some, None, IfSome, IfOk, All, true, fold, length};
ghost use Rattle.iio_sensor.specs.Driver.{Driver};
ghost use Rattle.iio_desc.specs.WellFormed.{IsWrite};
ghost use Rattle.iio_device.specs.Site.{at_first, first_site, first_values, number_in, site_written, with_attr};
ghost use Rattle.iio_device.specs.Stored.{attr_value, channel_value, site_with, switch_value};

use crate::stored::{ChannelValues, Stored};
use iio_attr::{Attr, Fixed, Form, Name, Value, first_value};
use iio_base::Mem;
use iio_desc::AttrDesc;
use iio_event::Edge;
use iio_layout::Shape;
use iio_sensor::Sensor;
use std::alloc::Global;

const ZERO: Fixed = Fixed {
    negative: false,
    whole: 0,
    part: 0,
    form: Form::Int,
};

/// The value of an attribute before any is written.
pub(crate) fn at_first(attr: Attr) -> Fixed
    ensures { result ≡ at_first attr }
{
    first_value(attr).unwrap_or(ZERO)
}

/// The values of a channel before any is written.
pub(crate) fn first_values() -> ChannelValues
    ensures { result ≡ first_values }
{
    ChannelValues {
        scale: at_first(Attr::Scale),
        offset: at_first(Attr::Offset),
        calibscale: at_first(Attr::Calibscale),
    }
}

// Sets an attribute of the device.
fn write_device(stored: &mut Stored, attr: Attr, value: Fixed)
    ensures site { (plugged : Bool) (trigger : Option ℕ) (attachment : ℕ) (driver : Driver)
        → site_with plugged trigger attachment driver stored.new ≡ site_written None attr value (site_with plugged trigger attachment driver stored.old) }
    ensures inputs { length stored.new.values.items ≡ length stored.old.values.items }
{
    match attr {
        Attr::SamplingFrequency => stored.sampling_frequency = value,
        _ => {}
    }
}

// Sets an attribute of channel `c`.
fn write_channel<P: Sensor>(stored: &mut Stored, plug: &mut P, c: u32, attr: Attr, value: Fixed)
    requires { c < length stored.old.values.items }
    ensures site { (plugged : Bool) (trigger : Option ℕ) (attachment : ℕ)
        → site_with plugged trigger attachment (P.driver plug.new) stored.new
        ≡ site_written (Some c) attr value (site_with plugged trigger attachment (P.driver plug.old) stored.old) }
    ensures inputs { length stored.new.values.items ≡ length stored.old.values.items }
{
    match attr {
        Attr::Calibbias => plug.set_bias(c, value.int()),
        Attr::Scale => stored.values[c as usize].scale = value,
        Attr::Offset => stored.values[c as usize].offset = value,
        Attr::Calibscale => stored.values[c as usize].calibscale = value,
        Attr::ThreshRisingValue => stored.monitor.set_value(c, Edge::Rising, value.int()),
        Attr::ThreshFallingValue => stored.monitor.set_value(c, Edge::Falling, value.int()),
        Attr::ThreshRisingEn => stored.monitor.set_on(c, Edge::Rising, value.whole == 1),
        Attr::ThreshFallingEn => stored.monitor.set_on(c, Edge::Falling, value.whole == 1),
        Attr::Name
        | Attr::SamplingFrequency
        | Attr::Raw
        | Attr::Overruns
        | Attr::DataAvailable
        | Attr::Length
        | Attr::Discarded
        | Attr::Underruns => {}
    }
}

/// Sets an attribute of the device, or of the channel of that number. Nothing changes if the attribute can't be written or
/// isn't there.
pub(crate) fn write<P: Sensor>(
    stored: &mut Stored,
    plug: &mut P,
    channel: Option<u32>,
    attr: Attr,
    value: Fixed,
)
    requires { IfSome channel (λ c. c < length stored.old.values.items) }
    ensures site { (plugged : Bool) (trigger : Option ℕ) (attachment : ℕ)
        → site_with plugged trigger attachment (P.driver plug.new) stored.new
        ≡ site_written channel attr value (site_with plugged trigger attachment (P.driver plug.old) stored.old) }
    ensures inputs { length stored.new.values.items ≡ length stored.old.values.items }
{
    match channel {
        None => write_device(stored, attr, value),
        Some(c) => write_channel(stored, plug, c, attr, value),
    }
}

// The number in a value; 0 if there is none.
fn number_in(value: &Value) -> Fixed
    ensures { result ≡ number_in value.now }
{
    match value {
        Value::Number(number) => *number,
        Value::Int(_) | Value::Text(_) => ZERO,
    }
}

/// Makes the writes of a description's attribute lines, in their order.
pub(crate) fn write_all<P: Sensor>(stored: &mut Stored, plug: &mut P, attrs: &[AttrDesc])
    requires { All (IsWrite (length stored.old.values.items)) attrs.now }
    ensures site { (plugged : Bool) (trigger : Option ℕ) (attachment : ℕ)
        → site_with plugged trigger attachment (P.driver plug.new) stored.new
        ≡ fold with_attr (site_with plugged trigger attachment (P.driver plug.old) stored.old) attrs.now }
    ensures inputs { length stored.new.values.items ≡ length stored.old.values.items }
{
    for a in attrs {
        write(stored, plug, a.channel, a.attr, number_in(&a.value));
    }
}

// The value of a switch: 1 if it is on, 0 otherwise.
fn switch_value(on: bool) -> Value
    ensures { result ≡ switch_value on }
{
    Value::Int(i64::from(on))
}

// The value of an attribute of the device.
fn read_device(stored: &Stored, name: &Name, attr: Attr) -> Value
    ensures { (plugged : Bool) (trigger : Option ℕ) (attachment : ℕ) (driver : Driver)
        → result ≡ attr_value name.now None attr (site_with plugged trigger attachment driver stored.now) }
{
    match attr {
        Attr::SamplingFrequency => Value::Number(stored.sampling_frequency),
        _ => Value::Text(name.copy()),
    }
}

// The value of a kept attribute of channel `c`.
fn read_channel<P: Sensor>(stored: &Stored, plug: &P, c: u32, attr: Attr) -> Value
    requires { c < length stored.now.values.items }
    ensures { (plugged : Bool) (trigger : Option ℕ) (attachment : ℕ)
        → result ≡ channel_value attr c (site_with plugged trigger attachment (P.driver plug.now) stored.now) }
{
    let values = &stored.values[c as usize];
    let monitor = &stored.monitor;
    match attr {
        Attr::Calibbias => Value::Int(plug.bias_of(c)),
        Attr::Scale => Value::Number(values.scale),
        Attr::Offset => Value::Number(values.offset),
        Attr::ThreshRisingValue => Value::Int(monitor.value(c, Edge::Rising)),
        Attr::ThreshFallingValue => Value::Int(monitor.value(c, Edge::Falling)),
        Attr::ThreshRisingEn => switch_value(monitor.on(c, Edge::Rising)),
        Attr::ThreshFallingEn => switch_value(monitor.on(c, Edge::Falling)),
        Attr::Calibscale
        | Attr::Name
        | Attr::SamplingFrequency
        | Attr::Raw
        | Attr::Overruns
        | Attr::DataAvailable
        | Attr::Length
        | Attr::Discarded
        | Attr::Underruns => Value::Number(values.calibscale),
    }
}

/// Returns the value of an attribute of the device of that name, or of its channel of that number. A value that is only kept is
/// a `Number`; a bias or a threshold is an `Int`, and so is a switch, which is 0 or 1. This is meant for kept attributes: the
/// driver is asked for `raw`.
pub(crate) fn read<P: Sensor>(
    stored: &Stored,
    plug: &P,
    name: &Name,
    channel: Option<u32>,
    attr: Attr,
) -> Value
    requires { IfSome channel (λ c. c < length stored.now.values.items) }
    ensures { (plugged : Bool) (trigger : Option ℕ) (attachment : ℕ)
        → result ≡ attr_value name.now channel attr (site_with plugged trigger attachment (P.driver plug.now) stored.now) }
{
    match channel {
        None => read_device(stored, name, attr),
        Some(c) => read_channel(stored, plug, c, attr),
    }
}

/// What a new device of that shape keeps, after the writes of its description.
pub(crate) fn first_stored<P: Sensor>(
    alloc: Global,
    shape: &Shape,
    attrs: &[AttrDesc],
    plug: &mut P,
) -> Result<Stored, Mem>
    requires { All (IsWrite (length shape.now.channels)) attrs.now }
    ensures site { IfOk result
        (λ stored. (trigger : Option ℕ) → site_with true trigger 0 (P.driver plug.new) stored ≡ first_site shape.now trigger (P.driver plug.old) attrs.now) }
    ensures inputs { IfOk result (λ stored. length stored.values.items ≡ length shape.now.channels) }
{
    let mut stored = Stored::new(alloc, shape)?;
    write_all(&mut stored, plug, attrs);
    Ok(stored)
}
