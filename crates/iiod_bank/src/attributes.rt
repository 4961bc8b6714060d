//! The jobs at a device's attributes.

ghost use Rattle.std.specs.Prelude.{◌≡◌, ◌≢◌, ◌<◌, true, length, IfSome};
ghost use Rattle.std.proofs.Props.{props};
ghost use Rattle.iio_attr.specs.declared.attributes.Attr.TheVariants.{Raw};
ghost use Rattle.iio_desc.specs.declared.limits.TheConstants.{MAX_TRIGGERS};
ghost use Rattle.iio_device.specs.Device.{view_of};
ghost use Rattle.iiod_bank.specs.Jobs.{HasChannel, LostMakes, ReadMakes, SetTriggerMakes, WriteMakes};
ghost use Rattle.iiod_bank.specs.Kept.{Kept};

use crate::bank::Work;
use crate::front::HubFront;
use iio_attr::{Attr, Fixed, Value};
use iio_device::{Device, Member, Plug};
use iio_kfifo::Writer;
use iio_layout::Shape;
use iio_sensor::Sensor;
use iio_text::Errno;
use iiod_commands::{No, raw_no};

// Whether a channel, if one is given, is one of the shape's.
fn has_channel(shape: &Shape, channel: Option<u32>) -> bool
    ensures may { result ≡ true → HasChannel channel shape.now }
    ensures exactly { HasChannel channel shape.now → result ≡ true }
{
    match channel {
        None => true,
        Some(c) => c < shape.inputs(),
    }
}

/// The job of a READ of an attribute at a moment.
#[derive(Drop)]
pub struct ReadWork {
    pub t: i64,
    pub channel: Option<u32>,
    pub attr: Attr,
}

// Samples channel `c`.
fn read_raw(device: &mut Device<Writer>, t: i64, c: u32) -> Result<Value, No>
    requires { c < length device.old.core.roster.shape.channels }
    ensures { ReadMakes t (Some c) Raw (view_of ⟦<Plug as Sensor>⟧.driver device.old) result (view_of ⟦<Plug as Sensor>⟧.driver device.new) }
{
    match device.raw(c, t) {
        Ok(value) => Ok(Value::Int(value)),
        Err(fault) => Err(raw_no(fault)),
    }
}

// Returns a value that the device keeps.
fn read_kept(
    device: &Device<Writer>,
    _t: i64,
    channel: Option<u32>,
    attr: Attr,
) -> Result<Value, No>
    requires channel { HasChannel channel device.now.core.roster.shape }
    requires kept { IfSome channel (λ c. attr ≢ Raw) }
    ensures { ReadMakes _t channel attr (view_of ⟦<Plug as Sensor>⟧.driver device.now) result (view_of ⟦<Plug as Sensor>⟧.driver device.now) }
{
    if !device.plugged() {
        return Err(No::Errno(Errno::ENODEV));
    }
    Ok(device.read_attr(channel, attr))
}

// Returns the value of an attribute of channel `c`.
fn read_channel(device: &mut Device<Writer>, t: i64, c: u32, attr: Attr) -> Result<Value, No>
    requires { c < length device.old.core.roster.shape.channels }
    ensures { ReadMakes t (Some c) attr (view_of ⟦<Plug as Sensor>⟧.driver device.old) result (view_of ⟦<Plug as Sensor>⟧.driver device.new) }
{
    match attr {
        Attr::Raw => read_raw(device, t, c),
        _ => read_kept(device, t, Some(c), attr),
    }
}

impl Work for ReadWork {
    ghost use Rattle.iiod_bank.specs.Jobs.{HasChannel, ReadMakes};

    type Out = Result<Value, No>;

    ghost may = { λ w shape. HasChannel w.channel shape };

    ghost does = { λ w a o b. ReadMakes w.t w.channel w.attr a o b };

    fn fits(&self, shape: &Shape) -> bool {
        has_channel(shape, self.channel)
    }

    fn run(self, device: &mut Device<Writer>) -> Result<Value, No> {
        match self.channel {
            None => read_kept(device, self.t, None, self.attr),
            Some(c) => read_channel(device, self.t, c, self.attr),
        }
    }
}

/// The job of a WRITE of an attribute.
#[derive(Drop)]
pub struct WriteWork {
    pub channel: Option<u32>,
    pub attr: Attr,
    pub value: Fixed,
}

impl Work for WriteWork {
    ghost use Rattle.iiod_bank.specs.Jobs.{HasChannel, WriteMakes};

    type Out = Result<(), No>;

    ghost may = { λ w shape. HasChannel w.channel shape };

    ghost does = { λ w a o b. WriteMakes w.channel w.attr w.value a o b };

    fn fits(&self, shape: &Shape) -> bool {
        has_channel(shape, self.channel)
    }

    fn run(self, device: &mut Device<Writer>) -> Result<(), No> {
        match device.write_attr(self.channel, self.attr, self.value) {
            Ok(()) => Ok(()),
            Err(errno) => Err(No::Errno(errno)),
        }
    }
}

/// The job of a SETTRIG.
#[derive(Drop)]
pub struct TriggerWork {
    pub trigger: Option<u32>,
    ghost below: { IfSome trigger (λ t. t < MAX_TRIGGERS) } by { Prim.hlevel props },
}

impl TriggerWork {
    ghost use Rattle.iiod_bank.specs.FrontOf.{front_of};

    /// Creates a SETTRIG that gives the device that trigger of the front, or none.
    pub fn new(_front: &HubFront, trigger: Option<u32>) -> TriggerWork
        requires { IfSome trigger (λ t. t < length (front_of _front.now).triggers) }
        ensures { result.trigger ≡ trigger }
    {
        TriggerWork { trigger }
    }
}

impl Work for TriggerWork {
    ghost use Rattle.iiod_bank.specs.Jobs.{SetTriggerMakes};

    type Out = Result<(), No>;

    ghost may = { λ w shape. Unit {0} };

    ghost does = { λ w a o b. SetTriggerMakes w.trigger a o b };

    fn fits(&self, _shape: &Shape) -> bool {
        true
    }

    fn run(self, device: &mut Device<Writer>) -> Result<(), No> {
        match device.set_trigger(self.trigger) {
            Ok(()) => Ok(()),
            Err(errno) => Err(No::Errno(errno)),
        }
    }
}

/// The job that returns the number of scans that a member's queue has lost.
#[derive(Drop)]
pub struct LostWork {
    pub member: Member,
}

impl Work for LostWork {
    ghost use Rattle.iiod_bank.specs.Jobs.{LostMakes};

    type Out = Option<u64>;

    ghost may = { λ w shape. Unit {0} };

    ghost does = { λ w a o b. LostMakes w.member.number a o b };

    fn fits(&self, _shape: &Shape) -> bool {
        true
    }

    fn run(self, device: &mut Device<Writer>) -> Option<u64> {
        device.lost(&self.member)
    }
}
