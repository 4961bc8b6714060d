//! The part of a hub that no call changes: the context, the names, and a copy of each shape.

ghost use Rattle.std.specs.Prelude.{◌≡◌, ◌≤◌, ◌<◌, IfSome, length, position};
ghost use Rattle.std.specs.Str.{bytes_eq};
ghost use Rattle.iio_desc.specs.Description.{trigger_number};
ghost use Rattle.iio_desc.specs.declared.limits.TheConstants.{MAX_DEVICES, MAX_TRIGGERS};

use iio_attr::Name;
use iio_desc::TriggerDesc;
use iio_layout::Shape;

/// A device's name and shape.
#[derive(Debug, Drop)]
pub struct Face {
    pub name: Name,
    pub shape: Shape,
}

/// The context's text, the triggers that are described, and each device's name and shape.
#[derive(Debug, Drop)]
pub struct HubFront {
    pub context: Vec<u8>,
    pub triggers: Vec<TriggerDesc>,
    pub devices: Vec<Face>,
    ghost few_triggers: { length triggers.items ≤ MAX_TRIGGERS },
    ghost few_devices: { length devices.items ≤ MAX_DEVICES },
}

// Returns the index of the device of that name.
fn device_number(devices: &[Face], name: &[u8]) -> Option<usize>
    ensures value { result ≡ position (λ (f : Face). bytes_eq f.name name.now) devices.now }
    ensures within { IfSome result (λ number. number < length devices.now) }
{
    devices.iter().position(|face| face.name.is(name))
}

// Returns the index of the trigger of that name.
fn trigger_number(triggers: &[TriggerDesc], name: &[u8]) -> Option<usize>
    ensures value { result ≡ trigger_number triggers.now name.now }
    ensures within { IfSome result (λ number. number < length triggers.now) }
{
    triggers.iter().position(|t| t.name.is(name))
}

impl HubFront {
    ghost use Rattle.iio_desc.specs.Kind.{is_average, is_output};
    ghost use Rattle.iio_core.specs.Front.{find_device, find_trigger, kind_at, shape_at, trigger_name};
    ghost use Rattle.iiod_bank.specs.FrontOf.{front_of};

    /// Returns the number of the device of that name.
    pub fn find(&self, name: &[u8]) -> Option<u32>
        ensures value { result ≡ find_device (front_of self.now) name.now }
        ensures within { IfSome result (λ dev. dev < length (front_of self.now).devices) }
    {
        match device_number(&self.devices, name) {
            None => None,
            Some(number) => Some(number as u32),
        }
    }

    /// Returns the number of the trigger of that name.
    #[tactic(auto, unfolding(iio_core::specs::Front::find_trigger))]
    pub fn find_trigger(&self, name: &[u8]) -> Option<u32>
        ensures value { result ≡ find_trigger (front_of self.now) name.now }
        ensures within { IfSome result (λ trigger. trigger < length (front_of self.now).triggers) }
    {
        let number = trigger_number(&self.triggers, name)?;
        Some(number as u32)
    }

    /// Returns the name of a trigger; empty if no trigger has that number.
    pub fn trigger_name(&self, trigger: u32) -> &[u8]
        ensures { result.now ≡ trigger_name (front_of self.now) trigger }
    {
        let at = trigger as usize;
        if at < self.triggers.len() {
            self.triggers[at].name.bytes()
        } else {
            &[]
        }
    }

    /// The shape of a device.
    pub fn shape(&self, dev: u32) -> &Shape
        requires { dev < length (front_of self.now).devices }
        ensures { result.now ≡ shape_at (front_of self.now) dev }
    {
        &self.devices[dev as usize].shape
    }

    /// Whether a device is an output device; no output device is served.
    pub fn is_output(&self, _dev: u32) -> bool
        ensures { result ≡ is_output (kind_at (front_of self.now) _dev) }
    {
        false
    }

    /// Whether a device is an averaging device; no averaging device is served.
    pub fn is_average(&self, _dev: u32) -> bool
        ensures { result ≡ is_average (kind_at (front_of self.now) _dev) }
    {
        false
    }

    /// The number of devices.
    pub fn count(&self) -> u32
        ensures value { result ≡ length (front_of self.now).devices }
        ensures most { result ≤ MAX_DEVICES }
    {
        self.devices.len() as u32
    }

    /// The text of the context.
    pub fn context(&self) -> &[u8]
        ensures { result.now ≡ (front_of self.now).context }
    {
        &self.context
    }
}
