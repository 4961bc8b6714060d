//! What a bench has: its devices and triggers by their names, their sizes, and what they counted.

ghost use Rattle.std.specs.Prelude.{◌≡◌, ◌<◌, ◌≤◌, ⊤, All, length, map};
ghost use Rattle.iio_scan_type.specs.Format.{size_of};
ghost use Rattle.iio_desc.specs.Description.{DeviceHead};
ghost use Rattle.iio_desc.specs.declared.limits.TheConstants.{MAX_DEVICES};
ghost use Rattle.iio_core.specs.Front.{device_name, trigger_name};
ghost use Rattle.iio_history.specs.Bench.{Every, HasDeviceSizes};
ghost use Rattle.iio_kinds.specs.Station.{any_front};
ghost use Rattle.iio_kinds.specs.Tally.{devices_tally};
ghost use Rattle.iio_bench.specs.Bench.{front_of, room_at};

use crate::bench::Bench;
use iio_attr::Name;
use iio_kinds::{AnyDevice, Tally, devices_tally};
use iio_layout::Shape;

// Looks at each channel's size, whose type says that it is at least one byte.
fn look_at_channels(shape: &Shape)
    ensures { All (λ channel. 1 ≤ size_of channel.ty) shape.now.channels }
{
    for c in 0..shape.inputs() {
        shape.channel(c).ty.size();
    }
}

// Looks at each device's channels: hence a scan with a channel's data is at least one byte.
fn look_at_sizes(devices: &[AnyDevice])
    requires { All (λ (d : DeviceHead). 0 < length d.shape.channels) (map any_front devices.now) }
    ensures { Every HasDeviceSizes (map any_front devices.now) }
{
    for device in devices {
        look_at_channels(device.shape());
    }
}

impl Bench {
    /// The name of a trigger.
    pub fn name_of_trigger(&self, trigger: u32) -> &Name
        requires { trigger < length (front_of self.now).triggers }
        ensures { result.now ≡ trigger_name (front_of self.now) trigger }
    {
        &self.described[trigger as usize].name
    }

    /// The name of a device.
    pub fn name_of_device(&self, dev: u32) -> &Name
        requires { dev < length (front_of self.now).devices }
        ensures { result.now ≡ device_name (front_of self.now) dev }
    {
        self.devices[dev as usize].name()
    }

    /// The number of devices.
    pub fn device_count(&self) -> u32
        requires { ⊤ }
        ensures value { result ≡ length (front_of self.now).devices }
        ensures most { result ≤ MAX_DEVICES }
    {
        self.devices.len() as u32
    }

    /// The scan that an output device was given last; no byte for a device of another kind.
    pub fn room_of(&self, dev: u32) -> &[u8]
        requires { dev < length (front_of self.now).devices }
        ensures { result.now ≡ room_at self.now dev }
    {
        self.devices[dev as usize].room()
    }

    /// What the devices counted.
    pub fn tally(&self) -> Tally
        ensures { result ≡ devices_tally self.now.devices.items }
    {
        devices_tally(&self.devices)
    }

    /// Looks at each device's channels: hence a scan with a channel's data is at least one byte.
    pub fn look_at_sizes(&self)
        requires { All (λ (d : DeviceHead). 0 < length d.shape.channels) (front_of self.now).devices }
        ensures { Every HasDeviceSizes (front_of self.now).devices }
    {
        look_at_sizes(&self.devices);
    }
}
