//! The end of a device.

ghost use Rattle.std.specs.Prelude.{◌≡◌, ◌<◌, ◌≤◌, true, Some, None, is_some, length};
ghost use Rattle.iio_device.specs.Device.{view_of};
ghost use Rattle.iiod_bank.specs.Jobs.{Emptied, UnplugMakes};
ghost use Rattle.iiod_bank.specs.Kept.{Kept};

use crate::bank::DeviceJob;
use iio_device::{Device, Plug};
use iio_kfifo::Writer;
use iio_layout::Shape;
use iio_sensor::Sensor;
use iio_trigger::Trigger;

/// The job that unplugs a device: its driver is dropped, each member leaves, and each member's ring is closed.
#[derive(Drop)]
pub struct UnplugJob;

impl DeviceJob for UnplugJob {
    ghost use Rattle.iiod_bank.specs.Jobs.{UnplugMakes};

    type Out = bool;

    ghost may = { λ j shape. Unit {0} };

    ghost makes = { λ j a s o b t. UnplugMakes a s o b t };

    fn fits(&self, _shape: &Shape) -> bool {
        true
    }

    fn alone(self, device: &mut Device<Writer>) -> bool {
        device.unplug()
    }

    fn paired(self, device: &mut Device<Writer>, trigger: &mut Trigger) -> bool {
        let was_plugged = device.unplug();
        while let Some(member) = device.first_member() {
            if let Some(writer) = device.leave(member, trigger) {
                writer.close();
            }
        }
        was_plugged
    }
}
