//! What a device samples.

ghost use Rattle.iio_device.specs.Plug.{driver_of};

use iio_layout::Shape;
use iio_mask::Mask;
use iio_sensor::{Fault, Recorded, Sensor};

/// What a device samples.
#[derive(Drop)]
pub enum Plug {
    /// The rows that the description recorded.
    Own(Recorded),
    /// A driver that was handed in.
    Given(Box<dyn Sensor + Send>),
}

impl Sensor for Plug {
    ghost driver = { driver_of (λ b. (Sensor-box b).driver b.value) };

    fn capture(
        &mut self,
        shape: &Shape,
        t: i64,
        active: Mask,
        out: &mut [u8],
    ) -> Result<(), Fault> {
        match self {
            Plug::Own(recorded) => recorded.capture(shape, t, active, out),
            Plug::Given(driver) => driver.capture(shape, t, active, out),
        }
    }

    #[inline(always)]
    fn raw(&mut self, shape: &Shape, c: u32, t: i64) -> Result<i64, Fault> {
        match self {
            Plug::Own(recorded) => recorded.raw(shape, c, t),
            Plug::Given(driver) => driver.raw(shape, c, t),
        }
    }

    fn bias_of(&self, c: u32) -> i64 {
        match self {
            Plug::Own(recorded) => recorded.bias_of(c),
            Plug::Given(driver) => driver.bias_of(c),
        }
    }

    fn set_bias(&mut self, c: u32, v: i64) {
        match self {
            Plug::Own(recorded) => recorded.set_bias(c, v),
            Plug::Given(driver) => driver.set_bias(c, v),
        }
    }
}
