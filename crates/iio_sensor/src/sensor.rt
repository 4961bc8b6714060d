//! What a device asks of its driver.

ghost use Rattle.std.specs.Prelude.{◌≡◌, ℕ, ◌^◌, ◌<◌, length, IfOk, OnOk, is_err};
ghost use Rattle.iio_layout.specs.Layout.{scan_size};
ghost use Rattle.iio_layout.specs.Scan.{scan_of};
ghost use Rattle.iio_layout.specs.Shape.{count_of};
ghost use Rattle.iio_sensor.specs.Driver.{Driver, after_ask, after_bias, after_capture, ask_fails, value_of, values_of};

use iio_layout::{MAX_CHANNELS, Shape};
use iio_mask::Mask;
use std::error::Error;
use std::fmt;

/// The number of biases that a driver keeps: one for each channel that a device can have.
pub const MAX_BIASES: usize = MAX_CHANNELS;

/// An ask that failed.
#[derive(Clone, Copy, Debug, PartialEq, Eq)]
pub struct Fault;

impl fmt::Display for Fault {
    fn fmt<W: fmt::Write>(&self, f: &mut fmt::Formatter<W>) -> fmt::Result {
        write!(f, "the driver's ask failed")
    }
}

impl Error for Fault {}

/// A driver of a device's sensor. `driver` is known to contracts alone: what it samples, which of its asks fail, and what it
/// has been told and asked. No call changes what it samples or which asks fail, no ask changes a bias, each ask is counted, and
/// so is each ask that fails.
pub trait Sensor: Drop {
    ghost driver: { Self → Driver };

    /// Asks once for the scan under `active` of the values at `t`, into `out`. Fails exactly if this ask's number is among
    /// those that fail; then nothing is said of `out`.
    fn capture(&mut self, shape: &Shape, t: i64, active: Mask, out: &mut [u8]) -> Result<(), Fault>
        requires bits { active.bits < 2 ^ count_of shape.now }
        requires size { length out.old ≡ scan_size shape.now active.bits }
        ensures asked { driver self.new ≡ after_capture (driver self.old) t active.bits }
        ensures fault { is_err result ≡ ask_fails (driver self.old) }
        ensures scan { OnOk result (out.new ≡ scan_of shape.now active.bits (values_of (driver self.old) shape.now t) t) };

    /// Asks once for the value of element 0 of channel `c` at `t`. Fails as `capture` does.
    fn raw(&mut self, shape: &Shape, c: u32, t: i64) -> Result<i64, Fault>
        requires { c < length shape.now.channels }
        ensures asked { driver self.new ≡ after_ask (driver self.old) }
        ensures fault { is_err result ≡ ask_fails (driver self.old) }
        ensures value { IfOk result (λ v. v ≡ value_of (driver self.old) shape.now t c 0) };

    /// Returns what is added to the samples of channel `c`.
    fn bias_of(&self, c: u32) -> i64
        requires { c < MAX_BIASES }
        ensures { result ≡ (driver self.now).bias c };

    /// Sets what is added to the samples of channel `c`, and changes nothing else.
    fn set_bias(&mut self, c: u32, v: i64)
        requires { c < MAX_BIASES }
        ensures { driver self.new ≡ after_bias (driver self.old) c v };
}
