//! A driver that counts.

ghost use Rattle.std.specs.Prelude.{◌≡◌, ◌^◌, ◌<◌, length};
ghost use Rattle.iio_layout.specs.Layout.{format_at, scan_size};
ghost use Rattle.iio_layout.specs.Scan.{scan_of, values_by};
ghost use Rattle.iio_layout.specs.Shape.{count_of, formats_of};
ghost use Rattle.iio_sensor.specs.Driver.{IsFresh, bias_in, with_bias};
ghost use Rattle.iio_sensor.specs.Ramp.{driver_of, number_at};

use crate::asks::Asks;
use crate::{Fault, MAX_BIASES, Sensor};
use iio_layout::{Shape, Values, fill_from};
use iio_mask::Mask;
use std::marker::Model;

/// A driver whose number for element `k` of channel `c` at the moment `t` is `(t mod 1000) + 1000 * c + k`; the remainder is
/// never negative. No ask fails.
#[derive(Debug, Drop)]
pub struct Ramp {
    pub(crate) asks: Asks,
}

impl Model for Ramp {
    ghost use Rattle.iio_sensor.specs.Ramp.{RampRecord};

    ghost Value = { RampRecord };

    ghost use Rattle.iio_sensor.specs.View.{ramp_of};

    ghost view = { ramp_of };
}

impl Ramp {
    /// Makes a ramp that was never asked, without a bias.
    pub fn new() -> Ramp
        ensures { IsFresh (driver_of result) }
    {
        Ramp { asks: Asks::none() }
    }
}

impl Sensor for Ramp {
    ghost driver = { driver_of };

    fn capture(
        &mut self,
        shape: &Shape,
        t: i64,
        active: Mask,
        out: &mut [u8],
    ) -> Result<(), Fault> {
        self.asks.count_capture(t, active);
        fill_ramp(&self.asks.biases, shape, active, t, out);
        Ok(())
    }

    fn raw(&mut self, shape: &Shape, c: u32, t: i64) -> Result<i64, Fault> {
        self.asks.count();
        Ok(ramp_value(&self.asks.biases, shape, t, c, 0))
    }

    fn bias_of(&self, c: u32) -> i64 {
        self.asks.bias(c)
    }

    fn set_bias(&mut self, c: u32, v: i64) {
        self.asks.set_bias(c, v);
    }
}

/// The numbers of a ramp at a moment, with their biases.
#[derive(Clone, Copy)]
struct RampValues<'a> {
    biases: &'a [i64; MAX_BIASES],
    shape: &'a Shape,
    t: i64,
}

impl Values for RampValues<'_> {
    ghost inputs = { λ s. length s.shape.now.channels };

    ghost value = { λ s c k. with_bias (format_at (formats_of s.shape.now) c) (number_at c k s.t) (bias_in s.biases.now c) };

    fn value(&self, c: u32, k: u32) -> i64 {
        ramp_value(self.biases, self.shape, self.t, c, k)
    }
}

/// Writes the scan of a ramp's numbers at a moment.
fn fill_ramp(biases: &[i64; MAX_BIASES], shape: &Shape, active: Mask, t: i64, out: &mut [u8])
    requires bits { active.bits < 2 ^ count_of shape.now }
    requires size { length out.old ≡ scan_size shape.now active.bits }
    ensures { out.new ≡ scan_of shape.now active.bits (values_by shape.now (λ c k.
        with_bias (format_at (formats_of shape.now) c) (number_at c k t) (bias_in biases.now c))) t }
{
    fill_from(shape, active, &RampValues { biases, shape, t }, t, out);
}

/// The value of element `k` of channel `c` at a moment.
fn ramp_value(biases: &[i64; MAX_BIASES], shape: &Shape, t: i64, c: u32, k: u32) -> i64
    requires { c < length shape.now.channels }
    ensures { result ≡ with_bias (format_at (formats_of shape.now) c) (number_at c k t) (bias_in biases.now c) }
{
    shape
        .data_type(c)
        .saturating_sum(number_at(c, k, t), biases[c as usize])
}

/// The number for element `k` of channel `c` at a moment.
fn number_at(c: u32, k: u32, t: i64) -> i64
    ensures { result ≡ number_at c k t }
{
    t.rem_euclid(1000) + (1000 * i64::from(c) + i64::from(k))
}
