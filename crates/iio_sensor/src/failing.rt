//! A driver that fails some of its asks.

ghost use Rattle.std.specs.Prelude.{◌≡◌, ◌==◌};
ghost use Rattle.std.specs.List.{list_any};
ghost use Rattle.iio_sensor.specs.Driver.{IsFresh, ask_fails, next_count};
ghost use Rattle.iio_sensor.specs.Failing.{driver_of};

use crate::asks::next_count;
use crate::{Fault, Ramp, Sensor};
use iio_layout::Shape;
use iio_mask::Mask;
use std::marker::Model;

/// A `Ramp` that fails the listed asks; the first ask has the number 1.
#[derive(Debug, Drop)]
pub struct Failing {
    ramp: Ramp,
    fails: Vec<u64>,
    faults: u64,
}

impl Model for Failing {
    ghost use Rattle.iio_sensor.specs.Failing.{FailingRecord};

    ghost Value = { FailingRecord };

    ghost use Rattle.iio_sensor.specs.View.{failing_of};

    ghost view = { failing_of };
}

impl Failing {
    /// Makes a driver that was never asked, without a bias; its asks of these numbers fail.
    pub fn new(fails: Vec<u64>) -> Failing
        ensures fresh { IsFresh (driver_of result) }
        ensures fails { (driver_of result).fails ≡ fails.items }
    {
        Failing {
            ramp: Ramp::new(),
            fails,
            faults: 0,
        }
    }

    // Whether the next ask fails.
    fn next_fails(&self) -> bool
        ensures { result ≡ ask_fails (driver_of self.now) }
    {
        is_listed(&self.fails, next_count(self.ramp.asks.asked))
    }
}

// Whether the number is in the list.
fn is_listed(numbers: &[u64], number: u64) -> bool
    ensures { result ≡ list_any (λ n. n == number) numbers.now }
{
    numbers.iter().any(|n| *n == number)
}

impl Sensor for Failing {
    ghost driver = { driver_of };

    fn capture(
        &mut self,
        shape: &Shape,
        t: i64,
        active: Mask,
        out: &mut [u8],
    ) -> Result<(), Fault> {
        if self.next_fails() {
            self.ramp.asks.count_capture(t, active);
            self.faults = next_count(self.faults);
            return Err(Fault);
        }
        self.ramp.capture(shape, t, active, out)
    }

    fn raw(&mut self, shape: &Shape, c: u32, t: i64) -> Result<i64, Fault> {
        if self.next_fails() {
            self.ramp.asks.count();
            self.faults = next_count(self.faults);
            return Err(Fault);
        }
        self.ramp.raw(shape, c, t)
    }

    fn bias_of(&self, c: u32) -> i64 {
        self.ramp.bias_of(c)
    }

    fn set_bias(&mut self, c: u32, v: i64) {
        self.ramp.set_bias(c, v);
    }
}
