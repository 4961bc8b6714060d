//! A ticker by the system's clock.

ghost use Rattle.std.specs.Prelude.{◌≡◌, ◌+◌, ◌*◌, ◌<◌, ◌/◌, ◌↔◌, max, pos, IfNone, IfSome};

use crate::door::Ticker;
use std::marker::Model;
use std::sync::atomic::{AtomicBool, Ordering};
use std::thread;
use std::time::{Clock, Duration, Instant};

// Nanoseconds in a millisecond.
const MILLI: u64 = 1_000_000;

/// A ticker that waits for each moment on a clock that doesn't go back. A tick comes each period from the start on, the first
/// one period after it, and a tick's moment is its number times the period. A tick that is taken late is returned at once and
/// delays none after it; of those that were missed meanwhile only the last is returned. The ticker ends at the first moment
/// after `stop` was set, if the clock can't be read, and if the moment is past 2^63 - 1.
#[derive(Drop)]
pub struct ClockTicker<'a, R> {
    clock: R,
    stop: &'a AtomicBool,
    start: Option<Instant>,
    period: u64,
    ticks: u64,
}

impl<'a, R> Model for ClockTicker<'a, R> {
    ghost use Rattle.iio_io.specs.Outside.{Ticks};

    ghost Value = { Ticks };

    ghost view = { λ t. record { period = t.period; ticks = t.ticks } };
}

impl<'a, R: Clock> ClockTicker<'a, R> {
    /// Makes a ticker of `period` milliseconds from `start` on. Without a start, and with a period of 0, it has no tick.
    pub fn new(
        clock: R,
        stop: &'a AtomicBool,
        start: Option<Instant>,
        period: u32,
    ) -> ClockTicker<'a, R>
        ensures { result ≡ record { period = period * 1_000_000; ticks = 0 } }
    {
        ClockTicker {
            clock,
            stop,
            start,
            period: u64::from(period) * MILLI,
            ticks: 0,
        }
    }

    // The nanoseconds since the start, if there is one and the clock can be read.
    fn elapsed(&self) -> Option<u64> {
        let elapsed = self.start?.elapsed(&self.clock).ok()?;
        u64::try_from(elapsed.as_nanos()).ok()
    }

    // Waits for the moment. Returns whether the ticker goes on.
    fn wait_until(&self, moment: i64, now: u64) -> bool {
        let left = moment.unsigned_abs().saturating_sub(now);
        if left > 0 && !self.stop.load(Ordering::SeqCst) {
            thread::sleep(&self.clock, Duration::from_nanos(left));
        }
        !self.stop.load(Ordering::SeqCst)
    }
}

impl<'a, R: Clock> Ticker for ClockTicker<'a, R> {
    ghost use Rattle.std.specs.Prelude.{None};

    ghost moments = { λ _. None };

    fn next(&mut self) -> Option<i64>
        ensures moment { IfSome result (λ t. t ≡ pos (self.new.ticks * self.old.period)) }
        ensures later { IfSome result (λ _. self.old.ticks < self.new.ticks) }
        ensures period { self.new.period ≡ self.old.period }
        ensures kept { IfNone result (self.new ≡ self.old) }
    {
        let now = self.elapsed()?;
        let tick = next_tick(self.ticks, now, self.period)?;
        let moment = moment_of(tick, self.period)?;
        if !self.wait_until(moment, now) {
            return None;
        }
        self.ticks = tick;
        Some(moment)
    }
}

// The moment of a tick, if it isn't past 2^63 - 1.
fn moment_of(tick: u64, period: u64) -> Option<i64>
    ensures { IfSome result (λ t. t ≡ pos (tick * period)) }
{
    i64::try_from(tick.checked_mul(period)?).ok()
}

// The number of the tick that comes after `ticks` others: the next one, or the last that has come by `now` if that is later.
// Returns `None` if the period is 0, or if no number is left.
fn next_tick(ticks: u64, now: u64, period: u64) -> Option<u64>
    ensures { IfSome result (λ tick. tick ≡ max (ticks + 1) (now / period)) }
{
    let come = now.checked_div(period)?;
    Some(ticks.checked_add(1)?.max(come))
}
