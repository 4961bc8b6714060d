//! The clock's ticker, with a clock that is set by hand and with the real one.

use iio_io::{ClockTicker, Listen, TcpDoor, Ticker};
use std::cell::Cell;
use std::io;
use std::io::ErrorKind;
use std::sync::atomic::{AtomicBool, Ordering};
use std::test::Fail;
use std::time::{Clock, Duration, Instant};

/// A clock that is set by hand, in nanoseconds. It goes on by what is slept, and can't be read past `end`.
#[derive(Drop)]
struct Hand<'a> {
    now: &'a Cell<u64>,
    end: u64,
}

impl<'a> Clock for Hand<'a> {
    fn monotonic(&self) -> io::Result<Duration> {
        if self.now.get() > self.end {
            return Err(io::Error::from(ErrorKind::Other));
        }
        Ok(Duration::from_nanos(self.now.get()))
    }

    fn since_1970(&self) -> io::Result<Duration> {
        Err(io::Error::from(ErrorKind::Unsupported))
    }

    fn sleep(&self, duration: Duration) {
        let slept = u64::try_from(duration.as_nanos()).unwrap_or(u64::MAX);
        self.now.set(self.now.get().saturating_add(slept));
    }
}

// Lets a clock go on by `later`, and returns the ticker's next moment and where the clock stands then.
fn tick(ticker: &mut ClockTicker<Hand>, now: &Cell<u64>, later: u64) -> (Option<i64>, u64) {
    now.set(now.get().saturating_add(later));
    let moment = ticker.next();
    (moment, now.get())
}

/// By how much the clock goes on before each call, the moment that is returned, and where the clock stands then. The ticks are
/// on time, late by less than a period, late by more, and on time again.
const TICKS: &[(u64, i64, u64)] = &[
    (0, 10_000_000, 10_005_000),
    (3, 20_000_000, 20_005_000),
    (13_000_000, 30_000_000, 33_005_000),
    (0, 40_000_000, 40_005_000),
    (37_000_000, 70_000_000, 77_005_000),
    (0, 80_000_000, 80_005_000),
    (10_000_000, 90_000_000, 90_005_000),
];

// A ticker of 10 milliseconds from the clock's moment 5,000 on.
#[test]
fn ticks_are_on_the_grid_of_the_start(rt: HostRuntime) -> Result<(), Fail> {
    let now = Cell::new(5_000u64);
    let clock = Hand {
        now: &now,
        end: 1_000_000_000,
    };
    let stop = AtomicBool::new(false);
    let start = Instant::now(&clock)?;
    let mut ticker = ClockTicker::new(clock, &stop, Some(start), 10);
    for (later, moment, stands) in TICKS {
        assert_eq!(rt; tick(&mut ticker, &now, *later), (Some(*moment), *stands));
    }
    stop.store(true, Ordering::SeqCst);
    assert_eq!(rt; tick(&mut ticker, &now, 0), (None, 90_005_000));
    Ok(())
}

// A ticker without a start, one without a period, and one whose clock can't be read any more.
#[test]
fn a_ticker_that_cannot_tick_ends(rt: HostRuntime) -> Result<(), Fail> {
    let now = Cell::new(0u64);
    let stop = AtomicBool::new(false);
    for (starts, period, end) in [(false, 10u32, 100u64), (true, 0, 100), (true, 10, 0)] {
        now.set(0);
        let clock = Hand { now: &now, end };
        let start = Instant::now(&clock)?;
        let mut ticker = ClockTicker::new(
            clock,
            &stop,
            if starts { Some(start) } else { None },
            period,
        );
        let moment = tick(&mut ticker, &now, 1).0;
        assert_eq!(rt; moment, None, "starts {starts}, period {period}, end {end}");
    }
    Ok(())
}

// Whether a moment is a later one of the grid of 2 milliseconds than the last, and has come.
fn is_due(last: i64, moment: i64, passed: i64) -> bool {
    moment % 2_000_000 == 0 && last < moment && moment <= passed
}

// The real clock: the moments are those of the grid, and none is returned before it has come.
#[test]
fn the_clock_of_a_door_ticks(rt: HostRuntime) -> Result<(), Fail> {
    let stop = AtomicBool::new(false);
    let mut door = TcpDoor::new(rt, &stop);
    assert_eq!(rt; door.ticker(1).next(), None);
    let before = Instant::now(&rt)?;
    door.listen("127.0.0.1:0")?;
    let mut ticker = door.ticker(2);
    let mut last = 0i64;
    for _ in 0..3 {
        let moment = ticker.next().unwrap_or(0);
        let passed = i64::try_from(before.elapsed(&rt)?.as_nanos()).unwrap_or(0);
        assert!(rt; is_due(last, moment, passed), "{last} {moment} {passed}");
        last = moment;
    }
    Ok(())
}
