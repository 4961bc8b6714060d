//! A description whose rows play back in real time.

ghost use Rattle.std.specs.Prelude.{IfOk};
ghost use Rattle.iio_desc.specs.WellFormed.{IsWellFormed};

use super::doubles::{Playing, Starting};
use super::{desc_of, link_of, serve_timed};
use iio_desc::Desc;
use iio_io::{ListDoor, OpenGate};
use iiod_hub::Hub;
use iiod_server::ServeEnd;
use std::alloc::Global;
use std::process::Abort;
use std::sync::atomic::{AtomicBool, AtomicU32, Ordering};
use std::test::Fail;
use std::time::Clock;

/// The time that a row lasts, in nanoseconds.
pub const ROW: i64 = 10_000_000;

/// The number of rows; the last one stays.
pub const ROWS: i64 = 6;

// The number of scans that are read, a millisecond apart: they take longer than the rows.
const SCANS: u32 = 60;

// Describes a device of one voltage and a timestamp. Row k begins at k times `ROW`, and its value is k.
fn played(alloc: Global) -> Result<Desc, Fail>
    ensures { IfOk result (λ desc. IsWellFormed 0 desc) }
{
    desc_of(
        alloc,
        b"trigger t0 2
device adc0 t0
channel voltage0 le:u12/16>>4
timestamp
row 0 0
row 10000000 1
row 20000000 2
row 30000000 3
row 40000000 4
row 50000000 5
",
    )
}

// Creates the door with one connection that reads `SCANS` scans.
fn playing_door<'a, R: Clock>(
    alloc: Global,
    rt: R,
    opened: &'a AtomicBool,
    stop: &'a AtomicBool,
    right: &'a AtomicU32,
) -> Result<ListDoor<Playing<'a, R>>, Fail>
where
    R: Drop,
{
    let sent = link_of(alloc, b"")?;
    let mut links = Vec::new(alloc);
    links.push(Playing {
        rt,
        left: SCANS,
        turn: 0,
        available: false,
        last: 0,
        opened,
        stop,
        right,
        sent,
    })?;
    Ok(ListDoor::new(links, Vec::new(alloc)))
}

fn check_played(rt: &impl Abort, end: ServeEnd, right: u32) {
    assert_eq!(rt; end, ServeEnd::DoorEnd);
    assert_eq!(rt; right, SCANS);
}

// Each scan is of the row at its timestamp, and the timestamps are whole milliseconds that rise.
#[test]
fn rows_play_back_in_real_time(rt: HostRuntime) -> Result<(), Fail> {
    let alloc = rt.alloc();
    let hub = Hub::new(alloc, played(alloc)?, Vec::new(alloc))?;
    let opened = AtomicBool::new(false);
    let stop = AtomicBool::new(false);
    let right = AtomicU32::new(0);
    let mut door = playing_door(alloc, rt, &opened, &stop, &right)?;
    let ticker = Starting {
        rt,
        opened: &opened,
        stop: &stop,
        ticker: None,
    };
    let end = serve_timed(&rt, alloc, &hub, &mut door, ticker, &OpenGate)?;
    check_played(&rt, end, right.load(Ordering::SeqCst));
    Ok(())
}
