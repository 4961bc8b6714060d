//! Thresholds and events. Expected values are by hand, after docs/FORMATS.md.
ghost use Rattle.std.specs.Prelude.{◌≡◌, length, IfOk};

use crate::tests::fixtures::voltage;
use iio_event::{Edge, EventData, Monitor, code};
use iio_layout::{Kind, Shape, Suffix};
use std::alloc::Global;
use std::process::Abort;
use std::test::Fail;

// The monitor of a device with voltage0 and voltage1.
fn two_voltages(alloc: Global) -> Result<Monitor, Fail>
    ensures { IfOk result (λ m. length m.channels ≡ 2) }
{
    let channels = vec![in alloc; voltage(0, "le:u8/8>>0")?, voltage(1, "le:u8/8>>0")?]?;
    let shape = Shape::new(channels, None, Vec::new(alloc)).ok_or("no shape")?;
    Ok(Monitor::new(alloc, &shape)?)
}

/// Kinds, suffixes and edges, and the code of their events.
const CODES: &[(Kind, Suffix, Edge, u64)] = &[
    (
        Kind::Voltage,
        Suffix::Number(1),
        Edge::Rising,
        0x0001_0000_0000_0001,
    ),
    (
        Kind::Voltage,
        Suffix::Bare,
        Edge::Falling,
        0x0002_0000_0000_0000,
    ),
    (
        Kind::Current,
        Suffix::Number(65_535),
        Edge::Rising,
        0x0001_0001_0000_ffff,
    ),
    (Kind::Accel, Suffix::X, Edge::Rising, 0x0001_0103_0000_0000),
    (
        Kind::Anglvel,
        Suffix::Y,
        Edge::Falling,
        0x0002_0204_0000_0000,
    ),
    (Kind::Magn, Suffix::Z, Edge::Falling, 0x0002_0305_0000_0000),
    (
        Kind::Temp,
        Suffix::Number(0),
        Edge::Rising,
        0x0001_0009_0000_0000,
    ),
];

fn bytes_of(event: EventData) -> [u8; 16] {
    event.bytes()
}

#[test]
fn codes(rt: HostRuntime) {
    for (kind, suffix, edge, want) in CODES.iter() {
        assert_eq!(rt; code(*kind, *suffix, *edge), *want);
    }
    let event = EventData {
        code: 0x0001_0203_0405_0607,
        t: -2,
    };
    assert_eq!(rt;
        bytes_of(event),
        *b"\x07\x06\x05\x04\x03\x02\x01\x00\xfe\xff\xff\xff\xff\xff\xff\xff"
    );
}

// Senses these values of voltage0 in turn, and checks how many events fire at each.
fn sense_all(rt: &impl Abort, monitor: &mut Monitor, values: &[(i64, u32)])
    requires { length monitor.old.channels ≡ 2 }
    ensures { length monitor.new.channels ≡ 2 }
{
    for (value, want) in values {
        assert_eq!(rt; monitor.sense(0, *value, 0), *want, "at {value}");
    }
}

// A rising edge above 5, before which nothing fires.
fn check_rising(rt: &impl Abort, monitor: &mut Monitor)
    requires { length monitor.old.channels ≡ 2 }
    ensures { length monitor.new.channels ≡ 2 }
{
    sense_all(rt, monitor, &[(i64::MAX, 0), (i64::MIN, 0)]);
    monitor.set_value(0, Edge::Rising, 5);
    monitor.set_on(0, Edge::Rising, true);
    sense_all(rt, monitor, &[(5, 0), (6, 1), (7, 0), (5, 0), (6, 1)]);
}

// A new threshold keeps the value before, and enabling again changes nothing.
fn check_new_threshold(rt: &impl Abort, monitor: &mut Monitor)
    requires { length monitor.old.channels ≡ 2 }
    ensures { length monitor.new.channels ≡ 2 }
{
    monitor.set_value(0, Edge::Rising, 3);
    sense_all(rt, monitor, &[(4, 0)]);
    monitor.set_value(0, Edge::Rising, 4);
    monitor.set_on(0, Edge::Rising, true);
    sense_all(rt, monitor, &[(6, 1), (6, 0)]);
}

// Enabling an edge again forgets the value before.
fn check_enabled_anew(rt: &impl Abort, monitor: &mut Monitor)
    requires { length monitor.old.channels ≡ 2 }
    ensures { length monitor.new.channels ≡ 2 }
{
    monitor.set_on(0, Edge::Rising, false);
    sense_all(rt, monitor, &[(0, 0)]);
    monitor.set_on(0, Edge::Rising, true);
    sense_all(rt, monitor, &[(6, 1), (6, 0)]);
}

// Both edges at once, each with its own value before.
fn check_both_edges(rt: &impl Abort, monitor: &mut Monitor)
    requires { length monitor.old.channels ≡ 2 }
    ensures { length monitor.new.channels ≡ 2 }
{
    monitor.set_value(0, Edge::Falling, 7);
    monitor.set_on(0, Edge::Falling, true);
    sense_all(rt, monitor, &[(7, 0), (6, 1), (5, 0), (4, 0), (6, 1)]);
    monitor.set_on(0, Edge::Rising, false);
    monitor.set_on(0, Edge::Falling, false);
    monitor.set_on(0, Edge::Rising, true);
    monitor.set_on(0, Edge::Falling, true);
}

#[test]
fn crossings(rt: HostRuntime) -> Result<(), Fail> {
    let mut monitor = two_voltages(rt.alloc())?;
    check_rising(&rt, &mut monitor);
    check_new_threshold(&rt, &mut monitor);
    check_enabled_anew(&rt, &mut monitor);
    check_both_edges(&rt, &mut monitor);
    assert_eq!(rt; monitor.open(1), Ok(()));
    sense_all(&rt, &mut monitor, &[(6, 2)]);
    let rising = EventData {
        code: 0x0001_0000_0000_0000,
        t: 0,
    };
    let falling = EventData {
        code: 0x0002_0000_0000_0000,
        t: 0,
    };
    assert_eq!(rt; monitor.read(1), Ok(Some(rising)));
    assert_eq!(rt; monitor.read(1), Ok(Some(falling)));
    Ok(())
}
