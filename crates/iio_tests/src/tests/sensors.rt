//! Drivers and recordings.

ghost use Rattle.std.specs.Prelude.{◌≡◌, ◌<◌, length, IfOk};
ghost use Rattle.iio_layout.specs.Rows.{IsRecording};
ghost use Rattle.iio_layout.specs.Shape.{count_of};

use iio_layout::{Channel, Direction, Kind, Mem, Rows, Shape, Suffix, scan_size};
use iio_mask::Mask;
use iio_scan_type::{ScanType, read_type};
use iio_sensor::{Failing, Fault, Ramp, Recorded, Sensor};
use std::alloc::Global;
use std::process::Abort;

/// Two rows of two numbers: the first number of each stands for `voltage0`, the second for element 0 of `accel_x`.
fn two_rows(alloc: Global) -> Result<Rows, Mem>
    ensures { IfOk result IsRecording }
{
    Ok(Rows {
        moments: Vec::from_slice(alloc, &[10, 20])?,
        values: Vec::from_slice(alloc, &[1, -200, 4096, 5])?,
        width: 2,
    })
}

// The type that a text spells, with nothing more known of it.
fn type_of(rt: &impl Abort, text: &str) -> ScanType {
    read_type(text.as_bytes()).expect(rt, "a type")
}

/// A channel of one element, and one of two that is wider than a row.
fn two_channels(rt: &impl Abort, alloc: Global) -> Result<Shape, Mem>
    ensures { IfOk result (λ s. count_of s ≡ 2 × length s.channels ≡ 2) }
{
    let voltage = Channel {
        kind: Kind::Voltage,
        suffix: Suffix::Number(0),
        direction: Direction::Input,
        ty: type_of(rt, "le:u12/16>>4"),
    };
    let accel = Channel {
        kind: Kind::Accel,
        suffix: Suffix::X,
        direction: Direction::Input,
        ty: type_of(rt, "be:s8/8X2>>0"),
    };
    let channels = Vec::from_slice(alloc, &[voltage, accel])?;
    let shape = Shape::new(channels, None, Vec::new(alloc)).expect(rt, "a shape");
    assert!(rt; shape.count() == 2);
    assert!(rt; shape.inputs() == 2);
    Ok(shape)
}

/// The bytes of both channels at a moment.
fn scan_at(rt: &impl Abort, driver: &mut impl Sensor, shape: &Shape, t: i64) -> [u8; 4]
    requires { count_of shape.now ≡ 2 }
{
    let both = Mask { bits: 3 };
    let mut out = [0xff; 4];
    assert!(rt; scan_size(shape, both) == 4);
    assert!(rt; driver.capture(shape, t, both, &mut out).is_ok());
    out
}

// Element 0 of a channel at a moment.
fn raw_at(driver: &mut impl Sensor, shape: &Shape, c: u32, t: i64) -> Result<i64, Fault>
    requires { c < length shape.now.channels }
{
    driver.raw(shape, c, t)
}

/// Before, at, between and after the moments: each row holds until the next.
const SCANS: &[(i64, [u8; 4])] = &[
    (i64::MIN, [0, 0, 0, 0]),
    (9, [0, 0, 0, 0]),
    (10, [0x10, 0, 0x80, 0]),
    (15, [0x10, 0, 0x80, 0]),
    (19, [0x10, 0, 0x80, 0]),
    (20, [0xf0, 0xff, 5, 0]),
    (i64::MAX, [0xf0, 0xff, 5, 0]),
];

#[test]
fn rows_hold_to_the_next(rt: HostRuntime) -> Result<(), Mem> {
    let shape = two_channels(&rt, rt.alloc())?;
    let mut driver = Recorded::new(two_rows(rt.alloc())?);
    for (t, bytes) in SCANS {
        assert_eq!(rt; scan_at(&rt, &mut driver, &shape, *t), *bytes, "at {t}");
    }
    let before = raw_at(&mut driver, &shape, 1, 9);
    let at = raw_at(&mut driver, &shape, 1, 10);
    let later = raw_at(&mut driver, &shape, 0, 20);
    assert_eq!(rt; (before, at, later), (Ok(0), Ok(-128), Ok(4095)));
    Ok(())
}

// Sets the bias of voltage0, and returns what it is then, and the value at the first row's moment.
fn biased(driver: &mut impl Sensor, shape: &Shape, bias: i64) -> (i64, Result<i64, Fault>)
    requires { 0 < length shape.now.channels }
{
    driver.set_bias(0, bias);
    (driver.bias_of(0), driver.raw(shape, 0, 10))
}

/// Biases of voltage0, and its value at the first row's moment.
const BIASES: &[(i64, i64)] = &[
    (i64::MIN, 0),
    (-2, 0),
    (-1, 0),
    (41, 42),
    (4095, 4095),
    (i64::MAX, 4095),
];

#[test]
fn biases_are_added_exactly(rt: HostRuntime) -> Result<(), Mem> {
    let shape = two_channels(&rt, rt.alloc())?;
    let mut driver = Recorded::new(two_rows(rt.alloc())?);
    assert_eq!(rt; driver.bias_of(1), 0);
    for (bias, value) in BIASES {
        let found = biased(&mut driver, &shape, *bias);
        assert_eq!(rt; found, (*bias, Ok(*value)));
    }
    driver.set_bias(1, 3);
    let before = scan_at(&rt, &mut driver, &shape, 9);
    let after = scan_at(&rt, &mut driver, &shape, 15);
    assert_eq!(rt; before, [0xf0, 0xff, 3, 3]);
    assert_eq!(rt; after, [0xf0, 0xff, 0x80, 3]);
    Ok(())
}

/// A moment, and a ramp's number in element 0 of each channel of `two_channels`.
const RAMP: &[(i64, i64, i64)] = &[
    (0, 0, 127),
    (7, 7, 127),
    (999, 999, 127),
    (1000, 0, 127),
    (-1, 999, 127),
    (i64::MIN, 192, 127),
    (i64::MAX, 807, 127),
];

#[test]
fn a_ramp_counts(rt: HostRuntime) -> Result<(), Mem> {
    let shape = two_channels(&rt, rt.alloc())?;
    let mut driver = Ramp::new();
    for (t, first, second) in RAMP {
        let voltage = raw_at(&mut driver, &shape, 0, *t);
        let accel = raw_at(&mut driver, &shape, 1, *t);
        assert_eq!(rt; (voltage, accel), (Ok(*first), Ok(*second)), "at {t}");
    }
    driver.set_bias(1, -1005);
    assert_eq!(rt; driver.bias_of(1), -1005);
    // 2 is 7 with 1000 more, for channel 1, and 1005 less, by its bias; the value of voltage0 is shifted by 4.
    assert_eq!(rt; scan_at(&rt, &mut driver, &shape, 7), [0x70, 0, 2, 3]);
    Ok(())
}

// Asks once for the scan of both channels.
fn capture_at(
    rt: &impl Abort,
    driver: &mut impl Sensor,
    shape: &Shape,
    t: i64,
    out: &mut [u8],
) -> Result<(), Fault>
    requires both { count_of shape.now ≡ 2 }
    requires room { length out.old ≡ 4 }
{
    let both = Mask { bits: 3 };
    assert!(rt; scan_size(shape, both) == 4);
    driver.capture(shape, t, both, out)
}

#[test]
fn listed_asks_fail(rt: HostRuntime) -> Result<(), Mem> {
    let shape = two_channels(&rt, rt.alloc())?;
    let mut driver = Failing::new(Vec::from_slice(rt.alloc(), &[2, 4])?);
    let mut out = [0; 4];
    for (t, answer) in [(1, Ok(())), (2, Err(Fault)), (3, Ok(()))] {
        let given = capture_at(&rt, &mut driver, &shape, t, &mut out);
        assert_eq!(rt; given, answer, "at {t}");
    }
    assert_eq!(rt; out, [0x30, 0, 0x7f, 0x7f]);
    let fourth = raw_at(&mut driver, &shape, 0, 4);
    let fifth = raw_at(&mut driver, &shape, 0, 5);
    assert_eq!(rt; (fourth, fifth), (Err(Fault), Ok(5)));
    Ok(())
}
