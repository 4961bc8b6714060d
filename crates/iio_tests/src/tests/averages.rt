//! Means of captures. Expected values are by hand, after the layout of docs/FORMATS.md.
ghost use Rattle.std.specs.Prelude.{◌≡◌, ◌+◌, ◌≤◌, ◌<◌, true, length, IfOk};
ghost use Rattle.iio_layout.specs.Layout.{scan_size};
ghost use Rattle.iio_derive.specs.Average.{has_member};
ghost use Rattle.iio_derive.specs.Window.{full_mask};
ghost use Rattle.iio_tests.specs.Tested.{AreTested};

use crate::tests::fixtures::voltage;
use iio_derive::Average;
use iio_layout::{Shape, fill, scan_size};
use iio_mask::Mask;
use iio_scan_type::Endian;
use std::alloc::Global;
use std::process::Abort;
use std::test::Fail;

/// The types of the base's channels in most tests.
const TYPES: &[&str] = &["le:u12/16>>4", "le:s8/8>>0", "be:s16/16>>0"];

// A device whose base has channels voltage0 to voltage2 of these types, and a timestamp.
fn device(alloc: Global, types: &[&str], window: u32, size: usize) -> Result<Average, Fail>
    requires low { 2 ≤ window }
    requires high { window ≤ 1000 }
    ensures { IfOk result (λ a. AreTested 0 size a.seats) }
{
    let mut channels = Vec::new(alloc);
    for (number, ty) in (0u16..64).zip(types) {
        channels.push(voltage(number, ty)?)?;
    }
    let shape = Shape::new(channels, Some(Endian::Little), Vec::new(alloc)).ok_or("no shape")?;
    Ok(Average::new(alloc, shape, window)?)
}

// Adds a member whose scans have `size` bytes; at most one scan waits. At most `most` offers were made to any queue.
fn join(
    rt: &impl Abort,
    device: &mut Average,
    mask: u64,
    size: usize,
    most: u64,
) -> Result<u32, Fail>
    requires { AreTested most size device.old.seats }
    ensures { AreTested most size device.new.seats }
{
    let mask = Mask { bits: mask };
    assert!(rt; device.shape().count() == 4 && device.shape().inputs() == 3);
    assert!(rt; mask.contains(0) || mask.contains(1) || mask.contains(2));
    assert!(rt; mask.bits < 16);
    let bytes = scan_size(device.shape(), mask);
    assert!(rt; bytes as usize == size && bytes <= 16);
    Ok(device.join(mask, 1)?)
}

// Adds a capture, given as a scan of all channels; before it at most `most` offers were made to any queue.
fn add_scan(device: &mut Average, scan: &[u8], size: usize, most: u64) -> Option<u32>
    requires sized { length scan.now ≡ scan_size device.old.shape (full_mask device.old.shape) }
    requires member { has_member device.old.seats ≡ true }
    requires known { AreTested most size device.old.seats }
    requires few { most < 1000 }
    ensures { AreTested (most + 1) size device.new.seats }
{
    device.add(scan)
}

// Adds a capture of these values; before it at most `most` offers were made to any queue.
fn add(
    rt: &impl Abort,
    device: &mut Average,
    values: [i64; 3],
    t: i64,
    size: usize,
    most: u64,
) -> Option<u32>
    requires known { AreTested most size device.old.seats }
    requires few { most < 1000 }
    ensures { AreTested (most + 1) size device.new.seats }
{
    assert!(rt; device.shape().count() == 4 && device.shape().width() == 3);
    assert!(rt; device.has_member());
    let full = Mask { bits: 15 };
    let bytes = scan_size(device.shape(), full) as usize;
    assert!(rt; bytes <= 32);
    let mut room = [0; 32];
    fill(device.shape(), full, &values, t, &mut room[..bytes]);
    add_scan(device, &room[..bytes], size, most)
}

// Takes the oldest scan of a member, if one waits.
fn take(
    rt: &impl Abort,
    device: &mut Average,
    member: u32,
    size: usize,
    most: u64,
) -> (bool, [u8; 16])
    requires { AreTested most size device.old.seats }
    ensures { AreTested most size device.new.seats }
{
    let mut room = [0; 16];
    assert!(rt; size <= 16);
    let taken = device.take(member, &mut room[..size]);
    (taken == Some(true), room)
}

// Adds a capture, and checks how many members are offered a mean, if any is made.
fn check_add(
    rt: &impl Abort,
    device: &mut Average,
    values: [i64; 3],
    t: i64,
    size: usize,
    most: u64,
    made: Option<u32>,
)
    requires known { AreTested most size device.old.seats }
    requires few { most < 1000 }
    ensures { AreTested (most + 1) size device.new.seats }
{
    let given = add(rt, device, values, t, size, most);
    assert_eq!(rt; given, made, "at {t}");
}

// Checks the oldest scan of a member.
fn check_take(
    rt: &impl Abort,
    device: &mut Average,
    member: u32,
    size: usize,
    most: u64,
    scan: &[u8],
)
    requires { AreTested most size device.old.seats }
    ensures { AreTested most size device.new.seats }
{
    let (given, room) = take(rt, device, member, size, most);
    assert!(rt; given && size <= 16);
    assert_eq!(rt; &room[..size], scan);
}

// Checks the mean of two captures, at 1000 and at 2000, in the scan of a member with that mask.
fn check_mean(
    rt: &impl Abort,
    alloc: Global,
    types: &[&str],
    mask: u64,
    captures: [[i64; 3]; 2],
    want: &[u8],
) -> Result<(), Fail> {
    let size = want.len();
    let mut device = device(alloc, types, 2, size)?;
    let member = join(rt, &mut device, mask, size, 0)?;
    let [first, second] = captures;
    check_add(rt, &mut device, first, 1000, size, 0, None);
    assert_eq!(rt; device.waiting(member), Some(0));
    check_add(rt, &mut device, second, 2000, size, 1, Some(1));
    assert_eq!(rt; device.waiting(member), Some(1));
    check_take(rt, &mut device, member, size, 2, want);
    Ok(())
}

// Two captures.
const PAIR: [[i64; 3]; 2] = [[1, 2, -3], [4, 2, -4]];

// A mask, two captures, and a scan of their means.
const PAIRS: &[(u64, [[i64; 3]; 2], &[u8])] = &[
    // 2, 2 and -3, rounded towards zero.
    (5, PAIR, b"\x20\x00\xff\xfd"),
    (3, PAIR, b"\x20\x00\x02\x00"),
    (6, [[0, -128, 7], [0, -127, 8]], b"\x81\x00\x00\x07"),
    (2, [[0, 127, 0], [0, 126, 0]], b"\x7e"),
    // At the second capture's moment.
    (
        9,
        PAIR,
        b"\x20\x00\x00\x00\x00\x00\x00\x00\xd0\x07\x00\x00\x00\x00\x00\x00",
    ),
];

#[test]
fn averaged_pairs(rt: HostRuntime) -> Result<(), Fail> {
    for (mask, captures, want) in PAIRS {
        check_mean(&rt, rt.alloc(), TYPES, *mask, *captures, want)?;
    }
    Ok(())
}

const WIDE: &[&str] = &["le:s64/64>>0", "be:u63/64>>0", "le:u8/8>>0"];

// Values at the ends of 64 and of 63 bits, whose sums need more bits.
const ENDS: &[(u64, [[i64; 3]; 2], &[u8])] = &[
    (
        1,
        [[i64::MAX, 0, 0], [i64::MAX, 0, 0]],
        b"\xff\xff\xff\xff\xff\xff\xff\x7f",
    ),
    (
        1,
        [[i64::MIN, 0, 0], [i64::MIN, 0, 0]],
        b"\x00\x00\x00\x00\x00\x00\x00\x80",
    ),
    (
        1,
        [[i64::MIN, 0, 0], [i64::MAX, 0, 0]],
        b"\x00\x00\x00\x00\x00\x00\x00\x00",
    ),
    (
        2,
        [[0, i64::MAX, 0], [0, i64::MAX, 0]],
        b"\x7f\xff\xff\xff\xff\xff\xff\xff",
    ),
];

#[test]
fn ends_of_values(rt: HostRuntime) -> Result<(), Fail> {
    for (mask, captures, want) in ENDS {
        check_mean(&rt, rt.alloc(), WIDE, *mask, *captures, want)?;
    }
    Ok(())
}

// What is done at a device, and what is expected of it.
#[derive(Clone, Copy)]
enum Step {
    // Under a mask; the number that is given.
    Join(u64, u32),
    // Whether the member was there.
    Leave(u32, bool),
    // Values and their moment; how many members are offered a mean, if any is made.
    Add([i64; 3], i64, Option<u32>),
    // A member's oldest scan.
    Take(u32, &'static [u8]),
    TakeNone(u32),
    // How many scans of a member wait, and how many it lost.
    Queue(u32, Option<u32>, Option<u64>),
    HasMember(bool),
}

// Plays the steps at a device without members, whose members' scans have four bytes.
fn play(rt: &impl Abort, device: &mut Average, steps: &[Step]) -> Result<(), Fail>
    requires { AreTested 0 4 device.old.seats }
{
    let mut adds = 0u64;
    for step in steps {
        match *step {
            Step::Join(mask, number) => {
                let given = join(rt, device, mask, 4, adds)?;
                assert_eq!(rt; given, number);
            }
            Step::Leave(number, is_there) => assert_eq!(rt; device.leave(number), is_there),
            Step::Add(values, t, made) => {
                assert!(rt; adds < 1000);
                check_add(rt, device, values, t, 4, adds, made);
                adds += 1;
            }
            Step::Take(number, scan) => check_take(rt, device, number, 4, adds, scan),
            Step::TakeNone(number) => {
                let (given, _) = take(rt, device, number, 4, adds);
                assert!(rt; !given);
            }
            Step::Queue(number, waiting, lost) => {
                assert_eq!(rt;
                    (device.waiting(number), device.lost(number)),
                    (waiting, lost)
                );
            }
            Step::HasMember(has) => assert_eq!(rt; device.has_member(), has),
        }
    }
    Ok(())
}

// A second member joins within a window, and is offered that window's mean too. A full queue loses what it is offered.
const TWO_MEMBERS: &[Step] = &[
    Step::Join(5, 0),
    Step::Add([1, 2, -3], 1000, None),
    Step::Join(3, 1),
    Step::Add([4, 2, -4], 2000, Some(2)),
    Step::Take(1, b"\x20\x00\x02\x00"),
    Step::Add([8, 0, 0], 3000, None),
    Step::Add([9, 0, 0], 4000, Some(2)),
    Step::Queue(0, Some(1), Some(1)),
    Step::Queue(1, Some(1), Some(0)),
    Step::Take(0, b"\x20\x00\xff\xfd"),
    Step::Take(1, b"\x80\x00\x00\x00"),
    Step::TakeNone(1),
];

#[test]
fn two_members(rt: HostRuntime) -> Result<(), Fail> {
    let mut device = device(rt.alloc(), TYPES, 2, 4)?;
    play(&rt, &mut device, TWO_MEMBERS)
}

// When the last member leaves, the window begins anew; a free number is given again.
const WINDOW_ANEW: &[Step] = &[
    Step::HasMember(false),
    Step::Leave(0, false),
    Step::Join(5, 0),
    Step::Add([100, 0, 100], 1000, None),
    Step::Join(5, 1),
    Step::Leave(0, true),
    Step::Queue(0, None, None),
    Step::Add([100, 0, 100], 2000, None),
    Step::Leave(1, true),
    Step::Leave(1, false),
    Step::Join(5, 0),
    Step::Add([1, 0, -1], 3000, None),
    Step::Add([1, 0, -1], 4000, None),
    Step::Add([6, 0, 0], 5000, Some(1)),
    Step::Take(0, b"\x20\x00\x00\x00"),
];

#[test]
fn window_anew(rt: HostRuntime) -> Result<(), Fail> {
    let mut device = device(rt.alloc(), TYPES, 3, 4)?;
    play(&rt, &mut device, WINDOW_ANEW)
}
