//! Writers, and what a device is given. Expected values are by hand, after the layout of docs/FORMATS.md.
ghost use Rattle.std.specs.Prelude.{◌≡◌, ◌≤◌, ◌<◌, ◌^◌, length, IfOk};
ghost use Rattle.iio_layout.specs.Shape.{count_of};

use crate::tests::fixtures::voltage;
use iio_layout::{Channel, Direction, Shape, scan_size};
use iio_mask::Mask;
use iio_output::{Next, Out, OutFault, Wrote};
use std::alloc::Global;
use std::process::Abort;
use std::test::Fail;

// What is done at a device, and what is expected of it.
#[derive(Clone, Copy)]
enum Step {
    // Under a mask, with a capacity, cyclic or not.
    Start(u64, u32, bool, Result<(), OutFault>),
    Write(&'static [u8], Wrote),
    Given(&'static [u8]),
    Underrun,
    Waiting(u32),
    // Of both channels.
    Last(i64, i64),
    Mask(Option<Mask>),
    Stop,
}

fn output(number: u16, ty: &str) -> Result<Channel, Fail> {
    let mut output = voltage(number, ty)?;
    output.direction = Direction::Output;
    Ok(output)
}

// A device with voltage0 and voltage1.
fn two_voltages(alloc: Global) -> Result<Out, Fail>
    ensures { IfOk result (λ o. length o.shape.channels ≡ 2) }
{
    let first = output(0, "le:u16/16>>0")?;
    let second = output(1, "be:s12/16X2>>4")?;
    let channels = vec![in alloc; first, second]?;
    let shape = Shape::new(channels, None, Vec::new(alloc)).ok_or("no shape")?;
    Ok(Out::new(alloc, shape)?)
}

// Starts a writer of the channels of the mask, which has at least one of the first two.
fn start(
    rt: &impl Abort,
    device: &mut Out,
    mask: u64,
    capacity: u32,
    cyclic: bool,
) -> Result<(), OutFault>
    requires { length device.old.shape.channels ≡ 2 }
    ensures { length device.new.shape.channels ≡ 2 }
{
    let mask = Mask { bits: mask };
    assert!(rt; device.shape().count() == 2);
    assert!(rt; mask.contains(0) || mask.contains(1));
    assert!(rt; mask.bits < 4 && 1 <= capacity);
    let size = scan_size(device.shape(), mask);
    assert!(rt; u64::from(capacity) * u64::from(size) <= 4_194_304);
    device.start(mask, capacity, cyclic)
}

// Gives the device its next scan, in the first bytes of the room.
fn next(rt: &impl Abort, device: &mut Out) -> (Next, usize, [u8; 8])
    requires { length device.old.shape.channels ≡ 2 }
    ensures { length device.new.shape.channels ≡ 2 }
{
    let mut room = [0xee; 8];
    let Some(mask) = device.mask() else {
        assert!(rt; false);
        return (Next::Underrun, 0, room);
    };
    let size = scan_size(device.shape(), mask) as usize;
    assert!(rt; size <= 8);
    let answer = device.next(&mut room[..size]);
    (answer, size, room)
}

// Plays the steps, and checks after each of them how many underruns there were since the last start.
fn play(rt: &impl Abort, device: &mut Out, steps: &[Step])
    requires { length device.old.shape.channels ≡ 2 }
{
    let mut underruns = 0u64;
    for step in steps {
        match *step {
            Step::Start(mask, capacity, cyclic, want) => {
                assert_eq!(rt; start(rt, device, mask, capacity, cyclic), want);
                if want.is_ok() {
                    underruns = 0;
                }
            }
            Step::Write(bytes, want) => {
                assert!(rt; device.mask().is_some());
                assert_eq!(rt; device.write(bytes), want);
            }
            Step::Given(want) => {
                let (answer, size, room) = next(rt, device);
                assert!(rt; size <= 8);
                assert_eq!(rt; (answer, &room[..size]), (Next::Given, want));
            }
            Step::Underrun => {
                let (answer, _, room) = next(rt, device);
                assert_eq!(rt; (answer, room), (Next::Underrun, [0xee; 8]));
                underruns = underruns.saturating_add(1);
            }
            Step::Waiting(want) => assert_eq!(rt; device.waiting(), want),
            Step::Last(first, second) => {
                assert_eq!(rt; (device.last(0), device.last(1)), (first, second));
            }
            Step::Mask(want) => assert_eq!(rt; device.mask(), want),
            Step::Stop => device.stop(),
        }
        assert_eq!(rt; device.underruns(), underruns);
    }
}

// Plays each row at a device of its own.
fn play_all(rt: &impl Abort, alloc: Global, rows: &[&[Step]]) -> Result<(), Fail> {
    for steps in rows {
        let mut device = two_voltages(alloc)?;
        play(rt, &mut device, steps);
    }
    Ok(())
}

// A writer of voltage0, whose scans have two bytes, and of which at most two wait.
const PLAIN: Step = Step::Start(1, 2, false, Ok(()));

const CYCLIC: Step = Step::Start(1, 2, true, Ok(()));

// Scans are given in order, and then comes an underrun. The first scans that fit are taken, and none of a payload that isn't
// whole scans, even if no scan fits.
const PLAYBACK: &[&[Step]] = &[
    &[
        PLAIN,
        Step::Write(b"\x01\x00\x02\x00", Wrote::Bytes(4)),
        Step::Waiting(2),
        Step::Given(b"\x01\x00"),
        Step::Given(b"\x02\x00"),
        Step::Waiting(0),
        Step::Underrun,
    ],
    &[
        PLAIN,
        Step::Write(b"", Wrote::Bytes(0)),
        Step::Write(b"\x01", Wrote::BadSize),
        Step::Underrun,
        Step::Write(b"\x01\x00\x02\x00\x03\x00", Wrote::Bytes(4)),
        Step::Write(b"\x04\x00", Wrote::Full),
        Step::Write(b"", Wrote::Bytes(0)),
        Step::Write(b"\x04\x00\x05", Wrote::BadSize),
        Step::Given(b"\x01\x00"),
        Step::Write(b"\x06\x00\x07\x00", Wrote::Bytes(2)),
        Step::Given(b"\x02\x00"),
        Step::Given(b"\x06\x00"),
        Step::Underrun,
    ],
    &[PLAIN, Step::Waiting(0), Step::Underrun, Step::Underrun],
];

#[test]
fn playback(rt: HostRuntime) -> Result<(), Fail> {
    play_all(&rt, rt.alloc(), PLAYBACK)
}

// A cycle is given round and round, and written once. It has at least one scan, and at most as many as the capacity.
const CYCLES: &[&[Step]] = &[
    &[
        CYCLIC,
        Step::Write(b"\x01\x00\x02\x00", Wrote::Bytes(4)),
        Step::Given(b"\x01\x00"),
        Step::Given(b"\x02\x00"),
        Step::Given(b"\x01\x00"),
        Step::Waiting(2),
        Step::Write(b"\x03\x00\x04\x00", Wrote::Standing),
        Step::Given(b"\x02\x00"),
    ],
    &[
        CYCLIC,
        Step::Underrun,
        Step::Write(b"", Wrote::BadSize),
        Step::Write(b"\x01\x00\x02", Wrote::BadSize),
        Step::Write(b"\x01\x00\x02\x00\x03\x00", Wrote::BadSize),
        Step::Waiting(0),
        Step::Write(b"\x08\x00", Wrote::Bytes(2)),
        Step::Given(b"\x08\x00"),
        Step::Given(b"\x08\x00"),
        Step::Write(b"", Wrote::BadSize),
        Step::Write(b"\x09\x00", Wrote::Standing),
        Step::Given(b"\x08\x00"),
    ],
];

#[test]
fn cyclic_writers(rt: HostRuntime) -> Result<(), Fail> {
    play_all(&rt, rt.alloc(), CYCLES)
}

// Element 0 of each channel, in the last scan given that has the channel. Under both channels voltage1 stands at byte 4.
const LAST: &[&[Step]] = &[&[
    Step::Last(0, 0),
    Step::Start(3, 1, false, Ok(())),
    Step::Write(b"\x01\x02\xff\xff\x80\x0f\x00\x10", Wrote::Bytes(8)),
    Step::Last(0, 0),
    Step::Given(b"\x01\x02\xff\xff\x80\x0f\x00\x10"),
    Step::Underrun,
    Step::Last(0x201, -2048),
    Step::Stop,
    Step::Start(2, 1, true, Ok(())),
    Step::Write(b"\x7f\xf0\x00\x00", Wrote::Bytes(4)),
    Step::Given(b"\x7f\xf0\x00\x00"),
    Step::Last(0x201, 2047),
]];

#[test]
fn last_of_each_channel(rt: HostRuntime) -> Result<(), Fail> {
    play_all(&rt, rt.alloc(), LAST)
}

// There is one writer at a time; its end drops what waits, and the next one's underruns are counted from 0 again.
const ONE_WRITER: &[&[Step]] = &[&[
    Step::Mask(None),
    Step::Waiting(0),
    Step::Stop,
    Step::Start(1, 65_536, false, Ok(())),
    Step::Start(2, 1, true, Err(OutFault::Busy)),
    Step::Mask(Some(Mask { bits: 1 })),
    Step::Underrun,
    Step::Write(b"\x01\x00\x02\x00", Wrote::Bytes(4)),
    Step::Given(b"\x01\x00"),
    Step::Stop,
    Step::Mask(None),
    Step::Waiting(0),
    Step::Start(2, 1, true, Ok(())),
    Step::Waiting(0),
    Step::Last(1, 0),
]];

#[test]
fn one_writer_at_a_time(rt: HostRuntime) -> Result<(), Fail> {
    play_all(&rt, rt.alloc(), ONE_WRITER)
}
