//! Descriptions: refused lines, and the largest number of each kind of line.

ghost use Rattle.std.specs.Prelude.{◌+◌, ◌-◌, ◌^◌, ◌<◌, ◌≤◌};
ghost use Rattle.iio_desc.specs.DescReader.{line_count};

use crate::tests::devices::ADC;
use crate::tests::playing::{check_play, joined, push, push_many, push_numbered};
use iio_desc::{Desc, DescFault, DescReader, read_desc};
use iio_text::Why;
use std::alloc::Global;
use std::process::Abort;
use std::test::Fail;

const HEAD: &str = "trigger t0 8\ndevice adc0 t0\nchannel voltage0 le:u12/16>>4\n";

const OUT: &str = "trigger t0 8\noutput dac0 t0\nchannel voltage0 le:u16/16>>0\n";

const AVG: &str = "device adc0 -\nchannel voltage0 le:u12/16>>4\naverage avg0 adc0 2\n";

// Lines, and how they are refused: for each line of the table, each of its checks in order.
type Refused = &'static [(&'static str, &'static str)];

const REFUSED: Refused = &[
    ("context \"a\\x7\"\n\tx\n", "refused 1 text\n"),
    (" # x\n", "refused 1 word\n"),
    ("Trigger t0 2\n", "refused 1 word\n"),
    ("Trigger\t\n", "refused 1 text\n"),
    ("context\n", "refused 1 count\n"),
    ("context \"a\\q\"\n", "refused 1 text\n"),
    ("context \"x\" \n", "refused 1 text\n"),
    ("trigger t0\n", "refused 1 count\n"),
    ("trigger 0t 9\n", "refused 1 name\n"),
    ("trigger t0 9\n", "refused 1 number\n"),
    (
        "trigger t12345678901234567890123456789012 2\n",
        "refused 1 name\n",
    ),
    ("trigger t0 0\n", "refused 1 number\n"),
    ("trigger t0 257\n", "refused 1 number\n"),
    ("trigger t0 02\n", "refused 1 number\n"),
    ("trigger\tt0 2\n", "refused 1 text\n"),
    ("trigger t0 2\r\n", "refused 1 text\n"),
    ("device a\n", "refused 1 count\n"),
    ("device _a t\n", "refused 1 name\n"),
    ("device a t\n", "refused 1 trigger\n"),
    ("channel\n", "refused 1 order\n"),
    ("driver 0\n", "refused 1 order\n"),
    ("output a\n", "refused 1 count\n"),
    ("output a - x\n", "refused 1 count\n"),
    ("output _a t\n", "refused 1 name\n"),
    ("output a t\n", "refused 1 trigger\n"),
    ("average\n", "refused 1 count\n"),
    ("average _b a\n", "refused 1 count\n"),
    ("average _b a 1 x\n", "refused 1 count\n"),
    ("average _b a 1\n", "refused 1 name\n"),
    ("average b a 1\n", "refused 1 device\n"),
];

const REFUSED_AFTER_HEAD: Refused = &[
    ("device b -\n", "refused 5 order\n"),
    ("trigger adc0 1\n", "refused 4 taken\n"),
    ("channel volt\n", "refused 4 count\n"),
    ("channel volt x\n", "refused 4 name\n"),
    ("channel voltage00 x\n", "refused 4 name\n"),
    ("channel timestamp le:s64/64>>0\n", "refused 4 name\n"),
    ("channel voltage0 x\n", "refused 4 taken\n"),
    ("channel voltage1 le:u12\n", "refused 4 type\n"),
    ("channel voltage1 le:u12/16>>04\n", "refused 4 type\n"),
    ("channel voltage1 le:u12/16>>8\n", "refused 4 type\n"),
    ("channel voltage1 le:s32/32X8>>0\n", "refused 4 type\n"),
    (
        "timestamp\nchannel voltage1 le:u8/8>>0\n",
        "refused 5 order\n",
    ),
    ("timestamp x y\n", "refused 4 count\n"),
    ("timestamp x\n", "refused 4 type\n"),
    ("timestamp\ntimestamp\n", "refused 5 order\n"),
    ("masks 00000001\nmasks\n", "refused 5 order\n"),
    ("row 0 1\nmasks\n", "refused 5 order\n"),
    ("masks\n", "refused 4 count\n"),
    ("masks 1\n", "refused 4 mask\n"),
    ("masks 0000000g\n", "refused 4 mask\n"),
    ("masks 00000000\n", "refused 4 mask\n"),
    ("timestamp\nmasks 00000003\n", "refused 5 mask\n"),
    ("timestamp\nmasks 00000001 00000002\n", "refused 5 mask\n"),
    (
        "masks 00000001 00000001 00000001 00000001 00000001 00000001 00000001 00000001 00000001 00000001 00000001 00000001 00000001 00000001 00000001 00000001 00000001\n",
        "refused 4 limit\n",
    ),
    ("row x\n", "refused 4 count\n"),
    ("row x 1 y\n", "refused 4 count\n"),
    ("row x y\n", "refused 4 number\n"),
    ("row 5 1\nrow 5 y\n", "refused 5 moment\n"),
    ("row 5 y\n", "refused 4 number\n"),
    ("row -05 1\n", "refused 4 number\n"),
    ("row 0 -0\n", "refused 4 number\n"),
    ("row 0 9223372036854775808\n", "refused 4 number\n"),
    (
        "attr - sampling_frequency 5\nmasks 00000001\n",
        "refused 5 order\n",
    ),
    ("row 0 1\ndriver\n", "refused 5 order\n"),
    ("driver 0\ndriver 1\n", "refused 5 order\n"),
    ("driver 0\nrow 0 1\n", "refused 5 order\n"),
    ("driver 0\nmasks 00000001\n", "refused 5 order\n"),
    ("driver\n", "refused 4 count\n"),
    ("driver 4 x\n", "refused 4 count\n"),
    ("driver 4\n", "refused 4 driver\n"),
    ("driver -1\n", "refused 4 driver\n"),
    ("driver 00\n", "refused 4 driver\n"),
    (
        "driver 3\ndevice b -\nchannel temp le:s8/8\ndriver 3\n",
        "refused 7 driver\n",
    ),
    ("attr - name\n", "refused 4 count\n"),
    ("attr voltage1 scale 1\n", "refused 4 attr\n"),
    ("timestamp\nattr timestamp scale 1\n", "refused 5 attr\n"),
    ("attr - scale 1\n", "refused 4 attr\n"),
    ("attr voltage0 sampling_frequency 1\n", "refused 4 attr\n"),
    ("attr - length 1\n", "refused 4 attr\n"),
    ("attr - name x\n", "refused 4 attr\n"),
    ("attr voltage0 raw 1\n", "refused 4 attr\n"),
    ("attr voltage0 scale x\n", "refused 4 attr\n"),
    ("attr voltage0 offset 2147483648\n", "refused 4 attr\n"),
    ("attr voltage0 thresh_rising_en 2\n", "refused 4 attr\n"),
    (
        "attr - sampling_frequency 5\nchannel temp le:s8/8\n",
        "refused 5 order\n",
    ),
    ("output adc0 t\n", "refused 4 taken\n"),
    ("average t0 a 1\n", "refused 4 taken\n"),
    ("average adc0 a 1\n", "refused 4 taken\n"),
    ("average b t0 1\n", "refused 4 device\n"),
    ("average b b 1\n", "refused 4 device\n"),
    (
        "average b a 2\ndevice a -\nchannel temp le:s8/8\n",
        "refused 4 device\n",
    ),
    ("average b adc0 0\n", "refused 4 number\n"),
    ("average b adc0 1\n", "refused 4 number\n"),
    ("average b adc0 1001\n", "refused 4 number\n"),
    ("average b adc0 -2\n", "refused 4 number\n"),
    ("average b adc0 02\n", "refused 4 number\n"),
    ("average b adc0 4294967298\n", "refused 4 number\n"),
    ("%% x\n", "refused 4 count\n"),
    ("%%\tx\n", "refused 4 text\n"),
];

const REFUSED_AFTER_OUT: Refused = &[
    ("output dac0 t\n", "refused 4 taken\n"),
    ("device dac0 t\n", "refused 4 taken\n"),
    ("trigger dac0 1\n", "refused 4 taken\n"),
    (
        "output b -\nchannel temp le:s8/8\ntrigger dac0 1\n",
        "refused 6 taken\n",
    ),
    ("channel\n", "refused 4 count\n"),
    ("channel volt x\n", "refused 4 name\n"),
    ("channel voltage0 x\n", "refused 4 taken\n"),
    ("channel voltage1 le:u12\n", "refused 4 type\n"),
    ("timestamp x y\n", "refused 4 order\n"),
    ("masks\n", "refused 4 order\n"),
    ("row\n", "refused 4 order\n"),
    ("driver\n", "refused 4 order\n"),
    ("attr\n", "refused 4 order\n"),
    ("average dac0 a 1\n", "refused 4 taken\n"),
    ("average b dac0 1\n", "refused 4 device\n"),
    (
        "device a -\nchannel temp le:s8/8\naverage b dac0 1\n",
        "refused 6 device\n",
    ),
];

const REFUSED_AFTER_AVG: Refused = &[
    ("average avg0 a 1\n", "refused 4 taken\n"),
    ("device avg0 t\n", "refused 4 taken\n"),
    ("output avg0 t\n", "refused 4 taken\n"),
    ("trigger avg0 9\n", "refused 4 taken\n"),
    ("average b avg0 1\n", "refused 4 device\n"),
    ("channel\n", "refused 4 order\n"),
    ("timestamp x y\n", "refused 4 order\n"),
    ("masks\n", "refused 4 order\n"),
    ("row\n", "refused 4 order\n"),
    ("driver\n", "refused 4 order\n"),
    ("attr\n", "refused 4 order\n"),
    ("%% x\n", "refused 4 count\n"),
];

// Other lines, lines after these, and how they are refused.
const REFUSED_ELSE: &[(&str, &str, &str)] = &[
    ("# \t\n\n  \n", "frobnicate\n", "refused 4 word\n"),
    ("context \"\"\n", "context\n", "refused 2 order\n"),
    ("trigger t0 1\n", "trigger t0 9\n", "refused 2 taken\n"),
    ("trigger t0 1\n", "device t0 t\n", "refused 2 taken\n"),
    ("trigger t0 1\n", "output t0 t\n", "refused 2 taken\n"),
    ("device a -\n", "device b\n", "refused 2 order\n"),
    ("device a -\n", "timestamp x y\n", "refused 2 order\n"),
    ("device a -\n", "masks\n", "refused 2 order\n"),
    ("device a -\n", "row\n", "refused 2 order\n"),
    ("device a -\n", "attr\n", "refused 2 order\n"),
    ("device a -\n", "output b\n", "refused 2 order\n"),
    ("device a -\n", "average b\n", "refused 2 order\n"),
    ("device a -\n", "%% x\n", "refused 2 order\n"),
    ("device a -\n", "", "refused 2 order\n"),
    ("output a -\n", "output b\n", "refused 2 order\n"),
    ("output a -\n", "device b\n", "refused 2 order\n"),
    ("output a -\n", "timestamp\n", "refused 2 order\n"),
    ("output a -\n", "%%\n", "refused 2 order\n"),
    ("output a -\n", "average b\n", "refused 2 order\n"),
    (
        "trigger t0 2\ndevice adc0 t0\n",
        "channel voltage0 le:u12/16>>8\nchannel voltage1 le:u12/16>>4\n%%\n",
        "refused 3 type\n",
    ),
    (ADC, "%%\nA \"VERSION", "refused 9 text\n"),
];

fn check_refused(
    rt: &impl Abort,
    alloc: Global,
    head: &'static str,
    rows: Refused,
) -> Result<(), Fail> {
    for (lines, printed) in rows {
        let text = joined(alloc, &[head, lines])?;
        check_play(rt, alloc, lines, text, printed.as_bytes(), 1)?;
    }
    Ok(())
}

#[test]
fn refused_lines(rt: HostRuntime) -> Result<(), Fail> {
    check_refused(&rt, rt.alloc(), "", REFUSED)?;
    check_refused(&rt, rt.alloc(), HEAD, REFUSED_AFTER_HEAD)?;
    check_refused(&rt, rt.alloc(), OUT, REFUSED_AFTER_OUT)?;
    check_refused(&rt, rt.alloc(), AVG, REFUSED_AFTER_AVG)?;
    for (head, lines, printed) in REFUSED_ELSE {
        let text = joined(rt.alloc(), &[head, lines])?;
        check_play(&rt, rt.alloc(), lines, text, printed.as_bytes(), 1)?;
    }
    Ok(())
}

/// A first text, the number of numbered lines after it, what comes before and after the number in them, a further line, and
/// how that is refused, if it is: triggers, devices, channels.
const FULL: &[(&str, u32, &str, &str, &str, &str)] = &[
    ("", 16, "trigger t", " 1\n", "", ""),
    (
        "",
        16,
        "trigger t",
        " 1\n",
        "trigger t16 1\n",
        "refused 17 limit\n",
    ),
    (
        "",
        16,
        "trigger t",
        " 1\n",
        "trigger t16 9\n",
        "refused 17 number\n",
    ),
    ("", 16, "device d", " -\nchannel temp le:s8/8\n", "", ""),
    (
        "",
        16,
        "device d",
        " -\nchannel temp le:s8/8\n",
        "device d16 -\n",
        "refused 33 limit\n",
    ),
    (
        "",
        16,
        "device d",
        " -\nchannel temp le:s8/8\n",
        "device d16 t\n",
        "refused 33 trigger\n",
    ),
    ("", 16, "output d", " -\nchannel temp le:s8/8\n", "", ""),
    (
        "",
        16,
        "output d",
        " -\nchannel temp le:s8/8\n",
        "output d16 -\n",
        "refused 33 limit\n",
    ),
    (
        "device a -\nchannel temp le:s8/8\n",
        15,
        "output d",
        " -\nchannel temp le:s8/8\n",
        "device d15 -\n",
        "refused 33 limit\n",
    ),
    (
        "output a -\nchannel temp le:s8/8\n",
        15,
        "device d",
        " -\nchannel temp le:s8/8\n",
        "output d15 -\n",
        "refused 33 limit\n",
    ),
    (
        "device a -\nchannel temp le:s8/8\n",
        15,
        "average m",
        " a 2\n",
        "",
        "",
    ),
    (
        "device a -\nchannel temp le:s8/8\n",
        15,
        "average m",
        " a 2\n",
        "average m15 a 1000\n",
        "refused 18 limit\n",
    ),
    (
        "device a -\nchannel temp le:s8/8\n",
        15,
        "average m",
        " a 2\n",
        "average m15 a 1001\n",
        "refused 18 number\n",
    ),
    (
        "device a -\nchannel temp le:s8/8\n",
        15,
        "average m",
        " a 2\n",
        "device d15 -\n",
        "refused 18 limit\n",
    ),
    (
        "device a -\nchannel temp le:s8/8\naverage m a 2\n",
        14,
        "output d",
        " -\nchannel temp le:s8/8\n",
        "average m15 a 2\n",
        "refused 32 limit\n",
    ),
    ("output d -\n", 64, "channel voltage", " le:u8/8\n", "", ""),
    (
        "output d -\n",
        64,
        "channel voltage",
        " le:u8/8\n",
        "channel temp le:u8/8\n",
        "refused 66 limit\n",
    ),
    ("device d -\n", 64, "channel voltage", " le:u8/8\n", "", ""),
    (
        "device d -\n",
        64,
        "channel voltage",
        " le:u8/8\n",
        "channel temp le:u8/8\n",
        "refused 66 limit\n",
    ),
    (
        "device d -\n",
        64,
        "channel voltage",
        " le:u8/8\n",
        "channel temp le:u8/9\n",
        "refused 66 type\n",
    ),
    (
        "device d -\n",
        64,
        "channel voltage",
        " le:u8/8\n",
        "timestamp\n",
        "refused 66 limit\n",
    ),
];

// Makes a text with that many numbered lines between a first text and a further line.
fn full_text(
    alloc: Global,
    head: &str,
    count: u32,
    parts: (&str, &str),
    further: &str,
) -> Result<Vec<u8>, Fail> {
    let (first, last) = parts;
    let mut text = joined(alloc, &[head])?;
    for number in 0..count {
        push_numbered(alloc, &mut text, first, number, last)?;
    }
    push(&mut text, further)?;
    Ok(text)
}

#[test]
fn full_descriptions(rt: HostRuntime) -> Result<(), Fail> {
    for (head, count, first, last, further, printed) in FULL {
        let text = full_text(rt.alloc(), head, *count, (*first, *last), further)?;
        let status = if printed.is_empty() { 0 } else { 1 };
        check_play(&rt, rt.alloc(), further, text, printed.as_bytes(), status)?;
    }
    Ok(())
}

/// What comes before a line, the number of its bytes, what is printed, and the status.
const LONG: &[(&str, usize, &str, u8)] = &[
    ("", 1_048_576, "", 0),
    ("", 1_048_577, "refused 1 long\n", 1),
    ("%%\n", 1_048_576, "", 0),
    ("%%\n", 1_048_577, "refused 2 long\n", 1),
];

// A line may have 1,048,576 bytes.
#[test]
fn long_lines_are_refused(rt: HostRuntime) -> Result<(), Fail> {
    for (head, len, printed, status) in LONG {
        let mut text = joined(rt.alloc(), &[head])?;
        push_many(rt.alloc(), &mut text, b'#', *len)?;
        check_play(&rt, rt.alloc(), head, text, printed.as_bytes(), *status)?;
    }
    Ok(())
}

// Returns a reader's answer to a line. The contract says nothing of what the line means.
fn answer_to(reader: &mut DescReader, line: &[u8]) -> Result<(), DescFault>
    requires { line_count reader.old < 2 ^ 32 - 2 }
    ensures { line_count reader.new ≤ line_count reader.old + 1 }
{
    reader.line(line)
}

// Makes a description of devices of each kind, in mixed order.
fn described_by_each_kind(alloc: Global) -> Result<Desc, DescFault> {
    read_desc(
        alloc,
        b"device a -
channel voltage le:s8/8
average m a 2
output o -
channel temp le:s8/8
device b -
channel temp le:s8/8
average n b 1000
",
        0,
    )
}

// Returns the base of an averaging device, and the number of captures that make a mean.
fn averaged(desc: &Desc, number: usize) -> Option<(u32, u32)> {
    match desc.averages.get(number) {
        None => None,
        Some(average) => Some((average.base, average.window)),
    }
}

fn check_numbers(rt: &impl Abort, desc: &Desc) {
    for (name, number) in [(b"a", 0), (b"b", 1), (b"o", 2), (b"m", 3), (b"n", 4)] {
        assert_eq!(rt; desc.find_device(name), Some(number));
    }
    assert_eq!(rt; averaged(desc, 0), Some((0, 2)));
    assert_eq!(rt; averaged(desc, 1), Some((1, 1000)));
}

// A device keeps its number whatever lines come between; output devices
// are numbered after all input devices, and averaging devices last.
#[test]
fn devices_are_numbered_by_kind(rt: HostRuntime) -> Result<(), Fail> {
    let desc = described_by_each_kind(rt.alloc())?;
    check_numbers(&rt, &desc);
    Ok(())
}

// After the first fault of a description, each later line has the same answer.
#[test]
fn refused_description_stays_refused(rt: HostRuntime) -> Result<(), Fail> {
    let refused = DescFault::Line {
        number: 1,
        why: Why::Word,
    };
    let mut reader = DescReader::new(rt.alloc(), 0)?;
    let first = answer_to(&mut reader, b"x");
    let second = answer_to(&mut reader, b"trigger t0 2");
    assert_eq!(rt; (first, second), (Err(refused), Err(refused)));
    Ok(())
}
