//! The words `layout DEVICE MASK`.

ghost use Rattle.std.specs.Prelude.{◌≤◌};

use crate::tests::playing::{joined, outcome, run_words, sink, source};
use iio_io::{MemSource, read_whole};
use iio_script::Status;
use std::alloc::Global;
use std::process::Abort;
use std::test::Fail;

/// A trigger, and a device with three channels and a timestamp, in six lines.
const ADC0: &[u8] =
    b"trigger t0 2\ndevice adc0 t0\nchannel voltage0 le:u12/16>>4\nchannel voltage1 le:u12/16>>4\nchannel accel_x be:s16/16>>0\ntimestamp\n";

/// Masks of that device, and what is printed for them.
const LAYOUTS: &[(&str, &[u8])] = &[
    (
        "00000009",
        b"voltage0 0 2 le:u12/16>>4\ntimestamp 8 8 le:s64/64>>0\nscan 16\n",
    ),
    (
        "0000000f",
        b"voltage0 0 2 le:u12/16>>4\nvoltage1 2 2 le:u12/16>>4\naccel_x 4 2 be:s16/16>>0\ntimestamp 8 8 le:s64/64>>0\nscan 16\n",
    ),
    (
        "00000006",
        b"voltage1 0 2 le:u12/16>>4\naccel_x 2 2 be:s16/16>>0\nscan 4\n",
    ),
    ("00000008", b"timestamp 0 8 le:s64/64>>0\nscan 8\n"),
    ("00000000", b"scan 0\n"),
];

/// What comes after the description.
const ENDINGS: &[&[u8]] = &[
    b"",
    b"%%",
    b" %% \n",
    b"row 0 1 2 3\n%%\nno line of a description \x00\n",
];

// Returns what is printed for a mask of adc0, whose description has this ending, and the status.
fn laid(alloc: Global, mask: &str, ending: &[u8]) -> Result<(Vec<u8>, Status), Fail> {
    let mut text = ADC0.to_vec(alloc)?;
    text.extend_from_slice(ending)?;
    let mut input = MemSource::new(text, 7, Vec::new(alloc));
    outcome(alloc, &["layout", "adc0", mask], &mut input)
}

#[test]
fn layouts_are_printed(rt: HostRuntime) -> Result<(), Fail> {
    for (mask, lines) in LAYOUTS {
        for ending in ENDINGS {
            let (printed, status) = laid(rt.alloc(), mask, ending)?;
            assert!(rt;
                printed.as_slice() == *lines && status == Status::Done,
                "{mask}"
            );
        }
    }
    Ok(())
}

/// A description, a device, a mask, and what is printed for them, with the exit code.
const ENDS: &[(&[u8], &str, &str, &[u8], u8)] = &[
    (ADC0, "adc0", "5", b"refused 0 mask\n", 1),
    (ADC0, "adc0", "", b"refused 0 mask\n", 1),
    (ADC0, "adc0", "00000010", b"refused 0 mask\n", 1),
    (ADC0, "adc0", "0000000g", b"refused 0 mask\n", 1),
    (ADC0, "adc1", "00000009", b"refused 0 device\n", 1),
    (ADC0, "adc1", "5", b"refused 0 device\n", 1),
    (ADC0, "t0", "00000009", b"refused 0 device\n", 1),
    (b"", "adc0", "00000009", b"refused 0 device\n", 1),
    (b"%%\n", "adc0", "5", b"refused 0 device\n", 1),
    // An output device has no layout here.
    (
        b"output dac0 -\nchannel temp le:s8/8\n",
        "dac0",
        "00000001",
        b"refused 0 device\n",
        1,
    ),
    // Neither has an averaging device: its scans are laid out like its base's.
    (
        b"device d -\nchannel temp le:s8/8\naverage avg0 d 2\n",
        "avg0",
        "00000001",
        b"refused 0 device\n",
        1,
    ),
    (
        b"device d -\nchannel temp le:s8/8\naverage avg0 d 2\n",
        "d",
        "00000001",
        b"temp 0 1 le:s8/8>>0\nscan 1\n",
        0,
    ),
    (
        b"output dac0 -\nchannel temp le:s8/8\ndevice d -\nchannel magn_x le:s16/16\n",
        "d",
        "00000001",
        b"magn_x 0 2 le:s16/16>>0\nscan 2\n",
        0,
    ),
    (b"%% more\n", "adc0", "5", b"refused 1 count\n", 1),
    (
        b"# a comment\n\nchannel\n",
        "adc0",
        "5",
        b"refused 3 order\n",
        1,
    ),
    (b"trigger t\n", "adc0", "5", b"refused 1 count\n", 1),
    (b"trigger t 9\n%%\n", "adc0", "5", b"refused 1 number\n", 1),
    (
        b"trigger t 1\ndevice d t\n",
        "d",
        "5",
        b"refused 3 order\n",
        1,
    ),
    (
        b"trigger t 1\ndevice d t\n%%\n",
        "d",
        "5",
        b"refused 3 order\n",
        1,
    ),
    (
        b"trigger t 1\ndevice d t\nchannel temp le:s8/8\n\t\n%%\n",
        "d",
        "00000001",
        b"refused 4 text\n",
        1,
    ),
    (
        b"trigger t 1\ndevice d t\nchannel temp le:s8/8X1\n",
        "d",
        "00000001",
        b"refused 3 type\n",
        1,
    ),
    (
        b"trigger t 1\ndevice d -\nchannel temp le:s8/8\nchannel magn_x be:u24/32X2>>8\nchannel current65535 le:s16/16\ntimestamp be\n",
        "d",
        "0000000F",
        b"temp 0 1 le:s8/8>>0\nmagn_x 8 8 be:u24/32X2>>8\ncurrent65535 16 2 le:s16/16>>0\ntimestamp 24 8 be:s64/64>>0\nscan 32\n",
        0,
    ),
];

// Checks what `layout` prints for a description, and the exit code.
fn check_layout(
    rt: &impl Abort,
    alloc: Global,
    names: (&str, &str),
    text: &[u8],
    printed: &[u8],
    status: u8,
) -> Result<(), Fail> {
    let mut input = source(alloc, text, 1000, &[])?;
    let (found, ended) = outcome(alloc, &["layout", names.0, names.1], &mut input)?;
    assert_eq!(rt; found.as_slice(), printed);
    assert_eq!(rt; ended.code(), status);
    Ok(())
}

#[test]
fn layouts_are_refused(rt: HostRuntime) -> Result<(), Fail> {
    for (text, device, mask, printed, status) in ENDS {
        check_layout(&rt, rt.alloc(), (*device, *mask), text, printed, *status)?;
    }
    Ok(())
}

/// A channel of four elements of four bytes.
const QUATERNION: &[u8] =
    b"trigger t0 2\ndevice q t0\nchannel accel_x le:s32/32X4>>0\ntimestamp\nrow 0 1 2 3 -1\n";

/// A channel's type, what `layout` prints for that channel alone, and the exit code.
const SPELLINGS: &[(&str, &[u8], u8)] = &[
    ("be:u12/16", b"voltage0 0 2 be:u12/16>>0\nscan 2\n", 0),
    (
        "le:s32/32X2>>0",
        b"voltage0 0 8 le:s32/32X2>>0\nscan 8\n",
        0,
    ),
    (
        "le:s32/32X4>>0",
        b"voltage0 0 16 le:s32/32X4>>0\nscan 16\n",
        0,
    ),
    (
        "le:s64/64X2>>0",
        b"voltage0 0 16 le:s64/64X2>>0\nscan 16\n",
        0,
    ),
    ("be:u16/16X8", b"voltage0 0 16 be:u16/16X8>>0\nscan 16\n", 0),
    ("le:s64/64X4>>0", b"refused 2 type\n", 1),
    ("le:s32/32X8>>0", b"refused 2 type\n", 1),
    ("le:s32/32X1>>0", b"refused 2 type\n", 1),
    ("le:u64/64>>0", b"refused 2 type\n", 1),
];

#[test]
fn spellings(rt: HostRuntime) -> Result<(), Fail> {
    for (ty, printed, status) in SPELLINGS {
        let text = joined(rt.alloc(), &["device d -\nchannel voltage0 ", ty, "\n"])?;
        let names = ("d", "00000001");
        check_layout(&rt, rt.alloc(), names, text.as_slice(), printed, *status)?;
    }
    check_layout(
        &rt,
        rt.alloc(),
        ("q", "00000003"),
        QUATERNION,
        b"accel_x 0 16 le:s32/32X4>>0\ntimestamp 16 8 le:s64/64>>0\nscan 32\n",
        0,
    )
}

// Returns the status of a layout whose reads are of one byte each and one of which fails, and whether nothing is printed.
fn status_without(alloc: Global, text: &[u8], failing: u64) -> Result<(Status, bool), Fail> {
    let mut input = source(alloc, text, 1, &[failing])?;
    let (printed, status) = outcome(alloc, &["layout", "adc0", "00000009"], &mut input)?;
    Ok((status, printed.is_empty()))
}

// With one byte per read, each read up to the end line fails in turn. Nothing is read after that line.
#[test]
fn failing_reads_end_the_layout(rt: HostRuntime) -> Result<(), Fail> {
    let mut text = ADC0.to_vec(rt.alloc())?;
    text.extend_from_slice(b"%%\n")?;
    let reads = text.len() as u64;
    for failing in 1..=reads {
        let ended = status_without(rt.alloc(), text.as_slice(), failing)?;
        assert_eq!(rt; ended, (Status::ReadFault, true), "at read {failing}");
    }
    let ended = status_without(rt.alloc(), text.as_slice(), reads + 1)?;
    assert_eq!(rt; ended, (Status::Done, false));
    Ok(())
}

const ONE_CHANNEL: &[u8] = b"voltage0 0 2 le:u12/16>>4\nscan 2\n";

/// The room of a sink, the write that fails, the number of bytes written, and the status.
const WRITES: &[(usize, u64, usize, u8)] = &[
    (1000, 1, 0, 4),
    (0, 9, 0, 4),
    (1, 9, 1, 4),
    (20, 2, 20, 4),
    (32, 9, 32, 4),
    (33, 2, 33, 0),
];

// What is written of the layout of one channel is a front part of it; returns its number of bytes and the exit code.
fn written_to(alloc: Global, room: usize, failing: u64) -> Result<Option<(usize, u8)>, Fail> {
    let mut input = source(alloc, ADC0, 1000, &[])?;
    let mut output = sink(alloc, room, &[failing])?;
    let words = ["layout", "adc0", "00000001"];
    let ended = run_words(alloc, &words, &mut input, &mut output)?.code();
    let written = output.written();
    Ok(if ONE_CHANNEL.starts_with(written) {
        Some((written.len(), ended))
    } else {
        None
    })
}

#[test]
fn failing_writes_end_the_layout(rt: HostRuntime) -> Result<(), Fail> {
    for (room, failing, taken, status) in WRITES {
        let written = written_to(rt.alloc(), *room, *failing)?;
        assert_eq!(rt; written, Some((*taken, *status)), "room {room}");
    }
    Ok(())
}

// Appends that many rows.
fn push_rows(alloc: Global, text: &mut Vec<u8>, rows: u32) -> Result<(), Fail> {
    for row in 0..rows {
        let number = 1_000_000_000 + u64::from(row);
        let line = format!(in alloc; "row {number} 1 2 3\n")?;
        text.extend_from_slice(line.as_bytes())?;
    }
    Ok(())
}

// Makes a description with `rows` rows, and 200,000 empty lines after the line that ends it.
fn ended_early(alloc: Global, rows: u32) -> Result<Vec<u8>, Fail> {
    let mut text = ADC0.to_vec(alloc)?;
    push_rows(alloc, &mut text, rows)?;
    text.extend_from_slice(b"%%\n")?;
    text.extend_from_slice(vec![in alloc; b'\n'; 200_000]?.as_slice())?;
    Ok(text)
}

// Checks how much `layout` takes of a description with `rows` rows, from a source that gives `piece` bytes per read.
fn check_taken(
    rt: &impl Abort,
    alloc: Global,
    rows: u32,
    piece: usize,
    taken: usize,
) -> Result<(), Fail>
    requires { 1 ≤ piece }
{
    let text = ended_early(alloc, rows)?;
    let len = text.len();
    let mut input = MemSource::new(text, piece, Vec::new(alloc));
    let (printed, ended) = outcome(alloc, &["layout", "adc0", "00000000"], &mut input)?;
    let left = read_whole(alloc, &mut input, 1_000_000)?.len();
    assert!(rt; printed.as_slice() == b"scan 0\n".as_slice() && ended == Status::Done);
    assert_eq!(rt;
        len.checked_sub(left),
        Some(taken),
        "rows {rows}, piece {piece}"
    );
    Ok(())
}

// Blocks of 65,536 bytes are read, and none after the one with the end line.
#[test]
fn layouts_leave_the_rest(rt: HostRuntime) -> Result<(), Fail> {
    let alloc = rt.alloc();
    check_taken(&rt, alloc, 0, 1, 130)?;
    check_taken(&rt, alloc, 0, 65_536, 65_536)?;
    check_taken(&rt, alloc, 0, 1_000_000, 65_536)?;
    check_taken(&rt, alloc, 10_000, 1, 210_130)?;
    check_taken(&rt, alloc, 10_000, 65_536, 262_144)
}
