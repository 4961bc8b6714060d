//! Output devices: WRITEBUF, cyclic writers, what a trigger gives out.

use crate::tests::playing::{check_play, check_rows, joined, push, push_many};
use crate::tests::streams::{Session, stream_of};
use std::alloc::Global;
use std::process::Abort;
use std::test::Fail;

/// An output device of one channel of two bytes.
const DAC: &str = "trigger t0 2
output dac0 t0
channel voltage0 le:u16/16>>0
";

/// An output device, whose line comes before that of an input device on the same trigger.
const LAB: &str = "trigger t0 2
output dac0 t0
channel voltage0 le:u16/16>>0
channel voltage1 le:u8/8>>0
device adc0 t0
channel voltage0 le:u8/8>>0
row 0 7
";

/// Names, descriptions, scripts after them, and what the scripts print.
pub(crate) const ROWS: &[(&str, &str, &str, &str)] = &[
    (
        "playback_and_cyclic",
        DAC,
        r#"A "OPEN dac0 2 00000001\nWRITEBUF dac0 4\n\x01\x00\x02\x00"
fire t0 1
fire t0 2
fire t0 3
A "READ dac0 BUFFER underruns\nREAD dac0 OUTPUT voltage0 raw\n"
A "CLOSE dac0\nOPEN dac0 2 00000001 CYCLIC\nWRITEBUF dac0 4\n\x01\x00\x02\x00"
fire t0 4
fire t0 5
fire t0 6
A "WRITEBUF dac0 4\n\x01\x00\x02\x00"
"#,
        r#"A "0\n4\n"
poll t0 accepted 1
handle t0 dac0 given 0100
poll t0 accepted 1
handle t0 dac0 given 0200
poll t0 accepted 1
handle t0 dac0 underrun
A "1\n1\n1\n2\n"
A "0\n0\n4\n"
poll t0 accepted 1
handle t0 dac0 given 0100
poll t0 accepted 1
handle t0 dac0 given 0200
poll t0 accepted 1
handle t0 dac0 given 0100
A "-16\n"
"#,
    ),
    (
        "a_cycle_that_comes_late",
        DAC,
        r#"A "OPEN dac0 2 00000001 CYCLIC\n"
fire t0 0
A "READ dac0 BUFFER underruns\nWRITEBUF dac0 4\n\x01\x00\x02\x00"
fire t0 1
fire t0 2
fire t0 3
A "WRITEBUF dac0 4\n\x01\x00\x02\x00"
A "READ dac0 BUFFER underruns\nREAD dac0 BUFFER data_available\nREAD dac0 OUTPUT voltage0 raw\n"
"#,
        r#"A "0\n"
poll t0 accepted 1
handle t0 dac0 underrun
A "1\n1\n4\n"
poll t0 accepted 1
handle t0 dac0 given 0100
poll t0 accepted 1
handle t0 dac0 given 0200
poll t0 accepted 1
handle t0 dac0 given 0100
A "-16\n"
A "1\n1\n1\n2\n1\n1\n"
"#,
    ),
    (
        "cycles_of_one_scan_and_of_the_capacity",
        DAC,
        r#"A "SET dac0 BUFFERS_COUNT 2\nOPEN dac0 1 00000001 CYCLIC\n"
A "WRITEBUF dac0 0\nWRITEBUF dac0 3\nabcWRITEBUF dac0 6\nabcdefWRITEBUF dac0 2\nab"
fire t0 1
fire t0 2
A "WRITEBUF dac0 0\nWRITEBUF dac0 2\nab"
A "CLOSE dac0\nOPEN dac0 1 00000001 CYCLIC\nWRITEBUF dac0 4\nabcd"
fire t0 3
fire t0 4
fire t0 5
"#,
        r#"A "0\n0\n"
A "-22\n-22\n-22\n2\n"
poll t0 accepted 1
handle t0 dac0 given 6162
poll t0 accepted 1
handle t0 dac0 given 6162
A "-22\n-16\n"
A "0\n0\n4\n"
poll t0 accepted 1
handle t0 dac0 given 6162
poll t0 accepted 1
handle t0 dac0 given 6364
poll t0 accepted 1
handle t0 dac0 given 6162
"#,
    ),
    (
        "refusals_of_writebuf",
        LAB,
        r#"A "WRITEBUF\nWRITEBUF dac0\nWRITEBUF dac0 x\nWRITEBUF dac0 1 1\n"
A "WRITEBUF none 1\nxWRITEBUF t0 1\nxWRITEBUF adc0 1\nxWRITEBUF dac0 3\nabc"
A "OPEN dac0 1 00000001\nWRITEBUF dac0 3\nabcWRITEBUF dac0 0\nWRITEBUF dac0 10\nabcdefghij"
A "READ dac0 BUFFER data_available\nWRITEBUF dac0 2\nabWRITEBUF dac0 0\nWRITEBUF dac0 1\na"
B "WRITEBUF dac0 2\nab"
fire t0 1
A "WRITEBUF dac0 4\nklmn"
A "READ dac0 BUFFER data_available\nREAD dac0 BUFFER underruns\n"
unplug dac0
A "WRITEBUF dac0 2\nabWRITEBUF dac0 1\na"
A "READ dac0 BUFFER data_available\n"
B "WRITEBUF dac0 2\nab"
A "WRITEBUF dac0 65537\nab"
"#,
        r#"A "-22\n-22\n-22\n-22\n"
A "-19\n-19\n-38\n-9\n"
A "0\n-22\n0\n8\n"
A "1\n4\n-11\n0\n-22\n"
B "-9\n"
poll t0 accepted 1
handle t0 dac0 given 6162
A "2\n"
A "1\n4\n1\n0\n"
dac0 unplugged
A "-19\n-19\n"
A "1\n4\n"
B "-19\n"
A "-27\n"
A closed
"#,
    ),
    (
        "opens_of_an_output",
        LAB,
        r#"A "OPEN adc0 1 00000001 CYCLIC\nOPEN dac0 1 1\nOPEN dac0 1 00000000\nOPEN dac0 0 00000001\nOPEN dac0 1 00000002\n"
A "OPEN dac0 1 00000001\n"
B "OPEN dac0 1 1 CYCLIC\nOPEN dac0 0 00000001\nOPEN dac0 1 00000003\n"
A "SETTRIG dac0\n"
drop A
B "SETTRIG dac0\nGETTRIG dac0\nOPEN dac0 1 00000003\nSETTRIG dac0 t0\nGETTRIG dac0\nOPEN dac0 1 00000003 CYCLIC\n"
"#,
        r#"A "-38\n-22\n-22\n-22\n0\n"
A "-16\n"
B "-22\n-22\n-16\n"
A "-16\n"
A dropped
B "0\n0\n-22\n0\n2\nt0\n0\n"
"#,
    ),
    (
        "commands_at_an_output",
        LAB,
        r#"A "READBUF dac0 0\nREMASK dac0 00000001\nREMASK dac0 1\nEVOPEN dac0\nEVREAD dac0\nEVCLOSE dac0\nCLOSE dac0\n"
A "READ dac0 name\nREAD dac0 sampling_frequency\nREAD dac0 DEBUG raw\nREAD dac0\n"
A "READ dac0 INPUT voltage0 raw\nREAD dac0 OUTPUT voltage0 raw\nREAD dac0 OUTPUT voltage2 raw\nREAD dac0 OUTPUT voltage0 scale\nREAD dac0 OUTPUT voltage0\n"
A "READ dac0 BUFFER length\nOPEN dac0 3 00000001\nREADBUF dac0 2\nREAD dac0 BUFFER length\nREAD dac0 BUFFER data_available\nREAD dac0 BUFFER underruns\n"
A "READ dac0 BUFFER overruns\nREAD dac0 BUFFER discarded\nREAD adc0 OUTPUT voltage0 raw\n"
A "WRITE dac0 OUTPUT voltage0 raw 1\n5WRITE dac0 name 1\nxWRITE dac0 INPUT voltage0 raw 1\n5WRITE dac0 OUTPUT voltage0 scale 1\n5WRITE dac0 BUFFER length 1\n5"
B "OPEN adc0 1 00000001\nREAD adc0 BUFFER underruns\nREAD dac0 BUFFER length\nCLOSE dac0\n"
sense dac0 1
unplug dac0
unplug dac0
sense dac0 2
A "READBUF dac0 2\nREMASK dac0 00000001\nEVOPEN dac0\nREAD dac0 name\nREAD dac0 OUTPUT voltage0 raw\nGETTRIG dac0\n"
fire t0 3
A "CLOSE dac0\nOPEN dac0 1 00000001\n"
"#,
        r#"A "-38\n-38\n-38\n-38\n-38\n-38\n-9\n"
A "4\ndac0\n-2\n-2\n-38\n"
A "-2\n1\n0\n-2\n-2\n-38\n"
A "-9\n0\n-38\n2\n12\n1\n0\n1\n0\n"
A "-2\n-2\n-2\n"
A "-13\n-13\n-2\n-2\n-13\n"
B "0\n-2\n-9\n-9\n"
dac0 sensed 0
dac0 unplugged
dac0 gone
dac0 gone
A "-19\n-19\n-19\n-19\n-19\n-19\n"
poll t0 accepted 2
handle t0 adc0 captured
handle t0 dac0 idle
A "0\n-19\n"
"#,
    ),
    (
        "output_devices_have_the_numbers_after_all_others",
        LAB,
        r#"A "OPEN dac0 1 00000003\nOPEN adc0 1 00000001\nWRITEBUF dac0 4\n\x01\x02\x03\x04"
poll t0 5
handle t0 dac0
handle t0 dac0
handle t0 adc0
fire t0 6
A "READ dac0 OUTPUT voltage0 raw\nREAD dac0 OUTPUT voltage1 raw\nREADBUF adc0 2\n"
"#,
        r#"A "0\n0\n4\n"
poll t0 accepted 2
handle t0 dac0 given 01020304
handle t0 dac0 none
handle t0 adc0 captured
poll t0 accepted 2
handle t0 adc0 captured
handle t0 dac0 underrun
A "3\n513\n1\n3\n2\n00000001\n\x07\x07"
"#,
    ),
    (
        "raw_is_the_last_one_given",
        LAB,
        r#"A "OPEN dac0 1 00000001\nWRITEBUF dac0 4\n\x05\x00\x06\x00READ dac0 OUTPUT voltage0 raw\n"
fire t0 1
A "READ dac0 OUTPUT voltage0 raw\nCLOSE dac0\nREAD dac0 OUTPUT voltage0 raw\n"
B "OPEN dac0 1 00000002\nREAD dac0 BUFFER underruns\nWRITEBUF dac0 1\n\x09"
fire t0 2
fire t0 3
B "READ dac0 OUTPUT voltage0 raw\nREAD dac0 OUTPUT voltage1 raw\nREAD dac0 BUFFER underruns\n"
drop B
A "OPEN dac0 1 00000002\nREAD dac0 BUFFER underruns\nREAD dac0 OUTPUT voltage1 raw\n"
"#,
        r#"A "0\n4\n1\n0\n"
poll t0 accepted 1
handle t0 dac0 given 0500
A "1\n5\n0\n1\n5\n"
B "0\n1\n0\n1\n"
poll t0 accepted 1
handle t0 dac0 given 09
poll t0 accepted 1
handle t0 dac0 underrun
B "1\n5\n1\n9\n1\n1\n"
B dropped
A "0\n1\n0\n1\n9\n"
"#,
    ),
    (
        "entries_of_a_writer_that_left",
        DAC,
        r#"A "OPEN dac0 1 00000001\nWRITEBUF dac0 2\nab"
poll t0 1
A "CLOSE dac0\nOPEN dac0 1 00000001\nWRITEBUF dac0 2\ncd"
handle t0 dac0
fire t0 2
"#,
        r#"A "0\n2\n"
poll t0 accepted 1
A "0\n0\n2\n"
handle t0 dac0 idle
poll t0 accepted 1
handle t0 dac0 given 6364
"#,
    ),
    (
        "payloads_in_parts",
        DAC,
        r#"A "OPEN dac0 1 00000001\nWRITEBUF da"
A "c0 6\x0d"
A "\n"
A "EX"
A "IT\n\n"
A "\nREAD dac0 BUFFER data_available\n"
fire t0 1
fire t0 2
fire t0 3
"#,
        r#"A "0\n"
A ""
A ""
A ""
A "6\n"
A "1\n3\n"
poll t0 accepted 1
handle t0 dac0 given 4558
poll t0 accepted 1
handle t0 dac0 given 4954
poll t0 accepted 1
handle t0 dac0 given 0a0a
"#,
    ),
];

// Each row is played to its end.
#[test]
fn writes_in_scripts(rt: HostRuntime) -> Result<(), Fail> {
    check_rows(&rt, rt.alloc(), ROWS)
}

/// Lines and payloads before two fires and after them, and their answers. A scan has two bytes, and there is room for four
/// scans: of the second payload one scan is taken.
const BEFORE: &[(&str, &str)] = &[
    ("OPEN dac0 1 00000001\r\n", r"0\n"),
    ("WRITEBUF dac0 6\r\nEXIT\n\n", r"6\n"),
    ("WRITEBUF dac0 0\r\n", r"0\n"),
    ("WRITEBUF dac0 4\n\r\n\0x", r"2\n"),
    ("WRITEBUF dac0 2\nab", r"-11\n"),
    ("WRITEBUF dac0 3\nabc", r"-22\n"),
    ("WRITEBUF none 1\n\n", r"-19\n"),
];

const AFTER: &[(&str, &str)] = &[
    ("WRITEBUF dac0 2\nHI", r"2\n"),
    ("READ dac0 BUFFER data_available\n", r"1\n3\n"),
    ("EXIT\r\n", ""),
];

const GIVEN: &str = "fire t0 1\nfire t0 2\n";

const GIVEN_TWICE: &str = "poll t0 accepted 1
handle t0 dac0 given 4558
poll t0 accepted 1
handle t0 dac0 given 4954
";

// Checks both halves, each in two pieces.
fn check_cut(rt: &impl Abort, alloc: Global, first: usize, second: usize) -> Result<(), Fail> {
    let mut played = Session::begun(alloc, DAC)?;
    played.piece(alloc, BEFORE, 0, first)?;
    played.piece(alloc, BEFORE, first, 1000)?;
    played.steps(GIVEN, GIVEN_TWICE)?;
    played.piece(alloc, AFTER, 0, second)?;
    played.piece(alloc, AFTER, second, 1000)?;
    played.check(rt, alloc, "payloads are cut")
}

// The stream is cut at every byte, within lines and payloads.
#[test]
fn payloads_in_any_pieces(rt: HostRuntime) -> Result<(), Fail> {
    let before = stream_of(rt.alloc(), BEFORE)?.len();
    for cut in 0..=before {
        check_cut(&rt, rt.alloc(), cut, 0)?;
    }
    let after = stream_of(rt.alloc(), AFTER)?.len();
    for cut in 0..after {
        check_cut(&rt, rt.alloc(), 0, cut)?;
    }
    Ok(())
}

#[test]
fn payloads_byte_by_byte(rt: HostRuntime) -> Result<(), Fail> {
    let mut played = Session::begun(rt.alloc(), DAC)?;
    played.bytes(rt.alloc(), BEFORE)?;
    played.steps(GIVEN, GIVEN_TWICE)?;
    played.bytes(rt.alloc(), AFTER)?;
    played.check(&rt, rt.alloc(), "payloads byte by byte")
}

/// An output device whose scans have one byte.
const BYTES: &str = "trigger t0 1
output dac0 t0
channel voltage0 le:u8/8>>0
%%
";

// A writer of the largest capacity fills it, or makes it its cycle, with the longest payload, in two steps.
fn filled(alloc: Global, cyclic: &str) -> Result<Vec<u8>, Fail> {
    let opening = "A \"OPEN dac0 16384 00000001";
    let mut text = joined(
        alloc,
        &[BYTES, opening, cyclic, "\\n\"\nA \"WRITEBUF dac0 65536\\n"],
    )?;
    push_many(alloc, &mut text, b'x', 65_535)?;
    push(&mut text, "\"\nA \"y\"\n")?;
    push(
        &mut text,
        r#"A "WRITEBUF dac0 1\nzWRITEBUF dac0 0\nREAD dac0 BUFFER data_available\n"
fire t0 1
A "WRITEBUF dac0 2\nzzREAD dac0 BUFFER data_available\n"
"#,
    )?;
    Ok(text)
}

#[test]
fn full_queues(rt: HostRuntime) -> Result<(), Fail> {
    let printed = br#"A "0\n"
A ""
A "65536\n"
A "-11\n0\n5\n65536\n"
poll t0 accepted 1
handle t0 dac0 given 78
A "1\n5\n65536\n"
"#;
    let text = filled(rt.alloc(), "")?;
    check_play(&rt, rt.alloc(), "a full queue", text, printed, 0)
}

#[test]
fn cycles_of_the_capacity(rt: HostRuntime) -> Result<(), Fail> {
    let printed = br#"A "0\n"
A ""
A "65536\n"
A "-16\n-22\n5\n65536\n"
poll t0 accepted 1
handle t0 dac0 given 78
A "-16\n5\n65536\n"
"#;
    let text = filled(rt.alloc(), " CYCLIC")?;
    check_play(&rt, rt.alloc(), "a full cycle", text, printed, 0)
}

// A payload of more than 65,536 bytes ends the connection, whatever device it is for.
#[test]
fn large_payloads(rt: HostRuntime) -> Result<(), Fail> {
    for device in ["dac0", "none"] {
        let text = joined(
            rt.alloc(),
            &[
                BYTES,
                "A \"WRITEBUF ",
                device,
                " 65537\\nVERSION\\n\"\nA \"\"\n",
            ],
        )?;
        let printed = b"A \"-27\\n\"\nA closed\nA closed\n";
        check_play(&rt, rt.alloc(), device, text, printed, 0)?;
    }
    Ok(())
}
