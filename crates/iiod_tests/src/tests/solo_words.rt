//! The words `solo NAME`: both worlds of a connection, or the first step of another that could change its answers.

ghost use Rattle.std.specs.Prelude.{◌≤◌};

use crate::tests::playing::{joined, run_words, sink, source};
use crate::tests::words::FIRST_PATH;
use iio_io::{MemSink, MemSource};
use iio_script::Status;
use std::alloc::Global;
use std::process::Abort;
use std::test::Fail;

/// A device of three channels and a timestamp.
const ADC: &str =
    "trigger t0 2\ndevice adc0 t0\nchannel voltage0 le:u12/16>>4\nchannel voltage1 le:u12/16>>4\nchannel accel_x be:s16/16>>0\ntimestamp\nrow 0 1 2 -3\n";

// Checks what the words `solo NAME` print for a text, and their exit code; `row` names the row that fails.
fn check_solo(
    rt: &impl Abort,
    alloc: Global,
    row: &str,
    name: &str,
    text: &[u8],
    printed: &[u8],
    status: u8,
) -> Result<(), Fail> {
    for piece in [1usize, 1000] {
        let mut input = source(alloc, text, piece, &[])?;
        let mut output = sink(alloc, 100_000, &[])?;
        let ended = run_words(alloc, &["solo", name], &mut input, &mut output)?.code();
        assert_eq!(rt; output.written(), printed, "{row}");
        assert_eq!(rt; ended, status, "{row}");
    }
    Ok(())
}

// Checks that both worlds print this.
fn check_worlds(
    rt: &impl Abort,
    alloc: Global,
    row: &str,
    name: &str,
    text: &[u8],
    printed: &str,
) -> Result<(), Fail> {
    let both = joined(alloc, &[printed, "%%\n", printed])?;
    check_solo(rt, alloc, row, name, text, &both, 0)
}

/// Two lines after the seven lines of `ADC`: a second device on that trigger.
const ADC1: &str = "device adc1 t0
channel voltage0 le:u8/8>>0
";

#[test]
fn bystander_and_offender(rt: HostRuntime) -> Result<(), Fail> {
    let alloc = rt.alloc();
    let steps = r#"A "OPEN adc0 1 00000005\n"
B "SET adc0 BUFFERS_COUNT 1\nOPEN adc0 1 00000002\n"
fire t0 1000
fire t0 2000
B "CLOSE adc0\n"
A "READBUF adc0 8\n"
"#;
    let text = joined(alloc, &[ADC, "%%\n", steps])?;
    let printed = r#"A "0\n"
poll t0 accepted 1
handle t0 adc0 captured
poll t0 accepted 1
handle t0 adc0 captured
A "8\n00000005\n\x10\x00\xff\xfd\x10\x00\xff\xfd"
"#;
    check_worlds(&rt, alloc, "a bystander", "A", &text, printed)?;
    let opens = r#"A "OPEN adc0 1 00000005\n"
B "OPEN adc1 1 00000001\n"
"#;
    let text = joined(alloc, &[ADC, ADC1, "%%\n", opens])?;
    check_solo(
        &rt,
        alloc,
        "an offender",
        "A",
        &text,
        b"refused 12 bystander\n",
        1,
    )
}

#[test]
fn offender_by_close(rt: HostRuntime) -> Result<(), Fail> {
    let alloc = rt.alloc();
    let steps = r#"A "OPEN adc0 1 00000005\n"
B "SET adc0 BUFFERS_COUNT 1\nOPEN adc0 1 00000002\n"
fire t0 1000
fire t0 2000
A "CLOSE adc0\n"
A "READBUF adc0 8\n"
"#;
    let text = joined(alloc, &[ADC, "%%\n", steps])?;
    check_solo(
        &rt,
        alloc,
        "A's CLOSE",
        "A",
        &text,
        b"refused 13 bystander\n",
        1,
    )
}

/// What a neighbour sends to A's device or to none, while A has its device open.
const HARMLESS: &[&str] = &[
    "",
    r"\n",
    r"OPENS adc0\n",
    r"OPEN\n",
    r"HELP\n",
    r"VERSION\n",
    r"PRINT\n",
    r"TIMEOUT 5\n",
    r"EXIT\n",
    r"OPEN adc0 1 00000002\n",
    r"OPEN adc0 1 zero\n",
    r"CLOSE adc0\n",
    r"READBUF adc0 2\n",
    r"READ adc0 name\n",
    r"READ adc0 INPUT voltage0 raw\n",
    r"GETTRIG adc0\n",
    r"SET adc0 BUFFERS_COUNT 2\n",
    r"REMASK adc0 00000001\n",
    // These items haven't ended yet.
    r"OPEN adc1 1 00000001",
    r"WRITE adc0 INPUT accel_x calibbias 2\n1",
    r"WRITEBUF adc0 2\n1",
];

/// What may change A's answers.
const OFFENDING: &[&str] = &[
    r"OPEN adc1 1 00000001\n",
    r"OPEN nothing 1 00000001\n",
    r"CLOSE adc1\n",
    r"READBUF adc1 2\n",
    r"READ adc1 name\n",
    r"GETTRIG adc1\n",
    r"SET adc1 BUFFERS_COUNT 2\n",
    r"REMASK adc1 00000001\n",
    r"SETTRIG adc0\n",
    r"SETTRIG adc0 t0\n",
    r"WRITE adc0 INPUT accel_x calibbias 1\n1",
    r"WRITE adc0 INPUT accel_x calibbias 0\n",
    r"WRITE adc0 INPUT accel_x calibbias 65537\n",
    r"WRITEBUF adc0 1\n1",
    r"WRITEBUF adc0 0\n",
    r"WRITEBUF adc0 65537\n",
    r"EVOPEN adc0\n",
    r"EVREAD adc0\n",
    r"EVCLOSE adc0\n",
    r"VERSION\nCLOSE adc1\nVERSION\n",
];

// Makes a script in which A opens its device, then B sends this, then A asks for the trigger.
fn beside(alloc: Global, sent: &str) -> Result<Vec<u8>, Fail> {
    let opening = r#"A "OPEN adc0 1 00000005\n"
B ""#;
    let asking = r#""
A "GETTRIG adc0\n"
"#;
    joined(alloc, &[ADC, ADC1, "%%\n", opening, sent, asking])
}

#[test]
fn each_item_of_a_neighbour(rt: HostRuntime) -> Result<(), Fail> {
    let alloc = rt.alloc();
    let printed = r#"A "0\n"
A "2\nt0\n"
"#;
    for sent in HARMLESS {
        check_worlds(&rt, alloc, sent, "A", &beside(alloc, sent)?, printed)?;
    }
    for sent in OFFENDING {
        let text = beside(alloc, sent)?;
        check_solo(&rt, alloc, sent, "A", &text, b"refused 12 bystander\n", 1)?;
    }
    Ok(())
}

// A line of 1,025 bytes ends the connection that sends it.
#[test]
fn overlong_lines(rt: HostRuntime) -> Result<(), Fail> {
    let alloc = rt.alloc();
    let mut line = String::new(alloc);
    for _ in 0..1025 {
        line.push_str("x")?;
    }
    let printed = r#"A "0\n"
A "2\nt0\n"
"#;
    let text = beside(alloc, line.as_str())?;
    check_worlds(&rt, alloc, "B's", "A", &text, printed)?;
    let text = after_opening(alloc, &[r#"A ""#, line.as_str(), "\"\n"])?;
    check_solo(&rt, alloc, "A's", "A", &text, b"refused 11 bystander\n", 1)
}

// Makes a script in which A and B open the device, at lines 9 and 10; then these texts follow.
fn after_opening(alloc: Global, texts: &[&str]) -> Result<Vec<u8>, Fail> {
    let opening = r#"A "OPEN adc0 1 00000005\n"
B "OPEN adc0 1 00000002\n"
"#;
    let mut text = joined(alloc, &[ADC, "%%\n", opening])?;
    for part in texts {
        text.extend_from_slice(part.as_bytes())?;
    }
    Ok(text)
}

/// How A leaves the device or its mask, and what is printed for it.
const ENDINGS: &[(&str, &str)] = &[
    ("A \"CLOSE adc0\\n\"\n", "A \"0\\n\"\n"),
    ("A \"REMASK adc0 00000001\\n\"\n", "A \"0\\n\"\n"),
    ("A \"EXIT\\n\"\n", "A \"\"\nA closed\n"),
    ("drop A\n", "A dropped\n"),
    (
        "A \"WRITE adc0 INPUT accel_x calibbias 65537\\n\"\n",
        "A \"-27\\n\"\nA closed\n",
    ),
    (
        "A \"WRITEBUF nothing 65537\\n\"\n",
        "A \"-27\\n\"\nA closed\n",
    ),
];

// Each is refused beside B, but not after B has left.
#[test]
fn each_ending(rt: HostRuntime) -> Result<(), Fail> {
    let alloc = rt.alloc();
    for (parting, told) in ENDINGS {
        let text = after_opening(alloc, &[parting])?;
        check_solo(
            &rt,
            alloc,
            parting,
            "A",
            &text,
            b"refused 11 bystander\n",
            1,
        )?;
        for leaving in ["B \"CLOSE adc0\\n\"\n", "B \"EXIT\\n\"\n", "drop B\n"] {
            let text = after_opening(alloc, &[leaving, parting])?;
            let mut printed = String::from_str(alloc, "A \"0\\n\"\n")?;
            printed.push_str(told)?;
            check_worlds(&rt, alloc, parting, "A", &text, printed.as_str())?;
        }
    }
    Ok(())
}

// Beside B, A leaves a device that it doesn't have open, or one that no other connection has open.
#[test]
fn what_isnt_shared_is_parted_from(rt: HostRuntime) -> Result<(), Fail> {
    let alloc = rt.alloc();
    let steps = r#"A "CLOSE adc1\nOPEN adc1 1 00000001\nCLOSE adc1\n"
A "OPEN adc0 1 00000005\n"
B "OPEN adc0 1 00000002\n"
A "CLOSE adc1\nOPEN adc1 1 00000001\nCLOSE adc1\nREMASK nothing 00000001\nWRITEBUF adc0 2\nab"
"#;
    let text = joined(alloc, &[ADC, ADC1, "%%\n", steps])?;
    let printed = r#"A "-9\n0\n0\n"
A "0\n"
A "-9\n0\n0\n-19\n-38\n"
"#;
    check_worlds(&rt, alloc, "adc1", "A", &text, printed)
}

/// Two lines after the seven lines of `ADC`: an output device on that trigger.
const DAC: &str = "output dac0 t0
channel voltage0 le:u8/8>>0
";

/// What a neighbour sends to A's output device.
const NAMING: &[&str] = &[
    r"OPEN dac0 1 00000001\n",
    r"CLOSE dac0\n",
    r"READBUF dac0 1\n",
    r"READ dac0 name\n",
    r"READ dac0 OUTPUT voltage0 raw\n",
    r"GETTRIG dac0\n",
    r"SET dac0 BUFFERS_COUNT 2\n",
    r"REMASK dac0 00000001\n",
    r"WRITEBUF dac0 1\nx",
];

// A writer beside a reader: neither may name the other's device, and A is given the same scans in both worlds.
#[test]
fn an_output_beside_a_neighbour(rt: HostRuntime) -> Result<(), Fail> {
    let alloc = rt.alloc();
    let opening = r#"A "OPEN dac0 1 00000001\nOPEN adc0 1 00000005\nWRITEBUF dac0 1\nx"
B "OPEN adc0 1 00000002\n"
fire t0 5
"#;
    let text = joined(alloc, &[ADC, DAC, "%%\n", opening, "A \"CLOSE dac0\\n\"\n"])?;
    let printed = r#"A "0\n0\n1\n"
poll t0 accepted 2
handle t0 adc0 captured
handle t0 dac0 given 78
A "0\n"
"#;
    check_worlds(&rt, alloc, "a writer", "A", &text, printed)?;
    for sent in NAMING {
        let text = joined(alloc, &[ADC, DAC, "%%\n", opening, "B \"", sent, "\"\n"])?;
        check_solo(&rt, alloc, sent, "A", &text, b"refused 14 bystander\n", 1)?;
    }
    Ok(())
}

/// One line after the seven lines of `ADC`: an averaging device over its device.
const AVERAGE: &str = "average avg0 adc0 2\n";

/// What a neighbour sends to A's averaging device.
const NAMING_AN_AVERAGE: &[&str] = &[
    r"OPEN avg0 1 00000001\n",
    r"CLOSE avg0\n",
    r"READBUF avg0 1\n",
    r"READ avg0 name\n",
    r"GETTRIG avg0\n",
    r"SET avg0 BUFFERS_COUNT 2\n",
    r"REMASK avg0 00000001\n",
];

// A neighbour may share the base if A has it open too, and changes no mean. It may not name the averaging device.
#[test]
fn an_average_beside_a_neighbour(rt: HostRuntime) -> Result<(), Fail> {
    let alloc = rt.alloc();
    let opening = r#"A "OPEN avg0 1 00000005\nOPEN adc0 1 00000001\n"
B "OPEN adc0 1 00000002\n"
fire t0 1
fire t0 2
"#;
    let leaving = r#"B "CLOSE adc0\n"
A "READBUF avg0 4\nCLOSE avg0\n"
"#;
    let text = joined(alloc, &[ADC, AVERAGE, "%%\n", opening, leaving])?;
    let printed = r#"A "0\n0\n"
poll t0 accepted 1
handle t0 adc0 captured
poll t0 accepted 1
handle t0 adc0 captured
A "4\n00000005\n\x10\x00\xff\xfd0\n"
"#;
    check_worlds(&rt, alloc, "a reader of means", "A", &text, printed)?;
    for sent in NAMING_AN_AVERAGE {
        let text = joined(
            alloc,
            &[ADC, AVERAGE, "%%\n", opening, "B \"", sent, "\"\n"],
        )?;
        check_solo(&rt, alloc, sent, "A", &text, b"refused 14 bystander\n", 1)?;
    }
    // A device that A has open doesn't make its base open to A.
    let base_alone = r#"A "OPEN avg0 1 00000005\n"
B "OPEN adc0 1 00000002\n"
"#;
    let text = joined(alloc, &[ADC, AVERAGE, "%%\n", base_alone])?;
    check_solo(
        &rt,
        alloc,
        "a base",
        "A",
        &text,
        b"refused 11 bystander\n",
        1,
    )
}

// An item counts at the step that completes it, not where it began: B's WRITE is whole at line 14.
#[test]
fn items_across_steps(rt: HostRuntime) -> Result<(), Fail> {
    let alloc = rt.alloc();
    let text = after_opening(
        alloc,
        &[
            "B \"WRITE adc0 INPUT accel_x calibbias 2\\n\"\n",
            "# a comment\n",
            "B \"1\"\n",
            "B \"1\"\n",
        ],
    )?;
    check_solo(
        &rt,
        alloc,
        "a WRITE",
        "A",
        &text,
        b"refused 14 bystander\n",
        1,
    )
}

/// A name, an input, what is printed, and how it ends.
const ENDS: &[(&str, &[u8], &[u8], u8)] = &[
    // No output at all.
    ("A", b"", b"%%\n", 0),
    ("A", b"%%\n", b"%%\n", 0),
    ("A", b"%%\nB \"\\n\"\nB \"VERSION\\n\"\n", b"%%\n", 0),
    // A name that never occurs.
    (
        "C",
        b"trigger t 1\n%%\nA \"VERSION\\n\"\nfire t 1\ndrop A\n",
        b"poll t accepted 0\n%%\npoll t accepted 0\n",
        0,
    ),
    (
        "C",
        b"trigger t 1\ndevice d t\nchannel voltage0 le:u8/8>>0\n%%\n\nA \"GETTRIG d\\n\"\n",
        b"refused 6 bystander\n",
        1,
    ),
    // Names that no connection can have.
    (
        "fire",
        b"trigger t 1\n%%\nfire t 1\nA \"VERSION\\n\"\n",
        b"poll t accepted 0\n%%\npoll t accepted 0\n",
        0,
    ),
    (
        "drop",
        b"trigger t 1\ndevice d t\nchannel voltage0 le:u8/8>>0\n%%\ndrop A\nA \"GETTRIG d\\n\"\n",
        b"refused 6 bystander\n",
        1,
    ),
    // A refused line is reported first, wherever it stands, and alone.
    (
        "A",
        b"trigger t 1\ndevice d t\nchannel voltage0 le:u8/8>>0\n%%\nB \"GETTRIG d\\n\"\nfire t 1\nfire\n",
        b"refused 7 count\n",
        1,
    ),
    (
        "A",
        b"%%\nA \"VERSION\\n\"\nA \"VERSION\n",
        b"refused 3 text\n",
        1,
    ),
    ("A", b"x\n", b"refused 1 word\n", 1),
    ("A", b"trigger t 1\ndevice d t\n", b"refused 3 order\n", 1),
];

#[test]
fn ends_are_told(rt: HostRuntime) -> Result<(), Fail> {
    let alloc = rt.alloc();
    for (name, text, printed, status) in ENDS {
        check_solo(&rt, alloc, name, name, text, printed, *status)?;
    }
    Ok(())
}

// A's lines are in both texts; the first text has them without the steps of B.
#[test]
fn first_example_is_alone(rt: HostRuntime) -> Result<(), Fail> {
    let alloc = rt.alloc();
    let printed =
        "A \"0\\n\"\npoll t0 accepted 1\nhandle t0 adc0 captured\nA \"2\\n00000001\\n\\x10\\x000\\n\"\n";
    check_worlds(&rt, alloc, "the first example", "A", FIRST_PATH, printed)
}

// With one byte per read, each read fails in turn, and nothing is written then.
#[test]
fn failing_reads(rt: HostRuntime) -> Result<(), Fail> {
    let alloc = rt.alloc();
    let reads = FIRST_PATH.len() as u64;
    for failing in 1..=reads {
        let mut input = source(alloc, FIRST_PATH, 1, &[failing])?;
        let mut output = sink(alloc, 1000, &[])?;
        let ended = run_words(alloc, &["solo", "A"], &mut input, &mut output)?;
        assert_eq!(rt; ended, Status::ReadFault, "at read {failing}");
        assert!(rt; output.written().is_empty(), "at read {failing}");
    }
    Ok(())
}

// A sink with room for that many bytes: a front part was written.
#[test]
fn failing_writes(rt: HostRuntime) -> Result<(), Fail> {
    let alloc = rt.alloc();
    let mut whole = sink(alloc, 1000, &[])?;
    let mut input = source(alloc, FIRST_PATH, 1000, &[])?;
    assert_eq!(rt;
        run_words(alloc, &["solo", "A"], &mut input, &mut whole)?,
        Status::Done
    );
    let len = whole.written().len();
    for room in 0..len {
        let mut input = source(alloc, FIRST_PATH, 1000, &[])?;
        let mut output = sink(alloc, room, &[])?;
        let ended = run_words(alloc, &["solo", "A"], &mut input, &mut output)?;
        assert_eq!(rt; ended, Status::WriteFault, "room {room}");
        assert_eq!(rt;
            Some(output.written()),
            whole.written().get(..room),
            "room {room}"
        );
    }
    Ok(())
}

// Checks that many LFs: one byte too many is reported before a step that offends.
#[test]
fn too_long_inputs(rt: HostRuntime) -> Result<(), Fail> {
    let alloc = rt.alloc();
    let mut text = joined(alloc, &[ADC, "%%\nB \"GETTRIG adc0\\n\"\n"])?;
    let ends = 67_108_865usize.saturating_sub(text.len());
    text.extend_from_slice(vec![in alloc; b'\n'; ends]?.as_slice())?;
    let mut input = MemSource::new(text, 65_536, Vec::new(alloc));
    let mut output = MemSink::new(alloc, 100, Vec::new(alloc))?;
    let ended = run_words(alloc, &["solo", "A"], &mut input, &mut output)?;
    assert_eq!(rt; output.written(), b"too long\n".as_slice());
    assert_eq!(rt; ended, Status::TooLong);
    Ok(())
}
