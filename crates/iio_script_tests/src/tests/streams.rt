//! A connection's stream in any pieces, its limits and its end.

use crate::tests::devices::{ADC, BARE, COUNTED};
use crate::tests::playing::{check_play, check_rows, joined, played, push, push_many, sink};
use iio_io::MemSource;
use iio_script::Status;
use std::alloc::Global;
use std::process::Abort;
use std::test::Fail;

const CAPTURES: &str = "fire t0 1000\nfire t0 2000\n";

const CAPTURED_TWICE: &str = "poll t0 accepted 1
handle t0 adc0 captured
poll t0 accepted 1
handle t0 adc0 captured
";

/// Names, descriptions, scripts after them, and what the scripts print.
pub(crate) const ROWS: &[(&str, &str, &str, &str)] = &[
    (
        "lines_and_payloads_in_pieces",
        COUNTED,
        r#"A ""
A "  \x09HELP\x09 \x0d\x0d"
A "\n\n\x0d\nWRITE d INPUT voltage0 offset 3"
A "\n1"
A "2"
A "3READ d INPUT voltage0 offset\nWRITE d INPUT voltage0 offset 2\n\n\x0d"
A "WRITE d INPUT voltage0 offset 0\nWRITEBUF d 4\nHELP\nWRITE d 1 2 5\nHELP\nHE\x0dLP\n"
"#,
        r#"A ""
A ""
A "Commands of libiio 0.25 iiod, profile iiosim0\n"
A ""
A ""
A "3\n3\n123\n-22\n"
A "-22\n-38\n-22\n-22\n"
"#,
    ),
    (
        "dropped_connection",
        COUNTED,
        r#"A "OPEN d 1 00000001\nEVOPEN d\nREADB"
B "OPEN d 1 00000001\nEVOPEN d\n"
drop A
A "UF d 1\n"
drop A
drop C
C "HELP\n"
B "EVOPEN d\nEVREAD d\n"
fire t0 1
drop B
fire t0 2
"#,
        r#"A "0\n0\n"
B "0\n-16\n"
A dropped
A closed
A closed
C closed
C "Commands of libiio 0.25 iiod, profile iiosim0\n"
B "0\n-11\n"
poll t0 accepted 1
handle t0 d captured
B dropped
poll t0 accepted 0
"#,
    ),
    (
        "exit_ends_the_connection",
        COUNTED,
        r#"A "OPEN d 1 00000001\nEXIT\nVERSION\n"
fire t0 1
A ""
drop A
B "EXIT\n"
"#,
        r#"A "0\n"
A closed
poll t0 accepted 0
A closed
A closed
B ""
B closed
"#,
    ),
];

#[test]
fn streams_in_scripts(rt: HostRuntime) -> Result<(), Fail> {
    check_rows(&rt, rt.alloc(), ROWS)
}

/// The lines of a usual session before two captures and after them, and their answers.
const BEFORE: &[(&str, &str)] = &[
    ("VERSION\r\n", r"0.25.iiosim0\n"),
    ("ZPRINT\r\n", r"-22\n"),
    ("PRINT\r\n", r"10\n<context/>\n"),
    ("TIMEOUT 2500\r\n", r"0\n"),
    ("OPEN adc0 256 00000005\r\n", r"0\n"),
];

const AFTER: &[(&str, &str)] = &[
    (
        "READBUF adc0 1024\r\n",
        r"8\n00000005\n\x10\x00\xff\xfd\x10\x00\xff\xfd0\n",
    ),
    ("CLOSE adc0\r\n", r"0\n"),
    ("EXIT\r\n", ""),
];

/// A script and what it prints.
#[derive(Drop)]
pub(crate) struct Session {
    text: Vec<u8>,
    printed: Vec<u8>,
}

/// Returns the bytes of lines.
pub(crate) fn stream_of(alloc: Global, lines: &[(&str, &str)]) -> Result<Vec<u8>, Fail> {
    let mut bytes = Vec::new(alloc);
    for (line, _) in lines {
        push(&mut bytes, line)?;
    }
    Ok(bytes)
}

// Appends the bytes from one place to another, each as an escape.
fn push_escaped(
    alloc: Global,
    text: &mut Vec<u8>,
    bytes: &[u8],
    from: usize,
    to: usize,
) -> Result<(), Fail> {
    for byte in bytes.iter().take(to).skip(from) {
        let escape = format!(in alloc; "\\x{byte:02x}")?;
        push(text, escape.as_str())?;
    }
    Ok(())
}

// Appends the answers to the lines that end in the bytes from one place to another.
fn push_answers(
    printed: &mut Vec<u8>,
    lines: &[(&str, &str)],
    from: usize,
    to: usize,
) -> Result<(), Fail> {
    let mut end = 0usize;
    for (line, answer) in lines {
        end = end.saturating_add(line.len());
        if from < end && end <= to {
            push(printed, answer)?;
        }
    }
    Ok(())
}

impl Session {
    /// Begins a session with its description.
    pub(crate) fn begun(alloc: Global, description: &str) -> Result<Session, Fail> {
        Ok(Session {
            text: joined(alloc, &["context \"<context/>\"\n", description, "%%\n"])?,
            printed: Vec::new(alloc),
        })
    }

    /// Adds a step of A: the bytes of these lines from one place to another, each written as an escape. The lines that end in
    /// them are answered.
    pub(crate) fn piece(
        &mut self,
        alloc: Global,
        lines: &[(&str, &str)],
        from: usize,
        to: usize,
    ) -> Result<(), Fail> {
        let bytes = stream_of(alloc, lines)?;
        push(&mut self.text, "A \"")?;
        push_escaped(alloc, &mut self.text, &bytes, from, to)?;
        push(&mut self.text, "\"\n")?;
        push(&mut self.printed, "A \"")?;
        push_answers(&mut self.printed, lines, from, to)?;
        push(&mut self.printed, "\"\n")
    }

    /// Adds a step of A for each byte of these lines.
    pub(crate) fn bytes(&mut self, alloc: Global, lines: &[(&str, &str)]) -> Result<(), Fail> {
        let len = stream_of(alloc, lines)?.len();
        for (from, to) in (0..len).zip(1..=len) {
            self.piece(alloc, lines, from, to)?;
        }
        Ok(())
    }

    /// Adds steps, and what they print.
    pub(crate) fn steps(&mut self, steps: &str, printed: &str) -> Result<(), Fail> {
        push(&mut self.text, steps)?;
        push(&mut self.printed, printed)
    }

    /// Ends the session, after its EXIT, and checks it.
    pub(crate) fn check(mut self, rt: &impl Abort, alloc: Global, name: &str) -> Result<(), Fail> {
        push(&mut self.printed, "A closed\n")?;
        check_play(rt, alloc, name, self.text, self.printed.as_slice(), 0)
    }
}

// Checks both halves of the session, each in two pieces.
fn check_cut(
    rt: &impl Abort,
    alloc: Global,
    name: &str,
    first: usize,
    second: usize,
) -> Result<(), Fail> {
    let mut played = Session::begun(alloc, ADC)?;
    played.piece(alloc, BEFORE, 0, first)?;
    played.piece(alloc, BEFORE, first, 1000)?;
    played.steps(CAPTURES, CAPTURED_TWICE)?;
    played.piece(alloc, AFTER, 0, second)?;
    played.piece(alloc, AFTER, second, 1000)?;
    played.check(rt, alloc, name)
}

// The session is cut at every byte, CRs and LFs included.
#[test]
fn usual_session_in_any_pieces(rt: HostRuntime) -> Result<(), Fail> {
    let before = stream_of(rt.alloc(), BEFORE)?.len();
    for cut in 0..=before {
        check_cut(&rt, rt.alloc(), "the first half is cut", cut, 0)?;
    }
    let after = stream_of(rt.alloc(), AFTER)?.len();
    for cut in 0..after {
        check_cut(&rt, rt.alloc(), "the second half is cut", 0, cut)?;
    }
    Ok(())
}

#[test]
fn usual_session_byte_by_byte(rt: HostRuntime) -> Result<(), Fail> {
    let mut played = Session::begun(rt.alloc(), ADC)?;
    played.bytes(rt.alloc(), BEFORE)?;
    played.steps(CAPTURES, CAPTURED_TWICE)?;
    played.bytes(rt.alloc(), AFTER)?;
    played.check(&rt, rt.alloc(), "byte by byte")
}

// Makes a payload of more than 65,536 bytes, and a line of more than 1,024.
fn broken_text(alloc: Global) -> Result<Vec<u8>, Fail> {
    let mut text = joined(
        alloc,
        &[
            ADC,
            "%%\nA \"WRITE adc0 INPUT accel_x calibbias 65537\\n\"\nB \"",
        ],
    )?;
    push_many(alloc, &mut text, b'x', 1025)?;
    push(&mut text, "\"\nA \"VERSION\\n\"\n")?;
    Ok(text)
}

#[test]
fn broken_limits(rt: HostRuntime) -> Result<(), Fail> {
    let printed = br#"A "-27\n"
A closed
B "-7\n"
B closed
A closed
"#;
    let text = broken_text(rt.alloc())?;
    check_play(&rt, rt.alloc(), "broken_limits", text, printed, 0)
}

// Makes the longest payload and the longest line, each in two steps.
fn kept_text(alloc: Global) -> Result<Vec<u8>, Fail> {
    let mut text = joined(
        alloc,
        &[
            ADC,
            "%%\nA \"WRITE adc0 INPUT accel_x calibbias 65536\\n\"\nA \"",
        ],
    )?;
    push_many(alloc, &mut text, b'x', 65_535)?;
    push(&mut text, "\"\nA \"x\"\nB \"")?;
    push_many(alloc, &mut text, b'x', 1024)?;
    push(&mut text, "\"\nB \"\\n\"\n")?;
    Ok(text)
}

#[test]
fn kept_limits(rt: HostRuntime) -> Result<(), Fail> {
    let printed = br#"A ""
A ""
A "-22\n"
B ""
B "-22\n"
"#;
    let text = kept_text(rt.alloc())?;
    check_play(&rt, rt.alloc(), "kept_limits", text, printed, 0)
}

// Makes a text that is repeated between two others.
fn repeated(
    alloc: Global,
    head: &str,
    text: &str,
    times: u32,
    last: &str,
) -> Result<Vec<u8>, Fail> {
    let mut bytes = joined(alloc, &[head])?;
    for _ in 0..times {
        push(&mut bytes, text)?;
    }
    push(&mut bytes, last)?;
    Ok(bytes)
}

// One step that sends 80,000 commands prints more than a million bytes, if there is memory for them.
#[test]
fn a_step_of_many_answers(rt: HostRuntime) -> Result<(), Fail> {
    let alloc = rt.alloc();
    let text = repeated(alloc, "%%\nA \"", "VERSION\\n", 80_000, "\"\n")?;
    let printed = repeated(alloc, "A \"", "0.25.iiosim0\\n", 80_000, "\"\n")?;
    let mut input = MemSource::new(text, 65_536, Vec::new(alloc));
    let mut output = sink(alloc, 2_000_000, &[])?;
    let ended = played(alloc, &mut input, &mut output)?;
    assert_eq!(rt; ended, Status::Done);
    assert!(rt; output.written() == printed.as_slice());
    Ok(())
}

// Makes a line of A of that many bytes.
fn long_command(alloc: Global, len: usize) -> Result<Vec<u8>, Fail> {
    let mut text = joined(alloc, &[BARE, "%%\nA \""])?;
    push_many(alloc, &mut text, b'x', len)?;
    push(&mut text, "\\n\"\n")?;
    Ok(text)
}

// A connection's line has at most 1,024 bytes.
#[test]
fn long_commands_end_the_connection(rt: HostRuntime) -> Result<(), Fail> {
    for (len, printed) in [
        (1024usize, b"A \"-22\\n\"\n".as_slice()),
        (1025, b"A \"-7\\n\"\nA closed\n"),
    ] {
        let text = long_command(rt.alloc(), len)?;
        check_play(&rt, rt.alloc(), "long_commands", text, printed, 0)?;
    }
    Ok(())
}
