//! Reads and writes that fail.

use crate::tests::devices::ADC;
use crate::tests::examples::{FIRST_PATH, FIRST_PATH_PRINTED};
use crate::tests::playing::{check_faults, joined, played, push, sink, source};
use std::alloc::Global;
use std::process::Abort;
use std::test::Fail;

/// The steps after the description, which has six lines, and the line that ends it.
const STEPS: &str = r#"%%
A "OPEN adc0 1 00000005\n"
fire t0 1000
A "READBUF adc0 8\n"
"#;

/// What the steps print, for each line of the script.
const PRINTED: &[&str] = &[
    "A \"0\\n\"\n",
    "poll t0 accepted 1\nhandle t0 adc0 captured\n",
    "A \"4\\n00000005\\n\\x10\\x00\\xff\\xfd0\\n\"\n",
];

fn usual(alloc: Global) -> Result<Vec<u8>, Fail> {
    joined(alloc, &[ADC, STEPS])
}

// Returns the number of lines that end in a text.
fn ended_lines(text: &[u8]) -> usize {
    let mut lines = 0usize;
    for byte in text {
        if *byte == b'\n' {
            lines = lines.saturating_add(1);
        }
    }
    lines
}

// Returns what the first `lines` lines of a text print, of which `head` come before the steps.
fn printed_by(alloc: Global, head: usize, lines: usize) -> Result<Vec<u8>, Fail> {
    let steps = lines.saturating_sub(head).min(PRINTED.len());
    joined(alloc, &PRINTED[..steps])
}

// With one byte per read, each read fails in turn, up to the one after
// the last byte, and what the whole lines before it print was written.
fn check_reads(rt: &impl Abort, alloc: Global, text: &[u8]) -> Result<(), Fail> {
    let head = ended_lines(ADC.as_bytes()).saturating_add(1);
    for taken in 0..=text.len() {
        let failing = taken as u64 + 1;
        let printed = printed_by(alloc, head, ended_lines(&text[..taken]))?;
        check_faults(rt, alloc, text, 1, &[failing], &[], &printed, 3)?;
    }
    Ok(())
}

// Each write fails in turn: there is one for each line that prints.
fn check_writes(rt: &impl Abort, alloc: Global, text: &[u8]) -> Result<(), Fail> {
    for written in 0..PRINTED.len() {
        let failing = written as u64 + 1;
        let printed = joined(alloc, &PRINTED[..written])?;
        check_faults(rt, alloc, text, 1, &[], &[failing], &printed, 4)?;
    }
    Ok(())
}

// The read and the write after the last ones don't take place.
#[test]
fn every_read_and_write_fails(rt: HostRuntime) -> Result<(), Fail> {
    let text = usual(rt.alloc())?;
    check_reads(&rt, rt.alloc(), &text)?;
    check_writes(&rt, rt.alloc(), &text)?;
    let printed = joined(rt.alloc(), PRINTED)?;
    let reads = text.len() as u64 + 2;
    check_faults(&rt, rt.alloc(), &text, 1, &[reads], &[4], &printed, 0)
}

/// A name, the number of bytes that are cut off the text's end, what is printed last, and the status.
const CUT: &[(&str, usize, &str, u8)] = &[
    ("without its last LF", 1, "", 0),
    ("behind READBUF", 11, "refused 11 text\n", 1),
];

// An input that ends within a line.
fn check_cut(
    rt: &impl Abort,
    alloc: Global,
    cut: usize,
    last: &str,
    status: u8,
) -> Result<(), Fail> {
    let text = usual(alloc)?;
    let len = text.len().saturating_sub(cut);
    let steps = if status == 0 { 3 } else { 2 };
    let mut printed = joined(alloc, &PRINTED[..steps])?;
    push(&mut printed, last)?;
    check_faults(rt, alloc, &text[..len], 1, &[], &[], &printed, status)?;
    check_faults(rt, alloc, &text[..len], 1000, &[], &[], &printed, status)
}

#[test]
fn streamed_faults(rt: HostRuntime) -> Result<(), Fail> {
    for (_, cut, last, status) in CUT {
        check_cut(&rt, rt.alloc(), *cut, last, *status)?;
    }
    Ok(())
}

/// The room of a sink, the write that fails, the number of bytes written, and the status. The text has 80 bytes.
const WRITES: &[(usize, u64, usize, u8)] = &[
    (1000, 1, 0, 4),
    (0, 9, 0, 4),
    (1, 9, 1, 4),
    (40, 2, 40, 4),
    (79, 9, 79, 4),
    (80, 2, 80, 0),
];

// What the first example writes to such a sink is a front part of
// what it prints; returns its number of bytes and the exit code.
fn written_to(alloc: Global, room: usize, failing: u64) -> Result<Option<(usize, u8)>, Fail> {
    let mut input = source(alloc, FIRST_PATH, 1000, &[])?;
    let mut output = sink(alloc, room, &[failing])?;
    let ended = played(alloc, &mut input, &mut output)?.code();
    let written = output.written();
    Ok(if FIRST_PATH_PRINTED.starts_with(written) {
        Some((written.len(), ended))
    } else {
        None
    })
}

// A sink takes as much as it has room for, and the next write fails.
#[test]
fn failing_writes_end_the_run(rt: HostRuntime) -> Result<(), Fail> {
    for (room, failing, taken, status) in WRITES {
        let written = written_to(rt.alloc(), *room, *failing)?;
        assert_eq!(rt; written, Some((*taken, *status)), "room {room}");
    }
    Ok(())
}
