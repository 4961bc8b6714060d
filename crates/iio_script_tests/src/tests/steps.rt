//! Lines of a script that are refused, by the first of their checks
//! that fails, and the maximum number of names of connections.

use crate::tests::playing::{check_play, joined, push, push_many, push_numbered};
use std::alloc::Global;
use std::process::Abort;
use std::test::Fail;

/// Five lines; the last of them is a step.
const HEAD: &str = "trigger t 2
device d t
channel voltage0 le:u8/8>>0
%%
clock 1
";

/// A sixth line, and the word with which it is refused: each check of
/// each step, in their order, and then lines that fail two checks.
const STEPS: &[(&str, &str)] = &[
    ("fire t\t1", "text"),
    ("fire", "count"),
    ("fire t", "count"),
    ("fire t 1 1", "count"),
    ("fire u 1", "trigger"),
    ("fire d 1", "trigger"),
    ("fire t x", "number"),
    ("fire t 01", "number"),
    ("fire t +1", "number"),
    ("fire t -0", "number"),
    ("fire t 9223372036854775808", "number"),
    ("fire u\x7f", "text"),
    ("fire u", "count"),
    ("fire u x", "trigger"),
    ("poll t 1\r", "text"),
    ("poll t", "count"),
    ("poll t 1 1", "count"),
    ("poll u 1", "trigger"),
    ("poll t 1.0", "number"),
    ("poll t -9223372036854775809", "number"),
    ("poll u\t", "text"),
    ("poll u", "count"),
    ("poll u x", "trigger"),
    ("handle t d\0", "text"),
    ("handle t", "count"),
    ("handle t d 1", "count"),
    ("handle d d", "trigger"),
    ("handle t t", "device"),
    ("handle u\x1f", "text"),
    ("handle u", "count"),
    ("handle u e", "trigger"),
    ("sense d\t1", "text"),
    ("sense d", "count"),
    ("sense d 1 1", "count"),
    ("sense t 1", "device"),
    ("sense d 1e3", "number"),
    ("sense e\t", "text"),
    ("sense e", "count"),
    ("sense e x", "device"),
    ("clock\t1", "text"),
    ("clock", "count"),
    ("clock 1 1", "count"),
    ("clock x", "number"),
    ("clock x\t", "text"),
    ("clock x x", "count"),
    ("drop A\x7f", "text"),
    ("drop", "count"),
    ("drop A A", "count"),
    ("drop 0A", "name"),
    ("drop \"A\"", "name"),
    ("drop A23456789012345678901234567890123", "name"),
    ("drop 0A\t", "text"),
    ("drop 0A A", "count"),
    ("unplug d\t", "text"),
    ("unplug", "count"),
    ("unplug d d", "count"),
    ("unplug t", "device"),
    ("unplug e\t", "text"),
    ("unplug e e", "count"),
    ("A \"\t\"", "text"),
    ("0A \"\"", "word"),
    ("A, \"\"", "word"),
    ("A\"\"", "word"),
    ("\"\"", "word"),
    (" # x", "word"),
    ("%%", "word"),
    ("A23456789012345678901234567890123 \"\"", "word"),
    ("A", "count"),
    ("A x", "count"),
    ("A x \"\"", "count"),
    ("A x\"\"", "count"),
    ("trigger u 1", "count"),
    ("A \"", "text"),
    ("A \"x", "text"),
    ("A \"x\" ", "text"),
    ("A \"x\"\"", "text"),
    ("A \"\\", "text"),
    ("A \"\\\"", "text"),
    ("A \"\\q\"", "text"),
    ("A \"\\N\"", "text"),
    ("A \"\\x0\"", "text"),
    ("A \"\\x0g\"", "text"),
    ("A \"\\X00\"", "text"),
    ("0A\t", "text"),
    ("0A", "word"),
    ("0A \"", "word"),
    ("A x\"", "count"),
    ("fire \"\\n\"", "count"),
    ("poll \"\\n\"", "count"),
    ("handle \"\\n\"", "count"),
    ("sense \"\\n\"", "count"),
    ("clock \"\\n\"", "number"),
    ("drop \"\\n\"", "name"),
    ("unplug \"\\n\"", "device"),
];

// The answers of the steps before a refused line stand; the lines after it aren't looked at.
#[test]
fn refused_steps(rt: HostRuntime) -> Result<(), Fail> {
    for (line, why) in STEPS {
        let text = joined(rt.alloc(), &[HEAD, line, "\nclock 2\n"])?;
        let printed = joined(rt.alloc(), &["clock 1\nrefused 6 ", why, "\n"])?;
        check_play(&rt, rt.alloc(), line, text, printed.as_slice(), 1)?;
    }
    Ok(())
}

/// Lines, accepted and refused ones, in two parts, and what they print if they aren't too long.
const LINES: &[(&str, &str, &str, u8)] = &[
    ("fire", "t 1", "poll t accepted 0\n", 0),
    ("poll", "t 1", "poll t accepted 0\n", 0),
    ("handle", "t d", "handle t d none\n", 0),
    ("sense", "d 1", "d sensed 0\n", 0),
    ("clock", "2", "clock 2\n", 0),
    ("drop", "A", "A closed\n", 0),
    ("unplug", "d", "d unplugged\n", 0),
    ("A", "\"\"", "A \"\"\n", 0),
    ("", "", "", 0),
    ("#", "\t", "", 0),
    ("fire", "\t", "refused 6 text\n", 1),
    ("0A", "", "refused 6 word\n", 1),
    ("fire", "", "refused 6 count\n", 1),
];

// Returns two parts of a line with spaces between them, of `len` bytes in all.
fn spaced(alloc: Global, first: &str, last: &str, len: usize) -> Result<Vec<u8>, Fail> {
    let words = first.len().saturating_add(last.len());
    let mut text = joined(alloc, &[HEAD, first])?;
    push_many(alloc, &mut text, b' ', len.saturating_sub(words))?;
    push(&mut text, last)?;
    push(&mut text, "\n")?;
    Ok(text)
}

// Checks what such a line prints.
fn check_line(
    rt: &impl Abort,
    alloc: Global,
    parts: (&str, &str),
    len: usize,
    printed: &str,
    status: u8,
) -> Result<(), Fail> {
    let (first, last) = parts;
    let text = spaced(alloc, first, last, len)?;
    let printed = joined(alloc, &["clock 1\n", printed])?;
    check_play(rt, alloc, first, text, printed.as_slice(), status)
}

// A line may have 1,048,576 bytes. If it is too long, this is reported before all else that is wrong with it.
#[test]
fn long_steps(rt: HostRuntime) -> Result<(), Fail> {
    for (first, last, printed, status) in LINES {
        let parts = (*first, *last);
        check_line(&rt, rt.alloc(), parts, 1_048_576, printed, *status)?;
        check_line(&rt, rt.alloc(), parts, 1_048_577, "refused 6 long\n", 1)?;
    }
    Ok(())
}

/// Steps after feeds of n0 to n63, in lines 6 to 69, and what they print.
const FURTHER: &[(&str, &str, u8)] = &[
    (
        "n63 \"\"\ndrop n64\nclock 2\n",
        "n63 \"\"\nn64 closed\nclock 2\n",
        0,
    ),
    ("n64 \"\"\n", "refused 70 limit\n", 1),
    ("n64 \"VERSION\\n\"\n", "refused 70 limit\n", 1),
    ("n64 \"\t\"\n", "refused 70 text\n", 1),
    ("0n \"\"\n", "refused 70 word\n", 1),
    ("n64\n", "refused 70 count\n", 1),
    ("n64 x\n", "refused 70 count\n", 1),
    ("n64 \"\n", "refused 70 text\n", 1),
    ("n64 \"\\q\"\n", "refused 70 text\n", 1),
    ("drop n0\nn64 \"\"\n", "n0 dropped\nrefused 71 limit\n", 1),
    (
        "n0 \"EXIT\\n\"\nn64 \"\"\n",
        "n0 \"\"\nn0 closed\nrefused 71 limit\n",
        1,
    ),
    ("drop n0\nn0 \"\"\n", "n0 dropped\nn0 closed\n", 0),
];

// Makes feeds of 64 names, between a first text and what follows.
fn with_names(alloc: Global, head: &str, further: &str) -> Result<Vec<u8>, Fail> {
    let mut text = joined(alloc, &[head])?;
    for number in 0..64u32 {
        push_numbered(alloc, &mut text, "n", number, " \"\"\n")?;
    }
    push(&mut text, further)?;
    Ok(text)
}

// There may be 64 names of connections, including those that have ended; `drop` adds none.
#[test]
fn sixty_four_names(rt: HostRuntime) -> Result<(), Fail> {
    for (lines, further, status) in FURTHER {
        let text = with_names(rt.alloc(), HEAD, lines)?;
        let printed = with_names(rt.alloc(), "clock 1\n", further)?;
        check_play(&rt, rt.alloc(), lines, text, printed.as_slice(), *status)?;
    }
    Ok(())
}
