//! The words `gen N`, and the counts of a text. The expected lines of `gen`
//! are those of another program that makes and plays the same inputs.

ghost use Rattle.std.specs.Prelude.{◌≤◌, length};

use crate::tests::playing::{outcome, run_words, sink, source};
use iio_io::read_whole;
use iio_script::{Status, Stop, tally};
use iio_text::Why;
use std::alloc::Global;
use std::test::Fail;

/// The counts of the input of 1.
const LINES: &[u8] = b"captures 7549\nscans 11106\noverruns 1342\nbytes 9826801\n";

/// Numbers, and the counts of their inputs.
const SUMMARIES: &[(&str, &[u8])] = &[
    ("1", LINES),
    (
        "7",
        b"captures 7487\nscans 11181\noverruns 1156\nbytes 8568503\n",
    ),
    (
        "18446744073709551615",
        b"captures 7525\nscans 11280\noverruns 1168\nbytes 7729946\n",
    ),
];

/// The input, none of which is taken.
const LEFT: &[u8] = b"trigger";

// Returns what is printed for a number, the status, and what is left of the input.
fn generated(alloc: Global, number: &str) -> Result<(Vec<u8>, Status, Vec<u8>), Fail> {
    let mut input = source(alloc, LEFT, 1000, &[])?;
    let (printed, status) = outcome(alloc, &["gen", number], &mut input)?;
    Ok((printed, status, read_whole(alloc, &mut input, 1000)?))
}

#[test]
fn generated_run(rt: HostRuntime) -> Result<(), Fail> {
    for (number, lines) in SUMMARIES {
        let (printed, status, left) = generated(rt.alloc(), number)?;
        assert_eq!(rt; status, Status::Done, "{number}");
        assert_eq!(rt; printed.as_slice(), *lines, "{number}");
        assert!(rt; left.as_slice() == LEFT, "{number}");
    }
    Ok(())
}

/// The room of a sink, the write that fails, what is written of the lines of 1, and the status. The lines have 54 bytes.
const WRITES: &[(usize, u64, &[u8], Status)] = &[
    (1000, 1, b"", Status::WriteFault),
    (20, 9, b"captures 7549\nscans ", Status::WriteFault),
    (
        53,
        9,
        b"captures 7549\nscans 11106\noverruns 1342\nbytes 9826801",
        Status::WriteFault,
    ),
    (54, 2, LINES, Status::Done),
];

fn written_to(alloc: Global, room: usize, failing: u64) -> Result<(Vec<u8>, Status), Fail> {
    let mut input = source(alloc, b"", 1000, &[])?;
    let mut output = sink(alloc, room, &[failing])?;
    let ended = run_words(alloc, &["gen", "1"], &mut input, &mut output)?;
    Ok((output.written().to_vec(alloc)?, ended))
}

// A sink takes as much as it has room for, and the next write fails.
#[test]
fn failing_writes_cut_the_summary(rt: HostRuntime) -> Result<(), Fail> {
    for (room, failing, lines, status) in WRITES {
        let (written, ended) = written_to(rt.alloc(), *room, *failing)?;
        assert_eq!(rt; ended, *status, "room {room}");
        assert_eq!(rt; written.as_slice(), *lines, "room {room}");
    }
    Ok(())
}

// Four captures for a queue of one scan, which gives two of them.
const COUNTED: &[u8] =
    b"trigger t0 2\ndevice y t0\nchannel voltage0 le:u8/8>>0\nrow 1 65\nrow 2 66\nrow 3 67\nrow 4 68\n%%\nA \"SET y BUFFERS_COUNT 1\\nOPEN y 1 00000001\\n\"\nfire t0 1\nfire t0 2\nfire t0 3\nA \"READBUF y 1\\n\"\nA \"READ y BUFFER overruns\\n\"\nfire t0 4\nA \"READBUF y 2\\n\"\nA \"READBUF y 1\\n\"\n";

// Returns the counts of a text, or why it has none. The contract says nothing of what the text means.
fn counted(alloc: Global, text: &[u8]) -> Result<[u64; 4], Stop>
    requires { length text.now ≤ 1000 }
{
    let found = tally(alloc, text)?;
    Ok([found.captures, found.scans, found.overruns, found.bytes])
}

// The counts of a text that is played, or its first line that fails.
#[test]
fn tally_of_a_run(rt: HostRuntime) {
    let refused = Stop::Refused {
        line: 1,
        why: Why::Word,
    };
    assert_eq!(rt; counted(rt.alloc(), COUNTED), Ok([4, 2, 2, 133]));
    assert_eq!(rt; counted(rt.alloc(), b"x\n"), Err(refused));
}
