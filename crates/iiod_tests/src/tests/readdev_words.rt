//! `readdev` over sources, sinks and links in memory. The expected texts were written by hand.

use iio_io::{Dial, MemLink, MemSink, MemSource, TcpLink};
use iio_text::Why;
use iiod_readdev::{ReadStatus, exit_of, is_readdev, readdev};
use std::alloc::Global;
use std::process::{Abort, ExitCode};
use std::test::Fail;

const DESCRIPTION: &str = "trigger t0 2
device adc0 t0
channel voltage0 le:u12/16>>4
channel voltage1 le:u12/16>>4
channel accel_x be:s16/16>>0
timestamp
row 0 1 2 -3
%%
";

const USAGE: &str = "usage: play | solo NAME | layout DEVICE MASK | gen N\n";

const OPEN_SENT: &str = "OPEN adc0 1 00000005\n";

const READ_SENT: &str = "OPEN adc0 1 00000005\nREADBUF adc0 4\n";

/// The words, the input, what the link gives, the failing calls of the source and of the link, the room of the output, what
/// is sent and printed, the status and the exit code.
#[derive(Clone, Copy)]
struct Row<'a> {
    words: &'a [&'a str],
    input: &'a str,
    given: &'a [u8],
    reads: &'a [u64],
    receives: &'a [u64],
    room: usize,
    sent: &'a str,
    printed: &'a str,
    status: ReadStatus,
    code: u8,
}

/// A reading of one scan.
const READ: Row<'static> = Row {
    words: &["readdev", "a", "adc0", "1", "00000005", "1"],
    input: DESCRIPTION,
    given: b"0\n4\n00000005\n\x10\x00\xff\xfd0\n",
    reads: &[],
    receives: &[],
    room: 1000,
    sent: "OPEN adc0 1 00000005\nREADBUF adc0 4\nCLOSE adc0\nEXIT\n",
    printed: "1000fffd voltage0=1 accel_x=-3\n",
    status: ReadStatus::Done,
    code: 0,
};

/// Words that are refused at line 0: nothing is sent.
const WORDS_REFUSED: Row<'static> = Row {
    sent: "",
    printed: "refused 0 mask\n",
    status: ReadStatus::Refused {
        line: 0,
        why: Why::Mask,
    },
    code: 1,
    ..READ
};

/// Each status except lack of memory, an input that is too long, and a connection that can't be begun.
const ROWS: &[Row<'static>] = &[
    READ,
    // Numbers may have leading zeros.
    Row {
        words: &["readdev", "", "adc0", "0001", "00000005", "01"],
        ..READ
    },
    // An input may end without the line that ends its description.
    Row {
        words: &["readdev", "a", "adc1", "1", "00000001", "1"],
        input: "trigger t0 2\ndevice adc1 t0\nchannel voltage0 le:u12/16>>4\n",
        given: b"0\n2\n00000001\n\x10\x000\n",
        sent: "OPEN adc1 1 00000001\nREADBUF adc1 2\nCLOSE adc1\nEXIT\n",
        printed: "1000 voltage0=1\n",
        ..READ
    },
    // A driver is given by its number; there are four.
    Row {
        words: &["readdev", "a", "adc1", "1", "00000001", "1"],
        input: "trigger t0 2\ndevice adc1 t0\nchannel voltage0 le:u12/16>>4\ndriver 3\n",
        given: b"0\n2\n00000001\n\x10\x000\n",
        sent: "OPEN adc1 1 00000001\nREADBUF adc1 2\nCLOSE adc1\nEXIT\n",
        printed: "1000 voltage0=1\n",
        ..READ
    },
    Row {
        input: "trigger t0 2\ntrigger t0 2\n%%\n",
        sent: "",
        printed: "refused 2 taken\n",
        status: ReadStatus::Refused {
            line: 2,
            why: Why::Taken,
        },
        code: 1,
        ..READ
    },
    // The device is looked up before the mask is read.
    Row {
        words: &["readdev", "a", "adc1", "1", "no mask", "1"],
        printed: "refused 0 device\n",
        status: ReadStatus::Refused {
            line: 0,
            why: Why::Device,
        },
        ..WORDS_REFUSED
    },
    // An averaging device isn't read.
    Row {
        words: &["readdev", "a", "avg0", "1", "00000001", "1"],
        input: "device adc0 -\nchannel voltage0 le:u12/16>>4\naverage avg0 adc0 2\n",
        printed: "refused 0 device\n",
        status: ReadStatus::Refused {
            line: 0,
            why: Why::Device,
        },
        ..WORDS_REFUSED
    },
    // An output device isn't read.
    Row {
        words: &["readdev", "a", "dac0", "1", "00000001", "1"],
        input: "output dac0 -\nchannel voltage0 le:u12/16>>4\n",
        printed: "refused 0 device\n",
        status: ReadStatus::Refused {
            line: 0,
            why: Why::Device,
        },
        ..WORDS_REFUSED
    },
    Row {
        words: &["readdev", "a", "adc0", "1", "0000005", "1"],
        ..WORDS_REFUSED
    },
    Row {
        words: &["readdev", "a", "adc0", "1", "00000010", "1"],
        ..WORDS_REFUSED
    },
    Row {
        words: &["readdev", "a", "adc0", "1", "00000000", "1"],
        ..WORDS_REFUSED
    },
    // The timestamp alone isn't a data channel.
    Row {
        words: &["readdev", "a", "adc0", "1", "00000008", "1"],
        ..WORDS_REFUSED
    },
    Row {
        reads: &[1],
        sent: "",
        printed: "",
        status: ReadStatus::ReadFault,
        code: 3,
        ..READ
    },
    Row {
        room: 4,
        sent: READ_SENT,
        printed: "1000",
        status: ReadStatus::WriteFault,
        code: 4,
        ..READ
    },
    Row {
        words: &["readdev", "a", "adc0", "1", "00000000", "1"],
        room: 9,
        printed: "refused 0",
        status: ReadStatus::WriteFault,
        code: 4,
        ..WORDS_REFUSED
    },
    Row {
        receives: &[1],
        sent: OPEN_SENT,
        printed: "",
        status: ReadStatus::LinkFault,
        code: 8,
        ..READ
    },
    Row {
        given: b"0\n3\n00000005\n\x10\x00\xff0\n",
        sent: READ_SENT,
        printed: "",
        status: ReadStatus::Malformed,
        code: 9,
        ..READ
    },
    Row {
        given: b"0\n4\n00000005\n\x10",
        sent: READ_SENT,
        printed: "",
        status: ReadStatus::Cut,
        code: 10,
        ..READ
    },
    Row {
        given: b"-16\n",
        sent: OPEN_SENT,
        printed: "refused -16\n",
        status: ReadStatus::Answered(16),
        code: 11,
        ..READ
    },
];

/// Words that aren't those of `readdev`.
const WRONG: &[&[&str]] = &[
    &[],
    &["readdev"],
    &["readdev", "a", "adc0", "1", "00000005"],
    &["readdev", "a", "adc0", "1", "00000005", "1", "1"],
    &["Readdev", "a", "adc0", "1", "00000005", "1"],
    &["layout", "a", "adc0", "1", "00000005", "1"],
    &["readdev", "a", "adc0", "0", "00000005", "1"],
    &["readdev", "a", "adc0", "", "00000005", "1"],
    &["readdev", "a", "adc0", "-1", "00000005", "1"],
    &["readdev", "a", "adc0", "+1", "00000005", "1"],
    &["readdev", "a", "adc0", "1.0", "00000005", "1"],
    &["readdev", "a", "adc0", "4294967296", "00000005", "1"],
    &["readdev", "a", "adc0", "1", "00000005", "0"],
    &["readdev", "a", "adc0", "1", "00000005", "00"],
    &["readdev", "a", "adc0", "1", "00000005", ""],
    &["readdev", "a", "adc0", "1", "00000005", "all"],
    &["readdev", "a", "adc0", "1", "00000005", "4294967296"],
];

fn owned(alloc: Global, words: &[&str]) -> Result<Vec<String>, Fail> {
    let mut list = Vec::new(alloc);
    for word in words {
        list.push(String::from_str(alloc, word)?)?;
    }
    Ok(list)
}

// Returns what words do with an input, an output and a link, with four drivers.
fn status_of<L: Dial>(
    alloc: Global,
    words: &[&str],
    input: &mut MemSource,
    output: &mut MemSink,
    link: &mut L,
) -> Result<ReadStatus, Fail> {
    let words = owned(alloc, words)?;
    Ok(readdev(alloc, words.as_slice(), 4, input, output, link))
}

fn input_of(alloc: Global, row: &Row) -> Result<MemSource, Fail> {
    Ok(MemSource::new(
        row.input.as_bytes().to_vec(alloc)?,
        100,
        row.reads.to_vec(alloc)?,
    ))
}

fn link_of(alloc: Global, row: &Row) -> Result<MemLink, Fail> {
    let source = MemSource::new(row.given.to_vec(alloc)?, 1, row.receives.to_vec(alloc)?);
    Ok(MemLink::new(source, MemSink::new(alloc, 1000, Vec::new(alloc))?))
}

fn check_row(rt: &impl Abort, alloc: Global, row: &Row) -> Result<(), Fail> {
    let mut input = input_of(alloc, row)?;
    let mut output = MemSink::new(alloc, row.room, Vec::new(alloc))?;
    let mut link = link_of(alloc, row)?;
    let status = status_of(alloc, row.words, &mut input, &mut output, &mut link)?;
    let told = (status, status.code());
    assert_eq!(rt; output.written(), row.printed.as_bytes(), "{:?}", row.words);
    assert_eq!(rt; told, (row.status, row.code), "{:?}", row.words);
    assert_eq!(rt; link.sent(), row.sent.as_bytes(), "{:?}", row.words);
    Ok(())
}

#[test]
fn each_status(rt: HostRuntime) -> Result<(), Fail> {
    for row in ROWS {
        check_row(&rt, rt.alloc(), row)?;
    }
    Ok(())
}

// The input isn't read: a read of it that would fail doesn't take place.
#[test]
fn other_words_name_the_commands(rt: HostRuntime) -> Result<(), Fail> {
    for words in WRONG {
        let row = Row {
            words,
            reads: &[1],
            sent: "",
            printed: USAGE,
            status: ReadStatus::Usage,
            code: 2,
            ..READ
        };
        check_row(&rt, rt.alloc(), &row)?;
    }
    Ok(())
}

// An input of one byte more than is looked at, without a line that fails.
fn long_input(alloc: Global) -> Result<MemSource, Fail> {
    let mut text = vec![in alloc; b'#'; 67_108_865]?;
    for line in 0..68usize {
        if let Some(byte) = text.get_mut(line.saturating_mul(1_000_000)) {
            *byte = b'\n';
        }
    }
    Ok(MemSource::new(text, 65_536, Vec::new(alloc)))
}

#[test]
fn too_long(rt: HostRuntime) -> Result<(), Fail> {
    let alloc = rt.alloc();
    let mut input = long_input(alloc)?;
    let mut output = MemSink::new(alloc, 100, Vec::new(alloc))?;
    let mut link = TcpLink::new(rt);
    let status = status_of(alloc, READ.words, &mut input, &mut output, &mut link)?;
    assert_eq!(rt; output.written(), b"too long\n".as_slice());
    assert_eq!(rt; (status, status.code()), (ReadStatus::TooLong, 6));
    assert_eq!(rt; link.faults(), 0);
    Ok(())
}

// An address without a port isn't one: the link is dialled once, and nothing is sent over it.
#[test]
fn no_address(rt: HostRuntime) -> Result<(), Fail> {
    let alloc = rt.alloc();
    for (room, printed, told) in [
        (100usize, "no address\n", (ReadStatus::NoAddress, 7u8)),
        (4, "no a", (ReadStatus::WriteFault, 4)),
    ] {
        let mut input = input_of(alloc, &READ)?;
        let mut output = MemSink::new(alloc, room, Vec::new(alloc))?;
        let mut link = TcpLink::new(rt);
        let status = status_of(alloc, READ.words, &mut input, &mut output, &mut link)?;
        assert_eq!(rt; output.written(), printed.as_bytes());
        assert_eq!(rt; (status, status.code(), link.faults()), (told.0, told.1, 1));
    }
    Ok(())
}

// Returns the exit code of the process after a reading of these bytes, and
// whether its words, and the same without the first one, are those of `readdev`.
fn exit_after(alloc: Global, given: &'static [u8]) -> Result<(ExitCode, bool, bool), Fail> {
    let row = Row { given, ..READ };
    let mut input = input_of(alloc, &row)?;
    let mut output = MemSink::new(alloc, 100, Vec::new(alloc))?;
    let mut link = link_of(alloc, &row)?;
    let words = owned(alloc, row.words)?;
    let words = words.as_slice();
    if words.is_empty() {
        return Err(Fail::from("no words"));
    }
    let ended = exit_of(alloc, words, &mut input, &mut output, &mut link);
    Ok((ended, is_readdev(words), is_readdev(&words[1..])))
}

#[test]
fn a_reading_ends_with_the_code_of_its_status(rt: HostRuntime) -> Result<(), Fail> {
    for (given, code) in [(READ.given, 0u8), (b"-16\n".as_slice(), 11)] {
        let (ended, with_first, without) = exit_after(rt.alloc(), given)?;
        assert_eq!(rt; ended, ExitCode::from(code));
        assert_eq!(rt; (with_first, without), (true, false));
    }
    Ok(())
}
