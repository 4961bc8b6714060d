//! The program's words: it serves if the first of them is `serve`, and otherwise does a run.

use crate::tests::playing::{USAGE, outcome, owned, run_words, sink, source};
use iio_io::{ListDoor, MemLink, read_whole};
use iio_script::Status;
use iio_text::Why;
use iiod_program::{End, end_of};
use iiod_serve::ServeStatus;
use std::alloc::Global;
use std::process::Abort;
use std::sync::Wait;
use std::test::Fail;
use std::thread::Threads;

pub(crate) const FIRST_PATH: &[u8] =
    b"trigger t0 2\ndevice adc0 t0\nchannel voltage0 le:u12/16>>4\nchannel voltage1 le:u12/16>>4\nrow 0 1 2\n%%\nA \"OPEN adc0 1 00000001\\n\"\nfire t0 1000\nA \"READBUF adc0 4\\n\"\n";

const FIRST_PATH_PRINTED: &[u8] =
    b"A \"0\\n\"\npoll t0 accepted 1\nhandle t0 adc0 captured\nA \"2\\n00000001\\n\\x10\\x000\\n\"\n";

/// A device on the last of the four drivers.
const DRIVEN: &str = "trigger t 1\ndevice d t\nchannel voltage0 le:u8/8>>0\ndriver 3\n";

/// Words, an input, what is printed, and how it ends.
const ENDS: &[(&[&str], &str, &[u8], End)] = &[
    (
        &["serve", "a", "10"],
        DRIVEN,
        b"",
        End::Serve(ServeStatus::DoorEnd),
    ),
    (
        &["serve", "a", "10"],
        "x\n",
        b"refused 1 word\n",
        End::Serve(ServeStatus::Refused {
            line: 1,
            why: Why::Word,
        }),
    ),
    (&["serve"], DRIVEN, USAGE, End::Serve(ServeStatus::Usage)),
    (
        &["serve", "a", "0"],
        DRIVEN,
        USAGE,
        End::Serve(ServeStatus::Usage),
    ),
    (&["play"], DRIVEN, b"", End::Run(Status::Done)),
    (&["play", "serve"], DRIVEN, USAGE, End::Run(Status::Usage)),
    (&[], DRIVEN, USAGE, End::Run(Status::Usage)),
];

// Returns how words end over an input and a door without a connection, and what is printed.
fn end_after<R: Threads + Wait + Sync>(
    rt: &R,
    alloc: Global,
    words: &[&str],
    text: &str,
) -> Result<(End, Vec<u8>), Fail> {
    let list = owned(alloc, words)?;
    let mut input = source(alloc, text.as_bytes(), 100, &[])?;
    let mut output = sink(alloc, 100, &[])?;
    let links: Vec<MemLink> = Vec::new(alloc);
    let mut door = ListDoor::new(links, Vec::new(alloc));
    let end = end_of(
        rt,
        alloc,
        list.as_slice(),
        &mut input,
        &mut output,
        &mut door,
    )?;
    Ok((end, output.written().to_vec(alloc)?))
}

#[test]
fn first_word_chooses(rt: HostRuntime) -> Result<(), Fail> {
    for (words, text, printed, end) in ENDS {
        let (got, written) = end_after(&rt, rt.alloc(), words, text)?;
        assert_eq!(rt; got, *end, "{words:?}");
        assert_eq!(rt; written.as_slice(), *printed, "{words:?}");
    }
    Ok(())
}

/// Words that aren't a command, with a space between every two.
const OTHER_WORDS: &[&str] = &[
    "",
    "--help",
    "Play",
    "play ",
    "play play",
    "solo",
    "solo ",
    "solo 0",
    "solo A B",
    "solo A=B",
    "solo A23456789012345678901234567890123",
    "Solo A",
    "layout",
    "layout d",
    "layout d 1 2",
    "Layout d 1",
    "play d 1",
    "gen",
    "gen ",
    "gen 01",
    "gen +1",
    "gen x",
    "gen 1 2",
    "Gen 1",
    "gen 18446744073709551616",
    "serve a 10",
];

// Returns the words of a text, which are separated by single spaces.
fn words_of<'a>(alloc: Global, text: &'a str) -> Result<Vec<&'a str>, Fail> {
    let mut words = Vec::new(alloc);
    for word in text.split(' ') {
        words.push(word)?;
    }
    Ok(words)
}

// The commands are named, even if there is room only for a part of that line, and the input is left alone.
fn check_other(rt: &impl Abort, alloc: Global, words: &[&str]) -> Result<(), Fail> {
    let mut input = source(alloc, FIRST_PATH, 1000, &[])?;
    let (printed, status) = outcome(alloc, words, &mut input)?;
    let mut full = sink(alloc, 10, &[])?;
    let fault = run_words(alloc, words, &mut input, &mut full)?;
    let left = read_whole(alloc, &mut input, 1000)?;
    assert_eq!(rt; (status, fault), (Status::Usage, Status::WriteFault));
    assert_eq!(rt; printed.as_slice(), USAGE);
    assert_eq!(rt; full.written(), &USAGE[..10]);
    assert_eq!(rt; left.as_slice(), FIRST_PATH);
    Ok(())
}

#[test]
fn other_words_name_the_commands(rt: HostRuntime) -> Result<(), Fail> {
    for text in OTHER_WORDS {
        let words = words_of(rt.alloc(), text)?;
        check_other(&rt, rt.alloc(), words.as_slice())?;
    }
    check_other(&rt, rt.alloc(), &[])?;
    assert_eq!(rt; Status::Usage.code(), 2);
    Ok(())
}

// Plays a script through the word `play`. With enough memory the program doesn't give up.
#[test]
fn answers_with_ample_memory(rt: HostRuntime) -> Result<(), Fail> {
    let mut input = source(rt.alloc(), FIRST_PATH, 1000, &[])?;
    let (printed, status) = outcome(rt.alloc(), &["play"], &mut input)?;
    assert_ne!(rt; status, Status::Memory);
    assert_eq!(rt; status, Status::Done);
    assert_eq!(rt; printed.as_slice(), FIRST_PATH_PRINTED);
    Ok(())
}
