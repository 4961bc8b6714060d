//! Scripts that are played over a source and a sink in memory, with four drivers.

ghost use Rattle.std.specs.Prelude.{◌≤◌};

use iio_io::{MemSink, MemSource};
use iio_script::{Status, play};
use iio_sensor::{Failing, Ramp, Sensor};
use std::alloc::Global;
use std::process::Abort;
use std::str;
use std::test::Fail;

/// Returns the bytes of texts, one after the other.
pub(crate) fn joined(alloc: Global, texts: &[&str]) -> Result<Vec<u8>, Fail> {
    let mut bytes = Vec::new(alloc);
    for text in texts {
        bytes.extend_from_slice(text.as_bytes())?;
    }
    Ok(bytes)
}

/// Appends a text.
pub(crate) fn push(text: &mut Vec<u8>, more: &str) -> Result<(), Fail> {
    text.extend_from_slice(more.as_bytes())?;
    Ok(())
}

/// Appends a number between two texts.
pub(crate) fn push_numbered(
    alloc: Global,
    text: &mut Vec<u8>,
    before: &str,
    number: u32,
    after: &str,
) -> Result<(), Fail> {
    let line = format!(in alloc; "{before}{number}{after}")?;
    push(text, line.as_str())
}

/// Appends a byte that many times.
pub(crate) fn push_many(
    alloc: Global,
    text: &mut Vec<u8>,
    byte: u8,
    count: usize,
) -> Result<(), Fail> {
    let many = vec![in alloc; byte; count]?;
    text.extend_from_slice(many.as_slice())?;
    Ok(())
}

// Appends that many channels of one type.
fn push_channels(alloc: Global, text: &mut Vec<u8>, count: u32, ty: &str) -> Result<(), Fail> {
    for number in 0..count {
        push_numbered(alloc, text, "channel voltage", number, " ")?;
        push(text, ty)?;
        push(text, "\n")?;
    }
    Ok(())
}

/// Makes a device on t0 with that many channels of one type, what comes after them, and the line that ends a description.
pub(crate) fn wide(
    alloc: Global,
    name: &str,
    count: u32,
    ty: &str,
    rest: &str,
) -> Result<Vec<u8>, Fail> {
    let mut text = joined(alloc, &["trigger t0 2\ndevice ", name, " t0\n"])?;
    push_channels(alloc, &mut text, count, ty)?;
    push(&mut text, rest)?;
    push(&mut text, "%%\n")?;
    Ok(text)
}

type Drivers = Vec<Box<dyn Sensor + Send>>;

fn push_ramp(alloc: Global, drivers: &mut Drivers) -> Result<(), Fail> {
    drivers.push(Box::new(alloc, Ramp::new())?)?;
    Ok(())
}

// Adds a ramp whose asks with these numbers fail.
fn push_failing(alloc: Global, drivers: &mut Drivers, fails: &[u64]) -> Result<(), Fail> {
    drivers.push(Box::new(alloc, Failing::new(fails.to_vec(alloc)?))?)?;
    Ok(())
}

// Drivers 0 and 1 are ramps, 2 and 3 are ramps whose second ask fails.
fn four_drivers(alloc: Global) -> Result<Drivers, Fail> {
    let mut drivers: Drivers = Vec::new(alloc);
    push_ramp(alloc, &mut drivers)?;
    push_ramp(alloc, &mut drivers)?;
    push_failing(alloc, &mut drivers, &[2])?;
    push_failing(alloc, &mut drivers, &[2])?;
    Ok(drivers)
}

/// Plays a script over a source and a sink, and returns how it ends.
pub(crate) fn played(
    alloc: Global,
    input: &mut MemSource,
    output: &mut MemSink,
) -> Result<Status, Fail> {
    let drivers = four_drivers(alloc)?;
    Ok(play(alloc, input, drivers, output))
}

// Like `played`, with one driver: a ramp whose asks with these numbers fail.
fn driven(
    alloc: Global,
    fails: &[u64],
    input: &mut MemSource,
    output: &mut MemSink,
) -> Result<Status, Fail> {
    let mut drivers: Drivers = Vec::new(alloc);
    push_failing(alloc, &mut drivers, fails)?;
    Ok(play(alloc, input, drivers, output))
}

// Checks that a text was printed. `name` names the row that fails; lines are counted from 1.
fn check_printed(rt: &impl Abort, name: &str, printed: &[u8], wanted: &[u8]) {
    if let (Ok(printed), Ok(wanted)) = (str::from_utf8(printed), str::from_utf8(wanted)) {
        for (before, (line, expected)) in printed.lines().zip(wanted.lines()).enumerate() {
            assert_eq!(rt; line, expected, "{name}: line {}", before + 1);
        }
    }
    assert_eq!(rt; printed, wanted, "{name}");
}

// Checks what a run printed, and its exit code.
fn check_run(
    rt: &impl Abort,
    name: &str,
    ended: Result<Status, Fail>,
    output: &MemSink,
    printed: &[u8],
    status: u8,
) -> Result<(), Fail> {
    let code = ended?.code();
    check_printed(rt, name, output.written(), printed);
    assert_eq!(rt; code, status, "{name}");
    Ok(())
}

/// Checks scripts with their names, each of which is played to its
/// end: a description, the steps after it, and what they print.
pub(crate) fn check_rows(
    rt: &impl Abort,
    alloc: Global,
    rows: &[(&str, &str, &str, &str)],
) -> Result<(), Fail> {
    for (name, description, script, printed) in rows {
        let text = joined(alloc, &[description, "%%\n", script])?;
        check_play(rt, alloc, name, text, printed.as_bytes(), 0)?;
    }
    Ok(())
}

/// Checks what is printed for a text, and the exit code of the run; `name` names a row that fails.
pub(crate) fn check_play(
    rt: &impl Abort,
    alloc: Global,
    name: &str,
    text: Vec<u8>,
    printed: &[u8],
    status: u8,
) -> Result<(), Fail> {
    let mut input = MemSource::new(text, 1000, Vec::new(alloc));
    let mut output = sink(alloc, 100_000, &[])?;
    let ended = played(alloc, &mut input, &mut output);
    check_run(rt, name, ended, &output, printed, status)
}

/// Like `check_play`, with one driver: a ramp whose asks with these numbers fail.
pub(crate) fn check_driven(
    rt: &impl Abort,
    alloc: Global,
    name: &str,
    fails: &[u64],
    text: Vec<u8>,
    printed: &[u8],
) -> Result<(), Fail> {
    let mut input = MemSource::new(text, 1000, Vec::new(alloc));
    let mut output = sink(alloc, 100_000, &[])?;
    let ended = driven(alloc, fails, &mut input, &mut output);
    check_run(rt, name, ended, &output, printed, 0)
}

/// Checks what is printed for a text that comes in pieces of that many
/// bytes while these reads and writes fail, and the exit code of the run.
pub(crate) fn check_faults(
    rt: &impl Abort,
    alloc: Global,
    text: &[u8],
    piece: usize,
    reads: &[u64],
    writes: &[u64],
    printed: &[u8],
    status: u8,
) -> Result<(), Fail>
    requires { 1 ≤ piece }
{
    let mut input = source(alloc, text, piece, reads)?;
    let mut output = sink(alloc, 100_000, writes)?;
    let ended = played(alloc, &mut input, &mut output)?.code();
    let right = output.written() == printed && ended == status;
    check_right(rt, right, ended, reads, writes);
    Ok(())
}

fn check_right(rt: &impl Abort, right: bool, ended: u8, reads: &[u64], writes: &[u64]) {
    assert!(rt; right, "reads {reads:?}, writes {writes:?}: {ended}");
}

/// Makes a source that gives a text in pieces, and fails these reads.
pub(crate) fn source(
    alloc: Global,
    text: &[u8],
    piece: usize,
    fails: &[u64],
) -> Result<MemSource, Fail>
    requires { 1 ≤ piece }
{
    Ok(MemSource::new(text.to_vec(alloc)?, piece, fails.to_vec(alloc)?))
}

/// Makes a sink with that much room, which fails these writes.
pub(crate) fn sink(alloc: Global, room: usize, fails: &[u64]) -> Result<MemSink, Fail> {
    Ok(MemSink::new(alloc, room, fails.to_vec(alloc)?)?)
}
