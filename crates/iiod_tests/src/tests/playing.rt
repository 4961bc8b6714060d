//! The program's words over a source and a sink in memory, with the drivers that the program hands in.

ghost use Rattle.std.specs.Prelude.{◌≤◌};

use iio_io::{MemSink, MemSource};
use iio_script::Status;
use iio_sensor::{Failing, Ramp, Sensor};
use iiod_program::run;
use std::alloc::Global;
use std::test::Fail;

type Drivers = Vec<Box<dyn Sensor + Send>>;

fn push_ramp(alloc: Global, drivers: &mut Drivers) -> Result<(), Fail> {
    drivers.push(Box::new(alloc, Ramp::new())?)?;
    Ok(())
}

// Adds a ramp whose second ask fails.
fn push_failing(alloc: Global, drivers: &mut Drivers) -> Result<(), Fail> {
    drivers.push(Box::new(alloc, Failing::new(Vec::from_slice(alloc, &[2])?))?)?;
    Ok(())
}

// Drivers 0 and 1 are ramps, 2 and 3 are ramps whose second ask fails.
fn four_drivers(alloc: Global) -> Result<Drivers, Fail> {
    let mut drivers: Drivers = Vec::new(alloc);
    push_ramp(alloc, &mut drivers)?;
    push_ramp(alloc, &mut drivers)?;
    push_failing(alloc, &mut drivers)?;
    push_failing(alloc, &mut drivers)?;
    Ok(drivers)
}

/// Returns words as the program has them.
pub(crate) fn owned(alloc: Global, words: &[&str]) -> Result<Vec<String>, Fail> {
    let mut list = Vec::new(alloc);
    for word in words {
        list.push(String::from_str(alloc, word)?)?;
    }
    Ok(list)
}

/// Does what words say with a source and a sink.
pub(crate) fn run_words(
    alloc: Global,
    words: &[&str],
    input: &mut MemSource,
    output: &mut MemSink,
) -> Result<Status, Fail> {
    let words = owned(alloc, words)?;
    let drivers = four_drivers(alloc)?;
    Ok(run(alloc, words.as_slice(), drivers, input, output))
}

/// Returns what words print to a sink with room for all of it, and the status.
pub(crate) fn outcome(
    alloc: Global,
    words: &[&str],
    input: &mut MemSource,
) -> Result<(Vec<u8>, Status), Fail> {
    let mut output = sink(alloc, 10_000, &[])?;
    let status = run_words(alloc, words, input, &mut output)?;
    Ok((output.written().to_vec(alloc)?, status))
}

/// Returns the bytes of texts, one after the other.
pub(crate) fn joined(alloc: Global, texts: &[&str]) -> Result<Vec<u8>, Fail> {
    let mut bytes = Vec::new(alloc);
    for text in texts {
        bytes.extend_from_slice(text.as_bytes())?;
    }
    Ok(bytes)
}

pub(crate) const USAGE: &[u8] = b"usage: play | solo NAME | layout DEVICE MASK | gen N\n";

/// Makes a source that gives a text in pieces, and fails these reads.
pub(crate) fn source(
    alloc: Global,
    text: &[u8],
    piece: usize,
    fails: &[u64],
) -> Result<MemSource, Fail>
    requires { 1 ≤ piece }
{
    Ok(MemSource::new(text.to_vec(alloc)?, piece, fails.to_vec(alloc)?))
}

/// Makes a sink with that much room, which fails these writes.
pub(crate) fn sink(alloc: Global, room: usize, fails: &[u64]) -> Result<MemSink, Fail> {
    Ok(MemSink::new(alloc, room, fails.to_vec(alloc)?)?)
}
