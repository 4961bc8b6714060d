//! Standard input and standard output, or whatever else is handed in to be read from and written to. As a source and a sink
//! their content isn't visible: nothing is known of what the system gives or takes.

ghost use Rattle.std.specs.Prelude.{◌≡◌, ◌+◌, ◌-◌, ◌^◌, ◌<◌, ◌≤◌, min, length, IfOk, MatchResult};
ghost use Rattle.std.specs.Io.KnownBytes.{ReadConsumes, WriteAppends};
ghost use Rattle.iio_io.specs.Outside.{CountsFault};

use crate::retrying::{read_retrying, write_retrying};
use crate::traits::{Failed, Sink, Source};
use iio_base::Count;
use std::io::{Read, Write};

/// A source over a reader, such as standard input, with its count of failed reads. A read that a signal cut short is tried
/// again.
#[derive(Drop)]
pub struct StdSource<R> {
    input: R,
    faults: Count,
}

impl<R: Read> StdSource<R> {
    /// Makes a source over the process's input, of which no read failed yet.
    pub fn new(input: R) -> StdSource<R>
        ensures { result ≡ record { input = input; faults = 0 } }
    {
        StdSource {
            input,
            faults: Count::new(),
        }
    }

    /// How often a read failed, but at most 2^64 - 1.
    pub fn faults(&self) -> u64
        ensures { result ≡ min self.now.faults (2 ^ 64 - 1) }
    {
        self.faults.get()
    }
}

impl<R: Read> Source for StdSource<R> {
    ghost use Rattle.std.specs.Prelude.{None};

    ghost left = { λ _. None };

    ghost faults = { λ s. s.faults };

    fn read(&mut self, out: &mut [u8]) -> Result<usize, Failed>
        ensures fits { IfOk result (λ n. n ≤ length out.new) }
        ensures bytes { ReadConsumes (R.remaining self.old.input) (R.remaining self.new.input) result out.new }
        ensures count { CountsFault result self.old.faults self.new.faults }
    {
        read_retrying(&mut self.input, &mut self.faults, out)
    }
}

/// A sink over a writer, such as standard output, with its count of failed writes. Nothing is held back: each write goes to the
/// system at once. A write that a signal cut short is tried again.
#[derive(Drop)]
pub struct StdSink<W> {
    output: W,
    faults: Count,
}

impl<W: Write> StdSink<W> {
    /// Makes a sink over the process's output, of which no write failed yet.
    pub fn new(output: W) -> StdSink<W>
        ensures { result ≡ record { output = output; faults = 0 } }
    {
        StdSink {
            output,
            faults: Count::new(),
        }
    }

    /// How often a write failed, but at most 2^64 - 1.
    pub fn faults(&self) -> u64
        ensures { result ≡ min self.now.faults (2 ^ 64 - 1) }
    {
        self.faults.get()
    }
}

impl<W: Write> Sink for StdSink<W> {
    ghost use Rattle.std.specs.Prelude.{None};

    ghost written = { λ _. None };

    ghost faults = { λ s. s.faults };

    // A write of a nonempty piece that takes nothing is a failure.
    fn write(&mut self, bytes: &[u8]) -> Result<usize, Failed>
        ensures fits { IfOk result (λ n. n ≤ length bytes.now) }
        ensures some { IfOk result (λ n. 0 < length bytes.now → 1 ≤ n) }
        ensures bytes { WriteAppends (W.contents self.old.output) (W.contents self.new.output) result bytes.now }
        ensures count { CountsFault result self.old.faults self.new.faults }
    {
        write_retrying(&mut self.output, &mut self.faults, bytes)
    }
}
