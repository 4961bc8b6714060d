//! A link in memory.

ghost use Rattle.std.specs.Prelude.{◌≡◌};
ghost use Rattle.iio_io.specs.MemEnds.{MemReads, MemWrites};

use crate::link::{Dial, Link};
use crate::memory::{MemSink, MemSource};
use crate::traits::{Failed, Sink, Source};

/// A link in memory, for tests: it receives from its source, and sends to its sink. Its faults are those of both.
#[derive(Drop)]
pub struct MemLink {
    source: MemSource,
    sink: MemSink,
}

impl MemLink {
    /// Makes a link of these two ends, as they are.
    pub fn new(source: MemSource, sink: MemSink) -> MemLink
        ensures { result ≡ record { source = source; sink = sink } }
    {
        MemLink { source, sink }
    }

    /// The bytes that were sent.
    pub fn sent(&self) -> &[u8]
        ensures { result.now ≡ self.now.sink.written }
    {
        self.sink.written()
    }
}

impl Link for MemLink {
    ghost use Rattle.std.specs.Prelude.{Some, ◌+◌};

    ghost left = { λ l. Some l.source.left };

    ghost written = { λ l. Some l.sink.written };

    ghost faults = { λ l. l.source.faults + l.sink.faults };

    fn recv(&mut self, out: &mut [u8]) -> Result<usize, Failed>
        ensures source { MemReads self.old.source out.old result self.new.source out.new }
        ensures sink { self.new.sink ≡ self.old.sink }
    {
        self.source.read(out)
    }

    fn send(&mut self, bytes: &[u8]) -> Result<usize, Failed>
        ensures sink { MemWrites self.old.sink bytes.now result self.new.sink }
        ensures source { self.new.source ≡ self.old.source }
    {
        self.sink.write(bytes)
    }
}

impl Dial for MemLink {
    fn dial(&mut self, _address: &str) -> Result<(), Failed>
        ensures never_fails { result ≡ Ok tt }
        ensures same { self.new ≡ self.old }
    {
        Ok(())
    }
}
