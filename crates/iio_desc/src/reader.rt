//! Reads a description from its lines, one after another, or from a text.

ghost use Rattle.std.specs.Prelude.{◌≡◌, ◌+◌, ◌-◌, ◌^◌, ◌<◌, ◌≤◌, length, Ok, Err, IfOk, IfErr, OnOk, IsOk};
ghost use Rattle.iio_text.specs.Lines.{lines_of};
ghost use Rattle.iio_text.specs.Words.{words_of, is_space};
ghost use Rattle.iio_desc.specs.Lines.{is_end};
ghost use Rattle.iio_desc.specs.DescFault.{fault_at, Locates};
ghost use Rattle.iio_desc.specs.DescReader.{new_reader, after_line, finished, ended_by, read_of, line_count, drivers_of};
ghost use Rattle.iio_desc.specs.PartialDesc.{device_count};
ghost use Rattle.iio_desc.specs.WellFormed.{IsWellFormed};
ghost use Rattle.iio_desc.specs.declared.reader.DescFault.TheVariants.{Mem as OutOfMemory};

use crate::desc_builder::DescBuilder;
use crate::description::Desc;
use iio_base::Mem;
use iio_text::{LineFault, Why, next_line, next_word};
use std::alloc::Global;
use std::marker::Model;
use thiserror::Error;

/// Why a description isn't read.
#[derive(Clone, Copy, Debug, PartialEq, Eq, Error)]
pub enum DescFault {
    /// The first line that is refused, counted from 1, and its first check that fails. If a description may not end
    /// yet, the line after its last is refused.
    #[error("line {number} refused: {}", .why.text())]
    Line { number: u32, why: Why },
    /// Memory ran out.
    #[error("out of memory")]
    Mem,
}

impl DescFault {
    // The fault of a line, with the line's number.
    fn at(number: u32, fault: LineFault) -> DescFault
        ensures { result ≡ fault_at number fault }
    {
        match fault {
            LineFault::Why(why) => DescFault::Line { number, why },
            LineFault::Mem => DescFault::Mem,
        }
    }
}

impl From<Mem> for DescFault {
    ghost from_gives = { λ _ e. e ≡ OutOfMemory };

    fn from(_e: Mem) -> DescFault {
        DescFault::Mem
    }
}

/// Whether a line ends the description: its first word is `%%`.
pub fn is_end(line: &[u8]) -> bool
    ensures { result ≡ is_end line.now }
{
    match next_word(line) {
        None => false,
        Some((word, _)) => word == b"%%".as_slice(),
    }
}

/// Reads the lines of a description one after another. Contracts see it as what the lines so far say, or as the fault
/// that it returned, and returns from then on.
#[derive(Drop)]
pub struct DescReader {
    builder: DescBuilder,
    // How many lines were read.
    lines: u32,
    fault: Option<DescFault>,
}

impl Model for DescReader {
    ghost use Rattle.std.specs.Prelude.{◌-◌, ◌^◌, ◌≤◌};
    ghost use Rattle.iio_desc.specs.DescReader.{Reader, reader_of};

    ghost Value = { Reader };

    ghost view = { λ r. reader_of r.lines r.builder r.fault };

    ghost invariant = { λ r. r.lines ≤ 2 ^ 32 - 2 };
}

impl DescReader {
    /// A reader before the first line, of a description that may use as many drivers as are handed in.
    pub fn new(alloc: Global, drivers: u32) -> Result<DescReader, Mem>
        ensures { result ≡ Ok (new_reader drivers) }
    {
        Ok(DescReader {
            builder: DescBuilder::new(alloc, drivers),
            lines: 0,
            fault: None,
        })
    }

    /// Reads another line, without its LF. The first fault, which is the line's first check that fails or lack of memory, is
    /// returned by each later call too.
    pub fn line(&mut self, bytes: &[u8]) -> Result<(), DescFault>
        requires { line_count self.old < 2 ^ 32 - 2 }
        ensures ok { OnOk result ((self.new ≡ after_line self.old bytes.now) × IsOk self.new) }
        ensures err { IfErr result (λ fault. Locates fault (after_line self.old bytes.now)) }
        ensures from_then_on { IfErr result (λ fault. self.new ≡ Err fault) }
        ensures since { IfErr self.old (λ fault. result ≡ Err fault) }
        ensures counted { line_count self.new ≤ line_count self.old + 1 }
        ensures drivers { OnOk result (drivers_of self.new ≡ drivers_of self.old) }
    {
        if let Some(fault) = self.fault {
            return Err(fault);
        }
        match self.builder.line(bytes) {
            Ok(()) => {
                self.lines += 1;
                Ok(())
            }
            Err(fault) => {
                let fault = DescFault::at(self.lines + 1, fault);
                self.fault = Some(fault);
                Err(fault)
            }
        }
    }

    /// How many triggers the lines so far name.
    pub fn trigger_count(&self) -> usize
        ensures { IfOk self.now (λ reading. result ≡ length reading.desc.triggers) }
    {
        self.builder.trigger_count()
    }

    /// How many devices the lines so far name.
    pub fn device_count(&self) -> usize
        ensures { IfOk self.now (λ reading. result ≡ device_count reading.desc) }
    {
        self.builder.device_count()
    }

    /// Returns the description that the lines make, if no further line follows. After a fault it returns that fault.
    pub fn finish(self) -> Result<Desc, DescFault>
        ensures ok { IfOk result (λ desc. finished self ≡ Ok desc) }
        ensures err { IfErr result (λ fault. Locates fault (finished self)) }
        ensures since { IfErr self (λ fault. result ≡ Err fault) }
        ensures sound { IfOk result (IsWellFormed (drivers_of self)) }
    {
        let DescReader {
            builder,
            lines,
            fault,
        } = self;
        if let Some(fault) = fault {
            return Err(fault);
        }
        match builder.finish() {
            Ok(desc) => Ok(desc),
            Err(fault) => Err(DescFault::at(lines + 1, fault)),
        }
    }

    /// Returns the description, given the line that ends it, without its LF. The line is refused as `long` or `text` like any
    /// line, then as `order` if the description may not end yet, then as `count` if a further word stands in it. After a fault
    /// it returns that fault.
    pub fn end(self, line: &[u8]) -> Result<Desc, DescFault>
        ensures ok { IfOk result (λ desc. ended_by self line.now ≡ Ok desc) }
        ensures err { IfErr result (λ fault. Locates fault (ended_by self line.now)) }
        ensures since { IfErr self (λ fault. result ≡ Err fault) }
        ensures sound { IfOk result (IsWellFormed (drivers_of self)) }
    {
        let DescReader {
            builder,
            lines,
            fault,
        } = self;
        if let Some(fault) = fault {
            return Err(fault);
        }
        match builder.end(line) {
            Ok(desc) => Ok(desc),
            Err(fault) => Err(DescFault::at(lines + 1, fault)),
        }
    }
}

/// Reads the description that a text says, which may use as many drivers as are handed in. LF ends a line, and a last
/// line without LF counts if it isn't empty.
///
/// A line whose first word is `%%` is refused here: it means something only if more is read after the description.
pub fn read_desc(alloc: Global, text: &[u8], drivers: u32) -> Result<Desc, DescFault>
    requires { length (lines_of text.now) ≤ 2 ^ 32 - 2 }
    ensures ok { IfOk result (λ desc. read_of drivers text.now ≡ Ok desc) }
    ensures err { IfErr result (λ fault. Locates fault (read_of drivers text.now)) }
    ensures sound { IfOk result (IsWellFormed drivers) }
{
    let mut reader = DescReader::new(alloc, drivers)?;
    let mut rest = text;
    while let Some((line, more)) = next_line(rest) {
        reader.line(line)?;
        rest = more;
    }
    reader.finish()
}
