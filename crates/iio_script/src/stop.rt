//! The counts of a text that is played, and what is kept of it.

ghost use Rattle.std.specs.Prelude.{◌≡◌, ◌+◌, ◌≤◌, [], ◌++◌, List, ℕ, length, map, None, Some};
ghost use Rattle.iio_desc.specs.WellFormed.{IsWellFormed};
ghost use Rattle.iio_device.specs.declared.plug.Plug.TheVariants.{Given};
ghost use Rattle.iio_history.specs.Input.{input_limit, is_overlong, scanned_lines};
ghost use Rattle.iio_history.specs.Outcome.{last_ending};
ghost use Rattle.iio_history.specs.Script.{Finished, script_from};
ghost use Rattle.iio_script.specs.Keeps.{KeepsText};
ghost use Rattle.iio_script.specs.LineReader.{Follows, IsHand};
ghost use Rattle.iio_script.specs.Tallies.{Tallies, TalliesScript};

use crate::keeping::{Keeping, keep};
use crate::line_reader::LineReader;
use crate::opening::{Opening, open};
use crate::outline::outline;
use crate::script::play_steps;
use crate::status::Status;
use iio_desc::Desc;
use iio_device::Plug;
use iio_io::{Failed, Sink, Source};
use iio_sensor::Sensor;
use iio_system::{System, Tally};
use iio_text::Why;
use std::alloc::Global;

/// Why a text has no counts, or nothing is kept of it.
#[derive(Clone, Copy, Debug, PartialEq, Eq)]
pub enum Stop {
    /// The line with this number, counted from 1, is the first that fails. If no line of a text fails of which something is
    /// to be kept, it is the line of the first step against the rules of bystanders, and `why` is `Bystander`.
    Refused { line: u32, why: Why },
    /// Memory ran out.
    Mem,
}

// A sink that drops all bytes.
#[derive(Drop)]
struct NoSink;

impl Sink for NoSink {
    ghost written = { λ s. None };

    ghost faults = { λ s. 0 };

    fn write(&mut self, bytes: &[u8]) -> Result<usize, Failed> {
        Ok(bytes.len())
    }
}

// A text in memory, as a source of its bytes. No read fails.
#[derive(Drop)]
struct Text<'a> {
    rest: &'a [u8],
}

impl Source for Text<'_> {
    ghost left = { λ s. Some s.rest.now };

    ghost faults = { λ s. 0 };

    fn read(&mut self, out: &mut [u8]) -> Result<usize, Failed> {
        let count = out.len().min(self.rest.len());
        let (given, rest) = self.rest.split_at(count);
        out[..count].copy_from_slice(given);
        self.rest = rest;
        Ok(count)
    }
}

// Returns the counts of the steps of a script from a line on, without drivers.
fn tally_steps<S: Source>(
    alloc: Global,
    desc: Desc,
    lines: &mut LineReader,
    first: u32,
    input: &mut S,
) -> Result<Tally, Stop>
    requires sound { IsWellFormed 0 desc }
    requires begun { first ≤ lines.old.given + 1 }
    requires hand { IsHand lines.old }
    ensures { (text : List ℕ) (front more : List (List ℕ)) → Follows text front lines.old (S.left input.old) → first ≡ length front + 1
        → scanned_lines text ≡ front ++ more
        → TalliesScript (record { desc = desc; drivers = [] }) (script_from desc (last_ending (is_overlong text)) [] first more) result }
{
    let Ok(names) = outline(alloc, &desc) else {
        return Err(Stop::Mem);
    };
    let Ok(mut system) = System::new(alloc, desc, Vec::new(alloc)) else {
        return Err(Stop::Mem);
    };
    let mut out = Vec::new(alloc);
    match play_steps(
        alloc,
        &mut system,
        &names,
        lines,
        first,
        input,
        &mut NoSink,
        &mut out,
    ) {
        Ok(Status::Done) => Ok(system.tally()),
        Ok(Status::Refused { line, why }) => Err(Stop::Refused { line, why }),
        _ => Err(Stop::Mem),
    }
}

// Returns the counts of a description without steps.
fn tally_alone(alloc: Global, desc: Desc) -> Result<Tally, Stop>
    requires { IsWellFormed 0 desc }
    ensures { (first : ℕ) → TalliesScript (record { desc = desc; drivers = [] }) (script_from desc Finished [] first []) result }
{
    match System::new(alloc, desc, Vec::new(alloc)) {
        Ok(system) => Ok(system.tally()),
        Err(_) => Err(Stop::Mem),
    }
}

/// Returns the counts of a text that is played without drivers: the description at its head, and then the steps of its
/// script. `Refused` if a line fails, at the first such line.
pub fn tally(alloc: Global, text: &[u8]) -> Result<Tally, Stop>
    requires { length text.now ≤ input_limit }
    ensures { Tallies text.now result }
{
    let mut source = Text { rest: text };
    let Ok(mut lines) = LineReader::new(alloc) else {
        return Err(Stop::Mem);
    };
    match open(alloc, &mut lines, &mut source, 0) {
        Ok(Opening::Described { desc, first }) => {
            tally_steps(alloc, desc, &mut lines, first, &mut source)
        }
        Ok(Opening::Alone { desc }) => tally_alone(alloc, desc),
        Ok(Opening::Refused { line, why }) => Err(Stop::Refused { line, why }),
        Ok(Opening::Cut) => Err(Stop::Mem),
        Err(_) => Err(Stop::Mem),
    }
}

/// Returns what is kept of a text that is played with these drivers: what it prints, without
/// the steps of connections of other names. `Refused` if a line fails, at the first such
/// line; otherwise if a step is against the rules of bystanders, at the first such step.
pub fn kept(
    alloc: Global,
    name: &[u8],
    text: &[u8],
    drivers: Vec<Box<dyn Sensor + Send>>,
) -> Result<Vec<u8>, Stop>
    requires { length text.now ≤ input_limit }
    ensures { KeepsText (λ out. out.items) name.now (map (λ d. ⟦<Plug as Sensor>⟧.driver (Given d)) drivers.items) text.now result }
{
    let mut source = Text { rest: text };
    match keep(alloc, name, &mut source, drivers) {
        Ok(Keeping::Text(kept)) => Ok(kept),
        Ok(Keeping::Refused { line, why }) => Err(Stop::Refused { line, why }),
        Ok(Keeping::TooLong) => Err(Stop::Mem),
        Err(_) => Err(Stop::Mem),
    }
}
