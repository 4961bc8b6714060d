//! The summary of an input.

ghost use Rattle.std.specs.Prelude.{◌≡◌, ◌≤◌, [], ◌++◌, None, IfNone, IfOk, IfSome, OnOk};
ghost use Rattle.iio_base.specs.Faults.{Rose};
ghost use Rattle.iio_system.specs.Tally.{tally_of};
ghost use Rattle.iio_script.specs.Ends.{Writes};
ghost use Rattle.iio_script.specs.Tallies.{summary_of_input};
ghost use Rattle.iio_gen.specs.Input.{made};
ghost use Rattle.iio_gen.specs.Summary.{EndsGen, count_line, summarized, summary_text, tally_text};

use crate::digits::push_number;
use crate::make;
use iio_base::Mem;
use iio_io::{Sink, write_whole};
use iio_script::{Status, Stop, tally};
use iio_system::Tally;
use std::alloc::Global;

// `WORD COUNT`
fn push_count(out: &mut Vec<u8>, word: &[u8], count: u64) -> Result<(), Mem>
    ensures { OnOk result (out.new.items ≡ out.old.items ++ count_line word.now count) }
{
    out.extend_from_slice(word)?;
    out.push(b' ')?;
    push_number(out, count)?;
    out.push(b'\n')?;
    Ok(())
}

// The four lines of a count.
fn push_tally(out: &mut Vec<u8>, counted: &Tally) -> Result<(), Mem>
    ensures { OnOk result (out.new.items ≡ out.old.items ++ tally_text counted.now) }
{
    push_count(out, b"captures", counted.captures)?;
    push_count(out, b"scans", counted.scans)?;
    push_count(out, b"overruns", counted.overruns)?;
    push_count(out, b"bytes", counted.bytes)
}

// Returns the counts of a number's input.
fn count(alloc: Global, n: u64) -> Result<Tally, Mem>
    ensures { IfOk result (λ counted. counted ≡ tally_of (summary_of_input [] (made n))) }
{
    let text = make(alloc, n)?;
    match tally(alloc, &text) {
        Ok(counted) => Ok(counted),
        Err(Stop::Refused { .. }) => unreachable!(),
        Err(Stop::Mem) => Err(Mem),
    }
}

// Returns the summary of a number's input.
fn summary(alloc: Global, n: u64) -> Result<Vec<u8>, Mem>
    ensures { IfOk result (λ text. text.items ≡ summary_text n) }
{
    let counted = count(alloc, n)?;
    let mut text = Vec::new(alloc);
    push_tally(&mut text, &counted)?;
    Ok(text)
}

/// Makes the input of the number `n`, plays it without drivers, and writes four lines: the number of its captures, of the
/// scans that READBUFs gave, of the scans that were lost, and of all bytes of the scans that were given. If a write fails or
/// memory runs out, a front part of the lines was written.
pub fn gen_<K: Sink>(alloc: Global, n: u64, output: &mut K) -> Status
    ensures lines { IfSome (K.written output.old) (λ written. Writes (summarized n) written result (K.written output.new)) }
    ensures status { EndsGen result }
    ensures write_fault { result ≡ Status.WriteFault → Rose (K.faults output.old) (K.faults output.new) }
    ensures memory { result ≡ Status.Memory → K.faults output.new ≡ K.faults output.old }
    ensures counted { K.faults output.old ≤ K.faults output.new }
    ensures silent { IfNone (K.written output.old) (K.written output.new ≡ None) }
{
    let Ok(text) = summary(alloc, n) else {
        return Status::Memory;
    };
    match write_whole(output, &text) {
        Ok(()) => Status::Done,
        Err(_) => Status::WriteFault,
    }
}
