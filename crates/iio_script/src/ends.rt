//! How a run ends, and what it has printed and written by then.

ghost use Rattle.std.specs.Prelude.{◌≡◌, ◌⊎◌, ◌≤◌, [], ℕ, List, None, IfOk, IfErr, IfNone, OnErr, OnOk};
ghost use Rattle.iio_base.specs.Faults.{Rose};
ghost use Rattle.iio_history.specs.Outcome.{Outcome, last_ending, only_ending};
ghost use Rattle.iio_history.specs.Script.{Refused, TooLong, ending_text};
ghost use Rattle.iio_script.specs.Ends.{Finishes, Sends};
ghost use Rattle.iio_script.specs.Plays.{EndsWriting, IsRefusedOr, Prints, WritesText};

use crate::digits::push_digits;
use crate::status::Status;
use iio_base::Mem;
use iio_io::{Sink, write_whole};
use iio_text::Why;
use std::alloc::Global;

// `refused LINE WHY`
fn refused_line(alloc: Global, line: u32, why: Why) -> Result<Vec<u8>, Mem>
    ensures { IfOk result (λ text. text.items ≡ ending_text (Refused line why)) }
{
    let mut text = Vec::new(alloc);
    text.extend_from_slice(b"refused ")?;
    push_digits(&mut text, line as usize)?;
    text.push(b' ')?;
    text.extend_from_slice(why.text().as_bytes())?;
    text.push(b'\n')?;
    Ok(text)
}

/// Appends the line that ends a run at a refused line, and returns the status. If memory runs out, nothing is appended.
pub fn push_refused(alloc: Global, out: &mut Vec<u8>, line: u32, why: Why) -> Result<Status, Mem>
    ensures ends { IfOk result (λ status. Finishes (only_ending (Refused line why)) status out.old.items out.new.items) }
    ensures kept { OnErr result (out.new.items ≡ out.old.items) }
{
    let text = refused_line(alloc, line, why)?;
    out.extend_from_slice(&text)?;
    Ok(Status::Refused { line, why })
}

/// Appends what ends a run after the last looked-at line: `too long` if the input is overlong, otherwise nothing. Returns the
/// status. If memory runs out, nothing is appended.
pub fn push_end(out: &mut Vec<u8>, overlong: bool) -> Result<Status, Mem>
    ensures ends { IfOk result (λ status. Finishes (only_ending (last_ending overlong)) status out.old.items out.new.items) }
    ensures kept { OnErr result (out.new.items ≡ out.old.items) }
{
    if overlong {
        out.extend_from_slice(b"too long\n")?;
        return Ok(Status::TooLong);
    }
    Ok(Status::Done)
}

/// Writes what a run has printed and not yet written. If a write fails, a front part of it was written.
pub fn write_out<K: Sink>(output: &mut K, printed: &mut Vec<u8>) -> Result<(), Status>
    ensures whole { OnOk result (Sends (K.written output.old) (K.written output.new) printed.old.items []) }
    ensures none_left { OnOk result (printed.new.items ≡ []) }
    ensures part { OnErr result ((rest : List ℕ) × Sends (K.written output.old) (K.written output.new) printed.old.items rest) }
    ensures fault { OnErr result (Rose (K.faults output.old) (K.faults output.new)) }
    ensures err { IfErr result (λ status. status ≡ Status.WriteFault) }
    ensures counted { K.faults output.old ≤ K.faults output.new }
    ensures steady { OnOk result (K.faults output.new ≡ K.faults output.old) }
    ensures silent { IfNone (K.written output.old) (K.written output.new ≡ None) }
{
    match write_whole(output, printed) {
        Ok(()) => {
            printed.clear();
            Ok(())
        }
        Err(_) => Err(Status::WriteFault),
    }
}

/// Writes what is kept at the end of a run that ends with `status`. Returns that status, or `WriteFault` if a write fails.
pub fn end_with<K: Sink>(output: &mut K, kept: &mut Vec<u8>, status: Status) -> Status
    ensures writes { EndsWriting status result (K.written output.old) (K.written output.new) kept.old.items }
    ensures prints { (outcome : Outcome) → Finishes outcome status [] kept.old.items
        → (text : List ℕ) × WritesText (K.written output.old) (K.written output.new) text × Prints outcome result text }
    ensures fault { result ≡ Status.WriteFault → status ≡ Status.WriteFault ⊎ Rose (K.faults output.old) (K.faults output.new) }
    ensures steady { (result ≡ Status.WriteFault → ⊥) → K.faults output.new ≡ K.faults output.old }
    ensures counted { K.faults output.old ≤ K.faults output.new }
    ensures silent { IfNone (K.written output.old) (K.written output.new ≡ None) }
{
    match write_out(output, kept) {
        Ok(()) => status,
        Err(fault) => fault,
    }
}

/// Writes how a run ends at a refused line, for a run that has printed nothing before. Returns the status.
pub fn end_refused<K: Sink>(alloc: Global, output: &mut K, line: u32, why: Why) -> Status
    ensures prints { (text : List ℕ) × WritesText (K.written output.old) (K.written output.new) text × Prints (only_ending (Refused line why)) result text }
    ensures refused { IsRefusedOr line result }
    ensures write_fault { result ≡ Status.WriteFault → Rose (K.faults output.old) (K.faults output.new) }
    ensures memory { result ≡ Status.Memory → K.faults output.new ≡ K.faults output.old }
    ensures counted { K.faults output.old ≤ K.faults output.new }
    ensures silent { IfNone (K.written output.old) (K.written output.new ≡ None) }
{
    let mut kept = Vec::new(alloc);
    match push_refused(alloc, &mut kept, line, why) {
        Ok(status) => end_with(output, &mut kept, status),
        Err(Mem) => Status::Memory,
    }
}

/// Writes how a run ends whose input has more bytes than are looked
/// at, for a run that has printed nothing before. Returns the status.
pub fn end_cut<K: Sink>(alloc: Global, output: &mut K) -> Status
    ensures prints { (text : List ℕ) × WritesText (K.written output.old) (K.written output.new) text × Prints (only_ending TooLong) result text }
    ensures refused { IsRefusedOr 0 result }
    ensures write_fault { result ≡ Status.WriteFault → Rose (K.faults output.old) (K.faults output.new) }
    ensures memory { result ≡ Status.Memory → K.faults output.new ≡ K.faults output.old }
    ensures counted { K.faults output.old ≤ K.faults output.new }
    ensures silent { IfNone (K.written output.old) (K.written output.new ≡ None) }
{
    let mut kept = Vec::new(alloc);
    match push_end(&mut kept, true) {
        Ok(status) => end_with(output, &mut kept, status),
        Err(Mem) => Status::Memory,
    }
}
