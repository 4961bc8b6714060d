//! Both worlds of a connection: what an input prints for it without the other connections, and with them.
#![tactic(auto)]

ghost use Rattle.std.specs.Prelude.{◌≡◌, ◌+◌, ◌≤◌, ◌++◌, [], IfNone, IfSome, List, None, OnErr, OnOk, map, ℕ};
ghost use Rattle.iio_base.specs.Faults.{Rose};
ghost use Rattle.iio_io.specs.Bytes.{TakesAtMost};
ghost use Rattle.iio_device.specs.declared.plug.Plug.TheVariants.{Given};
ghost use Rattle.iio_history.specs.Input.{input_limit};
ghost use Rattle.iio_script.specs.Ends.{HasStatus, Sends, ShowsFaults, Writes, views_of};
ghost use Rattle.iio_script.specs.Keeps.{keeping_view};
ghost use Rattle.iio_script.specs.Plays.{Prints, WritesText};
ghost use Rattle.iio_worlds.specs.Solo.{between, solo_outcome_of, twice};

use iio_device::Plug;
use iio_io::{Failed, ReadEnd, Sink, Source, write_whole};
use iio_script::{Keeping, Status, end_cut, end_refused, keep};
use iio_sensor::Sensor;
use iio_worlds::solo_law;
use std::alloc::Global;

// Writes a text, the line between, and the text again. If a write fails, a front part of this was written.
fn write_both<K: Sink>(output: &mut K, text: &[u8]) -> Result<(), Failed>
    ensures whole { OnOk result (Sends (K.written output.old) (K.written output.new) (text.now ++ between ++ text.now) []) }
    ensures part { OnErr result ((rest : List ℕ) × Sends (K.written output.old) (K.written output.new) (text.now ++ between ++ text.now) rest) }
    ensures silent { IfNone (K.written output.old) (K.written output.new ≡ None) }
    ensures counted { K.faults output.old ≤ K.faults output.new }
    ensures failed { OnErr result (Rose (K.faults output.old) (K.faults output.new)) }
    ensures steady { OnOk result (K.faults output.new ≡ K.faults output.old) }
{
    write_whole(output, text)?;
    write_whole(output, b"%%\n")?;
    write_whole(output, text)
}

// Writes what was kept, twice, or else how the input ends.
fn write_kept<K: Sink>(alloc: Global, output: &mut K, kept: Keeping) -> Status
    ensures prints { (text : List ℕ) × WritesText (K.written output.old) (K.written output.new) text × Prints (twice (keeping_view kept)) result text }
    ensures write_fault { result ≡ Status.WriteFault → Rose (K.faults output.old) (K.faults output.new) }
    ensures memory { result ≡ Status.Memory → K.faults output.new ≡ K.faults output.old }
    ensures counted { K.faults output.old ≤ K.faults output.new }
    ensures silent { IfNone (K.written output.old) (K.written output.new ≡ None) }
{
    match kept {
        Keeping::Text(text) => match write_both(output, &text) {
            Ok(()) => Status::Done,
            Err(_) => Status::WriteFault,
        },
        Keeping::Refused { line, why } => end_refused(alloc, output, line, why),
        Keeping::TooLong => end_cut(alloc, output),
    }
}

/// Plays the input that a source has left, and writes both worlds of the connection named `name`: what the input prints
/// without the steps of other connections, the line `%%`, and what it prints with those steps, but without their lines. The
/// whole input is read first. If a line fails, only its refusal is written; otherwise, if a step is against the rules of
/// bystanders, only the refusal of its line, with the word `bystander`. The drivers are handed in once, as to
/// [`play`](iio_script::play).
pub fn solo<S: Source, K: Sink>(
    alloc: Global,
    name: &[u8],
    input: &mut S,
    drivers: Vec<Box<dyn Sensor + Send>>,
    output: &mut K,
) -> Status
    ensures worlds { IfSome (S.left input.old) (λ left. IfSome (K.written output.old) (λ written.
        Writes (solo_outcome_of name.now (map (λ d. ⟦<Plug as Sensor>⟧.driver (Given d)) drivers.items) left) written result (K.written output.new))) }
    ensures status { IfSome (S.left input.old)
        (λ left. HasStatus (solo_outcome_of name.now (map (λ d. ⟦<Plug as Sensor>⟧.driver (Given d)) drivers.items) left) result) }
    ensures words { result ≡ Status.Usage → ⊥ }
    ensures taken { IfSome (S.left input.old) (λ left. TakesAtMost left (input_limit + 1) (S.left input.new)) }
    // Nothing is written before the input ends.
    ensures nothing { result ≡ Status.ReadFault → K.written output.new ≡ K.written output.old }
    ensures faults { ShowsFaults (views_of S.left S.faults K.written K.faults) result input.old input.new output.old output.new }
{
    solo_law();
    match keep(alloc, name, input, drivers) {
        Ok(kept) => write_kept(alloc, output, kept),
        Err(ReadEnd::Failed) => Status::ReadFault,
        Err(ReadEnd::Mem) => Status::Memory,
    }
}
