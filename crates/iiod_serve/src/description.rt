//! Reads the description at the head of an input, for the commands that read nothing else.

ghost use Rattle.std.specs.Prelude.{◌≡◌, ◌≤◌, ℕ, List, None, Err, IfErr, IfOk, IfSome, IfNone};
ghost use Rattle.iio_base.specs.Faults.{Rose};
ghost use Rattle.iio_desc.specs.WellFormed.{IsWellFormed};
ghost use Rattle.iio_history.specs.Outcome.{head_of};
ghost use Rattle.iio_script.specs.Ends.{HasStatus, ShowsFaults, Writes, views_of};
ghost use Rattle.iio_script.specs.LineReader.{TakesBlocks};
ghost use Rattle.iio_script.specs.Plays.{Prints, TakesFor, WritesText};
ghost use Rattle.iio_script.specs.Told.{IsSoundOpening, told};
ghost use Rattle.iiod_serve.specs.Reading.{IsStop, Says, ended, read_head, served_of};

use iio_desc::Desc;
use iio_io::{ReadEnd, Sink, Source};
use iio_script::{LineReader, Opening, Status, end_cut, end_refused, open};
use std::alloc::Global;

// Returns the description, or prints the end that the opening has instead and returns its status.
fn described<K: Sink>(alloc: Global, opening: Opening, output: &mut K) -> Result<Desc, Status>
    ensures prints { (next : ℕ) (more : List (List ℕ)) → (text : List ℕ) × WritesText (K.written output.old) (K.written output.new) text
        × Prints (read_head (told next more opening)) (ended result) text }
    ensures described { IfOk result (λ desc. (next : ℕ) (more : List (List ℕ)) → Says desc (told next more opening)) }
    ensures sound { (drivers : ℕ) → IsSoundOpening drivers opening → IfOk result (IsWellFormed drivers) }
    ensures unwritten { IfOk result (λ _. output.new ≡ output.old) }
    ensures stopped { IfErr result IsStop }
    ensures write_fault { ended result ≡ Status.WriteFault → Rose (K.faults output.old) (K.faults output.new) }
    ensures memory { ended result ≡ Status.Memory → K.faults output.new ≡ K.faults output.old }
    ensures counted { K.faults output.old ≤ K.faults output.new }
    ensures silent { IfNone (K.written output.old) (K.written output.new ≡ None) }
{
    match opening {
        Opening::Described { desc, .. } => Ok(desc),
        Opening::Alone { desc } => Ok(desc),
        Opening::Refused { line, why } => Err(end_refused(alloc, output, line, why)),
        Opening::Cut => Err(end_cut(alloc, output)),
    }
}

/// Reads the description at the head of the input that a source has left, which may use `drivers` drivers. If it is refused
/// or too long, this is written to a sink and is the status; for a description that is read nothing is written. What comes
/// after the line that ends it isn't looked at, and at most a piece was taken after the byte at which a line failed. If a
/// read fails, nothing is written.
pub fn read_description<S: Source, K: Sink>(
    alloc: Global,
    drivers: u32,
    input: &mut S,
    output: &mut K,
) -> Result<Desc, Status>
    ensures described { IfOk result (λ desc. IfSome (S.left input.old) (λ left. Says desc (head_of drivers left))) }
    ensures sound { IfOk result (IsWellFormed drivers) }
    ensures unwritten { IfOk result (λ _. output.new ≡ output.old) }
    ensures steady { IfOk result (λ _. S.faults input.new ≡ S.faults input.old) }
    ensures stopped { IfErr result IsStop }
    ensures lines { IfSome (S.left input.old) (λ left. IfSome (K.written output.old) (λ written.
        Writes (served_of drivers left) written (ended result) (K.written output.new))) }
    ensures status { IfSome (S.left input.old) (λ left. HasStatus (served_of drivers left) (ended result)) }
    ensures taken { IfSome (S.left input.old) (λ left. TakesBlocks left (S.left input.new)) }
    ensures near { IfSome (S.left input.old) (λ left. TakesFor (ended result) left (S.left input.new)) }
    ensures nothing { ended result ≡ Status.ReadFault → output.new ≡ output.old }
    ensures faults { ShowsFaults (views_of S.left S.faults K.written K.faults) (ended result) input.old input.new output.old output.new }
{
    let Ok(mut lines) = LineReader::new(alloc) else {
        return Err(Status::Memory);
    };
    match open(alloc, &mut lines, input, drivers) {
        Ok(opening) => described(alloc, opening, output),
        Err(ReadEnd::Failed) => Err(Status::ReadFault),
        Err(ReadEnd::Mem) => Err(Status::Memory),
    }
}
