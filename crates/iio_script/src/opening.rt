//! The description at the head of an input.

ghost use Rattle.std.specs.Prelude.{◌≡◌, ◌+◌, ◌^◌, ◌≤◌, ◌<◌, [], None, Err, IfErr, IfOk, IfSome, IfNone, IsOk, List, ℕ, length};
ghost use Rattle.iio_base.specs.Faults.{Rose};
ghost use Rattle.iio_desc.specs.DescReader.{drivers_of, ended_by, finished, line_count, new_reader};
ghost use Rattle.iio_history.specs.Outcome.{described};
ghost use Rattle.iio_script.specs.LineReader.{IsHand, TakesBlocks, empty_hand};
ghost use Rattle.iio_script.specs.Told.{FailsWithin, IsEnded, IsRefusedAt, IsSoundOpening, IsUnended, Opens, StartsAt, TakesUnended, told};

use crate::line_reader::{Found, LineReader};
use iio_desc::{Desc, DescFault, DescReader, is_end};
use iio_io::{ReadEnd, Source};
use iio_text::Why;
use std::alloc::Global;

/// What the lines up to the end of a description give.
#[derive(Drop)]
pub enum Opening {
    /// A description that a line ends. The line after that one has the number `first`.
    Described { desc: Desc, first: u32 },
    /// A description that ends with the input.
    Alone { desc: Desc },
    /// The line with this number, counted from 1, is refused.
    Refused { line: u32, why: Why },
    /// The looked-at lines end before the description does, although the input goes on.
    Cut,
}

// Returns the description that the line with that number ends.
fn end_at(reader: DescReader, line: &[u8], number: u32) -> Result<Opening, ReadEnd>
    requires reading { IsOk reader }
    requires lines { line_count reader + 1 ≡ number }
    requires few { number + 1 < 2 ^ 32 }
    ensures opening { IfOk result (λ opening. (more : List (List ℕ)) → told number more opening ≡ described (number + 1) more (ended_by reader line.now)) }
    ensures refused { IfOk result (IsRefusedAt number) }
    ensures ended { IfOk result (IsEnded number) }
    ensures sound { IfOk result (IsSoundOpening (drivers_of reader)) }
    ensures memory { IfErr result (λ e. e ≡ ReadEnd.Mem) }
{
    match reader.end(line) {
        Ok(desc) => Ok(Opening::Described {
            desc,
            first: number + 1,
        }),
        Err(DescFault::Line { number, why }) => Ok(Opening::Refused { line: number, why }),
        Err(DescFault::Mem) => Err(ReadEnd::Mem),
    }
}

// Returns the description that ends with the input.
fn end_after(reader: DescReader) -> Result<Opening, ReadEnd>
    requires reading { IsOk reader }
    ensures opening { IfOk result (λ opening. (next : ℕ) (more : List (List ℕ)) → told next more opening ≡ described next [] (finished reader)) }
    ensures refused { IfOk result (IsRefusedAt (line_count reader + 1)) }
    ensures unended { IfOk result IsUnended }
    ensures sound { IfOk result (IsSoundOpening (drivers_of reader)) }
    ensures memory { IfErr result (λ e. e ≡ ReadEnd.Mem) }
{
    match reader.finish() {
        Ok(desc) => Ok(Opening::Alone { desc }),
        Err(DescFault::Line { number, why }) => Ok(Opening::Refused { line: number, why }),
        Err(DescFault::Mem) => Err(ReadEnd::Mem),
    }
}

/// Reads the description at the head of the input that a source has left. It may use as many drivers as are handed in. The
/// line after it is the reader's next.
pub fn open<S: Source>(
    alloc: Global,
    lines: &mut LineReader,
    source: &mut S,
    drivers: u32,
) -> Result<Opening, ReadEnd>
    requires { lines.old ≡ empty_hand }
    ensures opening { IfOk result (λ opening. IfSome (S.left source.old) (λ input. Opens drivers opening input lines.new (S.left source.new))) }
    ensures fault { result ≡ Err ReadEnd.Failed → IfSome (S.left source.old) (λ input. FailsWithin drivers input (S.left source.new)) }
    ensures taken { IfSome (S.left source.old) (λ input. TakesBlocks input (S.left source.new)) }
    ensures unended { IfSome (S.left source.old) (λ input. TakesUnended drivers input (S.left source.new)) }
    ensures sound { IfOk result (IsSoundOpening drivers) }
    ensures starts { IfOk result (λ opening. StartsAt opening lines.new) }
    ensures hand { IsHand lines.new }
    ensures silent { IfNone (S.left source.old) (S.left source.new ≡ None) }
    ensures counted { S.faults source.old ≤ S.faults source.new }
    ensures failed { result ≡ Err ReadEnd.Failed → Rose (S.faults source.old) (S.faults source.new) }
    ensures memory { result ≡ Err ReadEnd.Mem → S.faults source.new ≡ S.faults source.old }
    ensures steady { IfOk result (λ _. S.faults source.new ≡ S.faults source.old) }
{
    let Ok(mut reader) = DescReader::new(alloc, drivers) else {
        return Err(ReadEnd::Mem);
    };
    let mut number = 1;
    loop {
        match lines.find(source)? {
            Found::Line => {}
            Found::Long => return Ok(Opening::Refused {
                line: number,
                why: Why::Long,
            }),
            Found::End => return end_after(reader),
            Found::Cut => return Ok(Opening::Cut),
        }
        let line = lines.line();
        if is_end(line) {
            let opening = end_at(reader, line, number)?;
            lines.pass();
            return Ok(opening);
        }
        match reader.line(line) {
            Ok(()) => {}
            Err(DescFault::Line { number, why }) => return Ok(Opening::Refused {
                line: number,
                why,
            }),
            Err(DescFault::Mem) => return Err(ReadEnd::Mem),
        }
        lines.pass();
        number += 1;
    }
}
