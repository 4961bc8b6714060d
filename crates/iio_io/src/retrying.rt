//! One read and one write that a signal may cut short.

ghost use Rattle.std.specs.Prelude.{◌≡◌, ◌+◌, ◌<◌, ◌≤◌, length, IfOk, MatchResult};
ghost use Rattle.std.specs.Io.KnownBytes.{ReadConsumes, WriteAppends};
ghost use Rattle.iio_io.specs.Outside.{CountsFault};

use crate::traits::Failed;
use iio_base::Count;
use std::io::{ErrorKind, Read, Write};

// How often a read or a write that a signal cut short is tried.
const TRIES: usize = 64;

// Reads once, and again if a signal cut the read short. A failure takes no byte.
#[tactic(auto, using(crate::proofs::Kept::keeps_refl, crate::proofs::Kept::keeps_trans, crate::proofs::Kept::kept_consumes))]
pub(crate) fn read_retrying<R: Read>(
    input: &mut R,
    faults: &mut Count,
    out: &mut [u8],
) -> Result<usize, Failed>
    ensures fits { IfOk result (λ n. n ≤ length out.new) }
    ensures bytes { ReadConsumes (R.remaining input.old) (R.remaining input.new) result out.new }
    ensures count { CountsFault result faults.old faults.new }
{
    for _ in 0..TRIES {
        match input.read(out) {
            Ok(count) => return Ok(count),
            Err(e) => {
                if e.kind() != ErrorKind::Interrupted {
                    break;
                }
            }
        }
    }
    faults.rise();
    Err(Failed)
}

// Writes once, and again if a signal cut the write short. A failure adds no byte.
#[tactic(auto, using(crate::proofs::Kept::keeps_refl, crate::proofs::Kept::keeps_trans, crate::proofs::Kept::kept_appends))]
pub(crate) fn write_retrying<W: Write>(
    output: &mut W,
    faults: &mut Count,
    bytes: &[u8],
) -> Result<usize, Failed>
    ensures fits { IfOk result (λ n. n ≤ length bytes.now) }
    ensures some { IfOk result (λ n. 0 < length bytes.now → 1 ≤ n) }
    ensures bytes { WriteAppends (W.contents output.old) (W.contents output.new) result bytes.now }
    ensures count { CountsFault result faults.old faults.new }
{
    if bytes.is_empty() {
        return Ok(0);
    }
    for _ in 0..TRIES {
        match output.write(bytes) {
            Ok(0) => break,
            Ok(count) => return Ok(count),
            Err(e) => {
                if e.kind() != ErrorKind::Interrupted {
                    break;
                }
            }
        }
    }
    faults.rise();
    Err(Failed)
}
