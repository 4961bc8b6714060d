//! Reads and writes of whole texts over sources, sinks and links, which give and take pieces.

ghost use Rattle.std.specs.Prelude.{◌≡◌, ◌+◌, ◌<◌, ◌≤◌, ◌^◌, ◌++◌, Some, None, IfSome, IfNone, IfOk, OnOk, OnErr, vec_len};
ghost use Rattle.iio_base.specs.Faults.{Rose};
ghost use Rattle.iio_io.specs.Bytes.{TakesAtMost, TakesUpTo, WritesPart};

use crate::link::Link;
use crate::traits::{Failed, Sink, Source};
use std::alloc::{AllocError, Global};
use std::error::Error;
use std::fmt;

// The most bytes that one read or one write asks for: what a pipe holds.
const PIECE: usize = 65_536;

/// Why `read_whole` returned no text.
#[derive(Clone, Copy, Debug, PartialEq, Eq)]
pub enum ReadEnd {
    /// A read failed.
    Failed,
    /// Memory ran out.
    Mem,
}

impl fmt::Display for ReadEnd {
    fn fmt<W: fmt::Write>(&self, f: &mut fmt::Formatter<W>) -> fmt::Result {
        match self {
            ReadEnd::Failed => write!(f, "a read failed"),
            ReadEnd::Mem => write!(f, "out of memory"),
        }
    }
}

impl Error for ReadEnd {}

impl From<Failed> for ReadEnd {
    ghost use Rattle.iio_io.specs.declared.whole.ReadEnd.TheVariants.{Failed as FailedRead};

    ghost from_gives = { λ _ e. e ≡ FailedRead };

    fn from(_e: Failed) -> ReadEnd {
        ReadEnd::Failed
    }
}

impl From<AllocError> for ReadEnd {
    ghost use Rattle.iio_io.specs.declared.whole.ReadEnd.TheVariants.{Mem as NoMemory};

    ghost from_gives = { λ _ e. e ≡ NoMemory };

    fn from(_e: AllocError) -> ReadEnd {
        ReadEnd::Mem
    }
}

/// Writes all of `bytes`, in pieces of at most 65,536 bytes and in as many writes as it takes. If a write fails, only a front
/// part was written.
pub fn write_whole<K: Sink>(sink: &mut K, bytes: &[u8]) -> Result<(), Failed>
    ensures whole { OnOk result (IfSome (K.written sink.old)
        (λ xs. K.written sink.new ≡ Some (xs ++ bytes.now))) }
    ensures part { OnErr result (IfSome (K.written sink.old)
        (λ xs. WritesPart xs bytes.now (K.written sink.new))) }
    ensures silent { IfNone (K.written sink.old) (K.written sink.new ≡ None) }
    ensures counted { K.faults sink.old ≤ K.faults sink.new }
    ensures failed { OnErr result (Rose (K.faults sink.old) (K.faults sink.new)) }
    ensures steady { OnOk result (K.faults sink.new ≡ K.faults sink.old) }
{
    let mut done = 0;
    while done < bytes.len() {
        let end = bytes.len().min(done.saturating_add(PIECE));
        done += sink.write(&bytes[done..end])?;
    }
    Ok(())
}

/// Sends all of `bytes`, in as many sends as it takes. If a send fails, only a front part was sent. What is left to be received
/// stays as it is.
pub fn send_whole<L: Link>(link: &mut L, bytes: &[u8]) -> Result<(), Failed>
    ensures whole { OnOk result (IfSome (L.written link.old)
        (λ xs. L.written link.new ≡ Some (xs ++ bytes.now))) }
    ensures part { OnErr result (IfSome (L.written link.old)
        (λ xs. WritesPart xs bytes.now (L.written link.new))) }
    ensures silent { IfNone (L.written link.old) (L.written link.new ≡ None) }
    ensures left { L.left link.new ≡ L.left link.old }
    ensures steady { OnOk result (L.faults link.new ≡ L.faults link.old) }
    ensures failed { OnErr result (Rose (L.faults link.old) (L.faults link.new)) }
{
    let mut done = 0;
    while done < bytes.len() {
        done += link.send(&bytes[done..])?;
    }
    Ok(())
}

/// Reads to the end, but at most one byte more than `limit`: a result that is longer than the limit shows that there is more
/// than that. The result takes one growing block of memory.
pub fn read_whole<S: Source>(
    alloc: Global,
    source: &mut S,
    limit: usize,
) -> Result<Vec<u8>, ReadEnd>
    requires { limit < 2 ^ 32 }
    ensures whole { IfOk result (λ v. IfSome (S.left source.old)
        (λ xs. TakesUpTo xs (limit + 1) v.items (S.left source.new))) }
    ensures within { IfOk result (λ v. vec_len v ≤ limit + 1) }
    ensures taken { IfSome (S.left source.old) (λ xs. TakesAtMost xs (limit + 1) (S.left source.new)) }
    ensures silent { IfNone (S.left source.old) (S.left source.new ≡ None) }
    ensures counted { S.faults source.old ≤ S.faults source.new }
    ensures failed { result ≡ Err ReadEnd.Failed → Rose (S.faults source.old) (S.faults source.new) }
    ensures memory { result ≡ Err ReadEnd.Mem → S.faults source.new ≡ S.faults source.old }
    ensures steady { IfOk result (λ _. S.faults source.new ≡ S.faults source.old) }
{
    let mut bytes = Vec::new(alloc);
    let mut piece = [0u8; PIECE];
    while bytes.len() <= limit {
        let room = PIECE.min(limit + 1 - bytes.len());
        let taken = source.read(&mut piece[..room])?;
        if taken == 0 {
            break;
        }
        bytes.extend_from_slice(&piece[..taken])?;
    }
    Ok(bytes)
}
