//! The bytes of a piece that comes in parts.

ghost use Rattle.std.specs.Prelude.{◌≡◌, ◌+◌, ◌≤◌, ◌++◌, [], length, take, IfOk, vec_capacity};
ghost use Rattle.std.specs.List.{position_or_len};
ghost use Rattle.iiod_grammar.specs.Lines.{is_lf};
ghost use Rattle.iiod_grammar.specs.declared.lines.TheConstants.{MAX_LINE, MAX_PAYLOAD};

use crate::lines::{MAX_LINE, MAX_PAYLOAD};
use iio_base::Mem;
use iio_text::copy_line;
use std::alloc::Global;
use std::marker::Model;

/// The bytes of a piece. They stand at the front of a buffer that isn't cleared, so that they are only copied.
#[derive(Debug, Drop)]
pub(crate) struct Kept {
    room: Vec<u8>,
    len: usize,
}

impl Model for Kept {
    ghost use Rattle.std.specs.Prelude.{◌≤◌, ◌<◌, List, ℕ, length, take, vec_capacity};
    ghost use Rattle.iiod_grammar.specs.declared.lines.TheConstants.{MAX_LINE, MAX_PAYLOAD};

    ghost Value = { List ℕ };

    ghost view = { λ x. take x.len x.room.items };

    ghost invariant = { λ x. (x.len ≤ length x.room.items) × (MAX_LINE < length x.room.items) × (MAX_PAYLOAD ≤ vec_capacity x.room) };
}

impl Kept {
    /// Creates the empty piece, with room for the longest piece. The room for a line is filled with zeros here.
    pub(crate) fn new(alloc: Global) -> Result<Kept, Mem>
        ensures { IfOk result (λ kept. kept ≡ []) }
    {
        let mut room = Vec::with_capacity(alloc, MAX_PAYLOAD as usize)?;
        room.resize(MAX_LINE + 1, 0)?;
        Ok(Kept { room, len: 0 })
    }

    pub(crate) fn len(&self) -> usize
        ensures { result ≡ length self.now }
    {
        self.len
    }

    pub(crate) fn bytes(&self) -> &[u8]
        ensures { result.now ≡ self.now }
    {
        &self.room[..self.len]
    }

    /// Keeps the first `len` bytes.
    pub(crate) fn truncate(&mut self, len: usize)
        requires { len ≤ length self.old }
        ensures { self.new ≡ take len self.old }
    {
        self.len = len;
    }

    /// Appends bytes, for which there is room.
    #[inline(always)]
    pub(crate) fn keep(&mut self, bytes: &[u8])
        requires { length self.old + length bytes.now ≤ MAX_PAYLOAD }
        ensures { self.new ≡ self.old ++ bytes.now }
    {
        let end = self.len + bytes.len();
        if self.room.len() < end {
            let _ = self.room.resize(end, 0);
        }
        put(&mut self.room, self.len, bytes);
        self.len = end;
    }

    /// Appends the bytes before the first LF, or all if there is none, and returns their number.
    #[inline(always)]
    pub(crate) fn keep_line(&mut self, bytes: &[u8]) -> usize
        requires { length self.old + length bytes.now ≤ MAX_LINE + 1 }
        ensures within { result ≤ length bytes.now }
        ensures value { result ≡ position_or_len is_lf bytes.now }
        ensures kept { self.new ≡ self.old ++ take result bytes.now }
    {
        let len = put_line(&mut self.room, self.len, bytes);
        self.len += len;
        len
    }
}

// Copies bytes to a place, over what stands there.
#[inline(always)]
fn put(room: &mut Vec<u8>, at: usize, bytes: &[u8])
    requires { at + length bytes.now ≤ length room.old.items }
    ensures bytes { take (at + length bytes.now) room.new.items ≡ take at room.old.items ++ bytes.now }
    ensures size { length room.new.items ≡ length room.old.items }
    ensures capacity { vec_capacity room.new ≡ vec_capacity room.old }
{
    room[at..at + bytes.len()].copy_from_slice(bytes);
}

// Copies the bytes before the first LF, or all if there is none, to a place, over what stands there; returns their number.
#[inline(always)]
fn put_line(room: &mut Vec<u8>, at: usize, bytes: &[u8]) -> usize
    requires { at + length bytes.now ≤ length room.old.items }
    ensures within { result ≤ length bytes.now }
    ensures value { result ≡ position_or_len is_lf bytes.now }
    ensures bytes { take (at + result) room.new.items ≡ take at room.old.items ++ take result bytes.now }
    ensures size { length room.new.items ≡ length room.old.items }
    ensures capacity { vec_capacity room.new ≡ vec_capacity room.old }
{
    copy_line(bytes, &mut room[at..])
}
