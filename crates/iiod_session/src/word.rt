//! A word kept in a vector.

ghost use Rattle.std.specs.Prelude.{◌≡◌, ◌≤◌, [], length, take, OnOk};

use iio_base::Mem;
use std::alloc::Global;
use std::marker::Model;

/// A word in a vector that is reused for one word after another. The word stands at the front of the vector, which isn't
/// cleared, so that a word is only copied.
#[derive(Drop)]
pub(crate) struct Word {
    room: Vec<u8>,
    len: usize,
}

impl Model for Word {
    ghost use Rattle.std.specs.Prelude.{◌≤◌, List, ℕ, length, take};

    ghost Value = { List ℕ };

    ghost view = { λ x. take x.len x.room.items };

    ghost invariant = { λ x. x.len ≤ length x.room.items };
}

impl Word {
    /// Creates the empty word.
    pub(crate) fn new(alloc: Global) -> Word
        ensures { result ≡ [] }
    {
        Word {
            room: Vec::new(alloc),
            len: 0,
        }
    }

    /// Replaces the word.
    #[inline(always)]
    pub(crate) fn set(&mut self, word: &[u8]) -> Result<(), Mem>
        ensures { OnOk result (self.new ≡ word.now) }
    {
        let len = word.len();
        if self.room.len() < len {
            self.room.resize(len, 0)?;
        }
        put(&mut self.room, word);
        self.len = len;
        Ok(())
    }

    pub(crate) fn bytes(&self) -> &[u8]
        ensures { result.now ≡ self.now }
    {
        &self.room[..self.len]
    }
}

// Copies bytes to the front, over what stands there.
#[inline(always)]
fn put(room: &mut Vec<u8>, bytes: &[u8])
    requires { length bytes.now ≤ length room.old.items }
    ensures bytes { take (length bytes.now) room.new.items ≡ bytes.now }
    ensures size { length room.new.items ≡ length room.old.items }
{
    room[0..bytes.len()].copy_from_slice(bytes);
}
