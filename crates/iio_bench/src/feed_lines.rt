//! The lines of a feed, appended to what was printed before.

ghost use Rattle.std.specs.Prelude.{◌≡◌, ◌+◌, ◌++◌, ◌≤◌, [], ◌∷◌, OnOk, codes, length, take};
ghost use Rattle.iio_text.specs.Escape.{quoted};
ghost use Rattle.iio_history.specs.Transcript.{closed_line, printed};

use iio_attr::Name;
use iio_base::Mem;
use iio_text::escape_to;
use std::simd::prelude::*;

// The size of the room in which the head of a feed's line is put together: a name and a word.
const HEAD_ROOM: usize = 48;

/// Puts the first `len` bytes of a word, which is filled up with spaces, at a place, and returns where they end. All sixteen are
/// copied, since a copy of a known length is cheap.
#[inline(always)]
pub fn put_word(out: &mut Vec<u8>, at: usize, word: &[u8; 16], len: usize) -> usize
    requires len { len ≤ 16 }
    requires room { at + 16 ≤ length out.old.items }
    ensures end { result ≡ at + len }
    ensures text { take result out.new.items ≡ take at out.old.items ++ take len word.now }
    ensures size { length out.new.items ≡ length out.old.items }
{
    Simd::<u8, 16>::from_slice(word).copy_to_slice(&mut out[at..]);
    at + len
}

/// Puts a name at a place, and returns where it ends. All 32 bytes of its padded form are copied.
#[inline(always)]
pub fn put_name(out: &mut Vec<u8>, at: usize, name: &Name) -> usize
    requires { at + 32 ≤ length out.old.items }
    ensures end { (at ≤ result) × (result ≤ at + 32) }
    ensures text { take result out.new.items ≡ take at out.old.items ++ name.now }
    ensures size { length out.new.items ≡ length out.old.items }
{
    Simd::<u8, 32>::from_slice(name.padded()).copy_to_slice(&mut out[at..]);
    at + name.bytes().len()
}

// Puts a name and an opening quote at a place, and returns where they end.
#[inline(always)]
fn put_feed_head(out: &mut Vec<u8>, at: usize, name: &Name) -> usize
    requires { at + HEAD_ROOM ≤ length out.old.items }
    ensures text { take result out.new.items ≡ take at out.old.items ++ name.now ++ codes " \"" }
{
    let at = put_name(out, at, name);
    put_word(out, at, b" \"              ", 2)
}

// Appends the line of a feed up to its opening quote.
#[inline(always)]
fn push_feed_head(out: &mut Vec<u8>, name: &Name) -> Result<(), Mem>
    ensures { OnOk result (out.new.items ≡ out.old.items ++ name.now ++ codes " \"") }
{
    let start = out.len();
    out.resize(start + HEAD_ROOM, 0)?;
    let end = put_feed_head(out, start, name);
    out.truncate(end);
    Ok(())
}

/// Appends `NAME "answers"`.
pub fn push_feed(out: &mut Vec<u8>, name: &Name, answers: &[u8]) -> Result<(), Mem>
    ensures { OnOk result (out.new.items ≡ out.old.items ++ printed (name.now ∷ quoted answers.now ∷ [])) }
{
    push_feed_head(out, name)?;
    escape_to(out, answers)?;
    out.push(b'"')?;
    out.push(b'\n')?;
    Ok(())
}

/// Appends `NAME closed`.
pub fn push_closed(out: &mut Vec<u8>, name: &Name) -> Result<(), Mem>
    ensures { OnOk result (out.new.items ≡ out.old.items ++ closed_line name.now) }
{
    out.extend_from_slice(name.bytes())?;
    out.extend_from_slice(b" closed\n")?;
    Ok(())
}
