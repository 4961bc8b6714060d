//! Names of triggers, devices and connections.

ghost use Rattle.std.specs.Prelude.{◌≡◌, ◌≤◌, ◌↔◌, true, IsTrue, length, take};
ghost use Rattle.std.specs.List.{list_all};
ghost use Rattle.std.specs.Str.{bytes_eq};
ghost use Rattle.iio_attr.specs.Name.{is_name_byte, is_name, name_of};

use iio_text::is_word;
use std::marker::Model;

/// The most bytes that a name has.
const MOST: usize = 32;

/// A name: 1 to 32 bytes, the first an ASCII letter, then letters, digits, `_`, `-`, `:` and `.`.
///
/// It lies in place and takes no memory. Contracts see it as its bytes.
#[derive(Debug, Drop)]
pub struct Name {
    buffer: [u8; MOST],
    len: usize,
}

impl Model for Name {
    ghost use Rattle.std.specs.Prelude.{ℕ, List, ◌≡◌, ◌≤◌, true, take};
    ghost use Rattle.iio_attr.specs.Name.{is_name};

    ghost Value = { List ℕ };

    ghost view = { λ n. take n.len n.buffer };

    ghost invariant = { λ n. (n.len ≤ 32) × (is_name (take n.len n.buffer) ≡ true) };
}

fn is_name_byte(byte: u8) -> bool
    ensures { result ≡ is_name_byte byte }
{
    byte.is_ascii_alphanumeric() || matches!(byte, b'_' | b'-' | b':' | b'.')
}

fn are_name_bytes(bytes: &[u8]) -> bool
    ensures { result ≡ list_all is_name_byte bytes.now }
{
    bytes.iter().all(|byte| is_name_byte(*byte))
}

// Whether a text has the form of a name.
fn is_name(text: &[u8]) -> bool
    ensures { result ≡ is_name text.now }
{
    match text {
        [] => false,
        [first, others @ ..] => {
            first.is_ascii_alphabetic() && others.len() < MOST && are_name_bytes(others)
        }
    }
}

impl Name {
    /// Makes a name of a text. Returns `None` exactly if the text hasn't the form of a name.
    pub fn new(text: &[u8]) -> Option<Name>
        ensures { result ≡ name_of text.now }
    {
        if !is_name(text) {
            return None;
        }
        let mut buffer = [0; MOST];
        buffer[..text.len()].copy_from_slice(text);
        Some(Name {
            buffer,
            len: text.len(),
        })
    }

    /// Returns an equal name.
    pub fn copy(&self) -> Name
        ensures { result ≡ self.now }
    {
        Name {
            buffer: self.buffer,
            len: self.len,
        }
    }

    /// The bytes of the name.
    pub fn bytes(&self) -> &[u8]
        ensures value { result.now ≡ self.now }
        ensures form { is_name self.now ≡ true }
        ensures within { length self.now ≤ 32 }
    {
        &self.buffer[..self.len]
    }

    /// The bytes of the name, followed by unspecified ones: always 32 bytes, so that they are cheap to copy.
    #[inline(always)]
    pub fn padded(&self) -> &[u8]
        ensures bytes { take (length self.now) result.now ≡ self.now }
        ensures size { length result.now ≡ 32 }
        ensures within { length self.now ≤ 32 }
    {
        &self.buffer
    }

    /// Whether these are the bytes of the name. Most names of one length differ in their last byte, so it is compared first.
    #[inline(always)]
    pub fn is(&self, bytes: &[u8]) -> bool
        ensures { result ≡ bytes_eq self.now bytes.now }
    {
        let own = self.bytes();
        own.last() == bytes.last() && is_word(own, bytes)
    }

    /// Whether the two names are equal.
    pub fn same(&self, other: &Name) -> bool
        ensures { IsTrue result ↔ (self.now ≡ other.now) }
    {
        self.is(other.bytes())
    }
}
