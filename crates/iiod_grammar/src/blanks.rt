//! The words of a command line, found by looking at many bytes at once.

ghost use Rattle.std.specs.Prelude.{◌≡◌, ◌+◌, ◌==◌, ◌≤◌, ◌<◌, ◌∷◌, ◌↔◌, IsNone, IfSome, [], if◌then◌else◌, length, drop};
ghost use Rattle.std.specs.Int.{w64, trailing_zeros};
ghost use Rattle.std.specs.List.{prefix_len, position_or_len};
ghost use Rattle.std.specs.Simd.Lanes.{chunk};
ghost use Rattle.iio_text.specs.Words.{is_blank, words_of, IsFirstWord};
ghost use Rattle.iiod_grammar.specs.Marks.{marks_of};

use std::marker::Model;
use std::simd::prelude::*;

// The number of bytes that are looked at at once.
const LANES: usize = 16;

// The most bytes of a text whose marks are kept.
const MARKED: usize = 63;

fn is_blank(byte: u8) -> bool
    ensures { result ≡ is_blank byte }
{
    byte == b' ' || byte == b'\t'
}

// Returns the place of the lowest bit of a mask, or `lanes` if none is set.
#[inline(always)]
fn first_set(mask: u64, lanes: usize) -> usize
    ensures { result ≡ (if mask == 0 then lanes else trailing_zeros w64 mask) }
{
    if mask == 0 {
        lanes
    } else {
        mask.trailing_zeros() as usize
    }
}

// Returns how many of the `LANES` bytes from a place on stand before the first blank.
#[inline(always)]
fn first_in_lanes(text: &[u8], place: usize) -> usize
    requires { place + LANES ≤ length text.now }
    ensures { result ≡ position_or_len is_blank (chunk place LANES text.now) }
{
    let lanes = u8x16::from_slice(&text[place..]);
    let blanks = lanes.simd_eq(u8x16::splat(b' ')) | lanes.simd_eq(u8x16::splat(b'\t'));
    first_set(blanks.to_bitmask(), LANES)
}

// Returns the place of the first blank from a place on, or the length; the bytes are looked at one by one.
fn next_blank(text: &[u8], from: usize) -> usize
    requires { from ≤ length text.now }
    ensures within { result ≤ length text.now }
    ensures value { result ≡ from + position_or_len is_blank (drop from text.now) }
{
    let mut place = from;
    while place < text.len() && !is_blank(text[place]) {
        place += 1;
    }
    place
}

// Returns the number of bytes before the first blank.
fn word_len(text: &[u8]) -> usize
    ensures within { result ≤ length text.now }
    ensures value { result ≡ position_or_len is_blank text.now }
{
    let mut place = 0;
    while text.len() - place >= LANES {
        let before = first_in_lanes(text, place);
        place += before;
        if before < LANES {
            return place;
        }
    }
    next_blank(text, place)
}

// Returns the number of blanks that the text begins with.
fn blanks_len(text: &[u8]) -> usize
    ensures within { result ≤ length text.now }
    ensures value { result ≡ prefix_len is_blank text.now }
{
    for (i, byte) in text.iter().enumerate() {
        if !is_blank(*byte) {
            return i;
        }
    }
    text.len()
}

// Returns the first word of a command line, and the text after it, like iio_text's `next_word` with spaces and tabs; `None` if
// the text has no word.
fn next_word(text: &[u8]) -> Option<(&[u8], &[u8])>
    ensures none { IsNone result ↔ (words_of is_blank text.now ≡ []) }
    ensures found { IfSome result (λ r. IsFirstWord is_blank text.now r.0.now r.1.now) }
{
    let (_, begun) = text.split_at(blanks_len(text));
    if begun.is_empty() {
        return None;
    }
    Some(begun.split_at(word_len(begun)))
}

// Returns the marks of the 32 bytes from a place on: bit i says whether byte i is not a blank.
#[inline(always)]
fn marks_of_32(text: &[u8], place: usize) -> u64
    requires { place + 32 ≤ length text.now }
    ensures { result ≡ marks_of (chunk place 32 text.now) }
{
    let lanes = u8x32::from_slice(&text[place..]);
    (lanes.simd_ne(u8x32::splat(b' ')) & lanes.simd_ne(u8x32::splat(b'\t'))).to_bitmask()
}

// Returns the marks of the 16 bytes from a place on.
#[inline(always)]
fn marks_of_16(text: &[u8], place: usize) -> u64
    requires { place + 16 ≤ length text.now }
    ensures { result ≡ marks_of (chunk place 16 text.now) }
{
    let lanes = u8x16::from_slice(&text[place..]);
    (lanes.simd_ne(u8x16::splat(b' ')) & lanes.simd_ne(u8x16::splat(b'\t'))).to_bitmask()
}

// Returns the marks of the 8 bytes from a place on.
#[inline(always)]
fn marks_of_8(text: &[u8], place: usize) -> u64
    requires { place + 8 ≤ length text.now }
    ensures { result ≡ marks_of (chunk place 8 text.now) }
{
    let lanes = u8x8::from_slice(&text[place..]);
    (lanes.simd_ne(u8x8::splat(b' ')) & lanes.simd_ne(u8x8::splat(b'\t'))).to_bitmask()
}

// Returns the marks of a text's bytes, which are looked at one by one.
fn marks_of_few(text: &[u8]) -> u64
    requires { length text.now < 8 }
    ensures { result ≡ marks_of text.now }
{
    let mut marks = 0;
    let mut place = text.len();
    while place > 0 {
        place -= 1;
        marks = marks * 2 + u64::from(!is_blank(text[place]));
    }
    marks
}

// Returns the marks of a text's bytes. The last block of bytes may overlap the first one.
#[inline(always)]
fn marks_of(text: &[u8]) -> u64
    requires { length text.now ≤ MARKED }
    ensures { result ≡ marks_of text.now }
{
    let len = text.len();
    if len >= 32 {
        let first = marks_of_32(text, 0);
        if len > 48 {
            first | marks_of_32(text, len - 32) << (len - 32)
        } else {
            first | marks_of_16(text, len - 16) << (len - 16)
        }
    } else if len >= 16 {
        marks_of_16(text, 0) | marks_of_16(text, len - 16) << (len - 16)
    } else if len >= 8 {
        marks_of_8(text, 0) | marks_of_8(text, len - 8) << (len - 8)
    } else {
        marks_of_few(text)
    }
}

/// The words of a command line that were not taken yet.
#[derive(Drop)]
pub(crate) struct Words<'a> {
    text: &'a [u8],
    // The marks of the text, or 0 if it has more than 63 bytes.
    marks: u64,
}

impl<'a> Model for Words<'a> {
    ghost use Rattle.std.specs.Prelude.{◌≡◌, ℕ, List};
    ghost use Rattle.iio_text.specs.Words.{words_of, is_blank};
    ghost use Rattle.iiod_grammar.specs.Marks.{kept_marks};

    ghost Value = { List (List ℕ) };

    ghost view = { λ x. words_of is_blank x.text.now };

    ghost invariant = { λ x. x.marks ≡ kept_marks x.text.now };
}

impl<'a> Words<'a> {
    #[inline]
    pub(crate) fn of(text: &'a [u8]) -> Words<'a>
        ensures { result ≡ words_of is_blank text.now }
    {
        Words {
            text,
            marks: if text.len() <= MARKED {
                marks_of(text)
            } else {
                0
            },
        }
    }

    /// Takes the first word. Returns `None` if there is none.
    #[inline(always)]
    pub(crate) fn next(&mut self) -> Option<&'a [u8]>
        ensures none { IsNone result ↔ (self.old ≡ []) }
        ensures found { IfSome result (λ word. self.old ≡ word.now ∷ self.new) }
    {
        if self.marks == 0 {
            if self.text.len() <= MARKED {
                return None;
            }
            return self.next_unmarked();
        }
        let start = self.marks.trailing_zeros();
        let (_, begun) = self.text.split_at(start as usize);
        let marks = self.marks >> start;
        let len = marks.trailing_ones();
        let (word, rest) = begun.split_at(len as usize);
        *self = Words {
            text: rest,
            marks: marks >> len,
        };
        Some(word)
    }

    // Takes the first word without the marks.
    #[inline(always)]
    fn next_unmarked(&mut self) -> Option<&'a [u8]>
        ensures none { IsNone result ↔ (self.old ≡ []) }
        ensures found { IfSome result (λ word. self.old ≡ word.now ∷ self.new) }
    {
        match next_of_long(self.text) {
            None => None,
            Some((word, rest)) => {
                *self = rest;
                Some(word)
            }
        }
    }
}

// Returns the first word of a text, and the words after it. It is a function of its own because few lines are long enough to
// need it.
#[cold]
#[inline(never)]
fn next_of_long(text: &[u8]) -> Option<(&[u8], Words<'_>)>
    ensures none { IsNone result ↔ (words_of is_blank text.now ≡ []) }
    ensures found { IfSome result (λ r. words_of is_blank text.now ≡ r.0.now ∷ r.1) }
{
    match next_word(text) {
        None => None,
        Some((word, rest)) => Some((word, Words::of(rest))),
    }
}
