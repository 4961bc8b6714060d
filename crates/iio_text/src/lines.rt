//! The lines of a text, and the checks that come before all others.

ghost use Rattle.std.specs.Prelude.{◌≡◌, ◌+◌, ◌<◌, ◌≤◌, ◌↔◌, [], ◌∷◌, length, take, Ok, IsNone, IfSome, IfNone, IfOk, IfErr, Err};
ghost use Rattle.std.specs.List.{list_all, position_or_len};
ghost use Rattle.std.specs.Simd.Lanes.{chunk};
ghost use Rattle.iio_text.specs.Words.{words_of, is_space, IsFirstWord};
ghost use Rattle.iio_text.specs.Lines.{is_line_end, lines_of, is_printable, fits_line, is_comment, words_of_line};

use crate::refusals::{Why, ensure};
use crate::runs::{ByteTest, copy_before};
use crate::words::next_word;
use memchr::memchr;
use std::simd::prelude::*;

/// The most bytes of a line, without its LF.
pub const MAX_LINE_BYTES: usize = 1_048_576;

// How many bytes are looked at at a time.
const LANES: usize = 16;

// How many bytes of a short line are looked at at a time.
const FEW: usize = 8;

/// The number of bytes before the first LF of a text; all of them if it has none.
pub fn line_len(text: &[u8]) -> usize
    ensures within { result ≤ length text.now }
    ensures value { result ≡ position_or_len is_line_end text.now }
{
    match memchr(b'\n', text) {
        Some(len) => len,
        None => text.len(),
    }
}

// Whether a byte ends a line.
#[derive(Drop)]
struct LineEnd;

impl ByteTest for LineEnd {
    ghost passes = { λ _ byte. is_line_end byte };

    #[inline(always)]
    fn passes_at(&self, byte: u8) -> bool {
        byte == b'\n'
    }

    #[inline(always)]
    fn passing_in_lanes(&self, text: &[u8], place: usize) -> u64 {
        let lanes = u8x16::from_slice(&text[place..]);
        lanes.simd_eq(u8x16::splat(b'\n')).to_bitmask()
    }
}

/// Copies the bytes of a text before its first LF, or all if it has none, to the front of `room`, and returns how many these
/// are.
#[inline]
pub fn copy_line(text: &[u8], room: &mut [u8]) -> usize
    requires { length text.now ≤ length room.old }
    ensures within { result ≤ length text.now }
    ensures value { result ≡ position_or_len is_line_end text.now }
    ensures copied { take result room.new ≡ take result text.now }
{
    copy_before(&LineEnd, text, room)
}

/// Takes the first line off a text. Returns it without its LF, with the text after it. LF ends a line, and a last line without
/// LF counts if it isn't empty. Returns `None` exactly if there is no line.
pub fn next_line(text: &[u8]) -> Option<(&[u8], &[u8])>
    ensures none { IsNone result ↔ (lines_of text.now ≡ []) }
    ensures found { IfSome result (λ l. lines_of text.now ≡ l.0.now ∷ lines_of l.1.now) }
    ensures shorter { IfSome result (λ l. length l.1.now < length text.now) }
{
    if text.is_empty() {
        return None;
    }
    let len = line_len(text);
    if len == text.len() {
        return Some(text.split_at(len));
    }
    Some((&text[..len], &text[len + 1..]))
}

/// Whether a line is short enough, with at most [`MAX_LINE_BYTES`] bytes.
pub fn fits_line(line: &[u8]) -> bool
    ensures { result ≡ fits_line line.now }
{
    line.len() <= MAX_LINE_BYTES
}

// Whether a line is a comment: its first byte is `#`.
fn is_comment(line: &[u8]) -> bool
    ensures { result ≡ is_comment line.now }
{
    matches!(line, [b'#', ..])
}

fn is_printable(byte: u8) -> bool
    ensures { result ≡ is_printable byte }
{
    matches!(byte, 0x20..=0x7e)
}

// Whether the `LANES` bytes from a place on are printable ASCII.
#[inline(always)]
fn lanes_are_printable(line: &[u8], place: usize) -> bool
    requires { place + LANES ≤ length line.now }
    ensures { result ≡ list_all is_printable (chunk place LANES line.now) }
{
    let lanes = u8x16::from_slice(&line[place..]);
    let others = lanes.simd_lt(u8x16::splat(b' ')) | lanes.simd_gt(u8x16::splat(b'~'));
    others.to_bitmask() == 0
}

// Whether the `FEW` bytes from a place on are printable ASCII.
#[inline(always)]
fn few_are_printable(line: &[u8], place: usize) -> bool
    requires { place + FEW ≤ length line.now }
    ensures { result ≡ list_all is_printable (chunk place FEW line.now) }
{
    let lanes = u8x8::from_slice(&line[place..]);
    let others = lanes.simd_lt(u8x8::splat(b' ')) | lanes.simd_gt(u8x8::splat(b'~'));
    others.to_bitmask() == 0
}

// Whether each byte of a short line is printable ASCII. Looks at the bytes one by one.
#[inline(always)]
fn each_is_printable(line: &[u8]) -> bool
    ensures { result ≡ list_all is_printable line.now }
{
    let mut printable = true;
    for byte in line {
        printable &= is_printable(*byte);
    }
    printable
}

// Whether each byte of a line is printable ASCII. Looks at many bytes at a time, and at some of the line's last ones twice.
fn is_printable_text(line: &[u8]) -> bool
    ensures { result ≡ list_all is_printable line.now }
{
    if line.len() < FEW {
        return each_is_printable(line);
    }
    if line.len() < LANES {
        return few_are_printable(line, 0) && few_are_printable(line, line.len() - FEW);
    }
    let last = line.len() - LANES;
    let mut place = 0;
    while place < last {
        if !lanes_are_printable(line, place) {
            return false;
        }
        place += LANES;
    }
    lanes_are_printable(line, last)
}

/// Takes the first word off a line of a description or of a script, without its LF, and returns it with the line after it.
/// Returns `None` for a line that means nothing: a comment, whose first byte is `#`, or a line without a word. The line is
/// refused as `long` if it has more than [`MAX_LINE_BYTES`] bytes, and then, if it means anything, as `text` if one of its
/// bytes is outside 0x20 to 0x7e.
#[inline]
pub fn first_word(line: &[u8]) -> Result<Option<(&[u8], &[u8])>, Why>
    ensures refused { IfErr result (λ why. words_of_line line.now ≡ Err why) }
    ensures blank { IfOk result (λ first. IfNone first (words_of_line line.now ≡ Ok [])) }
    ensures words { IfOk result (λ first. IfSome first (λ w. words_of_line line.now ≡ Ok (w.0.now ∷ words_of is_space w.1.now))) }
    ensures first { IfOk result (λ first. IfSome first (λ w. IsFirstWord is_space line.now w.0.now w.1.now)) }
{
    ensure(fits_line(line), Why::Long)?;
    if is_comment(line) {
        return Ok(None);
    }
    let first = next_word(line);
    ensure(first.is_none() || is_printable_text(line), Why::Text)?;
    Ok(first)
}
