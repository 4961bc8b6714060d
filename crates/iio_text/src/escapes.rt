//! Escaped texts: any bytes, written in printable ones.

ghost use Rattle.std.specs.Prelude.{◌≡◌, not, ◌+◌, ◌*◌, ◌<◌, ◌≤◌, ℕ, ◌++◌, length, take, Some, Ok, IfSome, IfOk, IfErr, OnOk, OnErr, option_copied};
ghost use Rattle.std.specs.Int.{w64, to_le_bytes};
ghost use Rattle.std.specs.Simd.Lanes.{chunk};
ghost use Rattle.iio_text.specs.Escape.{is_plain, escaped_byte, escaped, hex_value, pair_of, piece_of, unescaped, Explains, between_quotes, quoted, quoted_of};

use crate::faults::Unescape;
use crate::runs::{ByteTest, copy_before};
use iio_base::Mem;
use std::alloc::Global;
use std::simd::prelude::*;

// Each byte as it is printed, filled up to four bytes with spaces.
const PRINTED: [u8; 1024] = *b"\
    \\x00\\x01\\x02\\x03\\x04\\x05\\x06\\x07\
    \\x08\\x09\\n  \\x0b\\x0c\\x0d\\x0e\\x0f\
    \\x10\\x11\\x12\\x13\\x14\\x15\\x16\\x17\
    \\x18\\x19\\x1a\\x1b\\x1c\\x1d\\x1e\\x1f\
    \x20   !   \\\"  #   $   %   &   '   \
    (   )   *   +   ,   -   .   /   \
    0   1   2   3   4   5   6   7   \
    8   9   :   ;   <   =   >   ?   \
    @   A   B   C   D   E   F   G   \
    H   I   J   K   L   M   N   O   \
    P   Q   R   S   T   U   V   W   \
    X   Y   Z   [   \\\\  ]   ^   _   \
    `   a   b   c   d   e   f   g   \
    h   i   j   k   l   m   n   o   \
    p   q   r   s   t   u   v   w   \
    x   y   z   {   |   }   ~   \\x7f\
    \\x80\\x81\\x82\\x83\\x84\\x85\\x86\\x87\
    \\x88\\x89\\x8a\\x8b\\x8c\\x8d\\x8e\\x8f\
    \\x90\\x91\\x92\\x93\\x94\\x95\\x96\\x97\
    \\x98\\x99\\x9a\\x9b\\x9c\\x9d\\x9e\\x9f\
    \\xa0\\xa1\\xa2\\xa3\\xa4\\xa5\\xa6\\xa7\
    \\xa8\\xa9\\xaa\\xab\\xac\\xad\\xae\\xaf\
    \\xb0\\xb1\\xb2\\xb3\\xb4\\xb5\\xb6\\xb7\
    \\xb8\\xb9\\xba\\xbb\\xbc\\xbd\\xbe\\xbf\
    \\xc0\\xc1\\xc2\\xc3\\xc4\\xc5\\xc6\\xc7\
    \\xc8\\xc9\\xca\\xcb\\xcc\\xcd\\xce\\xcf\
    \\xd0\\xd1\\xd2\\xd3\\xd4\\xd5\\xd6\\xd7\
    \\xd8\\xd9\\xda\\xdb\\xdc\\xdd\\xde\\xdf\
    \\xe0\\xe1\\xe2\\xe3\\xe4\\xe5\\xe6\\xe7\
    \\xe8\\xe9\\xea\\xeb\\xec\\xed\\xee\\xef\
    \\xf0\\xf1\\xf2\\xf3\\xf4\\xf5\\xf6\\xf7\
    \\xf8\\xf9\\xfa\\xfb\\xfc\\xfd\\xfe\\xff";

// How many bytes each byte is printed as.
const PRINTED_LENS: [usize; 256] = [
    4, 4, 4, 4, 4, 4, 4, 4, 4, 4, 2, 4, 4, 4, 4, 4, 4, 4, 4, 4, 4, 4, 4, 4, 4, 4, 4, 4, 4, 4, 4, 4,
    1, 1, 2, 1, 1, 1, 1, 1, 1, 1, 1, 1, 1, 1, 1, 1, 1, 1, 1, 1, 1, 1, 1, 1, 1, 1, 1, 1, 1, 1, 1, 1,
    1, 1, 1, 1, 1, 1, 1, 1, 1, 1, 1, 1, 1, 1, 1, 1, 1, 1, 1, 1, 1, 1, 1, 1, 1, 1, 1, 1, 2, 1, 1, 1,
    1, 1, 1, 1, 1, 1, 1, 1, 1, 1, 1, 1, 1, 1, 1, 1, 1, 1, 1, 1, 1, 1, 1, 1, 1, 1, 1, 1, 1, 1, 1, 4,
    4, 4, 4, 4, 4, 4, 4, 4, 4, 4, 4, 4, 4, 4, 4, 4, 4, 4, 4, 4, 4, 4, 4, 4, 4, 4, 4, 4, 4, 4, 4, 4,
    4, 4, 4, 4, 4, 4, 4, 4, 4, 4, 4, 4, 4, 4, 4, 4, 4, 4, 4, 4, 4, 4, 4, 4, 4, 4, 4, 4, 4, 4, 4, 4,
    4, 4, 4, 4, 4, 4, 4, 4, 4, 4, 4, 4, 4, 4, 4, 4, 4, 4, 4, 4, 4, 4, 4, 4, 4, 4, 4, 4, 4, 4, 4, 4,
    4, 4, 4, 4, 4, 4, 4, 4, 4, 4, 4, 4, 4, 4, 4, 4, 4, 4, 4, 4, 4, 4, 4, 4, 4, 4, 4, 4, 4, 4, 4, 4,
];

// How many bytes are printed at a time. Room for the most that they may take is made at the vector's end first.
const CHUNK: usize = 500;

// The most bytes of a short text, such as a number. Room of one length is made for it at once.
const SHORT: usize = 16;

// How many bytes are printed in one turn of a loop: those of a word.
const GROUP: usize = 8;

// Whether a byte is printed as itself.
#[inline]
#[tactic(auto, using(crate::proofs::PrintedLemmas::one_is_plain))]
fn is_plain(byte: u8) -> bool
    ensures { result ≡ is_plain byte }
{
    PRINTED_LENS[byte as usize] == 1
}

// Writes a byte as it is printed to the front of `room`, and returns how many bytes that takes. Four bytes are written.
#[inline]
fn put_escaped(byte: u8, room: &mut [u8]) -> usize
    requires { 4 ≤ length room.old }
    ensures within { result ≤ 4 }
    ensures text { take result room.new ≡ escaped_byte byte }
{
    let at = byte as usize;
    Simd::<u8, 4>::from_slice(&PRINTED[4 * at..]).copy_to_slice(room);
    PRINTED_LENS[at]
}

// The eight bytes from a place on as a word, the first as its lowest byte.
#[inline(always)]
fn word_at(bytes: &[u8], place: usize) -> u64
    requires { place + GROUP ≤ length bytes.now }
    ensures { to_le_bytes w64 result ≡ chunk place GROUP bytes.now }
{
    let [word] = u64x1::from_le_bytes(u8x8::from_slice(&bytes[place..])).to_array();
    word
}

// Writes bytes as they are printed to the front of `room`, and returns how many bytes that takes.
#[inline(always)]
fn put_each_escaped(bytes: &[u8], room: &mut [u8]) -> usize
    requires { 4 * length bytes.now ≤ length room.old }
    ensures within { result ≤ 4 * length bytes.now }
    ensures text { take result room.new ≡ escaped bytes.now }
{
    let mut len = 0;
    for byte in bytes {
        len += put_escaped(*byte, &mut room[len..]);
    }
    len
}

// Writes a word's eight bytes, the lowest first, as they are printed to the front of `room`. The compiler unrolls the loop.
#[inline(always)]
fn put_word_escaped(word: u64, room: &mut [u8]) -> usize
    requires { 4 * GROUP ≤ length room.old }
    ensures within { result ≤ 4 * GROUP }
    ensures text { take result room.new ≡ escaped (to_le_bytes w64 word) }
{
    let mut len = 0;
    for i in 0..GROUP {
        let byte = (word >> (8 * i)) & 0xff;
        len += put_escaped(byte as u8, &mut room[len..]);
    }
    len
}

// Writes many bytes as they are printed to the front of `room`: whole words first.
fn put_all_escaped(bytes: &[u8], room: &mut [u8]) -> usize
    requires { 4 * length bytes.now ≤ length room.old }
    ensures within { result ≤ 4 * length bytes.now }
    ensures text { take result room.new ≡ escaped bytes.now }
{
    let mut len = 0;
    let mut place = 0;
    while bytes.len() - place >= GROUP {
        len += put_word_escaped(word_at(bytes, place), &mut room[len..]);
        place += GROUP;
    }
    len + put_each_escaped(&bytes[place..], &mut room[len..])
}

// Appends at most `SHORT` bytes as they are printed.
fn short_escape_to(out: &mut Vec<u8>, bytes: &[u8]) -> Result<(), Mem>
    requires { length bytes.now ≤ SHORT }
    ensures ok { OnOk result (out.new.items ≡ out.old.items ++ escaped bytes.now) }
    ensures err { OnErr result (out.new.items ≡ out.old.items) }
{
    let start = out.len();
    out.resize(start + 4 * SHORT, 0)?;
    let len = put_each_escaped(bytes, &mut out[start..]);
    out.truncate(start + len);
    Ok(())
}

// Appends at most `CHUNK` bytes as they are printed.
fn chunk_escape_to(out: &mut Vec<u8>, bytes: &[u8]) -> Result<(), Mem>
    requires { length bytes.now ≤ CHUNK }
    ensures ok { OnOk result (out.new.items ≡ out.old.items ++ escaped bytes.now) }
    ensures err { OnErr result (out.new.items ≡ out.old.items) }
{
    let start = out.len();
    out.resize(start + 4 * bytes.len(), 0)?;
    let len = put_all_escaped(bytes, &mut out[start..]);
    out.truncate(start + len);
    Ok(())
}

/// Appends bytes as they are printed. After an `Err` the printed form of those that fitted has been appended.
pub fn escape_to(out: &mut Vec<u8>, bytes: &[u8]) -> Result<(), Mem>
    ensures ok { OnOk result (out.new.items ≡ out.old.items ++ escaped bytes.now) }
    ensures err { OnErr result ((k : ℕ) × (out.new.items ≡ out.old.items ++ escaped (take k bytes.now))) }
{
    if bytes.len() <= SHORT {
        return short_escape_to(out, bytes);
    }
    let mut place = 0;
    while place < bytes.len() {
        let end = bytes.len().min(place + CHUNK);
        chunk_escape_to(out, &bytes[place..end])?;
        place = end;
    }
    Ok(())
}

/// Returns bytes in printable form: 0x0a as `\n`, `"` and `\` with a `\` before them, other bytes from 0x20 to 0x7e as they
/// are, each other byte as `\x` and two hexadecimal digits in lower case.
pub fn escape(alloc: Global, bytes: &[u8]) -> Result<Vec<u8>, Mem>
    ensures text { IfOk result (λ v. v.items ≡ escaped bytes.now) }
    ensures read_back { IfOk result (λ v. unescaped v.items ≡ Ok bytes.now) }
    // A quoted text is read back too.
    ensures quoted { OnOk result (quoted_of (quoted bytes.now) ≡ Some bytes.now) }
{
    let mut out = Vec::with_capacity(alloc, bytes.len())?;
    escape_to(&mut out, bytes)?;
    Ok(out)
}

// The number of a hexadecimal digit of either case.
fn hex_value(byte: u8) -> Option<u8>
    ensures value { result ≡ hex_value byte }
    ensures within { IfSome result (λ number. number < 16) }
{
    match byte {
        b'0'..=b'9' => Some(byte - b'0'),
        b'a'..=b'f' => Some(byte - b'a' + 10),
        b'A'..=b'F' => Some(byte - b'A' + 10),
        _ => None,
    }
}

// The byte of two hexadecimal digits, and how many bytes these take with the `x` before them.
fn hex_pair(text: &[u8]) -> Option<(u8, usize)>
    ensures { result ≡ pair_of text.now }
{
    match text {
        [high, low, ..] => match (hex_value(*high), hex_value(*low)) {
            (Some(high), Some(low)) => Some((16 * high + low, 3)),
            _ => None,
        },
        _ => None,
    }
}

// What a text begins with: the byte that is meant, and how many further bytes that takes.
fn piece(text: &[u8]) -> Option<(u8, usize)>
    ensures value { result ≡ piece_of text.now }
    ensures within { IfSome result (λ piece. piece.1 < length text.now) }
{
    match text {
        [b'\\', b'n', ..] => Some((b'\n', 1)),
        [b'\\', byte @ (b'"' | b'\\'), ..] => Some((*byte, 1)),
        [b'\\', b'x', digits @ ..] => hex_pair(digits),
        [byte, ..] if is_plain(*byte) => Some((*byte, 0)),
        _ => None,
    }
}

// Whether a byte doesn't stand for itself.
#[derive(Drop)]
struct Special;

impl ByteTest for Special {
    ghost passes = { λ _ byte. not (is_plain byte) };

    #[inline(always)]
    fn passes_at(&self, byte: u8) -> bool {
        !is_plain(byte)
    }

    #[inline(always)]
    fn passing_in_lanes(&self, text: &[u8], place: usize) -> u64 {
        let lanes = u8x16::from_slice(&text[place..]);
        let special = lanes.simd_lt(u8x16::splat(b' '))
            | lanes.simd_gt(u8x16::splat(b'~'))
            | lanes.simd_eq(u8x16::splat(b'"'))
            | lanes.simd_eq(u8x16::splat(b'\\'));
        special.to_bitmask()
    }
}

/// Returns the bytes that an escaped text means. `\n`, `\"` and `\\` stand for 0x0a, `"` and `\`; `\x` with two hexadecimal
/// digits of either case for any byte; bytes from 0x20 to 0x7e other than `"` and `\` for themselves. No other byte and no
/// other escape is allowed.
pub fn unescape(alloc: Global, text: &[u8]) -> Result<Vec<u8>, Unescape>
    ensures ok { IfOk result (λ v. unescaped text.now ≡ Ok v.items) }
    ensures err { IfErr result (λ e. Explains e (unescaped text.now)) }
{
    unescape_into(Vec::new(alloc), text)
}

/// Returns the bytes that an escaped text means, like `unescape`, but in the memory of `out`. What was in `out` is discarded.
pub fn unescape_into(mut out: Vec<u8>, text: &[u8]) -> Result<Vec<u8>, Unescape>
    ensures ok { IfOk result (λ v. unescaped text.now ≡ Ok v.items) }
    ensures err { IfErr result (λ e. Explains e (unescaped text.now)) }
{
    let Ok(()) = out.resize(text.len(), 0) else {
        return Err(Unescape::Mem);
    };
    let mut len = 0;
    let mut place = 0;
    'pieces: while place < text.len() {
        let plain = copy_before(&Special, &text[place..], &mut out[len..]);
        len += plain;
        place += plain;
        if place == text.len() {
            break;
        }
        let Some((byte, more)) = piece(&text[place..]) else {
            return Err(Unescape::BadEscape(place));
        };
        out[len] = byte;
        len += 1;
        place += more + 1;
    }
    out.truncate(len);
    Ok(out)
}

/// What stands between a quote at the beginning of a text and another one at its end. Returns `None` if there are no two such
/// quotes.
pub fn between_quotes(text: &[u8]) -> Option<&[u8]>
    ensures { option_copied result ≡ between_quotes text.now }
{
    match text {
        [b'"', inner @ .., b'"'] => Some(inner),
        _ => None,
    }
}
