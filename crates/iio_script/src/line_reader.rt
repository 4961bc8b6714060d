//! Reads an input line by line, from a source that gives pieces.

ghost use Rattle.std.specs.Prelude.{◌≡◌, ◌⊎◌, ℕ, ◌+◌, ◌≤◌, ◌<◌, Bool, true, List, [], ◌∷◌, ◌++◌, length, Option, None, Err, IfOk, IfSome, IfNone, OnOk, OnErr, map, take, vec_len};
ghost use Rattle.std.specs.Simd.Lanes.{chunk, mask_l};
ghost use Rattle.memchr.specs.Find.{IsFirstByte, is_byte};
ghost use Rattle.iio_base.specs.Faults.{Rose};
ghost use Rattle.iio_script.specs.LineReader.{Follows, HasLine, IsHand, NeedsMore, ReadsPiece, Shows, StandsAtEnd, empty_hand, line_of, taken_of, to_take};

use iio_history::MAX_INPUT_BYTES;
use iio_io::{ReadEnd, Source};
use iio_text::MAX_LINE_BYTES;
use memchr::memchr;
use std::alloc::{AllocError, Global};
use std::marker::Model;
use std::simd::prelude::*;

/// The maximum number of bytes that one read asks for: what a pipe holds.
pub const MAX_PIECE_BYTES: usize = 65_536;

/// What comes next in an input.
#[derive(Clone, Copy)]
pub(crate) enum Found {
    /// A line.
    Line,
    /// A line of more bytes than one may have.
    Long,
    /// The input's end.
    End,
    /// The end of what is looked at, although the input goes on.
    Cut,
}

/// Takes pieces of at most 65,536 bytes from a source, and gives their lines one after another. It holds the line that is
/// looked at, and at most a piece more.
#[derive(Drop)]
pub struct LineReader {
    bytes: Vec<u8>,
    // The place of the first byte that wasn't given yet.
    begin: usize,
    // The number of these bytes that were looked at; none of them is an LF.
    looked: usize,
    // The number of bytes that were given.
    given: usize,
    // The source has shown its end.
    ended: bool,
    // The last line was given, and it had no LF.
    over: bool,
    piece: Vec<u8>,
}

// Reads at most `room` bytes after those taken before, and returns their number, which is 0 only at the end.
fn read_piece<S: Source>(
    source: &mut S,
    piece: &mut [u8],
    room: usize,
    bytes: &mut Vec<u8>,
) -> Result<usize, ReadEnd>
    requires some { 1 ≤ room }
    requires within { room ≤ length piece.old }
    ensures next { IfOk result (λ n. IfSome (S.left source.old) (λ left. ReadsPiece left bytes.old.items bytes.new.items n (S.left source.new))) }
    ensures count { IfOk result (λ n. (n ≤ room) × (vec_len bytes.new ≡ vec_len bytes.old + n)) }
    ensures behind { take (vec_len bytes.old) bytes.new.items ≡ bytes.old.items }
    ensures kept { OnErr result ((S.left source.new ≡ S.left source.old) × (bytes.new.items ≡ bytes.old.items) × (vec_len bytes.new ≡ vec_len bytes.old)) }
    ensures silent { IfNone (S.left source.old) (S.left source.new ≡ None) }
    ensures counted { S.faults source.old ≤ S.faults source.new }
    ensures failed { result ≡ Err ReadEnd.Failed → Rose (S.faults source.old) (S.faults source.new) }
    ensures memory { result ≡ Err ReadEnd.Mem → S.faults source.new ≡ S.faults source.old }
    ensures steady { IfOk result (λ _. S.faults source.new ≡ S.faults source.old) }
{
    bytes.reserve(room)?;
    let count = source.read(&mut piece[..room])?;
    bytes.extend_from_slice(&piece[..count]).unwrap();
    Ok(count)
}

// The number of bytes that are looked at together; most lines are shorter.
const LANES: usize = 32;

// Returns which of the first `LANES` bytes are LFs, as a mask.
#[inline]
fn ends_in_lanes(bytes: &[u8]) -> u64
    requires { LANES ≤ length bytes.now }
    ensures { result ≡ mask_l (map (is_byte 10) (chunk 0 LANES bytes.now)) }
{
    Simd::<u8, LANES>::from_slice(bytes)
        .simd_eq(Simd::splat(b'\n'))
        .to_bitmask()
}

// Returns the place of the first LF.
#[inline]
fn line_end(bytes: &[u8]) -> Option<usize>
    ensures { IsFirstByte (is_byte 10) bytes.now result }
{
    if bytes.len() >= LANES {
        let ends = ends_in_lanes(bytes);
        if ends != 0 {
            return Some(ends.trailing_zeros() as usize);
        }
    }
    memchr(b'\n', bytes)
}

impl Model for LineReader {
    ghost use Rattle.std.specs.Prelude.{◌≡◌, ◌≤◌, drop, length, vec_len};
    ghost use Rattle.iio_script.specs.LineReader.{Hand, IsHand, piece_size};

    ghost Value = { Hand };

    ghost view = { λ r. record { bytes = drop r.begin r.bytes.items; looked = r.looked; given = r.given; ended = r.ended; over = r.over } };

    ghost invariant = { λ r. (r.begin ≤ vec_len r.bytes) × (vec_len r.piece ≡ piece_size)
        × IsHand (record { bytes = drop r.begin r.bytes.items; looked = r.looked; given = r.given; ended = r.ended; over = r.over }) };
}

impl LineReader {
    /// Makes a reader that has read nothing yet.
    pub fn new(alloc: Global) -> Result<LineReader, AllocError>
        ensures { IfOk result (λ r. r ≡ empty_hand) }
    {
        Ok(LineReader {
            bytes: Vec::new(alloc),
            begin: 0,
            looked: 0,
            given: 0,
            ended: false,
            over: false,
            piece: vec![in alloc; 0u8; MAX_PIECE_BYTES]?,
        })
    }

    /// Returns the line that was found, without its LF.
    pub(crate) fn line(&self) -> &[u8]
        ensures { result.now ≡ line_of self.now }
    {
        &self.bytes[self.begin..self.begin + self.looked]
    }

    // Looks at the bytes in hand up to the next LF, or at all of them.
    fn look_on(&mut self)
        ensures bytes { self.new.bytes ≡ self.old.bytes }
        ensures given { self.new.given ≡ self.old.given }
        ensures ended { self.new.ended ≡ self.old.ended }
        ensures over { self.new.over ≡ self.old.over }
        ensures hand { IsHand self.new }
        ensures at { (self.new.looked ≡ length self.new.bytes) ⊎ StandsAtEnd self.new }
    {
        let from = self.begin + self.looked;
        self.looked = match line_end(&self.bytes[from..]) {
            Some(len) => self.looked + len,
            None => self.bytes.len() - self.begin,
        };
    }

    /// Returns what comes next, if the bytes in hand decide it.
    pub(crate) fn look(&mut self) -> Option<Found>
        ensures found { IfSome result (λ found. Shows found self.new) }
        ensures more { IfNone result (NeedsMore self.new) }
        ensures hand { IsHand self.new }
        ensures given { self.new.given ≡ self.old.given }
        ensures over { self.new.over ≡ self.old.over }
        ensures to_take { to_take self.new ≡ to_take self.old }
        ensures follows { (input : List ℕ) (front : List (List ℕ)) (left : Option (List ℕ)) → Follows input front self.old left
            → Follows input front self.new left }
    {
        if self.over {
            return Some(Found::End);
        }
        self.look_on();
        let len = self.bytes.len() - self.begin;
        if self.looked < len && self.given + self.looked < MAX_INPUT_BYTES {
            return Some(Found::Line);
        }
        if self.looked > MAX_LINE_BYTES && self.given + MAX_LINE_BYTES < MAX_INPUT_BYTES {
            return Some(Found::Long);
        }
        if self.given + len > MAX_INPUT_BYTES {
            return Some(Found::Cut);
        }
        if !self.ended {
            return None;
        }
        if len == 0 {
            return Some(Found::End);
        }
        Some(Found::Line)
    }

    /// Moves on to what comes after the line that was found.
    pub(crate) fn pass(&mut self)
        requires { HasLine self.old }
        ensures follows { (input : List ℕ) (front : List (List ℕ)) (left : Option (List ℕ)) → Follows input front self.old left
            → Follows input (front ++ line_of self.old ∷ []) self.new left }
        ensures further { self.old.given < self.new.given }
        ensures hand { IsHand self.new }
    {
        let end = self.begin + self.looked;
        if end < self.bytes.len() {
            self.given += self.looked + 1;
            self.begin = end + 1;
        } else {
            self.given += self.looked;
            self.begin = end;
            self.over = true;
        }
        self.looked = 0;
    }

    // Moves the bytes in hand to the front, unless they stand there already. This happens at most once for each line, and
    // then for no more bytes than came in the last piece.
    fn close_up(&mut self)
        ensures same { self.new ≡ self.old }
    {
        if self.begin == 0 {
            return;
        }
        let len = self.bytes.len() - self.begin;
        self.bytes.copy_within(self.begin.., 0);
        self.bytes.truncate(len);
        self.begin = 0;
    }

    /// Takes the next piece, if more bytes are needed.
    fn fill<S: Source>(&mut self, source: &mut S) -> Result<(), ReadEnd>
        requires { NeedsMore self.old }
        ensures follows { (input : List ℕ) (front : List (List ℕ)) → Follows input front self.old (S.left source.old)
            → Follows input front self.new (S.left source.new) }
        ensures hand { IsHand self.new }
        ensures given { self.new.given ≡ self.old.given }
        ensures over { self.new.over ≡ self.old.over }
        ensures further { OnOk result (to_take self.new < to_take self.old) }
        ensures same { OnErr result (self.new ≡ self.old) }
        ensures silent { IfNone (S.left source.old) (S.left source.new ≡ None) }
        ensures counted { S.faults source.old ≤ S.faults source.new }
        ensures failed { result ≡ Err ReadEnd.Failed → Rose (S.faults source.old) (S.faults source.new) }
        ensures memory { result ≡ Err ReadEnd.Mem → S.faults source.new ≡ S.faults source.old }
        ensures steady { OnOk result (S.faults source.new ≡ S.faults source.old) }
    {
        self.close_up();
        let len = self.bytes.len() - self.begin;
        let room = MAX_PIECE_BYTES.min(MAX_INPUT_BYTES + 1 - (self.given + len));
        let count = read_piece(source, &mut self.piece, room, &mut self.bytes)?;
        self.ended = count == 0;
        Ok(())
    }

    /// Returns what comes next. Takes pieces until the bytes in hand decide it.
    pub(crate) fn find<S: Source>(&mut self, source: &mut S) -> Result<Found, ReadEnd>
        ensures found { IfOk result (λ found. Shows found self.new) }
        ensures more { OnErr result (NeedsMore self.new) }
        ensures follows { (input : List ℕ) (front : List (List ℕ)) → Follows input front self.old (S.left source.old)
            → Follows input front self.new (S.left source.new) }
        ensures hand { IsHand self.new }
        ensures given { self.new.given ≡ self.old.given }
        ensures over { self.new.over ≡ self.old.over }
        ensures silent { IfNone (S.left source.old) (S.left source.new ≡ None) }
        ensures counted { S.faults source.old ≤ S.faults source.new }
        ensures failed { result ≡ Err ReadEnd.Failed → Rose (S.faults source.old) (S.faults source.new) }
        ensures memory { result ≡ Err ReadEnd.Mem → S.faults source.new ≡ S.faults source.old }
        ensures steady { IfOk result (λ _. S.faults source.new ≡ S.faults source.old) }
    {
        loop {
            if let Some(found) = self.look() {
                return Ok(found);
            }
            self.fill(source)?;
        }
    }

    /// Returns what comes next: what a look has already found, and then nothing is read; otherwise like `find`.
    pub(crate) fn find_on<S: Source>(
        &mut self,
        seen: Option<Found>,
        source: &mut S,
    ) -> Result<Found, ReadEnd>
        requires seen { IfSome seen (λ found. Shows found self.old) }
        requires hand { IsHand self.old }
        ensures told { IfSome seen (λ _. S.left source.new ≡ S.left source.old) }
        ensures asked { OnErr result (seen ≡ None) }
        ensures found { IfOk result (λ found. Shows found self.new) }
        ensures more { OnErr result (NeedsMore self.new) }
        ensures follows { (input : List ℕ) (front : List (List ℕ)) → Follows input front self.old (S.left source.old)
            → Follows input front self.new (S.left source.new) }
        ensures hand { IsHand self.new }
        ensures given { self.new.given ≡ self.old.given }
        ensures over { self.new.over ≡ self.old.over }
        ensures silent { IfNone (S.left source.old) (S.left source.new ≡ None) }
        ensures counted { S.faults source.old ≤ S.faults source.new }
        ensures failed { result ≡ Err ReadEnd.Failed → Rose (S.faults source.old) (S.faults source.new) }
        ensures memory { result ≡ Err ReadEnd.Mem → S.faults source.new ≡ S.faults source.old }
        ensures steady { IfOk result (λ _. S.faults source.new ≡ S.faults source.old) }
    {
        match seen {
            Some(found) => Ok(found),
            None => self.find(source),
        }
    }
}
