//! An answer to READBUF, whose bytes may come in any parts.

ghost use Rattle.std.specs.Prelude.{◌≡◌, ℕ, ◌+◌, ◌-◌, ◌^◌, ◌<◌, ◌≤◌, ◌%◌, ◌++◌, [], ◌∷◌, List, IfOk, IfSome, IfNone, Some, length, take, vec_capacity, vec_len};
ghost use Rattle.iio_text.specs.Numbers.{number_of};
ghost use Rattle.iiod_client.specs.Standing.{IsSoundPlace, OneReading, Reads, Stands, most_to_come, new_answer, state_of};
ghost use Rattle.iiod_client.specs.Steps.{AfterBlock, AfterBytes, AfterLength, AfterLine, AfterMask};

use crate::line::{MAX_LINE, read_refusal};
use arrayvec::ArrayVec;
use iio_base::Mem;
use iio_mask::Mask;
use iio_text::read_number;
use std::alloc::Global;
use std::marker::Model;

/// The maximum number of bytes that an answer is asked for.
pub const MAX_ASKED: u32 = 65_536;

/// What the bytes of an answer are so far.
#[derive(Clone, Copy, Debug, PartialEq, Eq)]
pub enum State {
    /// The beginning of an answer.
    More,
    /// A whole answer.
    Done,
    /// A refusal by this negative number, instead of an answer or after blocks of one.
    Refused(u32),
    /// No answer begins like this.
    Malformed,
}

/// The place in an answer that has been reached.
#[derive(Clone, Copy, Debug)]
pub enum Place {
    /// Within a line that stands where a length line is due.
    Length,
    /// Within the mask's line, after the length line of the first block, whose length this is.
    Mask(u32),
    /// Within the bytes of a block; this number of them is still to come.
    Data(u32),
    /// At the end of an answer.
    Done,
    /// At the end of a refusal.
    Refused(u32),
    /// After a byte that no answer has there.
    Malformed,
}

/// An answer of which some bytes have come.
#[derive(Debug, Drop)]
pub struct Answer {
    asked: u32,
    mask: Mask,
    channels: u32,
    size: u32,
    place: Place,
    line: ArrayVec<u8, MAX_LINE>,
    body: Vec<u8>,
}

impl Model for Answer {
    ghost use Rattle.std.specs.Prelude.{◌≤◌, ◌^◌, ◌<◌, vec_capacity};
    ghost use Rattle.iiod_client.specs.Standing.{AnswerRecord};
    ghost use Rattle.iiod_client.specs.View.{record_of, IsSound};

    ghost Value = { AnswerRecord };

    ghost view = { record_of };

    ghost invariant = { IsSound };
}

impl Answer {
    /// Makes an answer of which nothing has come yet, to a READBUF that asks for `asked` bytes under a mask of `channels`
    /// channels, whose scans have `size` bytes. The room for its bytes is taken here, and no later call takes memory.
    pub fn new(
        alloc: Global,
        asked: u32,
        mask: Mask,
        channels: u32,
        size: u32,
    ) -> Result<Answer, Mem>
        requires some { 1 ≤ asked }
        requires most { asked ≤ MAX_ASKED }
        requires channel { 1 ≤ channels }
        requires few { channels ≤ 64 }
        requires below { mask.bits < 2 ^ channels }
        requires size { 1 ≤ size }
        ensures { IfOk result (λ answer. answer ≡ new_answer (record { bytes = asked; mask = mask.bits; channels = channels; size = size })) }
    {
        Ok(Answer {
            asked,
            mask,
            channels,
            size,
            place: Place::Length,
            line: ArrayVec::new(),
            body: Vec::with_capacity(alloc, asked as usize)?,
        })
    }

    /// Returns the data bytes of all blocks so far, one block after the other, with those of a block that isn't whole yet.
    pub fn body(&self) -> &[u8]
        ensures { result.now ≡ self.now.body }
    {
        &self.body
    }

    /// Takes bytes up to the answer's end, and returns how many it took and what the answer is. It doesn't matter how the
    /// bytes are cut. It returns `Done` and `Refused` exactly with the last byte of an answer and of a refusal, and
    /// `Malformed` with the LF of the first line that no answer has there, with the 33rd byte of a line if that isn't an LF,
    /// and with the last byte asked for if the bytes aren't whole scans. After an end no byte is taken.
    pub fn feed(&mut self, bytes: &[u8]) -> (usize, State)
        ensures reads { (text : List ℕ) → Stands self.old text → Reads self.old.asked result.1 (text ++ take result.0 bytes.now) self.new.body }
        ensures stands { (text : List ℕ) → Stands self.old text → Stands self.new (text ++ take result.0 bytes.now) }
        ensures asked { self.new.asked ≡ self.old.asked }
        ensures state { result.1 ≡ state_of self.new.place }
        ensures within { result.0 ≤ length bytes.now }
        ensures more { result.1 ≡ State.More → result.0 ≡ length bytes.now }
        ensures bounded { result.0 + most_to_come self.new ≤ most_to_come self.old }
    {
        let mut taken = 0;
        while taken < bytes.len() && self.state() == State::More {
            taken += self.take(&bytes[taken..]);
        }
        (taken, self.state())
    }

    /// Returns what the bytes are so far.
    pub fn state(&self) -> State
        ensures { result ≡ state_of self.now.place }
    {
        match self.place {
            Place::Length | Place::Mask(_) | Place::Data(_) => State::More,
            Place::Done => State::Done,
            Place::Refused(n) => State::Refused(n),
            Place::Malformed => State::Malformed,
        }
    }

    // Takes some bytes, and returns their number.
    fn take(&mut self, bytes: &[u8]) -> usize
        requires some { 1 ≤ length bytes.now }
        requires more { state_of self.old.place ≡ State.More }
        ensures some { 1 ≤ result }
        ensures within { result ≤ length bytes.now }
        ensures asked { self.new.asked ≡ self.old.asked }
        ensures stands { (text : List ℕ) → Stands self.old text → Stands self.new (text ++ take result bytes.now) }
        ensures bounded { result + most_to_come self.new ≤ most_to_come self.old }
    {
        if let Place::Data(missing) = self.place {
            return self.take_data(missing, bytes);
        }
        self.take_in_line(bytes[0]);
        1
    }

    // Takes bytes of a block, and returns their number.
    fn take_data(&mut self, missing: u32, bytes: &[u8]) -> usize
        requires some { 1 ≤ length bytes.now }
        requires place { self.old.place ≡ Place.Data missing }
        ensures some { 1 ≤ result }
        ensures within { result ≤ length bytes.now }
        ensures asked { self.new.asked ≡ self.old.asked }
        ensures stands { (text : List ℕ) → Stands self.old text → Stands self.new (text ++ take result bytes.now) }
        ensures bounded { result + most_to_come self.new ≤ most_to_come self.old }
    {
        let count = bytes.len().min(missing as usize);
        keep(&mut self.body, &bytes[..count]);
        let left = missing - count as u32;
        self.place = after_bytes(left, self.asked, &self.body, self.size);
        count
    }

    // Takes a byte of a line.
    fn take_in_line(&mut self, byte: u8)
        requires more { state_of self.old.place ≡ State.More }
        requires line { (missing : ℕ) → self.old.place ≡ Place.Data missing → ⊥ }
        ensures asked { self.new.asked ≡ self.old.asked }
        ensures stands { (text : List ℕ) → Stands self.old text → Stands self.new (text ++ byte ∷ []) }
        ensures bounded { 1 + most_to_come self.new ≤ most_to_come self.old }
    {
        if byte == b'\n' {
            self.end_line();
        } else if self.line.try_push(byte).is_err() {
            self.place = Place::Malformed;
        }
    }

    // Takes the LF of a line.
    fn end_line(&mut self)
        requires more { state_of self.old.place ≡ State.More }
        requires line { (missing : ℕ) → self.old.place ≡ Place.Data missing → ⊥ }
        ensures asked { self.new.asked ≡ self.old.asked }
        ensures stands { (text : List ℕ) → Stands self.old text → Stands self.new (text ++ 10 ∷ []) }
        ensures bounded { 1 + most_to_come self.new ≤ most_to_come self.old }
    {
        self.place = self.after_line();
        self.line.clear();
    }

    // Returns the place after the line that ends.
    fn after_line(&self) -> Place
        requires more { state_of self.now.place ≡ State.More }
        requires line { (missing : ℕ) → self.now.place ≡ Place.Data missing → ⊥ }
        ensures after { AfterLine self.now result }
        ensures sound { IsSoundPlace result self.now.asked [] self.now.body }
    {
        if let Place::Mask(n) = self.place {
            return after_mask(self.line.as_slice(), self.mask, self.channels, n);
        }
        after_length(self.line.as_slice(), self.asked, &self.body, self.size)
    }
}

// Appends bytes, for which there is room.
fn keep(body: &mut Vec<u8>, bytes: &[u8])
    requires { length body.old.items + length bytes.now ≤ vec_capacity body.old }
    ensures items { body.new.items ≡ body.old.items ++ bytes.now }
    ensures room { vec_capacity body.old ≤ vec_capacity body.new }
{
    let _ = body.extend_from_slice(bytes);
}

// Returns the length of a block that a line gives, if there is room for that block.
fn fitting_length(line: &[u8], room: u32) -> Option<u32>
    ensures some { IfSome result (λ n. (number_of line.now ≡ Some n) × (1 ≤ n) × (n ≤ room)) }
    ensures none { IfNone result ((n : ℕ) → number_of line.now ≡ Some n → 1 ≤ n → n ≤ room → ⊥) }
{
    match read_number(line) {
        None => None,
        Some(n) => {
            if n == 0 || n > room {
                return None;
            }
            Some(n)
        }
    }
}

// Returns the place after a line where a length line is due; `body` are the data bytes so far.
fn after_length(line: &[u8], asked: u32, body: &[u8], size: u32) -> Place
    requires size { 1 ≤ size }
    requires open { length body.now < asked }
    ensures { (mask channels : ℕ) → AfterLength (record { bytes = asked; mask = mask; channels = channels; size = size }) body.now line.now result }
{
    let got = body.len() as u32;
    if let Some(n) = fitting_length(line, asked - got) {
        if got == 0 {
            return Place::Mask(n);
        }
        return Place::Data(n);
    }
    if got % size != 0 {
        return Place::Malformed;
    }
    if got > 0 && line == b"0".as_slice() {
        return Place::Done;
    }
    match read_refusal(line) {
        Some(n) => Place::Refused(n),
        None => Place::Malformed,
    }
}

// Returns the place after a line where the mask's line is due; the length line before it gave `n`.
fn after_mask(line: &[u8], mask: Mask, channels: u32, n: u32) -> Place
    requires some { 1 ≤ channels }
    requires few { channels ≤ 64 }
    ensures { (bytes size : ℕ) → AfterMask (record { bytes = bytes; mask = mask.bits; channels = channels; size = size }) n line.now result }
{
    match Mask::read(line, channels) {
        None => Place::Malformed,
        Some(said) => {
            if said.bits != mask.bits {
                return Place::Malformed;
            }
            Place::Data(n)
        }
    }
}

// Returns the place after some bytes of a block, of which `left` are still to come; `body` are the data bytes so far.
fn after_bytes(left: u32, asked: u32, body: &[u8], size: u32) -> Place
    requires size { 1 ≤ size }
    requires within { length body.now + left ≤ asked }
    ensures { (mask channels : ℕ) → AfterBytes (record { bytes = asked; mask = mask; channels = channels; size = size }) left body.now result }
{
    if left > 0 {
        return Place::Data(left);
    }
    after_block(asked, body, size)
}

// Returns the place after the end of a block; `body` are the data bytes.
fn after_block(asked: u32, body: &[u8], size: u32) -> Place
    requires size { 1 ≤ size }
    requires within { length body.now ≤ asked }
    ensures { (mask channels : ℕ) → AfterBlock (record { bytes = asked; mask = mask; channels = channels; size = size }) body.now result }
{
    let got = body.len() as u32;
    if got < asked {
        return Place::Length;
    }
    if got % size == 0 {
        return Place::Done;
    }
    Place::Malformed
}

/// The law that a text has one reading: a text that has ended has no other reading, and no longer text that begins with it
/// has any. So `feed` returns an end exactly at the last byte of an answer, of a refusal, or of what begins neither. The call
/// does nothing.
#[tactic(auto, using(crate::proofs::Machine::one_reading))]
pub fn one_reading()
    ensures { OneReading }
{}
