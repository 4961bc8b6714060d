//! Reads values from their texts, and prints them.

ghost use Rattle.std.specs.Prelude.{◌≡◌, true, ◌+◌, ◌/◌, ◌≤◌, ◌++◌, ◌∷◌, ◌^◌, ◌<◌, if◌then◌else◌, ℕ, All, Ok, IfOk, OnOk, OnErr, IsOkAnd, length, drop, decimal, replicate, slice_index, string_bytes};
ghost use Rattle.std.specs.List.{position_or_len, list_all};
ghost use Rattle.std.specs.Char.{digit_value, is_ascii_digit};
ghost use Rattle.iio_text.specs.declared.errors.Errno.TheVariants.{EINVAL, ERANGE};
ghost use Rattle.iio_text.specs.Fixed.{places_of, IsFixed, without_last, is_minus, unsigned_of, is_point, whole_digits, part_digits, are_right, part_value, fixed_of, last_digits, part_text, printed_fixed, fixed_int};

use crate::errors::Errno;
use crate::numbers::value_up_to;
use crate::values::{Fixed, Form};
use iio_base::Mem;
use itoa::Buffer;
use std::alloc::Global;

// How many digits stand after the point.
fn places(form: Form) -> usize
    ensures { result ≡ places_of form }
{
    match form {
        Form::Int => 0,
        Form::Micro => 6,
        Form::Nano => 9,
    }
}

// The text without its last byte, if that is `byte`.
fn without_last(text: &[u8], byte: u8) -> &[u8]
    ensures { result.now ≡ without_last byte text.now }
{
    match text {
        [rest @ .., last] if *last == byte => rest,
        _ => text,
    }
}

// Whether the text begins with a minus, and the text without its sign.
fn split_sign(text: &[u8]) -> (bool, &[u8])
    ensures minus { result.0 ≡ is_minus text.now }
    ensures rest { result.1.now ≡ unsigned_of text.now }
{
    match text {
        [b'-', rest @ ..] => (true, rest),
        [b'+', rest @ ..] => (false, rest),
        _ => (false, text),
    }
}

// The place of the first point, or the length.
fn point_place(text: &[u8]) -> usize
    ensures within { result ≤ length text.now }
    ensures value { result ≡ position_or_len is_point text.now }
{
    for (i, byte) in text.iter().enumerate() {
        if *byte == b'.' {
            return i;
        }
    }
    text.len()
}

// What stands before the point, and what after it.
fn split_point(text: &[u8], form: Form) -> (&[u8], &[u8])
    ensures whole { result.0.now ≡ whole_digits form text.now }
    ensures part { result.1.now ≡ part_digits form text.now }
{
    if form == Form::Int {
        return text.split_at(text.len());
    }
    let place = point_place(text);
    match &text[place..] {
        [_, part @ ..] => (&text[..place], part),
        [] => text.split_at(place),
    }
}

fn are_digits(text: &[u8]) -> bool
    ensures { result ≡ list_all is_ascii_digit text.now }
{
    text.iter().all(|byte| byte.is_ascii_digit())
}

// Whether both sides are digits, with at least one digit.
fn are_right(whole: &[u8], part: &[u8]) -> bool
    ensures { result ≡ are_right whole.now part.now }
{
    if whole.is_empty() && part.is_empty() {
        return false;
    }
    are_digits(whole) && are_digits(part)
}

// Why a text is refused whose whole part is no number that fits.
#[cold]
#[inline(never)]
fn refusal(whole: &[u8], part: &[u8]) -> Errno
    ensures { result ≡ (if are_right whole.now part.now then ERANGE else EINVAL) }
{
    if are_right(whole, part) {
        Errno::ERANGE
    } else {
        Errno::EINVAL
    }
}

// The digit at a place; past the end it is 0.
fn digit_at(digits: &[u8], place: usize) -> u32
    requires { list_all is_ascii_digit digits.now ≡ true }
    ensures here { place < length digits.now → result ≡ digit_value (slice_index digits.now place) }
    ensures past { length digits.now ≤ place → result ≡ 0 }
    ensures small { result < 10 }
{
    if place < digits.len() {
        u32::from(digits[place] - b'0')
    } else {
        0
    }
}

// The digits after the point as a number of `places` digits.
fn part_value(digits: &[u8], places: usize) -> u32
    requires digits { list_all is_ascii_digit digits.now ≡ true }
    requires places { places ≤ 9 }
    ensures value { result ≡ part_value places digits.now }
    ensures within { result < 10 ^ places }
{
    let mut value = 0;
    for i in 0..places {
        value = value * 10 + digit_at(digits, i);
    }
    value
}

/// Reads the value that a text says: an optional `+` or `-`, digits, for `Micro` and `Nano` at most one `.` with digits after
/// it, then at most one closing LF and at most one closing zero byte. At least one digit is there. Digits beyond the form's
/// resolution are dropped; zero has no sign.
///
/// Returns `EINVAL` for every other text, and `ERANGE` for a valid one whose whole part is above 2,147,483,647.
pub fn read_fixed(text: &[u8], form: Form) -> Result<Fixed, Errno>
    ensures value { result ≡ fixed_of form text.now }
    ensures sound { IfOk result IsFixed }
{
    let body = without_last(without_last(text, 0), b'\n');
    let (minus, digits) = split_sign(body);
    let (whole_digits, part_digits) = split_point(digits, form);
    let Some(whole) = value_up_to(whole_digits, 2_147_483_647) else {
        return Err(refusal(whole_digits, part_digits));
    };
    if whole_digits.is_empty() && part_digits.is_empty() || !are_digits(part_digits) {
        return Err(Errno::EINVAL);
    }
    let part = part_value(part_digits, places(form));
    Ok(Fixed {
        negative: minus && (whole != 0 || part != 0),
        whole: whole as u32,
        part,
        form,
    })
}

// Appends a point and the digits of a number after its first one.
fn push_behind_first(text: &mut String, number: u32) -> Result<(), Mem>
    ensures { OnOk result (string_bytes text.new ≡ string_bytes text.old ++ 46 ∷ drop 1 (decimal number)) }
{
    text.push('.')?;
    text.push_str(&Buffer::new().format(number)[1..])?;
    Ok(())
}

// Appends the point and the digits after it. A leading 1 keeps the zeros that they begin with.
#[tactic(auto, using(crate::proofs::FixedLemmas::micro_digits, crate::proofs::FixedLemmas::nano_digits))]
fn push_part(text: &mut String, form: Form, part: u32) -> Result<(), Mem>
    ensures { OnOk result (string_bytes text.new ≡ string_bytes text.old ++ part_text form part) }
{
    match form {
        Form::Int => Ok(()),
        Form::Micro => push_behind_first(text, 1_000_000 + part % 1_000_000),
        Form::Nano => push_behind_first(text, 1_000_000_000 + part % 1_000_000_000),
    }
}

/// The one text of a value: a `-` if it is negative, its whole part, and for `Micro` and `Nano` a `.` and six or nine digits.
pub fn print_fixed(alloc: Global, v: &Fixed) -> Result<String, Mem>
    ensures text { IfOk result (λ text. string_bytes text ≡ printed_fixed v.now) }
    ensures read_back { IfOk result (λ text. IsFixed v.now → fixed_of v.now.form (string_bytes text) ≡ Ok v.now) }
{
    let mut text = String::with_capacity(alloc, 21)?;
    if v.negative {
        text.push('-')?;
    }
    text.push_str(Buffer::new().format(v.whole))?;
    push_part(&mut text, v.form, v.part)?;
    Ok(text)
}

impl Fixed {
    /// The whole part with its sign.
    pub fn int(self) -> i64
        ensures { result ≡ fixed_int self }
    {
        let whole = i64::from(self.whole);
        if self.negative { -whole } else { whole }
    }
}
