//! Reads lines as commands.

ghost use Rattle.std.specs.Prelude.{◌≡◌, ◌≤◌, ◌∷◌, [], length, take, option_map};
ghost use Rattle.iiod_grammar.specs.Command.{number, target_of, no_words, one_word, two_words, bare_form, timeout_form, open_form, cyclic_of, read_form, last_of, counted_word, counted_target, write_form, trigger_form, set_form, remask_form, command_of, without_returns, bytes_form, ReadBuf, WriteBuf};
ghost use Rattle.iiod_grammar.specs.Parts.{word_view, counted_view, split_view, pair_view};
ghost use Rattle.iiod_grammar.specs.View.{target_view, line_view, command_view};

use crate::blanks::Words;
use crate::command::{Command, Place, Refused};
use crate::words::{PlaceWord, Verb, place_word, verb_of};
use iio_text::{is_word, read_number};

type Target<'a> = (Place<'a>, Option<&'a [u8]>);

// Returns the number of bytes of a line before the CRs at its end.
pub(crate) fn len_without_returns(line: &[u8]) -> usize
    ensures within { result ≤ length line.now }
    ensures value { take result line.now ≡ without_returns line.now }
{
    let mut len = line.len();
    while len > 0 && line[len - 1] == b'\r' {
        len -= 1;
    }
    len
}

/// Returns a line without the CRs at its end.
pub fn without_returns(line: &[u8]) -> &[u8]
    ensures { result.now ≡ without_returns line.now }
{
    &line[..len_without_returns(line)]
}

// Returns the number that a word stands for.
fn number(word: &[u8]) -> Result<u32, Refused>
    ensures { result ≡ number word.now }
{
    read_number(word).ok_or(Refused::Number)
}

// Checks that no word is left.
#[inline(always)]
fn no_words<'a>(words: &mut Words<'a>) -> Result<(), Refused>
    ensures { result ≡ no_words (words.old) }
{
    match words.next() {
        None => Ok(()),
        Some(_) => Err(Refused::Shape),
    }
}

// Returns the only word that is left.
#[inline(always)]
fn one_word<'a>(words: &mut Words<'a>) -> Result<&'a [u8], Refused>
    ensures { word_view result ≡ one_word (words.old) }
{
    let Some(word) = words.next() else {
        return Err(Refused::Shape);
    };
    match words.next() {
        None => Ok(word),
        Some(_) => Err(Refused::Shape),
    }
}

// Returns the only two words that are left.
#[inline(always)]
fn two_words<'a>(words: &mut Words<'a>) -> Result<(&'a [u8], &'a [u8]), Refused>
    ensures { pair_view result ≡ two_words (words.old) }
{
    let first = words.next().ok_or(Refused::Shape)?;
    let second = words.next().ok_or(Refused::Shape)?;
    if words.next().is_some() {
        return Err(Refused::Shape);
    }
    Ok((first, second))
}

// Returns the device and the number that are the only two words left.
#[inline(always)]
fn device_and_number<'a>(words: &mut Words<'a>) -> Result<(&'a [u8], u32), Refused>
    ensures { counted_view result ≡ counted_word (words.old) }
{
    let (dev, count) = two_words(words)?;
    let count = number(count)?;
    Ok((dev, count))
}

// Returns a command that has no further word.
#[inline(always)]
fn bare<'a>(words: &mut Words<'a>, command: Command<'a>) -> Result<Command<'a>, Refused>
    ensures { line_view result ≡ bare_form (command_view command.entry) (words.old) }
{
    no_words(words)?;
    Ok(command)
}

#[inline(always)]
fn read_timeout<'a>(words: &mut Words<'a>) -> Result<Command<'a>, Refused>
    ensures { line_view result ≡ timeout_form (words.old) }
{
    let ms = number(one_word(words)?)?;
    Ok(Command::Timeout { ms })
}

// Returns whether CYCLIC stands at the end of an OPEN; nothing else may stand there.
#[inline(always)]
fn read_cyclic<'a>(words: &mut Words<'a>) -> Result<bool, Refused>
    ensures { result ≡ cyclic_of (words.old) }
{
    let Some(word) = words.next() else {
        return Ok(false);
    };
    if words.next().is_some() || !is_word(word, b"CYCLIC") {
        return Err(Refused::Shape);
    }
    Ok(true)
}

#[inline(always)]
fn read_open<'a>(words: &mut Words<'a>) -> Result<Command<'a>, Refused>
    ensures { line_view result ≡ open_form (words.old) }
{
    let dev = words.next().ok_or(Refused::Shape)?;
    let samples = words.next().ok_or(Refused::Shape)?;
    let mask = words.next().ok_or(Refused::Shape)?;
    let cyclic = read_cyclic(words)?;
    let samples = number(samples)?;
    Ok(Command::Open {
        dev,
        samples,
        mask,
        cyclic,
    })
}

#[inline(always)]
fn read_set_trigger<'a>(words: &mut Words<'a>) -> Result<Command<'a>, Refused>
    ensures { line_view result ≡ trigger_form (words.old) }
{
    let dev = words.next().ok_or(Refused::Shape)?;
    let Some(trigger) = words.next() else {
        return Ok(Command::SetTrig { dev, trigger: None });
    };
    if words.next().is_some() {
        return Err(Refused::Shape);
    }
    Ok(Command::SetTrig {
        dev,
        trigger: Some(trigger),
    })
}

#[inline(always)]
fn read_set<'a>(words: &mut Words<'a>) -> Result<Command<'a>, Refused>
    ensures { line_view result ≡ set_form (words.old) }
{
    let dev = words.next().ok_or(Refused::Shape)?;
    let (what, count) = two_words(words)?;
    if !is_word(what, b"BUFFERS_COUNT") {
        return Err(Refused::Shape);
    }
    let count = number(count)?;
    Ok(Command::SetBuffers { dev, count })
}

#[inline(always)]
fn read_remask<'a>(words: &mut Words<'a>) -> Result<Command<'a>, Refused>
    ensures { line_view result ≡ remask_form (words.old) }
{
    let (dev, mask) = two_words(words)?;
    Ok(Command::Remask { dev, mask })
}

// ---- targets

#[inline(always)]
fn target_of_one(a: &[u8]) -> Option<Target<'_>>
    ensures { option_map target_view result ≡ target_of (a.now ∷ []) }
{
    match place_word(a) {
        None => Some((Place::Device, Some(a))),
        Some(PlaceWord::Buffer) => Some((Place::Buffer, None)),
        Some(PlaceWord::Debug) => Some((Place::Debug, None)),
        Some(PlaceWord::Input | PlaceWord::Output) => None,
    }
}

#[inline(always)]
fn target_of_two<'a>(a: &[u8], b: &'a [u8]) -> Option<Target<'a>>
    ensures { option_map target_view result ≡ target_of (a.now ∷ b.now ∷ []) }
{
    let Some(place) = place_word(a) else {
        return None;
    };
    match place {
        PlaceWord::Buffer => Some((Place::Buffer, Some(b))),
        PlaceWord::Debug => Some((Place::Debug, Some(b))),
        PlaceWord::Input => Some((Place::Input(b), None)),
        PlaceWord::Output => Some((Place::Output(b), None)),
    }
}

#[inline(always)]
fn target_of_three<'a>(a: &[u8], b: &'a [u8], c: &'a [u8]) -> Option<Target<'a>>
    ensures { option_map target_view result ≡ target_of (a.now ∷ b.now ∷ c.now ∷ []) }
{
    let Some(place) = place_word(a) else {
        return None;
    };
    match place {
        PlaceWord::Buffer | PlaceWord::Debug => None,
        PlaceWord::Input => Some((Place::Input(b), Some(c))),
        PlaceWord::Output => Some((Place::Output(b), Some(c))),
    }
}

// Returns the target that these words name, or `None` if they have no form of READ.
#[inline(always)]
fn target<'a>(words: &mut Words<'a>) -> Option<Target<'a>>
    ensures { option_map target_view result ≡ target_of (words.old) }
{
    let Some(a) = words.next() else {
        return Some((Place::Device, None));
    };
    let Some(b) = words.next() else {
        return target_of_one(a);
    };
    let Some(c) = words.next() else {
        return target_of_two(a, b);
    };
    match words.next() {
        None => target_of_three(a, b, c),
        Some(_) => None,
    }
}

#[inline(always)]
fn read_read<'a>(words: &mut Words<'a>) -> Result<Command<'a>, Refused>
    ensures { line_view result ≡ read_form (words.old) }
{
    let Some(dev) = words.next() else {
        return Err(Refused::Shape);
    };
    match target(words) {
        Some((place, attr)) => Ok(Command::Read { dev, place, attr }),
        None => Err(Refused::Shape),
    }
}

// Returns the last word of a text, or `word` if it has none.
#[inline(always)]
fn last_word<'a>(word: &'a [u8], words: &mut Words<'a>) -> &'a [u8]
    ensures { result.now ≡ last_of word.now (words.old) }
{
    let mut last = word;
    while let Some(next) = words.next() {
        last = next;
    }
    last
}

// Returns the target before a count, and the count, from the words after the device.
#[inline(always)]
fn counted_target<'a>(words: &mut Words<'a>) -> Result<(Option<Target<'a>>, &'a [u8]), Refused>
    ensures { split_view result ≡ counted_target (words.old) }
{
    let Some(a) = words.next() else {
        return Err(Refused::Shape);
    };
    let Some(b) = words.next() else {
        return Ok((Some((Place::Device, None)), a));
    };
    let Some(c) = words.next() else {
        return Ok((target_of_one(a), b));
    };
    let Some(d) = words.next() else {
        return Ok((target_of_two(a, b), c));
    };
    match words.next() {
        None => Ok((target_of_three(a, b, c), d)),
        Some(e) => Ok((None, last_word(e, words))),
    }
}

#[inline(always)]
fn read_write<'a>(words: &mut Words<'a>) -> Result<Command<'a>, Refused>
    ensures { line_view result ≡ write_form (words.old) }
{
    let Some(dev) = words.next() else {
        return Err(Refused::Shape);
    };
    let (target, count) = counted_target(words)?;
    match read_number(count) {
        Some(count) => Ok(Command::Write { dev, target, count }),
        None => Err(Refused::Number),
    }
}

#[inline(always)]
fn read_read_buffer<'a>(words: &mut Words<'a>) -> Result<Command<'a>, Refused>
    ensures { line_view result ≡ bytes_form ReadBuf (words.old) }
{
    let (dev, bytes) = device_and_number(words)?;
    Ok(Command::ReadBuf { dev, bytes })
}

#[inline(always)]
fn read_write_buffer<'a>(words: &mut Words<'a>) -> Result<Command<'a>, Refused>
    ensures { line_view result ≡ bytes_form WriteBuf words.old }
{
    let (dev, bytes) = device_and_number(words)?;
    Ok(Command::WriteBuf { dev, bytes })
}

/// Reads a line, without its LF, as a command. Words are separated by spaces and tabs; CRs at the line's end are ignored, and a
/// CR elsewhere is a byte of a word. Numbers have one to ten digits, leading zeros allowed, and are at most 4,294,967,295.
///
/// If several refusals apply, the first in the order of [`Refused`] is returned.
#[inline(always)]
pub fn read_line(line: &[u8]) -> Result<Command<'_>, Refused>
    ensures { line_view result ≡ command_of line.now }
{
    let mut words = Words::of(without_returns(line));
    let Some(word) = words.next() else {
        return Err(Refused::Empty);
    };
    let Some(verb) = verb_of(word) else {
        return Err(Refused::Unknown);
    };
    match verb {
        Verb::Help => bare(&mut words, Command::Help),
        Verb::Exit => bare(&mut words, Command::Exit),
        Verb::Version => bare(&mut words, Command::Version),
        Verb::Print => bare(&mut words, Command::Print),
        Verb::Timeout => read_timeout(&mut words),
        Verb::Open => read_open(&mut words),
        Verb::Close => Ok(Command::Close {
            dev: one_word(&mut words)?,
        }),
        Verb::Read => read_read(&mut words),
        Verb::Write => read_write(&mut words),
        Verb::ReadBuf => read_read_buffer(&mut words),
        Verb::WriteBuf => read_write_buffer(&mut words),
        Verb::GetTrig => Ok(Command::GetTrig {
            dev: one_word(&mut words)?,
        }),
        Verb::SetTrig => read_set_trigger(&mut words),
        Verb::Set => read_set(&mut words),
        Verb::Remask => read_remask(&mut words),
        Verb::EvOpen => Ok(Command::EvOpen {
            dev: one_word(&mut words)?,
        }),
        Verb::EvRead => Ok(Command::EvRead {
            dev: one_word(&mut words)?,
        }),
        Verb::EvClose => Ok(Command::EvClose {
            dev: one_word(&mut words)?,
        }),
    }
}
