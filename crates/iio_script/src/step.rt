//! Reads the lines of a script as steps.

ghost use Rattle.std.specs.Prelude.{◌≡◌, ◌<◌, length, option_map, IfOk, IfErr, IfSome, MatchResult, Ok, Err, List, ℕ, ℤ};
ghost use Rattle.iio_desc.specs.Description.{Description, heads_of};
ghost use Rattle.iio_history.specs.Script.{clock_step, drop_step, handle_step, sense_step, step_by, step_of, trigger_step, unplug_step, device_word, moment_word, trigger_word, step_words};
ghost use Rattle.iio_history.specs.Transcript.{Feed, Step as HistoryStep};
ghost use Rattle.iio_system.specs.Step.{IsValid, step_view};
ghost use Rattle.iio_script.specs.Step.{feed_of, form_of, read_view};
ghost use Rattle.iio_text.specs.LineFault.{Tells};
ghost use Rattle.iio_text.specs.Words.{IsFirstWord, from_word, words_of, is_space};
ghost use Rattle.iiod_grammar.specs.Command.{entry_of};

use crate::step_word::StepWord;
use iio_attr::Name;
use iio_desc::Desc;
use iio_system::{Quoted, Step};
use iio_text::{
    LineFault, Unescape, Why, between_quotes, first_word, from_word, one_word, read_int, two_words,
    unescape_into,
};
use std::alloc::Global;
use std::mem;

// Returns the number of the trigger of that name.
fn trigger_word(desc: &Desc, word: &[u8]) -> Result<u32, Why>
    ensures value { result ≡ trigger_word desc.now word.now }
    ensures within { IfOk result (λ trigger. trigger < length desc.now.triggers) }
{
    desc.find_trigger(word).ok_or(Why::Trigger)
}

// Returns the number of the device of that name.
fn device_word(desc: &Desc, word: &[u8]) -> Result<u32, Why>
    ensures value { result ≡ device_word desc.now word.now }
    ensures within { IfOk result (λ device. device < length (heads_of desc.now)) }
{
    desc.find_device(word).ok_or(Why::Device)
}

fn moment_word(word: &[u8]) -> Result<i64, Why>
    ensures { result ≡ moment_word word.now }
{
    read_int(word).ok_or(Why::Number)
}

/// Reads the words of a fire or a poll, `TRIGGER T`.
#[inline(always)]
pub(crate) fn trigger_and_moment(desc: &Desc, words: &[u8]) -> Result<(u32, i64), Why>
    ensures value { (step : ℕ → ℤ → HistoryStep) → MatchResult result
        (λ r. trigger_step step desc.now (words_of is_space words.now) ≡ Ok (step r.0 r.1))
        (λ why. trigger_step step desc.now (words_of is_space words.now) ≡ Err why) }
    ensures within { IfOk result (λ r. r.0 < length desc.now.triggers) }
{
    let (trigger, moment) = two_words(words).ok_or(Why::Count)?;
    let trigger = trigger_word(desc, trigger)?;
    let moment = moment_word(moment)?;
    Ok((trigger, moment))
}

// `TRIGGER DEVICE`
#[inline(never)]
fn read_handle(desc: &Desc, words: &[u8]) -> Result<Step, Why>
    ensures value { read_view result ≡ handle_step desc.now (words_of is_space words.now) }
    ensures valid { IfOk result (IsValid (length desc.now.triggers) (length (heads_of desc.now))) }
{
    let (trigger, device) = two_words(words).ok_or(Why::Count)?;
    let trigger = trigger_word(desc, trigger)?;
    let device = device_word(desc, device)?;
    Ok(Step::Handle(trigger, device))
}

// `DEVICE T`
#[inline(never)]
fn read_sense(desc: &Desc, words: &[u8]) -> Result<Step, Why>
    ensures value { read_view result ≡ sense_step desc.now (words_of is_space words.now) }
    ensures valid { IfOk result (IsValid (length desc.now.triggers) (length (heads_of desc.now))) }
{
    let (device, moment) = two_words(words).ok_or(Why::Count)?;
    let device = device_word(desc, device)?;
    let moment = moment_word(moment)?;
    Ok(Step::Sense(device, moment))
}

// `T`
#[inline(never)]
fn read_clock(words: &[u8]) -> Result<Step, Why>
    ensures value { (desc : Description) → read_view result ≡ clock_step desc (words_of is_space words.now) }
    ensures valid { (triggers devices : ℕ) → IfOk result (IsValid triggers devices) }
{
    let moment = one_word(words).ok_or(Why::Count)?;
    let moment = moment_word(moment)?;
    Ok(Step::Clock(moment))
}

// `NAME`
#[inline(never)]
fn read_drop(words: &[u8]) -> Result<Step, Why>
    ensures value { (desc : Description) → read_view result ≡ drop_step desc (words_of is_space words.now) }
    ensures valid { (triggers devices : ℕ) → IfOk result (IsValid triggers devices) }
{
    let name = one_word(words).ok_or(Why::Count)?;
    let name = Name::new(name).ok_or(Why::Name)?;
    Ok(Step::Drop(name))
}

// `DEVICE`
#[inline(never)]
fn read_unplug(desc: &Desc, words: &[u8]) -> Result<Step, Why>
    ensures value { read_view result ≡ unplug_step desc.now (words_of is_space words.now) }
    ensures valid { IfOk result (IsValid (length desc.now.triggers) (length (heads_of desc.now))) }
{
    let device = one_word(words).ok_or(Why::Count)?;
    let device = device_word(desc, device)?;
    Ok(Step::Unplug(device))
}

/// Reads a step from its first word and the words after it.
pub(crate) fn read_words(desc: &Desc, word: StepWord, words: &[u8]) -> Result<Step, Why>
    ensures value { read_view result ≡ form_of word desc.now (words_of is_space words.now) }
    ensures valid { IfOk result (IsValid (length desc.now.triggers) (length (heads_of desc.now))) }
{
    match word {
        StepWord::Fire => {
            let (trigger, moment) = trigger_and_moment(desc, words)?;
            Ok(Step::Fire(trigger, moment))
        }
        StepWord::Poll => {
            let (trigger, moment) = trigger_and_moment(desc, words)?;
            Ok(Step::Poll(trigger, moment))
        }
        StepWord::Handle => read_handle(desc, words),
        StepWord::Sense => read_sense(desc, words),
        StepWord::Clock => read_clock(words),
        StepWord::Drop => read_drop(words),
        StepWord::Unplug => read_unplug(desc, words),
    }
}

/// Reads a feed, `NAME "bytes"`, from its first word and the words after it. `bytes` gets the bytes that are fed, whatever was in
/// it.
#[inline(always)]
pub(crate) fn read_feed(
    alloc: Global,
    bytes: &mut Vec<u8>,
    name: &[u8],
    words: &[u8],
) -> Result<Name, LineFault>
    ensures ok { IfOk result (λ named. feed_of name.now (from_word words.now) ≡ Ok (Feed named bytes.new.items)) }
    ensures err { IfErr result (λ e. Tells e (feed_of name.now (from_word words.now))) }
{
    let name = Name::new(name).ok_or(Why::Word)?;
    let quoted = from_word(words);
    if !matches!(quoted, [b'"', ..]) {
        return Err(LineFault::Why(Why::Count));
    }
    let inner = between_quotes(quoted).ok_or(Why::Text)?;
    let room = mem::replace(bytes, Vec::new(alloc));
    match unescape_into(room, inner) {
        Ok(read) => *bytes = read,
        Err(Unescape::BadEscape(_)) => return Err(LineFault::Why(Why::Text)),
        Err(Unescape::Mem) => return Err(LineFault::Mem),
    }
    Ok(name)
}

// Reads a feed as a step, which takes the room for its bytes.
fn read_feed_step(
    alloc: Global,
    room: &mut Vec<u8>,
    name: &[u8],
    words: &[u8],
) -> Result<Step, LineFault>
    ensures ok { IfOk result (λ step. feed_of name.now (from_word words.now) ≡ Ok (step_view step)) }
    ensures err { IfErr result (λ e. Tells e (feed_of name.now (from_word words.now))) }
    ensures valid { (triggers devices : ℕ) → IfOk result (IsValid triggers devices) }
{
    let name = read_feed(alloc, room, name, words)?;
    let bytes = mem::replace(room, Vec::new(alloc));
    Ok(Step::Feed(name, Quoted::new(bytes)))
}

// Reads a line from its first word and the words after it.
fn read_line(
    alloc: Global,
    room: &mut Vec<u8>,
    desc: &Desc,
    word: &[u8],
    words: &[u8],
) -> Result<Step, LineFault>
    ensures ok { IfOk result (λ step. (line : List ℕ) → IsFirstWord is_space line word.now words.now
        → step_by desc.now line word.now (words_of is_space words.now) (entry_of step_words word.now) ≡ Ok (step_view step)) }
    ensures err { IfErr result (λ e. (line : List ℕ) → IsFirstWord is_space line word.now words.now
        → Tells e (step_by desc.now line word.now (words_of is_space words.now) (entry_of step_words word.now))) }
    ensures valid { IfOk result (IsValid (length desc.now.triggers) (length (heads_of desc.now))) }
{
    match StepWord::of(word) {
        None => read_feed_step(alloc, room, word, words),
        Some(first) => Ok(read_words(desc, first, words)?),
    }
}

/// Returns the step of a line of a script, given without its LF. Returns `None` exactly if the line, not being too long, has
/// no word or is a comment, whose first byte is `#`. An `Err` is the first check that fails, or that memory ran out. The
/// number of connections that a script may have isn't checked here.
pub fn read_step(alloc: Global, desc: &Desc, line: &[u8]) -> Result<Option<Step>, LineFault>
    ensures ok { IfOk result (λ step. step_of desc.now line.now ≡ Ok (option_map step_view step)) }
    ensures err { IfErr result (λ e. Tells e (step_of desc.now line.now)) }
    ensures valid { IfOk result (λ step. IfSome step (IsValid (length desc.now.triggers) (length (heads_of desc.now)))) }
{
    let mut room = Vec::new(alloc);
    read_step_into(alloc, &mut room, desc, line)
}

/// Returns the step of a line, like `read_step`. The step of a feed takes `room` for its bytes, whatever was in it.
#[inline(always)]
pub(crate) fn read_step_into(
    alloc: Global,
    room: &mut Vec<u8>,
    desc: &Desc,
    line: &[u8],
) -> Result<Option<Step>, LineFault>
    ensures ok { IfOk result (λ step. step_of desc.now line.now ≡ Ok (option_map step_view step)) }
    ensures err { IfErr result (λ e. Tells e (step_of desc.now line.now)) }
    ensures valid { IfOk result (λ step. IfSome step (IsValid (length desc.now.triggers) (length (heads_of desc.now)))) }
{
    match first_word(line)? {
        None => Ok(None),
        Some((word, words)) => Ok(Some(read_line(alloc, room, desc, word, words)?)),
    }
}
