//! Playing an input: its description, and then its steps.

ghost use Rattle.std.specs.Prelude.{◌≡◌, ◌⊎◌, ◌+◌, ◌*◌, ◌^◌, ◌≤◌, ◌<◌, [], ◌∷◌, ◌++◌, ℕ, false, Ok, Err, IfErr, IfOk, IfSome, IfNone, None, Some, List, OnErr, OnOk, Option, length, map};
ghost use Rattle.iio_base.specs.Faults.{Rose};
ghost use Rattle.iio_io.specs.Bytes.{TakesAtMost};
ghost use Rattle.iio_desc.specs.Description.{heads_of};
ghost use Rattle.iio_desc.specs.WellFormed.{IsWellFormed};
ghost use Rattle.iio_device.specs.declared.plug.Plug.TheVariants.{Given};
ghost use Rattle.iio_history.specs.Input.{input_limit, is_overlong, scanned_lines};
ghost use Rattle.iio_history.specs.Outcome.{last_ending, outcome_of, outcome_of_script};
ghost use Rattle.iio_history.specs.Registry.{Setup};
ghost use Rattle.iio_history.specs.Script.{script_from, step_by, step_words};
ghost use Rattle.iio_history.specs.Transcript.{with_steps};
ghost use Rattle.iio_bench.specs.Bench.{front_of};
ghost use Rattle.iio_system.specs.Standing.{StandsFor, names_by};
ghost use Rattle.iio_script.specs.Step.{feed_of, form_of};
ghost use Rattle.iio_script.specs.declared.step_word.StepWord.{StepWord};
ghost use Rattle.iio_text.specs.Words.{IsFirstWord, from_word, is_space, words_of};
ghost use Rattle.iiod_grammar.specs.Command.{entry_of};
ghost use Rattle.iio_script.specs.Ends.{HasStatus, Sends, ShowsFaults, Writes, views_of};
ghost use Rattle.iio_script.specs.LineReader.{Follows, IsHand, NeedsMore, Shows};
ghost use Rattle.iio_script.specs.Outline.{FindsSame};
ghost use Rattle.iio_script.specs.Taken.{Runs, WritesFirst, WritesLines};
ghost use Rattle.iio_script.specs.Plays.{AnswersScript, EndsScript, EndsSteps, IsOver, IsRefusedWith, Performs, Plays, PlaysLine, TakesFor, WritesText, progress_of, start_of};

use crate::ends::{end_cut, end_refused, end_with, push_end, push_refused, write_out};
use crate::line_reader::{Found, LineReader};
use crate::opening::{Opening, open};
use crate::outline::outline;
use crate::status::Status;
use crate::step::{read_feed, read_words, trigger_and_moment};
use crate::step_word::StepWord;
use iio_base::Mem;
use iio_desc::Desc;
use iio_device::Plug;
use iio_io::{ReadEnd, Sink, Source};
use iio_sensor::Sensor;
use iio_system::System;
use iio_text::{LineFault, Why, first_word};
use std::alloc::Global;

// The maximum number of bytes that are kept back as long as no read comes between.
const KEPT: usize = 61_440;

// Plays a feed, given by its first word and the words after it; `bytes` is room for the bytes that it feeds. If it is refused,
// the reason is returned. These three are functions of their own, so that a line doesn't pay for the locals of another.
#[inline(never)]
fn play_feed(
    alloc: Global,
    bytes: &mut Vec<u8>,
    system: &mut System,
    name: &[u8],
    words: &[u8],
    out: &mut Vec<u8>,
) -> Result<Option<Why>, Mem>
    requires few { system.old.used + (1 + length words.now) < 2 ^ 56 }
    ensures front { front_of system.new.bench ≡ front_of system.old.bench }
    ensures used { IfOk result (λ _. system.new.used ≤ system.old.used + (1 + length words.now)) }
    ensures performs { IfOk result (Performs ⟦<Plug as Sensor>⟧.driver (feed_of name.now (from_word words.now)) system.old system.new out.old.items
        out.new.items) }
{
    let name = match read_feed(alloc, bytes, name, words) {
        Ok(name) => name,
        Err(LineFault::Why(why)) => return Ok(Some(why)),
        Err(LineFault::Mem) => return Err(Mem),
    };
    if !system.takes(&name) {
        return Ok(Some(Why::Limit));
    }
    system.feed(&name, bytes, out)?;
    Ok(None)
}

// Plays a fire, given by the words after its first one. If it is refused, the reason is returned.
#[inline(never)]
fn play_fire(
    system: &mut System,
    names: &Desc,
    words: &[u8],
    out: &mut Vec<u8>,
) -> Result<Option<Why>, Mem>
    requires triggers { length names.now.triggers ≡ length (front_of system.old.bench).triggers }
    requires few { system.old.used + 1 < 2 ^ 56 }
    ensures front { front_of system.new.bench ≡ front_of system.old.bench }
    ensures used { IfOk result (λ _. system.new.used ≤ system.old.used + 1) }
    ensures performs { IfOk result (Performs ⟦<Plug as Sensor>⟧.driver (form_of StepWord.Fire names.now (words_of is_space words.now)) system.old system.new
        out.old.items out.new.items) }
{
    match trigger_and_moment(names, words) {
        Err(why) => Ok(Some(why)),
        Ok((trigger, moment)) => {
            system.fire(trigger, moment, out)?;
            Ok(None)
        }
    }
}

// Plays a step that is no feed, given by its first word and the words after it. If it is refused, the reason is returned.
#[inline(never)]
fn play_step(
    system: &mut System,
    names: &Desc,
    word: StepWord,
    words: &[u8],
    out: &mut Vec<u8>,
) -> Result<Option<Why>, Mem>
    requires triggers { length names.now.triggers ≡ length (front_of system.old.bench).triggers }
    requires devices { length (heads_of names.now) ≡ length (front_of system.old.bench).devices }
    requires few { system.old.used + 1 < 2 ^ 56 }
    ensures front { front_of system.new.bench ≡ front_of system.old.bench }
    ensures used { IfOk result (λ _. system.new.used ≤ system.old.used + 1) }
    ensures performs { IfOk result (Performs ⟦<Plug as Sensor>⟧.driver (form_of word names.now (words_of is_space words.now)) system.old system.new
        out.old.items out.new.items) }
{
    match read_words(names, word, words) {
        Err(why) => Ok(Some(why)),
        Ok(step) => {
            system.step(&step, out)?;
            Ok(None)
        }
    }
}

// Plays a line, given by its first word and the words after it. If it is refused, the reason is returned.
#[inline(always)]
fn play_words(
    alloc: Global,
    room: &mut Vec<u8>,
    system: &mut System,
    names: &Desc,
    word: &[u8],
    words: &[u8],
    out: &mut Vec<u8>,
) -> Result<Option<Why>, Mem>
    requires triggers { length names.now.triggers ≡ length (front_of system.old.bench).triggers }
    requires devices { length (heads_of names.now) ≡ length (front_of system.old.bench).devices }
    requires few { system.old.used + (1 + length words.now) < 2 ^ 56 }
    ensures front { front_of system.new.bench ≡ front_of system.old.bench }
    ensures used { IfOk result (λ _. system.new.used ≤ system.old.used + (1 + length words.now)) }
    ensures performs { IfOk result (λ why. (line : List ℕ) → IsFirstWord is_space line word.now words.now
        → Performs ⟦<Plug as Sensor>⟧.driver (step_by names.now line word.now (words_of is_space words.now) (entry_of step_words word.now)) system.old
        system.new out.old.items out.new.items why) }
{
    match StepWord::of(word) {
        None => play_feed(alloc, room, system, word, words, out),
        Some(StepWord::Fire) => play_fire(system, names, words, out),
        Some(first) => play_step(system, names, first, words, out),
    }
}

// Plays the line with that number. `names` finds what the script's description finds; `room` is room for the bytes of a feed.
// Returns a status if the script ends at the line, because it is refused.
fn play_line(
    alloc: Global,
    room: &mut Vec<u8>,
    system: &mut System,
    names: &Desc,
    line: &[u8],
    number: u32,
    out: &mut Vec<u8>,
) -> Result<Option<Status>, Mem>
    requires triggers { length names.now.triggers ≡ length (front_of system.old.bench).triggers }
    requires devices { length (heads_of names.now) ≡ length (front_of system.old.bench).devices }
    requires few { system.old.used ≤ 1048577 * number }
    ensures front { front_of system.new.bench ≡ front_of system.old.bench }
    ensures used { IfOk result (λ _. system.new.used ≤ system.old.used + 1048577) }
    ensures played { IfOk result (λ ended. (s : Setup) (sent : List ℕ) (first : ℕ) (given : List (List ℕ)) → FindsSame names.now s.desc
        → Plays ⟦<Plug as Sensor>⟧.driver s system.old (sent ++ out.old.items) (progress_of first number given)
        → PlaysLine ⟦<Plug as Sensor>⟧.driver s system.new (sent ++ out.new.items) (progress_of first number given) line.now ended) }
    ensures refused { IfOk result (λ ended. IfSome ended (IsRefusedWith number)) }
{
    let (word, words) = match first_word(line) {
        Ok(Some(parts)) => parts,
        Ok(None) => return Ok(None),
        Err(why) => return Ok(Some(push_refused(alloc, out, number, why)?)),
    };
    match play_words(alloc, room, system, names, word, words, out)? {
        None => Ok(None),
        Some(why) => Ok(Some(push_refused(alloc, out, number, why)?)),
    }
}

// Writes what is kept, if bytes have to be read for the next line or much is kept.
fn write_ready<K: Sink>(
    lines: &mut LineReader,
    output: &mut K,
    out: &mut Vec<u8>,
) -> Result<Option<Found>, Status>
    ensures found { IfOk result (λ seen. IfSome seen (λ found. Shows found lines.new)) }
    ensures follows { (input : List ℕ) (front : List (List ℕ)) (left : Option (List ℕ)) → Follows input front lines.old left
        → Follows input front lines.new left }
    ensures given { lines.new.given ≡ lines.old.given }
    ensures hand { IsHand lines.new }
    ensures more { IfOk result (λ seen. IfNone seen (NeedsMore lines.new)) }
    ensures flushed { IfOk result (λ seen. seen ≡ None → out.new.items ≡ []) }
    ensures few { OnOk result (length out.new.items < 61_440) }
    ensures sends { OnOk result (Sends (K.written output.old) (K.written output.new) out.old.items out.new.items) }
    ensures part { OnErr result ((rest : List ℕ) × Sends (K.written output.old) (K.written output.new) out.old.items rest) }
    ensures fault { OnErr result (Rose (K.faults output.old) (K.faults output.new)) }
    ensures err { IfErr result (λ status. status ≡ Status.WriteFault) }
    ensures counted { K.faults output.old ≤ K.faults output.new }
    ensures steady { OnOk result (K.faults output.new ≡ K.faults output.old) }
    ensures silent { IfNone (K.written output.old) (K.written output.new ≡ None) }
{
    let seen = lines.look();
    if seen.is_none() || out.len() >= KEPT {
        write_out(output, out)?;
    }
    Ok(seen)
}

// Finds the next line, like `LineReader::find`, after what is kept was written if it has to be. If that fails, nothing is read.
fn next_line<S: Source, K: Sink>(
    lines: &mut LineReader,
    input: &mut S,
    output: &mut K,
    out: &mut Vec<u8>,
) -> Result<Result<Found, ReadEnd>, Status>
    requires hand { IsHand lines.old }
    ensures found { IfOk result (λ read. IfOk read (λ found. Shows found lines.new)) }
    ensures more { IfOk result (λ read. OnErr read (NeedsMore lines.new)) }
    ensures follows { (input' : List ℕ) (front : List (List ℕ)) → Follows input' front lines.old (S.left input.old)
        → Follows input' front lines.new (S.left input.new) }
    ensures given { lines.new.given ≡ lines.old.given }
    ensures hand { IsHand lines.new }
    ensures read { OnOk result ((S.left input.new ≡ S.left input.old) ⊎ ((lines.new.over ≡ false) × (out.new.items ≡ []))) }
    ensures flushed { IfOk result (λ read. OnErr read (out.new.items ≡ [])) }
    ensures few { OnOk result (length out.new.items < 61_440) }
    ensures sends { OnOk result (Sends (K.written output.old) (K.written output.new) out.old.items out.new.items) }
    ensures part { OnErr result ((rest : List ℕ) × Sends (K.written output.old) (K.written output.new) out.old.items rest) }
    ensures unread { OnErr result (input.new ≡ input.old) }
    ensures err { IfErr result (λ status. status ≡ Status.WriteFault) }
    ensures write_fault { OnErr result (Rose (K.faults output.old) (K.faults output.new)) }
    ensures read_fault { result ≡ Ok (Err ReadEnd.Failed) → Rose (S.faults input.old) (S.faults input.new) }
    ensures memory { result ≡ Ok (Err ReadEnd.Mem) → S.faults input.new ≡ S.faults input.old }
    ensures reads { IfOk result (λ read. OnOk read (S.faults input.new ≡ S.faults input.old)) }
    ensures writes { OnOk result (K.faults output.new ≡ K.faults output.old) }
    ensures counted { (S.faults input.old ≤ S.faults input.new) × (K.faults output.old ≤ K.faults output.new) }
    ensures silent { (IfNone (S.left input.old) (S.left input.new ≡ None)) × (IfNone (K.written output.old) (K.written output.new ≡ None)) }
{
    let seen = write_ready(lines, output, out)?;
    Ok(lines.find_on(seen, input))
}

// Plays the steps of a script from a line on. The core is as it was before the first step. What is printed is written in
// pieces, and all of it before a read. After an `Ok`, `out` has bytes that are still to be written; its status is that of the
// script, or that of a failed read.
pub(crate) fn play_steps<S: Source, K: Sink>(
    alloc: Global,
    system: &mut System,
    names: &Desc,
    lines: &mut LineReader,
    first: u32,
    input: &mut S,
    output: &mut K,
    out: &mut Vec<u8>,
) -> Result<Status, Status>
    requires triggers { length names.now.triggers ≡ length (front_of system.old.bench).triggers }
    requires devices { length (heads_of names.now) ≡ length (front_of system.old.bench).devices }
    requires unfed { names_by system.old ≡ [] }
    requires unused { system.old.used ≡ 0 }
    requires begun { first ≤ lines.old.given + 1 }
    requires hand { IsHand lines.old }
    requires empty { out.old.items ≡ [] }
    ensures played { (s : Setup) (input' : List ℕ) (front more : List (List ℕ)) → StandsFor ⟦<Plug as Sensor>⟧.driver s [] system.old
        → FindsSame names.now s.desc
        → Follows input' front lines.old (S.left input.old) → first ≡ length front + 1 → scanned_lines input' ≡ front ++ more
        → (sent : List ℕ) × (IfSome (K.written output.old) (λ written. K.written output.new ≡ Some (written ++ sent)))
        × EndsSteps (start_of s first front) (outcome_of_script s (script_from s.desc (last_ending (is_overlong input')) [] first more)) input' result sent
        out.new.items (S.left input.new)
        × TakesAtMost input' (input_limit + 1) (S.left input.new)
        × AnswersScript (start_of s first front) input' sent (S.left input.old) (S.left input.new) }
    ensures stands { result ≡ Ok Status.Done → (s : Setup) (input' : List ℕ) (front more : List (List ℕ)) → StandsFor ⟦<Plug as Sensor>⟧.driver s [] system.old
        → FindsSame names.now s.desc
        → Follows input' front lines.old (S.left input.old) → scanned_lines input' ≡ front ++ more
        → StandsFor ⟦<Plug as Sensor>⟧.driver s (with_steps s [] (script_from s.desc (last_ending (is_overlong input')) [] first more).steps) system.new }
    ensures over { IsOver result }
    ensures flushed { result ≡ Ok Status.ReadFault → out.new.items ≡ [] }
    ensures read_fault { result ≡ Ok Status.ReadFault → Rose (S.faults input.old) (S.faults input.new) }
    ensures steady { IfOk result (λ _. K.faults output.new ≡ K.faults output.old) }
    ensures write_fault { result ≡ Err Status.WriteFault → Rose (K.faults output.old) (K.faults output.new) }
    ensures memory { result ≡ Err Status.Memory → (S.faults input.new ≡ S.faults input.old) × (K.faults output.new ≡ K.faults output.old) }
    ensures counted { (S.faults input.old ≤ S.faults input.new) × (K.faults output.old ≤ K.faults output.new) }
    ensures silent { (IfNone (S.left input.old) (S.left input.new ≡ None)) × (IfNone (K.written output.old) (K.written output.new ≡ None)) }
{
    let mut number = first;
    let mut room = Vec::new(alloc);
    loop {
        match next_line(lines, input, output, out)? {
            Ok(Found::Line) => {}
            Ok(Found::Long) => return Ok(push_refused(alloc, out, number, Why::Long)?),
            Ok(Found::End) => return Ok(Status::Done),
            Ok(Found::Cut) => return Ok(push_end(out, true)?),
            Err(ReadEnd::Failed) => return Ok(Status::ReadFault),
            Err(ReadEnd::Mem) => return Err(Status::Memory),
        }
        if let Some(status) = play_line(
            alloc,
            &mut room,
            system,
            names,
            lines.line(),
            number,
            out,
        )? {
            return Ok(status);
        }
        lines.pass();
        number += 1;
    }
}

// Plays the script after a description, from a line on.
fn play_described<S: Source, K: Sink>(
    alloc: Global,
    desc: Desc,
    drivers: Vec<Box<dyn Sensor + Send>>,
    lines: &mut LineReader,
    first: u32,
    input: &mut S,
    output: &mut K,
) -> Status
    requires sound { IsWellFormed (length drivers.items) desc }
    requires begun { first ≤ lines.old.given + 1 }
    requires hand { IsHand lines.old }
    ensures played { (input' : List ℕ) (front more : List (List ℕ)) → Follows input' front lines.old (S.left input.old) → first ≡ length front + 1
        → scanned_lines input' ≡ front ++ more
        → let s : Setup = record { desc = desc; drivers = map (λ d. ⟦<Plug as Sensor>⟧.driver (Given d)) drivers.items } in
        (text : List ℕ) × WritesText (K.written output.old) (K.written output.new) text
        × EndsScript (start_of s first front) (outcome_of_script s (script_from desc (last_ending (is_overlong input')) [] first more)) input' result text
        (S.left input.new)
        × TakesAtMost input' (input_limit + 1) (S.left input.new)
        × AnswersScript (start_of s first front) input' text (S.left input.old) (S.left input.new) }
    ensures faults { ShowsFaults (views_of S.left S.faults K.written K.faults) result input.old input.new output.old output.new }
    ensures words { result ≡ Status.Usage → ⊥ }
{
    let Ok(names) = outline(alloc, &desc) else {
        return Status::Memory;
    };
    let Ok(mut system) = System::new(alloc, desc, drivers) else {
        return Status::Memory;
    };
    let mut out = Vec::new(alloc);
    match play_steps(
        alloc,
        &mut system,
        &names,
        lines,
        first,
        input,
        output,
        &mut out,
    ) {
        Ok(status) => end_with(output, &mut out, status),
        Err(fault) => fault,
    }
}

// Plays the input that a source has left. `count` is the number of drivers.
fn play_input<S: Source, K: Sink>(
    alloc: Global,
    input: &mut S,
    drivers: Vec<Box<dyn Sensor + Send>>,
    count: u32,
    output: &mut K,
) -> Status
    requires { count ≡ length drivers.items }
    ensures runs { IfSome (S.left input.old)
        (λ left. Runs (map (λ d. ⟦<Plug as Sensor>⟧.driver (Given d)) drivers.items) left result (S.left input.new) (K.written output.old)
        (K.written output.new)) }
    ensures words { result ≡ Status.Usage → ⊥ }
    ensures faults { ShowsFaults (views_of S.left S.faults K.written K.faults) result input.old input.new output.old output.new }
{
    let Ok(mut lines) = LineReader::new(alloc) else {
        return Status::Memory;
    };
    match open(alloc, &mut lines, input, count) {
        Ok(Opening::Described { desc, first }) => {
            play_described(alloc, desc, drivers, &mut lines, first, input, output)
        }
        Ok(Opening::Alone { .. }) => Status::Done,
        Ok(Opening::Refused { line, why }) => end_refused(alloc, output, line, why),
        Ok(Opening::Cut) => end_cut(alloc, output),
        Err(ReadEnd::Failed) => Status::ReadFault,
        Err(ReadEnd::Mem) => Status::Memory,
    }
}

/// Plays the input that a source has left, and writes what it prints to a sink: the input is a description, and then the
/// steps of a script, which are played up to the first refused line. A device with a driver's number samples the driver of
/// that number among those handed in, any other device its recorded rows. Lines are played as they come, and what they print
/// is written before more is read: a failed read loses nothing of the lines before it, and a refusal leaves what follows in
/// the source, except for at most a piece of 65,536 bytes.
pub fn play<S: Source, K: Sink>(
    alloc: Global,
    input: &mut S,
    drivers: Vec<Box<dyn Sensor + Send>>,
    output: &mut K,
) -> Status
    ensures transcript { IfSome (S.left input.old) (λ left. IfSome (K.written output.old) (λ written.
        Writes (outcome_of (map (λ d. ⟦<Plug as Sensor>⟧.driver (Given d)) drivers.items) left) written result (K.written output.new))) }
    ensures status { IfSome (S.left input.old) (λ left. HasStatus (outcome_of (map (λ d. ⟦<Plug as Sensor>⟧.driver (Given d)) drivers.items) left) result) }
    ensures words { result ≡ Status.Usage → ⊥ }
    ensures taken { IfSome (S.left input.old) (λ left. TakesAtMost left (input_limit + 1) (S.left input.new)) }
    // If a line is refused, at most a piece was taken after the byte at which it failed.
    ensures near { IfSome (S.left input.old) (λ left. TakesFor result left (S.left input.new)) }
    // If a read failed, all that the whole lines before it print was written.
    ensures whole_lines { result ≡ Status.ReadFault → IfSome (S.left input.old) (λ left. IfSome (K.written output.old) (λ written.
        WritesLines (map (λ d. ⟦<Plug as Sensor>⟧.driver (Given d)) drivers.items) left written (S.left input.new) (K.written output.new))) }
    // However the run ends: before the last piece was taken, all that the whole lines taken until then print had been written.
    ensures answered { IfSome (S.left input.old) (λ left. IfSome (K.written output.old) (λ written.
        WritesFirst (map (λ d. ⟦<Plug as Sensor>⟧.driver (Given d)) drivers.items) left written (S.left input.new) (K.written output.new))) }
    ensures faults { ShowsFaults (views_of S.left S.faults K.written K.faults) result input.old input.new output.old output.new }
{
    let Ok(count) = u32::try_from(drivers.len()) else {
        return Status::Memory;
    };
    play_input(alloc, input, drivers, count, output)
}
