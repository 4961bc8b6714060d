//! Playing an input for the world of one connection: what it prints, without the steps of other connections.

ghost use Rattle.std.specs.Prelude.{◌≡◌, ◌+◌, ◌*◌, ◌^◌, ◌≤◌, ◌<◌, [], ◌++◌, true, ℕ, Err, IfOk, IfSome, IfNone, None, Some, List, OnOk, length, map, if◌then◌else◌};
ghost use Rattle.iio_base.specs.Faults.{Rose};
ghost use Rattle.iio_io.specs.Bytes.{TakesAtMost};
ghost use Rattle.iio_desc.specs.Description.{heads_of};
ghost use Rattle.iio_desc.specs.WellFormed.{IsWellFormed};
ghost use Rattle.iio_device.specs.declared.plug.Plug.TheVariants.{Given};
ghost use Rattle.iio_history.specs.Event.{Event};
ghost use Rattle.iio_history.specs.Input.{input_limit, is_overlong, scanned_lines};
ghost use Rattle.iio_history.specs.Outcome.{last_ending};
ghost use Rattle.iio_history.specs.Registry.{Setup};
ghost use Rattle.iio_bench.specs.Bench.{front_of};
ghost use Rattle.iio_history.specs.Script.{keeps_names};
ghost use Rattle.iio_system.specs.Standing.{IsTaken, StandsFor, names_by, names_with};
ghost use Rattle.iio_system.specs.Step.{IsValid, cost_of, step_view};
ghost use Rattle.iio_worlds.specs.Bystanders.{only_bystanders};
ghost use Rattle.iio_worlds.specs.Solo.{kept_of};
ghost use Rattle.iio_worlds.specs.Worlds.{is_others};
ghost use Rattle.iio_script.specs.Keeps.{KeepsLine, KeepsOn, KeepsStep, excerpt_of, kept_at_end, kept_of_lines, keeping_view, watch_of};
ghost use Rattle.iio_script.specs.LineReader.{Follows, IsHand};
ghost use Rattle.iio_script.specs.Outline.{FindsSame};
ghost use Rattle.iio_script.specs.Plays.{progress_of};

use crate::line_reader::{Found, LineReader};
use crate::opening::{Opening, open};
use crate::outline::outline;
use crate::step::read_step_into;
use iio_base::Mem;
use iio_desc::Desc;
use iio_device::Plug;
use iio_io::{ReadEnd, Source};
use iio_sensor::Sensor;
use iio_system::{Step, System};
use iio_text::{LineFault, Why};
use iio_worlds::solo_law;
use std::alloc::Global;

/// The result of a run over an input that keeps the lines of one connection's own world.
#[derive(Drop)]
pub enum Keeping {
    /// What all steps print, without those of other connections, which are bystanders.
    Text(Vec<u8>),
    /// The line with this number, counted from 1, is the first that fails. Or, if none fails, its step is the first against
    /// the rules of bystanders, and `why` is `Bystander`.
    Refused { line: u32, why: Why },
    /// The input has more bytes than are looked at, and no looked-at line fails.
    TooLong,
}

// Whether a step is one of another connection.
fn is_others(step: &Step, watched: &[u8]) -> bool
    ensures { result ≡ is_others watched.now (step_view step.now) }
{
    match step {
        Step::Feed(name, _) | Step::Drop(name) => !name.is(watched),
        _ => false,
    }
}

// Returns the number of bytes of a text that are kept; the bytes from `at` on are the step's lines.
fn kept_len(step: &Step, watched: &[u8], at: usize, len: usize) -> usize
    ensures { result ≡ (if is_others watched.now (step_view step.now) then at else len) }
{
    if is_others(step, watched) {
        return at;
    }
    len
}

// Whether a step leaves the number of names within its limit.
fn takes(system: &System, step: &Step) -> bool
    ensures { result ≡ keeps_names (names_by system.now) (Some (step_view step.now)) }
{
    match step {
        Step::Feed(name, _) => system.takes(name),
        _ => true,
    }
}

// Keeps the bytes of a feed as room for those of the next.
fn keep_room(step: Step, room: &mut Vec<u8>) {
    if let Step::Feed(_, bytes) = step {
        *room = bytes.into_bytes();
    }
}

// Performs the step of a line, and keeps its lines unless it is another connection's. Once a step has offended, further ones
// are only performed because the names that they feed decide how the script ends.
fn keep_step(
    system: &mut System,
    watched: &[u8],
    step: &Step,
    number: u32,
    text: &mut Vec<u8>,
    offence: &mut Option<u32>,
) -> Result<(), Mem>
    requires valid { IsValid (length (front_of system.old.bench).triggers) (length (front_of system.old.bench).devices) step.now }
    requires taken { IsTaken (names_by system.old) step.now }
    requires few { system.old.used + cost_of step.now < 2 ^ 56 }
    ensures front { front_of system.new.bench ≡ front_of system.old.bench }
    ensures names { OnOk result (names_by system.new ≡ names_with (names_by system.old) (step_view step.now)) }
    ensures used { system.new.used ≡ system.old.used + cost_of step.now }
    ensures keeps { OnOk result ((s : Setup) (h : List Event) → StandsFor ⟦<Plug as Sensor>⟧.driver s h system.old
        → (offence.old ≡ None → only_bystanders s watched.now h ≡ true)
        → KeepsStep ⟦<Plug as Sensor>⟧.driver (watch_of s watched.now) h (record { number = number; step = step_view step.now })
        (excerpt_of offence.old text.old.items) (excerpt_of offence.new text.new.items) system.new) }
{
    solo_law();
    if offence.is_some() {
        system.step(step, text)?;
        text.clear();
        return Ok(());
    }
    let at = text.len();
    let meets = system.guarded(watched, step, text)?;
    if !meets {
        *offence = Some(number);
        text.clear();
        return Ok(());
    }
    text.truncate(kept_len(step, watched, at, text.len()));
    Ok(())
}

// Plays the line with that number. `names` finds what the script's description finds; `room` is room for the bytes of a feed.
// If the line is refused, the reason is returned.
fn keep_line(
    alloc: Global,
    room: &mut Vec<u8>,
    system: &mut System,
    names: &Desc,
    watched: &[u8],
    line: &[u8],
    number: u32,
    text: &mut Vec<u8>,
    offence: &mut Option<u32>,
) -> Result<Option<Why>, Mem>
    requires triggers { length names.now.triggers ≡ length (front_of system.old.bench).triggers }
    requires devices { length (heads_of names.now) ≡ length (front_of system.old.bench).devices }
    requires few { system.old.used ≤ 1048577 * number }
    ensures front { front_of system.new.bench ≡ front_of system.old.bench }
    ensures used { IfOk result (λ _. system.new.used ≤ system.old.used + 1048577) }
    ensures keeps { IfOk result (λ why. (s : Setup) (first : ℕ) (given : List (List ℕ)) → FindsSame names.now s.desc
        → KeepsOn ⟦<Plug as Sensor>⟧.driver (watch_of s watched.now) system.old (excerpt_of offence.old text.old.items) (progress_of first number given)
        → KeepsLine ⟦<Plug as Sensor>⟧.driver (watch_of s watched.now) system.new (excerpt_of offence.new text.new.items) (progress_of first number given)
        line.now why) }
{
    let said = match read_step_into(alloc, room, names, line) {
        Ok(said) => said,
        Err(LineFault::Why(why)) => return Ok(Some(why)),
        Err(LineFault::Mem) => return Err(Mem),
    };
    let Some(step) = said else {
        return Ok(None);
    };
    if !takes(system, &step) {
        return Ok(Some(Why::Limit));
    }
    keep_step(system, watched, &step, number, text, offence)?;
    keep_room(step, room);
    Ok(None)
}

// Returns the result of a run once no line is left.
fn end_of_lines(text: Vec<u8>, offence: Option<u32>) -> Keeping
    ensures { keeping_view result ≡ kept_at_end offence text.items }
{
    match offence {
        None => Keeping::Text(text),
        Some(line) => Keeping::Refused {
            line,
            why: Why::Bystander,
        },
    }
}

// Plays the steps of a script from a line on. The core is as it was before the first step.
fn keep_steps<S: Source>(
    alloc: Global,
    system: &mut System,
    names: &Desc,
    lines: &mut LineReader,
    first: u32,
    watched: &[u8],
    input: &mut S,
) -> Result<Keeping, ReadEnd>
    requires triggers { length names.now.triggers ≡ length (front_of system.old.bench).triggers }
    requires devices { length (heads_of names.now) ≡ length (front_of system.old.bench).devices }
    requires unfed { names_by system.old ≡ [] }
    requires unused { system.old.used ≡ 0 }
    requires begun { first ≤ lines.old.given + 1 }
    requires hand { IsHand lines.old }
    ensures keeps { (s : Setup) (input' : List ℕ) (front more : List (List ℕ)) → StandsFor ⟦<Plug as Sensor>⟧.driver s [] system.old
        → FindsSame names.now s.desc
        → Follows input' front lines.old (S.left input.old) → scanned_lines input' ≡ front ++ more
        → IfOk result (λ keeping. kept_of_lines s watched.now (last_ending (is_overlong input')) first more ≡ keeping_view keeping)
        × TakesAtMost input' (input_limit + 1) (S.left input.new) }
    ensures silent { IfNone (S.left input.old) (S.left input.new ≡ None) }
    ensures counted { S.faults input.old ≤ S.faults input.new }
    ensures failed { result ≡ Err ReadEnd.Failed → Rose (S.faults input.old) (S.faults input.new) }
    ensures memory { result ≡ Err ReadEnd.Mem → S.faults input.new ≡ S.faults input.old }
    ensures steady { IfOk result (λ _. S.faults input.new ≡ S.faults input.old) }
{
    solo_law();
    let mut text = Vec::new(alloc);
    let mut offence = None;
    let mut number = first;
    let mut room = Vec::new(alloc);
    loop {
        match lines.find(input) {
            Ok(Found::Line) => {}
            Ok(Found::Long) => return Ok(Keeping::Refused {
                line: number,
                why: Why::Long,
            }),
            Ok(Found::End) => return Ok(end_of_lines(text, offence)),
            Ok(Found::Cut) => return Ok(Keeping::TooLong),
            Err(end) => return Err(end),
        }
        let Ok(refused) = keep_line(
            alloc,
            &mut room,
            system,
            names,
            watched,
            lines.line(),
            number,
            &mut text,
            &mut offence,
        ) else {
            return Err(ReadEnd::Mem);
        };
        if let Some(why) = refused {
            return Ok(Keeping::Refused { line: number, why });
        }
        lines.pass();
        number += 1;
    }
}

// Plays the script after a description, from a line on.
fn keep_described<S: Source>(
    alloc: Global,
    desc: Desc,
    drivers: Vec<Box<dyn Sensor + Send>>,
    lines: &mut LineReader,
    first: u32,
    watched: &[u8],
    input: &mut S,
) -> Result<Keeping, ReadEnd>
    requires sound { IsWellFormed (length drivers.items) desc }
    requires begun { first ≤ lines.old.given + 1 }
    requires hand { IsHand lines.old }
    ensures keeps { (input' : List ℕ) (front more : List (List ℕ)) → Follows input' front lines.old (S.left input.old) → scanned_lines input' ≡ front ++ more
        → IfOk result (λ keeping. kept_of_lines (record { desc = desc; drivers = map (λ d. ⟦<Plug as Sensor>⟧.driver (Given d)) drivers.items })
        watched.now (last_ending (is_overlong input')) first more ≡ keeping_view keeping)
        × TakesAtMost input' (input_limit + 1) (S.left input.new) }
    ensures silent { IfNone (S.left input.old) (S.left input.new ≡ None) }
    ensures counted { S.faults input.old ≤ S.faults input.new }
    ensures failed { result ≡ Err ReadEnd.Failed → Rose (S.faults input.old) (S.faults input.new) }
    ensures memory { result ≡ Err ReadEnd.Mem → S.faults input.new ≡ S.faults input.old }
    ensures steady { IfOk result (λ _. S.faults input.new ≡ S.faults input.old) }
{
    let Ok(names) = outline(alloc, &desc) else {
        return Err(ReadEnd::Mem);
    };
    let Ok(mut system) = System::new(alloc, desc, drivers) else {
        return Err(ReadEnd::Mem);
    };
    keep_steps(alloc, &mut system, &names, lines, first, watched, input)
}

// Plays the input that a source has left. `count` is the number of drivers.
fn keep_input<S: Source>(
    alloc: Global,
    watched: &[u8],
    input: &mut S,
    drivers: Vec<Box<dyn Sensor + Send>>,
    count: u32,
) -> Result<Keeping, ReadEnd>
    requires { count ≡ length drivers.items }
    ensures keeps { IfOk result (λ keeping. IfSome (S.left input.old) (λ left.
        kept_of watched.now (map (λ d. ⟦<Plug as Sensor>⟧.driver (Given d)) drivers.items) left ≡ keeping_view keeping)) }
    ensures taken { IfSome (S.left input.old) (λ left. TakesAtMost left (input_limit + 1) (S.left input.new)) }
    ensures silent { IfNone (S.left input.old) (S.left input.new ≡ None) }
    ensures counted { S.faults input.old ≤ S.faults input.new }
    ensures failed { result ≡ Err ReadEnd.Failed → Rose (S.faults input.old) (S.faults input.new) }
    ensures memory { result ≡ Err ReadEnd.Mem → S.faults input.new ≡ S.faults input.old }
    ensures steady { IfOk result (λ _. S.faults input.new ≡ S.faults input.old) }
{
    let Ok(mut lines) = LineReader::new(alloc) else {
        return Err(ReadEnd::Mem);
    };
    match open(alloc, &mut lines, input, count) {
        Ok(Opening::Described { desc, first }) => {
            keep_described(alloc, desc, drivers, &mut lines, first, watched, input)
        }
        Ok(Opening::Alone { .. }) => Ok(Keeping::Text(Vec::new(alloc))),
        Ok(Opening::Refused { line, why }) => Ok(Keeping::Refused { line, why }),
        Ok(Opening::Cut) => Ok(Keeping::TooLong),
        Err(end) => Err(end),
    }
}

/// Plays the input that a source has left for the connection named `watched`, as [`play`](crate::play) does, and keeps what
/// it prints without the steps of other connections. The whole input is read first: a line that fails counts before any step
/// against the rules of bystanders, and too many bytes count before both. The drivers are handed in once, and one text is
/// held.
pub fn keep<S: Source>(
    alloc: Global,
    watched: &[u8],
    input: &mut S,
    drivers: Vec<Box<dyn Sensor + Send>>,
) -> Result<Keeping, ReadEnd>
    ensures keeps { IfOk result (λ keeping. IfSome (S.left input.old) (λ left.
        kept_of watched.now (map (λ d. ⟦<Plug as Sensor>⟧.driver (Given d)) drivers.items) left ≡ keeping_view keeping)) }
    ensures taken { IfSome (S.left input.old) (λ left. TakesAtMost left (input_limit + 1) (S.left input.new)) }
    ensures silent { IfNone (S.left input.old) (S.left input.new ≡ None) }
    ensures counted { S.faults input.old ≤ S.faults input.new }
    ensures failed { result ≡ Err ReadEnd.Failed → Rose (S.faults input.old) (S.faults input.new) }
    ensures memory { result ≡ Err ReadEnd.Mem → S.faults input.new ≡ S.faults input.old }
    ensures steady { IfOk result (λ _. S.faults input.new ≡ S.faults input.old) }
{
    let Ok(count) = u32::try_from(drivers.len()) else {
        return Err(ReadEnd::Mem);
    };
    keep_input(alloc, watched, input, drivers, count)
}
