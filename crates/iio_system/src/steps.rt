//! The steps of a script at the core.

ghost use Rattle.std.specs.Prelude.{◌≡◌, ◌+◌, ◌++◌, ◌<◌, ◌≤◌, ◌^◌, [], IfOk, List, OnOk, length, map, true};
ghost use Rattle.iio_desc.specs.WellFormed.{IsWellFormed};
ghost use Rattle.iio_device.specs.declared.plug.Plug.TheVariants.{Given};
ghost use Rattle.iio_core.specs.Front.{first_front};
ghost use Rattle.iio_history.specs.Event.{Event};
ghost use Rattle.iio_history.specs.Registry.{Setup};
ghost use Rattle.iio_history.specs.Script.{max_names};
ghost use Rattle.iio_history.specs.Transcript.{Feed, Fire, lines_of_step, with_step};
ghost use Rattle.iio_bench.specs.Bench.{captures_of, front_of};
ghost use Rattle.iio_worlds.specs.Bystanders.{only_bystanders};
ghost use Rattle.iio_system.specs.Connections.{AreApart, AreOwning};
ghost use Rattle.iio_system.specs.Standing.{CanCapture, IsPerformed, IsTaken, MakesStep, MeetsStep, RiseBy, StandsFor, has_room, name_by, names_by, names_with, step_state};
ghost use Rattle.iio_bench.specs.Seat.{seen_of};
ghost use Rattle.iio_system.specs.Step.{IsValid, cost_of, step_view};

use crate::connections::{drop_guarded, drop_named, feed, feed_guarded, place};
use crate::moves;
use crate::step::Step;
use crate::system::System;
use iio_attr::Name;
use iio_base::Mem;
use iio_bench::{Bench, Connection};
use iio_desc::Desc;
use iio_device::Plug;
use iio_history::MAX_NAMES;
use iio_kinds::Seat;
use iio_sensor::Sensor;
use iio_worlds::stance_law;
use std::alloc::Global;

// The cost of a step: 1, and the number of bytes that it feeds.
fn cost_of(step: &Step) -> u64
    ensures { result ≡ cost_of step.now }
{
    match step {
        Step::Feed(_, bytes) => 1 + bytes.bytes().len() as u64,
        _ => 1,
    }
}

// Performs a step at a bench and its connections. `answers` is room for the answers to a feed; `last` is the place of the
// connection that was fed last.
fn perform(
    alloc: Global,
    bench: &mut Bench,
    connections: &mut Vec<Connection<Seat>>,
    answers: &mut Vec<u8>,
    last: &mut usize,
    step: &Step,
    out: &mut Vec<u8>,
) -> Result<(), Mem>
    requires valid { IsValid (length (front_of bench.old).triggers) (length (front_of bench.old).devices) step.now }
    requires taken { IsTaken (map name_by connections.old.items) step.now }
    requires owned { AreOwning seen_of (front_of bench.old) connections.old.items }
    requires few { length connections.old.items ≤ max_names }
    requires apart { AreApart connections.old.items }
    requires captures { CanCapture (captures_of bench.old) }
    ensures front { front_of bench.new ≡ front_of bench.old }
    ensures owned { AreOwning seen_of (front_of bench.new) connections.new.items }
    ensures few { length connections.new.items ≤ max_names }
    ensures apart { AreApart connections.new.items }
    ensures names { OnOk result (map name_by connections.new.items ≡ names_with (map name_by connections.old.items) (step_view step.now)) }
    ensures captures { RiseBy 32 (captures_of bench.old) (captures_of bench.new) }
    ensures makes { OnOk result (MakesStep ⟦<Plug as Sensor>⟧.driver step.now
        (step_state bench.old connections.old.items out.old.items) (step_state bench.new connections.new.items out.new.items)) }
{
    match step {
        Step::Feed(name, bytes) => feed(
            alloc,
            bench,
            connections,
            name,
            bytes.bytes(),
            answers,
            last,
            out,
        ),
        Step::Fire(trigger, t) => moves::fire(bench, *trigger, *t, out),
        Step::Poll(trigger, t) => moves::poll(bench, *trigger, *t, out),
        Step::Handle(trigger, dev) => moves::handle(bench, *trigger, *dev, out),
        Step::Sense(dev, t) => moves::sense(bench, *dev, *t, out),
        Step::Clock(t) => moves::set_clock(bench, *t, out),
        Step::Drop(name) => drop_named(bench, connections, name, out),
        Step::Unplug(dev) => moves::unplug(bench, *dev, out),
    }
}

// Does what `perform` does, and returns whether the step keeps to the rules of bystanders as to the watched connection.
fn perform_guarded(
    alloc: Global,
    bench: &mut Bench,
    connections: &mut Vec<Connection<Seat>>,
    answers: &mut Vec<u8>,
    last: &mut usize,
    watched: &[u8],
    step: &Step,
    out: &mut Vec<u8>,
) -> Result<bool, Mem>
    requires valid { IsValid (length (front_of bench.old).triggers) (length (front_of bench.old).devices) step.now }
    requires taken { IsTaken (map name_by connections.old.items) step.now }
    requires owned { AreOwning seen_of (front_of bench.old) connections.old.items }
    requires few { length connections.old.items ≤ max_names }
    requires apart { AreApart connections.old.items }
    requires captures { CanCapture (captures_of bench.old) }
    ensures front { front_of bench.new ≡ front_of bench.old }
    ensures owned { AreOwning seen_of (front_of bench.new) connections.new.items }
    ensures few { length connections.new.items ≤ max_names }
    ensures apart { AreApart connections.new.items }
    ensures names { OnOk result (map name_by connections.new.items ≡ names_with (map name_by connections.old.items) (step_view step.now)) }
    ensures captures { RiseBy 32 (captures_of bench.old) (captures_of bench.new) }
    ensures makes { OnOk result (MakesStep ⟦<Plug as Sensor>⟧.driver step.now
        (step_state bench.old connections.old.items out.old.items) (step_state bench.new connections.new.items out.new.items)) }
    ensures meets { IfOk result (MeetsStep ⟦<Plug as Sensor>⟧.driver watched.now step.now bench.old connections.old.items) }
{
    match step {
        Step::Feed(name, bytes) => feed_guarded(
            alloc,
            bench,
            connections,
            watched,
            name,
            bytes.bytes(),
            answers,
            out,
        ),
        Step::Drop(name) => drop_guarded(bench, connections, watched, name, out),
        _ => {
            perform(alloc, bench, connections, answers, last, step, out)?;
            Ok(true)
        }
    }
}

impl System {
    /// The core before the first step: no connection was fed yet, and the devices are those of a new [`Bench`].
    pub fn new(
        alloc: Global,
        desc: Desc,
        drivers: Vec<Box<dyn Sensor + Send>>,
    ) -> Result<System, Mem>
        requires { IsWellFormed (length drivers.items) desc }
        ensures stands { IfOk result
            (StandsFor ⟦<Plug as Sensor>⟧.driver (record { desc = desc; drivers = map (λ d. ⟦<Plug as Sensor>⟧.driver (Given d)) drivers.items }) []) }
        ensures front { IfOk result (λ x. front_of x.bench ≡ first_front desc) }
        ensures names { IfOk result (λ x. names_by x ≡ []) }
        ensures used { IfOk result (λ x. x.used ≡ 0) }
    {
        let bench = Bench::new(alloc, desc, drivers)?;
        bench.look_at_sizes();
        Ok(System {
            alloc,
            bench,
            connections: Vec::new(alloc),
            answers: Vec::new(alloc),
            last: 0,
            used: 0,
        })
    }

    /// Whether a connection of that name can be fed: it was fed before, or fewer than 64 names were.
    pub fn takes(&self, name: &Name) -> bool
        ensures { result ≡ has_room (names_by self.now) name.now }
    {
        self.connections.len() < MAX_NAMES || place(&self.connections, name).is_some()
    }

    /// Performs the step `NAME "bytes"`, like [`System::step`].
    pub fn feed(&mut self, name: &Name, bytes: &[u8], out: &mut Vec<u8>) -> Result<(), Mem>
        requires taken { has_room (names_by self.old) name.now ≡ true }
        requires few { self.old.used + (1 + length bytes.now) < 2 ^ 56 }
        ensures performed { OnOk result (IsPerformed ⟦<Plug as Sensor>⟧.driver (Feed name.now bytes.now) self.old self.new out.old.items out.new.items) }
        ensures front { front_of self.new.bench ≡ front_of self.old.bench }
        ensures used { self.new.used ≡ self.old.used + (1 + length bytes.now) }
    {
        self.used += 1 + bytes.len() as u64;
        feed(
            self.alloc,
            &mut self.bench,
            &mut self.connections,
            name,
            bytes,
            &mut self.answers,
            &mut self.last,
            out,
        )
    }

    /// Performs the step `fire TRIGGER T`, like [`System::step`]. `t` is in the script's own unit.
    pub fn fire(&mut self, trigger: u32, t: i64, out: &mut Vec<u8>) -> Result<(), Mem>
        requires valid { trigger < length (front_of self.old.bench).triggers }
        requires few { self.old.used + 1 < 2 ^ 56 }
        ensures performed { OnOk result (IsPerformed ⟦<Plug as Sensor>⟧.driver (Fire trigger t) self.old self.new out.old.items out.new.items) }
        ensures front { front_of self.new.bench ≡ front_of self.old.bench }
        ensures used { self.new.used ≡ self.old.used + 1 }
    {
        self.used += 1;
        moves::fire(&mut self.bench, trigger, t, out)
    }

    /// Performs a step, and appends the lines that it prints. After `Mem` the system may only be dropped.
    pub fn step(&mut self, step: &Step, out: &mut Vec<u8>) -> Result<(), Mem>
        requires valid { IsValid (length (front_of self.old.bench).triggers) (length (front_of self.old.bench).devices) step.now }
        requires taken { IsTaken (names_by self.old) step.now }
        requires few { self.old.used + cost_of step.now < 2 ^ 56 }
        ensures lines { OnOk result ((s : Setup) (h : List Event) → StandsFor ⟦<Plug as Sensor>⟧.driver s h self.old
            → (out.new.items ≡ out.old.items ++ lines_of_step s h (step_view step.now))
            × StandsFor ⟦<Plug as Sensor>⟧.driver s (with_step s h (step_view step.now)) self.new) }
        ensures front { front_of self.new.bench ≡ front_of self.old.bench }
        ensures names { OnOk result (names_by self.new ≡ names_with (names_by self.old) (step_view step.now)) }
        ensures used { self.new.used ≡ self.old.used + cost_of step.now }
    {
        self.used += cost_of(step);
        perform(
            self.alloc,
            &mut self.bench,
            &mut self.connections,
            &mut self.answers,
            &mut self.last,
            step,
            out,
        )
    }

    /// Does what [`System::step`] does, and returns whether each event of the step keeps to the rules of bystanders as to the
    /// connection named `watched`. It allocates no memory for that.
    pub fn guarded(&mut self, watched: &[u8], step: &Step, out: &mut Vec<u8>) -> Result<bool, Mem>
        requires valid { IsValid (length (front_of self.old.bench).triggers) (length (front_of self.old.bench).devices) step.now }
        requires taken { IsTaken (names_by self.old) step.now }
        requires few { self.old.used + cost_of step.now < 2 ^ 56 }
        ensures lines { OnOk result ((s : Setup) (h : List Event) → StandsFor ⟦<Plug as Sensor>⟧.driver s h self.old
            → (out.new.items ≡ out.old.items ++ lines_of_step s h (step_view step.now))
            × StandsFor ⟦<Plug as Sensor>⟧.driver s (with_step s h (step_view step.now)) self.new) }
        ensures front { front_of self.new.bench ≡ front_of self.old.bench }
        ensures names { OnOk result (names_by self.new ≡ names_with (names_by self.old) (step_view step.now)) }
        ensures used { self.new.used ≡ self.old.used + cost_of step.now }
        ensures meets { IfOk result (λ meets. (s : Setup) (h : List Event) → StandsFor ⟦<Plug as Sensor>⟧.driver s h self.old
            → only_bystanders s watched.now h ≡ true → meets ≡ only_bystanders s watched.now (with_step s h (step_view step.now))) }
    {
        stance_law();
        self.used += cost_of(step);
        perform_guarded(
            self.alloc,
            &mut self.bench,
            &mut self.connections,
            &mut self.answers,
            &mut self.last,
            watched,
            step,
            out,
        )
    }
}
