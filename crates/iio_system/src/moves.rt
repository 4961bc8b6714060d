//! The steps of a script that no connection makes: what they make of a bench, and the lines that they print. The large ones are
//! never inlined, so that a step doesn't pay for the locals of another.

ghost use Rattle.std.specs.Prelude.{◌≡◌, ◌++◌, ◌<◌, ◌≤◌, List, [], ◌∷◌, OnOk, codes, length};
ghost use Rattle.iio_core.specs.Front.{device_name, trigger_name};
ghost use Rattle.iio_history.specs.Transcript.{Fire, Handle, Poll, Sense, SetClock, Unplug, printed};
ghost use Rattle.iio_bench.specs.declared.connection.Connection.{Connection};
ghost use Rattle.iio_kinds.specs.declared.seat.Seat.{Seat};
ghost use Rattle.iio_bench.specs.Bench.{captures_of, front_of, room_at};
ghost use Rattle.iio_history.specs.Words.{became_word};
ghost use Rattle.iio_system.specs.Moves.{CanGoOn, HandlesAll, HandlesOne};
ghost use Rattle.iio_system.specs.Standing.{CanCapture, Makes, RiseBy, step_state};

use crate::lines::{push_clock, push_gave, push_handle, push_poll, push_sense, push_unplug};
use iio_base::Mem;
use iio_bench::Bench;
use iio_core::Became;
use iio_device::Plug;
use iio_sensor::Sensor;
use iio_trigger::Polled;

/// `clock T`: sets the clock.
pub(crate) fn set_clock(bench: &mut Bench, t: i64, out: &mut Vec<u8>) -> Result<(), Mem>
    ensures front { front_of bench.new ≡ front_of bench.old }
    ensures makes { OnOk result ((cs : List (Connection Seat)) → Makes ⟦<Plug as Sensor>⟧.driver (SetClock t)
        (step_state bench.old cs out.old.items) (step_state bench.new cs out.new.items)) }
    ensures captures { RiseBy 32 (captures_of bench.old) (captures_of bench.new) }
{
    bench.set_clock(t);
    push_clock(out, t)
}

/// `unplug DEVICE`: unplugs a device.
pub(crate) fn unplug(bench: &mut Bench, dev: u32, out: &mut Vec<u8>) -> Result<(), Mem>
    requires { dev < length (front_of bench.old).devices }
    ensures front { front_of bench.new ≡ front_of bench.old }
    ensures makes { OnOk result ((cs : List (Connection Seat)) → Makes ⟦<Plug as Sensor>⟧.driver (Unplug dev)
        (step_state bench.old cs out.old.items) (step_state bench.new cs out.new.items)) }
    ensures captures { RiseBy 32 (captures_of bench.old) (captures_of bench.new) }
{
    let was_plugged = bench.unplug(dev);
    push_unplug(out, bench.name_of_device(dev), was_plugged)
}

/// `sense DEVICE T`: looks at a device's thresholds.
#[inline(never)]
pub(crate) fn sense(bench: &mut Bench, dev: u32, t: i64, out: &mut Vec<u8>) -> Result<(), Mem>
    requires { dev < length (front_of bench.old).devices }
    ensures front { front_of bench.new ≡ front_of bench.old }
    ensures makes { OnOk result ((cs : List (Connection Seat)) → Makes ⟦<Plug as Sensor>⟧.driver (Sense dev t)
        (step_state bench.old cs out.old.items) (step_state bench.new cs out.new.items)) }
    ensures captures { RiseBy 32 (captures_of bench.old) (captures_of bench.new) }
{
    let sensed = bench.sense(dev, t);
    push_sense(out, bench.name_of_device(dev), sensed)
}

/// `poll TRIGGER T`: polls a trigger.
#[inline(never)]
pub(crate) fn poll(bench: &mut Bench, trigger: u32, t: i64, out: &mut Vec<u8>) -> Result<(), Mem>
    requires { trigger < length (front_of bench.old).triggers }
    ensures front { front_of bench.new ≡ front_of bench.old }
    ensures makes { OnOk result ((cs : List (Connection Seat)) → Makes ⟦<Plug as Sensor>⟧.driver (Poll trigger t)
        (step_state bench.old cs out.old.items) (step_state bench.new cs out.new.items)) }
    ensures captures { RiseBy 32 (captures_of bench.old) (captures_of bench.new) }
{
    let polled = bench.poll(trigger, t);
    push_poll(out, bench.name_of_trigger(trigger), polled)
}

// Appends the line of an entry that was handled.
#[inline(always)]
fn push_became(
    bench: &Bench,
    trigger: u32,
    dev: u32,
    became: Option<Became>,
    out: &mut Vec<u8>,
) -> Result<(), Mem>
    requires trigger { trigger < length (front_of bench.now).triggers }
    requires dev { dev < length (front_of bench.now).devices }
    ensures { OnOk result (out.new.items ≡ out.old.items ++ printed (codes "handle" ∷ trigger_name (front_of bench.now) trigger
        ∷ device_name (front_of bench.now) dev ∷ became_word became (room_at bench.now dev) ∷ [])) }
{
    let trigger = bench.name_of_trigger(trigger);
    let device = bench.name_of_device(dev);
    match became {
        None => push_handle(out, trigger, device, None),
        Some(Became::Asked(handled)) => push_handle(out, trigger, device, Some(handled)),
        Some(Became::Gave(gave)) => push_gave(out, trigger, device, gave, bench.room_of(dev)),
    }
}

/// `handle TRIGGER DEVICE`: handles the entry that a device has at a trigger.
#[inline(never)]
pub(crate) fn handle(
    bench: &mut Bench,
    trigger: u32,
    dev: u32,
    out: &mut Vec<u8>,
) -> Result<(), Mem>
    requires trigger { trigger < length (front_of bench.old).triggers }
    requires dev { dev < length (front_of bench.old).devices }
    requires captures { CanCapture (captures_of bench.old) }
    ensures front { front_of bench.new ≡ front_of bench.old }
    ensures makes { OnOk result ((cs : List (Connection Seat)) → Makes ⟦<Plug as Sensor>⟧.driver (Handle trigger dev)
        (step_state bench.old cs out.old.items) (step_state bench.new cs out.new.items)) }
    ensures captures { RiseBy 32 (captures_of bench.old) (captures_of bench.new) }
{
    let became = bench.handle(trigger, dev);
    push_became(bench, trigger, dev, became, out)
}

// Handles the entry that a device has at a trigger, if it has one.
fn handle_one(bench: &mut Bench, trigger: u32, dev: u32, out: &mut Vec<u8>) -> Result<(), Mem>
    requires trigger { trigger < length (front_of bench.old).triggers }
    requires dev { dev < length (front_of bench.old).devices }
    requires captures { CanGoOn (captures_of bench.old) }
    ensures front { front_of bench.new ≡ front_of bench.old }
    ensures makes { OnOk result ((cs : List (Connection Seat)) → HandlesOne ⟦<Plug as Sensor>⟧.driver trigger dev
        (step_state bench.old cs out.old.items) (step_state bench.new cs out.new.items)) }
    ensures captures { RiseBy 1 (captures_of bench.old) (captures_of bench.new) }
{
    match bench.handle(trigger, dev) {
        None => Ok(()),
        Some(became) => push_became(bench, trigger, dev, Some(became), out),
    }
}

// Handles each entry at a trigger, in the order of devices.
fn handle_all(bench: &mut Bench, trigger: u32, out: &mut Vec<u8>) -> Result<(), Mem>
    requires trigger { trigger < length (front_of bench.old).triggers }
    requires captures { CanCapture (captures_of bench.old) }
    ensures front { front_of bench.new ≡ front_of bench.old }
    ensures makes { OnOk result ((cs : List (Connection Seat)) → HandlesAll ⟦<Plug as Sensor>⟧.driver trigger (length (front_of bench.old).devices)
        (step_state bench.old cs out.old.items) (step_state bench.new cs out.new.items)) }
    ensures captures { RiseBy 32 (captures_of bench.old) (captures_of bench.new) }
{
    let devices = bench.device_count();
    for _turn in 0..devices {
        let Some(dev) = bench.first_due(trigger) else {
            return Ok(());
        };
        // There is no entry for a device that isn't there.
        if dev >= devices {
            return Ok(());
        }
        handle_one(bench, trigger, dev, out)?;
    }
    Ok(())
}

/// `fire TRIGGER T`: polls a trigger, and if the poll is accepted, handles each entry that it made, in the order of devices.
#[inline(never)]
pub(crate) fn fire(bench: &mut Bench, trigger: u32, t: i64, out: &mut Vec<u8>) -> Result<(), Mem>
    requires trigger { trigger < length (front_of bench.old).triggers }
    requires captures { CanCapture (captures_of bench.old) }
    ensures front { front_of bench.new ≡ front_of bench.old }
    ensures makes { OnOk result ((cs : List (Connection Seat)) → Makes ⟦<Plug as Sensor>⟧.driver (Fire trigger t)
        (step_state bench.old cs out.old.items) (step_state bench.new cs out.new.items)) }
    ensures captures { RiseBy 32 (captures_of bench.old) (captures_of bench.new) }
{
    let polled = bench.poll(trigger, t);
    push_poll(out, bench.name_of_trigger(trigger), polled)?;
    match polled {
        Polled::Missed(_) => Ok(()),
        Polled::Accepted(_) => handle_all(bench, trigger, out),
    }
}
