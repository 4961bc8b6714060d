//! The steps of a script.

use crate::quoted::Quoted;
use iio_attr::Name;

/// One step of a script. Triggers and devices are given by their numbers in the description, moments in the script's own unit.
#[derive(Debug, Drop)]
pub enum Step {
    /// `NAME "bytes"`: the connection of that name is fed these bytes.
    Feed(Name, Quoted),
    /// `fire TRIGGER T`: a poll, and if it is accepted, the handling of each entry that it made.
    Fire(u32, i64),
    /// `poll TRIGGER T`.
    Poll(u32, i64),
    /// `handle TRIGGER DEVICE`: the device's outstanding entry at the trigger is handled.
    Handle(u32, u32),
    /// `sense DEVICE T`: the device's thresholds are looked at.
    Sense(u32, i64),
    /// `clock T`: sets the moment at which `raw` is read.
    Clock(i64),
    /// `drop NAME`: the connection of that name is lost.
    Drop(Name),
    /// `unplug DEVICE`.
    Unplug(u32),
}
