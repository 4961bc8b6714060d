//! A trigger: its places, the entries that its polls made, and the polls that it missed.
//!
//! A device takes a place, under the number of its attachment. A poll makes one entry for each device that holds a place, and
//! is missed while an entry is outstanding. An entry stays outstanding until it is done, even if its device has left its place
//! meanwhile (kernel, driver-api/iio, "Triggers"). Places and the count of missed polls are this project's own.
#![tactic(auto)]

ghost use Rattle.std.specs.Prelude.{◌≡◌, ◌≤◌, ◌<◌, ◌↔◌, [], false, true, length, IsTrue, IsErr, OnOk, OnErr, Contains};
ghost use Rattle.std.specs.Bool.{OnTrue, OnFalse};
ghost use Rattle.iio_trigger.specs.declared.limits.TheConstants.{MAX_PLACES};

mod limits;
mod places;
mod rows;

pub use crate::limits::MAX_PLACES;
use crate::places::{add_entries, find_entry, find_place};
use crate::rows::{Entry, Place};
use arrayvec::ArrayVec;
use std::error::Error;
use std::fmt;
use std::marker::Model;

/// All places are taken by other devices.
#[derive(Clone, Copy, Debug, PartialEq, Eq)]
pub struct NoPlace;

impl fmt::Display for NoPlace {
    fn fmt<W: fmt::Write>(&self, f: &mut fmt::Formatter<W>) -> fmt::Result {
        write!(f, "no free place at the trigger")
    }
}

impl Error for NoPlace {}

/// What became of a poll.
#[derive(Clone, Copy, Debug, PartialEq, Eq)]
pub enum Polled {
    /// The poll made this number of entries.
    Accepted(u32),
    /// An entry was outstanding. This is the number of polls that have been missed, with this one.
    Missed(u64),
}

/// An entry that was handed out. It can't be dropped: `Trigger::done` takes it.
#[derive(Debug)]
pub struct Due {
    entry: Entry,
}

impl Model for Due {
    ghost use Rattle.iio_trigger.specs.Trigger.{Handed};

    ghost Value = { Handed };

    ghost view = { λ d. record { dev = d.entry.dev; attachment = d.entry.attachment; t = d.entry.t } };
}

impl Due {
    /// The device that is to capture.
    pub fn dev(&self) -> u32
        ensures { result ≡ self.now.dev }
    {
        self.entry.dev
    }

    /// The number of the device's attachment when the poll came.
    pub fn attachment(&self) -> u64
        ensures { result ≡ self.now.attachment }
    {
        self.entry.attachment
    }

    /// The moment of the poll, in nanoseconds.
    pub fn t(&self) -> i64
        ensures { result ≡ self.now.t }
    {
        self.entry.t
    }
}

/// A trigger with at most `MAX_PLACES` places. None of its calls allocates memory.
#[derive(Drop)]
pub struct Trigger {
    places: u8,
    attached: ArrayVec<Place, MAX_PLACES>,
    entries: ArrayVec<Entry, MAX_PLACES>,
    missed: u64,
}

impl Model for Trigger {
    ghost use Rattle.std.specs.Prelude.{◌≤◌, length};
    ghost use Rattle.iio_trigger.specs.Trigger.{State, InOrder, place_dev, entry_dev};
    ghost use Rattle.iio_trigger.specs.declared.limits.TheConstants.{MAX_PLACES};

    ghost Value = { State };

    ghost view = { λ s. record { places = s.places; attached = s.attached.items; outstanding = s.entries.items; missed = s.missed } };

    ghost invariant = { λ s. (length s.attached.items ≤ s.places) × (s.places ≤ MAX_PLACES)
        × InOrder place_dev 0 s.attached.items × InOrder entry_dev 0 s.entries.items };
}

impl Trigger {
    ghost use Rattle.iio_trigger.specs.Trigger.{IsSound, first_dev, holds_place, with_place, without_place, due_of, with_in_hand, without_entry, Polls};
    /// Makes a trigger with this number of places. No place is taken, no entry is outstanding, no poll was missed.
    pub fn new(places: u8) -> Trigger
        requires some { 1 ≤ places }
        requires most { places ≤ MAX_PLACES }
        ensures { result ≡ record {
          places = places;
          attached = [];
          outstanding = [];
          missed = 0;
        } }
    {
        Trigger {
            places,
            attached: ArrayVec::new(),
            entries: ArrayVec::new(),
            missed: 0,
        }
    }

    /// Gives the device a place under the number of its attachment. If it already has a place, that gets the new number.
    /// `NoPlace` exactly if it has none and all are taken.
    pub fn attach(&mut self, dev: u32, attachment: u64) -> Result<(), NoPlace>
        ensures refused { IsErr result
            ↔ ((holds_place dev self.old.attached ≡ false) × (length self.old.attached ≡ self.old.places)) }
        ensures ok { OnOk result (self.new ≡ record self.old {
          attached = with_place dev attachment self.old.attached;
        }) }
        ensures err { OnErr result (self.new ≡ self.old) }
    {
        let place = Place { dev, attachment };
        match find_place(self.attached.as_slice(), dev) {
            Ok(at) => self.attached[at] = place,
            Err(at) => {
                if self.attached.len() == self.places as usize {
                    return Err(NoPlace);
                }
                self.attached.insert(at, place);
            }
        }
        Ok(())
    }

    /// Whether a place is free.
    pub fn free(&self) -> bool
        ensures free { IsTrue result ↔ (length self.now.attached < self.now.places) }
        ensures sound { IsSound self.now }
    {
        self.attached.len() < self.places as usize
    }

    /// Whether the device holds a place.
    pub fn holds(&self, dev: u32) -> bool
        ensures holds { result ≡ holds_place dev self.now.attached }
        ensures sound { IsSound self.now }
    {
        self.attached.iter().any(|place| place.dev == dev)
    }

    /// Frees the device's place, and returns whether it held one. Its entry stays outstanding.
    pub fn detach(&mut self, dev: u32) -> bool
        ensures held { result ≡ holds_place dev self.old.attached }
        ensures after { self.new ≡ record self.old {
          attached = without_place dev self.old.attached;
        } }
    {
        match find_place(self.attached.as_slice(), dev) {
            Ok(at) => {
                self.attached.remove(at);
                true
            }
            Err(_) => false,
        }
    }

    /// Polls the trigger at the moment `t`, in nanoseconds: makes an entry for each device that holds a place, or counts a
    /// missed poll if an entry is outstanding.
    pub fn poll(&mut self, t: i64) -> Polled
        ensures { Polls self.old t result self.new }
    {
        if !self.entries.is_empty() {
            self.missed = self.missed.saturating_add(1);
            return Polled::Missed(self.missed);
        }
        add_entries(&mut self.entries, self.attached.as_slice(), t);
        Polled::Accepted(self.attached.len() as u32)
    }

    /// Returns the device of the first outstanding entry, in the order of devices; `None` exactly if there is none.
    pub fn first(&self) -> Option<u32>
        ensures { result ≡ first_dev self.now.outstanding }
    {
        if self.entries.is_empty() {
            return None;
        }
        Some(self.entries[0].dev)
    }

    /// Hands out the device's entry, if it has one that isn't in hand already. The entry stays outstanding.
    pub fn due(&mut self, dev: u32) -> Option<Due>
        ensures due { result ≡ due_of dev self.old.outstanding }
        ensures after { self.new ≡ record self.old {
          outstanding = with_in_hand dev self.old.outstanding;
        } }
    {
        let at = find_entry(self.entries.as_slice(), dev)?;
        let entry = self.entries[at];
        if entry.in_hand {
            return None;
        }
        self.entries[at].in_hand = true;
        Some(Due { entry })
    }

    /// Removes the entry that was handed out, and returns whether it was there, in hand.
    pub fn done(&mut self, due: Due) -> bool
        ensures found { IsTrue result ↔ Contains self.old.outstanding (record {
          dev = due.dev;
          attachment = due.attachment;
          t = due.t;
          in_hand = true;
        }) }
        ensures taken { OnTrue result (self.new ≡ record self.old {
          outstanding = without_entry due.dev self.old.outstanding;
        }) }
        ensures kept { OnFalse result (self.new ≡ self.old) }
    {
        let Due { entry: handed } = due;
        let Some(at) = find_entry(self.entries.as_slice(), handed.dev) else {
            return false;
        };
        let entry = self.entries[at];
        if !entry.in_hand || entry.attachment != handed.attachment || entry.t != handed.t {
            return false;
        }
        self.entries.remove(at);
        true
    }
}
