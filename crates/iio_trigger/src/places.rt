//! The place of a device among rows that are in the order of devices.

ghost use Rattle.std.specs.Prelude.{◌≡◌, ◌≤◌, [], length, MatchOption, MatchResult};
ghost use Rattle.iio_trigger.specs.declared.limits.TheConstants.{MAX_PLACES};
ghost use Rattle.iio_trigger.specs.Trigger.{entries_at, InOrder, entry_dev, place_dev};
ghost use Rattle.iio_trigger.specs.Rank.{AllOther, StandsAt, WouldStandAt, rank};

use crate::limits::MAX_PLACES;
use crate::rows::{Entry, Place};
use arrayvec::ArrayVec;

// The index of the device's place, or else where it would be inserted.
pub fn find_place(places: &[Place], dev: u32) -> Result<usize, usize>
    requires { InOrder place_dev 0 places.now }
    ensures { MatchResult result
        (StandsAt place_dev dev places.now)
        (WouldStandAt place_dev dev places.now) }
{
    let at = place_index(places, dev);
    if at < places.len() && places[at].dev == dev {
        Ok(at)
    } else {
        Err(at)
    }
}

// The index of the device's entry, if it has one.
pub fn find_entry(entries: &[Entry], dev: u32) -> Option<usize>
    requires { InOrder entry_dev 0 entries.now }
    ensures { MatchOption result
        (AllOther entry_dev dev entries.now)
        (StandsAt entry_dev dev entries.now) }
{
    let at = entry_index(entries, dev);
    if at < entries.len() && entries[at].dev == dev {
        Some(at)
    } else {
        None
    }
}

// The number of places of devices before this one.
fn place_index(places: &[Place], dev: u32) -> usize
    ensures { result ≡ rank place_dev dev places.now }
{
    places.iter().take_while(|place| place.dev < dev).count()
}

// The number of entries of devices before this one.
fn entry_index(entries: &[Entry], dev: u32) -> usize
    ensures { result ≡ rank entry_dev dev entries.now }
{
    entries.iter().take_while(|entry| entry.dev < dev).count()
}

// Makes an entry for each place; none may be outstanding.
pub fn add_entries(entries: &mut ArrayVec<Entry, MAX_PLACES>, places: &[Place], t: i64)
    requires none { entries.old.items ≡ [] }
    requires room { length places.now ≤ MAX_PLACES }
    ensures { entries.new.items ≡ entries_at t places.now }
{
    for place in places {
        entries.push(Entry {
            dev: place.dev,
            attachment: place.attachment,
            t,
            in_hand: false,
        });
    }
}
