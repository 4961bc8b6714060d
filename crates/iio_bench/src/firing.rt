//! What happens at a bench besides the calls of connections: polls, the clock, looks at thresholds, unpluggings.

ghost use Rattle.std.specs.Prelude.{◌≡◌, ◌<◌, ◌&&◌, not, ⊤, length};
ghost use Rattle.iio_desc.specs.Kind.{is_average};
ghost use Rattle.iio_device.specs.Site.{at_place};
ghost use Rattle.iio_core.specs.Front.{kind_at, shape_at};
ghost use Rattle.iio_core.specs.Machine.{is_plugged, station_at};
ghost use Rattle.iio_core.specs.Moves.{entry_in, kind_sensed, machine_after_entry, machine_after_look, machine_after_poll, machine_after_unplugging, polled_answer, taken_off};
ghost use Rattle.iio_core.specs.Trigger.{entries_at, first_due};
ghost use Rattle.iio_bench.specs.Bench.{captures_of, front_of, has_ended, machine_of, room_at, triggers_of};
ghost use Rattle.iio_kinds.specs.Handling.{IsRoom, counted, entry_became, unless_ended};

use crate::bench::Bench;
use crate::together::{gather, unplug_all};
use iio_core::Became;
use iio_device::{Plug, Sensed};
use iio_sensor::Sensor;
use iio_trigger::Polled;

impl Bench {
    /// Sets the clock.
    pub fn set_clock(&mut self, t: i64)
        requires { ⊤ }
        ensures front { front_of self.new ≡ front_of self.old }
        ensures told { machine_of ⟦<Plug as Sensor>⟧.driver self.new ≡ record (machine_of ⟦<Plug as Sensor>⟧.driver self.old) { clock = t } }
        ensures captures { captures_of self.new ≡ captures_of self.old }
    {
        self.clock = t;
    }

    /// Polls a trigger at the moment `t`: makes an entry for each attached device if none is outstanding; otherwise the poll is
    /// missed.
    pub fn poll(&mut self, trigger: u32, t: i64) -> Polled
        requires { trigger < length (front_of self.old).triggers }
        ensures front { front_of self.new ≡ front_of self.old }
        ensures told { machine_of ⟦<Plug as Sensor>⟧.driver self.new ≡ machine_after_poll trigger t (machine_of ⟦<Plug as Sensor>⟧.driver self.old) }
        ensures captures { captures_of self.new ≡ captures_of self.old }
        ensures answer { result ≡ polled_answer trigger t (machine_of ⟦<Plug as Sensor>⟧.driver self.old) }
    {
        self.triggers[trigger as usize].poll(t)
    }

    /// Returns the device of the first entry at a trigger, in the order of devices; `None` exactly if there is no entry.
    pub fn first_due(&self, trigger: u32) -> Option<u32>
        requires { trigger < length (front_of self.now).triggers }
        ensures { result ≡ first_due (entries_at (triggers_of self.now) trigger) }
    {
        self.triggers[trigger as usize].first()
    }

    /// Handles the entry that a device has at a trigger, and removes it: if the entry is current, an input device is asked, or
    /// an output device is given the next scan. Each averaging device takes a capture of its base. Returns `None`, and changes
    /// nothing, exactly if there is no entry. A device that has made 2^64 - 1 captures isn't asked.
    #[inline(always)]
    pub fn handle(&mut self, trigger: u32, dev: u32) -> Option<Became>
        requires trigger { trigger < length (front_of self.old).triggers }
        requires dev { dev < length (front_of self.old).devices }
        ensures front { front_of self.new ≡ front_of self.old }
        ensures told { machine_of ⟦<Plug as Sensor>⟧.driver self.new
            ≡ taken_off trigger dev (unless_ended (has_ended self.old dev) (machine_of ⟦<Plug as Sensor>⟧.driver self.old)
            (machine_after_entry (front_of self.old) (entry_in trigger dev (machine_of ⟦<Plug as Sensor>⟧.driver self.old)) dev
            (machine_of ⟦<Plug as Sensor>⟧.driver self.old))) }
        ensures captures { captures_of self.new ≡ at_place dev (counted result) (captures_of self.old) }
        ensures answer { result ≡ entry_became (kind_at (front_of self.old) dev) (entry_in trigger dev (machine_of ⟦<Plug as Sensor>⟧.driver self.old))
            (has_ended self.old dev) (station_at (machine_of ⟦<Plug as Sensor>⟧.driver self.old) dev) }
        ensures room { IsRoom result (station_at (machine_of ⟦<Plug as Sensor>⟧.driver self.old) dev).members (room_at self.new dev) }
    {
        let became = self.devices[dev as usize].handle(&mut self.triggers[trigger as usize], dev);
        gather(&mut self.devices, self.first_average, dev, became);
        became
    }

    /// Looks at a device's thresholds at the moment `t`.
    pub fn sense(&mut self, dev: u32, t: i64) -> Sensed
        requires { dev < length (front_of self.old).devices }
        ensures front { front_of self.new ≡ front_of self.old }
        ensures told { machine_of ⟦<Plug as Sensor>⟧.driver self.new
            ≡ machine_after_look (front_of self.old) dev t (machine_of ⟦<Plug as Sensor>⟧.driver self.old) }
        ensures captures { captures_of self.new ≡ captures_of self.old }
        ensures answer { result ≡ kind_sensed (kind_at (front_of self.old) dev) (shape_at (front_of self.old) dev) t
            (station_at (machine_of ⟦<Plug as Sensor>⟧.driver self.old) dev) }
    {
        self.devices[dev as usize].sense(t)
    }

    /// Unplugs a device, and the averaging devices over it. Returns whether the device was plugged. An averaging device isn't
    /// unplugged by itself: for one, nothing changes, and `false` is returned.
    pub fn unplug(&mut self, dev: u32) -> bool
        requires { dev < length (front_of self.old).devices }
        ensures front { front_of self.new ≡ front_of self.old }
        ensures told { machine_of ⟦<Plug as Sensor>⟧.driver self.new
            ≡ machine_after_unplugging (front_of self.old) dev (machine_of ⟦<Plug as Sensor>⟧.driver self.old) }
        ensures captures { captures_of self.new ≡ captures_of self.old }
        ensures answer { result ≡ (is_plugged (machine_of ⟦<Plug as Sensor>⟧.driver self.old) dev && not (is_average (kind_at (front_of self.old) dev))) }
    {
        if self.devices[dev as usize].is_average() {
            return false;
        }
        let was_plugged = self.devices[dev as usize].plugged();
        unplug_all(&mut self.devices, dev);
        was_plugged
    }
}
