//! The calls that ask a device's sensor: the handling of a trigger's entry, a READ of `raw`, a look at the thresholds.

ghost use Rattle.std.specs.Prelude.{◌≡◌, ◌==◌, ◌&&◌, ◌-◌, ◌^◌, ◌<◌, not, true, ⊤, length};
ghost use Rattle.iio_device.specs.Sensing.{begun, channels_sensed, sense_result};
ghost use Rattle.iio_device.specs.Site.{is_current};
ghost use Rattle.iio_device.specs.Device.{Handles, after_raw, after_sense, raw_answer, sense_answer, view_of};

use crate::device::Fitted;
use crate::iio_dev::IioDev;
use crate::plug::Plug;
use crate::sensing::sense_all;
use iio_kfifo::Tail;
use iio_sensor::{Fault, Sensor};
use iio_trigger::Due;

/// What became of a trigger's entry.
#[derive(Clone, Copy, Debug, PartialEq, Eq)]
pub enum Handled {
    /// The sensor was asked, and this number of members were offered their scans.
    Captured(u32),
    /// The sensor wasn't asked.
    Idle,
    /// The sensor's ask failed.
    Fault,
}

/// Why a sample isn't given.
#[derive(Clone, Copy, Debug)]
pub enum RawFault {
    /// The device is unplugged.
    Gone,
    /// The device has a member.
    Busy,
    /// The sensor's ask failed.
    Fault,
}

/// What became of a look at the thresholds.
#[derive(Clone, Copy, Debug)]
pub enum Sensed {
    /// This number of events fired.
    Fired(u32),
    /// An ask failed. What was sensed before it stays.
    Fault,
    /// The device is unplugged.
    Gone,
}

impl<Q: Tail> IioDev<Q> {
    ghost use Rattle.iio_device.specs.Standing.{standing_of};

    // Whether the entry is this device's and current, and there may be another capture.
    fn is_due(&self, due: &Due) -> bool
        ensures value { result ≡ (due.now.dev == self.now.number && is_current due.now.attachment self.now.attachment self.now.roster.members.items true
            && not (self.now.roster.captures == 2 ^ 64 - 1)) }
        ensures fewer { result ≡ true → self.now.roster.captures < 2 ^ 64 - 1 }
    {
        due.dev() == self.number
            && due.attachment() == self.attachment
            && !self.roster.members.is_empty()
            && self.roster.captures != u64::MAX
    }

    // Looks at the thresholds, asking a driver for the values.
    fn sense_by<P: Sensor>(&mut self, plug: &mut P, t: i64) -> Result<u32, Fault>
        ensures driver { P.driver plug.new
            ≡ (channels_sensed self.old.roster.shape t (length self.old.roster.shape.channels) (begun (P.driver plug.old) self.old.stored.monitor)).driver }
        ensures monitor { self.new.stored.monitor
            ≡ (channels_sensed self.old.roster.shape t (length self.old.roster.shape.channels) (begun (P.driver plug.old) self.old.stored.monitor)).monitor }
        ensures answer { result ≡ sense_result
            (channels_sensed self.old.roster.shape t (length self.old.roster.shape.channels) (begun (P.driver plug.old) self.old.stored.monitor)) }
        ensures stored { (self.new.stored.sampling_frequency ≡ self.old.stored.sampling_frequency) × (self.new.stored.values ≡ self.old.stored.values) }
        ensures rest { (standing_of self.new.roster ≡ standing_of self.old.roster) × (self.new.name ≡ self.old.name) × (self.new.number ≡ self.old.number)
            × (self.new.trigger ≡ self.old.trigger) × (self.new.attachment ≡ self.old.attachment) × (self.new.totals ≡ self.old.totals) }
    {
        let stored = &mut self.stored;
        sense_all(plug, &mut stored.monitor, &self.roster.shape, t)
    }
}

impl<Q: Tail> Fitted<IioDev<Q>> {
    /// Handles a trigger's entry: if it is due, the sensor is asked once, and each member is offered its own scan, once.
    /// Returns `Idle`, with no ask, if the entry is another device's or of an earlier attachment, there is no member, the
    /// device is unplugged, or it has had 2^64 - 1 captures. Returns `Fault` if the ask failed; then only the sensor has
    /// changed.
    pub fn handle(&mut self, due: &Due) -> Handled
        requires { ⊤ }
        ensures { Handles Q.Tail due.now result (view_of ⟦<Plug as Sensor>⟧.driver self.old) (view_of ⟦<Plug as Sensor>⟧.driver self.new) }
    {
        let Some(plug) = &mut self.plug else {
            return Handled::Idle;
        };
        if !self.core.is_due(due) {
            return Handled::Idle;
        }
        match self.core.roster.capture_by(plug, due.t()) {
            Ok(members) => Handled::Captured(members as u32),
            Err(_) => Handled::Fault,
        }
    }

    /// Returns a sample of channel `c` at the moment `t`: the value of its element 0. The sensor is asked once, but isn't asked
    /// if the device is unplugged (`Gone`) or has a member (`Busy`).
    pub fn raw(&mut self, c: u32, t: i64) -> Result<i64, RawFault>
        requires { c < length self.old.core.roster.shape.channels }
        ensures answer { result ≡ raw_answer c t (view_of ⟦<Plug as Sensor>⟧.driver self.old) }
        ensures state { view_of ⟦<Plug as Sensor>⟧.driver self.new ≡ after_raw (view_of ⟦<Plug as Sensor>⟧.driver self.old) }
    {
        let Some(plug) = &mut self.plug else {
            return Err(RawFault::Gone);
        };
        if !self.core.roster.members.is_empty() {
            return Err(RawFault::Busy);
        }
        plug.raw(&self.core.roster.shape, c, t)
            .map_err(|_| RawFault::Fault)
    }

    /// Looks at the thresholds: asks the sensor for each channel that has one enabled, in their order, until an ask fails.
    pub fn sense(&mut self, t: i64) -> Sensed
        requires { ⊤ }
        ensures answer { result ≡ sense_answer t (view_of ⟦<Plug as Sensor>⟧.driver self.old) }
        ensures state { view_of ⟦<Plug as Sensor>⟧.driver self.new ≡ after_sense t (view_of ⟦<Plug as Sensor>⟧.driver self.old) }
    {
        let Some(plug) = &mut self.plug else {
            return Sensed::Gone;
        };
        match self.core.sense_by(plug, t) {
            Ok(count) => Sensed::Fired(count),
            Err(_) => Sensed::Fault,
        }
    }
}
