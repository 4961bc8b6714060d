//! How members join and leave.

ghost use Rattle.std.specs.Prelude.{◌≡◌, ◌+◌, ◌-◌, ◌^◌, ◌==◌, ◌&&◌, ◌||◌, ◌≤◌, ◌<◌, nat_lt, ⊤, true, false, is_some, Some, None};
ghost use Rattle.std.specs.Option.{option_copied};
ghost use Rattle.iio_base.specs.Refusals.{first_refusal, unless_refused};
ghost use Rattle.iio_layout.specs.Active.{has_data};
ghost use Rattle.iio_layout.specs.Layout.{scan_size};
ghost use Rattle.iio_trigger.specs.Trigger.{with_place};
ghost use Rattle.iio_device.specs.Device.{JoinsDevice, LeavesDevice, is_bad_mask, is_full, has_no_place, join_faults, view_of};

use crate::device::Fitted;
use crate::iio_dev::IioDev;
use crate::membership::Member;
use crate::plug::Plug;
use crate::roster::{JoinFault, JoinRefused};
use iio_kfifo::Tail;
use iio_layout::{Shape, has_data};
use iio_mask::Mask;
use iio_sensor::Sensor;
use iio_trigger::Trigger;

// Whether all bits of a mask are below that number of channels.
fn is_below(mask: Mask, channels: u32) -> bool
    requires { channels ≤ 64 }
    ensures { result ≡ nat_lt mask.bits (2 ^ channels) }
{
    channels == 64 || mask.bits < 1 << channels
}

/// Whether a mask has a bit at or above the number of channels, or no data channel.
pub(crate) fn is_bad_mask(shape: &Shape, mask: Mask) -> bool
    ensures { result ≡ is_bad_mask shape.now mask.bits }
{
    !is_below(mask, shape.count()) || !has_data(shape, mask)
}

// Whether a trigger has no place for the device of that number.
fn has_no_place(number: u32, trigger: &Trigger) -> bool
    ensures { result ≡ has_no_place number trigger.now }
{
    !trigger.holds(number) && !trigger.free()
}

impl<Q: Tail> IioDev<Q> {
    // Begins an attachment: takes a place at the trigger.
    fn attach(&mut self, trigger: &mut Trigger)
        requires fewer { self.old.attachment < self.old.roster.next }
        requires fits { self.old.attachment < 2 ^ 64 - 1 }
        requires place { has_no_place self.old.number trigger.old ≡ false }
        ensures trigger { trigger.new ≡ record trigger.old { attached = with_place self.old.number (self.old.attachment + 1) trigger.old.attached } }
        ensures attachment { self.new.attachment ≡ self.old.attachment + 1 }
        ensures same { (self.new.roster ≡ self.old.roster) × (self.new.name ≡ self.old.name) × (self.new.number ≡ self.old.number)
            × (self.new.trigger ≡ self.old.trigger) × (self.new.stored ≡ self.old.stored) × (self.new.totals ≡ self.old.totals) }
    {
        self.attachment += 1;
        let _place = trigger.attach(self.number, self.attachment);
    }
}

impl<Q: Tail> Fitted<IioDev<Q>> {
    /// Whether a member could join under that mask. The refusals, in their order: `Gone` if the device is unplugged; `BadMask`
    /// if the mask has a bit at or above the number of channels, or no data channel; `NoTrigger` if the device has none;
    /// `NoUnion` if no mask that the sensor can be asked under serves all members; `NoPlace` if it would be the first member
    /// and the trigger has no place, or if 2^64 - 1 members have joined.
    pub fn may_join(&self, mask: Mask, trigger: Option<&Trigger>) -> Result<(), JoinFault>
        requires { is_some trigger ≡ is_some self.now.core.trigger }
        ensures { result ≡ unless_refused tt
            (first_refusal (join_faults (view_of ⟦<Plug as Sensor>⟧.driver self.now) mask.bits (option_copied trigger.entry))) }
    {
        if self.plug.is_none() {
            return Err(JoinFault::Gone);
        }
        if is_bad_mask(self.shape(), mask) {
            return Err(JoinFault::BadMask);
        }
        let Some(trigger) = trigger else {
            return Err(JoinFault::NoTrigger);
        };
        if self.core.roster.active_with(mask).is_none() {
            return Err(JoinFault::NoUnion);
        }
        if self.is_full(trigger) {
            return Err(JoinFault::NoPlace);
        }
        Ok(())
    }

    // Whether there is no place for another member.
    fn is_full(&self, trigger: &Trigger) -> bool
        ensures { result ≡ is_full (view_of ⟦<Plug as Sensor>⟧.driver self.now) (Some trigger.now) }
    {
        self.core.roster.members.is_empty() && has_no_place(self.core.number, trigger)
            || self.core.roster.next == u64::MAX
    }

    /// Adds a member with that mask and that end of its queue: the next capture is its first. The refusals are those of
    /// `may_join`, and then `Mem`; a refusal gives the queue's end back and changes nothing. All memory that the member needs
    /// until it leaves or gets another mask is allocated here.
    pub fn join(
        &mut self,
        mask: Mask,
        tail: Q,
        trigger: &mut Trigger,
    ) -> Result<Member, JoinRefused<Q>>
        requires trigger { is_some self.old.core.trigger ≡ true }
        requires size { Q.size tail ≡ scan_size self.old.core.roster.shape mask.bits }
        requires fresh { Q.taken tail + Q.lost tail ≡ 0 }
        ensures { JoinsDevice mask tail result (view_of ⟦<Plug as Sensor>⟧.driver self.old)
            (view_of ⟦<Plug as Sensor>⟧.driver self.new) trigger.old trigger.new }
    {
        if let Err(fault) = self.may_join(mask, Some(trigger)) {
            return Err(JoinRefused { fault, tail });
        }
        let is_first = self.core.roster.members.is_empty();
        let number = self.core.roster.join(mask, tail)?;
        if !is_first {
            return Ok(Member { number });
        }
        self.core.attach(trigger);
        Ok(Member { number })
    }

    /// Removes a member and returns its queue's end; what it lost counts in the device's totals. Returns `None`, and changes
    /// nothing, exactly if the member isn't live. When the last member leaves, the device's place at the trigger is freed.
    pub fn leave(&mut self, member: Member, trigger: &mut Trigger) -> Option<Q>
        requires { ⊤ }
        ensures { LeavesDevice Q.Tail member.number result (view_of ⟦<Plug as Sensor>⟧.driver self.old)
            (view_of ⟦<Plug as Sensor>⟧.driver self.new) trigger.old trigger.new }
    {
        let Some(tail) = self.core.roster.leave(member.number) else {
            return None;
        };
        self.core.totals.lose(tail.lost());
        if self.core.roster.members.is_empty() {
            trigger.detach(self.core.number);
        }
        Some(tail)
    }
}
