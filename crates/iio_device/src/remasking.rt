//! The exchange of a member's mask for another one.

ghost use Rattle.std.specs.Prelude.{◌≡◌, ◌+◌};
ghost use Rattle.iio_base.specs.Refusals.{first_refusal, unless_refused};
ghost use Rattle.iio_layout.specs.Layout.{scan_size};
ghost use Rattle.iio_device.specs.Device.{RemasksDevice, remask_faults, view_of};

use crate::device::Fitted;
use crate::iio_dev::IioDev;
use crate::joining::is_bad_mask;
use crate::membership::Member;
use crate::plug::Plug;
use crate::roster::{RemaskFault, RemaskRefused};
use iio_kfifo::Tail;
use iio_mask::Mask;
use iio_sensor::Sensor;

impl<Q: Tail> Fitted<IioDev<Q>> {
    /// Whether a member could get that mask in place of its own. The refusals, in their order: `Gone` if the device is
    /// unplugged; `NotLive` if the member isn't live; `BadMask` if the mask has a bit at or above the number of channels, or no
    /// data channel; `NoUnion` if no mask that the sensor can be asked under serves the other members and this one. It is never
    /// `Mem`.
    pub fn may_remask(&self, member: &Member, mask: Mask) -> Result<(), RemaskFault>
        ensures { result ≡ unless_refused tt
            (first_refusal (remask_faults (view_of ⟦<Plug as Sensor>⟧.driver self.now) member.now.number mask.bits)) }
    {
        if self.plug.is_none() {
            return Err(RemaskFault::Gone);
        }
        if !self.core.roster.is_live(member.number) {
            return Err(RemaskFault::NotLive);
        }
        if is_bad_mask(self.shape(), mask) {
            return Err(RemaskFault::BadMask);
        }
        if self.core.roster.active_under(member.number, mask).is_none() {
            return Err(RemaskFault::NoUnion);
        }
        Ok(())
    }

    /// Gives a member another mask and another queue's end: it begins anew, and the next capture is the first that this end
    /// takes or loses. The member keeps its number and its place among the members. Returns the old queue's end; what that lost
    /// counts in the device's totals. The refusals are those of `may_remask`, and then `Mem`; a refusal gives the new end back
    /// and changes nothing. All memory that the exchange needs is allocated before anything changes.
    pub fn remask(&mut self, member: &Member, mask: Mask, tail: Q) -> Result<Q, RemaskRefused<Q>>
        requires size { Q.size tail ≡ scan_size self.old.core.roster.shape mask.bits }
        requires fresh { Q.taken tail + Q.lost tail ≡ 0 }
        ensures { RemasksDevice Q.Tail member.now.number mask tail result (view_of ⟦<Plug as Sensor>⟧.driver self.old)
            (view_of ⟦<Plug as Sensor>⟧.driver self.new) }
    {
        if let Err(fault) = self.may_remask(member, mask) {
            return Err(RemaskRefused { fault, tail });
        }
        let before = self.core.roster.remask(member.number, mask, tail)?;
        self.core.totals.lose(before.lost());
        Ok(before)
    }
}
