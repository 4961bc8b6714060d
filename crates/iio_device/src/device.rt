//! A device: its members, what the core keeps of it, and its driver.

ghost use Rattle.std.specs.Prelude.{◌≡◌, ◌+◌, ◌-◌, ◌*◌, ◌^◌, ◌≤◌, ◌<◌, ⊤, IfOk, IfSome, All, drop, is_some, length, min, option_map, unwrap_or, vec_capacity};
ghost use Rattle.std.specs.List.{sum_by};
ghost use Rattle.iio_desc.specs.WellFormed.{IsWrite};
ghost use Rattle.iio_desc.specs.declared.limits.TheConstants.{MAX_TRIGGERS};
ghost use Rattle.iio_kfifo.specs.Queue.{Queue};
ghost use Rattle.iio_layout.specs.Layout.{scan_size};
ghost use Rattle.iio_device.specs.declared.membership.Member.{Member};
ghost use Rattle.iio_device.specs.declared.membership.Membership.{Membership};
ghost use Rattle.iio_device.specs.Members.{first_number, id_of, is_live_under, mask_count, member_of};
ghost use Rattle.iio_device.specs.Roster.{Takes, TakesScans};
ghost use Rattle.iio_device.specs.Totals.{with_bytes, with_taken};
ghost use Rattle.iio_device.specs.Device.{new_view, view_of};

use crate::iio_dev::IioDev;
use crate::membership::Member;
use crate::plug::Plug;
use crate::roster::Roster;
use crate::totals::Totals;
use crate::values::first_stored;
use iio_attr::Name;
use iio_base::Mem;
use iio_desc::DeviceDesc;
use iio_kfifo::{Kfifo, Tail};
use iio_layout::Shape;
use iio_mask::Mask;
use iio_sensor::Sensor;
use std::alloc::Global;

/// A core with its driver.
#[derive(Drop)]
pub struct Fitted<C> {
    pub core: C,
    /// What it samples; `None` once the device is unplugged.
    pub plug: Option<Plug>,
}

/// A device; `Q` is the end that it holds of each member's queue.
pub type Device<Q> = Fitted<IioDev<Q>>;

impl<Q: Tail> Fitted<IioDev<Q>> {
    /// Makes a device from its description: plugged, sampling `plug`, of the given number and without a member. Its trigger is
    /// that of the description, and is below 16. The attribute lines of the description are written in their order. The room
    /// for a capture and for events is allocated here.
    pub fn new(alloc: Global, desc: DeviceDesc, number: u32, plug: Plug) -> Result<Device<Q>, Mem>
        requires writes { All (IsWrite (length desc.shape.channels)) desc.attrs }
        requires trigger { IfSome desc.trigger (λ t. t < MAX_TRIGGERS) }
        ensures { IfOk result (λ d. view_of ⟦<Plug as Sensor>⟧.driver d ≡ new_view desc number (⟦<Plug as Sensor>⟧.driver plug)) }
    {
        let mut plug = plug;
        let stored = first_stored(alloc, &desc.shape, &desc.attrs, &mut plug)?;
        let core = IioDev {
            roster: Roster::new(alloc, desc.shape)?,
            name: desc.name,
            number,
            trigger: desc.trigger,
            attachment: 0,
            stored,
            totals: Totals::new(),
        };
        Ok(Fitted {
            core,
            plug: Some(plug),
        })
    }

    /// The device's number in the description.
    pub fn number(&self) -> u32
        ensures { result ≡ self.now.core.number }
    {
        self.core.number
    }

    /// The device's channels.
    pub fn shape(&self) -> &Shape
        ensures { result.now ≡ self.now.core.roster.shape }
    {
        &self.core.roster.shape
    }

    /// Returns the active mask, under which the sensor is asked; `None` exactly if the device has no member.
    pub fn active(&self) -> Option<Mask>
        ensures { result ≡ self.now.core.roster.active }
    {
        self.core.roster.active
    }

    /// The number of the device's trigger, if it has one.
    pub fn trigger(&self) -> Option<u32>
        ensures { result ≡ self.now.core.trigger }
    {
        self.core.trigger
    }

    /// The number of captures that the device has had.
    pub fn captures(&self) -> u64
        ensures { result ≡ self.now.core.roster.captures }
    {
        self.core.roster.captures
    }

    /// Whether the device is plugged.
    pub fn plugged(&self) -> bool
        ensures { result ≡ is_some self.now.plug }
    {
        self.plug.is_some()
    }

    /// The number of members.
    pub fn members(&self) -> u32
        ensures { result ≡ length self.now.core.roster.members.items }
    {
        self.core.roster.len()
    }

    /// The number of distinct masks of the members. At a capture one scan is laid out for each of them except the active mask,
    /// whose scan the sensor gives.
    pub fn groups(&self) -> u32
        ensures { result ≡ mask_count self.now.core.roster.members.items }
    {
        self.core.roster.groups()
    }

    /// Returns the member that joined first, of those that are there; `None` exactly if there is no member.
    pub fn first_member(&self) -> Option<Member>
        ensures { option_map (λ (m : Member). m.number) result ≡ first_number self.now.core.roster.members.items }
    {
        let number = self.core.roster.first_member()?;
        Some(Member { number })
    }

    /// Whether the member is live and has that mask.
    pub fn is_live_under(&self, member: &Member, mask: Mask) -> bool
        ensures { result ≡ is_live_under member.now.number mask.bits self.now.core.roster.members.items }
    {
        self.core.roster.is_live_under(member.number, mask)
    }

    /// The number of scans that were lost because a queue was full, over all queues that members have or had. It stays at
    /// 2^64 - 1 once it gets there.
    pub fn overruns(&self) -> u64
        ensures { result ≡ min (self.now.core.totals.lost + sum_by (λ (m : Membership Q). Q.lost m.tail) self.now.core.roster.members.items) (2 ^ 64 - 1) }
    {
        let mut total = self.core.totals.lost.get();
        for member in &self.core.roster.members {
            total = total.saturating_add(member.tail.lost());
        }
        total
    }

    /// Returns how many scans the member has lost since it joined or last got another mask; `None` exactly if it isn't live.
    pub fn lost(&self, member: &Member) -> Option<u64>
        ensures { result ≡ option_map (λ (m : Membership Q). Q.lost m.tail) (member_of member.now.number self.now.core.roster.members.items) }
    {
        self.core.roster.lost(member.number)
    }
}

impl Fitted<IioDev<Kfifo>> {
    /// Moves the member's oldest scan into `out`, and returns whether there was one; the scan counts in the device's totals.
    /// Returns `None`, and changes nothing, exactly if the member isn't live or the length of `out` isn't the size of its
    /// scans.
    pub fn take(&mut self, member: &Member, out: &mut [u8]) -> Option<bool>
        requires { ⊤ }
        ensures taken { Takes member.now.number result out.old out.new (view_of ⟦<Plug as Sensor>⟧.driver self.old).standing
            (view_of ⟦<Plug as Sensor>⟧.driver self.new).standing }
        ensures rest { view_of ⟦<Plug as Sensor>⟧.driver self.new ≡ record (view_of ⟦<Plug as Sensor>⟧.driver self.old)
            { standing = (view_of ⟦<Plug as Sensor>⟧.driver self.new).standing; totals = with_taken result out.new self.old.core.totals } }
    {
        let taken = self.core.roster.take(member.number, out);
        self.core.totals.count(taken, out);
        taken
    }

    /// Moves the member's oldest scan into `out` as `take` does, but doesn't count it in the device's totals: the scan is given
    /// to nobody.
    pub fn take_inside(&mut self, member: &Member, out: &mut [u8]) -> Option<bool>
        requires { ⊤ }
        ensures taken { Takes member.now.number result out.old out.new (view_of ⟦<Plug as Sensor>⟧.driver self.old).standing
            (view_of ⟦<Plug as Sensor>⟧.driver self.new).standing }
        ensures rest { view_of ⟦<Plug as Sensor>⟧.driver self.new ≡ record (view_of ⟦<Plug as Sensor>⟧.driver self.old)
            { standing = (view_of ⟦<Plug as Sensor>⟧.driver self.new).standing } }
    {
        self.core.roster.take(member.number, out)
    }

    /// Appends the member's oldest scans, at most `most`, to `out`, one after another, and returns their number; they count in
    /// the device's totals. Returns `None`, and changes nothing, exactly if the member isn't live under that mask. `out` must
    /// have room for the bytes of `most` scans.
    pub fn take_scans(
        &mut self,
        member: &Member,
        mask: Mask,
        most: u32,
        out: &mut Vec<u8>,
    ) -> Option<u32>
        requires { length out.old.items + most * scan_size self.old.core.roster.shape mask.bits ≤ vec_capacity out.old }
        ensures taken { TakesScans (id_of member.now.number mask) most result out.old.items out.new.items
            (view_of ⟦<Plug as Sensor>⟧.driver self.old).standing (view_of ⟦<Plug as Sensor>⟧.driver self.new).standing }
        ensures rest { view_of ⟦<Plug as Sensor>⟧.driver self.new ≡ record (view_of ⟦<Plug as Sensor>⟧.driver self.old) {
          standing = (view_of ⟦<Plug as Sensor>⟧.driver self.new).standing;
          totals = with_bytes (unwrap_or result 0) (drop (length out.old.items) out.new.items) self.old.core.totals;
        } }
        ensures sized { length out.new.items ≡ length out.old.items + unwrap_or result 0 * scan_size self.old.core.roster.shape mask.bits }
        ensures room { vec_capacity out.old ≤ vec_capacity out.new }
    {
        let stood = out.len();
        let taken = self.core.roster.take_scans(member.number, mask, most, out);
        self.core.totals.give(taken.unwrap_or(0), &out[stood..]);
        taken
    }

    /// Returns how many scans wait for the member; `None` exactly if it isn't live.
    pub fn waiting(&self, member: &Member) -> Option<u32>
        ensures { result ≡ option_map (λ (m : Membership Queue). length m.tail.scans) (member_of member.now.number self.now.core.roster.members.items) }
    {
        self.core.roster.waiting(member.number)
    }
}
