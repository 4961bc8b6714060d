//! A device's members, with their groups and the active mask.

ghost use Rattle.std.specs.Prelude.{◌≡◌, ◌==◌, ◌&&◌, ◌||◌, not, ℕ, ℤ, ◌+◌, ◌-◌, ◌*◌, ◌^◌, ◌<◌, ◌≤◌, true, false, All, IfOk, IfErr, OnOk, IfSome, IfNone, filter, is_err, is_none, length, take, List, unwrap_or, vec_len, vec_capacity, option_map, Some, None};
ghost use Rattle.std.specs.List.{AllZip};
ghost use Rattle.std.proofs.Props.{props};
ghost use Rattle.iio_mask.specs.Mask.{is_within, union_of, union_of_all};
ghost use Rattle.iio_layout.specs.Active.{active_of, has_data};
ghost use Rattle.iio_layout.specs.Layout.{scan_size};
ghost use Rattle.iio_layout.specs.Scan.{scan_of};
ghost use Rattle.iio_layout.specs.Shape.{count_of, width_of};
ghost use Rattle.iio_kfifo.specs.Queue.{Queue};
ghost use Rattle.iio_sensor.specs.Driver.{after_capture, ask_fails, values_of};
ghost use Rattle.iio_device.specs.declared.membership.Membership.{Membership};
ghost use Rattle.iio_device.specs.Groups.{GroupRecord, IsGroup, has_group};
ghost use Rattle.iio_device.specs.Active.{active_for};
ghost use Rattle.iio_device.specs.Members.{WasOffered, first_number, id_of, is_live, is_live_under, is_wanted, mask_count, masks_of, member_of, without};
ghost use Rattle.iio_device.specs.Remasking.{IsRemaskRefusal, Remasks, active_under, remask_fault};
ghost use Rattle.iio_device.specs.Roster.{Captures, IsRefusal, Joins, Leaves, Takes, TakesScans, active_with, join_fault, nobody, remade_for, with_capture, with_group};
ghost use Rattle.iio_device.specs.Sound.{HasRoom, IsSize, IsSound, bits_of};

use crate::group::{Group, has_group, lay_out_all, remake_all};
use crate::members::{
    begin_anew_at, is_wanted, offer_all, position_of, take_at, take_scans_at, union_mask,
    union_of_others,
};
use crate::membership::Membership;
use iio_base::Mem;
use iio_kfifo::{Kfifo, Tail};
use iio_layout::{Shape, active, scan_size};
use iio_mask::Mask;
use iio_scan_type::MAX_CHANNEL_SIZE;
use iio_sensor::{Fault, Sensor};
use std::alloc::Global;

/// A device's members, in the order in which they joined.
#[derive(Drop)]
pub struct Roster<Q: Tail> {
    alloc: Global,
    pub shape: Shape,
    /// The mask that the sensor is asked under; `None` if there is no member.
    pub active: Option<Mask>,
    pub captures: u64,
    /// The number of the next member.
    pub next: u64,
    pub members: Vec<Membership<Q>>,
    groups: Vec<Group>,
    // The union of the members' masks.
    wanted: Mask,
    // For each member, the place where its group was found last.
    places: Vec<usize>,
    // The size in bytes of a scan under the active mask, and room for it.
    size: u32,
    room: Vec<u8>,
    ghost sound: { IsSound Q.Tail shape active captures next members.items groups.items } by { Prim.hlevel props },
    ghost sized: { IsSize shape active size } by { Prim.hlevel props },
    ghost roomy: { HasRoom shape room.items },
    ghost placed: { length places.items ≡ length members.items },
    ghost united: { wanted.bits ≡ union_of_all (masks_of members.items) },
}

/// Why a join was refused.
#[derive(Clone, Copy, Debug)]
pub enum JoinFault {
    /// The device is unplugged.
    Gone,
    /// The mask has a channel that the device doesn't have, or no data channel.
    BadMask,
    /// The device has no trigger.
    NoTrigger,
    /// No mask that the sensor can be asked under serves all members.
    NoUnion,
    /// The trigger has no place for the device, or 2^64 - 1 members have joined.
    NoPlace,
    /// Memory ran out.
    Mem,
}

/// A refused join, with the queue's end given back.
pub struct JoinRefused<Q> {
    pub fault: JoinFault,
    pub tail: Q,
}

/// Why a member can't have another mask.
#[derive(Clone, Copy, Debug, PartialEq, Eq)]
pub enum RemaskFault {
    /// The device is unplugged.
    Gone,
    /// The member isn't live.
    NotLive,
    /// The mask has a channel that the device doesn't have, or no data channel.
    BadMask,
    /// No mask that the sensor can be asked under serves the other members and this one.
    NoUnion,
    /// Memory ran out.
    Mem,
}

/// A refused exchange of a mask, with the new queue's end given back.
pub struct RemaskRefused<Q> {
    pub fault: RemaskFault,
    pub tail: Q,
}

/// The mask that the sensor is asked under for these members; `wanted` is the union of their masks.
fn active_for<Q>(shape: &Shape, members: &[Membership<Q>], wanted: Mask) -> Option<Mask>
    requires each { All (λ (m : Membership Q). m.mask.bits < 2 ^ count_of shape.now) members.now }
    requires wanted { wanted.bits ≡ union_of_all (masks_of members.now) }
    ensures value { bits_of result ≡ active_for shape.now (masks_of members.now) }
    ensures contains { IfSome result (λ m. is_within (union_of_all (masks_of members.now)) m.bits ≡ true) }
    ensures below { IfSome result (λ m. m.bits < 2 ^ count_of shape.now) }
{
    if members.is_empty() {
        return None;
    }
    active(shape, wanted)
}

// Adds a group if there is one to add.
fn add_group(groups: &mut Vec<Group>, group: Option<Group>)
    requires { vec_len groups.old < vec_capacity groups.old }
    ensures { groups.new.items ≡ with_group group groups.old.items }
{
    if let Some(group) = group {
        groups.push_reserved(group);
    }
}

// Removes the group of that mask.
fn drop_group(groups: &mut Vec<Group>, gone: Mask)
    ensures kept { groups.new.items ≡ filter (λ (g : GroupRecord). not (g.mask == gone.bits)) groups.old.items }
    ensures bound { vec_len groups.new ≤ vec_len groups.old }
    ensures capacity { vec_capacity groups.new ≡ vec_capacity groups.old }
{
    groups.retain(|group| !group.is_of(gone));
}

// Keeps the groups that a member wants, if every group except that of the mask `gone` is wanted.
fn keep_wanted<Q>(groups: &mut Vec<Group>, members: &[Membership<Q>], gone: Mask)
    requires { All (λ (g : GroupRecord). (is_wanted members.now g.mask || g.mask == gone.bits) ≡ true) groups.old.items }
    ensures kept { groups.new.items ≡ filter (λ (g : GroupRecord). is_wanted members.now g.mask) groups.old.items }
    ensures bound { vec_len groups.new ≤ vec_len groups.old }
    ensures capacity { vec_capacity groups.new ≡ vec_capacity groups.old }
{
    if is_wanted(members, gone) {
        return;
    }
    drop_group(groups, gone);
}

// Makes the tables again if there is an active mask and it isn't the one before, for which they were made. A scan under the
// active mask has `size` bytes.
fn remake_for(
    groups: &mut Vec<Group>,
    shape: &Shape,
    before: Option<Mask>,
    active: Option<Mask>,
    size: u32,
)
    requires below { IfSome active (λ m. m.bits < 2 ^ count_of shape.now) }
    requires size { IsSize shape.now active size }
    requires within { IfSome active (λ m. All (λ (g : GroupRecord). is_within g.mask m.bits ≡ true) groups.old.items) }
    requires made { All (IsGroup shape.now (unwrap_or (bits_of before) 0)) groups.old.items }
    ensures remade { groups.new.items ≡ remade_for shape.now active groups.old.items }
    ensures capacity { vec_capacity groups.new ≡ vec_capacity groups.old }
{
    if active == before {
        return;
    }
    if let Some(active) = active {
        remake_all(groups, shape, active, size);
    }
}

// The size in bytes of a scan under the mask that the sensor is asked under, or under the empty mask if there is no member.
fn asked_size(shape: &Shape, active: Option<Mask>) -> u32
    requires { IfSome active (λ m. m.bits < 2 ^ count_of shape.now) }
    ensures { IsSize shape.now active result }
{
    scan_size(shape, active.unwrap_or(Mask { bits: 0 }))
}

// The size in bytes of a scan under the mask that the sensor is asked under, if `size` is that under the mask before.
fn asked_size_after(shape: &Shape, before: Option<Mask>, size: u32, active: Option<Mask>) -> u32
    requires below { IfSome active (λ m. m.bits < 2 ^ count_of shape.now) }
    requires size { IsSize shape.now before size }
    ensures { IsSize shape.now active result }
{
    if active == before {
        return size;
    }
    asked_size(shape, active)
}

// Asks a driver for a capture; its scan of `size` bytes is put into the first bytes of the room.
fn ask<P: Sensor>(
    plug: &mut P,
    shape: &Shape,
    t: i64,
    active: Mask,
    size: usize,
    room: &mut [u8],
) -> Result<(), Fault>
    requires below { active.bits < 2 ^ count_of shape.now }
    requires size { IsSize shape.now (Some active) size }
    requires room { HasRoom shape.now room.old }
    ensures asked { P.driver plug.new ≡ after_capture (P.driver plug.old) t active.bits }
    ensures fault { is_err result ≡ ask_fails (P.driver plug.old) }
    ensures within { size ≤ length room.new }
    ensures scan { OnOk result (take size room.new ≡ scan_of shape.now active.bits (values_of (P.driver plug.old) shape.now t) t) }
{
    plug.capture(shape, t, active, &mut room[..size])
}

impl<Q: Tail> Roster<Q> {
    ghost use Rattle.iio_device.specs.Standing.{standing_of};

    /// A roster without a member, for a device of that shape. Its room for scans is allocated here.
    pub(crate) fn new(alloc: Global, shape: Shape) -> Result<Roster<Q>, Mem>
        ensures { IfOk result (λ r. standing_of r ≡ nobody shape) }
    {
        let room = vec![in alloc; 0u8; (MAX_CHANNEL_SIZE * shape.count()) as usize]?;
        let size = asked_size(&shape, None);
        Ok(Roster {
            alloc,
            shape,
            active: None,
            captures: 0,
            next: 0,
            members: Vec::new(alloc),
            groups: Vec::new(alloc),
            wanted: Mask { bits: 0 },
            places: Vec::new(alloc),
            size,
            room,
        })
    }

    /// The mask that the sensor would be asked under with another member, of this mask.
    pub(crate) fn active_with(&self, mask: Mask) -> Option<Mask>
        requires { mask.bits < 2 ^ count_of self.now.shape }
        ensures value { bits_of result ≡ active_with mask.bits (standing_of self.now) }
        ensures contains { IfSome result (λ m. (is_within mask.bits m.bits ≡ true)
            × (is_within (union_of_all (masks_of self.now.members.items)) m.bits ≡ true)) }
        ensures below { IfSome result (λ m. m.bits < 2 ^ count_of self.now.shape) }
    {
        let wanted = mask.union(self.wanted);
        if wanted == self.wanted && self.active.is_some() {
            return self.active;
        }
        active(&self.shape, wanted)
    }

    // Makes room for another group, and makes the group of that mask if there is none.
    fn grow_groups(&mut self, active: Mask, mask: Mask) -> Result<Option<Group>, Mem>
        requires below { active.bits < 2 ^ count_of self.old.shape }
        requires own { mask.bits < 2 ^ count_of self.old.shape }
        requires within { is_within mask.bits active.bits ≡ true }
        ensures same { standing_of self.new ≡ standing_of self.old }
        ensures members { self.new.members ≡ self.old.members }
        ensures places { self.new.places ≡ self.old.places }
        ensures room { IfOk result (λ _. vec_len self.new.groups < vec_capacity self.new.groups) }
        ensures group { IfOk result
            (λ group. IfSome group (λ g. IsGroup self.new.shape active.bits g × (g.mask ≡ mask.bits) × (has_group self.new.groups.items mask.bits ≡ false))) }
        ensures none { IfOk result (λ group. IfNone group (has_group self.new.groups.items mask.bits ≡ true)) }
    {
        self.groups.reserve(1)?;
        if has_group(&self.groups, mask) {
            return Ok(None);
        }
        Ok(Some(Group::new(self.alloc, &self.shape, active, mask)?))
    }

    // Makes room for another member, and makes the group of its mask if there is none.
    fn grow(&mut self, active: Mask, mask: Mask) -> Result<Option<Group>, Mem>
        requires below { active.bits < 2 ^ count_of self.old.shape }
        requires own { mask.bits < 2 ^ count_of self.old.shape }
        requires within { is_within mask.bits active.bits ≡ true }
        ensures same { standing_of self.new ≡ standing_of self.old }
        ensures few { IfOk result (λ _. length self.new.members.items < 2 ^ 32 - 1) }
        ensures room { IfOk result
            (λ _. (vec_len self.new.members < vec_capacity self.new.members) × (vec_len self.new.groups < vec_capacity self.new.groups)
            × (vec_len self.new.places < vec_capacity self.new.places)) }
        ensures group { IfOk result
            (λ group. IfSome group (λ g. IsGroup self.new.shape active.bits g × (g.mask ≡ mask.bits) × (has_group self.new.groups.items mask.bits ≡ false))) }
        ensures none { IfOk result (λ group. IfNone group (has_group self.new.groups.items mask.bits ≡ true)) }
    {
        if self.members.len() >= u32::MAX as usize {
            return Err(Mem);
        }
        self.members.reserve(1)?;
        self.places.reserve(1)?;
        self.grow_groups(active, mask)
    }

    // Returns the active mask with another member, and what `grow` makes for that one; or why it is refused.
    fn prepare(&mut self, mask: Mask) -> Result<(Mask, Option<Group>), JoinFault>
        requires { mask.bits < 2 ^ count_of self.old.shape }
        ensures same { standing_of self.new ≡ standing_of self.old }
        ensures fault { IfErr result (λ fault. IsRefusal fault (join_fault mask.bits (standing_of self.old))) }
        ensures accepted { IfOk result (λ made. join_fault mask.bits (standing_of self.old) ≡ None) }
        ensures active { IfOk result (λ made. Some made.0.bits ≡ active_with mask.bits (standing_of self.old)) }
        ensures below { IfOk result (λ made. made.0.bits < 2 ^ count_of self.old.shape) }
        ensures within { IfOk result (λ made. is_within (union_of_all (masks_of self.old.members.items)) made.0.bits ≡ true) }
        ensures few { IfOk result (λ _. length self.new.members.items < 2 ^ 32 - 1) }
        ensures next { IfOk result (λ _. self.old.next < 2 ^ 64 - 1) }
        ensures room { IfOk result
            (λ _. (vec_len self.new.members < vec_capacity self.new.members) × (vec_len self.new.groups < vec_capacity self.new.groups)
            × (vec_len self.new.places < vec_capacity self.new.places)) }
        ensures group { IfOk result
            (λ made. IfSome made.1 (λ g. IsGroup self.new.shape made.0.bits g × (g.mask ≡ mask.bits) × (has_group self.new.groups.items mask.bits ≡ false))) }
        ensures none { IfOk result (λ made. IfNone made.1 (has_group self.new.groups.items mask.bits ≡ true)) }
    {
        let active = self.active_with(mask).ok_or(JoinFault::NoUnion)?;
        if self.next == u64::MAX {
            return Err(JoinFault::NoPlace);
        }
        let Ok(group) = self.grow(active, mask) else {
            return Err(JoinFault::Mem);
        };
        Ok((active, group))
    }

    /// Adds a member, and returns its number. A refusal gives the queue's end back and changes nothing.
    pub(crate) fn join(&mut self, mask: Mask, tail: Q) -> Result<u64, JoinRefused<Q>>
        requires own { mask.bits < 2 ^ count_of self.old.shape }
        requires channel { has_data self.old.shape mask.bits ≡ true }
        requires size { Q.size tail ≡ scan_size self.old.shape mask.bits }
        requires fresh { Q.taken tail + Q.lost tail ≡ 0 }
        ensures { Joins mask tail result (standing_of self.old) (standing_of self.new) }
    {
        let (active, group) = match self.prepare(mask) {
            Err(fault) => return Err(JoinRefused { fault, tail }),
            Ok(made) => made,
        };
        let number = self.next;
        let size = asked_size_after(&self.shape, self.active, self.size, Some(active));
        remake_for(
            &mut self.groups,
            &self.shape,
            self.active,
            Some(active),
            size,
        );
        add_group(&mut self.groups, group);
        self.members.push_reserved(Membership {
            number,
            mask,
            joined: self.captures,
            tail,
        });
        self.places.push_reserved(0);
        self.next += 1;
        self.wanted = mask.union(self.wanted);
        self.size = size;
        self.active = Some(active);
        Ok(number)
    }

    /// Removes the member of that number, and returns its queue's end; the other members get tables for their own active mask.
    /// Returns `None`, and changes nothing, exactly if no member has that number.
    pub(crate) fn leave(&mut self, number: u64) -> Option<Q>
        ensures { Leaves number result (standing_of self.old) (standing_of self.new) }
    {
        let at = position_of(&self.members, number)?;
        let Membership {
            number: _,
            mask,
            joined: _,
            tail,
        } = self.members.remove(at);
        let _ = self.places.remove(at);
        // Another member of that mask wants everything that this one did.
        if is_wanted(&self.members, mask) {
            return Some(tail);
        }
        let wanted = union_mask(&self.members);
        let active = active_for(&self.shape, &self.members, wanted);
        let size = asked_size_after(&self.shape, self.active, self.size, active);
        drop_group(&mut self.groups, mask);
        remake_for(&mut self.groups, &self.shape, self.active, active, size);
        self.wanted = wanted;
        self.size = size;
        self.active = active;
        Some(tail)
    }

    /// The mask that the sensor would be asked under if the member of that number had that mask.
    pub(crate) fn active_under(&self, number: u64, mask: Mask) -> Option<Mask>
        requires { mask.bits < 2 ^ count_of self.now.shape }
        ensures value { bits_of result ≡ active_under number mask.bits (standing_of self.now) }
        ensures own { IfSome result (λ m. is_within mask.bits m.bits ≡ true) }
        ensures contains { IfSome result (λ m. is_within (union_of mask.bits (union_of_all (masks_of (without number self.now.members.items)))) m.bits ≡ true) }
        ensures below { IfSome result (λ m. m.bits < 2 ^ count_of self.now.shape) }
    {
        active(
            &self.shape,
            mask.union(union_of_others(&self.members, number)),
        )
    }

    // Returns the active mask if that member had that mask, and what `grow_groups` makes for it; or why the exchange is
    // refused.
    fn prepare_remask(
        &mut self,
        number: u64,
        mask: Mask,
    ) -> Result<(Mask, Option<Group>), RemaskFault>
        requires own { mask.bits < 2 ^ count_of self.old.shape }
        requires live { is_live number self.old.members.items ≡ true }
        ensures same { standing_of self.new ≡ standing_of self.old }
        ensures fault { IfErr result (λ fault. IsRemaskRefusal fault (remask_fault number mask.bits (standing_of self.old))) }
        ensures accepted { IfOk result (λ made. remask_fault number mask.bits (standing_of self.old) ≡ None) }
        ensures active { IfOk result (λ made. Some made.0.bits ≡ active_under number mask.bits (standing_of self.old)) }
        ensures below { IfOk result (λ made. made.0.bits < 2 ^ count_of self.old.shape) }
        ensures within { IfOk result
            (λ made. is_within (union_of mask.bits (union_of_all (masks_of (without number self.old.members.items)))) made.0.bits ≡ true) }
        ensures room { IfOk result (λ _. vec_len self.new.groups < vec_capacity self.new.groups) }
        ensures group { IfOk result
            (λ made. IfSome made.1 (λ g. IsGroup self.new.shape made.0.bits g × (g.mask ≡ mask.bits) × (has_group self.new.groups.items mask.bits ≡ false))) }
        ensures none { IfOk result (λ made. IfNone made.1 (has_group self.new.groups.items mask.bits ≡ true)) }
    {
        let active = self.active_under(number, mask).ok_or(RemaskFault::NoUnion)?;
        match self.grow_groups(active, mask) {
            Err(_) => Err(RemaskFault::Mem),
            Ok(group) => Ok((active, group)),
        }
    }

    /// Gives the member of that number another mask and another queue's end: it begins anew. Returns its old end. A refusal
    /// gives the new end back and changes nothing.
    pub(crate) fn remask(&mut self, number: u64, mask: Mask, tail: Q) -> Result<Q, RemaskRefused<Q>>
        requires own { mask.bits < 2 ^ count_of self.old.shape }
        requires channel { has_data self.old.shape mask.bits ≡ true }
        requires size { Q.size tail ≡ scan_size self.old.shape mask.bits }
        requires fresh { Q.taken tail + Q.lost tail ≡ 0 }
        ensures { Remasks number mask tail result (standing_of self.old) (standing_of self.new) }
    {
        let Some(at) = position_of(&self.members, number) else {
            let fault = RemaskFault::NotLive;
            return Err(RemaskRefused { fault, tail });
        };
        let (active, group) = match self.prepare_remask(number, mask) {
            Err(fault) => return Err(RemaskRefused { fault, tail }),
            Ok(made) => made,
        };
        let gone = self.members[at].mask;
        let before = begin_anew_at(&mut self.members, at, mask, self.captures, tail);
        keep_wanted(&mut self.groups, &self.members, gone);
        self.wanted = union_mask(&self.members);
        let size = asked_size_after(&self.shape, self.active, self.size, Some(active));
        remake_for(
            &mut self.groups,
            &self.shape,
            self.active,
            Some(active),
            size,
        );
        add_group(&mut self.groups, group);
        self.size = size;
        self.active = Some(active);
        Ok(before)
    }

    /// The mask that the sensor is asked under; the empty mask if there is no member.
    pub(crate) fn asked(&self) -> Mask
        ensures value { result.bits ≡ unwrap_or (bits_of self.now.active) 0 }
        ensures below { result.bits < 2 ^ count_of self.now.shape }
    {
        self.active.unwrap_or(Mask { bits: 0 })
    }

    // Offers each member its own scan of a capture. The first `size` bytes of the room are the scan under the active mask.
    #[inline(never)]
    fn capture(&mut self, size: usize)
        requires size { size ≡ scan_size self.old.shape (unwrap_or (bits_of self.old.active) 0) }
        requires room { size ≤ length self.old.room.items }
        requires fewer { self.old.captures < 2 ^ 64 - 1 }
        ensures offered { (values : List ℤ) (t : ℤ) → length values ≡ width_of self.old.shape
            → take size self.old.room.items ≡ scan_of self.old.shape (unwrap_or (bits_of self.old.active) 0) values t
            → AllZip (λ (a b : Membership Q). WasOffered Q.Tail (scan_of self.old.shape a.mask.bits values t) a b)
            self.old.members.items self.new.members.items }
        ensures rest { standing_of self.new ≡ with_capture self.new.members.items (standing_of self.old) }
    {
        let active = self.asked();
        let union = &self.room[..size];
        lay_out_all(&mut self.groups, active, union);
        offer_all(
            &mut self.members,
            &mut self.places,
            &self.groups,
            active,
            union,
        );
        self.captures += 1;
    }

    /// Makes a capture by a driver, which is asked once, under the active mask. If that succeeds, the scan of each distinct
    /// mask is laid out once, each member is offered its own, and the number of members is returned.
    pub(crate) fn capture_by<P: Sensor>(&mut self, plug: &mut P, t: i64) -> Result<usize, Fault>
        requires { self.old.captures < 2 ^ 64 - 1 }
        ensures asked { P.driver plug.new ≡ after_capture (P.driver plug.old) t (unwrap_or (bits_of self.old.active) 0) }
        ensures fault { is_err result ≡ ask_fails (P.driver plug.old) }
        ensures few { IfOk result (λ count. count < 2 ^ 32) }
        ensures captures { Captures Q.Tail (values_of (P.driver plug.old) self.old.shape t) t result
            (standing_of self.old) (standing_of self.new) }
    {
        let active = self.asked();
        let size = self.size as usize;
        ask(plug, &self.shape, t, active, size, &mut self.room)?;
        self.capture(size);
        Ok(self.len() as usize)
    }

    /// Returns the number of the member that joined first, of those that are there; `None` exactly if there is no member.
    pub(crate) fn first_member(&self) -> Option<u64>
        ensures { result ≡ first_number self.now.members.items }
    {
        if self.members.is_empty() {
            return None;
        }
        Some(self.members[0].number)
    }

    /// The number of members.
    pub(crate) fn len(&self) -> u32
        ensures { result ≡ length self.now.members.items }
    {
        self.members.len() as u32
    }

    /// The number of distinct masks of the members.
    pub(crate) fn groups(&self) -> u32
        ensures { result ≡ mask_count self.now.members.items }
    {
        self.groups.len() as u32
    }

    /// Whether a member has that number.
    pub(crate) fn is_live(&self, number: u64) -> bool
        ensures { result ≡ is_live number self.now.members.items }
    {
        position_of(&self.members, number).is_some()
    }

    /// Whether a member has that number and that mask.
    pub(crate) fn is_live_under(&self, number: u64, mask: Mask) -> bool
        ensures { result ≡ is_live_under number mask.bits self.now.members.items }
    {
        match position_of(&self.members, number) {
            None => false,
            Some(at) => self.members[at].mask.bits == mask.bits,
        }
    }

    /// Returns how many scans the member of that number has lost; `None` exactly if no member has it.
    pub(crate) fn lost(&self, number: u64) -> Option<u64>
        ensures { result ≡ option_map (λ (m : Membership Q). Q.lost m.tail) (member_of number self.now.members.items) }
    {
        let at = position_of(&self.members, number)?;
        Some(self.members[at].tail.lost())
    }
}

impl Roster<Kfifo> {
    ghost use Rattle.iio_device.specs.Standing.{standing_of};

    /// Moves the oldest scan of the member of that number into `out`, and returns whether there was one. Returns `None`, and
    /// changes nothing, exactly if no member has that number or the length of `out` isn't the size of its scans.
    pub(crate) fn take(&mut self, number: u64, out: &mut [u8]) -> Option<bool>
        ensures { Takes number result out.old out.new (standing_of self.old) (standing_of self.new) }
    {
        let at = position_of(&self.members, number)?;
        if out.len() != self.members[at].tail.size() as usize {
            return None;
        }
        Some(take_at(&mut self.members, at, out))
    }

    /// Appends the oldest scans of the member of that number and that mask, at most `most`, to `out`, one after another, and
    /// returns their number. Returns `None`, and changes nothing, exactly if there is no such member.
    pub(crate) fn take_scans(
        &mut self,
        number: u64,
        mask: Mask,
        most: u32,
        out: &mut Vec<u8>,
    ) -> Option<u32>
        requires { length out.old.items + most * scan_size self.old.shape mask.bits ≤ vec_capacity out.old }
        ensures takes { TakesScans (id_of number mask) most result out.old.items out.new.items (standing_of self.old) (standing_of self.new) }
        ensures sized { length out.new.items ≡ length out.old.items + unwrap_or result 0 * scan_size self.old.shape mask.bits }
        ensures room { vec_capacity out.old ≤ vec_capacity out.new }
    {
        let at = position_of(&self.members, number)?;
        if self.members[at].mask != mask {
            return None;
        }
        Some(take_scans_at(&mut self.members, at, most, out))
    }

    /// Returns how many scans wait for the member of that number; `None` exactly if no member has it.
    pub(crate) fn waiting(&self, number: u64) -> Option<u32>
        ensures { result ≡ option_map (λ (m : Membership Queue). length m.tail.scans) (member_of number self.now.members.items) }
    {
        let at = position_of(&self.members, number)?;
        Some(self.members[at].tail.waiting())
    }
}
