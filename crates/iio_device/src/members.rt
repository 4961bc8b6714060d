//! What is done to the members, one after another.

ghost use Rattle.std.specs.Prelude.{◌≡◌, ◌==◌, ℕ, ◌+◌, ◌-◌, ◌*◌, ◌^◌, ◌<◌, ◌≤◌, true, All, IfNone, IfSome, None, Some, is_some, length, map, slice_index_or, slice_set, vec_capacity};
ghost use Rattle.std.specs.List.{AllZip, IsDistinct};
ghost use Rattle.iio_mask.specs.Mask.{union_of_all};
ghost use Rattle.iio_kfifo.specs.Queue.{Queue};
ghost use Rattle.iio_device.specs.declared.membership.Membership.{Membership};
ghost use Rattle.iio_device.specs.Groups.{GroupRecord, scan_for};
ghost use Rattle.iio_device.specs.Members.{Drains, DrainsScans, WasOffered, is_live, is_wanted, masks_of, member_of, without};
ghost use Rattle.iio_device.specs.Remasking.{begun_anew};

use crate::group::{Group, scan_for};
use crate::membership::Membership;
use iio_kfifo::{Kfifo, Tail};
use iio_mask::Mask;
use std::mem::replace;

/// The union of the members' masks.
pub(crate) fn union_mask<Q>(members: &[Membership<Q>]) -> Mask
    ensures { result.bits ≡ union_of_all (masks_of members.now) }
{
    let mut union = Mask { bits: 0 };
    for member in members {
        union = member.mask.union(union);
    }
    union
}

/// The union of the masks of all members except the one of that number.
pub(crate) fn union_of_others<Q>(members: &[Membership<Q>], number: u64) -> Mask
    ensures { result.bits ≡ union_of_all (masks_of (without number members.now)) }
{
    let mut union = Mask { bits: 0 };
    for member in members {
        if member.number != number {
            union = member.mask.union(union);
        }
    }
    union
}

/// Whether a member has that mask.
pub(crate) fn is_wanted<Q>(members: &[Membership<Q>], mask: Mask) -> bool
    ensures { result ≡ is_wanted members.now mask.bits }
{
    members.iter().any(|member| member.mask.bits == mask.bits)
}

// The place of the member of that number, found by a walk over all members.
fn walk_to<Q>(members: &[Membership<Q>], number: u64) -> Option<usize>
    ensures live { is_some result ≡ is_live number members.now }
    ensures none { IfNone result (member_of number members.now ≡ None) }
    ensures within { IfSome result (λ at. at < length members.now) }
    ensures at { IfSome result (λ at. (d : Membership Q) → (slice_index_or members.now at d).number ≡ number) }
    ensures member { IfSome result (λ at. (d : Membership Q) → member_of number members.now ≡ Some (slice_index_or members.now at d)) }
{
    for i in 0..members.len() {
        if members[i].number == number {
            return Some(i);
        }
    }
    None
}

// Whether the member at place `at` has that number.
fn stands_at<Q>(members: &[Membership<Q>], at: usize, number: u64) -> bool
    ensures within { result ≡ true → at < length members.now }
    ensures number { result ≡ true → (d : Membership Q) → (slice_index_or members.now at d).number ≡ number }
{
    at < members.len() && members[at].number == number
}

// The place of the member of that number if no member left between the joining of the first one and its own; the last place if
// that one is past it. Members stand in the order in which they joined, which their numbers count.
fn likely_place<Q>(members: &[Membership<Q>], number: u64) -> usize {
    if members.is_empty() {
        return 0;
    }
    let joined_before = number.wrapping_sub(members[0].number) as usize;
    joined_before.min(members.len() - 1)
}

/// The place of the member of that number.
pub(crate) fn position_of<Q>(members: &[Membership<Q>], number: u64) -> Option<usize>
    requires apart { IsDistinct (λ a b. a == b) (map (λ (m : Membership Q). m.number) members.now) }
    ensures live { is_some result ≡ is_live number members.now }
    ensures none { IfNone result (member_of number members.now ≡ None) }
    ensures within { IfSome result (λ at. at < length members.now) }
    ensures at { IfSome result (λ at. (d : Membership Q) → (slice_index_or members.now at d).number ≡ number) }
    ensures member { IfSome result (λ at. (d : Membership Q) → member_of number members.now ≡ Some (slice_index_or members.now at d)) }
{
    let at = likely_place(members, number);
    if stands_at(members, at, number) {
        return Some(at);
    }
    walk_to(members, number)
}

/// Gives the member at that place another mask and another queue's end: it begins anew. Returns its old end.
pub(crate) fn begin_anew_at<Q: Tail>(
    members: &mut Vec<Membership<Q>>,
    at: usize,
    mask: Mask,
    captures: u64,
    tail: Q,
) -> Q
    requires within { at < length members.old.items }
    ensures before { (d : Membership Q) → result ≡ (slice_index_or members.old.items at d).tail }
    ensures members { (d : Membership Q)
        → members.new.items ≡ slice_set members.old.items at (begun_anew mask captures tail (slice_index_or members.old.items at d)) }
{
    let member = &mut members[at];
    member.mask = mask;
    member.joined = captures;
    replace(&mut member.tail, tail)
}

// Offers a member its own scan of a capture: `union`, the one under the active mask, or that of its mask's group.
fn offer_one<Q: Tail>(
    member: &mut Membership<Q>,
    groups: &[Group],
    active: Mask,
    union: &[u8],
    place: &mut usize,
)
    requires apart { IsDistinct (λ a b. a == b) (map (λ (g : GroupRecord). g.mask) groups.now) }
    requires sized { length (scan_for active.bits union.now groups.now member.old.mask.bits) ≡ Q.size member.old.tail }
    requires fewer { Q.taken member.old.tail + Q.lost member.old.tail < 2 ^ 64 - 1 }
    ensures { WasOffered Q.Tail (scan_for active.bits union.now groups.now member.old.mask.bits) member.old member.new }
{
    member
        .tail
        .offer(scan_for(groups, active, union, member.mask, place));
}

/// Offers each member its own scan of a capture, once: `union`, the one under the active mask, or that of its mask's group. The
/// group is looked for first at the member's place in `places`, where it was found last.
pub(crate) fn offer_all<Q: Tail>(
    members: &mut Vec<Membership<Q>>,
    places: &mut Vec<usize>,
    groups: &[Group],
    active: Mask,
    union: &[u8],
)
    requires apart { IsDistinct (λ a b. a == b) (map (λ (g : GroupRecord). g.mask) groups.now) }
    requires placed { length places.old.items ≡ length members.old.items }
    requires sized { All (λ (m : Membership Q). length (scan_for active.bits union.now groups.now m.mask.bits) ≡ Q.size m.tail) members.old.items }
    requires fewer { All (λ (m : Membership Q). Q.taken m.tail + Q.lost m.tail < 2 ^ 64 - 1) members.old.items }
    ensures offered { AllZip (λ (a b : Membership Q). WasOffered Q.Tail (scan_for active.bits union.now groups.now a.mask.bits) a b)
        members.old.items members.new.items }
    ensures placed { length places.new.items ≡ length places.old.items }
{
    for i in 0..members.len() {
        offer_one(&mut members[i], groups, active, union, &mut places[i]);
    }
}

// Moves the oldest scan of the member at that place into `out`, and returns whether there was one.
pub(crate) fn take_at(members: &mut Vec<Membership<Kfifo>>, at: usize, out: &mut [u8]) -> bool
    requires within { at < length members.old.items }
    requires size { (d : Membership Queue) → length out.old ≡ (slice_index_or members.old.items at d).tail.size }
    ensures moved { (d : Membership Queue) → Drains result out.old out.new (slice_index_or members.old.items at d) (slice_index_or members.new.items at d) }
    ensures others { (d : Membership Queue) → members.new.items ≡ slice_set members.old.items at (slice_index_or members.new.items at d) }
{
    members[at].tail.take(out)
}

// Appends the oldest scans of the member at that place, at most `most`, to `out`, and returns their number.
pub(crate) fn take_scans_at(
    members: &mut Vec<Membership<Kfifo>>,
    at: usize,
    most: u32,
    out: &mut Vec<u8>,
) -> u32
    requires within { at < length members.old.items }
    requires room { (d : Membership Queue) → length out.old.items + most * (slice_index_or members.old.items at d).tail.size ≤ vec_capacity out.old }
    ensures moved { (d : Membership Queue)
        → DrainsScans most result out.old.items out.new.items (slice_index_or members.old.items at d) (slice_index_or members.new.items at d) }
    ensures sized { (d : Membership Queue) → length out.new.items ≡ length out.old.items + result * (slice_index_or members.old.items at d).tail.size }
    ensures others { (d : Membership Queue) → members.new.items ≡ slice_set members.old.items at (slice_index_or members.new.items at d) }
    ensures room { vec_capacity out.old ≤ vec_capacity out.new }
{
    members[at].tail.take_scans(most, out)
}
