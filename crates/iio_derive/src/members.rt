//! The members of an averaging device.

ghost use Rattle.std.specs.Prelude.{◌≡◌, ◌≢◌, ℕ, ◌+◌, ◌*◌, ◌-◌, ◌^◌, ◌<◌, ◌≤◌, length, is_some, IfSome, IsSome, OnErr, OnOk, Some, None, MatchBool, slice_set, slice_index_or, vec_capacity};
ghost use Rattle.iio_kfifo.specs.Queue.{GivesFirst};
ghost use Rattle.iio_layout.specs.Layout.{scan_size};
ghost use Rattle.iio_layout.specs.Scan.{scan_of};
ghost use Rattle.iio_layout.specs.Shape.{ShapeRecord, count_of, width_of};
ghost use Rattle.iio_derive.specs.declared.members.Membership.{Membership};
ghost use Rattle.iio_scan_type.specs.declared.TheConstants.{MAX_CHANNEL_SIZE};
ghost use Rattle.iio_derive.specs.Average.{has_member};
ghost use Rattle.iio_derive.specs.Members.{ChangesOne, SeatOffered, Takes, TakesScans, WasOffered, member_at, member_count};
ghost use Rattle.iio_derive.specs.View.{AreSized};
ghost use Rattle.iio_derive.specs.Sized.{IsSized};

use iio_base::Mem;
use iio_kfifo::{Kfifo, Tail};
use iio_layout::{Shape, fill};
use iio_mask::Mask;
use iio_scan_type::MAX_CHANNEL_SIZE;

/// A member: the mask that it joined with, and its queue.
#[derive(Drop)]
pub struct Membership {
    pub mask: Mask,
    pub queue: Kfifo,
}

/// Whether there is a member of that number.
pub(crate) fn is_live(seats: &[Option<Membership>], number: usize) -> bool
    ensures { result ≡ is_some (member_at number seats.now) }
{
    match seats.get(number) {
        None => false,
        Some(seat) => seat.is_some(),
    }
}

// Offers a member its scan of these values at this moment. `room` has at least the size of that scan.
fn offer_one(member: &mut Membership, shape: &Shape, values: &[i64], t: i64, room: &mut [u8])
    requires sized { IsSized shape.now member.old }
    requires width { length values.now ≡ width_of shape.now }
    requires room { scan_size shape.now member.old.mask.bits ≤ length room.old }
    requires fewer { member.old.queue.taken + member.old.queue.lost < 2 ^ 64 - 1 }
    ensures { WasOffered (scan_of shape.now member.old.mask.bits values.now t) member.old member.new }
{
    let scan = &mut room[..member.queue.size() as usize];
    fill(shape, member.mask, values, t, scan);
    member.queue.offer(scan);
}

/// Offers each member its scan of these values at this moment. `room` has at least the size of any scan of the shape.
pub(crate) fn offer_all(
    seats: &mut Vec<Option<Membership>>,
    shape: &Shape,
    values: &[i64],
    t: i64,
    room: &mut [u8],
)
    requires sized { AreSized shape.now seats.old.items }
    requires width { length values.now ≡ width_of shape.now }
    requires room { MAX_CHANNEL_SIZE * count_of shape.now ≤ length room.old }
    requires fewer { (number : ℕ) → IfSome (member_at number seats.old.items) (λ m. m.queue.taken + m.queue.lost < 2 ^ 64 - 1) }
    ensures offered { (number : ℕ) → SeatOffered shape.now values.now t (member_at number seats.old.items) (member_at number seats.new.items) }
    ensures sized { AreSized shape.now seats.new.items }
    ensures same { length seats.new.items ≡ length seats.old.items }
{
    for i in 0..seats.len() {
        if let Some(member) = &mut seats[i] {
            offer_one(member, shape, values, t, room);
        }
    }
}

/// The first place without a member, or the place after all if there is none.
pub(crate) fn free_place(seats: &[Option<Membership>]) -> usize
    ensures free { member_at result seats.now ≡ None }
    ensures within { result ≤ length seats.now }
{
    for i in 0..seats.len() {
        if seats[i].is_none() {
            return i;
        }
    }
    seats.len()
}

/// Seats a member at a place that none has, or after all places. If memory runs out, nothing changes.
pub(crate) fn seat_at(
    seats: &mut Vec<Option<Membership>>,
    number: usize,
    member: Membership,
) -> Result<(), Mem>
    requires within { number ≤ length seats.old.items }
    requires fewer { number < 2 ^ 32 - 1 }
    requires few { length seats.old.items < 2 ^ 32 }
    ensures seated { OnOk result (ChangesOne number (Some member) seats.old.items seats.new.items) }
    ensures same { OnErr result (seats.new.items ≡ seats.old.items) }
    ensures few { length seats.new.items < 2 ^ 32 }
    ensures sized { OnOk result ((shape : ShapeRecord) → AreSized shape seats.old.items → IsSized shape member → AreSized shape seats.new.items) }
{
    if number < seats.len() {
        seats[number] = Some(member);
        return Ok(());
    }
    seats.push(Some(member))?;
    Ok(())
}

/// Whether there is a member.
pub(crate) fn has_member(seats: &[Option<Membership>]) -> bool
    ensures { result ≡ has_member seats.now }
{
    seats.iter().any(|seat| seat.is_some())
}

/// The number of members.
pub(crate) fn member_count(seats: &[Option<Membership>]) -> usize
    ensures value { result ≡ member_count seats.now }
    ensures within { result ≤ length seats.now }
{
    seats.iter().filter(|seat| seat.is_some()).count()
}

/// Moves the oldest scan of the member at that place into `out`, and returns whether there was one.
pub(crate) fn take_at(seats: &mut Vec<Option<Membership>>, at: usize, out: &mut [u8]) -> bool
    requires live { IsSome (member_at at seats.old.items) }
    requires size { IfSome (member_at at seats.old.items) (λ m. length out.old ≡ m.queue.size) }
    ensures taken { Takes at result out.old out.new seats.old.items seats.new.items }
    ensures same { length seats.new.items ≡ length seats.old.items }
{
    match &mut seats[at] {
        Some(member) => member.queue.take(out),
        None => unreachable!(),
    }
}

/// Takes at most `most` of the oldest scans of the member at that place, appends them to `out`, and returns how many there
/// were.
pub(crate) fn take_scans_at(
    seats: &mut Vec<Option<Membership>>,
    at: usize,
    most: u32,
    out: &mut Vec<u8>,
) -> u32
    requires live { IsSome (member_at at seats.old.items) }
    requires room { IfSome (member_at at seats.old.items) (λ m. length out.old.items + most * m.queue.size ≤ vec_capacity out.old) }
    ensures taken { TakesScans at most result out.old.items out.new.items seats.old.items seats.new.items }
    ensures same { length seats.new.items ≡ length seats.old.items }
    ensures sized { IfSome (member_at at seats.old.items) (λ m. length out.new.items ≡ length out.old.items + result * m.queue.size) }
    ensures room { vec_capacity out.old ≤ vec_capacity out.new }
{
    match &mut seats[at] {
        Some(member) => member.queue.take_scans(most, out),
        None => unreachable!(),
    }
}
