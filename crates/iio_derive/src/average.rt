//! An averaging device.

ghost use Rattle.std.specs.Prelude.{◌≡◌, ◌≢◌, ℕ, ℤ, ◌+◌, ◌*◌, ◌-◌, ◌^◌, ◌<◌, ◌≤◌, List, [], true, is_some, length, map, option_map, IfOk, IfSome, Some, None, unwrap_or, vec_capacity};
ghost use Rattle.iio_scan_type.specs.declared.TheConstants.{MAX_CHANNEL_SIZE};
ghost use Rattle.iio_kfifo.specs.declared.limits.TheConstants.{MAX_BYTES};
ghost use Rattle.iio_layout.specs.Active.{has_data};
ghost use Rattle.iio_layout.specs.Layout.{scan_size};
ghost use Rattle.iio_layout.specs.Shape.{count_of};
ghost use Rattle.iio_derive.specs.declared.members.Membership.{Membership};
ghost use Rattle.iio_derive.specs.Average.{Adds, Joins, Leaves, MeansOf, TakesOf, TakesScansOf, has_member, new_average};
ghost use Rattle.iio_derive.specs.Means.{IsWindowOf};
ghost use Rattle.iio_derive.specs.Members.{member_at};
ghost use Rattle.iio_derive.specs.Window.{full_mask};

use crate::members::{
    Membership, free_place, has_member, is_live, member_count, offer_all, seat_at, take_at,
    take_scans_at,
};
use crate::reading::{places_of, read_moment, read_values};
use crate::sums::{add_values, put_means};
use iio_base::Mem;
use iio_kfifo::{Kfifo, Tail};
use iio_layout::{MAX_CHANNELS, Shape, scan_size};
use iio_mask::Mask;
use iio_scan_type::{MAX_CHANNEL_SIZE, MAX_REPEAT};
use std::alloc::Global;
use std::marker::Model;

/// An averaging device: it takes the captures of its base, and offers its members the means of windows of them.
#[derive(Drop)]
pub struct Average {
    alloc: Global,
    shape: Shape,
    // How many captures make a mean, and how many were taken since the last one.
    size: u32,
    count: u32,
    // Where each channel stands in a scan of the base.
    places: [u32; MAX_CHANNELS],
    sums: Vec<i128>,
    values: Vec<i64>,
    room: Vec<u8>,
    // Each member stands at the place that is its number.
    seats: Vec<Option<Membership>>,
}

impl Model for Average {
    ghost use Rattle.iio_derive.specs.Average.{AverageRecord};

    ghost Value = { AverageRecord };

    ghost use Rattle.iio_derive.specs.View.{IsSound, window_of};

    ghost view = { λ a. record { shape = a.shape; size = a.size; window = window_of a.count a.sums.items; seats = a.seats.items } };

    ghost invariant = { IsSound };
}

impl Average {
    /// Makes a device of that shape, its base's, with a mean of each `window` captures. It has no member.
    pub fn new(alloc: Global, shape: Shape, window: u32) -> Result<Average, Mem>
        requires low { 2 ≤ window }
        requires high { window ≤ 1000 }
        ensures value { IfOk result (λ a. a ≡ new_average shape window) }
        ensures begins { IfOk result (λ a. IsWindowOf window a.window []) }
    {
        let sums = vec![in alloc; 0i128; shape.width() as usize]?;
        let values = Vec::with_capacity(alloc, MAX_REPEAT as usize * shape.inputs() as usize)?;
        let room = vec![in alloc; 0u8; (MAX_CHANNEL_SIZE * shape.count()) as usize]?;
        let places = places_of(&shape);
        Ok(Average {
            alloc,
            shape,
            size: window,
            count: 0,
            places,
            sums,
            values,
            room,
            seats: Vec::new(alloc),
        })
    }

    /// The device's channels, which are its base's.
    pub fn shape(&self) -> &Shape
        ensures { result.now ≡ self.now.shape }
    {
        &self.shape
    }

    /// Whether the device has a member.
    pub fn has_member(&self) -> bool
        ensures { result ≡ has_member self.now.seats }
    {
        has_member(&self.seats)
    }

    /// Adds a member with scans under the mask, of which at most `capacity` wait, and returns its number, which no living
    /// member has. If memory runs out, or 2^32 - 1 members live, nothing changes.
    pub fn join(&mut self, mask: Mask, capacity: u32) -> Result<u32, Mem>
        requires below { mask.bits < 2 ^ count_of self.old.shape }
        requires channel { has_data self.old.shape mask.bits ≡ true }
        requires some { 1 ≤ capacity }
        requires fits { capacity * scan_size self.old.shape mask.bits ≤ MAX_BYTES }
        ensures { Joins mask capacity result self.old self.new }
    {
        let size = scan_size(&self.shape, mask);
        let queue = Kfifo::new(self.alloc, capacity, size)?;
        let number = free_place(&self.seats);
        if number >= u32::MAX as usize {
            return Err(Mem);
        }
        seat_at(&mut self.seats, number, Membership { mask, queue })?;
        Ok(number as u32)
    }

    /// Removes the member and drops its queue. When the last member leaves, the window begins anew. Returns false exactly if
    /// there is no such member, and then nothing changes.
    pub fn leave(&mut self, member: u32) -> bool
        ensures { Leaves member result self.old self.new }
    {
        let number = member as usize;
        if !is_live(&self.seats, number) {
            return false;
        }
        self.seats[number] = None;
        if !has_member(&self.seats) {
            self.count = 0;
        }
        true
    }

    /// Takes a capture of the base, as its scan of all channels. If it fills the window, the mean of the window's captures is
    /// made at this one's moment, each member is offered the mean's scan under its own mask, once, and the number of members is
    /// returned; the window then begins anew. Returns `None` exactly if the window isn't full with it. The sums grow with each
    /// capture, so the work is linear in the channels, and for a mean in the members' channels.
    pub fn add(&mut self, scan: &[u8]) -> Option<u32>
        requires size { length scan.now ≡ scan_size self.old.shape (full_mask self.old.shape) }
        requires member { has_member self.old.seats ≡ true }
        requires fewer { (number : ℕ) → IfSome (member_at number self.old.seats) (λ m. m.queue.taken + m.queue.lost < 2 ^ 64 - 1) }
        ensures adds { Adds scan.now result self.old self.new }
        ensures averaged { (captures : List (List ℤ)) → IsWindowOf self.old.size self.old.window captures → MeansOf scan.now result self.old self.new captures }
    {
        read_values(&self.shape, &self.places, scan, &mut self.values);
        add_values(self.count, &mut self.sums, &self.values);
        self.count += 1;
        if self.count < self.size {
            return None;
        }
        put_means(self.size, &self.sums, &mut self.values);
        self.count = 0;
        let t = read_moment(&self.shape, &self.places, scan);
        let count = member_count(&self.seats);
        offer_all(
            &mut self.seats,
            &self.shape,
            &self.values,
            t,
            &mut self.room,
        );
        Some(count as u32)
    }

    /// Moves the member's oldest scan into `out`, which has the size of its scans, and returns whether there was one. Returns
    /// `None` exactly if there is no such member, and then nothing changes.
    pub fn take(&mut self, member: u32, out: &mut [u8]) -> Option<bool>
        requires { IfSome (member_at member self.old.seats) (λ m. length out.old ≡ m.queue.size) }
        ensures { TakesOf member result out.old out.new self.old self.new }
    {
        let number = member as usize;
        if !is_live(&self.seats, number) {
            return None;
        }
        Some(take_at(&mut self.seats, number, out))
    }

    /// Takes up to `most` of the member's oldest scans, appends them to `out`, one after the other, and returns how many there
    /// were. Returns `None` exactly if there is no such member, and then nothing changes. `out` must have room for the bytes of
    /// `most` scans.
    pub fn take_scans(&mut self, member: u32, most: u32, out: &mut Vec<u8>) -> Option<u32>
        requires { IfSome (member_at member self.old.seats) (λ m. length out.old.items + most * m.queue.size ≤ vec_capacity out.old) }
        ensures takes { TakesScansOf member most result out.old.items out.new.items self.old self.new }
        ensures sized { IfSome (member_at member self.old.seats) (λ m. length out.new.items ≡ length out.old.items + unwrap_or result 0 * m.queue.size) }
        ensures room { vec_capacity out.old ≤ vec_capacity out.new }
    {
        let number = member as usize;
        if !is_live(&self.seats, number) {
            return None;
        }
        Some(take_scans_at(&mut self.seats, number, most, out))
    }

    /// The number of scans that wait for the member. Returns `None` exactly if there is no such member.
    pub fn waiting(&self, member: u32) -> Option<u32>
        ensures { result ≡ option_map (λ (m : Membership). length m.queue.scans) (member_at member self.now.seats) }
    {
        match self.seats.get(member as usize) {
            Some(Some(member)) => Some(member.queue.waiting()),
            _ => None,
        }
    }

    /// The number of scans that the member has lost since its joining because its queue was full. Returns `None` exactly if
    /// there is no such member.
    pub fn lost(&self, member: u32) -> Option<u64>
        ensures { result ≡ option_map (λ (m : Membership). m.queue.lost) (member_at member self.now.seats) }
    {
        match self.seats.get(member as usize) {
            Some(Some(member)) => Some(member.queue.lost()),
            _ => None,
        }
    }
}
