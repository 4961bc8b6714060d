//! A queue of scans in one block of memory.

ghost use Rattle.std.specs.Prelude.{◌≡◌, ℕ, ◌+◌, ◌*◌, ◌≤◌, ◌<◌, ◌-◌, ◌^◌, ◌++◌, [], length, take, drop, vec_capacity, IfOk, MatchBool};
ghost use Rattle.iio_kfifo.specs.declared.limits.TheConstants.{MAX_BYTES};
ghost use Rattle.iio_kfifo.specs.Ring.{first_after, slot_after};

use crate::tail::{Offered, Tail};
use iio_base::Mem;
use std::alloc::Global;
use std::marker::Model;

/// A queue of whole scans, in a ring of slots. A slot's bytes exist once a scan was written to it.
#[derive(Debug, Drop)]
pub struct Kfifo {
    bytes: Vec<u8>,
    // The slot of the oldest scan that waits; 0 if none waits.
    first: u32,
    waiting: u32,
    taken: u64,
    lost: u64,
    size: u32,
    capacity: u32,
}

impl Model for Kfifo {
    ghost use Rattle.std.specs.Prelude.{◌*◌, length, vec_capacity};
    ghost use Rattle.iio_kfifo.specs.Queue.{Queue, scans_in};
    ghost use Rattle.iio_kfifo.specs.Ring.{IsRing, bytes_from};

    ghost Value = { Queue };

    ghost view = { λ q. record {
      scans = scans_in q.size q.waiting (bytes_from (q.first * q.size) q.bytes.items);
      taken = q.taken;
      lost = q.lost;
      size = q.size;
      capacity = q.capacity;
    } };

    ghost invariant = { λ q. IsRing q.first q.waiting q.size q.capacity (length q.bytes.items) (vec_capacity q.bytes) };
}

// The slot that comes `count` slots after `slot`, in a ring of `slots` slots.
fn slot_after(slot: u32, count: u32, slots: u32) -> u32
    requires slot { slot < slots }
    requires count { count ≤ slots }
    ensures value { result ≡ slot_after slot count slots }
    ensures within { result < slots }
{
    let to_end = slots - slot;
    if count < to_end {
        slot + count
    } else {
        count - to_end
    }
}

// The slot of the first scan once `count` scans were taken and `left` scans are left. If none is left, the ring begins at its
// first slot again, so that a queue that is read often uses few bytes.
fn first_after(first: u32, count: u32, left: u32, slots: u32) -> u32
    requires slot { first < slots }
    requires count { count ≤ slots }
    ensures value { result ≡ first_after first count left slots }
    ensures within { result < slots }
{
    if left == 0 {
        return 0;
    }
    slot_after(first, count, slots)
}

// Writes a scan from byte `start` on, over the bytes that are there, which may be fewer than the scan has.
fn write_at(bytes: &mut Vec<u8>, start: usize, scan: &[u8])
    requires start { start ≤ length bytes.old.items }
    requires room { start + length scan.now ≤ vec_capacity bytes.old }
    ensures items { bytes.new.items ≡ take start bytes.old.items ++ scan.now ++ drop (start + length scan.now) bytes.old.items }
    ensures room { vec_capacity bytes.old ≤ vec_capacity bytes.new }
{
    if bytes.len() - start < scan.len() {
        write_last(bytes, start, scan);
    } else {
        bytes[start..start + scan.len()].copy_from_slice(scan);
    }
}

// Writes a scan from byte `start` on, in place of all bytes from there on.
#[inline]
fn write_last(bytes: &mut Vec<u8>, start: usize, scan: &[u8])
    requires start { start ≤ length bytes.old.items }
    requires room { start + length scan.now ≤ vec_capacity bytes.old }
    ensures items { bytes.new.items ≡ take start bytes.old.items ++ scan.now }
    ensures room { vec_capacity bytes.old ≤ vec_capacity bytes.new }
{
    bytes.truncate(start);
    let _ = bytes.extend_from_slice(scan);
}

impl Kfifo {
    ghost use Rattle.iio_kfifo.specs.Queue.{GivesFirst, GivesScans};

    /// Makes an empty queue of at most `capacity` scans of `size` bytes each. All memory that it ever takes is taken here.
    pub fn new(alloc: Global, capacity: u32, size: u32) -> Result<Kfifo, Mem>
        requires some { 1 ≤ capacity }
        requires bytes { 1 ≤ size }
        requires fits { capacity * size ≤ MAX_BYTES }
        ensures { IfOk result (λ q. q ≡ record {
          scans = [];
          taken = 0;
          lost = 0;
          size = size;
          capacity = capacity;
        }) }
    {
        let bytes = Vec::with_capacity(alloc, capacity as usize * size as usize)?;
        Ok(Kfifo {
            bytes,
            first: 0,
            waiting: 0,
            taken: 0,
            lost: 0,
            size,
            capacity,
        })
    }

    /// Moves the oldest scan into `out`. Returns whether there was one.
    pub fn take(&mut self, out: &mut [u8]) -> bool
        requires { length out.old ≡ self.old.size }
        ensures { MatchBool result
            (GivesFirst self.old out.new self.new)
            ((self.old.scans ≡ []) × (self.new ≡ self.old) × (out.new ≡ out.old)) }
    {
        if self.waiting == 0 {
            return false;
        }
        let size = self.size as usize;
        let start = self.first as usize * size;
        out.copy_from_slice(&self.bytes[start..start + size]);
        self.waiting -= 1;
        self.first = first_after(self.first, 1, self.waiting, self.capacity);
        true
    }

    /// Takes up to `most` of the oldest scans, appends them to `out`, one after the other, and returns how many there were.
    /// `out` must have room for the bytes of `most` scans.
    pub fn take_scans(&mut self, most: u32, out: &mut Vec<u8>) -> u32
        requires { length out.old.items + most * self.old.size ≤ vec_capacity out.old }
        ensures gives { GivesScans most result out.old.items out.new.items self.old self.new }
        ensures sized { length out.new.items ≡ length out.old.items + result * self.old.size }
        ensures room { vec_capacity out.old ≤ vec_capacity out.new }
    {
        let count = self.waiting.min(most);
        // First the scans up to the ring's end, then those from its start.
        let run = count.min(self.capacity - self.first);
        let size = self.size as usize;
        let start = self.first as usize * size;
        let _ = out.extend_from_slice(&self.bytes[start..start + run as usize * size]);
        let _ = out.extend_from_slice(&self.bytes[..(count - run) as usize * size]);
        self.waiting -= count;
        self.first = first_after(self.first, count, self.waiting, self.capacity);
        count
    }

    /// The number of scans that wait.
    pub fn waiting(&self) -> u32
        ensures count { result ≡ length self.now.scans }
        ensures within { result ≤ self.now.capacity }
    {
        self.waiting
    }
}

impl Tail for Kfifo {
    ghost use Rattle.iio_kfifo.specs.Queue.{Offers};

    ghost taken = { λ q. q.taken };

    ghost lost = { λ q. q.lost };

    ghost size = { λ q. q.size };

    ghost capacity = { λ q. q.capacity };

    ghost offer_gives = { Offers };

    fn offer(&mut self, scan: &[u8]) -> Offered {
        if self.waiting == self.capacity {
            self.lost += 1;
            return Offered::Lost;
        }
        let slot = slot_after(self.first, self.waiting, self.capacity);
        write_at(&mut self.bytes, slot as usize * self.size as usize, scan);
        self.waiting += 1;
        self.taken += 1;
        Offered::Taken
    }

    fn lost(&self) -> u64 {
        self.lost
    }

    fn size(&self) -> u32 {
        self.size
    }

    fn capacity(&self) -> u32 {
        self.capacity
    }
}
