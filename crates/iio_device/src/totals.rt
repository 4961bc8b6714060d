//! The totals of what a device's queues gave and lost.

ghost use Rattle.std.specs.Prelude.{◌≡◌, ◌+◌, ◌<◌, length};
ghost use Rattle.std.specs.List.{sum};
ghost use Rattle.iio_device.specs.Totals.{no_totals, with_bytes, with_lost, with_taken};

use iio_base::Sum;
use std::simd::prelude::*;

/// What the queues of a device gave to its members, and what the queues that ended had lost. A queue ends when its member
/// leaves or gets another mask.
#[derive(Drop)]
pub struct Totals {
    /// The number of scans that were taken from them.
    pub scans: Sum,
    /// The sum of the values of all bytes of these scans.
    pub bytes: Sum,
    /// The number of scans that were lost because a queue was full, over the queues that ended.
    pub lost: Sum,
}

// The number of bytes that are added at once, in 16 bits.
const LANES: usize = 64;

// The sum of `LANES` bytes.
#[inline]
fn lane_sum(bytes: &[u8]) -> u16
    requires { length bytes.now ≡ LANES }
    ensures { result ≡ sum bytes.now }
{
    Simd::<u8, LANES>::from_slice(bytes)
        .cast::<u16>()
        .reduce_sum()
}

// The sum of fewer than `LANES` bytes.
fn short_sum(bytes: &[u8]) -> u16
    requires { length bytes.now < LANES }
    ensures { result ≡ sum bytes.now }
{
    let mut total = 0;
    for byte in bytes {
        total += u16::from(*byte);
    }
    total
}

// Adds some bytes to a sum.
fn add_bytes(total: &mut Sum, bytes: &[u8])
    ensures { total.new ≡ total.old + sum bytes.now }
{
    let mut rest = bytes;
    while rest.len() >= LANES {
        let (lanes, later) = rest.split_at(LANES);
        total.add(u64::from(lane_sum(lanes)));
        rest = later;
    }
    total.add(u64::from(short_sum(rest)));
}

impl Totals {
    /// Totals of nothing yet.
    pub fn new() -> Totals
        ensures { result ≡ no_totals }
    {
        Totals {
            scans: Sum::new(),
            bytes: Sum::new(),
            lost: Sum::new(),
        }
    }

    /// Counts `count` scans that were taken, which have these bytes.
    pub fn give(&mut self, count: u32, bytes: &[u8])
        ensures { self.new ≡ with_bytes count bytes.now self.old }
    {
        self.scans.add(u64::from(count));
        add_bytes(&mut self.bytes, bytes);
    }

    /// Counts the scan of a take if it gave one.
    pub fn count(&mut self, taken: Option<bool>, scan: &[u8])
        ensures { self.new ≡ with_taken taken scan.now self.old }
    {
        match taken {
            Some(true) => self.give(1, scan),
            _ => {}
        }
    }

    /// Counts the scans that a queue had lost when it ended.
    pub fn lose(&mut self, lost: u64)
        ensures { self.new ≡ with_lost lost self.old }
    {
        self.lost.add(lost);
    }
}
