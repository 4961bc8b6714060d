//! A seat at a bench.

use iio_mask::Mask;

/// A member of a device of a bench, as a connection holds it. Its queue is kept at the device.
#[derive(Debug, Drop)]
pub struct Seat {
    /// The member's number at the device, which no other member ever has.
    pub number: u64,
    /// The channels that the member asked for.
    pub mask: Mask,
    /// The size in bytes of one of its scans.
    pub size: u32,
    /// The number of scans that its queue can hold.
    pub capacity: u32,
}
