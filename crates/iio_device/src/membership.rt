//! A member of a device.

use iio_mask::Mask;

/// A member of a device. A device never uses a number twice.
#[derive(Clone, Copy, Debug, PartialEq, Eq)]
pub struct Member {
    pub number: u64,
}

/// A member: its number, its mask, the number of captures that the device had when it joined or last got another mask, and its
/// queue's end.
#[derive(Drop)]
pub struct Membership<Q> {
    pub number: u64,
    pub mask: Mask,
    pub joined: u64,
    pub tail: Q,
}
