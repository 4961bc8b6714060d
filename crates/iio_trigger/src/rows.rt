//! What a trigger keeps of each device.

/// A device's place, under the number of its attachment.
#[derive(Clone, Copy, Debug, Default)]
pub struct Place {
    pub dev: u32,
    pub attachment: u64,
}

/// An outstanding entry: the device, its attachment when the poll came, the moment of the poll in nanoseconds, and whether the
/// entry is in hand, which means that it was handed out and isn't done yet.
#[derive(Clone, Copy, Debug, Default, PartialEq, Eq)]
pub struct Entry {
    pub dev: u32,
    pub attachment: u64,
    pub t: i64,
    pub in_hand: bool,
}
