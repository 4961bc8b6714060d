//! The number of devices that a trigger may serve.

/// The largest number of places of a trigger.
pub const MAX_PLACES: usize = 8;
