//! The limits of a description, besides those of a shape.

/// The most triggers.
pub const MAX_TRIGGERS: usize = 16;

/// The most devices of all kinds.
pub const MAX_DEVICES: usize = 16;

/// The most masks that a device lists.
pub const MAX_MASKS: usize = 16;

/// The most captures of which an averaging device makes one mean.
pub const MAX_WINDOW: u32 = 1000;

/// The most rows of all devices.
pub const MAX_ROWS: usize = 1_000_000;
