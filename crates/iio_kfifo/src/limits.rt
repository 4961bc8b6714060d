//! How large a queue may be.

/// The most bytes that the scans of a queue have together.
pub const MAX_BYTES: u32 = 4_194_304;
