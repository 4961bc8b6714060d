//! Limits of a script.

/// The maximum number of bytes of an input that are looked at.
pub const MAX_INPUT_BYTES: usize = 67_108_864;

/// The maximum number of connection names that a script may feed.
pub const MAX_NAMES: usize = 64;
