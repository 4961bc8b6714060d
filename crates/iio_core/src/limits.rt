//! How much a connection may open.

/// The largest number of scans that a member's queue can hold.
pub const MAX_SCANS: u32 = 65_536;
