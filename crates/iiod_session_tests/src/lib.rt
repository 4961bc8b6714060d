//! Devices in memory whose seats record the scans that they gave, and tests of sessions over them.
#![tactic(auto)]

mod shelf;
#[cfg(test)]
mod tests;

pub use shelf::{Shelf, ShelfSeat};
