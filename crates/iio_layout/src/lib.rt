//! The shape of a device, and the layout of its scans.
#![tactic(auto)]

mod active_mask;
mod channel;
mod layout;
mod rows;
mod scan;
mod shape;
mod values;

pub use active_mask::{active, has_data};
pub use channel::{Channel, Direction, Kind, Suffix, read_id, write_id};
pub use iio_base::Mem;
pub use layout::{aligned, place, scan_size};
pub use rows::Rows;
pub use scan::{fill, fill_from};
pub use shape::{MAX_CHANNELS, Shape};
pub use values::Values;
