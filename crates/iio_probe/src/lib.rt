//! Probing: makes the devices of a description, each with what it samples.
#![tactic(auto)]

mod devices;

pub use devices::devices_of;
pub use iio_base::Mem;
