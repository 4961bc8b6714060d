//! The devices of a bench, of each kind: an input device with the inner members that averaging devices have at it, an output
//! device, an averaging device.
#![tactic(auto)]

mod any_device;
mod averaging;
mod calls;
mod in_device;
mod inners;
mod joining;
mod mean_device;
mod out_device;
mod remasking;
mod seat;
mod tally;
mod writing;

pub use any_device::AnyDevice;
pub use in_device::{InDevice, Inner};
pub use mean_device::{MeanDevice, MeanSeat};
pub use out_device::OutDevice;
pub use seat::Seat;
pub use tally::{Tally, devices_tally};
