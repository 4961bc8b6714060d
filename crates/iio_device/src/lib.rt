//! Devices: their members, each with a queue of its own, over one sensor.
#![tactic(auto)]

mod attributes;
mod device;
mod group;
mod handling;
mod iio_dev;
mod joining;
mod members;
mod membership;
mod plug;
mod remasking;
mod roster;
mod sensing;
mod stored;
mod totals;
mod values;

pub use device::{Device, Fitted};
pub use handling::{Handled, RawFault, Sensed};
pub use iio_base::Mem;
pub use iio_dev::IioDev;
pub use membership::{Member, Membership};
pub use plug::Plug;
pub use roster::{JoinFault, JoinRefused, RemaskFault, RemaskRefused, Roster};
pub use stored::{ChannelValues, Stored};
pub use totals::Totals;
