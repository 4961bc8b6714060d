//! Threshold events: the thresholds of a device's channels, and a queue of the events that cross them.
//!
//! An edge fires if a value is past its threshold and the value before wasn't, or there was none. At most 16 events are kept,
//! for one holder at a time. After the kernel's events (linux/iio/events.h).
#![tactic(auto)]

mod event;
mod monitor;
mod watch;

pub use event::{Edge, EventData, code};
pub use iio_base::Mem;
pub use monitor::{Held, Monitor, NotHolder};
pub use watch::{Watch, Watched};
