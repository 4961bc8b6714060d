//! Drivers: what a device's sensor samples, and the answers to its asks.
#![tactic(auto)]

mod asks;
mod failing;
mod held;
mod ramp;
mod recorded;
mod sensor;

pub use failing::Failing;
pub use ramp::Ramp;
pub use recorded::Recorded;
pub use sensor::{Fault, MAX_BIASES, Sensor};
