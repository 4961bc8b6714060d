//! Averaging devices: the means of a base's captures.
//!
//! An averaging device has the channels of its base, and takes the base's captures one by one, as scans of all channels.
//! With each that fills its window it makes the mean of the window's captures, element by element, rounded towards zero,
//! at the last one's moment, and each of its members is offered the mean's scan under its own mask. (This project's own.)
#![tactic(auto)]

mod average;
mod members;
mod reading;
mod sums;

pub use average::Average;
pub use iio_base::Mem;
pub use reading::reading_law;
