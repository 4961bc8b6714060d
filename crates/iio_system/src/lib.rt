//! The core: a bench, and the connections of a script that use it; the steps of a script.
#![tactic(auto)]

mod connections;
mod lines;
mod moves;
mod quoted;
mod step;
mod steps;
mod system;

pub use iio_base::Mem;
pub use iio_bench::{Bench, Connection};
pub use iio_core::{Became, Gave};
pub use iio_history::MAX_NAMES;
pub use iio_kinds::{Seat, Tally};
pub use quoted::Quoted;
pub use step::Step;
pub use system::System;
