//! The core: a bench, and the connections of a script.

ghost use Rattle.std.proofs.Props.{props};
ghost use Rattle.std.specs.Prelude.{◌*◌, ◌≤◌, All, length};
ghost use Rattle.iio_history.specs.Script.{max_names};
ghost use Rattle.iio_bench.specs.Bench.{captures_of, front_of};
ghost use Rattle.iio_system.specs.Connections.{AreApart, AreOwning};
ghost use Rattle.iio_bench.specs.Seat.{seen_of};

use iio_bench::{Bench, Connection};
use iio_device::Plug;
use iio_kinds::{Seat, Tally};
use iio_sensor::Sensor;
use std::alloc::Global;

/// The devices of a description, and the connections of a script that use them, in the order of their first feeds.
#[derive(Drop)]
pub struct System {
    pub(crate) alloc: Global,
    pub(crate) bench: Bench,
    pub(crate) connections: Vec<Connection<Seat>>,
    // Room for the answers to a feed.
    pub(crate) answers: Vec<u8>,
    // The place of the connection that was fed last.
    pub(crate) last: usize,
    pub(crate) used: u64,
    ghost owned: { AreOwning seen_of (front_of bench) connections.items } by { Prim.hlevel props },
    // In a step a device makes at most 32 captures.
    ghost counted: { All (λ n. n ≤ 32 * used) (captures_of bench) } by { Prim.hlevel props },
    ghost few: { length connections.items ≤ max_names } by { Prim.hlevel props },
    ghost apart: { AreApart connections.items } by { Prim.hlevel props },
}

impl System {
    ghost use Rattle.std.specs.Prelude.{◌≡◌, List};
    ghost use Rattle.iio_history.specs.Event.{Event};
    ghost use Rattle.iio_history.specs.Registry.{Setup};
    ghost use Rattle.iio_history.specs.Summary.{summary_of};
    ghost use Rattle.iio_system.specs.Standing.{StandsFor};
    ghost use Rattle.iio_system.specs.Tally.{tally_of};

    /// The number of steps that were made plus the number of bytes that were fed.
    pub fn used(&self) -> u64
        ensures { result ≡ self.now.used }
    {
        self.used
    }

    /// What was counted in the steps that were made.
    pub fn tally(&self) -> Tally
        ensures { (s : Setup) (h : List Event) → StandsFor ⟦<Plug as Sensor>⟧.driver s h self.now → result ≡ tally_of (summary_of s h) }
    {
        self.bench.tally()
    }
}
