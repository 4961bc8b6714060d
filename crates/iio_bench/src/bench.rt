//! A bench: the devices and triggers of a description.

ghost use Rattle.std.specs.Prelude.{length, map};
ghost use Rattle.std.proofs.Props.{props};
ghost use Rattle.iio_device.specs.Site.{no_driver};
ghost use Rattle.iio_bench.specs.Averages.{IsAveraged};
ghost use Rattle.iio_bench.specs.Triggers.{IsBench, IsNumbered};
ghost use Rattle.iio_kinds.specs.Station.{any_front, number_by, stations_by};

use iio_desc::TriggerDesc;
use iio_kinds::AnyDevice;
use iio_sensor::Sensor;
use iio_trigger::Trigger;
use std::alloc::Global;
use std::marker::PhantomData;

/// The devices and triggers of a description, with one clock. A device's number is its place among the description's devices:
/// first come the input devices, then the output devices, then the averaging devices. A trigger's number is its place among the
/// description's triggers.
#[derive(Drop)]
pub struct Bench {
    pub(crate) alloc: Global,
    pub(crate) context: Vec<u8>,
    pub(crate) described: Vec<TriggerDesc>,
    pub(crate) triggers: Vec<Trigger>,
    pub(crate) devices: Vec<AnyDevice>,
    // The number of the first averaging device. They come after all others.
    pub(crate) first_average: u32,
    pub(crate) clock: i64,
    // Brings the meaning of a boxed driver into the reach of ghost members here.
    pub(crate) of: PhantomData<Box<dyn Sensor + Send>>,
    ghost sound: { IsBench described.items triggers.items (stations_by (λ p. no_driver) devices.items) } by { Prim.hlevel props },
    ghost numbered: { IsNumbered number_by devices.items } by { Prim.hlevel props },
    ghost averaged: { IsAveraged (length described.items) first_average (map any_front devices.items)
        (stations_by (λ p. no_driver) devices.items) } by { Prim.hlevel props },
}

impl Bench {
    ghost use Rattle.std.specs.Prelude.{◌≡◌};

    /// The moment that the bench's clock shows.
    pub fn clock(&self) -> i64
        ensures { result ≡ self.now.clock }
    {
        self.clock
    }
}
