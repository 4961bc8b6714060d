//! The host that the workers of a server work at.

ghost use Rattle.std.specs.Prelude.{◌<◌};
ghost use Rattle.iio_desc.specs.declared.limits.TheConstants.{MAX_TRIGGERS};

use iio_io::{Gate, Link, Ticker};
use iiod_hub::{Hub, serve_connection};
use std::alloc::Global;
use std::sync::Wait;

/// What ticks, sweeps and serves connections. Workers are generic over it, so that only one place shows that threads may share
/// a hub.
pub(crate) trait Host {
    /// Takes one moment of a ticker for a trigger. Returns whether there was one.
    fn tick<R: Wait, T: Ticker>(&self, rt: &R, alloc: Global, trigger: u32, ticker: &mut T) -> bool
        requires { trigger < MAX_TRIGGERS };

    /// Hands each device its entry of a trigger.
    fn sweep<R: Wait>(&self, rt: &R, alloc: Global, trigger: u32)
        requires { trigger < MAX_TRIGGERS };

    /// Serves the connection of that number to its end.
    fn serve<R: Wait, L: Link, G: Gate>(
        &self,
        rt: &R,
        alloc: Global,
        who: u32,
        link: &mut L,
        gate: &G,
    );
}

impl Host for Hub {
    fn tick<R: Wait, T: Ticker>(
        &self,
        rt: &R,
        alloc: Global,
        trigger: u32,
        ticker: &mut T,
    ) -> bool {
        Hub::tick(self, rt, alloc, trigger, ticker)
    }

    fn sweep<R: Wait>(&self, rt: &R, alloc: Global, trigger: u32) {
        Hub::sweep(self, rt, alloc, trigger);
    }

    fn serve<R: Wait, L: Link, G: Gate>(
        &self,
        rt: &R,
        alloc: Global,
        who: u32,
        link: &mut L,
        gate: &G,
    ) {
        serve_connection(rt, alloc, self, who, link, gate);
    }
}
