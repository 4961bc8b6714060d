//! The work of each worker.

ghost use Rattle.std.specs.Prelude.{◌≡◌, ◌≤◌, ◌<◌, length};
ghost use Rattle.iio_desc.specs.declared.limits.TheConstants.{MAX_TRIGGERS};

use crate::host::Host;
use crate::shared::Shared;
use iio_io::{Gate, Link, Ticker};
use std::alloc::Global;
use std::sync::Wait;

/// What every worker has: the host, the state that the workers share, and the token for waiting.
#[derive(Drop)]
pub(crate) struct Workplace<'a, R, H> {
    pub(crate) rt: &'a R,
    pub(crate) alloc: Global,
    pub(crate) host: &'a H,
    pub(crate) shared: &'a Shared,
}

impl<'a, R: Wait, H: Host> Workplace<'a, R, H> {
    /// Polls a trigger at each moment of its ticker, and rings the bell of the worker that handles its entries. Returns when
    /// the ticker ends, or after the first moment after the server's end.
    pub(crate) fn tick_to_end<T: Ticker + Drop>(&self, trigger: u32, mut ticker: T)
        requires trigger { trigger < MAX_TRIGGERS }
        requires bell { trigger < length self.now.shared.now.ticked.items }
    {
        for _ in self.rt.forever() {
            if !self.host.tick(self.rt, self.alloc, trigger, &mut ticker) {
                return;
            }
            self.shared.ticked[trigger as usize].ring();
            if self.shared.is_ending() {
                return;
            }
        }
    }

    /// Handles a trigger's entries after each tick, until the server ends. A tick in the middle of a sweep is seen by the next
    /// one.
    pub(crate) fn sweep_to_end(&self, trigger: u32)
        requires trigger { trigger < MAX_TRIGGERS }
        requires bell { trigger < length self.now.shared.now.ticked.items }
    {
        let mut seen = 0;
        for _ in self.rt.forever() {
            let bell = &self.shared.ticked[trigger as usize];
            bell.wait(self.rt, seen);
            if self.shared.is_ending() {
                return;
            }
            seen = bell.count();
            self.host.sweep(self.rt, self.alloc, trigger);
        }
    }

    /// Serves a connection to its end, closes it, and gives its number back.
    pub(crate) fn serve_to_end<L: Link + Drop, G: Gate>(&self, who: u32, mut link: L, gate: &G)
        requires { 1 ≤ who }
    {
        self.host.serve(self.rt, self.alloc, who, &mut link, gate);
        drop(link);
        self.shared.living.leave(self.rt, who);
    }

    /// Waits for the living connections to end, and then ends the workers of the triggers.
    pub(crate) fn end(&self) {
        self.shared.living.wait_for_all(self.rt);
        self.shared.end();
    }
}
