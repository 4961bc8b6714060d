//! What the workers of a server share.

ghost use Rattle.std.specs.Prelude.{◌≡◌, length, IfOk};

use crate::living::Living;
use iio_base::Mem;
use iiod_hub::{Bell, bells_of};
use std::alloc::Global;
use std::sync::atomic::{AtomicBool, Ordering};

/// A bell for each trigger, which its ticks ring; the living connections; and whether the server is ending.
#[derive(Drop)]
pub(crate) struct Shared {
    pub(crate) ticked: Vec<Bell>,
    pub(crate) living: Living,
    ending: AtomicBool,
}

impl Shared {
    /// Creates the state for `triggers` triggers, before any tick or connection.
    pub(crate) fn new(alloc: Global, triggers: usize) -> Result<Shared, Mem>
        ensures { IfOk result (λ s. length s.ticked.items ≡ triggers) }
    {
        Ok(Shared {
            ticked: bells_of(alloc, triggers)?,
            living: Living::new(alloc)?,
            ending: AtomicBool::new(false),
        })
    }

    /// Whether the server is ending.
    pub(crate) fn is_ending(&self) -> bool {
        self.ending.load(Ordering::SeqCst)
    }

    /// Tells the workers of the triggers that the server is ending.
    pub(crate) fn end(&self) {
        self.ending.store(true, Ordering::SeqCst);
        for bell in &self.ticked {
            bell.ring();
        }
    }
}
