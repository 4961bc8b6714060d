//! A bell: a count that rises, and the threads that sleep until it does.

ghost use Rattle.std.specs.Prelude.{◌≡◌, IfOk, length};

use crossbeam_utils::CachePadded;
use iio_base::Mem;
use std::alloc::Global;
use std::sync::Wait;
use std::sync::atomic::{AtomicU64, Ordering};

/// Counts how often it was rung. It has no lock, and a thread that waits writes nothing: it sleeps on the count itself, which
/// has a cache line of its own. No clause says anything about it: any thread may ring it at any time.
#[derive(Drop)]
pub struct Bell {
    count: CachePadded<AtomicU64>,
}

impl Bell {
    /// Creates a bell that hasn't been rung.
    pub fn new() -> Bell {
        Bell {
            count: CachePadded::new(AtomicU64::new(0)),
        }
    }

    /// Returns how often the bell was rung, modulo 2^64.
    pub fn count(&self) -> u64 {
        self.count.load(Ordering::SeqCst)
    }

    /// Increments the count, and then wakes the threads that sleep, by one system call.
    pub fn ring(&self) {
        self.count.fetch_add(1, Ordering::SeqCst);
        self.count.wake_all();
    }

    /// Waits until the count differs from `seen`; returns at once if it does already. The system compares the low 32 bits of
    /// the count once more before a thread sleeps on it, so a ring that comes between isn't slept through.
    pub fn wait<R: Wait>(&self, rt: &R, seen: u64) {
        for _ in rt.forever() {
            if self.count() != seen {
                break;
            }
            self.count.park(rt, (seen & 0xffff_ffff) as u32);
        }
    }
}

/// Creates `count` bells, none of which has been rung.
pub fn bells_of(alloc: Global, count: usize) -> Result<Vec<Bell>, Mem>
    ensures { IfOk result (λ v. length v.items ≡ count) }
{
    let mut bells = Vec::new(alloc);
    for _ in 0..count {
        bells.push(Bell::new())?;
    }
    Ok(bells)
}
