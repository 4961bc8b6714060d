//! The living connections, by their numbers.

ghost use Rattle.std.specs.Prelude.{◌≡◌, ◌-◌, ◌≤◌, None, IfSome, is_some, true};
ghost use Rattle.slab.specs.Slab.{get};

use iio_base::Mem;
use slab::Slab;
use std::alloc::Global;
use std::sync::{Condvar, Mutex, Wait};

/// The most connections that may live at once. (This project's own limit.)
pub const MAX_CONNECTIONS: usize = 32;

/// The numbers of the living connections, each minus 1.
#[derive(Drop)]
struct Numbers {
    taken: Slab<()>,
}

impl Numbers {
    /// Returns a number that no living connection has: the one that was given back last, otherwise the next above all taken
    /// ones. Returns `None` if `MAX_CONNECTIONS` live.
    fn take(&mut self) -> Option<u32>
        ensures free { IfSome result (λ n. (1 ≤ n) × (get self.old.taken (n - 1) ≡ None) × (is_some (get self.new.taken (n - 1)) ≡ true)) }
    {
        let key = self.taken.vacant_key();
        if self.taken.len() >= MAX_CONNECTIONS || key >= MAX_CONNECTIONS {
            return None;
        }
        match self.taken.insert(()) {
            Ok(_) => Some(key as u32 + 1),
            Err(_) => None,
        }
    }

    /// Makes the number free again.
    fn give_back(&mut self, number: u32)
        requires { 1 ≤ number }
        ensures { get self.new.taken (number - 1) ≡ None }
    {
        self.taken.try_remove(number as usize - 1);
    }
}

/// The living connections, and the threads that wait for the last of them to end.
#[derive(Drop)]
pub(crate) struct Living {
    numbers: Mutex<Numbers>,
    fewer: Condvar,
}

impl Living {
    /// Creates the state in which no connection lives. The room for all numbers is taken here.
    pub(crate) fn new(alloc: Global) -> Result<Living, Mem> {
        let taken = Slab::with_capacity(alloc, MAX_CONNECTIONS)?;
        Ok(Living {
            numbers: Mutex::new(Numbers { taken }),
            fewer: Condvar::new(),
        })
    }

    /// Returns a number for a new connection, which no other living one has. Returns `None` if `MAX_CONNECTIONS` live.
    pub(crate) fn enter<R: Wait>(&self, rt: &R) -> Option<u32>
        ensures { IfSome result (λ n. 1 ≤ n) }
    {
        self.numbers.lock(rt).take()
    }

    /// Records that a connection has ended.
    pub(crate) fn leave<R: Wait>(&self, rt: &R, number: u32)
        requires { 1 ≤ number }
    {
        self.numbers.lock(rt).give_back(number);
        self.fewer.notify_all();
    }

    /// Waits until no connection lives.
    pub(crate) fn wait_for_all<R: Wait>(&self, rt: &R) {
        let _numbers = self.fewer.wait_while(
            rt,
            self.numbers.lock(rt),
            |numbers| !numbers.taken.is_empty(),
        );
    }
}
