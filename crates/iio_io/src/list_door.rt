//! A door over a list.

ghost use Rattle.std.specs.Prelude.{◌≡◌, ◌+◌, ◌++◌, ◌↔◌, [], option_to_list, IfOk, IfNone, OnErr, IsErr};
ghost use Rattle.iio_io.specs.Outside.{CallsDoor};

use crate::door::{Door, Listen};
use crate::link::Link;
use crate::list_ticker::ListTicker;
use crate::memory::is_listed;
use crate::traits::Failed;
use iio_base::Count;
use std::collections::VecDeque;
use std::marker::Model;

/// A door that gives the links of a list in their order, for tests. `listen` and `next` fail at the listed
/// calls, counted from 1 over both. Its tickers are at their end from the start.
#[derive(Drop)]
pub struct ListDoor<L> {
    links: VecDeque<L>,
    fails: Vec<u64>,
    calls: u64,
    faults: Count,
}

impl<L> Model for ListDoor<L> {
    ghost use Rattle.iio_io.specs.Outside.{Links};

    ghost Value = { Links L };

    ghost view = { λ d. record { left = d.links.items; fails = d.fails.items; calls = d.calls; faults = d.faults } };
}

impl<L> ListDoor<L> {
    /// Makes a door of these links. No call was made yet.
    pub fn new(links: Vec<L>, fails: Vec<u64>) -> ListDoor<L>
        ensures { result ≡ record { left = links.items; fails = fails.items; calls = 0; faults = 0 } }
    {
        ListDoor {
            links: VecDeque::from_vec(links),
            fails,
            calls: 0,
            faults: Count::new(),
        }
    }

    // Counts a call, and fails if it is listed.
    fn call(&mut self) -> Result<(), Failed>
        ensures call { CallsDoor self.old result self.new }
        ensures left { self.new.left ≡ self.old.left }
    {
        let listed = is_listed(&self.fails, self.calls);
        self.calls = self.calls.saturating_add(1);
        if listed {
            self.faults.rise();
            return Err(Failed);
        }
        Ok(())
    }
}

impl<L: Link + Send + Drop> Door for ListDoor<L> {
    ghost use Rattle.std.specs.Prelude.{Some, length};

    type L = L;

    ghost left = { λ d. Some (length d.left) };

    ghost faults = { λ d. d.faults };

    fn next(&mut self) -> Result<Option<L>, Failed>
        ensures call { CallsDoor self.old result self.new }
        ensures given { IfOk result (λ link. self.old.left ≡ option_to_list link ++ self.new.left) }
        ensures end { IfOk result (λ link. IfNone link (self.old.left ≡ [])) }
    {
        self.call()?;
        Ok(self.links.pop_front())
    }
}

impl<L: Link + Send + Drop> Listen for ListDoor<L> {
    type T = ListTicker;

    fn listen(&mut self, _address: &str) -> Result<(), Failed>
        ensures call { CallsDoor self.old result self.new }
        ensures left { self.new.left ≡ self.old.left }
    {
        self.call()
    }

    fn ticker(&self, _period: u32) -> ListTicker
        ensures { result ≡ [] }
    {
        ListTicker::new(Vec::new(*self.links.allocator()))
    }
}
