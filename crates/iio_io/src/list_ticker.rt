//! A ticker over a list.

ghost use Rattle.std.specs.Prelude.{◌≡◌, ◌++◌, option_to_list, IfNone, []};

use crate::door::Ticker;
use std::collections::VecDeque;
use std::marker::Model;

/// A ticker that gives the moments of a list in their order and waits for none, for tests. Contracts see
/// it as the moments that are left.
#[derive(Drop)]
pub struct ListTicker {
    moments: VecDeque<i64>,
}

impl Model for ListTicker {
    ghost use Rattle.std.specs.Prelude.{List, ℤ};

    ghost Value = { List ℤ };

    ghost view = { λ t. t.moments.items };
}

impl ListTicker {
    /// Makes a ticker of these moments, in nanoseconds.
    pub fn new(moments: Vec<i64>) -> ListTicker
        ensures { result ≡ moments.items }
    {
        ListTicker {
            moments: VecDeque::from_vec(moments),
        }
    }
}

impl Ticker for ListTicker {
    ghost use Rattle.std.specs.Prelude.{Some};

    ghost moments = { λ t. Some t };

    fn next(&mut self) -> Option<i64>
        ensures given { self.old ≡ option_to_list result ++ self.new }
        ensures end { IfNone result (self.old ≡ []) }
    {
        self.moments.pop_front()
    }
}
