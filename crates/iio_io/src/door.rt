//! Where connections come from, and the moments of triggers while it is open.

ghost use Rattle.std.specs.Prelude.{◌≡◌, ℕ, ℤ, ◌≤◌, List, [], Option, None, IfSome, IfNone, IfOk, OnErr};
ghost use Rattle.iio_base.specs.Faults.{Rose};
ghost use Rattle.iio_io.specs.Outside.{TakesFirst, TakesOne};

use crate::link::Link;
use crate::traits::Failed;

/// What hands out connections.
pub trait Door {
    type L: Link + Send + Drop;

    // how many connections are left, if that is visible
    ghost left: { Self → Option ℕ };

    // how many calls failed so far
    ghost faults: { Self → ℕ };

    /// Returns the next connection. `None` is the door's end, and is returned only if no connection is left.
    fn next(&mut self) -> Result<Option<Self::L>, Failed>
        ensures given { IfOk result
            (λ link. IfSome link (λ _. IfSome (left self.old) (λ n. TakesOne n (left self.new)))) }
        ensures end { IfOk result (λ link. IfNone link (IfSome (left self.old) (λ n. n ≡ 0))) }
        ensures stays { IfOk result (λ link. IfNone link (left self.new ≡ left self.old)) }
        ensures silent { IfNone (left self.old) (left self.new ≡ None) }
        ensures steady { IfOk result (λ _. faults self.new ≡ faults self.old) }
        ensures counted { faults self.old ≤ faults self.new }
        ensures failed { OnErr result (Rose (faults self.old) (faults self.new)) }
        ensures kept { OnErr result (left self.new ≡ left self.old) };
}

/// A door that is opened at an address, and then has the clock for triggers.
pub trait Listen: Door {
    type T: Ticker + Send + Drop;

    /// Opens the door at an address, `HOST:PORT`. The number of connections that are left stays as it is.
    fn listen(&mut self, address: &str) -> Result<(), Failed>
        ensures left { Self.left self.new ≡ Self.left self.old }
        ensures steady { IfOk result (λ _. Self.faults self.new ≡ Self.faults self.old) }
        ensures counted { Self.faults self.old ≤ Self.faults self.new }
        ensures failed { OnErr result (Rose (Self.faults self.old) (Self.faults self.new)) };

    /// Returns the ticker of a trigger that is polled each `period` milliseconds.
    fn ticker(&self, period: u32) -> Self::T;
}

/// What gives the moments of a trigger.
pub trait Ticker {
    // the moments that are left, if they are visible
    ghost moments: { Self → Option (List ℤ) };

    /// Returns the next moment, in nanoseconds, once it has come. `None` is the end.
    fn next(&mut self) -> Option<i64>
        ensures next { IfSome result
            (λ t. IfSome (moments self.old) (λ ts. TakesFirst ts t (moments self.new))) }
        ensures end { IfNone result (IfSome (moments self.old) (λ ts. ts ≡ [])) }
        ensures kept { IfNone result (moments self.new ≡ moments self.old) }
        ensures silent { IfNone (moments self.old) (moments self.new ≡ None) };
}
