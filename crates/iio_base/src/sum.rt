//! Sums that don't stop at a type's end.

ghost use Rattle.std.specs.Prelude.{◌≡◌, ℕ, ◌+◌, ◌-◌, ◌*◌, ◌%◌, ◌^◌, min};

use crate::count::Count;
use std::marker::Model;

/// A sum of numbers.
#[derive(Drop)]
pub struct Sum {
    // The sum modulo 2^64, and how often it wrapped.
    low: u64,
    rounds: Count,
}

impl Model for Sum {
    ghost use Rattle.std.specs.Prelude.{ℕ, ◌+◌, ◌*◌, ◌^◌};

    ghost Value = { ℕ };

    ghost view = { λ t. t.low + 2 ^ 64 * t.rounds };
}

impl Sum {
    /// A sum of 0.
    pub fn new() -> Sum
        ensures { result ≡ 0 }
    {
        Sum {
            low: 0,
            rounds: Count::new(),
        }
    }

    /// Adds a number.
    pub fn add(&mut self, n: u64)
        ensures { self.new ≡ self.old + n }
    {
        if n <= u64::MAX - self.low {
            self.low += n;
        } else {
            self.low = n - (u64::MAX - self.low) - 1;
            self.rounds.rise();
        }
    }

    /// The sum, but at most 2^64 - 1.
    pub fn get(&self) -> u64
        ensures { result ≡ min self.now (2 ^ 64 - 1) }
    {
        let low = self.low;
        if self.rounds.get() > 0 {
            return u64::MAX;
        }
        low
    }

    /// The sum modulo 2^64.
    pub fn wrapped(&self) -> u64
        ensures { result ≡ self.now % 2 ^ 64 }
    {
        self.low
    }
}
