//! Counts that don't stop at a type's end.
//!
//! A count is a `u64` up to that type's end. Past it, which no run reaches, it goes on in the proof alone, so that what is said
//! of it holds without a bound on how often it rises.

ghost use Rattle.std.specs.Prelude.{◌≡◌, ℕ, ◌+◌, ◌-◌, ◌^◌, min};
ghost use base.Fml.{ftrue};

use std::marker::{Model, PhantomData, Send};

// How often a count rose past its type's end. It takes no bytes.
#[derive(Drop)]
pub struct Beyond {
    marker: PhantomData<()>,
    pub ghost count: { ℕ },
}

impl Model for Beyond {
    ghost also_owns = { λ _. ftrue };
}

unsafe impl Send for Beyond {}

impl Beyond {
    fn new() -> Beyond
        ensures { result.count ≡ 0 }
    {
        Beyond {
            marker: PhantomData,
        }
    }

    fn rise(&mut self)
        ensures { self.new.count ≡ self.old.count + 1 }
    {}
}

/// A count of how often something happened.
#[derive(Drop)]
pub struct Count {
    seen: u64,
    beyond: Beyond,
}

impl Model for Count {
    ghost use Rattle.std.specs.Prelude.{◌≡◌, ℕ, ◌+◌, ◌-◌, ◌^◌, ◌<◌};

    ghost Value = { ℕ };

    ghost view = { λ t. t.seen + t.beyond.count };

    ghost invariant = { λ t. t.seen < 2 ^ 64 - 1 → t.beyond.count ≡ 0 };
}

impl Count {
    /// A count of 0.
    pub fn new() -> Count
        ensures { result ≡ 0 }
    {
        Count {
            seen: 0,
            beyond: Beyond::new(),
        }
    }

    /// Adds one.
    pub fn rise(&mut self)
        ensures { self.new ≡ self.old + 1 }
    {
        if self.seen < u64::MAX {
            self.seen += 1;
        } else {
            self.beyond.rise();
        }
    }

    /// The count, but at most 2^64 - 1.
    pub fn get(&self) -> u64
        ensures { result ≡ min self.now (2 ^ 64 - 1) }
    {
        self.seen
    }
}
