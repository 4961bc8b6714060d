//! A source and a sink in memory, for tests and for work without an outside.

ghost use Rattle.std.specs.Prelude.{◌≡◌, ◌^◌, ◌⊎◌, ◌-◌, ◌+◌, ◌≤◌, ◌++◌, ◌↔◌, ℕ, [], length, take, drop, min, IfOk, OnErr, IsErr, IsTrue};
ghost use Rattle.iio_io.specs.Memory.{IsListed};
ghost use Rattle.iio_io.specs.MemEnds.{MemReads, MemWrites};

use crate::traits::{Failed, Sink, Source};
use iio_base::{Count, Mem};
use std::alloc::Global;
use std::marker::Model;

/// A source over bytes in memory. Each call gives at most `piece` bytes, and the listed calls fail, counted from 1.
#[derive(Drop)]
pub struct MemSource {
    bytes: Vec<u8>,
    at: usize,
    piece: usize,
    fails: Vec<u64>,
    calls: u64,
    faults: u64,
}

impl Model for MemSource {
    ghost use Rattle.std.specs.Prelude.{◌≤◌, drop, vec_len};
    ghost use Rattle.iio_io.specs.Memory.{Feed};

    ghost Value = { Feed };

    ghost view = { λ s. record { left = drop s.at s.bytes.items; piece = s.piece; fails = s.fails.items; calls = s.calls; faults = s.faults } };

    ghost invariant = { λ s. (s.at ≤ vec_len s.bytes) × (1 ≤ s.piece) × (s.faults ≤ s.calls) };
}

impl MemSource {
    /// Makes a source that gives `bytes`. No call was made yet.
    pub fn new(bytes: Vec<u8>, piece: usize, fails: Vec<u64>) -> MemSource
        requires { 1 ≤ piece }
        ensures { result ≡ record {
          left = bytes.items;
          piece = piece;
          fails = fails.items;
          calls = 0;
          faults = 0;
        } }
    {
        MemSource {
            bytes,
            at: 0,
            piece,
            fails,
            calls: 0,
            faults: 0,
        }
    }

    /// How often a read failed.
    pub fn faults(&self) -> u64
        ensures { result ≡ self.now.faults }
    {
        self.faults
    }
}

impl Source for MemSource {
    ghost use Rattle.std.specs.Prelude.{Some};

    ghost left = { λ s. Some s.left };

    ghost faults = { λ s. s.faults };

    fn read(&mut self, out: &mut [u8]) -> Result<usize, Failed>
        ensures { MemReads self.old out.old result self.new out.new }
    {
        let listed = is_listed(&self.fails, self.calls);
        self.calls = self.calls.saturating_add(1);
        if listed {
            self.faults += 1;
            return Err(Failed);
        }
        let room = out.len().min(self.bytes.len() - self.at);
        let count = self.piece.min(room);
        let end = self.at + count;
        out[..count].copy_from_slice(&self.bytes[self.at..end]);
        self.at = end;
        Ok(count)
    }
}

/// A sink in memory that takes at most `room` bytes in all. It fails at the listed calls, counted from 1, and if no room is
/// left.
#[derive(Drop)]
pub struct MemSink {
    bytes: Vec<u8>,
    room: usize,
    fails: Vec<u64>,
    calls: u64,
    faults: Count,
}

impl Model for MemSink {
    ghost use Rattle.std.specs.Prelude.{◌≤◌, vec_capacity, vec_len};
    ghost use Rattle.iio_io.specs.Memory.{Store};

    ghost Value = { Store };

    ghost view = { λ s. record { written = s.bytes.items; room = s.room; fails = s.fails.items; calls = s.calls; faults = s.faults } };

    ghost invariant = { λ s. (vec_len s.bytes ≤ s.room) × (s.room ≤ vec_capacity s.bytes) };
}

impl MemSink {
    ghost use Rattle.std.specs.Prelude.{[], IfOk};

    /// Makes a sink with nothing written. All memory that it ever takes is taken here.
    pub fn new(alloc: Global, room: usize, fails: Vec<u64>) -> Result<MemSink, Mem>
        ensures { IfOk result (λ s. s ≡ record {
          written = [];
          room = room;
          fails = fails.items;
          calls = 0;
          faults = 0;
        }) }
    {
        let bytes = Vec::with_capacity(alloc, room)?;
        Ok(MemSink {
            bytes,
            room,
            fails,
            calls: 0,
            faults: Count::new(),
        })
    }

    /// The bytes that were written.
    pub fn written(&self) -> &[u8]
        ensures { result.now ≡ self.now.written }
    {
        self.bytes.as_slice()
    }

    /// How often a write failed, but at most 2^64 - 1.
    pub fn faults(&self) -> u64
        ensures { result ≡ min self.now.faults (2 ^ 64 - 1) }
    {
        self.faults.get()
    }
}

impl Sink for MemSink {
    ghost use Rattle.std.specs.Prelude.{Some};

    ghost written = { λ s. Some s.written };

    ghost faults = { λ s. s.faults };

    fn write(&mut self, bytes: &[u8]) -> Result<usize, Failed>
        ensures { MemWrites self.old bytes.now result self.new }
    {
        let listed = is_listed(&self.fails, self.calls);
        self.calls = self.calls.saturating_add(1);
        let left = self.room - self.bytes.len();
        if listed || left == 0 {
            self.faults.rise();
            return Err(Failed);
        }
        let count = bytes.len().min(left);
        self.bytes.extend_from_slice(&bytes[..count]).unwrap();
        Ok(count)
    }
}

// Whether the call after `calls` others is listed. Numbers past the type's end are on no list.
pub(crate) fn is_listed(fails: &[u64], calls: u64) -> bool
    ensures { IsTrue result ↔ IsListed fails.now calls }
{
    calls < u64::MAX && fails.contains(&(calls + 1))
}
