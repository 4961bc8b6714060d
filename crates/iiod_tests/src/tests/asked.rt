//! A door that records what was asked of it.

use iio_io::{Door, Failed, Link, ListDoor, ListTicker, Listen};
use std::sync::atomic::{AtomicU32, Ordering};

/// The requests to a door: the number of bytes of the addresses, the number of tickers, and the sum of their periods.
#[derive(Drop)]
pub struct Asked {
    pub bytes: AtomicU32,
    pub tickers: AtomicU32,
    pub periods: AtomicU32,
}

impl Asked {
    /// Creates the record of no requests.
    pub fn new() -> Asked {
        Asked {
            bytes: AtomicU32::new(0),
            tickers: AtomicU32::new(0),
            periods: AtomicU32::new(0),
        }
    }

    /// Returns the number of bytes of the addresses, the number of tickers, and the sum of their periods.
    pub fn told(&self) -> (u32, u32, u32) {
        (
            self.bytes.load(Ordering::SeqCst),
            self.tickers.load(Ordering::SeqCst),
            self.periods.load(Ordering::SeqCst),
        )
    }
}

/// A door over a list that records what was asked of it.
#[derive(Drop)]
pub struct AskedDoor<'a, L> {
    pub door: ListDoor<L>,
    pub asked: &'a Asked,
}

impl<'a, L: Link + Send + Drop> Door for AskedDoor<'a, L> {
    ghost use Rattle.std.specs.Prelude.{Some, length};

    ghost left = { λ d. Some (length d.door.left) };

    ghost faults = { λ d. d.door.faults };

    type L = L;

    fn next(&mut self) -> Result<Option<L>, Failed> {
        self.door.next()
    }
}

impl<'a, L: Link + Send + Drop> Listen for AskedDoor<'a, L> {
    type T = ListTicker;

    fn listen(&mut self, address: &str) -> Result<(), Failed> {
        let bytes = u32::try_from(address.len()).unwrap_or(u32::MAX);
        self.asked.bytes.fetch_add(bytes, Ordering::SeqCst);
        self.door.listen(address)
    }

    fn ticker(&self, period: u32) -> ListTicker {
        self.asked.tickers.fetch_add(1, Ordering::SeqCst);
        self.asked.periods.fetch_add(period, Ordering::SeqCst);
        self.door.ticker(period)
    }
}
