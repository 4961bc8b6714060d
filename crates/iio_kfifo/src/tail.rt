//! The end of a queue at which scans come in.

ghost use Rattle.std.specs.Prelude.{◌≡◌, ℕ, ◌+◌, ◌-◌, ◌^◌, ◌<◌, List, length};

/// What became of an offered scan.
#[derive(Clone, Copy, Debug, PartialEq, Eq)]
pub enum Offered {
    /// It was put at the queue's end.
    Taken,
    /// The queue was full.
    Lost,
}

/// The end of a queue at which scans come in. All its scans have one size, in bytes.
pub trait Tail {
    ghost use Rattle.iio_kfifo.specs.declared.tail.Offered.{Offered};
    ghost use Rattle.iio_kfifo.specs.Offered.{CountsOne};

    // how many scans were taken in so far
    ghost taken: { Self → ℕ };

    // how many were lost
    ghost lost: { Self → ℕ };

    // the size of a scan in bytes
    ghost size: { Self → ℕ };

    // the most scans that can wait
    ghost capacity: { Self → ℕ };

    // what one offer of a scan returns, and how it changes the queue
    ghost offer_gives: { Self → List ℕ → Offered → Self → Type 0 };

    /// Offers a scan.
    fn offer(&mut self, scan: &[u8]) -> Offered
        requires size { length scan.now ≡ size self.old }
        requires fewer { taken self.old + lost self.old < 2 ^ 64 - 1 }
        ensures gives { offer_gives self.old scan.now result self.new }
        ensures counts { CountsOne result (taken self.old) (lost self.old) (taken self.new) (lost self.new) }
        ensures same_size { size self.new ≡ size self.old }
        ensures same_capacity { capacity self.new ≡ capacity self.old };

    /// The number of scans that were lost so far.
    fn lost(&self) -> u64
        ensures { result ≡ lost self.now };

    /// The size of a scan in bytes.
    fn size(&self) -> u32
        ensures { result ≡ size self.now };

    /// The most scans that can wait.
    fn capacity(&self) -> u32
        ensures { result ≡ capacity self.now };
}
