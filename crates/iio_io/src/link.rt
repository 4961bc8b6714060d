//! What a connection comes over, and how one is begun from here.

ghost use Rattle.std.specs.Prelude.{◌≡◌, ℕ, ◌<◌, ◌≤◌, List, [], ◌++◌, length, take, Option, Some, None, IfSome, IfNone, IfOk, OnErr};
ghost use Rattle.iio_base.specs.Faults.{Rose};
ghost use Rattle.iio_io.specs.Bytes.{Takes};

use crate::traits::Failed;

/// A source and a sink of bytes, with one count of faults for both directions.
pub trait Link {
    // the bytes that are left to be received, if they are visible
    ghost left: { Self → Option (List ℕ) };

    // the bytes that were sent so far, if they are visible
    ghost written: { Self → Option (List ℕ) };

    // how many calls failed so far
    ghost faults: { Self → ℕ };

    /// Receives some bytes into the front of `out`, and returns how many. 0 for a nonempty `out` is the end. What was sent
    /// stays as it is.
    fn recv(&mut self, out: &mut [u8]) -> Result<usize, Failed>
        ensures fits { IfOk result (λ n. n ≤ length out.new) }
        ensures next { IfOk result
            (λ n. IfSome (left self.old) (λ xs. Takes xs out.new n (left self.new))) }
        ensures silent { IfNone (left self.old) (left self.new ≡ None) }
        ensures end { IfOk result
            (λ n. n ≡ 0 → 0 < length out.old → IfSome (left self.old) (λ xs. xs ≡ [])) }
        ensures written { written self.new ≡ written self.old }
        ensures steady { IfOk result (λ _. faults self.new ≡ faults self.old) }
        ensures counted { faults self.old ≤ faults self.new }
        ensures failed { OnErr result (Rose (faults self.old) (faults self.new)) }
        ensures kept { OnErr result (left self.new ≡ left self.old) };

    /// Sends some bytes from the front of `bytes`, and returns how many: at least one, unless `bytes` is empty. What is left to
    /// be received stays as it is.
    fn send(&mut self, bytes: &[u8]) -> Result<usize, Failed>
        ensures fits { IfOk result (λ n. n ≤ length bytes.now) }
        ensures appended { IfOk result (λ n. IfSome (written self.old)
            (λ xs. written self.new ≡ Some (xs ++ take n bytes.now))) }
        ensures silent { IfNone (written self.old) (written self.new ≡ None) }
        ensures some { IfOk result (λ n. 0 < length bytes.now → 1 ≤ n) }
        ensures left { left self.new ≡ left self.old }
        ensures steady { IfOk result (λ _. faults self.new ≡ faults self.old) }
        ensures counted { faults self.old ≤ faults self.new }
        ensures failed { OnErr result (Rose (faults self.old) (faults self.new)) }
        ensures kept { OnErr result (written self.new ≡ written self.old) };
}

/// A link that can be begun from here.
pub trait Dial: Link {
    /// Begins the connection at an address, `HOST:PORT`. What is visible of the bytes that are left and of those that were sent
    /// stays as it is.
    fn dial(&mut self, address: &str) -> Result<(), Failed>
        ensures left { Self.left self.new ≡ Self.left self.old }
        ensures written { Self.written self.new ≡ Self.written self.old }
        ensures steady { IfOk result (λ _. Self.faults self.new ≡ Self.faults self.old) }
        ensures counted { Self.faults self.old ≤ Self.faults self.new }
        ensures failed { OnErr result (Rose (Self.faults self.old) (Self.faults self.new)) };
}
