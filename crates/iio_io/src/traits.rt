//! What is read from and what is written to.

ghost use Rattle.std.specs.Prelude.{◌≡◌, ℕ, ◌<◌, ◌≤◌, List, [], ◌++◌, length, take, Option, Some, None, IfSome, IfNone, IfOk, OnErr};
ghost use Rattle.iio_base.specs.Faults.{Rose};
ghost use Rattle.iio_io.specs.Bytes.{Takes};

use std::error::Error;
use std::fmt;

/// A call of the outside that failed: a read took no byte, a write added none, and a door gave no connection away.
#[derive(Clone, Copy, Debug, PartialEq, Eq)]
pub struct Failed;

impl fmt::Display for Failed {
    fn fmt<W: fmt::Write>(&self, f: &mut fmt::Formatter<W>) -> fmt::Result {
        write!(f, "a call of the outside failed")
    }
}

impl Error for Failed {}

/// What bytes are read from.
pub trait Source {
    // the bytes that are left, if they are visible
    ghost left: { Self → Option (List ℕ) };

    // how many reads failed so far
    ghost faults: { Self → ℕ };

    /// Reads some bytes into the front of `out`, and returns how many. 0 for a nonempty `out` is the end.
    fn read(&mut self, out: &mut [u8]) -> Result<usize, Failed>
        ensures fits { IfOk result (λ n. n ≤ length out.new) }
        ensures next { IfOk result
            (λ n. IfSome (left self.old) (λ xs. Takes xs out.new n (left self.new))) }
        ensures silent { IfNone (left self.old) (left self.new ≡ None) }
        ensures end { IfOk result
            (λ n. n ≡ 0 → 0 < length out.old → IfSome (left self.old) (λ xs. xs ≡ [])) }
        ensures steady { IfOk result (λ _. faults self.new ≡ faults self.old) }
        ensures counted { faults self.old ≤ faults self.new }
        ensures failed { OnErr result (Rose (faults self.old) (faults self.new)) }
        ensures kept { OnErr result (left self.new ≡ left self.old) };
}

/// What bytes are written to.
pub trait Sink {
    // the bytes that were written so far, if they are visible
    ghost written: { Self → Option (List ℕ) };

    // how many writes failed so far
    ghost faults: { Self → ℕ };

    /// Writes some bytes from the front of `bytes`, and returns how many: at least one, unless `bytes` is empty.
    fn write(&mut self, bytes: &[u8]) -> Result<usize, Failed>
        ensures fits { IfOk result (λ n. n ≤ length bytes.now) }
        ensures appended { IfOk result (λ n. IfSome (written self.old)
            (λ xs. written self.new ≡ Some (xs ++ take n bytes.now))) }
        ensures silent { IfNone (written self.old) (written self.new ≡ None) }
        ensures some { IfOk result (λ n. 0 < length bytes.now → 1 ≤ n) }
        ensures steady { IfOk result (λ _. faults self.new ≡ faults self.old) }
        ensures counted { faults self.old ≤ faults self.new }
        ensures failed { OnErr result (Rose (faults self.old) (faults self.new)) }
        ensures kept { OnErr result (written self.new ≡ written self.old) };
}
