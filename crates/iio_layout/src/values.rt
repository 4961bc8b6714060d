//! Where the values of a capture come from.

ghost use Rattle.std.specs.Prelude.{◌≡◌, ℕ, ℤ, ◌+◌, ◌<◌, length, pos, slice_index_or};
ghost use Rattle.iio_layout.specs.Scan.{first_value};
ghost use Rattle.iio_layout.specs.Shape.{formats_of};

use crate::Shape;

/// The values of a capture, wherever they stand: in a slice, in a recorded row, or in what a driver computes. A scan is filled
/// from them channel by channel, and those of channels that aren't selected aren't looked at.
pub trait Values {
    ghost inputs: { Self → ℕ };

    ghost value: { Self → ℕ → ℕ → ℤ };

    /// The value of element `k` of data channel `c`.
    fn value(&self, c: u32, k: u32) -> i64
        requires { c < inputs self.now }
        ensures { result ≡ value self.now c k };
}

/// The values of all data channels in a slice, in their order.
#[derive(Clone, Copy)]
pub(crate) struct Listed<'a> {
    pub(crate) shape: &'a Shape,
    pub(crate) values: &'a [i64],
}

impl Values for Listed<'_> {
    ghost inputs = { λ s. length s.shape.now.channels };

    ghost value = { λ s c k. slice_index_or s.values.now (first_value (formats_of s.shape.now) c + k) (pos 0) };

    #[inline]
    fn value(&self, c: u32, k: u32) -> i64 {
        let place = self.shape.first_value(c) + k as usize;
        self.values.get(place).copied().unwrap_or(0)
    }
}
