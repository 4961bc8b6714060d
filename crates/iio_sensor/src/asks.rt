//! What a driver has been told and asked.

ghost use Rattle.std.specs.Prelude.{◌≡◌, ◌<◌, pos, replicate, None, Some};
ghost use Rattle.iio_sensor.specs.Driver.{bias_in, next_count, with_one};

use crate::MAX_BIASES;
use iio_mask::Mask;

/// The biases of a driver, how often it was asked, and the moment and the mask of its last capture.
#[derive(Debug, Drop)]
pub(crate) struct Asks {
    pub(crate) biases: [i64; MAX_BIASES],
    pub(crate) asked: u64,
    pub(crate) last: Option<(i64, u64)>,
}

impl Asks {
    /// The state of a driver that was never asked, without a bias.
    pub(crate) fn none() -> Asks
        ensures value { result ≡ record { biases = replicate MAX_BIASES (pos 0); asked = 0; last = None } }
        ensures bias { bias_in result.biases ≡ (λ c. pos 0) }
    {
        Asks {
            biases: [0; MAX_BIASES],
            asked: 0,
            last: None,
        }
    }

    /// Counts an ask.
    pub(crate) fn count(&mut self)
        ensures { self.new ≡ record self.old { asked = next_count self.old.asked } }
    {
        self.asked = next_count(self.asked);
    }

    /// Counts an ask for a capture.
    pub(crate) fn count_capture(&mut self, t: i64, active: Mask)
        ensures { self.new ≡ record self.old { asked = next_count self.old.asked; last = Some (t, active.bits) } }
    {
        self.count();
        self.last = Some((t, active.bits));
    }

    /// Returns what is added to the numbers of channel `c`.
    pub(crate) fn bias(&self, c: u32) -> i64
        requires { c < MAX_BIASES }
        ensures { result ≡ bias_in self.now.biases c }
    {
        self.biases[c as usize]
    }

    /// Sets what is added to the numbers of channel `c`.
    pub(crate) fn set_bias(&mut self, c: u32, v: i64)
        requires { c < MAX_BIASES }
        ensures bias { bias_in self.new.biases ≡ with_one (bias_in self.old.biases) c v }
        ensures others { self.new ≡ record self.old { biases = self.new.biases } }
    {
        self.biases[c as usize] = v;
    }
}

/// The count after one more, or the largest number once that is reached.
pub(crate) fn next_count(count: u64) -> u64
    ensures { result ≡ next_count count }
{
    count.saturating_add(1)
}
