//! Numbers that look random; the same first state gives the same numbers.

ghost use Rattle.std.specs.Prelude.{◌≡◌, ◌<◌};
ghost use Rattle.iio_gen.specs.Generator.{draw};

// The multiplier and the increment are those of Knuth's MMIX.
const MULTIPLIER: u64 = 6_364_136_223_846_793_005;

const INCREMENT: u64 = 1_442_695_040_888_963_407;

/// A linear congruential generator.
#[derive(Clone, Copy)]
pub(crate) struct Generator {
    state: u64,
}

impl Generator {
    pub(crate) fn new(state: u64) -> Generator
        ensures { result.state ≡ state }
    {
        Generator { state }
    }

    /// Returns the next number, which is below `limit`. It is taken from
    /// the upper bits of the state, since the lower ones repeat too soon.
    pub(crate) fn draw(&mut self, limit: u64) -> u64
        requires { 0 < limit }
        ensures number { result ≡ (draw limit self.old.state).0 }
        ensures state { self.new.state ≡ (draw limit self.old.state).1 }
        ensures below { result < limit }
    {
        self.state = self.state.wrapping_mul(MULTIPLIER).wrapping_add(INCREMENT);
        (self.state >> 33) % limit
    }
}
