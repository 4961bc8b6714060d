//! Finds the first byte of a text that passes a test, sixteen bytes at a time.

ghost use Rattle.std.specs.Prelude.{◌≡◌, ◌+◌, ◌≤◌, ℕ, Bool, map, length, take};
ghost use Rattle.std.specs.List.{position_or_len};
ghost use Rattle.std.specs.Simd.Lanes.{chunk, mask_l};
ghost use Rattle.iio_text.specs.Runs.{first_set};

use std::simd::prelude::*;

// How many bytes are looked at at a time.
const LANES: usize = 16;

/// A test of bytes.
pub(crate) trait ByteTest {
    ghost passes: { Self → ℕ → Bool };

    fn passes_at(&self, byte: u8) -> bool
        ensures { result ≡ passes self.now byte };

    // Which of the sixteen bytes from a place on pass, as a mask.
    fn passing_in_lanes(&self, text: &[u8], place: usize) -> u64
        requires { place + LANES ≤ length text.now }
        ensures { result ≡ mask_l (map (passes self.now) (chunk place LANES text.now)) };
}

/// The place of the lowest bit of a mask of sixteen bits, or sixteen if none is set.
#[inline(always)]
pub(crate) fn first_set(mask: u64) -> usize
    ensures { result ≡ first_set mask }
{
    if mask == 0 {
        LANES
    } else {
        mask.trailing_zeros() as usize
    }
}

/// Copies the bytes of a text before the first that passes, or all if none passes, to the front of `room`, and returns how many
/// these are.
#[inline(always)]
pub(crate) fn copy_before<T: ByteTest>(test: &T, text: &[u8], room: &mut [u8]) -> usize
    requires { length text.now ≤ length room.old }
    ensures within { result ≤ length text.now }
    ensures value { result ≡ position_or_len (T.passes test.now) text.now }
    ensures copied { take result room.new ≡ take result text.now }
{
    let mut place = 0;
    while text.len() - place >= LANES {
        let passing = test.passing_in_lanes(text, place);
        u8x16::from_slice(&text[place..]).copy_to_slice(&mut room[place..]);
        if passing != 0 {
            return place + first_set(passing);
        }
        place += LANES;
    }
    while place < text.len() && !test.passes_at(text[place]) {
        room[place] = text[place];
        place += 1;
    }
    place
}
