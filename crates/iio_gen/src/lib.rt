//! Makes a large input from a number: a description, and twenty thousand steps of a script; and counts what happens in it.
#![tactic(auto)]

ghost use Rattle.std.specs.Prelude.{◌≡◌, IfOk};
ghost use Rattle.iio_gen.specs.Input.{made};
ghost use Rattle.iio_gen.specs.Law.{MadeFinishes, MadeIsPlayable};

mod description;
mod digits;
mod feeds;
mod generator;
mod steps;
mod summary;

use crate::description::push_description;
use crate::generator::Generator;
use crate::steps::push_steps;
pub use iio_base::Mem;
use std::alloc::Global;
pub use summary::gen_;

// Room for most inputs, in bytes.
const ROOM: usize = 524_288;

/// Returns the input of the number `n`: the description of one device with eight channels, a timestamp and 64 rows, and
/// 20,000 steps, in which four connections open and close the device and read from it, between polls of its trigger. A number
/// always makes the same input, and `play` refuses no line of any.
pub fn make(alloc: Global, n: u64) -> Result<Vec<u8>, Mem>
    ensures { IfOk result (λ text. text.items ≡ made n) }
{
    let mut draws = Generator::new(n);
    let mut text = Vec::with_capacity(alloc, ROOM)?;
    push_description(&mut draws, &mut text)?;
    push_steps(&mut draws, &mut text)?;
    Ok(text)
}

/// The law that `play` refuses no line of an input of this crate, and that no such input is too long. The call does nothing.
pub fn law()
    ensures playable { MadeIsPlayable }
    ensures finishes { MadeFinishes }
{}
