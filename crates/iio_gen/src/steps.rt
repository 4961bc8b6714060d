//! The steps of the script.

ghost use Rattle.std.specs.Prelude.{◌≡◌, ◌<◌, OnOk};
ghost use Rattle.iio_gen.specs.Input.{Appends, fire_line, several, step_line};

use crate::digits::push_number;
use crate::feeds::{push_close, push_open, push_read};
use crate::generator::Generator;
use iio_base::Mem;

const STEPS: u64 = 20_000;

// The number of kinds that a step is drawn from: one is an OPEN, one a CLOSE, four are polls, and four READBUFs.
const KINDS: u64 = 10;

// The time between two steps, in units of a moment.
const STEP_TIME: u64 = 5;

// `fire t0 T`
fn push_fire(draws: &mut Generator, i: u64, out: &mut Vec<u8>) -> Result<(), Mem>
    requires { i < STEPS }
    ensures { OnOk result (Appends (fire_line i) draws.old.state draws.new.state out.old.items out.new.items) }
{
    out.extend_from_slice(b"fire t0 ")?;
    push_number(out, STEP_TIME * i)?;
    out.push(b'\n')?;
    Ok(())
}

fn push_step(draws: &mut Generator, i: u64, out: &mut Vec<u8>) -> Result<(), Mem>
    requires { i < STEPS }
    ensures { OnOk result (Appends (step_line i) draws.old.state draws.new.state out.old.items out.new.items) }
{
    match draws.draw(KINDS) {
        0 => push_open(draws, out),
        1 => push_close(draws, out),
        2..=5 => push_fire(draws, i, out),
        _ => push_read(draws, out),
    }
}

pub(crate) fn push_steps(draws: &mut Generator, out: &mut Vec<u8>) -> Result<(), Mem>
    ensures { OnOk result (Appends (several step_line STEPS) draws.old.state draws.new.state out.old.items out.new.items) }
{
    for i in 0..STEPS {
        push_step(draws, i, out)?;
    }
    Ok(())
}
