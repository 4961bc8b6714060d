//! Chooses between a run and a server by the first word.

ghost use Rattle.std.specs.Prelude.{◌≡◌, false, IfSome, Ok, map};
ghost use Rattle.iio_device.specs.declared.plug.Plug.TheVariants.{Given};
ghost use Rattle.iiod_program.specs.Played.{AreHandedIn, EndsPlayed};
ghost use Rattle.iiod_program.specs.Words.{IsPlay};

use crate::command::run;
use crate::exit::End;
use iio_device::Plug;
use iio_io::{Listen, OpenGate, Sink, Source};
use iio_script::Mem;
use iio_sensor::{Failing, Ramp, Sensor};
use iiod_serve::serve;
use std::alloc::Global;
use std::sync::Wait;
use std::thread::Threads;

// Whether the first word is `serve`.
fn is_server(words: &[String]) -> bool
    ensures { IsPlay words.now → result ≡ false }
{
    match words {
        [word, ..] => word.as_str() == "serve",
        [] => false,
    }
}

// Does a run with the program's four drivers.
fn run_with<S: Source, K: Sink>(
    alloc: Global,
    words: &[String],
    drivers: Vec<Box<dyn Sensor + Send>>,
    input: &mut S,
    output: &mut K,
) -> End
    requires { AreHandedIn (map (λ d. ⟦<Plug as Sensor>⟧.driver (Given d)) drivers.items) }
    ensures { IsPlay words.now → IfSome (S.left input.old) (λ left. IfSome (K.written output.old) (λ written.
        EndsPlayed left written (Ok result) (K.written output.new))) }
{
    End::Run(run(alloc, words, drivers, input, output))
}

/// Does what the words say, with four drivers: 0 and 1 are ramps, 2 and 3 are ramps whose second ask fails. If the first word
/// is `serve`, the words start a server over the door; all others are those of [`run`](crate::run).
pub fn end_of<R: Threads + Wait + Sync, S: Source, K: Sink, D: Listen>(
    rt: &R,
    alloc: Global,
    words: &[String],
    input: &mut S,
    output: &mut K,
    door: &mut D,
) -> Result<End, Mem>
    ensures played { IsPlay words.now → IfSome (S.left input.old) (λ left. IfSome (K.written output.old) (λ written.
        EndsPlayed left written result (K.written output.new))) }
{
    let mut drivers: Vec<Box<dyn Sensor + Send>> = Vec::new(alloc);
    drivers.push(Box::new(alloc, Ramp::new())?)?;
    drivers.push(Box::new(alloc, Ramp::new())?)?;
    drivers.push(Box::new(alloc, Failing::new(vec![in alloc; 2]?))?)?;
    drivers.push(Box::new(alloc, Failing::new(vec![in alloc; 2]?))?)?;
    if is_server(words) {
        let status = serve(rt, alloc, words, drivers, input, output, door, &OpenGate);
        return Ok(End::Serve(status));
    }
    Ok(run_with(alloc, words, drivers, input, output))
}
