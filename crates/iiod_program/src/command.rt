//! What the program does over an input.

ghost use Rattle.std.specs.Prelude.{map};
ghost use Rattle.iio_device.specs.declared.plug.Plug.TheVariants.{Given};
ghost use Rattle.iio_script.specs.Ends.{ShowsFaults, views_of};
ghost use Rattle.iiod_program.specs.Does.{Does, streams_of};
ghost use Rattle.iiod_program.specs.Request.{Asks, Request as Asked};

use crate::layout::layout;
use crate::request::{Request, request_of};
use iio_device::Plug;
use iio_gen::gen_;
use iio_io::{Sink, Source};
use iio_script::{Status, play};
use iio_sensor::Sensor;
use iio_solo::solo;
use iio_worlds::solo_law;
use iiod_serve::print_usage;
use std::alloc::Global;

/// Does what the words after the program's name ask for. `play` plays the input that the source has left, with the drivers
/// that its description names by their numbers. `solo NAME` plays it too, and prints what it prints for the connection of
/// that name without the steps of others, the line `%%`, and what it prints with them; if a line fails, or else a step isn't
/// a bystander's, then only the refusal of the first such line is printed. `layout DEVICE MASK` reads only the description of
/// that input, and prints where the channels of the mask stand in a scan of the device; an unknown device and a wrong mask
/// are refused at line 0. `gen N` makes an input from a number, plays it without drivers, and prints its counts. Other words,
/// or none, print the line that names the commands. Like `gen N`, they leave the input alone.
pub fn run<S: Source, K: Sink>(
    alloc: Global,
    words: &[String],
    drivers: Vec<Box<dyn Sensor + Send>>,
    input: &mut S,
    output: &mut K,
) -> Status
    ensures does { (asked : Asked) → Asks words.now asked → Does (views_of S.left S.faults K.written K.faults)
        (map (λ d. ⟦<Plug as Sensor>⟧.driver (Given d)) drivers.items) asked result (streams_of input.old output.old) (streams_of input.new output.new) }
    ensures faults { ShowsFaults (views_of S.left S.faults K.written K.faults) result input.old input.new output.old output.new }
{
    solo_law();
    match request_of(words) {
        Request::Play => play(alloc, input, drivers, output),
        Request::Solo { name } => solo(alloc, name, input, drivers, output),
        Request::Layout { device, mask } => {
            let Ok(count) = u32::try_from(drivers.len()) else {
                return Status::Memory;
            };
            layout(alloc, count, device, mask, input, output)
        }
        Request::Gen(n) => gen_(alloc, n, output),
        Request::Other => print_usage(output),
    }
}
