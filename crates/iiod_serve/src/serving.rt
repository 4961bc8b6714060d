//! What the program does for the words `serve ADDRESS PERIOD`.

ghost use Rattle.std.specs.Prelude.{◌≡◌, ℕ, List, length, IfSome};
ghost use Rattle.iio_script.specs.Ends.{HasStatus, ShowsFaults, views_of};
ghost use Rattle.iio_script.specs.LineReader.{TakesBlocks};
ghost use Rattle.iio_script.specs.Plays.{TakesFor};
ghost use Rattle.iiod_serve.specs.Reading.{served_of};
ghost use Rattle.iiod_serve.specs.Served.{EndsServed, ServesLines, ShowsDoor, as_run};
ghost use Rattle.iiod_serve.specs.Usage.{IsUsage, PrintsUsage};
ghost use Rattle.iiod_serve.specs.Words.{IsNoServe, IsServe};

use crate::description::read_description;
use crate::opened::serve_description;
use crate::serve_status::ServeStatus;
use crate::usage::print_usage;
use crate::words::serve_words;
use iio_io::{Gate, Listen, Sink, Source};
use iio_sensor::Sensor;
use std::alloc::Global;
use std::sync::Wait;
use std::thread::Threads;

// Serves the description of an input. `count` is the number of drivers.
fn serve_input<R: Threads + Wait + Sync, S: Source, K: Sink, D: Listen, G: Gate + Sync>(
    rt: &R,
    alloc: Global,
    drivers: Vec<Box<dyn Sensor + Send>>,
    count: u32,
    address: &str,
    period: u32,
    input: &mut S,
    output: &mut K,
    door: &mut D,
    gate: &G,
) -> ServeStatus
    requires { count ≡ length drivers.items }
    ensures lines { IfSome (S.left input.old) (λ left. IfSome (K.written output.old) (λ written.
        ServesLines (served_of count left) written result (K.written output.new))) }
    ensures status { IfSome (S.left input.old) (λ left. HasStatus (served_of count left) (as_run result)) }
    ensures taken { IfSome (S.left input.old) (λ left. TakesBlocks left (S.left input.new)) }
    ensures near { IfSome (S.left input.old) (λ left. TakesFor (as_run result) left (S.left input.new)) }
    ensures nothing { result ≡ ServeStatus.ReadFault → output.new ≡ output.old }
    ensures words { result ≡ ServeStatus.Usage → ⊥ }
    ensures faults { ShowsFaults (views_of S.left S.faults K.written K.faults) (as_run result) input.old input.new output.old output.new }
    ensures door { ShowsDoor D.left D.faults result door.old door.new }
{
    match read_description(alloc, count, input, output) {
        Ok(desc) => serve_description(
            rt, alloc, desc, drivers, address, period, output, door, gate,
        ),
        Err(status) => ServeStatus::of_run(status),
    }
}

/// Does what the words `serve ADDRESS PERIOD` say: reads the description of the input that the source has left, which may use
/// the handed-in drivers by their numbers, opens the door at the address, and serves the devices to the connections that it
/// gives, until it gives no more or fails. Each trigger is polled every PERIOD milliseconds, from 1 to 60,000, by a ticker of
/// the door. If the description is refused, or is longer than is looked at, this is reported as by `layout`, and the door
/// isn't touched. If the door can't be opened, `no address` is printed. Otherwise nothing is printed. Other words print the
/// line that names the commands, and leave the input and the door alone. The call may never return.
pub fn serve<R: Threads + Wait + Sync, S: Source, K: Sink, D: Listen, G: Gate + Sync>(
    rt: &R,
    alloc: Global,
    words: &[String],
    drivers: Vec<Box<dyn Sensor + Send>>,
    input: &mut S,
    output: &mut K,
    door: &mut D,
    gate: &G,
) -> ServeStatus
    ensures lines { (address : List ℕ) (period : ℕ) → IsServe words.now address period
        → IfSome (S.left input.old) (λ left. IfSome (K.written output.old) (λ written.
        ServesLines (served_of (length drivers.items) left) written result (K.written output.new))) }
    ensures status { (address : List ℕ) (period : ℕ) → IsServe words.now address period → IfSome (S.left input.old) (λ left.
        HasStatus (served_of (length drivers.items) left) (as_run result)) }
    // If no count of faults rose, the description decides, unless memory ran out.
    ensures complete { (address : List ℕ) (period : ℕ) → IsServe words.now address period → S.faults input.old ≡ S.faults input.new
        → K.faults output.old ≡ K.faults output.new
        → D.faults door.old ≡ D.faults door.new → IfSome (S.left input.old) (λ left. EndsServed (served_of (length drivers.items) left) result) }
    ensures taken { (address : List ℕ) (period : ℕ) → IsServe words.now address period
        → IfSome (S.left input.old) (λ left. TakesBlocks left (S.left input.new)) }
    // If a line of the description is refused, at most 65,536 bytes were taken after the byte at which it failed.
    ensures near { (address : List ℕ) (period : ℕ) → IsServe words.now address period
        → IfSome (S.left input.old) (λ left. TakesFor (as_run result) left (S.left input.new)) }
    ensures nothing { (address : List ℕ) (period : ℕ) → IsServe words.now address period → result ≡ ServeStatus.ReadFault → output.new ≡ output.old }
    ensures words { (address : List ℕ) (period : ℕ) → IsServe words.now address period → result ≡ ServeStatus.Usage → ⊥ }

    ensures usage { IsNoServe words.now → IsUsage (as_run result) }
    ensures usage_line { IsNoServe words.now → IfSome (K.written output.old) (λ written. PrintsUsage written (as_run result) (K.written output.new)) }
    ensures unread { IsNoServe words.now → input.new ≡ input.old }
    ensures unopened { IsNoServe words.now → door.new ≡ door.old }
    ensures faults { ShowsFaults (views_of S.left S.faults K.written K.faults) (as_run result) input.old input.new output.old output.new }
    ensures door { ShowsDoor D.left D.faults result door.old door.new }
{
    let Some((address, period)) = serve_words(words) else {
        return ServeStatus::of_run(print_usage(output));
    };
    let Ok(count) = u32::try_from(drivers.len()) else {
        return ServeStatus::Memory;
    };
    serve_input(
        rt, alloc, drivers, count, address, period, input, output, door, gate,
    )
}
