//! Serves a description at a door.

ghost use Rattle.std.specs.Prelude.{◌≡◌, ◌⊎◌, ◌≤◌, ◌<◌, length, None, IfOk, IfSome, IfNone};
ghost use Rattle.iio_base.specs.Faults.{Rose};
ghost use Rattle.iio_desc.specs.WellFormed.{IsWellFormed};
ghost use Rattle.iio_history.specs.Outcome.{only_ending};
ghost use Rattle.iio_history.specs.Script.{Finished};
ghost use Rattle.iiod_serve.specs.Served.{IsServed, ServesLines, ShowsDoor};

use crate::serve_status::ServeStatus;
use iio_desc::Desc;
use iio_io::{Gate, Listen, Sink, write_whole};
use iio_sensor::Sensor;
use iiod_server::{Hub, Mem, ServeEnd, serve_all};
use std::alloc::Global;
use std::sync::Wait;
use std::thread::Threads;

const NO_ADDRESS: &[u8] = b"no address\n";

// Makes the tickers of `count` triggers, each of which is polled every `period` milliseconds.
fn tickers_of<D: Listen>(
    alloc: Global,
    door: &D,
    count: usize,
    period: u32,
) -> Result<Vec<D::T>, Mem>
    ensures { IfOk result (λ v. length v.items ≡ count) }
{
    let mut tickers = Vec::new(alloc);
    for _ in 0..count {
        tickers.push(door.ticker(period))?;
    }
    Ok(tickers)
}

// The end if the door couldn't be opened.
fn end_unopened<K: Sink>(output: &mut K) -> ServeStatus
    ensures lines { IfSome (K.written output.old) (λ written. ServesLines (only_ending Finished) written result (K.written output.new)) }
    ensures status { (result ≡ ServeStatus.NoAddress) ⊎ (result ≡ ServeStatus.WriteFault) }
    ensures write_fault { result ≡ ServeStatus.WriteFault → Rose (K.faults output.old) (K.faults output.new) }
    ensures counted { K.faults output.old ≤ K.faults output.new }
    ensures silent { IfNone (K.written output.old) (K.written output.new ≡ None) }
{
    match write_whole(output, NO_ADDRESS) {
        Ok(()) => ServeStatus::NoAddress,
        Err(_) => ServeStatus::WriteFault,
    }
}

// Runs the server at a door that was opened.
fn serve_opened<R: Threads + Wait + Sync, D: Listen, G: Gate + Sync>(
    rt: &R,
    alloc: Global,
    desc: Desc,
    drivers: Vec<Box<dyn Sensor + Send>>,
    period: u32,
    door: &mut D,
    gate: &G,
) -> ServeStatus
    requires { IsWellFormed (length drivers.items) desc }
    ensures status { (result ≡ ServeStatus.DoorEnd) ⊎ (result ≡ ServeStatus.DoorFault) ⊎ (result ≡ ServeStatus.Memory) }
    ensures door { ShowsDoor D.left D.faults result door.old door.new }
{
    let Ok(tickers) = tickers_of(alloc, door, desc.triggers.len(), period) else {
        return ServeStatus::Memory;
    };
    let Ok(hub) = Hub::new(alloc, desc, drivers) else {
        return ServeStatus::Memory;
    };
    match serve_all(rt, alloc, &hub, door, tickers, gate) {
        ServeEnd::DoorEnd => ServeStatus::DoorEnd,
        ServeEnd::DoorFault => ServeStatus::DoorFault,
        ServeEnd::Memory => ServeStatus::Memory,
    }
}

/// Opens a door at an address, and serves a description to the connections that it gives. Each trigger is polled every
/// `period` milliseconds. If the door can't be opened, `no address` is printed; otherwise nothing is.
pub(crate) fn serve_description<R: Threads + Wait + Sync, K: Sink, D: Listen, G: Gate + Sync>(
    rt: &R,
    alloc: Global,
    desc: Desc,
    drivers: Vec<Box<dyn Sensor + Send>>,
    address: &str,
    period: u32,
    output: &mut K,
    door: &mut D,
    gate: &G,
) -> ServeStatus
    requires { IsWellFormed (length drivers.items) desc }
    ensures lines { IfSome (K.written output.old) (λ written. ServesLines (only_ending Finished) written result (K.written output.new)) }
    ensures status { IsServed result }
    ensures write_fault { result ≡ ServeStatus.WriteFault → Rose (K.faults output.old) (K.faults output.new) }
    ensures memory { result ≡ ServeStatus.Memory → K.faults output.new ≡ K.faults output.old }
    ensures counted { K.faults output.old ≤ K.faults output.new }
    ensures silent { IfNone (K.written output.old) (K.written output.new ≡ None) }
    ensures door { ShowsDoor D.left D.faults result door.old door.new }
{
    if door.listen(address).is_err() {
        return end_unopened(output);
    }
    serve_opened(rt, alloc, desc, drivers, period, door, gate)
}
