//! Hubs and servers, what a client makes of their answers, and the program's words over sources and sinks in memory. The
//! expected texts were written by hand. Each test with threads ends by itself, after a limited number of turns, and none
//! depends on the order in which threads run. Scripts are played in `iio_script_tests`.

mod asked;
mod connections;
mod doubles;
mod gen_words;
mod hubs;
mod inputs;
mod layout_words;
mod playback;
mod playing;
mod readdev_words;
mod reading;
mod readings;
mod remasking;
mod replies;
mod serve_words;
mod serving;
mod sessions;
mod solo_words;
mod words;

ghost use Rattle.std.specs.Prelude.{◌-◌, ◌^◌, ◌≤◌, length, IfOk, ⊤};
ghost use Rattle.iio_text.specs.Lines.{lines_of};
ghost use Rattle.iio_desc.specs.WellFormed.{IsWellFormed};

use iio_desc::{Desc, read_desc};
use iio_io::{Door, Gate, Link, ListTicker, MemLink, MemSink, MemSource, OpenGate, Ticker};
use iiod_hub::{Hub, SessionEnd, serve_connection};
use iiod_server::{ServeEnd, serve_all};
use std::alloc::Global;
use std::sync::Wait;
use std::test::Fail;
use std::thread::Threads;

// How often a test looks again, a millisecond apart, before it gives up.
const TURNS: u32 = 10_000;

// Returns the description that a text says.
fn desc_of(alloc: Global, text: &[u8]) -> Result<Desc, Fail>
    requires { length (lines_of text.now) ≤ 2 ^ 32 - 2 }
    ensures { IfOk result (λ desc. IsWellFormed 0 desc) }
{
    Ok(read_desc(alloc, text, 0)?)
}

// Describes a device of two voltages, an acceleration and a timestamp, with one recorded row.
fn described(alloc: Global) -> Result<Desc, Fail>
    ensures { IfOk result (λ desc. IsWellFormed 0 desc) }
{
    desc_of(
        alloc,
        b"context \"<context/>\"
trigger t0 2
device adc0 t0
channel voltage0 le:u12/16>>4
channel voltage1 le:u12/16>>4
channel accel_x be:s16/16>>0
timestamp
row 0 1 2 -3
",
    )
}

fn hub_of(alloc: Global) -> Result<Hub, Fail> {
    Ok(Hub::new(alloc, described(alloc)?, Vec::new(alloc))?)
}

// Creates a link in memory that receives these bytes in pieces of at most 100. It has room for an answer at each of `TURNS`
// turns.
fn link_of(alloc: Global, bytes: &[u8]) -> Result<MemLink, Fail> {
    let source = MemSource::new(bytes.to_vec(alloc)?, 100, Vec::new(alloc));
    let sink = MemSink::new(alloc, 100_000, Vec::new(alloc))?;
    Ok(MemLink::new(source, sink))
}

// Returns how a connection ends. The contract says no more of it than the link tells.
fn end_of<R: Wait, L: Link>(rt: &R, alloc: Global, hub: &Hub, who: u32, link: &mut L) -> SessionEnd
    requires { ⊤ }
{
    serve_connection(rt, alloc, hub, who, link, &OpenGate)
}

// Returns how a server ends whose triggers aren't polled.
fn serve_untimed<R: Threads + Wait + Sync, D: Door, G: Gate + Sync>(
    rt: &R,
    alloc: Global,
    hub: &Hub,
    door: &mut D,
    gate: &G,
) -> ServeEnd {
    let tickers: Vec<ListTicker> = Vec::new(alloc);
    serve_all(rt, alloc, hub, door, tickers, gate)
}

// Returns how a server ends whose first trigger is polled at the moments of a ticker.
fn serve_timed<R: Threads + Wait + Sync, D: Door, T: Ticker + Send + Drop, G: Gate + Sync>(
    rt: &R,
    alloc: Global,
    hub: &Hub,
    door: &mut D,
    ticker: T,
    gate: &G,
) -> Result<ServeEnd, Fail> {
    let mut tickers = Vec::new(alloc);
    tickers.push(ticker)?;
    Ok(serve_all(rt, alloc, hub, door, tickers, gate))
}
