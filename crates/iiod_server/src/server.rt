//! A server over a hub.

ghost use Rattle.std.specs.Prelude.{◌≡◌, ◌≤◌, ◌<◌, length};
ghost use Rattle.iio_desc.specs.declared.limits.TheConstants.{MAX_TRIGGERS};
ghost use Rattle.iiod_server.specs.Serving.{Serves};

use crate::host::Host;
use crate::shared::Shared;
use crate::workers::Workplace;
use iio_io::{Door, Failed, Gate, Link, Ticker};
use iiod_hub::Hub;
use std::alloc::Global;
use std::sync::Wait;
use std::thread;
use std::thread::{Scope, Threads};

/// The reason why a server ended.
#[derive(Clone, Copy, Debug, PartialEq, Eq)]
pub enum ServeEnd {
    /// The door gave no further connection.
    DoorEnd,
    /// The door failed.
    DoorFault,
    /// Memory, or threads, ran out before a connection was asked for.
    Memory,
}

// Starts the two workers of each trigger. Returns false if one can't be started.
fn begin_workers<'s, E, R: Wait + Sync + 's, H: Host + Sync + 's, T: Ticker + Send + Drop + 's>(
    scope: &'s Scope<'s, E>,
    work: &'s Workplace<'s, R, H>,
    tickers: Vec<T>,
) -> bool
    requires few { length tickers.items ≤ MAX_TRIGGERS }
    requires bells { length work.now.shared.now.ticked.items ≡ length tickers.items }
{
    let mut trigger = 0;
    for ticker in tickers {
        let sweeps = scope.spawn(
            move ||
                requires trigger { trigger < MAX_TRIGGERS }
                requires bell { trigger < length work.now.shared.now.ticked.items }
            { work.sweep_to_end(trigger) },
        );
        let ticks = scope.spawn(
            move ||
                requires trigger { trigger < MAX_TRIGGERS }
                requires bell { trigger < length work.now.shared.now.ticked.items }
            { work.tick_to_end(trigger, ticker) },
        );
        if sweeps.is_err() || ticks.is_err() {
            return false;
        }
        trigger += 1;
    }
    true
}

// Serves a connection on a thread of its own, or on this one if none can be started. If `MAX_CONNECTIONS` live already, the
// connection is closed without being heard.
fn begin_connection<
    's,
    E,
    R: Wait + Sync + 's,
    H: Host + Sync + 's,
    L: Link + Send + Drop + 's,
    G: Gate + Sync + 's,
>(scope: &'s Scope<'s, E>, work: &'s Workplace<'s, R, H>, link: L, gate: &'s G) {
    let Some(who) = work.shared.living.enter(work.rt) else {
        return;
    };
    match scope.spawn(
        move ||
            requires { 1 ≤ who }
        { work.serve_to_end(who, link, gate) },
    ) {
        Ok(_) => {}
        Err(refused) => (refused.value)(),
    }
}

// Takes connections at the door until it ends or fails.
fn take_connections<
    's,
    E,
    R: Wait + Sync + 's,
    H: Host + Sync + 's,
    D: Door + 's,
    G: Gate + Sync + 's,
>(scope: &'s Scope<'s, E>, work: &'s Workplace<'s, R, H>, door: &mut D, gate: &'s G) -> ServeEnd
    ensures { Serves D.left D.faults door.old result door.new }
{
    for _ in work.rt.forever() {
        match door.next() {
            Err(Failed) => return ServeEnd::DoorFault,
            Ok(None) => return ServeEnd::DoorEnd,
            Ok(Some(link)) => begin_connection(scope, work, link, gate),
        }
    }
    unreachable!()
}

// Does nothing. Using a returned reference here ties it, for the borrow checker, to the parameter that lent it.
fn take_back<T>(x: &mut T)
    ensures { x.new ≡ x.old }
{}

// Serves a host, like [`serve_all`] a hub.
fn serve_host<
    R: Threads + Wait + Sync,
    H: Host + Sync,
    D: Door,
    T: Ticker + Send + Drop,
    G: Gate + Sync,
>(rt: &R, alloc: Global, host: &H, door: &mut D, tickers: Vec<T>, gate: &G) -> ServeEnd
    requires { length tickers.items ≤ MAX_TRIGGERS }
    ensures { Serves D.left D.faults door.old result door.new }
{
    let Ok(shared) = Shared::new(alloc, tickers.len()) else {
        return ServeEnd::Memory;
    };
    let work = Workplace {
        rt,
        alloc,
        host,
        shared: &shared,
    };
    let (end, door) = thread::scope(
        thread::scope_env(),
        rt,
        |scope| -> (ServeEnd, &mut D)
            requires few { length tickers.items ≤ MAX_TRIGGERS }
            requires bells { length work.shared.now.ticked.items ≡ length tickers.items }
            ensures end { Serves D.left D.faults door.entry.now result.0 result.1.now }
            ensures door { result.1.ghost_name ≡ door.entry.ghost_name }
        {
            let end = if begin_workers(scope, &work, tickers) {
                take_connections(scope, &work, door, gate)
            } else {
                ServeEnd::Memory
            };
            work.end();
            (end, door)
        },
    );
    take_back(door);
    end
}

/// Serves a hub to the connections that a door gives, until it gives no more or fails; the living ones are then served to their
/// ends. Ticker i belongs to trigger i, which is polled at each of the ticker's moments by a worker of its own; a second worker
/// handles the trigger's entries after each poll. Each connection has a worker of its own; a connection whose worker can't be
/// started is served by the caller, and one beyond `MAX_CONNECTIONS` at once is closed without being heard. Every worker has
/// ended when this returns, which no clause promises.
pub fn serve_all<R: Threads + Wait + Sync, D: Door, T: Ticker + Send + Drop, G: Gate + Sync>(
    rt: &R,
    alloc: Global,
    hub: &Hub,
    door: &mut D,
    tickers: Vec<T>,
    gate: &G,
) -> ServeEnd
    requires { length tickers.items ≤ MAX_TRIGGERS }
    ensures { Serves D.left D.faults door.old result door.new }
{
    serve_host(rt, alloc, hub, door, tickers, gate)
}
