//! A connection of a running hub.

ghost use Rattle.std.specs.Prelude.{None};
ghost use Rattle.iiod_bank.specs.FrontOf.{front_of};
ghost use Rattle.iiod_connection.specs.SessionEnd.{EndFaults, IsServed, exchange};

use crate::link::HubLink;
use crate::locks::{Hub, Locks};
use iio_io::{Gate, Link};
use iiod_connection::{SessionEnd, serve_on};
use std::alloc::Global;
use std::sync::Wait;

/// Serves a connection of a running hub to its end, like [`serve_on`] over any devices. `who` is its number, which no other
/// living connection has.
pub fn serve_connection<L: Link, G: Gate, R: Wait>(
    rt: &R,
    alloc: Global,
    hub: &Hub,
    who: u32,
    link: &mut L,
    gate: &G,
) -> SessionEnd
    ensures faults { EndFaults result (L.faults link.old) (L.faults link.new) }
    ensures served { IsServed (front_of hub.now.front) who (exchange None (L.left link.old) (L.written link.old)) result
        (exchange None (L.left link.new) (L.written link.new)) }
{
    let mut iio = HubLink {
        bank: Locks { hub, rt },
        alloc,
    };
    serve_on(rt, alloc, &mut iio, who, link, gate)
}
