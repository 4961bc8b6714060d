//! One connection over a link in memory.

ghost use Rattle.std.specs.Prelude.{◌≤◌};

use super::{end_of, hub_of};
use iio_io::{MemLink, MemSink, MemSource};
use iiod_hub::{Hub, SessionEnd};
use std::alloc::Global;
use std::sync::Wait;
use std::test::Fail;

// Creates a link that receives these bytes in pieces, and over which `room` bytes can be sent. The listed receives fail.
fn faulty_link(
    alloc: Global,
    comes: &[u8],
    piece: usize,
    fails: &[u64],
    room: usize,
) -> Result<MemLink, Fail>
    requires { 1 ≤ piece }
{
    let source = MemSource::new(comes.to_vec(alloc)?, piece, fails.to_vec(alloc)?);
    let sink = MemSink::new(alloc, room, Vec::new(alloc))?;
    Ok(MemLink::new(source, sink))
}

// The bytes received, how the connection ends, and the bytes sent.
const CONNECTIONS: &[(&[u8], SessionEnd, &[u8])] = &[
    (b"VERSION\nEXIT\n", SessionEnd::Ended, b"0.25.iiosim0\n"),
    (b"VERSION\n", SessionEnd::Eof, b"0.25.iiosim0\n"),
    (b"", SessionEnd::Eof, b""),
    (b"VERSION", SessionEnd::Eof, b""),
    (b"EXIT\nVERSION\n", SessionEnd::Ended, b""),
    (
        b"\r\nTIMEOUT 100\r\nREADBUF adc9 8\nOPEN adc9 4 00000001\nnothing\nVERSION\n",
        SessionEnd::Eof,
        b"0\n-19\n-19\n-22\n0.25.iiosim0\n",
    ),
    (
        b"WRITE adc9 raw 9\nEXIT\nEXIT\nEXIT\n",
        SessionEnd::Ended,
        b"-19\n",
    ),
    (
        b"WRITE adc9 raw 4194305\nVERSION\n",
        SessionEnd::Ended,
        b"-27\n",
    ),
];

// Serves such a connection; returns how it ends, and the bytes sent.
fn served<R: Wait>(
    rt: &R,
    alloc: Global,
    hub: &Hub,
    comes: &[u8],
    piece: usize,
) -> Result<(SessionEnd, Vec<u8>), Fail>
    requires { 1 ≤ piece }
{
    let mut link = faulty_link(alloc, comes, piece, &[], 1_000)?;
    let end = end_of(rt, alloc, hub, 1, &mut link);
    Ok((end, link.sent().to_vec(alloc)?))
}

#[test]
fn one_connection_in_memory(rt: HostRuntime) -> Result<(), Fail> {
    let hub = hub_of(rt.alloc())?;
    for (comes, end, sent) in CONNECTIONS.iter() {
        for piece in [1usize, 3, 100] {
            let (got, said) = served(&rt, rt.alloc(), &hub, comes, piece)?;
            let right = got == *end && said.as_slice() == *sent;
            assert!(rt; right, "of {comes:?} by {piece}: {got:?} {said:?}");
        }
    }
    Ok(())
}

// The receives that fail, the room of the link, and the bytes sent in answer to three VERSION that come in one piece each.
const FAULTS: &[(&[u64], usize, &[u8])] = &[
    (&[1], 1_000, b""),
    (&[2], 1_000, b"0.25.iiosim0\n"),
    (&[4], 1_000, b"0.25.iiosim0\n0.25.iiosim0\n0.25.iiosim0\n"),
    (&[], 0, b""),
    (&[], 20, b"0.25.iiosim0\n0.25.ii"),
];

// Serves a connection with three VERSION, over a link whose calls fail; returns how it ends, and the bytes sent.
fn faulted<R: Wait>(
    rt: &R,
    alloc: Global,
    hub: &Hub,
    fails: &[u64],
    room: usize,
) -> Result<(SessionEnd, Vec<u8>), Fail> {
    let mut link = faulty_link(alloc, b"VERSION\nVERSION\nVERSION\n", 8, fails, room)?;
    let end = end_of(rt, alloc, hub, 1, &mut link);
    Ok((end, link.sent().to_vec(alloc)?))
}

#[test]
fn a_link_that_fails(rt: HostRuntime) -> Result<(), Fail> {
    let hub = hub_of(rt.alloc())?;
    for (fails, room, sent) in FAULTS.iter() {
        let (got, said) = faulted(&rt, rt.alloc(), &hub, fails, *room)?;
        let right = got == SessionEnd::LinkFault && said.as_slice() == *sent;
        assert!(rt; right, "with {fails:?} and {room}: {got:?} {said:?}");
    }
    Ok(())
}
