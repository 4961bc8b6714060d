//! A connection at a bench: its feeds, and its loss.

ghost use Rattle.std.specs.Prelude.{◌≡◌, ◌++◌, None, IfOk, OnOk, is_some};
ghost use Rattle.iio_bench.specs.Bench.{front_of, kept_of, machine_of};
ghost use Rattle.iiod_commands.specs.Acts.{left_machine};
ghost use Rattle.iiod_commands.specs.Client.{IsClient, client_of};
ghost use Rattle.iio_bench.specs.Feeding.{Feeds, IsOwning, feed_state, left_by};
ghost use Rattle.iio_bench.specs.Guard.{MeetsBeside};
ghost use Rattle.iio_bench.specs.Seat.{seen_of};

use crate::bench::Bench;
use crate::connection::{Connection, feed_at};
use crate::guard::Guard;
use crate::others::Others;
use iio_base::Mem;
use iio_device::Plug;
use iio_kinds::Seat;
use iio_sensor::Sensor;
use iiod_session::{Session, Unwatched};
use std::alloc::Global;

/// Feeds a connection, which has no session any more if it ends, and appends the lines of the feed. `answers` is room for the
/// answers.
pub fn feed_unwatched(
    alloc: Global,
    bench: &mut Bench,
    connection: &mut Connection<Seat>,
    bytes: &[u8],
    answers: &mut Vec<u8>,
    out: &mut Vec<u8>,
) -> Result<(), Mem>
    requires { IsOwning seen_of (front_of bench.old) connection.old.session }
    ensures kept { kept_of bench.new ≡ kept_of bench.old }
    ensures name { connection.new.name ≡ connection.old.name }
    ensures client { IsOwning seen_of (front_of bench.new) connection.new.session }
    ensures fed { OnOk result (Feeds seen_of bytes.now (feed_state ⟦<Plug as Sensor>⟧.driver bench.old connection.old out.old.items)
        (feed_state ⟦<Plug as Sensor>⟧.driver bench.new connection.new out.new.items)) }
{
    feed_at(
        alloc,
        bench,
        &mut Unwatched,
        connection,
        bytes,
        answers,
        out,
    )
}

/// Does what [`feed_unwatched`] does, and returns whether what the connection says keeps to the rules of bystanders as to the
/// watched one; `before` and `after` are the other connections.
pub fn feed_beside(
    alloc: Global,
    bench: &mut Bench,
    watched: &[u8],
    connection: &mut Connection<Seat>,
    before: &[Connection<Seat>],
    after: &[Connection<Seat>],
    bytes: &[u8],
    answers: &mut Vec<u8>,
    out: &mut Vec<u8>,
) -> Result<bool, Mem>
    requires { IsOwning seen_of (front_of bench.old) connection.old.session }
    ensures kept { kept_of bench.new ≡ kept_of bench.old }
    ensures name { connection.new.name ≡ connection.old.name }
    ensures client { IsOwning seen_of (front_of bench.new) connection.new.session }
    ensures fed { OnOk result (Feeds seen_of bytes.now (feed_state ⟦<Plug as Sensor>⟧.driver bench.old connection.old out.old.items)
        (feed_state ⟦<Plug as Sensor>⟧.driver bench.new connection.new out.new.items)) }
    ensures meets { IfOk result (MeetsBeside seen_of watched.now bytes.now
        (feed_state ⟦<Plug as Sensor>⟧.driver bench.old connection.old out.old.items) (before.now ++ after.now)) }
{
    let others = Others { before, after };
    let mut watch = Guard::new(watched, &connection.name, others);
    feed_at(alloc, bench, &mut watch, connection, bytes, answers, out)?;
    Ok(watch.meets)
}

// Closes a session's seats, and ends its holdings of events.
fn leave(bench: &mut Bench, session: Session<Seat>)
    requires { IsClient seen_of (front_of bench.old) session.client }
    ensures kept { kept_of bench.new ≡ kept_of bench.old }
    ensures told { machine_of ⟦<Plug as Sensor>⟧.driver bench.new
        ≡ left_machine (front_of bench.old) (machine_of ⟦<Plug as Sensor>⟧.driver bench.old) (client_of seen_of session.client) }
{
    session.end(bench);
}

/// Loses a connection, which then has no session any more. Returns whether it had one.
pub fn lose(bench: &mut Bench, connection: &mut Connection<Seat>) -> bool
    requires { IsOwning seen_of (front_of bench.old) connection.old.session }
    ensures kept { kept_of bench.new ≡ kept_of bench.old }
    ensures name { connection.new.name ≡ connection.old.name }
    ensures ended { connection.new.session ≡ None }
    ensures live { result ≡ is_some connection.old.session }
    ensures told { machine_of ⟦<Plug as Sensor>⟧.driver bench.new
        ≡ left_by seen_of (front_of bench.old) (machine_of ⟦<Plug as Sensor>⟧.driver bench.old) connection.old.session }
{
    match connection.session.take() {
        None => false,
        Some(session) => {
            leave(bench, session);
            true
        }
    }
}
