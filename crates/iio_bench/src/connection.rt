//! A connection of a script, over any devices.

ghost use Rattle.std.specs.Prelude.{◌≡◌, ◌↔◌, ◌++◌, ℕ, List, IfOk, IsTrue, None, OnOk, position};
ghost use Rattle.std.specs.Str.{bytes_eq};
ghost use Rattle.iiod_grammar.specs.Stream.{AtEnd, Scanner, items_from, no_item};
ghost use Rattle.iiod_commands.specs.Client.{IsClient};
ghost use Rattle.iio_history.specs.Registry.{Setup};
ghost use Rattle.iio_history.specs.Told.{Told};
ghost use Rattle.iio_history.specs.BenchLaw.{heard};
ghost use Rattle.iio_history.specs.Played.{texts};
ghost use Rattle.iio_history.specs.Transcript.{closed_line};
ghost use Rattle.iio_bench.specs.Connection.{HasHeard, IsHearing, arrival};
ghost use Rattle.iio_bench.specs.Feeding.{Feeds, IsOwning};
ghost use Rattle.iio_bench.specs.Guard.{TellsAll, Watches};

use crate::feed_lines::{push_closed, push_feed};
use iio_attr::Name;
use iio_base::Mem;
use iiod_session::{Iio, Session, Watch};
use std::alloc::Global;

/// A connection: its name, and its session until it has ended; `S` is the type of its seats.
#[derive(Drop)]
pub struct Connection<S> {
    pub name: Name,
    pub session: Option<Session<S>>,
}

// Feeds these bytes to a session, which answers the items that they make whole; returns whether the connection has ended with
// them.
fn hear<I: Iio, W: Watch<I>>(
    alloc: Global,
    iio: &mut I,
    watch: &mut W,
    session: &mut Session<I::Seat>,
    bytes: &[u8],
    answers: &mut Vec<u8>,
) -> Result<bool, Mem>
    requires { IsClient I.seen (I.front (I.kept iio.old)) session.old.client }
    ensures kept { I.kept iio.new ≡ I.kept iio.old }
    ensures client { IsClient I.seen (I.front (I.kept iio.new)) session.new.client }
    ensures heard { IfOk result (λ ended. (s : Setup) (m : Told) (name : List ℕ) (begun : Scanner)
        → IsHearing I.seen s m (I.front (I.kept iio.old)) (I.told iio.old) (arrival name begun bytes.now) session.old
        → (answers.new.items ≡ answers.old.items ++ texts s m (heard name (items_from begun bytes.now)))
        × HasHeard I.seen s m (I.told iio.new) (arrival name begun bytes.now) session.new) }
    ensures ended { IfOk result (λ ended. IsTrue ended ↔ (session.new.stream ≡ no_item AtEnd)) }
    ensures watches { IfOk result (λ ended. (s : Setup) (m : Told) (name : List ℕ) (begun : Scanner)
        → IsHearing I.seen s m (I.front (I.kept iio.old)) (I.told iio.old) (arrival name begun bytes.now) session.old
        → TellsAll W.makes (I.front (I.kept iio.old)) (items_from begun bytes.now) watch.old watch.new) }
{
    session.feed_watched(alloc, iio, watch, bytes, answers)?;
    Ok(session.ended())
}

// Ends a connection, and appends the line that says so.
#[cold]
#[inline(never)]
fn end<S: Drop>(connection: &mut Connection<S>, out: &mut Vec<u8>) -> Result<(), Mem>
    ensures name { connection.new.name ≡ connection.old.name }
    ensures ended { connection.new.session ≡ None }
    ensures printed { OnOk result (out.new.items ≡ out.old.items ++ closed_line connection.old.name) }
{
    connection.session = None;
    push_closed(out, &connection.name)
}

// Feeds a connection, which has no session any more if it ends, and appends the lines of the feed.
pub(crate) fn feed_at<I: Iio, W: Watch<I>>(
    alloc: Global,
    iio: &mut I,
    watch: &mut W,
    connection: &mut Connection<I::Seat>,
    bytes: &[u8],
    answers: &mut Vec<u8>,
    out: &mut Vec<u8>,
) -> Result<(), Mem>
where
    I::Seat: Drop,
    requires { IsOwning I.seen (I.front (I.kept iio.old)) connection.old.session }
    ensures kept { I.kept iio.new ≡ I.kept iio.old }
    ensures name { connection.new.name ≡ connection.old.name }
    ensures client { IsOwning I.seen (I.front (I.kept iio.new)) connection.new.session }
    ensures fed { OnOk result (Feeds I.seen bytes.now
        (record { front = I.front (I.kept iio.old); told = I.told iio.old; connection = connection.old; printed = out.old.items })
        (record { front = I.front (I.kept iio.new); told = I.told iio.new; connection = connection.new; printed = out.new.items })) }
    ensures watches { OnOk result (Watches I.seen W.makes bytes.now
        (record { front = I.front (I.kept iio.old); told = I.told iio.old; connection = connection.old; printed = out.old.items }) watch.old watch.new) }
{
    let Some(session) = &mut connection.session else {
        return push_closed(out, &connection.name);
    };
    answers.clear();
    let ended = hear(alloc, iio, watch, session, bytes, answers)?;
    push_feed(out, &connection.name, answers)?;
    if ended {
        end(connection, out)?;
    }
    Ok(())
}
