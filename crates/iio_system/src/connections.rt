//! The connections of a script at the bench.

ghost use Rattle.std.specs.Prelude.{◌≡◌, ◌<◌, ◌≤◌, true, None, IfOk, OnOk, length, map, position, slice_index_or};
ghost use Rattle.std.specs.Str.{bytes_eq};
ghost use Rattle.iio_history.specs.Script.{max_names};
ghost use Rattle.iio_history.specs.Transcript.{Drop, Feed};
ghost use Rattle.iio_bench.specs.Bench.{front_of, kept_of};
ghost use Rattle.iio_system.specs.Connections.{AreApart, AreOwning};
ghost use Rattle.iio_system.specs.Standing.{IsNew, Makes, MakesFeed, Meets, MeetsFeed, has_room, name_by, names_with, step_state};
ghost use Rattle.iio_bench.specs.Seat.{seen_of};

use crate::lines::push_drop;
use iio_attr::Name;
use iio_base::Mem;
use iio_bench::{Bench, Connection, Others, feed_beside, feed_unwatched, lose, may_end};
use iio_device::Plug;
use iio_kinds::Seat;
use iio_sensor::Sensor;
use iio_worlds::stance_law;
use iiod_session::{Manner, Session};
use std::alloc::Global;

/// The place of the connection of that name.
pub(crate) fn place(connections: &[Connection<Seat>], name: &Name) -> Option<usize>
    ensures { result ≡ position (λ c. bytes_eq c.name name.now) connections.now }
{
    connections.iter().position(|c| c.name.is(name.bytes()))
}

// Whether the connection at that place has that name.
fn stands_at(connections: &[Connection<Seat>], at: usize, name: &Name) -> bool
    ensures within { result ≡ true → at < length connections.now }
    ensures named { result ≡ true → (d : Connection Seat) → bytes_eq (slice_index_or connections.now at d).name name.now ≡ true }
{
    at < connections.len() && connections[at].name.is(name.bytes())
}

// The place of the connection of that name; `last` is the place of the one that was fed last. That one or the next is fed most
// often, so they are looked at first.
fn place_near(connections: &[Connection<Seat>], last: usize, name: &Name) -> Option<usize>
    requires { AreApart connections.now }
    ensures { result ≡ position (λ c. bytes_eq c.name name.now) connections.now }
{
    if stands_at(connections, last, name) {
        return Some(last);
    }
    let next = last.wrapping_add(1);
    if stands_at(connections, next, name) {
        return Some(next);
    }
    place(connections, name)
}

// A connection that has sent nothing yet. Devices identify the holder of their events by its number.
fn connect(alloc: Global, who: usize, name: &Name) -> Result<Connection<Seat>, Mem>
    requires { who ≤ max_names }
    ensures { IfOk result (IsNew name.now who) }
{
    let session = Session::new(alloc, who as u32, Manner::Script)?;
    Ok(Connection {
        name: name.copy(),
        session: Some(session),
    })
}

// Feeds a connection for the first time, and adds it. This is a function of its own since a connection is large, and most feeds
// aren't first ones.
#[cold]
#[inline(never)]
fn feed_first(
    alloc: Global,
    bench: &mut Bench,
    connections: &mut Vec<Connection<Seat>>,
    name: &Name,
    bytes: &[u8],
    answers: &mut Vec<u8>,
    out: &mut Vec<u8>,
) -> Result<(), Mem>
    requires owned { AreOwning seen_of (front_of bench.old) connections.old.items }
    requires few { length connections.old.items ≤ max_names }
    requires apart { AreApart connections.old.items }
    requires absent { position (λ c. bytes_eq c.name name.now) connections.old.items ≡ None }
    requires taken { has_room (map name_by connections.old.items) name.now ≡ true }
    ensures kept { kept_of bench.new ≡ kept_of bench.old }
    ensures owned { AreOwning seen_of (front_of bench.new) connections.new.items }
    ensures few { length connections.new.items ≤ max_names }
    ensures apart { AreApart connections.new.items }
    ensures names { OnOk result (map name_by connections.new.items ≡ names_with (map name_by connections.old.items) (Feed name.now bytes.now)) }
    ensures makes { OnOk result (MakesFeed ⟦<Plug as Sensor>⟧.driver name.now bytes.now
        (step_state bench.old connections.old.items out.old.items) (step_state bench.new connections.new.items out.new.items)) }
{
    connections.reserve(1)?;
    let mut connection = connect(alloc, connections.len(), name)?;
    let fed = feed_unwatched(alloc, bench, &mut connection, bytes, answers, out);
    connections.push_reserved(connection);
    fed
}

/// Feeds the connection of that name, which is added at its first feed, and appends the lines of the feed. `answers` is room
/// for the answers; `last` is the place of the connection that was fed last.
pub(crate) fn feed(
    alloc: Global,
    bench: &mut Bench,
    connections: &mut Vec<Connection<Seat>>,
    name: &Name,
    bytes: &[u8],
    answers: &mut Vec<u8>,
    last: &mut usize,
    out: &mut Vec<u8>,
) -> Result<(), Mem>
    requires owned { AreOwning seen_of (front_of bench.old) connections.old.items }
    requires few { length connections.old.items ≤ max_names }
    requires apart { AreApart connections.old.items }
    requires taken { has_room (map name_by connections.old.items) name.now ≡ true }
    ensures kept { kept_of bench.new ≡ kept_of bench.old }
    ensures owned { AreOwning seen_of (front_of bench.new) connections.new.items }
    ensures few { length connections.new.items ≤ max_names }
    ensures apart { AreApart connections.new.items }
    ensures names { OnOk result (map name_by connections.new.items ≡ names_with (map name_by connections.old.items) (Feed name.now bytes.now)) }
    ensures makes { OnOk result (MakesFeed ⟦<Plug as Sensor>⟧.driver name.now bytes.now
        (step_state bench.old connections.old.items out.old.items) (step_state bench.new connections.new.items out.new.items)) }
{
    let Some(at) = place_near(connections, *last, name) else {
        return feed_first(alloc, bench, connections, name, bytes, answers, out);
    };
    *last = at;
    feed_unwatched(alloc, bench, &mut connections[at], bytes, answers, out)
}

// Does what `feed_guarded` does with a connection that is fed for the first time, and adds it.
#[cold]
#[inline(never)]
fn guard_first(
    alloc: Global,
    bench: &mut Bench,
    connections: &mut Vec<Connection<Seat>>,
    watched: &[u8],
    name: &Name,
    bytes: &[u8],
    answers: &mut Vec<u8>,
    out: &mut Vec<u8>,
) -> Result<bool, Mem>
    requires owned { AreOwning seen_of (front_of bench.old) connections.old.items }
    requires few { length connections.old.items ≤ max_names }
    requires apart { AreApart connections.old.items }
    requires absent { position (λ c. bytes_eq c.name name.now) connections.old.items ≡ None }
    requires taken { has_room (map name_by connections.old.items) name.now ≡ true }
    ensures kept { kept_of bench.new ≡ kept_of bench.old }
    ensures owned { AreOwning seen_of (front_of bench.new) connections.new.items }
    ensures few { length connections.new.items ≤ max_names }
    ensures apart { AreApart connections.new.items }
    ensures names { OnOk result (map name_by connections.new.items ≡ names_with (map name_by connections.old.items) (Feed name.now bytes.now)) }
    ensures makes { OnOk result (MakesFeed ⟦<Plug as Sensor>⟧.driver name.now bytes.now
        (step_state bench.old connections.old.items out.old.items) (step_state bench.new connections.new.items out.new.items)) }
    ensures meets { IfOk result (MeetsFeed ⟦<Plug as Sensor>⟧.driver watched.now name.now bytes.now bench.old connections.old.items) }
{
    stance_law();
    connections.reserve(1)?;
    let mut connection = connect(alloc, connections.len(), name)?;
    let fed = feed_beside(
        alloc,
        bench,
        watched,
        &mut connection,
        connections,
        &[],
        bytes,
        answers,
        out,
    );
    connections.push_reserved(connection);
    fed
}

/// Does what [`feed`] does, and returns whether what the connection says keeps to the rules of bystanders as to the watched
/// one.
pub(crate) fn feed_guarded(
    alloc: Global,
    bench: &mut Bench,
    connections: &mut Vec<Connection<Seat>>,
    watched: &[u8],
    name: &Name,
    bytes: &[u8],
    answers: &mut Vec<u8>,
    out: &mut Vec<u8>,
) -> Result<bool, Mem>
    requires owned { AreOwning seen_of (front_of bench.old) connections.old.items }
    requires few { length connections.old.items ≤ max_names }
    requires apart { AreApart connections.old.items }
    requires taken { has_room (map name_by connections.old.items) name.now ≡ true }
    ensures kept { kept_of bench.new ≡ kept_of bench.old }
    ensures owned { AreOwning seen_of (front_of bench.new) connections.new.items }
    ensures few { length connections.new.items ≤ max_names }
    ensures apart { AreApart connections.new.items }
    ensures names { OnOk result (map name_by connections.new.items ≡ names_with (map name_by connections.old.items) (Feed name.now bytes.now)) }
    ensures makes { OnOk result (MakesFeed ⟦<Plug as Sensor>⟧.driver name.now bytes.now
        (step_state bench.old connections.old.items out.old.items) (step_state bench.new connections.new.items out.new.items)) }
    ensures meets { IfOk result (MeetsFeed ⟦<Plug as Sensor>⟧.driver watched.now name.now bytes.now bench.old connections.old.items) }
{
    stance_law();
    let Some(at) = place(connections, name) else {
        return guard_first(
            alloc,
            bench,
            connections,
            watched,
            name,
            bytes,
            answers,
            out,
        );
    };
    let (before, rest) = connections.split_at_mut(at);
    let Some((connection, after)) = rest.split_first_mut() else {
        unreachable!()
    };
    feed_beside(
        alloc, bench, watched, connection, before, after, bytes, answers, out,
    )
}

/// Loses the connection of that name: its seats are closed and its holdings of events end. Appends the line that says so.
pub(crate) fn drop_named(
    bench: &mut Bench,
    connections: &mut Vec<Connection<Seat>>,
    name: &Name,
    out: &mut Vec<u8>,
) -> Result<(), Mem>
    requires owned { AreOwning seen_of (front_of bench.old) connections.old.items }
    ensures kept { kept_of bench.new ≡ kept_of bench.old }
    ensures owned { AreOwning seen_of (front_of bench.new) connections.new.items }
    ensures names { map name_by connections.new.items ≡ map name_by connections.old.items }
    ensures count { length connections.new.items ≡ length connections.old.items }
    ensures makes { OnOk result (Makes ⟦<Plug as Sensor>⟧.driver (Drop name.now)
        (step_state bench.old connections.old.items out.old.items) (step_state bench.new connections.new.items out.new.items)) }
{
    match place(connections, name) {
        Some(at) => {
            let was_live = lose(bench, &mut connections[at]);
            push_drop(out, name.bytes(), was_live)
        }
        None => push_drop(out, name.bytes(), false),
    }
}

/// Does what [`drop_named`] does, and returns whether the loss keeps to the rules of bystanders as to the watched connection:
/// that of the watched connection itself does if none of the others has a device open.
pub(crate) fn drop_guarded(
    bench: &mut Bench,
    connections: &mut Vec<Connection<Seat>>,
    watched: &[u8],
    name: &Name,
    out: &mut Vec<u8>,
) -> Result<bool, Mem>
    requires owned { AreOwning seen_of (front_of bench.old) connections.old.items }
    ensures kept { kept_of bench.new ≡ kept_of bench.old }
    ensures owned { AreOwning seen_of (front_of bench.new) connections.new.items }
    ensures names { map name_by connections.new.items ≡ map name_by connections.old.items }
    ensures count { length connections.new.items ≡ length connections.old.items }
    ensures makes { OnOk result (Makes ⟦<Plug as Sensor>⟧.driver (Drop name.now)
        (step_state bench.old connections.old.items out.old.items) (step_state bench.new connections.new.items out.new.items)) }
    ensures meets { IfOk result (Meets ⟦<Plug as Sensor>⟧.driver watched.now (Drop name.now) bench.old connections.old.items) }
{
    stance_law();
    let meets = may_end(&Others::all(connections), watched, name.is(watched));
    drop_named(bench, connections, name, out)?;
    Ok(meets)
}
