//! What the other connections have open.

ghost use Rattle.std.specs.Prelude.{◌≡◌, ◌∷◌, [], option_copied};
ghost use Rattle.iio_worlds.specs.Stance.{none_seated, one_seated};
ghost use Rattle.iio_bench.specs.Guard.{connection_named, connections_of, client_by, client_named, clients_besides};
ghost use Rattle.iio_bench.specs.Seat.{seen_of};

use crate::connection::Connection;
use iio_kinds::Seat;
use iiod_session::Session;

/// All connections except one: those before it, and those after it.
#[derive(Clone, Copy)]
pub struct Others<'a> {
    pub(crate) before: &'a [Connection<Seat>],
    pub(crate) after: &'a [Connection<Seat>],
}

// The connection of that name.
fn named<'a>(connections: &'a [Connection<Seat>], name: &[u8]) -> Option<&'a Connection<Seat>>
    ensures { option_copied result ≡ connection_named name.now connections.now }
{
    for connection in connections {
        if connection.name.is(name) {
            return Some(connection);
        }
    }
    None
}

// Whether a connection of another name has the device of that number open.
fn other_holds(connection: &Connection<Seat>, watched: &[u8], dev: u32) -> bool
    ensures { result ≡ one_seated (clients_besides seen_of watched.now (connection.now ∷ [])) dev }
{
    if connection.name.is(watched) {
        return false;
    }
    match &connection.session {
        None => false,
        Some(session) => session.holds(dev),
    }
}

// Whether a connection of another name among these has the device of that number open.
fn one_holds(connections: &[Connection<Seat>], watched: &[u8], dev: u32) -> bool
    ensures { result ≡ one_seated (clients_besides seen_of watched.now connections.now) dev }
{
    for connection in connections {
        if other_holds(connection, watched, dev) {
            return true;
        }
    }
    false
}

// Whether a connection of another name has no device open.
fn other_holds_nothing(connection: &Connection<Seat>, watched: &[u8]) -> bool
    ensures { result ≡ none_seated (clients_besides seen_of watched.now (connection.now ∷ [])) }
{
    if connection.name.is(watched) {
        return true;
    }
    match &connection.session {
        None => true,
        Some(session) => session.holds_nothing(),
    }
}

// Whether no connection of another name among these has a device open.
fn none_holds(connections: &[Connection<Seat>], watched: &[u8]) -> bool
    ensures { result ≡ none_seated (clients_besides seen_of watched.now connections.now) }
{
    for connection in connections {
        if !other_holds_nothing(connection, watched) {
            return false;
        }
    }
    true
}

impl<'a> Others<'a> {
    /// All of these connections; the one that is left out isn't among them.
    pub fn all(connections: &'a [Connection<Seat>]) -> Others<'a>
        ensures { connections_of result ≡ connections.now }
    {
        Others {
            before: connections,
            after: &[],
        }
    }

    // The connection of that name.
    fn named(&self, name: &[u8]) -> Option<&'a Connection<Seat>>
        ensures { option_copied result ≡ connection_named name.now (connections_of self.now) }
    {
        match named(self.before, name) {
            Some(connection) => Some(connection),
            None => named(self.after, name),
        }
    }

    /// The session of the connection of that name.
    pub(crate) fn session_of(&self, name: &[u8]) -> Option<&'a Session<Seat>>
        ensures { client_by seen_of result ≡ client_named seen_of name.now (connections_of self.now) }
    {
        match self.named(name) {
            None => None,
            Some(connection) => connection.session.as_ref(),
        }
    }

    /// Whether a connection of another name has the device of that number open.
    pub(crate) fn one_holds(&self, watched: &[u8], dev: u32) -> bool
        ensures { result ≡ one_seated (clients_besides seen_of watched.now (connections_of self.now)) dev }
    {
        one_holds(self.before, watched, dev) || one_holds(self.after, watched, dev)
    }

    /// Whether no connection of another name has a device open.
    pub(crate) fn none_holds(&self, watched: &[u8]) -> bool
        ensures { result ≡ none_seated (clients_besides seen_of watched.now (connections_of self.now)) }
    {
        none_holds(self.before, watched) && none_holds(self.after, watched)
    }
}
