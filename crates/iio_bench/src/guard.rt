//! Whether what a connection says keeps to the rules of bystanders.

ghost use Rattle.std.specs.Prelude.{◌≡◌, ◌<◌, ◌||◌, true, not, Ok, Option, length};
ghost use Rattle.std.specs.Str.{bytes_eq};
ghost use Rattle.iio_desc.specs.Kind.{is_input};
ghost use Rattle.iiod_grammar.specs.Stream.{Item, Said};
ghost use Rattle.iiod_grammar.specs.View.{command_view};
ghost use Rattle.iiod_commands.specs.Client.{ClientRecord};
ghost use Rattle.iio_core.specs.Front.{find_device, kind_at};
ghost use Rattle.iiod_session.specs.Watch.{IsSeen};
ghost use Rattle.iio_worlds.specs.Bystanders.{may_say};
ghost use Rattle.iio_worlds.specs.Stance.{by_number, item_meets, may_part, none_seated, one_seated, opens_by, own_has};
ghost use Rattle.iio_bench.specs.Bench.{front_of};
ghost use Rattle.iio_bench.specs.Guard.{connections_of, client_by, client_named, clients_besides, item_by, opens_at, own_input};
ghost use Rattle.iio_bench.specs.Seat.{seen_of};

use crate::bench::Bench;
use crate::others::Others;
use iio_attr::Name;
use iio_kinds::Seat;
use iiod_grammar::{Command, MAX_PAYLOAD};
use iiod_session::{Iio, Seen, Session, Watch};

/// The watch of a feed: whether each item that it was told keeps to the rules of bystanders as to a watched connection.
#[derive(Drop)]
pub(crate) struct Guard<'a> {
    pub(crate) meets: bool,
    // Whether the watched connection is the one that is fed.
    mine: bool,
    watched: &'a [u8],
    // The session of the watched connection, if that isn't the one that is fed.
    own: Option<&'a Session<Seat>>,
    others: Others<'a>,
}

// Whether a connection has the device of that number open.
fn own_holds(own: Option<&Session<Seat>>, dev: u32) -> bool
    ensures { result ≡ own_has (client_by seen_of own.entry) dev }
{
    match own {
        None => false,
        Some(session) => session.holds(dev),
    }
}

// Whether a device is an input device.
fn is_input(bench: &Bench, dev: u32) -> bool
    requires { dev < length (front_of bench.now).devices }
    ensures { result ≡ is_input (kind_at (front_of bench.now) dev) }
{
    !bench.is_output(dev) && !bench.is_average(dev)
}

// Whether a connection has the input device of that name open.
fn own_has(bench: &Bench, own: Option<&Session<Seat>>, device: &[u8]) -> bool
    ensures { result ≡ by_number (find_device (front_of bench.now) device.now) (own_input (front_of bench.now) (client_by seen_of own.entry)) }
{
    match bench.find(device) {
        None => false,
        Some(dev) => is_input(bench, dev) && own_holds(own, dev),
    }
}

// Whether one of the others has the device of that name open.
fn one_has(bench: &Bench, others: &Others<'_>, watched: &[u8], device: &[u8]) -> bool
    ensures { result ≡ by_number (find_device (front_of bench.now) device.now) (one_seated (clients_besides seen_of watched.now (connections_of others.now))) }
{
    match bench.find(device) {
        None => false,
        Some(dev) => others.one_holds(watched, dev),
    }
}

/// Whether the watched connection may do this: it may end if none of the others has a device open.
pub fn may_end(others: &Others<'_>, watched: &[u8], ends: bool) -> bool
    ensures { result ≡ (not ends || none_seated (clients_besides seen_of watched.now (connections_of others.now))) }
{
    !ends || others.none_holds(watched)
}

// Whether another connection may say this command.
fn may_ask(bench: &Bench, own: Option<&Session<Seat>>, command: &Command<'_>) -> bool
    ensures { result ≡ may_say (λ device. by_number (find_device (front_of bench.now) device) (own_input (front_of bench.now) (client_by seen_of own.entry)))
        (Said (Ok (command_view command.now))) }
{
    match *command {
        Command::Help
        | Command::Exit
        | Command::Version
        | Command::Print
        | Command::Timeout { .. } => true,
        Command::Open { dev, .. }
        | Command::Close { dev }
        | Command::Read { dev, .. }
        | Command::ReadBuf { dev, .. }
        | Command::GetTrig { dev }
        | Command::SetBuffers { dev, .. }
        | Command::Remask { dev, .. } => own_has(bench, own, dev),
        Command::Write { .. }
        | Command::WriteBuf { .. }
        | Command::SetTrig { .. }
        | Command::EvOpen { .. }
        | Command::EvRead { .. }
        | Command::EvClose { .. } => false,
    }
}

// Whether another connection may say this.
fn may_say(bench: &Bench, own: Option<&Session<Seat>>, item: &Seen<'_>) -> bool
    ensures { (x : Item) → IsSeen x item.now
        → result ≡ may_say (λ device. by_number (find_device (front_of bench.now) device) (own_input (front_of bench.now) (client_by seen_of own.entry))) x }
{
    match *item {
        Seen::Refused | Seen::TooLong => true,
        Seen::Command(command) => may_ask(bench, own, &command),
    }
}

// Whether the watched connection itself may say this command.
fn may_leave(bench: &Bench, others: &Others<'_>, watched: &[u8], command: &Command<'_>) -> bool
    ensures { (own : Option ClientRecord)
        → result ≡ may_part (opens_by (front_of bench.now) own (clients_besides seen_of watched.now (connections_of others.now)))
        (item_by (command_view command.now)) }
{
    match *command {
        Command::Close { dev } | Command::Remask { dev, .. } => {
            !one_has(bench, others, watched, dev)
        }
        Command::Exit => others.none_holds(watched),
        Command::Write { count, .. } => may_end(others, watched, count > MAX_PAYLOAD),
        Command::WriteBuf { bytes, .. } => may_end(others, watched, bytes > MAX_PAYLOAD),
        Command::Help
        | Command::Version
        | Command::Print
        | Command::Timeout { .. }
        | Command::Open { .. }
        | Command::Read { .. }
        | Command::ReadBuf { .. }
        | Command::GetTrig { .. }
        | Command::SetTrig { .. }
        | Command::SetBuffers { .. }
        | Command::EvOpen { .. }
        | Command::EvRead { .. }
        | Command::EvClose { .. } => true,
    }
}

// Whether the watched connection itself may say this.
fn may_part(bench: &Bench, others: &Others<'_>, watched: &[u8], item: &Seen<'_>) -> bool
    ensures { (own : Option ClientRecord) (x : Item) → IsSeen x item.now
        → result ≡ may_part (opens_by (front_of bench.now) own (clients_besides seen_of watched.now (connections_of others.now))) x }
{
    match *item {
        Seen::Refused => true,
        Seen::TooLong => others.none_holds(watched),
        Seen::Command(command) => may_leave(bench, others, watched, &command),
    }
}

impl<'a> Guard<'a> {
    /// A guard that was told nothing yet, for a feed of the connection of that name. If that isn't the watched one, the watched
    /// one is among the others, if it is there.
    pub(crate) fn new(watched: &'a [u8], name: &Name, others: Others<'a>) -> Guard<'a>
        ensures meets { result.meets ≡ true }
        ensures mine { result.mine ≡ bytes_eq name.now watched.now }
        ensures watched { result.watched.now ≡ watched.now }
        ensures own { client_by seen_of result.own ≡ client_named seen_of watched.now (connections_of others.entry) }
        ensures others { result.others ≡ others.entry }
    {
        Guard {
            meets: true,
            mine: name.is(watched),
            watched,
            own: others.session_of(watched),
            others,
        }
    }

    // Whether what is said keeps to the rules.
    fn allows(&self, bench: &Bench, item: &Seen<'_>) -> bool
        ensures { (x : Item) → IsSeen x item.now → result ≡ item_meets (opens_at (front_of bench.now) self.now) self.now.mine x }
    {
        if self.mine {
            return may_part(bench, &self.others, self.watched, item);
        }
        may_say(bench, self.own, item)
    }
}

impl<'a> Watch<Bench> for Guard<'a> {
    ghost use Rattle.iio_bench.specs.Guard.{guards};

    ghost makes = { guards };

    fn before(&mut self, iio: &Bench, _who: u32, item: &Seen<'_>) {
        let allowed = self.allows(iio, item);
        self.meets &= allowed;
    }
}
