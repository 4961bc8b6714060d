//! A connection: what it sent, what it is answered, and what it has open at the devices.

ghost use Rattle.std.specs.Prelude.{◌≡◌, ◌↔◌, [], IfOk, IfSome, IsTrue, OnErr, Some, is_some};
ghost use Rattle.iiod_grammar.specs.Scans.{scan_on};
ghost use Rattle.iiod_grammar.specs.Stream.{AtEnd, no_item};
ghost use Rattle.iiod_commands.specs.Acts.{left_client, left_machine};
ghost use Rattle.iio_device.specs.Site.{is_empty};
ghost use Rattle.iiod_commands.specs.Client.{IsClient, client_of, place_of, seats_of, state_of};
ghost use Rattle.iiod_session.specs.Run.{FeedTells, Feeds, feeding};
ghost use Rattle.iiod_commands.specs.Seat.{SeatRecord};
ghost use Rattle.iiod_session.specs.Session.{IsFresh};
ghost use Rattle.iiod_session.specs.Watch.{Hears, scene_of, waits_in};
ghost use Rattle.iiod_session.specs.declared.going.Going.{Going};

use crate::feed::hear;
use crate::going::Going;
use crate::pending_write::PendingWrite;
use crate::watch::{Unwatched, Watch};
use iio_base::Mem;
use iiod_commands::{Client, Iio, Manner, leave, place};
use iiod_grammar::Lines;
use std::alloc::Global;
use std::marker::Model;

/// A connection of libiio 0.25's iiod, over devices that are lent to each call; `S` is the type of its seats there.
///
/// Contracts see what it has open at the devices and its stream: the items that are whole and not answered yet, and where the
/// stream stands after all bytes received. It can be dropped if a seat can; otherwise [`Session::end`] consumes it.
#[derive(Drop)]
pub struct Session<S> {
    manner: Manner,
    client: Client<S>,
    lines: Lines,
    // The WRITE or WRITEBUF whose payload is being received, or the READBUF that waits.
    pending: PendingWrite,
    going: Going,
    // The bytes after a READBUF that waits.
    left: Vec<u8>,
}

impl<S> Model for Session<S> {
    ghost use Rattle.iiod_grammar.specs.Scans.{scan_on};
    ghost use Rattle.iiod_session.specs.Session.{IsKept, SessionRecord, stream_by};

    ghost Value = { SessionRecord S };

    ghost view = { λ x. record {
      manner = x.manner;
      client = x.client;
      stream = scan_on (stream_by x.going x.lines x.pending) x.left.items;
    } };

    ghost invariant = { λ x. IsKept x.going x.lines x.pending x.left.items };
}

impl<S> Session<S> {
    /// Creates the session of connection number `who`, which has nothing open at the devices and has sent nothing. The devices
    /// know by this number who holds their events.
    pub fn new(alloc: Global, who: u32, manner: Manner) -> Result<Session<S>, Mem>
        ensures { IfOk result (IsFresh who manner) }
    {
        let lines = Lines::new(alloc)?;
        Ok(Session {
            manner,
            client: Client {
                who,
                held: Vec::new(alloc),
                buffers: Vec::new(alloc),
                holdings: Vec::new(alloc),
            },
            lines,
            pending: PendingWrite::new(alloc),
            going: Going::On,
            left: Vec::new(alloc),
        })
    }

    /// Carries out the items that these bytes complete, one after another, and appends the answer to each to `out`; how the
    /// stream is cut into pieces doesn't matter. Returns how the connection then stands.
    ///
    /// `Ended` is returned after EXIT, which has no answer, after a line that is too long, answered by -7, and after a payload
    /// that is too large, answered by -27: all seats are closed and all holdings of events have ended; later bytes mean
    /// nothing. In manner Server `Waits` is returned if a READBUF for at least one scan finds nothing at a device that is
    /// plugged: it isn't answered, and the next feed tries it again, before further bytes. In manner Script the answer is -11.
    ///
    /// After `Mem` the session has ended too: all seats are closed, and no holding of events is left in the session. In manner
    /// Server `Mem` is returned only if there is no room for a short answer or for bytes that are kept, which no clause says:
    /// if memory runs out in a command, the command is answered by -12 and changes nothing.
    pub fn feed<I: Iio<Seat = S>>(
        &mut self,
        alloc: Global,
        iio: &mut I,
        bytes: &[u8],
        out: &mut Vec<u8>,
    ) -> Result<Going, Mem>
        requires { IsClient I.seen (I.front (I.kept iio.old)) self.old.client }
        ensures kept { I.kept iio.new ≡ I.kept iio.old }
        ensures client { IsClient I.seen (I.front (I.kept iio.new)) self.new.client }
        ensures feeds { IfOk result (Feeds self.old.manner (I.front (I.kept iio.old))
            (feeding (state_of I.seen (I.told iio.old) self.old.client) (scan_on self.old.stream bytes.now) out.old.items)
            (feeding (state_of I.seen (I.told iio.new) self.new.client) self.new.stream out.new.items)) }
        ensures all { IfOk result (λ going. going ≡ Going.On → self.new.stream.items ≡ []) }
        ensures manner { self.new.manner ≡ self.old.manner }
        ensures gone { OnErr result ((self.new.client.held.items ≡ []) × (self.new.client.holdings.items ≡ []) × (self.new.stream ≡ no_item AtEnd)) }

        // In a script, over devices that tell their state, all of this is determined.
        ensures script { IfOk result (λ going. FeedTells self.old.manner (I.front (I.kept iio.old)) (state_of I.seen (I.told iio.old) self.old.client)
            (scan_on self.old.stream bytes.now).items out.old.items out.new.items (state_of I.seen (I.told iio.new) self.new.client)) }
    {
        self.feed_watched(alloc, iio, &mut Unwatched, bytes, out)
    }

    /// Does what [`Session::feed`] does, and tells `watch` each item that it carries out, once and in order, with the devices
    /// as they stand just before the item. A READBUF that waits was told when it came, and isn't told again.
    pub fn feed_watched<I: Iio<Seat = S>, W: Watch<I>>(
        &mut self,
        alloc: Global,
        iio: &mut I,
        watch: &mut W,
        bytes: &[u8],
        out: &mut Vec<u8>,
    ) -> Result<Going, Mem>
        requires { IsClient I.seen (I.front (I.kept iio.old)) self.old.client }
        ensures kept { I.kept iio.new ≡ I.kept iio.old }
        ensures client { IsClient I.seen (I.front (I.kept iio.new)) self.new.client }
        ensures feeds { IfOk result (Feeds self.old.manner (I.front (I.kept iio.old))
            (feeding (state_of I.seen (I.told iio.old) self.old.client) (scan_on self.old.stream bytes.now) out.old.items)
            (feeding (state_of I.seen (I.told iio.new) self.new.client) self.new.stream out.new.items)) }
        ensures watched { IfOk result (Hears W.makes self.old.manner (I.front (I.kept iio.old))
            (feeding (scene_of I.seen (I.told iio.old) self.old.client watch.old (waits_in self.old.stream.items)) (scan_on self.old.stream bytes.now)
            out.old.items)
            (feeding (scene_of I.seen (I.told iio.new) self.new.client watch.new (waits_in self.new.stream.items)) self.new.stream out.new.items)) }
        ensures all { IfOk result (λ going. going ≡ Going.On → self.new.stream.items ≡ []) }
        ensures manner { self.new.manner ≡ self.old.manner }
        ensures gone { OnErr result ((self.new.client.held.items ≡ []) × (self.new.client.holdings.items ≡ []) × (self.new.stream ≡ no_item AtEnd)) }

        // In a script, over devices that tell their state, all of this is determined.
        ensures script { IfOk result (λ going. FeedTells self.old.manner (I.front (I.kept iio.old)) (state_of I.seen (I.told iio.old) self.old.client)
            (scan_on self.old.stream bytes.now).items out.old.items out.new.items (state_of I.seen (I.told iio.new) self.new.client)) }
    {
        let was = self.going;
        self.going = Going::Ended;
        match hear(
            alloc,
            self.manner,
            &mut self.client,
            iio,
            watch,
            &mut self.lines,
            &mut self.pending,
            &mut self.left,
            was,
            bytes,
            out,
        ) {
            Ok(going) => {
                self.going = going;
                Ok(going)
            }
            Err(Mem) => {
                leave(&mut self.client, iio);
                Err(Mem)
            }
        }
    }

    /// Closes every seat and ends every holding of events, as when the connection is lost.
    pub fn drop_all<I: Iio<Seat = S>>(&mut self, iio: &mut I)
        requires { IsClient I.seen (I.front (I.kept iio.old)) self.old.client }
        ensures kept { I.kept iio.new ≡ I.kept iio.old }
        ensures client { IsClient I.seen (I.front (I.kept iio.new)) self.new.client }
        ensures left { client_of I.seen self.new.client ≡ left_client (client_of I.seen self.old.client) }
        ensures told { IfSome (I.told iio.old) (λ m. I.told iio.new ≡ Some (left_machine (I.front (I.kept iio.old)) m (client_of I.seen self.old.client))) }
        ensures stream { self.new.stream ≡ self.old.stream }
        ensures manner { self.new.manner ≡ self.old.manner }
    {
        leave(&mut self.client, iio);
    }

    /// Closes every seat, ends every holding of events, and consumes the session.
    pub fn end<I: Iio<Seat = S>>(self, iio: &mut I)
        requires { IsClient I.seen (I.front (I.kept iio.old)) self.client }
        ensures kept { I.kept iio.new ≡ I.kept iio.old }
        ensures told { IfSome (I.told iio.old) (λ m. I.told iio.new ≡ Some (left_machine (I.front (I.kept iio.old)) m (client_of I.seen self.client))) }
    {
        let Session {
            manner: _,
            mut client,
            lines: _,
            pending: _,
            going: _,
            left: _,
        } = self;
        leave(&mut client, iio);
        let Client {
            who: _,
            held,
            buffers: _,
            holdings: _,
        } = client;
        held.destroy_empty();
    }

    /// Whether the session has a seat at the device.
    pub fn holds(&self, dev: u32) -> bool
        ensures { (seen : S → SeatRecord) → result ≡ is_some (place_of dev (seats_of seen self.now.client.held.items)) }
    {
        place(&self.client.held, dev).is_some()
    }

    /// Whether the session has no seat.
    pub fn holds_nothing(&self) -> bool
        ensures { (seen : S → SeatRecord) → result ≡ is_empty (seats_of seen self.now.client.held.items) }
    {
        self.client.held.is_empty()
    }

    /// Whether the session has ended: by EXIT, by a broken limit, or because [`Session::feed`] returned `Mem`.
    pub fn ended(&self) -> bool
        ensures { IsTrue result ↔ (self.now.stream ≡ no_item AtEnd) }
    {
        matches!(self.going, Going::Ended)
    }
}
