//! The monitor of a device.

ghost use Rattle.std.specs.Prelude.{◌≡◌, ◌<◌, nat_eq, length, map, is_some, IfOk};
ghost use Rattle.iio_event.specs.Code.{code_of};
ghost use Rattle.iio_event.specs.Monitor.{new_monitor, idle_channel, channel_at, with_channel, watch_at, set_threshold, switch_edge, fired_events, queue_after, after_value, open_answer, after_open, is_holder, read_answer, after_read, close_answer, after_close};

use crate::event::{Edge, EventData, code};
use crate::watch::{Watch, Watched};
use circular_buffer::HeapCircularBuffer;
use iio_base::Mem;
use iio_layout::{Kind, Shape, Suffix};
use std::alloc::Global;
use std::marker::Model;

/// The most events that wait (kernel: the event queue's kfifo).
pub const MAX_EVENTS: usize = 16;

/// The events have a holder already.
#[derive(Clone, Copy, Debug, PartialEq, Eq)]
pub struct Held;

/// The caller doesn't hold the events.
#[derive(Clone, Copy, Debug, PartialEq, Eq)]
pub struct NotHolder;

/// The thresholds of a device's channels, and the events that wait for their holder.
#[derive(Debug, Drop)]
pub struct Monitor {
    channels: Vec<Watched>,
    holder: Option<u32>,
    events: HeapCircularBuffer<EventData>,
}

impl Model for Monitor {
    ghost use Rattle.std.specs.Prelude.{◌≡◌, ℕ};
    ghost use Rattle.iio_event.specs.Monitor.{MonitorRecord};

    ghost Value = { MonitorRecord ℕ };

    ghost view = { λ m. record { channels = m.channels.items; holder = m.holder; events = m.events.items } };

    ghost invariant = { λ m. m.events.capacity ≡ 16 };
}

impl Monitor {
    /// Makes a monitor of that shape's data channels: nothing is watched, all thresholds are 0, nobody holds the events. All
    /// memory that it ever takes is taken here.
    pub fn new(alloc: Global, shape: &Shape) -> Result<Monitor, Mem>
        ensures { IfOk result (λ m. m ≡ new_monitor shape.now) }
    {
        Ok(Monitor {
            channels: idle_channels(alloc, shape)?,
            holder: None,
            events: HeapCircularBuffer::with_capacity(alloc, MAX_EVENTS)?,
        })
    }

    /// Sets the threshold of an edge of channel `c`. The value that was sensed before is kept.
    pub fn set_value(&mut self, c: u32, edge: Edge, value: i64)
        requires { c < length self.old.channels }
        ensures { self.new ≡ set_threshold c edge value self.old }
    {
        let channel = self.channel(c);
        let watch = Watch {
            threshold: value,
            ..channel.watch(edge)
        };
        self.put(c, channel.with_watch(edge, watch));
    }

    /// Enables or disables an edge of channel `c`. An edge that gets enabled forgets the value that was sensed before; enabling
    /// one that is enabled changes nothing.
    pub fn set_on(&mut self, c: u32, edge: Edge, on: bool)
        requires { c < length self.old.channels }
        ensures { self.new ≡ switch_edge c edge on self.old }
    {
        let channel = self.channel(c);
        self.put(
            c,
            channel.with_watch(edge, channel.watch(edge).switched(on)),
        );
    }

    /// The threshold of an edge of channel `c`.
    pub fn value(&self, c: u32, edge: Edge) -> i64
        requires { c < length self.now.channels }
        ensures { result ≡ (watch_at c edge self.now).threshold }
    {
        self.channel(c).watch(edge).threshold
    }

    /// Whether an edge of channel `c` is enabled.
    pub fn on(&self, c: u32, edge: Edge) -> bool
        requires { c < length self.now.channels }
        ensures { result ≡ (watch_at c edge self.now).enabled }
    {
        self.channel(c).watch(edge).enabled
    }

    /// Takes a value of channel `c` at the moment `t`, and returns how many events fired: 0 to 2, the rising one before the
    /// falling one. They are kept while there is a holder; an event that finds 16 waiting is dropped.
    pub fn sense(&mut self, c: u32, value: i64, t: i64) -> u32
        requires { c < length self.old.channels }
        ensures count { result ≡ length (fired_events value t (channel_at c self.old)) }
        ensures state { self.new ≡ after_value c value t self.old }
    {
        let channel = &mut self.channels[c as usize];
        let rises = channel.rising.sense(Edge::Rising, value);
        let falls = channel.falling.sense(Edge::Falling, value);
        if !rises && !falls {
            return 0;
        }
        let (kind, suffix) = (channel.kind, channel.suffix);
        if rises {
            self.fire(kind, suffix, Edge::Rising, t);
        }
        if falls {
            self.fire(kind, suffix, Edge::Falling, t);
        }
        u32::from(rises) + u32::from(falls)
    }

    /// Makes `who` the holder of the events, with none waiting. Returns `Held` exactly if there is a holder, and then nothing
    /// changes.
    pub fn open(&mut self, who: u32) -> Result<(), Held>
        ensures answer { result ≡ open_answer self.old }
        ensures state { self.new ≡ after_open who self.old }
    {
        if self.holder.is_some() {
            return Err(Held);
        }
        self.holder = Some(who);
        self.events.clear();
        Ok(())
    }

    /// Takes the oldest event out, and returns it, or `None` if none waits. Returns `NotHolder` exactly if `who` isn't the
    /// holder, and then nothing changes.
    pub fn read(&mut self, who: u32) -> Result<Option<EventData>, NotHolder>
        ensures answer { result ≡ read_answer nat_eq who self.old }
        ensures state { self.new ≡ after_read nat_eq who self.old }
    {
        if !self.is_holder(who) {
            return Err(NotHolder);
        }
        Ok(self.events.pop_front())
    }

    /// Ends the holding and empties the queue. Returns `NotHolder` exactly if `who` isn't the holder, and then nothing changes.
    pub fn close(&mut self, who: u32) -> Result<(), NotHolder>
        ensures answer { result ≡ close_answer nat_eq who self.old }
        ensures state { self.new ≡ after_close nat_eq who self.old }
    {
        if !self.is_holder(who) {
            return Err(NotHolder);
        }
        self.holder = None;
        self.events.clear();
        Ok(())
    }

    fn is_holder(&self, who: u32) -> bool
        ensures { result ≡ is_holder nat_eq who self.now }
    {
        self.holder == Some(who)
    }

    fn channel(&self, c: u32) -> Watched
        requires { c < length self.now.channels }
        ensures { result ≡ channel_at c self.now }
    {
        self.channels[c as usize]
    }

    fn put(&mut self, c: u32, channel: Watched)
        requires { c < length self.old.channels }
        ensures { self.new ≡ with_channel c channel self.old }
    {
        self.channels[c as usize] = channel;
    }

    // Keeps the event of an edge, if there is a holder and room.
    #[tactic(auto, using(crate::proofs::QueueLemmas::keeps_all))]
    fn fire(&mut self, kind: Kind, suffix: Suffix, edge: Edge, t: i64)
        ensures { self.new ≡ record self.old
            { events = queue_after (is_some self.old.holder) self.old.events (record { code = code_of kind suffix edge; t = t }) } }
    {
        if self.holder.is_some() && self.events.len() < MAX_EVENTS {
            let code = code(kind, suffix, edge);
            self.events.push_back(EventData { code, t });
        }
    }
}

// The data channels of a shape, with nothing watched.
fn idle_channels(alloc: Global, shape: &Shape) -> Result<Vec<Watched>, Mem>
    ensures { IfOk result (λ channels. channels.items ≡ map idle_channel shape.now.channels) }
{
    let mut channels = Vec::with_capacity(alloc, shape.inputs() as usize)?;
    for c in 0..shape.inputs() {
        channels.push(Watched::idle(shape.channel(c)))?;
    }
    Ok(channels)
}
