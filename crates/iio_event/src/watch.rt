//! What is watched at a channel.

ghost use Rattle.std.specs.Prelude.{◌≡◌, false};
ghost use Rattle.std.specs.Option.{option_map_or};
ghost use Rattle.iio_event.specs.Monitor.{idle_channel, watch_of, with_watch, is_past, crosses, sensed_watch, switched_watch};

use crate::event::Edge;
use iio_layout::{Channel, Kind, Suffix};

/// One edge of a channel.
#[derive(Clone, Copy, Debug)]
pub struct Watch {
    /// Whether its events fire.
    pub enabled: bool,
    /// The value to be crossed.
    pub threshold: i64,
    /// The value that was sensed last since the edge was enabled.
    pub before: Option<i64>,
}

/// A channel and its two edges.
#[derive(Clone, Copy, Debug)]
pub struct Watched {
    pub kind: Kind,
    pub suffix: Suffix,
    pub rising: Watch,
    pub falling: Watch,
}

const IDLE: Watch = Watch {
    enabled: false,
    threshold: 0,
    before: None,
};

impl Watch {
    /// Whether a value is past the threshold.
    fn is_past(&self, edge: Edge, value: i64) -> bool
        ensures { result ≡ is_past edge self.now.threshold value }
    {
        match edge {
            Edge::Rising => value > self.threshold,
            Edge::Falling => value < self.threshold,
        }
    }

    // Whether the value before was past the threshold.
    fn was_past(&self, edge: Edge) -> bool
        ensures { result ≡ option_map_or (λ before. is_past edge self.now.threshold before) self.now.before false }
    {
        match self.before {
            None => false,
            Some(before) => self.is_past(edge, before),
        }
    }

    /// Takes a value, and returns whether it crosses the threshold.
    #[inline]
    pub(crate) fn sense(&mut self, edge: Edge, value: i64) -> bool
        ensures crosses { result ≡ crosses edge self.old value }
        ensures watch { self.new ≡ sensed_watch value self.old }
    {
        if !self.enabled {
            return false;
        }
        let crosses = self.is_past(edge, value) && !self.was_past(edge);
        self.before = Some(value);
        crosses
    }

    /// The edge, switched on or off.
    pub(crate) fn switched(self, on: bool) -> Watch
        ensures { result ≡ switched_watch on self }
    {
        if on == self.enabled {
            return self;
        }
        Watch {
            enabled: on,
            threshold: self.threshold,
            before: if on { None } else { self.before },
        }
    }
}

impl Watched {
    /// A channel at which nothing is watched, with both thresholds 0.
    pub(crate) fn idle(channel: &Channel) -> Watched
        ensures { result ≡ idle_channel channel.now }
    {
        Watched {
            kind: channel.kind,
            suffix: channel.suffix,
            rising: IDLE,
            falling: IDLE,
        }
    }

    pub(crate) fn watch(&self, edge: Edge) -> Watch
        ensures { result ≡ watch_of edge self.now }
    {
        match edge {
            Edge::Rising => self.rising,
            Edge::Falling => self.falling,
        }
    }

    pub(crate) fn with_watch(self, edge: Edge, watch: Watch) -> Watched
        ensures { result ≡ with_watch edge watch self }
    {
        match edge {
            Edge::Rising => Watched {
                rising: watch,
                ..self
            },
            Edge::Falling => Watched {
                falling: watch,
                ..self
            },
        }
    }
}
