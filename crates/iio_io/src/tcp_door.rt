//! A door on a TCP port.

ghost use Rattle.std.specs.Prelude.{◌≡◌, ◌+◌, ◌*◌, ◌-◌, ◌^◌, min, None, IfOk, IsSome, IsErr, MatchResult, OnErr};
ghost use Rattle.iio_io.specs.Outside.{CountsFault};

use crate::clock_ticker::ClockTicker;
use crate::door::{Door, Listen};
use crate::tcp_link::TcpLink;
use crate::traits::Failed;
use iio_base::Count;
use std::io;
use std::io::ErrorKind;
use std::net::{Net, OpenListener, SocketAddr, TcpListener, TcpStream};
use std::sync::atomic::{AtomicBool, Ordering};
use std::time::{Clock, Instant};

/// A door on a TCP port. Its tickers count from the moment at which it was opened. If `stop` is set, the door ends at the next
/// connection, which it closes unheard, and its tickers end at their next moment.
#[derive(Drop)]
pub struct TcpDoor<'a, R> {
    rt: R,
    stop: &'a AtomicBool,
    listener: Option<TcpListener>,
    start: Option<Instant>,
    faults: Count,
}

impl<'a, R: Net<Stream = TcpStream, Listener = TcpListener> + Clock> TcpDoor<'a, R> {
    /// Makes a door that isn't open. Each `next` fails until `listen` has returned `Ok`.
    pub fn new(rt: R, stop: &'a AtomicBool) -> TcpDoor<'a, R>
        ensures faults { result.faults ≡ 0 }
        ensures closed { result.listener ≡ None }
    {
        TcpDoor {
            rt,
            stop,
            listener: None,
            start: None,
            faults: Count::new(),
        }
    }

    /// The address at which the door is open, with the port that the system chose if the door was opened at port 0.
    pub fn address(&self) -> Option<SocketAddr>
        ensures closed { self.now.listener ≡ None → result ≡ None }
    {
        match &self.listener {
            Some(listener) => listener.local_addr().ok(),
            None => None,
        }
    }

    /// How many calls failed, but at most 2^64 - 1.
    pub fn faults(&self) -> u64
        ensures { result ≡ min self.now.faults (2 ^ 64 - 1) }
    {
        self.faults.get()
    }

    fn bind(&self, address: &str) -> io::Result<(TcpListener, Instant)> {
        let listener = TcpListener::bind(&self.rt, address)?;
        let start = Instant::now(&self.rt)?;
        Ok((listener, start))
    }
}

impl<'a, R: Net<Stream = TcpStream, Listener = TcpListener> + Clock + Copy + Send + Drop> Door
    for TcpDoor<'a, R> {
    ghost use Rattle.std.specs.Prelude.{None};

    type L = TcpLink<R>;

    ghost left = { λ _. None };

    ghost faults = { λ d. d.faults };

    fn next(&mut self) -> Result<Option<TcpLink<R>>, Failed>
        ensures closed { self.old.listener ≡ None → IsErr result }
        ensures open { self.new.listener ≡ self.old.listener }
        ensures count { CountsFault result self.old.faults self.new.faults }
    {
        let accepted = match &self.listener {
            Some(listener) => accept_unless(listener, self.stop),
            None => Err(Failed),
        };
        match accepted {
            Ok(Some(stream)) => Ok(Some(TcpLink::over(self.rt, stream))),
            Ok(None) => Ok(None),
            Err(Failed) => {
                self.faults.rise();
                Err(Failed)
            }
        }
    }
}

impl<'a, R: Net<Stream = TcpStream, Listener = TcpListener> + Clock + Copy + Send + Drop> Listen
    for TcpDoor<'a, R> {
    type T = ClockTicker<'a, R>;

    // A port at which the door is open is closed first. If this fails, the door isn't open.
    fn listen(&mut self, address: &str) -> Result<(), Failed>
        ensures open { IfOk result (λ _. IsSome self.new.listener) }
        ensures closed { OnErr result (self.new.listener ≡ None) }
        ensures count { CountsFault result self.old.faults self.new.faults }
    {
        self.listener = None;
        match self.bind(address) {
            Ok((listener, start)) => {
                self.listener = Some(listener);
                self.start = Some(start);
                Ok(())
            }
            Err(_) => {
                self.faults.rise();
                Err(Failed)
            }
        }
    }

    fn ticker(&self, period: u32) -> ClockTicker<'a, R>
        ensures { result ≡ record { period = period * 1_000_000; ticks = 0 } }
    {
        ClockTicker::new(self.rt, self.stop, self.start, period)
    }
}

// Accepts the next connection of a listener. Returns `None` if `stop` is set, before or after that.
fn accept_unless<L: OpenListener>(
    listener: &L,
    stop: &AtomicBool,
) -> Result<Option<L::Stream>, Failed> {
    if stop.load(Ordering::SeqCst) {
        return Ok(None);
    }
    let stream = accept(listener)?;
    if stop.load(Ordering::SeqCst) {
        return Ok(None);
    }
    Ok(Some(stream))
}

/// Accepts the next connection of a listener, for a door over it. A connection that went away before it was accepted is passed
/// over; any other error is a failure.
pub fn accept<L: OpenListener>(listener: &L) -> Result<L::Stream, Failed> {
    for _ in 0..u64::MAX {
        match listener.accept() {
            Ok((stream, _)) => return Ok(stream),
            Err(e) => {
                if !is_gone(e.kind()) {
                    break;
                }
            }
        }
    }
    Err(Failed)
}

// Whether an accept failed because of its connection alone, so that the next may be taken (accept(2), "Error handling").
fn is_gone(kind: ErrorKind) -> bool {
    matches!(
        kind,
        ErrorKind::ConnectionAborted
            | ErrorKind::ConnectionReset
            | ErrorKind::HostUnreachable
            | ErrorKind::NetworkDown
            | ErrorKind::NetworkUnreachable
    )
}
