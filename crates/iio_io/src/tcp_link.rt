//! A connection over TCP.

ghost use Rattle.std.specs.Prelude.{◌≡◌, ◌+◌, ◌-◌, ◌^◌, ◌<◌, ◌≤◌, length, min, None, Some, IfOk, IfSome, IsSome, IsErr, MatchOption, MatchResult, OnErr};
ghost use Rattle.std.specs.Io.KnownBytes.{ReadConsumes, WriteAppends};
ghost use Rattle.iio_io.specs.Outside.{CountsFault};

use crate::link::{Dial, Link};
use crate::retrying::{read_retrying, write_retrying};
use crate::traits::Failed;
use iio_base::Count;
use std::io::{Read, Write};
use std::net::{Net, OpenStream, TcpStream};

/// A link over a TCP stream, dialled or accepted. Its content isn't visible. A call that a signal cut short is tried again, and
/// what is sent goes out at once, however little it is. If the peer went away, a send fails, and a receive finds the end, or
/// fails if the peer reset the connection; no signal is raised.
#[derive(Drop)]
pub struct TcpLink<N, S = TcpStream> {
    net: N,
    stream: Option<S>,
    faults: Count,
}

impl<N: Net<Stream = S>, S: Read + Write + OpenStream + Drop> TcpLink<N, S> {
    /// Makes a link that isn't dialled. Each `recv` and `send` fails until `dial` has returned `Ok`.
    pub fn new(net: N) -> TcpLink<N, S>
        ensures { result ≡ record { net = net; stream = None; faults = 0 } }
    {
        TcpLink {
            net,
            stream: None,
            faults: Count::new(),
        }
    }

    // Makes a link over a stream that is connected, of which no call failed yet.
    pub(crate) fn over(net: N, stream: S) -> TcpLink<N, S>
        ensures { result ≡ record { net = net; stream = Some stream; faults = 0 } }
    {
        // Without this the system may hold a short answer back; the link works all the same.
        let _ = stream.set_nodelay(true);
        TcpLink {
            net,
            stream: Some(stream),
            faults: Count::new(),
        }
    }

    /// How many calls failed, but at most 2^64 - 1.
    pub fn faults(&self) -> u64
        ensures { result ≡ min self.now.faults (2 ^ 64 - 1) }
    {
        self.faults.get()
    }
}

impl<N: Net<Stream = S>, S: Read + Write + OpenStream + Drop> Link for TcpLink<N, S> {
    ghost use Rattle.std.specs.Prelude.{None};

    ghost left = { λ _. None };

    ghost written = { λ _. None };

    ghost faults = { λ l. l.faults };

    fn recv(&mut self, out: &mut [u8]) -> Result<usize, Failed>
        ensures fits { IfOk result (λ n. n ≤ length out.new) }
        ensures undialled { self.old.stream ≡ None → IsErr result }
        ensures bytes { MatchOption self.old.stream (self.new.stream ≡ None) (λ old.
            IfSome self.new.stream (λ new. ReadConsumes (S.remaining old) (S.remaining new) result out.new)) }
        ensures count { CountsFault result self.old.faults self.new.faults }
    {
        match &mut self.stream {
            Some(stream) => read_retrying(stream, &mut self.faults, out),
            None => {
                self.faults.rise();
                Err(Failed)
            }
        }
    }

    // A send of a nonempty piece that takes nothing is a failure.
    fn send(&mut self, bytes: &[u8]) -> Result<usize, Failed>
        ensures fits { IfOk result (λ n. n ≤ length bytes.now) }
        ensures some { IfOk result (λ n. 0 < length bytes.now → 1 ≤ n) }
        ensures undialled { self.old.stream ≡ None → IsErr result }
        ensures bytes { MatchOption self.old.stream (self.new.stream ≡ None) (λ old.
            IfSome self.new.stream (λ new. WriteAppends (S.contents old) (S.contents new) result bytes.now)) }
        ensures count { CountsFault result self.old.faults self.new.faults }
    {
        match &mut self.stream {
            Some(stream) => write_retrying(stream, &mut self.faults, bytes),
            None => {
                self.faults.rise();
                Err(Failed)
            }
        }
    }
}

impl<N: Net<Stream = S>, S: Read + Write + OpenStream + Drop> Dial for TcpLink<N, S> {
    // A connection that the link had is closed first. If this fails, the link isn't dialled.
    fn dial(&mut self, address: &str) -> Result<(), Failed>
        ensures dialled { IfOk result (λ _. IsSome self.new.stream) }
        ensures closed { OnErr result (self.new.stream ≡ None) }
        ensures count { CountsFault result self.old.faults self.new.faults }
    {
        self.stream = None;
        match TcpStream::connect(&self.net, address) {
            Ok(stream) => {
                let _ = stream.set_nodelay(true);
                self.stream = Some(stream);
                Ok(())
            }
            Err(_) => {
                self.faults.rise();
                Err(Failed)
            }
        }
    }
}
