//! The adapters over sockets, each over the loopback with both ends in one test.

use iio_io::{Dial, Door, Failed, Link, Listen, TcpDoor, TcpLink, accept};
use std::alloc::Global;
use std::cell::Cell;
use std::io;
use std::net::{Ipv4Addr, OpenListener, SocketAddr};
use std::sync::atomic::{AtomicBool, Ordering};
use std::test::Fail;

/// Texts that are no address: an empty one, no port, an empty port, one that is too large, and an address of the longer kind
/// without a port.
const WRONG: &[&str] = &["", "127.0.0.1", "127.0.0.1:", "127.0.0.1:65536", "::1"];

// A door on a port that the system chose.
fn open<'a>(rt: HostRuntime, stop: &'a AtomicBool) -> Result<TcpDoor<'a, HostRuntime>, Fail> {
    let mut door = TcpDoor::new(rt, stop);
    door.listen("127.0.0.1:0")?;
    Ok(door)
}

// The address at which a door is open, as a text.
fn place<'a>(alloc: Global, door: &TcpDoor<'a, HostRuntime>) -> Result<String, Fail> {
    match door.address() {
        Some(address) => Ok(format!(in alloc; "{address}")?),
        None => Ok(String::new(alloc)),
    }
}

// Whether one send takes all of these bytes.
fn sends(link: &mut TcpLink<HostRuntime>, bytes: &[u8]) -> bool {
    link.send(bytes) == Ok(bytes.len())
}

// Whether one receive into that many bytes, at most 8, gives these.
fn hears(link: &mut TcpLink<HostRuntime>, room: usize, bytes: &[u8]) -> bool {
    let mut out = [0u8; 8];
    let room = room.min(8);
    match link.recv(&mut out[..room]) {
        Ok(count) => count == bytes.len() && out.starts_with(bytes),
        Err(Failed) => false,
    }
}

// Whether a connection carries both directions. The far end says more than is heard.
fn speaks(
    near: &mut TcpLink<HostRuntime>,
    far: &mut TcpLink<HostRuntime>,
    said: &[u8],
    answered: &[u8],
) -> bool {
    sends(near, said)
        && hears(far, 8, said)
        && sends(far, answered)
        && sends(far, b"unread")
        && hears(near, 1, answered)
        && far.faults() == 0
}

// Dials a link, and takes the door's next connection as its other end, until this returns.
fn is_connected<'a>(
    near: &mut TcpLink<HostRuntime>,
    door: &mut TcpDoor<'a, HostRuntime>,
    address: &str,
    said: &[u8],
    answered: &[u8],
) -> Result<bool, Fail> {
    if near.dial(address) != Ok(()) {
        return Ok(false);
    }
    match door.next()? {
        Some(mut far) => Ok(speaks(near, &mut far, said, answered)),
        None => Ok(false),
    }
}

// The number of bytes that come until the end, of at most 32.
fn count_left(link: &mut TcpLink<HostRuntime>) -> Result<usize, Fail> {
    let mut out = [0u8; 4];
    let mut rest = 0usize;
    for _ in 0..8 {
        rest = rest.saturating_add(link.recv(&mut out)?);
    }
    Ok(rest)
}

// A link sends and receives, also if it is dialled again: then nothing of the connection before is left. If the peer goes away,
// that is the end.
#[test]
fn links_over_the_loopback(rt: HostRuntime) -> Result<(), Fail> {
    let stop = AtomicBool::new(false);
    let mut door = open(rt, &stop)?;
    let address = place(rt.alloc(), &door)?;
    let mut near: TcpLink<HostRuntime> = TcpLink::new(rt);
    for (said, answered) in [(b"one", b"1"), (b"two", b"2")] {
        let right = is_connected(&mut near, &mut door, address.as_str(), said, answered)?;
        assert!(rt; right, "{said:?}");
    }
    let rest = count_left(&mut near)?;
    assert_eq!(rt; (rest, near.faults(), door.faults()), (6, 0, 0));
    stop.store(true, Ordering::SeqCst);
    assert!(rt; door.next()?.is_none());
    Ok(())
}

// A peer that closes with bytes unread resets the connection: each call fails and is counted, and no signal is raised.
#[test]
fn a_reset_is_a_failure(rt: HostRuntime) -> Result<(), Fail> {
    let stop = AtomicBool::new(false);
    let mut door = open(rt, &stop)?;
    let address = place(rt.alloc(), &door)?;
    let mut near: TcpLink<HostRuntime> = TcpLink::new(rt);
    near.dial(address.as_str())?;
    near.send(b"unread")?;
    let far = door.next()?;
    assert!(rt; far.is_some());
    drop(far);
    let mut out = [0u8; 8];
    let answers = (near.recv(&mut out), near.send(b"more"), near.faults());
    assert_eq!(rt; answers, (Err(Failed), Err(Failed), 2));
    Ok(())
}

// A port that is taken, a door that isn't open, and one that is opened again.
#[test]
fn a_door_on_a_taken_port_fails(rt: HostRuntime) -> Result<(), Fail> {
    let stop = AtomicBool::new(false);
    let mut first = open(rt, &stop)?;
    let taken = place(rt.alloc(), &first)?;
    let mut second = TcpDoor::new(rt, &stop);
    let opened = second.listen(taken.as_str()).is_ok() || second.address().is_some();
    assert!(rt; !opened && second.next().is_err());
    for address in WRONG {
        assert_eq!(rt; second.listen(address), Err(Failed), "{address}");
    }
    assert_eq!(rt; (first.faults(), second.faults()), (0, 7));
    assert_eq!(rt; first.listen(taken.as_str()), Ok(()));
    let again = place(rt.alloc(), &first)?;
    assert_eq!(rt; again.as_str(), taken.as_str());
    Ok(())
}

// Whether each call fails at a link that can't be dialled at that address.
fn each_fails(link: &mut TcpLink<HostRuntime>, address: &str) -> bool {
    let mut out = [0u8; 8];
    link.dial(address) == Err(Failed)
        && link.recv(&mut out) == Err(Failed)
        && link.send(b"unsent") == Err(Failed)
}

// A link that isn't dialled, and addresses at which it can't be: each call fails and is counted. The last address has a port at
// which nobody listens.
#[test]
fn a_link_that_is_not_dialled_fails(rt: HostRuntime) -> Result<(), Fail> {
    let stop = AtomicBool::new(false);
    let door = open(rt, &stop)?;
    let mut link: TcpLink<HostRuntime> = TcpLink::new(rt);
    link.dial(place(rt.alloc(), &door)?.as_str())?;
    let mut failed = 0u64;
    for address in WRONG.iter().copied().chain(["127.0.0.1:1"]) {
        let fails = each_fails(&mut link, address);
        failed = failed.saturating_add(3);
        assert!(rt; fails && link.faults() == failed, "{address}");
    }
    Ok(())
}

/// A listener whose accepts return what is listed: an error by its number, or 0 for a connection.
#[derive(Drop)]
struct Listed<'a> {
    errors: &'a [i32],
    calls: Cell<usize>,
}

impl<'a> OpenListener for Listed<'a> {
    type Stream = usize;

    fn accept(&self) -> io::Result<(usize, SocketAddr)> {
        let place = self.calls.get();
        self.calls.set(place.saturating_add(1));
        match self.errors.get(place) {
            Some(0) | None => Ok((place, SocketAddr::from((Ipv4Addr::LOCALHOST, 1)))),
            Some(error) => Err(io::Error::from_raw_os_error(*error)),
        }
    }
}

// The errors of a listener's calls, and the number of the call whose connection is taken. Connections that went away before
// they were taken are passed over: ECONNABORTED is 103, ECONNRESET 104, ENETUNREACH 101, EHOSTUNREACH 113. Without descriptors
// the call fails at once: EMFILE is 24, ENFILE 23.
#[test]
fn an_aborted_connection_is_passed_over(rt: HostRuntime) {
    for (errors, taken) in [
        ([0, 0, 0], Ok(0usize)),
        ([103, 0, 0], Ok(1)),
        ([104, 103, 0], Ok(2)),
        ([101, 113, 103], Ok(3)),
        ([24, 0, 0], Err(Failed)),
        ([103, 23, 0], Err(Failed)),
    ] {
        let listener = Listed {
            errors: &errors,
            calls: Cell::new(0),
        };
        assert_eq!(rt; accept(&listener), taken, "{errors:?}");
    }
}
