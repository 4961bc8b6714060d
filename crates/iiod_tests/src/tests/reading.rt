//! A client of a hub, over the loopback interface.

ghost use Rattle.std.specs.Prelude.{⊤};

use super::doubles::Firing;
use super::{end_of, hub_of};
use iio_io::{Dial, Door, Listen, MemSink, MemSource, TcpDoor, TcpLink};
use iiod_hub::{Hub, SessionEnd};
use iiod_readdev::{ReadStatus, readdev};
use std::alloc::Global;
use std::net::SocketAddr;
use std::process::Abort;
use std::sync::Wait;
use std::sync::atomic::AtomicBool;
use std::test::Fail;
use std::thread;

// The description of the hub's device that a client is given.
const TOLD: &[u8] = b"trigger t0 2
device adc0 t0
channel voltage0 le:u12/16>>4
channel voltage1 le:u12/16>>4
channel accel_x be:s16/16>>0
timestamp
";

const PRINTED: &[u8] = b"1000fffd voltage0=1 accel_x=-3\n1000fffd voltage0=1 accel_x=-3\n";

/// The description that a client is given, the link that it begins, and its output.
#[derive(Drop)]
struct Client {
    alloc: Global,
    words: Vec<String>,
    input: MemSource,
    output: MemSink,
    link: TcpLink<HostRuntime>,
}

// Reads the device. Then another connection is begun, so that a door that still waits for one can end.
fn read_at(client: &mut Client) -> ReadStatus {
    let words = client.words.as_slice();
    let status = readdev(
        client.alloc,
        words,
        0,
        &mut client.input,
        &mut client.output,
        &mut client.link,
    );
    if let Some(address) = words.get(1) {
        let _ = client.link.dial(address.as_str());
    }
    status
}

/// A hub, and the door from which its one connection comes.
#[derive(Drop)]
struct Server<'a, R, D> {
    rt: &'a R,
    alloc: Global,
    hub: &'a Hub,
    door: D,
}

// Serves the door's next connection; before each of its receives the trigger is fired twice. (The toolchain requires a
// condition of a function that is lent a hub in a struct.)
fn serve_next<'a, 'b, R: Wait>(
    server: &mut Server<'a, R, TcpDoor<'b, HostRuntime>>,
) -> Option<SessionEnd>
    requires { ⊤ }
{
    let Ok(Some(link)) = server.door.next() else {
        return None;
    };
    let mut link = Firing {
        rt: server.rt,
        alloc: server.alloc,
        hub: server.hub,
        moment: 0,
        link,
    };
    Some(end_of(server.rt, server.alloc, server.hub, 1, &mut link))
}

fn push_words(alloc: Global, words: &mut Vec<String>, more: &[&str]) -> Result<(), Fail> {
    for word in more {
        words.push(String::from_str(alloc, word)?)?;
    }
    Ok(())
}

// Returns the words for a client that reads two scans of the hub's device at a door.
fn words_for(alloc: Global, address: SocketAddr) -> Result<Vec<String>, Fail> {
    let door = format!(in alloc; "{address}")?;
    let mut words = Vec::new(alloc);
    push_words(
        alloc,
        &mut words,
        &["readdev", door.as_str(), "adc0", "1", "00000005", "2"],
    )?;
    Ok(words)
}

fn client_of(rt: HostRuntime, alloc: Global, address: SocketAddr) -> Result<Client, Fail> {
    let words = words_for(alloc, address)?;
    let input = MemSource::new(TOLD.to_vec(alloc)?, 100, Vec::new(alloc));
    let output = MemSink::new(alloc, 1_000, Vec::new(alloc))?;
    Ok(Client {
        alloc,
        words,
        input,
        output,
        link: TcpLink::new(rt),
    })
}

// Opens a door at a free port of the loopback interface.
fn open_door(
    rt: HostRuntime,
    stop: &AtomicBool,
) -> Result<(TcpDoor<'_, HostRuntime>, SocketAddr), Fail> {
    let mut door = TcpDoor::new(rt, stop);
    door.listen("127.0.0.1:0")?;
    let Some(address) = door.address() else {
        return Err(Fail::from("no address"));
    };
    Ok((door, address))
}

fn check_ends(rt: &impl Abort, status: ReadStatus, end: Option<SessionEnd>) {
    assert_eq!(rt; status, ReadStatus::Done);
    assert_eq!(rt; end, Some(SessionEnd::Ended));
}

// The command that reads devices reads the device of a usual session over the loopback interface.
#[test]
fn a_client_reads_over_the_loopback(rt: HostRuntime) -> Result<(), Fail> {
    let alloc = rt.alloc();
    let hub = hub_of(alloc)?;
    let stop = AtomicBool::new(false);
    let (door, address) = open_door(rt, &stop)?;
    let mut client = client_of(rt, alloc, address)?;
    let mut server = Server {
        rt: &rt,
        alloc,
        hub: &hub,
        door,
    };
    let (status, end) = thread::join_mut(
        &rt,
        &mut || read_at(&mut client),
        &mut || serve_next(&mut server),
    );
    check_ends(&rt, status, end);
    assert_eq!(rt; client.output.written(), PRINTED);
    Ok(())
}
