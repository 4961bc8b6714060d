//! Servers: simultaneous connections, ticks and sweeps, and the limit of connections that live at once.

use super::doubles::{Answered, Asking, Counting, Crowd, Ending, Once, Rounds, Second, Unplugging};
use super::{hub_of, link_of, serve_timed, serve_untimed};
use iio_io::{ListDoor, MemLink, MemSink, MemSource, OpenGate};
use iiod_hub::Hub;
use iiod_server::{MAX_CONNECTIONS, ServeEnd};
use std::alloc::Global;
use std::sync::Wait;
use std::sync::atomic::{AtomicBool, AtomicU32, Ordering};
use std::test::Fail;
use std::time::Clock;

// Creates `count` links that receive these bytes.
fn links_of(alloc: Global, count: usize, bytes: &[u8]) -> Result<Vec<MemLink>, Fail> {
    let mut links = Vec::new(alloc);
    for _ in 0..count {
        links.push(link_of(alloc, bytes)?)?;
    }
    Ok(links)
}

// Each connection of a door is served, and a door that fails ends the server. The door's calls are counted from 1.
#[test]
fn answers_with_ample_memory(rt: HostRuntime) -> Result<(), Fail> {
    let alloc = rt.alloc();
    let hub = hub_of(alloc)?;
    for (fails, end) in [(0u64, ServeEnd::DoorEnd), (2, ServeEnd::DoorFault)] {
        let mut links = links_of(alloc, 1, b"VERSION\nEXIT\n")?;
        links.push(link_of(alloc, b"VERSION\n")?)?;
        let mut door = ListDoor::new(links, vec![in alloc; fails]?);
        let got = serve_untimed(&rt, alloc, &hub, &mut door, &OpenGate);
        assert_eq!(rt; got, end);
    }
    Ok(())
}

#[test]
fn second_is_heard_while_first_waits(rt: HostRuntime) -> Result<(), Fail> {
    let alloc = rt.alloc();
    let hub = hub_of(alloc)?;
    let links = links_of(alloc, 2, b"VERSION\nEXIT\n")?;
    let mut door = ListDoor::new(links, Vec::new(alloc));
    let gate = Second {
        rt,
        answered: AtomicBool::new(false),
        in_time: AtomicBool::new(false),
    };
    let end = serve_untimed(&rt, alloc, &hub, &mut door, &gate);
    assert_eq!(rt; end, ServeEnd::DoorEnd);
    assert!(rt; gate.in_time.load(Ordering::SeqCst));
    Ok(())
}

// Creates a door with one connection, which asks whether a scan waits.
fn asking_door<'a, R: Clock>(
    alloc: Global,
    rt: R,
    found: &'a AtomicBool,
) -> Result<ListDoor<Asking<'a, R>>, Fail>
where
    R: Drop,
{
    let sent = link_of(alloc, b"")?;
    let mut links = Vec::new(alloc);
    links.push(Asking {
        rt,
        turn: 0,
        found,
        sent,
    })?;
    Ok(ListDoor::new(links, Vec::new(alloc)))
}

#[test]
fn tick_and_sweep_run(rt: HostRuntime) -> Result<(), Fail> {
    let alloc = rt.alloc();
    let hub = hub_of(alloc)?;
    let opened = AtomicBool::new(false);
    let found = AtomicBool::new(false);
    let gate = Answered { flag: &opened };
    let mut door = asking_door(alloc, rt, &found)?;
    let ticker = Once {
        rt,
        flag: &opened,
        given: false,
    };
    let end = serve_timed(&rt, alloc, &hub, &mut door, ticker, &gate)?;
    assert_eq!(rt; end, ServeEnd::DoorEnd);
    assert!(rt; found.load(Ordering::SeqCst));
    Ok(())
}

#[test]
fn one_connection_too_many_is_unheard(rt: HostRuntime) -> Result<(), Fail> {
    let alloc = rt.alloc();
    let hub = hub_of(alloc)?;
    let ended = AtomicBool::new(false);
    let links = links_of(alloc, MAX_CONNECTIONS + 1, b"VERSION\nEXIT\n")?;
    let mut door = Ending {
        door: ListDoor::new(links, Vec::new(alloc)),
        ended: &ended,
    };
    let gate = Crowd {
        rt,
        ended: &ended,
        heard: AtomicU32::new(0),
    };
    let end = serve_untimed(&rt, alloc, &hub, &mut door, &gate);
    assert_eq!(rt; end, ServeEnd::DoorEnd);
    assert_eq!(rt; gate.heard.load(Ordering::SeqCst) as usize, MAX_CONNECTIONS);
    Ok(())
}

// Creates a door with one connection that goes through 20 rounds.
fn rounds_door<'a, R: Clock>(
    alloc: Global,
    rt: R,
    ended: &'a AtomicBool,
    wrong: &'a AtomicBool,
) -> Result<ListDoor<Rounds<'a, R>>, Fail>
where
    R: Drop,
{
    let sent = link_of(alloc, b"")?;
    let mut links = Vec::new(alloc);
    links.push(Rounds {
        rt,
        left: 20,
        turn: 0,
        opened: false,
        available: false,
        ended,
        wrong,
        sent,
    })?;
    Ok(ListDoor::new(links, Vec::new(alloc)))
}

// One worker opens, reads and closes the device, while two others poll its trigger and make it capture.
#[test]
fn three_workers_use_one_hub(rt: HostRuntime) -> Result<(), Fail> {
    let alloc = rt.alloc();
    let hub = hub_of(alloc)?;
    let ended = AtomicBool::new(false);
    let wrong = AtomicBool::new(false);
    let mut door = rounds_door(alloc, rt, &ended, &wrong)?;
    let ticker = Counting { rt, turn: 0 };
    let end = serve_timed(&rt, alloc, &hub, &mut door, ticker, &OpenGate)?;
    assert_eq!(rt; end, ServeEnd::DoorEnd);
    assert!(rt; ended.load(Ordering::SeqCst));
    assert!(rt; !wrong.load(Ordering::SeqCst));
    Ok(())
}

// Creates a door with one connection, whose OPEN is received alone and whose READBUF waits; the door then unplugs the device.
fn unplugging_door<'a, R: Clock + Wait>(
    alloc: Global,
    rt: R,
    hub: &'a Hub,
    opened: &'a AtomicBool,
) -> Result<Unplugging<'a, R>, Fail>
where
    R: Drop,
{
    let said = b"OPEN adc0 1 00000005\nREADBUF adc0 4\nREADBUF adc0 4\nCLOSE adc0\nEXIT\n";
    let source = MemSource::new(said.to_vec(alloc)?, 21, Vec::new(alloc));
    let sink = MemSink::new(alloc, 1_000, Vec::new(alloc))?;
    let mut links = Vec::new(alloc);
    links.push(MemLink::new(source, sink))?;
    Ok(Unplugging {
        rt,
        alloc,
        hub,
        opened,
        unplugged: false,
        door: ListDoor::new(links, Vec::new(alloc)),
    })
}

// A device is unplugged by another thread while its reader waits. The server ends, so the reader was woken.
#[test]
fn unplugged_while_a_reader_waits(rt: HostRuntime) -> Result<(), Fail> {
    let alloc = rt.alloc();
    let hub = hub_of(alloc)?;
    let opened = AtomicBool::new(false);
    let gate = Answered { flag: &opened };
    let mut door = unplugging_door(alloc, rt, &hub, &opened)?;
    let end = serve_untimed(&rt, alloc, &hub, &mut door, &gate);
    assert_eq!(rt; end, ServeEnd::DoorEnd);
    assert!(rt; door.unplugged);
    Ok(())
}
