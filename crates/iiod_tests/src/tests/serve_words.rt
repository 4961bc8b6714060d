//! `serve` over sources, sinks and doors in memory. The expected texts were worked out by hand.

use super::asked::{Asked, AskedDoor};
use iio_io::{Door, ListDoor, Listen, MemLink, MemSink, MemSource, OpenGate};
use iio_sensor::Sensor;
use iio_text::Why;
use iiod_serve::{ServeStatus, serve};
use std::alloc::Global;
use std::process::Abort;
use std::sync::Wait;
use std::test::Fail;
use std::thread::Threads;

const DESCRIPTION: &str = "context \"<context/>\"
trigger t0 2
device adc0 t0
channel voltage0 le:u12/16>>4
channel voltage1 le:u12/16>>4
channel accel_x be:s16/16>>0
timestamp
row 0 1 2 -3
%%
";

const USAGE: &str = "usage: play | solo NAME | layout DEVICE MASK | gen N\n";

/// A server of one connection: its words, its input, the calls that fail at the source, the sink's room, the calls that fail at
/// the door, what is printed, the status and its number, and whether the connection is left at the door.
#[derive(Clone, Copy)]
struct Row<'a> {
    name: &'a str,
    words: &'a [&'a str],
    input: &'a str,
    reads: &'a [u64],
    room: usize,
    doors: &'a [u64],
    printed: &'a str,
    status: ServeStatus,
    code: u8,
    is_left: bool,
}

/// A description that is served until the door ends.
const SERVED: Row<'static> = Row {
    name: "served",
    words: &["serve", "a", "10"],
    input: DESCRIPTION,
    reads: &[],
    room: 100,
    doors: &[],
    printed: "",
    status: ServeStatus::DoorEnd,
    code: 0,
    is_left: false,
};

/// Each status except `Usage`, `Memory` and `TooLong`.
const ROWS: &[Row<'static>] = &[
    SERVED,
    Row {
        name: "no device",
        input: "",
        ..SERVED
    },
    Row {
        name: "an output device isn't served",
        input: "trigger t0 2\noutput dac0 t0\nchannel voltage0 le:u8/8>>0\n%%\n",
        ..SERVED
    },
    Row {
        name: "a script is left alone",
        input: "trigger t 1\n%%\nfire\n",
        ..SERVED
    },
    Row {
        name: "refused",
        input: "trigger t0 2\ntrigger t0 2\n%%\n",
        printed: "refused 2 taken\n",
        status: ServeStatus::Refused {
            line: 2,
            why: Why::Taken,
        },
        code: 1,
        is_left: true,
        ..SERVED
    },
    Row {
        name: "a failed read",
        reads: &[1],
        status: ServeStatus::ReadFault,
        code: 3,
        is_left: true,
        ..SERVED
    },
    Row {
        name: "a refusal that isn't written whole",
        input: "trigger t0 2\ntrigger t0 2\n%%\n",
        room: 9,
        printed: "refused 2",
        status: ServeStatus::WriteFault,
        code: 4,
        is_left: true,
        ..SERVED
    },
    Row {
        name: "no address",
        doors: &[1],
        printed: "no address\n",
        status: ServeStatus::NoAddress,
        code: 7,
        is_left: true,
        ..SERVED
    },
    Row {
        name: "no address that isn't written whole",
        doors: &[1],
        room: 4,
        printed: "no a",
        status: ServeStatus::WriteFault,
        code: 4,
        is_left: true,
        ..SERVED
    },
    Row {
        name: "a door that fails",
        doors: &[2],
        status: ServeStatus::DoorFault,
        code: 8,
        is_left: true,
        ..SERVED
    },
    Row {
        name: "a door that fails after a connection",
        doors: &[3],
        status: ServeStatus::DoorFault,
        code: 8,
        ..SERVED
    },
];

/// Words that aren't those of `serve`.
const WRONG: &[&[&str]] = &[
    &[],
    &["serve"],
    &["serve", "a"],
    &["serve", "a", "10", "10"],
    &["Serve", "a", "10"],
    &["play"],
    &["serve", "a", "0"],
    &["serve", "a", "010"],
    &["serve", "a", "+10"],
    &["serve", "a", "-1"],
    &["serve", "a", ""],
    &["serve", "a", "1.0"],
    &["serve", "a", "60001"],
    &["serve", "a", "18446744073709551626"],
];

// Creates a link that asks for a version and ends.
fn links(alloc: Global) -> Result<Vec<MemLink>, Fail> {
    let source = MemSource::new(b"VERSION\nEXIT\n".to_vec(alloc)?, 100, Vec::new(alloc));
    let mut links = Vec::new(alloc);
    links.push(MemLink::new(source, MemSink::new(alloc, 100, Vec::new(alloc))?))?;
    Ok(links)
}

// Calls `serve` with these words, a source, a sink and a door, without drivers.
fn served<R: Threads + Wait + Sync, D: Listen>(
    rt: &R,
    alloc: Global,
    words: &[&str],
    input: &mut MemSource,
    output: &mut MemSink,
    door: &mut D,
) -> Result<ServeStatus, Fail> {
    let mut list = Vec::new(alloc);
    for word in words {
        list.push(String::from_str(alloc, word)?)?;
    }
    let drivers: Vec<Box<dyn Sensor + Send>> = Vec::new(alloc);
    Ok(serve(
        rt,
        alloc,
        list.as_slice(),
        drivers,
        input,
        output,
        door,
        &OpenGate,
    ))
}

fn check_row<R: Threads + Wait + Sync + Abort>(
    rt: &R,
    alloc: Global,
    row: &Row,
) -> Result<(), Fail> {
    let mut input = MemSource::new(
        row.input.as_bytes().to_vec(alloc)?,
        100,
        row.reads.to_vec(alloc)?,
    );
    let mut output = MemSink::new(alloc, row.room, Vec::new(alloc))?;
    let mut door = ListDoor::new(links(alloc)?, row.doors.to_vec(alloc)?);
    let status = served(rt, alloc, row.words, &mut input, &mut output, &mut door)?;
    let left = matches!(door.next(), Ok(Some(_)));
    let told = (status, status.code(), left);
    assert_eq!(rt; output.written(), row.printed.as_bytes(), "{}", row.name);
    assert_eq!(rt; told, (row.status, row.code, row.is_left), "{}", row.name);
    Ok(())
}

#[test]
fn served_description(rt: HostRuntime) -> Result<(), Fail> {
    for row in ROWS {
        check_row(&rt, rt.alloc(), row)?;
    }
    Ok(())
}

#[test]
fn other_words_name_the_commands(rt: HostRuntime) -> Result<(), Fail> {
    for words in WRONG {
        let row = Row {
            name: "other words",
            words,
            printed: USAGE,
            status: ServeStatus::Usage,
            code: 2,
            is_left: true,
            ..SERVED
        };
        check_row(&rt, rt.alloc(), &row)?;
    }
    Ok(())
}

// Creates an input of one byte more than is looked at, without a line that fails.
fn long_input(alloc: Global) -> Result<MemSource, Fail> {
    let mut text = vec![in alloc; b'#'; 67_108_865]?;
    for line in 0..68usize {
        if let Some(byte) = text.get_mut(line.saturating_mul(1_000_000)) {
            *byte = b'\n';
        }
    }
    Ok(MemSource::new(text, 65_536, Vec::new(alloc)))
}

#[test]
fn too_long(rt: HostRuntime) -> Result<(), Fail> {
    let alloc = rt.alloc();
    let mut input = long_input(alloc)?;
    let mut output = MemSink::new(alloc, 100, Vec::new(alloc))?;
    let mut door = ListDoor::new(links(alloc)?, Vec::new(alloc));
    let words = &["serve", "a", "10"];
    let status = served(&rt, alloc, words, &mut input, &mut output, &mut door)?;
    assert_eq!(rt; output.written(), b"too long\n".as_slice());
    assert_eq!(rt; (status, status.code()), (ServeStatus::TooLong, 6));
    Ok(())
}

// Serves two triggers at a door that records what was asked of it.
fn served_at<R: Threads + Wait + Sync>(
    rt: &R,
    alloc: Global,
    asked: &Asked,
    words: &[&str],
) -> Result<ServeStatus, Fail> {
    let text = b"trigger t 1\ntrigger u 1\n".to_vec(alloc)?;
    let mut input = MemSource::new(text, 100, Vec::new(alloc));
    let mut output = MemSink::new(alloc, 100, Vec::new(alloc))?;
    let mut door = AskedDoor {
        door: ListDoor::new(links(alloc)?, Vec::new(alloc)),
        asked,
    };
    served(rt, alloc, words, &mut input, &mut output, &mut door)
}

// The door is opened once at the address, and asked for one ticker of the period for each trigger.
#[test]
fn door_is_asked_for_tickers(rt: HostRuntime) -> Result<(), Fail> {
    let asked = Asked::new();
    for (period, told) in [("60000", (9u32, 2u32, 120_000u32)), ("1", (18, 4, 120_002))] {
        let words = &["serve", "127.0.0.1", period];
        let status = served_at(&rt, rt.alloc(), &asked, words)?;
        assert_eq!(rt; status, ServeStatus::DoorEnd);
        assert_eq!(rt; asked.told(), told);
    }
    Ok(())
}
