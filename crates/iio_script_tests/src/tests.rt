//! Scripts over sources and sinks in memory. The expected texts were written by hand.

mod attributes;
mod averaging;
mod commands;
mod descriptions;
mod devices;
mod drivers;
mod events;
mod examples;
mod faults;
mod input;
mod keeping;
mod masks;
mod playing;
mod queues;
mod reading;
mod remasking;
mod scans;
mod serving;
mod steps;
mod streams;
mod triggers;
mod unplugging;
mod writing;

use self::examples::FIRST_PATH;
use self::playing::{joined, played, sink, source};
use iio_io::MemSource;
use iio_script::Status;
use std::alloc::Global;
use std::process::Abort;
use std::test::Fail;

// Checks that a run comes to its end, and doesn't give up.
fn check_done(
    rt: &impl Abort,
    alloc: Global,
    name: &str,
    input: &mut MemSource,
) -> Result<(), Fail> {
    let mut output = sink(alloc, 10_000, &[])?;
    let status = played(alloc, input, &mut output)?;
    assert_ne!(rt; status, Status::Memory, "{name}");
    assert_eq!(rt; status, Status::Done, "{name}");
    Ok(())
}

fn check_all_done(
    rt: &impl Abort,
    alloc: Global,
    rows: &[(&str, &str, &str, &str)],
) -> Result<(), Fail> {
    for (name, description, script, _) in rows {
        let text = joined(alloc, &[description, "%%\n", script])?;
        check_done(
            rt,
            alloc,
            name,
            &mut MemSource::new(text, 1000, Vec::new(alloc)),
        )?;
    }
    Ok(())
}

// With enough memory the program doesn't give up, whatever a script does.
#[test]
fn answers_with_ample_memory(rt: HostRuntime) -> Result<(), Fail> {
    let mut input = source(rt.alloc(), FIRST_PATH, 1000, &[])?;
    check_done(&rt, rt.alloc(), "first path", &mut input)?;
    for rows in [
        attributes::ROWS,
        drivers::ROWS,
        events::ROWS,
        masks::ROWS,
        queues::ROWS,
        remasking::ROWS,
        scans::ROWS,
        streams::ROWS,
        triggers::ROWS,
        unplugging::ROWS,
        writing::ROWS,
    ] {
        check_all_done(&rt, rt.alloc(), rows)?;
    }
    Ok(())
}
