//! Thresholds and their events.

use crate::tests::playing::{check_play, check_rows, joined, push, push_numbered};
use std::alloc::Global;
use std::test::Fail;

/// A device with thresholds, and no holder of the events.
const SENSED: &str = "trigger t0 2
device e t0
channel voltage0 le:u8/8>>0
channel voltage1 le:u8/8>>0
row 1 0 100
";

/// Two channels, a row for each moment, a holder, and a threshold of 50 for the second channel.
const THRESHOLD: &str = r#"%%
A "EVOPEN e\nWRITE e INPUT voltage1 thresh_rising_value 2\n50WRITE e INPUT voltage1 thresh_rising_en 1\n1"
"#;

/// A rising edge of one channel, and both edges of another.
const WATCHED: &str = "device e -
channel accel_x le:s8/8>>0
channel temp le:s8/8>>0
row 0 0 0
row 1 5 5
row 2 5 -5
row 3 9 5
";

/// A device with a driver whose second ask fails, and a threshold for each of its channels.
const FALTERING: &str = "device e -
channel voltage0 le:u16/16>>0
channel voltage1 le:u16/16>>0
driver 3
attr voltage0 thresh_rising_en 1
attr voltage1 thresh_rising_value 1001
attr voltage1 thresh_rising_en 1
";

/// Names, descriptions, scripts after them, and what the scripts print.
pub(crate) const ROWS: &[(&str, &str, &str, &str)] = &[
    (
        "sensed_without_holder",
        SENSED,
        r#"A "WRITE e INPUT voltage1 thresh_rising_value 2\n50WRITE e INPUT voltage1 thresh_rising_en 1\n1"
sense e 1
A "EVOPEN e\nEVREAD e\n"
"#,
        r#"A "2\n1\n"
e sensed 1
A "0\n-11\n"
"#,
    ),
    (
        "edges_and_their_values_before",
        WATCHED,
        r#"A "WRITE e INPUT accel_x thresh_rising_value 1\n4WRITE e INPUT accel_x thresh_rising_en 1\n1"
A "WRITE e INPUT temp thresh_rising_en 1\n1WRITE e INPUT temp thresh_falling_en 1\n1EVOPEN e\n"
sense e 1
sense e 1
sense e 2
sense e 0
sense e 3
A "EVREAD e\nEVREAD e\nEVREAD e\nEVREAD e\nEVREAD e\nEVREAD e\n"
"#,
        r#"A "1\n1\n"
A "1\n1\n0\n"
e sensed 2
e sensed 0
e sensed 1
e sensed 0
e sensed 2
A "16\n\x00\x00\x00\x00\x03\x01\x01\x00\x01\x00\x00\x00\x00\x00\x00\x0016\n\x00\x00\x00\x00\x09\x00\x01\x00\x01\x00\x00\x00\x00\x00\x00\x0016\n\x00\x00\x00\x00\x09\x00\x02\x00\x02\x00\x00\x00\x00\x00\x00\x0016\n\x00\x00\x00\x00\x03\x01\x01\x00\x03\x00\x00\x00\x00\x00\x00\x0016\n\x00\x00\x00\x00\x09\x00\x01\x00\x03\x00\x00\x00\x00\x00\x00\x00-11\n"
"#,
    ),
    (
        "enabling_forgets_and_a_new_threshold_keeps",
        WATCHED,
        r#"A "WRITE e INPUT accel_x thresh_rising_value 1\n7WRITE e INPUT accel_x thresh_rising_en 1\n1"
sense e 1
A "WRITE e INPUT accel_x thresh_rising_value 1\n4"
sense e 1
A "WRITE e INPUT accel_x thresh_rising_en 1\n1"
sense e 1
A "WRITE e INPUT accel_x thresh_rising_en 1\n0WRITE e INPUT accel_x thresh_rising_en 1\n1"
sense e 1
A "WRITE e INPUT accel_x thresh_rising_en 1\n0"
sense e 3
"#,
        r#"A "1\n1\n"
e sensed 0
A "1\n"
e sensed 0
A "1\n"
e sensed 0
A "1\n1\n"
e sensed 1
A "1\n"
e sensed 0
"#,
    ),
    (
        "one_holder_at_a_time",
        WATCHED,
        r#"A "WRITE e INPUT accel_x thresh_rising_en 1\n1EVCLOSE e\nEVREAD e\nEVOPEN e\nEVOPEN e\n"
sense e 1
B "EVOPEN e\nEVREAD e\nEVCLOSE e\n"
A "EVCLOSE e\n"
B "EVOPEN e\nEVREAD e\n"
sense e 0
sense e 3
B "EVREAD e\nEVREAD e\nEXIT\n"
A "EVOPEN e\n"
"#,
        r#"A "1\n-9\n-9\n0\n-16\n"
e sensed 1
B "-16\n-9\n-9\n"
A "0\n"
B "0\n-11\n"
e sensed 0
e sensed 1
B "16\n\x00\x00\x00\x00\x03\x01\x01\x00\x03\x00\x00\x00\x00\x00\x00\x00-11\n"
B closed
A "0\n"
"#,
    ),
    (
        "a_look_ends_at_the_ask_that_fails",
        FALTERING,
        r#"A "EVOPEN e\n"
sense e 5
A "EVREAD e\nEVREAD e\n"
sense e 5
unplug e
sense e 5
"#,
        r#"A "0\n"
e fault
A "16\n\x00\x00\x00\x00\x00\x00\x01\x00\x05\x00\x00\x00\x00\x00\x00\x00-11\n"
e sensed 1
e unplugged
e gone
"#,
    ),
];

#[test]
fn events_in_scripts(rt: HostRuntime) -> Result<(), Fail> {
    check_rows(&rt, rt.alloc(), ROWS)
}

// Makes a description whose value alternates between 100 and 0 at
// 34 moments, and steps that sense each; then 17 reads of events.
fn threshold_text(alloc: Global) -> Result<Vec<u8>, Fail> {
    let mut text = joined(
        alloc,
        &[
            "trigger t0 2\ndevice e t0\n",
            "channel voltage0 le:u8/8>>0\nchannel voltage1 le:u8/8>>0\n",
        ],
    )?;
    for t in 1..=34u32 {
        let value = if t % 2 == 1 { " 0 100\n" } else { " 0 0\n" };
        push_numbered(alloc, &mut text, "row ", t, value)?;
    }
    push(&mut text, THRESHOLD)?;
    for t in 1..=34u32 {
        push_numbered(alloc, &mut text, "sense e ", t, "\n")?;
    }
    for _ in 0..17u32 {
        push(&mut text, "A \"EVREAD e\\n\"\n")?;
    }
    Ok(text)
}

// Appends what is printed for an event of that moment, with the code 0x0001000000000001.
fn push_event(alloc: Global, printed: &mut Vec<u8>, t: u32) -> Result<(), Fail> {
    let line = format!(in alloc;
        "A \"16\\n\\x01\\x00\\x00\\x00\\x00\\x00\\x01\\x00\\x{t:02x}\\x00\\x00\\x00\\x00\\x00\\x00\\x00\"\n"
    )?;
    push(printed, line.as_str())
}

// Returns what is printed: the first 16 events are kept.
fn threshold_printed(alloc: Global) -> Result<Vec<u8>, Fail> {
    let mut printed = joined(alloc, &["A \"0\\n2\\n1\\n\"\n"])?;
    for t in 1..=34u32 {
        push_numbered(alloc, &mut printed, "e sensed ", t % 2, "\n")?;
    }
    for t in (1..32u32).step_by(2) {
        push_event(alloc, &mut printed, t)?;
    }
    push(&mut printed, "A \"-11\\n\"\n")?;
    Ok(printed)
}

#[test]
fn threshold_events(rt: HostRuntime) -> Result<(), Fail> {
    let text = threshold_text(rt.alloc())?;
    let printed = threshold_printed(rt.alloc())?;
    check_play(
        &rt,
        rt.alloc(),
        "threshold_events",
        text,
        printed.as_slice(),
        0,
    )
}
