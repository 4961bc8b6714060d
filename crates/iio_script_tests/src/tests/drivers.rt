//! Drivers that are handed in, and asks that fail.

use crate::tests::playing::{check_driven, check_rows, joined, push};
use std::alloc::Global;
use std::process::Abort;
use std::test::Fail;

/// A device with the first driver.
const RAMP: &str = "trigger t0 2
device w t0
channel voltage0 le:u16/16>>0
driver 0
%%
";

/// A device for each of the program's drivers.
const FOUR_DRIVERS: &str = "trigger t0 4
device w0 t0
channel voltage0 le:u16/16>>0
driver 0
device w1 t0
channel accel_x be:s16/16>>0
channel voltage1 be:u16/16>>0
driver 1
device w2 t0
channel voltage0 le:u8/8>>0
driver 2
device w3 t0
channel voltage0 le:u8/8>>0
driver 3
";

/// Names, descriptions, scripts after them, and what the scripts print.
pub(crate) const ROWS: &[(&str, &str, &str, &str)] = &[
    (
        "drivers_of_the_program",
        FOUR_DRIVERS,
        r#"A "OPEN w0 1 00000001\nOPEN w1 1 00000003\nOPEN w2 1 00000001\nOPEN w3 1 00000001\n"
fire t0 7
fire t0 1007
fire t0 -1
A "READBUF w0 8\n"
A "READBUF w1 16\n"
A "READBUF w2 8\n"
A "READBUF w3 8\n"
"#,
        r#"A "0\n0\n0\n0\n"
poll t0 accepted 4
handle t0 w0 captured
handle t0 w1 captured
handle t0 w2 captured
handle t0 w3 captured
poll t0 accepted 4
handle t0 w0 captured
handle t0 w1 captured
handle t0 w2 fault
handle t0 w3 fault
poll t0 accepted 4
handle t0 w0 captured
handle t0 w1 captured
handle t0 w2 captured
handle t0 w3 captured
A "6\n00000001\n\x07\x00\x07\x00\xe7\x030\n"
A "12\n00000003\n\x00\x07\x03\xef\x00\x07\x03\xef\x03\xe7\x07\xcf0\n"
A "2\n00000001\n\x07\xff0\n"
A "2\n00000001\n\x07\xff0\n"
"#,
    ),
    (
        "raw_of_a_failing_driver",
        FOUR_DRIVERS,
        r#"A "READ w2 INPUT voltage0 raw\nREAD w2 INPUT voltage0 raw\nREAD w2 INPUT voltage0 raw\n"
B "OPEN w3 1 00000001\n"
A "READ w3 INPUT voltage0 raw\nREAD w3 INPUT voltage0 raw\n"
B "CLOSE w3\n"
A "READ w3 INPUT voltage0 raw\nREAD w3 INPUT voltage0 raw\n"
"#,
        r#"A "1\n0\n-5\n1\n0\n"
B "0\n"
A "-16\n-16\n"
B "0\n"
A "1\n0\n-5\n"
"#,
    ),
];

#[test]
fn drivers_in_scripts(rt: HostRuntime) -> Result<(), Fail> {
    check_rows(&rt, rt.alloc(), ROWS)
}

// Checks a script of the device with the first driver, whose listed asks fail.
fn check_ramp(
    rt: &impl Abort,
    alloc: Global,
    name: &str,
    fails: &[u64],
    script: &str,
    printed: &[u8],
) -> Result<(), Fail> {
    let text = joined(alloc, &[RAMP, script])?;
    check_driven(rt, alloc, name, fails, text, printed)
}

// If the second ask fails, nothing is captured, and the next one works.
#[test]
fn failing_driver(rt: HostRuntime) -> Result<(), Fail> {
    check_ramp(
        &rt,
        rt.alloc(),
        "failing_driver",
        &[2],
        r#"A "OPEN w 1 00000001\n"
fire t0 1
fire t0 2
fire t0 3
A "READBUF w 8\n"
"#,
        br#"A "0\n"
poll t0 accepted 1
handle t0 w captured
poll t0 accepted 1
handle t0 w fault
poll t0 accepted 1
handle t0 w captured
A "4\n00000001\n\x01\x00\x03\x000\n"
"#,
    )
}

// Two connections get the same scans of the same asks. The fourth
// ask is that of the first `raw`, since there were three captures.
#[test]
fn shared_failing_driver(rt: HostRuntime) -> Result<(), Fail> {
    check_ramp(
        &rt,
        rt.alloc(),
        "shared_failing_driver",
        &[2, 4],
        r#"A "OPEN w 1 00000001\n"
B "OPEN w 1 00000001\n"
fire t0 1
fire t0 2
fire t0 3
A "READBUF w 8\nCLOSE w\n"
B "READBUF w 8\nCLOSE w\n"
A "READ w INPUT voltage0 raw\nREAD w INPUT voltage0 raw\n"
"#,
        br#"A "0\n"
B "0\n"
poll t0 accepted 1
handle t0 w captured
poll t0 accepted 1
handle t0 w fault
poll t0 accepted 1
handle t0 w captured
A "4\n00000001\n\x01\x00\x03\x000\n0\n"
B "4\n00000001\n\x01\x00\x03\x000\n0\n"
A "-5\n1\n0\n"
"#,
    )
}

/// The ask that fails, the words of the three handlings, and what is read after them.
const ASKS: &[(u64, [&str; 3], &str)] = &[
    (1, ["fault", "captured", "captured"], "\\x02\\x00\\x03\\x00"),
    (2, ["captured", "fault", "captured"], "\\x01\\x00\\x03\\x00"),
    (3, ["captured", "captured", "fault"], "\\x01\\x00\\x02\\x00"),
];

// Returns what the three captures print, and what is read after them.
fn printed_of(alloc: Global, handles: &[&str], scans: &str) -> Result<Vec<u8>, Fail> {
    let mut printed = joined(alloc, &["A \"0\\n\"\n"])?;
    for handle in handles {
        push(&mut printed, "poll t0 accepted 1\nhandle t0 w ")?;
        push(&mut printed, handle)?;
        push(&mut printed, "\n")?;
    }
    push(&mut printed, "A \"4\\n00000001\\n")?;
    push(&mut printed, scans)?;
    push(&mut printed, "0\\n\"\n")?;
    Ok(printed)
}

const THREE_ASKS: &str =
    "A \"OPEN w 1 00000001\\n\"\nfire t0 1\nfire t0 2\nfire t0 3\nA \"READBUF w 8\\n\"\n";

// Each ask fails in turn: nothing is captured by it, and the other two captures are read.
#[test]
fn each_ask_fails(rt: HostRuntime) -> Result<(), Fail> {
    let alloc = rt.alloc();
    for (ask, handles, scans) in ASKS {
        let printed = printed_of(alloc, handles, scans)?;
        check_ramp(&rt, alloc, "each_ask_fails", &[*ask], THREE_ASKS, &printed)?;
    }
    Ok(())
}
