//! Queues: waiting scans, lost scans, and how they are counted.

use crate::tests::devices::COUNTED;
use crate::tests::playing::{check_play, check_rows, push, wide};
use std::test::Fail;

/// A device whose values are letters.
const LETTERS: &str = "trigger t0 2
device y t0
channel voltage0 le:u8/8>>0
row 1 65
row 2 66
row 3 67
row 4 68
";

/// Four channels and a timestamp.
const FOUR: &str = "trigger t0 2
device d t0
channel voltage0 le:u16/16>>0
channel voltage1 le:u16/16>>0
channel voltage2 le:u16/16>>0
channel voltage3 le:u16/16>>0
timestamp
row 0 1 2 3 4
";

/// Names, descriptions, scripts after them, and what the scripts print.
pub(crate) const ROWS: &[(&str, &str, &str, &str)] = &[
    (
        "overrun_and_refill",
        LETTERS,
        r#"A "SET y BUFFERS_COUNT 1\nOPEN y 1 00000001\n"
fire t0 1
fire t0 2
fire t0 3
A "READBUF y 1\n"
A "READ y BUFFER overruns\n"
fire t0 4
A "READBUF y 2\n"
A "READBUF y 1\n"
"#,
        r#"A "0\n0\n"
poll t0 accepted 1
handle t0 y captured
poll t0 accepted 1
handle t0 y captured
poll t0 accepted 1
handle t0 y captured
A "1\n00000001\nA"
A "1\n2\n"
poll t0 accepted 1
handle t0 y captured
A "1\n00000001\nD0\n"
A "-11\n"
"#,
    ),
    (
        "read_buffer_attributes",
        LETTERS,
        r#"A "OPEN y 1 00000001\n"
fire t0 1
fire t0 2
fire t0 3
fire t0 4
fire t0 5
A "READ y BUFFER overruns\n"
A "READ y BUFFER data_available\n"
A "READ y BUFFER length\n"
"#,
        r#"A "0\n"
poll t0 accepted 1
handle t0 y captured
poll t0 accepted 1
handle t0 y captured
poll t0 accepted 1
handle t0 y captured
poll t0 accepted 1
handle t0 y captured
poll t0 accepted 1
handle t0 y captured
A "1\n1\n"
A "1\n4\n"
A "1\n4\n"
"#,
    ),
    (
        "who_stays_is_given_the_same",
        FOUR,
        r#"A "OPEN d 1 00000011\n"
B "OPEN d 1 00000011\n"
C "OPEN d 1 0000001f\n"
fire t0 258
A "CLOSE d\n"
fire t0 258
C "CLOSE d\n"
fire t0 258
B "READBUF d 64\nCLOSE d\n"
fire t0 258
"#,
        r#"A "0\n"
B "0\n"
C "0\n"
poll t0 accepted 1
handle t0 d captured
A "0\n"
poll t0 accepted 1
handle t0 d captured
C "0\n"
poll t0 accepted 1
handle t0 d captured
B "48\n00000011\n\x01\x00\x00\x00\x00\x00\x00\x00\x02\x01\x00\x00\x00\x00\x00\x00\x01\x00\x00\x00\x00\x00\x00\x00\x02\x01\x00\x00\x00\x00\x00\x00\x01\x00\x00\x00\x00\x00\x00\x00\x02\x01\x00\x00\x00\x00\x00\x000\n0\n"
poll t0 accepted 0
"#,
    ),
    (
        "each_connection_has_its_buffers_count",
        COUNTED,
        r#"A "SET d BUFFERS_COUNT 64\nOPEN d 1024 00000001\nREAD d BUFFER length\n"
B "OPEN d 16385 00000001\nOPEN d 16384 00000001\nREAD d BUFFER length\n"
C "SET d BUFFERS_COUNT 2\nSET d BUFFERS_COUNT 65\nSET d BUFFERS_COUNT 0\nOPEN d 32769 00000001\nOPEN d 32768 00000001\nREAD d BUFFER length\n"
"#,
        r#"A "0\n0\n5\n65536\n"
B "-22\n0\n5\n65536\n"
C "0\n-22\n-22\n-22\n0\n5\n65536\n"
"#,
    ),
];

#[test]
fn queues_in_scripts(rt: HostRuntime) -> Result<(), Fail> {
    check_rows(&rt, rt.alloc(), ROWS)
}

// Scans of 72 bytes: 58,256 of them have 4,194,432 bytes, and 58,252 have 4,194,144.
#[test]
fn capacity_in_bytes(rt: HostRuntime) -> Result<(), Fail> {
    let mut text = wide(rt.alloc(), "z", 9, "le:s64/64>>0", "")?;
    push(
        &mut text,
        "A \"OPEN z 14564 000001ff\\nOPEN z 14563 000001ff\\n\"\n",
    )?;
    check_play(
        &rt,
        rt.alloc(),
        "capacity_in_bytes",
        text,
        b"A \"-22\\n0\\n\"\n",
        0,
    )
}
