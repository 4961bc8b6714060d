//! Masks of connections, the active mask, and listed masks.

use crate::tests::devices::{ADC, NARROW};
use crate::tests::playing::{check_play, check_rows, joined, push, push_numbered, wide};
use std::alloc::Global;
use std::test::Fail;

/// A device with five channels of two bytes and a timestamp.
const FIVE: &str = "trigger t0 2
device d t0
channel voltage0 le:u16/16>>0
channel voltage1 le:u16/16>>0
channel voltage2 le:u16/16>>0
channel voltage3 le:u16/16>>0
channel voltage4 le:u16/16>>0
timestamp
row 0 1 2 3 4 5
";

const THREE_FIRES: &str = "fire t0 258\nfire t0 258\nfire t0 258\n";

/// The maximum number of listed masks, and a context with a line feed.
const SIXTEEN_MASKS: &str = r#"context "<a\x41\n/>"
trigger t0 2
device d t0
channel voltage0 le:u8/8>>0
channel voltage1 le:u8/8>>0
masks 00000001 00000001 00000001 00000001 00000001 00000001 00000001 00000001 00000001 00000001 00000001 00000001 00000001 00000001 00000001 00000001
"#;

/// Names, descriptions, scripts after them, and what the scripts print.
pub(crate) const ROWS: &[(&str, &str, &str, &str)] = &[
    (
        "leave_narrows_union",
        ADC,
        r#"A "OPEN adc0 1 00000005\n"
B "OPEN adc0 1 00000003\n"
fire t0 1000
B "CLOSE adc0\n"
fire t0 2000
A "READBUF adc0 8\n"
"#,
        r#"A "0\n"
B "0\n"
poll t0 accepted 1
handle t0 adc0 captured
B "0\n"
poll t0 accepted 1
handle t0 adc0 captured
A "8\n00000005\n\x10\x00\xff\xfd\x10\x00\xff\xfd"
"#,
    ),
    (
        "timestamp_moves_with_mask",
        FIVE,
        r#"A "OPEN d 1 00000021\n"
B "OPEN d 1 0000003f\n"
fire t0 258
A "READBUF d 16\n"
B "READBUF d 24\n"
"#,
        r#"A "0\n"
B "0\n"
poll t0 accepted 1
handle t0 d captured
A "16\n00000021\n\x01\x00\x00\x00\x00\x00\x00\x00\x02\x01\x00\x00\x00\x00\x00\x00"
B "24\n0000003f\n\x01\x00\x02\x00\x03\x00\x04\x00\x05\x00\x00\x00\x00\x00\x00\x00\x02\x01\x00\x00\x00\x00\x00\x00"
"#,
    ),
    (
        "listed_masks",
        NARROW,
        r#"B "OPEN adc0 1 00000001\n"
A "OPEN adc0 1 00000004\n"
fire t0 1000
B "READBUF adc0 2\n"
"#,
        r#"B "0\n"
A "-22\n"
poll t0 accepted 1
handle t0 adc0 captured
B "2\n00000001\n\x10\x00"
"#,
    ),
    (
        "sixteen_listed_masks_and_an_escaped_context",
        SIXTEEN_MASKS,
        r#"A "PRINT\nOPEN d 1 00000002\nOPEN d 1 00000001\n"
"#,
        r#"A "6\n<aA\n/>\n-22\n0\n"
"#,
    ),
];

#[test]
fn masks_in_scripts(rt: HostRuntime) -> Result<(), Fail> {
    check_rows(&rt, rt.alloc(), ROWS)
}

// Returns the mask of a connection at `FIVE`, the number of bytes of three scans under it, and a scan at the moment 258: three
// rows take turns.
fn shared_by(number: u32) -> (&'static str, u32, &'static str) {
    match number % 3 {
        0 => (
            "00000021",
            48,
            r"\x01\x00\x00\x00\x00\x00\x00\x00\x02\x01\x00\x00\x00\x00\x00\x00",
        ),
        1 => ("0000000a", 12, r"\x02\x00\x04\x00"),
        _ => (
            "0000003f",
            72,
            r"\x01\x00\x02\x00\x03\x00\x04\x00\x05\x00\x00\x00\x00\x00\x00\x00\x02\x01\x00\x00\x00\x00\x00\x00",
        ),
    }
}

// Makes a script in which each connection opens the device, the trigger is fired three times, and each connection reads.
fn shared_text(alloc: Global) -> Result<Vec<u8>, Fail> {
    let mut text = joined(alloc, &[FIVE, "%%\n"])?;
    for number in 0..64u32 {
        let (mask, _, _) = shared_by(number);
        push_numbered(alloc, &mut text, "c", number, " \"OPEN d 1 ")?;
        push(&mut text, mask)?;
        push(&mut text, "\\n\"\n")?;
    }
    push(&mut text, THREE_FIRES)?;
    for number in 0..64u32 {
        let (_, bytes, _) = shared_by(number);
        push_numbered(alloc, &mut text, "c", number, " \"READBUF d ")?;
        push_numbered(alloc, &mut text, "", bytes, "\\n\"\n")?;
    }
    Ok(text)
}

// Appends what a connection reads: three scans.
fn push_block(alloc: Global, printed: &mut Vec<u8>, number: u32) -> Result<(), Fail> {
    let (mask, bytes, scan) = shared_by(number);
    push_numbered(alloc, printed, "c", number, " \"")?;
    push_numbered(alloc, printed, "", bytes, "\\n")?;
    push(printed, mask)?;
    push(printed, "\\n")?;
    push(printed, scan)?;
    push(printed, scan)?;
    push(printed, scan)?;
    push(printed, "\"\n")
}

fn shared_printed(alloc: Global) -> Result<Vec<u8>, Fail> {
    let mut printed = Vec::new(alloc);
    for number in 0..64u32 {
        push_numbered(alloc, &mut printed, "c", number, " \"0\\n\"\n")?;
    }
    for _ in 0..3u32 {
        push(&mut printed, "poll t0 accepted 1\nhandle t0 d captured\n")?;
    }
    for number in 0..64u32 {
        push_block(alloc, &mut printed, number)?;
    }
    Ok(printed)
}

// The maximum number of connections on one device: each reads its own scans.
#[test]
fn sixty_four_connections(rt: HostRuntime) -> Result<(), Fail> {
    let text = shared_text(rt.alloc())?;
    let printed = shared_printed(rt.alloc())?;
    check_play(&rt, rt.alloc(), "sixty_four", text, printed.as_slice(), 0)
}

// A mask of two words; the last channel's value is 90, the letter Z.
#[test]
fn thirty_three_channels(rt: HostRuntime) -> Result<(), Fail> {
    let row = "row 0 0 0 0 0 0 0 0 0 0 0 0 0 0 0 0 0 0 0 0 0 0 0 0 0 0 0 0 0 0 0 0 0 90\n";
    let mut text = wide(rt.alloc(), "big", 33, "le:u8/8>>0", row)?;
    push(
        &mut text,
        "A \"OPEN big 1 00000001\\nOPEN big 1 0000000100000000\\n\"\nfire t0 1000\nA \"READBUF big 1\\n\"\n",
    )?;
    let printed =
        b"A \"-22\\n0\\n\"\npoll t0 accepted 1\nhandle t0 big captured\nA \"1\\n0000000100000000\\nZ\"\n";
    check_play(&rt, rt.alloc(), "thirty_three_channels", text, printed, 0)
}
