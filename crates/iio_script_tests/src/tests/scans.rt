//! Types of channels, and the scans that they make.

use crate::tests::playing::{check_play, check_rows, joined, push, push_numbered};
use std::alloc::Global;
use std::test::Fail;

/// A channel of four elements of four bytes.
const QUATERNION: &str = "trigger t0 2
device q t0
channel accel_x le:s32/32X4>>0
timestamp
row 0 1 2 3 -1
";

/// Names, descriptions, scripts after them, and what the scripts print.
pub(crate) const ROWS: &[(&str, &str, &str, &str)] = &[(
    "sixteen_byte_channel",
    QUATERNION,
    r#"A "OPEN q 1 00000003\n"
fire t0 258
A "READBUF q 32\n"
"#,
    r#"A "0\n"
poll t0 accepted 1
handle t0 q captured
A "32\n00000003\n\x01\x00\x00\x00\x02\x00\x00\x00\x03\x00\x00\x00\xff\xff\xff\xff\x02\x01\x00\x00\x00\x00\x00\x00\x00\x00\x00\x00\x00\x00\x00\x00"
"#,
)];

#[test]
fn scans_in_scripts(rt: HostRuntime) -> Result<(), Fail> {
    check_rows(&rt, rt.alloc(), ROWS)
}

// 63 channels of 16 bytes and a timestamp.
fn largest_text(alloc: Global) -> Result<Vec<u8>, Fail> {
    let mut text = joined(alloc, &["trigger t0 2\ndevice d t0\n"])?;
    for number in 0..63u32 {
        push_numbered(
            alloc,
            &mut text,
            "channel voltage",
            number,
            " le:s64/64X2>>0\n",
        )?;
    }
    push(
        &mut text,
        r#"timestamp
%%
A "OPEN d 1025 ffffffffffffffff\nOPEN d 1024 ffffffffffffffff\n"
fire t0 258
A "READBUF d 1024\n"
"#,
    )?;
    Ok(text)
}

fn largest_printed(alloc: Global) -> Result<Vec<u8>, Fail> {
    let mut printed = joined(
        alloc,
        &[
            "A \"-22\\n0\\n\"\npoll t0 accepted 1\nhandle t0 d captured\n",
            "A \"1024\\nffffffffffffffff\\n",
        ],
    )?;
    for byte in 0..1024u32 {
        let escape = match byte {
            1008 => r"\x02",
            1009 => r"\x01",
            _ => r"\x00",
        };
        push(&mut printed, escape)?;
    }
    push(&mut printed, "\"\n")?;
    Ok(printed)
}

// The timestamp is at 1,008: a scan of 1,024 bytes, the last eight of which are padding.
#[test]
fn largest_scan(rt: HostRuntime) -> Result<(), Fail> {
    let text = largest_text(rt.alloc())?;
    let printed = largest_printed(rt.alloc())?;
    check_play(&rt, rt.alloc(), "largest_scan", text, printed.as_slice(), 0)
}
