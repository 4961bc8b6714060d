//! The answers to OPEN and READBUF.

use crate::tests::devices::{ADC, BARE, NARROW};
use crate::tests::playing::{check_play, joined};
use std::test::Fail;

const LISTED: &str =
    "trigger t0 2\ndevice adc0 t0\nchannel voltage0 le:u12/16>>4\nchannel voltage1 le:u12/16>>4\nchannel accel_x be:s16/16>>0\ntimestamp\nmasks 00000003 00000007\nrow 0 1 2 -3\n";

const LOOSE: &str = "trigger t0 2\ndevice loose -\nchannel temp le:s16/16>>0\nrow 0 1\n";

const CAPTURED: &str = "poll t0 accepted 1\nhandle t0 adc0 captured\n";

/// A description, a script after it, and what the script prints: its first
/// lines, the lines of one capture if there is one, and its last line.
const PLAYED: &[(&str, &str, &str, bool, &str)] = &[
    (
        ADC,
        "A \"OPEN adc0 1 00000005\\n\"\nfire t0 1000\nA \"READBUF adc0 8\\n\"\n",
        "A \"0\\n\"\n",
        true,
        "A \"4\\n00000005\\n\\x10\\x00\\xff\\xfd0\\n\"\n",
    ),
    (
        ADC,
        "A \"OPEN adc0 1 00000005\\n\"\nfire t0 1000\nA \"READBUF adc0 4\\n\"\n",
        "A \"0\\n\"\n",
        true,
        "A \"4\\n00000005\\n\\x10\\x00\\xff\\xfd\"\n",
    ),
    (
        ADC,
        "A \"OPEN adc0 1 00000009\\n\"\nfire t0 1000\nA \"READBUF adc0 16\\n\"\n",
        "A \"0\\n\"\n",
        true,
        "A \"16\\n00000009\\n\\x10\\x00\\x00\\x00\\x00\\x00\\x00\\x00\\xe8\\x03\\x00\\x00\\x00\\x00\\x00\\x00\"\n",
    ),
    (
        ADC,
        "A \"OPEN adc0 1 00000008\\n\"\n",
        "A \"-22\\n\"\n",
        false,
        "",
    ),
    (
        ADC,
        "A \"READBUF adc0 8\\nOPEN adc0 1 00000005\\nREADBUF adc0 3\\nREADBUF adc0 8\\n\"\n",
        "A \"-9\\n0\\n0\\n-11\\n\"\n",
        false,
        "",
    ),
    (
        ADC,
        "A \"OPEN adc0 16385 00000001\\nOPEN adc0 16384 00000001\\n\"\n",
        "A \"-22\\n0\\n\"\n",
        false,
        "",
    ),
    (
        LISTED,
        "# the third channel lies in the second listed mask alone\n\nA \"OPEN adc0 1 00000004\\n\"\nfire t0 1000\nA \"READBUF adc0 2\\n\"\n",
        "A \"0\\n\"\n",
        true,
        "A \"2\\n00000004\\n\\xff\\xfd\"\n",
    ),
    (
        LISTED,
        "A \"OPEN adc0 1 0000000a\\n\"\nfire t0 258\nA \"READBUF adc0 16\\n\"\n",
        "A \"0\\n\"\n",
        true,
        "A \"16\\n0000000a\\n \\x00\\x00\\x00\\x00\\x00\\x00\\x00\\x02\\x01\\x00\\x00\\x00\\x00\\x00\\x00\"\n",
    ),
    (
        NARROW,
        "A \"OPEN adc0 1 00000004\\nOPEN adc0 1 00000001\\n\"\nfire t0 1000\nA \"READBUF adc0 2\\n\"\n",
        "A \"-22\\n0\\n\"\n",
        true,
        "A \"2\\n00000001\\n\\x10\\x00\"\n",
    ),
    (
        LOOSE,
        "A \"OPEN loose 1 00000001\\nOPEN other 1 00000001\\n\"\nfire t0 5\n",
        "A \"-22\\n-19\\n\"\npoll t0 accepted 0\n",
        false,
        "",
    ),
    (
        "trigger t0 2\n",
        "fire t0 5\nA \"OPEN t0 1 00000001\\n\"\n",
        "poll t0 accepted 0\nA \"-19\\n\"\n",
        false,
        "",
    ),
    ("", "A \"READBUF x 1\\n\"\n", "A \"-19\\n\"\n", false, ""),
];

#[test]
fn inputs_are_played(rt: HostRuntime) -> Result<(), Fail> {
    for (description, script, first, captures, last) in PLAYED {
        let capture = if *captures { CAPTURED } else { "" };
        let text = joined(rt.alloc(), &[description, "%%\n", script])?;
        let printed = joined(rt.alloc(), &[first, capture, last])?;
        check_play(&rt, rt.alloc(), script, text, printed.as_slice(), 0)?;
    }
    Ok(())
}

/// A line of a connection that has opened nothing, and its answer. A scan of the device has 2 bytes.
const ANSWERS: &[(&str, &str)] = &[
    ("", ""),
    ("OPEN d 1 00000001", "0\\n"),
    ("OPEN d 16384 00000001", "0\\n"),
    ("OPEN d 16385 00000001", "-22\\n"),
    ("OPEN d 4294967295 00000001", "-22\\n"),
    ("OPEN d 0 00000001", "-22\\n"),
    ("OPEN d 1 00000000", "-22\\n"),
    ("OPEN d 1 00000002", "-22\\n"),
    ("OPEN d 1 0000000g", "-22\\n"),
    ("OPEN d 1 1", "-22\\n"),
    ("OPEN e 0 1", "-19\\n"),
    ("OPEN d 1 00000001 CYCLIC", "-38\\n"),
    ("READBUF d 2", "-9\\n"),
    ("READBUF e 2", "-19\\n"),
    ("READBUF d 4294967296", "-22\\n"),
    ("READBUF d", "-22\\n"),
    ("CLOSE d", "-9\\n"),
];

#[test]
fn commands_are_answered(rt: HostRuntime) -> Result<(), Fail> {
    for (line, answer) in ANSWERS {
        let text = joined(rt.alloc(), &[BARE, "%%\nA \"", line, "\\n\"\n"])?;
        let printed = joined(rt.alloc(), &["A \"", answer, "\"\n"])?;
        check_play(&rt, rt.alloc(), line, text, printed.as_slice(), 0)?;
    }
    Ok(())
}
