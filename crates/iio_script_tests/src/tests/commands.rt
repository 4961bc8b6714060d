//! Each command in each state of a device, and its answers.

use crate::tests::playing::{check_play, joined};
use std::alloc::Global;
use std::process::Abort;
use std::test::Fail;

/// Two triggers, and a device on the first one. A scan of the device's first channel has 2 bytes.
const INPUT: &str = r#"context "<c/>"
trigger t 1
trigger u 1
device d t
channel voltage0 le:u8/16>>0
channel temp le:s8/8>>0
timestamp
%%
"#;

/// Like `INPUT`, with an output device.
const OUTPUT: &str = r#"context "<c/>"
trigger t 1
trigger u 1
output d t
channel voltage0 le:u8/16>>0
channel temp le:s8/8>>0
%%
"#;

/// Steps before A's command, and what they print. In these states the device is plugged and not open; open here; open
/// elsewhere; open here and unplugged; not open and unplugged.
const STATES: &[(&str, &str)] = &[
    ("", ""),
    (
        r#"A "OPEN d 1 00000001\n"
"#,
        r#"A "0\n"
"#,
    ),
    (
        r#"B "OPEN d 1 00000001\n"
"#,
        r#"B "0\n"
"#,
    ),
    (
        r#"A "OPEN d 1 00000001\n"
unplug d
"#,
        r#"A "0\n"
d unplugged
"#,
    ),
    ("unplug d\n", "d unplugged\n"),
];

/// Lines, with the payload of a WRITE or WRITEBUF, and their answers in these states at an input device.
const COMMANDS: &[(&str, [&str; 5])] = &[
    (r"OPEN d 1 00000001\n", ["0", "-16", "0", "-19", "-19"]),
    (
        r"OPEN d 1 00000001 CYCLIC\n",
        ["-38", "-38", "-38", "-19", "-19"],
    ),
    (
        r"OPEN d 0 0000000g CYCLIC\n",
        ["-38", "-38", "-38", "-19", "-19"],
    ),
    (r"OPEN d 1 0000000g\n", ["-22", "-22", "-22", "-19", "-19"]),
    (r"OPEN d 1 1\n", ["-22", "-22", "-22", "-19", "-19"]),
    (r"OPEN d 1 00000009\n", ["-22", "-22", "-22", "-19", "-19"]),
    (r"OPEN d 1 00000000\n", ["-22", "-22", "-22", "-19", "-19"]),
    (r"OPEN d 1 00000004\n", ["-22", "-22", "-22", "-19", "-19"]),
    (r"OPEN d 0 00000001\n", ["-22", "-22", "-22", "-19", "-19"]),
    (
        r"OPEN d 16385 00000001\n",
        ["-22", "-22", "-22", "-19", "-19"],
    ),
    (r"OPEN d 16384 00000001\n", ["0", "-16", "0", "-19", "-19"]),
    (
        r"OPEN d 4294967295 00000001\n",
        ["-22", "-22", "-22", "-19", "-19"],
    ),
    (r"CLOSE d\n", ["-9", "0", "-9", "0", "-9"]),
    (r"READBUF d 2\n", ["-9", "-11", "-9", "-19", "-9"]),
    (r"READBUF d 1\n", ["-9", "0", "-9", "0", "-9"]),
    (r"READBUF d 0000000002\n", ["-9", "-11", "-9", "-19", "-9"]),
    (r"WRITEBUF d 4\nabcd", ["-38", "-38", "-38", "-19", "-19"]),
    (r"WRITEBUF d 0\n", ["-38", "-38", "-38", "-19", "-19"]),
    (r"READ d\n", ["-38", "-38", "-38", "-19", "-19"]),
    (r"READ d name\n", [r"1\nd", r"1\nd", r"1\nd", "-19", "-19"]),
    (
        r"READ d sampling_frequency\n",
        [r"1\n1", r"1\n1", r"1\n1", "-19", "-19"],
    ),
    (r"READ d scale\n", ["-2", "-2", "-2", "-19", "-19"]),
    (r"READ d buffer\n", ["-2", "-2", "-2", "-19", "-19"]),
    (r"READ d BUFFER\n", ["-38", "-38", "-38", "-19", "-19"]),
    (
        r"READ d BUFFER overruns\n",
        ["-9", r"1\n0", "-9", r"1\n0", "-19"],
    ),
    (
        r"READ d BUFFER data_available\n",
        ["-9", r"1\n0", "-9", r"1\n0", "-19"],
    ),
    (
        r"READ d BUFFER length\n",
        ["-9", r"1\n4", "-9", r"1\n4", "-19"],
    ),
    (
        r"READ d BUFFER underruns\n",
        ["-9", "-2", "-9", "-2", "-19"],
    ),
    (r"READ d BUFFER name\n", ["-9", "-2", "-9", "-2", "-19"]),
    (r"READ d DEBUG\n", ["-38", "-38", "-38", "-19", "-19"]),
    (r"READ d DEBUG name\n", ["-2", "-2", "-2", "-19", "-19"]),
    (
        r"READ d INPUT voltage0\n",
        ["-38", "-38", "-38", "-19", "-19"],
    ),
    (
        r"READ d INPUT voltage1\n",
        ["-38", "-38", "-38", "-19", "-19"],
    ),
    (
        r"READ d INPUT voltage1 raw\n",
        ["-2", "-2", "-2", "-19", "-19"],
    ),
    (
        r"READ d INPUT timestamp raw\n",
        ["-2", "-2", "-2", "-19", "-19"],
    ),
    (
        r"READ d INPUT voltage0 name\n",
        ["-2", "-2", "-2", "-19", "-19"],
    ),
    (
        r"READ d INPUT voltage0 raw\n",
        [r"1\n0", "-16", "-16", "-19", "-19"],
    ),
    (
        r"READ d INPUT temp scale\n",
        [r"8\n1.000000", r"8\n1.000000", r"8\n1.000000", "-19", "-19"],
    ),
    (
        r"READ d INPUT temp calibscale\n",
        [
            r"11\n1.000000000",
            r"11\n1.000000000",
            r"11\n1.000000000",
            "-19",
            "-19",
        ],
    ),
    (
        r"READ d OUTPUT voltage0\n",
        ["-38", "-38", "-38", "-19", "-19"],
    ),
    (
        r"READ d OUTPUT voltage0 raw\n",
        ["-2", "-2", "-2", "-19", "-19"],
    ),
    (r"WRITE d 1\n5", ["-38", "-38", "-38", "-19", "-19"]),
    (r"WRITE d name 1\n5", ["-13", "-13", "-13", "-19", "-19"]),
    (r"WRITE d 7 1\n5", ["-2", "-2", "-2", "-19", "-19"]),
    (
        r"WRITE d sampling_frequency 1\n5",
        ["1", "1", "1", "-19", "-19"],
    ),
    (
        r"WRITE d sampling_frequency 3\n+5\n",
        ["3", "3", "3", "-19", "-19"],
    ),
    (
        r"WRITE d sampling_frequency 3\n5\n\x00",
        ["3", "3", "3", "-19", "-19"],
    ),
    (
        r"WRITE d sampling_frequency 3\n5\x00\n",
        ["-22", "-22", "-22", "-19", "-19"],
    ),
    (
        r"WRITE d sampling_frequency 2\n5.",
        ["-22", "-22", "-22", "-19", "-19"],
    ),
    (
        r"WRITE d sampling_frequency 0\n",
        ["-22", "-22", "-22", "-19", "-19"],
    ),
    (
        r"WRITE d sampling_frequency 10\n2147483648",
        ["-34", "-34", "-34", "-19", "-19"],
    ),
    (r"WRITE d BUFFER 1\n5", ["-38", "-38", "-38", "-19", "-19"]),
    (
        r"WRITE d BUFFER length 1\n5",
        ["-9", "-13", "-9", "-19", "-19"],
    ),
    (
        r"WRITE d BUFFER name 1\n5",
        ["-9", "-2", "-9", "-19", "-19"],
    ),
    (r"WRITE d DEBUG 1\n5", ["-38", "-38", "-38", "-19", "-19"]),
    (r"WRITE d DEBUG name 1\n5", ["-2", "-2", "-2", "-19", "-19"]),
    (
        r"WRITE d INPUT temp 1\n5",
        ["-38", "-38", "-38", "-19", "-19"],
    ),
    (
        r"WRITE d INPUT voltage1 raw 1\n5",
        ["-2", "-2", "-2", "-19", "-19"],
    ),
    (
        r"WRITE d INPUT temp name 1\n5",
        ["-2", "-2", "-2", "-19", "-19"],
    ),
    (
        r"WRITE d INPUT temp raw 1\n5",
        ["-13", "-13", "-13", "-19", "-19"],
    ),
    (
        r"WRITE d INPUT temp raw 1\nx",
        ["-13", "-13", "-13", "-19", "-19"],
    ),
    (
        r"WRITE d INPUT temp calibbias 2\n-5",
        ["2", "2", "2", "-19", "-19"],
    ),
    (
        r"WRITE d INPUT temp scale 2\n5.",
        ["2", "2", "2", "-19", "-19"],
    ),
    (
        r"WRITE d INPUT temp scale 1\n.",
        ["-22", "-22", "-22", "-19", "-19"],
    ),
    (
        r"WRITE d INPUT temp thresh_rising_en 2\n-0",
        ["2", "2", "2", "-19", "-19"],
    ),
    (
        r"WRITE d INPUT temp thresh_rising_en 1\n2",
        ["-22", "-22", "-22", "-19", "-19"],
    ),
    (
        r"WRITE d OUTPUT temp 1\n5",
        ["-38", "-38", "-38", "-19", "-19"],
    ),
    (
        r"WRITE d OUTPUT temp raw 1\n5",
        ["-2", "-2", "-2", "-19", "-19"],
    ),
    (r"GETTRIG d\n", [r"1\nt", r"1\nt", r"1\nt", "-19", "-19"]),
    (r"SETTRIG d\n", ["0", "-16", "-16", "-19", "-19"]),
    (r"SETTRIG d u\n", ["0", "-16", "-16", "-19", "-19"]),
    (r"SETTRIG d d\n", ["-2", "-2", "-2", "-19", "-19"]),
    (r"SET d BUFFERS_COUNT 1\n", ["0", "0", "0", "-19", "-19"]),
    (r"SET d BUFFERS_COUNT 64\n", ["0", "0", "0", "-19", "-19"]),
    (
        r"SET d BUFFERS_COUNT 0\n",
        ["-22", "-22", "-22", "-19", "-19"],
    ),
    (
        r"SET d BUFFERS_COUNT 65\n",
        ["-22", "-22", "-22", "-19", "-19"],
    ),
    (r"EVOPEN d\n", ["0", "0", "0", "-19", "-19"]),
    (r"EVREAD d\n", ["-9", "-9", "-9", "-19", "-19"]),
    (r"EVCLOSE d\n", ["-9", "-9", "-9", "-19", "-19"]),
    (r"REMASK d 00000002\n", ["-9", "0", "-9", "-19", "-19"]),
    (r"REMASK d 0000000g\n", ["-9", "-22", "-9", "-19", "-19"]),
    (r"REMASK d 00000008\n", ["-9", "-22", "-9", "-19", "-19"]),
    (r"REMASK d 00000004\n", ["-9", "-22", "-9", "-19", "-19"]),
    (
        r"READ d BUFFER discarded\n",
        ["-9", r"1\n0", "-9", r"1\n0", "-19"],
    ),
];

/// Like `COMMANDS`, at an output device.
const OUTPUT_COMMANDS: &[(&str, [&str; 5])] = &[
    (r"OPEN d 1 00000001\n", ["0", "-16", "-16", "-19", "-19"]),
    (
        r"OPEN d 1 00000001 CYCLIC\n",
        ["0", "-16", "-16", "-19", "-19"],
    ),
    (
        r"OPEN d 0 0000000g CYCLIC\n",
        ["-22", "-22", "-22", "-19", "-19"],
    ),
    (r"OPEN d 1 1\n", ["-22", "-22", "-22", "-19", "-19"]),
    (r"OPEN d 1 00000004\n", ["-22", "-22", "-22", "-19", "-19"]),
    (r"OPEN d 1 00000000\n", ["-22", "-22", "-22", "-19", "-19"]),
    (r"OPEN d 0 00000001\n", ["-22", "-22", "-22", "-19", "-19"]),
    (
        r"OPEN d 16385 00000001\n",
        ["-22", "-22", "-22", "-19", "-19"],
    ),
    (
        r"OPEN d 16384 00000001\n",
        ["0", "-16", "-16", "-19", "-19"],
    ),
    (r"CLOSE d\n", ["-9", "0", "-9", "0", "-9"]),
    (r"READBUF d 2\n", ["-38", "-38", "-38", "-19", "-19"]),
    (r"READBUF d 0\n", ["-38", "-38", "-38", "-19", "-19"]),
    (r"WRITEBUF d 4\nabcd", ["-9", "4", "-9", "-19", "-19"]),
    (r"WRITEBUF d 0\n", ["-9", "0", "-9", "-19", "-19"]),
    (r"WRITEBUF d 3\nabc", ["-9", "-22", "-9", "-19", "-19"]),
    (
        r"WRITEBUF d 10\nabcdefghij",
        ["-9", "8", "-9", "-19", "-19"],
    ),
    (r"READ d\n", ["-38", "-38", "-38", "-19", "-19"]),
    (r"READ d name\n", [r"1\nd", r"1\nd", r"1\nd", "-19", "-19"]),
    (
        r"READ d sampling_frequency\n",
        ["-2", "-2", "-2", "-19", "-19"],
    ),
    (r"READ d BUFFER\n", ["-38", "-38", "-38", "-19", "-19"]),
    (
        r"READ d BUFFER length\n",
        ["-9", r"1\n4", "-9", r"1\n4", "-19"],
    ),
    (
        r"READ d BUFFER data_available\n",
        ["-9", r"1\n0", "-9", r"1\n0", "-19"],
    ),
    (
        r"READ d BUFFER underruns\n",
        ["-9", r"1\n0", "-9", r"1\n0", "-19"],
    ),
    (r"READ d BUFFER overruns\n", ["-9", "-2", "-9", "-2", "-19"]),
    (
        r"READ d BUFFER discarded\n",
        ["-9", "-2", "-9", "-2", "-19"],
    ),
    (r"READ d BUFFER name\n", ["-9", "-2", "-9", "-2", "-19"]),
    (r"READ d DEBUG\n", ["-38", "-38", "-38", "-19", "-19"]),
    (r"READ d DEBUG name\n", ["-2", "-2", "-2", "-19", "-19"]),
    (
        r"READ d INPUT voltage0\n",
        ["-38", "-38", "-38", "-19", "-19"],
    ),
    (
        r"READ d INPUT voltage0 raw\n",
        ["-2", "-2", "-2", "-19", "-19"],
    ),
    (
        r"READ d OUTPUT voltage0\n",
        ["-38", "-38", "-38", "-19", "-19"],
    ),
    (
        r"READ d OUTPUT voltage0 raw\n",
        [r"1\n0", r"1\n0", r"1\n0", "-19", "-19"],
    ),
    (
        r"READ d OUTPUT temp raw\n",
        [r"1\n0", r"1\n0", r"1\n0", "-19", "-19"],
    ),
    (
        r"READ d OUTPUT voltage1 raw\n",
        ["-2", "-2", "-2", "-19", "-19"],
    ),
    (
        r"READ d OUTPUT temp scale\n",
        ["-2", "-2", "-2", "-19", "-19"],
    ),
    (
        r"READ d OUTPUT temp name\n",
        ["-2", "-2", "-2", "-19", "-19"],
    ),
    (r"WRITE d 1\n5", ["-38", "-38", "-38", "-19", "-19"]),
    (r"WRITE d name 1\n5", ["-13", "-13", "-13", "-19", "-19"]),
    (
        r"WRITE d sampling_frequency 1\n5",
        ["-2", "-2", "-2", "-19", "-19"],
    ),
    (r"WRITE d BUFFER 1\n5", ["-38", "-38", "-38", "-19", "-19"]),
    (
        r"WRITE d BUFFER length 1\n5",
        ["-9", "-13", "-9", "-19", "-19"],
    ),
    (
        r"WRITE d BUFFER underruns 1\n5",
        ["-9", "-13", "-9", "-19", "-19"],
    ),
    (
        r"WRITE d BUFFER overruns 1\n5",
        ["-9", "-2", "-9", "-19", "-19"],
    ),
    (r"WRITE d DEBUG 1\n5", ["-38", "-38", "-38", "-19", "-19"]),
    (r"WRITE d DEBUG name 1\n5", ["-2", "-2", "-2", "-19", "-19"]),
    (
        r"WRITE d INPUT temp 1\n5",
        ["-38", "-38", "-38", "-19", "-19"],
    ),
    (
        r"WRITE d INPUT temp raw 1\n5",
        ["-2", "-2", "-2", "-19", "-19"],
    ),
    (
        r"WRITE d OUTPUT temp 1\n5",
        ["-38", "-38", "-38", "-19", "-19"],
    ),
    (
        r"WRITE d OUTPUT temp raw 1\n5",
        ["-13", "-13", "-13", "-19", "-19"],
    ),
    (
        r"WRITE d OUTPUT temp calibbias 1\n5",
        ["-2", "-2", "-2", "-19", "-19"],
    ),
    (r"GETTRIG d\n", [r"1\nt", r"1\nt", r"1\nt", "-19", "-19"]),
    (r"SETTRIG d\n", ["0", "-16", "-16", "-19", "-19"]),
    (r"SETTRIG d u\n", ["0", "-16", "-16", "-19", "-19"]),
    (r"SETTRIG d d\n", ["-2", "-2", "-2", "-19", "-19"]),
    (r"SET d BUFFERS_COUNT 1\n", ["0", "0", "0", "-19", "-19"]),
    (
        r"SET d BUFFERS_COUNT 65\n",
        ["-22", "-22", "-22", "-19", "-19"],
    ),
    (r"EVOPEN d\n", ["-38", "-38", "-38", "-19", "-19"]),
    (r"EVREAD d\n", ["-38", "-38", "-38", "-19", "-19"]),
    (r"EVCLOSE d\n", ["-38", "-38", "-38", "-19", "-19"]),
    (r"REMASK d 00000002\n", ["-38", "-38", "-38", "-19", "-19"]),
    (r"REMASK d 0000000g\n", ["-38", "-38", "-38", "-19", "-19"]),
];

/// Lines that have the same answer in each of these states: no device is named, or an unknown one, or the form is wrong.
const PLAIN: &[(&str, &str)] = &[
    (
        r"HELP\n",
        r"Commands of libiio 0.25 iiod, profile iiosim0\n",
    ),
    (r"VERSION\n", r"0.25.iiosim0\n"),
    (r"PRINT\n", r"4\n<c/>\n"),
    (r"TIMEOUT 0\n", r"0\n"),
    (r" \x09TIMEOUT\x09 4294967295 \x0d\x0d\n", r"0\n"),
    (r"\n", ""),
    (r" \x09 \x0d\n", ""),
    (r"OPEN t 0 g CYCLIC\n", r"-19\n"),
    (r"CLOSE t\n", r"-19\n"),
    (r"READ t\n", r"-19\n"),
    (r"READ t BUFFER nosuch\n", r"-19\n"),
    (r"WRITE t raw 1\n5", r"-19\n"),
    (r"READBUF t 2\n", r"-19\n"),
    (r"WRITEBUF t 4\nHELP", r"-19\n"),
    (r"WRITEBUF t 0\n", r"-19\n"),
    (r"GETTRIG t\n", r"-19\n"),
    (r"SETTRIG t nosuch\n", r"-19\n"),
    (r"SET t BUFFERS_COUNT 0\n", r"-19\n"),
    (r"EVOPEN t\n", r"-19\n"),
    (r"EVREAD t\n", r"-19\n"),
    (r"EVCLOSE t\n", r"-19\n"),
    (r"REMASK t 00000001\n", r"-19\n"),
    (r"help\n", r"-22\n"),
    (r"ZPRINT\n", r"-22\n"),
    (r"HELP d\n", r"-22\n"),
    (r"VERSION d\n", r"-22\n"),
    (r"PRINT d\n", r"-22\n"),
    (r"EXIT d\n", r"-22\n"),
    (r"TIMEOUT\n", r"-22\n"),
    (r"TIMEOUT 1 2\n", r"-22\n"),
    (r"TIMEOUT -1\n", r"-22\n"),
    (r"TIMEOUT 4294967296\n", r"-22\n"),
    (r"TIMEOUT 00000000001\n", r"-22\n"),
    (r"OPEN d 1\n", r"-22\n"),
    (r"OPEN d x 00000001\n", r"-22\n"),
    (r"OPEN d 1 00000001 cyclic\n", r"-22\n"),
    (r"OPEN d 1 00000001 CYCLIC d\n", r"-22\n"),
    (r"CLOSE\n", r"-22\n"),
    (r"READ\n", r"-22\n"),
    (r"READ d name name\n", r"-22\n"),
    (r"READ d BUFFER length length\n", r"-22\n"),
    (r"READ d INPUT\n", r"-22\n"),
    (r"READ d OUTPUT\n", r"-22\n"),
    (r"READ d INPUT voltage0 raw raw\n", r"-22\n"),
    (r"WRITE\n", r"-22\n"),
    (
        r"WRITE 5\nHELP\n",
        r"-22\nCommands of libiio 0.25 iiod, profile iiosim0\n",
    ),
    (
        r"WRITE d name\nHELP\n",
        r"-22\nCommands of libiio 0.25 iiod, profile iiosim0\n",
    ),
    (r"WRITE d INPUT 5\nHELP\n", r"-22\n"),
    (r"WRITE d name name 5\nHELP\n", r"-22\n"),
    (r"WRITE t INPUT 5\nHELP\n", r"-22\n"),
    (r"READBUF d\n", r"-22\n"),
    (r"READBUF d 2x\n", r"-22\n"),
    (r"WRITEBUF\n", r"-22\n"),
    (r"WRITEBUF d\n", r"-22\n"),
    (
        r"WRITEBUF d 4x\nHELP\n",
        r"-22\nCommands of libiio 0.25 iiod, profile iiosim0\n",
    ),
    (
        r"WRITEBUF d 4 4\nHELP\n",
        r"-22\nCommands of libiio 0.25 iiod, profile iiosim0\n",
    ),
    (r"GETTRIG\n", r"-22\n"),
    (r"SETTRIG\n", r"-22\n"),
    (r"SETTRIG d u u\n", r"-22\n"),
    (r"SET d BUFFERS_COUNT\n", r"-22\n"),
    (r"SET d BUFFERS_COUNT x\n", r"-22\n"),
    (r"SET d buffers_count 1\n", r"-22\n"),
    (r"EVOPEN\n", r"-22\n"),
    (r"EVREAD d d\n", r"-22\n"),
    (r"REMASK\n", r"-22\n"),
    (r"REMASK d\n", r"-22\n"),
    (r"REMASK d 00000001 x\n", r"-22\n"),
];

// Checks what is printed for a line of A in one of the states of a described device: the answer, and what ends it.
fn check_command(
    rt: &impl Abort,
    alloc: Global,
    device: &str,
    line: &str,
    state: (&str, &str),
    answer: &str,
    ending: &str,
) -> Result<(), Fail> {
    let (steps, lines) = state;
    let text = joined(alloc, &[device, steps, "A \"", line, "\"\n"])?;
    let printed = joined(alloc, &[lines, "A \"", answer, ending])?;
    check_play(rt, alloc, line, text, printed.as_slice(), 0)
}

// Checks lines in each of the states, which is set up again for each line.
fn check_commands(
    rt: &impl Abort,
    alloc: Global,
    device: &str,
    commands: &[(&str, [&str; 5])],
) -> Result<(), Fail> {
    for (line, answers) in commands {
        for (state, answer) in STATES.iter().zip(answers) {
            check_command(rt, alloc, device, line, *state, answer, "\\n\"\n")?;
        }
    }
    Ok(())
}

#[test]
fn commands_in_each_state(rt: HostRuntime) -> Result<(), Fail> {
    check_commands(&rt, rt.alloc(), INPUT, COMMANDS)
}

#[test]
fn commands_at_an_output_in_each_state(rt: HostRuntime) -> Result<(), Fail> {
    check_commands(&rt, rt.alloc(), OUTPUT, OUTPUT_COMMANDS)
}

#[test]
fn plain_lines_in_each_state(rt: HostRuntime) -> Result<(), Fail> {
    for (line, answer) in PLAIN {
        for device in [INPUT, OUTPUT] {
            for state in STATES {
                check_command(&rt, rt.alloc(), device, line, *state, answer, "\"\n")?;
            }
        }
    }
    Ok(())
}
