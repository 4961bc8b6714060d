//! Triggers: places, entries, missed polls, and devices on one trigger.

use crate::tests::devices::{ADC, COUNTED};
use crate::tests::playing::check_rows;
use std::test::Fail;

/// A converter on the first of two triggers.
const TWO_TRIGGERS: &str = "trigger t0 2
trigger t1 2
device adc0 t0
channel voltage0 le:u12/16>>4
channel voltage1 le:u12/16>>4
channel accel_x be:s16/16>>0
timestamp
row 0 1 2 -3
";

/// Three devices on a trigger of two places, and one that is on none.
const CROWDED: &str = "trigger t0 2
device a1 t0
channel voltage0 le:u8/8>>0
device a2 t0
channel voltage0 le:u8/8>>0
device a3 t0
channel voltage0 le:u8/8>>0
device a4 -
channel voltage0 le:u8/8>>0
";

/// Two devices on one trigger.
const PAIR: &str = "trigger t0 2
device d0 t0
channel voltage0 le:u8/8>>0
row 0 65
device d1 t0
channel voltage0 le:u8/8>>0
row 0 66
";

/// The description of examples/two_devices.iio.
const TWO_DEVICES: &str =
    r#"# Two devices on one trigger: an accelerometer with recorded values and a threshold, and a converter with a driver.
context "<context name=\"bench\"/>"
trigger timer0 2
device accel timer0
channel accel_x be:s12/16>>4
channel accel_y be:s12/16>>4
timestamp
masks 00000003
attr - sampling_frequency 100
attr accel_x calibbias 2
attr accel_x thresh_rising_value 50
attr accel_x thresh_rising_en 1
row 0 16 -16
row 2000 64 -32
device adc timer0
channel voltage0 le:u12/16>>4
channel voltage1 le:u12/16>>4
driver 0
attr voltage1 scale 0.5
"#;

/// Names, descriptions, scripts after them, and what the scripts print.
pub(crate) const ROWS: &[(&str, &str, &str, &str)] = &[
    (
        "poll_while_outstanding",
        ADC,
        r#"A "OPEN adc0 1 00000009\n"
poll t0 1000
poll t0 2000
handle t0 adc0
A "READBUF adc0 16\n"
"#,
        r#"A "0\n"
poll t0 accepted 1
poll t0 missed 1
handle t0 adc0 captured
A "16\n00000009\n\x10\x00\x00\x00\x00\x00\x00\x00\xe8\x03\x00\x00\x00\x00\x00\x00"
"#,
    ),
    (
        "reopened_on_another_trigger",
        TWO_TRIGGERS,
        r#"A "OPEN adc0 1 00000009\n"
poll t0 1000
A "CLOSE adc0\nSETTRIG adc0 t1\nOPEN adc0 1 00000009\n"
poll t0 1500
handle t0 adc0
poll t0 2000
poll t1 2500
handle t1 adc0
A "READBUF adc0 32\n"
"#,
        r#"A "0\n"
poll t0 accepted 1
A "0\n0\n0\n"
poll t0 missed 1
handle t0 adc0 idle
poll t0 accepted 0
poll t1 accepted 1
handle t1 adc0 captured
A "16\n00000009\n\x10\x00\x00\x00\x00\x00\x00\x00\xc4\x09\x00\x00\x00\x00\x00\x000\n"
"#,
    ),
    (
        "reopened_on_the_same_trigger",
        COUNTED,
        r#"A "OPEN d 1 00000001\n"
poll t0 1
A "CLOSE d\nOPEN d 1 00000001\n"
handle t0 d
poll t0 2
B "OPEN d 1 00000001\n"
A "CLOSE d\n"
handle t0 d
B "READBUF d 4\n"
"#,
        r#"A "0\n"
poll t0 accepted 1
A "0\n0\n"
handle t0 d idle
poll t0 accepted 1
B "0\n"
A "0\n"
handle t0 d captured
B "1\n00000001\n\x020\n"
"#,
    ),
    (
        "no_free_place",
        CROWDED,
        r#"A "OPEN a1 1 00000001\nOPEN a2 1 00000001\nOPEN a3 1 00000001\nOPEN a4 1 00000001\n"
A "SETTRIG a1\n"
A "GETTRIG a1\n"
A "GETTRIG a4\n"
"#,
        r#"A "0\n0\n-28\n-22\n"
A "-16\n"
A "2\nt0\n"
A "0\n"
"#,
    ),
    (
        "entries_one_by_one",
        PAIR,
        r#"A "OPEN d0 1 00000001\nOPEN d1 1 00000001\n"
handle t0 d0
poll t0 1
handle t0 d1
poll t0 2
fire t0 3
handle t0 d1
handle t0 d0
poll t0 4
"#,
        r#"A "0\n0\n"
handle t0 d0 none
poll t0 accepted 2
handle t0 d1 captured
poll t0 missed 1
poll t0 missed 2
handle t0 d1 none
handle t0 d0 captured
poll t0 accepted 2
"#,
    ),
    (
        "two_devices_and_three_connections",
        TWO_DEVICES,
        r#"logger "SET accel BUFFERS_COUNT 1\nOPEN accel 1 00000005\nOPEN adc 8 00000003\n"
scope "OPEN adc 1 00000002\n"
alarm "EVOPEN accel\n"
fire timer0 1007
sense accel 1007
sense accel 2000
alarm "EVREAD accel\nEVREAD accel\n"
fire timer0 2000
scope "READBUF adc 4\nREAD adc INPUT voltage1 scale\nCLOSE adc\n"
logger "READBUF accel 32\nREAD accel BUFFER overruns\nREADBUF adc 64\n"
drop logger
clock 2000
alarm "READ accel INPUT accel_x raw\nREAD adc INPUT voltage1 raw\nEXIT\n"
"#,
        r#"logger "0\n0\n0\n"
scope "0\n"
alarm "0\n"
poll timer0 accepted 2
handle timer0 accel captured
handle timer0 adc captured
accel sensed 0
accel sensed 1
alarm "16\n\x00\x00\x00\x00\x03\x01\x01\x00\xd0\x07\x00\x00\x00\x00\x00\x00-11\n"
poll timer0 accepted 2
handle timer0 accel captured
handle timer0 adc captured
scope "4\n00000002\n\xf0>\x80>8\n0.500000\n0\n"
logger "16\n00000005\n\x01 \x00\x00\x00\x00\x00\x00\xef\x03\x00\x00\x00\x00\x00\x000\n1\n1\n8\n00000003\np\x00\xf0>\x00\x00\x80>0\n"
logger dropped
clock 2000
alarm "2\n66\n4\n1000\n"
alarm closed
"#,
    ),
    (
        "devices_in_their_order",
        PAIR,
        r#"A "OPEN d1 1 00000001\n"
fire t0 1
B "OPEN d0 1 00000001\n"
fire t0 2
B "READBUF d0 4\n"
A "READBUF d1 4\n"
"#,
        r#"A "0\n"
poll t0 accepted 1
handle t0 d1 captured
B "0\n"
poll t0 accepted 2
handle t0 d0 captured
handle t0 d1 captured
B "1\n00000001\nA0\n"
A "2\n00000001\nBB0\n"
"#,
    ),
];

#[test]
fn triggers_in_scripts(rt: HostRuntime) -> Result<(), Fail> {
    check_rows(&rt, rt.alloc(), ROWS)
}
