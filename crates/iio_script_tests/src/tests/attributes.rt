//! Attributes, biases and `raw`.

use crate::tests::devices::{ADC, COUNTED};
use crate::tests::playing::check_rows;
use std::test::Fail;

/// Attributes that are written before the first step; the last write of each counts.
const WRITTEN: &str = "trigger t0 1
device d t0
channel temp le:s8/8>>0
channel voltage7 le:u8/8>>0
timestamp
attr - sampling_frequency 250
attr temp calibbias 3
attr temp calibbias -4
attr voltage7 scale .5
attr voltage7 calibscale -0.000000001
attr voltage7 offset +17
attr voltage7 thresh_falling_en 1
row 0 10 20
";

/// A signed channel with a small value at the moment 1.
const BIASED: &str = "trigger t0 2
device d t0
channel accel_x be:s16/16>>0
row 1 -3
";

/// Names, descriptions, scripts after them, and what the scripts print.
pub(crate) const ROWS: &[(&str, &str, &str, &str)] = &[
    (
        "attributes_and_bias",
        ADC,
        r#"A "WRITE adc0 INPUT accel_x calibbias 6\n-32768"
A "READ adc0 INPUT accel_x raw\n"
A "WRITE adc0 INPUT voltage0 scale 9\n-0.000250"
A "READ adc0 INPUT voltage0 scale\n"
A "WRITE adc0 INPUT voltage0 scale 1\n-"
A "WRITE adc0 INPUT voltage0 scale 10\n2147483648"
A "WRITE adc0 INPUT accel_x raw 1\n5"
A "READ adc0 INPUT voltage0 scale\n"
A "WRITE adc0 INPUT accel_x calibbias 1\n0"
A "WRITE adc0 INPUT accel_x calibbias 7\n-32768\x00"
A "READ adc0 INPUT accel_x calibbias\n"
A "OPEN adc0 1 00000001\n"
A "READ adc0 INPUT accel_x raw\n"
A "WRITE adc0 INPUT accel_x raw 1\n5"
"#,
        r#"A "6\n"
A "6\n-32768\n"
A "9\n"
A "9\n-0.000250\n"
A "-22\n"
A "-34\n"
A "-13\n"
A "9\n-0.000250\n"
A "1\n"
A "7\n"
A "6\n-32768\n"
A "0\n"
A "-16\n"
A "-13\n"
"#,
    ),
    (
        "attributes_of_a_description",
        WRITTEN,
        r#"A "READ d name\nREAD d sampling_frequency\nREAD d INPUT temp calibbias\nREAD d INPUT temp scale\nREAD d INPUT temp raw\n"
A "READ d INPUT voltage7 scale\nREAD d INPUT voltage7 calibscale\nREAD d INPUT voltage7 offset\nREAD d INPUT voltage7 thresh_falling_en\nREAD d INPUT voltage7 thresh_rising_en\n"
A "READ d INPUT timestamp scale\nREAD d INPUT voltage0 scale\nREAD d INPUT temp name\nREAD d scale\n"
"#,
        r#"A "1\nd\n3\n250\n2\n-4\n8\n1.000000\n1\n6\n"
A "8\n0.500000\n12\n-0.000000001\n2\n17\n1\n1\n1\n0\n"
A "-2\n-2\n-2\n-2\n"
"#,
    ),
    (
        "raw_at_the_clock",
        COUNTED,
        r#"A "READ d INPUT voltage0 raw\n"
clock 2
A "READ d INPUT voltage0 raw\n"
clock -9223372036854775808
A "READ d INPUT voltage0 raw\nWRITE d INPUT voltage0 calibbias 3\n300READ d INPUT voltage0 raw\n"
"#,
        r#"A "1\n0\n"
clock 2
A "1\n2\n"
clock -9223372036854775808
A "1\n0\n3\n3\n255\n"
"#,
    ),
    (
        "bias_stays_within_the_type",
        BIASED,
        r#"clock 1
A "READ d INPUT accel_x raw\n"
A "WRITE d INPUT accel_x calibbias 6\n-32764READ d INPUT accel_x raw\n"
A "WRITE d INPUT accel_x calibbias 6\n-32768READ d INPUT accel_x raw\n"
A "WRITE d INPUT accel_x calibbias 10\n2147483647READ d INPUT accel_x raw\n"
A "OPEN d 1 00000001\nWRITE d INPUT accel_x calibbias 1\n1"
fire t0 1
A "READBUF d 2\n"
"#,
        r#"clock 1
A "2\n-3\n"
A "6\n6\n-32767\n"
A "6\n6\n-32768\n"
A "10\n5\n32767\n"
A "0\n1\n"
poll t0 accepted 1
handle t0 d captured
A "2\n00000001\n\xff\xfe"
"#,
    ),
];

#[test]
fn attributes_in_scripts(rt: HostRuntime) -> Result<(), Fail> {
    check_rows(&rt, rt.alloc(), ROWS)
}
