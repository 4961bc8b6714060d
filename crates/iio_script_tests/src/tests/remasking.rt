//! REMASK: a connection exchanges its mask in one step.

use crate::tests::devices::{ADC, COUNTED, NARROW};
use crate::tests::playing::check_rows;
use std::test::Fail;

/// Nine channels of eight bytes.
const WIDE: &str = "trigger t0 1
device d t0
channel voltage0 le:s64/64>>0
channel voltage1 le:s64/64>>0
channel voltage2 le:s64/64>>0
channel voltage3 le:s64/64>>0
channel voltage4 le:s64/64>>0
channel voltage5 le:s64/64>>0
channel voltage6 le:s64/64>>0
channel voltage7 le:s64/64>>0
channel voltage8 le:s64/64>>0
row 0 1 2 3 4 5 6 7 8 9
";

/// Names, descriptions, scripts after them, and what the scripts print.
pub(crate) const ROWS: &[(&str, &str, &str, &str)] = &[
    (
        "remask_discards",
        ADC,
        r#"A "OPEN adc0 1 00000005\n"
fire t0 1000
fire t0 2000
A "REMASK adc0 00000002\n"
A "READ adc0 BUFFER overruns\n"
A "READ adc0 BUFFER discarded\n"
fire t0 3000
A "READBUF adc0 2\n"
A "REMASK adc0 00000008\n"
A "READ adc0 BUFFER discarded\n"
B "REMASK adc0 00000001\n"
fire t0 4000
A "READBUF adc0 2\n"
"#,
        r#"A "0\n"
poll t0 accepted 1
handle t0 adc0 captured
poll t0 accepted 1
handle t0 adc0 captured
A "0\n"
A "1\n0\n"
A "1\n2\n"
poll t0 accepted 1
handle t0 adc0 captured
A "2\n00000002\n \x00"
A "-22\n"
A "1\n2\n"
B "-9\n"
poll t0 accepted 1
handle t0 adc0 captured
A "2\n00000002\n \x00"
"#,
    ),
    (
        "refused_remask_changes_nothing",
        COUNTED,
        r#"A "SET d BUFFERS_COUNT 1\nOPEN d 1 00000001\n"
fire t0 1
fire t0 2
A "REMASK\nREMASK d\nREMASK d 00000001 x\nREMASK x 00000001\n"
A "REMASK d 1\nREMASK d 00000002\nREMASK d 00000000\n"
A "READ d BUFFER overruns\nREAD d BUFFER data_available\nREAD d BUFFER discarded\nREADBUF d 1\n"
"#,
        r#"A "0\n0\n"
poll t0 accepted 1
handle t0 d captured
poll t0 accepted 1
handle t0 d captured
A "-22\n-22\n-22\n-19\n"
A "-22\n-22\n-22\n"
A "1\n1\n1\n1\n1\n0\n1\n00000001\n\x01"
"#,
    ),
    (
        "same_mask_empties_the_queue",
        COUNTED,
        r#"A "SET d BUFFERS_COUNT 1\nOPEN d 1 00000001\n"
fire t0 1
fire t0 2
A "REMASK d 00000001\nREAD d BUFFER overruns\nREAD d BUFFER data_available\nREAD d BUFFER discarded\nREAD d BUFFER length\n"
A "READBUF d 1\n"
fire t0 3
A "READBUF d 1\nREMASK d 00000001\nREAD d BUFFER discarded\n"
A "CLOSE d\nOPEN d 1 00000001\nREAD d BUFFER discarded\n"
"#,
        r#"A "0\n0\n"
poll t0 accepted 1
handle t0 d captured
poll t0 accepted 1
handle t0 d captured
A "0\n1\n0\n1\n0\n1\n1\n1\n1\n"
A "-11\n"
poll t0 accepted 1
handle t0 d captured
A "1\n00000001\n\x030\n1\n1\n"
A "0\n0\n1\n0\n"
"#,
    ),
    (
        "no_listed_mask_for_the_new_union",
        NARROW,
        r#"A "OPEN adc0 1 00000001\n"
fire t0 1000
A "REMASK adc0 00000004\n"
A "READBUF adc0 2\n"
A "REMASK adc0 00000002\n"
fire t0 2000
A "READBUF adc0 2\n"
B "OPEN adc0 1 00000001\n"
A "REMASK adc0 00000005\nREMASK adc0 00000003\n"
"#,
        r#"A "0\n"
poll t0 accepted 1
handle t0 adc0 captured
A "-22\n"
A "2\n00000001\n\x10\x00"
A "0\n"
poll t0 accepted 1
handle t0 adc0 captured
A "2\n00000002\n \x00"
B "0\n"
A "-22\n0\n"
"#,
    ),
    (
        "two_members_exchange_masks",
        ADC,
        r#"A "OPEN adc0 1 00000001\n"
B "OPEN adc0 1 00000004\n"
fire t0 1000
A "REMASK adc0 00000004\n"
B "REMASK adc0 00000001\n"
fire t0 2000
A "READBUF adc0 2\nREAD adc0 BUFFER discarded\n"
B "READBUF adc0 2\nREAD adc0 BUFFER discarded\n"
"#,
        r#"A "0\n"
B "0\n"
poll t0 accepted 1
handle t0 adc0 captured
A "0\n"
B "0\n"
poll t0 accepted 1
handle t0 adc0 captured
A "2\n00000004\n\xff\xfd1\n1\n"
B "2\n00000001\n\x10\x001\n1\n"
"#,
    ),
    (
        "what_waits_for_others_stays",
        ADC,
        r#"A "OPEN adc0 1 00000001\n"
B "OPEN adc0 2 00000004\n"
fire t0 1000
A "REMASK adc0 00000003\n"
fire t0 2000
B "READBUF adc0 4\nREAD adc0 BUFFER discarded\n"
A "READBUF adc0 8\n"
"#,
        r#"A "0\n"
B "0\n"
poll t0 accepted 1
handle t0 adc0 captured
A "0\n"
poll t0 accepted 1
handle t0 adc0 captured
B "4\n00000004\n\xff\xfd\xff\xfd1\n0\n"
A "4\n00000003\n\x10\x00 \x000\n"
"#,
    ),
    (
        "entry_outlives_a_remask",
        ADC,
        r#"A "OPEN adc0 1 00000001\n"
poll t0 500
A "REMASK adc0 00000002\n"
handle t0 adc0
A "READBUF adc0 2\n"
"#,
        r#"A "0\n"
poll t0 accepted 1
A "0\n"
handle t0 adc0 captured
A "2\n00000002\n \x00"
"#,
    ),
    (
        "capacity_under_the_new_mask",
        WIDE,
        r#"A "OPEN d 16384 00000001\n"
A "REMASK d 000001ff\n"
A "READ d BUFFER length\n"
A "REMASK d 000000ff\nREAD d BUFFER length\n"
"#,
        r#"A "0\n"
A "-22\n"
A "5\n65536\n"
A "0\n5\n65536\n"
"#,
    ),
    (
        "unplugged_device_is_not_remasked",
        ADC,
        r#"A "OPEN adc0 1 00000001\n"
fire t0 1000
unplug adc0
A "REMASK adc0 00000002\nREAD adc0 BUFFER discarded\nREADBUF adc0 2\n"
B "REMASK adc0 00000002\n"
"#,
        r#"A "0\n"
poll t0 accepted 1
handle t0 adc0 captured
adc0 unplugged
A "-19\n1\n0\n2\n00000001\n\x10\x00"
B "-19\n"
"#,
    ),
];

// Each row is played to its end.
#[test]
fn remasks_in_scripts(rt: HostRuntime) -> Result<(), Fail> {
    check_rows(&rt, rt.alloc(), ROWS)
}
