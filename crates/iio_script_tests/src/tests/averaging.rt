//! Averaging devices: means of captures, the inner member of the base, commands.

use crate::tests::playing::check_rows;
use std::test::Fail;

/// An averaging device over pairs of captures, of three channels.
const PAIRS: &str = "trigger t0 2
device adc0 t0
channel voltage0 le:u12/16>>4
channel voltage1 le:u8/8>>0
channel accel_x be:s16/16>>0
row 0 1 2 -3
row 2000 4 2 -4
average avg0 adc0 2
";

/// An averaging device over three captures, of one channel.
const THIRDS: &str = "trigger t0 2
device adc0 t0
channel voltage0 le:s8/8>>0
row 1 1
row 2 2
row 3 3
row 4 10
row 5 20
row 6 30
row 7 -7
row 8 -8
row 9 -8
average avg0 adc0 3
";

/// An averaging device whose sums don't fit in 64 bits.
const ENDS: &str = "trigger t0 2
device adc0 t0
channel voltage0 le:s64/64>>0
channel voltage1 be:u63/64>>1
row 1 9223372036854775807 9223372036854775807
row 2 9223372036854775807 9223372036854775806
row 3 -9223372036854775808 0
row 4 -9223372036854775807 1
average avg0 adc0 2
";

/// An averaging device of elements of up to 16 bytes, with a timestamp.
const REPEATED: &str = "trigger t0 2
device adc0 t0
channel voltage0 le:s64/64X2>>0
channel voltage1 le:s16/16X8>>0
channel voltage2 le:u8/8>>0
timestamp be
row 1 1 2 1 2 3 4 5 6 7 8 9
row 5 3 -5 2 3 4 5 6 7 8 9 10
average avg0 adc0 2
";

/// An averaging device over a base that lists masks.
const LISTED: &str = "trigger t0 2
device adc0 t0
channel voltage0 le:u8/8>>0
channel voltage1 le:u8/8>>0
channel voltage2 le:u8/8>>0
timestamp le
masks 00000003 00000007
row 1 1 2 3
row 2 3 4 5
average avg0 adc0 2
";

/// An averaging device over a base none of whose listed masks has all channels.
const PART: &str = "trigger t0 2
device adc0 t0
channel voltage0 le:u8/8>>0
channel voltage1 le:u8/8>>0
channel voltage2 le:u8/8>>0
timestamp le
masks 00000003
row 1 1 2 3
row 2 3 4 5
average avg0 adc0 2
";

/// Three averaging devices over two devices, on a trigger with one place.
const PLACES: &str = "trigger t0 1
device adc0 t0
channel voltage0 le:s8/8>>0
device adc1 t0
channel voltage0 le:s8/8>>0
average avg0 adc0 2
average avg1 adc0 3
average avg2 adc1 3
";

/// Two averaging devices over one base.
const TWO: &str = "trigger t0 2
device adc0 t0
channel voltage0 le:s8/8>>0
timestamp le
row 1 1
row 2 2
row 3 3
row 4 10
row 5 20
row 6 30
average pairs adc0 2
average thirds adc0 3
";

/// An averaging device beside an input and an output device.
const COMMANDS: &str = "trigger t0 2
device adc0 t0
channel voltage0 le:s8/8>>0
row 1 1
row 2 2
output dac0 t0
channel voltage0 le:u8/8>>0
average avg0 adc0 2
";

/// An averaging device over a driver whose second ask fails.
const DRIVEN: &str = "trigger t0 2
device adc0 t0
channel voltage0 le:s16/16>>0
driver 2
average avg0 adc0 2
";

/// Names, descriptions, scripts after them, and what the scripts print.
const ROWS: &[(&str, &str, &str, &str)] = &[
    (
        "averaged_pairs",
        PAIRS,
        r#"A "OPEN avg0 1 00000005\n"
fire t0 1000
fire t0 2000
A "READBUF avg0 4\n"
B "READ adc0 INPUT voltage0 raw\n"
"#,
        r#"A "0\n"
poll t0 accepted 1
handle t0 adc0 captured
poll t0 accepted 1
handle t0 adc0 captured
A "4\n00000005\n \x00\xff\xfd"
B "-16\n"
"#,
    ),
    (
        "averaged_pairs_beside_a_member_of_the_base",
        PAIRS,
        r#"A "OPEN avg0 1 00000005\n"
fire t0 1000
B "OPEN adc0 1 00000002\n"
fire t0 2000
A "READBUF avg0 4\n"
B "READBUF adc0 1\nREAD adc0 INPUT voltage0 raw\nCLOSE adc0\n"
B "READ adc0 INPUT voltage0 raw\n"
A "CLOSE avg0\n"
clock 2000
B "READ adc0 INPUT voltage0 raw\n"
"#,
        r#"A "0\n"
poll t0 accepted 1
handle t0 adc0 captured
B "0\n"
poll t0 accepted 1
handle t0 adc0 captured
A "4\n00000005\n \x00\xff\xfd"
B "1\n00000002\n\x02-16\n0\n"
B "-16\n"
A "0\n"
clock 2000
B "1\n4\n"
"#,
    ),
    (
        "a_window_begins_anew_with_the_first_member",
        THIRDS,
        r#"A "OPEN avg0 4 00000001\n"
fire t0 1
fire t0 2
A "CLOSE avg0\nOPEN avg0 4 00000001\n"
fire t0 3
A "READBUF avg0 1\n"
fire t0 4
fire t0 5
A "READBUF avg0 1\n"
drop A
fire t0 6
B "OPEN avg0 4 00000001\n"
fire t0 7
fire t0 8
fire t0 9
B "READBUF avg0 1\n"
"#,
        r#"A "0\n"
poll t0 accepted 1
handle t0 adc0 captured
poll t0 accepted 1
handle t0 adc0 captured
A "0\n0\n"
poll t0 accepted 1
handle t0 adc0 captured
A "-11\n"
poll t0 accepted 1
handle t0 adc0 captured
poll t0 accepted 1
handle t0 adc0 captured
A "1\n00000001\n\x0b"
A dropped
poll t0 accepted 0
B "0\n"
poll t0 accepted 1
handle t0 adc0 captured
poll t0 accepted 1
handle t0 adc0 captured
poll t0 accepted 1
handle t0 adc0 captured
B "1\n00000001\n\xf9"
"#,
    ),
    (
        "one_joins_within_a_window",
        THIRDS,
        r#"A "OPEN avg0 4 00000001\n"
fire t0 1
fire t0 2
B "OPEN avg0 4 00000001\n"
fire t0 3
A "READBUF avg0 4\n"
B "READBUF avg0 4\n"
A "CLOSE avg0\n"
fire t0 4
A "OPEN avg0 4 00000001\n"
fire t0 5
fire t0 6
A "READBUF avg0 4\n"
B "READBUF avg0 4\nREAD avg0 BUFFER overruns\n"
"#,
        r#"A "0\n"
poll t0 accepted 1
handle t0 adc0 captured
poll t0 accepted 1
handle t0 adc0 captured
B "0\n"
poll t0 accepted 1
handle t0 adc0 captured
A "1\n00000001\n\x020\n"
B "1\n00000001\n\x020\n"
A "0\n"
poll t0 accepted 1
handle t0 adc0 captured
A "0\n"
poll t0 accepted 1
handle t0 adc0 captured
poll t0 accepted 1
handle t0 adc0 captured
A "1\n00000001\n\x140\n"
B "1\n00000001\n\x140\n1\n0\n"
"#,
    ),
    (
        "a_mean_that_finds_no_room",
        PAIRS,
        r#"A "OPEN avg0 1 00000002\n"
fire t0 1
fire t0 2
fire t0 3
fire t0 4
fire t0 5
fire t0 6
fire t0 7
fire t0 8
fire t0 9
fire t0 10
fire t0 11
fire t0 12
A "READ avg0 BUFFER data_available\nREAD avg0 BUFFER overruns\nREADBUF avg0 8\nREAD avg0 BUFFER overruns\n"
"#,
        r#"A "0\n"
poll t0 accepted 1
handle t0 adc0 captured
poll t0 accepted 1
handle t0 adc0 captured
poll t0 accepted 1
handle t0 adc0 captured
poll t0 accepted 1
handle t0 adc0 captured
poll t0 accepted 1
handle t0 adc0 captured
poll t0 accepted 1
handle t0 adc0 captured
poll t0 accepted 1
handle t0 adc0 captured
poll t0 accepted 1
handle t0 adc0 captured
poll t0 accepted 1
handle t0 adc0 captured
poll t0 accepted 1
handle t0 adc0 captured
poll t0 accepted 1
handle t0 adc0 captured
poll t0 accepted 1
handle t0 adc0 captured
A "1\n4\n1\n2\n4\n00000002\n\x02\x02\x02\x020\n1\n2\n"
"#,
    ),
    (
        "values_at_both_ends",
        ENDS,
        r#"A "OPEN avg0 4 00000003\n"
fire t0 1
fire t0 2
fire t0 3
fire t0 4
A "READBUF avg0 32\n"
"#,
        r#"A "0\n"
poll t0 accepted 1
handle t0 adc0 captured
poll t0 accepted 1
handle t0 adc0 captured
poll t0 accepted 1
handle t0 adc0 captured
poll t0 accepted 1
handle t0 adc0 captured
A "32\n00000003\n\xff\xff\xff\xff\xff\xff\xff\x7f\xff\xff\xff\xff\xff\xff\xff\xfc\x01\x00\x00\x00\x00\x00\x00\x80\x00\x00\x00\x00\x00\x00\x00\x00"
"#,
    ),
    (
        "elements_of_16_bytes",
        REPEATED,
        r#"A "OPEN avg0 4 0000000f\n"
fire t0 1
fire t0 5
A "READBUF avg0 48\n"
"#,
        r#"A "0\n"
poll t0 accepted 1
handle t0 adc0 captured
poll t0 accepted 1
handle t0 adc0 captured
A "48\n0000000f\n\x02\x00\x00\x00\x00\x00\x00\x00\xff\xff\xff\xff\xff\xff\xff\xff\x01\x00\x02\x00\x03\x00\x04\x00\x05\x00\x06\x00\x07\x00\x08\x00\x09\x00\x00\x00\x00\x00\x00\x00\x00\x00\x00\x00\x00\x00\x00\x05"
"#,
    ),
    (
        "a_base_with_listed_masks",
        LISTED,
        r#"A "OPEN avg0 4 0000000a\n"
B "OPEN adc0 1 00000001\n"
fire t0 1
fire t0 2
A "READBUF avg0 16\n"
B "READBUF adc0 2\n"
"#,
        r#"A "0\n"
B "0\n"
poll t0 accepted 1
handle t0 adc0 captured
poll t0 accepted 1
handle t0 adc0 captured
A "16\n0000000a\n\x03\x00\x00\x00\x00\x00\x00\x00\x02\x00\x00\x00\x00\x00\x00\x00"
B "2\n00000001\n\x01\x03"
"#,
    ),
    (
        "no_listed_mask_has_all_channels",
        PART,
        r#"A "OPEN avg0 4 00000001\n"
B "OPEN adc0 1 00000001\nREADBUF avg0 1\n"
"#,
        r#"A "-22\n"
B "0\n-9\n"
"#,
    ),
    (
        "an_unplugged_base",
        THIRDS,
        r#"A "OPEN avg0 4 00000001\n"
fire t0 1
fire t0 2
fire t0 3
poll t0 4
unplug adc0
handle t0 adc0
A "READBUF avg0 1\nREADBUF avg0 1\nOPEN avg0 1 00000001\nREAD avg0 name\nGETTRIG avg0\nREMASK avg0 1\nCLOSE avg0\nCLOSE avg0\nOPEN avg0 1 00000001\n"
unplug avg0
"#,
        r#"A "0\n"
poll t0 accepted 1
handle t0 adc0 captured
poll t0 accepted 1
handle t0 adc0 captured
poll t0 accepted 1
handle t0 adc0 captured
poll t0 accepted 1
adc0 unplugged
handle t0 adc0 idle
A "1\n00000001\n\x02-19\n-19\n-19\n-19\n-19\n0\n-9\n-19\n"
avg0 gone
"#,
    ),
    (
        "entries_and_looks_at_an_averaging_device",
        THIRDS,
        r#"unplug avg0
A "OPEN avg0 4 00000001\n"
poll t0 1
handle t0 avg0
handle t0 adc0
unplug avg0
sense avg0 1
fire t0 2
fire t0 3
A "READBUF avg0 1\n"
"#,
        r#"avg0 gone
A "0\n"
poll t0 accepted 1
handle t0 avg0 none
handle t0 adc0 captured
avg0 gone
avg0 sensed 0
poll t0 accepted 1
handle t0 adc0 captured
poll t0 accepted 1
handle t0 adc0 captured
A "1\n00000001\n\x02"
"#,
    ),
    (
        "its_trigger_is_that_of_its_base",
        THIRDS,
        r#"A "GETTRIG avg0\nSETTRIG avg0 t0\nSETTRIG adc0\nGETTRIG avg0\nOPEN avg0 1 00000001\nSETTRIG adc0 t0\nOPEN avg0 1 00000001\nSETTRIG adc0\nCLOSE avg0\nSETTRIG adc0\n"
"#,
        r#"A "2\nt0\n-38\n0\n0\n-22\n0\n0\n-16\n0\n0\n"
"#,
    ),
    (
        "an_inner_member_takes_a_place",
        PLACES,
        r#"A "OPEN avg2 1 00000001\nOPEN avg0 1 00000001\nOPEN adc0 1 00000001\nCLOSE avg2\nOPEN avg0 1 00000001\nOPEN avg1 1 00000001\nOPEN adc1 1 00000001\nCLOSE avg0\nOPEN adc1 1 00000001\nCLOSE avg1\nOPEN adc1 1 00000001\n"
"#,
        r#"A "0\n-28\n-28\n0\n0\n0\n-28\n0\n-28\n0\n0\n"
"#,
    ),
    (
        "two_averages_of_one_base",
        TWO,
        r#"A "OPEN pairs 4 00000003\n"
fire t0 1
B "OPEN thirds 4 00000001\n"
fire t0 2
fire t0 3
A "OPEN adc0 4 00000003\n"
fire t0 4
A "CLOSE pairs\nOPEN pairs 4 00000003\n"
fire t0 5
fire t0 6
A "READBUF pairs 32\nREADBUF adc0 32\n"
B "READBUF thirds 32\n"
"#,
        r#"A "0\n"
poll t0 accepted 1
handle t0 adc0 captured
B "0\n"
poll t0 accepted 1
handle t0 adc0 captured
poll t0 accepted 1
handle t0 adc0 captured
A "0\n"
poll t0 accepted 1
handle t0 adc0 captured
A "0\n0\n"
poll t0 accepted 1
handle t0 adc0 captured
poll t0 accepted 1
handle t0 adc0 captured
A "16\n00000003\n\x19\x00\x00\x00\x00\x00\x00\x00\x06\x00\x00\x00\x00\x00\x00\x000\n32\n00000003\n\n\x00\x00\x00\x00\x00\x00\x00\x04\x00\x00\x00\x00\x00\x00\x00\x14\x00\x00\x00\x00\x00\x00\x00\x05\x00\x00\x00\x00\x00\x00\x00"
B "1\n00000001\n\x050\n"
"#,
    ),
    (
        "commands_at_an_averaging_device",
        COMMANDS,
        r#"A "READBUF avg0 0\nREMASK avg0 00000001\nREMASK avg0 1\nEVOPEN avg0\nEVREAD avg0\nEVCLOSE avg0\nCLOSE avg0\nWRITEBUF avg0 2\nabSETTRIG avg0 t0\nSETTRIG avg0\nGETTRIG avg0\n"
A "READ avg0 name\nREAD avg0 sampling_frequency\nREAD avg0 DEBUG raw\nREAD avg0\nREAD avg0 INPUT voltage0 raw\nREAD avg0 OUTPUT voltage0 raw\nREAD avg0 INPUT voltage0\n"
A "READ avg0 BUFFER length\nREAD avg0 BUFFER overruns\nREAD avg0 BUFFER discarded\nREAD avg0 BUFFER underruns\nREAD avg0 BUFFER data_available\n"
A "WRITE avg0 name 1\nxWRITE avg0 sampling_frequency 1\n5WRITE avg0 INPUT voltage0 calibbias 1\n5WRITE avg0 BUFFER length 1\n5"
A "OPEN avg0 0 00000001\nOPEN avg0 x 00000001\nOPEN avg0 3 0000001\nOPEN avg0 3 00000002\nOPEN avg0 3 00000000\nOPEN avg0 3 00000001 CYCLIC\nOPEN avg0 3 00000001\nOPEN avg0 3 00000001\n"
A "REMASK avg0 00000001\nEVOPEN avg0\nEVREAD avg0\nEVCLOSE avg0\nWRITEBUF avg0 2\nabSETTRIG avg0\nREADBUF avg0 1\nREADBUF avg0 0\n"
A "READ avg0 BUFFER length\nREAD avg0 BUFFER overruns\nREAD avg0 BUFFER discarded\nREAD avg0 BUFFER underruns\nREAD avg0 BUFFER data_available\n"
B "READBUF avg0 1\nREAD avg0 BUFFER length\nCLOSE avg0\nREAD adc0 INPUT voltage0 raw\nSETTRIG adc0\nREAD adc0 BUFFER length\nREADBUF adc0 1\nCLOSE adc0\n"
fire t0 1
fire t0 2
A "READ avg0 BUFFER data_available\nREADBUF avg0 3\nCLOSE avg0\nCLOSE avg0\nREADBUF avg0 1\n"
B "READ adc0 INPUT voltage0 raw\nSETTRIG adc0\n"
unplug adc0
A "READBUF avg0 1\nOPEN avg0 1 00000001\nOPEN avg0 1 00000001 CYCLIC\nREMASK avg0 00000001\nEVOPEN avg0\nEVREAD avg0\nEVCLOSE avg0\nWRITEBUF avg0 1\naSETTRIG avg0\nGETTRIG avg0\nREAD avg0 name\nREAD avg0 BUFFER length\nREAD avg0 INPUT voltage0 raw\nWRITE avg0 name 1\nxCLOSE avg0\n"
"#,
        r#"A "-9\n-38\n-38\n-38\n-38\n-38\n-9\n-38\n-38\n-38\n2\nt0\n"
A "4\navg0\n-2\n-2\n-38\n-2\n-2\n-38\n"
A "-9\n-9\n-9\n-9\n-9\n"
A "-13\n-2\n-2\n-9\n"
A "-22\n-22\n-22\n-22\n-22\n-38\n0\n-16\n"
A "-38\n-38\n-38\n-38\n-38\n-38\n-11\n0\n"
A "2\n12\n1\n0\n1\n0\n-2\n1\n0\n"
B "-9\n-9\n-9\n-16\n-16\n-9\n-9\n-9\n"
poll t0 accepted 1
handle t0 adc0 captured
poll t0 accepted 1
handle t0 adc0 captured
A "1\n1\n1\n00000001\n\x010\n0\n-9\n-9\n"
B "1\n0\n0\n"
adc0 unplugged
A "-9\n-19\n-19\n-19\n-19\n-19\n-19\n-19\n-19\n-19\n-19\n-19\n-19\n-19\n-9\n"
"#,
    ),
    (
        "an_ask_that_fails_within_a_window",
        DRIVEN,
        r#"A "OPEN avg0 4 00000001\n"
fire t0 10
fire t0 20
fire t0 30
fire t0 41
A "READBUF avg0 4\n"
fire t0 52
A "READBUF avg0 2\n"
"#,
        r#"A "0\n"
poll t0 accepted 1
handle t0 adc0 captured
poll t0 accepted 1
handle t0 adc0 fault
poll t0 accepted 1
handle t0 adc0 captured
poll t0 accepted 1
handle t0 adc0 captured
A "2\n00000001\n\x14\x000\n"
poll t0 accepted 1
handle t0 adc0 captured
A "2\n00000001\n.\x00"
"#,
    ),
];

// Each row is played to its end.
#[test]
fn averages_in_scripts(rt: HostRuntime) -> Result<(), Fail> {
    check_rows(&rt, rt.alloc(), ROWS)
}
