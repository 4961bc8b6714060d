//! Devices that go away.

use crate::tests::devices::{ADC, COUNTED};
use crate::tests::playing::check_rows;
use std::test::Fail;

/// Names, descriptions, scripts after them, and what the scripts print.
pub(crate) const ROWS: &[(&str, &str, &str, &str)] = &[
    (
        "unplugged_device",
        ADC,
        r#"A "OPEN adc0 1 00000005\n"
fire t0 1000
unplug adc0
A "READBUF adc0 4\n"
A "READBUF adc0 4\n"
B "OPEN adc0 1 00000001\n"
A "CLOSE adc0\n"
unplug adc0
"#,
        r#"A "0\n"
poll t0 accepted 1
handle t0 adc0 captured
adc0 unplugged
A "4\n00000005\n\x10\x00\xff\xfd"
A "-19\n"
B "-19\n"
A "0\n"
adc0 gone
"#,
    ),
    (
        "unplugged_under_two",
        COUNTED,
        r#"A "OPEN d 1 00000001\n"
B "OPEN d 1 00000001\nEVOPEN d\n"
fire t0 1
poll t0 2
unplug d
handle t0 d
fire t0 3
handle t0 d
A "READ d BUFFER data_available\nREADBUF d 0\nREADBUF d 2\nREADBUF d 2\nREAD d BUFFER overruns\nREAD d name\nREAD d INPUT voltage0 raw\n"
B "EVREAD d\nEVCLOSE d\nSETTRIG d\nSET d BUFFERS_COUNT 1\nWRITE d INPUT voltage0 offset 1\n1CLOSE d\nCLOSE d\nREAD d BUFFER overruns\n"
A "CLOSE d\nOPEN d 1 00000001\n"
fire t0 4
"#,
        r#"A "0\n"
B "0\n0\n"
poll t0 accepted 1
handle t0 d captured
poll t0 accepted 1
d unplugged
handle t0 d idle
poll t0 accepted 1
handle t0 d idle
handle t0 d none
A "1\n1\n0\n1\n00000001\n\x010\n-19\n1\n0\n-19\n-19\n"
B "-19\n-19\n-19\n-19\n-19\n0\n-9\n-19\n"
A "0\n-19\n"
poll t0 accepted 0
"#,
    ),
];

#[test]
fn unplugging_in_scripts(rt: HostRuntime) -> Result<(), Fail> {
    check_rows(&rt, rt.alloc(), ROWS)
}
