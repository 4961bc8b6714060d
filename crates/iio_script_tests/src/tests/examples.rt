//! The first example, and an overrun, from sources that give everything at once or byte by byte.

use crate::tests::playing::check_faults;
use std::alloc::Global;
use std::process::Abort;
use std::test::Fail;

pub(crate) const FIRST_PATH: &[u8] =
    b"trigger t0 2\ndevice adc0 t0\nchannel voltage0 le:u12/16>>4\nchannel voltage1 le:u12/16>>4\nrow 0 1 2\n%%\nA \"OPEN adc0 1 00000001\\n\"\nfire t0 1000\nA \"READBUF adc0 4\\n\"\n";

pub(crate) const FIRST_PATH_PRINTED: &[u8] =
    b"A \"0\\n\"\npoll t0 accepted 1\nhandle t0 adc0 captured\nA \"2\\n00000001\\n\\x10\\x000\\n\"\n";

const OVERRUN: &[u8] =
    b"trigger t 1\ndevice d t\nchannel voltage0 le:u8/16>>0\nrow 1 65\nrow 2 66\nrow 3 67\nrow 4 68\nrow 5 69\n%%\nfire t 0\nA \"READBUF d 2\\nOPEN d 1 1\\nOPEN e 1 00000001\\nOPEN d 0 00000001\\nOPEN d 1 00000001\\nOPEN d 1 00000001\\nREADBUF d 1\\nREADBUF d 2\\nCLOSE\\n\\n\"\nfire t 1\nfire t 2\nfire t 3\nfire t 4\nfire t 5\nA \"READBUF d 4\\nREADBUF d 8\\n\"\n";

const OVERRUN_PRINTED: &[u8] =
    b"poll t accepted 0\nA \"-9\\n-22\\n-19\\n-22\\n0\\n-16\\n0\\n-11\\n-22\\n\"\npoll t accepted 1\nhandle t d captured\npoll t accepted 1\nhandle t d captured\npoll t accepted 1\nhandle t d captured\npoll t accepted 1\nhandle t d captured\npoll t accepted 1\nhandle t d captured\nA \"4\\n00000001\\nA\\x00B\\x004\\n00000001\\nC\\x00D\\x000\\n\"\n";

// Checks a text from a source that gives everything at once, and from one that gives one byte per read.
fn check_example(rt: &impl Abort, alloc: Global, text: &[u8], printed: &[u8]) -> Result<(), Fail> {
    check_faults(rt, alloc, text, 1000, &[], &[], printed, 0)?;
    check_faults(rt, alloc, text, 1, &[], &[], printed, 0)
}

#[test]
fn examples_are_played(rt: HostRuntime) -> Result<(), Fail> {
    check_example(&rt, rt.alloc(), FIRST_PATH, FIRST_PATH_PRINTED)?;
    check_example(&rt, rt.alloc(), OVERRUN, OVERRUN_PRINTED)?;
    check_example(&rt, rt.alloc(), b"", b"")
}
