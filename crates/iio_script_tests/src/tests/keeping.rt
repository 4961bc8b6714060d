//! What is kept of a text for the connection of that name.

use crate::tests::playing::joined;
use iio_script::{Stop, kept};
use iio_text::Why;
use std::alloc::Global;
use std::process::Abort;
use std::test::Fail;

/// Two devices on one trigger, in six lines.
const LAB: &str = "trigger t 2
device d t
channel voltage0 le:u8/8>>0
device e t
channel voltage0 le:u8/8>>0
%%
";

// Checks what is kept for A of these steps at `LAB`.
fn check_kept(
    rt: &impl Abort,
    alloc: Global,
    row: &str,
    steps: &str,
    want: Result<&[u8], Stop>,
) -> Result<(), Fail> {
    let text = joined(alloc, &[LAB, steps])?;
    assert!(rt; text.len() <= 1_000, "{row}");
    match kept(alloc, b"A", &text, Vec::new(alloc)) {
        Ok(lines) => assert_eq!(rt; Ok(lines.as_slice()), want, "{row}"),
        Err(stop) => assert_eq!(rt; Err(stop), want, "{row}"),
    }
    Ok(())
}

fn refused(line: u32, why: Why) -> Result<&'static [u8], Stop> {
    Err(Stop::Refused { line, why })
}

#[test]
fn kept_texts(rt: HostRuntime) -> Result<(), Fail> {
    let alloc = rt.alloc();
    check_kept(&rt, alloc, "no step", "", Ok(b""))?;
    check_kept(
        &rt,
        alloc,
        "another's steps",
        "A \"VERSION\\n\"\nB \"VERSION\\n\"\nfire t 1\ndrop B\ndrop A\n",
        Ok(b"A \"0.25.iiosim0\\n\"\npoll t accepted 0\nA dropped\n"),
    )?;
    check_kept(
        &rt,
        alloc,
        "a step against the rules",
        "A \"OPEN d 1 00000001\\n\"\nB \"OPEN e 1 00000001\\n\"\n",
        refused(8, Why::Bystander),
    )?;
    check_kept(
        &rt,
        alloc,
        "a line that fails after it",
        "A \"OPEN d 1 00000001\\n\"\nB \"OPEN e 1 00000001\\n\"\nfire t\n",
        refused(9, Why::Count),
    )
}
