//! Inputs of some numbers. Their ends and lengths were computed outside of this program, from the constants alone.

use iio_gen::make;
use std::alloc::Global;
use std::test::Fail;

/// A number, the length of its input, and its first and last lines. The first number drawn from 1 is 7806831264735756412; its
/// upper bits are 908834774, and this modulo 6 is 2: the third type. The last step of the second input is an OPEN.
const INPUTS: &[(u64, usize, &[u8], &[u8])] = &[
    (
        1,
        396_182,
        b"trigger t0 2\ndevice dev0 t0\nchannel voltage0 le:u8/8>>0\nchannel voltage1 be:s24/32>>8\n",
        b"c3 \"READBUF dev0 367\\n\"\nc3 \"CLOSE dev0\\n\"\nfire t0 99995\n",
    ),
    (
        2,
        395_817,
        b"trigger t0 2\ndevice dev0 t0\nchannel voltage0 le:s64/64>>0\n",
        b"CLOSE dev0\\n\"\nc1 \"OPEN dev0 3 000001f2\\n\"\nc1 \"OPEN dev0 5 00000155\\n\"\n",
    ),
];

// Returns the length of a number's input, and whether it begins and ends with these texts.
fn ends_of(alloc: Global, n: u64, begin: &[u8], end: &[u8]) -> Result<(usize, bool, bool), Fail> {
    let text = make(alloc, n)?;
    Ok((text.len(), text.starts_with(begin), text.ends_with(end)))
}

#[test]
fn makes_inputs(rt: HostRuntime) -> Result<(), Fail> {
    for (n, len, begin, end) in INPUTS {
        let ends = ends_of(rt.alloc(), *n, begin, end)?;
        assert_eq!(rt; ends, (*len, true, true), "of {n}");
    }
    Ok(())
}
