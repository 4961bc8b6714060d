//! The bytes of each form of answer, written by hand according to docs/FORMATS.md.

use iio_mask::Mask;
use iiod_reply::{block, number, value};
use std::test::Fail;

#[test]
fn numbers(rt: HostRuntime) -> Result<(), Fail> {
    for (n, want) in [
        (0i64, b"0\n".as_slice()),
        (7, b"7\n"),
        (-22, b"-22\n"),
        (i64::MAX, b"9223372036854775807\n"),
        (i64::MIN, b"-9223372036854775808\n"),
    ] {
        let mut out = vec![in rt.alloc(); b'>']?;
        number(n, &mut out)?;
        assert!(rt;
            out.as_slice().split_first() == Some((&b'>', want)),
            "of {n}"
        );
    }
    Ok(())
}

#[test]
fn values(rt: HostRuntime) -> Result<(), Fail> {
    for (bytes, want) in [
        (b"".as_slice(), b"0\n\n".as_slice()),
        (b"-32768", b"6\n-32768\n"),
        (b"<context/>", b"10\n<context/>\n"),
        (
            b"a\nb\x00c\x00\x00\x00\x00\x00",
            b"10\na\nb\x00c\x00\x00\x00\x00\x00\n",
        ),
    ] {
        let mut out = Vec::new(rt.alloc());
        value(bytes, &mut out)?;
        assert!(rt; out.as_slice() == want, "of {bytes:?}");
    }
    Ok(())
}

// The bits of a mask, the number of channels, scans, the bytes asked for, and the block.
const BLOCKS: &[(u64, u32, &[u8], u32, &[u8])] = &[
    (
        5,
        4,
        b"\x10\x00\xff\xfd",
        8,
        b"4\n00000005\n\x10\x00\xff\xfd0\n",
    ),
    (
        5,
        4,
        b"\x10\x00\xff\xfd",
        4,
        b"4\n00000005\n\x10\x00\xff\xfd",
    ),
    (0xabcdef, 32, b"\n", 4_294_967_295, b"1\n00abcdef\n\n0\n"),
    (0x1_0000_0000, 33, b"Z", 1, b"1\n0000000100000000\nZ"),
    (
        u64::MAX,
        64,
        b"1234567890",
        11,
        b"10\nffffffffffffffff\n12345678900\n",
    ),
];

#[test]
fn blocks(rt: HostRuntime) -> Result<(), Fail> {
    for (bits, channels, scans, asked, want) in BLOCKS.iter() {
        let mut out = Vec::new(rt.alloc());
        block(Mask { bits: *bits }, *channels, scans, *asked, &mut out)?;
        assert!(rt; out.as_slice() == *want, "of {want:?}");
    }
    Ok(())
}
