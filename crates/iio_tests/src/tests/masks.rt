//! The texts of masks.

use iio_mask::Mask;
use std::alloc::Global;
use std::process::Abort;
use std::test::Fail;

/// A text, a number of channels, the bits of the mask, and how it is printed.
const READ: &[(&str, u32, u64, &str)] = &[
    ("00000005", 4, 0x5, "00000005"),
    ("0000000F", 4, 0xf, "0000000f"),
    ("00000000", 1, 0x0, "00000000"),
    ("dEaDbEeF", 32, 0xdead_beef, "deadbeef"),
    ("0000000100000000", 33, 0x1_0000_0000, "0000000100000000"),
    (
        "8000000000000001",
        64,
        0x8000_0000_0000_0001,
        "8000000000000001",
    ),
];

// Whether these are the digits of a text, with zeros after the first eight of them.
fn is_padded(digits: &[u8; 16], text: &[u8]) -> bool {
    if text.len() == 8 {
        &digits[..8] == text && &digits[8..] == [0u8; 8].as_slice()
    } else {
        digits.as_slice() == text
    }
}

// Whether a text is read as these bits, and the mask is printed as `printed`.
fn is_read(
    rt: &impl Abort,
    alloc: Global,
    text: &str,
    channels: u32,
    bits: u64,
    printed: &str,
) -> Result<bool, Fail> {
    assert!(rt; 1 <= channels && channels <= 64);
    let Some(mask) = Mask::read(text.as_bytes(), channels) else {
        return Ok(false);
    };
    let digits = mask.digits(channels);
    let again = mask.print(alloc, channels)?;
    Ok(mask.bits == bits && again.as_str() == printed && is_padded(&digits, printed.as_bytes()))
}

#[test]
fn reads_and_prints(rt: HostRuntime) -> Result<(), Fail> {
    for (text, channels, bits, printed) in READ {
        let right = is_read(&rt, rt.alloc(), text, *channels, *bits, printed)?;
        assert!(rt; right, "of {text}");
    }
    Ok(())
}

/// Texts that are no masks of that many channels.
const REFUSED: &[(&str, u32)] = &[
    ("5", 4),
    ("", 4),
    ("0000005", 4),
    ("000000005", 4),
    ("0000000g", 4),
    ("0x000005", 4),
    ("00000010", 4),
    ("00000001", 33),
    ("0000000100000000", 32),
    ("0000000200000000", 33),
];

fn is_refused(rt: &impl Abort, text: &str, channels: u32) -> bool {
    assert!(rt; 1 <= channels && channels <= 64);
    Mask::read(text.as_bytes(), channels).is_none()
}

#[test]
fn refuses(rt: HostRuntime) {
    for (text, channels) in REFUSED {
        assert!(rt; is_refused(&rt, text, *channels), "of {text}");
    }
}
