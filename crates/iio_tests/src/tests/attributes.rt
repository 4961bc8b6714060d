//! Names, and the table of attributes.

use iio_attr::{Attr, Errno, Form, Name, Scope, check, find, writable};
use std::test::Fail;

// The name that a text is, with nothing more known of it.
fn named(text: &[u8]) -> Option<Name> {
    Name::new(text)
}

// Whether a text is a name, and a copy of the name equals it.
fn is_name(text: &[u8]) -> bool {
    let Some(name) = named(text) else {
        return false;
    };
    let again = name.copy();
    again.bytes() == text && again.same(&name) && name.padded().starts_with(text)
}

#[test]
fn names(rt: HostRuntime) -> Result<(), Fail> {
    let longest = [b'a'; 32];
    for text in [b"iio:device0".as_slice(), b"t", b"adc-0_x.1", &longest] {
        assert!(rt; is_name(text), "{text:?}");
    }
    let too_long = [b'a'; 33];
    for text in [
        b"".as_slice(),
        b"0adc",
        b"_a",
        b"a b",
        b"a/b",
        b"a\xff",
        &too_long,
    ] {
        assert!(rt; named(text).is_none(), "{text:?}");
    }
    let one = named(b"adc0").ok_or("a name")?;
    let other = named(b"adc00").ok_or("a name")?;
    assert!(rt; !one.same(&other));
    Ok(())
}

/// A name in a scope, the attribute that it names, and whether that can be written.
const ROWS: &[(Scope, &str, Option<Attr>, bool)] = &[
    (Scope::Device, "name", Some(Attr::Name), false),
    (
        Scope::Device,
        "sampling_frequency",
        Some(Attr::SamplingFrequency),
        true,
    ),
    (Scope::Channel, "raw", Some(Attr::Raw), false),
    (Scope::Channel, "calibbias", Some(Attr::Calibbias), true),
    (Scope::Channel, "scale", Some(Attr::Scale), true),
    (Scope::Channel, "offset", Some(Attr::Offset), true),
    (Scope::Channel, "calibscale", Some(Attr::Calibscale), true),
    (
        Scope::Channel,
        "thresh_rising_value",
        Some(Attr::ThreshRisingValue),
        true,
    ),
    (
        Scope::Channel,
        "thresh_falling_value",
        Some(Attr::ThreshFallingValue),
        true,
    ),
    (
        Scope::Channel,
        "thresh_rising_en",
        Some(Attr::ThreshRisingEn),
        true,
    ),
    (
        Scope::Channel,
        "thresh_falling_en",
        Some(Attr::ThreshFallingEn),
        true,
    ),
    (Scope::Buffer, "overruns", Some(Attr::Overruns), false),
    (
        Scope::Buffer,
        "data_available",
        Some(Attr::DataAvailable),
        false,
    ),
    (Scope::Buffer, "length", Some(Attr::Length), false),
    (Scope::Buffer, "discarded", Some(Attr::Discarded), false),
    (Scope::Buffer, "underruns", Some(Attr::Underruns), false),
    (Scope::Device, "raw", None, false),
    (Scope::Channel, "name", None, false),
    (Scope::Buffer, "scale", None, false),
    (Scope::Channel, "Raw", None, false),
    (Scope::Channel, "", None, false),
];

#[test]
fn names_by_scope(rt: HostRuntime) {
    for (scope, name, want, can_write) in ROWS {
        let found = find(*scope, name.as_bytes());
        assert_eq!(rt; found, *want, "{name}");
        assert_eq!(rt;
            matches!(found, Some(attr) if writable(attr)),
            *can_write,
            "{name}"
        );
    }
}

/// What a value is read as: whether it is negative, its whole part and its fraction, and its form.
type Checked = Result<(bool, u32, u32, Form), Errno>;

/// An attribute, a text that is written to it, and what it is read as.
const VALUES: &[(Attr, &str, Checked)] = &[
    (Attr::Raw, "1", Err(Errno::EACCES)),
    (Attr::Raw, "x", Err(Errno::EACCES)),
    (Attr::Name, "x", Err(Errno::EACCES)),
    (Attr::Scale, "-", Err(Errno::EINVAL)),
    (Attr::Scale, "2147483648", Err(Errno::ERANGE)),
    (Attr::ThreshRisingEn, "2147483648", Err(Errno::ERANGE)),
    (Attr::ThreshRisingEn, "2", Err(Errno::EINVAL)),
    (Attr::ThreshFallingEn, "-1", Err(Errno::EINVAL)),
    (Attr::ThreshRisingEn, "1\n", Ok((false, 1, 0, Form::Int))),
    (Attr::ThreshFallingEn, "-0", Ok((false, 0, 0, Form::Int))),
    (
        Attr::Calibbias,
        "-32768\x00",
        Ok((true, 32768, 0, Form::Int)),
    ),
    (Attr::Scale, "-0.000250", Ok((true, 0, 250, Form::Micro))),
    (
        Attr::Calibscale,
        "1.5",
        Ok((false, 1, 500_000_000, Form::Nano)),
    ),
];

#[test]
fn values_checked(rt: HostRuntime) {
    for (attr, text, want) in VALUES {
        let got = check(*attr, text.as_bytes()).map(|v| (v.negative, v.whole, v.part, v.form));
        assert_eq!(rt; got, *want, "{text}");
    }
}
