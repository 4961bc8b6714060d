//! Numbers, escapes, value texts, and the words of refusals.

use iio_text::{
    Errno, Fixed, Form, LineFault, Mem, Unescape, Why, between_quotes, ensure, escape, escape_to,
    print_fixed, read_fixed, read_int, read_number, unescape,
};
use std::alloc::Global;
use std::test::Fail;

const NUMBERS: &[(&str, Option<u32>)] = &[
    ("0", Some(0)),
    ("0000000007", Some(7)),
    ("00000000007", None),
    ("4294967295", Some(4_294_967_295)),
    ("4294967296", None),
    ("", None),
    ("+1", None),
    ("1a", None),
];

const INTEGERS: &[(&str, Option<i64>)] = &[
    ("0", Some(0)),
    ("-0", None),
    ("-5", Some(-5)),
    ("9223372036854775807", Some(9_223_372_036_854_775_807)),
    ("9223372036854775808", None),
    ("-9223372036854775808", Some(i64::MIN)),
    ("-9223372036854775809", None),
    ("99999999999999999999999", None),
    ("007", None),
    ("-", None),
    ("", None),
    ("1 ", None),
];

#[test]
fn numbers_and_integers(rt: HostRuntime) {
    for (text, want) in NUMBERS {
        assert_eq!(rt; read_number(text.as_bytes()), *want, "{text}");
    }
    for (text, want) in INTEGERS {
        assert_eq!(rt; read_int(text.as_bytes()), *want, "{text}");
    }
}

/// Bytes, and their escaped form.
const ESCAPED: &[(&[u8], &str)] = &[
    (b"READBUF adc0 8\n", r"READBUF adc0 8\n"),
    (b"\x00\x7f\xff ~", r"\x00\x7f\xff ~"),
    (b"a\"b\\c", r#"a\"b\\c"#),
    (b"", ""),
];

/// Texts that are no escapes, and the place of the error.
const WRONG_ESCAPES: &[(&[u8], usize)] = &[
    (br"a\q", 1),
    (br"\x1", 0),
    (br"ab\", 2),
    (b"ab\"", 2),
    (b"\x1f", 0),
    (b"~\x7f", 1),
];

// Whether bytes are escaped as `text`, and read back from it.
fn is_escaped(alloc: Global, bytes: &[u8], text: &[u8]) -> Result<bool, Fail> {
    let printed = escape(alloc, bytes)?;
    let read = unescape(alloc, text)?;
    Ok(printed.as_slice() == text && read.as_slice() == bytes)
}

// What is appended for bytes after others, and what is read from a text.
fn escaped_after(alloc: Global, before: &[u8], bytes: &[u8]) -> Result<Vec<u8>, Fail> {
    let mut line = before.to_vec(alloc)?;
    escape_to(&mut line, bytes)?;
    Ok(line)
}

fn unescaped(alloc: Global, text: &[u8]) -> Result<Vec<u8>, Unescape> {
    unescape(alloc, text)
}

fn quoted(text: &[u8]) -> Option<&[u8]> {
    between_quotes(text)
}

#[test]
fn escaped_texts(rt: HostRuntime) -> Result<(), Fail> {
    for (bytes, text) in ESCAPED {
        let right = is_escaped(rt.alloc(), bytes, text.as_bytes())?;
        assert!(rt; right, "{text}");
    }
    let line = escaped_after(rt.alloc(), b"A \"", b"0\n")?;
    assert!(rt; line.as_slice() == br#"A "0\n"#.as_slice());
    let upper = unescaped(rt.alloc(), br"\xAf\xfA")?;
    assert!(rt; upper.as_slice() == [0xaf, 0xfa].as_slice());
    Ok(())
}

#[test]
fn wrong_escapes(rt: HostRuntime) {
    for (text, place) in WRONG_ESCAPES {
        let why = unescaped(rt.alloc(), text).err();
        assert_eq!(rt; why, Some(Unescape::BadEscape(*place)), "{text:?}");
    }
    assert!(rt; quoted(b"\"a b\"").expect(&rt, "quoted") == b"a b".as_slice());
    assert!(rt; quoted(b"\"").is_none());
}

fn fixed(negative: bool, whole: u32, part: u32, form: Form) -> Fixed {
    Fixed {
        negative,
        whole,
        part,
        form,
    }
}

/// Value texts, and the sign, the whole and the part that they say in a form.
const VALUES: &[(&[u8], bool, u32, u32, Form)] = &[
    (b"6\n", false, 6, 0, Form::Int),
    (b"-32768\x00", true, 32768, 0, Form::Int),
    (b"+2147483647\n\x00", false, 2_147_483_647, 0, Form::Int),
    (b"-0", false, 0, 0, Form::Int),
    (b"9", false, 9, 0, Form::Micro),
    (b"-0.000250", true, 0, 250, Form::Micro),
    (b"-0.0000009", false, 0, 0, Form::Micro),
    (b"5.", false, 5, 0, Form::Micro),
    (b".5", false, 0, 500_000_000, Form::Nano),
    (b"1.0000000019", false, 1, 1, Form::Nano),
];

/// Value texts that are refused in a form, and how.
const WRONG_VALUES: &[(&[u8], Form, Errno)] = &[
    (b"-", Form::Int, Errno::EINVAL),
    (b"", Form::Int, Errno::EINVAL),
    (b".", Form::Micro, Errno::EINVAL),
    (b"5.", Form::Int, Errno::EINVAL),
    (b"1.2.3", Form::Micro, Errno::EINVAL),
    (b"1\x00\n", Form::Int, Errno::EINVAL),
    (b"1\n\n", Form::Int, Errno::EINVAL),
    (b" 1", Form::Int, Errno::EINVAL),
    (b"2147483648", Form::Int, Errno::ERANGE),
    (b"-99999999999999999999.5", Form::Nano, Errno::ERANGE),
    (b"99999999999x", Form::Nano, Errno::EINVAL),
];

#[test]
fn values_read(rt: HostRuntime) {
    for (text, negative, whole, part, form) in VALUES {
        let want = fixed(*negative, *whole, *part, *form);
        assert_eq!(rt; read_fixed(text, *form), Ok(want), "{text:?}");
    }
    for (text, form, want) in WRONG_VALUES {
        assert_eq!(rt; read_fixed(text, *form), Err(*want), "{text:?}");
    }
}

/// Values, and their texts.
const PRINTED: &[(bool, u32, u32, Form, &str)] = &[
    (true, 32768, 0, Form::Int, "-32768"),
    (false, 9, 0, Form::Micro, "9.000000"),
    (true, 0, 250, Form::Micro, "-0.000250"),
    (false, 1, 0, Form::Nano, "1.000000000"),
    (
        true,
        2_147_483_647,
        999_999_999,
        Form::Nano,
        "-2147483647.999999999",
    ),
];

#[test]
fn values_printed(rt: HostRuntime) -> Result<(), Fail> {
    for (negative, whole, part, form, want) in PRINTED {
        let value = fixed(*negative, *whole, *part, *form);
        let text = print_fixed(rt.alloc(), &value)?;
        assert_eq!(rt; text.as_str(), *want);
    }
    assert_eq!(rt; fixed(true, 32768, 5, Form::Micro).int(), -32768);
    Ok(())
}

#[test]
fn faults_of_lines(rt: HostRuntime) -> Result<(), Fail> {
    let ensured = (ensure(true, Why::Name), ensure(false, Why::Name));
    assert_eq!(rt; ensured, (Ok(()), Err(Why::Name)));
    let faults = (LineFault::from(Why::Name), LineFault::from(Mem));
    assert_eq!(rt; faults, (LineFault::Why(Why::Name), LineFault::Mem));
    let printed = format!(in rt.alloc(); "{}", LineFault::Why(Why::BadType))?;
    assert_eq!(rt; printed.as_str(), "refused: type");
    Ok(())
}
