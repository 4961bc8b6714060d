//! Types of channels: their texts, their bytes and the ends of their ranges.

use iio_scan_type::{Endian, Mem, ScanType, Sign, print_type, read_type};
use std::alloc::Global;

/// A text that is valid, how it is printed, and the bytes of a channel.
const VALID: &[(&str, &str, u32)] = &[
    ("le:u12/16>>4", "le:u12/16>>4", 2),
    ("be:u12/16", "be:u12/16>>0", 2),
    ("be:u12/16>>0", "be:u12/16>>0", 2),
    ("le:s32/32X2>>0", "le:s32/32X2>>0", 8),
    ("le:s32/32X2", "le:s32/32X2>>0", 8),
    ("le:s32/32X4>>0", "le:s32/32X4>>0", 16),
    ("le:s64/64X2>>0", "le:s64/64X2>>0", 16),
    ("be:s16/16X8>>0", "be:s16/16X8>>0", 16),
    ("le:s8/8X8>>0", "le:s8/8X8>>0", 8),
    ("le:s64/64>>0", "le:s64/64>>0", 8),
    ("be:u63/64>>1", "be:u63/64>>1", 8),
    ("be:u1/8>>7", "be:u1/8>>7", 1),
    ("le:s1/64>>63", "le:s1/64>>63", 8),
];

const INVALID: &[&str] = &[
    "",
    "le",
    "le:",
    "u12/16>>4",
    "me:u12/16>>4",
    "LE:u12/16>>4",
    "le:x12/16>>4",
    "le:u/16>>4",
    "le:u012/16>>4",
    "le:u+12/16>>4",
    "le:u12",
    "le:u12/",
    "le:u12/16>",
    "le:u12/16>4",
    "le:u12/16>>",
    "le:u12/16>>04",
    "le:u12/16>>4 ",
    "le:u12/16>>4>>4",
    "le:u12/16X1>>4",
    "le:u12/16X3>>4",
    "le:u12/24>>4",
    "le:u12/16>>5",
    "le:u0/16>>0",
    "le:u64/64>>0",
    "le:s64/64X4>>0",
    "le:s32/32X8>>0",
    "le:s8/8X16>>0",
    "le:u112/16>>4",
];

/// A type of one element, its least value and bytes, its greatest value and bytes.
const ENDS: &[(&str, i64, &[u8], i64, &[u8])] = &[
    ("le:u8/8>>0", 0, &[0], 255, &[0xff]),
    ("be:u8/8>>0", 0, &[0], 255, &[0xff]),
    ("le:s8/8>>0", -128, &[0x80], 127, &[0x7f]),
    ("be:s8/8>>0", -128, &[0x80], 127, &[0x7f]),
    ("le:u16/16>>0", 0, &[0, 0], 65_535, &[0xff, 0xff]),
    ("be:u16/16>>0", 0, &[0, 0], 65_535, &[0xff, 0xff]),
    ("le:s16/16>>0", -32_768, &[0, 0x80], 32_767, &[0xff, 0x7f]),
    ("be:s16/16>>0", -32_768, &[0x80, 0], 32_767, &[0x7f, 0xff]),
    ("le:u12/16>>4", 0, &[0, 0], 4_095, &[0xf0, 0xff]),
    ("be:u10/16>>2", 0, &[0, 0], 1_023, &[0x0f, 0xfc]),
    ("le:s12/16>>4", -2_048, &[0, 0x80], 2_047, &[0xf0, 0x7f]),
    ("le:u32/32>>0", 0, &[0; 4], 4_294_967_295, &[0xff; 4]),
    (
        "be:s24/32>>8",
        -8_388_608,
        &[0x80, 0, 0, 0],
        8_388_607,
        &[0x7f, 0xff, 0xff, 0],
    ),
    (
        "le:s32/32>>0",
        -2_147_483_648,
        &[0, 0, 0, 0x80],
        2_147_483_647,
        &[0xff, 0xff, 0xff, 0x7f],
    ),
    (
        "be:s32/32>>0",
        -2_147_483_648,
        &[0x80, 0, 0, 0],
        2_147_483_647,
        &[0x7f, 0xff, 0xff, 0xff],
    ),
    (
        "le:u63/64>>0",
        0,
        &[0; 8],
        i64::MAX,
        &[0xff, 0xff, 0xff, 0xff, 0xff, 0xff, 0xff, 0x7f],
    ),
    (
        "be:u63/64>>1",
        0,
        &[0; 8],
        i64::MAX,
        &[0xff, 0xff, 0xff, 0xff, 0xff, 0xff, 0xff, 0xfe],
    ),
    (
        "le:s64/64>>0",
        i64::MIN,
        &[0, 0, 0, 0, 0, 0, 0, 0x80],
        i64::MAX,
        &[0xff, 0xff, 0xff, 0xff, 0xff, 0xff, 0xff, 0x7f],
    ),
    (
        "be:s64/64>>0",
        i64::MIN,
        &[0x80, 0, 0, 0, 0, 0, 0, 0],
        i64::MAX,
        &[0x7f, 0xff, 0xff, 0xff, 0xff, 0xff, 0xff, 0xff],
    ),
];

// Whether a text is read as a type that is printed as `printed`, and whose channel has that size.
fn is_spelled(alloc: Global, text: &str, printed: &str, size: u32) -> Result<bool, Mem> {
    match read_type(text.as_bytes()) {
        Some(ty) => Ok(ty.size() == size && print_type(alloc, &ty)?.as_str() == printed),
        None => Ok(false),
    }
}

// The type that a text spells, with nothing more known of it.
fn spelled(text: &str) -> Option<ScanType> {
    read_type(text.as_bytes())
}

fn printed_stamp(alloc: Global) -> Result<String, Mem> {
    print_type(alloc, &ScanType::stamp(Endian::Little))
}

#[test]
fn texts(rt: HostRuntime) -> Result<(), Mem> {
    for (text, printed, size) in VALID {
        let right = is_spelled(rt.alloc(), text, printed, *size)?;
        assert!(rt; right, "{text}");
    }
    for text in INVALID {
        assert!(rt; spelled(text).is_none(), "{text}");
    }
    let stamp = printed_stamp(rt.alloc())?;
    assert_eq!(rt; stamp.as_str(), "le:s64/64>>0");
    Ok(())
}

// A type of these parts, with nothing more known of it.
fn made(
    sign: Sign,
    realbits: u8,
    storagebits: u8,
    shift: u8,
    repeat: u8,
    endian: Endian,
) -> Option<ScanType> {
    ScanType::new(sign, realbits, storagebits, shift, repeat, endian)
}

#[test]
fn parts(rt: HostRuntime) {
    let ty = made(Sign::Unsigned, 12, 16, 4, 2, Endian::Big).expect(&rt, "in the profile");
    let bits = (ty.realbits(), ty.storagebits(), ty.shift(), ty.repeat());
    assert_eq!(rt; bits, (12, 16, 4, 2));
    let others = (ty.sign(), ty.endian(), ty.size());
    assert_eq!(rt; others, (Sign::Unsigned, Endian::Big, 4));
    assert_eq!(rt; spelled("be:u12/16X2>>4"), Some(ty));
    assert_eq!(rt; made(Sign::Signed, 64, 64, 0, 4, Endian::Little), None);
}

// Whether the one element of a type is written as these bytes, and read from them.
fn is_written(ty: &ScanType, value: i64, bytes: &[u8]) -> bool {
    if ty.repeat() != 1 {
        return false;
    }
    let mut room = [0x55; 16];
    let size = ty.size() as usize;
    let out = &mut room[..size];
    ty.put(&[value], out);
    *out == *bytes && ty.get(out, 0) == value
}

// Whether the range of a type ends at these values, which have these bytes, and at which sums are cut.
fn has_ends(ty: &ScanType, least: i64, low: &[u8], greatest: i64, high: &[u8]) -> bool {
    ty.range() == (least, greatest)
        && is_written(ty, least, low)
        && is_written(ty, greatest, high)
        && ty.saturating_sum(least, -1) == least
        && ty.saturating_sum(greatest, i64::MAX) == greatest
}

#[test]
fn ends_of_ranges(rt: HostRuntime) {
    for (text, least, low, greatest, high) in ENDS {
        let ty = spelled(text).expect(&rt, text);
        let right = has_ends(&ty, *least, low, *greatest, high);
        assert!(rt; right, "{text}");
    }
}

// The bytes of 1 and -2 in a type of two elements of two bytes.
fn put_two(ty: &ScanType) -> Option<[u8; 4]> {
    if ty.repeat() != 2 || ty.size() != 4 {
        return None;
    }
    let mut out = [0xff; 4];
    ty.put(&[1, -2], &mut out);
    Some(out)
}

// The values that stand in the bytes of such a channel.
fn get_two(ty: &ScanType, bytes: [u8; 4]) -> Option<(i64, i64)> {
    if ty.repeat() != 2 || ty.size() != 4 {
        return None;
    }
    Some((ty.get(&bytes, 0), ty.get(&bytes, 1)))
}

// The bytes of -2 as an element of two bytes.
fn put_element(ty: &ScanType) -> Option<[u8; 2]> {
    if ty.element_size() != 2 {
        return None;
    }
    let mut element = [0xff; 2];
    ty.put_element(-2, &mut element);
    Some(element)
}

// The bytes of the same element, at the front of three bytes and of nine.
fn put_fronts(ty: &ScanType) -> Option<([u8; 2], [u8; 2])> {
    if ty.element_size() != 2 {
        return None;
    }
    let mut few = [0x55; 3];
    ty.put_front(-2, &mut few);
    let mut many = [0x55; 9];
    ty.put_front(-2, &mut many);
    Some(([few[0], few[1]], [many[0], many[1]]))
}

#[test]
fn elements_of_two_bytes(rt: HostRuntime) {
    let ty = made(Sign::Signed, 12, 16, 4, 2, Endian::Big).expect(&rt, "in the profile");
    assert_eq!(rt; put_two(&ty), Some([0x00, 0x10, 0xff, 0xe0]));
    assert_eq!(rt; get_two(&ty, [0x80, 0x0f, 0xff, 0xef]), Some((-2048, -2)));
    let saturated = (ty.saturate(5000), ty.saturate(-5000), ty.saturate(-5));
    assert_eq!(rt; saturated, (2047, -2048, -5));
    assert_eq!(rt; (ty.saturating_sum(40, 2), ty.element_size()), (42, 2));
    assert_eq!(rt; put_element(&ty), Some([0xff, 0xe0]));
    assert_eq!(rt; put_fronts(&ty), Some(([0xff, 0xe0], [0xff, 0xe0])));
}

// The bytes of four elements of four bytes, and the value read of the last one.
fn put_four(ty: &ScanType) -> Option<([u8; 16], i64)> {
    if ty.repeat() != 4 || ty.size() != 16 {
        return None;
    }
    let mut out = [0x55; 16];
    ty.put(&[1, 2, 3, -1], &mut out);
    Some((out, ty.get(&out, 3)))
}

#[test]
fn elements_of_four_bytes(rt: HostRuntime) {
    let ty = made(Sign::Signed, 32, 32, 0, 4, Endian::Little).expect(&rt, "16 bytes");
    let bytes = [1, 0, 0, 0, 2, 0, 0, 0, 3, 0, 0, 0, 255, 255, 255, 255];
    assert_eq!(rt; put_four(&ty), Some((bytes, -1)));
}
