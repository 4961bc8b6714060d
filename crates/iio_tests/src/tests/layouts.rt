//! Shapes of devices, IDs of channels, and the bytes of scans.

ghost use Rattle.std.specs.Prelude.{◌^◌, ◌<◌};
ghost use Rattle.iio_layout.specs.Shape.{count_of};

use crate::tests::fixtures::{channel, mask_of, voltage};
use iio_layout::{
    Channel, Direction, Kind, Shape, Suffix, fill, place, read_id, scan_size, write_id,
};
use iio_mask::Mask;
use iio_scan_type::Endian;
use std::alloc::Global;
use std::process::Abort;
use std::test::Fail;

// voltage0, voltage1, accel_x and a timestamp.
fn adc(alloc: Global) -> Result<Shape, Fail> {
    let mut channels = Vec::new(alloc);
    channels.push(channel("voltage0", "le:u12/16>>4")?)?;
    channels.push(channel("voltage1", "le:u12/16>>4")?)?;
    channels.push(channel("accel_x", "be:s16/16>>0")?)?;
    let shape = Shape::new(channels, Some(Endian::Little), Vec::new(alloc));
    Ok(shape.ok_or("no shape")?)
}

// Channels voltage0, voltage1 and so on, of one type.
fn voltages(
    alloc: Global,
    count: u16,
    ty: &str,
    stamp: Option<Endian>,
) -> Result<Option<Shape>, Fail> {
    let mut channels = Vec::new(alloc);
    for number in 0..count {
        channels.push(voltage(number, ty)?)?;
    }
    Ok(Shape::new(channels, stamp, Vec::new(alloc)))
}

// The scan of these values and this moment under a mask.
fn scan_of(
    rt: &impl Abort,
    alloc: Global,
    shape: &Shape,
    mask: Mask,
    row: (&[i64], i64),
) -> Result<Vec<u8>, Fail>
    requires { mask.bits < 2 ^ count_of shape.now }
{
    let (values, t) = row;
    assert_eq!(rt; values.len(), shape.width() as usize);
    let size = scan_size(shape, mask);
    let mut out = vec![in alloc; 0xaau8; size as usize]?;
    fill(shape, mask, values, t, &mut out);
    Ok(out)
}

// Fills a buffer that holds other bytes, and checks it.
fn check_scan(
    rt: &impl Abort,
    alloc: Global,
    shape: &Shape,
    mask: &str,
    row: (&[i64], i64),
    want: &[u8],
) -> Result<(), Fail> {
    let mask = mask_of(rt, shape, mask)?;
    let scan = scan_of(rt, alloc, shape, mask, row)?;
    assert_eq!(rt; scan.as_slice(), want);
    Ok(())
}

/// Masks of `adc`, and its scans of the values 1, 2 and -3 at 1000.
const ADC_SCANS: &[(&str, &[u8])] = &[
    ("00000005", b"\x10\x00\xff\xfd"),
    (
        "00000009",
        b"\x10\x00\x00\x00\x00\x00\x00\x00\xe8\x03\x00\x00\x00\x00\x00\x00",
    ),
    ("00000000", b""),
];

#[test]
fn two_channels_and_padding_before_timestamp(rt: HostRuntime) -> Result<(), Fail> {
    let shape = adc(rt.alloc())?;
    let row = ([1, 2, -3].as_slice(), 1000);
    for (mask, want) in ADC_SCANS {
        check_scan(&rt, rt.alloc(), &shape, mask, row, want)?;
    }
    Ok(())
}

// A copy of a shape lays out the same scans.
#[test]
fn a_copy_is_the_same_shape(rt: HostRuntime) -> Result<(), Fail> {
    let shape = adc(rt.alloc())?;
    let copy = shape.copy(rt.alloc())?;
    assert_eq!(rt; shape.stamp(), Some(Endian::Little));
    assert!(rt; copy.inputs() == 3);
    assert_eq!(rt; copy.data_type(2).size(), 2);
    let row = ([1, 2, -3].as_slice(), 1000);
    check_scan(&rt, rt.alloc(), &copy, "00000005", row, b"\x10\x00\xff\xfd")
}

// accel_x of four elements of 32 bits, and a timestamp.
fn quaternion(alloc: Global) -> Result<Shape, Fail> {
    let mut channels = Vec::new(alloc);
    channels.push(channel("accel_x", "le:s32/32X4>>0")?)?;
    let shape = Shape::new(channels, Some(Endian::Little), Vec::new(alloc));
    Ok(shape.ok_or("no shape")?)
}

#[test]
fn sixteen_byte_channel(rt: HostRuntime) -> Result<(), Fail> {
    let shape = quaternion(rt.alloc())?;
    let row = ([1, 2, 3, -1].as_slice(), 258);
    check_scan(
        &rt,
        rt.alloc(),
        &shape,
        "00000003",
        row,
        b"\x01\0\0\0\x02\0\0\0\x03\0\0\0\xff\xff\xff\xff\x02\x01\0\0\0\0\0\0\0\0\0\0\0\0\0\0",
    )?;
    let both = Mask { bits: 3 };
    assert!(rt; shape.count() == 2);
    assert!(rt; both.contains(0) && both.contains(1));
    assert_eq!(rt; place(&shape, both, 0), 0);
    assert_eq!(rt; place(&shape, both, 1), 16);
    Ok(())
}

// Channels of 1 and 16 bytes: the second one stands at 16.
#[test]
fn sixteen_bytes_after_one(rt: HostRuntime) -> Result<(), Fail> {
    let alloc = rt.alloc();
    let mut channels = Vec::new(alloc);
    channels.push(channel("temp", "le:u8/8>>0")?)?;
    channels.push(channel("accel_x", "be:s16/16X8>>0")?)?;
    let shape = Shape::new(channels, None, Vec::new(alloc)).ok_or("no shape")?;
    check_scan(
        &rt,
        alloc,
        &shape,
        "00000003",
        (&[90, 1, 2, 3, 4, 5, 6, 7, 8], 0),
        b"Z\0\0\0\0\0\0\0\0\0\0\0\0\0\0\0\0\x01\0\x02\0\x03\0\x04\0\x05\0\x06\0\x07\0\x08",
    )
}

/// The number of channels of one type, a mask of them, and the size of a scan.
const SIZES: &[(u16, &str, &str, u32)] = &[
    (9, "le:s64/64>>0", "000001ff", 72),
    (1, "le:s32/32X2>>0", "00000001", 8),
    (2, "le:u8/8>>0", "00000003", 2),
    (1, "le:s64/64X2>>0", "00000001", 16),
    (64, "le:s16/16X8>>0", "ffffffffffffffff", 1024),
];

fn size_of(rt: &impl Abort, shape: &Shape, mask: &str) -> Result<u32, Fail> {
    let mask = mask_of(rt, shape, mask)?;
    Ok(scan_size(shape, mask))
}

#[test]
fn sizes(rt: HostRuntime) -> Result<(), Fail> {
    for (count, ty, mask, size) in SIZES {
        let shape = voltages(rt.alloc(), *count, ty, None)?.ok_or("no shape")?;
        assert_eq!(rt; size_of(&rt, &shape, mask)?, *size, "of {count} {ty}");
    }
    Ok(())
}

/// IDs, and the kind and the suffix that they say.
const IDS: &[(&str, Kind, Suffix)] = &[
    ("voltage0", Kind::Voltage, Suffix::Number(0)),
    ("voltage", Kind::Voltage, Suffix::Bare),
    ("current65535", Kind::Current, Suffix::Number(65535)),
    ("accel_x", Kind::Accel, Suffix::X),
    ("anglvel_y", Kind::Anglvel, Suffix::Y),
    ("magn_z", Kind::Magn, Suffix::Z),
    ("temp10", Kind::Temp, Suffix::Number(10)),
];

const NO_IDS: &[&str] = &[
    "",
    "volt",
    "voltage00",
    "voltage01",
    "voltage65536",
    "voltage_",
    "voltage_w",
    "voltage-1",
    "accel_xx",
    "Voltage0",
    "voltage 0",
    "timestamp",
    "humidity0",
];

// Whether an ID is read as this kind and suffix, and written from them.
fn is_id(alloc: Global, text: &str, kind: Kind, suffix: Suffix) -> Result<bool, Fail> {
    let mut out = Vec::new(alloc);
    write_id(&mut out, kind, suffix)?;
    Ok(read_id(text.as_bytes()) == Some((kind, suffix)) && out.as_slice() == text.as_bytes())
}

#[test]
fn ids(rt: HostRuntime) -> Result<(), Fail> {
    for (text, kind, suffix) in IDS {
        let right = is_id(rt.alloc(), text, *kind, *suffix)?;
        assert!(rt; right, "of {text}");
    }
    for text in NO_IDS {
        assert_eq!(rt; read_id(text.as_bytes()), None, "of {text}");
    }
    Ok(())
}

// Whether these make a shape.
fn accepts(
    alloc: Global,
    channels: &[Channel],
    stamp: Option<Endian>,
    listed: &[u64],
) -> Result<bool, Fail> {
    let mut masks = Vec::new(alloc);
    for bits in listed {
        masks.push(Mask { bits: *bits })?;
    }
    let channels = Vec::from_slice(alloc, channels)?;
    Ok(Shape::new(channels, stamp, masks).is_some())
}

#[test]
fn shapes_are_checked(rt: HostRuntime) -> Result<(), Fail> {
    let alloc = rt.alloc();
    let input = channel("voltage0", "le:u8/8>>0")?;
    let mut output = input;
    output.direction = Direction::Output;
    let big = Some(Endian::Big);
    let accepted = [
        accepts(alloc, &[output, input], None, &[3])?,
        accepts(alloc, &[input], big, &[1])?,
        accepts(alloc, &[input, input], None, &[])?,
        accepts(alloc, &[], None, &[])?,
    ];
    assert_eq!(rt; accepted, [true, true, false, false]);
    for listed in [0, 2, 4] {
        let wrong = accepts(alloc, &[input], big, &[1, listed])?;
        assert!(rt; !wrong, "with {listed}");
    }
    Ok(())
}

// Sixty-four channels leave no room for a timestamp.
#[test]
fn the_most_channels(rt: HostRuntime) -> Result<(), Fail> {
    let plain = voltages(rt.alloc(), 64, "le:u8/8>>0", None)?.is_some();
    let stamped = voltages(rt.alloc(), 64, "le:u8/8>>0", Some(Endian::Big))?.is_some();
    assert_eq!(rt; (plain, stamped), (true, false));
    Ok(())
}

#[test]
fn channels_are_found_by_their_ids(rt: HostRuntime) -> Result<(), Fail> {
    let input = channel("voltage0", "le:u8/8>>0")?;
    let mut output = input;
    output.direction = Direction::Output;
    let channels = Vec::from_slice(rt.alloc(), &[output, input])?;
    let shape = Shape::new(channels, None, Vec::new(rt.alloc())).ok_or("no shape")?;
    let found = (
        shape.find(b"voltage0"),
        shape.find(b"voltage1"),
        shape.find(b"timestamp"),
    );
    assert_eq!(rt; found, (Some(0), None, None));
    Ok(())
}
