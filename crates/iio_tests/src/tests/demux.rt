//! Tables of small devices, by hand.

ghost use Rattle.std.specs.Prelude.{◌≡◌, ◌^◌, ◌<◌, true};
ghost use Rattle.iio_layout.specs.Shape.{count_of};
ghost use Rattle.iio_mask.specs.Mask.{is_within};

use crate::tests::fixtures::{mask_of, voltage};
use iio_demux::{Entry, Table};
use iio_layout::{Shape, scan_size};
use iio_mask::Mask;
use iio_scan_type::Endian;
use std::alloc::Global;
use std::process::Abort;
use std::test::Fail;

// A device with five channels voltage0 to voltage4 of two bytes, and a timestamp.
fn device(alloc: Global) -> Result<Shape, Fail> {
    let mut channels = Vec::new(alloc);
    for number in 0u16..5 {
        channels.push(voltage(number, "le:u16/16>>0")?)?;
    }
    let shape = Shape::new(channels, Some(Endian::Little), Vec::new(alloc));
    Ok(shape.ok_or("no shape")?)
}

fn entry(from: u32, to: u32, length: u32) -> Entry {
    Entry { from, to, length }
}

// The table from an active mask to a buffer's mask, as it is built.
fn built(alloc: Global, shape: &Shape, active: Mask, buffer: Mask) -> Result<Table, Fail>
    requires below { active.bits < 2 ^ count_of shape.now }
    requires within { is_within buffer.bits active.bits ≡ true }
{
    Ok(Table::build(alloc, shape, active, buffer)?)
}

// The same table, remade from the one of the active mask alone.
fn remade(alloc: Global, shape: &Shape, active: Mask, buffer: Mask) -> Result<Table, Fail>
    requires below { active.bits < 2 ^ count_of shape.now }
    requires within { is_within buffer.bits active.bits ≡ true }
    requires same { is_within active.bits active.bits ≡ true }
{
    let mut table = Table::build(alloc, shape, active, active)?;
    table.remake(shape, active, scan_size(shape, active), buffer);
    Ok(table)
}

// What a table makes of an active scan, written over other bytes.
fn copied(rt: &impl Abort, alloc: Global, table: &Table, scan: &[u8]) -> Result<Vec<u8>, Fail> {
    assert!(rt; scan.len() == table.active_size() as usize);
    let mut out = vec![in alloc; 0xffu8; table.buffer_size() as usize]?;
    table.apply(scan, &mut out);
    Ok(out)
}

// The sizes of the scans under two masks.
fn sizes_of(shape: &Shape, active: Mask, buffer: Mask) -> (usize, usize)
    requires active { active.bits < 2 ^ count_of shape.now }
    requires buffer { buffer.bits < 2 ^ count_of shape.now }
{
    let whole = scan_size(shape, active);
    let part = scan_size(shape, buffer);
    (whole as usize, part as usize)
}

// Checks both tables: their entries, and what they make of the active scan.
fn check_table(
    rt: &impl Abort,
    alloc: Global,
    shape: &Shape,
    masks: (&str, &str),
    entries: &[Entry],
    scans: (&[u8], &[u8]),
) -> Result<(), Fail> {
    let active = mask_of(rt, shape, masks.0)?;
    let buffer = mask_of(rt, shape, masks.1)?;
    assert!(rt; buffer.within(active) && active.within(active));
    let built = built(alloc, shape, active, buffer)?;
    let remade = remade(alloc, shape, active, buffer)?;
    let (scan, want) = scans;
    assert_eq!(rt; sizes_of(shape, active, buffer), (scan.len(), want.len()));
    for table in [&built, &remade] {
        assert_eq!(rt; table.entries(), entries);
        let out = copied(rt, alloc, table, scan)?;
        assert_eq!(rt; out.as_slice(), want);
    }
    Ok(())
}

// Neighbours in both scans share an entry; a channel between them that isn't copied, or padding, separates them.
#[test]
fn merged_tables(rt: HostRuntime) -> Result<(), Fail> {
    let shape = device(rt.alloc())?;
    let scan = b"\x01\x00\x02\x00\x03\x00\x04\x00\x05\x00\0\0\0\0\0\0\x02\x01\0\0\0\0\0\0";
    let cases: [(&str, &[Entry], &[u8]); 2] = [
        ("0000000e", &[entry(2, 0, 6)], b"\x02\x00\x03\x00\x04\x00"),
        (
            "0000002d",
            &[entry(0, 0, 2), entry(4, 2, 4), entry(16, 8, 8)],
            b"\x01\x00\x03\x00\x04\x00\0\0\x02\x01\0\0\0\0\0\0",
        ),
    ];
    for (buffer, entries, want) in cases {
        check_table(
            &rt,
            rt.alloc(),
            &shape,
            ("0000003f", buffer),
            entries,
            (scan, want),
        )?;
    }
    Ok(())
}
