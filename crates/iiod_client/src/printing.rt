//! The lines that a client prints.

ghost use Rattle.std.specs.Prelude.{◌≡◌, ◌^◌, ◌<◌, ◌≤◌, ◌++◌, true, length, OnOk};
ghost use Rattle.std.specs.Fmt.{decimal, signed_decimal};
ghost use Rattle.std.specs.List.{flat_map};
ghost use Rattle.hex.specs.Hex.{encode_lower};
ghost use Rattle.iio_mask.specs.Mask.{channels_below, has};
ghost use Rattle.iio_scan_type.specs.Bytes.{value_at};
ghost use Rattle.iio_scan_type.specs.Format.{size_of};
ghost use Rattle.iio_layout.specs.Layout.{scan_size};
ghost use Rattle.iio_layout.specs.Shape.{count_of, channel_name};
ghost use Rattle.iiod_client.specs.Printed.{elements_text, field_text, refused_line, scan_line};

use iio_base::Mem;
use iio_layout::{Shape, place, write_id};
use iio_mask::Mask;
use iio_scan_type::ScanType;
use iio_text::push_hex;
use itoa::Buffer;

/// Appends the digits of a number.
pub(crate) fn push_digits(out: &mut Vec<u8>, number: u32) -> Result<(), Mem>
    ensures { OnOk result (out.new.items ≡ out.old.items ++ decimal number) }
{
    let mut buffer = Buffer::new();
    out.extend_from_slice(buffer.format(number).as_bytes())?;
    Ok(())
}

// Appends the value of element `k` of a channel, in decimal.
fn push_element(out: &mut Vec<u8>, ty: &ScanType, bytes: &[u8], k: u32) -> Result<(), Mem>
    requires size { length bytes.now ≡ size_of ty.now }
    requires element { k < ty.now.repeat }
    ensures { OnOk result (out.new.items ≡ out.old.items ++ signed_decimal (value_at ty.now bytes.now k)) }
{
    let mut buffer = Buffer::new();
    let value = ty.get(bytes, k);
    out.extend_from_slice(buffer.format(value).as_bytes())?;
    Ok(())
}

// Appends the ID of a channel.
fn push_name(out: &mut Vec<u8>, shape: &Shape, c: u32) -> Result<(), Mem>
    ensures { OnOk result (out.new.items ≡ out.old.items ++ channel_name shape.now c) }
{
    if c < shape.inputs() {
        let channel = shape.channel(c);
        return write_id(out, channel.kind, channel.suffix);
    }
    out.extend_from_slice(b"timestamp")?;
    Ok(())
}

// Appends the elements of a channel, with `,` between them.
fn push_elements(out: &mut Vec<u8>, ty: &ScanType, bytes: &[u8]) -> Result<(), Mem>
    requires { length bytes.now ≡ size_of ty.now }
    ensures { OnOk result (out.new.items ≡ out.old.items ++ elements_text ty.now bytes.now ty.now.repeat) }
{
    let count = u32::from(ty.repeat());
    push_element(out, ty, bytes, 0)?;
    for k in 1..count {
        out.push(b',')?;
        push_element(out, ty, bytes, k)?;
    }
    Ok(())
}

// ` ID=VALUES`
fn push_field(out: &mut Vec<u8>, shape: &Shape, mask: Mask, scan: &[u8], c: u32) -> Result<(), Mem>
    requires below { mask.bits < 2 ^ count_of shape.now }
    requires channel { c < count_of shape.now }
    requires selected { has mask.bits c ≡ true }
    requires size { length scan.now ≡ scan_size shape.now mask.bits }
    ensures { OnOk result (out.new.items ≡ out.old.items ++ field_text shape.now mask.bits scan.now c) }
{
    let ty = shape.scan_type(c);
    let from = place(shape, mask, c) as usize;
    out.push(b' ')?;
    push_name(out, shape, c)?;
    out.push(b'=')?;
    push_elements(out, &ty, &scan[from..from + ty.size() as usize])?;
    Ok(())
}

// Appends the fields of the selected channels.
fn push_fields(out: &mut Vec<u8>, shape: &Shape, mask: Mask, scan: &[u8]) -> Result<(), Mem>
    requires below { mask.bits < 2 ^ count_of shape.now }
    requires size { length scan.now ≡ scan_size shape.now mask.bits }
    ensures { OnOk result (out.new.items ≡ out.old.items
        ++ flat_map (field_text shape.now mask.bits scan.now) (channels_below mask.bits (count_of shape.now))) }
{
    for c in 0..shape.count() {
        if mask.contains(c) {
            push_field(out, shape, mask, scan, c)?;
        }
    }
    Ok(())
}

/// Puts a scan's line into `out`: its bytes in hexadecimal, and ` ID=VALUES` for each selected channel.
pub(crate) fn put_scan(out: &mut Vec<u8>, shape: &Shape, mask: Mask, scan: &[u8]) -> Result<(), Mem>
    requires below { mask.bits < 2 ^ count_of shape.now }
    requires size { length scan.now ≡ scan_size shape.now mask.bits }
    ensures { OnOk result (out.new.items ≡ scan_line shape.now mask.bits scan.now) }
{
    out.clear();
    push_hex(out, scan)?;
    push_fields(out, shape, mask, scan)?;
    out.push(b'\n')?;
    Ok(())
}

/// `refused -N`
pub(crate) fn put_refused(out: &mut Vec<u8>, number: u32) -> Result<(), Mem>
    ensures { OnOk result (out.new.items ≡ refused_line number) }
{
    out.clear();
    out.extend_from_slice(b"refused -")?;
    push_digits(out, number)?;
    out.push(b'\n')?;
    Ok(())
}
