//! The lines that `layout` prints for a device under a mask.

ghost use Rattle.std.specs.Prelude.{◌≡◌, ◌^◌, ◌<◌, ◌≤◌, ◌++◌, true, OnOk, IfOk};
ghost use Rattle.std.specs.List.{flat_map};
ghost use Rattle.iio_mask.specs.Mask.{channels_below, has};
ghost use Rattle.iio_layout.specs.Shape.{count_of, channel_name};
ghost use Rattle.iio_script.specs.Ends.{Finishes};
ghost use Rattle.iiod_program.specs.Layout.{laid_under};
ghost use Rattle.iiod_program.specs.Placing.{channel_line, layout_text, scan_line};

use iio_layout::{Shape, place, scan_size, write_id};
use iio_mask::Mask;
use iio_scan_type::print_type;
use iio_script::{Mem, Status, push_digits, push_refused};
use iio_text::Why;
use std::alloc::Global;

// Appends the ID of a channel.
fn push_name(out: &mut Vec<u8>, shape: &Shape, c: u32) -> Result<(), Mem>
    ensures { OnOk result (out.new.items ≡ out.old.items ++ channel_name shape.now c) }
{
    if c < shape.inputs() {
        let channel = shape.channel(c);
        return write_id(out, channel.kind, channel.suffix);
    }
    out.extend_from_slice(b"timestamp")?;
    Ok(())
}

// `ID PLACE SIZE TYPE`
fn push_channel(
    alloc: Global,
    out: &mut Vec<u8>,
    shape: &Shape,
    mask: Mask,
    c: u32,
) -> Result<(), Mem>
    requires below { mask.bits < 2 ^ count_of shape.now }
    requires channel { c < count_of shape.now }
    requires selected { has mask.bits c ≡ true }
    ensures { OnOk result (out.new.items ≡ out.old.items ++ channel_line shape.now mask.bits c) }
{
    let ty = shape.scan_type(c);
    push_name(out, shape, c)?;
    out.push(b' ')?;
    push_digits(out, place(shape, mask, c) as usize)?;
    out.push(b' ')?;
    push_digits(out, ty.size() as usize)?;
    out.push(b' ')?;
    out.extend_from_slice(print_type(alloc, &ty)?.as_bytes())?;
    out.push(b'\n')?;
    Ok(())
}

// Appends the lines of the selected channels.
fn push_channels(alloc: Global, out: &mut Vec<u8>, shape: &Shape, mask: Mask) -> Result<(), Mem>
    requires { mask.bits < 2 ^ count_of shape.now }
    ensures { OnOk result (out.new.items ≡ out.old.items ++ flat_map (channel_line shape.now mask.bits) (channels_below mask.bits (count_of shape.now))) }
{
    for c in 0..shape.count() {
        if mask.contains(c) {
            push_channel(alloc, out, shape, mask, c)?;
        }
    }
    Ok(())
}

// `scan SIZE`
fn push_scan(out: &mut Vec<u8>, shape: &Shape, mask: Mask) -> Result<(), Mem>
    requires { mask.bits < 2 ^ count_of shape.now }
    ensures { OnOk result (out.new.items ≡ out.old.items ++ scan_line shape.now mask.bits) }
{
    out.extend_from_slice(b"scan ")?;
    push_digits(out, scan_size(shape, mask) as usize)?;
    out.push(b'\n')?;
    Ok(())
}

// Appends the lines of the selected channels, and the scan's size.
fn push_layout(alloc: Global, out: &mut Vec<u8>, shape: &Shape, mask: Mask) -> Result<(), Mem>
    requires { mask.bits < 2 ^ count_of shape.now }
    ensures { OnOk result (out.new.items ≡ out.old.items ++ layout_text shape.now mask.bits) }
{
    push_channels(alloc, out, shape, mask)?;
    push_scan(out, shape, mask)
}

/// Appends the layout of a shape's scans under the mask that a text gives, or the refusal of that text. Returns the status.
pub fn lay_under(
    alloc: Global,
    shape: &Shape,
    mask: &[u8],
    out: &mut Vec<u8>,
) -> Result<Status, Mem>
    ensures { IfOk result (λ status. Finishes (laid_under shape.now mask.now) status out.old.items out.new.items) }
{
    let Some(mask) = Mask::read(mask, shape.count()) else {
        return push_refused(alloc, out, 0, Why::Mask);
    };
    push_layout(alloc, out, shape, mask)?;
    Ok(Status::Done)
}
