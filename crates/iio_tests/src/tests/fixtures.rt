//! Channels and masks that several subjects use.

ghost use Rattle.std.specs.Prelude.{◌^◌, ◌<◌, IfOk};
ghost use Rattle.iio_layout.specs.Shape.{count_of};

use iio_layout::{Channel, Direction, Shape, Suffix, read_id};
use iio_mask::Mask;
use iio_scan_type::read_type;
use std::process::Abort;
use std::test::Fail;

/// An input channel of that ID and type.
pub(crate) fn channel(id: &str, ty: &str) -> Result<Channel, Fail> {
    let (kind, suffix) = read_id(id.as_bytes()).ok_or("no ID")?;
    Ok(Channel {
        kind,
        suffix,
        direction: Direction::Input,
        ty: read_type(ty.as_bytes()).ok_or("no type")?,
    })
}

/// The input channel `voltageN` of this number and type.
pub(crate) fn voltage(number: u16, ty: &str) -> Result<Channel, Fail> {
    let mut voltage = channel("voltage", ty)?;
    voltage.suffix = Suffix::Number(number);
    Ok(voltage)
}

/// The mask that a text says, for the channels of a shape.
pub(crate) fn mask_of(rt: &impl Abort, shape: &Shape, text: &str) -> Result<Mask, Fail>
    ensures { IfOk result (λ mask. mask.bits < 2 ^ count_of shape.now) }
{
    let count = shape.count();
    assert!(rt; 1 <= count && count <= 64);
    Ok(Mask::read(text.as_bytes(), count).ok_or("no mask")?)
}
