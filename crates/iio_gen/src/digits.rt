//! Numbers and masks as digits.

ghost use Rattle.std.specs.Prelude.{◌≡◌, ◌++◌, ◌^◌, ◌<◌, OnOk};
ghost use Rattle.std.specs.Fmt.{decimal};
ghost use Rattle.iio_mask.specs.Text.{mask_text};

use iio_base::Mem;
use iio_mask::Mask;
use itoa::Buffer;

// The number of the device's channels, with the timestamp.
const MASK_BITS: u32 = 9;

// The number of digits in the mask of up to 32 channels.
const MASK_DIGITS: usize = 8;

pub(crate) fn push_number(out: &mut Vec<u8>, number: u64) -> Result<(), Mem>
    ensures { OnOk result (out.new.items ≡ out.old.items ++ decimal number) }
{
    let mut buffer = Buffer::new();
    out.extend_from_slice(buffer.format(number).as_bytes())?;
    Ok(())
}

pub(crate) fn push_mask(out: &mut Vec<u8>, bits: u64) -> Result<(), Mem>
    requires { bits < 2 ^ MASK_BITS }
    ensures { OnOk result (out.new.items ≡ out.old.items ++ mask_text MASK_BITS bits) }
{
    let digits = Mask { bits }.digits(MASK_BITS);
    out.extend_from_slice(&digits[..MASK_DIGITS])?;
    Ok(())
}
