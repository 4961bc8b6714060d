//! Numbers as digits.

ghost use Rattle.std.specs.Prelude.{◌≡◌, ◌++◌, OnErr, OnOk};
ghost use Rattle.std.specs.Fmt.{decimal};

use iio_base::Mem;
use itoa::Buffer;

/// Appends the digits of a number. If memory runs out, nothing is appended.
pub fn push_digits(out: &mut Vec<u8>, number: usize) -> Result<(), Mem>
    ensures digits { OnOk result (out.new.items ≡ out.old.items ++ decimal number) }
    ensures kept { OnErr result (out.new.items ≡ out.old.items) }
{
    let mut buffer = Buffer::new();
    out.extend_from_slice(buffer.format(number).as_bytes())?;
    Ok(())
}
