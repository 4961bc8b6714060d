//! Bytes that are appended to a text.

ghost use Rattle.std.specs.Prelude.{◌≡◌, ◌+◌, ◌≤◌, ◌++◌, length, vec_capacity, OnOk};
ghost use Rattle.hex.specs.Hex.{encode_lower};

use iio_base::Mem;

// The most bytes that are appended one by one: a call that copies so few would cost more than they do.
const FEW: usize = 4;

/// Appends bytes to `out`, which has room for them.
#[inline(always)]
pub fn append_reserved(bytes: &[u8], out: &mut Vec<u8>)
    requires { length out.old.items + length bytes.now ≤ vec_capacity out.old }
    ensures items { out.new.items ≡ out.old.items ++ bytes.now }
    ensures room { vec_capacity out.old ≤ vec_capacity out.new }
{
    if bytes.len() <= FEW {
        append_each(bytes, out);
    } else {
        let _ = out.extend_from_slice(bytes);
    }
}

// Appends bytes one by one to `out`, which has room for them.
#[inline(always)]
fn append_each(bytes: &[u8], out: &mut Vec<u8>)
    requires { length out.old.items + length bytes.now ≤ vec_capacity out.old }
    ensures items { out.new.items ≡ out.old.items ++ bytes.now }
    ensures room { vec_capacity out.old ≤ vec_capacity out.new }
{
    for byte in bytes {
        out.push_reserved(*byte);
    }
}

/// Appends bytes as two lower-case hexadecimal digits each.
pub fn push_hex(out: &mut Vec<u8>, bytes: &[u8]) -> Result<(), Mem>
    ensures { OnOk result (out.new.items ≡ out.old.items ++ encode_lower bytes.now) }
{
    out.reserve(2 * bytes.len())?;
    for byte in bytes {
        let mut pair = [0; 2];
        hex::encode_to_slice([*byte], &mut pair).unwrap();
        append_reserved(&pair, out);
    }
    Ok(())
}
