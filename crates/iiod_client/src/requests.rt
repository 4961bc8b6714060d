//! The lines that a client sends.

ghost use Rattle.std.specs.Prelude.{◌≡◌, ◌^◌, ◌<◌, OnOk};
ghost use Rattle.iio_layout.specs.Shape.{count_of};
ghost use Rattle.iiod_client.specs.Ask.{close_line, exit_line, open_line, readbuf_line, wanted_by};

use crate::ask::Ask;
use crate::printing::push_digits;
use iio_base::Mem;
use std::alloc::Global;

/// `OPEN DEVICE SAMPLES MASK`
pub(crate) fn put_open(alloc: Global, out: &mut Vec<u8>, ask: &Ask<'_>) -> Result<(), Mem>
    requires { ask.now.mask.bits < 2 ^ count_of ask.now.shape.now }
    ensures { OnOk result (out.new.items ≡ open_line (wanted_by ask.now)) }
{
    out.clear();
    out.extend_from_slice(b"OPEN ")?;
    out.extend_from_slice(ask.device)?;
    out.push(b' ')?;
    push_digits(out, ask.samples)?;
    out.push(b' ')?;
    let mask = ask.mask.print(alloc, ask.shape.count())?;
    out.extend_from_slice(mask.as_bytes())?;
    out.push(b'\n')?;
    Ok(())
}

/// `READBUF DEVICE BYTES`
pub(crate) fn put_readbuf(out: &mut Vec<u8>, ask: &Ask<'_>, bytes: u32) -> Result<(), Mem>
    ensures { OnOk result (out.new.items ≡ readbuf_line (wanted_by ask.now) bytes) }
{
    out.clear();
    out.extend_from_slice(b"READBUF ")?;
    out.extend_from_slice(ask.device)?;
    out.push(b' ')?;
    push_digits(out, bytes)?;
    out.push(b'\n')?;
    Ok(())
}

/// `CLOSE DEVICE`
pub(crate) fn put_close(out: &mut Vec<u8>, ask: &Ask<'_>) -> Result<(), Mem>
    ensures { OnOk result (out.new.items ≡ close_line (wanted_by ask.now)) }
{
    out.clear();
    out.extend_from_slice(b"CLOSE ")?;
    out.extend_from_slice(ask.device)?;
    out.push(b'\n')?;
    Ok(())
}

/// `EXIT`
pub(crate) fn put_exit(out: &mut Vec<u8>) -> Result<(), Mem>
    ensures { OnOk result (out.new.items ≡ exit_line) }
{
    out.clear();
    out.extend_from_slice(b"EXIT\n")?;
    Ok(())
}
