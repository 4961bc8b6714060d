//! What connections are fed.

ghost use Rattle.std.specs.Prelude.{◌≡◌, ◌++◌, OnOk, codes};
ghost use Rattle.std.specs.Fmt.{decimal};
ghost use Rattle.iio_gen.specs.Input.{Appends, close_line, open_line, read_line};

use crate::digits::{push_mask, push_number};
use crate::generator::Generator;
use iio_base::Mem;

const CONNECTIONS: u64 = 4;

// The maximum number of samples in an OPEN.
const SAMPLES: u64 = 8;

// The number of masks of nine channels, without the empty one.
const MASKS: u64 = 511;

// The number of bytes in a READBUF stays below this.
const BYTES: u64 = 400;

// `cC "`
fn begin_feed(out: &mut Vec<u8>, connection: u64) -> Result<(), Mem>
    ensures { OnOk result (out.new.items ≡ out.old.items ++ (codes "c" ++ (decimal connection ++ codes " \""))) }
{
    out.push(b'c')?;
    push_number(out, connection)?;
    out.extend_from_slice(b" \"")?;
    Ok(())
}

// Ends the line that is fed, and the step.
fn end_feed(out: &mut Vec<u8>) -> Result<(), Mem>
    ensures { OnOk result (out.new.items ≡ out.old.items ++ codes "\\n\"\n") }
{
    out.extend_from_slice(b"\\n\"\n")?;
    Ok(())
}

pub(crate) fn push_open(draws: &mut Generator, out: &mut Vec<u8>) -> Result<(), Mem>
    ensures { OnOk result (Appends open_line draws.old.state draws.new.state out.old.items out.new.items) }
{
    let connection = draws.draw(CONNECTIONS);
    let samples = 1 + draws.draw(SAMPLES);
    let bits = 1 + draws.draw(MASKS);
    begin_feed(out, connection)?;
    out.extend_from_slice(b"OPEN dev0 ")?;
    push_number(out, samples)?;
    out.push(b' ')?;
    push_mask(out, bits)?;
    end_feed(out)?;
    Ok(())
}

pub(crate) fn push_close(draws: &mut Generator, out: &mut Vec<u8>) -> Result<(), Mem>
    ensures { OnOk result (Appends close_line draws.old.state draws.new.state out.old.items out.new.items) }
{
    let connection = draws.draw(CONNECTIONS);
    begin_feed(out, connection)?;
    out.extend_from_slice(b"CLOSE dev0")?;
    end_feed(out)?;
    Ok(())
}

pub(crate) fn push_read(draws: &mut Generator, out: &mut Vec<u8>) -> Result<(), Mem>
    ensures { OnOk result (Appends read_line draws.old.state draws.new.state out.old.items out.new.items) }
{
    let connection = draws.draw(CONNECTIONS);
    let bytes = draws.draw(BYTES);
    begin_feed(out, connection)?;
    out.extend_from_slice(b"READBUF dev0 ")?;
    push_number(out, bytes)?;
    end_feed(out)?;
    Ok(())
}
