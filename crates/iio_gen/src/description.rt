//! The description of the device.

ghost use Rattle.std.specs.Prelude.{◌≡◌, ◌<◌, [], OnOk, slice_index_or};
ghost use Rattle.iio_gen.specs.Input.{Appends, channel_line, description, row_line, several, types, value_word};

use crate::digits::push_number;
use crate::generator::Generator;
use iio_base::Mem;

const CHANNELS: u64 = 8;

const ROWS: u64 = 64;

// The number of types that are drawn from.
const TYPES: u64 = 6;

// A value stays below this.
const VALUES: u64 = 4096;

// The time between two rows, in units of a moment.
const ROW_TIME: u64 = 1000;

fn type_text(kind: u64) -> &'static [u8]
    requires { kind < TYPES }
    ensures { result.now ≡ slice_index_or types kind [] }
{
    match kind {
        0 => b"le:u12/16>>4",
        1 => b"be:s16/16>>0",
        2 => b"le:u8/8>>0",
        3 => b"be:s24/32>>8",
        4 => b"le:s64/64>>0",
        _ => b"be:u32/32>>0",
    }
}

// `channel voltageI TYPE`
fn push_channel(draws: &mut Generator, i: u64, out: &mut Vec<u8>) -> Result<(), Mem>
    ensures { OnOk result (Appends (channel_line i) draws.old.state draws.new.state out.old.items out.new.items) }
{
    let kind = draws.draw(TYPES);
    out.extend_from_slice(b"channel voltage")?;
    push_number(out, i)?;
    out.push(b' ')?;
    out.extend_from_slice(type_text(kind))?;
    out.push(b'\n')?;
    Ok(())
}

fn push_channels(draws: &mut Generator, out: &mut Vec<u8>) -> Result<(), Mem>
    ensures { OnOk result (Appends (several channel_line CHANNELS) draws.old.state draws.new.state out.old.items out.new.items) }
{
    for i in 0..CHANNELS {
        push_channel(draws, i, out)?;
    }
    Ok(())
}

// A value of a row, after a space.
fn push_value(draws: &mut Generator, channel: u64, out: &mut Vec<u8>) -> Result<(), Mem>
    ensures { OnOk result (Appends (value_word channel) draws.old.state draws.new.state out.old.items out.new.items) }
{
    let value = draws.draw(VALUES);
    out.push(b' ')?;
    push_number(out, value)
}

fn push_values(draws: &mut Generator, out: &mut Vec<u8>) -> Result<(), Mem>
    ensures { OnOk result (Appends (several value_word CHANNELS) draws.old.state draws.new.state out.old.items out.new.items) }
{
    for channel in 0..CHANNELS {
        push_value(draws, channel, out)?;
    }
    Ok(())
}

// `row T v ..`
fn push_row(draws: &mut Generator, i: u64, out: &mut Vec<u8>) -> Result<(), Mem>
    requires { i < ROWS }
    ensures { OnOk result (Appends (row_line i) draws.old.state draws.new.state out.old.items out.new.items) }
{
    out.extend_from_slice(b"row ")?;
    push_number(out, ROW_TIME * i)?;
    push_values(draws, out)?;
    out.push(b'\n')?;
    Ok(())
}

fn push_rows(draws: &mut Generator, out: &mut Vec<u8>) -> Result<(), Mem>
    ensures { OnOk result (Appends (several row_line ROWS) draws.old.state draws.new.state out.old.items out.new.items) }
{
    for i in 0..ROWS {
        push_row(draws, i, out)?;
    }
    Ok(())
}

pub(crate) fn push_description(draws: &mut Generator, out: &mut Vec<u8>) -> Result<(), Mem>
    ensures { OnOk result (Appends description draws.old.state draws.new.state out.old.items out.new.items) }
{
    out.extend_from_slice(b"trigger t0 2\ndevice dev0 t0\n")?;
    push_channels(draws, out)?;
    out.extend_from_slice(b"timestamp\n")?;
    push_rows(draws, out)?;
    out.extend_from_slice(b"%%\n")?;
    Ok(())
}
