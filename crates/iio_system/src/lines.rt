//! The lines that steps print, appended to what was printed before.

ghost use Rattle.std.specs.Prelude.{◌≡◌, ◌+◌, ◌++◌, ◌≤◌, [], ◌∷◌, OnOk, codes, length, take};
ghost use Rattle.std.specs.Fmt.{decimal, signed_decimal};
ghost use Rattle.hex.specs.Hex.{encode_lower};
ghost use Rattle.iio_history.specs.Transcript.{printed};
ghost use Rattle.iio_history.specs.Words.{dropped_word, gave_word, handled_word, polled_words, sensed_words, unplugged_word};

use iio_attr::Name;
use iio_base::Mem;
use iio_bench::{put_name, put_word};
use iio_core::Gave;
use iio_device::{Handled, Sensed};
use iio_text::push_hex;
use iio_trigger::Polled;
use itoa::Buffer;

// The size of the room in which a line is put together: two names of 32 bytes and the words besides them.
const ROOM: usize = 96;

// Puts a text at a place, over what is there, and returns where it ends.
#[inline(always)]
fn put(out: &mut Vec<u8>, at: usize, text: &[u8]) -> usize
    requires { at + length text.now ≤ length out.old.items }
    ensures end { result ≡ at + length text.now }
    ensures text { take result out.new.items ≡ take at out.old.items ++ text.now }
    ensures size { length out.new.items ≡ length out.old.items }
{
    out[at..at + text.len()].copy_from_slice(text);
    at + text.len()
}

// Puts a count of more than one digit, and the end of its line.
#[cold]
#[inline(never)]
fn put_long_count(out: &mut Vec<u8>, at: usize, n: u64) -> usize
    requires { at + 21 ≤ length out.old.items }
    ensures end { result ≤ length out.new.items }
    ensures text { take result out.new.items ≡ take at out.old.items ++ decimal n ++ codes "\n" }
    ensures size { length out.new.items ≡ length out.old.items }
{
    let mut buffer = Buffer::new();
    let end = put(out, at, buffer.format(n).as_bytes());
    put(out, end, b"\n")
}

// Puts a count, and the end of its line. Most counts have one digit.
#[inline(always)]
fn put_count(out: &mut Vec<u8>, at: usize, n: u64) -> usize
    requires { at + 21 ≤ length out.old.items }
    ensures end { result ≤ length out.new.items }
    ensures text { take result out.new.items ≡ take at out.old.items ++ decimal n ++ codes "\n" }
    ensures size { length out.new.items ≡ length out.old.items }
{
    if n >= 10 {
        return put_long_count(out, at, n);
    }
    put(out, at, &[b'0' + n as u8, b'\n'])
}

// Appends a word that ends its line.
fn push_last(out: &mut Vec<u8>, word: &[u8]) -> Result<(), Mem>
    ensures { OnOk result (out.new.items ≡ out.old.items ++ printed (word.now ∷ [])) }
{
    out.extend_from_slice(word)?;
    out.push(b'\n')?;
    Ok(())
}

// Puts the line of a poll at a place, and returns where it ends.
#[inline(always)]
fn put_poll(out: &mut Vec<u8>, at: usize, trigger: &Name, polled: Polled) -> usize
    requires { at + ROOM ≤ length out.old.items }
    ensures text { take result out.new.items ≡ take at out.old.items ++ printed (codes "poll" ∷ trigger.now ∷ polled_words polled) }
{
    let at = put_word(out, at, b"poll            ", 5);
    let at = put_name(out, at, trigger);
    match polled {
        Polled::Accepted(entries) => {
            let at = put_word(out, at, b" accepted       ", 10);
            put_count(out, at, u64::from(entries))
        }
        Polled::Missed(missed) => {
            let at = put_word(out, at, b" missed         ", 8);
            put_count(out, at, missed)
        }
    }
}

/// Appends `poll TRIGGER accepted N`, with the number of entries that it made, or `poll TRIGGER missed N`, with the number of
/// polls that were missed.
#[inline(always)]
pub(crate) fn push_poll(out: &mut Vec<u8>, trigger: &Name, polled: Polled) -> Result<(), Mem>
    ensures { OnOk result (out.new.items ≡ out.old.items ++ printed (codes "poll" ∷ trigger.now ∷ polled_words polled)) }
{
    let start = out.len();
    out.resize(start + ROOM, 0)?;
    let end = put_poll(out, start, trigger, polled);
    out.truncate(end);
    Ok(())
}

// Puts the line of an entry that was handled at a place, and returns where it ends.
#[inline(always)]
fn put_handle(
    out: &mut Vec<u8>,
    at: usize,
    trigger: &Name,
    device: &Name,
    handled: Option<Handled>,
) -> usize
    requires { at + ROOM ≤ length out.old.items }
    ensures text { take result out.new.items ≡ take at out.old.items ++ printed (codes "handle" ∷ trigger.now ∷ device.now ∷ handled_word handled ∷ []) }
{
    let at = put_word(out, at, b"handle          ", 7);
    let at = put_name(out, at, trigger);
    let at = put_word(out, at, b"                ", 1);
    let at = put_name(out, at, device);
    match handled {
        None => put_word(out, at, b" none\n          ", 6),
        Some(Handled::Captured(_)) => put_word(out, at, b" captured\n      ", 10),
        Some(Handled::Fault) => put_word(out, at, b" fault\n         ", 7),
        Some(Handled::Idle) => put_word(out, at, b" idle\n          ", 6),
    }
}

/// Appends `handle TRIGGER DEVICE` and what became of the entry.
#[inline(always)]
pub(crate) fn push_handle(
    out: &mut Vec<u8>,
    trigger: &Name,
    device: &Name,
    handled: Option<Handled>,
) -> Result<(), Mem>
    ensures { OnOk result (out.new.items ≡ out.old.items ++ printed (codes "handle" ∷ trigger.now ∷ device.now ∷ handled_word handled ∷ [])) }
{
    let start = out.len();
    out.resize(start + ROOM, 0)?;
    let end = put_handle(out, start, trigger, device, handled);
    out.truncate(end);
    Ok(())
}

// Appends the scan that an output device was given, which ends its line.
fn push_given(out: &mut Vec<u8>, scan: &[u8]) -> Result<(), Mem>
    ensures { OnOk result (out.new.items ≡ out.old.items ++ codes " given " ++ encode_lower scan.now ++ codes "\n") }
{
    out.extend_from_slice(b" given ")?;
    push_hex(out, scan)?;
    out.push(b'\n')?;
    Ok(())
}

/// Appends `handle TRIGGER DEVICE` and what became of an output device's entry: `given HEX`, with the scan, or `underrun`, or
/// `idle`.
#[inline(never)]
pub(crate) fn push_gave(
    out: &mut Vec<u8>,
    trigger: &Name,
    device: &Name,
    gave: Gave,
    scan: &[u8],
) -> Result<(), Mem>
    ensures { OnOk result (out.new.items ≡ out.old.items ++ printed (codes "handle" ∷ trigger.now ∷ device.now ∷ gave_word gave scan.now ∷ [])) }
{
    out.extend_from_slice(b"handle ")?;
    out.extend_from_slice(trigger.bytes())?;
    out.push(b' ')?;
    out.extend_from_slice(device.bytes())?;
    match gave {
        Gave::Given => push_given(out, scan),
        Gave::Underrun => push_last(out, b" underrun"),
        Gave::Idle => push_last(out, b" idle"),
    }
}

// Appends a count that ends its line.
fn push_count(out: &mut Vec<u8>, n: u64) -> Result<(), Mem>
    ensures { OnOk result (out.new.items ≡ out.old.items ++ decimal n ++ codes "\n") }
{
    let mut buffer = Buffer::new();
    push_last(out, buffer.format(n).as_bytes())
}

/// Appends `DEVICE sensed N`, with the number of events that fired, or `DEVICE fault`, or `DEVICE gone`.
pub(crate) fn push_sense(out: &mut Vec<u8>, device: &Name, sensed: Sensed) -> Result<(), Mem>
    ensures { OnOk result (out.new.items ≡ out.old.items ++ printed (device.now ∷ sensed_words sensed)) }
{
    out.extend_from_slice(device.bytes())?;
    match sensed {
        Sensed::Fired(events) => {
            out.extend_from_slice(b" sensed ")?;
            push_count(out, u64::from(events))?;
        }
        Sensed::Fault => out.extend_from_slice(b" fault\n")?,
        Sensed::Gone => out.extend_from_slice(b" gone\n")?,
    }
    Ok(())
}

/// Appends `clock T`.
pub(crate) fn push_clock(out: &mut Vec<u8>, t: i64) -> Result<(), Mem>
    ensures { OnOk result (out.new.items ≡ out.old.items ++ printed (codes "clock" ∷ signed_decimal t ∷ [])) }
{
    let mut buffer = Buffer::new();
    out.extend_from_slice(b"clock ")?;
    push_last(out, buffer.format(t).as_bytes())
}

/// Appends `NAME dropped`, or `NAME closed` if the connection wasn't there any more.
pub(crate) fn push_drop(out: &mut Vec<u8>, name: &[u8], was_live: bool) -> Result<(), Mem>
    ensures { OnOk result (out.new.items ≡ out.old.items ++ printed (name.now ∷ dropped_word was_live ∷ [])) }
{
    out.extend_from_slice(name)?;
    out.push(b' ')?;
    push_last(
        out,
        if was_live {
            b"dropped".as_slice()
        } else {
            b"closed"
        },
    )
}

/// Appends `DEVICE unplugged`, or `DEVICE gone` if the device was already unplugged.
pub(crate) fn push_unplug(out: &mut Vec<u8>, device: &Name, was_plugged: bool) -> Result<(), Mem>
    ensures { OnOk result (out.new.items ≡ out.old.items ++ printed (device.now ∷ unplugged_word was_plugged ∷ [])) }
{
    out.extend_from_slice(device.bytes())?;
    out.push(b' ')?;
    push_last(
        out,
        if was_plugged {
            b"unplugged".as_slice()
        } else {
            b"gone"
        },
    )
}
