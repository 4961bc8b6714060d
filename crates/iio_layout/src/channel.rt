//! What a channel is, and the text of its ID.

ghost use Rattle.std.specs.Prelude.{◌≡◌, ◌++◌, IfSome, OnOk, OnErr, IfNone, Some};
ghost use Rattle.iio_layout.specs.Id.{FitsSuffix, axis_of, id_of, id_text, kind_text, number_of, starts_number, suffix_after, suffix_of, suffix_text};
ghost use Rattle.iio_layout.specs.declared.channel.Kind.{Kind};
ghost use Rattle.iio_layout.specs.declared.channel.Suffix.{Suffix};

use crate::Mem;
use iio_scan_type::ScanType;
use itoa::Buffer;

/// What a channel measures.
#[derive(Clone, Copy, Debug, PartialEq, Eq)]
pub enum Kind {
    Voltage,
    Current,
    Accel,
    Anglvel,
    Magn,
    Temp,
}

/// What tells channels of one kind apart: nothing, a number, or an axis.
#[derive(Clone, Copy, Debug, PartialEq, Eq)]
pub enum Suffix {
    Bare,
    Number(u16),
    X,
    Y,
    Z,
}

/// Whether a channel's values come from the device or go to it.
#[derive(Clone, Copy, Debug, PartialEq, Eq)]
pub enum Direction {
    Input,
    Output,
}

/// A channel: what it measures, and how its values stand in a scan.
#[derive(Clone, Copy, Debug)]
pub struct Channel {
    pub kind: Kind,
    pub suffix: Suffix,
    pub direction: Direction,
    pub ty: ScanType,
}

impl Kind {
    /// The word that an ID of this kind begins with (kernel ABI, sysfs-bus-iio).
    pub fn word(self) -> &'static str
        ensures { result.now ≡ kind_text self }
    {
        match self {
            Kind::Voltage => "voltage",
            Kind::Current => "current",
            Kind::Accel => "accel",
            Kind::Anglvel => "anglvel",
            Kind::Magn => "magn",
            Kind::Temp => "temp",
        }
    }
}

/// Appends the text of an ID: the word of its kind, followed by nothing, the number without leading zeros, or `_x`, `_y`, `_z`.
/// If memory runs out, nothing is appended.
pub fn write_id(out: &mut Vec<u8>, kind: Kind, suffix: Suffix) -> Result<(), Mem>
    ensures ok { OnOk result (out.new.items ≡ out.old.items ++ id_text kind suffix) }
    ensures err { OnErr result (out.new.items ≡ out.old.items) }
{
    let before = out.len();
    out.extend_from_slice(kind.word().as_bytes())?;
    let written = write_suffix(out, suffix);
    if written.is_err() {
        out.truncate(before);
    }
    written
}

fn write_suffix(out: &mut Vec<u8>, suffix: Suffix) -> Result<(), Mem>
    ensures ok { OnOk result (out.new.items ≡ out.old.items ++ suffix_text suffix) }
    ensures err { OnErr result (out.new.items ≡ out.old.items) }
{
    match suffix {
        Suffix::Bare => {}
        Suffix::Number(number) => {
            let mut buffer = Buffer::new();
            out.extend_from_slice(buffer.format(number).as_bytes())?;
        }
        Suffix::X => out.extend_from_slice(b"_x")?,
        Suffix::Y => out.extend_from_slice(b"_y")?,
        Suffix::Z => out.extend_from_slice(b"_z")?,
    }
    Ok(())
}

/// The ID that a text spells: the word of a kind, followed by nothing, a number from 0 to 65535 without leading zeros, or `_x`,
/// `_y`, `_z`. Returns `None` exactly if the text spells none.
#[inline(always)]
pub fn read_id(text: &[u8]) -> Option<(Kind, Suffix)>
    ensures value { result ≡ id_of text.now }
    ensures spelled { IfSome result (λ id. text.now ≡ id_text id.0 id.1) }
    ensures only { (kind : Kind) (suffix : Suffix) → FitsSuffix suffix → text.now ≡ id_text kind suffix → result ≡ Some (kind, suffix) }
{
    id_among_kinds(text)
}

// The first kind whose word the text begins with, and the suffix after that word.
fn id_among_kinds(text: &[u8]) -> Option<(Kind, Suffix)>
    ensures { result ≡ id_of text.now }
{
    let kinds = [
        Kind::Voltage,
        Kind::Current,
        Kind::Accel,
        Kind::Anglvel,
        Kind::Magn,
        Kind::Temp,
    ];
    for kind in kinds {
        if let Some(suffix) = suffix_after(kind, text) {
            return Some((kind, suffix));
        }
    }
    None
}

// The suffix that follows the word of a kind.
fn suffix_after(kind: Kind, text: &[u8]) -> Option<Suffix>
    ensures { result ≡ suffix_after kind text.now }
{
    let word = kind.word().as_bytes();
    if text.starts_with(word) {
        read_suffix(&text[word.len()..])
    } else {
        None
    }
}

fn read_suffix(text: &[u8]) -> Option<Suffix>
    ensures { result ≡ suffix_of text.now }
{
    match text {
        [] => Some(Suffix::Bare),
        [b'_', axis @ ..] => read_axis(axis),
        _ => Some(Suffix::Number(read_number(text)?)),
    }
}

fn read_axis(text: &[u8]) -> Option<Suffix>
    ensures { result ≡ axis_of text.now }
{
    match text {
        [b'x'] => Some(Suffix::X),
        [b'y'] => Some(Suffix::Y),
        [b'z'] => Some(Suffix::Z),
        _ => None,
    }
}

// Reads a number without leading zeros.
fn read_number(text: &[u8]) -> Option<u16>
    ensures { result ≡ number_of text.now }
{
    if !starts_number(text) {
        return None;
    }
    let mut value: u16 = 0;
    for digit in text {
        if !digit.is_ascii_digit() {
            return None;
        }
        value = value
            .checked_mul(10)?
            .checked_add(u16::from(*digit - b'0'))?;
    }
    Some(value)
}

// Whether there is a first digit, which isn't 0 if there are several.
fn starts_number(text: &[u8]) -> bool
    ensures { result ≡ starts_number text.now }
{
    match text {
        [] => false,
        [_] => true,
        [first, ..] => *first != b'0',
    }
}
