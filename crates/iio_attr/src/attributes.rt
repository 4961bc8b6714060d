//! The attributes, and the texts that may be written to them.

ghost use Rattle.std.specs.Prelude.{◌≡◌, ◌↔◌, false, Ok, Err, IfOk, IfSome};
ghost use Rattle.iio_text.specs.Fixed.{IsFixed};
ghost use Rattle.iio_attr.specs.Attributes.{access_of, find_of, first_value, is_writable, switched, check_of};
ghost use Rattle.iio_attr.specs.Table.{is_row, find_row};

use Access::{ReadOnly, Stored, Switch};
use Scope::{Buffer, Channel, Device};
use iio_text::{Errno, Fixed, Form, is_word, read_fixed};

/// What an attribute belongs to.
#[derive(Clone, Copy, Debug)]
pub enum Scope {
    /// The device.
    Device,
    /// One of its channels.
    Channel,
    /// The buffer of a connection that has the device open.
    Buffer,
}

/// An attribute. The names are those of the kernel's sysfs-bus-iio, except for `Overruns`, `Discarded` and `Underruns`.
#[derive(Clone, Copy, Debug, PartialEq, Eq)]
pub enum Attr {
    /// The device's name.
    Name,
    /// How often the device samples; only stored.
    SamplingFrequency,
    /// A sample of the channel.
    Raw,
    /// What the sensor adds to each sample.
    Calibbias,
    /// What a sample is to be multiplied by; only stored.
    Scale,
    /// What is to be added to a sample first; only stored.
    Offset,
    /// What the sensor multiplies by; only stored.
    Calibscale,
    /// The threshold of rising values.
    ThreshRisingValue,
    /// The threshold of falling values.
    ThreshFallingValue,
    /// Whether rising values fire events.
    ThreshRisingEn,
    /// Whether falling values fire events.
    ThreshFallingEn,
    /// How many scans a full buffer refused.
    Overruns,
    /// How many scans wait.
    DataAvailable,
    /// How many scans the buffer has room for.
    Length,
    /// How many scans were discarded by exchanges of the mask.
    Discarded,
    /// How often an output device was due and no scan waited for it.
    Underruns,
}

/// What may be written to an attribute.
#[derive(Clone, Copy, PartialEq, Eq)]
enum Access {
    /// Nothing.
    ReadOnly,
    /// A value of the form, at first that whole number.
    Stored(Form, u32),
    /// 0 or 1, at first 0.
    Switch,
}

/// An attribute, its scope, its name, and what may be written to it.
#[derive(Clone, Copy)]
struct Row(Attr, Scope, &'static [u8], Access);

// The attributes, in the order of `Attr`.
static TABLE: [Row; 16] = [
    Row(Attr::Name, Device, b"name", ReadOnly),
    Row(
        Attr::SamplingFrequency,
        Device,
        b"sampling_frequency",
        Stored(Form::Int, 1),
    ),
    Row(Attr::Raw, Channel, b"raw", ReadOnly),
    Row(Attr::Calibbias, Channel, b"calibbias", Stored(Form::Int, 0)),
    Row(Attr::Scale, Channel, b"scale", Stored(Form::Micro, 1)),
    Row(Attr::Offset, Channel, b"offset", Stored(Form::Int, 0)),
    Row(
        Attr::Calibscale,
        Channel,
        b"calibscale",
        Stored(Form::Nano, 1),
    ),
    Row(
        Attr::ThreshRisingValue,
        Channel,
        b"thresh_rising_value",
        Stored(Form::Int, 0),
    ),
    Row(
        Attr::ThreshFallingValue,
        Channel,
        b"thresh_falling_value",
        Stored(Form::Int, 0),
    ),
    Row(Attr::ThreshRisingEn, Channel, b"thresh_rising_en", Switch),
    Row(Attr::ThreshFallingEn, Channel, b"thresh_falling_en", Switch),
    Row(Attr::Overruns, Buffer, b"overruns", ReadOnly),
    Row(Attr::DataAvailable, Buffer, b"data_available", ReadOnly),
    Row(Attr::Length, Buffer, b"length", ReadOnly),
    Row(Attr::Discarded, Buffer, b"discarded", ReadOnly),
    Row(Attr::Underruns, Buffer, b"underruns", ReadOnly),
];

// Whether a row is the one of that name in that scope.
fn is_row(row: &Row, scope: Scope, name: &[u8]) -> bool
    ensures { result ≡ is_row row.now scope name.now }
{
    row.1 == scope && is_word(name, row.2)
}

// The attribute of the first row of that name in that scope.
fn find_in(rows: &[Row], scope: Scope, name: &[u8]) -> Option<Attr>
    ensures { result ≡ find_row rows.now scope name.now }
{
    for row in rows {
        if is_row(row, scope, name) {
            return Some(row.0);
        }
    }
    None
}

// What may be written to an attribute.
fn access_of(attr: Attr) -> Access
    ensures { result ≡ access_of attr }
{
    TABLE[attr as usize].3
}

/// The attribute of that name in that scope. Returns `None` exactly if the scope has none.
pub fn find(scope: Scope, name: &[u8]) -> Option<Attr>
    ensures { result ≡ find_of scope name.now }
{
    find_in(&TABLE, scope, name)
}

/// Whether anything may be written to the attribute.
pub fn writable(attr: Attr) -> bool
    ensures { result ≡ is_writable attr }
{
    access_of(attr) != Access::ReadOnly
}

/// The value that a device or a channel has before any was written. Returns `None` for an attribute that can't be written.
pub fn first_value(attr: Attr) -> Option<Fixed>
    ensures value { result ≡ first_value attr }
    ensures sound { IfSome result IsFixed }
{
    let (form, whole) = match access_of(attr) {
        Access::ReadOnly => return None,
        Access::Stored(form, whole) => (form, whole),
        Access::Switch => (Form::Int, 0),
    };
    Some(Fixed {
        negative: false,
        whole,
        part: 0,
        form,
    })
}

// The value if it is 0 or 1, otherwise `EINVAL`.
fn switched(value: Fixed) -> Result<Fixed, Errno>
    ensures { result ≡ switched (Ok value) }
{
    if value.negative || value.whole > 1 {
        return Err(Errno::EINVAL);
    }
    Ok(value)
}

/// Returns the value that a text writes to the attribute. `EACCES` if nothing may be written to it, then `EINVAL` and `ERANGE`
/// as from [`read_fixed`], last `EINVAL` if a switch is to be neither 0 nor 1.
pub fn check(attr: Attr, text: &[u8]) -> Result<Fixed, Errno>
    ensures value { result ≡ check_of attr text.now }
    ensures sound { IfOk result IsFixed }
    ensures read_only { (result ≡ Err Errno.EACCES) ↔ (is_writable attr ≡ false) }
{
    match access_of(attr) {
        Access::ReadOnly => Err(Errno::EACCES),
        Access::Stored(form, _) => read_fixed(text, form),
        Access::Switch => switched(read_fixed(text, Form::Int)?),
    }
}
