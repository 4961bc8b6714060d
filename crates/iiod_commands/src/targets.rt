//! What READ and WRITE name at a device.

ghost use Rattle.std.specs.Prelude.{◌≡◌};
ghost use Rattle.iio_desc.specs.Kind as desc;
ghost use Rattle.std.specs.Option.{option_copied};
ghost use Rattle.iiod_grammar.specs.View.{place_view};
ghost use Rattle.iiod_commands.specs.Attributes.{channel_word, found, has_attribute, is_of_buffer, named_at, write_found};
ghost use Rattle.iiod_commands.specs.Kinds.{kind_code};
ghost use Rattle.iiod_commands.specs.Targets.{assignment_view, named_at_channel, named_in, named_view};

use crate::kinds::Kind;
use crate::wanted::ensure;
use iio_attr::{Attr, Scope, check, find};
use iio_layout::Shape;
use iio_text::{Errno, Fixed};
use iiod_grammar::Place;

/// An attribute of a device, or of its channel of that number.
#[derive(Clone, Copy)]
pub(crate) struct Named {
    pub(crate) channel: Option<u32>,
    pub(crate) attribute: Attr,
}

/// A WRITE: the attribute that is set, and its value.
#[derive(Clone, Copy)]
pub(crate) struct Assignment {
    pub(crate) target: Named,
    pub(crate) value: Fixed,
}

// Whether a device of that kind has the attribute.
fn has_attribute(kind: Kind, attribute: Attr) -> bool
    ensures { (k : desc.Kind) → kind ≡ kind_code k → result ≡ has_attribute k attribute }
{
    match kind {
        Kind::Input => attribute != Attr::Underruns,
        Kind::Output => matches!(
            attribute,
            Attr::Name | Attr::Raw | Attr::DataAvailable | Attr::Length | Attr::Underruns
        ),
        Kind::Average => matches!(
            attribute,
            Attr::Name | Attr::Overruns | Attr::DataAvailable | Attr::Length | Attr::Discarded
        ),
    }
}

// Returns the attribute of that name in a scope, of the device or of a channel.
fn named_in(kind: Kind, scope: Scope, channel: Option<u32>, name: &[u8]) -> Result<Named, Errno>
    ensures { (k : desc.Kind) → kind ≡ kind_code k → named_view result ≡ named_in k scope channel name.now }
{
    let attribute = find(scope, name).ok_or(Errno::ENOENT)?;
    ensure(has_attribute(kind, attribute), Errno::ENOENT)?;
    Ok(Named { channel, attribute })
}

// Returns an attribute of the channel with that ID.
fn named_at_channel(kind: Kind, shape: &Shape, id: &[u8], name: &[u8]) -> Result<Named, Errno>
    ensures { (k : desc.Kind) → kind ≡ kind_code k → named_view result ≡ named_at_channel k shape.now id.now name.now }
{
    let channel = shape.find(id).ok_or(Errno::ENOENT)?;
    named_in(kind, Scope::Channel, Some(channel), name)
}

// Returns the ID of the channel that a place names, if a device of that kind has channels.
fn channel_word<'a>(kind: Kind, place: Place<'a>) -> Option<&'a [u8]>
    ensures { (k : desc.Kind) → kind ≡ kind_code k → option_copied result ≡ channel_word k (place_view place.entry) }
{
    match (kind, place) {
        (Kind::Input, Place::Input(id)) => Some(id),
        (Kind::Output, Place::Output(id)) => Some(id),
        _ => None,
    }
}

// Returns the attribute at a place. `ENOSYS` if no attribute is named, then `ENOENT` if there is none of that name.
fn named_at(
    kind: Kind,
    shape: &Shape,
    place: Place<'_>,
    name: Option<&[u8]>,
) -> Result<Named, Errno>
    ensures { (k : desc.Kind) → kind ≡ kind_code k → named_view result ≡ named_at k shape.now (place_view place.entry) (option_copied name.entry) }
{
    let Some(name) = name else {
        return Err(Errno::ENOSYS);
    };
    match place {
        Place::Device => named_in(kind, Scope::Device, None, name),
        Place::Buffer => named_in(kind, Scope::Buffer, None, name),
        Place::Debug | Place::Input(_) | Place::Output(_) => match channel_word(kind, place) {
            None => Err(Errno::ENOENT),
            Some(id) => named_at_channel(kind, shape, id, name),
        },
    }
}

/// Whether a buffer's attribute is named.
pub(crate) fn is_of_buffer(place: Place<'_>, name: Option<&[u8]>) -> bool
    ensures { result ≡ is_of_buffer (place_view place.entry) (option_copied name.entry) }
{
    match place {
        Place::Buffer => name.is_some(),
        Place::Device | Place::Debug | Place::Input(_) | Place::Output(_) => false,
    }
}

/// Returns the attribute that READ names. `ENODEV` if the device is unplugged, then `EBADF` if a buffer's attribute is named
/// and the connection doesn't have the device open; if it does, a buffer's attribute is found even if the device is unplugged.
#[inline(always)]
pub(crate) fn found(
    kind: Kind,
    shape: &Shape,
    is_plugged: bool,
    is_open: bool,
    place: Place<'_>,
    name: Option<&[u8]>,
) -> Result<Named, Errno>
    ensures { (k : desc.Kind) → kind ≡ kind_code k
        → named_view result ≡ found k shape.now is_plugged is_open (place_view place.entry) (option_copied name.entry) }
{
    let of_buffer = is_of_buffer(place, name);
    if !(of_buffer && is_open) {
        ensure(is_plugged, Errno::ENODEV)?;
        ensure(!of_buffer, Errno::EBADF)?;
    }
    named_at(kind, shape, place, name)
}

/// Returns the attribute that WRITE sets, and its value. `ENODEV` if the device is unplugged, then the refusals of [`found`],
/// then those of [`check`].
#[inline(always)]
pub(crate) fn write_found(
    kind: Kind,
    shape: &Shape,
    is_plugged: bool,
    is_open: bool,
    place: Place<'_>,
    name: Option<&[u8]>,
    payload: &[u8],
) -> Result<Assignment, Errno>
    ensures { (k : desc.Kind) → kind ≡ kind_code k
        → assignment_view result ≡ write_found k shape.now is_plugged is_open (place_view place.entry) (option_copied name.entry) payload.now }
{
    ensure(is_plugged, Errno::ENODEV)?;
    let target = found(kind, shape, is_plugged, is_open, place, name)?;
    let value = check(target.attribute, payload)?;
    Ok(Assignment { target, value })
}
