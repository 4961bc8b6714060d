//! The kinds of devices, as an `Iio` reports them.

ghost use Rattle.std.specs.Prelude.{◌≡◌, ◌⊎◌, ◌<◌, length, false, IfSome};
ghost use Rattle.iio_text.specs.declared.errors.Errno.{Errno};
ghost use Rattle.iio_desc.specs.Kind.{is_input};
ghost use Rattle.iiod_commands.specs.Acts.{Acted, where_known};
ghost use Rattle.iiod_commands.specs.Client.{ClientRecord};
ghost use Rattle.iio_core.specs.Front.{kind_at};
ghost use Rattle.iiod_commands.specs.Kinds.{kind_code};
ghost use Rattle.iiod_reply.specs.Reply.{Refusal};
ghost use Rattle.iiod_commands.specs.Performs.{Comes};

use crate::iio::Iio;
use iio_text::Errno;

/// The kind of a device.
#[derive(Clone, Copy, PartialEq, Eq)]
pub(crate) enum Kind {
    /// Its sensor is asked.
    Input,
    /// It is given what its one member writes.
    Output,
    /// It makes means of the captures of another device.
    Average,
}

/// Returns the kind of a device.
pub(crate) fn kind_of<I: Iio>(iio: &I, dev: u32) -> Kind
    requires { dev < length (I.front (I.kept iio.now)).devices }
    ensures { result ≡ kind_code (kind_at (I.front (I.kept iio.now)) dev) }
{
    if iio.is_output(dev) {
        Kind::Output
    } else if iio.is_average(dev) {
        Kind::Average
    } else {
        Kind::Input
    }
}

/// Whether a device is an input device.
pub(crate) fn is_input<I: Iio>(iio: &I, dev: u32) -> bool
    requires { dev < length (I.front (I.kept iio.now)).devices }
    ensures { result ≡ is_input (kind_at (I.front (I.kept iio.now)) dev) }
{
    matches!(kind_of(iio, dev), Kind::Input)
}

/// Returns the error for a command that the kind of the device doesn't have.
pub(crate) fn unknown_refusal<I: Iio>(iio: &I, dev: u32) -> Errno
    requires { dev < length (I.front (I.kept iio.now)).devices }
    ensures one { (result ≡ Errno.ENODEV) ⊎ (result ≡ Errno.ENOSYS) }
    ensures told { (client : ClientRecord) (acted : Acted) → IfSome (I.told iio.now) (λ m. Comes m client (where_known false m client dev acted)
        (Refusal result) (I.told iio.now) client) }
{
    if iio.plugged(dev) {
        Errno::ENOSYS
    } else {
        Errno::ENODEV
    }
}
