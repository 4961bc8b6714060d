//! The commands of triggers: SETTRIG and GETTRIG.

ghost use Rattle.std.specs.Prelude.{◌≡◌, ◌<◌, length, IfOk, IfSome};
ghost use Rattle.std.specs.Option.{option_copied};
ghost use Rattle.iiod_commands.specs.Acts.{get_trigger_at, set_trigger_at, trigger_named};
ghost use Rattle.iiod_commands.specs.Answers.{IsTrigger, reply_of};
ghost use Rattle.iiod_commands.specs.Client.{ClientRecord};
ghost use Rattle.iiod_commands.specs.Performs.{Comes, reply_by};

use crate::answers::Answer;
use crate::iio::{Iio, No};
use crate::wanted::ensure;
use iio_text::Errno;

// Returns the number of the trigger that a SETTRIG names, or none if it names none.
fn named_trigger<I: Iio>(iio: &I, name: Option<&[u8]>) -> Result<Option<u32>, Errno>
    ensures value { result ≡ trigger_named (I.front (I.kept iio.now)) (option_copied name.entry) }
    ensures within { IfOk result (λ trigger. IfSome trigger (λ t. t < length (I.front (I.kept iio.now)).triggers)) }
{
    match name {
        None => Ok(None),
        Some(name) => Ok(Some(iio.find_trigger(name).ok_or(Errno::ENOENT)?)),
    }
}

/// SETTRIG at the device of that number: an averaging device has no trigger of its own.
pub(crate) fn set_trigger_at<I: Iio>(iio: &mut I, dev: u32, name: Option<&[u8]>) -> Result<(), No>
    requires dev { dev < length (I.front (I.kept iio.old)).devices }
    ensures kept { I.kept iio.new ≡ I.kept iio.old }
    ensures told { (client : ClientRecord) → IfSome (I.told iio.old) (λ m. Comes m client
        (set_trigger_at (I.front (I.kept iio.old)) m client (option_copied name.entry) dev) (reply_by result) (I.told iio.new) client) }
{
    ensure(iio.plugged(dev), Errno::ENODEV)?;
    ensure(!iio.is_average(dev), Errno::ENOSYS)?;
    let trigger = named_trigger(iio, name)?;
    iio.set_trigger(dev, trigger)
}

/// GETTRIG at the device of that number: 0 if it has no trigger.
pub(crate) fn get_trigger_at<I: Iio>(iio: &I, dev: u32) -> Result<Answer, No>
    requires { dev < length (I.front (I.kept iio.now)).devices }
    ensures trigger { IsTrigger result }
    ensures told { (client : ClientRecord) → IfSome (I.told iio.now) (λ m. Comes m client
        (get_trigger_at (I.front (I.kept iio.now)) m client dev) (reply_of (I.front (I.kept iio.now)) result) (I.told iio.now) client) }
{
    ensure(iio.plugged(dev), Errno::ENODEV)?;
    match iio.trigger(dev) {
        None => Ok(Answer::Number(0)),
        Some(trigger) => Ok(Answer::Trigger(trigger)),
    }
}
