//! The commands of threshold events: EVOPEN, EVREAD and EVCLOSE.

ghost use Rattle.std.specs.Prelude.{◌≡◌, ◌==◌, ◌<◌, length, filter, not, IfSome};
ghost use Rattle.iiod_commands.specs.Acts.{ev_close_at, ev_open_at, ev_read_at};
ghost use Rattle.iiod_commands.specs.Answers.{IsEvent, reply_of};
ghost use Rattle.iiod_commands.specs.Client.{IsClient, client_of, with_holding, without_holding};
ghost use Rattle.iiod_commands.specs.Performs.{Comes, client_by, reply_by};

use crate::answers::Answer;
use crate::client::Client;
use crate::iio::{Iio, No};
use crate::kinds::{is_input, unknown_refusal};
use crate::wanted::ensure;
use iio_text::Errno;

/// EVOPEN at the device of that number, of any kind: only input devices have events. The room for the holding is taken first.
pub(crate) fn ev_open_known<I: Iio>(
    client: &mut Client<I::Seat>,
    iio: &mut I,
    dev: u32,
) -> Result<(), No>
    requires dev { dev < length (I.front (I.kept iio.old)).devices }
    requires client { IsClient I.seen (I.front (I.kept iio.old)) client.old }
    ensures kept { I.kept iio.new ≡ I.kept iio.old }
    ensures client { IsClient I.seen (I.front (I.kept iio.new)) client.new }
    ensures told { IfSome (I.told iio.old) (λ m. Comes m (client_of I.seen client.old)
        (ev_open_at (I.front (I.kept iio.old)) m (client_of I.seen client.old) dev) (reply_by result) (I.told iio.new) (client_of I.seen client.new)) }
    ensures alters { client_of I.seen client.new ≡ client_by (with_holding dev) (client_of I.seen client.old) result }
    ensures held { client.new.held ≡ client.old.held }
{
    if !is_input(iio, dev) {
        return Err(No::Errno(unknown_refusal(iio, dev)));
    }
    client.holdings.reserve(1)?;
    iio.ev_open(dev, client.who)?;
    client.holdings.push_reserved(dev);
    Ok(())
}

// Removes a device from those whose events the connection holds.
fn forget_holding(holdings: &mut Vec<u32>, dev: u32)
    ensures { holdings.new.items ≡ filter (λ d. not (d == dev)) holdings.old.items }
{
    holdings.retain(|d| *d != dev);
}

/// EVCLOSE at the device of that number, of any kind: only input devices have events.
pub(crate) fn ev_close_known<I: Iio>(
    client: &mut Client<I::Seat>,
    iio: &mut I,
    dev: u32,
) -> Result<(), No>
    requires dev { dev < length (I.front (I.kept iio.old)).devices }
    requires client { IsClient I.seen (I.front (I.kept iio.old)) client.old }
    ensures kept { I.kept iio.new ≡ I.kept iio.old }
    ensures client { IsClient I.seen (I.front (I.kept iio.new)) client.new }
    ensures told { IfSome (I.told iio.old) (λ m. Comes m (client_of I.seen client.old)
        (ev_close_at (I.front (I.kept iio.old)) m (client_of I.seen client.old) dev) (reply_by result) (I.told iio.new) (client_of I.seen client.new)) }
    ensures alters { client_of I.seen client.new ≡ client_by (without_holding dev) (client_of I.seen client.old) result }
    ensures held { client.new.held ≡ client.old.held }
{
    if !is_input(iio, dev) {
        return Err(No::Errno(unknown_refusal(iio, dev)));
    }
    ensure(iio.plugged(dev), Errno::ENODEV)?;
    iio.ev_close(dev, client.who)?;
    forget_holding(&mut client.holdings, dev);
    Ok(())
}

/// EVREAD at the device of that number, of any kind.
pub(crate) fn ev_read_known<I: Iio>(
    client: &Client<I::Seat>,
    iio: &mut I,
    dev: u32,
) -> Result<Answer, No>
    requires dev { dev < length (I.front (I.kept iio.old)).devices }
    ensures kept { I.kept iio.new ≡ I.kept iio.old }
    ensures event { IsEvent result }
    ensures told { IfSome (I.told iio.old) (λ m. Comes m (client_of I.seen client.now)
        (ev_read_at (I.front (I.kept iio.old)) m (client_of I.seen client.now) dev)
        (reply_of (I.front (I.kept iio.old)) result) (I.told iio.new) (client_of I.seen client.now)) }
{
    if !is_input(iio, dev) {
        return Err(No::Errno(unknown_refusal(iio, dev)));
    }
    match iio.ev_read(dev, client.who)? {
        Some(event) => Ok(Answer::Event(event)),
        None => Err(No::Errno(Errno::EAGAIN)),
    }
}
