//! Sessions over a hub's view of a bank without locks. The contract of each call says here only what a session has to know of
//! it: the bank's front stays, and what a session has open is of that front.

ghost use Rattle.std.specs.Prelude.{◌≡◌, ◌<◌, length, IfOk, ⊤};
ghost use Rattle.iiod_hub.specs.Link.{seen_of};
ghost use Rattle.iiod_commands.specs.Client.{IsClient};

use super::described;
use iio_device::Handled;
use iio_io::ListTicker;
use iio_trigger::Polled;
use iiod_bank::{Bank, OwnBank};
use iiod_hub::{HubLink, HubSeat, tick};
use iiod_session::{Going, Mem, Session};
use std::alloc::Global;
use std::test::Fail;

/// Creates a link to a device that has no member.
pub(crate) fn link_to(alloc: Global) -> Result<HubLink<OwnBank>, Fail>
    ensures { IfOk result (λ link. 0 < length (⟦<OwnBank as Bank>⟧.front link.bank).devices) }
{
    let bank = OwnBank::new(alloc, described(alloc)?, Vec::new(alloc))?;
    if bank.front().count() == 0 {
        return Err(Fail::from("no device"));
    }
    Ok(HubLink { bank, alloc })
}

/// Feeds bytes to a session.
pub(crate) fn hear(
    alloc: Global,
    session: &mut Session<HubSeat>,
    link: &mut HubLink<OwnBank>,
    bytes: &[u8],
    said: &mut Vec<u8>,
) -> Result<Going, Mem>
    requires { IsClient seen_of (⟦<OwnBank as Bank>⟧.front link.old.bank) session.old.client }
    ensures client { IsClient seen_of (⟦<OwnBank as Bank>⟧.front link.new.bank) session.new.client }
    ensures front { ⟦<OwnBank as Bank>⟧.front link.new.bank ≡ ⟦<OwnBank as Bank>⟧.front link.old.bank }
{
    session.feed(alloc, link, bytes, said)
}

/// Polls the trigger.
pub(crate) fn poll(link: &mut HubLink<OwnBank>, t: i64) -> Polled
    requires { ⊤ }
    ensures { ⟦<OwnBank as Bank>⟧.front link.new.bank ≡ ⟦<OwnBank as Bank>⟧.front link.old.bank }
{
    link.poll(0, t)
}

/// Polls the trigger at a ticker's next moment, if there is one.
pub(crate) fn tick_once(link: &mut HubLink<OwnBank>, ticker: &mut ListTicker) -> bool
    requires { ⊤ }
    ensures { ⟦<OwnBank as Bank>⟧.front link.new.bank ≡ ⟦<OwnBank as Bank>⟧.front link.old.bank }
{
    tick(link, 0, ticker)
}

/// Handles the device's entry.
pub(crate) fn handle(link: &mut HubLink<OwnBank>) -> Option<Handled>
    requires { 0 < length (⟦<OwnBank as Bank>⟧.front link.old.bank).devices }
    ensures { ⟦<OwnBank as Bank>⟧.front link.new.bank ≡ ⟦<OwnBank as Bank>⟧.front link.old.bank }
{
    link.handle(0, 0)
}

/// Unplugs the device.
pub(crate) fn unplug(link: &mut HubLink<OwnBank>) -> bool
    requires { 0 < length (⟦<OwnBank as Bank>⟧.front link.old.bank).devices }
    ensures { ⟦<OwnBank as Bank>⟧.front link.new.bank ≡ ⟦<OwnBank as Bank>⟧.front link.old.bank }
{
    link.unplug(0)
}
