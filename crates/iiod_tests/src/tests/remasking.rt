//! REMASK by a server's session over a hub's view of a bank, with polls and handlings in between.

ghost use Rattle.std.specs.Prelude.{◌≡◌, ◌<◌, length, ⊤};
ghost use Rattle.iiod_hub.specs.Link.{seen_of};
ghost use Rattle.iiod_commands.specs.Client.{IsClient};

use super::sessions::{handle, hear, link_to, poll};
use iiod_bank::{Bank, OwnBank};
use iiod_hub::{HubLink, HubSeat};
use iiod_session::{Going, Manner, Mem, Session};
use std::alloc::Global;
use std::test::Fail;

// Polls the trigger and makes a capture.
fn fire(link: &mut HubLink<OwnBank>, t: i64)
    requires { 0 < length (⟦<OwnBank as Bank>⟧.front link.old.bank).devices }
    ensures { ⟦<OwnBank as Bank>⟧.front link.new.bank ≡ ⟦<OwnBank as Bank>⟧.front link.old.bank }
{
    poll(link, t);
    handle(link);
}

// Sends a REMASK from another connection, which has no seat and so no mask to change.
fn hear_another(alloc: Global, link: &mut HubLink<OwnBank>, said: &mut Vec<u8>) -> Result<(), Mem>
    requires { ⊤ }
    ensures { ⟦<OwnBank as Bank>⟧.front link.new.bank ≡ ⟦<OwnBank as Bank>⟧.front link.old.bank }
{
    let mut other = Session::new(alloc, 2, Manner::Server)?;
    let heard = hear(alloc, &mut other, link, b"REMASK adc0 00000001\n", said);
    other.end(link);
    heard?;
    Ok(())
}

// Feeds a session, with captures in between, and returns how it stands at the end.
fn exchange(
    alloc: Global,
    session: &mut Session<HubSeat>,
    link: &mut HubLink<OwnBank>,
    said: &mut Vec<u8>,
) -> Result<Going, Mem>
    requires client { IsClient seen_of (⟦<OwnBank as Bank>⟧.front link.old.bank) session.old.client }
    requires device { 0 < length (⟦<OwnBank as Bank>⟧.front link.old.bank).devices }
    ensures { IsClient seen_of (⟦<OwnBank as Bank>⟧.front link.new.bank) session.new.client }
{
    hear(alloc, session, link, b"OPEN adc0 1 00000005\n", said)?;
    fire(link, 1000);
    fire(link, 2000);
    hear(
        alloc,
        session,
        link,
        b"REMASK adc0 00000002\nREAD adc0 BUFFER overruns\nREAD adc0 BUFFER discarded\n",
        said,
    )?;
    fire(link, 3000);
    hear(
        alloc,
        session,
        link,
        b"READBUF adc0 2\nREMASK adc0 00000008\nREAD adc0 BUFFER discarded\n",
        said,
    )?;
    hear_another(alloc, link, said)?;
    hear(alloc, session, link, b"READBUF adc0 2\n", said)
}

// The answers are those of a script: the scans that waited are discarded, and the next scan is one of the new mask. A READBUF
// that finds nothing then waits.
#[test]
fn remask_discards(rt: HostRuntime) -> Result<(), Fail> {
    let alloc = rt.alloc();
    let mut link = link_to(alloc)?;
    let mut said = Vec::new(alloc);
    let mut session = Session::new(alloc, 1, Manner::Server)?;
    let waits = exchange(alloc, &mut session, &mut link, &mut said);
    session.end(&mut link);
    assert_eq!(rt; waits?, Going::Waits(0));
    assert_eq!(rt;
        said.as_slice(),
        b"0\n0\n1\n0\n1\n2\n2\n00000002\n\x20\0-22\n1\n2\n-9\n".as_slice()
    );
    Ok(())
}
