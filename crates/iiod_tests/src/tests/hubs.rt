//! Hubs: a usual session, a lost one, and a bank without locks.

ghost use Rattle.std.specs.Prelude.{◌+◌, ◌<◌, ◌≤◌, length, vec_capacity, IfOk};
ghost use Rattle.iio_desc.specs.WellFormed.{IsWellFormed};
ghost use Rattle.iiod_hub.specs.Link.{seen_of};
ghost use Rattle.iiod_commands.specs.Client.{IsClient};

use super::doubles::Texts;
use super::sessions::{handle, hear, link_to, poll, tick_once, unplug};
use super::{desc_of, end_of, hub_of, link_of};
use iio_desc::Desc;
use iio_device::Handled;
use iio_io::ListTicker;
use iio_kfifo::Ended;
use iio_layout::{has_data, scan_size};
use iio_mask::Mask;
use iio_text::Errno;
use iio_trigger::Polled;
use iiod_bank::{Bank, OwnBank};
use iiod_hub::{Hub, HubLink, HubSeat, ReadEnd, SessionEnd};
use iiod_session::{Going, Manner, Mem, No, Session};
use std::alloc::Global;
use std::process::Abort;
use std::sync::Wait;
use std::test::Fail;

const FIRST: &[u8] =
    b"VERSION\x0d\nZPRINT\x0d\nPRINT\x0d\nTIMEOUT 2500\x0d\nOPEN adc0 256 00000005\x0d\n";

const SECOND: &[u8] = b"READBUF adc0 1024\x0d\nCLOSE adc0\x0d\nEXIT\x0d\n";

const ANSWERS: &[u8] =
    b"0.25.iiosim0\n-22\n10\n<context/>\n0\n0\n8\n00000005\n\x10\x00\xff\xfd\x10\x00\xff\xfd0\n0\n";

// Runs a session whose texts come one after another, at a hub whose trigger is fired twice before the text of number
// `fires_at`. Returns how it ends, and what is answered.
fn session_of<'a, R: Wait>(
    rt: &'a R,
    alloc: Global,
    hub: &'a Hub,
    texts: &'a [&'a [u8]],
    fires_at: usize,
) -> Result<(SessionEnd, Vec<u8>), Fail> {
    let mut link = Texts {
        rt,
        alloc,
        hub,
        texts,
        fires_at,
        next: 0,
        sent: link_of(alloc, b"")?,
    };
    let end = end_of(rt, alloc, hub, 1, &mut link);
    Ok((end, link.sent.sent().to_vec(alloc)?))
}

// A usual session whose trigger is fired between its two texts, each of which comes in two pieces.
#[test]
fn usual_session_in_any_pieces(rt: HostRuntime) -> Result<(), Fail> {
    for cut in 1..FIRST.len() {
        let (a, b) = FIRST.split_at(cut);
        let (c, d) = SECOND.split_at(cut.min(SECOND.len() - 1));
        let hub = hub_of(rt.alloc())?;
        let (end, answers) = session_of(&rt, rt.alloc(), &hub, &[a, b, c, d], 2)?;
        let right = end == SessionEnd::Ended && answers.as_slice() == ANSWERS;
        assert!(rt; right, "cut at {cut}: {end:?} {answers:?}");
    }
    Ok(())
}

// Returns the answer to a second connection's SETTRIG, after a usual session that was lost after that many bytes.
fn answer_after<R: Wait>(rt: &R, alloc: Global, end: usize) -> Result<Vec<u8>, Fail> {
    let first = &FIRST[..end.min(FIRST.len())];
    let second = &SECOND[..end.saturating_sub(FIRST.len()).min(SECOND.len())];
    let hub = hub_of(alloc)?;
    session_of(rt, alloc, &hub, &[first, second], 1)?;
    let mut next = link_of(alloc, b"SETTRIG adc0\n")?;
    end_of(rt, alloc, &hub, 2, &mut next);
    Ok(next.sent().to_vec(alloc)?)
}

// A usual session that is lost after any of its bytes leaves no member: the device accepts another trigger.
#[test]
fn a_lost_connection_leaves_no_member(rt: HostRuntime) -> Result<(), Fail> {
    for end in 0..FIRST.len() + SECOND.len() {
        let answer = answer_after(&rt, rt.alloc(), end)?;
        assert!(rt; answer.as_slice() == b"0\n".as_slice(), "lost after {end}");
    }
    Ok(())
}

// Describes an output device, a device on the same trigger, and an averaging device over it.
fn described_with_all_kinds(alloc: Global) -> Result<Desc, Fail>
    ensures { IfOk result (λ desc. IsWellFormed 0 desc) }
{
    desc_of(
        alloc,
        b"trigger t0 2
output dac0 t0
channel voltage0 le:u8/8>>0
device adc0 t0
channel voltage0 le:u8/8>>0
row 0 7
average avg0 adc0 2
",
    )
}

const NAMING: &[u8] =
    b"OPEN dac0 1 00000001\nWRITEBUF dac0 1\nxREAD dac0 name\nGETTRIG dac0\nWRITEBUF adc0 1\nxOPEN adc0 1 00000001 CYCLIC\nOPEN avg0 1 00000001\nREAD avg0 name\n";

// A hub knows only the names of input devices, and nothing can be written to its devices.
#[test]
fn other_kinds_of_devices_are_unknown(rt: HostRuntime) -> Result<(), Fail> {
    let alloc = rt.alloc();
    let hub = Hub::new(alloc, described_with_all_kinds(alloc)?, Vec::new(alloc))?;
    let opening = b"OPEN adc0 1 00000001\n".as_slice();
    let reading = b"READBUF adc0 1\nREAD adc0 BUFFER underruns\nEXIT\n".as_slice();
    let (end, answers) = session_of(&rt, alloc, &hub, &[NAMING, opening, reading], 2)?;
    assert_eq!(rt; end, SessionEnd::Ended);
    assert_eq!(rt;
        answers.as_slice(),
        b"-19\n-19\n-19\n-19\n-38\n-38\n-19\n-19\n0\n1\n00000001\n\x07-2\n".as_slice()
    );
    Ok(())
}

// The results of a tick, a poll and a handling between an OPEN and a READBUF, and of a tick of a ticker that has ended.
type Between = (bool, Polled, Option<Handled>, bool);

fn hear_between(
    alloc: Global,
    session: &mut Session<HubSeat>,
    link: &mut HubLink<OwnBank>,
    said: &mut Vec<u8>,
) -> Result<Between, Mem>
    requires client { IsClient seen_of (⟦<OwnBank as Bank>⟧.front link.old.bank) session.old.client }
    requires device { 0 < length (⟦<OwnBank as Bank>⟧.front link.old.bank).devices }
    ensures { IsClient seen_of (⟦<OwnBank as Bank>⟧.front link.new.bank) session.new.client }
{
    let mut ticker = ListTicker::new(vec![in alloc; 1000i64]?);
    hear(alloc, session, link, b"OPEN adc0 1 00000009\n", said)?;
    let ticked = tick_once(link, &mut ticker);
    let polled = poll(link, 2000);
    let handled = handle(link);
    let ended = tick_once(link, &mut ticker);
    hear(alloc, session, link, b"READBUF adc0 16\n", said)?;
    Ok((ticked, polled, handled, ended))
}

fn check_between(rt: &impl Abort, between: Between) {
    let (ticked, polled, handled, ended) = between;
    assert!(rt; ticked && !ended);
    assert_eq!(rt; polled, Polled::Missed(1));
    assert_eq!(rt; handled, Some(Handled::Captured(1)));
}

// A bank without locks: a device is opened, a tick polls its trigger, a second poll is missed, and the entry is handled.
#[test]
fn a_bank_is_opened_ticked_polled_and_handled(rt: HostRuntime) -> Result<(), Fail> {
    let alloc = rt.alloc();
    let mut link = link_to(alloc)?;
    let mut said = Vec::new(alloc);
    let mut session = Session::new(alloc, 1, Manner::Server)?;
    let between = hear_between(alloc, &mut session, &mut link, &mut said);
    session.end(&mut link);
    check_between(&rt, between?);
    assert_eq!(rt;
        said.as_slice(),
        b"0\n16\n00000009\n\x10\0\0\0\0\0\0\0\xe8\x03\0\0\0\0\0\0".as_slice()
    );
    Ok(())
}

// How a session stands after a READBUF that waits, whether the device was plugged when it is unplugged then and once more, and
// how the session stands after another READBUF.
type Unplugged = (Going, bool, bool, Going);

fn hear_unplugged(
    alloc: Global,
    session: &mut Session<HubSeat>,
    link: &mut HubLink<OwnBank>,
    said: &mut Vec<u8>,
) -> Result<Unplugged, Mem>
    requires client { IsClient seen_of (⟦<OwnBank as Bank>⟧.front link.old.bank) session.old.client }
    requires device { 0 < length (⟦<OwnBank as Bank>⟧.front link.old.bank).devices }
    ensures { IsClient seen_of (⟦<OwnBank as Bank>⟧.front link.new.bank) session.new.client }
{
    let first = b"OPEN adc0 1 00000005\nREADBUF adc0 4\n";
    let waits = hear(alloc, session, link, first, said)?;
    let unplugged = unplug(link);
    let again = unplug(link);
    let told = hear(alloc, session, link, b"READBUF adc0 4\nCLOSE adc0\n", said)?;
    Ok((waits, unplugged, again, told))
}

fn check_unplugged(rt: &impl Abort, heard: Unplugged) {
    let (waits, unplugged, again, told) = heard;
    assert_eq!(rt; (waits, told), (Going::Waits(0), Going::On));
    assert!(rt; unplugged && !again);
}

// A device that is unplugged while a READBUF waits: that READBUF and each later one is answered by -19, and CLOSE is no error.
#[test]
fn unplugged_under_a_reader(rt: HostRuntime) -> Result<(), Fail> {
    let alloc = rt.alloc();
    let mut link = link_to(alloc)?;
    let mut said = Vec::new(alloc);
    let mut session = Session::new(alloc, 1, Manner::Server)?;
    let heard = hear_unplugged(alloc, &mut session, &mut link, &mut said);
    session.end(&mut link);
    check_unplugged(&rt, heard?);
    assert_eq!(rt; said.as_slice(), b"0\n-19\n-19\n0\n".as_slice());
    Ok(())
}

// How many scans were discarded, what the next handling did, how many scans were read then, and how the seat's queue ended.
type Exchanged = (u64, Option<Handled>, Result<u32, ReadEnd>, Ended);

// Opens a seat, captures three times, exchanges its mask, captures once more and reads.
fn exchange_mask<R: Abort + Wait>(
    rt: &R,
    alloc: Global,
    hub: &Hub,
    bytes: &mut Vec<u8>,
) -> Result<Exchanged, Fail>
    requires { length bytes.old.items + 2 ≤ vec_capacity bytes.old }
{
    assert!(rt; hub.front.count() > 0);
    let shape = hub.front.shape(0);
    let (wide, narrow) = (Mask { bits: 5 }, Mask { bits: 2 });
    assert!(rt; shape.count() == 4);
    assert!(rt; has_data(shape, wide) && has_data(shape, narrow));
    assert!(rt; scan_size(shape, wide) == 4 && scan_size(shape, narrow) == 2);
    let Ok(mut seat) = hub.open(rt, alloc, 0, wide, 2) else {
        return Err(Fail::from("refused"));
    };
    for t in [1000i64, 2000, 3000] {
        hub.poll(rt, alloc, 0, t);
        hub.handle(rt, alloc, 0, 0);
    }
    let Ok(discarded) = hub.remask(rt, alloc, &mut seat, narrow) else {
        hub.close(rt, alloc, seat);
        return Err(Fail::from("no new mask"));
    };
    hub.poll(rt, alloc, 0, 4000);
    let handled = hub.handle(rt, alloc, 0, 0);
    let read = hub.read(&mut seat, 1, bytes);
    let ended = hub.close(rt, alloc, seat);
    Ok((discarded, handled, read, ended))
}

fn check_exchanged(rt: &impl Abort, exchanged: Exchanged) {
    let (discarded, handled, read, ended) = exchanged;
    assert_eq!(rt; discarded, 2);
    assert_eq!(rt; handled, Some(Handled::Captured(1)));
    assert_eq!(rt; (read, ended), (Ok(1), Ended::Whole(1)));
}

// A member of a running hub changes its mask: the scans that waited are counted and gone, and the next scan is one of the new
// mask.
#[test]
fn a_member_of_a_hub_exchanges_its_mask(rt: HostRuntime) -> Result<(), Fail> {
    let hub = hub_of(rt.alloc())?;
    let mut bytes = Vec::with_capacity(rt.alloc(), 2)?;
    check_exchanged(&rt, exchange_mask(&rt, rt.alloc(), &hub, &mut bytes)?);
    assert_eq!(rt; bytes.as_slice(), b"\x20\0".as_slice());
    Ok(())
}

// Opens a seat of a device that is then unplugged, and returns how an exchange of its mask is refused, and its mask then.
fn refuse_exchange<R: Abort + Wait>(rt: &R, alloc: Global, hub: &Hub) -> Result<(No, Mask), Fail> {
    assert!(rt; hub.front.count() > 0);
    let shape = hub.front.shape(0);
    let (wide, narrow) = (Mask { bits: 5 }, Mask { bits: 2 });
    assert!(rt; shape.count() == 4);
    assert!(rt; has_data(shape, wide) && has_data(shape, narrow));
    assert!(rt; scan_size(shape, wide) == 4 && scan_size(shape, narrow) == 2);
    let Ok(mut seat) = hub.open(rt, alloc, 0, wide, 2) else {
        return Err(Fail::from("refused"));
    };
    hub.unplug(rt, alloc, 0);
    let refused = hub.remask(rt, alloc, &mut seat, narrow);
    let mask = seat.mask;
    hub.close(rt, alloc, seat);
    match refused {
        Ok(_) => Err(Fail::from("exchanged")),
        Err(no) => Ok((no, mask)),
    }
}

// At an unplugged device a change of masks is refused, and the seat stays.
#[test]
fn a_seat_of_an_unplugged_device_keeps_its_mask(rt: HostRuntime) -> Result<(), Fail> {
    let hub = hub_of(rt.alloc())?;
    let (no, mask) = refuse_exchange(&rt, rt.alloc(), &hub)?;
    assert_eq!(rt; no, No::Errno(Errno::ENODEV));
    assert_eq!(rt; mask, Mask { bits: 5 });
    Ok(())
}
