//! Connections in manner Server, which waits where the manner Script answers
//! -11. They use a bench directly, since a script has the other manner.

ghost use Rattle.std.specs.Prelude.{◌≡◌, ◌+◌, ◌-◌, ◌^◌, ◌<◌, ◌≤◌, IfOk, OnOk, length};
ghost use Rattle.iio_desc.specs.DescReader.{drivers_of, line_count};
ghost use Rattle.iiod_commands.specs.Client.{IsClient};
ghost use Rattle.iio_bench.specs.Bench.{front_of};
ghost use Rattle.iio_bench.specs.Seat.{seen_of};

use iio_desc::DescReader;
use iio_device::Handled;
use iio_system::{Became, Bench, Seat};
use iio_trigger::Polled;
use iiod_session::{Going, Manner, Session};
use std::alloc::Global;
use std::process::Abort;
use std::test::Fail;

// Reads a line of a description. The contract says nothing of what it means.
fn read_line(reader: &mut DescReader, line: &[u8]) -> Result<(), Fail>
    requires { line_count reader.old < 2 ^ 32 - 2 }
    ensures counted { line_count reader.new ≤ line_count reader.old + 1 }
    ensures drivers { OnOk result (drivers_of reader.new ≡ drivers_of reader.old) }
{
    reader.line(line)?;
    Ok(())
}

// One device with one channel of one byte, which is a different letter at each moment.
fn letters(alloc: Global) -> Result<Bench, Fail>
    ensures triggers { IfOk result (λ b. 1 ≤ length (front_of b).triggers) }
    ensures devices { IfOk result (λ b. 1 ≤ length (front_of b).devices) }
{
    let mut reader = DescReader::new(alloc, 0)?;
    read_line(&mut reader, b"trigger t0 2")?;
    read_line(&mut reader, b"device adc0 t0")?;
    read_line(&mut reader, b"channel voltage0 le:u8/8>>0")?;
    read_line(&mut reader, b"row 1 65")?;
    read_line(&mut reader, b"row 2 66")?;
    read_line(&mut reader, b"row 3 67")?;
    let desc = reader.finish()?;
    if desc.triggers.is_empty() || desc.devices.is_empty() {
        return Err(Fail::from("no device"));
    }
    Ok(Bench::new(alloc, desc, Vec::new(alloc))?)
}

// Makes a poll that is accepted, and a capture.
fn fire(rt: &impl Abort, bench: &mut Bench, t: i64)
    requires triggers { 1 ≤ length (front_of bench.old).triggers }
    requires devices { 1 ≤ length (front_of bench.old).devices }
    ensures { front_of bench.new ≡ front_of bench.old }
{
    assert_eq!(rt; bench.poll(0, t), Polled::Accepted(1), "at {t}");
    assert_eq!(rt;
        bench.handle(0, 0),
        Some(Became::Asked(Handled::Captured(1)))
    );
}

// Feeds bytes, and checks the answers and the state of the connection after them.
fn hear(
    rt: &impl Abort,
    alloc: Global,
    session: &mut Session<Seat>,
    bench: &mut Bench,
    bytes: &[u8],
    answers: &[u8],
    going: Going,
) -> Result<(), Fail>
    requires { IsClient seen_of (front_of bench.old) session.old.client }
    ensures client { IsClient seen_of (front_of bench.new) session.new.client }
    ensures front { front_of bench.new ≡ front_of bench.old }
{
    let mut out = Vec::new(alloc);
    let now = session.feed(alloc, bench, bytes, &mut out)?;
    assert_eq!(rt; out.as_slice(), answers, "after {bytes:?}");
    assert_eq!(rt; now, going, "after {bytes:?}");
    assert_eq!(rt; session.ended(), going == Going::Ended);
    Ok(())
}

// Makes a connection that has opened the device.
fn opened(rt: &impl Abort, alloc: Global, bench: &mut Bench) -> Result<Session<Seat>, Fail>
    ensures client { IfOk result (λ s. IsClient seen_of (front_of bench.new) s.client) }
    ensures front { front_of bench.new ≡ front_of bench.old }
{
    let mut session = Session::new(alloc, 7, Manner::Server)?;
    hear(
        rt,
        alloc,
        &mut session,
        bench,
        b"OPEN adc0 1 00000001\n",
        b"0\n",
        Going::On,
    )?;
    Ok(session)
}

// Feeds a READBUF that waits, and what comes after it; then scans come.
fn hear_waiting(
    rt: &impl Abort,
    alloc: Global,
    a: &mut Session<Seat>,
    bench: &mut Bench,
) -> Result<(), Fail>
    requires client { IsClient seen_of (front_of bench.old) a.old.client }
    requires triggers { 1 ≤ length (front_of bench.old).triggers }
    requires devices { 1 ≤ length (front_of bench.old).devices }
    ensures { IsClient seen_of (front_of bench.new) a.new.client }
{
    let waits = Going::Waits(0);
    let first = b"READBUF adc0 2\nVERSION\nREADBUF adc0 1\nTIM";
    hear(rt, alloc, a, bench, first, b"", waits)?;
    hear(rt, alloc, a, bench, b"EOUT 5\n", b"", waits)?;
    fire(rt, bench, 1);
    let heard = b"1\n00000001\nA0\n0.25.iiosim0\n";
    hear(rt, alloc, a, bench, b"", heard, waits)?;
    fire(rt, bench, 2);
    fire(rt, bench, 3);
    let heard = b"1\n00000001\nB0\n1\n00000001\nC0\n";
    hear(rt, alloc, a, bench, b"READBUF adc0 9\n", heard, Going::On)
}

// What comes after a READBUF that waits is kept. Once a scan has come, a feed of no bytes is enough.
#[test]
fn waits_and_goes_on(rt: HostRuntime) -> Result<(), Fail> {
    let mut bench = letters(rt.alloc())?;
    let mut a = opened(&rt, rt.alloc(), &mut bench)?;
    hear_waiting(&rt, rt.alloc(), &mut a, &mut bench)?;
    a.end(&mut bench);
    Ok(())
}

// Feeds a READBUF that waits; then the device goes away, and the connection ends.
fn hear_unplugged(
    rt: &impl Abort,
    alloc: Global,
    a: &mut Session<Seat>,
    bench: &mut Bench,
) -> Result<(), Fail>
    requires client { IsClient seen_of (front_of bench.old) a.old.client }
    requires devices { 1 ≤ length (front_of bench.old).devices }
    ensures { IsClient seen_of (front_of bench.new) a.new.client }
{
    let first = b"READBUF adc0 2\nVERSION\nREADBUF adc0 1\n";
    hear(rt, alloc, a, bench, first, b"", Going::Waits(0))?;
    assert!(rt; bench.unplug(0));
    let told = b"-19\n0.25.iiosim0\n-19\n";
    hear(rt, alloc, a, bench, b"", told, Going::On)?;
    let last = b"CLOSE adc0\nEXIT\nVERSION\n";
    hear(rt, alloc, a, bench, last, b"0\n", Going::Ended)
}

// A READBUF that waits is answered when its device goes away, and so is what comes after it.
#[test]
fn unplugged_while_it_waits(rt: HostRuntime) -> Result<(), Fail> {
    let mut bench = letters(rt.alloc())?;
    let mut a = opened(&rt, rt.alloc(), &mut bench)?;
    hear_unplugged(&rt, rt.alloc(), &mut a, &mut bench)?;
    a.end(&mut bench);
    Ok(())
}

// One connection has the device and its events, and is lost; then another one has them.
fn hear_two(
    rt: &impl Abort,
    alloc: Global,
    a: &mut Session<Seat>,
    b: &mut Session<Seat>,
    bench: &mut Bench,
) -> Result<(), Fail>
    requires first { IsClient seen_of (front_of bench.old) a.old.client }
    requires second { IsClient seen_of (front_of bench.old) b.old.client }
    ensures first { IsClient seen_of (front_of bench.new) a.new.client }
    ensures second { IsClient seen_of (front_of bench.new) b.new.client }
{
    let has = b"OPEN adc0 1 00000001\nEVOPEN adc0\n";
    hear(rt, alloc, a, bench, has, b"0\n0\n", Going::On)?;
    let takes = b"SETTRIG adc0\nEVOPEN adc0\n";
    hear(rt, alloc, b, bench, takes, b"-16\n-16\n", Going::On)?;
    a.drop_all(bench);
    assert!(rt; !a.ended());
    hear(rt, alloc, b, bench, takes, b"0\n0\n", Going::On)
}

// A connection that is lost leaves the device and its events to others, and hasn't ended.
#[test]
fn lost_connection(rt: HostRuntime) -> Result<(), Fail> {
    let alloc = rt.alloc();
    let mut bench = letters(alloc)?;
    let mut a = Session::new(alloc, 7, Manner::Server)?;
    let mut b = Session::new(alloc, 8, Manner::Server)?;
    hear_two(&rt, alloc, &mut a, &mut b, &mut bench)?;
    b.end(&mut bench);
    a.end(&mut bench);
    Ok(())
}
