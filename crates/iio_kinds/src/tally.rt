//! What was counted in a run.

ghost use Rattle.std.specs.Prelude.{◌≡◌, ◌+◌, ◌%◌, ◌^◌};
ghost use Rattle.iio_kinds.specs.Station.{captures_by};
ghost use Rattle.iio_kinds.specs.Tally.{bytes_by, devices_tally, overruns_by, scans_by, shown};

use crate::any_device::AnyDevice;

/// What was counted in a run. The first three stay at 2^64 - 1 once they get there.
#[derive(Clone, Copy, Debug)]
pub struct Tally {
    /// The captures of all devices.
    pub captures: u64,
    /// The scans that READBUFs gave.
    pub scans: u64,
    /// The scans that were lost because a queue was full, over all queues that members have or had.
    pub overruns: u64,
    /// The sum of the values of all bytes of the scans that were given, modulo 2^64.
    pub bytes: u64,
}

// What a device counted. An output device makes no captures, gives its members nothing and loses nothing.
fn device_tally(device: &AnyDevice) -> Tally
    ensures captures { result.captures ≡ captures_by device.now }
    ensures scans { result.scans ≡ shown (scans_by device.now) }
    ensures overruns { result.overruns ≡ shown (overruns_by device.now) }
    ensures bytes { result.bytes ≡ bytes_by device.now % 2 ^ 64 }
{
    match device {
        AnyDevice::Input(device) => Tally {
            captures: device.device.captures(),
            scans: device.device.core.totals.scans.get(),
            overruns: device.device.overruns(),
            bytes: device.device.core.totals.bytes.wrapped(),
        },
        AnyDevice::Average(device) => Tally {
            captures: 0,
            scans: device.totals.scans.get(),
            overruns: device.overruns(),
            bytes: device.totals.bytes.wrapped(),
        },
        AnyDevice::Output(_) => Tally {
            captures: 0,
            scans: 0,
            overruns: 0,
            bytes: 0,
        },
    }
}

// Adds what a device counted.
fn add_device(tally: &mut Tally, device: &AnyDevice)
    ensures captures { tally.new.captures ≡ shown (tally.old.captures + captures_by device.now) }
    ensures scans { tally.new.scans ≡ shown (tally.old.scans + shown (scans_by device.now)) }
    ensures overruns { tally.new.overruns ≡ shown (tally.old.overruns + shown (overruns_by device.now)) }
    ensures bytes { tally.new.bytes ≡ (tally.old.bytes + bytes_by device.now % 2 ^ 64) % 2 ^ 64 }
{
    let counted = device_tally(device);
    tally.captures = tally.captures.saturating_add(counted.captures);
    tally.scans = tally.scans.saturating_add(counted.scans);
    tally.overruns = tally.overruns.saturating_add(counted.overruns);
    tally.bytes = tally.bytes.wrapping_add(counted.bytes);
}

/// The sum of what the devices counted.
pub fn devices_tally(devices: &[AnyDevice]) -> Tally
    ensures { result ≡ devices_tally devices.now }
{
    let mut tally = Tally {
        captures: 0,
        scans: 0,
        overruns: 0,
        bytes: 0,
    };
    for device in devices {
        add_device(&mut tally, device);
    }
    tally
}
