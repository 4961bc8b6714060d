//! What happens to several devices of a bench at once.

ghost use Rattle.std.specs.Prelude.{◌≡◌, ◌≤◌, All, length};
ghost use Rattle.iio_desc.specs.Kind.{is_unplugged_by};
ghost use Rattle.iio_desc.specs.declared.limits.TheConstants.{MAX_DEVICES};
ghost use Rattle.iio_bench.specs.Together.{AfterEntry, AreGathered, AreUnplugged, CanGather, IsGathered, IsReady, OnCapture, scan_at};
ghost use Rattle.iio_kinds.specs.Station.{any_front};

use iio_core::Became;
use iio_device::{Handled, Plug};
use iio_kinds::AnyDevice;
use iio_sensor::Sensor;

// Gives a device a capture of that base, as the scan of all channels, if it is over that base and has a member.
fn gather_one(device: &mut AnyDevice, base: u32, scan: &[u8])
    requires { IsReady ⟦<Plug as Sensor>⟧.driver base scan.now device.old }
    ensures { IsGathered ⟦<Plug as Sensor>⟧.driver base scan.now device.old device.new }
{
    let Some(over) = device.base() else {
        return;
    };
    if over == base && device.has_member() {
        device.gather(scan);
    }
}

// Gives it to each of these devices.
fn gather_all(devices: &mut [AnyDevice], base: u32, scan: &[u8])
    requires { All (IsReady ⟦<Plug as Sensor>⟧.driver base scan.now) devices.old }
    ensures { AreGathered ⟦<Plug as Sensor>⟧.driver base scan.now devices.old devices.new }
{
    for i in 0..devices.len() {
        gather_one(&mut devices[i], base, scan);
    }
}

// Gives each averaging device over that base the base's capture, whose scan of all channels is kept at the base.
fn gather_over(devices: &mut Vec<AnyDevice>, first_average: u32, base: u32)
    requires { CanGather ⟦<Plug as Sensor>⟧.driver first_average base devices.old.items }
    ensures { AreGathered ⟦<Plug as Sensor>⟧.driver base (scan_at base devices.old.items) devices.old.items devices.new.items }
{
    let (others, averages) = devices.split_at_mut(first_average as usize);
    gather_all(averages, base, others[base as usize].full_scan());
}

/// If the handling of an entry of that base made a capture, gives it to each averaging device over the base.
pub(crate) fn gather(
    devices: &mut Vec<AnyDevice>,
    first_average: u32,
    base: u32,
    became: Option<Became>,
)
    requires { OnCapture became (CanGather ⟦<Plug as Sensor>⟧.driver first_average base devices.old.items) }
    ensures { AfterEntry ⟦<Plug as Sensor>⟧.driver became base devices.old.items devices.new.items }
{
    if let Some(Became::Asked(Handled::Captured(_))) = became {
        gather_over(devices, first_average, base);
    }
}

// Whether the device `device` of the number `number` is unplugged when the device `dev` is.
fn goes_with(device: &AnyDevice, number: u32, dev: u32) -> bool
    ensures { result ≡ is_unplugged_by (any_front device.now).kind dev number }
{
    match device.base() {
        Some(base) => dev == base,
        None => dev == number,
    }
}

/// Unplugs a device that isn't an averaging one, and each averaging device over it.
pub(crate) fn unplug_all(devices: &mut Vec<AnyDevice>, dev: u32)
    requires { length devices.old.items ≤ MAX_DEVICES }
    ensures { AreUnplugged ⟦<Plug as Sensor>⟧.driver dev devices.old.items devices.new.items }
{
    for i in 0..devices.len() {
        if goes_with(&devices[i], i as u32, dev) {
            devices[i].unplug();
        }
    }
}
