//! How members join the devices of a bench, and leave them.

ghost use Rattle.std.specs.Prelude.{◌≡◌, ◌&&◌, ◌-◌, ◌^◌, ◌≤◌, ◌<◌, not, true, false, IfOk, Ok, Some, length, map};
ghost use Rattle.iio_derive.specs.Window.{full_mask};
ghost use Rattle.iio_desc.specs.Kind.{Input, is_average, is_output};
ghost use Rattle.iio_device.specs.Site.{is_empty};
ghost use Rattle.iio_kfifo.specs.declared.limits.TheConstants.{MAX_BYTES};
ghost use Rattle.iio_layout.specs.Active.{has_data};
ghost use Rattle.iio_layout.specs.Layout.{scan_size};
ghost use Rattle.iio_layout.specs.Shape.{count_of};
ghost use Rattle.iio_core.specs.Calls.{machine_after_close, open_of};
ghost use Rattle.iio_core.specs.Front.{kind_at, shape_at};
ghost use Rattle.iio_core.specs.Machine.{station_at};
ghost use Rattle.iiod_commands.specs.Seat.{Answers, IsNew, MayOpen, number_by};
ghost use Rattle.iio_bench.specs.Bench.{front_of, kept_of, machine_of};
ghost use Rattle.iio_kinds.specs.Faults.{HostsAny, IsServedAlone};
ghost use Rattle.iio_bench.specs.Seat.{seen_of};
ghost use Rattle.iio_kinds.specs.Station.{base_of};

use crate::bench::Bench;
use iio_device::Plug;
use iio_kinds::Seat;
use iio_layout::{Shape, scan_size};
use iio_mask::Mask;
use iio_sensor::Sensor;
use iio_text::Errno;
use iiod_session::No;

// The bits of all channels below that number.
fn full_bits(count: u32) -> u64
    requires { count ≤ 64 }
    ensures { result ≡ 2 ^ count - 1 }
{
    if count == 64 {
        u64::MAX
    } else {
        (1 << count) - 1
    }
}

// The mask of all channels of that shape. A queue can hold a scan under it.
fn full_mask(shape: &Shape) -> Mask
    ensures value { result.bits ≡ full_mask shape.now }
    ensures below { result.bits < 2 ^ count_of shape.now }
    ensures channel { has_data shape.now result.bits ≡ true }
    ensures bytes { scan_size shape.now result.bits ≤ MAX_BYTES }
{
    let bits = full_bits(shape.count());
    let mask = Mask { bits };
    let _size = scan_size(shape, mask);
    mask
}

// ---- at a device that isn't an averaging one

// Adds a member, by the device's trigger.
fn open_plain(
    bench: &mut Bench,
    dev: u32,
    mask: Mask,
    capacity: u32,
    cyclic: bool,
) -> Result<Seat, No>
    requires may_open { MayOpen (front_of bench.old) dev mask.bits capacity }
    requires own { is_average (kind_at (front_of bench.old) dev) ≡ false }
    requires cycles { (cyclic && not (is_output (kind_at (front_of bench.old) dev))) ≡ false }
    ensures kept { kept_of bench.new ≡ kept_of bench.old }
    ensures seat { IfOk result (λ s. IsNew (front_of bench.old) dev mask.bits capacity (seen_of s)) }
    ensures told { Answers (open_of (front_of bench.old) (machine_of ⟦<Plug as Sensor>⟧.driver bench.old) dev mask.bits capacity cyclic)
        (machine_of ⟦<Plug as Sensor>⟧.driver bench.old)
        (number_by seen_of result) (Some (machine_of ⟦<Plug as Sensor>⟧.driver bench.new)) }
{
    let at = dev as usize;
    match bench.devices[at].host(&bench.triggers, mask) {
        Err(no) => Err(no),
        Ok(trigger) => bench.devices[at].join(
            bench.alloc,
            &mut bench.triggers[trigger],
            mask,
            capacity,
            cyclic,
            None,
        ),
    }
}

// Removes the member of that number.
fn close_plain(bench: &mut Bench, dev: u32, number: u64)
    requires dev { dev < length (front_of bench.old).devices }
    requires own { is_average (kind_at (front_of bench.old) dev) ≡ false }
    ensures kept { kept_of bench.new ≡ kept_of bench.old }
    ensures told { Some (machine_of ⟦<Plug as Sensor>⟧.driver bench.new)
        ≡ Some (machine_after_close (front_of bench.old) (machine_of ⟦<Plug as Sensor>⟧.driver bench.old) dev number) }
{
    let at = dev as usize;
    match bench.devices[at].trigger() {
        None => {}
        Some(trigger) => {
            bench.devices[at].leave(number, &mut bench.triggers[trigger as usize]);
        }
    }
}

// ---- at an averaging device

// Adds a member to a device that already has one, so that its base has the inner member.
fn open_further(bench: &mut Bench, dev: u32, mask: Mask, capacity: u32) -> Result<Seat, No>
    requires may_open { MayOpen (front_of bench.old) dev mask.bits capacity }
    requires average { is_average (kind_at (front_of bench.old) dev) ≡ true }
    requires member { is_empty (station_at (machine_of ⟦<Plug as Sensor>⟧.driver bench.old) dev).members ≡ false }
    ensures kept { kept_of bench.new ≡ kept_of bench.old }
    ensures seat { IfOk result (λ s. IsNew (front_of bench.old) dev mask.bits capacity (seen_of s)) }
    ensures told { Answers (open_of (front_of bench.old) (machine_of ⟦<Plug as Sensor>⟧.driver bench.old) dev mask.bits capacity false)
        (machine_of ⟦<Plug as Sensor>⟧.driver bench.old)
        (number_by seen_of result) (Some (machine_of ⟦<Plug as Sensor>⟧.driver bench.new)) }
{
    let at = dev as usize;
    let device = &bench.devices[at];
    if !device.plugged() {
        return Err(No::Errno(Errno::ENODEV));
    }
    if device.has_no_number() {
        return Err(No::Errno(Errno::ENOSPC));
    }
    bench.devices[at].join_mean(mask, capacity)
}

// Adds the first member, and the inner member at that base, which may join by that trigger. If memory runs out, nothing
// changes.
fn join_first(
    bench: &mut Bench,
    dev: u32,
    base: u32,
    trigger: usize,
    full: Mask,
    mask: Mask,
    capacity: u32,
) -> Result<Seat, No>
    requires may_open { MayOpen (front_of bench.old) dev mask.bits capacity }
    requires over { base_of (kind_at (front_of bench.old) dev) ≡ Some base }
    requires none { is_empty (station_at (machine_of ⟦<Plug as Sensor>⟧.driver bench.old) dev).members ≡ true }
    requires full { full.bits ≡ full_mask (shape_at (front_of bench.old) base) }
    requires channel { has_data (shape_at (front_of bench.old) base) full.bits ≡ true }
    requires bytes { scan_size (shape_at (front_of bench.old) base) full.bits ≤ MAX_BYTES }
    requires alone { IsServedAlone Input (shape_at (front_of bench.old) base) (station_at (machine_of ⟦<Plug as Sensor>⟧.driver bench.old) base) full.bits }
    requires hosts { HostsAny bench.old.triggers.items Input base (shape_at (front_of bench.old) base)
        (station_at (machine_of ⟦<Plug as Sensor>⟧.driver bench.old) base) full.bits (Ok trigger) }
    ensures kept { kept_of bench.new ≡ kept_of bench.old }
    ensures seat { IfOk result (λ s. IsNew (front_of bench.old) dev mask.bits capacity (seen_of s)) }
    ensures told { Answers (open_of (front_of bench.old) (machine_of ⟦<Plug as Sensor>⟧.driver bench.old) dev mask.bits capacity false)
        (machine_of ⟦<Plug as Sensor>⟧.driver bench.old)
        (number_by seen_of result) (Some (machine_of ⟦<Plug as Sensor>⟧.driver bench.new)) }
{
    let at = dev as usize;
    if bench.devices[at].has_no_number() {
        return Err(No::Errno(Errno::ENOSPC));
    }
    match bench.devices[at].join_mean(mask, capacity) {
        Err(no) => Err(no),
        Ok(seat) => {
            match bench.devices[base as usize].join(
                bench.alloc,
                &mut bench.triggers[trigger],
                full,
                1,
                false,
                Some(dev),
            ) {
                Ok(_) => Ok(seat),
                Err(no) => {
                    bench.devices[at].undo_join(seat);
                    Err(no)
                }
            }
        }
    }
}

// Adds the first member if the base hosts the inner one.
fn open_first(bench: &mut Bench, dev: u32, base: u32, mask: Mask, capacity: u32) -> Result<Seat, No>
    requires may_open { MayOpen (front_of bench.old) dev mask.bits capacity }
    requires over { base_of (kind_at (front_of bench.old) dev) ≡ Some base }
    requires none { is_empty (station_at (machine_of ⟦<Plug as Sensor>⟧.driver bench.old) dev).members ≡ true }
    ensures kept { kept_of bench.new ≡ kept_of bench.old }
    ensures seat { IfOk result (λ s. IsNew (front_of bench.old) dev mask.bits capacity (seen_of s)) }
    ensures told { Answers (open_of (front_of bench.old) (machine_of ⟦<Plug as Sensor>⟧.driver bench.old) dev mask.bits capacity false)
        (machine_of ⟦<Plug as Sensor>⟧.driver bench.old)
        (number_by seen_of result) (Some (machine_of ⟦<Plug as Sensor>⟧.driver bench.new)) }
{
    let device = &bench.devices[base as usize];
    let full = full_mask(device.shape());
    match device.host(&bench.triggers, full) {
        Err(no) => Err(no),
        Ok(trigger) => join_first(bench, dev, base, trigger, full, mask, capacity),
    }
}

// Removes the member of that number; with the last one the inner member at that base goes too.
fn close_mean(bench: &mut Bench, dev: u32, base: u32, number: u64)
    requires dev { dev < length (front_of bench.old).devices }
    requires over { base_of (kind_at (front_of bench.old) dev) ≡ Some base }
    ensures kept { kept_of bench.new ≡ kept_of bench.old }
    ensures told { Some (machine_of ⟦<Plug as Sensor>⟧.driver bench.new)
        ≡ Some (machine_after_close (front_of bench.old) (machine_of ⟦<Plug as Sensor>⟧.driver bench.old) dev number) }
{
    let at = dev as usize;
    bench.devices[at].leave_mean(number);
    if !bench.devices[at].has_member() {
        match bench.devices[base as usize].trigger() {
            None => {}
            Some(trigger) => {
                bench.devices[base as usize].leave_inner(
                    dev,
                    &mut bench.triggers[trigger as usize],
                );
            }
        }
    }
}

// ---- at any device

/// Adds a member to a device.
pub(crate) fn open_any(
    bench: &mut Bench,
    dev: u32,
    mask: Mask,
    capacity: u32,
    cyclic: bool,
) -> Result<Seat, No>
    requires may_open { MayOpen (front_of bench.old) dev mask.bits capacity }
    requires cycles { (cyclic && not (is_output (kind_at (front_of bench.old) dev))) ≡ false }
    ensures kept { kept_of bench.new ≡ kept_of bench.old }
    ensures seat { IfOk result (λ s. IsNew (front_of bench.old) dev mask.bits capacity (seen_of s)) }
    ensures told { Answers (open_of (front_of bench.old) (machine_of ⟦<Plug as Sensor>⟧.driver bench.old) dev mask.bits capacity cyclic)
        (machine_of ⟦<Plug as Sensor>⟧.driver bench.old)
        (number_by seen_of result) (Some (machine_of ⟦<Plug as Sensor>⟧.driver bench.new)) }
{
    match bench.devices[dev as usize].base() {
        None => open_plain(bench, dev, mask, capacity, cyclic),
        Some(base) => {
            if bench.devices[dev as usize].has_member() {
                open_further(bench, dev, mask, capacity)
            } else {
                open_first(bench, dev, base, mask, capacity)
            }
        }
    }
}

/// Removes the member of that number from a device.
pub(crate) fn close_any(bench: &mut Bench, dev: u32, number: u64)
    requires { dev < length (front_of bench.old).devices }
    ensures kept { kept_of bench.new ≡ kept_of bench.old }
    ensures told { Some (machine_of ⟦<Plug as Sensor>⟧.driver bench.new)
        ≡ Some (machine_after_close (front_of bench.old) (machine_of ⟦<Plug as Sensor>⟧.driver bench.old) dev number) }
{
    match bench.devices[dev as usize].base() {
        None => close_plain(bench, dev, number),
        Some(base) => close_mean(bench, dev, base, number),
    }
}
