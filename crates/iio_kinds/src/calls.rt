//! What a connection's call makes of one device.

ghost use Rattle.std.specs.Prelude.{◌≡◌, ◌≢◌, ◌==◌, true, false, ◌+◌, ◌-◌, ◌*◌, ◌^◌, ◌≤◌, ◌<◌, ⊤, IfSome, Some, Err, length, vec_capacity};
ghost use Rattle.iio_base.specs.Refusals.{ensure};
ghost use Rattle.iio_text.specs.declared.errors.Errno.TheVariants.{EBADF, ENODEV};
ghost use Rattle.iio_attr.specs.declared.attributes.Attr.TheVariants.{Raw};
ghost use Rattle.iio_desc.specs.Kind.{Input};
ghost use Rattle.iio_desc.specs.declared.limits.TheConstants.{MAX_TRIGGERS};
ghost use Rattle.iio_event.specs.Monitor.{after_close, after_open, after_read};
ghost use Rattle.iio_layout.specs.Layout.{scan_size};
ghost use Rattle.iio_device.specs.Site.{Site, site_written, with_monitor};
ghost use Rattle.iio_device.specs.Device.{view_of};
ghost use Rattle.iiod_commands.specs.declared.iio.No.TheVariants.{Mem};
ghost use Rattle.iio_core.specs.Calls.{ev_open_answer, ev_read_answer, holds_events, trigger_answer};
ghost use Rattle.iio_core.specs.Machine.{scans_in, with_site};
ghost use Rattle.iio_kinds.specs.Acting.{Acts, Keeps, KeepsCaptures, ReadsInput, TakesAt, TakesScansAt, has_member, id_of, lost_in, nothing_at};
ghost use Rattle.iio_kinds.specs.Handling.{counted, entry_station, is_last, entry_became};
ghost use Rattle.iio_core.specs.declared.became.Became.TheVariants.{Asked};
ghost use Rattle.iio_kinds.specs.Station.{station_by};

use iio_attr::{Attr, Value};
use iio_device::{Device, Handled, Member, Plug};
use iio_event::EventData;
use iio_kfifo::Kfifo;
use iio_mask::Mask;
use iio_sensor::Sensor;
use iio_text::{Errno, Fixed};
use iio_trigger::Due;
use iiod_commands::{Counts, No, Took, held_no, holder_no, raw_no};

/// Returns the value of an attribute. For `raw` the sensor is asked at `t`.
pub(crate) fn read_attr(
    device: &mut Device<Kfifo>,
    t: i64,
    channel: Option<u32>,
    attr: Attr,
) -> Result<Value, No>
    requires { IfSome channel (λ c. c < length device.old.core.roster.shape.channels) }
    ensures reads { ReadsInput t channel attr (view_of ⟦<Plug as Sensor>⟧.driver device.old) result (station_by ⟦<Plug as Sensor>⟧.driver device.new) }
    ensures keeps { KeepsCaptures (view_of ⟦<Plug as Sensor>⟧.driver device.old) (view_of ⟦<Plug as Sensor>⟧.driver device.new) }
{
    match channel {
        None => read_kept(device, t, None, attr),
        Some(c) => read_channel(device, t, c, attr),
    }
}

// The value of an attribute of channel `c`.
fn read_channel(device: &mut Device<Kfifo>, t: i64, c: u32, attr: Attr) -> Result<Value, No>
    requires { c < length device.old.core.roster.shape.channels }
    ensures reads { ReadsInput t (Some c) attr (view_of ⟦<Plug as Sensor>⟧.driver device.old) result (station_by ⟦<Plug as Sensor>⟧.driver device.new) }
    ensures keeps { KeepsCaptures (view_of ⟦<Plug as Sensor>⟧.driver device.old) (view_of ⟦<Plug as Sensor>⟧.driver device.new) }
{
    match attr {
        Attr::Raw => read_raw(device, t, c),
        _ => read_kept(device, t, Some(c), attr),
    }
}

// A sample of channel `c`.
fn read_raw(device: &mut Device<Kfifo>, t: i64, c: u32) -> Result<Value, No>
    requires { c < length device.old.core.roster.shape.channels }
    ensures reads { ReadsInput t (Some c) Raw (view_of ⟦<Plug as Sensor>⟧.driver device.old) result (station_by ⟦<Plug as Sensor>⟧.driver device.new) }
    ensures keeps { KeepsCaptures (view_of ⟦<Plug as Sensor>⟧.driver device.old) (view_of ⟦<Plug as Sensor>⟧.driver device.new) }
{
    match device.raw(c, t) {
        Ok(value) => Ok(Value::Int(value)),
        Err(fault) => Err(raw_no(fault)),
    }
}

// The value of an attribute that the device keeps.
fn read_kept(device: &Device<Kfifo>, _t: i64, channel: Option<u32>, attr: Attr) -> Result<Value, No>
    requires channel { IfSome channel (λ c. c < length device.now.core.roster.shape.channels) }
    requires kept { IfSome channel (λ c. attr ≢ Raw) }
    ensures { ReadsInput _t channel attr (view_of ⟦<Plug as Sensor>⟧.driver device.now) result (station_by ⟦<Plug as Sensor>⟧.driver device.now) }
{
    if !device.plugged() {
        return Err(No::Errno(Errno::ENODEV));
    }
    Ok(device.read_attr(channel, attr))
}

/// Writes an attribute.
pub(crate) fn write_attr(
    device: &mut Device<Kfifo>,
    channel: Option<u32>,
    attr: Attr,
    value: Fixed,
) -> Result<(), No>
    requires { IfSome channel (λ c. c < length device.old.core.roster.shape.channels) }
    ensures acts { Acts (with_site (site_written channel attr value)) (ensure (station_by ⟦<Plug as Sensor>⟧.driver device.old).site.plugged ENODEV)
        result (station_by ⟦<Plug as Sensor>⟧.driver device.old) (station_by ⟦<Plug as Sensor>⟧.driver device.new) }
    ensures keeps { KeepsCaptures (view_of ⟦<Plug as Sensor>⟧.driver device.old) (view_of ⟦<Plug as Sensor>⟧.driver device.new) }
{
    match device.write_attr(channel, attr, value) {
        Ok(()) => Ok(()),
        Err(errno) => Err(No::Errno(errno)),
    }
}

/// Gives the device another trigger, or takes its trigger away; a number that is given is below 16.
pub(crate) fn set_trigger(device: &mut Device<Kfifo>, trigger: Option<u32>) -> Result<(), No>
    requires { IfSome trigger (λ t. t < MAX_TRIGGERS) }
    ensures acts { Acts (with_site (λ site. record site { trigger = trigger })) (trigger_answer (station_by ⟦<Plug as Sensor>⟧.driver device.old))
        result (station_by ⟦<Plug as Sensor>⟧.driver device.old) (station_by ⟦<Plug as Sensor>⟧.driver device.new) }
    ensures keeps { KeepsCaptures (view_of ⟦<Plug as Sensor>⟧.driver device.old) (view_of ⟦<Plug as Sensor>⟧.driver device.new) }
{
    match device.set_trigger(trigger) {
        Ok(()) => Ok(()),
        Err(errno) => Err(No::Errno(errno)),
    }
}

/// Makes the connection `who` the holder of the device's events.
pub(crate) fn ev_open(device: &mut Device<Kfifo>, who: u32) -> Result<(), No>
    requires { ⊤ }
    ensures acts { Acts (with_site (with_monitor (after_open who))) (ev_open_answer (station_by ⟦<Plug as Sensor>⟧.driver device.old))
        result (station_by ⟦<Plug as Sensor>⟧.driver device.old) (station_by ⟦<Plug as Sensor>⟧.driver device.new) }
    ensures keeps { KeepsCaptures (view_of ⟦<Plug as Sensor>⟧.driver device.old) (view_of ⟦<Plug as Sensor>⟧.driver device.new) }
{
    if !device.plugged() {
        return Err(No::Errno(Errno::ENODEV));
    }
    match device.ev_open(who) {
        Ok(()) => Ok(()),
        Err(held) => Err(held_no(held)),
    }
}

/// Takes the oldest event that waits for the connection `who`.
pub(crate) fn ev_read(device: &mut Device<Kfifo>, who: u32) -> Result<Option<EventData>, No>
    requires { ⊤ }
    ensures acts { Acts (with_site (with_monitor (after_read (λ a b. a == b) who))) (ev_read_answer who (station_by ⟦<Plug as Sensor>⟧.driver device.old))
        result (station_by ⟦<Plug as Sensor>⟧.driver device.old) (station_by ⟦<Plug as Sensor>⟧.driver device.new) }
    ensures keeps { KeepsCaptures (view_of ⟦<Plug as Sensor>⟧.driver device.old) (view_of ⟦<Plug as Sensor>⟧.driver device.new) }
{
    if !device.plugged() {
        return Err(No::Errno(Errno::ENODEV));
    }
    match device.ev_read(who) {
        Ok(event) => Ok(event),
        Err(none) => Err(holder_no(none)),
    }
}

/// Ends the holding of the device's events by the connection `who`.
pub(crate) fn ev_close(device: &mut Device<Kfifo>, who: u32) -> Result<(), No>
    requires { ⊤ }
    ensures no_memory { result ≢ Err Mem }
    ensures acts { Acts (with_site (with_monitor (after_close (λ a b. a == b) who)))
        (ensure (holds_events who (station_by ⟦<Plug as Sensor>⟧.driver device.old)) EBADF)
        result (station_by ⟦<Plug as Sensor>⟧.driver device.old) (station_by ⟦<Plug as Sensor>⟧.driver device.new) }
    ensures keeps { KeepsCaptures (view_of ⟦<Plug as Sensor>⟧.driver device.old) (view_of ⟦<Plug as Sensor>⟧.driver device.new) }
{
    match device.ev_close(who) {
        Ok(()) => Ok(()),
        Err(none) => Err(holder_no(none)),
    }
}

/// Takes the oldest scan of the member of that number and mask.
pub(crate) fn take(device: &mut Device<Kfifo>, number: u64, mask: Mask, out: &mut [u8]) -> Took
    requires { length out.old ≡ scan_size device.old.core.roster.shape mask.bits }
    ensures takes { TakesAt (id_of number mask) result out.new (station_by ⟦<Plug as Sensor>⟧.driver device.old)
        (station_by ⟦<Plug as Sensor>⟧.driver device.new) }
    ensures keeps { KeepsCaptures (view_of ⟦<Plug as Sensor>⟧.driver device.old) (view_of ⟦<Plug as Sensor>⟧.driver device.new) }
{
    if device.is_live_under(&Member { number }, mask) {
        take_from(device, number, mask, out)
    } else {
        nothing(device)
    }
}

// Takes the oldest scan of that member, which is there.
fn take_from(device: &mut Device<Kfifo>, number: u64, _mask: Mask, out: &mut [u8]) -> Took
    requires there { has_member (id_of number _mask) device.old.core.roster.members.items ≡ true }
    requires size { length out.old ≡ scan_size device.old.core.roster.shape _mask.bits }
    ensures takes { TakesAt (id_of number _mask) result out.new (station_by ⟦<Plug as Sensor>⟧.driver device.old)
        (station_by ⟦<Plug as Sensor>⟧.driver device.new) }
    ensures keeps { KeepsCaptures (view_of ⟦<Plug as Sensor>⟧.driver device.old) (view_of ⟦<Plug as Sensor>⟧.driver device.new) }
{
    match device.take(&Member { number }, out) {
        None => nothing(device),
        Some(false) => nothing(device),
        Some(true) => Took::Scan,
    }
}

/// Appends the oldest scans of the member of that number and mask, at most `most`, to `out`.
pub(crate) fn take_scans(
    device: &mut Device<Kfifo>,
    number: u64,
    mask: Mask,
    most: u32,
    out: &mut Vec<u8>,
) -> Took
    requires some { 1 ≤ most }
    requires room { length out.old.items + most * scan_size device.old.core.roster.shape mask.bits ≤ vec_capacity out.old }
    ensures takes { TakesScansAt (id_of number mask) most result out.old.items out.new.items (station_by ⟦<Plug as Sensor>⟧.driver device.old)
        (station_by ⟦<Plug as Sensor>⟧.driver device.new) }
    ensures keeps { KeepsCaptures (view_of ⟦<Plug as Sensor>⟧.driver device.old) (view_of ⟦<Plug as Sensor>⟧.driver device.new) }
    ensures most { length out.new.items ≤ length out.old.items + most * scan_size device.old.core.roster.shape mask.bits }
    ensures room { vec_capacity out.old ≤ vec_capacity out.new }
{
    match device.take_scans(&Member { number }, mask, most, out) {
        Some(count) if count > 0 => Took::Scan,
        _ => nothing(device),
    }
}

/// The answer if no scan waits.
pub(crate) fn nothing(device: &Device<Kfifo>) -> Took
    ensures { result ≡ nothing_at (station_by ⟦<Plug as Sensor>⟧.driver device.now) }
{
    if device.plugged() {
        Took::Empty
    } else {
        Took::Gone
    }
}

/// The number of scans that wait for the member of that number and mask, and of those that it lost; both are 0 if it isn't
/// there.
pub(crate) fn counts(device: &Device<Kfifo>, number: u64, mask: Mask) -> Counts
    ensures waiting { result.waiting ≡ length (scans_in (id_of number mask) (station_by ⟦<Plug as Sensor>⟧.driver device.now).members) }
    ensures lost { result.lost ≡ lost_in (id_of number mask) (station_by ⟦<Plug as Sensor>⟧.driver device.now).members }
{
    let member = Member { number };
    if !device.is_live_under(&member, mask) {
        return Counts {
            waiting: 0,
            lost: 0,
        };
    }
    Counts {
        waiting: u64::from(device.waiting(&member).unwrap_or(0)),
        lost: device.lost(&member).unwrap_or(0),
    }
}

/// Handles an entry of the device that its trigger has handed out.
#[inline(always)]
pub(crate) fn handle_due(device: &mut Device<Kfifo>, due: &Due) -> Handled
    requires { due.now.dev ≡ device.old.core.number }
    ensures answer { Some (Asked result)
        ≡ entry_became Input (Some due.now) (is_last device.old.core.roster.captures) (station_by ⟦<Plug as Sensor>⟧.driver device.old) }
    ensures station { station_by ⟦<Plug as Sensor>⟧.driver device.new
        ≡ entry_station Input (Some due.now) (is_last device.old.core.roster.captures) device.old.core.roster.shape
        (station_by ⟦<Plug as Sensor>⟧.driver device.old) }
    ensures captures { device.new.core.roster.captures ≡ counted (Some (Asked result)) device.old.core.roster.captures }
    ensures keeps { Keeps (view_of ⟦<Plug as Sensor>⟧.driver device.old) (view_of ⟦<Plug as Sensor>⟧.driver device.new) }
{
    device.handle(due)
}
