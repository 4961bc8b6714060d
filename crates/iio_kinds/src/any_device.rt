//! A device of a bench, of whichever kind.
//!
//! A call that doesn't apply to a kind excludes it in its `requires`. A refusal is a [`No`]: an errno, or memory that ran out,
//! after which nothing has changed.

ghost use Rattle.std.specs.Prelude.{◌≡◌, ◌≢◌, ◌==◌, ◌&&◌, ◌+◌, ◌-◌, ◌*◌, ◌^◌, ◌≤◌, ◌<◌, not, true, false, Err, IfOk, IfSome, None, Some, is_some, length, map, vec_capacity};
ghost use Rattle.std.specs.List.{list_any};
ghost use Rattle.iio_base.specs.Refusals.{ensure, first_refusal};
ghost use Rattle.iio_text.specs.declared.errors.Errno.TheVariants.{EBADF, ENODEV};
ghost use Rattle.iio_derive.specs.Window.{full_mask};
ghost use Rattle.iio_desc.specs.Kind.{is_average, is_input, is_output};
ghost use Rattle.iio_desc.specs.declared.limits.TheConstants.{MAX_TRIGGERS};
ghost use Rattle.iio_event.specs.Monitor.{after_close, after_open, after_read};
ghost use Rattle.iio_kfifo.specs.declared.limits.TheConstants.{MAX_BYTES};
ghost use Rattle.iio_layout.specs.Active.{has_data};
ghost use Rattle.iio_layout.specs.Layout.{scan_size};
ghost use Rattle.iio_layout.specs.Shape.{count_of};
ghost use Rattle.iio_output.specs.Written.{scans_of};
ghost use Rattle.iio_trigger.specs.Trigger.{without_entry};
ghost use Rattle.iio_device.specs.Device.{has_no_place};
ghost use Rattle.iio_device.specs.Site.{is_empty, site_written, with_monitor, unplugged};
ghost use Rattle.iiod_commands.specs.declared.iio.No.TheVariants.{Mem};
ghost use Rattle.iio_core.specs.Calls.{ev_open_answer, ev_read_answer, has_no_number, holds_events, inner_gone, is_inner_of, station_after_join, station_after_leave, station_after_remask, trigger_answer, write_scans_at, writes};
ghost use Rattle.iio_core.specs.Machine.{Station, scans_in, with_site};
ghost use Rattle.iio_core.specs.Moves.{Capture, kind_sensed, station_after_look};
ghost use Rattle.iio_core.specs.Trigger.{entry_of};
ghost use Rattle.iio_kinds.specs.Acting.{Acts, MayReadOf, Reads, TakesAt, TakesScansAt, id_of, lost_in};
ghost use Rattle.iio_kinds.specs.Faults.{HasJoined, HostsAny, IsServedAlone, JoinsAny, JoinsMean, MayHaveInner, any_refusals, joining_of};
ghost use Rattle.iio_kinds.specs.Handling.{IsRoom, IsScanOf, IsTakenWhole, counted, entry_capture, entry_station, is_last, kind_gathered, entry_became};
ghost use Rattle.iio_kinds.specs.Places.{has_in_hand, is_hosted, place_left, trigger_of};
ghost use Rattle.iio_kinds.specs.Remasking.{remask_answer};
ghost use Rattle.iio_kinds.specs.Station.{KeepsFront, KeepsHead, any_front, any_station, base_of, captures_by, full_scan_by, number_by, room_by};

use crate::in_device::InDevice;
use crate::mean_device::MeanDevice;
use crate::out_device::OutDevice;
use crate::seat::Seat;
use iio_attr::{Attr, Name, Value};
use iio_core::Became;
use iio_device::{Handled, Plug, Sensed};
use iio_event::EventData;
use iio_layout::Shape;
use iio_mask::Mask;
use iio_sensor::Sensor;
use iio_text::Fixed;
use iio_trigger::{Due, Trigger};
use iiod_commands::{Counts, No, Took};
use std::alloc::Global;

/// A device of a bench.
#[derive(Drop)]
pub enum AnyDevice {
    /// An input device: its sensor is asked.
    Input(InDevice),
    /// An output device: it is given what its only member writes.
    Output(OutDevice),
    /// An averaging device: it makes means of the captures of an input device.
    Average(MeanDevice),
}

impl AnyDevice {
    /// The device's name.
    pub fn name(&self) -> &Name
        ensures { result.now ≡ (any_front self.now).name }
    {
        match self {
            AnyDevice::Input(device) => &device.device.core.name,
            AnyDevice::Output(device) => &device.name,
            AnyDevice::Average(device) => &device.name,
        }
    }

    /// Its channels, with their places in a scan, and whether it has a timestamp.
    pub fn shape(&self) -> &Shape
        ensures { result.now ≡ (any_front self.now).shape }
    {
        match self {
            AnyDevice::Input(device) => device.device.shape(),
            AnyDevice::Output(device) => device.out.shape(),
            AnyDevice::Average(device) => device.average.shape(),
        }
    }

    /// Whether it is an output device.
    pub fn is_output(&self) -> bool
        ensures { result ≡ is_output (any_front self.now).kind }
    {
        match self {
            AnyDevice::Output(_) => true,
            _ => false,
        }
    }

    /// Whether it is an averaging device.
    pub fn is_average(&self) -> bool
        ensures { result ≡ is_average (any_front self.now).kind }
    {
        match self {
            AnyDevice::Average(_) => true,
            _ => false,
        }
    }

    /// The number of the input device whose captures an averaging device makes means of; `None` for another kind.
    pub fn base(&self) -> Option<u32>
        ensures { result ≡ base_of (any_front self.now).kind }
    {
        match self {
            AnyDevice::Average(device) => Some(device.base),
            _ => None,
        }
    }

    /// Whether it is plugged.
    pub fn plugged(&self) -> bool
        ensures { result ≡ (any_station ⟦<Plug as Sensor>⟧.driver self.now).site.plugged }
    {
        match self {
            AnyDevice::Input(device) => device.device.plugged(),
            AnyDevice::Output(device) => device.plugged,
            AnyDevice::Average(device) => device.plugged,
        }
    }

    /// Whether it has a member.
    pub fn has_member(&self) -> bool
        ensures { result ≡ not (is_empty (any_station ⟦<Plug as Sensor>⟧.driver self.now).members) }
    {
        match self {
            AnyDevice::Input(device) => device.device.members() > 0,
            AnyDevice::Output(device) => device.out.mask().is_some(),
            AnyDevice::Average(device) => !device.seats.is_empty(),
        }
    }

    /// Whether an averaging device has given out its last member number, 2^64 - 2: no further member can join.
    pub fn has_no_number(&self) -> bool
        requires { is_average (any_front self.now).kind ≡ true }
        ensures { result ≡ has_no_number (any_station ⟦<Plug as Sensor>⟧.driver self.now) }
    {
        match self {
            AnyDevice::Average(device) => device.next == u64::MAX,
            _ => unreachable!(),
        }
    }

    /// The number of its trigger, if it has one. An averaging device uses its base's, and has none of its own.
    pub fn trigger(&self) -> Option<u32>
        ensures { result ≡ (any_station ⟦<Plug as Sensor>⟧.driver self.now).site.trigger }
    {
        match self {
            AnyDevice::Input(device) => device.device.trigger(),
            AnyDevice::Output(device) => device.trigger,
            AnyDevice::Average(_) => None,
        }
    }

    /// Gives it the trigger of that number, which is below 16, or takes its trigger away. `ENODEV` if it is unplugged,
    /// otherwise `EBUSY` if it has a member.
    pub fn set_trigger(&mut self, trigger: Option<u32>) -> Result<(), No>
        requires own { is_average (any_front self.old).kind ≡ false }
        requires trigger { IfSome trigger (λ t. t < MAX_TRIGGERS) }
        ensures acts { Acts (with_site (λ site. record site { trigger = trigger })) (trigger_answer (any_station ⟦<Plug as Sensor>⟧.driver self.old))
            result (any_station ⟦<Plug as Sensor>⟧.driver self.old) (any_station ⟦<Plug as Sensor>⟧.driver self.new) }
        ensures keeps { KeepsFront self.old self.new }
    {
        match self {
            AnyDevice::Input(device) => device.set_trigger(trigger),
            AnyDevice::Output(device) => device.set_trigger(trigger),
            AnyDevice::Average(_) => unreachable!(),
        }
    }

    /// Returns the number of its trigger if a member of that mask may join by it. Otherwise the first of these that holds:
    /// `ENODEV` if it is unplugged, `EBUSY` if it is an output device with a writer, `EINVAL` if it has no trigger or none of
    /// its listed masks serves the members with the new one, `ENOSPC` if the trigger has no place left or the member numbers
    /// have run out.
    pub fn host(&self, triggers: &[Trigger], mask: Mask) -> Result<usize, No>
        requires own { is_average (any_front self.now).kind ≡ false }
        requires hosted { is_hosted (length triggers.now) (any_station ⟦<Plug as Sensor>⟧.driver self.now) ≡ true }
        requires below { mask.bits < 2 ^ count_of (any_front self.now).shape }
        requires channel { has_data (any_front self.now).shape mask.bits ≡ true }
        ensures hosts { HostsAny triggers.now (any_front self.now).kind (number_by self.now) (any_front self.now).shape
            (any_station ⟦<Plug as Sensor>⟧.driver self.now) mask.bits result }
        ensures full { IsServedAlone (any_front self.now).kind (any_front self.now).shape (any_station ⟦<Plug as Sensor>⟧.driver self.now) mask.bits }
    {
        match self {
            AnyDevice::Input(device) => device.host(triggers, mask),
            AnyDevice::Output(device) => device.host(triggers),
            AnyDevice::Average(_) => unreachable!(),
        }
    }

    /// Adds a member by that trigger, as [`host`](AnyDevice::host) allows, with an empty queue for `capacity` scans. If
    /// `cyclic`, the member is a writer whose scans come round again. `inner` is the number of the averaging device whose inner
    /// member it is, if it is one.
    pub fn join(
        &mut self,
        alloc: Global,
        trigger: &mut Trigger,
        mask: Mask,
        capacity: u32,
        cyclic: bool,
        inner: Option<u32>,
    ) -> Result<Seat, No>
        requires own { is_average (any_front self.old).kind ≡ false }
        requires trigger { is_some (any_station ⟦<Plug as Sensor>⟧.driver self.old).site.trigger ≡ true }
        requires may { first_refusal
            (any_refusals (has_no_place (number_by self.old) trigger.old) (any_front self.old).kind (any_front self.old).shape
            (any_station ⟦<Plug as Sensor>⟧.driver self.old) mask.bits) ≡ None }
        requires inner { IfSome inner (MayHaveInner (any_front self.old) mask.bits capacity (any_station ⟦<Plug as Sensor>⟧.driver self.old)) }
        requires cycles { (cyclic && not (is_output (any_front self.old).kind)) ≡ false }
        requires below { mask.bits < 2 ^ count_of (any_front self.old).shape }
        requires channel { has_data (any_front self.old).shape mask.bits ≡ true }
        requires some { 1 ≤ capacity }
        requires bytes { capacity * scan_size (any_front self.old).shape mask.bits ≤ MAX_BYTES }
        ensures joins { JoinsAny (joining_of (number_by self.old) (any_front self.old).shape mask capacity cyclic inner) result
            (any_station ⟦<Plug as Sensor>⟧.driver self.old) (any_station ⟦<Plug as Sensor>⟧.driver self.new) trigger.old trigger.new }
        ensures keeps { KeepsFront self.old self.new }
    {
        match self {
            AnyDevice::Input(device) => device.join(alloc, trigger, mask, capacity, inner),
            AnyDevice::Output(device) => device.start(trigger, mask, capacity, cyclic),
            AnyDevice::Average(_) => unreachable!(),
        }
    }

    /// Writes scans to an output device, for the writer of that number and mask. Returns how many of the bytes were taken,
    /// which is always whole scans. `ENODEV` if it is unplugged, `EINVAL` if the bytes aren't a whole number of scans or are
    /// more than a cyclic writer's queue holds, `EBUSY` if a cyclic writer has already written its scans, `EAGAIN` if there is
    /// no room for one scan.
    pub fn write(&mut self, number: u64, mask: Mask, bytes: &[u8]) -> Result<u32, No>
        requires { is_output (any_front self.old).kind ≡ true }
        ensures acts { Acts (λ st. record st
            { members = map (writes (id_of number mask) (scans_of (scan_size (any_front self.old).shape mask.bits) bytes.now)) st.members })
            (write_scans_at (any_station ⟦<Plug as Sensor>⟧.driver self.old) (id_of number mask) (scan_size (any_front self.old).shape mask.bits) bytes.now)
            result (any_station ⟦<Plug as Sensor>⟧.driver self.old) (any_station ⟦<Plug as Sensor>⟧.driver self.new) }
        ensures within { IfOk result (λ taken. taken ≤ length bytes.now) }
        ensures keeps { KeepsFront self.old self.new }
    {
        match self {
            AnyDevice::Output(device) => device.write(number, mask, bytes),
            _ => unreachable!(),
        }
    }

    /// Removes the member of that number, with the scans that wait for it. When the last one leaves, the device's place at the
    /// trigger is freed. If there is no such member, or it is an inner one, nothing changes.
    pub fn leave(&mut self, number: u64, trigger: &mut Trigger)
        requires own { is_average (any_front self.old).kind ≡ false }
        ensures station { any_station ⟦<Plug as Sensor>⟧.driver self.new ≡ station_after_leave number (any_station ⟦<Plug as Sensor>⟧.driver self.old) }
        ensures trigger { trigger.new
            ≡ place_left (number_by self.old) (any_station ⟦<Plug as Sensor>⟧.driver self.old) (any_station ⟦<Plug as Sensor>⟧.driver self.new) trigger.old }
        ensures keeps { KeepsFront self.old self.new }
    {
        match self {
            AnyDevice::Input(device) => device.leave(number, trigger),
            AnyDevice::Output(device) => device.leave(number, trigger),
            AnyDevice::Average(_) => unreachable!(),
        }
    }

    /// Whether it has the inner member of the averaging device of that number.
    pub(crate) fn has_inner(&self, average: u32) -> bool
        ensures { result ≡ list_any (is_inner_of average) (any_station ⟦<Plug as Sensor>⟧.driver self.now).members }
    {
        match self {
            AnyDevice::Input(device) => device.has_inner(average),
            _ => false,
        }
    }

    /// Removes from an input device the inner member of the averaging device of that number, if there is one.
    pub fn leave_inner(&mut self, average: u32, trigger: &mut Trigger)
        requires { is_input (any_front self.old).kind ≡ true }
        ensures station { any_station ⟦<Plug as Sensor>⟧.driver self.new ≡ inner_gone average (any_station ⟦<Plug as Sensor>⟧.driver self.old) }
        ensures trigger { trigger.new
            ≡ place_left (number_by self.old) (any_station ⟦<Plug as Sensor>⟧.driver self.old) (any_station ⟦<Plug as Sensor>⟧.driver self.new) trigger.old }
        ensures keeps { KeepsFront self.old self.new }
    {
        match self {
            AnyDevice::Input(device) => device.leave_inner(average, trigger),
            _ => unreachable!(),
        }
    }

    /// Adds a member to an averaging device, with an empty queue for `capacity` means.
    pub fn join_mean(&mut self, mask: Mask, capacity: u32) -> Result<Seat, No>
        requires average { is_average (any_front self.old).kind ≡ true }
        requires number { has_no_number (any_station ⟦<Plug as Sensor>⟧.driver self.old) ≡ false }
        requires below { mask.bits < 2 ^ count_of (any_front self.old).shape }
        requires channel { has_data (any_front self.old).shape mask.bits ≡ true }
        requires some { 1 ≤ capacity }
        requires bytes { capacity * scan_size (any_front self.old).shape mask.bits ≤ MAX_BYTES }
        ensures joins { JoinsMean mask capacity (any_front self.old).shape result (any_station ⟦<Plug as Sensor>⟧.driver self.old)
            (any_station ⟦<Plug as Sensor>⟧.driver self.new) }
        ensures keeps { KeepsFront self.old self.new }
    {
        match self {
            AnyDevice::Average(device) => device.join(mask, capacity),
            _ => unreachable!(),
        }
    }

    /// Undoes the joining of that member, which was the last call on this averaging device.
    pub fn undo_join(&mut self, seat: Seat)
        requires average { is_average (any_front self.old).kind ≡ true }
        requires joined { HasJoined seat.mask seat.capacity (any_station ⟦<Plug as Sensor>⟧.driver self.old) }
        ensures station { (before : Station)
            → any_station ⟦<Plug as Sensor>⟧.driver self.old ≡ station_after_join seat.mask.bits seat.capacity false None before
            → any_station ⟦<Plug as Sensor>⟧.driver self.new ≡ before }
        ensures keeps { KeepsFront self.old self.new }
    {
        match self {
            AnyDevice::Average(device) => device.undo(seat),
            _ => unreachable!(),
        }
    }

    /// Removes the member of that number, if there is one, from an averaging device, with the scans that wait for it.
    pub fn leave_mean(&mut self, number: u64)
        requires { is_average (any_front self.old).kind ≡ true }
        ensures station { any_station ⟦<Plug as Sensor>⟧.driver self.new ≡ station_after_leave number (any_station ⟦<Plug as Sensor>⟧.driver self.old) }
        ensures keeps { KeepsFront self.old self.new }
    {
        match self {
            AnyDevice::Average(device) => device.leave(number),
            _ => unreachable!(),
        }
    }

    /// Gives an averaging device a capture of its base, as the scan of all channels. At the end of a window each member is
    /// offered the mean. The device must have made fewer than 2^64 - 1 means.
    pub fn gather(&mut self, scan: &[u8])
        requires average { is_average (any_front self.old).kind ≡ true }
        requires size { length scan.now ≡ scan_size (any_front self.old).shape (full_mask (any_front self.old).shape) }
        requires fewer { is_last (any_station ⟦<Plug as Sensor>⟧.driver self.old).captures ≡ false }
        ensures station { (c : Capture) → IsScanOf (any_front self.old).shape c scan.now
            → any_station ⟦<Plug as Sensor>⟧.driver self.new
            ≡ kind_gathered (any_front self.old).kind (any_front self.old).shape c (any_station ⟦<Plug as Sensor>⟧.driver self.old) }
        ensures keeps { KeepsFront self.old self.new }
    {
        match self {
            AnyDevice::Average(device) => device.gather(scan),
            _ => unreachable!(),
        }
    }

    /// Gives the member of a seat at an input device another mask, whose scans have `size` bytes, and an empty queue: it begins
    /// anew. Returns how many scans waited and are discarded; the caller then sets the seat's mask and size. `ENODEV` if it is
    /// unplugged, `EBADF` if the member isn't there, `EINVAL` if none of the listed masks serves the other members with the new
    /// mask.
    pub fn remask(&mut self, alloc: Global, seat: &Seat, mask: Mask, size: u32) -> Result<u64, No>
        requires input { is_input (any_front self.old).kind ≡ true }
        requires below { mask.bits < 2 ^ count_of (any_front self.old).shape }
        requires channel { has_data (any_front self.old).shape mask.bits ≡ true }
        requires sized { size ≡ scan_size (any_front self.old).shape mask.bits }
        requires some { 1 ≤ seat.now.capacity }
        requires bytes { 1 ≤ size }
        requires fits { seat.now.capacity * size ≤ MAX_BYTES }
        ensures acts { Acts (station_after_remask seat.now.number mask.bits seat.now.capacity)
            (remask_answer (any_front self.old).shape (any_station ⟦<Plug as Sensor>⟧.driver self.old) (id_of seat.now.number seat.now.mask) mask.bits)
            result (any_station ⟦<Plug as Sensor>⟧.driver self.old) (any_station ⟦<Plug as Sensor>⟧.driver self.new) }
        ensures keeps { KeepsFront self.old self.new }
    {
        match self {
            AnyDevice::Input(device) => device.remask(alloc, seat, mask, size),
            _ => unreachable!(),
        }
    }

    /// Takes the oldest scan that waits for the member of that number and mask, at an input or averaging device. Returns
    /// `Empty` if none waits, and `Gone` if none waits and the device is unplugged.
    pub fn take(&mut self, number: u64, mask: Mask, out: &mut [u8]) -> Took
        requires read { is_output (any_front self.old).kind ≡ false }
        requires size { length out.old ≡ scan_size (any_front self.old).shape mask.bits }
        ensures takes { TakesAt (id_of number mask) result out.new (any_station ⟦<Plug as Sensor>⟧.driver self.old)
            (any_station ⟦<Plug as Sensor>⟧.driver self.new) }
        ensures keeps { KeepsFront self.old self.new }
    {
        match self {
            AnyDevice::Input(device) => device.take(number, mask, out),
            AnyDevice::Output(_) => unreachable!(),
            AnyDevice::Average(device) => device.take(number, mask, out),
        }
    }

    /// Takes the oldest scans, at most `most`, and appends them to `out`, which must have room for them; otherwise like
    /// [`take`](AnyDevice::take).
    pub fn take_scans(&mut self, number: u64, mask: Mask, most: u32, out: &mut Vec<u8>) -> Took
        requires read { is_output (any_front self.old).kind ≡ false }
        requires some { 1 ≤ most }
        requires room { length out.old.items + most * scan_size (any_front self.old).shape mask.bits ≤ vec_capacity out.old }
        ensures takes { TakesScansAt (id_of number mask) most result out.old.items out.new.items (any_station ⟦<Plug as Sensor>⟧.driver self.old)
            (any_station ⟦<Plug as Sensor>⟧.driver self.new) }
        ensures keeps { KeepsFront self.old self.new }
        ensures most { length out.new.items ≤ length out.old.items + most * scan_size (any_front self.old).shape mask.bits }
        ensures room { vec_capacity out.old ≤ vec_capacity out.new }
    {
        match self {
            AnyDevice::Input(device) => device.take_scans(number, mask, most, out),
            AnyDevice::Output(_) => unreachable!(),
            AnyDevice::Average(device) => device.take_scans(number, mask, most, out),
        }
    }

    /// How many scans wait for the member of that number and mask, and how many it lost (of a writer: how often none waited).
    /// Both are 0 if it isn't there.
    pub fn counts(&self, number: u64, mask: Mask) -> Counts
        ensures waiting { result.waiting ≡ length (scans_in (id_of number mask) (any_station ⟦<Plug as Sensor>⟧.driver self.now).members) }
        ensures lost { result.lost ≡ lost_in (id_of number mask) (any_station ⟦<Plug as Sensor>⟧.driver self.now).members }
    {
        match self {
            AnyDevice::Input(device) => device.counts(number, mask),
            AnyDevice::Output(device) => device.counts(number, mask),
            AnyDevice::Average(device) => device.counts(number, mask),
        }
    }

    /// Returns the value of an attribute that it has. `ENODEV` if it is unplugged. `raw` of an input device asks the sensor at
    /// `t`: `EBUSY` if the device has a member, `EIO` if the sensor fails.
    pub fn read_attr(&mut self, t: i64, channel: Option<u32>, attr: Attr) -> Result<Value, No>
        requires { MayReadOf (any_front self.old) channel attr }
        ensures reads { Reads (any_front self.old) t channel attr (any_station ⟦<Plug as Sensor>⟧.driver self.old) result
            (any_station ⟦<Plug as Sensor>⟧.driver self.new) }
        ensures keeps { KeepsFront self.old self.new }
    {
        match self {
            AnyDevice::Input(device) => device.read_attr(t, channel, attr),
            AnyDevice::Output(device) => device.read_attr(t, channel, attr),
            AnyDevice::Average(device) => device.read_attr(t, channel, attr),
        }
    }

    /// Writes an attribute of an input device. `ENODEV` if it is unplugged.
    pub fn write_attr(&mut self, channel: Option<u32>, attr: Attr, value: Fixed) -> Result<(), No>
        requires input { is_input (any_front self.old).kind ≡ true }
        requires channel { IfSome channel (λ c. c < length (any_front self.old).shape.channels) }
        ensures acts { Acts (with_site (site_written channel attr value)) (ensure (any_station ⟦<Plug as Sensor>⟧.driver self.old).site.plugged ENODEV)
            result (any_station ⟦<Plug as Sensor>⟧.driver self.old) (any_station ⟦<Plug as Sensor>⟧.driver self.new) }
        ensures keeps { KeepsFront self.old self.new }
    {
        match self {
            AnyDevice::Input(device) => device.write_attr(channel, attr, value),
            _ => unreachable!(),
        }
    }

    /// Makes the connection `who` the holder of an input device's events. `ENODEV` if it is unplugged, `EBUSY` if they have a
    /// holder.
    pub fn ev_open(&mut self, who: u32) -> Result<(), No>
        requires { is_input (any_front self.old).kind ≡ true }
        ensures acts { Acts (with_site (with_monitor (after_open who))) (ev_open_answer (any_station ⟦<Plug as Sensor>⟧.driver self.old))
            result (any_station ⟦<Plug as Sensor>⟧.driver self.old) (any_station ⟦<Plug as Sensor>⟧.driver self.new) }
        ensures keeps { KeepsFront self.old self.new }
    {
        match self {
            AnyDevice::Input(device) => device.ev_open(who),
            _ => unreachable!(),
        }
    }

    /// Takes the oldest event that waits for its holder, and returns `None` if none waits. `ENODEV` if the device is unplugged,
    /// `EBADF` if the connection `who` isn't the holder.
    pub fn ev_read(&mut self, who: u32) -> Result<Option<EventData>, No>
        requires { is_input (any_front self.old).kind ≡ true }
        ensures acts { Acts (with_site (with_monitor (after_read (λ a b. a == b) who))) (ev_read_answer who (any_station ⟦<Plug as Sensor>⟧.driver self.old))
            result (any_station ⟦<Plug as Sensor>⟧.driver self.old) (any_station ⟦<Plug as Sensor>⟧.driver self.new) }
        ensures keeps { KeepsFront self.old self.new }
    {
        match self {
            AnyDevice::Input(device) => device.ev_read(who),
            _ => unreachable!(),
        }
    }

    /// Ends the holding of an input device's events by the connection `who`. `EBADF` if it isn't their holder.
    pub fn ev_close(&mut self, who: u32) -> Result<(), No>
        requires { is_input (any_front self.old).kind ≡ true }
        ensures no_memory { result ≢ Err Mem }
        ensures acts { Acts (with_site (with_monitor (after_close (λ a b. a == b) who)))
            (ensure (holds_events who (any_station ⟦<Plug as Sensor>⟧.driver self.old)) EBADF)
            result (any_station ⟦<Plug as Sensor>⟧.driver self.old) (any_station ⟦<Plug as Sensor>⟧.driver self.new) }
        ensures keeps { KeepsFront self.old self.new }
    {
        match self {
            AnyDevice::Input(device) => device.ev_close(who),
            _ => unreachable!(),
        }
    }

    // Handles an entry that was handed out.
    #[inline(always)]
    fn handle_due(&mut self, due: &Due) -> Became
        requires { due.now.dev ≡ number_by self.old }
        ensures answer { Some result
            ≡ entry_became (any_front self.old).kind (Some due.now) (is_last (captures_by self.old)) (any_station ⟦<Plug as Sensor>⟧.driver self.old) }
        ensures station { any_station ⟦<Plug as Sensor>⟧.driver self.new
            ≡ entry_station (any_front self.old).kind (Some due.now) (is_last (captures_by self.old)) (any_front self.old).shape
            (any_station ⟦<Plug as Sensor>⟧.driver self.old) }
        ensures room { IsRoom (Some result) (any_station ⟦<Plug as Sensor>⟧.driver self.old).members (room_by self.new) }
        ensures scan { IsTakenWhole (any_front self.old).shape
            (entry_capture (any_front self.old).kind (Some due.now) (is_last (captures_by self.old)) (any_front self.old).shape
            (any_station ⟦<Plug as Sensor>⟧.driver self.old))
            (any_station ⟦<Plug as Sensor>⟧.driver self.old).members (full_scan_by self.new) }
        ensures captures { captures_by self.new ≡ counted (Some result) (captures_by self.old) }
        ensures keeps { KeepsHead self.old self.new }
    {
        match self {
            AnyDevice::Input(device) => Became::Asked(device.handle(due)),
            AnyDevice::Output(device) => Became::Gave(device.handle(due)),
            AnyDevice::Average(_) => Became::Asked(Handled::Idle),
        }
    }

    /// Handles the device's entry at a trigger, and removes it; `dev` is the device's number. Returns `None` exactly if it has
    /// no entry.
    #[inline(always)]
    pub fn handle(&mut self, trigger: &mut Trigger, dev: u32) -> Option<Became>
        requires number { dev ≡ number_by self.old }
        requires idle { has_in_hand trigger.old.outstanding ≡ false }
        ensures answer { result ≡ entry_became (any_front self.old).kind (entry_of dev (trigger_of trigger.old).entries) (is_last (captures_by self.old))
            (any_station ⟦<Plug as Sensor>⟧.driver self.old) }
        ensures station { any_station ⟦<Plug as Sensor>⟧.driver self.new
            ≡ entry_station (any_front self.old).kind (entry_of dev (trigger_of trigger.old).entries) (is_last (captures_by self.old))
            (any_front self.old).shape
            (any_station ⟦<Plug as Sensor>⟧.driver self.old) }
        ensures room { IsRoom result (any_station ⟦<Plug as Sensor>⟧.driver self.old).members (room_by self.new) }
        ensures scan { IsTakenWhole (any_front self.old).shape
            (entry_capture (any_front self.old).kind (entry_of dev (trigger_of trigger.old).entries) (is_last (captures_by self.old)) (any_front self.old).shape
            (any_station ⟦<Plug as Sensor>⟧.driver self.old))
            (any_station ⟦<Plug as Sensor>⟧.driver self.old).members (full_scan_by self.new) }
        ensures captures { captures_by self.new ≡ counted result (captures_by self.old) }
        ensures keeps { KeepsHead self.old self.new }
        ensures trigger { trigger.new ≡ record trigger.old { outstanding = without_entry dev trigger.old.outstanding } }
    {
        match trigger.due(dev) {
            None => None,
            Some(due) => {
                let became = self.handle_due(&due);
                trigger.done(due);
                Some(became)
            }
        }
    }

    /// The scan that an output device was given last, under its writer's mask; empty for another kind.
    pub fn room(&self) -> &[u8]
        ensures { result.now ≡ room_by self.now }
    {
        match self {
            AnyDevice::Output(device) => &device.room,
            _ => &[],
        }
    }

    /// The scan of all channels that an input device's inner members took last; empty for another kind.
    pub fn full_scan(&self) -> &[u8]
        ensures { result.now ≡ full_scan_by self.now }
    {
        match self {
            AnyDevice::Input(device) => &device.room,
            _ => &[],
        }
    }

    /// Looks at an input device's thresholds at the moment `t`; a device of another kind has none, and nothing is asked.
    pub fn sense(&mut self, t: i64) -> Sensed
        ensures answer { result ≡ kind_sensed (any_front self.old).kind (any_front self.old).shape t (any_station ⟦<Plug as Sensor>⟧.driver self.old) }
        ensures station { any_station ⟦<Plug as Sensor>⟧.driver self.new
            ≡ station_after_look (any_front self.old).shape t (any_station ⟦<Plug as Sensor>⟧.driver self.old) }
        ensures keeps { KeepsFront self.old self.new }
    {
        match self {
            AnyDevice::Input(device) => device.sense(t),
            AnyDevice::Output(device) => device.sense(t),
            AnyDevice::Average(device) => device.sense(t),
        }
    }

    /// Unplugs it for good. Returns whether it was plugged.
    pub fn unplug(&mut self) -> bool
        ensures answer { result ≡ (any_station ⟦<Plug as Sensor>⟧.driver self.old).site.plugged }
        ensures station { any_station ⟦<Plug as Sensor>⟧.driver self.new ≡ with_site unplugged (any_station ⟦<Plug as Sensor>⟧.driver self.old) }
        ensures keeps { KeepsFront self.old self.new }
    {
        match self {
            AnyDevice::Input(device) => device.unplug(),
            AnyDevice::Output(device) => device.unplug(),
            AnyDevice::Average(device) => device.unplug(),
        }
    }
}
