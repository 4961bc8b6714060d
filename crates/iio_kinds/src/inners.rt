//! What calls and entries make of an input device and its inner members.

ghost use Rattle.std.specs.Prelude.{◌≡◌, ◌≢◌, ⊤, All, ◌==◌, ◌+◌, ◌*◌, ◌^◌, ◌≤◌, ◌<◌, true, false, [], Err, IfSome, None, Some, is_some, length, map, vec_capacity};
ghost use Rattle.std.specs.List.{list_any};
ghost use Rattle.iio_base.specs.Refusals.{ensure, first_refusal};
ghost use Rattle.iio_text.specs.declared.errors.Errno.TheVariants.{EBADF, ENODEV};
ghost use Rattle.iio_desc.specs.Kind.{Input};
ghost use Rattle.iio_desc.specs.declared.limits.TheConstants.{MAX_TRIGGERS};
ghost use Rattle.iio_event.specs.Monitor.{after_close, after_open, after_read};
ghost use Rattle.iio_kfifo.specs.declared.limits.TheConstants.{MAX_BYTES};
ghost use Rattle.iio_scan_type.specs.Format.{IsInProfile};
ghost use Rattle.iio_layout.specs.Active.{has_data};
ghost use Rattle.iio_layout.specs.Layout.{scan_size};
ghost use Rattle.iio_layout.specs.Shape.{count_of};
ghost use Rattle.iio_device.specs.Device.{has_no_place, view_of};
ghost use Rattle.iio_device.specs.Site.{site_written, with_monitor, unplugged};
ghost use Rattle.iiod_commands.specs.declared.iio.No.TheVariants.{Mem};
ghost use Rattle.iio_core.specs.Calls.{ev_open_answer, ev_read_answer, holds_events, inner_gone, is_inner_of, station_after_leave, station_after_remask, trigger_answer};
ghost use Rattle.iio_core.specs.Machine.{scans_in, with_site};
ghost use Rattle.iio_kinds.specs.Acting.{Acts, KeepsCaptures, Reads, TakesAt, TakesScansAt, id_of, lost_in};
ghost use Rattle.iio_kinds.specs.Faults.{HostsAny, IsServedAlone, JoinsAny, MayHaveInner, any_refusals, joining_of};
ghost use Rattle.iio_kinds.specs.Handling.{IsTakenWhole, counted, entry_capture, entry_station, is_last, entry_became};
ghost use Rattle.iio_core.specs.Moves.{sensed_answer, station_after_look};
ghost use Rattle.iio_core.specs.declared.became.Became.TheVariants.{Asked};
ghost use Rattle.iio_kinds.specs.Inner.{AreApart, AreThere, AreWhole, HasRoom, inner_at, inners_without, number_by, number_of};
ghost use Rattle.iio_kinds.specs.Taking.{IsTakenOf, all_taken};
ghost use Rattle.iio_kinds.specs.Places.{is_hosted, place_left};
ghost use Rattle.iio_kinds.specs.Remasking.{remask_answer};
ghost use Rattle.iio_kinds.specs.Station.{KeepsIn, KeepsInCaptures, in_head, in_station, station_by};

use crate::calls;
use crate::in_device::{InDevice, Inner};
use crate::joining::{host_input, join_input};
use crate::remasking::remask;
use crate::seat::Seat;
use iio_attr::{Attr, Value};
use iio_device::{Device, Handled, Member, Plug, Sensed};
use iio_event::EventData;
use iio_kfifo::Kfifo;
use iio_layout::{Shape, scan_size};
use iio_mask::Mask;
use iio_sensor::Sensor;
use iio_text::{Errno, Fixed};
use iio_trigger::{Due, Trigger};
use iiod_commands::{Counts, No, Took};
use std::alloc::Global;

// Ensures that the types of a shape's channels are in the profile.
fn see_types(shape: &Shape)
    ensures { All (λ channel. IsInProfile channel.ty) shape.now.channels }
{
    for c in 0..shape.inputs() {
        let _size = shape.channel(c).ty.size();
    }
}

// The number of the inner member of that averaging device.
fn number_of(inners: &[Inner], average: u32) -> Option<u64>
    ensures { result ≡ number_by average inners.now }
{
    for inner in inners {
        if inner.average == average {
            return Some(inner.number);
        }
    }
    None
}

// The number of the averaging device whose inner member has that number.
fn average_at(inners: &[Inner], number: u64) -> Option<u32>
    ensures { result ≡ inner_at inners.now number }
{
    for inner in inners {
        if inner.number == number {
            return Some(inner.average);
        }
    }
    None
}

// Removes the inner member of that averaging device.
fn drop_inner(inners: &mut Vec<Inner>, average: u32)
    ensures { inners.new.items ≡ inners_without average inners.old.items }
{
    inners.retain(|inner| inner.average != average);
}

// Lets each inner member take the scan that waits for it.
fn take_all(device: &mut Device<Kfifo>, inners: &[Inner], room: &mut [u8])
    requires once { AreApart (map number_of inners.now) }
    requires there { AreThere device.old.core.roster.members.items inners.now }
    requires whole { AreWhole device.old.core.roster.shape inners.now device.old.core.roster.members.items }
    requires room { HasRoom device.old.core.roster.shape inners.now room.old }
    ensures station { station_by ⟦<Plug as Sensor>⟧.driver device.new ≡ all_taken inners.now (station_by ⟦<Plug as Sensor>⟧.driver device.old) }
    ensures taken { IsTakenOf inners.now (station_by ⟦<Plug as Sensor>⟧.driver device.old).members room.new }
    ensures same { length room.new ≡ length room.old }
    ensures keeps { KeepsCaptures (view_of ⟦<Plug as Sensor>⟧.driver device.old) (view_of ⟦<Plug as Sensor>⟧.driver device.new) }
{
    for inner in inners {
        let _taken = device.take_inside(
            &Member {
                number: inner.number,
            },
            room,
        );
    }
}

impl InDevice {
    /// An input device without an inner member.
    pub fn new(alloc: Global, device: Device<Kfifo>) -> InDevice
        requires { ⊤ }
        ensures { (result.device ≡ device) × (result.inners.items ≡ []) }
    {
        see_types(device.shape());
        InDevice {
            device,
            inners: Vec::new(alloc),
            room: Vec::new(alloc),
        }
    }

    // Whether the member of that number is an inner one.
    fn is_inner(&self, number: u64) -> bool
        ensures { result ≡ is_some (inner_at self.now.inners.items number) }
    {
        average_at(&self.inners, number).is_some()
    }

    /// Gives it another trigger, or takes its trigger away; a number that is given is below 16.
    pub(crate) fn set_trigger(&mut self, trigger: Option<u32>) -> Result<(), No>
        requires { IfSome trigger (λ t. t < MAX_TRIGGERS) }
        ensures acts { Acts (with_site (λ site. record site { trigger = trigger })) (trigger_answer (in_station ⟦<Plug as Sensor>⟧.driver self.old))
            result (in_station ⟦<Plug as Sensor>⟧.driver self.old) (in_station ⟦<Plug as Sensor>⟧.driver self.new) }
        ensures keeps { KeepsInCaptures self.old self.new }
    {
        calls::set_trigger(&mut self.device, trigger)
    }

    /// Returns the number of its trigger if a member of that mask may join by it.
    pub(crate) fn host(&self, triggers: &[Trigger], mask: Mask) -> Result<usize, No>
        requires hosted { is_hosted (length triggers.now) (in_station ⟦<Plug as Sensor>⟧.driver self.now) ≡ true }
        requires below { mask.bits < 2 ^ count_of self.now.device.core.roster.shape }
        requires channel { has_data self.now.device.core.roster.shape mask.bits ≡ true }
        ensures hosts { HostsAny triggers.now Input self.now.device.core.number self.now.device.core.roster.shape
            (in_station ⟦<Plug as Sensor>⟧.driver self.now) mask.bits result }
        ensures full { IsServedAlone Input self.now.device.core.roster.shape (in_station ⟦<Plug as Sensor>⟧.driver self.now) mask.bits }
    {
        host_input(&self.device, triggers, mask)
    }

    /// Adds a member, which may join by that trigger. `inner` is the number of the averaging device whose inner member it is,
    /// if it is one.
    pub(crate) fn join(
        &mut self,
        alloc: Global,
        trigger: &mut Trigger,
        mask: Mask,
        capacity: u32,
        inner: Option<u32>,
    ) -> Result<Seat, No>
        requires trigger { is_some (in_station ⟦<Plug as Sensor>⟧.driver self.old).site.trigger ≡ true }
        requires may { first_refusal
            (any_refusals (has_no_place self.old.device.core.number trigger.old) Input self.old.device.core.roster.shape
            (in_station ⟦<Plug as Sensor>⟧.driver self.old) mask.bits) ≡ None }
        requires inner { IfSome inner (MayHaveInner (in_head self.old) mask.bits capacity (in_station ⟦<Plug as Sensor>⟧.driver self.old)) }
        requires below { mask.bits < 2 ^ count_of self.old.device.core.roster.shape }
        requires channel { has_data self.old.device.core.roster.shape mask.bits ≡ true }
        requires some { 1 ≤ capacity }
        requires bytes { capacity * scan_size self.old.device.core.roster.shape mask.bits ≤ MAX_BYTES }
        ensures joins { JoinsAny (joining_of self.old.device.core.number self.old.device.core.roster.shape mask capacity false inner) result
            (in_station ⟦<Plug as Sensor>⟧.driver self.old) (in_station ⟦<Plug as Sensor>⟧.driver self.new) trigger.old trigger.new }
        ensures keeps { KeepsInCaptures self.old self.new }
    {
        match inner {
            None => join_input(alloc, &mut self.device, trigger, mask, capacity),
            Some(average) => self.join_inner(alloc, trigger, mask, capacity, average),
        }
    }

    // Adds the inner member of that averaging device, otherwise like `join`. Its room is made here.
    fn join_inner(
        &mut self,
        alloc: Global,
        trigger: &mut Trigger,
        mask: Mask,
        capacity: u32,
        average: u32,
    ) -> Result<Seat, No>
        requires trigger { is_some (in_station ⟦<Plug as Sensor>⟧.driver self.old).site.trigger ≡ true }
        requires may { first_refusal
            (any_refusals (has_no_place self.old.device.core.number trigger.old) Input self.old.device.core.roster.shape
            (in_station ⟦<Plug as Sensor>⟧.driver self.old) mask.bits) ≡ None }
        requires inner { MayHaveInner (in_head self.old) mask.bits capacity (in_station ⟦<Plug as Sensor>⟧.driver self.old) average }
        requires below { mask.bits < 2 ^ count_of self.old.device.core.roster.shape }
        requires channel { has_data self.old.device.core.roster.shape mask.bits ≡ true }
        requires some { 1 ≤ capacity }
        requires bytes { capacity * scan_size self.old.device.core.roster.shape mask.bits ≤ MAX_BYTES }
        ensures joins { JoinsAny (joining_of self.old.device.core.number self.old.device.core.roster.shape mask capacity false (Some average)) result
            (in_station ⟦<Plug as Sensor>⟧.driver self.old) (in_station ⟦<Plug as Sensor>⟧.driver self.new) trigger.old trigger.new }
        ensures keeps { KeepsInCaptures self.old self.new }
    {
        let size = scan_size(self.device.shape(), mask);
        if self.inners.reserve(1).is_err() {
            return Err(No::Mem);
        }
        if self.room.resize(size as usize, 0).is_err() {
            return Err(No::Mem);
        }
        match join_input(alloc, &mut self.device, trigger, mask, capacity) {
            Err(no) => Err(no),
            Ok(seat) => {
                self.inners.push_reserved(Inner {
                    number: seat.number,
                    average,
                });
                Ok(seat)
            }
        }
    }

    /// Removes the member of that number, by the device's trigger. An inner member isn't a connection's: then nothing changes.
    pub(crate) fn leave(&mut self, number: u64, trigger: &mut Trigger)
        ensures station { in_station ⟦<Plug as Sensor>⟧.driver self.new ≡ station_after_leave number (in_station ⟦<Plug as Sensor>⟧.driver self.old) }
        ensures trigger { trigger.new
            ≡ place_left self.old.device.core.number (in_station ⟦<Plug as Sensor>⟧.driver self.old)
            (in_station ⟦<Plug as Sensor>⟧.driver self.new) trigger.old }
        ensures keeps { KeepsInCaptures self.old self.new }
    {
        if self.is_inner(number) {
            return;
        }
        let _tail = self.device.leave(Member { number }, trigger);
    }

    /// Whether it has the inner member of the averaging device of that number.
    pub(crate) fn has_inner(&self, average: u32) -> bool
        ensures { result ≡ list_any (is_inner_of average) (in_station ⟦<Plug as Sensor>⟧.driver self.now).members }
    {
        number_of(&self.inners, average).is_some()
    }

    /// Removes the inner member of the averaging device of that number, if there is one, by the device's trigger.
    pub(crate) fn leave_inner(&mut self, average: u32, trigger: &mut Trigger)
        ensures station { in_station ⟦<Plug as Sensor>⟧.driver self.new ≡ inner_gone average (in_station ⟦<Plug as Sensor>⟧.driver self.old) }
        ensures trigger { trigger.new
            ≡ place_left self.old.device.core.number (in_station ⟦<Plug as Sensor>⟧.driver self.old)
            (in_station ⟦<Plug as Sensor>⟧.driver self.new) trigger.old }
        ensures keeps { KeepsInCaptures self.old self.new }
    {
        let Some(number) = number_of(&self.inners, average) else {
            return;
        };
        drop_inner(&mut self.inners, average);
        let _tail = self.device.leave(Member { number }, trigger);
    }

    /// Gives the member of a seat another mask, whose scans have `size` bytes: it begins anew. Returns how many scans waited
    /// for it. The caller then sets the seat's mask and size to these.
    pub(crate) fn remask(
        &mut self,
        alloc: Global,
        seat: &Seat,
        mask: Mask,
        size: u32,
    ) -> Result<u64, No>
        requires below { mask.bits < 2 ^ count_of self.old.device.core.roster.shape }
        requires channel { has_data self.old.device.core.roster.shape mask.bits ≡ true }
        requires sized { size ≡ scan_size self.old.device.core.roster.shape mask.bits }
        requires some { 1 ≤ seat.now.capacity }
        requires bytes { 1 ≤ size }
        requires fits { seat.now.capacity * size ≤ MAX_BYTES }
        ensures acts { Acts (station_after_remask seat.now.number mask.bits seat.now.capacity)
            (remask_answer self.old.device.core.roster.shape (in_station ⟦<Plug as Sensor>⟧.driver self.old) (id_of seat.now.number seat.now.mask) mask.bits)
            result (in_station ⟦<Plug as Sensor>⟧.driver self.old) (in_station ⟦<Plug as Sensor>⟧.driver self.new) }
        ensures keeps { KeepsInCaptures self.old self.new }
    {
        if !self.is_inner(seat.number) {
            return remask(alloc, &mut self.device, seat, mask, size);
        }
        if self.device.plugged() {
            Err(No::Errno(Errno::EBADF))
        } else {
            Err(No::Errno(Errno::ENODEV))
        }
    }

    /// Takes the oldest scan of the member of that number and mask.
    pub(crate) fn take(&mut self, number: u64, mask: Mask, out: &mut [u8]) -> Took
        requires { length out.old ≡ scan_size self.old.device.core.roster.shape mask.bits }
        ensures takes { TakesAt (id_of number mask) result out.new (in_station ⟦<Plug as Sensor>⟧.driver self.old)
            (in_station ⟦<Plug as Sensor>⟧.driver self.new) }
        ensures keeps { KeepsInCaptures self.old self.new }
    {
        if self.is_inner(number) {
            return calls::nothing(&self.device);
        }
        calls::take(&mut self.device, number, mask, out)
    }

    /// Appends the oldest scans of the member of that number and mask, at most `most`, to `out`.
    pub(crate) fn take_scans(
        &mut self,
        number: u64,
        mask: Mask,
        most: u32,
        out: &mut Vec<u8>,
    ) -> Took
        requires some { 1 ≤ most }
        requires room { length out.old.items + most * scan_size self.old.device.core.roster.shape mask.bits ≤ vec_capacity out.old }
        ensures takes { TakesScansAt (id_of number mask) most result out.old.items out.new.items (in_station ⟦<Plug as Sensor>⟧.driver self.old)
            (in_station ⟦<Plug as Sensor>⟧.driver self.new) }
        ensures keeps { KeepsInCaptures self.old self.new }
        ensures most { length out.new.items ≤ length out.old.items + most * scan_size self.old.device.core.roster.shape mask.bits }
        ensures room { vec_capacity out.old ≤ vec_capacity out.new }
    {
        if self.is_inner(number) {
            return calls::nothing(&self.device);
        }
        calls::take_scans(&mut self.device, number, mask, most, out)
    }

    /// The number of scans that wait for the member of that number and mask, and of those that it lost; both are 0 if it isn't
    /// there.
    pub(crate) fn counts(&self, number: u64, mask: Mask) -> Counts
        ensures waiting { result.waiting ≡ length (scans_in (id_of number mask) (in_station ⟦<Plug as Sensor>⟧.driver self.now).members) }
        ensures lost { result.lost ≡ lost_in (id_of number mask) (in_station ⟦<Plug as Sensor>⟧.driver self.now).members }
    {
        if self.is_inner(number) {
            return Counts {
                waiting: 0,
                lost: 0,
            };
        }
        calls::counts(&self.device, number, mask)
    }

    /// Returns the value of an attribute. For `raw` the sensor is asked at `t`.
    pub(crate) fn read_attr(
        &mut self,
        t: i64,
        channel: Option<u32>,
        attr: Attr,
    ) -> Result<Value, No>
        requires { IfSome channel (λ c. c < length self.old.device.core.roster.shape.channels) }
        ensures reads { Reads (in_head self.old) t channel attr (in_station ⟦<Plug as Sensor>⟧.driver self.old) result
            (in_station ⟦<Plug as Sensor>⟧.driver self.new) }
        ensures keeps { KeepsInCaptures self.old self.new }
    {
        calls::read_attr(&mut self.device, t, channel, attr)
    }

    /// Writes an attribute.
    pub(crate) fn write_attr(
        &mut self,
        channel: Option<u32>,
        attr: Attr,
        value: Fixed,
    ) -> Result<(), No>
        requires { IfSome channel (λ c. c < length self.old.device.core.roster.shape.channels) }
        ensures acts { Acts (with_site (site_written channel attr value)) (ensure (in_station ⟦<Plug as Sensor>⟧.driver self.old).site.plugged ENODEV)
            result (in_station ⟦<Plug as Sensor>⟧.driver self.old) (in_station ⟦<Plug as Sensor>⟧.driver self.new) }
        ensures keeps { KeepsInCaptures self.old self.new }
    {
        calls::write_attr(&mut self.device, channel, attr, value)
    }

    /// Makes the connection `who` the holder of its events.
    pub(crate) fn ev_open(&mut self, who: u32) -> Result<(), No>
        ensures acts { Acts (with_site (with_monitor (after_open who))) (ev_open_answer (in_station ⟦<Plug as Sensor>⟧.driver self.old))
            result (in_station ⟦<Plug as Sensor>⟧.driver self.old) (in_station ⟦<Plug as Sensor>⟧.driver self.new) }
        ensures keeps { KeepsInCaptures self.old self.new }
    {
        calls::ev_open(&mut self.device, who)
    }

    /// Takes the oldest event that waits for the connection `who`.
    pub(crate) fn ev_read(&mut self, who: u32) -> Result<Option<EventData>, No>
        ensures acts { Acts (with_site (with_monitor (after_read (λ a b. a == b) who))) (ev_read_answer who (in_station ⟦<Plug as Sensor>⟧.driver self.old))
            result (in_station ⟦<Plug as Sensor>⟧.driver self.old) (in_station ⟦<Plug as Sensor>⟧.driver self.new) }
        ensures keeps { KeepsInCaptures self.old self.new }
    {
        calls::ev_read(&mut self.device, who)
    }

    /// Ends the holding of its events by the connection `who`.
    pub(crate) fn ev_close(&mut self, who: u32) -> Result<(), No>
        ensures no_memory { result ≢ Err Mem }
        ensures acts { Acts (with_site (with_monitor (after_close (λ a b. a == b) who)))
            (ensure (holds_events who (in_station ⟦<Plug as Sensor>⟧.driver self.old)) EBADF)
            result (in_station ⟦<Plug as Sensor>⟧.driver self.old) (in_station ⟦<Plug as Sensor>⟧.driver self.new) }
        ensures keeps { KeepsInCaptures self.old self.new }
    {
        calls::ev_close(&mut self.device, who)
    }

    /// Handles an entry of it that was handed out. If a capture is made, each inner member takes its scan of it at once.
    #[inline(always)]
    pub(crate) fn handle(&mut self, due: &Due) -> Handled
        requires { due.now.dev ≡ self.old.device.core.number }
        ensures answer { Some (Asked result)
            ≡ entry_became Input (Some due.now) (is_last self.old.device.core.roster.captures) (in_station ⟦<Plug as Sensor>⟧.driver self.old) }
        ensures station { in_station ⟦<Plug as Sensor>⟧.driver self.new
            ≡ entry_station Input (Some due.now) (is_last self.old.device.core.roster.captures) self.old.device.core.roster.shape
            (in_station ⟦<Plug as Sensor>⟧.driver self.old) }
        ensures scan { IsTakenWhole self.old.device.core.roster.shape
            (entry_capture Input (Some due.now) (is_last self.old.device.core.roster.captures) self.old.device.core.roster.shape
            (in_station ⟦<Plug as Sensor>⟧.driver self.old))
            (in_station ⟦<Plug as Sensor>⟧.driver self.old).members self.new.room.items }
        ensures captures { self.new.device.core.roster.captures ≡ counted (Some (Asked result)) self.old.device.core.roster.captures }
        ensures keeps { KeepsIn self.old self.new }
    {
        let _t = due.t();
        let handled = calls::handle_due(&mut self.device, due);
        match handled {
            Handled::Captured(_) => take_all(&mut self.device, &self.inners, &mut self.room),
            _ => {}
        }
        handled
    }

    /// Looks at its thresholds at the moment `t`.
    pub(crate) fn sense(&mut self, t: i64) -> Sensed
        ensures answer { result ≡ sensed_answer self.old.device.core.roster.shape t (in_station ⟦<Plug as Sensor>⟧.driver self.old) }
        ensures station { in_station ⟦<Plug as Sensor>⟧.driver self.new
            ≡ station_after_look self.old.device.core.roster.shape t (in_station ⟦<Plug as Sensor>⟧.driver self.old) }
        ensures keeps { KeepsInCaptures self.old self.new }
    {
        self.device.sense(t)
    }

    /// Unplugs it. Returns whether it was plugged.
    pub(crate) fn unplug(&mut self) -> bool
        ensures answer { result ≡ (in_station ⟦<Plug as Sensor>⟧.driver self.old).site.plugged }
        ensures station { in_station ⟦<Plug as Sensor>⟧.driver self.new ≡ with_site unplugged (in_station ⟦<Plug as Sensor>⟧.driver self.old) }
        ensures keeps { KeepsInCaptures self.old self.new }
    {
        self.device.unplug()
    }
}
