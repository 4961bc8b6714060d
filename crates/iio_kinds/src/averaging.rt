//! What calls and captures make of an averaging device.

ghost use Rattle.std.specs.Prelude.{◌≡◌, ◌+◌, ◌-◌, ◌*◌, ◌^◌, ◌≤◌, ◌<◌, ◌==◌, true, false, None, Some, IfOk, length, min, vec_capacity};
ghost use Rattle.iio_kfifo.specs.declared.limits.TheConstants.{MAX_BYTES};
ghost use Rattle.iio_layout.specs.Active.{has_data};
ghost use Rattle.iio_layout.specs.Layout.{scan_size};
ghost use Rattle.iio_layout.specs.Shape.{count_of};
ghost use Rattle.iio_derive.specs.Window.{full_mask};
ghost use Rattle.iio_core.specs.Calls.{has_no_number, station_after_join, station_after_leave};
ghost use Rattle.iio_core.specs.Machine.{Station, scans_in, with_site};
ghost use Rattle.iio_core.specs.Moves.{Capture, kind_sensed, station_after_look};
ghost use Rattle.iio_device.specs.Site.{unplugged};
ghost use Rattle.iio_kinds.specs.Acting.{MayReadOf, Reads, TakesAt, TakesScansAt, id_of, lost_in, nothing_at};
ghost use Rattle.iio_kinds.specs.Faults.{HasJoined, JoinsMean};
ghost use Rattle.iio_kinds.specs.Handling.{IsScanOf, is_last, kind_gathered};
ghost use Rattle.iio_kinds.specs.Seated.{attachment_with, attachment_without, seats_without, slot_at, slot_by};
ghost use Rattle.iio_kinds.specs.MeanStation.{KeepsMean, lost_of_means, mean_head, mean_station, means_head, new_mean_station};

use crate::mean_device::{MeanDevice, MeanSeat};
use crate::seat::Seat;
use iio_attr::{Attr, Name, Value};
use iio_base::Mem;
use iio_derive::{Average, reading_law};
use iio_device::{Sensed, Totals};
use iio_layout::{Shape, scan_size};
use iio_mask::Mask;
use iio_text::Errno;
use iiod_commands::{Counts, No, Took};
use std::alloc::Global;

// The slot of the member of that number.
fn slot_by(seats: &[MeanSeat], number: u64) -> Option<u32>
    ensures { result ≡ slot_by number seats.now }
{
    for seat in seats {
        if seat.number == number {
            return Some(seat.slot);
        }
    }
    None
}

// Removes the member of that number if it is there.
fn drop_seat(seats: &mut Vec<MeanSeat>, number: u64)
    ensures { seats.new.items ≡ seats_without number seats.old.items }
{
    seats.retain(|seat| seat.number != number);
}

// The number of the attachment after the last member's joining is undone; these are the members that are left.
fn attachment_without(seats: &[MeanSeat], starts: u64) -> u64
    ensures { result ≡ attachment_without seats.now starts }
{
    if seats.is_empty() {
        starts.saturating_sub(1)
    } else {
        starts
    }
}

// The slot of the member of that number and mask.
fn slot_of(seats: &[MeanSeat], number: u64, mask: Mask) -> Option<u32>
    ensures { result ≡ slot_at (id_of number mask) seats.now }
{
    for seat in seats {
        if seat.number == number && seat.mask.bits == mask.bits {
            return Some(seat.slot);
        }
    }
    None
}

impl MeanDevice {
    /// An averaging device before the first step, over the base of that number; `shape` has the base's channels.
    pub fn new(
        alloc: Global,
        name: Name,
        number: u32,
        base: u32,
        shape: Shape,
        window: u32,
    ) -> Result<MeanDevice, Mem>
        requires low { 2 ≤ window }
        requires high { window ≤ 1000 }
        ensures station { IfOk result (λ d. mean_station d ≡ new_mean_station shape) }
        ensures head { IfOk result (λ d. mean_head d ≡ means_head name base window shape) }
        ensures number { IfOk result (λ d. d.number ≡ number) }
    {
        Ok(MeanDevice {
            name,
            number,
            base,
            average: Average::new(alloc, shape, window)?,
            plugged: true,
            starts: 0,
            next: 0,
            captures: 0,
            totals: Totals::new(),
            seats: Vec::new(alloc),
        })
    }

    // The number of the attachment after another member's joining.
    fn attachment_with(&self) -> u64
        requires { has_no_number (mean_station self.now) ≡ false }
        ensures { result ≡ attachment_with self.now.seats.items self.now.starts }
    {
        if self.seats.is_empty() {
            self.starts + 1
        } else {
            self.starts
        }
    }

    /// Adds a member.
    pub(crate) fn join(&mut self, mask: Mask, capacity: u32) -> Result<Seat, No>
        requires number { has_no_number (mean_station self.old) ≡ false }
        requires below { mask.bits < 2 ^ count_of self.old.average.shape }
        requires channel { has_data self.old.average.shape mask.bits ≡ true }
        requires some { 1 ≤ capacity }
        requires bytes { capacity * scan_size self.old.average.shape mask.bits ≤ MAX_BYTES }
        ensures joins { JoinsMean mask capacity self.old.average.shape result (mean_station self.old) (mean_station self.new) }
        ensures keeps { KeepsMean self.old self.new }
    {
        let starts = self.attachment_with();
        if self.seats.reserve(1).is_err() {
            return Err(No::Mem);
        }
        let Ok(slot) = self.average.join(mask, capacity) else {
            return Err(No::Mem);
        };
        let number = self.next;
        let size = scan_size(self.average.shape(), mask);
        self.starts = starts;
        self.next += 1;
        self.seats.push_reserved(MeanSeat {
            number,
            slot,
            mask,
            capacity,
        });
        Ok(Seat {
            number,
            mask,
            size,
            capacity,
        })
    }

    /// Undoes the joining of the member of that seat, which was the last call.
    pub(crate) fn undo(&mut self, seat: Seat)
        requires { HasJoined seat.mask seat.capacity (mean_station self.old) }
        ensures station { (before : Station) → mean_station self.old ≡ station_after_join seat.mask.bits seat.capacity false None before
            → mean_station self.new ≡ before }
        ensures keeps { KeepsMean self.old self.new }
    {
        let Some(last) = self.seats.pop() else {
            return;
        };
        let _was = self.average.leave(last.slot);
        self.next -= 1;
        self.starts = attachment_without(&self.seats, self.starts);
    }

    /// Removes the member of that number, with the scans that wait for it.
    pub(crate) fn leave(&mut self, number: u64)
        ensures station { mean_station self.new ≡ station_after_leave number (mean_station self.old) }
        ensures keeps { KeepsMean self.old self.new }
    {
        let Some(slot) = slot_by(&self.seats, number) else {
            return;
        };
        drop_seat(&mut self.seats, number);
        self.totals.lose(self.average.lost(slot).unwrap_or(0));
        let _was = self.average.leave(slot);
    }

    // The number of means that it has made.
    fn made(&self) -> u64
        ensures { result ≡ self.now.captures }
    {
        self.captures
    }

    /// Takes a capture of its base, as the scan of all channels. It must have made fewer than 2^64 - 1 means.
    pub(crate) fn gather(&mut self, scan: &[u8])
        requires size { length scan.now ≡ scan_size self.old.average.shape (full_mask self.old.average.shape) }
        requires fewer { is_last self.old.captures ≡ false }
        ensures station { (c : Capture) → IsScanOf self.old.average.shape c scan.now
            → mean_station self.new ≡ kind_gathered (mean_head self.old).kind self.old.average.shape c (mean_station self.old) }
        ensures keeps { KeepsMean self.old self.new }
    {
        if !self.average.has_member() {
            return;
        }
        let captures = self.made();
        reading_law();
        match self.average.add(scan) {
            None => {}
            Some(_) => self.captures = captures + 1,
        }
    }

    // The answer if no scan waits.
    fn nothing(&self) -> Took
        ensures { result ≡ nothing_at (mean_station self.now) }
    {
        if self.plugged {
            Took::Empty
        } else {
            Took::Gone
        }
    }

    // Takes the oldest scan of the member in that slot.
    fn take_at(&mut self, slot: u32, _number: u64, _mask: Mask, out: &mut [u8]) -> Took
        requires there { slot_at (id_of _number _mask) self.old.seats.items ≡ Some slot }
        requires size { length out.old ≡ scan_size self.old.average.shape _mask.bits }
        ensures takes { TakesAt (id_of _number _mask) result out.new (mean_station self.old) (mean_station self.new) }
        ensures keeps { KeepsMean self.old self.new }
    {
        if !self.average.take(slot, out).unwrap_or(false) {
            return self.nothing();
        }
        self.totals.give(1, out);
        Took::Scan
    }

    // Appends the oldest scans of the member in that slot, at most `most`, to `out`.
    fn take_scans_at(
        &mut self,
        slot: u32,
        _number: u64,
        _mask: Mask,
        most: u32,
        out: &mut Vec<u8>,
    ) -> Took
        requires there { slot_at (id_of _number _mask) self.old.seats.items ≡ Some slot }
        requires some { 1 ≤ most }
        requires room { length out.old.items + most * scan_size self.old.average.shape _mask.bits ≤ vec_capacity out.old }
        ensures takes { TakesScansAt (id_of _number _mask) most result out.old.items out.new.items (mean_station self.old) (mean_station self.new) }
        ensures keeps { KeepsMean self.old self.new }
        ensures most { length out.new.items ≤ length out.old.items + most * scan_size self.old.average.shape _mask.bits }
        ensures room { vec_capacity out.old ≤ vec_capacity out.new }
    {
        let stood = out.len();
        let count = self.average.take_scans(slot, most, out).unwrap_or(0);
        if count == 0 {
            return self.nothing();
        }
        self.totals.give(count, &out[stood..]);
        Took::Scan
    }

    /// Takes the oldest scan of the member of that number and mask.
    pub(crate) fn take(&mut self, number: u64, mask: Mask, out: &mut [u8]) -> Took
        requires { length out.old ≡ scan_size self.old.average.shape mask.bits }
        ensures takes { TakesAt (id_of number mask) result out.new (mean_station self.old) (mean_station self.new) }
        ensures keeps { KeepsMean self.old self.new }
    {
        match slot_of(&self.seats, number, mask) {
            None => self.nothing(),
            Some(slot) => self.take_at(slot, number, mask, out),
        }
    }

    /// Appends the oldest scans of the member of that number and mask, at most `most`, to `out`.
    pub(crate) fn take_scans(
        &mut self,
        number: u64,
        mask: Mask,
        most: u32,
        out: &mut Vec<u8>,
    ) -> Took
        requires some { 1 ≤ most }
        requires room { length out.old.items + most * scan_size self.old.average.shape mask.bits ≤ vec_capacity out.old }
        ensures takes { TakesScansAt (id_of number mask) most result out.old.items out.new.items (mean_station self.old) (mean_station self.new) }
        ensures keeps { KeepsMean self.old self.new }
        ensures most { length out.new.items ≤ length out.old.items + most * scan_size self.old.average.shape mask.bits }
        ensures room { vec_capacity out.old ≤ vec_capacity out.new }
    {
        match slot_of(&self.seats, number, mask) {
            None => self.nothing(),
            Some(slot) => self.take_scans_at(slot, number, mask, most, out),
        }
    }

    /// The number of scans that wait for the member of that number and mask, and of those that it lost; both are 0 if it isn't
    /// there.
    pub(crate) fn counts(&self, number: u64, mask: Mask) -> Counts
        ensures waiting { result.waiting ≡ length (scans_in (id_of number mask) (mean_station self.now).members) }
        ensures lost { result.lost ≡ lost_in (id_of number mask) (mean_station self.now).members }
    {
        match slot_of(&self.seats, number, mask) {
            None => Counts {
                waiting: 0,
                lost: 0,
            },
            Some(slot) => Counts {
                waiting: u64::from(self.average.waiting(slot).unwrap_or(0)),
                lost: self.average.lost(slot).unwrap_or(0),
            },
        }
    }

    /// The number of scans that its members, present and past, lost. It stays at 2^64 - 1 once it gets there.
    pub(crate) fn overruns(&self) -> u64
        ensures { result ≡ min (lost_of_means self.now) (2 ^ 64 - 1) }
    {
        let mut total = self.totals.lost.get();
        for seat in &self.seats {
            total = total.saturating_add(self.average.lost(seat.slot).unwrap_or(0));
        }
        total
    }

    /// Returns its name, which is its only attribute besides those of its buffer.
    pub(crate) fn read_attr(&self, _t: i64, _channel: Option<u32>, _attr: Attr) -> Result<Value, No>
        requires { MayReadOf (mean_head self.now) _channel _attr }
        ensures { Reads (mean_head self.now) _t _channel _attr (mean_station self.now) result (mean_station self.now) }
    {
        if !self.plugged {
            return Err(No::Errno(Errno::ENODEV));
        }
        Ok(Value::Text(self.name.copy()))
    }

    /// Answers a look at its thresholds; it has none.
    pub(crate) fn sense(&self, _t: i64) -> Sensed
        ensures answer { result ≡ kind_sensed (mean_head self.now).kind self.now.average.shape _t (mean_station self.now) }
        ensures station { mean_station self.now ≡ station_after_look self.now.average.shape _t (mean_station self.now) }
    {
        Sensed::Fired(0)
    }

    /// Unplugs it. Returns whether it was plugged.
    pub(crate) fn unplug(&mut self) -> bool
        ensures answer { result ≡ self.old.plugged }
        ensures station { mean_station self.new ≡ with_site unplugged (mean_station self.old) }
        ensures keeps { KeepsMean self.old self.new }
    {
        let was_plugged = self.plugged;
        self.plugged = false;
        was_plugged
    }
}
