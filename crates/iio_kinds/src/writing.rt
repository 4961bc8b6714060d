//! What calls and entries make of an output device.

ghost use Rattle.std.specs.Prelude.{◌≡◌, ℕ, ◌*◌, ◌^◌, ◌<◌, ◌≤◌, true, [], None, Some, is_some, length, map, IfOk, IfSome};
ghost use Rattle.iio_base.specs.Refusals.{first_refusal};
ghost use Rattle.iio_desc.specs.Description.{output_head};
ghost use Rattle.iio_desc.specs.Kind.{Output};
ghost use Rattle.iio_layout.specs.Active.{has_data};
ghost use Rattle.iio_layout.specs.Layout.{scan_size};
ghost use Rattle.iio_layout.specs.Shape.{count_of};
ghost use Rattle.iio_kfifo.specs.declared.limits.TheConstants.{MAX_BYTES};
ghost use Rattle.iio_output.specs.Out.{WriterRecord};
ghost use Rattle.iio_output.specs.Written.{scans_of};
ghost use Rattle.iio_device.specs.Device.{has_no_place};
ghost use Rattle.iio_core.specs.Calls.{station_after_leave, trigger_answer, write_scans_at, writes};
ghost use Rattle.iio_device.specs.Site.{unplugged};
ghost use Rattle.iio_core.specs.Machine.{member_in, scans_in, with_site};
ghost use Rattle.iio_core.specs.Moves.{station_after_entry, gave_answer, is_due, station_after_look, sensed_answer};
ghost use Rattle.iio_kinds.specs.Acting.{Acts, MayReadOf, Reads, id_of, lost_in};
ghost use Rattle.iio_kinds.specs.Faults.{HostsAny, JoinsAny, any_refusals, joining_of, lacks_place};
ghost use Rattle.iio_kinds.specs.Handling.{IsGiven};
ghost use Rattle.iio_kinds.specs.OutStation.{KeepsOut, answer_of, first_out_station, nowhere_answer, out_head, out_station};
ghost use Rattle.iio_kinds.specs.Places.{place_left};

use crate::out_device::OutDevice;
use crate::seat::Seat;
use iio_attr::{Attr, Value};
use iio_base::{Mem, Sum};
use iio_core::Gave;
use iio_desc::OutDesc;
use iio_device::Sensed;
use iio_layout::scan_size;
use iio_mask::Mask;
use iio_output::{Next, Out, OutFault, Wrote};
use iio_text::Errno;
use iio_trigger::{Due, Trigger};
use iiod_commands::{Counts, No};
use std::alloc::Global;

// The answer to a payload.
fn answer_of(wrote: Wrote) -> Result<u32, No>
    ensures { result ≡ answer_of wrote }
{
    match wrote {
        Wrote::Bytes(taken) => Ok(taken),
        Wrote::BadSize => Err(No::Errno(Errno::EINVAL)),
        Wrote::Standing => Err(No::Errno(Errno::EBUSY)),
        Wrote::Full => Err(No::Errno(Errno::EAGAIN)),
    }
}

impl OutDevice {
    /// An output device before the first step. Its description lists no masks.
    pub fn new(alloc: Global, desc: OutDesc, number: u32) -> Result<OutDevice, Mem>
        requires { desc.shape.listed ≡ [] }
        ensures station { IfOk result (λ d. out_station d ≡ first_out_station desc) }
        ensures head { IfOk result (λ d. out_head d ≡ output_head desc) }
        ensures number { IfOk result (λ d. d.number ≡ number) }
    {
        let OutDesc {
            name,
            trigger,
            shape,
        } = desc;
        Ok(OutDevice {
            name,
            number,
            out: Out::new(alloc, shape)?,
            plugged: true,
            trigger,
            starts: 0,
            lost: Sum::new(),
            room: Vec::new(alloc),
        })
    }

    // Whether the device's writer has that number and mask. A writer's scans have the size of its mask.
    fn is_live(&self, number: u64, mask: Mask) -> bool
        ensures live { result ≡ is_some (member_in (id_of number mask) (out_station self.now).members) }
        ensures sized { IfSome self.now.out.writer (λ (w : WriterRecord). w.size ≡ scan_size self.now.out.shape w.mask) }
    {
        match self.out.mask() {
            None => false,
            Some(own) => self.starts - 1 == number && own.bits == mask.bits,
        }
    }

    // Whether the trigger of that number has no place for the device; a trigger that isn't there has none.
    fn lacks_place(&self, triggers: &[Trigger], trigger: usize) -> bool
        ensures { result ≡ lacks_place self.now.number triggers.now (Some trigger) }
    {
        if trigger >= triggers.len() {
            return true;
        }
        !triggers[trigger].holds(self.number) && !triggers[trigger].free()
    }

    /// Returns the number of its trigger if it may get a writer by it; any mask will do.
    pub(crate) fn host(&self, triggers: &[Trigger]) -> Result<usize, No>
        ensures { (mask : ℕ) → HostsAny triggers.now Output self.now.number self.now.out.shape (out_station self.now) mask result }
    {
        if !self.plugged {
            return Err(No::Errno(Errno::ENODEV));
        }
        if self.out.mask().is_some() {
            return Err(No::Errno(Errno::EBUSY));
        }
        let Some(trigger) = self.trigger else {
            return Err(No::Errno(Errno::EINVAL));
        };
        if self.lacks_place(triggers, trigger as usize) || self.starts == u64::MAX {
            return Err(No::Errno(Errno::ENOSPC));
        }
        Ok(trigger as usize)
    }

    /// Starts a writer, which it may get by that trigger.
    pub(crate) fn start(
        &mut self,
        trigger: &mut Trigger,
        mask: Mask,
        capacity: u32,
        cyclic: bool,
    ) -> Result<Seat, No>
        requires may { first_refusal (any_refusals (has_no_place self.old.number trigger.old) Output self.old.out.shape (out_station self.old) mask.bits)
            ≡ None }
        requires below { mask.bits < 2 ^ count_of self.old.out.shape }
        requires channel { has_data self.old.out.shape mask.bits ≡ true }
        requires some { 1 ≤ capacity }
        requires bytes { capacity * scan_size self.old.out.shape mask.bits ≤ MAX_BYTES }
        ensures joins { JoinsAny (joining_of self.old.number self.old.out.shape mask capacity cyclic None) result (out_station self.old)
            (out_station self.new) trigger.old trigger.new }
        ensures keeps { KeepsOut self.old self.new }
    {
        let size = scan_size(self.out.shape(), mask);
        if self.room.resize(size as usize, 0).is_err() {
            return Err(No::Mem);
        }
        match self.out.start(mask, capacity, cyclic) {
            Err(OutFault::Busy) | Err(OutFault::Mem) => Err(No::Mem),
            Ok(()) => {
                let number = self.starts;
                self.starts += 1;
                let _place = trigger.attach(self.number, self.starts);
                Ok(Seat {
                    number,
                    mask,
                    size,
                    capacity,
                })
            }
        }
    }

    // The size of a scan under a mask; only the mask's bits for the device's channels count.
    fn size_under(&self, mask: Mask) -> u32
        ensures { result ≡ scan_size self.now.out.shape mask.bits }
    {
        let shape = self.out.shape();
        let count = shape.count();
        let bits = if count < 64 {
            mask.bits % (1 << count)
        } else {
            mask.bits
        };
        scan_size(shape, Mask { bits })
    }

    // The answer to a payload of a writer that isn't there: no scan has room.
    fn write_nowhere(&self, mask: Mask, bytes: &[u8]) -> Result<u32, No>
        ensures { result ≡ nowhere_answer (scan_size self.now.out.shape mask.bits) bytes.now }
    {
        if bytes.is_empty() {
            return Ok(0);
        }
        let size = self.size_under(mask) as usize;
        if size == 0 || bytes.len() % size != 0 {
            Err(No::Errno(Errno::EINVAL))
        } else {
            Err(No::Errno(Errno::EAGAIN))
        }
    }

    /// Writes scans for the writer of that number and mask.
    pub(crate) fn write(&mut self, number: u64, mask: Mask, bytes: &[u8]) -> Result<u32, No>
        ensures acts { Acts (λ st. record st
            { members = map (writes (id_of number mask) (scans_of (scan_size self.old.out.shape mask.bits) bytes.now)) st.members })
            (write_scans_at (out_station self.old) (id_of number mask) (scan_size self.old.out.shape mask.bits) bytes.now) result (out_station self.old)
            (out_station self.new) }
        ensures within { IfOk result (λ taken. taken ≤ length bytes.now) }
        ensures keeps { KeepsOut self.old self.new }
    {
        if !self.plugged {
            return Err(No::Errno(Errno::ENODEV));
        }
        if self.is_live(number, mask) {
            answer_of(self.out.write(bytes))
        } else {
            self.write_nowhere(mask, bytes)
        }
    }

    /// Removes the writer of that number, with the scans that wait.
    pub(crate) fn leave(&mut self, number: u64, trigger: &mut Trigger)
        ensures station { out_station self.new ≡ station_after_leave number (out_station self.old) }
        ensures trigger { trigger.new ≡ place_left self.old.number (out_station self.old) (out_station self.new) trigger.old }
        ensures keeps { KeepsOut self.old self.new }
    {
        if self.out.mask().is_none() {
            return;
        }
        if self.starts - 1 != number {
            return;
        }
        self.lost.add(self.out.underruns());
        self.out.stop();
        trigger.detach(self.number);
    }

    /// The number of scans of the writer of that number and mask that wait, and its underruns; both are 0 if it isn't there.
    pub(crate) fn counts(&self, number: u64, mask: Mask) -> Counts
        ensures waiting { result.waiting ≡ length (scans_in (id_of number mask) (out_station self.now).members) }
        ensures lost { result.lost ≡ lost_in (id_of number mask) (out_station self.now).members }
    {
        if !self.is_live(number, mask) {
            return Counts {
                waiting: 0,
                lost: 0,
            };
        }
        Counts {
            waiting: u64::from(self.out.waiting()),
            lost: self.out.underruns(),
        }
    }

    /// Gives it another trigger, or takes its trigger away.
    pub(crate) fn set_trigger(&mut self, trigger: Option<u32>) -> Result<(), No>
        ensures acts { Acts (with_site (λ site. record site { trigger = trigger })) (trigger_answer (out_station self.old)) result (out_station self.old)
            (out_station self.new) }
        ensures keeps { KeepsOut self.old self.new }
    {
        if !self.plugged {
            return Err(No::Errno(Errno::ENODEV));
        }
        if self.out.mask().is_some() {
            return Err(No::Errno(Errno::EBUSY));
        }
        self.trigger = trigger;
        Ok(())
    }

    /// Returns the value of an attribute that it has: its name, or element 0 of a channel in the last scan that it was given
    /// and that has it.
    pub(crate) fn read_attr(&self, _t: i64, channel: Option<u32>, _attr: Attr) -> Result<Value, No>
        requires { MayReadOf (out_head self.now) channel _attr }
        ensures { Reads (out_head self.now) _t channel _attr (out_station self.now) result (out_station self.now) }
    {
        if !self.plugged {
            return Err(No::Errno(Errno::ENODEV));
        }
        match channel {
            None => Ok(Value::Text(self.name.copy())),
            Some(c) => Ok(Value::Int(self.out.last(c))),
        }
    }

    /// Answers a look at its thresholds; it has none.
    pub(crate) fn sense(&self, _t: i64) -> Sensed
        ensures answer { result ≡ sensed_answer self.now.out.shape _t (out_station self.now) }
        ensures station { out_station self.now ≡ station_after_look self.now.out.shape _t (out_station self.now) }
    {
        if self.plugged {
            Sensed::Fired(0)
        } else {
            Sensed::Gone
        }
    }

    /// Unplugs it. Returns whether it was plugged.
    pub(crate) fn unplug(&mut self) -> bool
        ensures answer { result ≡ self.old.plugged }
        ensures station { out_station self.new ≡ with_site unplugged (out_station self.old) }
        ensures keeps { KeepsOut self.old self.new }
    {
        let was_plugged = self.plugged;
        self.plugged = false;
        was_plugged
    }

    // Whether an entry of it that was handed out is current.
    fn is_due(&self, due: &Due) -> bool
        ensures { result ≡ is_due due.now (out_station self.now) }
    {
        due.attachment() == self.starts && self.out.mask().is_some() && self.plugged
    }

    /// Handles an entry of it that was handed out: it is given the first scan that waits, which is then in `room`.
    pub(crate) fn handle(&mut self, due: &Due) -> Gave
        ensures answer { result ≡ gave_answer due.now (out_station self.old) }
        ensures station { out_station self.new ≡ station_after_entry Output self.old.out.shape (Some due.now) (out_station self.old) }
        ensures given { IsGiven result (out_station self.old).members self.new.room.items }
        ensures keeps { KeepsOut self.old self.new }
    {
        if !self.is_due(due) {
            return Gave::Idle;
        }
        match self.out.next(&mut self.room) {
            Next::Given => Gave::Given,
            Next::Underrun => Gave::Underrun,
        }
    }
}
