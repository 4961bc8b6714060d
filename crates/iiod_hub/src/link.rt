//! A hub as one connection uses it.

ghost use Rattle.std.specs.Prelude.{◌≡◌, ◌≢◌, ℕ, ◌+◌, ◌*◌, ◌<◌, ◌≤◌, length, Option, Some, None, Err, option_map, vec_capacity, IfSome, IfOk, true, false};
ghost use Rattle.std.specs.Bool.{OnFalse};
ghost use Rattle.iio_kfifo.specs.Ends.{Ends, WriterEnd};
ghost use Rattle.iio_desc.specs.declared.limits.TheConstants.{MAX_TRIGGERS};
ghost use Rattle.iio_trigger.specs.Trigger.{Polls};
ghost use Rattle.iio_core.specs.Front.{find_device, find_trigger, shape_at, size_at, trigger_name};
ghost use Rattle.iiod_commands.specs.Reading.{TakesScans, reading};
ghost use Rattle.iiod_commands.specs.Seat.{IsNew, IsOfDevice, MayOpen, Remasks, after_take};
ghost use Rattle.iiod_commands.specs.Target.{MayRead, MayWrite};
ghost use Rattle.iiod_bank.specs.Jobs.{EvCloseMakes, EvOpenMakes, EvReadMakes, LeaveMakes, LostMakes, ReadMakes, SetTriggerMakes, UnplugMakes, WriteMakes, buffer_of};
ghost use Rattle.iiod_hub.specs.Link.{BankHandles, BankOpens, RefusedBySome, Swept, seen_of};
ghost use Rattle.iiod_hub.specs.Remasking.{BankRemasks, RemaskRefusedBySome};
ghost use Rattle.iiod_bank.specs.Received.{SawClosed, SawOpen, received_of, size_of};
ghost use Rattle.iiod_bank.specs.Told.{Moves, Only, Ran, RanAt, Told, is_plugged_at, trigger_number_at};

use crate::seat::HubSeat;
use iio_attr::{Attr, Value};
use iio_device::Handled;
use iio_event::EventData;
use iio_kfifo::{Ended, Reader, Writer};
use iio_layout::{Shape, scan_size};
use iio_mask::Mask;
use iio_text::{Errno, Fixed};
use iio_trigger::{Due, Polled};
use iiod_bank::{
    Alone, Bank, DeviceJob, DoneJob, DueJob, EvCloseWork, EvOpenWork, EvReadWork, HandleWork,
    HubFront, LeaveJob, LostWork, OpenJob, Opened, PollJob, ReadWork, RemaskWork, Remasked,
    TriggerJob, TriggerWork, UnplugJob, Work, WriteWork,
};
use iiod_commands::{Counts, Iio, No, Took};
use std::alloc::Global;

/// A hub as one connection uses it.
#[derive(Drop)]
pub struct HubLink<B> {
    pub bank: B,
    pub alloc: Global,
}

// Closes the writer that a member left behind.
fn close_writer(writer: Option<Writer>) {
    if let Some(writer) = writer {
        writer.close();
    }
}

// Returns the number of scans lost: what the device says of the member, otherwise what the closed ring says.
fn lost_of(reader: &mut Reader, told: Option<u64>) -> u64
    ensures told { IfSome told (λ n. result ≡ n) }
    ensures same { received_of reader.new ≡ received_of reader.old }
    ensures size { size_of reader.new ≡ size_of reader.old }
{
    match told {
        Some(lost) => lost,
        None => reader.lost().unwrap_or(0),
    }
}

impl<B: Bank> Iio for HubLink<B> {
    ghost use Rattle.std.specs.Prelude.{None, Some};
    ghost use Rattle.iio_core.specs.Front.{Front};
    ghost use Rattle.iiod_hub.specs.Link.{seen_of};

    type Seat = HubSeat;

    ghost Kept = { Front };

    ghost kept = { λ l. B.front l.bank };

    ghost front = { λ kept. kept };

    // what the link tells is said of its bank, in the clauses below
    ghost told = { λ l. None };

    ghost seen = { seen_of };

    fn find(&self, device: &[u8]) -> Option<u32> {
        self.bank.front().find(device)
    }

    fn shape(&self, dev: u32) -> &Shape {
        self.bank.front().shape(dev)
    }

    fn is_output(&self, dev: u32) -> bool {
        self.bank.front().is_output(dev)
    }

    fn is_average(&self, dev: u32) -> bool {
        self.bank.front().is_average(dev)
    }

    fn plugged(&self, dev: u32) -> bool
        requires { dev < length (B.front self.now.bank).devices }
        ensures { IfSome (B.told self.now.bank) (λ b. result ≡ is_plugged_at b dev) }
    {
        self.bank.plugged(dev)
    }

    fn open(&mut self, dev: u32, mask: Mask, capacity: u32) -> Result<HubSeat, No>
        requires { MayOpen (B.front self.old.bank) dev mask.bits capacity }
        ensures kept { B.front self.new.bank ≡ B.front self.old.bank }
        ensures seat { IfOk result (λ s. IsNew (B.front self.old.bank) dev mask.bits capacity (seen_of s)) }
        ensures dev { IfOk result (λ s. s.dev ≡ dev) }
        ensures refused { RefusedBySome dev mask result }
        ensures bank { Moves (B.told self.old.bank) (B.told self.new.bank) (λ b c.
            BankOpens dev (buffer_of mask capacity (size_at (B.front self.old.bank) dev mask.bits)) b result c) }
    {
        let size = scan_size(self.bank.front().shape(dev), mask);
        let job = OpenJob::new(self.alloc, mask, capacity, size);
        match self.bank.device(dev, job) {
            Err(no) => Err(no),
            Ok(Opened { member, reader }) => Ok(HubSeat {
                dev,
                member,
                mask,
                capacity,
                reader,
                empties: 0,
                gone: false,
            }),
        }
    }

    // a hub serves no output device
    fn open_out(
        &mut self,
        _dev: u32,
        _mask: Mask,
        _capacity: u32,
        _cyclic: bool,
    ) -> Result<HubSeat, No> {
        Err(No::Errno(Errno::ENOSYS))
    }

    fn write_scans(&mut self, _dev: u32, _seat: &mut HubSeat, _bytes: &[u8]) -> Result<u32, No> {
        Err(No::Errno(Errno::ENOSYS))
    }

    fn remask(&mut self, dev: u32, seat: &mut HubSeat, mask: Mask) -> Result<u64, No>
        requires may_open { MayOpen (B.front self.old.bank) dev mask.bits seat.old.capacity }
        requires owned { IsOfDevice (B.front self.old.bank) dev (seen_of seat.old) }
        ensures kept { B.front self.new.bank ≡ B.front self.old.bank }
        ensures seat { Remasks (B.front self.old.bank) dev mask.bits result (seen_of seat.old) (seen_of seat.new) }
        ensures dev { seat.new.dev ≡ seat.old.dev }
        ensures refused { RemaskRefusedBySome dev seat.old.member.number mask result }
        ensures bank { Moves (B.told self.old.bank) (B.told self.new.bank) (λ b c.
            BankRemasks dev (buffer_of mask seat.old.capacity (size_at (B.front self.old.bank) dev mask.bits)) b seat.old result seat.new c) }
    {
        let size = scan_size(self.shape(dev), mask);
        let work = RemaskWork::new(self.alloc, seat.member, mask, seat.capacity, size);
        match self.bank.device(dev, Alone { work }) {
            Err(no) => Err(no),
            Ok(Remasked { before, reader }) => {
                before.close();
                Ok(seat.begin_anew(mask, reader))
            }
        }
    }

    fn close(&mut self, dev: u32, seat: HubSeat)
        requires dev { dev < length (B.front self.old.bank).devices }
        requires owned { IsOfDevice (B.front self.old.bank) dev (seen_of seat) }
        ensures kept { B.front self.new.bank ≡ B.front self.old.bank }
        ensures bank { Moves (B.told self.old.bank) (B.told self.new.bank)
            (λ b c. (o : Option WriterEnd) × Ran (LeaveMakes seat.member.number) dev b o c) }
    {
        self.end_seat(dev, seat);
    }

    fn take(&mut self, dev: u32, seat: &mut HubSeat, out: &mut [u8]) -> Took
        requires dev { dev < length (B.front self.old.bank).devices }
        requires owned { IsOfDevice (B.front self.old.bank) dev (seen_of seat.old) }
        requires size { length out.old ≡ size_of seat.old.reader }
        ensures kept { B.front self.new.bank ≡ B.front self.old.bank }
        ensures seat { seen_of seat.new ≡ record (seen_of seat.old) { trace = option_map (after_take result out.new) (seen_of seat.old).trace } }
        ensures empty { result ≡ Took.Empty → SawOpen seat.new.reader }
        ensures gone { result ≡ Took.Gone → SawClosed seat.new.reader }
        ensures bank { B.told self.new.bank ≡ B.told self.old.bank }
    {
        seat.take(out)
    }

    fn take_scans(&mut self, dev: u32, seat: &mut HubSeat, most: u32, out: &mut Vec<u8>) -> Took
        requires dev { dev < length (B.front self.old.bank).devices }
        requires owned { IsOfDevice (B.front self.old.bank) dev (seen_of seat.old) }
        requires some { 1 ≤ most }
        requires room { length out.old.items + most * size_of seat.old.reader ≤ vec_capacity out.old }
        ensures kept { B.front self.new.bank ≡ B.front self.old.bank }
        ensures takes { TakesScans dev most (reading None (seen_of seat.old) out.old.items) (reading None (seen_of seat.new) out.new.items) result }
        ensures most { length out.new.items ≤ length out.old.items + most * size_of seat.old.reader }
        ensures room { vec_capacity out.old ≤ vec_capacity out.new }
        ensures empty { result ≡ Took.Empty → SawOpen seat.new.reader }
        ensures gone { result ≡ Took.Gone → SawClosed seat.new.reader }
        ensures bank { B.told self.new.bank ≡ B.told self.old.bank }
    {
        seat.take_scans(dev, most, out)
    }

    fn counts(&mut self, dev: u32, seat: &mut HubSeat) -> Counts
        requires dev { dev < length (B.front self.old.bank).devices }
        requires owned { IsOfDevice (B.front self.old.bank) dev (seen_of seat.old) }
        ensures kept { B.front self.new.bank ≡ B.front self.old.bank }
        ensures seat { seen_of seat.new ≡ seen_of seat.old }
        ensures bank { Moves (B.told self.old.bank) (B.told self.new.bank)
            (λ b c. (o : Option ℕ) × Ran (Only (LostMakes seat.old.member.number)) dev b o c × IfSome o (λ n. result.lost ≡ n)) }
    {
        let member = seat.member;
        let told = self.bank.device(
            dev,
            Alone {
                work: LostWork { member },
            },
        );
        let waiting = seat.reader.waiting();
        let lost = lost_of(&mut seat.reader, told);
        Counts { waiting, lost }
    }

    fn read_attr(&mut self, dev: u32, channel: Option<u32>, attr: Attr) -> Result<Value, No>
        requires dev { dev < length (B.front self.old.bank).devices }
        requires may_read { MayRead (B.front self.old.bank) dev channel attr }
        ensures kept { B.front self.new.bank ≡ B.front self.old.bank }
        ensures bank { Moves (B.told self.old.bank) (B.told self.new.bank) (λ b c. Ran (Only (ReadMakes b.clock channel attr)) dev b result c) }
    {
        let t = self.bank.clock();
        self.bank.device(
            dev,
            Alone {
                work: ReadWork { t, channel, attr },
            },
        )
    }

    fn write_attr(
        &mut self,
        dev: u32,
        channel: Option<u32>,
        attr: Attr,
        value: Fixed,
    ) -> Result<(), No>
        requires dev { dev < length (B.front self.old.bank).devices }
        requires may_write { MayWrite (B.front self.old.bank) dev channel attr value }
        ensures kept { B.front self.new.bank ≡ B.front self.old.bank }
        ensures bank { Moves (B.told self.old.bank) (B.told self.new.bank) (λ b c. Ran (Only (WriteMakes channel attr value)) dev b result c) }
    {
        self.bank.device(
            dev,
            Alone {
                work: WriteWork {
                    channel,
                    attr,
                    value,
                },
            },
        )
    }

    fn trigger(&self, dev: u32) -> Option<u32>
        requires { dev < length (B.front self.now.bank).devices }
        ensures { IfSome (B.told self.now.bank) (λ b. result ≡ trigger_number_at b dev) }
    {
        self.bank.trigger_of(dev)
    }

    fn trigger_name(&self, trigger: u32) -> &[u8] {
        self.bank.front().trigger_name(trigger)
    }

    fn find_trigger(&self, name: &[u8]) -> Option<u32> {
        self.bank.front().find_trigger(name)
    }

    fn set_trigger(&mut self, dev: u32, trigger: Option<u32>) -> Result<(), No>
        requires dev { dev < length (B.front self.old.bank).devices }
        requires trigger { IfSome trigger (λ t. t < length (B.front self.old.bank).triggers) }
        ensures kept { B.front self.new.bank ≡ B.front self.old.bank }
        ensures bank { Moves (B.told self.old.bank) (B.told self.new.bank) (λ b c. Ran (Only (SetTriggerMakes trigger)) dev b result c) }
    {
        let work = TriggerWork::new(self.bank.front(), trigger);
        self.bank.device(dev, Alone { work })
    }

    fn context(&self) -> &[u8] {
        self.bank.front().context()
    }

    fn ev_open(&mut self, dev: u32, who: u32) -> Result<(), No>
        requires dev { dev < length (B.front self.old.bank).devices }
        ensures kept { B.front self.new.bank ≡ B.front self.old.bank }
        ensures bank { Moves (B.told self.old.bank) (B.told self.new.bank) (λ b c. Ran (Only (EvOpenMakes who)) dev b result c) }
    {
        self.bank.device(
            dev,
            Alone {
                work: EvOpenWork { who },
            },
        )
    }

    fn ev_read(&mut self, dev: u32, who: u32) -> Result<Option<EventData>, No>
        requires dev { dev < length (B.front self.old.bank).devices }
        ensures kept { B.front self.new.bank ≡ B.front self.old.bank }
        ensures bank { Moves (B.told self.old.bank) (B.told self.new.bank) (λ b c. Ran (Only (EvReadMakes who)) dev b result c) }
    {
        self.bank.device(
            dev,
            Alone {
                work: EvReadWork { who },
            },
        )
    }

    fn ev_close(&mut self, dev: u32, who: u32) -> Result<(), No>
        requires dev { dev < length (B.front self.old.bank).devices }
        ensures kept { B.front self.new.bank ≡ B.front self.old.bank }
        ensures no_memory { result ≢ Err No.Mem }
        ensures bank { Moves (B.told self.old.bank) (B.told self.new.bank) (λ b c. Ran (Only (EvCloseMakes who)) dev b result c) }
    {
        self.bank.device(
            dev,
            Alone {
                work: EvCloseWork { who },
            },
        )
    }
}

impl<B: Bank> HubLink<B> {
    /// Removes a seat's member from the device, closes its ring, and ends the reading.
    pub fn end_seat(&mut self, dev: u32, seat: HubSeat) -> Ended
        requires { dev < length (B.front self.old.bank).devices }
        ensures front { B.front self.new.bank ≡ B.front self.old.bank }
        ensures bank { Moves (B.told self.old.bank) (B.told self.new.bank)
            (λ b c. (o : Option WriterEnd) × Ran (LeaveMakes seat.member.number) dev b o c) }
        ensures ended { (rest : _) × Ends seat.reader.knows result rest }
    {
        let HubSeat {
            dev: _,
            member,
            mask: _,
            capacity: _,
            reader,
            empties: _,
            gone: _,
        } = seat;
        let left = self.bank.device(dev, LeaveJob { member });
        close_writer(left);
        let (ended, _rest) = reader.end();
        ended
    }

    /// Polls a trigger at a moment.
    pub fn poll(&mut self, trigger: u32, t: i64) -> Polled
        requires { trigger < MAX_TRIGGERS }
        ensures front { B.front self.new.bank ≡ B.front self.old.bank }
        ensures bank { Moves (B.told self.old.bank) (B.told self.new.bank) (λ b c. RanAt (λ s o u. Polls s t o u) trigger b result c) }
    {
        self.bank.trigger(trigger, PollJob { t })
    }

    /// Hands a device its entry of a trigger. Returns `None` exactly if it has no entry that isn't in hand already.
    pub fn handle(&mut self, trigger: u32, dev: u32) -> Option<Handled>
        requires trigger { trigger < MAX_TRIGGERS }
        requires dev { dev < length (B.front self.old.bank).devices }
        ensures front { B.front self.new.bank ≡ B.front self.old.bank }
        ensures bank { Moves (B.told self.old.bank) (B.told self.new.bank) (λ b c. BankHandles trigger dev b result c) }
    {
        let due = self.bank.trigger(trigger, DueJob { dev })?;
        let handled = self.bank.device(
            dev,
            Alone {
                work: HandleWork { due: &due },
            },
        );
        self.bank.trigger(trigger, DoneJob { due });
        if let Handled::Captured(_) = handled {
            self.bank.chime(dev);
        }
        Some(handled)
    }

    /// Hands each device its entry of a trigger, in the order of devices.
    pub fn sweep(&mut self, trigger: u32)
        requires { trigger < MAX_TRIGGERS }
        ensures front { B.front self.new.bank ≡ B.front self.old.bank }
        ensures bank { Moves (B.told self.old.bank) (B.told self.new.bank) (λ b c. Swept trigger (length (B.front self.old.bank).devices) b c) }
    {
        for dev in 0..self.bank.front().count() {
            self.handle(trigger, dev);
        }
    }

    /// Unplugs a device: its driver is dropped, each member leaves, and each member's ring is closed. Returns whether the
    /// device was plugged.
    pub fn unplug(&mut self, dev: u32) -> bool
        requires { dev < length (B.front self.old.bank).devices }
        ensures front { B.front self.new.bank ≡ B.front self.old.bank }
        ensures bank { Moves (B.told self.old.bank) (B.told self.new.bank) (λ b c. Ran UnplugMakes dev b result c) }
    {
        let was_plugged = self.bank.device(dev, UnplugJob);
        self.bank.chime(dev);
        was_plugged
    }
}
