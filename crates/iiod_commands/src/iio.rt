//! What a session needs of the devices.

ghost use Rattle.std.specs.Prelude.{◌≡◌, ◌≢◌, ◌+◌, ◌*◌, ◌≤◌, ◌<◌, true, false, length, Option, Some, option_map, vec_capacity, IfOk, IfSome, Err};
ghost use Rattle.iiod_commands.specs.No.{held_no, holder_no, no_of, raw_no, remask_no};
ghost use Rattle.iiod_commands.specs.declared.iio.No.TheVariants.{Errno as NoErrno, Mem as NoMem};

use iio_attr::{Attr, Value};
use iio_device::{JoinFault, RawFault, RemaskFault};
use iio_event::{EventData, Held, NotHolder};
use iio_layout::Shape;
use iio_mask::Mask;
use iio_text::{Errno, Fixed};
use std::alloc::AllocError;

/// Why a call was refused.
#[derive(Clone, Copy, Debug, PartialEq, Eq)]
pub enum No {
    /// With an error, which is sent to the client.
    Errno(Errno),
    /// Because memory ran out.
    Mem,
}

impl From<Errno> for No {
    ghost from_gives = { λ errno no. no ≡ NoErrno errno };

    fn from(errno: Errno) -> No {
        No::Errno(errno)
    }
}

impl From<AllocError> for No {
    ghost from_gives = { λ _ no. no ≡ NoMem };

    fn from(_e: AllocError) -> No {
        No::Mem
    }
}

/// Returns the refusal for a fault of joining.
pub fn no_of(fault: JoinFault) -> No
    ensures { result ≡ no_of fault }
{
    match fault {
        JoinFault::Gone => No::Errno(Errno::ENODEV),
        JoinFault::BadMask | JoinFault::NoTrigger | JoinFault::NoUnion => No::Errno(Errno::EINVAL),
        JoinFault::NoPlace => No::Errno(Errno::ENOSPC),
        JoinFault::Mem => No::Mem,
    }
}

/// Returns the refusal for a fault of a change of masks.
pub fn remask_no(fault: RemaskFault) -> No
    ensures { result ≡ remask_no fault }
{
    match fault {
        RemaskFault::Gone => No::Errno(Errno::ENODEV),
        RemaskFault::NotLive => No::Errno(Errno::EBADF),
        RemaskFault::BadMask | RemaskFault::NoUnion => No::Errno(Errno::EINVAL),
        RemaskFault::Mem => No::Mem,
    }
}

/// Returns the refusal for a fault of a sample.
pub fn raw_no(fault: RawFault) -> No
    ensures { result ≡ raw_no fault }
{
    match fault {
        RawFault::Gone => No::Errno(Errno::ENODEV),
        RawFault::Busy => No::Errno(Errno::EBUSY),
        RawFault::Fault => No::Errno(Errno::EIO),
    }
}

/// Returns the refusal if the events of a device already have a holder.
pub fn held_no(_held: Held) -> No
    ensures { result ≡ held_no _held }
{
    No::Errno(Errno::EBUSY)
}

/// Returns the refusal for a connection that isn't the holder of the events.
pub fn holder_no(_none: NotHolder) -> No
    ensures { result ≡ holder_no _none }
{
    No::Errno(Errno::EBADF)
}

/// The outcome of a take.
#[derive(Clone, Copy, Debug)]
pub enum Took {
    /// A scan was taken.
    Scan,
    /// No scan waits, and the device is plugged.
    Empty,
    /// No scan waits, and none will come: the device is unplugged.
    Gone,
}

/// The counts of a queue.
#[derive(Clone, Copy, Debug)]
pub struct Counts {
    /// The number of scans that wait.
    pub waiting: u64,
    /// The number of scans lost because the queue was full; at an output device, how often it found no scan waiting.
    pub lost: u64,
}

/// The devices, as one connection uses them. Devices and triggers are known by their numbers, from 0 on.
///
/// An `Iio` has three meanings: `kept`, which no call changes, with `front`, the part of it that a session looks at; `told`,
/// the state of the devices, if the `Iio` tells it; and `seen`, what a seat is by its own value. If the state is told, each
/// answer is the one that follows from that state.
pub trait Iio {
    ghost use Rattle.iio_attr.specs.Attributes.{is_writable, row_of};
    ghost use Rattle.iio_text.specs.Fixed.{IsFixed};
    ghost use Rattle.iio_desc.specs.Kind.{is_average, is_input, is_output};
    ghost use Rattle.iio_core.specs.Front.{Front, find_device, find_trigger, kind_at, shape_at, trigger_name};
    ghost use Rattle.iio_core.specs.Machine.{Machine, is_plugged, lost_of, queue_of};
    ghost use Rattle.iio_core.specs.Calls.{machine_after_close, ev_close_of, ev_open_of, ev_read_of, open_of, read_attr_of, remask_of, set_trigger_of, trigger_of, write_attr_of, write_scans_of};
    ghost use Rattle.iiod_commands.specs.Reading.{TakesScans, reading};
    ghost use Rattle.iiod_commands.specs.Seat.{Answers, IsNew, IsOfDevice, MayOpen, Remasks, SeatRecord, Takes, after_take, seat_id, number_by};
    ghost use Rattle.iiod_commands.specs.Target.{MayRead, MayWrite};
    ghost use Rattle.iiod_commands.specs.declared.iio.No.{No};

    /// A member of a device, as the connection has it.
    type Seat;

    ghost Kept: { Type 0 };

    ghost kept: { Self → Kept };

    ghost front: { Kept → Front };

    ghost told: { Self → Option Machine };

    ghost seen: { Self.Seat → SeatRecord };

    /// Returns the number of the device of that name.
    fn find(&self, device: &[u8]) -> Option<u32>
        ensures value { result ≡ find_device (front (kept self.now)) device.now }
        ensures within { IfSome result (λ dev. dev < length (front (kept self.now)).devices) };

    /// The device's shape.
    fn shape(&self, dev: u32) -> &Shape
        requires { dev < length (front (kept self.now)).devices }
        ensures { result.now ≡ shape_at (front (kept self.now)) dev };

    /// Whether it is an output device, which is given what its one member writes.
    fn is_output(&self, dev: u32) -> bool
        requires { dev < length (front (kept self.now)).devices }
        ensures { result ≡ is_output (kind_at (front (kept self.now)) dev) };

    /// Whether it is an averaging device, which makes means of the captures of another one.
    fn is_average(&self, dev: u32) -> bool
        requires { dev < length (front (kept self.now)).devices }
        ensures { result ≡ is_average (kind_at (front (kept self.now)) dev) };

    /// Whether the device is plugged.
    fn plugged(&self, dev: u32) -> bool
        requires { dev < length (front (kept self.now)).devices }
        ensures { IfSome (told self.now) (λ m. result ≡ is_plugged m dev) };

    /// Opens a new member, with a queue for `capacity` scans, at a device that isn't an output device. `ENODEV` if the device
    /// is unplugged, then `EINVAL` if it has no trigger, `EINVAL` if no listed mask serves all members, `ENOSPC` if there is no
    /// place. An averaging device's first member also joins its base, and these conditions are checked there.
    fn open(&mut self, dev: u32, mask: Mask, capacity: u32) -> Result<Self::Seat, No>
        requires may_open { MayOpen (front (kept self.old)) dev mask.bits capacity }
        requires read { is_output (kind_at (front (kept self.old)) dev) ≡ false }
        ensures kept { kept self.new ≡ kept self.old }
        ensures seat { IfOk result (λ s. IsNew (front (kept self.old)) dev mask.bits capacity (seen s)) }
        ensures told { IfSome (told self.old)
            (λ m. Answers (open_of (front (kept self.old)) m dev mask.bits capacity false) m (number_by seen result) (told self.new)) };

    /// Opens the writer of an output device, with a queue for `capacity` scans; the scans of a cyclic writer are repeated.
    /// `ENODEV` if the device is unplugged, then `EBUSY` if it has a writer, `EINVAL` if it has no trigger, `ENOSPC` if there
    /// is no place.
    fn open_out(
        &mut self,
        dev: u32,
        mask: Mask,
        capacity: u32,
        cyclic: bool,
    ) -> Result<Self::Seat, No>
        requires may_open { MayOpen (front (kept self.old)) dev mask.bits capacity }
        requires written { is_output (kind_at (front (kept self.old)) dev) ≡ true }
        ensures kept { kept self.new ≡ kept self.old }
        ensures seat { IfOk result (λ s. IsNew (front (kept self.old)) dev mask.bits capacity (seen s)) }
        ensures told { IfSome (told self.old)
            (λ m. Answers (open_of (front (kept self.old)) m dev mask.bits capacity cyclic) m (number_by seen result) (told self.new)) };

    /// Writes scans to an output device and returns how many of the bytes were taken; these are the first ones. `ENODEV` if the
    /// device is unplugged, then `EINVAL` if the bytes aren't whole scans or aren't as many as can be a cycle, `EBUSY` if a
    /// cyclic writer has written its cycle, `EAGAIN` if the queue is full.
    fn write_scans(&mut self, dev: u32, seat: &mut Self::Seat, bytes: &[u8]) -> Result<u32, No>
        requires dev { dev < length (front (kept self.old)).devices }
        requires written { is_output (kind_at (front (kept self.old)) dev) ≡ true }
        requires owned { IsOfDevice (front (kept self.old)) dev (seen seat.old) }
        ensures kept { kept self.new ≡ kept self.old }
        ensures seat { seen seat.new ≡ seen seat.old }
        ensures within { IfOk result (λ taken. taken ≤ length bytes.now) }
        ensures told { IfSome (told self.old)
            (λ m. Answers (write_scans_of (front (kept self.old)) m dev (seat_id (seen seat.old)) bytes.now) m result (told self.new)) };

    /// Puts the member of an input device under another mask with an empty queue, and returns the number of scans that waited,
    /// which are gone. The seat keeps its capacity, and its trace begins anew. `ENODEV` if the device is unplugged, then
    /// `EBADF` if the member isn't there, then `EINVAL` if no listed mask serves the other members and this one; running out of
    /// memory comes last. A refusal changes nothing.
    fn remask(&mut self, dev: u32, seat: &mut Self::Seat, mask: Mask) -> Result<u64, No>
        requires may_open { MayOpen (front (kept self.old)) dev mask.bits (seen seat.old).capacity }
        requires input { is_input (kind_at (front (kept self.old)) dev) ≡ true }
        requires owned { IsOfDevice (front (kept self.old)) dev (seen seat.old) }
        ensures kept { kept self.new ≡ kept self.old }
        ensures seat { Remasks (front (kept self.old)) dev mask.bits result (seen seat.old) (seen seat.new) }
        ensures told { IfSome (told self.old)
            (λ m. Answers (remask_of (front (kept self.old)) m dev (seat_id (seen seat.old)) mask.bits (seen seat.old).capacity) m result (told self.new)) };

    /// Removes the member; the scans that wait are lost with it. When an averaging device's last member leaves, the device
    /// leaves its base too.
    fn close(&mut self, dev: u32, seat: Self::Seat)
        requires dev { dev < length (front (kept self.old)).devices }
        requires owned { IsOfDevice (front (kept self.old)) dev (seen seat) }
        ensures kept { kept self.new ≡ kept self.old }
        ensures told { IfSome (told self.old) (λ m. told self.new ≡ Some (machine_after_close (front (kept self.old)) m dev (seen seat).number)) };

    /// Takes the oldest scan that waits, at a device that isn't an output device, into `out`, which has the size of a scan.
    fn take(&mut self, dev: u32, seat: &mut Self::Seat, out: &mut [u8]) -> Took
        requires dev { dev < length (front (kept self.old)).devices }
        requires read { is_output (kind_at (front (kept self.old)) dev) ≡ false }
        requires owned { IsOfDevice (front (kept self.old)) dev (seen seat.old) }
        requires size { length out.old ≡ (seen seat.old).size }
        ensures kept { kept self.new ≡ kept self.old }
        ensures seat { seen seat.new ≡ record (seen seat.old) { trace = option_map (after_take result out.new) (seen seat.old).trace } }
        ensures told { IfSome (told self.old) (λ m. Takes m dev (seat_id (seen seat.old)) result out.new (told self.new)) };

    /// Takes the oldest scans that wait, at most `most`, at a device that isn't an output device, and appends their bytes to
    /// `out`, which has room for `most` scans. Returns `Scan` exactly if at least one was taken.
    fn take_scans(&mut self, dev: u32, seat: &mut Self::Seat, most: u32, out: &mut Vec<u8>) -> Took
        requires dev { dev < length (front (kept self.old)).devices }
        requires read { is_output (kind_at (front (kept self.old)) dev) ≡ false }
        requires owned { IsOfDevice (front (kept self.old)) dev (seen seat.old) }
        requires some { 1 ≤ most }
        requires room { length out.old.items + most * (seen seat.old).size ≤ vec_capacity out.old }
        ensures kept { kept self.new ≡ kept self.old }
        ensures takes { TakesScans dev most (reading (told self.old) (seen seat.old) out.old.items) (reading (told self.new) (seen seat.new) out.new.items)
            result }
        ensures most { length out.new.items ≤ length out.old.items + most * (seen seat.old).size }
        ensures room { vec_capacity out.old ≤ vec_capacity out.new };

    /// The counts of the seat's queue.
    fn counts(&mut self, dev: u32, seat: &mut Self::Seat) -> Counts
        requires dev { dev < length (front (kept self.old)).devices }
        requires owned { IsOfDevice (front (kept self.old)) dev (seen seat.old) }
        ensures kept { kept self.new ≡ kept self.old }
        ensures seat { seen seat.new ≡ seen seat.old }
        ensures waiting { IfSome (told self.old) (λ m. result.waiting ≡ length (queue_of m dev (seat_id (seen seat.old)))) }
        ensures lost { IfSome (told self.old) (λ m. result.lost ≡ lost_of m dev (seat_id (seen seat.old))) }
        ensures told { IfSome (told self.old) (λ m. told self.new ≡ Some m) };

    /// Returns the value of an attribute that the device, or its channel of that number, has. `ENODEV` if the device is
    /// unplugged; for `raw` of an input device then `EBUSY` if it has a member, and `EIO` if the sensor's ask failed.
    fn read_attr(&mut self, dev: u32, channel: Option<u32>, attr: Attr) -> Result<Value, No>
        requires dev { dev < length (front (kept self.old)).devices }
        requires may_read { MayRead (front (kept self.old)) dev channel attr }
        ensures kept { kept self.new ≡ kept self.old }
        ensures told { IfSome (told self.old) (λ m. Answers (read_attr_of (front (kept self.old)) m dev channel attr) m result (told self.new)) };

    /// Writes an attribute that can be written, with a value that it takes. `ENODEV` if the device is unplugged.
    fn write_attr(
        &mut self,
        dev: u32,
        channel: Option<u32>,
        attr: Attr,
        value: Fixed,
    ) -> Result<(), No>
        requires dev { dev < length (front (kept self.old)).devices }
        requires may_write { MayWrite (front (kept self.old)) dev channel attr value }
        ensures kept { kept self.new ≡ kept self.old }
        ensures told { IfSome (told self.old) (λ m. Answers (write_attr_of m dev channel attr value) m result (told self.new)) };

    /// Returns the number of the device's trigger; the trigger of an averaging device is that of its base.
    fn trigger(&self, dev: u32) -> Option<u32>
        requires { dev < length (front (kept self.now)).devices }
        ensures { IfSome (told self.now) (λ m. result ≡ trigger_of (front (kept self.now)) m dev) };

    /// Returns the name of a trigger; empty if no trigger has that number.
    fn trigger_name(&self, trigger: u32) -> &[u8]
        ensures { result.now ≡ trigger_name (front (kept self.now)) trigger };

    /// Returns the number of the trigger of that name.
    fn find_trigger(&self, name: &[u8]) -> Option<u32>
        ensures value { result ≡ find_trigger (front (kept self.now)) name.now }
        ensures within { IfSome result (λ trigger. trigger < length (front (kept self.now)).triggers) };

    /// Gives a device that isn't an averaging device another trigger, or none. `ENODEV` if it is unplugged, then `EBUSY` if it
    /// has a member.
    fn set_trigger(&mut self, dev: u32, trigger: Option<u32>) -> Result<(), No>
        requires dev { dev < length (front (kept self.old)).devices }
        requires own { is_average (kind_at (front (kept self.old)) dev) ≡ false }
        requires trigger { IfSome trigger (λ t. t < length (front (kept self.old)).triggers) }
        ensures kept { kept self.new ≡ kept self.old }
        ensures told { IfSome (told self.old) (λ m. Answers (set_trigger_of m dev trigger) m result (told self.new)) };

    /// The text of the context.
    fn context(&self) -> &[u8]
        ensures { result.now ≡ (front (kept self.now)).context };

    /// Makes connection `who` the holder of the events of an input device. `ENODEV` if the device is unplugged, then `EBUSY` if
    /// its events have a holder.
    fn ev_open(&mut self, dev: u32, who: u32) -> Result<(), No>
        requires dev { dev < length (front (kept self.old)).devices }
        requires input { is_input (kind_at (front (kept self.old)) dev) ≡ true }
        ensures kept { kept self.new ≡ kept self.old }
        ensures told { IfSome (told self.old) (λ m. Answers (ev_open_of m dev who) m result (told self.new)) };

    /// Takes the oldest event. `ENODEV` if the device is unplugged, then `EBADF` if connection `who` isn't the holder of its
    /// events.
    fn ev_read(&mut self, dev: u32, who: u32) -> Result<Option<EventData>, No>
        requires dev { dev < length (front (kept self.old)).devices }
        requires input { is_input (kind_at (front (kept self.old)) dev) ≡ true }
        ensures kept { kept self.new ≡ kept self.old }
        ensures told { IfSome (told self.old) (λ m. Answers (ev_read_of m dev who) m result (told self.new)) };

    /// Ends the holding of the device's events by connection `who`; events that wait are gone. It also works if the device is
    /// unplugged. `EBADF` if connection `who` isn't the holder. It takes no memory.
    fn ev_close(&mut self, dev: u32, who: u32) -> Result<(), No>
        requires dev { dev < length (front (kept self.old)).devices }
        requires input { is_input (kind_at (front (kept self.old)) dev) ≡ true }
        ensures kept { kept self.new ≡ kept self.old }
        ensures no_memory { result ≢ Err No.Mem }
        ensures told { IfSome (told self.old) (λ m. Answers (ev_close_of m dev who) m result (told self.new)) };
}

/// Devices at which a connection can wait for a scan.
pub trait Bells: Iio {
    /// Returns how often something came for the members of a device.
    fn bell(&self, dev: u32) -> u64
        requires { dev < length (Self.front (Self.kept self.now)).devices };

    /// Waits until that number differs from `seen`.
    fn wait(&self, dev: u32, seen: u64)
        requires { dev < length (Self.front (Self.kept self.now)).devices };
}
