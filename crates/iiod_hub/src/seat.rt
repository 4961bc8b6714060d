//! A member of a device of a hub, as a connection has it.

ghost use Rattle.std.specs.Prelude.{◌≡◌, ◌+◌, ◌-◌, ◌*◌, ◌^◌, ◌≤◌, ◌<◌, min, ◌++◌, ◌∷◌, [], true, false, length, option_map, vec_capacity, None, if◌then◌else◌};
ghost use Rattle.iiod_reply.specs.Reply.{joined_scans};
ghost use Rattle.iiod_commands.specs.Reading.{TakesScans, reading};
ghost use Rattle.iiod_commands.specs.Seat.{after_nothing, after_take};
ghost use Rattle.iiod_commands.specs.declared.iio.Took.{Took};
ghost use Rattle.iiod_commands.specs.declared.iio.Took.TheVariants.{Empty, Gone};
ghost use Rattle.iiod_hub.specs.Link.{KeepsSeat, seen_of};
ghost use Rattle.iiod_hub.specs.Reads.{HubReads};
ghost use Rattle.iiod_bank.specs.Received.{SawClosed, SawOpen, received_of, size_of};

use iio_device::Member;
use iio_kfifo::{Ended, Reader};
use iio_mask::Mask;
use iiod_commands::Took;
use std::mem::replace;

/// The reason why a read returns no scan.
#[derive(Clone, Copy, Debug, PartialEq, Eq)]
pub enum ReadEnd {
    /// No scan waits, and the ring is open.
    Empty,
    /// No scan waits, and none will come: the ring is closed.
    Gone,
}

/// A seat: the member of the device of that number, and the end of its ring from which scans are taken. It can't be dropped.
pub struct HubSeat {
    pub dev: u32,
    pub member: Member,
    pub mask: Mask,
    pub capacity: u32,
    pub reader: Reader,
    /// How many takes found nothing; `gone` is whether the last of these found the ring closed.
    pub empties: u64,
    pub gone: bool,
}

impl HubSeat {
    // Counts a take that found nothing.
    fn nothing(&mut self, gone: bool) -> Took
        ensures seen { seen_of self.new ≡ record (seen_of self.old) { trace = option_map (after_nothing gone) (seen_of self.old).trace } }
        ensures took { result ≡ (if gone then Gone else Empty) }
        ensures reader { self.new.reader ≡ self.old.reader }
        ensures dev { self.new.dev ≡ self.old.dev }
        ensures same { (self.new.member ≡ self.old.member) × (self.new.mask ≡ self.old.mask) × (self.new.capacity ≡ self.old.capacity) }
        ensures empties { self.new.empties ≡ min (self.old.empties + 1) (2 ^ 64 - 1) }
    {
        self.empties = self.empties.saturating_add(1);
        self.gone = gone;
        if gone { Took::Gone } else { Took::Empty }
    }

    /// Makes the seat take from another ring, whose scans are of that mask; its trace begins anew. The reading of the old ring
    /// ends, and the number of scans that were found waiting there is returned.
    pub(crate) fn begin_anew(&mut self, mask: Mask, reader: Reader) -> u64
        ensures { self.new ≡ record self.old { mask = mask; reader = reader; empties = 0; gone = false } }
    {
        self.mask = mask;
        self.empties = 0;
        self.gone = false;
        let mut before = replace(&mut self.reader, reader);
        let waiting = before.waiting();
        before.end();
        waiting
    }

    /// Takes the oldest scan that waits into `out`. It takes no lock. `Empty` is returned only if a look during this call
    /// showed that the ring wasn't closed, `Gone` only if one showed that it was closed.
    pub fn take(&mut self, out: &mut [u8]) -> Took
        requires { length out.old ≡ size_of self.old.reader }
        ensures seen { seen_of self.new ≡ record (seen_of self.old) { trace = option_map (after_take result out.new) (seen_of self.old).trace } }
        ensures empty { result ≡ Took.Empty → SawOpen self.new.reader }
        ensures gone { result ≡ Took.Gone → SawClosed self.new.reader }
        ensures dev { self.new.dev ≡ self.old.dev }
    {
        let closed = self.reader.closed();
        if self.reader.take(out).is_some() {
            return Took::Scan;
        }
        self.nothing(closed)
    }

    /// Takes the oldest scans that wait, at most `most`, and appends their bytes to `out`, which has room for `most` scans. It
    /// takes no lock. It takes fewer only if a look during this call found nothing left. `dev` is the device's number.
    pub fn take_scans(&mut self, _dev: u32, most: u32, out: &mut Vec<u8>) -> Took
        requires some { 1 ≤ most }
        requires room { length out.old.items + most * size_of self.old.reader ≤ vec_capacity out.old }
        ensures takes { TakesScans _dev most (reading None (seen_of self.old) out.old.items) (reading None (seen_of self.new) out.new.items) result }
        ensures most { length out.new.items ≤ length out.old.items + most * size_of self.old.reader }
        ensures room { vec_capacity out.old ≤ vec_capacity out.new }
        ensures empty { result ≡ Took.Empty → SawOpen self.new.reader }
        ensures gone { result ≡ Took.Gone → SawClosed self.new.reader }
        ensures dev { self.new.dev ≡ self.old.dev }
    {
        let closed = self.reader.closed();
        let count = self.reader.take_scans(most, out);
        if count == 0 {
            return self.nothing(closed);
        }
        if count < most {
            self.nothing(closed);
        }
        Took::Scan
    }

    /// Takes the oldest scans that wait, at most `want`, and appends their bytes to `out`, which has room for `want` scans. It
    /// takes no lock.
    pub fn read(&mut self, want: u32, out: &mut Vec<u8>) -> Result<u32, ReadEnd>
        requires some { 1 ≤ want }
        requires room { length out.old.items + want * size_of self.old.reader ≤ vec_capacity out.old }
        ensures reads { HubReads want self.old.reader.knows self.new.reader.knows out.old.items out.new.items result }
        ensures room { vec_capacity out.old ≤ vec_capacity out.new }
        ensures kept { KeepsSeat want result self.old self.new }
    {
        let closed = self.reader.closed();
        let count = self.reader.take_scans(want, out);
        if count == 0 {
            self.nothing(closed);
            return Err(if closed {
                ReadEnd::Gone
            } else {
                ReadEnd::Empty
            });
        }
        if count < want {
            self.nothing(closed);
            return Ok(count);
        }
        Ok(count)
    }
}
