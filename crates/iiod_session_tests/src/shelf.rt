//! Devices in memory. They sample nothing: their scans lie on a shelf, and each goes to the first seat that asks.

ghost use Rattle.std.specs.Prelude.{◌≡◌, ◌+◌, ◌≤◌, false, length, option_map, vec_capacity, IfOk};
ghost use Rattle.iio_desc.specs.WellFormed.{IsWellFormed};
ghost use Rattle.iiod_bank.specs.FrontOf.{front_of, served_front};
ghost use Rattle.iiod_commands.specs.Seat.{after_nothing};
ghost use Rattle.iiod_session_tests.specs.Shelf.{Gives, seen_of};

use iio_attr::{Attr, Value};
use iio_base::Mem;
use iio_desc::Desc;
use iio_event::EventData;
use iio_layout::{Shape, scan_size};
use iio_mask::Mask;
use iio_text::{Errno, Fixed};
use iiod_bank::{HubFront, Parts, parts_of};
use iiod_session::{Counts, Iio, No, Took};
use std::alloc::Global;
use std::mem::replace;

/// A seat, which keeps the list of the scans that it gave.
#[derive(Drop)]
pub struct ShelfSeat {
    pub mask: Mask,
    pub capacity: u32,
    pub size: u32,
    pub given: Vec<Vec<u8>>,
    /// The number of takes that found nothing.
    pub empties: u64,
}

impl ShelfSeat {
    // Counts a take that found nothing, at a device that is plugged.
    fn nothing(&mut self)
        ensures { seen_of self.new ≡ record (seen_of self.old) { trace = option_map (after_nothing false) (seen_of self.old).trace } }
    {
        self.empties = self.empties.saturating_add(1);
    }
}

/// The devices of a description, with the scans that wait at them.
#[derive(Drop)]
pub struct Shelf {
    alloc: Global,
    pub(crate) front: HubFront,
    /// The scans that wait, the oldest first. A scan of another size than the seat's waits for another seat.
    pub scans: Vec<Vec<u8>>,
    /// The scans that each seat had given when it was closed or got another mask, in the order in which that happened.
    pub closed: Vec<Vec<Vec<u8>>>,
}

impl Shelf {
    /// Creates the devices of a description, at which nothing waits.
    pub fn new(alloc: Global, desc: Desc) -> Result<Shelf, Mem>
        requires { IsWellFormed 0 desc }
        ensures { IfOk result (λ s. front_of s.front ≡ served_front desc) }
    {
        let Parts {
            front,
            devices: _,
            triggers: _,
        } = parts_of(alloc, desc, Vec::new(alloc))?;
        Ok(Shelf {
            alloc,
            front,
            scans: Vec::new(alloc),
            closed: Vec::new(alloc),
        })
    }

    // Gives the oldest scan, and appends its bytes. Returns false if it isn't of the seat's size, if there is none, or if there
    // is no memory for the seat's list.
    fn give(&mut self, seat: &mut ShelfSeat, out: &mut Vec<u8>) -> bool
        requires { length out.old.items + seat.old.size ≤ vec_capacity out.old }
        ensures front { self.new.front ≡ self.old.front }
        ensures gives { Gives result (seen_of seat.old) (seen_of seat.new) out.old.items out.new.items }
        ensures room { vec_capacity out.old ≤ vec_capacity out.new }
    {
        if self.scans.is_empty() || seat.given.reserve(1).is_err() {
            return false;
        }
        if self.scans[0].len() != seat.size as usize {
            return false;
        }
        let scan = self.scans.remove(0);
        let _ = out.extend_from_slice(&scan);
        seat.given.push_reserved(scan);
        true
    }
}

impl Iio for Shelf {
    ghost use Rattle.std.specs.Prelude.{None};
    ghost use Rattle.iiod_bank.specs.FrontOf.{front_of};
    ghost use Rattle.iio_core.specs.Front.{Front};
    ghost use Rattle.iiod_session_tests.specs.Shelf.{seen_of};

    type Seat = ShelfSeat;

    ghost Kept = { Front };

    ghost kept = { λ s. front_of s.front };

    ghost front = { λ kept. kept };

    // the state of its devices isn't told: a session's answers depend on its seats alone
    ghost told = { λ s. None };

    ghost seen = { seen_of };

    fn find(&self, device: &[u8]) -> Option<u32> {
        self.front.find(device)
    }

    fn shape(&self, dev: u32) -> &Shape {
        self.front.shape(dev)
    }

    fn is_output(&self, dev: u32) -> bool {
        self.front.is_output(dev)
    }

    fn is_average(&self, dev: u32) -> bool {
        self.front.is_average(dev)
    }

    fn plugged(&self, _dev: u32) -> bool {
        true
    }

    fn open(&mut self, dev: u32, mask: Mask, capacity: u32) -> Result<ShelfSeat, No> {
        let size = scan_size(self.front.shape(dev), mask);
        Ok(ShelfSeat {
            mask,
            capacity,
            size,
            given: Vec::new(self.alloc),
            empties: 0,
        })
    }

    // no device is an output device
    fn open_out(
        &mut self,
        _dev: u32,
        _mask: Mask,
        _capacity: u32,
        _cyclic: bool,
    ) -> Result<ShelfSeat, No> {
        Err(No::Errno(Errno::ENOSYS))
    }

    fn write_scans(&mut self, _dev: u32, _seat: &mut ShelfSeat, _bytes: &[u8]) -> Result<u32, No> {
        Err(No::Errno(Errno::ENOSYS))
    }

    fn remask(&mut self, dev: u32, seat: &mut ShelfSeat, mask: Mask) -> Result<u64, No> {
        seat.size = scan_size(self.front.shape(dev), mask);
        seat.mask = mask;
        seat.empties = 0;
        let given = replace(&mut seat.given, Vec::new(self.alloc));
        let _ = self.closed.push(given);
        Ok(self.scans.len() as u64)
    }

    fn close(&mut self, _dev: u32, seat: ShelfSeat) {
        let _ = self.closed.push(seat.given);
    }

    fn take(&mut self, _dev: u32, seat: &mut ShelfSeat, out: &mut [u8]) -> Took {
        let mut scan = Vec::new(self.alloc);
        if scan.reserve(out.len()).is_err() || !self.give(seat, &mut scan) {
            seat.nothing();
            return Took::Empty;
        }
        out.copy_from_slice(&scan);
        Took::Scan
    }

    fn take_scans(
        &mut self,
        _dev: u32,
        seat: &mut ShelfSeat,
        most: u32,
        out: &mut Vec<u8>,
    ) -> Took {
        let mut count = 0;
        while count < most {
            if !self.give(seat, out) {
                seat.nothing();
                return if count == 0 { Took::Empty } else { Took::Scan };
            }
            count += 1;
        }
        Took::Scan
    }

    fn counts(&mut self, _dev: u32, _seat: &mut ShelfSeat) -> Counts {
        Counts {
            waiting: self.scans.len() as u64,
            lost: 0,
        }
    }

    fn read_attr(&mut self, _dev: u32, _channel: Option<u32>, _attr: Attr) -> Result<Value, No> {
        Ok(Value::Int(-7))
    }

    fn write_attr(
        &mut self,
        _dev: u32,
        _channel: Option<u32>,
        _attr: Attr,
        _value: Fixed,
    ) -> Result<(), No> {
        Ok(())
    }

    fn trigger(&self, _dev: u32) -> Option<u32> {
        None
    }

    fn trigger_name(&self, trigger: u32) -> &[u8] {
        self.front.trigger_name(trigger)
    }

    fn find_trigger(&self, name: &[u8]) -> Option<u32> {
        self.front.find_trigger(name)
    }

    fn set_trigger(&mut self, _dev: u32, _trigger: Option<u32>) -> Result<(), No> {
        Ok(())
    }

    fn context(&self) -> &[u8] {
        self.front.context()
    }

    fn ev_open(&mut self, _dev: u32, _who: u32) -> Result<(), No> {
        Ok(())
    }

    fn ev_read(&mut self, _dev: u32, _who: u32) -> Result<Option<EventData>, No> {
        Ok(None)
    }

    fn ev_close(&mut self, _dev: u32, _who: u32) -> Result<(), No> {
        Ok(())
    }
}
