//! The bench as connections use it.

ghost use Rattle.std.specs.Prelude.{◌≡◌, ◌<◌, IfSome, length};
ghost use Rattle.std.specs.List.{position};
ghost use Rattle.std.specs.Str.{bytes_eq};
ghost use Rattle.iio_desc.specs.Description.{trigger_number};
ghost use Rattle.iio_kinds.specs.Station.{any_front};

use crate::bench::Bench;
use crate::opening::{close_any, open_any};
use iio_attr::{Attr, Name, Value};
use iio_desc::TriggerDesc;
use iio_device::Plug;
use iio_event::EventData;
use iio_kinds::{AnyDevice, Seat};
use iio_layout::{Shape, scan_size};
use iio_mask::Mask;
use iio_sensor::Sensor;
use iio_text::Fixed;
use iiod_session::{Counts, Iio, No, Took};

// Whether a device has that name.
fn is_named(device: &AnyDevice, name: &[u8]) -> bool
    ensures { result ≡ bytes_eq (any_front device.now).name name.now }
{
    device.name().is(name)
}

// The number of the device of that name.
fn device_number(devices: &[AnyDevice], name: &[u8]) -> Option<usize>
    ensures value { result ≡ position (λ d. bytes_eq (any_front d).name name.now) devices.now }
    ensures within { IfSome result (λ number. number < length devices.now) }
{
    for i in 0..devices.len() {
        if is_named(&devices[i], name) {
            return Some(i);
        }
    }
    None
}

// The number of the trigger of that name.
fn trigger_number(triggers: &[TriggerDesc], name: &[u8]) -> Option<usize>
    ensures value { result ≡ trigger_number triggers.now name.now }
    ensures within { IfSome result (λ number. number < length triggers.now) }
{
    triggers.iter().position(|t| t.name.is(name))
}

impl Iio for Bench {
    ghost use Rattle.std.specs.Prelude.{Some};
    ghost use Rattle.iio_device.specs.Plug.{driver_of};
    ghost use Rattle.iio_bench.specs.Bench.{Kept, kept_of, machine_of};
    ghost use Rattle.iio_bench.specs.Seat.{seen_of};

    type Seat = Seat;

    ghost Kept = { Kept };

    ghost kept = { kept_of };

    ghost front = { λ kept. kept.front };

    ghost told = { λ b. Some (machine_of (driver_of (λ d. (Sensor-box d).driver d.value)) b) };

    ghost seen = { seen_of };

    #[inline(never)]
    fn find(&self, device: &[u8]) -> Option<u32> {
        match device_number(&self.devices, device) {
            None => None,
            Some(number) => Some(number as u32),
        }
    }

    fn shape(&self, dev: u32) -> &Shape {
        self.devices[dev as usize].shape()
    }

    fn is_output(&self, dev: u32) -> bool {
        self.devices[dev as usize].is_output()
    }

    fn is_average(&self, dev: u32) -> bool {
        self.devices[dev as usize].is_average()
    }

    fn plugged(&self, dev: u32) -> bool {
        self.devices[dev as usize].plugged()
    }

    fn open(&mut self, dev: u32, mask: Mask, capacity: u32) -> Result<Seat, No> {
        open_any(self, dev, mask, capacity, false)
    }

    fn open_out(&mut self, dev: u32, mask: Mask, capacity: u32, cyclic: bool) -> Result<Seat, No> {
        open_any(self, dev, mask, capacity, cyclic)
    }

    fn write_scans(&mut self, dev: u32, seat: &mut Seat, bytes: &[u8]) -> Result<u32, No> {
        self.devices[dev as usize].write(seat.number, seat.mask, bytes)
    }

    fn remask(&mut self, dev: u32, seat: &mut Seat, mask: Mask) -> Result<u64, No> {
        let device = &mut self.devices[dev as usize];
        let size = scan_size(device.shape(), mask);
        match device.remask(self.alloc, seat, mask, size) {
            Err(no) => Err(no),
            Ok(waited) => {
                seat.mask = mask;
                seat.size = size;
                Ok(waited)
            }
        }
    }

    fn close(&mut self, dev: u32, seat: Seat) {
        let Seat {
            number,
            mask: _,
            size: _,
            capacity: _,
        } = seat;
        close_any(self, dev, number);
    }

    fn take(&mut self, dev: u32, seat: &mut Seat, out: &mut [u8]) -> Took {
        self.devices[dev as usize].take(seat.number, seat.mask, out)
    }

    fn take_scans(&mut self, dev: u32, seat: &mut Seat, most: u32, out: &mut Vec<u8>) -> Took {
        self.devices[dev as usize].take_scans(seat.number, seat.mask, most, out)
    }

    fn counts(&mut self, dev: u32, seat: &mut Seat) -> Counts {
        self.devices[dev as usize].counts(seat.number, seat.mask)
    }

    fn read_attr(&mut self, dev: u32, channel: Option<u32>, attr: Attr) -> Result<Value, No> {
        let t = self.clock();
        self.devices[dev as usize].read_attr(t, channel, attr)
    }

    fn write_attr(
        &mut self,
        dev: u32,
        channel: Option<u32>,
        attr: Attr,
        value: Fixed,
    ) -> Result<(), No> {
        self.devices[dev as usize].write_attr(channel, attr, value)
    }

    fn trigger(&self, dev: u32) -> Option<u32> {
        match self.devices[dev as usize].base() {
            None => self.devices[dev as usize].trigger(),
            Some(base) => self.devices[base as usize].trigger(),
        }
    }

    fn trigger_name(&self, trigger: u32) -> &[u8] {
        let at = trigger as usize;
        if at < self.described.len() {
            self.described[at].name.bytes()
        } else {
            &[]
        }
    }

    #[tactic(auto, unfolding(iio_core::specs::Front::find_trigger))]
    fn find_trigger(&self, name: &[u8]) -> Option<u32> {
        let number = trigger_number(&self.described, name)?;
        Some(number as u32)
    }

    fn set_trigger(&mut self, dev: u32, trigger: Option<u32>) -> Result<(), No> {
        self.devices[dev as usize].set_trigger(trigger)
    }

    fn context(&self) -> &[u8] {
        &self.context
    }

    fn ev_open(&mut self, dev: u32, who: u32) -> Result<(), No> {
        self.devices[dev as usize].ev_open(who)
    }

    fn ev_read(&mut self, dev: u32, who: u32) -> Result<Option<EventData>, No> {
        self.devices[dev as usize].ev_read(who)
    }

    fn ev_close(&mut self, dev: u32, who: u32) -> Result<(), No> {
        self.devices[dev as usize].ev_close(who)
    }
}
