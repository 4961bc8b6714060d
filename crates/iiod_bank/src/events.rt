//! The jobs at a device's events, and the handling of a trigger's entry.

ghost use Rattle.std.specs.Prelude.{◌≡◌, true};
ghost use Rattle.iio_device.specs.Device.{view_of};
ghost use Rattle.iiod_bank.specs.Jobs.{EvCloseMakes, EvOpenMakes, EvReadMakes, HandleMakes};
ghost use Rattle.iiod_bank.specs.Kept.{Kept};

use crate::bank::Work;
use iio_device::{Device, Handled, Plug};
use iio_event::EventData;
use iio_kfifo::Writer;
use iio_layout::Shape;
use iio_sensor::Sensor;
use iio_text::Errno;
use iio_trigger::Due;
use iiod_commands::{No, held_no, holder_no};

/// The job of a connection's EVOPEN.
#[derive(Drop)]
pub struct EvOpenWork {
    pub who: u32,
}

impl Work for EvOpenWork {
    ghost use Rattle.iiod_bank.specs.Jobs.{EvOpenMakes};

    type Out = Result<(), No>;

    ghost may = { λ w shape. Unit {0} };

    ghost does = { λ w a o b. EvOpenMakes w.who a o b };

    fn fits(&self, _shape: &Shape) -> bool {
        true
    }

    fn run(self, device: &mut Device<Writer>) -> Result<(), No> {
        if !device.plugged() {
            return Err(No::Errno(Errno::ENODEV));
        }
        match device.ev_open(self.who) {
            Ok(()) => Ok(()),
            Err(held) => Err(held_no(held)),
        }
    }
}

/// The job of a connection's EVREAD.
#[derive(Drop)]
pub struct EvReadWork {
    pub who: u32,
}

impl Work for EvReadWork {
    ghost use Rattle.iiod_bank.specs.Jobs.{EvReadMakes};

    type Out = Result<Option<EventData>, No>;

    ghost may = { λ w shape. Unit {0} };

    ghost does = { λ w a o b. EvReadMakes w.who a o b };

    fn fits(&self, _shape: &Shape) -> bool {
        true
    }

    fn run(self, device: &mut Device<Writer>) -> Result<Option<EventData>, No> {
        if !device.plugged() {
            return Err(No::Errno(Errno::ENODEV));
        }
        match device.ev_read(self.who) {
            Ok(event) => Ok(event),
            Err(none) => Err(holder_no(none)),
        }
    }
}

/// The job of a connection's EVCLOSE.
#[derive(Drop)]
pub struct EvCloseWork {
    pub who: u32,
}

impl Work for EvCloseWork {
    ghost use Rattle.iiod_bank.specs.Jobs.{EvCloseMakes};

    type Out = Result<(), No>;

    ghost may = { λ w shape. Unit {0} };

    ghost does = { λ w a o b. EvCloseMakes w.who a o b };

    fn fits(&self, _shape: &Shape) -> bool {
        true
    }

    fn run(self, device: &mut Device<Writer>) -> Result<(), No> {
        match device.ev_close(self.who) {
            Ok(()) => Ok(()),
            Err(none) => Err(holder_no(none)),
        }
    }
}

/// The handling of a trigger's entry.
#[derive(Drop)]
pub struct HandleWork<'d> {
    pub due: &'d Due,
}

impl<'d> Work for HandleWork<'d> {
    ghost use Rattle.iiod_bank.specs.Jobs.{HandleMakes};

    type Out = Handled;

    ghost may = { λ w shape. Unit {0} };

    ghost does = { λ w a o b. HandleMakes w.due.now a o b };

    fn fits(&self, _shape: &Shape) -> bool {
        true
    }

    fn run(self, device: &mut Device<Writer>) -> Handled {
        device.handle(self.due)
    }
}
