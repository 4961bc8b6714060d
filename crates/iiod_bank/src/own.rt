//! A bank without locks, which tells its devices and triggers.

ghost use Rattle.std.specs.Prelude.{◌≡◌, ℕ, ◌<◌, length, map, Some, None};
ghost use Rattle.std.proofs.Props.{props};
ghost use Rattle.iiod_bank.specs.Own.{Fits};

use crate::bank::{Bank, DeviceJob, TriggerJob};
use crate::front::HubFront;
use iio_device::{Device, Plug};
use iio_kfifo::Writer;
use iio_sensor::Sensor;
use iio_trigger::Trigger;
use std::marker::PhantomData;

/// The devices, the 16 triggers and the clock of a hub.
#[derive(Drop)]
pub struct OwnBank {
    pub(crate) front: HubFront,
    pub(crate) devices: Vec<Device<Writer>>,
    pub(crate) triggers: Vec<Trigger>,
    pub(crate) clock: i64,
    // Brings the meaning of a boxed driver into the reach of ghost members here.
    pub(crate) of: PhantomData<Box<dyn Sensor + Send>>,
    ghost fits: { Fits front devices.items (length triggers.items) } by { Prim.hlevel props },
}

impl Bank for OwnBank {
    ghost use Rattle.std.specs.Prelude.{map, Some};
    ghost use Rattle.iio_device.specs.Plug.{driver_of};
    ghost use Rattle.iio_device.specs.Device.{view_of};
    ghost use Rattle.iiod_bank.specs.FrontOf.{front_of};

    ghost front = { λ b. front_of b.front };

    ghost told = { λ b. Some (record {
      devices = map (λ d. view_of (driver_of (λ p. (Sensor-box p).driver p.value)) d) b.devices.items;
      triggers = b.triggers.items;
      clock = b.clock;
    }) };

    fn front(&self) -> &HubFront {
        &self.front
    }

    fn device<J: DeviceJob>(&mut self, dev: u32, job: J) -> J::Out {
        let at = dev as usize;
        match self.devices[at].trigger() {
            None => job.alone(&mut self.devices[at]),
            Some(n) => job.paired(&mut self.devices[at], &mut self.triggers[n as usize]),
        }
    }

    fn trigger<J: TriggerJob>(&mut self, trigger: u32, job: J) -> J::Out {
        job.run(&mut self.triggers[trigger as usize])
    }

    fn plugged(&self, dev: u32) -> bool {
        self.devices[dev as usize].plugged()
    }

    fn trigger_of(&self, dev: u32) -> Option<u32> {
        self.devices[dev as usize].trigger()
    }

    fn clock(&self) -> i64 {
        self.clock
    }

    fn set_clock(&mut self, t: i64) {
        self.clock = t;
    }

    fn chime(&mut self, _dev: u32) {}
}
