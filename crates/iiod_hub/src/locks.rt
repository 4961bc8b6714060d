//! A running hub: a lock for each device and for each trigger.

ghost use Rattle.std.specs.Prelude.{◌≡◌, length};
ghost use Rattle.iio_desc.specs.declared.limits.TheConstants.{MAX_TRIGGERS};

use crate::bell::Bell;
use crossbeam_utils::CachePadded;
use iio_device::Device;
use iio_kfifo::Writer;
use iio_trigger::Trigger;
use iiod_bank::{Bank, DeviceJob, HubFront, TriggerJob};
use std::sync::atomic::{AtomicI64, Ordering};
use std::sync::{Mutex, Wait};

/// A running hub. All its calls take it by `&`. A device's lock is always taken before a trigger's.
#[derive(Drop)]
pub struct Hub {
    pub front: HubFront,
    pub devices: Vec<CachePadded<Mutex<Device<Writer>>>>,
    pub triggers: Vec<CachePadded<Mutex<Trigger>>>,
    pub bells: Vec<Bell>,
    pub clock: AtomicI64,
    ghost many: { length devices.items ≡ length front.devices.items },
    ghost sixteen: { length triggers.items ≡ MAX_TRIGGERS },
    ghost rung: { length bells.items ≡ length front.devices.items },
}

/// A bank at which a connection can wait.
pub trait Bellows {
    /// Returns how often something came for a device's members; 0 if there is no such device.
    fn bell(&self, dev: u32) -> u64;

    /// Waits until that number differs from `seen`.
    fn wait(&self, dev: u32, seen: u64);
}

/// The bank of a running hub. It tells nothing.
#[derive(Drop)]
pub struct Locks<'a, R: Wait> {
    pub hub: &'a Hub,
    pub rt: &'a R,
}

// Waits forever. Every lock holds its own device, so this isn't reached.
fn stand_still<R: Wait>(rt: &R) -> ! {
    for _ in rt.forever() {}
    unreachable!()
}

impl<'a, R: Wait> Bank for Locks<'a, R> {
    ghost use Rattle.std.specs.Prelude.{None};
    ghost use Rattle.iiod_bank.specs.FrontOf.{front_of};

    ghost front = { λ l. front_of l.hub.now.front };

    ghost told = { λ l. None };

    fn front(&self) -> &HubFront {
        &self.hub.front
    }

    fn device<J: DeviceJob>(&mut self, dev: u32, job: J) -> J::Out {
        let mut device = self.hub.devices[dev as usize].lock(self.rt);
        if device.number() != dev || !job.fits(device.shape()) {
            stand_still(self.rt);
        }
        match device.trigger() {
            None => job.alone(&mut device),
            Some(n) => {
                let mut trigger = self.hub.triggers[n as usize].lock(self.rt);
                job.paired(&mut device, &mut trigger)
            }
        }
    }

    fn trigger<J: TriggerJob>(&mut self, trigger: u32, job: J) -> J::Out {
        let mut trigger = self.hub.triggers[trigger as usize].lock(self.rt);
        job.run(&mut trigger)
    }

    fn plugged(&self, dev: u32) -> bool {
        let device = self.hub.devices[dev as usize].lock(self.rt);
        device.plugged()
    }

    fn trigger_of(&self, dev: u32) -> Option<u32> {
        let device = self.hub.devices[dev as usize].lock(self.rt);
        device.trigger()
    }

    fn clock(&self) -> i64 {
        self.hub.clock.load(Ordering::SeqCst)
    }

    fn set_clock(&mut self, t: i64) {
        self.hub.clock.store(t, Ordering::SeqCst);
    }

    fn chime(&mut self, dev: u32) {
        self.hub.bells[dev as usize].ring();
    }
}
