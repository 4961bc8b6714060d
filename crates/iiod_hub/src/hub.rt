//! The calls of a running hub.

ghost use Rattle.std.specs.Prelude.{◌≡◌, ◌+◌, ◌*◌, ◌≤◌, ◌<◌, Some, drop, length, vec_capacity, IfOk, IfSome};
ghost use Rattle.iio_desc.specs.WellFormed.{IsWellFormed};
ghost use Rattle.iio_desc.specs.declared.limits.TheConstants.{MAX_TRIGGERS};
ghost use Rattle.iiod_commands.specs.Seat.{IsNew, IsOfDevice, MayOpen, Remasks};
ghost use Rattle.iiod_bank.specs.FrontOf.{front_of, served_front};
ghost use Rattle.iiod_hub.specs.Link.{HasMoment, KeepsSeat, RefusedBySome, seen_of};
ghost use Rattle.iiod_hub.specs.Reads.{HubReads};
ghost use Rattle.iiod_hub.specs.Remasking.{RemaskRefusedBySome};
ghost use Rattle.iiod_bank.specs.Received.{size_of};

use crate::bell::bells_of;
use crate::link::HubLink;
use crate::locks::{Bellows, Hub, Locks};
use crate::seat::{HubSeat, ReadEnd};
use crate::ticking::tick;
use crossbeam_utils::CachePadded;
use iio_base::Mem;
use iio_desc::Desc;
use iio_device::{Device, Handled, Plug};
use iio_io::Ticker;
use iio_kfifo::{Ended, Writer};
use iio_mask::Mask;
use iio_sensor::Sensor;
use iio_trigger::{Polled, Trigger};
use iiod_bank::{Bank, Parts, parts_of};
use iiod_commands::{Bells, Iio, No};
use std::alloc::Global;
use std::sync::atomic::{AtomicI64, Ordering};
use std::sync::{Mutex, Wait};

// Puts each device under a lock.
fn locked_devices(
    alloc: Global,
    devices: Vec<Device<Writer>>,
) -> Result<Vec<CachePadded<Mutex<Device<Writer>>>>, Mem>
    ensures { IfOk result (λ v. length v.items ≡ length devices.items) }
{
    let mut locked = Vec::new(alloc);
    for device in devices {
        locked.push(CachePadded::new(Mutex::new(device)))?;
    }
    Ok(locked)
}

// Puts each trigger under a lock.
fn locked_triggers(
    alloc: Global,
    triggers: Vec<Trigger>,
) -> Result<Vec<CachePadded<Mutex<Trigger>>>, Mem>
    ensures { IfOk result (λ v. length v.items ≡ length triggers.items) }
{
    let mut locked = Vec::new(alloc);
    for trigger in triggers {
        locked.push(CachePadded::new(Mutex::new(trigger)))?;
    }
    Ok(locked)
}

impl Hub {
    /// Creates the hub of a description, before anything has happened: what `OwnBank::new` returns, under locks.
    pub fn new(alloc: Global, desc: Desc, drivers: Vec<Box<dyn Sensor + Send>>) -> Result<Hub, Mem>
        requires { IsWellFormed (length drivers.items) desc }
        ensures { IfOk result (λ h. front_of h.front ≡ served_front desc) }
    {
        let Parts {
            front,
            devices,
            triggers,
        } = parts_of(alloc, desc, drivers)?;
        let bells = bells_of(alloc, front.devices.len())?;
        let devices = locked_devices(alloc, devices)?;
        let triggers = locked_triggers(alloc, triggers)?;
        Ok(Hub {
            front,
            devices,
            triggers,
            bells,
            clock: AtomicI64::new(0),
        })
    }

    // Returns the hub as a connection uses it.
    fn link<'a, R: Wait>(&'a self, rt: &'a R, alloc: Global) -> HubLink<Locks<'a, R>>
        ensures { result.bank.hub.now.front ≡ self.now.front }
    {
        HubLink {
            bank: Locks { hub: self, rt },
            alloc,
        }
    }

    /// Opens a new member at a device, by [`Iio::open`] of a `HubLink`.
    pub fn open<R: Wait>(
        &self,
        rt: &R,
        alloc: Global,
        dev: u32,
        mask: Mask,
        capacity: u32,
    ) -> Result<HubSeat, No>
        requires { MayOpen (front_of self.now.front) dev mask.bits capacity }
        ensures seat { IfOk result (λ s. IsNew (front_of self.now.front) dev mask.bits capacity (seen_of s) × (s.dev ≡ dev)) }
        ensures refused { RefusedBySome dev mask result }
    {
        self.link(rt, alloc).open(dev, mask, capacity)
    }

    /// Puts the member of a seat under another mask, by [`Iio::remask`] of a `HubLink`. Returns the number of scans that its
    /// reader found waiting in the old ring; no clause says so.
    pub fn remask<R: Wait>(
        &self,
        rt: &R,
        alloc: Global,
        seat: &mut HubSeat,
        mask: Mask,
    ) -> Result<u64, No>
        requires may_open { MayOpen (front_of self.now.front) seat.old.dev mask.bits seat.old.capacity }
        requires owned { IsOfDevice (front_of self.now.front) seat.old.dev (seen_of seat.old) }
        ensures seat { Remasks (front_of self.now.front) seat.old.dev mask.bits result (seen_of seat.old) (seen_of seat.new) }
        ensures dev { seat.new.dev ≡ seat.old.dev }
        ensures refused { RemaskRefusedBySome seat.old.dev seat.old.member.number mask result }
    {
        let dev = seat.dev;
        self.link(rt, alloc).remask(dev, seat, mask)
    }

    /// Removes the member of a seat from its device, and ends the reading.
    pub fn close<R: Wait>(&self, rt: &R, alloc: Global, seat: HubSeat) -> Ended
        requires { seat.dev < length (front_of self.now.front).devices }
    {
        let dev = seat.dev;
        self.link(rt, alloc).end_seat(dev, seat)
    }

    /// Takes the oldest scans that wait for a seat, at most `want`, and appends their bytes to `out`, which has room for `want`
    /// scans. It takes no lock, and never waits.
    pub fn read(&self, seat: &mut HubSeat, want: u32, out: &mut Vec<u8>) -> Result<u32, ReadEnd>
        requires some { 1 ≤ want }
        requires room { length out.old.items + want * size_of seat.old.reader ≤ vec_capacity out.old }
        ensures reads { HubReads want seat.old.reader.knows seat.new.reader.knows out.old.items out.new.items result }
        ensures kept { KeepsSeat want result seat.old seat.new }
        ensures room { vec_capacity out.old ≤ vec_capacity out.new }
    {
        seat.read(want, out)
    }

    /// Returns a number that changes when something came for a device's members.
    pub fn bell(&self, dev: u32) -> u64
        requires { dev < length (front_of self.now.front).devices }
    {
        self.bells[dev as usize].count()
    }

    /// Waits until that number differs from `seen`.
    pub fn wait<R: Wait>(&self, rt: &R, dev: u32, seen: u64)
        requires { dev < length (front_of self.now.front).devices }
    {
        self.bells[dev as usize].wait(rt, seen);
    }

    /// Polls a trigger at a moment.
    pub fn poll<R: Wait>(&self, rt: &R, alloc: Global, trigger: u32, t: i64) -> Polled
        requires { trigger < MAX_TRIGGERS }
    {
        self.link(rt, alloc).poll(trigger, t)
    }

    /// Hands a device its entry of a trigger; see [`HubLink::handle`].
    pub fn handle<R: Wait>(&self, rt: &R, alloc: Global, trigger: u32, dev: u32) -> Option<Handled>
        requires trigger { trigger < MAX_TRIGGERS }
        requires dev { dev < length (front_of self.now.front).devices }
    {
        self.link(rt, alloc).handle(trigger, dev)
    }

    /// Hands each device its entry of a trigger, in the order of devices, by [`HubLink::sweep`].
    pub fn sweep<R: Wait>(&self, rt: &R, alloc: Global, trigger: u32)
        requires { trigger < MAX_TRIGGERS }
    {
        self.link(rt, alloc).sweep(trigger);
    }

    /// Takes one moment of a ticker for a trigger, by [`tick`]. Returns whether there was one.
    pub fn tick<R: Wait, T: Ticker>(
        &self,
        rt: &R,
        alloc: Global,
        trigger: u32,
        ticker: &mut T,
    ) -> bool
        requires { trigger < MAX_TRIGGERS }
        ensures answer { IfSome (T.moments ticker.old) (HasMoment result) }
        ensures taken { IfSome (T.moments ticker.old) (λ ts. T.moments ticker.new ≡ Some (drop 1 ts)) }
    {
        tick(&mut self.link(rt, alloc), trigger, ticker)
    }

    /// Sets the clock.
    pub fn set_clock(&self, t: i64) {
        self.clock.store(t, Ordering::SeqCst);
    }

    /// Unplugs a device. Returns whether it was plugged.
    pub fn unplug<R: Wait>(&self, rt: &R, alloc: Global, dev: u32) -> bool
        requires { dev < length (front_of self.now.front).devices }
    {
        self.link(rt, alloc).unplug(dev)
    }
}

impl<'a, R: Wait> Bellows for Locks<'a, R> {
    fn bell(&self, dev: u32) -> u64 {
        let at = dev as usize;
        if at < self.hub.bells.len() {
            self.hub.bells[at].count()
        } else {
            0
        }
    }

    fn wait(&self, dev: u32, seen: u64) {
        let at = dev as usize;
        if at < self.hub.bells.len() {
            self.hub.bells[at].wait(self.rt, seen);
        }
    }
}

impl<B: Bank + Bellows> Bells for HubLink<B> {
    fn bell(&self, dev: u32) -> u64 {
        self.bank.bell(dev)
    }

    fn wait(&self, dev: u32, seen: u64) {
        self.bank.wait(dev, seen);
    }
}
