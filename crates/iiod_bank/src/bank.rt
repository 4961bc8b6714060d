//! The traits of jobs, and of the banks that lend a hub's devices and triggers to them.

ghost use Rattle.std.specs.Prelude.{◌≡◌, ℕ, ◌<◌, true, Option, Some, None, length, is_some, IfSome};

use crate::front::HubFront;
use iio_device::{Device, Plug};
use iio_kfifo::Writer;
use iio_layout::Shape;
use iio_sensor::Sensor;
use iio_trigger::Trigger;

/// A job at a device, and at its trigger if it has one.
pub trait DeviceJob: Drop {
    ghost use Rattle.iio_layout.specs.Shape.{ShapeRecord};
    ghost use Rattle.iio_trigger.specs.Trigger.{State};
    ghost use Rattle.iio_device.specs.Device.{DeviceView, view_of};
    ghost use Rattle.iio_kfifo.specs.Ends.{WriterEnd};
    ghost use Rattle.iiod_bank.specs.Kept.{Kept};

    type Out;

    // the shapes of the devices at which the job may run
    ghost may: { Self → ShapeRecord → Type 0 };

    // what the job makes of a device and of its trigger, and what it answers
    ghost makes: { Self → DeviceView WriterEnd → Option State → Self.Out → DeviceView WriterEnd → Option State → Type 0 };

    /// Whether the job may run at a device of that shape.
    fn fits(&self, shape: &Shape) -> bool
        ensures may { result ≡ true → may self.now shape.now }
        ensures exactly { may self.now shape.now → result ≡ true };

    /// Runs the job at a device without a trigger.
    fn alone(self, device: &mut Device<Writer>) -> Self::Out
        requires may { may self device.old.core.roster.shape }
        requires none { device.old.core.trigger ≡ None }
        ensures makes { makes self (view_of ⟦<Plug as Sensor>⟧.driver device.old) None result (view_of ⟦<Plug as Sensor>⟧.driver device.new) None }
        ensures kept { Kept (view_of ⟦<Plug as Sensor>⟧.driver device.old) (view_of ⟦<Plug as Sensor>⟧.driver device.new) };

    /// Runs the job at a device and its trigger.
    fn paired(self, device: &mut Device<Writer>, trigger: &mut Trigger) -> Self::Out
        requires may { may self device.old.core.roster.shape }
        requires some { is_some device.old.core.trigger ≡ true }
        ensures makes { makes self (view_of ⟦<Plug as Sensor>⟧.driver device.old) (Some trigger.old) result (view_of ⟦<Plug as Sensor>⟧.driver device.new)
            (Some trigger.new) }
        ensures kept { Kept (view_of ⟦<Plug as Sensor>⟧.driver device.old) (view_of ⟦<Plug as Sensor>⟧.driver device.new) };
}

/// Work at a device alone.
pub trait Work: Drop {
    ghost use Rattle.iio_layout.specs.Shape.{ShapeRecord};
    ghost use Rattle.iio_device.specs.Device.{DeviceView, view_of};
    ghost use Rattle.iio_kfifo.specs.Ends.{WriterEnd};
    ghost use Rattle.iiod_bank.specs.Kept.{Kept};

    type Out;

    // the shapes of the devices at which the work may be done
    ghost may: { Self → ShapeRecord → Type 0 };

    // what the work makes of a device, and what it answers
    ghost does: { Self → DeviceView WriterEnd → Self.Out → DeviceView WriterEnd → Type 0 };

    /// Whether the work may be done at a device of that shape.
    fn fits(&self, shape: &Shape) -> bool
        ensures may { result ≡ true → may self.now shape.now }
        ensures exactly { may self.now shape.now → result ≡ true };

    /// Does the work.
    fn run(self, device: &mut Device<Writer>) -> Self::Out
        requires may { may self device.old.core.roster.shape }
        ensures does { does self (view_of ⟦<Plug as Sensor>⟧.driver device.old) result (view_of ⟦<Plug as Sensor>⟧.driver device.new) }
        ensures kept { Kept (view_of ⟦<Plug as Sensor>⟧.driver device.old) (view_of ⟦<Plug as Sensor>⟧.driver device.new) };
}

/// A `Work` as a job, which leaves the trigger alone.
#[derive(Drop)]
pub struct Alone<W> {
    pub work: W,
}

impl<W: Work> DeviceJob for Alone<W> {
    ghost use Rattle.iiod_bank.specs.Told.{Only};

    type Out = W::Out;

    ghost may = { λ j shape. W.may j.work shape };

    ghost makes = { λ j a s o b t. Only (W.does j.work) a s o b t };

    fn fits(&self, shape: &Shape) -> bool {
        self.work.fits(shape)
    }

    fn alone(self, device: &mut Device<Writer>) -> W::Out {
        self.work.run(device)
    }

    fn paired(self, device: &mut Device<Writer>, _trigger: &mut Trigger) -> W::Out {
        self.work.run(device)
    }
}

/// A job at a trigger.
pub trait TriggerJob {
    ghost use Rattle.iio_trigger.specs.Trigger.{State};

    type Out;

    ghost makes: { Self → State → Self.Out → State → Type 0 };

    fn run(self, trigger: &mut Trigger) -> Self::Out
        ensures { makes self trigger.old result trigger.new };
}

/// A bank, which lends the devices and triggers of a hub to jobs.
pub trait Bank {
    ghost use Rattle.iio_desc.specs.declared.limits.TheConstants.{MAX_TRIGGERS};
    ghost use Rattle.iio_core.specs.Front.{Front, shape_at};
    ghost use Rattle.iiod_bank.specs.FrontOf.{front_of};
    ghost use Rattle.iiod_bank.specs.Told.{Told, Allowed, AllowedAt, Moves, Ran, RanAt, is_plugged_at, trigger_number_at};

    // the context, names and shapes, which no call changes
    ghost front: { Self → Front };

    // the devices, triggers and clock, if the bank tells them
    ghost told: { Self → Option Told };

    /// The context, names and shapes.
    fn front(&self) -> &HubFront
        ensures { front_of result.now ≡ front self.now };

    /// Runs a job at a device and at its trigger, if it has one.
    fn device<J: DeviceJob>(&mut self, dev: u32, job: J) -> J::Out
        requires dev { dev < length (front self.old).devices }
        requires may { J.may job (shape_at (front self.old) dev) }
        ensures front { front self.new ≡ front self.old }
        ensures allowed { Allowed (J.may job) (J.makes job) dev result }
        ensures told { Moves (told self.old) (told self.new) (λ b c. Ran (J.makes job) dev b result c) };

    /// Runs a job at a trigger.
    fn trigger<J: TriggerJob>(&mut self, trigger: u32, job: J) -> J::Out
        requires { trigger < MAX_TRIGGERS }
        ensures front { front self.new ≡ front self.old }
        ensures allowed { AllowedAt (J.makes job) result }
        ensures told { Moves (told self.old) (told self.new) (λ b c. RanAt (J.makes job) trigger b result c) };

    /// Whether a device is plugged.
    fn plugged(&self, dev: u32) -> bool
        requires { dev < length (front self.now).devices }
        ensures { IfSome (told self.now) (λ b. result ≡ is_plugged_at b dev) };

    /// Returns the number of a device's trigger.
    fn trigger_of(&self, dev: u32) -> Option<u32>
        requires { dev < length (front self.now).devices }
        ensures { IfSome (told self.now) (λ b. result ≡ trigger_number_at b dev) };

    /// Returns the moment that the clock shows.
    fn clock(&self) -> i64
        ensures { IfSome (told self.now) (λ b. result ≡ b.clock) };

    /// Sets the clock.
    fn set_clock(&mut self, t: i64)
        ensures front { front self.new ≡ front self.old }
        ensures told { IfSome (told self.old) (λ b. told self.new ≡ Some (record b { clock = t })) };

    /// Reports that something came for a device's members.
    fn chime(&mut self, dev: u32)
        requires { dev < length (front self.old).devices }
        ensures front { front self.new ≡ front self.old }
        ensures told { told self.new ≡ told self.old };
}
