//! A device's attributes, its trigger, its events, and its end.

ghost use Rattle.std.specs.Prelude.{◌≡◌, ◌<◌, ⊤, true, is_some, nat_eq, length, IfSome};
ghost use Rattle.iio_desc.specs.declared.limits.TheConstants.{MAX_TRIGGERS};
ghost use Rattle.iio_event.specs.Monitor.{after_close, after_open, after_read, close_answer, open_answer, read_answer};
ghost use Rattle.iio_device.specs.Device.{after_trigger, after_write, at_site, site_of, trigger_answer, view_of, write_answer};
ghost use Rattle.iio_device.specs.Site.{unplugged, with_monitor};
ghost use Rattle.iio_device.specs.Stored.{attr_value};

use crate::device::Fitted;
use crate::iio_dev::IioDev;
use crate::plug::Plug;
use crate::values::{read, write};
use iio_attr::{Attr, Fixed, Value};
use iio_event::{EventData, Held, NotHolder};
use iio_kfifo::Tail;
use iio_sensor::Sensor;
use iio_text::Errno;

impl<Q: Tail> Fitted<IioDev<Q>> {
    /// Returns the value of an attribute of a plugged device, or of its channel of that number: a stored value as
    /// `Value::Number`, the bias, a threshold or a switch (0 or 1) as `Value::Int`, the name as `Value::Text`.
    pub fn read_attr(&self, channel: Option<u32>, attr: Attr) -> Value
        requires channel { IfSome channel (λ c. c < length self.now.core.roster.shape.channels) }
        requires plugged { is_some self.now.plug ≡ true }
        ensures { result ≡ attr_value self.now.core.name channel attr (site_of ⟦<Plug as Sensor>⟧.driver self.now) }
    {
        match &self.plug {
            None => unreachable!(),
            Some(plug) => read(&self.core.stored, plug, &self.core.name, channel, attr),
        }
    }

    /// Writes a value to an attribute of the device, or of its channel of that number. Returns `ENODEV`, and changes nothing,
    /// exactly if the device is unplugged.
    pub fn write_attr(
        &mut self,
        channel: Option<u32>,
        attr: Attr,
        value: Fixed,
    ) -> Result<(), Errno>
        requires { IfSome channel (λ c. c < length self.old.core.roster.shape.channels) }
        ensures answer { result ≡ write_answer (view_of ⟦<Plug as Sensor>⟧.driver self.old) }
        ensures state { view_of ⟦<Plug as Sensor>⟧.driver self.new
            ≡ after_write channel attr value (view_of ⟦<Plug as Sensor>⟧.driver self.old) }
    {
        let Some(plug) = &mut self.plug else {
            return Err(Errno::ENODEV);
        };
        write(&mut self.core.stored, plug, channel, attr, value);
        Ok(())
    }

    /// Sets the device's trigger, or takes it away; a number that is given is below 16. `ENODEV` if the device is unplugged,
    /// and then `EBUSY` if it has a member; there is no other refusal.
    pub fn set_trigger(&mut self, trigger: Option<u32>) -> Result<(), Errno>
        requires { IfSome trigger (λ t. t < MAX_TRIGGERS) }
        ensures answer { result ≡ trigger_answer (view_of ⟦<Plug as Sensor>⟧.driver self.old) }
        ensures state { view_of ⟦<Plug as Sensor>⟧.driver self.new ≡ after_trigger trigger (view_of ⟦<Plug as Sensor>⟧.driver self.old) }
    {
        if self.plug.is_none() {
            return Err(Errno::ENODEV);
        }
        if !self.core.roster.members.is_empty() {
            return Err(Errno::EBUSY);
        }
        self.core.trigger = trigger;
        Ok(())
    }

    /// Makes `who` the holder of the device's events; see [`iio_event::Monitor::open`].
    pub fn ev_open(&mut self, who: u32) -> Result<(), Held>
        requires { ⊤ }
        ensures answer { result ≡ open_answer self.old.core.stored.monitor }
        ensures state { view_of ⟦<Plug as Sensor>⟧.driver self.new
            ≡ at_site (with_monitor (after_open who) (site_of ⟦<Plug as Sensor>⟧.driver self.old))
            (view_of ⟦<Plug as Sensor>⟧.driver self.old) }
    {
        self.core.stored.monitor.open(who)
    }

    /// Takes the oldest event for its holder `who`; see [`iio_event::Monitor::read`].
    pub fn ev_read(&mut self, who: u32) -> Result<Option<EventData>, NotHolder>
        requires { ⊤ }
        ensures answer { result ≡ read_answer nat_eq who self.old.core.stored.monitor }
        ensures state { view_of ⟦<Plug as Sensor>⟧.driver self.new
            ≡ at_site (with_monitor (after_read nat_eq who) (site_of ⟦<Plug as Sensor>⟧.driver self.old))
            (view_of ⟦<Plug as Sensor>⟧.driver self.old) }
    {
        self.core.stored.monitor.read(who)
    }

    /// Ends the holding of the device's events; see [`iio_event::Monitor::close`]. An unplugged device's holding ends too.
    pub fn ev_close(&mut self, who: u32) -> Result<(), NotHolder>
        requires { ⊤ }
        ensures answer { result ≡ close_answer nat_eq who self.old.core.stored.monitor }
        ensures state { view_of ⟦<Plug as Sensor>⟧.driver self.new
            ≡ at_site (with_monitor (after_close nat_eq who) (site_of ⟦<Plug as Sensor>⟧.driver self.old))
            (view_of ⟦<Plug as Sensor>⟧.driver self.old) }
    {
        self.core.stored.monitor.close(who)
    }

    /// Unplugs the device, and drops its driver. Returns whether it was plugged.
    pub fn unplug(&mut self) -> bool
        requires { ⊤ }
        ensures answer { result ≡ is_some self.old.plug }
        ensures state { view_of ⟦<Plug as Sensor>⟧.driver self.new ≡ at_site (unplugged (site_of ⟦<Plug as Sensor>⟧.driver self.old))
            (view_of ⟦<Plug as Sensor>⟧.driver self.old) }
    {
        self.plug.take().is_some()
    }
}
