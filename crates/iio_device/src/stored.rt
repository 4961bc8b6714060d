//! What a device keeps of its attributes: stored values and thresholds.

ghost use Rattle.std.specs.Prelude.{◌≡◌, ◌≤◌, length};
ghost use Rattle.iio_sensor.specs.declared.sensor.TheConstants.{MAX_BIASES};

use crate::values::{at_first, first_values};
use iio_attr::{Attr, Fixed};
use iio_base::Mem;
use iio_event::Monitor;
use iio_layout::Shape;
use iio_sensor::MAX_BIASES;
use std::alloc::Global;

/// The values of those attributes of a channel that are only kept.
#[derive(Clone, Copy, Debug)]
pub struct ChannelValues {
    pub scale: Fixed,
    pub offset: Fixed,
    pub calibscale: Fixed,
}

/// What a device keeps of its attributes; channel 0 comes first. The driver keeps a channel's bias.
#[derive(Debug, Drop)]
pub struct Stored {
    pub sampling_frequency: Fixed,
    pub values: Vec<ChannelValues>,
    pub monitor: Monitor,
    ghost even: { length monitor.channels ≡ length values.items },
    ghost few: { length values.items ≤ MAX_BIASES },
}

impl Stored {
    ghost use Rattle.std.specs.Prelude.{ℕ, Option, true, IfOk};
    ghost use Rattle.iio_sensor.specs.Driver.{Driver};
    ghost use Rattle.iio_device.specs.Site.{new_site};
    ghost use Rattle.iio_device.specs.Stored.{site_with};

    /// What a device of that shape keeps before any attribute is written. All memory that it ever needs is allocated here.
    pub fn new(alloc: Global, shape: &Shape) -> Result<Stored, Mem>
        ensures site { IfOk result
            (λ stored. (trigger : Option ℕ) (driver : Driver) → site_with true trigger 0 driver stored ≡ new_site shape.now trigger driver) }
        ensures inputs { IfOk result (λ stored. length stored.values.items ≡ length shape.now.channels) }
    {
        Ok(Stored {
            sampling_frequency: at_first(Attr::SamplingFrequency),
            values: vec![in alloc; first_values(); shape.inputs() as usize]?,
            monitor: Monitor::new(alloc, shape)?,
        })
    }
}
