//! A look at a device's thresholds.

ghost use Rattle.std.specs.Prelude.{◌≡◌, ◌<◌, ◌≤◌, length, IfOk};
ghost use Rattle.iio_event.specs.Monitor.{channel_at};
ghost use Rattle.iio_device.specs.Sensing.{begun, channel_sensed, channels_sensed, is_watched, sense_result};

use iio_event::{Edge, Monitor};
use iio_layout::Shape;
use iio_sensor::{Fault, Sensor};

// Whether a value of channel `c` is asked for.
fn is_watched(monitor: &Monitor, c: u32) -> bool
    requires { c < length monitor.now.channels }
    ensures { result ≡ is_watched (channel_at c monitor.now) }
{
    monitor.on(c, Edge::Rising) || monitor.on(c, Edge::Falling)
}

// Asks for a value of channel `c` if it is watched; returns how many events fired.
fn sense_one<P: Sensor>(
    plug: &mut P,
    monitor: &mut Monitor,
    shape: &Shape,
    c: u32,
    t: i64,
) -> Result<u32, Fault>
    requires channel { c < length shape.now.channels }
    requires watched { c < length monitor.old.channels }
    ensures driver { P.driver plug.new ≡ (channel_sensed shape.now t c (begun (P.driver plug.old) monitor.old)).driver }
    ensures monitor { monitor.new ≡ (channel_sensed shape.now t c (begun (P.driver plug.old) monitor.old)).monitor }
    ensures answer { result ≡ sense_result (channel_sensed shape.now t c (begun (P.driver plug.old) monitor.old)) }
    ensures few { IfOk result (λ count. count ≤ 2) }
    ensures same { length monitor.new.channels ≡ length monitor.old.channels }
{
    if !is_watched(monitor, c) {
        return Ok(0);
    }
    let value = plug.raw(shape, c, t)?;
    Ok(monitor.sense(c, value, t))
}

/// Asks for a value of each watched channel, one after another, until an ask fails; returns how many events fired.
pub(crate) fn sense_all<P: Sensor>(
    plug: &mut P,
    monitor: &mut Monitor,
    shape: &Shape,
    t: i64,
) -> Result<u32, Fault>
    requires { length monitor.old.channels ≡ length shape.now.channels }
    ensures driver { P.driver plug.new ≡ (channels_sensed shape.now t (length shape.now.channels) (begun (P.driver plug.old) monitor.old)).driver }
    ensures monitor { monitor.new ≡ (channels_sensed shape.now t (length shape.now.channels) (begun (P.driver plug.old) monitor.old)).monitor }
    ensures answer { result ≡ sense_result (channels_sensed shape.now t (length shape.now.channels) (begun (P.driver plug.old) monitor.old)) }
    ensures same { length monitor.new.channels ≡ length monitor.old.channels }
{
    let mut count = 0;
    for c in 0..shape.inputs() {
        count += sense_one(plug, monitor, shape, c, t)?;
    }
    Ok(count)
}
