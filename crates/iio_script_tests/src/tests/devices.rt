//! Descriptions that several subjects use.

/// One channel, with one value for each moment.
pub(crate) const COUNTED: &str = "trigger t0 2
device d t0
channel voltage0 le:u8/8>>0
row 1 1
row 2 2
row 3 3
";

pub(crate) const ADC: &str =
    "trigger t0 2\ndevice adc0 t0\nchannel voltage0 le:u12/16>>4\nchannel voltage1 le:u12/16>>4\nchannel accel_x be:s16/16>>0\ntimestamp\nrow 0 1 2 -3\n";

pub(crate) const NARROW: &str =
    "trigger t0 2\ndevice adc0 t0\nchannel voltage0 le:u12/16>>4\nchannel voltage1 le:u12/16>>4\nchannel accel_x be:s16/16>>0\ntimestamp\nmasks 00000003\nrow 0 1 2 -3\n";

/// Three lines: a trigger, a device and its channel.
pub(crate) const BARE: &str = "trigger t 1\ndevice d t\nchannel voltage0 le:u8/16>>0\n";
