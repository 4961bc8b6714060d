//! What a client wants of a device.

use iio_layout::Shape;
use iio_mask::Mask;

/// What a client wants of a device: a number of scans under a mask;
/// and the number of samples that the server is to keep meanwhile.
#[derive(Clone, Copy)]
pub struct Ask<'a> {
    /// The device's name.
    pub device: &'a [u8],
    /// The device's channels.
    pub shape: &'a Shape,
    /// The wanted channels, which include a data channel.
    pub mask: Mask,
    /// The number of samples that the server keeps, at least 1.
    pub samples: u32,
    /// The number of wanted scans, at least 1.
    pub scans: u32,
}
