//! How a connection stands.

/// How a connection stands after a feed.
#[derive(Clone, Copy, Debug, PartialEq, Eq)]
pub enum Going {
    /// Every whole command was answered.
    On,
    /// A READBUF found nothing at the device of that number. The next feed tries it again.
    Waits(u32),
    /// The connection has ended: by EXIT, or by a broken limit.
    Ended,
}
