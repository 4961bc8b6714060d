//! What a test can hold a connection by.

/// A point that a connection passes, with the connection's number.
#[derive(Clone, Copy, Debug)]
pub enum Point {
    /// Bytes of the connection were received.
    Heard(u32),
    /// The answers to the bytes that were received were sent whole.
    Answered(u32),
}

/// What can hold a connection at a point.
pub trait Gate {
    /// Returns once the connection may go on.
    fn pass(&self, point: Point);
}

/// A gate that never holds.
#[derive(Clone, Copy, Debug)]
pub struct OpenGate;

impl Gate for OpenGate {
    fn pass(&self, _point: Point) {}
}
