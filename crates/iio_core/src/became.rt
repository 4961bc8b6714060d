//! What becomes of the entries of triggers.

use iio_device::Handled;

/// What became of a device's entry.
#[derive(Clone, Copy, Debug, PartialEq, Eq)]
pub enum Became {
    /// The entry was an input device's.
    Asked(Handled),
    /// The entry was an output device's.
    Gave(Gave),
}

/// What became of an output device's entry.
#[derive(Clone, Copy, Debug, PartialEq, Eq)]
pub enum Gave {
    /// The device was given a scan.
    Given,
    /// No scan waited.
    Underrun,
    /// The entry wasn't current.
    Idle,
}
