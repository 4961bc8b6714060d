//! What an attribute says.

use crate::names::Name;
use iio_text::Fixed;

/// The value of an attribute.
#[derive(Debug, Drop)]
pub enum Value {
    /// A number that is stored or counted.
    Number(Fixed),
    /// A whole number of 64 bits: a sample, a bias, a threshold, or a switch as 0 or 1.
    Int(i64),
    /// A device's name.
    Text(Name),
}
