//! Attributes: their names, their values, and which of them can be written.
#![tactic(auto)]

mod attributes;
mod names;
mod values;

pub use crate::attributes::{Attr, Scope, check, find, first_value, writable};
pub use crate::names::Name;
pub use crate::values::Value;
pub use iio_text::{Errno, Fixed, Form};
