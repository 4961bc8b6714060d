//! Recorded values of a device.

use std::marker::Model;

/// Recorded values: a moment for each row, the values of all rows one after another, and how many a row has.
#[derive(Debug, Drop)]
pub struct Rows {
    pub moments: Vec<i64>,
    pub values: Vec<i64>,
    pub width: u32,
}

impl Model for Rows {
    ghost use Rattle.iio_layout.specs.Shape.{RowsRecord};

    ghost Value = { RowsRecord };

    ghost view = { λ a. record { moments = a.moments.items; values = a.values.items; width = a.width } };
}
