//! A driver that replays rows.

ghost use Rattle.std.specs.Prelude.{◌≡◌, ℕ, ◌+◌, ◌^◌, ◌<◌, ◌≤◌, IsTrue, length, pos, replicate, slice_index_or, None, Some, OnOk, is_err};
ghost use Rattle.iio_layout.specs.Layout.{scan_size};
ghost use Rattle.iio_layout.specs.Rows.{IsRecording, Rises};
ghost use Rattle.iio_layout.specs.Scan.{scan_of, values_by};
ghost use Rattle.iio_layout.specs.Shape.{count_of, formats_of};
ghost use Rattle.iio_sensor.specs.Driver.{IsFresh, after_capture, ask_fails, next_count, values_of};
ghost use Rattle.iio_sensor.specs.Recorded.{come_by, driver_of, row_before, value_in};

use crate::asks::Asks;
use crate::held::Held;
use crate::{Fault, MAX_BIASES, Sensor};
use iio_layout::{Rows, Shape, Values, fill_from};
use iio_mask::Mask;
use std::marker::Model;

/// A driver that holds each row from its moment to the next one, and gives zeros before the first. An element past a row's
/// width is 0. No ask fails.
#[derive(Debug, Drop)]
pub struct Recorded {
    rows: Rows,
    asks: Asks,
    // The number of moments that had come when it was asked last: a moment is looked for there first.
    come: usize,
    held: Held,
}

impl Model for Recorded {
    ghost use Rattle.iio_sensor.specs.Recorded.{RecordedRecord};

    ghost Value = { RecordedRecord };

    ghost use Rattle.iio_sensor.specs.View.{IsSound, recorded_of};

    ghost view = { recorded_of };

    ghost invariant = { IsSound };
}

impl Recorded {
    /// Makes a driver that was never asked, without a bias, over these rows: their moments must rise, and `values` must have
    /// `width` numbers for each.
    pub fn new(rows: Rows) -> Recorded
        requires { IsRecording rows }
        ensures value { result ≡ record { rows = rows; biases = replicate MAX_BIASES (pos 0); asked = 0; last = None } }
        ensures fresh { IsFresh (driver_of result) }
    {
        Recorded {
            rows,
            asks: Asks::none(),
            come: 0,
            held: Held::none(),
        }
    }
}

impl Sensor for Recorded {
    ghost driver = { driver_of };

    fn capture(&mut self, shape: &Shape, t: i64, active: Mask, out: &mut [u8]) -> Result<(), Fault>
        requires bits { active.bits < 2 ^ count_of shape.now }
        requires size { length out.old ≡ scan_size shape.now active.bits }
        ensures asked { driver_of self.new ≡ after_capture (driver_of self.old) t active.bits }
        ensures fault { is_err result ≡ ask_fails (driver_of self.old) }
        ensures scan { OnOk result (out.new ≡ scan_of shape.now active.bits (values_of (driver_of self.old) shape.now t) t) }
        ensures kept { self.new ≡ record self.old { asked = next_count self.old.asked; last = Some (t, active.bits) } }
    {
        self.asks.count_capture(t, active);
        self.come = come_near(&self.rows.moments, self.come, t);
        if self.held.is_for(shape, active, self.come) {
            self.held.give(shape, t, out);
            return Ok(());
        }
        let row = row_before(&self.rows, self.come);
        fill_row(row, &self.asks.biases, shape, active, t, out);
        self.held.keep(shape, active, self.come, out);
        Ok(())
    }

    #[inline(always)]
    fn raw(&mut self, shape: &Shape, c: u32, t: i64) -> Result<i64, Fault> {
        self.asks.count();
        self.come = come_near(&self.rows.moments, self.come, t);
        let row = row_before(&self.rows, self.come);
        Ok(row_value(row, &self.asks.biases, shape, c, 0))
    }

    fn bias_of(&self, c: u32) -> i64 {
        self.asks.bias(c)
    }

    fn set_bias(&mut self, c: u32, v: i64) {
        self.asks.set_bias(c, v);
        self.held.clear();
    }
}

/// The numbers of the last of the first `count` rows; none if `count` is 0.
#[inline]
fn row_before(rows: &Rows, count: usize) -> &[i64]
    requires recording { IsRecording rows.now }
    requires within { count ≤ length rows.now.moments }
    ensures { result.now ≡ row_before rows.now count }
{
    if count == 0 {
        return &[];
    }
    let width = rows.width as usize;
    &rows.values[(count - 1) * width..count * width]
}

/// How many of the moments, which rise, are at or before `t`. It tries `before` and the next number first, since it mostly is
/// one of them, and then looks everywhere.
#[inline]
fn come_near(moments: &[i64], before: usize, t: i64) -> usize
    requires { Rises moments.now }
    ensures value { result ≡ come_by moments.now t }
    ensures bound { result ≤ length moments.now }
{
    if have_come(moments, before, t) {
        return before;
    }
    if before < moments.len() && have_come(moments, before + 1, t) {
        return before + 1;
    }
    come_by(moments, t)
}

/// Whether exactly `count` of the moments, which rise, are at or before `t`.
#[inline]
fn have_come(moments: &[i64], count: usize, t: i64) -> bool
    requires { Rises moments.now }
    ensures value { IsTrue result → count ≡ come_by moments.now t }
    ensures bound { IsTrue result → count ≤ length moments.now }
{
    if count > moments.len() {
        return false;
    }
    if count > 0 && t < moments[count - 1] {
        return false;
    }
    count == moments.len() || t < moments[count]
}

/// How many of the moments, which rise, are at or before `t`.
#[cold]
fn come_by(moments: &[i64], t: i64) -> usize
    requires { Rises moments.now }
    ensures value { result ≡ come_by moments.now t }
    ensures bound { result ≤ length moments.now }
{
    moments.partition_point(|moment| *moment <= t)
}

/// The numbers of a row, with their biases.
#[derive(Clone, Copy)]
struct RowValues<'a> {
    row: &'a [i64],
    biases: &'a [i64; MAX_BIASES],
    shape: &'a Shape,
}

impl Values for RowValues<'_> {
    ghost inputs = { λ s. length s.shape.now.channels };

    ghost value = { λ s c k. value_in s.row.now s.biases.now (formats_of s.shape.now) c k };

    #[inline]
    fn value(&self, c: u32, k: u32) -> i64 {
        row_value(self.row, self.biases, self.shape, c, k)
    }
}

/// Writes the scan of a row's numbers.
#[inline(never)]
fn fill_row(
    row: &[i64],
    biases: &[i64; MAX_BIASES],
    shape: &Shape,
    active: Mask,
    t: i64,
    out: &mut [u8],
)
    requires bits { active.bits < 2 ^ count_of shape.now }
    requires size { length out.old ≡ scan_size shape.now active.bits }
    ensures { out.new ≡ scan_of shape.now active.bits (values_by shape.now (value_in row.now biases.now (formats_of shape.now))) t }
{
    fill_from(shape, active, &RowValues { row, biases, shape }, t, out);
}

/// The value of element `k` of channel `c` by a row, with its bias.
#[inline]
fn row_value(row: &[i64], biases: &[i64; MAX_BIASES], shape: &Shape, c: u32, k: u32) -> i64
    requires { c < length shape.now.channels }
    ensures { result ≡ value_in row.now biases.now (formats_of shape.now) c k }
{
    let number = number_at(row, shape.first_value(c) + k as usize);
    shape
        .data_type(c)
        .saturating_sum(number, biases[c as usize])
}

/// The number at a place of a row; 0 past the row's end.
#[inline]
fn number_at(row: &[i64], place: usize) -> i64
    ensures { result ≡ slice_index_or row.now place (pos 0) }
{
    row.get(place).copied().unwrap_or(0)
}
