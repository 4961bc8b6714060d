//! Sums of values, and their means.

ghost use Rattle.std.specs.Prelude.{◌≡◌, ◌+◌, ◌≤◌, ◌<◌, ◌+ℤ◌, All, length, pos, int_div};
ghost use Rattle.iio_derive.specs.Window.{added, means_of, sums_by};
ghost use Rattle.iio_derive.specs.View.{IsSum};

// The sum of `count` values with another one added.
fn sum_with(count: u32, sum: i128, value: i64) -> i128
    requires few { count ≤ 1000 }
    requires sum { IsSum count sum }
    ensures value { result ≡ value +ℤ sum }
    ensures sum { IsSum (count + 1) result }
{
    i128::from(value) + sum
}

// The mean of `size` values, rounded towards zero.
fn mean_of(size: u32, sum: i128) -> i64
    requires some { 1 ≤ size }
    requires few { size ≤ 1000 }
    requires sum { IsSum size sum }
    ensures { result ≡ int_div sum (pos size) }
{
    (sum / i128::from(size)) as i64
}

// The sum of one value.
fn first_sum(value: i64) -> i128
    ensures value { result ≡ value }
    ensures sum { IsSum 1 result }
{
    i128::from(value)
}

// Replaces the sums by the values of a first capture.
fn put_first(sums: &mut [i128], values: &[i64])
    requires { length sums.old ≡ length values.now }
    ensures value { sums.new ≡ values.now }
    ensures sums { All (IsSum 1) sums.new }
{
    for i in 0..sums.len() {
        sums[i] = first_sum(values[i]);
    }
}

// Adds the values of another capture to the sums of `count` captures.
fn add_more(count: u32, sums: &mut [i128], values: &[i64])
    requires few { count ≤ 1000 }
    requires same { length sums.old ≡ length values.now }
    requires sums { All (IsSum count) sums.old }
    ensures value { sums.new ≡ added values.now sums.old }
    ensures sums { All (IsSum (count + 1)) sums.new }
{
    for i in 0..sums.len() {
        sums[i] = sum_with(count, sums[i], values[i]);
    }
}

// Adds the values of another capture to the sums of `count` captures. If `count` is 0, what stands in the sums is ignored.
pub(crate) fn add_values(count: u32, sums: &mut [i128], values: &[i64])
    requires few { count ≤ 1000 }
    requires same { length sums.old ≡ length values.now }
    requires sums { 1 ≤ count → All (IsSum count) sums.old }
    ensures value { sums.new ≡ sums_by count sums.old values.now }
    ensures sums { All (IsSum (count + 1)) sums.new }
{
    if count == 0 {
        put_first(sums, values);
    } else {
        add_more(count, sums, values);
    }
}

// Replaces the values by the means of `size` captures.
pub(crate) fn put_means(size: u32, sums: &[i128], values: &mut [i64])
    requires some { 1 ≤ size }
    requires few { size ≤ 1000 }
    requires same { length values.old ≡ length sums.now }
    requires sums { All (IsSum size) sums.now }
    ensures { values.new ≡ means_of size sums.now }
{
    for i in 0..values.len() {
        values[i] = mean_of(size, sums[i]);
    }
}
