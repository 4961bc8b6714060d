//! The shape of a device: its channels, its timestamp and its listed masks.

ghost use Rattle.std.specs.Prelude.{◌≡◌, ◌+◌, ◌^◌, ◌<◌, ◌≤◌, ◌↔◌, false, map, length, slice_index, slice_get, sum_by, take, ℕ, All, AllPairs, position, IsTrue, IsSome, IfSome, IfNone, IfOk, Some};
ghost use Rattle.iio_scan_type.specs.Format.{IsInProfile};
ghost use Rattle.std.specs.List.{list_any};
ghost use Rattle.iio_layout.specs.Id.{same_id};
ghost use Rattle.iio_layout.specs.Layout.{format_at};
ghost use Rattle.iio_layout.specs.Scan.{first_value};
ghost use Rattle.iio_layout.specs.Shape.{IsShape, channel_of, channel_with, count_of, formats_of, id_at, same_channel, stamp_formats, width_of};
ghost use Rattle.iio_layout.specs.View.{AreNumbered};

use crate::{Channel, Kind, Mem, Suffix, read_id};
use iio_mask::Mask;
use iio_scan_type::{Endian, ScanType};
use std::alloc::Global;
use std::marker::Model;

/// The most channels of a device, with its timestamp: a mask has a bit for each.
pub const MAX_CHANNELS: usize = 64;

/// A device's channels in the order of their numbers, its timestamp, which is the last channel, and the masks that its sensor
/// can be asked under, if they are listed.
#[derive(Debug, Drop)]
pub struct Shape {
    channels: Vec<Channel>,
    stamp: Option<Endian>,
    listed: Vec<Mask>,
    // Where each channel's values begin among those of a capture, and how many there are in all.
    starts: [u16; MAX_CHANNELS],
    width: u16,
    // Whether the suffix of each channel is its place as a number: then an ID is looked for at one place alone.
    numbered: bool,
}

impl Model for Shape {
    ghost use Rattle.iio_layout.specs.Shape.{ShapeRecord};

    ghost Value = { ShapeRecord };

    ghost use Rattle.iio_layout.specs.View.{record_of, IsSound};

    ghost view = { record_of };

    ghost invariant = { IsSound };
}

impl Shape {
    /// Makes the shape of these channels. Returns `None` exactly if there is no channel, if there are more than `MAX_CHANNELS`
    /// with the timestamp, if two have the same kind, suffix and direction, or if a listed mask has no channel, the timestamp's
    /// bit, or a bit at or above the channel count.
    pub fn new(channels: Vec<Channel>, stamp: Option<Endian>, listed: Vec<Mask>) -> Option<Shape>
        ensures shape { IfSome result (λ s. s ≡ record { channels = channels.items; stamp = stamp; listed = map (λ m. m.bits) listed.items }) }
        ensures sound { IfSome result (λ s. IsShape s) }
        ensures refused { IfNone result (¬ IsShape (record { channels = channels.items; stamp = stamp; listed = map (λ m. m.bits) listed.items })) }
    {
        if !is_shape(&channels, stamp, &listed) {
            return None;
        }
        let (starts, width) = starts_of(&channels);
        let numbered = are_numbered(&channels);
        Some(Shape {
            channels,
            stamp,
            listed,
            starts,
            width,
            numbered,
        })
    }

    /// The number of channels, with the timestamp.
    pub fn count(&self) -> u32
        ensures value { result ≡ count_of self.now }
        ensures sound { IsShape self.now }
    {
        self.inputs() + u32::from(self.stamp.is_some())
    }

    /// The number of data channels: all but the timestamp.
    pub fn inputs(&self) -> u32
        ensures value { result ≡ length self.now.channels }
        ensures sound { IsShape self.now }
    {
        self.channels.len() as u32
    }

    /// The number of values in a capture without its moment: the elements of all data channels.
    pub fn width(&self) -> u32
        ensures { result ≡ width_of self.now }
    {
        u32::from(self.width)
    }

    /// Data channel `c`.
    pub fn channel(&self, c: u32) -> &Channel
        requires { c < length self.now.channels }
        ensures { slice_get self.now.channels c ≡ Some result.now }
    {
        &self.channels[c as usize]
    }

    /// The type of channel `c`; for the timestamp's number, the type of the timestamp.
    pub fn scan_type(&self, c: u32) -> ScanType
        requires { c < count_of self.now }
        ensures value { result ≡ format_at (formats_of self.now) c }
        ensures sound { IsShape self.now }
    {
        if (c as usize) < self.channels.len() {
            self.channels[c as usize].ty
        } else {
            ScanType::stamp(self.stamp.unwrap())
        }
    }

    /// The type of data channel `c`.
    #[inline]
    pub fn data_type(&self, c: u32) -> &ScanType
        requires { c < length self.now.channels }
        ensures value { result.now ≡ format_at (formats_of self.now) c }
        ensures sound { IsShape self.now }
    {
        &self.channels[c as usize].ty
    }

    /// The byte order of the timestamp, if there is one.
    pub fn stamp(&self) -> Option<Endian>
        ensures { result ≡ self.now.stamp }
    {
        self.stamp
    }

    /// The number of the first channel of that ID. Returns `None` exactly if the text is no ID or no channel has it.
    pub fn find(&self, id: &[u8]) -> Option<u32>
        ensures { result ≡ channel_of self.now id.now }
    {
        let (kind, suffix) = read_id(id)?;
        let at = self.place_of(kind, suffix)?;
        Some(at as u32)
    }

    // The place of the first channel of that ID.
    fn place_of(&self, kind: Kind, suffix: Suffix) -> Option<usize>
        ensures value { result ≡ channel_with self.now (kind, suffix) }
        ensures sound { IsShape self.now }
    {
        if self.numbered {
            numbered_with(&self.channels, kind, suffix)
        } else {
            first_with(&self.channels, kind, suffix)
        }
    }

    /// Returns an equal shape.
    pub fn copy(&self, alloc: Global) -> Result<Shape, Mem>
        ensures { IfOk result (λ s. s ≡ self.now) }
    {
        Ok(Shape {
            channels: Vec::from_slice(alloc, &self.channels)?,
            stamp: self.stamp,
            listed: Vec::from_slice(alloc, &self.listed)?,
            starts: self.starts,
            width: self.width,
            numbered: self.numbered,
        })
    }

    /// The listed masks.
    pub(crate) fn listed(&self) -> &[Mask]
        ensures value { map (λ m. m.bits) result.now ≡ self.now.listed }
        ensures sound { IsShape self.now }
    {
        self.listed.as_slice()
    }

    /// Where the values of data channel `c` begin among those of a capture.
    #[inline]
    pub fn first_value(&self, c: u32) -> usize
        requires { c < length self.now.channels }
        ensures value { result ≡ first_value (formats_of self.now) c }
        ensures small { result < 2 ^ 16 }
    {
        usize::from(self.starts[c as usize])
    }
}

// Whether these channels, this timestamp and these masks make a shape.
fn is_shape(channels: &[Channel], stamp: Option<Endian>, listed: &[Mask]) -> bool
    ensures { IsTrue result ↔ IsShape (record { channels = channels.now; stamp = stamp; listed = map (λ m. m.bits) listed.now }) }
{
    if channels.is_empty() || channels.len() > max_channels(stamp) {
        return false;
    }
    if !are_distinct(channels) {
        return false;
    }
    are_listable(listed, channels.len() as u32)
}

// The most data channels: the timestamp is a channel too.
fn max_channels(stamp: Option<Endian>) -> usize
    ensures { result + length (stamp_formats stamp) ≡ MAX_CHANNELS }
{
    match stamp {
        Some(_) => MAX_CHANNELS - 1,
        None => MAX_CHANNELS,
    }
}

// The place of the first channel of that ID.
fn first_with(channels: &[Channel], kind: Kind, suffix: Suffix) -> Option<usize>
    ensures { result ≡ position (λ channel. same_id (id_at channel) (kind, suffix)) channels.now }
{
    channels
        .iter()
        .position(|channel| has_id(channel, kind, suffix))
}

// The place of the first channel of that ID, if the suffix of each channel is its place as a number.
fn numbered_with(channels: &[Channel], kind: Kind, suffix: Suffix) -> Option<usize>
    requires { AreNumbered channels.now }
    ensures { result ≡ position (λ channel. same_id (id_at channel) (kind, suffix)) channels.now }
{
    let Suffix::Number(number) = suffix else {
        return None;
    };
    let at = usize::from(number);
    if at < channels.len() && channels[at].kind == kind {
        Some(at)
    } else {
        None
    }
}

// Whether the suffix of each channel is its place as a number.
fn are_numbered(channels: &[Channel]) -> bool
    requires { length channels.now ≤ MAX_CHANNELS }
    ensures { IsTrue result ↔ AreNumbered channels.now }
{
    for (c, channel) in channels.iter().enumerate() {
        if channel.suffix != Suffix::Number(c as u16) {
            return false;
        }
    }
    true
}

// Whether a channel has that ID. Most channels of a device are of one kind, so the suffix is compared first.
fn has_id(channel: &Channel, kind: Kind, suffix: Suffix) -> bool
    ensures { result ≡ same_id (id_at channel.now) (kind, suffix) }
{
    channel.suffix == suffix && channel.kind == kind
}

// Whether no two channels have the same kind, suffix and direction.
fn are_distinct(channels: &[Channel]) -> bool
    ensures { IsTrue result ↔ AllPairs (λ a b. same_channel a b ≡ false) channels.now }
{
    for (c, channel) in channels.iter().enumerate() {
        if is_among(&channels[..c], channel) {
            return false;
        }
    }
    true
}

// Whether one of the channels has that channel's kind, suffix and direction.
fn is_among(channels: &[Channel], channel: &Channel) -> bool
    ensures { result ≡ list_any (λ before. same_channel before channel.now) channels.now }
{
    channels.iter().any(|before| is_same(before, channel))
}

fn is_same(a: &Channel, b: &Channel) -> bool
    ensures { result ≡ same_channel a.now b.now }
{
    a.kind == b.kind && a.suffix == b.suffix && a.direction == b.direction
}

// Whether each mask has a channel, and none has one at or above `inputs`.
fn are_listable(listed: &[Mask], inputs: u32) -> bool
    requires { inputs ≤ MAX_CHANNELS }
    ensures { IsTrue result ↔ All (λ mask. (0 < mask.bits) × (mask.bits < 2 ^ inputs)) listed.now }
{
    listed.iter().all(|mask| is_listable(mask.bits, inputs))
}

fn is_listable(bits: u64, inputs: u32) -> bool
    requires { inputs ≤ MAX_CHANNELS }
    ensures { IsTrue result ↔ ((0 < bits) × (bits < 2 ^ inputs)) }
{
    bits != 0 && (inputs == 64 || bits < 1 << inputs)
}

// Where the values of each channel begin, and how many there are in all.
fn starts_of(channels: &[Channel]) -> ([u16; MAX_CHANNELS], u16)
    requires { length channels.now ≤ MAX_CHANNELS }
    ensures starts { (c : ℕ) → c < length channels.now → slice_index result.0 c ≡ sum_by (λ channel. channel.ty.repeat) (take c channels.now) }
    ensures room { length result.0 ≡ MAX_CHANNELS }
    ensures width { result.1 ≡ sum_by (λ channel. channel.ty.repeat) channels.now }
{
    let mut starts = [0; MAX_CHANNELS];
    let mut width = 0;
    for (c, channel) in channels.iter().enumerate() {
        starts[c] = width;
        width += u16::from(channel.ty.repeat());
    }
    (starts, width)
}
