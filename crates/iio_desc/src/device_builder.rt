//! The lines of one device.

ghost use Rattle.std.specs.Prelude.{◌≡◌, ◌+◌, ◌&&◌, ◌^◌, ◌<◌, ◌≤◌, ◌++◌, nat_lt, length, map, take, drop, vec_len, option_map, option_and_then, Some, None, Ok, IfSome, IfOk, position, IfErr, OnOk, OnErr, true, false, not, length, All, ℕ, List};
ghost use Rattle.std.specs.List.{list_any};
ghost use Rattle.std.specs.Option.{ok_or};
ghost use Rattle.std.specs.Str.{bytes_eq};
ghost use Rattle.iio_text.specs.LineFault.{Tells, Gives, Becomes};
ghost use Rattle.iio_text.specs.Words.{words_of, is_space};
ghost use Rattle.iio_layout.specs.Id.{id_of, same_id};
ghost use Rattle.iio_layout.specs.Rows.{IsRecording};
ghost use Rattle.iio_layout.specs.Shape.{channel_of, id_at, same_direction};
ghost use Rattle.iio_layout.specs.declared.channel.Direction.TheVariants as direction;
ghost use Rattle.iio_desc.specs.Description.{DeviceRecord};
ghost use Rattle.iio_desc.specs.DeviceLines.{attr_line, channel_added, channel_line, driver_line, driver_of, drives, endian_of, has_id, ints_of, is_free, listable, listed_of, masks_line, masks_of, rises, row_line, row_of, counted_row, scope_at, stamp_line, stamp_of, unless_dash, with_channel};
ghost use Rattle.iio_desc.specs.PartialDevice.{channel_count, device_of, has_channels, has_only_channels, may_drive, may_go_on, may_list, new_device, output_of, row_width, shape_of};
ghost use Rattle.iio_desc.specs.View.{KeepsPlace};
ghost use Rattle.iio_desc.specs.WellFormed.{IsWrite};

use crate::description::{AttrDesc, DeviceDesc, OutDesc};
use crate::limits::{MAX_MASKS, MAX_ROWS};
use iio_attr::{Name, Scope, Value, check, find, writable};
use iio_layout::{Channel, Direction, Kind, MAX_CHANNELS, Rows, Shape, Suffix, read_id};
use iio_mask::Mask;
use iio_scan_type::{Endian, ScanType, read_type};
use iio_text::{
    LineFault, Why, count_words, ensure, next_word, one_word, read_int, three_words, two_words,
};
use std::alloc::{AllocError, Global};
use std::marker::Model;

/// The device or output device whose lines are being read.
#[derive(Drop)]
pub(crate) struct DeviceBuilder {
    // The direction of its channels.
    direction: Direction,
    name: Name,
    trigger: Option<u32>,
    channels: Vec<Channel>,
    stamp: Option<Endian>,
    listed: Vec<Mask>,
    moments: Vec<i64>,
    values: Vec<i64>,
    // How many values a row has.
    width: u32,
    driver: Option<u32>,
    attrs: Vec<AttrDesc>,
}

impl Model for DeviceBuilder {
    ghost use Rattle.iio_desc.specs.PartialDevice.{PartialDevice};

    ghost Value = { PartialDevice };

    ghost use Rattle.iio_desc.specs.View.{partial_device, IsSoundDevice};

    ghost view = { partial_device };

    ghost invariant = { IsSoundDevice };
}

fn same_id(a: (Kind, Suffix), b: (Kind, Suffix)) -> bool
    ensures { result ≡ same_id a b }
{
    a.0 == b.0 && a.1 == b.1
}

// The number of the channel that has this ID.
fn channel_number(channels: &[Channel], id: (Kind, Suffix)) -> Option<usize>
    ensures value { result ≡ position (λ channel. same_id (id_at channel) id) channels.now }
    ensures within { IfSome result (λ c. c < length channels.now) }
{
    channels
        .iter()
        .position(|c| same_id((c.kind, c.suffix), id))
}

// The number of the channel whose ID is spelled like this.
fn find_channel(channels: &[Channel], id: &[u8]) -> Option<usize>
    ensures value { result ≡ option_and_then (λ id. position (λ channel. same_id (id_at channel) id) channels.now) (id_of id.now) }
    ensures within { IfSome result (λ c. c < length channels.now) }
{
    match read_id(id) {
        None => None,
        Some(id) => channel_number(channels, id),
    }
}

fn has_channel(channels: &[Channel], id: (Kind, Suffix)) -> bool
    ensures { result ≡ list_any (λ channel. same_id (id_at channel) id) channels.now }
{
    channels.iter().any(|c| same_id((c.kind, c.suffix), id))
}

// The byte order that a word says.
fn read_endian(word: &[u8]) -> Option<Endian>
    ensures { result ≡ endian_of word.now }
{
    if word == b"le".as_slice() {
        Some(Endian::Little)
    } else if word == b"be".as_slice() {
        Some(Endian::Big)
    } else {
        None
    }
}

// The byte order of a timestamp that the words of its line say.
fn read_stamp(words: &[u8]) -> Result<Endian, Why>
    ensures { result ≡ stamp_of (words_of is_space words.now) }
{
    let Some((word, rest)) = next_word(words) else {
        return Ok(Endian::Little);
    };
    ensure(next_word(rest).is_none(), Why::Count)?;
    read_endian(word).ok_or(Why::BadType)
}

// Whether a mask has at least one data channel, and no other channel.
fn is_listable(bits: u64, channels: u32) -> bool
    requires { channels ≤ 64 }
    ensures { result ≡ (nat_lt 0 bits && nat_lt bits (2 ^ channels)) }
{
    bits > 0 && (channels == 64 || bits < 1 << channels)
}

// Reads a mask that can be listed, for a device of `channels` data channels and of `count` channels with the timestamp.
fn read_mask(word: &[u8], channels: u32, count: u32) -> Option<Mask>
    requires some { 1 ≤ channels }
    requires within { channels ≤ count }
    requires few { count ≤ 64 }
    ensures { option_map (λ m. m.bits) result ≡ listed_of channels count word.now }
{
    let mask = Mask::read(word, count)?;
    if is_listable(mask.bits, channels) {
        Some(mask)
    } else {
        None
    }
}

// Reads the masks that words say. There are at most `room` words.
fn read_masks(
    alloc: Global,
    words: &[u8],
    channels: u32,
    count: u32,
    room: usize,
) -> Result<Vec<Mask>, LineFault>
    requires some { 1 ≤ channels }
    requires within { channels ≤ count }
    requires few { count ≤ 64 }
    requires room { length (words_of is_space words.now) ≤ room }
    ensures ok { IfOk result (λ ms. masks_of channels count (words_of is_space words.now) ≡ Some (map (λ m. m.bits) ms.items)) }
    ensures err { IfErr result (λ e. Tells e (ok_or (masks_of channels count (words_of is_space words.now)) Why.Mask)) }
{
    let mut masks = Vec::with_capacity(alloc, room)?;
    let mut rest = words;
    while let Some((word, more)) = next_word(rest) {
        let mask = read_mask(word, channels, count).ok_or(Why::Mask)?;
        masks.push_reserved(mask);
        rest = more;
    }
    Ok(masks)
}

// Appends the integers that words say. After an `Err` some may have been appended.
fn push_ints(ints: &mut Vec<i64>, words: &[u8]) -> Result<(), LineFault>
    ensures ok { OnOk result (option_map (λ vs. ints.old.items ++ vs) (ints_of (words_of is_space words.now)) ≡ Some ints.new.items) }
    ensures err { IfErr result (λ e. Tells e (ok_or (ints_of (words_of is_space words.now)) Why.Number)) }
    ensures before { take (vec_len ints.old) ints.new.items ≡ ints.old.items }
{
    let mut rest = words;
    while let Some((word, more)) = next_word(rest) {
        let value = read_int(word).ok_or(Why::Number)?;
        ints.push(value)?;
        rest = more;
    }
    Ok(())
}

// Whether a moment is after the last of the moments before it, if any.
fn rises(moments: &[i64], moment: i64) -> bool
    ensures { result ≡ rises moments.now moment }
{
    match moments.last() {
        None => true,
        Some(last) => *last < moment,
    }
}

// Reads a row: returns its moment and appends its values. After an `Err` some may have been appended.
fn read_row(moments: &[i64], values: &mut Vec<i64>, words: &[u8]) -> Result<i64, LineFault>
    ensures ok { IfOk result (λ moment. row_of moments.now (words_of is_space words.now) ≡ Ok (moment, drop (vec_len values.old) values.new.items)) }
    ensures err { IfErr result (λ e. Tells e (row_of moments.now (words_of is_space words.now))) }
    ensures before { take (vec_len values.old) values.new.items ≡ values.old.items }
{
    let (moment, rest) = next_word(words).ok_or(Why::Count)?;
    let moment = read_int(moment).ok_or(Why::Number)?;
    ensure(rises(moments, moment), Why::Moment)?;
    push_ints(values, rest)?;
    Ok(moment)
}

// Reads a row of `width` values: returns its moment and appends its values. The words are counted by the values that are read,
// and by themselves only if another check fails. After an `Err` `values` is as it was.
fn push_row(
    moments: &[i64],
    values: &mut Vec<i64>,
    width: usize,
    words: &[u8],
) -> Result<i64, LineFault>
    requires { width < 2 ^ 32 }
    ensures ok { IfOk result (λ moment. counted_row width moments.now (words_of is_space words.now) ≡ Ok (moment, drop (vec_len values.old) values.new.items)) }
    ensures err { IfErr result (λ e. Tells e (counted_row width moments.now (words_of is_space words.now))) }
    ensures before { take (vec_len values.old) values.new.items ≡ values.old.items }
    ensures kept { OnErr result (values.new.items ≡ values.old.items) }
{
    let start = values.len();
    let row = match read_row(moments, values, words) {
        Ok(moment) if values.len() - start == width => return Ok(moment),
        Err(fault) if count_words(words) == width + 1 => Err(fault),
        _ => Err(LineFault::Why(Why::Count)),
    };
    values.truncate(start);
    row
}

fn drives(k: u32, device: &DeviceDesc) -> bool
    ensures { result ≡ drives k device.now }
{
    device.driver == Some(k)
}

fn is_used(k: u32, devices: &[DeviceDesc]) -> bool
    ensures { result ≡ list_any (drives k) devices.now }
{
    devices.iter().any(|d| drives(k, d))
}

// Whether driver `k` is one of `drivers` handed-in drivers, and no device has it.
fn is_free(drivers: u32, devices: &[DeviceDesc], k: u32) -> bool
    ensures { result ≡ is_free drivers devices.now k }
{
    k < drivers && !is_used(k, devices)
}

// The number of a free driver that a word says.
fn read_driver(drivers: u32, devices: &[DeviceDesc], word: &[u8]) -> Option<u32>
    ensures value { result ≡ driver_of drivers devices.now word.now }
    ensures free { IfSome result (λ k. is_free drivers devices.now k ≡ true) }
{
    match read_int(word) {
        Some(k @ 0..=0xffff_ffff) if is_free(drivers, devices, k as u32) => Some(k as u32),
        _ => None,
    }
}

// What an attribute belongs to.
fn scope_at(channel: Option<u32>) -> Scope
    ensures { result ≡ scope_at channel }
{
    match channel {
        None => Scope::Device,
        Some(_) => Scope::Channel,
    }
}

impl DeviceBuilder {
    /// A device of which only its own line was read.
    pub(crate) fn new(
        alloc: Global,
        direction: Direction,
        name: Name,
        trigger: Option<u32>,
    ) -> DeviceBuilder
        ensures { result ≡ new_device direction name trigger }
    {
        DeviceBuilder {
            direction,
            name,
            trigger,
            channels: Vec::new(alloc),
            stamp: None,
            listed: Vec::new(alloc),
            moments: Vec::new(alloc),
            values: Vec::new(alloc),
            width: 0,
            driver: None,
            attrs: Vec::new(alloc),
        }
    }

    /// Whether the device has that name.
    pub(crate) fn is_named(&self, name: &[u8]) -> bool
        ensures { result ≡ bytes_eq self.now.name name.now }
    {
        self.name.is(name)
    }

    /// Whether the device has a channel.
    pub(crate) fn has_channels(&self) -> bool
        ensures { result ≡ has_channels self.now }
    {
        !self.channels.is_empty()
    }

    /// The direction of its channels.
    pub(crate) fn direction(&self) -> Direction
        ensures { result ≡ self.now.direction }
    {
        self.direction
    }

    // Whether lines other than channels may follow: never for an output device.
    fn may_go_on(&self) -> bool
        ensures { result ≡ may_go_on self.now }
    {
        self.direction == Direction::Input && self.has_channels()
    }

    /// How many rows it has.
    pub(crate) fn row_count(&self) -> usize
        ensures { result ≡ length self.now.moments }
    {
        self.moments.len()
    }

    /// The device, if no further line of it follows.
    pub(crate) fn into_device(self) -> DeviceDesc
        requires { has_channels self ≡ true }
        ensures value { result ≡ device_of self }
        ensures recording { IsRecording result.rows }
        ensures writes { All (IsWrite (length result.shape.channels)) result.attrs }
    {
        let DeviceBuilder {
            direction: _,
            name,
            trigger,
            channels,
            stamp,
            listed,
            moments,
            values,
            width,
            driver,
            attrs,
        } = self;
        DeviceDesc {
            name,
            trigger,
            shape: Shape::new(channels, stamp, listed).unwrap(),
            rows: Rows {
                moments,
                values,
                width,
            },
            driver,
            attrs,
        }
    }

    /// The output device, if no further line of it follows.
    pub(crate) fn into_output(self, alloc: Global) -> OutDesc
        requires { has_channels self ≡ true }
        ensures { result ≡ output_of self }
    {
        let DeviceBuilder {
            direction: _,
            name,
            trigger,
            channels,
            stamp: _,
            listed: _,
            moments: _,
            values: _,
            width: _,
            driver: _,
            attrs: _,
        } = self;
        OutDesc {
            name,
            trigger,
            shape: Shape::new(channels, None, Vec::new(alloc)).unwrap(),
        }
    }

    // Whether the device has no masks, row, driver or attr line yet.
    fn may_list(&self) -> bool
        ensures { result ≡ may_list self.now }
    {
        self.listed.is_empty()
            && self.moments.is_empty()
            && self.driver.is_none()
            && self.attrs.is_empty()
    }

    // Whether channels are its only lines so far.
    fn has_only_channels(&self) -> bool
        ensures { result ≡ has_only_channels self.now }
    {
        self.stamp.is_none() && self.may_list()
    }

    // Whether the device has no row and no driver line yet.
    fn may_drive(&self) -> bool
        ensures { result ≡ may_drive self.now }
    {
        self.moments.is_empty() && self.driver.is_none()
    }

    // The number of channels, with the timestamp.
    fn count(&self) -> u32
        ensures value { result ≡ channel_count self.now }
        ensures few { channel_count self.now ≤ 64 }
        ensures channels { length self.now.channels ≤ channel_count self.now }
    {
        self.channels.len() as u32 + u32::from(self.stamp.is_some())
    }

    // Adds a channel, of an ID that no channel has.
    fn push_channel(&mut self, id: (Kind, Suffix), ty: ScanType) -> Result<(), AllocError>
        requires own { has_id self.old id ≡ false }
        requires fresh { has_only_channels self.old ≡ true }
        requires few { length self.old.channels < MAX_CHANNELS }
        ensures ok { OnOk result (self.new ≡ with_channel self.old id ty) }
        ensures kept { OnErr result (self.new ≡ self.old) }
    {
        self.channels.push(Channel {
            kind: id.0,
            suffix: id.1,
            direction: self.direction,
            ty,
        })?;
        self.width += u32::from(ty.repeat());
        Ok(())
    }

    // Adds a channel, of an ID that no channel has; refused as `limit` if there may be no more.
    fn add_channel(&mut self, id: (Kind, Suffix), ty: ScanType) -> Result<(), LineFault>
        requires own { has_id self.old id ≡ false }
        requires fresh { has_only_channels self.old ≡ true }
        ensures line { Becomes result self.old self.new (channel_added self.old id ty) }
        ensures place { OnOk result (KeepsPlace self.old self.new) }
    {
        if self.channels.len() >= MAX_CHANNELS {
            return Err(LineFault::Why(Why::Limit));
        }
        self.push_channel(id, ty)?;
        Ok(())
    }

    /// `channel ID TYPE`
    pub(crate) fn channel_line(&mut self, words: &[u8]) -> Result<(), LineFault>
        ensures line { Becomes result self.old self.new (channel_line self.old (words_of is_space words.now)) }
        ensures place { KeepsPlace self.old self.new }
    {
        ensure(self.has_only_channels(), Why::Order)?;
        let (id, format) = two_words(words).ok_or(Why::Count)?;
        let id = read_id(id).ok_or(Why::Name)?;
        ensure(!has_channel(self.channels.as_slice(), id), Why::Taken)?;
        let format = read_type(format).ok_or(Why::BadType)?;
        self.add_channel(id, format)
    }

    /// `timestamp`, `timestamp be` or `timestamp le`
    pub(crate) fn stamp_line(&mut self, words: &[u8]) -> Result<(), LineFault>
        ensures line { Becomes result self.old self.new (stamp_line self.old (words_of is_space words.now)) }
        ensures place { KeepsPlace self.old self.new }
    {
        ensure(self.may_go_on() && self.has_only_channels(), Why::Order)?;
        let endian = read_stamp(words)?;
        ensure(self.channels.len() < MAX_CHANNELS, Why::Limit)?;
        self.stamp = Some(endian);
        Ok(())
    }

    /// `masks H ..`
    pub(crate) fn masks_line(&mut self, alloc: Global, words: &[u8]) -> Result<(), LineFault>
        ensures line { Becomes result self.old self.new (masks_line self.old (words_of is_space words.now)) }
        ensures place { KeepsPlace self.old self.new }
    {
        ensure(self.may_go_on() && self.may_list(), Why::Order)?;
        let room = count_words(words);
        ensure(room > 0, Why::Count)?;
        let channels = self.channels.len() as u32;
        let listed = read_masks(alloc, words, channels, self.count(), room)?;
        ensure(listed.len() <= MAX_MASKS, Why::Limit)?;
        self.listed = listed;
        Ok(())
    }

    /// `row T v ..`; the devices before this one have `earlier` rows.
    pub(crate) fn row_line(&mut self, earlier: usize, words: &[u8]) -> Result<(), LineFault>
        requires { earlier + length self.old.moments ≤ MAX_ROWS }
        ensures line { Becomes result self.old self.new (row_line earlier self.old (words_of is_space words.now)) }
        ensures trigger { self.new.trigger ≡ self.old.trigger }
        ensures driver { self.new.driver ≡ self.old.driver }
        ensures within { earlier + length self.new.moments ≤ MAX_ROWS }
    {
        ensure(self.may_go_on() && self.driver.is_none(), Why::Order)?;
        self.moments.reserve(1)?;
        let start = self.values.len();
        let width = self.width as usize;
        let moment = push_row(self.moments.as_slice(), &mut self.values, width, words)?;
        if earlier + self.moments.len() >= MAX_ROWS {
            self.values.truncate(start);
            return Err(LineFault::Why(Why::Limit));
        }
        self.moments.push_reserved(moment);
        Ok(())
    }

    /// `driver K`, of `drivers` handed-in drivers; `devices` are the devices before this one.
    pub(crate) fn driver_line(
        &mut self,
        drivers: u32,
        devices: &[DeviceDesc],
        words: &[u8],
    ) -> Result<(), LineFault>
        ensures line { Becomes result self.old self.new (driver_line drivers devices.now self.old (words_of is_space words.now)) }
        ensures trigger { self.new.trigger ≡ self.old.trigger }
        ensures free { OnOk result (IfSome self.new.driver (λ k. is_free drivers devices.now k ≡ true)) }
        ensures moments { self.new.moments ≡ self.old.moments }
    {
        ensure(self.may_go_on() && self.may_drive(), Why::Order)?;
        let word = one_word(words).ok_or(Why::Count)?;
        let driver = read_driver(drivers, devices, word).ok_or(Why::Driver)?;
        self.driver = Some(driver);
        Ok(())
    }

    // The channel whose attribute a line writes, or `None` for the device's own attributes.
    fn read_channel(&self, word: &[u8]) -> Option<Option<u32>>
        ensures value { result ≡ unless_dash (channel_of (shape_of self.now)) word.now }
        ensures within { IfSome result (λ channel. IfSome channel (λ c. c < length self.now.channels)) }
    {
        if word == b"-".as_slice() {
            return Some(None);
        }
        match find_channel(self.channels.as_slice(), word) {
            None => None,
            Some(c) => Some(Some(c as u32)),
        }
    }

    /// `attr CHANNEL NAME VALUE`
    pub(crate) fn attr_line(&mut self, words: &[u8]) -> Result<(), LineFault>
        ensures line { Becomes result self.old self.new (attr_line self.old (words_of is_space words.now)) }
        ensures place { KeepsPlace self.old self.new }
    {
        ensure(self.may_go_on(), Why::Order)?;
        let (id, name, text) = three_words(words).ok_or(Why::Count)?;
        let channel = self.read_channel(id).ok_or(Why::Attr)?;
        let attr = find(scope_at(channel), name).ok_or(Why::Attr)?;
        ensure(writable(attr), Why::Attr)?;
        let number = check(attr, text).ok().ok_or(Why::Attr)?;
        self.attrs.push(AttrDesc {
            channel,
            attr,
            value: Value::Number(number),
        })?;
        Ok(())
    }
}
