//! What the lines of a description say.

ghost use Rattle.std.specs.Prelude.{◌≡◌, ◌+◌, ◌<◌, ◌≤◌, ◌++◌, length, vec_capacity, sum_by, option_map, All, Some, None, Ok, IfSome, IfOk, IfErr, OnOk, OnErr, true};
ghost use Rattle.std.specs.List.{list_any};
ghost use Rattle.std.specs.Option.{ok_or, option_map_or};
ghost use Rattle.std.specs.Str.{bytes_eq};
ghost use Rattle.iio_text.specs.Escape.{quoted_of};
ghost use Rattle.iio_text.specs.LineFault.{Tells, Gives, Becomes};
ghost use Rattle.iio_text.specs.Words.{words_of, is_space, from_word};
ghost use Rattle.iio_trigger.specs.declared.limits.TheConstants.{MAX_PLACES};
ghost use Rattle.iio_desc.specs.declared.limits.TheConstants.{MAX_ROWS};
ghost use Rattle.iio_desc.specs.Description.{input_number, trigger_number};
ghost use Rattle.iio_desc.specs.DeviceLines.{unless_dash, channel_line, stamp_line, masks_line, row_line, driver_line, attr_line};
ghost use Rattle.iio_desc.specs.Lines.{after_line, average_line, context_line, desc_at_end, desc_of, device_line, keyword_line, part_line, places_of, trigger_line, window_of, with_average};
ghost use Rattle.iio_desc.specs.PartialDesc.{all_devices, all_outputs, device_count, devices_of, earlier_rows, is_current_named, is_current_whole, is_taken, new_desc, outputs_of};
ghost use Rattle.iio_desc.specs.PartialDevice.{has_channels, new_device};
ghost use Rattle.iio_desc.specs.WellFormed.{IsWellFormed, IsWrite};
ghost use Rattle.iio_layout.specs.Rows.{IsRecording};

use crate::description::{
    AverageDesc, Desc, DeviceDesc, OutDesc, TriggerDesc, device_number, trigger_number,
};
use crate::device_builder::DeviceBuilder;
use crate::keywords::Keyword;
use crate::limits::{MAX_DEVICES, MAX_TRIGGERS, MAX_WINDOW};
use iio_attr::Name;
use iio_layout::Direction;
use iio_text::{
    LineFault, Unescape, Why, between_quotes, count_words, ensure, first_word, from_word, read_int,
    three_words, two_words, unescape,
};
use iio_trigger::MAX_PLACES;
use std::alloc::{AllocError, Global};
use std::marker::Model;
use std::mem;

/// What the lines of a description say so far.
#[derive(Drop)]
pub(crate) struct DescBuilder {
    alloc: Global,
    // How many drivers are handed in.
    drivers: u32,
    context: Option<Vec<u8>>,
    triggers: Vec<TriggerDesc>,
    devices: Vec<DeviceDesc>,
    // How many rows those devices have.
    earlier: usize,
    outputs: Vec<OutDesc>,
    averages: Vec<AverageDesc>,
    current: Option<DeviceBuilder>,
}

impl Model for DescBuilder {
    ghost use Rattle.iio_desc.specs.PartialDesc.{PartialDesc};

    ghost Value = { PartialDesc };

    ghost use Rattle.iio_desc.specs.View.{partial_desc, IsSound};

    ghost view = { partial_desc };

    ghost invariant = { IsSound };
}

fn is_trigger_named(trigger: &TriggerDesc, name: &[u8]) -> bool
    ensures { result ≡ bytes_eq trigger.now.name name.now }
{
    trigger.name.is(name)
}

fn has_trigger(triggers: &[TriggerDesc], name: &[u8]) -> bool
    ensures { result ≡ list_any (λ t. bytes_eq t.name name.now) triggers.now }
{
    triggers.iter().any(|t| is_trigger_named(t, name))
}

fn is_device_named(device: &DeviceDesc, name: &[u8]) -> bool
    ensures { result ≡ bytes_eq device.now.name name.now }
{
    device.name.is(name)
}

fn has_device(devices: &[DeviceDesc], name: &[u8]) -> bool
    ensures { result ≡ list_any (λ d. bytes_eq d.name name.now) devices.now }
{
    devices.iter().any(|d| is_device_named(d, name))
}

fn is_output_named(device: &OutDesc, name: &[u8]) -> bool
    ensures { result ≡ bytes_eq device.now.name name.now }
{
    device.name.is(name)
}

fn has_output(outputs: &[OutDesc], name: &[u8]) -> bool
    ensures { result ≡ list_any (λ d. bytes_eq d.name name.now) outputs.now }
{
    outputs.iter().any(|d| is_output_named(d, name))
}

fn is_average_named(device: &AverageDesc, name: &[u8]) -> bool
    ensures { result ≡ bytes_eq device.now.name name.now }
{
    device.name.is(name)
}

fn has_average(averages: &[AverageDesc], name: &[u8]) -> bool
    ensures { result ≡ list_any (λ d. bytes_eq d.name name.now) averages.now }
{
    averages.iter().any(|d| is_average_named(d, name))
}

fn is_current_named(current: &Option<DeviceBuilder>, name: &[u8]) -> bool
    ensures { result ≡ is_current_named current.now name.now }
{
    match current {
        None => false,
        Some(device) => device.is_named(name),
    }
}

// Whether the device whose lines are being read, if any, has a channel.
fn is_current_whole(current: &Option<DeviceBuilder>) -> bool
    ensures { result ≡ is_current_whole current.now }
{
    match current {
        None => true,
        Some(device) => device.has_channels(),
    }
}

// Reads how many devices a trigger can serve.
fn read_places(word: &[u8]) -> Option<u8>
    ensures value { result ≡ places_of word.now }
    ensures within { IfSome result (λ places. (0 < places) × (places ≤ MAX_PLACES)) }
{
    match read_int(word) {
        Some(places @ 1..=0xff) if places as usize <= MAX_PLACES => Some(places as u8),
        _ => None,
    }
}

// Reads how many captures make a mean.
fn read_window(word: &[u8]) -> Option<u32>
    ensures value { result ≡ window_of word.now }
    ensures within { IfSome result (λ window. (2 ≤ window) × (window ≤ MAX_WINDOW)) }
{
    match read_int(word) {
        Some(window @ 2..=0xffff_ffff) if window as u32 <= MAX_WINDOW => Some(window as u32),
        _ => None,
    }
}

// The number, after `before` others, of the device whose lines are being read, if it has that name and isn't an output device.
fn current_number(current: &Option<DeviceBuilder>, before: usize, name: &[u8]) -> Option<usize>
    ensures value { result ≡ option_map (λ n. before + n) (input_number (devices_of current.now) name.now) }
    ensures within { IfSome result (λ number. number < before + length (devices_of current.now)) }
{
    match current {
        Some(device) if device.direction() == Direction::Input && device.is_named(name) => {
            Some(before)
        }
        _ => None,
    }
}

// The number of the device of a `device` line above that an averaging device names.
fn read_base(devices: &[DeviceDesc], current: &Option<DeviceBuilder>, name: &[u8]) -> Option<u32>
    requires { length devices.now ≤ MAX_DEVICES }
    ensures value { result ≡ input_number (devices.now ++ devices_of current.now) name.now }
    ensures within { IfSome result (λ base. base < length (devices.now ++ devices_of current.now)) }
{
    if let Some(number) = device_number(devices, name) {
        return Some(number as u32);
    }
    match current_number(current, devices.len(), name) {
        None => None,
        Some(number) => Some(number as u32),
    }
}

// The number of the trigger that a word names; `-` names none.
fn read_trigger(triggers: &[TriggerDesc], word: &[u8]) -> Option<Option<u32>>
    requires { length triggers.now ≤ MAX_TRIGGERS }
    ensures value { result ≡ unless_dash (trigger_number triggers.now) word.now }
    ensures within { IfSome result (λ trigger. IfSome trigger (λ number. number < length triggers.now)) }
{
    if word == b"-".as_slice() {
        return Some(None);
    }
    match trigger_number(triggers, word) {
        None => None,
        Some(number) => Some(Some(number as u32)),
    }
}

// Reads the bytes that a quoted text means.
fn read_quoted(alloc: Global, text: &[u8]) -> Result<Vec<u8>, LineFault>
    ensures ok { IfOk result (λ bytes. quoted_of text.now ≡ Some bytes.items) }
    ensures err { IfErr result (λ e. Tells e (ok_or (quoted_of text.now) Why.Text)) }
{
    let inner = between_quotes(text).ok_or(Why::Text)?;
    match unescape(alloc, inner) {
        Ok(bytes) => Ok(bytes),
        Err(Unescape::BadEscape(_)) => Err(LineFault::Why(Why::Text)),
        Err(Unescape::Mem) => Err(LineFault::Mem),
    }
}

// The number of rows of a device of which no further line follows.
fn rows_of(device: &DeviceBuilder) -> usize
    ensures value { result ≡ sum_by (λ d. length d.rows.moments) (devices_of (Some device.now)) }
    ensures within { result ≤ length device.now.moments }
{
    match device.direction() {
        Direction::Input => device.row_count(),
        Direction::Output => 0,
    }
}

// Adds a device of which no further line follows to those of its kind, among which there is room.
fn put(
    alloc: Global,
    devices: &mut Vec<DeviceDesc>,
    outputs: &mut Vec<OutDesc>,
    device: DeviceBuilder,
)
    requires whole { has_channels device ≡ true }
    requires room { length devices.old.items < vec_capacity devices.old }
    requires room_of_outputs { length outputs.old.items < vec_capacity outputs.old }
    ensures devices { devices.new.items ≡ devices.old.items ++ devices_of (Some device) }
    ensures outputs { outputs.new.items ≡ outputs.old.items ++ outputs_of (Some device) }
    ensures recording { All (λ d. IsRecording d.rows) (devices_of (Some device)) }
    ensures writes { All (λ d. All (IsWrite (length d.shape.channels)) d.attrs) (devices_of (Some device)) }
{
    match device.direction() {
        Direction::Input => devices.push_reserved(device.into_device()),
        Direction::Output => outputs.push_reserved(device.into_output(alloc)),
    }
}

// Adds the device whose lines were read before, if any, to those of its kind. Returns how many rows it has.
fn put_before(
    alloc: Global,
    devices: &mut Vec<DeviceDesc>,
    outputs: &mut Vec<OutDesc>,
    before: Option<DeviceBuilder>,
) -> usize
    requires whole { is_current_whole before ≡ true }
    requires room { length devices.old.items < vec_capacity devices.old }
    requires room_of_outputs { length outputs.old.items < vec_capacity outputs.old }
    ensures devices { devices.new.items ≡ devices.old.items ++ devices_of before }
    ensures outputs { outputs.new.items ≡ outputs.old.items ++ outputs_of before }
    ensures recording { All (λ d. IsRecording d.rows) (devices_of before) }
    ensures writes { All (λ d. All (IsWrite (length d.shape.channels)) d.attrs) (devices_of before) }
    ensures rows { result ≡ sum_by (λ d. length d.rows.moments) (devices_of before) }
    ensures within { result ≤ option_map_or (λ device. length device.moments) before 0 }
{
    match before {
        None => 0,
        Some(device) => {
            let rows = rows_of(&device);
            put(alloc, devices, outputs, device);
            rows
        }
    }
}

impl DescBuilder {
    /// What the lines say before the first one, with `drivers` handed-in drivers.
    pub(crate) fn new(alloc: Global, drivers: u32) -> DescBuilder
        ensures { result ≡ new_desc drivers }
    {
        DescBuilder {
            alloc,
            drivers,
            context: None,
            triggers: Vec::new(alloc),
            devices: Vec::new(alloc),
            earlier: 0,
            outputs: Vec::new(alloc),
            averages: Vec::new(alloc),
            current: None,
        }
    }

    // Whether a trigger or a device has the name.
    fn is_taken(&self, name: &[u8]) -> bool
        ensures { result ≡ is_taken self.now name.now }
    {
        has_trigger(self.triggers.as_slice(), name)
            || has_device(self.devices.as_slice(), name)
            || has_output(self.outputs.as_slice(), name)
            || has_average(self.averages.as_slice(), name)
            || is_current_named(&self.current, name)
    }

    // The number of rows of the devices before. With those of the device whose lines are being read they are at most
    // `MAX_ROWS`.
    fn earlier_rows(&self) -> usize
        ensures value { result ≡ earlier_rows self.now }
        ensures room { IfSome self.now.current (λ device. earlier_rows self.now + length device.moments ≤ MAX_ROWS) }
    {
        self.earlier
    }

    /// How many triggers there are so far.
    pub(crate) fn trigger_count(&self) -> usize
        ensures { result ≡ length self.now.triggers }
    {
        self.triggers.len()
    }

    // How many devices there are so far.
    pub(crate) fn device_count(&self) -> usize
        ensures { result ≡ device_count self.now }
    {
        let whole = self.devices.len() + self.outputs.len() + self.averages.len();
        whole + usize::from(self.current.is_some())
    }

    // `context "TEXT"`
    fn context_line(&mut self, words: &[u8]) -> Result<(), LineFault>
        ensures line { Becomes result self.old self.new (context_line self.old (words_of is_space words.now) (from_word words.now)) }
        ensures drivers { self.new.drivers ≡ self.old.drivers }
    {
        ensure(self.context.is_none(), Why::Order)?;
        ensure(count_words(words) > 0, Why::Count)?;
        let context = read_quoted(self.alloc, from_word(words))?;
        self.context = Some(context);
        Ok(())
    }

    // `trigger NAME PLACES`
    fn trigger_line(&mut self, words: &[u8]) -> Result<(), LineFault>
        ensures line { Becomes result self.old self.new (trigger_line self.old (words_of is_space words.now)) }
        ensures drivers { self.new.drivers ≡ self.old.drivers }
    {
        let (name, places) = two_words(words).ok_or(Why::Count)?;
        let name = Name::new(name).ok_or(Why::Name)?;
        ensure(!self.is_taken(name.bytes()), Why::Taken)?;
        let places = read_places(places).ok_or(Why::Number)?;
        ensure(self.triggers.len() < MAX_TRIGGERS, Why::Limit)?;
        self.triggers.push(TriggerDesc { name, places })?;
        Ok(())
    }

    // Begins the next device. There are fewer than `MAX_DEVICES` devices.
    fn begin_device(
        &mut self,
        direction: Direction,
        name: Name,
        trigger: Option<u32>,
    ) -> Result<(), AllocError>
        requires whole { is_current_whole self.old.current ≡ true }
        requires attached { IfSome trigger (λ number. number < length self.old.triggers) }
        requires few { device_count self.old < MAX_DEVICES }
        ensures ok { OnOk result
            (self.new ≡ record self.old {
              devices = all_devices self.old;
              outputs = all_outputs self.old;
              current = Some (new_device direction name trigger);
            }) }
        ensures kept { OnErr result (self.new ≡ self.old) }
    {
        self.devices.reserve(1)?;
        self.outputs.reserve(1)?;
        let next = DeviceBuilder::new(self.alloc, direction, name, trigger);
        let before = mem::replace(&mut self.current, Some(next));
        self.earlier += put_before(self.alloc, &mut self.devices, &mut self.outputs, before);
        Ok(())
    }

    // `device NAME TRIGGER`, or `output NAME TRIGGER`
    fn device_line(&mut self, direction: Direction, words: &[u8]) -> Result<(), LineFault>
        ensures line { Becomes result self.old self.new (device_line self.old direction (words_of is_space words.now)) }
        ensures drivers { self.new.drivers ≡ self.old.drivers }
    {
        ensure(is_current_whole(&self.current), Why::Order)?;
        let (name, trigger) = two_words(words).ok_or(Why::Count)?;
        let name = Name::new(name).ok_or(Why::Name)?;
        ensure(!self.is_taken(name.bytes()), Why::Taken)?;
        let trigger = read_trigger(self.triggers.as_slice(), trigger).ok_or(Why::Trigger)?;
        ensure(self.device_count() < MAX_DEVICES, Why::Limit)?;
        self.begin_device(direction, name, trigger)?;
        Ok(())
    }

    // Adds an averaging device. There are fewer than `MAX_DEVICES` devices.
    fn add_average(&mut self, name: Name, base: u32, window: u32) -> Result<(), AllocError>
        requires whole { is_current_whole self.old.current ≡ true }
        requires over { base < length (all_devices self.old) }
        requires some { 2 ≤ window }
        requires bounded { window ≤ MAX_WINDOW }
        requires few { device_count self.old < MAX_DEVICES }
        ensures ok { OnOk result (self.new ≡ with_average self.old name base window) }
        ensures kept { OnErr result (self.new ≡ self.old) }
    {
        self.devices.reserve(1)?;
        self.outputs.reserve(1)?;
        self.averages.reserve(1)?;
        let before = mem::replace(&mut self.current, None);
        self.earlier += put_before(self.alloc, &mut self.devices, &mut self.outputs, before);
        self.averages
            .push_reserved(AverageDesc { name, base, window });
        Ok(())
    }

    // `average NAME BASE W`
    fn average_line(&mut self, words: &[u8]) -> Result<(), LineFault>
        ensures line { Becomes result self.old self.new (average_line self.old (words_of is_space words.now)) }
        ensures drivers { self.new.drivers ≡ self.old.drivers }
    {
        ensure(is_current_whole(&self.current), Why::Order)?;
        let (name, base, window) = three_words(words).ok_or(Why::Count)?;
        let name = Name::new(name).ok_or(Why::Name)?;
        ensure(!self.is_taken(name.bytes()), Why::Taken)?;
        let base = read_base(self.devices.as_slice(), &self.current, base).ok_or(Why::Device)?;
        let window = read_window(window).ok_or(Why::Number)?;
        ensure(self.device_count() < MAX_DEVICES, Why::Limit)?;
        self.add_average(name, base, window)?;
        Ok(())
    }

    // `channel ID TYPE`, of the device whose lines are being read
    fn channel_line(&mut self, words: &[u8]) -> Result<(), LineFault>
        ensures line { Becomes result self.old self.new (part_line self.old (λ device. channel_line device (words_of is_space words.now))) }
        ensures drivers { self.new.drivers ≡ self.old.drivers }
    {
        match &mut self.current {
            None => Err(LineFault::Why(Why::Order)),
            Some(device) => device.channel_line(words),
        }
    }

    // `timestamp`, of that device
    fn stamp_line(&mut self, words: &[u8]) -> Result<(), LineFault>
        ensures line { Becomes result self.old self.new (part_line self.old (λ device. stamp_line device (words_of is_space words.now))) }
        ensures drivers { self.new.drivers ≡ self.old.drivers }
    {
        match &mut self.current {
            None => Err(LineFault::Why(Why::Order)),
            Some(device) => device.stamp_line(words),
        }
    }

    // `masks H ..`, of that device
    fn masks_line(&mut self, words: &[u8]) -> Result<(), LineFault>
        ensures line { Becomes result self.old self.new (part_line self.old (λ device. masks_line device (words_of is_space words.now))) }
        ensures drivers { self.new.drivers ≡ self.old.drivers }
    {
        match &mut self.current {
            None => Err(LineFault::Why(Why::Order)),
            Some(device) => device.masks_line(self.alloc, words),
        }
    }

    // `row T v ..`, of that device
    fn row_line(&mut self, words: &[u8]) -> Result<(), LineFault>
        ensures line { Becomes result self.old self.new (part_line self.old (λ device. row_line (earlier_rows self.old) device (words_of is_space words.now))) }
        ensures drivers { self.new.drivers ≡ self.old.drivers }
    {
        let earlier = self.earlier_rows();
        match &mut self.current {
            None => Err(LineFault::Why(Why::Order)),
            Some(device) => device.row_line(earlier, words),
        }
    }

    // `driver K`, of that device
    fn driver_line(&mut self, words: &[u8]) -> Result<(), LineFault>
        ensures line { Becomes result self.old self.new
            (part_line self.old (λ device. driver_line self.old.drivers self.old.devices device (words_of is_space words.now))) }
        ensures drivers { self.new.drivers ≡ self.old.drivers }
    {
        match &mut self.current {
            None => Err(LineFault::Why(Why::Order)),
            Some(device) => device.driver_line(self.drivers, self.devices.as_slice(), words),
        }
    }

    // `attr CHANNEL NAME VALUE`, of that device
    fn attr_line(&mut self, words: &[u8]) -> Result<(), LineFault>
        ensures line { Becomes result self.old self.new (part_line self.old (λ device. attr_line device (words_of is_space words.now))) }
        ensures drivers { self.new.drivers ≡ self.old.drivers }
    {
        match &mut self.current {
            None => Err(LineFault::Why(Why::Order)),
            Some(device) => device.attr_line(words),
        }
    }

    // Reads a line by its first word and the text after that.
    fn keyword_line(&mut self, keyword: Keyword, words: &[u8]) -> Result<(), LineFault>
        ensures line { Becomes result self.old self.new (keyword_line self.old keyword (words_of is_space words.now) (from_word words.now)) }
        ensures drivers { self.new.drivers ≡ self.old.drivers }
    {
        match keyword {
            Keyword::Row => self.row_line(words),
            Keyword::Channel => self.channel_line(words),
            Keyword::Timestamp => self.stamp_line(words),
            Keyword::Masks => self.masks_line(words),
            Keyword::Attr => self.attr_line(words),
            Keyword::Driver => self.driver_line(words),
            Keyword::Device => self.device_line(Direction::Input, words),
            Keyword::Output => self.device_line(Direction::Output, words),
            Keyword::Average => self.average_line(words),
            Keyword::Trigger => self.trigger_line(words),
            Keyword::Context => self.context_line(words),
        }
    }

    /// Reads another line, without its LF. A fault changes nothing.
    pub(crate) fn line(&mut self, line: &[u8]) -> Result<(), LineFault>
        ensures line { Becomes result self.old self.new (after_line self.old line.now) }
        ensures drivers { self.new.drivers ≡ self.old.drivers }
    {
        let Some((word, words)) = first_word(line)? else {
            return Ok(());
        };
        let keyword = Keyword::of(word).ok_or(Why::Word)?;
        self.keyword_line(keyword, words)
    }

    /// The description, if no further line follows.
    pub(crate) fn finish(self) -> Result<Desc, LineFault>
        ensures desc { Gives result (desc_of self) }
        ensures sound { IfOk result (IsWellFormed self.drivers) }
    {
        let DescBuilder {
            alloc,
            drivers: _,
            context,
            triggers,
            mut devices,
            earlier: _,
            mut outputs,
            averages,
            current,
        } = self;
        ensure(is_current_whole(&current), Why::Order)?;
        devices.reserve(1)?;
        outputs.reserve(1)?;
        put_before(alloc, &mut devices, &mut outputs, current);
        Ok(Desc {
            context: context.unwrap_or(Vec::new(alloc)),
            triggers,
            devices,
            outputs,
            averages,
        })
    }

    /// The description, ended by a line without its LF.
    pub(crate) fn end(self, line: &[u8]) -> Result<Desc, LineFault>
        ensures desc { Gives result (desc_at_end self line.now) }
        ensures sound { IfOk result (IsWellFormed self.drivers) }
    {
        first_word(line)?;
        let desc = self.finish()?;
        ensure(count_words(line) <= 1, Why::Count)?;
        Ok(desc)
    }
}
