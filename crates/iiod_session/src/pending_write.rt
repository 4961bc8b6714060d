//! The command that isn't done yet: a WRITE or WRITEBUF whose payload is being received, or a READBUF that waits.

ghost use Rattle.std.specs.Prelude.{◌≡◌, true, false, option_map, OnOk};
ghost use Rattle.iiod_grammar.specs.View.{place_view, target_view};
ghost use Rattle.iiod_session.specs.PendingWrite.{PendingRecord, place_by, target_of_parts};

use crate::word::Word;
use iio_base::Mem;
use iiod_grammar::Place;
use std::alloc::Global;
use std::marker::Model;

/// Where an attribute stands, without the ID of its channel.
#[derive(Clone, Copy)]
pub(crate) enum PlaceKind {
    Device,
    Buffer,
    Debug,
    Input,
    Output,
}

/// The words of the WRITE or WRITEBUF whose payload is being received, or of the READBUF that waits. They are kept in vectors
/// that are reused for one command after another.
#[derive(Drop)]
pub(crate) struct PendingWrite {
    device: Word,
    // None if the words name nothing.
    kind: Option<PlaceKind>,
    channel: Word,
    has_attribute: bool,
    attribute: Word,
    // Whether it is a WRITEBUF.
    is_scans: bool,
    // The number of bytes that a READBUF asks for.
    asked: u32,
}

impl Model for PendingWrite {
    ghost use Rattle.iiod_session.specs.PendingWrite.{PendingRecord, target_of_parts};

    ghost Value = { PendingRecord };

    ghost view = { λ x. record {
      device = x.device;
      target = target_of_parts x.kind x.channel x.has_attribute x.attribute;
      is_scans = x.is_scans;
      asked = x.asked;
    } };
}

// Splits a place into its kind and the ID of its channel, which is empty if it has none.
fn split_place<'a>(place: Place<'a>) -> (PlaceKind, &'a [u8])
    ensures { place_by result.0 result.1.now ≡ place_view place.entry }
{
    match place {
        Place::Device => (PlaceKind::Device, b""),
        Place::Buffer => (PlaceKind::Buffer, b""),
        Place::Debug => (PlaceKind::Debug, b""),
        Place::Input(channel) => (PlaceKind::Input, channel),
        Place::Output(channel) => (PlaceKind::Output, channel),
    }
}

// Makes the place of that kind, at the channel if the kind has one.
fn join_place(kind: PlaceKind, channel: &[u8]) -> Place<'_>
    ensures { place_view result ≡ place_by kind channel.now }
{
    match kind {
        PlaceKind::Device => Place::Device,
        PlaceKind::Buffer => Place::Buffer,
        PlaceKind::Debug => Place::Debug,
        PlaceKind::Input => Place::Input(channel),
        PlaceKind::Output => Place::Output(channel),
    }
}

impl PendingWrite {
    /// Creates the state in which no command is kept.
    pub(crate) fn new(alloc: Global) -> PendingWrite {
        PendingWrite {
            device: Word::new(alloc),
            kind: None,
            channel: Word::new(alloc),
            has_attribute: false,
            attribute: Word::new(alloc),
            is_scans: false,
            asked: 0,
        }
    }

    /// Keeps the words of a WRITE.
    pub(crate) fn keep(
        &mut self,
        device: &[u8],
        target: Option<(Place<'_>, Option<&[u8]>)>,
    ) -> Result<(), Mem>
        ensures { OnOk result (self.new
            ≡ record { device = device.now; target = option_map target_view target.entry; is_scans = false; asked = self.old.asked }) }
    {
        self.device.set(device)?;
        self.is_scans = false;
        let Some((place, attribute)) = target else {
            self.kind = None;
            return Ok(());
        };
        let (kind, channel) = split_place(place);
        self.kind = Some(kind);
        self.channel.set(channel)?;
        self.has_attribute = attribute.is_some();
        self.attribute.set(attribute.unwrap_or(b""))
    }

    /// Keeps the device name of a WRITEBUF.
    pub(crate) fn keep_scans(&mut self, device: &[u8]) -> Result<(), Mem>
        ensures { OnOk result ((self.new.device ≡ device.now) × (self.new.is_scans ≡ true)) }
    {
        self.device.set(device)?;
        self.is_scans = true;
        Ok(())
    }

    /// Whether the command is a WRITEBUF.
    pub(crate) fn is_scans(&self) -> bool
        ensures { result ≡ self.now.is_scans }
    {
        self.is_scans
    }

    /// Keeps the device name of a READBUF and the number of bytes that it asks for.
    pub(crate) fn keep_read(&mut self, device: &[u8], asked: u32) -> Result<(), Mem>
        ensures { OnOk result ((self.new.device ≡ device.now) × (self.new.asked ≡ asked)) }
    {
        self.device.set(device)?;
        self.asked = asked;
        Ok(())
    }

    /// Returns the number of bytes that a READBUF asks for.
    pub(crate) fn asked(&self) -> u32
        ensures { result ≡ self.now.asked }
    {
        self.asked
    }

    /// The name of the device.
    pub(crate) fn device(&self) -> &[u8]
        ensures { result.now ≡ self.now.device }
    {
        self.device.bytes()
    }

    /// The attribute that is to be written, with its place.
    pub(crate) fn target(&self) -> Option<(Place<'_>, Option<&[u8]>)>
        ensures { option_map target_view result ≡ self.now.target }
    {
        let Some(kind) = self.kind else {
            return None;
        };
        let attribute = if self.has_attribute {
            Some(self.attribute.bytes())
        } else {
            None
        };
        Some((join_place(kind, self.channel.bytes()), attribute))
    }
}
