//! An output device.

ghost use Rattle.std.specs.Prelude.{◌≡◌, ℕ, ◌*◌, ◌^◌, ◌<◌, ◌≤◌, ◌↔◌, true, length, map, option_map, pos, slice_index_or, is_some, IfOk, IfSome, IsSome};
ghost use Rattle.std.specs.Option.{option_map_or};
ghost use Rattle.iio_layout.specs.Active.{has_below};
ghost use Rattle.iio_kfifo.specs.declared.limits.TheConstants.{MAX_BYTES};
ghost use Rattle.iio_layout.specs.Layout.{scan_size};
ghost use Rattle.iio_layout.specs.Shape.{count_of};
ghost use Rattle.iio_output.specs.Out.{Starts, WriterRecord, after_giving, after_write, new_output, next_answer, room_after, underruns_with, with_given, without_writer, write_answer};
ghost use Rattle.iio_output.specs.Playback.{GivesAt, Outgoing, Plays, after_entry, after_payload, given_at, nothing_written, waiting_of};

use crate::last::{keep_last, places_of};
use crate::writer::{Next, Writer, Wrote};
use iio_base::Mem;
use iio_layout::{MAX_CHANNELS, Shape, scan_size};
use iio_mask::Mask;
use std::alloc::Global;
use std::marker::Model;

/// Why a writer isn't started.
#[derive(Clone, Copy, Debug, PartialEq, Eq)]
pub enum OutFault {
    /// There is a writer already.
    Busy,
    /// Memory ran out.
    Mem,
}

/// An output device: its channels, what it was last given of each, and its writer, if it has one.
#[derive(Drop)]
pub struct Out {
    alloc: Global,
    shape: Shape,
    // Element 0 of each data channel.
    last: Vec<i64>,
    underruns: u64,
    writer: Option<Writer>,
    // Where the data channels stand in the writer's scans.
    places: [u32; MAX_CHANNELS],
}

impl Model for Out {
    ghost use Rattle.std.specs.Prelude.{◌≡◌, length, IfSome};
    ghost use Rattle.iio_output.specs.Out.{OutRecord};

    ghost Value = { OutRecord };

    ghost use Rattle.iio_output.specs.View.{IsWriterOf};

    ghost view = { λ o. record { shape = o.shape; last = o.last.items; underruns = o.underruns; writer = o.writer } };

    ghost invariant = { λ o. (length o.last.items ≡ length o.shape.channels) × IfSome o.writer (IsWriterOf o.shape o.places) };
}

impl Out {
    /// Makes an output device of that shape, without a writer; it was given nothing.
    pub fn new(alloc: Global, shape: Shape) -> Result<Out, Mem>
        ensures { IfOk result (λ o. o ≡ new_output shape) }
    {
        let last = vec![in alloc; 0i64; shape.inputs() as usize]?;
        Ok(Out {
            alloc,
            shape,
            last,
            underruns: 0,
            writer: None,
            places: [0; MAX_CHANNELS],
        })
    }

    /// Its channels.
    pub fn shape(&self) -> &Shape
        ensures { result.now ≡ self.now.shape }
    {
        &self.shape
    }

    /// The mask of the writer's scans. Returns `None` exactly if the device has no writer.
    pub fn mask(&self) -> Option<Mask>
        ensures mask { option_map (λ m. m.bits) result ≡ option_map (λ (w : WriterRecord). w.mask) self.now.writer }
        ensures below { IfSome self.now.writer (λ w. w.mask < 2 ^ count_of self.now.shape) }
        ensures sized { IfSome self.now.writer (λ w. w.size ≡ scan_size self.now.shape w.mask) }
    {
        match &self.writer {
            None => None,
            Some(writer) => Some(writer.mask()),
        }
    }

    /// How often no scan waited since the last start. The count stays at 2^64 - 1 once it gets there.
    pub fn underruns(&self) -> u64
        ensures { result ≡ self.now.underruns }
    {
        self.underruns
    }

    /// The number of scans that wait: those written and not given; for a cyclic writer those of its cycle; without a writer 0.
    pub fn waiting(&self) -> u32
        ensures count { result ≡ option_map_or (λ (w : WriterRecord). length w.scans) self.now.writer 0 }
        ensures playback { (x : Outgoing) → Plays x self.now → IfSome self.now.writer (λ w. result ≡ waiting_of w.cyclic x) }
    {
        match &self.writer {
            None => 0,
            Some(writer) => writer.waiting(),
        }
    }

    /// Element 0 of data channel `c` in the last scan with that channel that the device was given, whichever writer wrote it; 0
    /// before the first.
    pub fn last(&self, c: u32) -> i64
        requires { c < length self.now.shape.channels }
        ensures { result ≡ slice_index_or self.now.last c (pos 0) }
    {
        self.last[c as usize]
    }

    /// Starts a writer of scans under the mask, of which at most `capacity` wait; a cyclic one writes its cycle once. Underruns
    /// are counted from 0 again. Returns `Busy` exactly if there is a writer. If it is refused, nothing changes. The scans that
    /// may wait have at most 4,194,304 bytes. All memory that the writer ever takes is taken here.
    pub fn start(&mut self, mask: Mask, capacity: u32, cyclic: bool) -> Result<(), OutFault>
        requires below { mask.bits < 2 ^ count_of self.old.shape }
        requires channel { has_below mask.bits (count_of self.old.shape) ≡ true }
        requires some { 1 ≤ capacity }
        requires fits { capacity * scan_size self.old.shape mask.bits ≤ MAX_BYTES }
        ensures starts { Starts mask.bits capacity cyclic result self.old self.new }
        ensures playback { IfOk result (λ _. Plays nothing_written self.new) }
    {
        if self.writer.is_some() {
            return Err(OutFault::Busy);
        }
        let size = scan_size(&self.shape, mask);
        let Ok(writer) = Writer::new(self.alloc, mask, size, capacity, cyclic) else {
            return Err(OutFault::Mem);
        };
        self.places = places_of(&self.shape, mask);
        self.underruns = 0;
        self.writer = Some(writer);
        Ok(())
    }

    /// Writes a payload: the first of its scans that fit are taken, and wait after those that wait, in their order. It is
    /// refused, in this order, as `BadSize` exactly if its length isn't a multiple of a scan's size, or, for a cyclic writer,
    /// is 0 or has more scans than the capacity; as `Standing` exactly if a cyclic writer has written its cycle; as `Full`
    /// exactly if its length isn't 0 and a writer that isn't cyclic has `capacity` scans waiting. If it is refused, nothing
    /// changes.
    pub fn write(&mut self, bytes: &[u8]) -> Wrote
        requires { IsSome self.old.writer }
        ensures answer { IfSome self.old.writer (λ w. result ≡ write_answer w bytes.now) }
        ensures written { self.new ≡ record self.old { writer = option_map (λ w. after_write w bytes.now) self.old.writer } }
        ensures playback { (x : Outgoing) → Plays x self.old → Plays (after_payload self.old.writer bytes.now x) self.new }
    {
        match &mut self.writer {
            Some(writer) => writer.write(bytes),
            None => unreachable!(),
        }
    }

    /// Gives the device its next scan: the first that waits is moved into `out`, which has the size of a scan. A cyclic
    /// writer's scan waits again, after the others. Returns `Underrun` exactly if none waits, for a cyclic writer if it has no
    /// cycle; the underrun is counted.
    pub fn next(&mut self, out: &mut [u8]) -> Next
        requires writer { IsSome self.old.writer }
        requires size { IfSome self.old.writer (λ w. length out.old ≡ w.size) }
        ensures answer { IfSome self.old.writer (λ w. result ≡ next_answer w.scans) }
        ensures scan { IfSome self.old.writer (λ w. out.new ≡ room_after w.scans out.old) }
        ensures given { IfSome self.old.writer (λ w. self.new ≡ with_given w self.old) }
        ensures playback { (x : Outgoing) → Plays x self.old
            → IfSome self.old.writer (λ w. GivesAt (given_at w.cyclic x) result out.old out.new × Plays (after_entry (given_at w.cyclic x) x) self.new) }
    {
        let answer = self.give(out);
        self.count(answer);
        answer
    }

    // Gives the device its next scan, and keeps what that has of each channel.
    fn give(&mut self, out: &mut [u8]) -> Next
        requires writer { IsSome self.old.writer }
        requires size { IfSome self.old.writer (λ w. length out.old ≡ w.size) }
        ensures answer { IfSome self.old.writer (λ w. result ≡ next_answer w.scans) }
        ensures scan { IfSome self.old.writer (λ w. out.new ≡ room_after w.scans out.old) }
        ensures given { IfSome self.old.writer (λ w. self.new ≡ after_giving w self.old) }
    {
        let Some(writer) = &mut self.writer else {
            unreachable!();
        };
        let answer = writer.next(out);
        if answer == Next::Given {
            keep_last(
                &self.shape,
                writer.mask(),
                &self.places,
                out,
                &mut self.last,
            );
        }
        answer
    }

    // Counts an entry if it was an underrun.
    fn count(&mut self, answer: Next)
        ensures { self.new ≡ record self.old { underruns = underruns_with answer self.old.underruns } }
    {
        if answer == Next::Underrun {
            self.underruns = self.underruns.saturating_add(1);
        }
    }

    /// Ends the writer, if there is one. What waits is dropped, and what was given last stays.
    pub fn stop(&mut self)
        ensures { self.new ≡ without_writer self.old }
    {
        self.writer = None;
    }
}
