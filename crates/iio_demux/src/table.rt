//! The copy table of one buffer.

ghost use Rattle.std.specs.Prelude.{◌≡◌, ◌≢◌, ℕ, ℤ, ◌+◌, ◌-◌, ◌/◌, ◌^◌, ◌==◌, ◌<◌, ◌≤◌, ◌++◌, true, IfOk, IsTrue, List, [], ◌∷◌, length, slice_index, vec_capacity, vec_len};
ghost use Rattle.std.specs.Int.{IsPowerOfTwo, next_multiple_of};
ghost use Rattle.iio_mask.specs.Mask.{has, is_within};
ghost use Rattle.iio_scan_type.specs.declared.TheConstants.{MAX_CHANNEL_SIZE};
ghost use Rattle.iio_layout.specs.Layout.{scan_size};
ghost use Rattle.iio_layout.specs.Scan.{scan_of};
ghost use Rattle.iio_layout.specs.Shape.{count_of, width_of};
ghost use Rattle.iio_demux.specs.Table.{AreInOrder, AreMerged, channel_entries, continues, copied, covers, merged, source_of, table_of};

use iio_base::Mem;
use iio_layout::{MAX_CHANNELS, Shape, aligned, scan_size};
use iio_mask::Mask;
use iio_scan_type::MAX_CHANNEL_SIZE;
use std::alloc::Global;
use std::marker::Model;

/// Bytes to copy: `length` of them, from byte `from` of the active scan to byte `to` of the buffer's scan.
#[derive(Clone, Copy, Debug, PartialEq, Eq)]
pub struct Entry {
    pub from: u32,
    pub to: u32,
    pub length: u32,
}

impl Entry {
    // Whether `next` begins, in both scans, where this entry ends.
    fn is_continued_by(self, next: Entry) -> bool
        ensures { result ≡ continues self next }
    {
        next.from.checked_sub(self.from) == Some(self.length)
            && next.to.checked_sub(self.to) == Some(self.length)
    }

    // Copies the entry's bytes, and returns where they end. They don't begin before `start`, and all bytes from `start` on are
    // zero.
    fn copy(self, start: usize, scan: &[u8], out: &mut [u8]) -> usize
        requires start { start ≤ self.to }
        requires from { self.from + self.length ≤ length scan.now }
        requires to { self.to + self.length ≤ length out.old }
        requires zero { (j : ℕ) → start ≤ j → slice_index out.old j ≡ 0 }
        ensures end { result ≡ self.to + self.length }
        ensures kept { (j : ℕ) → j < start → slice_index out.new j ≡ slice_index out.old j }
        ensures gap { (j : ℕ) → start ≤ j → j < self.to → slice_index out.new j ≡ 0 }
        ensures bytes { (j : ℕ) → covers self j ≡ true → slice_index out.new j ≡ source_of self scan.now j }
        ensures later { (j : ℕ) → self.to + self.length ≤ j → slice_index out.new j ≡ 0 }
    {
        let from = self.from as usize;
        let to = self.to as usize;
        let length = self.length as usize;
        copy_bytes(&scan[from..from + length], &mut out[to..to + length]);
        to + length
    }
}

// Copies `from` to `to`, which has the same length. A few bytes are copied with a constant length, since a call would cost
// more.
#[inline(always)]
fn copy_bytes(from: &[u8], to: &mut [u8])
    requires { length from.now ≡ length to.old }
    ensures { to.new ≡ from.now }
{
    match from.len() {
        2 => to[..2].copy_from_slice(&from[..2]),
        4 => to[..4].copy_from_slice(&from[..4]),
        8 => to[..8].copy_from_slice(&from[..8]),
        _ => to.copy_from_slice(from),
    }
}

/// What to copy from the scan under the active mask to the scan under a buffer's mask.
#[derive(Debug, Drop)]
pub struct Table {
    // There is room for an entry of each channel.
    entries: Vec<Entry>,
    active_size: u32,
    buffer_size: u32,
}

impl Model for Table {
    ghost use Rattle.iio_demux.specs.Table.{CopyTable};

    ghost Value = { CopyTable };

    ghost use Rattle.iio_demux.specs.View.{IsSound, record_of};

    ghost view = { record_of };

    ghost invariant = { IsSound };
}

impl Table {
    /// Makes the table that copies from a scan under the mask `active` to one under the mask `buffer` (kernel,
    /// `iio_buffer_update_demux`). All memory that the table ever takes is taken here.
    pub fn build(alloc: Global, shape: &Shape, active: Mask, buffer: Mask) -> Result<Table, Mem>
        requires below { active.bits < 2 ^ count_of shape.now }
        requires within { is_within buffer.bits active.bits ≡ true }
        ensures table { IfOk result (λ table. table ≡ table_of shape.now active.bits buffer.bits) }

        // From the active scan of any capture it makes the buffer's scan of the same capture.
        ensures scans { IfOk result (λ table. (values : List ℤ) (t : ℤ) → length values ≡ width_of shape.now
            → copied table.entries (scan_of shape.now active.bits values t) table.buffer_size ≡ scan_of shape.now buffer.bits values t) }
    {
        let mut table = Table {
            entries: Vec::with_capacity(alloc, MAX_CHANNELS)?,
            active_size: 0,
            buffer_size: 0,
        };
        table.remake(shape, active, scan_size(shape, active), buffer);
        Ok(table)
    }

    /// Makes the table that `build` would make of these masks, in the memory of this one. A scan under the mask `active` has
    /// `size` bytes.
    pub fn remake(&mut self, shape: &Shape, active: Mask, size: u32, buffer: Mask)
        requires below { active.bits < 2 ^ count_of shape.now }
        requires size { size ≡ scan_size shape.now active.bits }
        requires within { is_within buffer.bits active.bits ≡ true }
        ensures table { self.new ≡ table_of shape.now active.bits buffer.bits }
        ensures scans { (values : List ℤ) (t : ℤ) → length values ≡ width_of shape.now
            → copied self.new.entries (scan_of shape.now active.bits values t) self.new.buffer_size ≡ scan_of shape.now buffer.bits values t }
    {
        let holds = buffer.within(active);
        prove!(holds);
        self.entries.clear();
        self.buffer_size = push_entries(shape, active, buffer, &mut self.entries);
        self.active_size = size;
    }

    /// Writes the buffer's scan: each entry's bytes of the active scan at their place, and zero bytes elsewhere,
    /// whatever was there before (kernel, `iio_demux`).
    pub fn apply(&self, scan: &[u8], out: &mut [u8])
        requires active { length scan.now ≡ self.now.active_size }
        requires buffer { length out.old ≡ self.now.buffer_size }
        ensures { out.new ≡ copied self.now.entries scan.now self.now.buffer_size }
    {
        copy_entries(&self.entries, scan, out);
    }

    /// The size in bytes of a scan under the mask that the table copies from.
    pub fn active_size(&self) -> u32
        ensures { result ≡ self.now.active_size }
    {
        self.active_size
    }

    /// The size in bytes of a scan under the buffer's mask.
    pub fn buffer_size(&self) -> u32
        ensures { result ≡ self.now.buffer_size }
    {
        self.buffer_size
    }

    /// The entries, in the order of their channels. Channels that are neighbours in both scans share an entry.
    pub fn entries(&self) -> &[Entry]
        ensures entries { result.now ≡ self.now.entries }
        ensures merged { AreMerged result.now }
    {
        &self.entries
    }
}

// Adds an entry at the end, or extends the last entry by it if it continues that.
fn push_merged(entries: &mut Vec<Entry>, entry: Entry)
    requires room { vec_len entries.old < vec_capacity entries.old }
    requires end { entry.to + entry.length < 2 ^ 32 }
    ensures items { (before : List Entry) → entries.old.items ≡ merged before → entries.new.items ≡ merged (before ++ entry ∷ []) }
    ensures few { vec_len entries.new ≤ vec_len entries.old + 1 }
    ensures capacity { vec_capacity entries.new ≡ vec_capacity entries.old }
{
    let count = entries.len();
    if count > 0 && entries[count - 1].is_continued_by(entry) {
        entries[count - 1].length += entry.length;
        return;
    }
    entries.push_reserved(entry);
}

// The size of a scan whose last channel ends at byte `end` and whose largest channel has `largest` bytes. Without a channel
// both are 0, and so is the size.
fn padded_size(end: u32, largest: u32) -> u32
    requires end { end < 2 ^ 31 }
    requires few { largest ≤ MAX_CHANNEL_SIZE }
    requires power { largest ≢ 0 → IsPowerOfTwo largest }
    ensures { result ≡ next_multiple_of end largest }
{
    if largest == 0 {
        return end;
    }
    aligned(end, largest)
}

// Whether neither channel `c` nor any channel after it is in the mask.
fn ends_before(mask: Mask, c: u32) -> bool
    requires { c < 64 }
    ensures { result ≡ (mask.bits / 2 ^ c == 0) }
{
    mask.bits >> c == 0
}

// Adds the entries of all channels of the buffer's mask, each of which is in the active mask, and returns the size of the
// buffer's scan. Nothing past the last of these channels is looked at.
fn push_entries(shape: &Shape, active: Mask, buffer: Mask, entries: &mut Vec<Entry>) -> u32
    requires below { active.bits < 2 ^ count_of shape.now }
    requires within { (c : ℕ) → IsTrue (has buffer.bits c) → IsTrue (has active.bits c) }
    requires none { entries.old.items ≡ [] }
    requires room { MAX_CHANNELS ≤ vec_capacity entries.old }
    ensures items { entries.new.items ≡ merged (channel_entries shape.now active.bits buffer.bits (count_of shape.now)) }
    ensures size { result ≡ scan_size shape.now buffer.bits }
    ensures capacity { vec_capacity entries.new ≡ vec_capacity entries.old }
{
    let mut active_end: u32 = 0;
    let mut buffer_end: u32 = 0;
    let mut buffer_largest: u32 = 0;
    let mut rest = active;
    while let Some(c) = rest.pop_first() {
        if ends_before(buffer, c) {
            return padded_size(buffer_end, buffer_largest);
        }
        let length = shape.scan_type(c).size();
        let from = aligned(active_end, length);
        active_end = from + length;
        if buffer.contains(c) {
            let to = aligned(buffer_end, length);
            buffer_end = to + length;
            buffer_largest = buffer_largest.max(length);
            push_merged(entries, Entry { from, to, length });
        }
    }
    padded_size(buffer_end, buffer_largest)
}

// Writes the scan that the entries make of the active scan.
fn copy_entries(entries: &[Entry], scan: &[u8], out: &mut [u8])
    requires { AreInOrder (length scan.now) (length out.old) 0 entries.now }
    ensures { out.new ≡ copied entries.now scan.now (length out.old) }
{
    out.fill(0);
    let mut end = 0;
    for entry in entries {
        end = entry.copy(end, scan, out);
    }
}
