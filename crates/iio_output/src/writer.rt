//! The writer of an output device.

ghost use Rattle.std.specs.Prelude.{◌≡◌, ◌≢◌, ◌*◌, ◌≤◌, ◌==◌, length, is_none, IfOk};
ghost use Rattle.iio_base.specs.Refusals.{first_refusal};
ghost use Rattle.iio_kfifo.specs.declared.limits.TheConstants.{MAX_BYTES};
ghost use Rattle.iio_output.specs.Out.{after_next, after_write, new_writer, next_answer, room_after, write_answer, write_faults};
ghost use Rattle.iio_output.specs.Written.{is_bad_size, is_full, is_standing, scans_of};

use circular_buffer::HeapCircularBuffer;
use iio_base::Mem;
use iio_mask::Mask;
use std::alloc::Global;
use std::marker::Model;

/// What became of a payload.
#[derive(Clone, Copy, Debug, PartialEq, Eq)]
pub enum Wrote {
    /// This number of its bytes is taken: the first scans that fit.
    Bytes(u32),
    /// The payload isn't whole scans, or for a cyclic writer it is empty or more scans than the capacity.
    BadSize,
    /// The writer is cyclic, and has written its cycle already.
    Standing,
    /// As many scans wait as the capacity.
    Full,
}

/// What became of an entry of the device's trigger.
#[derive(Clone, Copy, Debug, PartialEq, Eq)]
pub enum Next {
    /// The device was given a scan.
    Given,
    /// None waited.
    Underrun,
}

/// A writer: the mask of its scans, the size of one in bytes, the most that wait, whether it is cyclic, and the scans that
/// wait.
#[derive(Drop)]
pub(crate) struct Writer {
    mask: Mask,
    size: u32,
    capacity: u32,
    cyclic: bool,
    // For a cyclic writer the scans of its cycle, from the one that is given next on.
    bytes: HeapCircularBuffer<u8>,
}

impl Model for Writer {
    ghost use Rattle.iio_output.specs.Out.{WriterRecord};

    ghost Value = { WriterRecord };

    ghost use Rattle.iio_output.specs.Written.{scans_of};
    ghost use Rattle.iio_output.specs.View.{AreWhole};

    ghost view = { λ w. record { mask = w.mask.bits; size = w.size; capacity = w.capacity; cyclic = w.cyclic; scans = scans_of w.size w.bytes.items } };

    ghost invariant = { λ w. AreWhole w.size w.capacity w.bytes.capacity w.bytes.items };
}

impl Writer {
    /// Makes a writer that has written nothing. All memory that it ever takes is taken here.
    pub(crate) fn new(
        alloc: Global,
        mask: Mask,
        size: u32,
        capacity: u32,
        cyclic: bool,
    ) -> Result<Writer, Mem>
        requires sized { 1 ≤ size }
        requires some { 1 ≤ capacity }
        requires fits { capacity * size ≤ MAX_BYTES }
        ensures { IfOk result (λ w. w ≡ new_writer mask.bits size capacity cyclic) }
    {
        let bytes = HeapCircularBuffer::with_capacity(alloc, capacity as usize * size as usize)?;
        Ok(Writer {
            mask,
            size,
            capacity,
            cyclic,
            bytes,
        })
    }

    /// The mask of the writer's scans.
    pub(crate) fn mask(&self) -> Mask
        ensures { result.bits ≡ self.now.mask }
    {
        self.mask
    }

    /// The number of scans that wait.
    pub(crate) fn waiting(&self) -> u32
        ensures { result ≡ length self.now.scans }
    {
        self.bytes.len() as u32 / self.size
    }

    // Whether a payload of that length isn't whole scans, or, for a cyclic writer, not a number of scans that can be its cycle.
    fn is_bad_size(&self, length: usize) -> bool
        ensures { result ≡ is_bad_size self.now.cyclic self.now.capacity self.now.size length }
    {
        let size = self.size as usize;
        length % size != 0 || self.cyclic && (length == 0 || length / size > self.capacity as usize)
    }

    // Whether the writer is cyclic and has written its cycle.
    fn is_standing(&self) -> bool
        ensures { result ≡ is_standing self.now.cyclic self.now.scans }
    {
        self.cyclic && !self.bytes.is_empty()
    }

    // Whether the writer isn't cyclic, is offered a scan and has no room for it.
    fn is_full(&self, payload: &[u8]) -> bool
        ensures { result ≡ is_full self.now.cyclic self.now.capacity self.now.scans (scans_of self.now.size payload.now) }
    {
        if self.cyclic || payload.len() < self.size as usize {
            return false;
        }
        self.bytes.is_full()
    }

    // Why nothing of a payload is taken.
    fn fault(&self, payload: &[u8]) -> Option<Wrote>
        ensures { result ≡ first_refusal (write_faults self.now payload.now) }
    {
        if self.is_bad_size(payload.len()) {
            Some(Wrote::BadSize)
        } else if self.is_standing() {
            Some(Wrote::Standing)
        } else if self.is_full(payload) {
            Some(Wrote::Full)
        } else {
            None
        }
    }

    /// Takes the first scans of a payload that fit, and puts them after those that wait.
    pub(crate) fn write(&mut self, payload: &[u8]) -> Wrote
        ensures answer { result ≡ write_answer self.old payload.now }
        ensures written { self.new ≡ after_write self.old payload.now }
    {
        if let Some(fault) = self.fault(payload) {
            return fault;
        }
        let taken = self.bytes.fill_from_slice(payload);
        Wrote::Bytes(taken as u32)
    }

    /// Moves the first scan that waits into `out`. A cyclic writer's scan waits again, after the others.
    pub(crate) fn next(&mut self, out: &mut [u8]) -> Next
        requires { length out.old ≡ self.old.size }
        ensures answer { result ≡ next_answer self.old.scans }
        ensures scan { out.new ≡ room_after self.old.scans out.old }
        ensures given { self.new ≡ after_next self.old }
    {
        if self.bytes.is_empty() {
            return Next::Underrun;
        }
        self.bytes.read_into(out);
        if self.cyclic {
            self.bytes.fill_from_slice(out);
        }
        Next::Given
    }
}
