//! A ring's two ends, and how a ring is ended once both are in one thread again.

ghost use Rattle.std.specs.Prelude.{◌≡◌, ◌≢◌, ℕ, ◌+◌, ◌*◌, ◌<◌, ◌≤◌, ◌++◌, List, [], length, IfOk, All};
ghost use Rattle.std.specs.Arc.{arc_value};
ghost use Rattle.iio_kfifo.specs.declared.cell.Cell.{Cell};
ghost use Rattle.iio_kfifo.specs.declared.limits.TheConstants.{MAX_BYTES};
ghost use Rattle.iio_kfifo.specs.declared.view.Part.TheVariants.{Fresh, Writes, Reads};
ghost use Rattle.iio_kfifo.specs.declared.view.Sent.{Sent};
ghost use Rattle.iio_kfifo.specs.Offers.{accepted, lost_in};
ghost use Rattle.iio_kfifo.specs.Rule.{new_view, new_writing, new_reading};

use crate::cell::Cell;
use crate::reader::Reader;
use crate::rule::{EndsJoined, ReaderPart, RingRule, Settle};
use crate::view::{Key, View};
use crate::words::{IN, WORDS};
use crate::writer::{Closing, Writer};
use atomic_table::{Seat, Shared, Table};
use iio_base::Mem;
use std::alloc::Global;
use std::sync::Arc;

/// The counts of a ring whose ends are in one thread again.
#[derive(Clone, Copy, Debug)]
pub struct Receipt {
    /// How many scans were received.
    pub received: u64,
    /// How many were accepted and not received.
    pub left: u64,
    /// How many offers were lost.
    pub lost: u64,
}

/// Makes an empty ring of at most `capacity` scans of `size` bytes each, and returns its two ends. All memory that it ever
/// takes is taken here: `capacity` times `size` bytes, up to `MAX_BYTES`, and some for each slot. Returns `Mem` if there isn't
/// enough.
pub fn ring(alloc: Global, capacity: u32, size: u32) -> Result<(Writer, Reader), Mem>
    requires some { 1 ≤ capacity }
    requires bytes { 1 ≤ size }
    requires fits { capacity * size ≤ MAX_BYTES }
    ensures writer { IfOk result (λ r. r.0 ≡ record {
      ring = r.0.ring;
      size = size;
      capacity = capacity;
      knows = new_writing;
    }) }
    ensures reader { IfOk result (λ r. r.1 ≡ record {
      ring = r.0.ring;
      size = size;
      capacity = capacity;
      knows = new_reading;
    }) }
{
    let cells = cells_of(alloc, capacity, size)?;
    let key = Key {
        slots: capacity,
        size,
    };
    let Ok((table, seat)) = Table::new(alloc, &[0; WORDS], cells, &key) else {
        return Err(Mem);
    };
    ends_of(alloc, table, seat, capacity, size)
}

// `capacity` cells, each for a scan of `size` bytes.
fn cells_of(alloc: Global, capacity: u32, size: u32) -> Result<Vec<Cell>, Mem>
    ensures count { IfOk result (λ v. length v.items ≡ capacity) }
    ensures size { IfOk result (λ v. All (λ (c : Cell). length c.bytes.items ≡ size) v.items) }
{
    let mut cells = Vec::with_capacity(alloc, capacity as usize)?;
    for _ in 0..capacity {
        let bytes = vec![in alloc; 0; size as usize]?;
        cells.push(Cell { bytes, lost: 0 })?;
    }
    Ok(cells)
}

// Makes the two ends over a new table.
fn ends_of(
    alloc: Global,
    table: Table<Cell, View, Key, RingRule, Global>,
    mut seat: Seat<Cell, View>,
    slots: u32,
    size: u32,
) -> Result<(Writer, Reader), Mem>
    requires ring { seat.table_id ≡ table.shared.table_id }
    requires seat { seat.me ≡ (new_view Fresh size, []) }
    requires key { (table.shared.key.slots ≡ slots) × (table.shared.key.size ≡ size) }
    requires table { (table.shared.table_id.slots ≡ slots) × (table.shared.table_id.words ≡ 32) × (0 < slots) }
    ensures writer { IfOk result (λ r. r.0 ≡ record {
      ring = r.0.ring;
      size = size;
      capacity = slots;
      knows = new_writing;
    }) }
    ensures reader { IfOk result (λ r. r.1 ≡ record {
      ring = r.0.ring;
      size = size;
      capacity = slots;
      knows = new_reading;
    }) }
{
    let other = table.shared.split_seat::<ReaderPart>(&mut seat);
    let table = Arc::new(alloc, table)?;
    let shared = Arc::try_clone(&table)?;
    Ok((
        Writer {
            table,
            seat,
            count: 0,
            lost: 0,
            slots,
            size,
        },
        Reader {
            table: shared,
            seat: other,
            count: 0,
            slots,
            size,
        },
    ))
}

impl Reader {
    /// Ends the reader, given what the writer of this very ring left when it closed it. Returns how many scans were accepted
    /// and not received. If the reader had seen the ring closed, the offers that it saw are those that the writer made.
    pub fn end_beside(self, closing: Closing) -> u64
        requires { self.ring ≡ closing.ring }
        ensures left { (left : List Sent) × (length left ≡ result) × (accepted closing.knows.offers ≡ self.knows.received ++ left) }
        ensures told { (self.knows.word ≢ 0) → self.knows.offers ≡ closing.knows.offers }
    {
        let Reader {
            table,
            seat: reads,
            count,
            slots: _,
            size: _,
        } = self;
        let Closing { mut seat } = closing;
        settle(&table.shared, &mut seat, reads) - count
    }
}

/// Ends a ring that is still open and whose two ends are in one thread again. The two must be of one ring.
pub fn give_back(writer: Writer, reader: Reader) -> Receipt
    requires { writer.ring ≡ reader.ring }
    ensures received { result.received ≡ length reader.knows.received }
    ensures left { (left : List Sent) × (length left ≡ result.left) × (accepted writer.knows.offers ≡ reader.knows.received ++ left) }
    ensures lost { result.lost ≡ lost_in writer.knows.offers }
{
    let Writer {
        table,
        mut seat,
        count,
        lost,
        slots: _,
        size: _,
    } = writer;
    let Reader {
        table: same,
        seat: reads,
        count: received,
        slots: _,
        size: _,
    } = reader;
    drop(same);
    settle(&table.shared, &mut seat, reads);
    Receipt {
        received,
        left: count - received,
        lost,
    }
}

// Joins the two ends and compares them. Returns how many scans were accepted.
fn settle(
    shared: &Shared<Cell, View, Key, RingRule>,
    seat: &mut Seat<Cell, View>,
    other: Seat<Cell, View>,
) -> u64
    requires ring { (seat.old.table_id ≡ shared.now.table_id) × (shared.now.table_id.words ≡ 32) }
    requires writes { seat.old.me.0.part ≡ Writes }
    requires reads { (other.table_id ≡ shared.now.table_id) × (other.me.1 ≡ []) × (other.me.0.part ≡ Reads) }
    ensures left { (left : List Sent) × (result ≡ length other.me.0.reading.received + length left)
        × (accepted seat.old.me.0.writing.offers ≡ other.me.0.reading.received ++ left) }
    ensures told { (other.me.0.reading.word ≢ 0) → other.me.0.reading.offers ≡ seat.old.me.0.writing.offers }
{
    shared.join_seat::<EndsJoined>(seat, other);
    shared.load::<Settle>(seat, IN)
}
