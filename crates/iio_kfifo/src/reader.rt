//! The end of a ring at which scans are taken.

ghost use Rattle.std.specs.Prelude.{◌≡◌, ◌≢◌, ℕ, ◌+◌, ◌-◌, ◌*◌, ◌%◌, ◌^◌, ◌<◌, ◌≤◌, ◌++◌, ◌∷◌, [], length, take, min, vec_capacity, IfSome, IfNone, MatchBool};
ghost use Rattle.std.specs.List.{flat_map};
ghost use Rattle.atomic_table.specs.Table.{rest, turned};
ghost use Rattle.iio_kfifo.specs.Offers.{lost_in};
ghost use Rattle.iio_kfifo.specs.Steps.{in_hand, Turned};
ghost use Rattle.iio_kfifo.specs.Ends.{FindsNone, TakesOne, TakesRun, TakesScans, AsksOpen, AsksClosed, ReaderRests};

use crate::cell::Cell;
use crate::rule::{Ask, Count, LookIn, Receive, RingRule};
use crate::view::{Key, View};
use crate::words::{CLOSED, IN, OUT};
use atomic_table::{Seat, Shared, Table};
use std::alloc::Global;
use std::marker::Model;
use std::sync::Arc;

/// Which scan was taken.
#[derive(Clone, Copy, Debug, PartialEq, Eq)]
pub struct Mark {
    /// Its place among the accepted scans, from 0.
    pub seq: u64,
    /// The place of its offer among all offers, from 0: the sum of `seq` and `lost`.
    pub number: u64,
    /// How many offers were lost before it.
    pub lost: u64,
}

/// How many scans were received by a reader that ended.
#[derive(Clone, Copy, Debug, PartialEq, Eq)]
pub enum Ended {
    /// The ring was closed: these and the scans that are left are all that were ever accepted.
    Whole(u64),
    /// The ring was open: more may come.
    Cut(u64),
}

/// The end of a ring at which scans are taken. It can't be dropped: `end`, `end_beside` or `give_back` consumes it.
pub struct Reader {
    pub(crate) table: Arc<Table<Cell, View, Key, RingRule, Global>>,
    pub(crate) seat: Seat<Cell, View>,
    // How many scans were received.
    pub(crate) count: u64,
    pub(crate) slots: u32,
    pub(crate) size: u32,
}

impl Model for Reader {
    ghost use Rattle.std.specs.Prelude.{◌≡◌, ◌<◌};
    ghost use Rattle.std.specs.Arc.{arc_value};
    ghost use Rattle.iio_kfifo.specs.Ends.{ReaderEnd, ReaderRests, ReaderCounts};

    ghost Value = { ReaderEnd };

    ghost view = { λ r. record { ring = r.seat.table_id; size = r.size; capacity = r.slots; knows = r.seat.me.0.reading } };

    ghost invariant = { λ r. ReaderRests (arc_value r.table).shared.table_id (arc_value r.table).shared.key r.seat.table_id r.seat.me
        × ReaderCounts (arc_value r.table).shared.key r.seat.me.0.reading r.count r.slots r.size };
}

/// What is left of a reader that ended: what it knew. It takes no bytes.
#[derive(Drop)]
pub struct Ending {
    seat: Seat<Cell, View>,
}

impl Model for Ending {
    ghost use Rattle.iio_kfifo.specs.declared.view.Reading.{Reading};

    ghost Value = { Reading };

    ghost view = { λ e. e.seat.me.0.reading };
}

// Takes the oldest scan that is left, if any, and returns how many offers were lost before it.
fn take_one(
    shared: &Shared<Cell, View, Key, RingRule>,
    seat: &mut Seat<Cell, View>,
    count: u64,
    slots: u32,
    out: &mut [u8],
) -> Option<u64>
    requires rests { ReaderRests shared.now.table_id shared.now.key seat.old.table_id seat.old.me }
    requires count { count ≡ length seat.old.me.0.reading.received }
    requires slots { shared.now.key.slots ≡ slots }
    requires size { length out.old ≡ shared.now.key.size }
    ensures rests { ReaderRests shared.now.table_id shared.now.key seat.new.table_id seat.new.me }
    ensures same { seat.new.table_id ≡ seat.old.table_id }
    ensures some { IfSome result (λ lost. TakesOne seat.old.me.0.reading out.new lost seat.new.me.0.reading × (count + lost < 2 ^ 64) × (count < 2 ^ 64 - 1)) }
    ensures none { IfNone result (FindsNone seat.old.me.0.reading seat.new.me.0.reading × (out.new ≡ out.old)) }
{
    let found = shared.load::<LookIn>(seat, IN);
    if found == count {
        return None;
    }
    let cell = seat.slot_mut(shared, (count % slots as u64) as usize);
    out.copy_from_slice(&cell.bytes);
    let lost = cell.lost;
    shared.store::<Receive>(seat, OUT, count + 1);
    Some(lost)
}

// Appends the scan of the first slot in hand, and puts that slot after the others in hand.
fn append_next(
    shared: &Shared<Cell, View, Key, RingRule>,
    seat: &mut Seat<Cell, View>,
    slot: u32,
    out: &mut Vec<u8>,
)
    requires ring { seat.old.table_id ≡ shared.now.table_id }
    requires held { (cell : Cell) × (seat.old.me.1 ≡ (slot, cell) ∷ rest seat.old.me.1) }
    requires room { length out.old.items + length (in_hand seat.old.me.1) ≤ vec_capacity out.old }
    ensures ring { seat.new.table_id ≡ seat.old.table_id }
    ensures view { seat.new.me ≡ (seat.old.me.0, turned seat.old.me.1) }
    ensures bytes { out.new.items ≡ out.old.items ++ in_hand seat.old.me.1 }
    ensures room { vec_capacity out.old ≤ vec_capacity out.new }
{
    let cell = seat.slot_mut(shared, slot as usize);
    let _ = out.extend_from_slice(&cell.bytes);
    seat.turn();
}

// The slot after another.
fn next_slot(slot: u32, slots: u32) -> u32
    requires { slot < slots }
    ensures { result ≡ (slot + 1) % slots }
{
    if slot + 1 == slots { 0 } else { slot + 1 }
}

// Appends the scans of a run of slots in hand.
fn append_run(
    shared: &Shared<Cell, View, Key, RingRule>,
    seat: &mut Seat<Cell, View>,
    slot: u32,
    slots: u32,
    run: u32,
    out: &mut Vec<u8>,
)
    requires ring { seat.old.table_id ≡ shared.now.table_id }
    requires held { Turned slots seat.old.me.0.size (length seat.old.me.0.reading.received) 0 seat.old.me.0.reading.hand seat.old.me.1 }
    requires slot { (0 < slots) × (slot ≡ length seat.old.me.0.reading.received % slots) }
    requires few { run ≤ length seat.old.me.0.reading.hand }
    requires room { length out.old.items + run * seat.old.me.0.size ≤ vec_capacity out.old }
    ensures ring { seat.new.table_id ≡ seat.old.table_id }
    ensures view { seat.new.me.0 ≡ seat.old.me.0 }
    ensures held { Turned slots seat.old.me.0.size (length seat.old.me.0.reading.received) run seat.old.me.0.reading.hand seat.new.me.1 }
    ensures sized { length out.new.items ≡ length out.old.items + run * seat.old.me.0.size }
    ensures bytes { out.new.items ≡ out.old.items ++ flat_map (λ s. s.scan) (take run seat.old.me.0.reading.hand) }
    ensures room { vec_capacity out.old ≤ vec_capacity out.new }
{
    let mut at = slot;
    for _ in 0..run {
        append_next(shared, seat, at, out);
        at = next_slot(at, slots);
    }
}

// Takes up to `most` of the scans that are left, by one load and one store.
fn take_run(
    shared: &Shared<Cell, View, Key, RingRule>,
    seat: &mut Seat<Cell, View>,
    count: u64,
    slots: u32,
    most: u32,
    out: &mut Vec<u8>,
) -> u32
    requires rests { ReaderRests shared.now.table_id shared.now.key seat.old.table_id seat.old.me }
    requires count { count ≡ length seat.old.me.0.reading.received }
    requires slots { shared.now.key.slots ≡ slots }
    requires some { 1 ≤ most }
    requires room { length out.old.items + most * shared.now.key.size ≤ vec_capacity out.old }
    ensures rests { ReaderRests shared.now.table_id shared.now.key seat.new.table_id seat.new.me }
    ensures same { seat.new.table_id ≡ seat.old.table_id }
    ensures fits { count + result < 2 ^ 64 }
    ensures takes { TakesRun seat.old.me.0.reading most result out.old.items out.new.items seat.new.me.0.reading }
    ensures sized { length out.new.items ≡ length out.old.items + result * shared.now.key.size }
    ensures room { vec_capacity out.old ≤ vec_capacity out.new }
{
    let found = shared.load::<LookIn>(seat, IN);
    let run = (found - count).min(most as u64);
    if run == 0 {
        return 0;
    }
    let slot = (count % slots as u64) as u32;
    append_run(shared, seat, slot, slots, run as u32, out);
    shared.store::<Receive>(seat, OUT, count + run);
    run as u32
}

// Returns how many scans are left, by one load.
fn count_left(
    shared: &Shared<Cell, View, Key, RingRule>,
    seat: &mut Seat<Cell, View>,
    count: u64,
) -> u64
    requires rests { ReaderRests shared.now.table_id shared.now.key seat.old.table_id seat.old.me }
    requires count { count ≡ length seat.old.me.0.reading.received }
    ensures rests { ReaderRests shared.now.table_id shared.now.key seat.new.table_id seat.new.me }
    ensures same { seat.new.table_id ≡ seat.old.table_id }
    ensures left { seat.new.me.0.reading ≡ record seat.old.me.0.reading { seen = count + result; left = result; looks = seat.old.me.0.reading.looks + 1 } }
{
    let found = shared.load::<Count>(seat, IN);
    found - count
}

// Loads the closed word.
fn ask_closed(shared: &Shared<Cell, View, Key, RingRule>, seat: &mut Seat<Cell, View>) -> u64
    requires rests { ReaderRests shared.now.table_id shared.now.key seat.old.table_id seat.old.me }
    ensures rests { ReaderRests shared.now.table_id shared.now.key seat.new.table_id seat.new.me }
    ensures same { seat.new.table_id ≡ seat.old.table_id }
    ensures open { (result ≡ 0) → AsksOpen seat.old.me.0.reading seat.new.me.0.reading }
    ensures closed { (result ≢ 0) → AsksClosed seat.old.me.0.reading seat.new.me.0.reading × (seat.new.me.0.reading.word ≡ result) }
{
    shared.load::<Ask>(seat, CLOSED)
}

impl Reader {
    ghost use Rattle.iio_kfifo.specs.Ends.{Ends};

    /// Takes the oldest scan that is left into `out`, which has the size of a scan. Returns `None` only if this call found
    /// nothing left.
    pub fn take(&mut self, out: &mut [u8]) -> Option<Mark>
        requires { length out.old ≡ self.old.size }
        ensures same { self.new ≡ record self.old { knows = self.new.knows } }
        ensures some { IfSome result
            (λ m. (m.seq ≡ length self.old.knows.received) × (m.number ≡ m.seq + m.lost) × TakesOne self.old.knows out.new m.lost self.new.knows) }
        ensures none { IfNone result (FindsNone self.old.knows self.new.knows × (out.new ≡ out.old)) }
    {
        let taken = take_one(
            &self.table.shared,
            &mut self.seat,
            self.count,
            self.slots,
            out,
        );
        let Some(lost) = taken else {
            return None;
        };
        let seq = self.count;
        self.count += 1;
        Some(Mark {
            seq,
            number: seq + lost,
            lost,
        })
    }

    // Takes up to `most` of the scans that are left, after one load.
    fn take_some(&mut self, most: u32, out: &mut Vec<u8>) -> u32
        requires some { 1 ≤ most }
        requires room { length out.old.items + most * self.old.size ≤ vec_capacity out.old }
        ensures same { self.new ≡ record self.old { knows = self.new.knows } }
        ensures takes { TakesRun self.old.knows most result out.old.items out.new.items self.new.knows }
        ensures sized { length out.new.items ≡ length out.old.items + result * self.old.size }
        ensures room { vec_capacity out.old ≤ vec_capacity out.new }
    {
        let taken = take_run(
            &self.table.shared,
            &mut self.seat,
            self.count,
            self.slots,
            most,
            out,
        );
        self.count += taken as u64;
        taken
    }

    /// Takes up to `most` of the oldest scans that are left, appends their bytes to `out`, one scan after the other, and
    /// returns how many there were. `out` must have room for the bytes of `most` scans. Fewer are taken only if this call found
    /// nothing left in the end.
    pub fn take_scans(&mut self, most: u32, out: &mut Vec<u8>) -> u32
        requires { length out.old.items + most * self.old.size ≤ vec_capacity out.old }
        ensures same { self.new ≡ record self.old { knows = self.new.knows } }
        ensures takes { TakesScans self.old.knows most result out.old.items out.new.items self.new.knows }
        ensures sized { length out.new.items ≡ length out.old.items + result * self.old.size }
        ensures room { vec_capacity out.old ≤ vec_capacity out.new }
    {
        let mut taken = 0;
        let mut run = 1;
        while taken < most && run > 0 {
            run = self.take_some(most - taken, out);
            taken += run;
        }
        taken
    }

    /// The number of scans that are left, as this call found it. The writer may have added some since.
    pub fn waiting(&mut self) -> u64
        ensures same { self.new ≡ record self.old { knows = self.new.knows } }
        ensures left { self.new.knows
            ≡ record self.old.knows { seen = length self.old.knows.received + result; left = result; looks = self.old.knows.looks + 1 } }
    {
        count_left(&self.table.shared, &mut self.seat, self.count)
    }

    /// Whether the writer closed the ring. If so, nothing more is offered to it.
    pub fn closed(&mut self) -> bool
        ensures same { self.new ≡ record self.old { knows = self.new.knows } }
        ensures kept { self.new.knows.received ≡ self.old.knows.received }
        ensures asks { MatchBool result (AsksClosed self.old.knows self.new.knows) (AsksOpen self.old.knows self.new.knows) }
    {
        ask_closed(&self.table.shared, &mut self.seat) != 0
    }

    /// The number of offers that were lost in all. Returns `None` exactly if this call found the ring open.
    pub fn lost(&mut self) -> Option<u64>
        ensures same { self.new ≡ record self.old { knows = self.new.knows } }
        ensures kept { self.new.knows.received ≡ self.old.knows.received }
        ensures some { IfSome result (λ n. (n ≡ lost_in self.new.knows.offers) × AsksClosed self.old.knows self.new.knows) }
        ensures none { IfNone result (AsksOpen self.old.knows self.new.knows) }
    {
        let word = ask_closed(&self.table.shared, &mut self.seat);
        if word == 0 {
            return None;
        }
        Some(word - 1)
    }

    /// Ends the reader. Returns how many scans were received, with whether the ring was closed by then, and beside that what
    /// the reader knew.
    pub fn end(self) -> (Ended, Ending)
        ensures { Ends self.knows result.0 result.1 }
    {
        let Reader {
            table,
            mut seat,
            count,
            slots: _,
            size: _,
        } = self;
        let word = ask_closed(&table.shared, &mut seat);
        if word == 0 {
            return (Ended::Cut(count), Ending { seat });
        }
        (Ended::Whole(count), Ending { seat })
    }
}
