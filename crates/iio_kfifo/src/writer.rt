//! The end of a ring at which scans come in.

ghost use Rattle.std.specs.Prelude.{◌≡◌, ℕ, ◌+◌, ◌-◌, ◌^◌, ◌<◌, ◌≤◌, [], true, length};
ghost use Rattle.iio_kfifo.specs.Offers.{accepted, lost_in};
ghost use Rattle.iio_kfifo.specs.Ends.{Answers, WriterRests};

use crate::cell::Cell;
use crate::rule::{Accept, Close, LookOut, RingRule};
use crate::tail::{Offered, Tail};
use crate::view::{Key, View};
use crate::words::{CLOSED, IN, OUT};
use atomic_table::{Seat, Shared, Table};
use std::alloc::Global;
use std::marker::Model;
use std::sync::Arc;

/// The end of a ring at which scans come in. An offer is lost only if it found the ring full. If the writer is dropped without
/// a call of `close`, the ring stays open.
#[derive(Drop)]
pub struct Writer {
    pub(crate) table: Arc<Table<Cell, View, Key, RingRule, Global>>,
    pub(crate) seat: Seat<Cell, View>,
    // How many scans were accepted, and how many were lost.
    pub(crate) count: u64,
    pub(crate) lost: u64,
    pub(crate) slots: u32,
    pub(crate) size: u32,
}

impl Model for Writer {
    ghost use Rattle.std.specs.Prelude.{◌≡◌, ◌<◌};
    ghost use Rattle.std.specs.Arc.{arc_value};
    ghost use Rattle.iio_kfifo.specs.Ends.{WriterEnd, WriterRests, WriterCounts};

    ghost Value = { WriterEnd };

    ghost view = { λ w. record { ring = w.seat.table_id; size = w.size; capacity = w.slots; knows = w.seat.me.0.writing } };

    ghost invariant = { λ w. WriterRests (arc_value w.table).shared.table_id (arc_value w.table).shared.key w.seat.table_id w.seat.me
        × WriterCounts (arc_value w.table).shared.key w.seat.me.0.writing w.count w.lost w.slots w.size };
}

/// What is left of the writer of a closed ring: which ring it was, and what the writer knew. It takes no bytes.
#[derive(Drop)]
pub struct Closing {
    pub(crate) seat: Seat<Cell, View>,
}

impl Model for Closing {
    ghost use Rattle.std.specs.Prelude.{◌≡◌};
    ghost use Rattle.iio_kfifo.specs.declared.view.Part.TheVariants.{Writes};
    ghost use Rattle.iio_kfifo.specs.Ends.{WriterLeft};

    ghost Value = { WriterLeft };

    ghost view = { λ c. record { ring = c.seat.table_id; knows = c.seat.me.0.writing } };

    ghost invariant = { λ c. c.seat.me.0.part ≡ Writes };
}

// Offers a scan.
fn offer_to(
    shared: &Shared<Cell, View, Key, RingRule>,
    seat: &mut Seat<Cell, View>,
    count: u64,
    lost: u64,
    slots: u32,
    scan: &[u8],
) -> Offered
    requires rests { WriterRests shared.now.table_id shared.now.key seat.old.table_id seat.old.me }
    requires count { count ≡ length (accepted seat.old.me.0.writing.offers) }
    requires lost { lost ≡ lost_in seat.old.me.0.writing.offers }
    requires fewer { count + lost < 2 ^ 64 - 1 }
    requires slots { shared.now.key.slots ≡ slots }
    requires size { length scan.now ≡ shared.now.key.size }
    ensures rests { WriterRests shared.now.table_id shared.now.key seat.new.table_id seat.new.me }
    ensures same { seat.new.table_id ≡ seat.old.table_id }
    ensures answers { Answers slots seat.old.me.0.writing scan.now result seat.new.me.0.writing }
{
    let found = shared.load::<LookOut>(seat, OUT);
    if count - found >= slots as u64 {
        return Offered::Lost;
    }
    let cell = seat.slot_mut(shared, (count % slots as u64) as usize);
    cell.bytes.copy_from_slice(scan);
    cell.lost = lost;
    shared.store::<Accept>(seat, IN, count + 1);
    Offered::Taken
}

// Closes the ring.
fn close_ring(shared: &Shared<Cell, View, Key, RingRule>, seat: &mut Seat<Cell, View>, lost: u64)
    requires rests { WriterRests shared.now.table_id shared.now.key seat.old.table_id seat.old.me }
    requires lost { lost ≡ lost_in seat.old.me.0.writing.offers }
    requires fits { lost < 2 ^ 64 - 1 }
    ensures ring { seat.new.table_id ≡ seat.old.table_id }
    ensures closes { seat.new.me.0 ≡ record seat.old.me.0 { writing = record seat.old.me.0.writing { closed = true } } }
{
    shared.store::<Close>(seat, CLOSED, lost + 1);
}

impl Tail for Writer {
    ghost use Rattle.std.specs.Prelude.{length};
    ghost use Rattle.iio_kfifo.specs.Offers.{accepted, lost_in};
    ghost use Rattle.iio_kfifo.specs.Ends.{Offers};

    ghost taken = { λ w. length (accepted w.knows.offers) };

    ghost lost = { λ w. lost_in w.knows.offers };

    ghost size = { λ w. w.size };

    ghost capacity = { λ w. w.capacity };

    ghost offer_gives = { Offers };

    fn offer(&mut self, scan: &[u8]) -> Offered {
        let answer = offer_to(
            &self.table.shared,
            &mut self.seat,
            self.count,
            self.lost,
            self.slots,
            scan,
        );
        match answer {
            Offered::Taken => self.count += 1,
            Offered::Lost => self.lost += 1,
        }
        answer
    }

    fn lost(&self) -> u64 {
        self.lost
    }

    fn size(&self) -> u32 {
        self.size
    }

    fn capacity(&self) -> u32 {
        self.slots
    }
}

impl Writer {
    /// Closes the ring: nothing is offered to it any more, and its reader can see that. What the writer knew stays as it was.
    pub fn close(self) -> Closing
        ensures { result ≡ record {
          ring = self.ring;
          knows = record self.knows { closed = true };
        } }
    {
        let Writer {
            table,
            mut seat,
            count: _,
            lost,
            slots: _,
            size: _,
        } = self;
        close_ring(&table.shared, &mut seat, lost);
        Closing { seat }
    }
}
