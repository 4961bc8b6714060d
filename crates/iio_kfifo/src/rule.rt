//! The rule of a ring, and what its steps show.

ghost use Rattle.iio_kfifo.specs.declared.view.Part.TheVariants.{Fresh};
ghost use Rattle.iio_kfifo.specs.Rule.{holds, new_view, writer_part, reader_part, joined, spent};
ghost use Rattle.iio_kfifo.specs.Steps.{LookedOut, Accepts, Closes, LookedIn, Counts, Receives, Asked, Settles};

use crate::cell::Cell;
use crate::view::{Key, View};
use atomic_table::{Join, Play, Split, TableRule};

/// What holds of a ring between any two steps.
pub(crate) struct RingRule;

impl TableRule<Cell, View, Key> for RingRule {
    ghost holds = { holds };

    ghost first = { λ k. new_view Fresh k.size };
}

/// The reader's part is split off.
pub(crate) struct ReaderPart;

impl Split<View> for ReaderPart {
    ghost left = { writer_part };

    ghost right = { reader_part };
}

/// The two ends are in one thread again.
pub(crate) struct EndsJoined;

impl Join<View> for EndsJoined {
    ghost both = { joined };

    ghost spent = { spent };
}

/// The writer looks at how much the reader took.
pub(crate) struct LookOut;

impl Play<Cell, View> for LookOut {
    ghost then = { λ s a n b. LookedOut s a n b };
}

/// The writer's scan is accepted.
pub(crate) struct Accept;

impl Play<Cell, View> for Accept {
    ghost then = { λ _ a _ b. Accepts a b };
}

/// The writer closes the ring.
pub(crate) struct Close;

impl Play<Cell, View> for Close {
    ghost then = { λ _ a _ b. Closes a b };
}

/// The reader takes all that is left in hand.
pub(crate) struct LookIn;

impl Play<Cell, View> for LookIn {
    ghost then = { λ s a n b. LookedIn s a n b };
}

/// The reader looks at how much is left.
pub(crate) struct Count;

impl Play<Cell, View> for Count {
    ghost then = { λ _ a n b. Counts a n b };
}

/// The reader received scans.
pub(crate) struct Receive;

impl Play<Cell, View> for Receive {
    ghost then = { λ _ a n b. Receives a n b };
}

/// The reader asks whether the ring is closed.
pub(crate) struct Ask;

impl Play<Cell, View> for Ask {
    ghost then = { λ _ a n b. Asked a n b };
}

/// Both ends are compared.
pub(crate) struct Settle;

impl Play<Cell, View> for Settle {
    ghost then = { λ _ a n b. Settles a n b };
}
