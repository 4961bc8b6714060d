//! What a watch is told about a connection.

ghost use Rattle.std.specs.Prelude.{◌≡◌, length, min};
ghost use Rattle.iiod_grammar.specs.declared.lines.TheConstants.{MAX_PAYLOAD};

use iiod_commands::Iio;
use iiod_grammar::{Command, MAX_PAYLOAD};

/// An item of a stream, as it is told to a [`Watch`].
#[derive(Clone, Copy, Debug)]
pub enum Seen<'a> {
    /// A command; also EXIT, a WRITE or WRITEBUF once its payload is whole, and one whose payload is too large.
    Command(Command<'a>),
    /// A line that is no command.
    Refused,
    /// A line that is too long.
    TooLong,
}

/// An observer of a connection while it is fed by [`Session::feed_watched`](crate::Session::feed_watched).
///
/// The relation `makes` says what a watch becomes when it is told an item. It may depend on the devices as they stand just
/// before the item, if they tell their state, and on the connection's number.
pub trait Watch<I: Iio> {
    ghost use Rattle.std.specs.Prelude.{ℕ, Option};
    ghost use Rattle.iiod_grammar.specs.Stream.{Item};
    ghost use Rattle.iio_core.specs.Front.{Front};
    ghost use Rattle.iio_core.specs.Machine.{Machine};
    ghost use Rattle.iiod_session.specs.Watch.{IsSeen};

    ghost makes: { Front → Option Machine → ℕ → Item → Self → Self → Type 0 };

    /// Called just before connection `who` is answered the item.
    fn before(&mut self, iio: &I, who: u32, item: &Seen<'_>)
        ensures { (x : Item) → IsSeen x item.now → makes (I.front (I.kept iio.now)) (I.told iio.now) who x self.old self.new };
}

/// A watch that ignores every item.
#[derive(Clone, Copy, Debug)]
pub struct Unwatched;

impl<I: Iio> Watch<I> for Unwatched {
    ghost use Rattle.std.specs.Prelude.{◌≡◌};

    ghost makes = { λ front told who item old new. new ≡ old };

    fn before(&mut self, _iio: &I, _who: u32, _item: &Seen<'_>) {}
}

/// Returns the number of bytes of a payload, at most `MAX_PAYLOAD`.
pub(crate) fn count_of(payload: &[u8]) -> u32
    ensures { result ≡ min (length payload.now) MAX_PAYLOAD }
{
    payload.len().min(MAX_PAYLOAD as usize) as u32
}
