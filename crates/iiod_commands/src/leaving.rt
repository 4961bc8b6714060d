//! The end of a connection at the devices.

ghost use Rattle.std.specs.Prelude.{◌≡◌, All, [], Some, IfSome};
ghost use Rattle.iiod_commands.specs.Acts.{all_closed, all_released, left_client, left_machine};
ghost use Rattle.iiod_commands.specs.Client.{AllHeld, IsClient, IsHolding, client_of, seats_of};

use crate::client::{Client, OpenSeat};
use crate::iio::Iio;

// Closes each seat, the last one first.
fn close_all<I: Iio>(held: &mut Vec<OpenSeat<I::Seat>>, iio: &mut I)
    requires { AllHeld I.seen (I.front (I.kept iio.old)) held.old.items }
    ensures kept { I.kept iio.new ≡ I.kept iio.old }
    ensures none { held.new.items ≡ [] }
    ensures told { IfSome (I.told iio.old) (λ m. I.told iio.new ≡ Some (all_closed (I.front (I.kept iio.old)) m (seats_of I.seen held.old.items))) }
{
    while let Some(h) = held.pop() {
        let (dev, seat) = h.into_seat();
        iio.close(dev, seat);
    }
}

// Ends each holding, the last one first.
fn release_all<I: Iio>(holdings: &mut Vec<u32>, iio: &mut I, who: u32)
    requires { All (IsHolding (I.front (I.kept iio.old))) holdings.old.items }
    ensures kept { I.kept iio.new ≡ I.kept iio.old }
    ensures none { holdings.new.items ≡ [] }
    ensures told { IfSome (I.told iio.old) (λ m. I.told iio.new ≡ Some (all_released m who holdings.old.items)) }
{
    while let Some(dev) = holdings.pop() {
        let _ = iio.ev_close(dev, who);
    }
}

/// Closes each seat, and ends each holding of events.
pub fn leave<I: Iio>(client: &mut Client<I::Seat>, iio: &mut I)
    requires { IsClient I.seen (I.front (I.kept iio.old)) client.old }
    ensures kept { I.kept iio.new ≡ I.kept iio.old }
    ensures client { IsClient I.seen (I.front (I.kept iio.new)) client.new }
    ensures none { client.new.held.items ≡ [] }
    ensures left { client_of I.seen client.new ≡ left_client (client_of I.seen client.old) }
    ensures told { IfSome (I.told iio.old) (λ m. I.told iio.new ≡ Some (left_machine (I.front (I.kept iio.old)) m (client_of I.seen client.old))) }
{
    close_all(&mut client.held, iio);
    release_all(&mut client.holdings, iio, client.who);
}
