//! The commands of attributes: READ and WRITE.

ghost use Rattle.std.specs.Prelude.{◌≡◌, ◌<◌, length, is_some, option_map, IfSome};
ghost use Rattle.std.specs.Option.{option_copied};
ghost use Rattle.iiod_grammar.specs.Stream.{Written};
ghost use Rattle.iiod_grammar.specs.View.{place_view, target_view};
ghost use Rattle.iiod_commands.specs.Acts.{read_attribute_at, read_buffer_attribute_at, read_device_attribute, write_attribute_at};
ghost use Rattle.iiod_commands.specs.Answers.{Fits, IsText, ServesBy, reply_of};
ghost use Rattle.iiod_commands.specs.Attributes.{buffer_number};
ghost use Rattle.iiod_commands.specs.Client.{ClientRecord, IsClient, IsHeld, seat_state_of, client_of, place_of, trace_of, traces_of, state_of};
ghost use Rattle.iio_core.specs.Machine.{lost_of, queue_of};
ghost use Rattle.iiod_commands.specs.Performs.{Comes};
ghost use Rattle.iiod_commands.specs.Seat.{seat_id};
ghost use Rattle.iiod_commands.specs.Target.{MayRead};
ghost use Rattle.iiod_commands.specs.Targets.{named_of_code, written_by};

use crate::answers::{Answer, answered};
use crate::client::{Client, OpenSeat};
use crate::iio::{Iio, No};
use crate::kinds::kind_of;
use crate::seats;
use crate::targets::{Named, found, is_of_buffer, write_found};
use iio_attr::{Attr, Value};
use iio_base::Mem;
use iio_text::{Errno, print_fixed};
use iiod_grammar::Place;
use std::alloc::Global;

// Reads an attribute of the device, or of a channel. The memory for the digits of a stored number is taken after the call,
// which changes nothing if it returns such a number.
fn read_device<I: Iio>(alloc: Global, iio: &mut I, dev: u32, target: Named) -> Result<Answer, No>
    requires dev { dev < length (I.front (I.kept iio.old)).devices }
    requires may_read { MayRead (I.front (I.kept iio.old)) dev target.channel target.attribute }
    ensures kept { I.kept iio.new ≡ I.kept iio.old }
    ensures told { (client : ClientRecord) → IfSome (I.told iio.old) (λ m. Comes m client
        (read_device_attribute (I.front (I.kept iio.old)) m client dev (named_of_code target)) (reply_of (I.front (I.kept iio.old)) result) (I.told iio.new)
        client) }
    ensures text { IsText result }
{
    match iio.read_attr(dev, target.channel, target.attribute)? {
        Value::Int(n) => Ok(Answer::Int(n)),
        Value::Text(name) => Ok(Answer::Name(name)),
        Value::Number(v) => match print_fixed(alloc, &v) {
            Err(Mem) => Err(No::Mem),
            Ok(digits) => Ok(Answer::Fixed(digits)),
        },
    }
}

// Returns a number of a seat's queue.
fn buffer_number<I: Iio>(iio: &mut I, h: &mut OpenSeat<I::Seat>, attribute: Attr) -> u64
    requires { IsHeld I.seen (I.front (I.kept iio.old)) h.old }
    ensures kept { I.kept iio.new ≡ I.kept iio.old }
    ensures held { IsHeld I.seen (I.front (I.kept iio.new)) h.new }
    ensures bare { seat_state_of I.seen h.new ≡ seat_state_of I.seen h.old }
    ensures trace { trace_of I.seen h.new ≡ trace_of I.seen h.old }
    ensures value { IfSome (I.told iio.old) (λ m. result ≡ buffer_number attribute h.old.capacity
        (length (queue_of m h.old.dev (seat_id (I.seen h.old.seat)))) (lost_of m h.old.dev (seat_id (I.seen h.old.seat))) h.old.discarded) }
    ensures told { IfSome (I.told iio.old) (λ m. I.told iio.new ≡ Some m) }
{
    let counts = iio.counts(h.dev, &mut h.seat);
    match attribute {
        Attr::Overruns | Attr::Underruns => counts.lost,
        Attr::DataAvailable => counts.waiting,
        Attr::Discarded => h.discarded,
        _ => u64::from(h.capacity),
    }
}

// Reads the attribute of a buffer of the connection.
fn read_buffer<I: Iio>(
    client: &mut Client<I::Seat>,
    iio: &mut I,
    dev: u32,
    attribute: Attr,
) -> Result<Answer, No>
    requires client { IsClient I.seen (I.front (I.kept iio.old)) client.old }
    ensures kept { I.kept iio.new ≡ I.kept iio.old }
    ensures client { IsClient I.seen (I.front (I.kept iio.new)) client.new }
    ensures same { client_of I.seen client.new ≡ client_of I.seen client.old }
    ensures traces { traces_of I.seen client.new.held.items ≡ traces_of I.seen client.old.held.items }
    ensures told { IfSome (I.told iio.old) (λ m. Comes m (client_of I.seen client.old)
        (read_buffer_attribute_at m (client_of I.seen client.old) attribute (place_of dev (client_of I.seen client.old).seats))
        (reply_of (I.front (I.kept iio.old)) result) (I.told iio.new) (client_of I.seen client.old)) }
    ensures text { IsText result }
{
    let Some(i) = seats::place(&client.held, dev) else {
        return Err(No::Errno(Errno::EBADF));
    };
    Ok(Answer::Count(buffer_number(iio, &mut client.held[i], attribute)))
}

/// READ at the device of that number.
pub(crate) fn read_attribute_at<I: Iio>(
    alloc: Global,
    client: &mut Client<I::Seat>,
    iio: &mut I,
    dev: u32,
    place: Place<'_>,
    name: Option<&[u8]>,
) -> Result<Answer, No>
    requires dev { dev < length (I.front (I.kept iio.old)).devices }
    requires client { IsClient I.seen (I.front (I.kept iio.old)) client.old }
    ensures kept { I.kept iio.new ≡ I.kept iio.old }
    ensures client { IsClient I.seen (I.front (I.kept iio.new)) client.new }
    ensures same { client_of I.seen client.new ≡ client_of I.seen client.old }
    ensures traces { traces_of I.seen client.new.held.items ≡ traces_of I.seen client.old.held.items }
    ensures told { IfSome (I.told iio.old) (λ m. Comes m (client_of I.seen client.old)
        (read_attribute_at (I.front (I.kept iio.old)) m (client_of I.seen client.old) (place_view place.entry) (option_copied name.entry) dev)
        (reply_of (I.front (I.kept iio.old)) result) (I.told iio.new) (client_of I.seen client.old)) }
    ensures text { IsText result }
{
    let is_open = seats::place(&client.held, dev).is_some();
    let plugged = iio.plugged(dev);
    let of_buffer = is_of_buffer(place, name);
    let kind = kind_of(iio, dev);
    let target = found(kind, iio.shape(dev), plugged, is_open, place, name)?;
    if of_buffer {
        read_buffer(client, iio, dev, target.attribute)
    } else {
        read_device(alloc, iio, dev, target)
    }
}

// WRITE at the device of that number.
fn write_attribute_at<I: Iio>(
    iio: &mut I,
    dev: u32,
    is_open: bool,
    place: Place<'_>,
    name: Option<&[u8]>,
    payload: &[u8],
) -> Result<(), No>
    requires dev { dev < length (I.front (I.kept iio.old)).devices }
    ensures kept { I.kept iio.new ≡ I.kept iio.old }
    ensures told { (client : ClientRecord) → is_open ≡ is_some (place_of dev client.seats) → IfSome (I.told iio.old) (λ m. Comes m client
        (write_attribute_at (I.front (I.kept iio.old)) m client (place_view place.entry) (option_copied name.entry) payload.now dev)
        (written_by (length payload.now) result) (I.told iio.new) client) }
{
    let plugged = iio.plugged(dev);
    let kind = kind_of(iio, dev);
    let x = write_found(kind, iio.shape(dev), plugged, is_open, place, name, payload)?;
    iio.write_attr(dev, x.target.channel, x.target.attribute, x.value)
}

/// WRITE, with its whole payload. `EINVAL` if its words name nothing.
pub(crate) fn write_attribute<I: Iio>(
    client: &Client<I::Seat>,
    iio: &mut I,
    device: &[u8],
    target: Option<(Place<'_>, Option<&[u8]>)>,
    payload: &[u8],
) -> Result<Answer, No>
    ensures kept { I.kept iio.new ≡ I.kept iio.old }
    ensures fits { Fits result }
    ensures served { ServesBy (I.front (I.kept iio.old)) (state_of I.seen (I.told iio.old) client.now)
        (Written device.now (option_map target_view target.entry) payload.now) result (state_of I.seen (I.told iio.new) client.now) }
{
    let (place, name) = target.ok_or(Errno::EINVAL)?;
    let dev = iio.find(device).ok_or(Errno::ENODEV)?;
    let is_open = seats::place(&client.held, dev).is_some();
    let written = write_attribute_at(iio, dev, is_open, place, name, payload);
    answered(payload.len(), written)
}
