//! Reads a device over a link that is begun for it.

ghost use Rattle.std.specs.Prelude.{◌≡◌, ◌⊎◌, ℕ, [], List, Option, Ok};
ghost use Rattle.iio_base.specs.Faults.{Rose};
ghost use Rattle.iiod_client.specs.Ask.{IsAsk, wanted_by};
ghost use Rattle.iiod_client.specs.Point.{point};
ghost use Rattle.iiod_readdev.specs.Counts.{ShowsCounts};
ghost use Rattle.iiod_readdev.specs.Reading.{EndsRead, EndsUndialled, IsDescribed, IsDueOr, IsFailure, WantedComesTo};
ghost use Rattle.iiod_readdev.specs.declared.read_status.ReadStatus.{ReadStatus as Status};

use crate::read_status::ReadStatus;
use iio_io::{Dial, Sink, write_whole};
use iiod_client::{Ask, read_device};
use std::alloc::Global;

const NO_ADDRESS: &[u8] = b"no address\n";

// The end if the connection couldn't be begun.
fn end_undialled<K: Sink>(output: &mut K) -> ReadStatus
    ensures ends { (left : Option (List ℕ)) (left' : Option (List ℕ)) (sent : Option (List ℕ)) (sent' : Option (List ℕ)) → left' ≡ left → sent' ≡ sent →
        EndsUndialled result (point left [] sent (K.written output.old)) (point left' [] sent' (K.written output.new)) }
    ensures counts { (input : ℕ) (link : ℕ) (link' : ℕ) → Rose link link'
        → ShowsCounts result input input link link' (K.faults output.old) (K.faults output.new) }
    ensures described { IsDescribed result }
    ensures failure { IsFailure result }
{
    match write_whole(output, NO_ADDRESS) {
        Ok(()) => ReadStatus::NoAddress,
        Err(_) => ReadStatus::WriteFault,
    }
}

/// Begins the connection at an address, and reads the device over it. If it can't be begun, `no address` is printed.
pub(crate) fn dial_and_read<K: Sink, L: Dial>(
    alloc: Global,
    ask: &Ask<'_>,
    address: &str,
    output: &mut K,
    link: &mut L,
) -> ReadStatus
    requires { IsAsk (wanted_by ask.now) }
    ensures reads { (pending : List ℕ) × (EndsUndialled result
        (point (L.left link.old) [] (L.written link.old) (K.written output.old)) (point (L.left link.new) pending (L.written link.new) (K.written output.new))
        ⊎ EndsRead (wanted_by ask.now) result
        (point (L.left link.old) [] (L.written link.old) (K.written output.old))
        (point (L.left link.new) pending (L.written link.new) (K.written output.new))) }
    ensures counts { (input : ℕ) → ShowsCounts result input input (L.faults link.old) (L.faults link.new) (K.faults output.old) (K.faults output.new) }
    ensures described { IsDescribed result }
    ensures exact { (due : Status) → WantedComesTo (Ok (wanted_by ask.now)) (L.left link.old) due → IsDueOr due result }
{
    if link.dial(address).is_err() {
        return end_undialled(output);
    }
    ReadStatus::of_client(read_device(alloc, link, ask, output))
}
