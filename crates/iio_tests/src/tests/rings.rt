//! Rings played by hand, and one between two threads.

ghost use Rattle.std.specs.Prelude.{◌≡◌, ◌+◌, ◌*◌, ◌-◌, ◌^◌, ◌<◌, ◌≤◌, length, vec_capacity};
ghost use Rattle.iio_kfifo.specs.Offers.{accepted, lost_in};
ghost use Rattle.iio_kfifo.specs.Rule.{new_writing};

use iio_kfifo::{Ended, Mark, Offered, Reader, Tail, Writer, give_back, ring};
use std::process::Abort;
use std::test::Fail;
use std::thread;

// A call at a ring of scans of one byte, and what it is expected to return.
#[derive(Drop)]
enum Call {
    Offer(u8, Offered),
    // The scan, and its mark.
    Take(u8, Mark),
    TakeNone,
}

// A mark's three numbers.
fn mark(seq: u64, number: u64, lost: u64) -> Mark {
    Mark { seq, number, lost }
}

// Makes a call, and returns whether its result is the expected one.
fn is_right(writer: &mut Writer, reader: &mut Reader, call: &Call) -> bool
    requires size { (writer.old.size ≡ 1) × (reader.old.size ≡ 1) }
    requires fewer { length (accepted writer.old.knows.offers) + lost_in writer.old.knows.offers < 2 ^ 64 - 1 }
    ensures ring { (writer.new.ring ≡ writer.old.ring) × (reader.new.ring ≡ reader.old.ring) }
    ensures size { (writer.new.size ≡ 1) × (reader.new.size ≡ 1) }
    ensures most { length (accepted writer.new.knows.offers) + lost_in writer.new.knows.offers ≤ length (accepted writer.old.knows.offers)
        + lost_in writer.old.knows.offers + 1 }
{
    let mut scan = [0];
    match call {
        Call::Offer(byte, answer) => {
            let offered = writer.offer(&[*byte]);
            offered == *answer
        }
        Call::Take(byte, mark) => {
            let found = reader.take(&mut scan);
            found == Some(*mark) && scan[0] == *byte
        }
        Call::TakeNone => reader.take(&mut scan).is_none(),
    }
}

// Makes the calls in turn, and returns how many have the expected result, up to the first that doesn't.
fn count_right(writer: &mut Writer, reader: &mut Reader, calls: &[Call]) -> usize
    requires size { (writer.old.size ≡ 1) × (reader.old.size ≡ 1) }
    requires new { writer.old.knows ≡ new_writing }
    requires few { length calls.now ≤ 100 }
    ensures ring { (writer.new.ring ≡ writer.old.ring) × (reader.new.ring ≡ reader.old.ring) }
    ensures size { (writer.new.size ≡ 1) × (reader.new.size ≡ 1) }
{
    for at in 0..calls.len() {
        if !is_right(writer, reader, &calls[at]) {
            return at;
        }
    }
    calls.len()
}

// Three offers to a ring of two slots: the third is lost, and the mark of a later scan says so.
#[test]
fn ring_of_two(rt: HostRuntime) -> Result<(), Fail> {
    let (mut writer, mut reader) = ring(rt.alloc(), 2, 1)?;
    let calls = [
        Call::Offer(b'a', Offered::Taken),
        Call::Offer(b'b', Offered::Taken),
        Call::Offer(b'c', Offered::Lost),
        Call::Take(b'a', mark(0, 0, 0)),
        Call::Offer(b'd', Offered::Taken),
        Call::Take(b'b', mark(1, 1, 0)),
        Call::Take(b'd', mark(2, 3, 1)),
        Call::TakeNone,
    ];
    let right = count_right(&mut writer, &mut reader, &calls);
    let receipt = give_back(writer, reader);
    assert_eq!(rt; right, calls.len());
    assert_eq!(rt; (receipt.received, receipt.left, receipt.lost), (3, 0, 1));
    Ok(())
}

// The one slot of a ring is used again.
#[test]
fn ring_of_one(rt: HostRuntime) -> Result<(), Fail> {
    let (mut writer, mut reader) = ring(rt.alloc(), 1, 1)?;
    let calls = [
        Call::Offer(b'a', Offered::Taken),
        Call::Offer(b'b', Offered::Lost),
        Call::Take(b'a', mark(0, 0, 0)),
        Call::Offer(b'c', Offered::Taken),
    ];
    let right = count_right(&mut writer, &mut reader, &calls);
    let left = reader.waiting();
    let receipt = give_back(writer, reader);
    assert_eq!(rt; (right, left), (calls.len(), 1));
    assert_eq!(rt; (receipt.received, receipt.left, receipt.lost), (1, 1, 1));
    Ok(())
}

// A scan that was taken, one that waits, and one that was lost, at a ring of two slots.
fn filling() -> [Call; 4] {
    [
        Call::Offer(b'a', Offered::Taken),
        Call::Offer(b'b', Offered::Taken),
        Call::Offer(b'c', Offered::Lost),
        Call::Take(b'a', mark(0, 0, 0)),
    ]
}

// What the reader learns while the ring is open, and once it is closed.
#[test]
fn closed_ring(rt: HostRuntime) -> Result<(), Fail> {
    let (mut writer, mut reader) = ring(rt.alloc(), 2, 1)?;
    assert_eq!(rt; count_right(&mut writer, &mut reader, &filling()), 4);
    assert_eq!(rt; (reader.closed(), reader.lost()), (false, None));
    writer.close();
    assert_eq!(rt; (reader.closed(), reader.lost()), (true, Some(1)));
    let (ended, _) = reader.end();
    assert_eq!(rt; ended, Ended::Whole(1));
    Ok(())
}

// A reader that ends before the writer does.
#[test]
fn ring_that_is_cut(rt: HostRuntime) -> Result<(), Fail> {
    let (mut writer, mut reader) = ring(rt.alloc(), 2, 1)?;
    assert_eq!(rt; count_right(&mut writer, &mut reader, &filling()), 4);
    let (ended, _) = reader.end();
    assert_eq!(rt; (ended, writer.lost()), (Ended::Cut(1), 1));
    Ok(())
}

// A reader that ends beside what its writer left counts the scans that are left.
#[test]
fn ring_that_ends_beside_its_writer(rt: HostRuntime) -> Result<(), Fail> {
    let (mut writer, mut reader) = ring(rt.alloc(), 2, 1)?;
    assert_eq!(rt; count_right(&mut writer, &mut reader, &filling()), 4);
    assert_eq!(rt; reader.end_beside(writer.close()), 1);
    Ok(())
}

// Offers a scan of two bytes.
fn offer_two(writer: &mut Writer, scan: &[u8; 2])
    requires size { writer.old.size ≡ 2 }
    requires fewer { length (accepted writer.old.knows.offers) + lost_in writer.old.knows.offers < 2 ^ 64 - 1 }
    ensures ring { writer.new.ring ≡ writer.old.ring }
    ensures size { writer.new.size ≡ 2 }
    ensures most { length (accepted writer.new.knows.offers) + lost_in writer.new.knows.offers ≤ length (accepted writer.old.knows.offers)
        + lost_in writer.old.knows.offers + 1 }
{
    writer.offer(scan);
}

// Takes scans of two bytes, up to `most` of them.
fn take_run(reader: &mut Reader, most: u32, out: &mut Vec<u8>) -> u32
    requires size { reader.old.size ≡ 2 }
    requires room { length out.old.items + most * 2 ≤ vec_capacity out.old }
    ensures ring { reader.new.ring ≡ reader.old.ring }
    ensures size { reader.new.size ≡ 2 }
    ensures sized { length out.new.items ≡ length out.old.items + result * 2 }
    ensures room { vec_capacity out.old ≤ vec_capacity out.new }
{
    reader.take_scans(most, out)
}

// Offers three scans of two bytes.
fn offer_three(writer: &mut Writer, scans: [&[u8; 2]; 3])
    requires size { writer.old.size ≡ 2 }
    requires fewer { length (accepted writer.old.knows.offers) + lost_in writer.old.knows.offers < 2 ^ 64 - 3 }
    ensures ring { writer.new.ring ≡ writer.old.ring }
    ensures size { writer.new.size ≡ 2 }
    ensures most { length (accepted writer.new.knows.offers) + lost_in writer.new.knows.offers ≤ length (accepted writer.old.knows.offers)
        + lost_in writer.old.knows.offers + 3 }
{
    let [first, second, third] = scans;
    offer_two(writer, first);
    offer_two(writer, second);
    offer_two(writer, third);
}

// Takes one scan of two bytes, if there is one.
fn take_two(reader: &mut Reader) -> (Option<Mark>, [u8; 2])
    requires { reader.old.size ≡ 2 }
    ensures { reader.new.ring ≡ reader.old.ring }
{
    let mut scan = [0; 2];
    let mark = reader.take(&mut scan);
    (mark, scan)
}

// Offers seven scans to a new ring of three slots, and takes those that fit in runs: two go round the ring's end, and one is
// cut by the number wanted.
fn play_runs(rt: &impl Abort, writer: &mut Writer, reader: &mut Reader, out: &mut Vec<u8>)
    requires size { (writer.old.size ≡ 2) × (reader.old.size ≡ 2) }
    requires new { writer.old.knows ≡ new_writing }
    requires room { length out.old.items + 16 ≤ vec_capacity out.old }
    ensures ring { (writer.new.ring ≡ writer.old.ring) × (reader.new.ring ≡ reader.old.ring) }
{
    offer_three(writer, [b"ab", b"cd", b"ef"]);
    assert_eq!(rt; take_run(reader, 2, out), 2);
    assert!(rt; *out.as_slice() == *b"abcd".as_slice());
    offer_three(writer, [b"gh", b"ij", b"kl"]);
    assert_eq!(rt; (reader.waiting(), writer.lost()), (3, 1));
    assert_eq!(rt; take_run(reader, 4, out), 3);
    assert!(rt; *out.as_slice() == *b"abcdefghij".as_slice());
    assert_eq!(rt; take_run(reader, 3, out), 0);
    offer_two(writer, b"mn");
    assert_eq!(rt; take_two(reader), (Some(mark(5, 6, 1)), *b"mn"));
}

#[test]
fn runs_keep_their_order(rt: HostRuntime) -> Result<(), Fail> {
    let mut out = Vec::with_capacity(rt.alloc(), 16)?;
    let (mut writer, mut reader) = ring(rt.alloc(), 3, 2)?;
    play_runs(&rt, &mut writer, &mut reader, &mut out);
    let receipt = give_back(writer, reader);
    assert_eq!(rt; (receipt.received, receipt.left, receipt.lost), (6, 0, 1));
    Ok(())
}

// Offers the numbers below `count`, in two bytes each.
fn offer_numbers(writer: &mut Writer, count: u16)
    requires size { writer.old.size ≡ 2 }
    requires new { writer.old.knows ≡ new_writing }
    ensures { writer.new.ring ≡ writer.old.ring }
{
    for number in 0..count {
        writer.offer(&number.to_be_bytes());
    }
}

// Tries to take a scan `turns` times, and returns how many came; `None` if a scan isn't its mark's number, or if a place is
// left out.
fn take_numbers(reader: &mut Reader, turns: u32) -> Option<u64>
    requires { reader.old.size ≡ 2 }
    ensures { reader.new.ring ≡ reader.old.ring }
{
    let mut scan = [0; 2];
    let mut next = 0;
    let mut right = true;
    for _ in 0..turns {
        if let Some(mark) = reader.take(&mut scan) {
            if mark.seq != next || mark.number != u16::from_be_bytes(scan) as u64 {
                right = false;
            }
            next = mark.seq.saturating_add(1);
        }
    }
    if right { Some(next) } else { None }
}

#[test]
fn two_threads_keep_the_order(rt: HostRuntime) -> Result<(), Fail> {
    let (mut writer, mut reader) = ring(rt.alloc(), 64, 2)?;
    let (_, found) = thread::join_mut(
        &rt,
        &mut || offer_numbers(&mut writer, 10_000),
        &mut || take_numbers(&mut reader, 200_000),
    );
    let Some(found) = found else {
        panic!(rt; "a scan was not its mark's number, or its place was wrong")
    };
    let left = reader.waiting();
    let receipt = give_back(writer, reader);
    assert_eq!(rt; (receipt.received, receipt.left), (found, left));
    assert!(rt; found <= 10_000 && left <= 10_000 && receipt.lost <= 10_000);
    assert_eq!(rt; found + left + receipt.lost, 10_000);
    Ok(())
}
