//! The largest queues. Everything else is played in `iio_script_tests`.
ghost use Rattle.std.specs.Prelude.{◌≡◌, ◌+◌, ◌*◌, ◌^◌, ◌<◌, ◌≤◌, length, vec_capacity};

use iio_kfifo::{Kfifo, Offered, Tail};
use std::process::Abort;
use std::test::Fail;

// Offers a scan of 64 bytes that many times.
fn offer_many(queue: &mut Kfifo, count: u32)
    requires size { queue.old.size ≡ 64 }
    requires few { queue.old.taken + queue.old.lost + count < 2 ^ 64 }
    ensures size { queue.new.size ≡ 64 }
    ensures offered { queue.new.taken + queue.new.lost ≡ queue.old.taken + queue.old.lost + count }
{
    let scan = [7u8; 64];
    for _ in 0..count {
        queue.offer(&scan);
    }
}

// Fills a new queue of 65,536 scans, with one more scan that is lost, and takes all of them, from its second slot on.
fn fill_and_empty(rt: &impl Abort, queue: &mut Kfifo, all: &mut Vec<u8>)
    requires size { queue.old.size ≡ 64 }
    requires new { queue.old.taken + queue.old.lost ≡ 0 }
    requires room { length all.old.items + 65_536 * 64 ≤ vec_capacity all.old }
{
    offer_many(queue, 65_537);
    assert_eq!(rt; (queue.waiting(), queue.lost()), (65_536, 1));
    let mut scan = [0u8; 64];
    assert!(rt; queue.take(&mut scan));
    offer_many(queue, 1);
    assert_eq!(rt; queue.take_scans(65_536, all), 65_536);
    assert_eq!(rt; (queue.waiting(), all.len()), (0, 4_194_304));
}

// The most scans that a queue may have.
#[test]
fn a_queue_of_the_most_scans(rt: HostRuntime) -> Result<(), Fail> {
    let mut queue = Kfifo::new(rt.alloc(), 65_536, 64)?;
    let mut all = Vec::with_capacity(rt.alloc(), 4_194_304)?;
    fill_and_empty(&rt, &mut queue, &mut all);
    Ok(())
}

// The most bytes of a scan.
#[test]
fn a_queue_of_the_longest_scan(rt: HostRuntime) -> Result<(), Fail> {
    let mut queue = Kfifo::new(rt.alloc(), 1, 4_194_304)?;
    let mut scan = vec![in rt.alloc(); 5u8; 4_194_304]?;
    assert_eq!(rt; queue.offer(&scan), Offered::Taken);
    assert!(rt; queue.take(&mut scan));
    assert_eq!(rt; queue.waiting(), 0);
    Ok(())
}
