//! Links, doors, tickers and gates that a test can look into.

ghost use Rattle.std.specs.Prelude.{◌≡◌, ◌≤◌, None, length};

use crate::tests::TURNS;
use crate::tests::playback::{ROW, ROWS};
use iio_io::{ClockTicker, Door, Failed, Gate, Link, ListDoor, MemLink, Point, Ticker};
use iiod_hub::Hub;
use std::alloc::Global;
use std::sync::Wait;
use std::sync::atomic::{AtomicBool, AtomicU32, Ordering};
use std::thread;
use std::time::{Clock, Duration, Instant};

/// Waits up to `TURNS` turns for a flag to be set. Returns false if it never was.
pub fn is_set_in_time<R: Clock>(rt: &R, flag: &AtomicBool) -> bool {
    for _ in 0..TURNS {
        if flag.load(Ordering::SeqCst) {
            return true;
        }
        thread::sleep(rt, Duration::from_millis(1));
    }
    false
}

/// A link over which texts come one after another. Before the text of number `fires_at` the trigger is fired twice.
#[derive(Drop)]
pub struct Texts<'a, R> {
    pub rt: &'a R,
    pub alloc: Global,
    pub hub: &'a Hub,
    pub texts: &'a [&'a [u8]],
    pub fires_at: usize,
    pub next: usize,
    pub sent: MemLink,
}

// Polls the first trigger, and handles its entries.
fn fire<R: Wait>(rt: &R, alloc: Global, hub: &Hub, t: i64) {
    hub.poll(rt, alloc, 0, t);
    hub.sweep(rt, alloc, 0);
}

// Copies as much of the beginning of a text as there is room for, and returns its length.
fn copy_front(text: &[u8], out: &mut [u8]) -> usize
    ensures fits { result ≤ length out.new }
    ensures same { length out.new ≡ length out.old }
{
    let n = text.len().min(out.len());
    out[..n].copy_from_slice(&text[..n]);
    n
}

impl<'a, R: Wait> Link for Texts<'a, R> {
    ghost use Rattle.std.specs.Prelude.{None};

    ghost left = { λ l. None };

    ghost written = { λ l. None };

    ghost faults = { λ l. ⟦<MemLink as Link>⟧.faults l.sent };

    fn recv(&mut self, out: &mut [u8]) -> Result<usize, Failed> {
        if self.next == self.fires_at {
            fire(self.rt, self.alloc, self.hub, 1000);
            fire(self.rt, self.alloc, self.hub, 2000);
        }
        if self.next >= self.texts.len() {
            return Ok(0);
        }
        let text = self.texts[self.next];
        self.next += 1;
        Ok(copy_front(text, out))
    }

    fn send(&mut self, bytes: &[u8]) -> Result<usize, Failed> {
        self.sent.send(bytes)
    }
}

/// A link that fires the trigger twice before each receive.
#[derive(Drop)]
pub struct Firing<'a, R, L> {
    pub rt: &'a R,
    pub alloc: Global,
    pub hub: &'a Hub,
    pub moment: i64,
    pub link: L,
}

impl<'a, R: Wait, L: Link> Link for Firing<'a, R, L> {
    ghost use Rattle.std.specs.Prelude.{None};

    ghost left = { λ l. None };

    ghost written = { λ l. None };

    ghost faults = { λ l. L.faults l.link };

    fn recv(&mut self, out: &mut [u8]) -> Result<usize, Failed> {
        let first = self.moment;
        self.moment = first.saturating_add(2000);
        fire(self.rt, self.alloc, self.hub, first);
        fire(self.rt, self.alloc, self.hub, first.saturating_add(1000));
        self.link.recv(out)
    }

    fn send(&mut self, bytes: &[u8]) -> Result<usize, Failed> {
        self.link.send(bytes)
    }
}

// Whether an answer is a number other than 0, with at most three digits.
fn tells_of_scans(answer: &[u8]) -> bool {
    (answer.starts_with(b"1\n") && answer != b"1\n0\n".as_slice())
        || answer.starts_with(b"2\n")
        || answer.starts_with(b"3\n")
}

/// A link that opens the device and then asks how many scans wait, until there is one, or at most `TURNS` times.
#[derive(Drop)]
pub struct Asking<'a, R> {
    pub rt: R,
    pub turn: u32,
    pub found: &'a AtomicBool,
    pub sent: MemLink,
}

impl<'a, R: Clock> Link for Asking<'a, R> {
    ghost use Rattle.std.specs.Prelude.{None};

    ghost left = { λ l. None };

    ghost written = { λ l. None };

    ghost faults = { λ l. ⟦<MemLink as Link>⟧.faults l.sent };

    fn recv(&mut self, out: &mut [u8]) -> Result<usize, Failed> {
        let turn = self.turn;
        self.turn = turn.saturating_add(1);
        if turn == 0 {
            return Ok(copy_front(b"OPEN adc0 4 00000009\n", out));
        }
        if self.found.load(Ordering::SeqCst) || turn > TURNS {
            return Ok(0);
        }
        thread::sleep(&self.rt, Duration::from_millis(1));
        Ok(copy_front(b"READ adc0 BUFFER data_available\n", out))
    }

    fn send(&mut self, bytes: &[u8]) -> Result<usize, Failed> {
        if tells_of_scans(bytes) {
            self.found.store(true, Ordering::SeqCst);
        }
        self.sent.send(bytes)
    }
}

/// The answer to a READBUF of one scan of voltage0 and accel_x.
pub const BLOCK: &[u8] = b"4\n00000005\n\x10\0\xff\xfd";

/// A link that opens the device, reads one scan as soon as there is one, and closes the device; it does this `left` times, or
/// gives up after `TURNS` pieces. It sets `ended` if it came to its end, and `wrong` if a scan was not that of the row.
#[derive(Drop)]
pub struct Rounds<'a, R> {
    pub rt: R,
    pub left: u32,
    pub turn: u32,
    pub opened: bool,
    pub available: bool,
    pub ended: &'a AtomicBool,
    pub wrong: &'a AtomicBool,
    pub sent: MemLink,
}

impl<'a, R: Clock> Link for Rounds<'a, R> {
    ghost use Rattle.std.specs.Prelude.{None};

    ghost left = { λ l. None };

    ghost written = { λ l. None };

    ghost faults = { λ l. ⟦<MemLink as Link>⟧.faults l.sent };

    fn recv(&mut self, out: &mut [u8]) -> Result<usize, Failed> {
        if self.left == 0 || self.turn > TURNS {
            self.ended.store(self.left == 0, Ordering::SeqCst);
            return Ok(0);
        }
        self.turn = self.turn.saturating_add(1);
        if !self.opened {
            self.opened = true;
            return Ok(copy_front(b"OPEN adc0 4 00000005\n", out));
        }
        if !self.available {
            thread::sleep(&self.rt, Duration::from_millis(1));
            return Ok(copy_front(b"READ adc0 BUFFER data_available\n", out));
        }
        self.opened = false;
        self.available = false;
        self.left -= 1;
        Ok(copy_front(b"READBUF adc0 4\nCLOSE adc0\n", out))
    }

    fn send(&mut self, bytes: &[u8]) -> Result<usize, Failed> {
        if tells_of_scans(bytes) {
            self.available = true;
        }
        if bytes.starts_with(b"4\n") && bytes != BLOCK {
            self.wrong.store(true, Ordering::SeqCst);
        }
        self.sent.send(bytes)
    }
}

/// A ticker that returns one moment after another, a tenth of a millisecond apart, up to `TURNS` times a hundred.
#[derive(Drop)]
pub struct Counting<R> {
    pub rt: R,
    pub turn: u32,
}

impl<R: Clock> Ticker for Counting<R> {
    ghost use Rattle.std.specs.Prelude.{None};

    ghost moments = { λ t. None };

    fn next(&mut self) -> Option<i64> {
        if self.turn >= TURNS * 100 {
            return None;
        }
        self.turn += 1;
        thread::sleep(&self.rt, Duration::from_micros(100));
        Some(self.turn as i64)
    }
}

/// A gate that holds connection 1 when it is heard, until connection 2 is answered.
#[derive(Drop)]
pub struct Second<R> {
    pub rt: R,
    pub answered: AtomicBool,
    pub in_time: AtomicBool,
}

impl<R: Clock> Gate for Second<R> {
    fn pass(&self, point: Point) {
        match point {
            Point::Heard(1) => {
                let in_time = is_set_in_time(&self.rt, &self.answered);
                self.in_time.store(in_time, Ordering::SeqCst);
            }
            Point::Answered(2) => self.answered.store(true, Ordering::SeqCst),
            _ => {}
        }
    }
}

/// A gate that sets a flag when a connection is answered.
#[derive(Drop)]
pub struct Answered<'a> {
    pub flag: &'a AtomicBool,
}

impl<'a> Gate for Answered<'a> {
    fn pass(&self, point: Point) {
        if let Point::Answered(_) = point {
            self.flag.store(true, Ordering::SeqCst);
        }
    }
}

/// A gate that counts the connections that are heard, and holds each until the door has ended.
#[derive(Drop)]
pub struct Crowd<'a, R> {
    pub rt: R,
    pub ended: &'a AtomicBool,
    pub heard: AtomicU32,
}

impl<'a, R: Clock> Gate for Crowd<'a, R> {
    fn pass(&self, point: Point) {
        if let Point::Heard(_) = point {
            self.heard.fetch_add(1, Ordering::SeqCst);
            is_set_in_time(&self.rt, self.ended);
        }
    }
}

/// A door that sets a flag when it has ended.
#[derive(Drop)]
pub struct Ending<'a, D> {
    pub door: D,
    pub ended: &'a AtomicBool,
}

impl<'a, D: Door> Door for Ending<'a, D> {
    ghost left = { λ d. D.left d.door };

    ghost faults = { λ d. D.faults d.door };

    type L = D::L;

    fn next(&mut self) -> Result<Option<D::L>, Failed> {
        match self.door.next() {
            Ok(None) => {
                self.ended.store(true, Ordering::SeqCst);
                Ok(None)
            }
            given => given,
        }
    }
}

/// A ticker of one moment, which comes when a flag is set.
#[derive(Drop)]
pub struct Once<'a, R> {
    pub rt: R,
    pub flag: &'a AtomicBool,
    pub given: bool,
}

impl<'a, R: Clock> Ticker for Once<'a, R> {
    ghost use Rattle.std.specs.Prelude.{None};

    ghost moments = { λ t. None };

    fn next(&mut self) -> Option<i64> {
        if self.given || !is_set_in_time(&self.rt, self.flag) {
            return None;
        }
        self.given = true;
        Some(1000)
    }
}

/// A door with one connection. When it is asked for another, it waits for a flag, unplugs the hub's first device, and ends.
#[derive(Drop)]
pub struct Unplugging<'a, R> {
    pub rt: R,
    pub alloc: Global,
    pub hub: &'a Hub,
    pub opened: &'a AtomicBool,
    pub unplugged: bool,
    pub door: ListDoor<MemLink>,
}

impl<'a, R: Clock + Wait> Door for Unplugging<'a, R> {
    ghost left = { λ d. ⟦<ListDoor<MemLink> as Door>⟧.left d.door };

    ghost faults = { λ d. ⟦<ListDoor<MemLink> as Door>⟧.faults d.door };

    type L = MemLink;

    fn next(&mut self) -> Result<Option<MemLink>, Failed> {
        let given = self.door.next()?;
        if given.is_none() && self.hub.front.count() > 0 && is_set_in_time(&self.rt, self.opened) {
            self.unplugged = self.hub.unplug(&self.rt, self.alloc, 0);
        }
        Ok(given)
    }
}

/// A ticker of one tick per millisecond, by the clock, that begins when a flag is set.
#[derive(Drop)]
pub struct Starting<'a, 'b, R> {
    pub rt: R,
    pub opened: &'a AtomicBool,
    pub stop: &'b AtomicBool,
    pub ticker: Option<ClockTicker<'b, R>>,
}

impl<'a, 'b, R: Clock + Copy> Ticker for Starting<'a, 'b, R> {
    ghost use Rattle.std.specs.Prelude.{None};

    ghost moments = { λ t. None };

    fn next(&mut self) -> Option<i64> {
        if self.ticker.is_none() && is_set_in_time(&self.rt, self.opened) {
            let start = Instant::now(&self.rt).ok();
            self.ticker = Some(ClockTicker::new(self.rt, self.stop, start, 1));
        }
        self.ticker.as_mut()?.next()
    }
}

// Returns the value and the moment of the scan in a block answer, if it has one.
fn played_scan(answer: &[u8]) -> Option<(i64, i64)> {
    let scan = answer.strip_prefix(b"16\n00000003\n")?;
    if scan.len() != 16 {
        return None;
    }
    let value = u16::from_le_bytes([scan[0], scan[1]]) >> 4;
    let mut moment = [0; 8];
    moment.copy_from_slice(&scan[8..]);
    Some((value as i64, i64::from_le_bytes(moment)))
}

/// A link that opens the device, reads `left` scans one by one, each as soon as there is one, and then stops the ticker; or
/// gives up after `TURNS` pieces. It counts the scans that are of the row of their moment, if this is a whole millisecond and
/// later than the moment before.
#[derive(Drop)]
pub struct Playing<'a, R> {
    pub rt: R,
    pub left: u32,
    pub turn: u32,
    pub available: bool,
    pub last: i64,
    pub opened: &'a AtomicBool,
    pub stop: &'a AtomicBool,
    pub right: &'a AtomicU32,
    pub sent: MemLink,
}

impl<'a, R> Playing<'a, R> {
    // Looks at the scan in an answer, if it has one.
    fn look(&mut self, answer: &[u8])
        ensures { self.new.sent ≡ self.old.sent }
    {
        let Some((value, moment)) = played_scan(answer) else {
            return;
        };
        let is_next = moment > self.last && moment % 1_000_000 == 0;
        if is_next && value == (moment / ROW).min(ROWS - 1) {
            self.right.fetch_add(1, Ordering::SeqCst);
        }
        self.last = moment;
    }
}

impl<'a, R: Clock> Link for Playing<'a, R> {
    ghost use Rattle.std.specs.Prelude.{None};

    ghost left = { λ l. None };

    ghost written = { λ l. None };

    ghost faults = { λ l. ⟦<MemLink as Link>⟧.faults l.sent };

    fn recv(&mut self, out: &mut [u8]) -> Result<usize, Failed> {
        let turn = self.turn;
        self.turn = turn.saturating_add(1);
        if turn == 0 {
            return Ok(copy_front(b"OPEN adc0 256 00000003\n", out));
        }
        self.opened.store(true, Ordering::SeqCst);
        if self.left == 0 || turn > TURNS {
            self.stop.store(true, Ordering::SeqCst);
            return Ok(0);
        }
        if !self.available {
            thread::sleep(&self.rt, Duration::from_millis(1));
            return Ok(copy_front(b"READ adc0 BUFFER data_available\n", out));
        }
        self.available = false;
        self.left -= 1;
        Ok(copy_front(b"READBUF adc0 16\n", out))
    }

    fn send(&mut self, bytes: &[u8]) -> Result<usize, Failed> {
        if tells_of_scans(bytes) {
            self.available = true;
        }
        self.look(bytes);
        self.sent.send(bytes)
    }
}
