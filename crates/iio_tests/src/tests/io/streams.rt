//! The limit of what is read, the standard streams, signals, and messages.

ghost use Rattle.std.specs.Prelude.{◌≤◌, IfOk};

use iio_io::{
    Failed, MemSource, ReadEnd, Sink, Source, StdSink, StdSource, read_whole, write_whole,
};
use std::alloc::Global;
use std::io;
use std::io::{ErrorKind, Read, Write};
use std::test::Fail;

/// What the calls of a stream return, in this order: `None` is a signal that cut the call short, `Some(0)` a failure, another
/// number that many bytes. After these each call fails.
type Answers = [Option<usize>; 4];

/// A stream whose calls return what is listed.
#[derive(Drop)]
struct Listed {
    answers: Answers,
    calls: usize,
}

impl Listed {
    fn answer(&mut self, room: usize) -> io::Result<usize>
        ensures { IfOk result (λ n. n ≤ room) }
    {
        let place = self.calls;
        self.calls = place.saturating_add(1);
        match self.answers.get(place) {
            Some(Some(0)) | None => Err(io::Error::from(ErrorKind::ConnectionReset)),
            Some(Some(count)) => Ok((*count).min(room)),
            Some(None) => Err(io::Error::from(ErrorKind::Interrupted)),
        }
    }
}

impl Read for Listed {
    fn read(&mut self, out: &mut [u8]) -> io::Result<usize> {
        self.answer(out.len())
    }
}

impl Write for Listed {
    fn write(&mut self, bytes: &[u8]) -> io::Result<usize> {
        self.answer(bytes.len())
    }

    fn flush(&mut self) -> io::Result<()> {
        Ok(())
    }
}

// How many bytes a whole read takes of seven, and how many a second one takes then.
fn read_two(alloc: Global, limit: u32) -> Result<(usize, usize), Fail> {
    let mut source = MemSource::new(b"abcdefg".to_vec(alloc)?, 1, Vec::new(alloc));
    let taken = read_whole(alloc, &mut source, limit as usize)?.len();
    let left = read_whole(alloc, &mut source, 100)?.len();
    Ok((taken, left))
}

#[test]
fn reading_whole_takes_one_byte_more_than_the_limit(rt: HostRuntime) -> Result<(), Fail> {
    for (limit, taken) in [
        (0, (1usize, 6usize)),
        (3, (4, 3)),
        (6, (7, 0)),
        (7, (7, 0)),
        (8, (7, 0)),
    ] {
        assert_eq!(rt; read_two(rt.alloc(), limit)?, taken, "limit {limit}");
    }
    Ok(())
}

#[test]
fn standard_input_and_output_answer(rt: HostRuntime) {
    let mut sink = StdSink::new(rt.stdout());
    let written = (
        write_whole(&mut sink, b"written\n"),
        sink.write(b""),
        sink.faults(),
    );
    assert_eq!(rt; written, (Ok(()), Ok(0), 0));
    let mut source = StdSource::new(rt.stdin());
    let mut out = [0u8; 16];
    let answer = source.read(&mut out);
    assert_eq!(rt; answer.is_err(), source.faults() == 1);
}

type Count = Result<usize, Failed>;

// What two reads of such a stream return, and the number of faults.
fn two_reads(answers: Answers) -> (Count, Count, u64) {
    let mut out = [0u8; 8];
    let mut source = StdSource::new(Listed { answers, calls: 0 });
    let first = source.read(&mut out);
    let second = source.read(&mut out);
    (first, second, source.faults())
}

// What two writes of such a stream return, and the number of faults.
fn two_writes(answers: Answers) -> (Count, Count, u64) {
    let mut sink = StdSink::new(Listed { answers, calls: 0 });
    let first = sink.write(&[0u8; 8]);
    let second = sink.write(&[0u8; 8]);
    (first, second, sink.faults())
}

// The answers of a stream, what two calls return of them, and the number of faults: a call that a signal cut short is made
// again, and one that failed isn't.
#[test]
fn only_a_signal_is_tried_again(rt: HostRuntime) {
    for (answers, given) in [
        ([Some(2), Some(5), None, None], (Ok(2), Ok(5), 0)),
        ([None, Some(3), Some(1), None], (Ok(3), Ok(1), 0)),
        ([None, None, Some(4), Some(6)], (Ok(4), Ok(6), 0)),
        ([Some(0), Some(2), None, None], (Err(Failed), Ok(2), 1)),
        ([None, Some(0), None, Some(7)], (Err(Failed), Ok(7), 1)),
        ([Some(1), None, None, None], (Ok(1), Err(Failed), 1)),
    ] {
        assert_eq!(rt; two_reads(answers), given, "read of {answers:?}");
        assert_eq!(rt; two_writes(answers), given, "write of {answers:?}");
    }
}

#[test]
fn failures_print_what_they_are(rt: HostRuntime) -> Result<(), Fail> {
    let texts = format!(in rt.alloc(); "{}; {}; {}", Failed, ReadEnd::Failed, ReadEnd::Mem)?;
    assert_eq!(rt;
        texts.as_str(),
        "a call of the outside failed; a read failed; out of memory"
    );
    Ok(())
}
