//! An input that comes in pieces, how much of it is taken, and how much is left.

ghost use Rattle.std.specs.Prelude.{◌≤◌};

use crate::tests::playing::{check_faults, joined, played, push_many, sink};
use crate::tests::{masks, queues, triggers};
use iio_io::{MemSource, read_whole};
use std::alloc::Global;
use std::process::Abort;
use std::test::Fail;

// Checks a row whose input comes in pieces of that size.
fn check_pieces(
    rt: &impl Abort,
    alloc: Global,
    row: &(&str, &str, &str, &str),
) -> Result<(), Fail> {
    let (_, description, script, printed) = *row;
    let text = joined(alloc, &[description, "%%\n", script])?;
    let printed = printed.as_bytes();
    check_faults(rt, alloc, &text, 1, &[], &[], printed, 0)?;
    check_faults(rt, alloc, &text, 2, &[], &[], printed, 0)?;
    check_faults(rt, alloc, &text, 3, &[], &[], printed, 0)?;
    check_faults(rt, alloc, &text, 65_535, &[], &[], printed, 0)?;
    check_faults(rt, alloc, &text, 65_536, &[], &[], printed, 0)
}

// The answers are the same for all pieces.
#[test]
fn pieces_make_no_difference(rt: HostRuntime) -> Result<(), Fail> {
    for rows in [masks::ROWS, queues::ROWS, triggers::ROWS] {
        for row in rows {
            check_pieces(&rt, rt.alloc(), row)?;
        }
    }
    Ok(())
}

// Makes a line, a line that is refused, and 200,000 line ends.
fn refused_early(alloc: Global) -> Result<Vec<u8>, Fail> {
    let mut text = joined(alloc, &["%%\nfire\n"])?;
    push_many(alloc, &mut text, b'\n', 200_000)?;
    Ok(text)
}

// Checks how much of such an input is taken from a source that gives that many bytes per read.
fn check_left(rt: &impl Abort, alloc: Global, piece: usize, taken: usize) -> Result<(), Fail>
    requires { 1 ≤ piece }
{
    let text = refused_early(alloc)?;
    let len = text.len();
    let mut input = MemSource::new(text, piece, Vec::new(alloc));
    let ended = ended_of(alloc, &mut input)?;
    let left = read_whole(alloc, &mut input, 1_000_000)?.len();
    assert_eq!(rt; ended.0.as_slice(), b"refused 2 count\n".as_slice());
    assert_eq!(rt; (ended.1, len.checked_sub(left)), (1, Some(taken)));
    Ok(())
}

// Returns what is printed for an input, and the exit code of the run.
fn ended_of(alloc: Global, input: &mut MemSource) -> Result<(Vec<u8>, u8), Fail> {
    let mut output = sink(alloc, 100, &[])?;
    let status = played(alloc, input, &mut output)?;
    Ok((output.written().to_vec(alloc)?, status.code()))
}

// A refused line leaves what comes after it in the source, except for the piece that it came in.
#[test]
fn refused_lines_leave_the_rest(rt: HostRuntime) -> Result<(), Fail> {
    check_left(&rt, rt.alloc(), 1, 8)?;
    check_left(&rt, rt.alloc(), 10, 10)?;
    check_left(&rt, rt.alloc(), 100_000, 65_536)
}

// Checks that many LFs, and whether they are too many.
fn check_line_ends(
    rt: &impl Abort,
    alloc: Global,
    count: usize,
    printed: &[u8],
    status: u8,
) -> Result<(), Fail> {
    let text = vec![in alloc; b'\n'; count]?;
    let mut input = MemSource::new(text, 65_536, Vec::new(alloc));
    let ended = ended_of(alloc, &mut input)?;
    let right = ended.0.as_slice() == printed && ended.1 == status;
    assert!(rt; right, "{count} line ends");
    Ok(())
}

#[test]
fn most_line_ends(rt: HostRuntime) -> Result<(), Fail> {
    check_line_ends(&rt, rt.alloc(), 67_108_864, b"", 0)
}

#[test]
fn too_many_line_ends(rt: HostRuntime) -> Result<(), Fail> {
    check_line_ends(&rt, rt.alloc(), 67_108_865, b"too long\n", 6)
}
