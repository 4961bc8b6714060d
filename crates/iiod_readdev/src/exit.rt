//! The words that begin with `readdev`, with the program's drivers, and the code that the process ends with.

ghost use Rattle.std.specs.Prelude.{◌≡◌, ◌↔◌, [], IsTrue};
ghost use Rattle.std.specs.Process.{exit_status};
ghost use Rattle.iiod_client.specs.Point.{point};
ghost use Rattle.iiod_readdev.specs.Exit.{EndsWithCode};
ghost use Rattle.iiod_readdev.specs.ReadStatus.{read_code};
ghost use Rattle.iiod_readdev.specs.Words.{BeginsReaddev, IsNoReaddev};

use crate::read_status::ReadStatus;
use crate::reading::readdev;
use iio_io::{Dial, Sink, Source};
use std::alloc::Global;
use std::process::ExitCode;

// The number of drivers that a description may use: as many as the program has.
const DRIVERS: u32 = 4;

/// Whether the first word is `readdev`.
pub fn is_readdev(words: &[String]) -> bool
    ensures { IsTrue result ↔ BeginsReaddev words.now }
{
    match words {
        [word, ..] => word.as_str() == "readdev",
        [] => false,
    }
}

// The exit code of a status.
fn exit_code(status: ReadStatus) -> ExitCode
    ensures { exit_status result ≡ read_code status }
{
    ExitCode::from(status.code())
}

/// Does what [`readdev`](crate::readdev) does, with a description that may use four drivers, and returns the exit code of its
/// status.
pub fn exit_of<S: Source, K: Sink, L: Dial>(
    alloc: Global,
    words: &[String],
    input: &mut S,
    output: &mut K,
    link: &mut L,
) -> ExitCode
    ensures code { EndsWithCode 4 words.now (exit_status result)
        (record {
          input = S.left input.old;
          over = point (L.left link.old) [] (L.written link.old) (K.written output.old);
          input_faults = S.faults input.old;
          link_faults = L.faults link.old;
          output_faults = K.faults output.old;
        })
        (record {
          input = S.left input.new;
          over = point (L.left link.new) [] (L.written link.new) (K.written output.new);
          input_faults = S.faults input.new;
          link_faults = L.faults link.new;
          output_faults = K.faults output.new;
        })
        output.old output.new }
    ensures unread { IsNoReaddev words.now → input.new ≡ input.old }
    ensures undialled { IsNoReaddev words.now → link.new ≡ link.old }
{
    exit_code(readdev(alloc, words, DRIVERS, input, output, link))
}
