//! The line that names the program's commands.

ghost use Rattle.std.specs.Prelude.{◌≡◌, ◌≤◌, None, IfSome, IfNone};
ghost use Rattle.iio_base.specs.Faults.{Rose};
ghost use Rattle.iiod_serve.specs.Usage.{IsUsage, PrintsUsage};

use iio_io::{Sink, write_whole};
use iio_script::Status;

const USAGE: &[u8] = b"usage: play | solo NAME | layout DEVICE MASK | gen N\n";

/// Prints the line that names the commands, for words that aren't a command.
pub fn print_usage<K: Sink>(output: &mut K) -> Status
    ensures status { IsUsage result }
    ensures line { IfSome (K.written output.old) (λ written. PrintsUsage written result (K.written output.new)) }
    ensures write_fault { result ≡ Status.WriteFault → Rose (K.faults output.old) (K.faults output.new) }
    ensures counted { K.faults output.old ≤ K.faults output.new }
    ensures silent { IfNone (K.written output.old) (K.written output.new ≡ None) }
{
    match write_whole(output, USAGE) {
        Ok(()) => Status::Usage,
        Err(_) => Status::WriteFault,
    }
}
