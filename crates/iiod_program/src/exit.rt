//! The status that the process ends with.

ghost use Rattle.std.specs.Prelude.{◌≡◌};
ghost use Rattle.std.specs.Process.{exit_status};
ghost use Rattle.iiod_program.specs.Exit.{end_code};

use iio_script::{Mem, Status};
use iiod_serve::ServeStatus;
use std::process::ExitCode;

/// How the program's command ended.
#[derive(Clone, Copy, Debug, PartialEq, Eq)]
pub enum End {
    /// A run over an input.
    Run(Status),
    /// A server.
    Serve(ServeStatus),
}

/// Returns the exit code of a command that ended like this, or for which memory ran out before it began.
pub fn exit_code(end: Result<End, Mem>) -> ExitCode
    ensures { exit_status result ≡ end_code end }
{
    match end {
        Ok(End::Run(status)) => ExitCode::from(status.code()),
        Ok(End::Serve(status)) => ExitCode::from(status.code()),
        Err(Mem) => ExitCode::from(Status::Memory.code()),
    }
}
