//! How a connection is served.

/// What a session does if it can't answer at once.
#[derive(Clone, Copy, Debug)]
pub enum Manner {
    /// Each command is answered; a READBUF that finds nothing is answered by `EAGAIN`. Running out of memory ends the session.
    Script,
    /// A READBUF that finds nothing waits. If memory runs out in a command, the command is answered by -12.
    Server,
}

/// The outcome of a command.
#[derive(Clone, Copy, Debug)]
pub enum Progress {
    /// It was answered.
    Done,
    /// It is a READBUF that found nothing at the device of that number.
    Waits(u32),
}
