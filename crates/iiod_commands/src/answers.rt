//! The answers to commands, and their bytes, which are appended to earlier answers.

ghost use Rattle.std.specs.Prelude.{◌≡◌, ◌≤◌, ◌+◌, ◌++◌, length, vec_capacity, Ok, Err, IfOk, IsOk, OnErr, OnOk};
ghost use Rattle.iiod_reply.specs.Reply.{Appends, FitsInRoom, Line, Raw, Refusal, text_of};
ghost use Rattle.iiod_commands.specs.Answers.{Fits, IsLong, Prints, answer_by, reply_of};
ghost use Rattle.iiod_commands.specs.Performs.{AnswersInRoom, IsAllowed, reply_by};
ghost use Rattle.iiod_commands.specs.declared.answers.TheConstants.{ANSWER_ROOM, SHORT_ANSWER};
ghost use Rattle.iiod_commands.specs.declared.manner.Manner.{Manner};
ghost use Rattle.iiod_commands.specs.declared.manner.Progress.{Progress};

use crate::iio::{Iio, No};
use crate::manner::{Manner, Progress};
use iio_attr::Name;
use iio_base::Mem;
use iio_event::EventData;
use iio_text::{Errno, append_reserved};
use iiod_reply::{number, value};
use itoa::Buffer;

/// The most bytes of an answer that is only a number: 20 digits, and an LF after them.
pub(crate) const SHORT_ANSWER: usize = 20 + 1;

/// The most bytes of an answer, except those of READBUF and the texts of HELP, VERSION, PRINT and GETTRIG, which change
/// nothing: the count, the longest value, and an LF after each. This room is taken before a command is performed, so that a
/// command that was performed is answered.
pub(crate) const ANSWER_ROOM: usize = 2 + 1 + 32 + 1;

// The number of the error that is answered if memory runs out.
const ENOMEM: i64 = 12;

/// What a command is answered if it isn't refused.
#[derive(Drop)]
pub(crate) enum Answer {
    /// 0, the number of bytes of a WRITE, or the number of bytes of a WRITEBUF that were taken.
    Number(usize),
    /// The line that names the profile.
    Help,
    /// The version.
    Version,
    /// The context.
    Context,
    /// The digits of an attribute's stored number.
    Fixed(String),
    /// An attribute that is a whole number.
    Int(i64),
    /// A number of a queue.
    Count(u64),
    /// A device's name.
    Name(Name),
    /// The name of the trigger of that number.
    Trigger(u32),
    /// An event.
    Event(EventData),
}

/// Returns that number if a call isn't refused.
pub(crate) fn answered(count: usize, called: Result<(), No>) -> Result<Answer, No>
    ensures value { result ≡ answer_by count called }
    ensures fits { Fits result }
{
    called?;
    Ok(Answer::Number(count))
}

/// Appends minus the error's number.
pub fn push_refusal(out: &mut Vec<u8>, errno: Errno) -> Result<(), Mem>
    ensures text { Appends (text_of (Refusal errno)) out.old.items result out.new.items }
    ensures room { length out.old.items + SHORT_ANSWER ≤ vec_capacity out.old → IsOk result }
    ensures capacity { vec_capacity out.old ≤ vec_capacity out.new }
{
    number(-errno.number(), out)
}

/// Appends the refusal of a command. In a script `Mem` is returned instead if memory ran out.
pub(crate) fn push_no(manner: Manner, no: No, out: &mut Vec<u8>) -> Result<(), Mem>
    ensures text { OnOk result (out.new.items ≡ out.old.items ++ text_of (reply_by (Err no))) }
    ensures allowed { OnOk result (IsAllowed manner (reply_by (Err no))) }
    ensures answers { AnswersInRoom manner out.old.items (vec_capacity out.old) result }
{
    match no {
        No::Errno(errno) => push_refusal(out, errno),
        No::Mem => match manner {
            Manner::Script => Err(Mem),
            Manner::Server => number(-ENOMEM, out),
        },
    }
}

/// Does what [`push_no`] does, at the end of a command.
pub(crate) fn finish(manner: Manner, no: No, out: &mut Vec<u8>) -> Result<Progress, Mem>
    ensures done { IfOk result (λ p. p ≡ Progress.Done) }
    ensures text { OnOk result (out.new.items ≡ out.old.items ++ text_of (reply_by (Err no))) }
    ensures allowed { OnOk result (IsAllowed manner (reply_by (Err no))) }
    ensures answers { AnswersInRoom manner out.old.items (vec_capacity out.old) result }
{
    push_no(manner, no, out)?;
    Ok(Progress::Done)
}

// Appends a text as a line of its own. After `Mem`, `out` is unchanged.
fn push_line(out: &mut Vec<u8>, text: &[u8]) -> Result<(), Mem>
    ensures text { Appends (text_of (Line text.now)) out.old.items result out.new.items }
    ensures room { FitsInRoom (text_of (Line text.now)) out.old.items (vec_capacity out.old) result }
    ensures capacity { vec_capacity out.old ≤ vec_capacity out.new }
{
    out.reserve(text.len() + 1)?;
    append_reserved(text, out);
    append_reserved(b"\n", out);
    Ok(())
}

// Appends bytes after a line with their number. After `Mem`, `out` is unchanged.
#[inline(always)]
fn push_raw(out: &mut Vec<u8>, bytes: &[u8]) -> Result<(), Mem>
    ensures text { Appends (text_of (Raw bytes.now)) out.old.items result out.new.items }
    ensures room { FitsInRoom (text_of (Raw bytes.now)) out.old.items (vec_capacity out.old) result }
    ensures capacity { vec_capacity out.old ≤ vec_capacity out.new }
{
    let mut buffer = Buffer::new();
    let count = buffer.format(bytes.len()).as_bytes();
    out.reserve(count.len() + 1 + bytes.len())?;
    append_reserved(count, out);
    append_reserved(b"\n", out);
    append_reserved(bytes, out);
    Ok(())
}

// Appends the text of an answer. After `Mem`, `out` is unchanged.
fn push_text<I: Iio>(iio: &I, answer: Answer, out: &mut Vec<u8>) -> Result<(), Mem>
    requires fits { Fits (Ok answer) }
    requires room { length out.old.items + ANSWER_ROOM ≤ vec_capacity out.old }
    ensures text { Appends (text_of (reply_of (I.front (I.kept iio.now)) (Ok answer))) out.old.items result out.new.items }
    ensures room { OnErr result (IsLong (Ok answer)) }
    ensures capacity { vec_capacity out.old ≤ vec_capacity out.new }
{
    match answer {
        Answer::Number(n) => push_line(out, Buffer::new().format(n).as_bytes()),
        Answer::Help => push_line(out, b"Commands of libiio 0.25 iiod, profile iiosim0"),
        Answer::Version => push_line(out, b"0.25.iiosim0"),
        Answer::Context => value(iio.context(), out),
        Answer::Fixed(digits) => value(digits.as_bytes(), out),
        Answer::Int(n) => value(Buffer::new().format(n).as_bytes(), out),
        Answer::Count(n) => value(Buffer::new().format(n).as_bytes(), out),
        Answer::Name(name) => value(name.bytes(), out),
        Answer::Trigger(trigger) => value(iio.trigger_name(trigger), out),
        Answer::Event(event) => push_raw(out, &event.bytes()),
    }
}

/// Appends the answer to a command into the room that was taken for it. If there is no memory for a long text, this is
/// answered instead.
#[inline(always)]
pub(crate) fn push_answer<I: Iio>(
    manner: Manner,
    iio: &I,
    answer: Result<Answer, No>,
    out: &mut Vec<u8>,
) -> Result<(), Mem>
    requires fits { Fits answer }
    requires room { length out.old.items + ANSWER_ROOM ≤ vec_capacity out.old }
    ensures prints { OnOk result (Prints manner (I.front (I.kept iio.now)) answer out.old.items out.new.items) }
    ensures answers { manner ≡ Manner.Server → IsOk result }
{
    match answer {
        Err(no) => push_no(manner, no, out),
        Ok(answer) => match push_text(iio, answer, out) {
            Ok(()) => Ok(()),
            Err(Mem) => push_no(manner, No::Mem, out),
        },
    }
}
