//! The words that have a meaning in a command line.

ghost use Rattle.std.specs.Prelude.{◌≡◌, drop, option_map};
ghost use Rattle.iiod_grammar.specs.Command.{entry_of, places, commands};
ghost use Rattle.iiod_grammar.specs.Parts.{place_form, command_form};

use iio_text::is_word;

/// A word for a place, which is never an attribute's name.
#[derive(Clone, Copy)]
pub(crate) enum PlaceWord {
    Buffer,
    Debug,
    Input,
    Output,
}

/// The first word of a command.
#[derive(Clone, Copy)]
pub(crate) enum Verb {
    Help,
    Exit,
    Version,
    Print,
    Timeout,
    Open,
    Close,
    Read,
    Write,
    ReadBuf,
    WriteBuf,
    GetTrig,
    SetTrig,
    Set,
    Remask,
    EvOpen,
    EvRead,
    EvClose,
}

#[inline(always)]
pub(crate) fn place_word(word: &[u8]) -> Option<PlaceWord>
    ensures { option_map place_form result ≡ entry_of places word.now }
{
    if is_word(word, b"BUFFER") {
        Some(PlaceWord::Buffer)
    } else if is_word(word, b"DEBUG") {
        Some(PlaceWord::Debug)
    } else if is_word(word, b"INPUT") {
        Some(PlaceWord::Input)
    } else if is_word(word, b"OUTPUT") {
        Some(PlaceWord::Output)
    } else {
        None
    }
}

/// Returns the command of a first word, which has to be in upper case.
pub(crate) fn verb_of(word: &[u8]) -> Option<Verb>
    ensures { option_map command_form result ≡ entry_of commands word.now }
{
    if is_word(word, b"HELP") {
        Some(Verb::Help)
    } else if is_word(word, b"EXIT") {
        Some(Verb::Exit)
    } else if is_word(word, b"VERSION") {
        Some(Verb::Version)
    } else if is_word(word, b"PRINT") {
        Some(Verb::Print)
    } else if is_word(word, b"TIMEOUT") {
        Some(Verb::Timeout)
    } else if is_word(word, b"OPEN") {
        Some(Verb::Open)
    } else if is_word(word, b"CLOSE") {
        Some(Verb::Close)
    } else if is_word(word, b"READ") {
        Some(Verb::Read)
    } else if is_word(word, b"WRITE") {
        Some(Verb::Write)
    } else {
        later_verb_of(word)
    }
}

// Returns the command of a first word that stands after WRITE in the table.
fn later_verb_of(word: &[u8]) -> Option<Verb>
    ensures { option_map command_form result ≡ entry_of (drop 9 commands) word.now }
{
    if is_word(word, b"READBUF") {
        Some(Verb::ReadBuf)
    } else if is_word(word, b"WRITEBUF") {
        Some(Verb::WriteBuf)
    } else if is_word(word, b"GETTRIG") {
        Some(Verb::GetTrig)
    } else if is_word(word, b"SETTRIG") {
        Some(Verb::SetTrig)
    } else if is_word(word, b"SET") {
        Some(Verb::Set)
    } else if is_word(word, b"REMASK") {
        Some(Verb::Remask)
    } else if is_word(word, b"EVOPEN") {
        Some(Verb::EvOpen)
    } else if is_word(word, b"EVREAD") {
        Some(Verb::EvRead)
    } else if is_word(word, b"EVCLOSE") {
        Some(Verb::EvClose)
    } else {
        None
    }
}
