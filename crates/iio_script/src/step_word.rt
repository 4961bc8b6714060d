//! The first words of steps.

ghost use Rattle.std.specs.Prelude.{◌≡◌, option_map};
ghost use Rattle.iiod_grammar.specs.Command.{entry_of};
ghost use Rattle.iio_history.specs.Script.{step_words};
ghost use Rattle.iio_script.specs.Step.{form_of};

use iio_text::is_word;

/// A word that begins a step; none of them is a connection's name in a feed.
#[derive(Clone, Copy)]
pub(crate) enum StepWord {
    Fire,
    Poll,
    Handle,
    Sense,
    Clock,
    Drop,
    Unplug,
}

impl StepWord {
    /// Returns the step that a word begins.
    pub(crate) fn of(word: &[u8]) -> Option<StepWord>
        ensures { option_map form_of result ≡ entry_of step_words word.now }
    {
        if is_word(word, b"fire") {
            Some(StepWord::Fire)
        } else if is_word(word, b"poll") {
            Some(StepWord::Poll)
        } else if is_word(word, b"handle") {
            Some(StepWord::Handle)
        } else if is_word(word, b"sense") {
            Some(StepWord::Sense)
        } else if is_word(word, b"clock") {
            Some(StepWord::Clock)
        } else if is_word(word, b"drop") {
            Some(StepWord::Drop)
        } else if is_word(word, b"unplug") {
            Some(StepWord::Unplug)
        } else {
            None
        }
    }
}
