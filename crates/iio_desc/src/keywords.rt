//! The first words of lines.

ghost use Rattle.std.specs.Prelude.{◌≡◌};
ghost use Rattle.iio_desc.specs.Lines.{keyword_of};

/// The line that a first word begins.
#[derive(Clone, Copy, Debug)]
pub enum Keyword {
    /// `context "TEXT"`
    Context,
    /// `trigger NAME PLACES`
    Trigger,
    /// `device NAME TRIGGER`
    Device,
    /// `output NAME TRIGGER`
    Output,
    /// `average NAME BASE W`
    Average,
    /// `channel ID TYPE`
    Channel,
    /// `timestamp`, `timestamp be` or `timestamp le`
    Timestamp,
    /// `masks H ..`
    Masks,
    /// `row T v ..`
    Row,
    /// `driver K`
    Driver,
    /// `attr CHANNEL NAME VALUE`
    Attr,
}

impl Keyword {
    /// The line that a word begins. Rows are tried first, since they are the most frequent.
    pub fn of(word: &[u8]) -> Option<Keyword>
        ensures { result ≡ keyword_of word.now }
    {
        if word == b"row".as_slice() {
            Some(Keyword::Row)
        } else if word == b"channel".as_slice() {
            Some(Keyword::Channel)
        } else if word == b"timestamp".as_slice() {
            Some(Keyword::Timestamp)
        } else if word == b"masks".as_slice() {
            Some(Keyword::Masks)
        } else if word == b"attr".as_slice() {
            Some(Keyword::Attr)
        } else if word == b"driver".as_slice() {
            Some(Keyword::Driver)
        } else if word == b"device".as_slice() {
            Some(Keyword::Device)
        } else if word == b"output".as_slice() {
            Some(Keyword::Output)
        } else if word == b"average".as_slice() {
            Some(Keyword::Average)
        } else if word == b"trigger".as_slice() {
            Some(Keyword::Trigger)
        } else if word == b"context".as_slice() {
            Some(Keyword::Context)
        } else {
            None
        }
    }
}
