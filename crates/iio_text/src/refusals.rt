//! The words that say why an input is refused.

ghost use Rattle.std.specs.Prelude.{◌≡◌};
ghost use Rattle.iio_base.specs.Refusals.{ensure};
ghost use Rattle.iio_text.specs.Why.{why_text};

/// Why a line of an input is refused.
#[derive(Clone, Copy, Debug, PartialEq, Eq)]
pub enum Why {
    /// The line is too long.
    Long,
    /// A byte that isn't allowed, or an invalid quoted text.
    Text,
    /// An unknown first word.
    Word,
    /// A line that may not stand here.
    Order,
    /// The wrong number of words.
    Count,
    /// Not a name.
    Name,
    /// A name that is taken already.
    Taken,
    /// No such trigger.
    Trigger,
    /// No such device.
    Device,
    /// Not a scan type; the word is `type`.
    BadType,
    /// Not a mask that can be listed.
    Mask,
    /// A moment that isn't after the one before.
    Moment,
    /// Not a number of the form that is required.
    Number,
    /// Not a free driver.
    Driver,
    /// Not an attribute that can be set like this.
    Attr,
    /// One more than a limit allows.
    Limit,
    /// A step that a bystander may not take.
    Bystander,
}

impl Why {
    /// The word that stands in a refusal.
    pub fn text(self) -> &'static str
        ensures { result.now ≡ why_text self }
    {
        match self {
            Why::Long => "long",
            Why::Text => "text",
            Why::Word => "word",
            Why::Order => "order",
            Why::Count => "count",
            Why::Name => "name",
            Why::Taken => "taken",
            Why::Trigger => "trigger",
            Why::Device => "device",
            Why::BadType => "type",
            Why::Mask => "mask",
            Why::Moment => "moment",
            Why::Number => "number",
            Why::Driver => "driver",
            Why::Attr => "attr",
            Why::Limit => "limit",
            Why::Bystander => "bystander",
        }
    }
}

/// Returns `Ok` if the condition holds, and `Err(why)` otherwise.
pub fn ensure(holds: bool, why: Why) -> Result<(), Why>
    ensures { result ≡ ensure holds why }
{
    if holds { Ok(()) } else { Err(why) }
}
