//! Values of attributes.

/// How a value is written.
#[derive(Clone, Copy, Debug, PartialEq, Eq)]
pub enum Form {
    /// An integer.
    Int,
    /// With six digits after the point.
    Micro,
    /// With nine digits after the point.
    Nano,
}

/// A value with its sign, its whole part, and what stands after the point in units of the form: of
/// 1,000,000 for `Micro`, of 1,000,000,000 for `Nano`, and 0 for `Int`.
///
/// `negative` is false if both parts are 0; the whole part is at most 2,147,483,647.
#[derive(Clone, Copy, Debug, PartialEq, Eq)]
pub struct Fixed {
    pub negative: bool,
    pub whole: u32,
    pub part: u32,
    pub form: Form,
}
