//! Quoted texts.

ghost use Rattle.std.specs.Prelude.{◌≡◌};

use std::marker::Model;

/// The bytes of a quoted text.
#[derive(Debug, Drop)]
pub struct Quoted {
    bytes: Vec<u8>,
}

impl Model for Quoted {
    ghost use Rattle.std.specs.Prelude.{ℕ, List};

    ghost Value = { List ℕ };

    ghost view = { λ q. q.bytes.items };
}

impl Quoted {
    /// A text of these bytes as they are: any bytes, not yet escaped.
    pub fn new(bytes: Vec<u8>) -> Quoted
        ensures { result ≡ bytes.items }
    {
        Quoted { bytes }
    }

    /// The bytes as they are.
    pub fn bytes(&self) -> &[u8]
        ensures { result.now ≡ self.now }
    {
        self.bytes.as_slice()
    }

    /// Gives the bytes away as they are.
    pub fn into_bytes(self) -> Vec<u8>
        ensures { result.items ≡ self }
    {
        self.bytes
    }
}
