//! The ways in which a connection ends.

/// How a connection ended.
#[derive(Clone, Copy, Debug, PartialEq, Eq)]
pub enum SessionEnd {
    /// Nothing more came: the other end closed the link.
    Eof,
    /// The client sent EXIT or broke a limit.
    Ended,
    /// The link failed, at a receive or at a send.
    LinkFault,
    /// Memory ran out.
    Memory,
}
