//! One connection of the server: what is received over a link is fed to a session, and the session's answers are sent.
#![tactic(auto)]

mod serve;
mod session_end;

pub use serve::{parts_are_short, serve_on};
pub use session_end::SessionEnd;
