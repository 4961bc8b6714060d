//! The server: workers for triggers, and one for each connection.
#![tactic(auto)]

mod host;
mod living;
mod server;
mod shared;
mod workers;

pub use iio_base::Mem;
pub use iiod_connection::{SessionEnd, serve_on};
pub use iiod_hub::{Hub, serve_connection, tick};
pub use living::MAX_CONNECTIONS;
pub use server::{ServeEnd, serve_all};
