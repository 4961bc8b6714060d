//! A running hub: its devices and triggers under locks, and what one connection has open there.
#![tactic(auto)]

mod bell;
mod connection;
mod hub;
mod link;
mod locks;
mod seat;
mod ticking;

pub use bell::{Bell, bells_of};
pub use connection::serve_connection;
pub use iiod_connection::SessionEnd;
pub use link::HubLink;
pub use locks::{Bellows, Hub, Locks};
pub use seat::{HubSeat, ReadEnd};
pub use ticking::tick;
