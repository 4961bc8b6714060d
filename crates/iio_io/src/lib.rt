//! The outside: bytes that are read and written, connections and where they come from, and moments.
//!
//! Of a `Source`, a `Sink` and a `Link` contracts know, if it is visible, which bytes are left and which were written, of a
//! `Door` how many connections are left, and of a `Ticker` which moments. Each but the ticker keeps a count of its faults that
//! never falls. All are this project's own, as read(2), write(2) and accept(2) are used by iiod. In the forms in memory all of
//! it is visible; in those over the system's streams, sockets and clock none of it is.
#![tactic(auto)]

mod clock_ticker;
mod door;
mod gate;
mod link;
mod list_door;
mod list_ticker;
mod mem_link;
mod memory;
mod retrying;
mod standard;
mod tcp_door;
mod tcp_link;
mod traits;
mod whole;

pub use clock_ticker::ClockTicker;
pub use door::{Door, Listen, Ticker};
pub use gate::{Gate, OpenGate, Point};
pub use iio_base::Mem;
pub use link::{Dial, Link};
pub use list_door::ListDoor;
pub use list_ticker::ListTicker;
pub use mem_link::MemLink;
pub use memory::{MemSink, MemSource};
pub use standard::{StdSink, StdSource};
pub use tcp_door::{TcpDoor, accept};
pub use tcp_link::TcpLink;
pub use traits::{Failed, Sink, Source};
pub use whole::{ReadEnd, read_whole, send_whole, write_whole};
