//! What no contract says: the system's streams and sockets, calls that a signal cuts short, the clock, and messages. Sources
//! and sinks in memory, their pieces and their failures, are used in each test of `iio_script_tests` too.

mod ends;
mod sockets;
mod streams;
mod ticking;
