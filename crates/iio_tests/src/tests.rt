//! The lower crates, with one module for each subject. Expected values are by hand.

mod attributes;
mod averages;
mod demux;
mod events;
mod fixtures;
mod io;
mod layouts;
mod masks;
mod members;
mod outputs;
mod queues;
mod rings;
mod scan_types;
mod sensors;
mod texts;
mod triggers;
