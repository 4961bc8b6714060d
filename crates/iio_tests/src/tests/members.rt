//! Tests of a device of three channels, step by step.

mod devices;
mod groups;
mod remasking;
mod steps;
