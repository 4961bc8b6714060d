//! Tests of scripts, by subject: whole inputs and what is printed for each, over sources and sinks in memory.
#![tactic(auto)]

#[cfg(test)]
mod tests;
