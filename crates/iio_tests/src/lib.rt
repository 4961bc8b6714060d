//! Tests of texts, links, scans and devices, by subject, each through the public calls of one of the lower crates.
#![tactic(auto)]

#[cfg(test)]
mod tests;
