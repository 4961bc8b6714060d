//! Tests of hubs and servers, of the client, and of the program's words, which use several of the crates below them.
#![tactic(auto)]

#[cfg(test)]
mod tests;
