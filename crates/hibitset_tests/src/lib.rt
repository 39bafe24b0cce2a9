//! Tests of the sets and of what they stand on:
//! worked rows, each public call at least once, and callers as a user writes them.
#![tactic(auto)]

#[cfg(test)]
mod tests;
