//! Tests of the atomic set, of the shared one and of the step core:
//! worked rows, each public call at least once, and callers as a user writes them.
#![tactic(auto)]

#[cfg(test)]
mod tests;
