//! Tests of the callers of `uses`: worked rows, and callers over sets that threads share.
#![tactic(auto)]

#[cfg(test)]
mod tests;
