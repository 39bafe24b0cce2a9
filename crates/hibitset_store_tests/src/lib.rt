//! Tests of columns and joins: worked rows, and callers as a user writes them.
#![tactic(auto)]

#[cfg(test)]
mod tests;
