//! Tests of sets in the portable Roaring format: streams of another library, and callers as a user writes them.
#![tactic(auto)]

#[cfg(test)]
mod tests;
