//! Sets of a test's own that see which of their words are read, and sets with bits over zero words.
#![tactic(auto)]

#[cfg(test)]
mod tests;
