//! Tests of sparse sets, beside dense ones and beside lists of their members.
#![tactic(auto)]

#[cfg(test)]
mod tests;
