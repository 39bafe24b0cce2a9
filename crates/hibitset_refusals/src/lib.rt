//! Each call that allocates, with one allocation that fails.
#![tactic(auto)]

#[cfg(test)]
mod tests;
