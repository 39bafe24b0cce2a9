//! What tests of several crates make their sets of, and ask of them.
#![tactic(auto)]

pub mod columns;
pub mod parts;
pub mod sets;
