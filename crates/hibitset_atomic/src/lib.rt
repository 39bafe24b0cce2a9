//! The hierarchical bit set that threads add to.
#![tactic(auto)]

pub mod atomic;
mod blocks;
mod build;
pub mod laws;
pub(crate) mod layers;
pub mod ops;
pub mod shared;
pub mod steps;

pub use atomic::{ATOMIC_MAX_EID, AtomicBitSet};
pub use shared::{SHARES, Seat, SharedBitSet, SharedWalk};
pub use steps::{Event, Reply, StepError, World, path};

#[cfg(test)]
mod tests;
