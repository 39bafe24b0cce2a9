//! Sparse bit sets: sets of `u32` indices whose memory goes by their members, wherever they lie.
//!
//! A `SparseBitSet` keeps its nonzero words alone, in tables where they lie side by side and are found by counting bits.
//! One index near 2^30 takes some 400 bytes, where a dense set of `hibitset` takes 136 MB:
//!
//! ```text
//! index 1,000,000,000
//! BitSet         layer 0: 15,625,001 words, the last of them nonzero
//! SparseBitSet   chunk 3,814 of 4,096, there its word 2,856 of 4,096
//! ```
//!
//! It is a `BitSetLike`, so walks, virtual sets, order queries, drains and parallel walks work over it, and it mixes with
//! sets of other types without a copy:
//!
//! ```text
//! let mut seen = SparseBitSet::new(alloc);
//! seen.add(1_000_000_000)?;
//! seen.add(70_000)?;
//! for page in &seen & &dirty {
//!     // those that are in both, whatever the type of `dirty`
//! }
//! ```
//!
//! - `add`, `remove`, `contains`, `clear`; ranges; assignments; whole words; building from iterators, slices and other
//!   sets.
//! - `BitSetLike` and `DrainableBitSet` have the rest: `iter`, `rank`, `first`, `is_subset`, `drain`, `retain`.
//! - `laws` has what holds of all sparse sets, for proofs of callers.
#![tactic(auto)]

pub mod assign;
pub mod build;
mod bulk;
mod chunk;
mod compare;
mod copy;
mod gather;
mod group;
mod group_view;
mod kept;
pub mod laws;
mod memory;
pub mod merge;
pub mod ops;
mod packed_array;
pub mod range;
mod rank;
mod replace;
mod retain;
mod select;
pub mod set;
mod shrink;
mod table;
mod table_iter;
pub mod walk;
pub mod words;

pub use set::SparseBitSet;
pub use walk::SparseIter;
