//! Hierarchical bit sets: sets of `u32` indices that are walked fast, combined without copying, and proved.
//!
//! Layer 0 has one bit for each index. Each layer above has one bit for each word of 64 bits below it, set exactly if
//! that word is nonzero, up to the one word of layer 4. So an iteration goes from the top down, and never looks where
//! no member is. The words of the set {3, 70, 5000, 300000} that are nonzero, each with the bits that are set in it:
//!
//! ```text
//! layer 4   word 0: 0
//! layer 3   word 0: 0, 1
//! layer 2   word 0: 0, 1                              word 1: 9
//! layer 1   word 0: 0, 1            word 1: 14        word 73: 15
//! layer 0   word 0: 3   word 1: 6   word 78: 8        word 4687: 32
//! index           3          70           5000             300000
//! ```
//!
//! Sets are combined by `&`, `|`, `^`, `-` and `!`, a word at a time and only where an iteration looks:
//!
//! ```text
//! let mut dirty = BitSet::new(alloc);
//! let mut loaded = BitSet::new(alloc);
//! dirty.add(5)?;
//! dirty.add(70_000)?;
//! loaded.add(70_000)?;
//! for page in &dirty & &loaded {
//!     // 70,000 alone
//! }
//! ```
//!
//! - `BitSet` is a set that one thread changes: `add`, `remove`, ranges, assignments, comparisons.
//! - `BitSetLike` has what every set offers: `contains`, `iter`, `par_iter`, `len`, `rank`, `first`, `to_vec`.
//! - `DrainableBitSet` takes members out while it walks: `drain`, `retain`, `pop_first`.
//! - `AtomicBitSet` and `SharedBitSet` are for threads that add side by side, each with a `Seat`; `steps::World` is a
//!   model of additions and walks in any order.
//! - `laws` has what holds of all sets, for proofs of callers. CALLING.md beside this crate has proved callers.
#![tactic(auto)]

pub mod assign;
pub mod build;
mod compare;
mod growth;
pub mod laws;
mod layers;
mod layout;
mod merge;
pub mod ops;
mod range;
pub mod set;
mod summaries;
pub mod util;
mod word_op;

pub use build::BuildError;
pub use hibitset_atomic::{
    ATOMIC_MAX_EID, AtomicBitSet, SHARES, Seat, SharedBitSet, SharedWalk, atomic,
    ops as atomic_ops, shared, steps,
};
pub use hibitset_base::{
    BitIter, BitParIter, BitProducer, BitRevIter, BitSetAll, BitSetAnd, BitSetLike, BitSetNot,
    BitSetOr, BitSetRange, BitSetXor, DrainBitIter, DrainableBitSet, Index, LAYERS, MAX_EID,
    Ranked, drain, iter, like, parallel, ranked, virt,
};
pub use set::BitSet;
