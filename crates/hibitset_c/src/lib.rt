//! Hierarchical bit sets for C:
//! a thin static library over `hibitset`, `hibitset_sparse`, `hibitset_atomic` and `hibitset_roaring`, with an export
//! for each call.
//! `bindings/c/hibitset.h` declares them.
//!
//! C keeps each set in a struct of its own. A call that changes a set takes it as a `Set`, by `&mut`; a call that reads
//! one takes the same bytes as a `LentSet`, by `&`. A `LentSet` is slices alone and owns nothing, so any number of
//! threads may read a set at once. The empty set does not allocate.
//!
//! A sparse set, an atomic set, and a seat of a shared one, are one pointer each in a struct of C's. Each call takes it
//! by `&mut`, and the seats of one set own the set together.
//!
//! An index that is out of range, bytes that are no stream and a failed allocation are statuses. No export has a
//! `requires`.
#![tactic(auto)]

pub mod atomic;
pub mod atomic_set;
pub mod build;
pub mod bulk;
pub mod capacity;
pub mod change;
mod collect;
pub mod combine;
pub mod fault;
mod fill;
pub mod handle;
pub mod hash;
pub mod ids;
pub mod lent_set;
pub mod lists;
mod lookups;
pub mod order;
pub mod owned_box;
pub mod pair;
mod raw_box;
pub mod read;
pub mod roaring;
pub mod seat;
pub mod seat_of_set;
pub mod seat_slot;
pub mod set;
pub mod set_or_seat;
pub mod shared;
pub mod sparse;
pub mod sparse_assign;
pub mod sparse_lists;
pub mod sparse_order;
pub mod sparse_pair;
pub mod sparse_roaring;
pub mod sparse_set;
pub mod status;
pub mod words;
