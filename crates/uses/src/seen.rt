//! Keys that were seen, by a hash of each.
ghost use Rattle.std.specs.Prelude.{◌≡◌, ℕ, ◌%◌, ◌||◌, ◌==◌, false, IfOk, OnOk, OnErr};
ghost use Rattle.hibitset.specs.Prelude.{MAX_EID};

use hibitset::Index;
use hibitset_base::util::MAX_EID;
use hibitset_sparse::SparseBitSet;
use std::alloc::{AllocError, Global};

/// The keys that were seen, by the hash of each, of which 30 bits count: a key that shares them with one that was seen
/// counts as seen.
#[derive(Drop)]
pub struct Seen {
    hashes: SparseBitSet,
}

impl Seen {
    ghost use Rattle.uses.specs.Seen.{was_seen};

    /// None was seen. It does not allocate.
    pub fn new(alloc: Global) -> Seen
        ensures { (hash : ℕ) → was_seen result hash ≡ false }
    {
        Seen {
            hashes: SparseBitSet::new(alloc),
        }
    }

    /// Returns whether a key of this hash was seen, and takes it as seen from now on.
    pub fn see(&mut self, hash: u64) -> Result<bool, AllocError>
        ensures was_seen { IfOk result (λ was. was ≡ was_seen self.old hash) }
        ensures seen { OnOk result ((other : ℕ) → was_seen self.new other
            ≡ (was_seen self.old other || other % MAX_EID == hash % MAX_EID)) }
        ensures err { OnErr result ((other : ℕ) → was_seen self.new other
            ≡ was_seen self.old other) }
    {
        self.hashes.add((hash % MAX_EID as u64) as Index)
    }
}
