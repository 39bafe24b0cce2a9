//! Ranges of indices, added, taken out and flipped by whole words.
ghost use Rattle.std.specs.Prelude.{◌≡◌, ℕ, ◌≤◌, ◌||◌, ◌&&◌, not, IsOk, OnOk, OnErr};
ghost use Rattle.hibitset_base.specs.Ranges.{in_range};
ghost use Rattle.hibitset_base.specs.Virtual.{differ};
ghost use Rattle.hibitset_base.specs.declared.util.TheConstants.{MAX_EID};
ghost use Rattle.hibitset_sparse.specs.SparseBitSet.{has};

use crate::set::SparseBitSet;
use hibitset_base::range::BitSetRange;
use hibitset_base::util::{Index, MAX_EID};
use std::alloc::AllocError;

impl SparseBitSet {
    /// Adds the indices from `start` up to, but without, `end`, which is at most `MAX_EID`. If `end` is not above
    /// `start`, nothing changes.
    ///
    /// # Errors
    ///
    /// An allocation fails: the members stay. A range of n indices takes n / 7 bytes at most.
    pub fn add_range(&mut self, start: Index, end: Index) -> Result<(), AllocError>
        requires { end ≤ MAX_EID }
        ensures added { OnOk result ((i : ℕ)
            → has self.new i ≡ (has self.old i || in_range start end i)) }
        ensures err { OnErr result ((i : ℕ) → has self.new i ≡ has self.old i) }
        ensures succeeds_empty { end ≤ start → IsOk result }
    {
        if start >= end {
            return Ok(());
        }
        self.bitor_assign(&BitSetRange { start, end })
    }

    /// Takes out the indices from `start` up to, but without, `end`, for any two numbers. It does not allocate.
    pub fn remove_range(&mut self, start: Index, end: Index)
        ensures { (i : ℕ) → has self.new i ≡ (has self.old i && not (in_range start end i)) }
    {
        self.subtract_assign(&BitSetRange { start, end });
    }

    /// Flips the indices from `start` up to, but without, `end`, which is at most `MAX_EID`: members are taken out, and
    /// the others are added.
    ///
    /// # Errors
    ///
    /// An allocation fails: the members stay.
    pub fn flip_range(&mut self, start: Index, end: Index) -> Result<(), AllocError>
        requires { end ≤ MAX_EID }
        ensures flipped { OnOk result ((i : ℕ)
            → has self.new i ≡ differ (has self.old i) (in_range start end i)) }
        ensures err { OnErr result ((i : ℕ) → has self.new i ≡ has self.old i) }
        ensures succeeds_empty { end ≤ start → IsOk result }
    {
        if start >= end {
            return Ok(());
        }
        self.bitxor_assign(&BitSetRange { start, end })
    }
}
