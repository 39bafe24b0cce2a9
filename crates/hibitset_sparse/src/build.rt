//! Sparse sets made of the items of an iterator or of a slice, or extended by them.
#![tactic(auto, unfolding(crate::specs::SparseBitSet::has, crate::specs::SparseBitSet::word_of))]

ghost use Rattle.std.specs.Prelude.{◌≡◌, ◌≢◌, ℕ, ◌/◌, ◌<◌, ◌||◌, ◌↔◌, Bool, true, false, OnOk, OnErr, IfOk, IfErr, length, take, Contains};
ghost use Rattle.std.specs.Iterator.{IsFiniteIterable};
ghost use Rattle.hibitset_base.specs.Slices.{AddsList, place_of, InRangeBefore, IsRefusalIn, LacksRoom, LiesApartIn};
ghost use Rattle.hibitset_base.specs.declared.util.TheConstants.{MAX_EID};
ghost use Rattle.hibitset_sparse.specs.SparseBitSet.{has, word_of};
ghost use Rattle.hibitset_sparse.specs.Extension.{Refuses, TakesAll, StopsAtRefused, member_apart};

use crate::set::SparseBitSet;
pub use hibitset_base::build::BuildError;
use hibitset_base::build::{self, FallibleInsert};
use hibitset_base::util::{Index, MAX_EID};
use std::alloc::{AllocError, Global};

impl FallibleInsert for SparseBitSet {
    ghost RANGE = { MAX_EID };

    ghost needs_allocation = { λ set j. word_of set 0 (j / 64) ≡ 0 };

    ghost need_separate_room = { λ i j. i / 64 ≢ j / 64 };

    ghost apart = { member_apart };

    const RANGE: usize = MAX_EID;

    #[inline]
    fn add_index(&mut self, index: Index) -> Result<bool, AllocError> {
        self.add(index)
    }
}

impl SparseBitSet {
    /// Adds the items of an iterator, each of which is to be below `MAX_EID`.
    ///
    /// # Errors
    ///
    /// An item is out of range, or an allocation fails. The set then has its old members and the items before that one,
    /// and no later item is taken from the iterator. An allocation can fail only for an item with no member among the
    /// 64 indices that share its word.
    pub fn extend_indices<U: IntoIterator<Item = Index>>(
        &mut self,
        iter: U,
    ) -> Result<(), BuildError>
        requires { IsFiniteIterable U.into_iter_gives U.IntoIter.can_next U.IntoIter.remaining
            iter }
        ensures all { OnOk result (TakesAll U.into_iter_gives U.IntoIter.next_gives (λ i. i) iter
            (has self.old) (has self.new)) }
        ensures stops { IfErr result (StopsAtRefused U.into_iter_gives U.IntoIter.next_gives
            (λ i. i) iter (has self.old) (has self.new) (word_of self.new)) }
    {
        build::extend_indices(self, iter)
    }

    /// Adds the items that an iterator gives by reference, as `extend_indices` does.
    pub fn extend_index_refs<'a, U: IntoIterator<Item = &'a Index>>(
        &mut self,
        iter: U,
    ) -> Result<(), BuildError>
        requires { IsFiniteIterable U.into_iter_gives U.IntoIter.can_next U.IntoIter.remaining
            iter }
        ensures all { OnOk result (TakesAll U.into_iter_gives U.IntoIter.next_gives (λ i. i.now)
            iter (has self.old) (has self.new)) }
        ensures stops { IfErr result (StopsAtRefused U.into_iter_gives U.IntoIter.next_gives
            (λ i. i.now) iter (has self.old) (has self.new) (word_of self.new)) }
    {
        build::extend_index_refs(self, iter)
    }

    /// A set of the items of an iterator, each of which is to be below `MAX_EID`.
    ///
    /// # Errors
    ///
    /// An item is out of range, or an allocation fails; no later item is taken. An allocation can fail only for an item
    /// with none before it among the 64 indices that share its word.
    pub fn from_indices<U: IntoIterator<Item = Index>>(
        alloc: Global,
        iter: U,
    ) -> Result<SparseBitSet, BuildError>
        requires { IsFiniteIterable U.into_iter_gives U.IntoIter.can_next U.IntoIter.remaining
            iter }
        ensures all { IfOk result (λ set. TakesAll U.into_iter_gives U.IntoIter.next_gives (λ i. i)
            iter (λ _. false) (has set)) }
        ensures stops { IfErr result (Refuses U.into_iter_gives U.IntoIter.next_gives (λ i. i)
            iter) }
    {
        build::from_indices(SparseBitSet::new(alloc), iter)
    }

    /// A set of the items that an iterator gives by reference, as `from_indices` makes it.
    pub fn from_index_refs<'a, U: IntoIterator<Item = &'a Index>>(
        alloc: Global,
        iter: U,
    ) -> Result<SparseBitSet, BuildError>
        requires { IsFiniteIterable U.into_iter_gives U.IntoIter.can_next U.IntoIter.remaining
            iter }
        ensures all { IfOk result (λ set. TakesAll U.into_iter_gives U.IntoIter.next_gives
            (λ i. i.now) iter (λ _. false) (has set)) }
        ensures stops { IfErr result (Refuses U.into_iter_gives U.IntoIter.next_gives (λ i. i.now)
            iter) }
    {
        build::from_index_refs(SparseBitSet::new(alloc), iter)
    }

    /// Adds the indices of a slice, each of which is to be below `MAX_EID`.
    ///
    /// # Errors
    ///
    /// An index is out of range, or an allocation fails. The set then has its old members and the indices before that
    /// one, whose place the error has. An allocation can fail only for an index with no member among the 64 indices
    /// that share its word.
    pub fn extend_from_slice(&mut self, indices: &[Index]) -> Result<(), BuildError>
        ensures added { OnOk result (AddsList (has self.old) (has self.new) indices.now) }
        ensures in_range { OnOk result (InRangeBefore MAX_EID indices.now (length indices.now)) }
        ensures added_before { IfErr result (λ error. AddsList (has self.old) (has self.new)
            (take (place_of error) indices.now)) }
        ensures error_place { IfErr result (λ error. place_of error < length indices.now) }
        ensures in_range_before { IfErr result (λ error. InRangeBefore MAX_EID indices.now
            (place_of error)) }
        ensures reason { IfErr result (IsRefusalIn MAX_EID indices.now) }
        ensures lacks_room { IfErr result (LacksRoom (λ i. word_of self.new 0 (i / 64) ≡ 0)
            indices.now) }
    {
        build::extend_from_slice(self, indices)
    }

    /// A set of the indices of a slice, each of which is to be below `MAX_EID`.
    ///
    /// # Errors
    ///
    /// An index is out of range, or an allocation fails; the error has its place. An allocation can fail only for an
    /// index with none before it among the 64 indices that share its word.
    pub fn from_slice(alloc: Global, indices: &[Index]) -> Result<SparseBitSet, BuildError>
        ensures members { IfOk result (λ set. (i : ℕ)
            → (has set i ≡ true) ↔ Contains indices.now i) }
        ensures in_range { IfOk result (λ _. InRangeBefore MAX_EID indices.now
            (length indices.now)) }
        ensures error_place { IfErr result (λ error. place_of error < length indices.now) }
        ensures in_range_before { IfErr result (λ error. InRangeBefore MAX_EID indices.now
            (place_of error)) }
        ensures reason { IfErr result (IsRefusalIn MAX_EID indices.now) }
        ensures apart { IfErr result (LiesApartIn (λ i j. i / 64 ≢ j / 64) indices.now) }
    {
        build::from_slice(SparseBitSet::new(alloc), indices)
    }
}
