//! Sets made of the items of an iterator or of a slice, or extended by them, and sets made of words.
#![tactic(auto, unfolding(crate::specs::BitSet::has, crate::specs::BitSet::word_of, crate::specs::Layers::room_for))]

ghost use Rattle.std.specs.Prelude.{◌≡◌, ℕ, ◌-◌, ◌*◌, ◌/◌, ◌^◌, ◌<◌, ◌≤◌, ◌||◌, ◌↔◌, Bool, true, false, [], get_or, length, take, Contains, slice_index_or, vec_capacity, OnOk, OnErr, IfOk, IfErr, IsOk};
ghost use Rattle.std.specs.Iterator.{IsFiniteIterable};
ghost use Rattle.hibitset_base.specs.Slices.{AddsList, place_of, InRangeBefore, IsRefusalIn, LacksRoom, LiesApartIn};
ghost use Rattle.hibitset_base.specs.Words.{SummariesExactEverywhere, word_at};
ghost use Rattle.hibitset_base.specs.declared.util.TheConstants.{LAYERS, MAX_EID};
ghost use Rattle.hibitset.specs.BitSet.{has, word_of, slice_len};
ghost use Rattle.hibitset.specs.Extension.{MembersEndBy, Refuses, TakesAll, StopsAtRefused, member_apart};
ghost use Rattle.hibitset.specs.Layers.{piled, room_for, IsFitted};
ghost use Rattle.hibitset.specs.WordBits.{stands_in};

use crate::layers::Layers;
use crate::set::BitSet;
pub use hibitset_base::build::BuildError;
use hibitset_base::build::{self, FallibleInsert};
use hibitset_base::util::{Index, LAYERS, MAX_EID};
use std::alloc::{AllocError, Global};

impl FallibleInsert for BitSet {
    ghost RANGE = { MAX_EID };

    ghost needs_allocation = { λ set i. slice_len set 0 ≤ i / 64 };

    ghost need_separate_room = { λ i j. i / 64 < j / 64 };

    ghost apart = { member_apart };

    const RANGE: usize = MAX_EID;

    #[inline]
    fn add_index(&mut self, index: Index) -> Result<bool, AllocError> {
        self.add(index)
    }
}

impl BitSet {
    /// Adds the items of an iterator, each of which is to be below `MAX_EID`: `Extend` of the original.
    ///
    /// # Errors
    ///
    /// An item is out of range, or an allocation fails. The set then has its old members and the items before that one,
    /// and no later item is taken from the iterator. An allocation can fail only for an item whose word lies past
    /// `layer0_as_slice`, and no slice grows longer than the members need.
    pub fn extend_indices<U: IntoIterator<Item = Index>>(
        &mut self,
        iter: U,
    ) -> Result<(), BuildError>
        requires { IsFiniteIterable U.into_iter_gives U.IntoIter.can_next U.IntoIter.remaining
            iter }
        ensures all { OnOk result (TakesAll U.into_iter_gives U.IntoIter.next_gives (λ i. i) iter
            (has self.old) (has self.new)) }
        ensures stops { IfErr result (StopsAtRefused U.into_iter_gives U.IntoIter.next_gives
            (λ i. i) iter (has self.old) (has self.new) (slice_len self.new 0)) }
        ensures len_min { slice_len self.old 0 ≤ slice_len self.new 0 }
        ensures len_max { (end : ℕ) → slice_len self.old 0 ≤ end → MembersEndBy (has self.new) end
            → slice_len self.new 0 ≤ end }
        ensures upper_len_max { (l end : ℕ) → l < LAYERS - 1 → slice_len self.old l ≤ end
            → MembersEndBy (has self.new) (64 ^ l * end) → slice_len self.new l ≤ end }
    {
        build::extend_indices(self, iter)
    }

    /// Adds the items that an iterator gives by reference, as `extend_indices` does.
    pub fn extend_index_refs<'a, U: IntoIterator<Item = &'a Index>>(
        &mut self,
        iter: U,
    ) -> Result<(), BuildError>
        requires { IsFiniteIterable U.into_iter_gives U.IntoIter.can_next U.IntoIter.remaining
            iter }
        ensures all { OnOk result (TakesAll U.into_iter_gives U.IntoIter.next_gives (λ i. i.now)
            iter (has self.old) (has self.new)) }
        ensures stops { IfErr result (StopsAtRefused U.into_iter_gives U.IntoIter.next_gives
            (λ i. i.now) iter (has self.old) (has self.new) (slice_len self.new 0)) }
        ensures len_min { slice_len self.old 0 ≤ slice_len self.new 0 }
        ensures len_max { (end : ℕ) → slice_len self.old 0 ≤ end → MembersEndBy (has self.new) end
            → slice_len self.new 0 ≤ end }
        ensures upper_len_max { (l end : ℕ) → l < LAYERS - 1 → slice_len self.old l ≤ end
            → MembersEndBy (has self.new) (64 ^ l * end) → slice_len self.new l ≤ end }
    {
        build::extend_index_refs(self, iter)
    }

    /// A set of the items of an iterator, each of which is to be below `MAX_EID`: `FromIterator` of the original.
    ///
    /// # Errors
    ///
    /// An item is out of range, or an allocation fails; no later item is taken. An allocation can fail only for an item
    /// whose word lies past those of all items before it.
    pub fn from_indices<U: IntoIterator<Item = Index>>(
        alloc: Global,
        iter: U,
    ) -> Result<BitSet, BuildError>
        requires { IsFiniteIterable U.into_iter_gives U.IntoIter.can_next U.IntoIter.remaining
            iter }
        ensures all { IfOk result (λ set. TakesAll U.into_iter_gives U.IntoIter.next_gives (λ i. i)
            iter (λ _. false) (has set)) }
        ensures len_max { IfOk result (λ set. (end : ℕ) → MembersEndBy (has set) end
            → slice_len set 0 ≤ end) }
        ensures upper_len_max { IfOk result (λ set. (l end : ℕ) → l < LAYERS - 1
            → MembersEndBy (has set) (64 ^ l * end) → slice_len set l ≤ end) }
        ensures stops { IfErr result (Refuses U.into_iter_gives U.IntoIter.next_gives (λ i. i)
            iter) }
    {
        build::from_indices(BitSet::new(alloc), iter)
    }

    /// A set of the items that an iterator gives by reference, as `from_indices` makes it.
    pub fn from_index_refs<'a, U: IntoIterator<Item = &'a Index>>(
        alloc: Global,
        iter: U,
    ) -> Result<BitSet, BuildError>
        requires { IsFiniteIterable U.into_iter_gives U.IntoIter.can_next U.IntoIter.remaining
            iter }
        ensures all { IfOk result (λ set. TakesAll U.into_iter_gives U.IntoIter.next_gives
            (λ i. i.now) iter (λ _. false) (has set)) }
        ensures len_max { IfOk result (λ set. (end : ℕ) → MembersEndBy (has set) end
            → slice_len set 0 ≤ end) }
        ensures upper_len_max { IfOk result (λ set. (l end : ℕ) → l < LAYERS - 1
            → MembersEndBy (has set) (64 ^ l * end) → slice_len set l ≤ end) }
        ensures stops { IfErr result (Refuses U.into_iter_gives U.IntoIter.next_gives (λ i. i.now)
            iter) }
    {
        build::from_index_refs(BitSet::new(alloc), iter)
    }

    /// Adds the indices of a slice, each of which is to be below `MAX_EID`.
    ///
    /// # Errors
    ///
    /// An index is out of range, or an allocation fails. The set then has its old members and the indices before that
    /// one, whose place the error has. An allocation can fail only for an index whose word lies past `layer0_as_slice`,
    /// and no slice grows longer than the members need.
    pub fn extend_from_slice(&mut self, indices: &[Index]) -> Result<(), BuildError>
        ensures added { OnOk result (AddsList (has self.old) (has self.new) indices.now) }
        ensures in_range { OnOk result (InRangeBefore MAX_EID indices.now (length indices.now)) }
        ensures added_before { IfErr result (λ error. AddsList (has self.old) (has self.new)
            (take (place_of error) indices.now)) }
        ensures error_place { IfErr result (λ error. place_of error < length indices.now) }
        ensures in_range_before { IfErr result (λ error. InRangeBefore MAX_EID indices.now
            (place_of error)) }
        ensures reason { IfErr result (IsRefusalIn MAX_EID indices.now) }
        ensures lacks_room { IfErr result (LacksRoom (λ i. slice_len self.new 0 ≤ i / 64)
            indices.now) }
        ensures len_min { slice_len self.old 0 ≤ slice_len self.new 0 }
        ensures len_max { (end : ℕ) → slice_len self.old 0 ≤ end → MembersEndBy (has self.new) end
            → slice_len self.new 0 ≤ end }
        ensures upper_len_max { (l end : ℕ) → l < LAYERS - 1 → slice_len self.old l ≤ end
            → MembersEndBy (has self.new) (64 ^ l * end) → slice_len self.new l ≤ end }
    {
        build::extend_from_slice(self, indices)
    }

    /// A set of the indices of a slice, each of which is to be below `MAX_EID`.
    ///
    /// # Errors
    ///
    /// An index is out of range, or an allocation fails; the error has its place. An allocation can fail only for an
    /// index whose word lies past those of all indices before it.
    pub fn from_slice(alloc: Global, indices: &[Index]) -> Result<BitSet, BuildError>
        ensures members { IfOk result (λ set. (i : ℕ)
            → (has set i ≡ true) ↔ Contains indices.now i) }
        ensures in_range { IfOk result (λ _. InRangeBefore MAX_EID indices.now
            (length indices.now)) }
        ensures len_max { IfOk result (λ set. (end : ℕ) → MembersEndBy (has set) end
            → slice_len set 0 ≤ end) }
        ensures upper_len_max { IfOk result (λ set. (l end : ℕ) → l < LAYERS - 1
            → MembersEndBy (has set) (64 ^ l * end) → slice_len set l ≤ end) }
        ensures error_place { IfErr result (λ error. place_of error < length indices.now) }
        ensures in_range_before { IfErr result (λ error. InRangeBefore MAX_EID indices.now
            (place_of error)) }
        ensures reason { IfErr result (IsRefusalIn MAX_EID indices.now) }
        ensures apart { IfErr result (LiesApartIn (λ i j. i / 64 < j / 64) indices.now) }
    {
        build::from_slice(BitSet::new(alloc), indices)
    }

    /// The set whose words of layer 0 are these, at most as many as that layer may have: index `64 * p + b` is a member
    /// if bit `b` of word `p` is set. With `layer0_as_slice` it is how a set is saved and read again.
    ///
    /// ```text
    /// let set = BitSet::from_words(alloc, &[0b1000, 0b10])?;
    /// // {3, 65}
    /// ```
    ///
    /// # Errors
    ///
    /// The one allocation fails, for these words and those over them.
    pub fn from_words(alloc: Global, words: &[usize]) -> Result<BitSet, AllocError>
        requires { length words.now ≤ 64 ^ (LAYERS - 1) }
        ensures members { IfOk result (λ set. (i : ℕ) → has set i ≡ stands_in words.now i) }
        ensures words { IfOk result (λ set. (p : ℕ)
            → word_of set 0 p ≡ slice_index_or words.now p 0) }
        ensures length { IfOk result (λ set. slice_len set 0 ≡ length words.now) }
        ensures upper_len_max { IfOk result (λ set. (l end : ℕ) → l < LAYERS - 1
            → length words.now ≤ 64 ^ l * end → slice_len set l ≤ end) }
    {
        let layers = Layers::of_words(alloc, words)?;
        Ok(BitSet { layers })
    }

    /// An empty vector with capacity for `len` words, at most as many as layer 0 may have, and for those over them:
    /// `from_vec` makes a set of it without another allocation.
    ///
    /// # Errors
    ///
    /// The allocation fails.
    pub fn vec_with_room(alloc: Global, len: usize) -> Result<Vec<usize>, AllocError>
        requires { len ≤ 64 ^ (LAYERS - 1) }
        ensures empty { IfOk result (λ words. words.items ≡ []) }
        ensures capacity { IfOk result (λ words. room_for len ≤ vec_capacity words) }
    {
        Layers::vec_with_room(alloc, len)
    }

    /// The set whose words of layer 0 are those of a vector, at most as many as that layer may have, as `from_words`
    /// makes it of a slice. The set keeps the vector, and appends the words over them.
    ///
    /// # Errors
    ///
    /// The allocation fails: the vector is gone then. There is none if `vec_with_room` made the vector for this many
    /// words or more, and else at most one.
    pub fn from_vec(words: Vec<usize>) -> Result<BitSet, AllocError>
        requires { length words.items ≤ 64 ^ (LAYERS - 1) }
        ensures members { IfOk result (λ set. (i : ℕ) → has set i ≡ stands_in words.items i) }
        ensures words { IfOk result (λ set. (p : ℕ)
            → word_of set 0 p ≡ slice_index_or words.items p 0) }
        ensures length { IfOk result (λ set. slice_len set 0 ≡ length words.items) }
        ensures upper_len_max { IfOk result (λ set. (l end : ℕ) → l < LAYERS - 1
            → length words.items ≤ 64 ^ l * end → slice_len set l ≤ end) }
        ensures succeeds { room_for (length words.items) ≤ vec_capacity words → IsOk result }
    {
        let layers = Layers::of_vec(words)?;
        Ok(BitSet { layers })
    }

    /// The set whose layers have these words, and whose top layer has the word `top`: a copy of a set whose slices are
    /// at hand. Layer 0 has at most as many words as it may have, each layer above it as many as the words below need,
    /// and the summaries are exact.
    ///
    /// # Errors
    ///
    /// The one allocation fails, for these words.
    pub fn from_layers(
        alloc: Global,
        layer0: &[usize],
        layer1: &[usize],
        layer2: &[usize],
        layer3: &[usize],
        top: usize,
    ) -> Result<BitSet, AllocError>
        requires len_max { length layer0.now ≤ 64 ^ (LAYERS - 1) }
        requires fitted { IsFitted LAYERS (piled layer0.now layer1.now layer2.now layer3.now top) }
        requires summed { SummariesExactEverywhere LAYERS
            (word_at (piled layer0.now layer1.now layer2.now layer3.now top)) }
        ensures members { IfOk result (λ set. (i : ℕ) → has set i ≡ stands_in layer0.now i) }
        ensures words { IfOk result (λ set. (l p : ℕ) → l < LAYERS
            → word_of set l p ≡ word_at (piled layer0.now layer1.now layer2.now layer3.now top) l
            p) }
        ensures lengths { IfOk result (λ set. (l : ℕ) → l < LAYERS - 1
            → slice_len set l ≡ length (get_or
            (piled layer0.now layer1.now layer2.now layer3.now top) l [])) }
    {
        let layers = Layers::of_layers(alloc, layer0, layer1, layer2, layer3, top)?;
        Ok(BitSet { layers })
    }
}
