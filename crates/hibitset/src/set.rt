//! The set that keeps its words.
#![tactic(auto, unfolding(crate::specs::BitSet::has, crate::specs::BitSet::word_of))]

ghost use Rattle.std.specs.Prelude.{◌≡◌, ℕ, ◌+◌, ◌-◌, ◌*◌, ◌/◌, ◌%◌, ◌^◌, ◌<◌, ◌≤◌, ◌==◌, ◌||◌, ◌&&◌, not, if◌then◌else◌, ◌↔◌, Bool, false, List, [], ◌∷◌, get_or, length, slice_index_or, OnOk, OnErr, IfOk, IsOk, max, refl};
ghost use Rattle.std.specs.Int.{bit_at};
ghost use Rattle.hibitset_base.specs.Words.{SummariesExactEverywhere, holds_at};
ghost use Rattle.hibitset.specs.WordBits.{stands_in};
ghost use Rattle.hibitset.specs.Layers.{word_in};
ghost use Rattle.hibitset_base.specs.declared.util.TheConstants.{LAYERS, MAX_EID};

use crate::growth::{Adds, Growth};
use crate::layers::Layers;
use hibitset_base::bits::with_bit;
use hibitset_base::like::{BitSetLike, DrainableBitSet};
use hibitset_base::util::{Index, LAYERS, MAX_EID};
use std::alloc::{AllocError, Global};
use std::fmt::{self, Debug, Formatter};

/// A set of indices below `MAX_EID`, kept as words in five layers: `BitSet` of the original.
///
/// A bit of a layer above the lowest is set exactly over a nonzero word, at all times. It is 96 bytes and one block of
/// memory:
///
/// - none for an empty set, 56 bytes for the first 20 indices, 152 for the first 1,000 (measured; no clause says it);
/// - 8 bytes for each 64 indices up to the greatest member since `clear`, and a sixty-third more: 2,130,440 if one lies
///   just below 2^24, 136,348,160 just below 2^30;
/// - up to twice as much if the members were added one by one.
#[derive(Drop)]
pub struct BitSet {
    pub(crate) layers: Layers,
    ghost summed: { SummariesExactEverywhere LAYERS (word_in layers) },
}

impl BitSet {
    ghost use Rattle.hibitset.specs.BitSet.{has, word_of, slice_len};

    /// Number of bits in a word.
    pub const BITS_PER_USIZE: usize = 64;

    /// Number of indices that a bit of layer 1 stands for.
    pub const LAYER1_GRANULARITY: usize = 64;

    /// Number of indices that a bit of layer 2 stands for.
    pub const LAYER2_GRANULARITY: usize = 4_096;

    /// Number of indices that a bit of layer 3 stands for.
    pub const LAYER3_GRANULARITY: usize = 262_144;

    /// The empty set, which does not allocate until the first `add`.
    pub fn new(alloc: Global) -> BitSet
        ensures empty { (i : ℕ) → has result i ≡ false }
        ensures lengths { (l : ℕ) → l < LAYERS - 1 → slice_len result l ≡ 0 }
    {
        BitSet {
            layers: Layers::new(alloc),
        }
    }

    /// An empty set with capacity for every index below `max`, which is at most `MAX_EID`: no `add` of one allocates
    /// until `clear`.
    ///
    /// # Errors
    ///
    /// The allocation fails: 8 bytes for each 64 indices and a sixty-third more, so 2,130,440 for 2^24, and 136,348,160
    /// for 2^30.
    pub fn with_capacity(alloc: Global, max: Index) -> Result<BitSet, AllocError>
        requires { max ≤ MAX_EID }
        ensures empty { IfOk result (λ set. (i : ℕ) → has set i ≡ false) }
        ensures capacity { IfOk result (λ set. (i : ℕ) → i < max → i / 64 < slice_len set 0) }
        ensures length { IfOk result (λ set. slice_len set 0 ≡ (max + 63) / 64) }
        ensures upper_len_max { IfOk result
            (λ set. (l end : ℕ) → l < LAYERS - 1 → max ≤ 64 ^ (l + 1) * end
            → slice_len set l ≤ end) }
    {
        let layers = Layers::zeros(alloc, (max as usize + 63) / 64)?;
        Ok(BitSet { layers })
    }

    // Makes room for the words over `id`, and changes no word. It is apart from `grow_to`, so that a call of `add` that
    // needs no room tests one length alone.
    #[inline(never)]
    pub(crate) fn ensure_word<G: Growth>(&mut self, id: Index) -> Result<(), AllocError>
        requires in_range { id < MAX_EID }
        requires lacks_word { slice_len self.old 0 ≤ id / 64 }
        ensures same { (l p : ℕ) → word_of self.new l p ≡ word_of self.old l p }
        ensures len_min { slice_len self.old 0 ≤ slice_len self.new 0 }
        ensures len_max { slice_len self.new 0 ≤ max (slice_len self.old 0) (id / 64 + 1) }
        ensures upper_len_max { (l : ℕ) → l < LAYERS - 1
            → slice_len self.new l ≤ max (slice_len self.old l) (id / 64 ^ (l + 1) + 1) }
        ensures err_len { OnErr result (slice_len self.new 0 ≡ slice_len self.old 0) }
        ensures covers { OnOk result (id / 64 < slice_len self.new 0) }
    {
        let len = id as usize / 64 + 1;
        let capacity = G::capacity(self.layers.capacity(), len);
        self.layers.set_len(len, capacity)
    }

    // Makes room for the words over `id`, and changes no word.
    #[inline]
    pub(crate) fn grow_to(&mut self, id: Index) -> Result<(), AllocError>
        requires { id < MAX_EID }
        ensures same { (l p : ℕ) → word_of self.new l p ≡ word_of self.old l p }
        ensures len_min { slice_len self.old 0 ≤ slice_len self.new 0 }
        ensures len_max { slice_len self.new 0 ≤ max (slice_len self.old 0) (id / 64 + 1) }
        ensures upper_len_max { (l : ℕ) → l < LAYERS - 1
            → slice_len self.new l ≤ max (slice_len self.old l) (id / 64 ^ (l + 1) + 1) }
        ensures err_len { OnErr result (slice_len self.new 0 ≡ slice_len self.old 0) }
        ensures covers { OnOk result (id / 64 < slice_len self.new 0) }
        ensures succeeds { id / 64 < slice_len self.old 0 → IsOk result }
    {
        if (id as usize) / 64 < self.layers.len() {
            return Ok(());
        }
        self.ensure_word::<Adds>(id)
    }

    // Puts an index in or takes it out, where there is room for it, and returns whether it was there.
    #[inline]
    fn set_bit(&mut self, id: Index, stands: bool) -> bool
        requires { id / 64 < slice_len self.old 0 }
        ensures was_member { result ≡ has self.old id }
        ensures put { (i : ℕ) → has self.new i ≡ (if i == id then stands else has self.old i) }
        ensures length { slice_len self.new 0 ≡ slice_len self.old 0 }
    {
        let place = id as usize / 64;
        let before = self.layers.slice(0)[place];
        let word = with_bit(before, id as usize % 64, stands);
        if word == before {
            return stands;
        }
        self.layers.replace_word(place, before, word, stands);
        !stands
    }

    /// Adds an index below `MAX_EID`, and returns whether it was there.
    ///
    /// # Errors
    ///
    /// An allocation fails: the members and the length of layer 0 stay.
    ///
    /// # Cost
    ///
    /// - It does not allocate if the word at position `id / 64` lies in `layer0_as_slice`, so for no index that is
    ///   there.
    /// - Else that slice becomes as long as the word needs, and those above it no longer than the words over it need.
    ///   One index far up takes the words below it too: 136,348,160 bytes for 1,073,741,823.
    #[inline]
    pub fn add(&mut self, id: Index) -> Result<bool, AllocError>
        requires { id < MAX_EID }
        ensures was_member { IfOk result (λ was. was ≡ has self.old id) }
        ensures added { OnOk result ((i : ℕ) → has self.new i ≡ (has self.old i || i == id)) }
        ensures err { OnErr result ((i : ℕ) → has self.new i ≡ has self.old i) }
        ensures succeeds { id / 64 < slice_len self.old 0 → IsOk result }
        ensures len_min { slice_len self.old 0 ≤ slice_len self.new 0 }
        ensures len_max { slice_len self.new 0 ≤ max (slice_len self.old 0) (id / 64 + 1) }
        ensures upper_len_max { (l : ℕ) → l < LAYERS - 1
            → slice_len self.new l ≤ max (slice_len self.old l) (id / 64 ^ (l + 1) + 1) }
        ensures err_len { OnErr result (slice_len self.new 0 ≡ slice_len self.old 0) }
    {
        self.grow_to(id)?;
        Ok(self.set_bit(id, true))
    }

    /// Takes an index out, and returns whether it was there.
    #[inline]
    pub fn remove(&mut self, id: Index) -> bool
        ensures was_member { result ≡ has self.old id }
        ensures removed { (i : ℕ) → has self.new i ≡ (has self.old i && not (i == id)) }
        ensures length { slice_len self.new 0 ≡ slice_len self.old 0 }
    {
        if (id as usize) / 64 >= self.layers.len() {
            return false;
        }
        self.set_bit(id, false)
    }

    /// Takes all members out. The four slices have length 0 then.
    ///
    /// The memory is kept, but no contract says that it is enough for words to come, so an addition may fail to
    /// allocate again.
    pub fn clear(&mut self)
        ensures empty { (i : ℕ) → has self.new i ≡ false }
        ensures lengths { (l : ℕ) → l < LAYERS - 1 → slice_len self.new l ≡ 0 }
    {
        self.layers.clear();
    }

    /// The words of layer 0, at least as many as the members need. Past the end all are 0. `from_words` makes the set
    /// of them again.
    #[inline]
    pub fn layer0_as_slice(&self) -> &[usize]
        ensures members { (i : ℕ) → has self.now i ≡ stands_in result.now i }
        ensures length { length result.now ≡ slice_len self.now 0 }
        ensures len_max { length result.now ≤ 64 ^ (LAYERS - 1) }
        ensures words { (p : ℕ) → slice_index_or result.now p 0 ≡ word_of self.now 0 p }
    {
        self.layers.slice(0)
    }

    /// The words of layer 1, at least as many as the members need. Past the end all are 0.
    #[inline]
    pub fn layer1_as_slice(&self) -> &[usize]
        ensures length { length result.now ≡ slice_len self.now 1 }
        ensures len_max { length result.now ≤ 64 ^ (LAYERS - 2) }
        ensures words { (p : ℕ) → slice_index_or result.now p 0 ≡ word_of self.now 1 p }
    {
        self.layers.slice(1)
    }

    /// The words of layer 2, at least as many as the members need. Past the end all are 0.
    #[inline]
    pub fn layer2_as_slice(&self) -> &[usize]
        ensures length { length result.now ≡ slice_len self.now 2 }
        ensures len_max { length result.now ≤ 64 ^ (LAYERS - 3) }
        ensures words { (p : ℕ) → slice_index_or result.now p 0 ≡ word_of self.now 2 p }
    {
        self.layers.slice(2)
    }

    /// The words of layer 3, at least as many as the members need. Past the end all are 0.
    #[inline]
    pub fn layer3_as_slice(&self) -> &[usize]
        ensures length { length result.now ≡ slice_len self.now 3 }
        ensures len_max { length result.now ≤ 64 ^ (LAYERS - 4) }
        ensures words { (p : ℕ) → slice_index_or result.now p 0 ≡ word_of self.now 3 p }
    {
        self.layers.slice(3)
    }

    /// Returns whether an index is there.
    #[inline]
    pub fn contains(&self, id: Index) -> bool
        ensures { result ≡ has self.now id }
    {
        let index = id as usize;
        self.layer0(index / 64) >> (index % 64) & 1 == 1
    }
}

impl BitSetLike for BitSet {
    ghost use Rattle.hibitset.specs.BitSet.{has, word_of, has_is_lawful};

    ghost holds = { has };

    ghost word = { word_of };

    ghost lawful = { has_is_lawful };

    #[inline]
    fn get_from_layer(&self, layer: usize, idx: usize) -> usize {
        if layer == LAYERS - 1 {
            self.layers.top()
        } else {
            self.layers.word(layer, idx)
        }
    }

    #[inline]
    fn is_empty(&self) -> bool {
        self.layers.top() == 0
    }

    #[inline]
    fn has_cheap_words(&self) -> bool {
        true
    }

    #[inline]
    fn layer4(&self) -> usize {
        self.layers.top()
    }

    #[inline]
    fn layer3(&self, i: usize) -> usize {
        self.layers.word(3, i)
    }

    #[inline]
    fn layer2(&self, i: usize) -> usize {
        self.layers.word(2, i)
    }

    #[inline]
    fn layer1(&self, i: usize) -> usize {
        self.layers.word(1, i)
    }

    #[inline]
    fn layer0(&self, i: usize) -> usize {
        self.layers.word(0, i)
    }

    #[inline]
    fn contains(&self, i: Index) -> bool {
        BitSet::contains(self, i)
    }
}

impl DrainableBitSet for BitSet {
    ghost use Rattle.std.proofs.Common.{◌∙◌};
    ghost use Rattle.hibitset.specs.BitSet.{slice_len};

    ghost keeps_room = { λ old new. slice_len new 0 ≡ slice_len old 0 };

    ghost keeps_own = { λ s. refl };

    ghost keeps_both = { λ a b c first second. second ∙ first };

    #[inline]
    fn remove(&mut self, i: Index) -> bool {
        BitSet::remove(self, i)
    }
}

/// A copy with the same members and words, whose slices have the same lengths. It fails only if an allocation fails.
impl Clone for BitSet {
    ghost use Rattle.hibitset.specs.BitSet.{IsCopy};

    ghost is_clone = { IsCopy };

    fn clone(&self) -> Result<BitSet, AllocError> {
        let layers = self.layers.copy()?;
        Ok(BitSet { layers })
    }
}

/// It prints the members, in ascending order: `{5, 70000}`.
impl Debug for BitSet {
    fn fmt<W: fmt::Write>(&self, f: &mut Formatter<W>) -> fmt::Result {
        f.debug_set().entries(self.iter()).finish()
    }
}
