//! The set that can be shared, held alone.
#![tactic(auto, unfolding(crate::specs::AtomicBitSet::has, crate::specs::AtomicBitSet::word_of, crate::specs::AtomicBitSet::NeedsAllocation, crate::specs::AtomicBitSet::AllBlocksReserved))]

ghost use Rattle.std.specs.Prelude.{◌≡◌, ◌≢◌, ℕ, ◌+◌, ◌-◌, ◌*◌, ◌/◌, ◌%◌, ◌^◌, ◌<◌, ◌≤◌, ◌==◌, ◌||◌, ◌&&◌, not, if◌then◌else◌, Bool, true, false, OnOk, OnErr, IfOk, IsOk};
ghost use Rattle.hibitset_base.specs.Words.{SummariesExactEverywhere, holds_at};
ghost use Rattle.hibitset_atomic.specs.Layers.{layer_word};
ghost use Rattle.hibitset_atomic.specs.declared.layers.TheConstants.{ATOMIC_LAYERS};
ghost use Rattle.hibitset_atomic.specs.declared.atomic.TheConstants.{ATOMIC_MAX_EID};

use crate::layers::{ATOMIC_LAYERS, Layers};
use hibitset_base::bits::with_bit;
use hibitset_base::like::{BitSetLike, DrainableBitSet};
use hibitset_base::util::{BITS, Index};
use std::alloc::{AllocError, Global};
use std::fmt::{self, Debug, Formatter};

/// Members of an atomic set lie below this bound. It keeps four layers, whatever the number of layers of a `BitSet` is.
pub const ATOMIC_MAX_EID: usize = 1 << (BITS * ATOMIC_LAYERS);

/// A set of indices below `ATOMIC_MAX_EID`, kept as words in four layers, that can be shared between threads:
/// `AtomicBitSet` of the original.
///
/// A bit of a layer above the lowest is set exactly over a nonzero word, at all times. The fifth layer, which every set
/// has, is not kept: its one word is 1 if there is a member, and else 0.
#[derive(Drop)]
pub struct AtomicBitSet {
    pub(crate) layers: Layers,
    ghost summed: { SummariesExactEverywhere ATOMIC_LAYERS (layer_word layers) },
}

impl AtomicBitSet {
    ghost use Rattle.hibitset_atomic.specs.Blocks.{IsMade, HasRoom};
    ghost use Rattle.hibitset_atomic.specs.AtomicBitSet.{has, word_of, SharesBlockWithMember, NeedsAllocation, AllBlocksReserved};

    /// The empty set.
    ///
    /// # Errors
    ///
    /// An allocation fails.
    pub fn new(alloc: Global) -> Result<AtomicBitSet, AllocError>
        ensures empty { IfOk result (λ set. (i : ℕ) → has set i ≡ false) }
        ensures all_lack_room { IfOk result (λ set. (i : ℕ) → NeedsAllocation set i) }
    {
        let layers = Layers::new(alloc)?;
        Ok(AtomicBitSet { layers })
    }

    /// The words alone.
    pub(crate) fn into_layers(self) -> Layers
        ensures same { result ≡ self.layers }
        ensures summed { SummariesExactEverywhere ATOMIC_LAYERS (layer_word result) }
    {
        self.layers
    }

    /// The set of these words, whose summaries are exact.
    pub(crate) fn from_layers(layers: Layers) -> AtomicBitSet
        requires { SummariesExactEverywhere ATOMIC_LAYERS (layer_word layers) }
        ensures { result.layers ≡ layers }
    {
        AtomicBitSet { layers }
    }

    /// The set's allocator.
    #[inline]
    pub(crate) fn allocator(&self) -> Global {
        *self.layers.layer1.allocator()
    }

    /// The empty set, with capacity for all blocks.
    pub(crate) fn with_room(alloc: Global) -> Result<AtomicBitSet, AllocError>
        ensures zero { IfOk result (λ set. (l p : ℕ) → word_of set l p ≡ 0) }
        ensures has_room { IfOk result (λ set. HasRoom set.layers.layer0) }
    {
        let mut layers = Layers::new(alloc)?;
        layers.make_room()?;
        Ok(AtomicBitSet { layers })
    }

    /// Stores a word in layer 0, if there is capacity for all blocks, and sets the summaries over it right.
    #[inline]
    pub(crate) fn store_word(&mut self, place: usize, word: usize)
        requires in_range { place < 64 ^ (ATOMIC_LAYERS - 1) }
        requires has_room { HasRoom self.old.layers.layer0 }
        ensures here { word_of self.new 0 place ≡ word }
        ensures others { (p : ℕ) → p ≢ place → word_of self.new 0 p ≡ word_of self.old 0 p }
        ensures has_room { HasRoom self.new.layers.layer0 }
    {
        if self.layers.make(place).is_ok() {
            let before = self.layers.layer0(place);
            self.layers.store_word(place, before, word);
        }
    }

    // Puts an index in or takes it out, where its block is made, and returns whether it was there.
    #[inline]
    fn set_bit(&mut self, id: Index, stands: bool) -> bool
        requires { IsMade self.old.layers.layer0 (id / 64) }
        ensures was_member { result ≡ has self.old id }
        ensures put { (i : ℕ) → has self.new i ≡ (if i == id then stands else has self.old i) }
        ensures blocks { self.new.layers.layer0.places.items ≡ self.old.layers.layer0.places.items }
        ensures keeps_room { HasRoom self.old.layers.layer0 → HasRoom self.new.layers.layer0 }
    {
        let place = id as usize / 64;
        let before = self.layers.layer0(place);
        let word = with_bit(before, id as usize % 64, stands);
        if word == before {
            return stands;
        }
        self.layers.store_word(place, before, word);
        !stands
    }

    /// Adds an index below `ATOMIC_MAX_EID`, and returns whether it was there.
    ///
    /// # Errors
    ///
    /// An allocation fails: the members stay.
    ///
    /// # Cost
    ///
    /// - It does not allocate if some member `j` has the same `j / 4096`, or if the block of those 4,096 indices was
    ///   made before: once made it stays.
    /// - Else it makes that block and no other.
    /// - A set that `settle` made has capacity for all blocks, and allocates for none.
    #[inline]
    pub fn add(&mut self, id: Index) -> Result<bool, AllocError>
        requires { id < ATOMIC_MAX_EID }
        ensures was_member { IfOk result (λ was. was ≡ has self.old id) }
        ensures added { OnOk result ((i : ℕ) → has self.new i ≡ (has self.old i || i == id)) }
        ensures err { OnErr result ((i : ℕ) → has self.new i ≡ has self.old i) }
        ensures succeeds_near { SharesBlockWithMember self.old id → IsOk result }
        ensures err_lacks_room { OnErr result (NeedsAllocation self.old id) }
        ensures frees_none { (i : ℕ) → NeedsAllocation self.new i → NeedsAllocation self.old i }
        ensures makes_no_more { (i : ℕ) → i / 4096 ≢ id / 4096 → NeedsAllocation self.old i
            → NeedsAllocation self.new i }
        ensures err_makes_none { OnErr result ((i : ℕ) → NeedsAllocation self.old i
            → NeedsAllocation self.new i) }
        ensures succeeds { AllBlocksReserved self.old → IsOk result }
        ensures all_reserved { AllBlocksReserved self.old → AllBlocksReserved self.new }
    {
        self.layers.make(id as usize / 64)?;
        Ok(self.set_bit(id, true))
    }

    /// Takes an index out, and returns whether it was there. Blocks that were made stay, and none is made.
    #[inline]
    pub fn remove(&mut self, id: Index) -> bool
        ensures was_member { result ≡ has self.old id }
        ensures removed { (i : ℕ) → has self.new i ≡ (has self.old i && not (i == id)) }
        ensures frees_none { (i : ℕ) → NeedsAllocation self.new i → NeedsAllocation self.old i }
        ensures makes_no_more { (i : ℕ) → NeedsAllocation self.old i → NeedsAllocation self.new i }
        ensures all_reserved { AllBlocksReserved self.old → AllBlocksReserved self.new }
    {
        if !self.contains(id) {
            return false;
        }
        self.set_bit(id, false)
    }

    /// Returns whether an index is there.
    #[inline]
    pub fn contains(&self, id: Index) -> bool
        ensures { result ≡ has self.now id }
    {
        let index = id as usize;
        self.layers.layer0(index / 64) >> (index % 64) & 1 == 1
    }

    /// Takes all members out, and keeps the memory: blocks that were made stay, and none is made.
    pub fn clear(&mut self)
        ensures empty { (i : ℕ) → has self.new i ≡ false }
        ensures frees_none { (i : ℕ) → NeedsAllocation self.new i → NeedsAllocation self.old i }
        ensures makes_no_more { (i : ℕ) → NeedsAllocation self.old i → NeedsAllocation self.new i }
        ensures all_reserved { AllBlocksReserved self.old → AllBlocksReserved self.new }
    {
        self.layers.clear();
    }
}

impl BitSetLike for AtomicBitSet {
    ghost use Rattle.hibitset_atomic.specs.AtomicBitSet.{has, topped_word, topped_is_lawful};

    ghost holds = { has };

    ghost word = { topped_word };

    ghost lawful = { topped_is_lawful };

    #[inline]
    fn is_empty(&self) -> bool {
        self.layer4() == 0
    }

    #[inline]
    fn has_cheap_words(&self) -> bool {
        true
    }

    #[inline]
    fn layer4(&self) -> usize {
        (self.layers.layer3 != 0) as usize
    }

    #[inline]
    fn layer3(&self, i: usize) -> usize {
        self.layers.layer3(i)
    }

    #[inline]
    fn layer2(&self, i: usize) -> usize {
        self.layers.layer2(i)
    }

    #[inline]
    fn layer1(&self, i: usize) -> usize {
        self.layers.layer1(i)
    }

    #[inline]
    fn layer0(&self, i: usize) -> usize {
        self.layers.layer0(i)
    }

    #[inline]
    fn contains(&self, i: Index) -> bool {
        AtomicBitSet::contains(self, i)
    }
}

impl DrainableBitSet for AtomicBitSet {
    ghost use Rattle.hibitset_atomic.specs.AtomicBitSet.{KeepsBlocks, keeps_own_blocks, keeps_blocks_twice};

    ghost keeps_room = { KeepsBlocks };

    ghost keeps_own = { keeps_own_blocks };

    ghost keeps_both = { keeps_blocks_twice };

    #[inline]
    fn remove(&mut self, i: Index) -> bool {
        AtomicBitSet::remove(self, i)
    }
}

/// It prints the members, in ascending order: `{5, 70000}`.
impl Debug for AtomicBitSet {
    fn fmt<W: fmt::Write>(&self, f: &mut Formatter<W>) -> fmt::Result {
        f.debug_set().entries(self.iter()).finish()
    }
}
