//! The set that keeps its nonzero words alone.
#![tactic(auto, unfolding(crate::specs::SparseBitSet::has, crate::specs::SparseBitSet::word_of))]

ghost use Rattle.std.specs.Prelude.{◌≡◌, ℕ, ◌+◌, ◌*◌, ◌/◌, ◌%◌, ◌^◌, ◌<◌, ◌==◌, ◌||◌, ◌&&◌, not, Bool, false, OnOk, OnErr, IfOk, IsOk};
ghost use Rattle.hibitset_base.specs.Words.{SummariesExactEverywhere};
ghost use Rattle.hibitset_base.specs.declared.util.TheConstants.{LAYERS, MAX_EID};
ghost use Rattle.hibitset_sparse.specs.Chunks.{AreFull, word_in};

use crate::bulk::{count_before, count_members, list_members};
use crate::chunk::{Chunk, INDICES_PER_CHUNK};
use crate::select::nth_member;
use crate::table::{PLACES_PER_TABLE, Table};
use crate::walk::SparseIter;
use hibitset_base::like::{BitSetLike, DrainableBitSet};
use hibitset_base::util::{Index, LAYERS, MAX_EID};
use std::alloc::{AllocError, Global};
use std::fmt::{self, Debug, Formatter};

/// A set of indices below `MAX_EID` that keeps its nonzero words alone: its memory goes by its members, wherever they
/// lie.
#[derive(Drop)]
pub struct SparseBitSet {
    pub(crate) chunks: Table<Chunk>,
    ghost full: { AreFull chunks },
    ghost summed: { SummariesExactEverywhere LAYERS (word_in chunks) },
}

impl SparseBitSet {
    ghost use Rattle.std.specs.Prelude.{◌≤◌, length, min, slice_get};
    ghost use Rattle.std.specs.Iterator.{YieldsFirst};
    ghost use Rattle.std.specs.Iterator.Runs.{YieldsInOrder};
    ghost use Rattle.hibitset_base.specs.Members.{members_below};
    ghost use Rattle.hibitset_sparse.specs.SparseBitSet.{has, word_of};
    ghost use Rattle.hibitset_sparse.specs.Walk.{items_left};

    /// The empty set, which does not allocate until the first `add`.
    pub fn new(alloc: Global) -> SparseBitSet
        ensures { (i : ℕ) → has result i ≡ false }
    {
        SparseBitSet {
            chunks: Table::new(alloc),
        }
    }

    /// Adds an index below `MAX_EID`, and returns whether it was there.
    ///
    /// # Errors
    ///
    /// An allocation fails: the members stay. It does not allocate if one of the 64 indices that share its word is a
    /// member.
    pub fn add(&mut self, id: Index) -> Result<bool, AllocError>
        requires { id < MAX_EID }
        ensures was_member { IfOk result (λ was. was ≡ has self.old id) }
        ensures added { OnOk result ((i : ℕ) → has self.new i ≡ (has self.old i || i == id)) }
        ensures err { OnErr result ((i : ℕ) → has self.new i ≡ has self.old i) }
        ensures succeeds { 0 < word_of self.old 0 (id / 64) → IsOk result }
    {
        let id = id as usize;
        if let Some(at) = self.chunks.position(id / INDICES_PER_CHUNK) {
            return self.chunks.items[at].add(id % INDICES_PER_CHUNK);
        }
        let mut chunk = Chunk::new(*self.chunks.items.allocator());
        chunk.add(id % INDICES_PER_CHUNK)?;
        self.chunks.insert(id / INDICES_PER_CHUNK, chunk)?;
        Ok(false)
    }

    /// Takes an index out, and returns whether it was there.
    pub fn remove(&mut self, id: Index) -> bool
        ensures was_member { result ≡ has self.old id }
        ensures removed { (i : ℕ) → has self.new i ≡ (has self.old i && not (i == id)) }
    {
        let id = id as usize;
        if id >= MAX_EID {
            return false;
        }
        let Some(at) = self.chunks.position(id / INDICES_PER_CHUNK) else {
            return false;
        };
        let was = self.chunks.items[at].remove(id % INDICES_PER_CHUNK);
        if self.chunks.items[at].layer2() == 0 {
            let _chunk = self.chunks.remove(id / INDICES_PER_CHUNK);
            return was;
        }
        was
    }

    /// Returns whether an index is there.
    #[inline]
    pub fn contains(&self, id: Index) -> bool
        ensures { result ≡ has self.now id }
    {
        let id = id as usize;
        self.layer0(id / 64) >> (id % 64) & 1 == 1
    }

    /// A walk over the members, in ascending order.
    ///
    /// It goes along the stored words and looks none up. It reads 8 bytes for each nonzero word, 16 more for each run
    /// of 4,096 indices with members, and a table's head for each of 262,144. The walk itself takes 136 bytes, and does
    /// not allocate.
    ///
    /// Where `BitSetLike` is in scope, `set.iter()` of an owned set is the trait's, which takes the set: write
    /// `(&set).iter()`, or `for index in &set`.
    #[inline]
    pub fn iter(&self) -> SparseIter<'_>
        ensures items { items_left result ≡ members_below MAX_EID (has self.now) }
        ensures runs { YieldsInOrder (YieldsFirst items_left) items_left }
        ensures fits { length (items_left result) ≤ MAX_EID }
    {
        SparseIter::new(&self.chunks)
    }

    /// The members, in ascending order.
    ///
    /// # Errors
    ///
    /// The allocation fails.
    ///
    /// # Cost
    ///
    /// It reads each stored word twice, once to count its members and once to list them, and allocates once, for all of
    /// them.
    pub fn to_vec(&self, alloc: Global) -> Result<Vec<Index>, AllocError>
        ensures { IfOk result (λ v. v.items ≡ members_below MAX_EID (has self.now)) }
    {
        list_members(&self.chunks, alloc)
    }

    /// How many members there are. It reads each stored word once, 8 bytes.
    pub fn len(&self) -> usize
        ensures { result ≡ length (members_below MAX_EID (has self.now)) }
    {
        count_members(&self.chunks)
    }

    /// How many members lie before `end`: the position of `end` in the list of all, if it is a member. It reads each
    /// stored word before `end` once, 8 bytes.
    pub fn rank(&self, end: Index) -> usize
        ensures { result ≡ length (members_below (min end MAX_EID) (has self.now)) }
    {
        let end = end as usize;
        if end >= MAX_EID {
            return self.len();
        }
        count_before(&self.chunks, end)
    }

    /// The member at a position of the ascending list of all, the least one at 0, or `None` past its end.
    ///
    /// It reads each stored word up to that member's once, 8 bytes, and those of its chunk up to it once more.
    pub fn select(&self, at: usize) -> Option<Index>
        ensures { result ≡ slice_get (members_below MAX_EID (has self.now)) at }
    {
        nth_member(&self.chunks, at)
    }

    /// Takes all members out, and gives the memory back.
    pub fn clear(&mut self)
        ensures { (i : ℕ) → has self.new i ≡ false }
    {
        let alloc = self.allocator();
        self.chunks = Table::new(alloc);
    }

    // What the set's memory comes from.
    pub(crate) fn allocator(&self) -> Global {
        *self.chunks.items.allocator()
    }
}

impl BitSetLike for SparseBitSet {
    ghost use Rattle.hibitset_sparse.specs.SparseBitSet.{has, word_of, has_is_lawful};

    ghost holds = { has };

    ghost word = { word_of };

    ghost lawful = { has_is_lawful };

    #[inline]
    fn has_cheap_words(&self) -> bool {
        true
    }

    #[inline]
    fn layer4(&self) -> usize {
        self.chunks.groups.word
    }

    #[inline]
    fn layer3(&self, i: usize) -> usize {
        if i >= 64 {
            return 0;
        }
        self.chunks.word(i)
    }

    #[inline]
    fn layer2(&self, i: usize) -> usize {
        if i >= PLACES_PER_TABLE {
            return 0;
        }
        match self.chunks.get(i) {
            Some(chunk) => chunk.layer2(),
            None => 0,
        }
    }

    #[inline]
    fn layer1(&self, i: usize) -> usize {
        if i >= 64 * PLACES_PER_TABLE {
            return 0;
        }
        match self.chunks.get(i / 64) {
            Some(chunk) => chunk.layer1(i % 64),
            None => 0,
        }
    }

    #[inline]
    fn layer0(&self, i: usize) -> usize {
        if i >= 64 * 64 * PLACES_PER_TABLE {
            return 0;
        }
        match self.chunks.get(i / (64 * 64)) {
            Some(chunk) => chunk.layer0(i % (64 * 64)),
            None => 0,
        }
    }

    #[inline]
    fn contains(&self, i: Index) -> bool {
        SparseBitSet::contains(self, i)
    }
}

/// A removal gives the memory of an emptied part back, so no capacity is kept.
impl DrainableBitSet for SparseBitSet {
    ghost keeps_room = { λ old new. Unit {0} };

    ghost keeps_own = { λ s. tt };

    ghost keeps_both = { λ a b c first second. tt };

    #[inline]
    fn remove(&mut self, i: Index) -> bool {
        SparseBitSet::remove(self, i)
    }
}

/// The members, in ascending order, as `SparseBitSet::iter` gives them.
impl<'a> IntoIterator for &'a SparseBitSet {
    type Item = Index;

    type IntoIter = SparseIter<'a>;

    ghost use Rattle.hibitset_sparse.specs.WholeWalk.{GivesMembers};

    ghost into_iter_gives = { λ set walk. GivesMembers set.now walk };

    #[inline]
    fn into_iter(self) -> SparseIter<'a> {
        self.iter()
    }
}

/// It prints the members, in ascending order: `{5, 70000}`.
impl Debug for SparseBitSet {
    fn fmt<W: fmt::Write>(&self, f: &mut Formatter<W>) -> fmt::Result {
        f.debug_set().entries(self.iter()).finish()
    }
}
