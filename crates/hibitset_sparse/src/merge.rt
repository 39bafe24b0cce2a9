//! Two sparse sets put together, chunk beside chunk.
ghost use Rattle.std.specs.Prelude.{◌≡◌, ◌≢◌, ℕ, ◌+◌, ◌*◌, ◌/◌, ◌%◌, ◌<◌, ◌≤◌, Bool, false, refl, ◌||◌, bit_or, bit_xor, [], length, vec_capacity, IfOk, IsOk, OnOk, OnErr};
ghost use Rattle.std.specs.Int.{bit_at};
ghost use Rattle.std.specs.Int.RustNames.{count_ones};
ghost use Rattle.hibitset_base.specs.Connectives.{IsDifference, IsIntersection, IsSymmetricDifference, IsUnion};
ghost use Rattle.hibitset_base.specs.Members.{members_below};
ghost use Rattle.hibitset_base.specs.Virtual.{differ};
ghost use Rattle.hibitset_base.specs.declared.util.TheConstants.{MAX_EID};
ghost use Rattle.hibitset_sparse.specs.Chunk.{has_in, or_zero};
ghost use Rattle.hibitset_sparse.specs.GroupView.{view_has, view_word};
ghost use Rattle.hibitset_sparse.specs.Layout.{value_of_place};
ghost use Rattle.hibitset_sparse.specs.Merge.{CoversTest, IsWordOf, or_bits, xor_bits};
ghost use Rattle.hibitset_sparse.specs.PackedArray.{value_in};
ghost use Rattle.hibitset_sparse.specs.Parts.{AreWordsFrom, BeginsWith, IsMadeUpTo};
ghost use Rattle.hibitset_sparse.specs.Rank.{bit_is_set, rank_in};
ghost use Rattle.hibitset_sparse.specs.SparseBitSet.{has};
ghost use Rattle.hibitset_sparse.specs.declared.table.TheConstants.{PLACES_PER_TABLE};
ghost use Rattle.hibitset_sparse.specs.declared.chunk.TheConstants.{INDICES_PER_CHUNK};

use crate::chunk::Chunk;
use crate::gather::{ChunkSource, chunk_of, chunks_from};
use crate::group::Group;
use crate::group_view::GroupView;
use crate::kept::{AloneSparse, BothSparse};
use crate::packed_array::PackedArray;
use crate::rank::is_set;
use crate::set::SparseBitSet;
use crate::table::{GROUPS_PER_TABLE, PLACES_PER_TABLE, Table};
use hibitset_base::bits::{take_bit, with_bit};
use hibitset_base::like::BitSetLike;
use std::alloc::{AllocError, Global};

/// A way to put two sets together, index by index.
pub(crate) trait Merge: Drop {
    // Whether an index is there, by whether it is in the one and in the other.
    ghost test: { Bool → Bool → Bool };

    /// The bits over which there may be something, of those of the two.
    fn merged_bits(own: usize, other: usize) -> usize
        ensures { CoversTest test own other result };

    // What two words give, bit by bit.
    ghost merged: { ℕ → ℕ → ℕ };

    /// The word that two words give.
    fn merged_word(own: usize, other: usize) -> usize
        ensures { result ≡ merged own other };

    // Two words that are 0 give one that is 0.
    ghost nothing: { merged 0 0 ≡ 0 };

    // The bits of the word that two words give are those of the test.
    ghost bits: { (v w b : ℕ) → bit_is_set (merged v w) b ≡ test (bit_is_set v b) (bit_is_set w b) };

    // Of what is in the other alone, all is there.
    ghost other_alone: { (b : Bool) → test false b ≡ b };
}

/// What is in one or both.
#[derive(Drop)]
pub(crate) struct Union;

impl Merge for Union {
    ghost test = { λ a b. a || b };

    ghost merged = { bit_or };

    ghost nothing = { refl };

    ghost bits = { or_bits };

    ghost other_alone = { λ b. refl };

    #[inline]
    fn merged_bits(own: usize, other: usize) -> usize {
        own | other
    }

    #[inline]
    fn merged_word(own: usize, other: usize) -> usize {
        own | other
    }
}

/// What is in one alone.
#[derive(Drop)]
pub(crate) struct SymmetricDifference;

impl Merge for SymmetricDifference {
    ghost test = { λ a b. differ a b };

    ghost merged = { bit_xor };

    ghost nothing = { refl };

    ghost bits = { xor_bits };

    ghost other_alone = { λ b. refl };

    #[inline]
    fn merged_bits(own: usize, other: usize) -> usize {
        own | other
    }

    #[inline]
    fn merged_word(own: usize, other: usize) -> usize {
        own ^ other
    }
}

// The word of a bit of a group, which lies at `at` if the bit is set: then `at` moves behind it. Where set and clear bits
// are `mixed`, all take the same steps, with a word times 0 for a clear one: a branch would often be mispredicted.
#[inline]
fn take_word(view: &GroupView<'_>, bit: usize, at: &mut usize, mixed: bool) -> usize
    requires bit { bit < 64 }
    requires position { at.old ≡ view.now.start + rank_in view.now.word bit }
    ensures word { result ≡ view_word view.now 0 bit }
    ensures next_position { at.new ≡ at.old + bit_at view.now.word bit }
{
    if mixed {
        let times = view.word >> bit & 1;
        let word = match view.items.get(*at) {
            Some(word) => *word,
            None => 0,
        };
        *at += times;
        return word * times;
    }
    if !is_set(view.word, bit) {
        return 0;
    }
    let word = view.items[*at];
    *at += 1;
    word
}

// Appends the nonzero words that two groups give, and returns which of the 64 they are, as bits.
#[inline]
fn push_words<M: Merge>(
    items: &mut Vec<usize>,
    own: &GroupView<'_>,
    other: &GroupView<'_>,
) -> Result<usize, AllocError>
    ensures before { BeginsWith items.old.items items.new.items }
    ensures pushed { IfOk result (λ bits. AreWordsFrom (length items.old.items) bits items.new.items
        (λ b. M.merged (view_word own.now 0 b) (view_word other.now 0 b))) }
{
    let mixed = own.word != other.word;
    let mut left = own.word | other.word;
    let mut own_at = own.start;
    let mut other_at = other.start;
    let mut bits = 0;
    'places: while left != 0 {
        let bit = take_bit(&mut left);
        let first = take_word(own, bit, &mut own_at, mixed);
        let second = take_word(other, bit, &mut other_at, mixed);
        let word = M::merged_word(first, second);
        if word != 0 {
            items.push(word)?;
            bits = with_bit(bits, bit, true);
        }
    }
    Ok(bits)
}

// Appends group q, made of a group of each, where no group is there from q on.
#[inline]
fn push_merged<M: Merge>(
    groups: &mut PackedArray<Group>,
    items: &mut Vec<usize>,
    own: &GroupView<'_>,
    other: &GroupView<'_>,
    q: usize,
) -> Result<(), AllocError>
    requires group { q < GROUPS_PER_TABLE }
    requires made { IsMadeUpTo q (value_in groups.old) items.old.items }
    ensures made { OnOk result (IsMadeUpTo (q + 1) (value_in groups.new) items.new.items) }
    ensures pushed { OnOk result ((p : ℕ) → p < PLACES_PER_TABLE → p / 64 ≡ q
        → IsWordOf M.test (view_has own.now) (view_has other.now) (64 * (p % 64))
        (or_zero (value_of_place (value_in groups.new) items.new.items p))) }
    ensures others { OnOk result ((p : ℕ) → p < PLACES_PER_TABLE → p / 64 ≢ q
        → value_of_place (value_in groups.new) items.new.items p
        ≡ value_of_place (value_in groups.old) items.old.items p) }
{
    let start = items.len();
    let word = push_words::<M>(items, own, other)?;
    if word == 0 {
        return Ok(());
    }
    groups.push(q, Group { word, start })
}

// In how many places two chunks have words.
fn count_places(own: &Chunk, other: &Chunk) -> usize {
    let mut in_both: u32 = 0;
    let mut left = own.layer2() & other.layer2();
    'groups: while left != 0 {
        let q = take_bit(&mut left);
        let places = own.layer1(q) & other.layer1(q);
        in_both = in_both.saturating_add(places.count_ones());
    }
    let words = own
        .words
        .items
        .len()
        .saturating_add(other.words.items.len());
    words.saturating_sub(in_both as usize)
}

// A chunk made of two.
fn merge_chunks<M: Merge>(alloc: Global, own: &Chunk, other: &Chunk) -> Result<Chunk, AllocError>
    ensures { IfOk result (λ chunk. (i : ℕ) → i < INDICES_PER_CHUNK
        → has_in chunk i ≡ M.test (has_in own.now i) (has_in other.now i)) }
{
    let mut groups = PackedArray::new(alloc);
    let mut items = Vec::new(alloc);
    let mut left = M::merged_bits(own.layer2(), other.layer2());
    groups.reserve(left.count_ones() as usize)?;
    items.reserve(count_places(own, other))?;
    'groups: while left != 0 {
        let q = take_bit(&mut left);
        let of_own = GroupView::of(own, q);
        let of_other = GroupView::of(other, q);
        push_merged::<M>(&mut groups, &mut items, &of_own, &of_other, q)?;
    }
    Ok(Chunk {
        words: Table { groups, items },
    })
}

// The chunk of a set, or this one, which is empty.
fn chunk_or<'a>(set: &'a SparseBitSet, c: usize, empty: &'a Chunk) -> &'a Chunk
    requires in_range { c < PLACES_PER_TABLE }
    requires empty { (i : ℕ) → has_in empty.now i ≡ false }
    ensures { (i : ℕ) → i < INDICES_PER_CHUNK
        → has_in result.now i ≡ has set.now (INDICES_PER_CHUNK * c + i) }
{
    match set.chunks.get(c) {
        Some(chunk) => chunk,
        None => empty,
    }
}

// The chunks of two sets put together.
#[derive(Drop)]
struct Merged<'a, M: Merge> {
    own: &'a SparseBitSet,
    other: &'a SparseBitSet,
    by: M,
}

impl<M: Merge> ChunkSource for Merged<'_, M> {
    ghost holds = { λ s i. M.test (has s.own.now i) (has s.other.now i) };

    fn make_chunk(&self, alloc: Global, c: usize) -> Result<Chunk, AllocError> {
        let empty = Chunk::new(alloc);
        let own = chunk_or(self.own, c, &empty);
        let other = chunk_or(self.other, c, &empty);
        if own.layer2() == 0 {
            return other.clone();
        }
        merge_chunks::<M>(alloc, own, other)
    }
}

/// The chunks of a set put together with any other set.
#[derive(Drop)]
pub(crate) struct MergedWith<'a, B: BitSetLike, M: Merge> {
    pub(crate) own: &'a SparseBitSet,
    pub(crate) other: &'a B,
    pub(crate) by: M,
}

impl<B: BitSetLike, M: Merge> ChunkSource for MergedWith<'_, B, M> {
    ghost holds = { λ s i. M.test (has s.own.now i) (B.holds s.other.now i) };

    fn make_chunk(&self, alloc: Global, c: usize) -> Result<Chunk, AllocError> {
        let other = chunk_of(alloc, self.other, c)?;
        match self.own.chunks.get(c) {
            Some(own) => merge_chunks::<M>(alloc, own, &other),
            None => Ok(other),
        }
    }
}

impl SparseBitSet {
    /// Adds the members of another sparse set.
    ///
    /// # Errors
    ///
    /// An allocation fails: the members stay. It can't fail if the other has none.
    ///
    /// # Cost
    ///
    /// - It goes through the words of both sets in the chunks in which both have members, and copies the other chunks
    ///   of the other.
    /// - These are made anew, each beside its old form. If one of them is new, so is the list of all chunks, 56 bytes
    ///   each.
    pub fn union_with(&mut self, other: &SparseBitSet) -> Result<(), AllocError>
        ensures members { OnOk result (IsUnion (has self.old) (has other.now) (has self.new)) }
        ensures err { OnErr result ((i : ℕ) → has self.new i ≡ has self.old i) }
        ensures succeeds_empty { members_below MAX_EID (has other.now) ≡ [] → IsOk result }
    {
        if other.is_empty() {
            return Ok(());
        }
        let alloc = self.allocator();
        let merged = Merged {
            own: &*self,
            other,
            by: Union,
        };
        let chunks = chunks_from(alloc, &merged, other)?;
        self.put_chunks(chunks)
    }

    /// Adds the members of another sparse set that were not there, and takes out those that were.
    ///
    /// # Errors
    ///
    /// An allocation fails: the members stay. It can't fail if the other has none.
    ///
    /// # Cost
    ///
    /// That of `union_with`.
    pub fn symmetric_difference_with(&mut self, other: &SparseBitSet) -> Result<(), AllocError>
        ensures members { OnOk result (IsSymmetricDifference (has self.old) (has other.now)
            (has self.new)) }
        ensures err { OnErr result ((i : ℕ) → has self.new i ≡ has self.old i) }
        ensures succeeds_empty { members_below MAX_EID (has other.now) ≡ [] → IsOk result }
    {
        if other.is_empty() {
            return Ok(());
        }
        let alloc = self.allocator();
        let merged = Merged {
            own: &*self,
            other,
            by: SymmetricDifference,
        };
        let chunks = chunks_from(alloc, &merged, other)?;
        self.put_chunks(chunks)
    }

    /// Takes out the members that are not in the other sparse set. It does not allocate.
    ///
    /// It goes through the words of this set once, in the chunks in which both have members. They are changed in place,
    /// and those that are left close up.
    pub fn intersect_with(&mut self, other: &SparseBitSet)
        ensures { IsIntersection (has self.old) (has other.now) (has self.new) }
    {
        self.retain_chunks(&BothSparse(other));
    }

    /// Takes out the members that are in the other sparse set. It does not allocate, and goes through the words of this
    /// set as `intersect_with` does.
    pub fn difference_with(&mut self, other: &SparseBitSet)
        ensures { IsDifference (has self.old) (has other.now) (has self.new) }
    {
        self.retain_chunks(&AloneSparse(other));
    }
}
