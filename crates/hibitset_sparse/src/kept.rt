//! What is left of words and chunks if the indices stay that are in another set, or those that are not.
ghost use Rattle.std.specs.Prelude.{◌≡◌, ℕ, ◌+◌, ◌*◌, ◌/◌, ◌%◌, ◌^◌, ◌<◌, Option, Some, true, false, not};
ghost use Rattle.hibitset_base.specs.declared.util.TheConstants.{MAX_EID};
ghost use Rattle.hibitset_sparse.specs.Chunk.{chunk_word, has_in};
ghost use Rattle.hibitset_sparse.specs.Replacement.{has_in_or};
ghost use Rattle.hibitset_sparse.specs.Retain.{IsKeptChunk, IsKeptOfNonzero, IsKeptWord, LeavesOf};
ghost use Rattle.hibitset_sparse.specs.SparseBitSet.{has};
ghost use Rattle.hibitset_sparse.specs.Table.{value_at};
ghost use Rattle.hibitset_sparse.specs.declared.chunk.Chunk.{Chunk};
ghost use Rattle.hibitset_sparse.specs.declared.chunk.TheConstants.{INDICES_PER_CHUNK};
ghost use Rattle.hibitset_sparse.specs.declared.table.TheConstants.{GROUPS_PER_TABLE, PLACES_PER_TABLE};

use crate::chunk::Chunk;
use crate::group::Group;
use crate::group_view::GroupView;
use crate::retain::{Change, GroupChange, retain_group};
use crate::set::SparseBitSet;
use crate::table::{GROUPS_PER_TABLE, PLACES_PER_TABLE, Table};
use hibitset_base::like::BitSetLike;
use hibitset_base::virt::BitSetNot;
use std::mem;

/// The words of chunk c, of which the indices stay that are in a set.
#[derive(Drop)]
struct ChunkPart<'a, K: BitSetLike> {
    kept: &'a K,
    c: usize,
    ghost within: { c < PLACES_PER_TABLE },
}

impl<K: BitSetLike> Change<usize> for ChunkPart<'_, K> {
    ghost leaves = { λ s p. IsKeptWord (K.holds s.kept.now) (4096 * s.c + p) };

    #[inline]
    fn places(&self, q: usize) -> usize {
        self.kept.layer1(GROUPS_PER_TABLE * self.c + q)
    }

    #[inline]
    fn change(&self, i: usize, value: &mut usize) -> bool {
        *value &= self.kept.layer0(PLACES_PER_TABLE * self.c + i);
        *value != 0
    }
}

impl<K: BitSetLike> GroupChange<usize> for ChunkPart<'_, K> {
    ghost leaves = { λ s p. IsKeptWord (K.holds s.kept.now) (4096 * s.c + p) };

    #[inline]
    fn groups(&self) -> usize {
        self.kept.layer2(self.c)
    }

    #[inline]
    fn retain_group(&self, items: &mut Vec<usize>, q: usize, group: Group, to: usize) -> usize {
        retain_group(items, self, q, group, to)
    }
}

/// The words of a group, of which the indices stay that are in a set of the group's own indices.
#[derive(Drop)]
struct GroupPart<'a, K: BitSetLike>(&'a K);

impl<K: BitSetLike> Change<usize> for GroupPart<'_, K> {
    ghost leaves = { λ s. IsKeptWord (λ i. K.holds s.0.now (i % 4096)) };

    #[inline]
    fn places(&self, _q: usize) -> usize {
        self.0.layer1(0)
    }

    #[inline]
    fn change(&self, i: usize, value: &mut usize) -> bool {
        *value &= self.0.layer0(i % 64);
        *value != 0
    }
}

/// The words of a chunk, of which the indices stay that are in another chunk too.
#[derive(Drop)]
struct ChunkBoth<'a>(&'a Chunk);

impl GroupChange<usize> for ChunkBoth<'_> {
    ghost leaves = { λ s. IsKeptWord (has_in s.0.now) };

    #[inline]
    fn groups(&self) -> usize {
        self.0.layer2()
    }

    #[inline]
    fn retain_group(&self, items: &mut Vec<usize>, q: usize, group: Group, to: usize) -> usize {
        let kept = GroupView::of(self.0, q);
        retain_group(items, &GroupPart(&kept), q, group, to)
    }
}

/// The words of a chunk, of which the indices stay that are not in another chunk.
#[derive(Drop)]
struct ChunkAlone<'a>(&'a Chunk);

impl GroupChange<usize> for ChunkAlone<'_> {
    ghost leaves = { λ s. IsKeptOfNonzero (λ i. not (has_in s.0.now i)) };

    #[inline]
    fn groups(&self) -> usize {
        usize::MAX
    }

    #[inline]
    fn retain_group(&self, items: &mut Vec<usize>, q: usize, group: Group, to: usize) -> usize {
        let other = GroupView::of(self.0, q);
        if to == group.start && group.word & other.word == 0 {
            return group.word;
        }
        let kept = BitSetNot(other);
        retain_group(items, &GroupPart(&kept), q, group, to)
    }
}

/// The words of chunk c, of which the indices stay that are not in another set.
#[derive(Drop)]
struct ChunkMinus<'a, B: BitSetLike> {
    other: &'a B,
    c: usize,
    ghost within: { c < PLACES_PER_TABLE },
}

impl<B: BitSetLike> GroupChange<usize> for ChunkMinus<'_, B> {
    ghost leaves = { λ s p. IsKeptOfNonzero (λ i. not (B.holds s.other.now i)) (4096 * s.c + p) };

    #[inline]
    fn groups(&self) -> usize {
        usize::MAX
    }

    #[inline]
    fn retain_group(&self, items: &mut Vec<usize>, q: usize, group: Group, to: usize) -> usize {
        let places = self.other.layer1(GROUPS_PER_TABLE * self.c + q);
        if to == group.start && group.word & places == 0 {
            return group.word;
        }
        let kept = BitSetNot(self.other);
        retain_group(
            items,
            &ChunkPart {
                kept: &kept,
                c: self.c,
            },
            q,
            group,
            to,
        )
    }
}

// Changes the words of a chunk, and returns whether it has any then.
fn retain_words<G: GroupChange<usize>>(chunk: &mut Chunk, by: &G) -> bool
    requires nonzero { (p w : ℕ) (left : Option ℕ) → G.leaves by.now p w left
        → 0 < w → w < 2 ^ 64 → (v : ℕ) → left ≡ Some v → (0 < v) × (v < 2 ^ 64) }
    ensures words { (p : ℕ) → p < PLACES_PER_TABLE → LeavesOf (G.leaves by.now p)
        (value_at chunk.old.words p) (value_at chunk.new.words p) }
    ensures nonempty { result ≡ true → 0 < chunk_word chunk.new 2 0 }
    ensures empty { result ≡ false → chunk_word chunk.new 2 0 ≡ 0 }
{
    let alloc = *chunk.words.items.allocator();
    let words = mem::replace(&mut chunk.words, Table::new(alloc));
    chunk.words = words.retain(by);
    chunk.layer2() != 0
}

/// The chunks of a set, of which the indices stay that are in any other set too.
#[derive(Drop)]
pub(crate) struct Both<'a, B: BitSetLike>(pub(crate) &'a B);

impl<B: BitSetLike> Change<Chunk> for Both<'_, B> {
    ghost leaves = { λ s. IsKeptChunk (B.holds s.0.now) };

    #[inline]
    fn places(&self, q: usize) -> usize {
        self.0.layer3(q)
    }

    #[inline]
    fn change(&self, i: usize, value: &mut Chunk) -> bool {
        retain_words(value, &ChunkPart { kept: self.0, c: i })
    }
}

/// The chunks of a set, of which the indices stay that are not in any other set.
#[derive(Drop)]
pub(crate) struct Alone<'a, B: BitSetLike>(pub(crate) &'a B);

impl<B: BitSetLike> Change<Chunk> for Alone<'_, B> {
    ghost leaves = { λ s. IsKeptChunk (λ i. not (B.holds s.0.now i)) };

    #[inline]
    fn places(&self, _q: usize) -> usize {
        usize::MAX
    }

    #[inline]
    fn change(&self, i: usize, value: &mut Chunk) -> bool {
        if self.0.layer2(i) == 0 {
            return value.layer2() != 0;
        }
        retain_words(
            value,
            &ChunkMinus {
                other: self.0,
                c: i,
            },
        )
    }
}

/// The chunks of a set, of which the indices stay that are in another sparse set too.
#[derive(Drop)]
pub(crate) struct BothSparse<'a>(pub(crate) &'a SparseBitSet);

impl Change<Chunk> for BothSparse<'_> {
    ghost leaves = { λ s. IsKeptChunk (has s.0.now) };

    #[inline]
    fn places(&self, q: usize) -> usize {
        self.0.chunks.word(q)
    }

    #[inline]
    fn change(&self, i: usize, value: &mut Chunk) -> bool {
        match self.0.chunks.get(i) {
            Some(other) => retain_words(value, &ChunkBoth(other)),
            None => false,
        }
    }
}

/// The chunks of a set, of which the indices stay that are not in another sparse set.
#[derive(Drop)]
pub(crate) struct AloneSparse<'a>(pub(crate) &'a SparseBitSet);

impl Change<Chunk> for AloneSparse<'_> {
    ghost leaves = { λ s. IsKeptChunk (λ i. not (has s.0.now i)) };

    #[inline]
    fn places(&self, _q: usize) -> usize {
        usize::MAX
    }

    #[inline]
    fn change(&self, i: usize, value: &mut Chunk) -> bool {
        match self.0.chunks.get(i) {
            Some(other) => retain_words(value, &ChunkAlone(other)),
            None => value.layer2() != 0,
        }
    }
}

// A change of each chunk by itself.
#[derive(Drop)]
struct EachChunk<'a, C: Change<Chunk>>(&'a C);

impl<C: Change<Chunk>> GroupChange<Chunk> for EachChunk<'_, C> {
    ghost leaves = { λ s. C.leaves s.0.now };

    #[inline]
    fn groups(&self) -> usize {
        usize::MAX
    }

    #[inline]
    fn retain_group(&self, items: &mut Vec<Chunk>, q: usize, group: Group, to: usize) -> usize {
        retain_group(items, self.0, q, group, to)
    }
}

// Each chunk that has members, as it is.
#[derive(Drop)]
struct WithMembers;

impl Change<Chunk> for WithMembers {
    ghost leaves = { λ s. IsKeptChunk (λ i. true) };

    #[inline]
    fn places(&self, _q: usize) -> usize {
        usize::MAX
    }

    #[inline]
    fn change(&self, _i: usize, value: &mut Chunk) -> bool {
        value.layer2() != 0
    }
}

impl SparseBitSet {
    // The set of the members of chunks. Those without members are not kept. It does not allocate.
    pub(crate) fn of_chunks(chunks: Table<Chunk>) -> SparseBitSet
        ensures { (i : ℕ) → i < MAX_EID
            → has result i ≡ has_in_or (value_at chunks (i / INDICES_PER_CHUNK)) i false }
    {
        SparseBitSet {
            chunks: chunks.retain(&EachChunk(&WithMembers)),
        }
    }

    // Changes the chunks. None that stays is empty.
    pub(crate) fn retain_chunks<C: Change<Chunk>>(&mut self, by: &C)
        requires full { (c : ℕ) (chunk : Chunk) (left : Option Chunk) → C.leaves by.now c chunk left
            → (x : Chunk) → left ≡ Some x → 0 < chunk_word x 2 0 }
        ensures { (c : ℕ) → c < PLACES_PER_TABLE → LeavesOf (C.leaves by.now c)
            (value_at self.old.chunks c) (value_at self.new.chunks c) }
    {
        let alloc = self.allocator();
        let chunks = mem::replace(&mut self.chunks, Table::new(alloc));
        self.chunks = chunks.retain(&EachChunk(by));
    }
}
