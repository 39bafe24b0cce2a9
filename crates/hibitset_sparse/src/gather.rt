//! Chunks made of the words of any set.
ghost use Rattle.std.specs.Prelude.{◌≡◌, ◌≢◌, ℕ, ◌+◌, ◌*◌, ◌/◌, ◌%◌, ◌<◌, Bool, length, None, Some, IfOk, OnOk};
ghost use Rattle.hibitset_sparse.specs.Replacement.{AreChunksOf, HasNoneIn, IsChunkOf};
ghost use Rattle.hibitset_sparse.specs.Chunk.{or_zero};
ghost use Rattle.hibitset_sparse.specs.Layout.{value_of_place};
ghost use Rattle.hibitset_sparse.specs.PackedArray.{value_in};
ghost use Rattle.hibitset_sparse.specs.Rank.{bit_is_set};
ghost use Rattle.hibitset_sparse.specs.Parts.{AreWordsFrom, BeginsWith, IsMadeUpTo};
ghost use Rattle.hibitset_sparse.specs.Table.{value_at};
ghost use Rattle.hibitset_sparse.specs.declared.chunk.Chunk.{Chunk};

use crate::chunk::Chunk;
use crate::group::Group;
use crate::packed_array::PackedArray;
use crate::table::{GROUPS_PER_TABLE, PLACES_PER_TABLE, Table};
use hibitset_base::bits::{take_bit, with_bit};
use hibitset_base::like::BitSetLike;
use std::alloc::{AllocError, Global};

// Appends the nonzero words of a set under a word of its layer 1, and returns which of the 64 they are, as bits.
#[inline]
fn push_words<S: BitSetLike>(
    items: &mut Vec<usize>,
    set: &S,
    position: usize,
) -> Result<usize, AllocError>
    requires { position < GROUPS_PER_TABLE * PLACES_PER_TABLE }
    ensures before { BeginsWith items.old.items items.new.items }
    ensures pushed { IfOk result (λ bits. AreWordsFrom (length items.old.items) bits items.new.items
        (λ b. S.word set.now 0 (64 * position + b))) }
{
    let mut places = set.layer1(position);
    let mut bits = 0;
    'places: while places != 0 {
        let bit = take_bit(&mut places);
        let word = set.layer0(64 * position + bit);
        if word != 0 {
            items.push(word)?;
            bits = with_bit(bits, bit, true);
        }
    }
    Ok(bits)
}

/// Appends group q, with the words of a set under a word of its layer 1, if no group is there from q on.
#[inline]
pub(crate) fn push_group<S: BitSetLike>(
    groups: &mut PackedArray<Group>,
    items: &mut Vec<usize>,
    set: &S,
    position: usize,
    q: usize,
) -> Result<(), AllocError>
    requires position { position < GROUPS_PER_TABLE * PLACES_PER_TABLE }
    requires group { q < GROUPS_PER_TABLE }
    requires made { IsMadeUpTo q (value_in groups.old) items.old.items }
    ensures made { OnOk result (IsMadeUpTo (q + 1) (value_in groups.new) items.new.items) }
    ensures pushed { OnOk result ((p b : ℕ) → p < PLACES_PER_TABLE → p / 64 ≡ q → b < 64
        → bit_is_set (or_zero (value_of_place (value_in groups.new) items.new.items p)) b
        ≡ S.holds set.now (64 * (64 * position + p % 64) + b)) }
    ensures others { OnOk result ((p : ℕ) → p < PLACES_PER_TABLE → p / 64 ≢ q
        → value_of_place (value_in groups.new) items.new.items p
        ≡ value_of_place (value_in groups.old) items.old.items p) }
{
    let start = items.len();
    let word = push_words(items, set, position)?;
    if word == 0 {
        return Ok(());
    }
    groups.push(q, Group { word, start })
}

// How many words a set may have that are nonzero, of those of chunk c.
fn count_places<S: BitSetLike>(set: &S, c: usize) -> usize
    requires { c < PLACES_PER_TABLE }
{
    let mut count: u32 = 0;
    let mut left = set.layer2(c);
    'groups: while left != 0 {
        let places = set.layer1(GROUPS_PER_TABLE * c + take_bit(&mut left));
        count = count.saturating_add(places.count_ones());
    }
    count as usize
}

/// What a set has of the indices of chunk c.
pub(crate) fn chunk_of<S: BitSetLike>(alloc: Global, set: &S, c: usize) -> Result<Chunk, AllocError>
    requires { c < PLACES_PER_TABLE }
    ensures { IfOk result (IsChunkOf (S.holds set.now) c) }
{
    let mut groups = PackedArray::new(alloc);
    let mut items = Vec::new(alloc);
    let mut left = set.layer2(c);
    groups.reserve(left.count_ones() as usize)?;
    items.reserve(count_places(set, c))?;
    'groups: while left != 0 {
        let q = take_bit(&mut left);
        push_group(&mut groups, &mut items, set, GROUPS_PER_TABLE * c + q, q)?;
    }
    Ok(Chunk {
        words: Table { groups, items },
    })
}

/// What chunks can be made of.
pub(crate) trait ChunkSource: Drop {
    // Holds of the numbers that the chunks have.
    ghost holds: { Self → ℕ → Bool };

    /// Makes chunk c.
    fn make_chunk(&self, alloc: Global, c: usize) -> Result<Chunk, AllocError>
        requires { c < PLACES_PER_TABLE }
        ensures { IfOk result (IsChunkOf (holds self.now) c) };
}

/// The chunks of any set, made of its words.
#[derive(Drop)]
struct ChunksOfSet<'a, S: BitSetLike>(&'a S);

impl<S: BitSetLike> ChunkSource for ChunksOfSet<'_, S> {
    ghost holds = { λ s. S.holds s.0.now };

    #[inline]
    fn make_chunk(&self, alloc: Global, c: usize) -> Result<Chunk, AllocError> {
        chunk_of(alloc, self.0, c)
    }
}

// The chunks of a source in one group, put into a table that has none in this group: those in which `touched` has a
// member, and maybe others.
fn push_chunks<S: ChunkSource, T: BitSetLike>(
    chunks: &mut Table<Chunk>,
    alloc: Global,
    source: &S,
    touched: &T,
    q: usize,
) -> Result<(), AllocError>
    requires group { q < GROUPS_PER_TABLE }
    requires absent { (c : ℕ) → c < PLACES_PER_TABLE → c / 64 ≡ q → value_at chunks.old c ≡ None }
    ensures is { OnOk result ((c : ℕ) (chunk : Chunk) → c < PLACES_PER_TABLE → c / 64 ≡ q
        → value_at chunks.new c ≡ Some chunk → IsChunkOf (S.holds source.now) c chunk) }
    ensures all { OnOk result ((c : ℕ) → c < PLACES_PER_TABLE → c / 64 ≡ q
        → value_at chunks.new c ≡ None → HasNoneIn (T.holds touched.now) c) }
    ensures others { (c : ℕ) → c < PLACES_PER_TABLE → c / 64 ≢ q
        → value_at chunks.new c ≡ value_at chunks.old c }
{
    let mut places = touched.layer3(q);
    'places: while places != 0 {
        let c = 64 * q + take_bit(&mut places);
        let chunk = source.make_chunk(alloc, c)?;
        chunks.insert(c, chunk)?;
    }
    Ok(())
}

/// The chunks of a source: those in which `touched` has a member, and maybe others.
pub(crate) fn chunks_from<S: ChunkSource, T: BitSetLike>(
    alloc: Global,
    source: &S,
    touched: &T,
) -> Result<Table<Chunk>, AllocError>
    ensures { IfOk result (AreChunksOf (S.holds source.now) (T.holds touched.now)) }
{
    let mut chunks = Table::new(alloc);
    let mut groups = touched.layer4();
    'groups: while groups != 0 {
        let q = take_bit(&mut groups);
        push_chunks(&mut chunks, alloc, source, touched, q)?;
    }
    Ok(chunks)
}

/// The chunks of a set: those in which it has a member, and maybe others.
pub(crate) fn chunks_of<S: BitSetLike>(alloc: Global, set: &S) -> Result<Table<Chunk>, AllocError>
    ensures { IfOk result (AreChunksOf (S.holds set.now) (S.holds set.now)) }
{
    chunks_from(alloc, &ChunksOfSet(set), set)
}
