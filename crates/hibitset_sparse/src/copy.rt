//! Copies of sets, list by list.
ghost use Rattle.std.specs.Prelude.{◌≡◌, IfOk};
ghost use Rattle.hibitset_sparse.specs.Copy.{HaveSameChunks, IsSameChunk};
ghost use Rattle.hibitset_sparse.specs.SparseBitSet.{IsCopy};
ghost use Rattle.hibitset_sparse.specs.Table.{IsSameTable};

use crate::chunk::Chunk;
use crate::group::Group;
use crate::packed_array::PackedArray;
use crate::set::SparseBitSet;
use crate::table::Table;
use std::alloc::AllocError;

// The same groups.
fn copy_groups(groups: &PackedArray<Group>) -> Result<PackedArray<Group>, AllocError>
    ensures word { IfOk result (λ copy. copy.word ≡ groups.now.word) }
    ensures items { IfOk result (λ copy. copy.items.items ≡ groups.now.items.items) }
{
    let items = Vec::from_slice(*groups.items.allocator(), &groups.items)?;
    Ok(PackedArray {
        word: groups.word,
        items,
    })
}

// The same words in the same places.
fn copy_words(words: &Table<usize>) -> Result<Table<usize>, AllocError>
    ensures { IfOk result (IsSameTable words.now) }
{
    let groups = copy_groups(&words.groups)?;
    let items = Vec::from_slice(*words.items.allocator(), &words.items)?;
    Ok(Table { groups, items })
}

// The same words, in lists without spare capacity.
impl Clone for Chunk {
    ghost is_clone = { IsSameChunk };

    fn clone(&self) -> Result<Chunk, AllocError> {
        let words = copy_words(&self.words)?;
        Ok(Chunk { words })
    }
}

// Chunks with the same words in the same places.
fn copy_chunks(chunks: &Table<Chunk>) -> Result<Table<Chunk>, AllocError>
    ensures { IfOk result (HaveSameChunks chunks.now) }
{
    let groups = copy_groups(&chunks.groups)?;
    let items = Vec::from_clones(*chunks.items.allocator(), &chunks.items)?;
    Ok(Table { groups, items })
}

/// The copy has the same members and words. It fails only if an allocation fails.
///
/// It copies whole lists, into memory without spare capacity: two for each 262,144 indices among which there is a
/// member, and two more.
impl Clone for SparseBitSet {
    ghost is_clone = { IsCopy };

    fn clone(&self) -> Result<SparseBitSet, AllocError> {
        let chunks = copy_chunks(&self.chunks)?;
        Ok(SparseBitSet { chunks })
    }
}
