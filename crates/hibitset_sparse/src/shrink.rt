//! Giving back capacity that is not used.
#![tactic(auto, unfolding(crate::specs::SparseBitSet::has, crate::specs::SparseBitSet::word_of))]

ghost use Rattle.std.specs.Prelude.{◌≡◌, ℕ, ◌≤◌, vec_capacity};
ghost use Rattle.std.specs.List.{AllZip};
ghost use Rattle.hibitset_sparse.specs.Copy.{HaveSameChunks, IsSameChunk};
ghost use Rattle.hibitset_sparse.specs.SparseBitSet.{has};
ghost use Rattle.hibitset_sparse.specs.Table.{IsSameTable};

use crate::chunk::Chunk;
use crate::set::SparseBitSet;
use crate::table::Table;

// Gives back the capacity of a table that no value and no group uses.
fn shrink_table<T: Drop>(table: &mut Table<T>)
    ensures same { IsSameTable table.old table.new }
    ensures items { vec_capacity table.new.items ≤ vec_capacity table.old.items }
    ensures groups { vec_capacity table.new.groups.items ≤ vec_capacity table.old.groups.items }
{
    table.items.shrink_to_fit();
    table.groups.items.shrink_to_fit();
}

// Gives back the capacity of the chunks that no word and no group uses.
fn shrink_each(chunks: &mut Vec<Chunk>)
    ensures same { AllZip IsSameChunk chunks.old.items chunks.new.items }
    ensures capacity { vec_capacity chunks.new ≡ vec_capacity chunks.old }
{
    'chunks: for k in 0..chunks.len() {
        shrink_table(&mut chunks[k].words);
    }
}

// Gives back what the chunks and their table don't use.
fn shrink_chunks(chunks: &mut Table<Chunk>)
    ensures { HaveSameChunks chunks.old chunks.new }
{
    shrink_each(&mut chunks.items);
    shrink_table(chunks);
}

impl SparseBitSet {
    /// Gives back the capacity that no member uses. The members stay. It can't fail: a list whose smaller block can't
    /// be allocated keeps its old one.
    pub fn shrink_to_fit(&mut self)
        ensures same { (i : ℕ) → has self.new i ≡ has self.old i }
    {
        shrink_chunks(&mut self.chunks);
    }
}
