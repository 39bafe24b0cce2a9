//! Chunks that replace a set's own.
#![tactic(auto, unfolding(crate::specs::SparseBitSet::has, crate::specs::SparseBitSet::word_of))]

ghost use Rattle.std.specs.Prelude.{◌≡◌, ◌≢◌, ℕ, ◌+◌, ◌/◌, ◌%◌, ◌<◌, ◌==◌, if◌then◌else◌, length, None, OnErr, OnOk};
ghost use Rattle.std.specs.Int.RustNames.{count_ones};
ghost use Rattle.hibitset_base.specs.declared.util.TheConstants.{MAX_EID};
ghost use Rattle.hibitset_sparse.specs.Chunk.{chunk_word, has_in};
ghost use Rattle.hibitset_sparse.specs.Replacement.{CanTakePlace, HaveSameWords, IsSameBeside, has_in_or, later};
ghost use Rattle.hibitset_sparse.specs.SparseBitSet.{has};
ghost use Rattle.hibitset_sparse.specs.Table.{HasCapacityFor, HasValue, group_word, value_at};
ghost use Rattle.hibitset_sparse.specs.declared.chunk.TheConstants.{INDICES_PER_CHUNK};

use crate::chunk::Chunk;
use crate::set::SparseBitSet;
use crate::table::{GROUPS_PER_TABLE, PLACES_PER_TABLE, Table};
use hibitset_base::bits::take_bit;
use std::alloc::AllocError;
use std::mem;

// Takes the chunk of a place out, and leaves an empty one there.
fn take_chunk(chunks: &mut Table<Chunk>, c: usize) -> Option<Chunk>
    requires { c < PLACES_PER_TABLE }
    ensures old_value { result ≡ value_at chunks.old c }
    ensures others { (d : ℕ) → d < PLACES_PER_TABLE → d ≢ c
        → value_at chunks.new d ≡ value_at chunks.old d }
    ensures words { HaveSameWords chunks.old chunks.new }
{
    let at = chunks.position(c)?;
    let empty = Chunk::new(*chunks.items.allocator());
    Some(mem::replace(&mut chunks.items[at], empty))
}

// What is there of two chunks: the second, unless it is empty, and the first where there is no second.
fn later_chunk(first: Option<Chunk>, second: Option<Chunk>) -> Option<Chunk>
    ensures { result ≡ later first second }
{
    let Some(chunk) = second else {
        return first;
    };
    if chunk.layer2() == 0 {
        return None;
    }
    Some(chunk)
}

// Puts the chunks of two tables in group q into a table that has none there. Where both have one it is that of the
// second, and an empty one of the second is left out.
fn join_group(
    table: &mut Table<Chunk>,
    first: &mut Table<Chunk>,
    second: &mut Table<Chunk>,
    q: usize,
)
    requires group { q < GROUPS_PER_TABLE }
    requires absent { (c : ℕ) → c < PLACES_PER_TABLE → c / 64 ≡ q → value_at table.old c ≡ None }
    requires capacity { HasCapacityFor (count_ones (group_word first.old q)
        + count_ones (group_word second.old q)) table.old }
    ensures joined { (c : ℕ) → c < PLACES_PER_TABLE → c / 64 ≡ q → value_at table.new c
        ≡ later (value_at first.old c) (value_at second.old c) }
    ensures others { IsSameBeside q table.old table.new }
    ensures first { IsSameBeside q first.old first.new }
    ensures second { IsSameBeside q second.old second.new }
    ensures first_words { HaveSameWords first.old first.new }
    ensures second_words { HaveSameWords second.old second.new }
    ensures capacity { (n : ℕ) → HasCapacityFor (n + (count_ones (group_word first.old q)
        + count_ones (group_word second.old q))) table.old → HasCapacityFor n table.new }
{
    let mut places = first.word(q) | second.word(q);
    'places: while places != 0 {
        let c = 64 * q + take_bit(&mut places);
        let before = take_chunk(first, c);
        let after = take_chunk(second, c);
        if let Some(chunk) = later_chunk(before, after) {
            let _put = table.insert(c, chunk);
        }
    }
}

// The chunks of two tables, put into a table that has none, in one ascending pass. Where both have one it is that of
// the second, and an empty one of the second is left out.
fn join_tables(empty: Table<Chunk>, first: Table<Chunk>, second: Table<Chunk>) -> Table<Chunk>
    requires empty { (c : ℕ) → value_at empty c ≡ None }
    requires capacity { HasCapacityFor (length first.items.items + length second.items.items) empty }
    ensures { (c : ℕ) → c < PLACES_PER_TABLE
        → value_at result c ≡ later (value_at first c) (value_at second c) }
{
    let mut table = empty;
    let mut left = first;
    let mut right = second;
    'groups: for q in 0..GROUPS_PER_TABLE {
        join_group(&mut table, &mut left, &mut right, q);
    }
    table
}

impl SparseBitSet {
    // Puts a chunk in the place of the set's own. An empty one is not kept.
    fn replace_chunk(&mut self, c: usize, chunk: Chunk)
        requires in_range { c < PLACES_PER_TABLE }
        requires has_value { 0 < chunk_word chunk 2 0 → HasValue self.old.chunks c }
        ensures members { (i : ℕ) → i < MAX_EID → has self.new i ≡ (if i / INDICES_PER_CHUNK == c
            then has_in chunk (i % INDICES_PER_CHUNK) else has self.old i) }
        ensures others { (d : ℕ) → d < PLACES_PER_TABLE → d ≢ c
            → value_at self.new.chunks d ≡ value_at self.old.chunks d }
    {
        let Some(at) = self.chunks.position(c) else {
            return;
        };
        if chunk.layer2() == 0 {
            let _chunk = self.chunks.remove(c);
            return;
        }
        self.chunks.write(c, at, chunk);
    }

    // Puts chunks in the place of the set's own. Empty ones are not kept.
    pub(crate) fn replace_chunks(&mut self, chunks: Table<Chunk>)
        requires { CanTakePlace self.old.chunks chunks }
        ensures { (i : ℕ) → i < MAX_EID → has self.new i
            ≡ has_in_or (value_at chunks (i / INDICES_PER_CHUNK)) i (has self.old i) }
    {
        let mut left = chunks;
        'chunks: while let Some((c, chunk)) = left.pop() {
            self.replace_chunk(c, chunk);
        }
    }

    // Puts chunks beside the set's own and in their place, in a table that is made anew. Empty ones are not kept. If an
    // allocation fails, the members stay.
    fn join_chunks(&mut self, chunks: Table<Chunk>) -> Result<(), AllocError>
        ensures members { OnOk result ((i : ℕ) → i < MAX_EID → has self.new i
            ≡ has_in_or (value_at chunks (i / INDICES_PER_CHUNK)) i (has self.old i)) }
        ensures err { OnErr result ((i : ℕ) → has self.new i ≡ has self.old i) }
    {
        let alloc = self.allocator();
        let mut table = Table::new(alloc);
        table.reserve(self.chunks.items.len() + chunks.items.len())?;
        let own = mem::replace(&mut self.chunks, Table::new(alloc));
        self.chunks = join_tables(table, own, chunks);
        Ok(())
    }

    // Puts chunks beside the set's own and in their place. Empty ones are not kept. If an allocation fails, the members
    // stay. It does not allocate where the set has a chunk in the place of each.
    pub(crate) fn put_chunks(&mut self, chunks: Table<Chunk>) -> Result<(), AllocError>
        ensures members { OnOk result ((i : ℕ) → i < MAX_EID → has self.new i
            ≡ has_in_or (value_at chunks (i / INDICES_PER_CHUNK)) i (has self.old i)) }
        ensures err { OnErr result ((i : ℕ) → has self.new i ≡ has self.old i) }
    {
        if !self.chunks.covers(&chunks) {
            return self.join_chunks(chunks);
        }
        self.replace_chunks(chunks);
        Ok(())
    }
}
