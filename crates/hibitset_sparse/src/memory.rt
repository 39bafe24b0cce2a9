//! How many bytes the words of a set and their tables take.
#![tactic(auto, unfolding(crate::specs::SparseBitSet::word_of))]

ghost use Rattle.std.specs.Prelude.{◌≡◌, ◌+◌, ◌*◌, ◌≤◌, length};
ghost use Rattle.std.specs.List.{sum_by};
ghost use Rattle.hibitset_sparse.specs.Memory.{bytes_in_chunk, memory_of};
ghost use Rattle.hibitset_sparse.specs.SparseBitSet.{word_of};
ghost use Rattle.hibitset_sparse.specs.declared.table.TheConstants.{PLACES_PER_TABLE};
ghost use Rattle.hibitset_sparse.specs.declared.memory.TheConstants.{CHUNK_BYTES, GROUP_BYTES, MOST_BYTES, WORD_BYTES};

use crate::chunk::Chunk;
use crate::set::SparseBitSet;
use crate::table::Table;

/// How many bytes a word of layer 0 takes.
const WORD_BYTES: usize = 8;

/// How many bytes the group of 64 words, or of 64 chunks, takes.
const GROUP_BYTES: usize = 16;

/// How many bytes a chunk takes beside its words and their groups.
const CHUNK_BYTES: usize = 56;

// The most bytes that the words of a chunk and their groups take: of 4,096 words and 64 groups.
const MOST_BYTES: usize = 33_792;

// How many bytes the words of a chunk and their groups take.
fn chunk_bytes(chunk: &Chunk) -> usize
    ensures bytes { result ≡ bytes_in_chunk chunk.now }
    ensures max { result ≤ MOST_BYTES }
{
    let words = &chunk.words;
    WORD_BYTES * words.items.len() + GROUP_BYTES * words.groups.items.len()
}

// How many bytes the words of all chunks and their groups take.
fn all_chunk_bytes(chunks: &[Chunk]) -> usize
    requires { length chunks.now ≤ PLACES_PER_TABLE }
    ensures bytes { result ≡ sum_by bytes_in_chunk chunks.now }
    ensures max { result ≤ MOST_BYTES * length chunks.now }
{
    let mut bytes = 0;
    'chunks: for chunk in chunks {
        bytes += chunk_bytes(chunk);
    }
    bytes
}

// How many bytes chunks take, with the words of all and the groups.
fn table_bytes(chunks: &Table<Chunk>) -> usize
    ensures { result ≡ sum_by bytes_in_chunk chunks.now.items.items
        + CHUNK_BYTES * length chunks.now.items.items
        + GROUP_BYTES * length chunks.now.groups.items.items }
{
    let own = CHUNK_BYTES * chunks.items.len() + GROUP_BYTES * chunks.groups.items.len();
    all_chunk_bytes(&chunks.items) + own
}

impl SparseBitSet {
    /// How many bytes its nonzero words and their tables take. The blocks of memory may be longer, for members to come.
    ///
    /// It reads a table's head for each 262,144 indices with members.
    pub fn memory(&self) -> usize
        ensures { result ≡ memory_of (word_of self.now) }
    {
        table_bytes(&self.chunks)
    }
}
