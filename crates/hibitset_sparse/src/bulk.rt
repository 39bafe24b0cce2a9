//! Members counted and listed, by whole words.
ghost use Rattle.std.specs.Prelude.{◌≡◌, ℕ, ◌+◌, ◌-◌, ◌*◌, ◌^◌, ◌<◌, ◌≤◌, ◌++◌, List, length, IfOk};
ghost use Rattle.std.specs.List.{zip};
ghost use Rattle.std.specs.Int.RustNames.{count_ones};
ghost use Rattle.std.specs.Vec.{vec_capacity};
ghost use Rattle.hibitset_base.specs.Members.{members, members_below};
ghost use Rattle.hibitset_base.specs.Places.{bits_from};
ghost use Rattle.hibitset_base.specs.Words.{holds_at};
ghost use Rattle.hibitset_base.specs.declared.util.TheConstants.{MAX_EID};
ghost use Rattle.hibitset_sparse.specs.Chunks.{word_in};
ghost use Rattle.hibitset_sparse.specs.Walk.{has_in_words, in_chunks, in_words, members_of};
ghost use Rattle.hibitset_sparse.specs.declared.table.TheConstants.{PLACES_PER_TABLE};
ghost use Rattle.hibitset_sparse.specs.declared.chunk.TheConstants.{INDICES_PER_CHUNK};

use crate::chunk::{Chunk, INDICES_PER_CHUNK};
use crate::rank::rank;
use crate::table::{PLACES_PER_TABLE, Table};
use crate::walk::WordIter;
use hibitset_base::bits::take_bit;
use hibitset_base::util::{Index, MAX_EID};
use std::alloc::{AllocError, Global};

/// How many bits the words have that are set: how many members they have at any places of a chunk.
pub(crate) fn count_words(words: &[usize]) -> usize
    requires { length words.now ≤ PLACES_PER_TABLE }
    ensures counted { (base : ℕ) (places : List ℕ) → length places ≡ length words.now
        → result ≡ length (in_words base (zip places words.now)) }
    ensures max { result ≤ INDICES_PER_CHUNK }
{
    let mut count = 0;
    'words: for word in words {
        count += word.count_ones() as usize;
    }
    count
}

// How many members the chunks have, at any places.
fn count_chunks(chunks: &[Chunk]) -> usize
    requires { length chunks.now ≤ PLACES_PER_TABLE }
    ensures counted { (places : List ℕ) → length places ≡ length chunks.now
        → result ≡ length (in_chunks (zip places chunks.now)) }
    ensures max { result ≤ INDICES_PER_CHUNK * length chunks.now }
{
    let mut count = 0;
    'chunks: for chunk in chunks {
        count += count_words(&chunk.words.items);
    }
    count
}

/// How many members lie in the chunks. It reads each word once, and none above.
pub(crate) fn count_members(chunks: &Table<Chunk>) -> usize
    ensures { result ≡ length (members_of chunks.now) }
{
    count_chunks(&chunks.items)
}

// How many members a chunk with these words has before an index.
fn count_words_before(words: &Table<usize>, end: usize) -> usize
    requires { end < INDICES_PER_CHUNK }
    ensures rank { result ≡ length (members (has_in_words words.now) 0 end) }
    ensures max { result ≤ end }
{
    let place = end / 64;
    let count = count_words(&words.items[..words.rank(place)]);
    match words.get(place) {
        Some(word) => count + rank(*word, end % 64),
        None => count,
    }
}

/// How many members lie in the chunks before an index. It reads each word before the index once, 8 bytes.
pub(crate) fn count_before(chunks: &Table<Chunk>, end: usize) -> usize
    requires { end < MAX_EID }
    ensures { result ≡ length (members_below end (holds_at (word_in chunks.now))) }
{
    let place = end / INDICES_PER_CHUNK;
    let count = count_chunks(&chunks.items[..chunks.rank(place)]);
    match chunks.get(place) {
        Some(chunk) => count + count_words_before(&chunk.words, end % INDICES_PER_CHUNK),
        None => count,
    }
}

// Puts the indices of a word with all bits set at the end of a list that has room for them. The loop is vectorized.
#[inline]
fn push_all(list: &mut Vec<Index>, first: Index)
    requires within { first + 64 ≤ MAX_EID }
    requires capacity { length list.old.items + 64 ≤ vec_capacity list.old }
    ensures pushed { list.new.items ≡ list.old.items ++ bits_from first (2 ^ 64 - 1) }
    ensures capacity { vec_capacity list.new ≡ vec_capacity list.old }
{
    'bits: for bit in 0..64u32 {
        list.push_reserved(first + bit);
    }
}

// Puts the indices of a word's bits at the end of a list that has room for them.
#[inline]
fn push_bits(list: &mut Vec<Index>, first: usize, word: usize)
    requires within { first + 64 ≤ MAX_EID }
    requires capacity { length list.old.items + count_ones word ≤ vec_capacity list.old }
    ensures pushed { list.new.items ≡ list.old.items ++ bits_from first word }
    ensures capacity { vec_capacity list.new ≡ vec_capacity list.old }
{
    if word == usize::MAX {
        return push_all(list, first as Index);
    }
    let mut rest = word;
    'bits: while rest != 0 {
        list.push_reserved((first + take_bit(&mut rest)) as Index);
    }
}

/// The members in the chunks, in ascending order, in memory that was allocated at once for all of them.
pub(crate) fn list_members(chunks: &Table<Chunk>, alloc: Global) -> Result<Vec<Index>, AllocError>
    ensures { IfOk result (λ v. v.items ≡ members_of chunks.now) }
{
    let mut list = Vec::with_capacity(alloc, count_members(chunks))?;
    let mut words = WordIter::new(chunks);
    'words: while let Some((first, word)) = words.next() {
        push_bits(&mut list, first, word);
    }
    Ok(list)
}
