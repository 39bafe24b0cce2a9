//! Walks over the members of a set, in ascending order.
#![tactic(auto, unfolding(crate::specs::Walk::items_left))]

ghost use Rattle.std.specs.Prelude.{◌≡◌, ℕ, ◌+◌, ◌^◌, ◌<◌, ◌≤◌, ◌++◌, [], length, MatchOption, IfSome, IfOk};
ghost use Rattle.std.specs.Iterator.{YieldsFirst, item_count};
ghost use Rattle.hibitset_base.specs.Places.{bits_from};
ghost use Rattle.hibitset_base.specs.declared.util.TheConstants.{MAX_EID};
ghost use Rattle.hibitset_sparse.specs.declared.chunk.TheConstants.{INDICES_PER_CHUNK};

use crate::chunk::{Chunk, INDICES_PER_CHUNK};
use crate::table::Table;
use crate::table_iter::TableIter;
use hibitset_base::bits::take_bit;
use hibitset_base::util::{Index, MAX_EID};
use std::alloc::{AllocError, Global};

/// A walk over the nonzero words of layer 0, in ascending order.
#[derive(Drop)]
pub(crate) struct WordIter<'a> {
    pub(crate) chunks: TableIter<'a, Chunk>,
    // The words left of the chunk at hand, whose first index is `base`.
    pub(crate) words: TableIter<'a, usize>,
    pub(crate) base: usize,
    ghost within: { base + INDICES_PER_CHUNK ≤ MAX_EID },
}

impl<'a> WordIter<'a> {
    ghost use Rattle.hibitset_sparse.specs.Walk.{entries_of, in_words, members_left, members_of, words_ahead};

    /// A walk over the words of all chunks.
    #[inline]
    pub(crate) fn new(chunks: &'a Table<Chunk>) -> WordIter<'a>
        ensures { members_left result ≡ members_of chunks.now }
    {
        WordIter {
            chunks: TableIter::new(chunks),
            words: TableIter::empty(),
            base: 0,
        }
    }

    /// A walk over the words of one chunk, whose first index is `base`.
    #[inline]
    pub(crate) fn of_chunk(chunk: &'a Chunk, base: usize) -> WordIter<'a>
        requires { base + INDICES_PER_CHUNK ≤ MAX_EID }
        ensures { members_left result ≡ in_words base (entries_of chunk.now.words) }
    {
        WordIter {
            chunks: TableIter::empty(),
            words: TableIter::new(&chunk.words),
            base,
        }
    }

    /// The index of the next word's first bit, and the word.
    #[inline]
    pub(crate) fn next(&mut self) -> Option<(usize, usize)>
        ensures goes { MatchOption result ((members_left self.old ≡ []) × (members_left self.new ≡ []))
            (λ found. members_left self.old ≡ bits_from found.0 found.1 ++ members_left self.new) }
        ensures within { IfSome result (λ found. found.0 + 64 ≤ MAX_EID) }
        ensures word { IfSome result (λ found. found.1 < 2 ^ 64) }
        ensures fewer { IfSome result (λ found. words_ahead self.new < words_ahead self.old) }
    {
        'chunks: loop {
            if let Some((place, word)) = self.words.next() {
                return Some((self.base + 64 * place, *word));
            }
            let Some((place, chunk)) = self.chunks.next() else {
                return None;
            };
            self.base = INDICES_PER_CHUNK * place;
            self.words = TableIter::new(&chunk.words);
        }
    }
}

/// A walk over the members of a set, in ascending order, as `SparseBitSet::iter` makes.
///
/// It goes along the tables of the set, and keeps in 136 bytes where it is in them. A step reads the next nonzero word
/// if the last one is passed, 8 bytes, and else nothing.
#[derive(Drop)]
pub struct SparseIter<'a> {
    pub(crate) words: WordIter<'a>,
    // What is left of the word at hand, whose first bit stands for the index `first`.
    pub(crate) word: usize,
    pub(crate) first: usize,
    ghost within: { first + 64 ≤ MAX_EID },
}

impl<'a> SparseIter<'a> {
    ghost use Rattle.hibitset_sparse.specs.Walk.{items_left, members_of};

    /// A walk over the members in all chunks.
    #[inline]
    pub(crate) fn new(chunks: &'a Table<Chunk>) -> SparseIter<'a>
        ensures { items_left result ≡ members_of chunks.now }
    {
        SparseIter {
            words: WordIter::new(chunks),
            word: 0,
            first: 0,
        }
    }
}

impl<'a> Iterator for SparseIter<'a> {
    type Item = Index;

    ghost use Rattle.hibitset_sparse.specs.Walk.{items_left};

    ghost next_gives = { YieldsFirst items_left };

    ghost remaining = { item_count items_left };

    #[inline]
    fn next(&mut self) -> Option<Index> {
        'words: while self.word == 0 {
            let Some((first, word)) = self.words.next() else {
                return None;
            };
            self.first = first;
            self.word = word;
        }
        let index = self.first + take_bit(&mut self.word);
        Some(index as Index)
    }
}
