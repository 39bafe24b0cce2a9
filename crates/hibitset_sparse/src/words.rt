//! Whole words of layer 0 added to a set.
#![tactic(auto, unfolding(crate::specs::SparseBitSet::has, crate::specs::SparseBitSet::word_of))]

ghost use Rattle.std.specs.Prelude.{◌≡◌, ℕ, ◌+◌, ◌*◌, ◌<◌, ◌≤◌, ◌||◌, length, take, OnOk, OnErr};
ghost use Rattle.hibitset_base.specs.declared.util.TheConstants.{MAX_EID};
ghost use Rattle.hibitset_sparse.specs.AddedWords.{AddsWords, is_in_word};
ghost use Rattle.hibitset_sparse.specs.Chunk.{chunk_word, has_in};
ghost use Rattle.hibitset_sparse.specs.SparseBitSet.{has};
ghost use Rattle.hibitset_sparse.specs.declared.chunk.TheConstants.{INDICES_PER_CHUNK};

use crate::chunk::{Chunk, INDICES_PER_CHUNK};
use crate::set::SparseBitSet;
use std::alloc::AllocError;

impl Chunk {
    // Adds those of the 64 indices that share the word of one whose bits are set, one at least. If an allocation fails,
    // the words stay.
    fn add_bits(&mut self, i: usize, bits: usize) -> Result<(), AllocError>
        requires index { i < INDICES_PER_CHUNK }
        requires nonzero { 0 < bits }
        ensures added { OnOk result ((j : ℕ) → j < INDICES_PER_CHUNK
            → has_in self.new j ≡ (has_in self.old j || is_in_word i bits j)) }
        ensures nonempty { OnOk result (0 < chunk_word self.new 2 0) }
        ensures err { OnErr result ((l p : ℕ) → l < 3
            → chunk_word self.new l p ≡ chunk_word self.old l p) }
    {
        let Some(at) = self.words.position(i / 64) else {
            self.words.insert(i / 64, bits)?;
            return Ok(());
        };
        let word = self.words.items[at];
        self.words.write(i / 64, at, word | bits);
        Ok(())
    }
}

impl SparseBitSet {
    // Adds those of the 64 indices that share the word of one whose bits are set, one at least. If an allocation fails,
    // the members stay.
    fn add_bits(&mut self, id: usize, bits: usize) -> Result<(), AllocError>
        requires index { id < MAX_EID }
        requires nonzero { 0 < bits }
        ensures added { OnOk result ((i : ℕ)
            → has self.new i ≡ (has self.old i || is_in_word id bits i)) }
        ensures err { OnErr result ((i : ℕ) → has self.new i ≡ has self.old i) }
    {
        if let Some(at) = self.chunks.position(id / INDICES_PER_CHUNK) {
            return self.chunks.items[at].add_bits(id % INDICES_PER_CHUNK, bits);
        }
        let mut chunk = Chunk::new(*self.chunks.items.allocator());
        chunk.add_bits(id % INDICES_PER_CHUNK, bits)?;
        self.chunks.insert(id / INDICES_PER_CHUNK, chunk)?;
        Ok(())
    }

    // Adds the members of a word at a position of layer 0. If an allocation fails, the members stay.
    fn add_word(&mut self, position: usize, word: usize) -> Result<(), AllocError>
        requires { 64 * position < MAX_EID }
        ensures added { OnOk result ((i : ℕ)
            → has self.new i ≡ (has self.old i || is_in_word (64 * position) word i)) }
        ensures err { OnErr result ((i : ℕ) → has self.new i ≡ has self.old i) }
    {
        if word == 0 {
            return Ok(());
        }
        self.add_bits(64 * position, word)
    }

    /// Adds the members of words that lie side by side from position `first` of layer 0 on: bit b of the word at place
    /// j stands for the index 64 · (`first` + j) + b. They end by `MAX_EID`.
    ///
    /// ```text
    /// set.add_words(2, &[0b1, 0, 0b10])?;
    /// // adds 128 and 257
    /// ```
    ///
    /// # Errors
    ///
    /// An allocation fails: the words before one of them are added, and none from it on.
    ///
    /// # Cost
    ///
    /// - A nonzero word takes a look-up of its position. If no member shared it, what lies behind it in its chunk is
    ///   moved, so words behind all members move nothing.
    /// - A word that is 0 takes no look-up.
    pub fn add_words(&mut self, first: usize, words: &[usize]) -> Result<(), AllocError>
        requires { 64 * (first + length words.now) ≤ MAX_EID }
        ensures added { OnOk result (AddsWords first words.now (has self.old) (has self.new)) }
        ensures added_before { OnErr result ((n : ℕ) × (n < length words.now)
            × AddsWords first (take n words.now) (has self.old) (has self.new)) }
    {
        'words: for j in 0..words.len() {
            self.add_word(first + j, words[j])?;
        }
        Ok(())
    }
}
