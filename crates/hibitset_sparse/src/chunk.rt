//! A set of 262,144 indices, as words in three layers.
ghost use Rattle.std.specs.Prelude.{◌≡◌, ℕ, ◌+◌, ◌*◌, ◌/◌, ◌%◌, ◌^◌, ◌<◌, ◌==◌, ◌||◌, ◌&&◌, not, false, OnOk, OnErr, IfOk, IsOk};
ghost use Rattle.hibitset_sparse.specs.Table.{AreNonzero};

use crate::rank::is_set;
use crate::table::Table;
use hibitset_base::bits::with_bit;
use std::alloc::{AllocError, Global};

/// How many indices a chunk has bits for.
pub(crate) const INDICES_PER_CHUNK: usize = 64 * 64 * 64;

/// The nonzero words of layer 0 of as many indices, and two layers above them.
#[derive(Drop)]
pub(crate) struct Chunk {
    pub(crate) words: Table<usize>,
    ghost nonzero: { AreNonzero words },
}

impl Chunk {
    ghost use Rattle.hibitset_sparse.specs.Chunk.{chunk_word, has_in};

    /// No index is there. It does not allocate.
    pub(crate) fn new(alloc: Global) -> Chunk
        ensures { (i : ℕ) → has_in result i ≡ false }
    {
        Chunk {
            words: Table::new(alloc),
        }
    }

    /// The word of layer 2.
    #[inline]
    pub(crate) fn layer2(&self) -> usize
        ensures { result ≡ chunk_word self.now 2 0 }
    {
        self.words.groups.word
    }

    /// The word of layer 1 at a position.
    #[inline]
    pub(crate) fn layer1(&self, p: usize) -> usize
        requires { p < 64 }
        ensures { result ≡ chunk_word self.now 1 p }
    {
        self.words.word(p)
    }

    /// The word of layer 0 at a position.
    #[inline]
    pub(crate) fn layer0(&self, p: usize) -> usize
        requires { p < 64 * 64 }
        ensures { result ≡ chunk_word self.now 0 p }
    {
        match self.words.get(p) {
            Some(word) => *word,
            None => 0,
        }
    }

    /// Adds an index, and returns whether it was there. If an allocation fails, the members stay. It does not allocate
    /// if one of the 64 indices that share its word is there.
    pub(crate) fn add(&mut self, i: usize) -> Result<bool, AllocError>
        requires { i < INDICES_PER_CHUNK }
        ensures was_member { IfOk result (λ was. was ≡ has_in self.old i) }
        ensures added { OnOk result ((j : ℕ) → j < INDICES_PER_CHUNK
            → has_in self.new j ≡ (has_in self.old j || j == i)) }
        ensures nonempty { OnOk result (0 < chunk_word self.new 2 0) }
        ensures err { OnErr result ((l p : ℕ) → l < 3
            → chunk_word self.new l p ≡ chunk_word self.old l p) }
        ensures succeeds { 0 < chunk_word self.old 0 (i / 64) → IsOk result }
    {
        let Some(at) = self.words.position(i / 64) else {
            self.words.insert(i / 64, with_bit(0, i % 64, true))?;
            return Ok(false);
        };
        let word = self.words.items[at];
        self.words.write(i / 64, at, with_bit(word, i % 64, true));
        Ok(is_set(word, i % 64))
    }

    /// Takes an index out, and returns whether it was there.
    pub(crate) fn remove(&mut self, i: usize) -> bool
        requires { i < INDICES_PER_CHUNK }
        ensures was_member { result ≡ has_in self.old i }
        ensures removed { (j : ℕ) → j < INDICES_PER_CHUNK
            → has_in self.new j ≡ (has_in self.old j && not (j == i)) }
    {
        let Some(at) = self.words.position(i / 64) else {
            return false;
        };
        let before = self.words.items[at];
        let word = with_bit(before, i % 64, false);
        if word == 0 {
            let _word = self.words.remove(i / 64);
            return is_set(before, i % 64);
        }
        self.words.write(i / 64, at, word);
        is_set(before, i % 64)
    }
}
