//! Words of layer 0 in blocks that are made one by one.
ghost use Rattle.std.specs.Prelude.{◌≡◌, ◌≢◌, ℕ, ◌+◌, ◌-◌, ◌*◌, ◌/◌, ◌%◌, ◌^◌, ◌<◌, ◌≤◌, get_or, length, take, ◌==◌, cond, bit_or, OnOk, OnErr, IfOk, IsOk, vec_capacity};
ghost use Rattle.hibitset_atomic.specs.BlockTable.{IsPlaced};
ghost use Rattle.hibitset_atomic.specs.declared.layers.TheConstants.{ATOMIC_LAYERS};

use std::alloc::{AllocError, Global};

/// How many blocks there can be.
const BLOCK_COUNT: usize = 4_096;

/// 262,144 words in blocks of 64, each of which is made when it is first needed. The words of blocks that are not made
/// are 0.
///
/// One vector has all blocks, so a new block allocates only if the vector has to grow. Its first block has no bits:
/// blocks that are not made point there, and reading needs no test.
#[derive(Drop)]
pub(crate) struct Blocks {
    pub(crate) places: Vec<u16>,
    pub(crate) words: Vec<usize>,
    ghost placed: { IsPlaced 4096 places.items words.items },
}

// So many zero words.
pub(crate) fn zeros(alloc: Global, count: usize) -> Result<Vec<usize>, AllocError>
    ensures length { IfOk result (λ words. length words.items ≡ count) }
    ensures zero { IfOk result (λ words. (p : ℕ) → get_or words.items p 0 ≡ 0) }
{
    vec![in alloc; 0usize; count]
}

// So many places of blocks that are not made.
fn no_places(alloc: Global, count: usize) -> Result<Vec<u16>, AllocError>
    ensures length { IfOk result (λ places. length places.items ≡ count) }
    ensures zero { IfOk result (λ places. (k : ℕ) → get_or places.items k 0 ≡ 0) }
{
    vec![in alloc; 0u16; count]
}

// Makes 64 words 0.
fn zero_block(words: &mut Vec<usize>, start: usize)
    requires { start + 64 ≤ length words.old.items }
    ensures length { length words.new.items ≡ length words.old.items }
    ensures inside { (p : ℕ) → start ≤ p → p < start + 64 → get_or words.new.items p 0 ≡ 0 }
    ensures before { (p : ℕ) → p < start → get_or words.new.items p 0 ≡ get_or words.old.items p 0 }
    ensures after { (p : ℕ) → start + 64 ≤ p
        → get_or words.new.items p 0 ≡ get_or words.old.items p 0 }
    ensures same_capacity { vec_capacity words.new ≡ vec_capacity words.old }
{
    for i in start..start + 64 {
        words[i] = 0;
    }
}

impl Blocks {
    ghost use Rattle.hibitset_atomic.specs.Blocks.{block_word, IsMade, IsUnmade, HasRoom};

    /// No block is made.
    pub(crate) fn new(alloc: Global) -> Result<Blocks, AllocError>
        ensures zero { IfOk result (λ blocks. (p : ℕ) → block_word blocks p ≡ 0) }
        ensures unmade { IfOk result (λ blocks. (k : ℕ) → IsUnmade blocks k) }
    {
        let places = no_places(alloc, BLOCK_COUNT)?;
        let words = zeros(alloc, 64)?;
        Ok(Blocks { places, words })
    }

    /// Reserves capacity for all blocks, and makes none of them.
    pub(crate) fn make_room(&mut self) -> Result<(), AllocError>
        ensures same { (p : ℕ) → block_word self.new p ≡ block_word self.old p }
        ensures has_room { OnOk result (HasRoom self.new) }
    {
        self.words.reserve(64 * BLOCK_COUNT)
    }

    /// The word at a position.
    #[inline]
    pub(crate) fn word(&self, position: usize) -> usize
        ensures { result ≡ block_word self.now position }
    {
        match self.places.get(position / 64) {
            Some(place) => self.words[*place as usize * 64 + position % 64],
            None => 0,
        }
    }

    // Makes a block that is not there. It is apart from `make`, so that a call of `add` that needs no block tests one
    // place alone.
    #[inline(never)]
    fn make_new(&mut self, block: usize) -> Result<(), AllocError>
        requires block { block < 4096 }
        requires new { get_or self.old.places.items block 0 ≡ 0 }
        ensures same { (p : ℕ) → block_word self.new p ≡ block_word self.old p }
        ensures made { OnOk result (0 < get_or self.new.places.items block 0) }
        ensures others { (k : ℕ) → k ≢ block
            → get_or self.new.places.items k 0 ≡ get_or self.old.places.items k 0 }
        ensures err { OnErr result (self.new.places.items ≡ self.old.places.items) }
        ensures succeeds { HasRoom self.old → IsOk result × HasRoom self.new }
    {
        let len = self.words.len();
        self.words.resize(len + 64, 0)?;
        self.places[block] = (len / 64) as u16;
        Ok(())
    }

    /// Makes the block of a position, if it is not made, and changes no word.
    #[inline]
    pub(crate) fn make(&mut self, position: usize) -> Result<(), AllocError>
        requires { position < 64 ^ (ATOMIC_LAYERS - 1) }
        ensures same { (p : ℕ) → block_word self.new p ≡ block_word self.old p }
        ensures made { OnOk result (IsMade self.new position) }
        ensures succeeds_made { IsMade self.old position → IsOk result }
        ensures err { OnErr result (IsUnmade self.old (position / 64)
            × (self.new.places.items ≡ self.old.places.items)) }
        ensures frees_none { (k : ℕ) → IsUnmade self.new k → IsUnmade self.old k }
        ensures others { (k : ℕ) → k ≢ position / 64 → IsUnmade self.old k → IsUnmade self.new k }
        ensures succeeds { HasRoom self.old → IsOk result × HasRoom self.new }
    {
        if self.places[position / 64] != 0 {
            return Ok(());
        }
        self.make_new(position / 64)
    }

    /// Puts a word into a block that is made.
    #[inline]
    pub(crate) fn store_word(&mut self, position: usize, word: usize)
        requires { IsMade self.old position }
        ensures here { block_word self.new position ≡ word }
        ensures others { (p : ℕ) → p ≢ position → block_word self.new p ≡ block_word self.old p }
        ensures made { self.new.places.items ≡ self.old.places.items }
        ensures same_capacity { vec_capacity self.new.words ≡ vec_capacity self.old.words }
    {
        let place = self.places[position / 64];
        self.words[place as usize * 64 + position % 64] = word;
    }

    /// Sets a bit of a word, and returns the word as it was. If an allocation fails, no word changes.
    pub(crate) fn fetch_or(&mut self, position: usize, bit: u32) -> Result<usize, AllocError>
        requires position { position < 64 ^ (ATOMIC_LAYERS - 1) }
        requires bit { bit < 64 }
        ensures before { IfOk result (λ word. word ≡ block_word self.old position) }
        ensures after { OnOk result ((p : ℕ)
            → block_word self.new p ≡ cond (p == position)
            (bit_or (block_word self.old p) (2 ^ bit)) (block_word self.old p)) }
        ensures err { OnErr result ((p : ℕ) → block_word self.new p ≡ block_word self.old p) }
    {
        self.make(position)?;
        let before = self.word(position);
        self.store_word(position, before | (1 << bit));
        Ok(before)
    }

    /// Makes the words of a block 0.
    pub(crate) fn clear_block(&mut self, block: usize)
        requires { block < 4096 }
        ensures inside { (p : ℕ) → p / 64 ≡ block → block_word self.new p ≡ 0 }
        ensures outside { (p : ℕ) → p / 64 ≢ block → block_word self.new p ≡ block_word self.old p }
        ensures made { self.new.places.items ≡ self.old.places.items }
        ensures same_capacity { vec_capacity self.new.words ≡ vec_capacity self.old.words }
    {
        let place = self.places[block];
        zero_block(&mut self.words, place as usize * 64);
    }
}
