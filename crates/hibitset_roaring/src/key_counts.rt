//! Which containers a set has, and how many members each.

ghost use Rattle.std.specs.Prelude.{◌≡◌, ℕ, ◌+◌, ◌-◌, ◌*◌, ◌/◌, ◌^◌, ◌<◌, ◌≤◌, true, length, IfOk, OnOk};
ghost use Rattle.hibitset_roaring.specs.Streams.{AreHeads};
ghost use Rattle.hibitset_roaring.specs.declared.header.TheConstants.{KEYS};
ghost use Rattle.hibitset_roaring.specs.Words.{ones_from, ones_under, AreBlocks, AreSummaries};

use crate::header::KEYS;
use crate::layout::CONTAINER_WORDS;
use crate::nonzero_words::{CONTAINER_BLOCKS, blocks_over, slot_after, slot_from};
use crate::source::ContainerSource;
use hibitset_base::bits::word_or_zero;
use std::alloc::{AllocError, Global};

// From this many nonzero words on, all words of a container are counted.
const MANY_WORDS: usize = 256;

// From this many nonzero words of layer 1 on, the nonzero words under them are counted first.
const MANY_BLOCKS: usize = 8;

/// The keys of the containers of a set, and how many members each has.
#[derive(Drop)]
pub(crate) struct Heads {
    pub(crate) keys: Vec<usize>,
    pub(crate) counts: Vec<usize>,
}

// How many words of a container are not 0.
fn count_slots(above: &[usize], key: usize) -> usize
    requires { key < 65536 }
{
    let mut slots = 0;
    'summaries: for block in 0..CONTAINER_BLOCKS {
        slots += word_or_zero(above, CONTAINER_BLOCKS * key + block).count_ones() as usize;
    }
    slots
}

// How many bits are set in 1,024 words.
fn count_whole(words: &[usize], base: usize) -> usize
    requires { base + 1024 ≤ length words.now }
    ensures count { result ≡ ones_from words.now base 1024 }
    ensures max { result ≤ 65536 }
{
    let mut ones = 0;
    'words: for j in 0..CONTAINER_WORDS {
        ones += words[base + j].count_ones() as usize;
    }
    ones
}

// How many bits are set in the words of a container, of which those that are 0 are skipped.
fn count_some(words: &[usize], above: &[usize], key: usize, blocks: usize) -> usize
    requires key { key < 65536 }
    requires summaries { AreSummaries words.now above.now }
    requires blocks { AreBlocks above.now key blocks }
    ensures count { result ≡ ones_under words.now key }
    ensures max { result ≤ 65536 }
{
    let base = CONTAINER_WORDS * key;
    let mut ones = 0;
    let mut rest = 0;
    let mut slot = slot_from(above, key, blocks, 0, &mut rest);
    'slots: while slot < CONTAINER_WORDS {
        ones += word_or_zero(words, base + slot).count_ones() as usize;
        slot = slot_after(above, key, blocks, slot, &mut rest);
    }
    ones
}

// Returns whether a container has many nonzero words, and all its words lie in `words`.
fn has_many(words: &[usize], above: &[usize], key: usize, blocks: usize) -> bool
    requires { key < 65536 }
    ensures { result ≡ true → 1024 * key + 1024 ≤ length words.now }
{
    CONTAINER_WORDS * key + CONTAINER_WORDS <= words.len()
        && blocks.count_ones() as usize >= MANY_BLOCKS
        && count_slots(above, key) >= MANY_WORDS
}

// How many members have these high bits.
pub(crate) fn count_members(words: &[usize], above: &[usize], key: usize) -> usize
    requires key { key < 65536 }
    requires summaries { AreSummaries words.now above.now }
    ensures count { result ≡ ones_under words.now key }
    ensures max { result ≤ 65536 }
{
    let blocks = blocks_over(above, key);
    if has_many(words, above, key, blocks) {
        count_whole(words, CONTAINER_WORDS * key)
    } else {
        count_some(words, above, key, blocks)
    }
}

impl Heads {
    // Notes a container, if there are members for it.
    fn note<S: ContainerSource>(&mut self, source: &S, key: usize) -> Result<(), AllocError>
        requires key { key < KEYS }
        requires heads { AreHeads (S.words source.now) self.old.keys.items self.old.counts.items
            key }
        ensures { OnOk result (AreHeads (S.words source.now) self.new.keys.items
            self.new.counts.items (key + 1)) }
    {
        let count = source.count_under(key);
        if count == 0 {
            return Ok(());
        }
        self.keys.push(key)?;
        self.counts.push(count)?;
        Ok(())
    }

    /// The containers of a set.
    pub(crate) fn of<S: ContainerSource>(alloc: Global, source: &S) -> Result<Heads, AllocError>
        ensures { IfOk result (λ heads. AreHeads (S.words source.now) heads.keys.items
            heads.counts.items KEYS) }
    {
        let mut heads = Heads {
            keys: Vec::new(alloc),
            counts: Vec::new(alloc),
        };
        let mut key = source.next_key(0);
        'keys: while key < KEYS {
            heads.note(source, key)?;
            key = source.next_key(key + 1);
        }
        Ok(heads)
    }
}
