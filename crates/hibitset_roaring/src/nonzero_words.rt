//! The words of layer 0 that a container has, found by layer 1.

ghost use Rattle.std.specs.Prelude.{◌≡◌, ℕ, ◌+◌, ◌*◌, ◌/◌, ◌%◌, ◌^◌, ◌<◌, ◌≤◌, List, get_or, length};
ghost use Rattle.hibitset_roaring.specs.Words.{AreBlocks, IsRest, AreSummaries};

use crate::layout::CONTAINER_WORDS;
use hibitset_base::bits::{next_bit, take_bit, with_bit, word_or_zero};

// How many words of layer 1 lie over a container.
pub(crate) const CONTAINER_BLOCKS: usize = 16;

// The next slot of a container, from one on, over which the bit of layer 1 is set; or 1,024. All words between are 0.
#[inline]
pub(crate) fn next_slot(above: &[usize], key: usize, from: usize) -> usize
    requires key { key < 65536 }
    requires from { from ≤ 1024 }
    ensures order { from ≤ result }
    ensures within { result ≤ 1024 }
    ensures skips { (words : List ℕ) → AreSummaries words above.now → (q : ℕ) → from ≤ q
        → q < result → get_or words (1024 * key + q) 0 ≡ 0 }
{
    let mut slot = from;
    'slots: while slot < CONTAINER_WORDS {
        let block = slot / 64;
        let bit = next_bit(
            word_or_zero(above, CONTAINER_BLOCKS * key + block),
            slot % 64,
        );
        slot = 64 * block + bit;
        if bit < 64 {
            return slot;
        }
    }
    slot
}

// Which of the words of layer 1 over a container are not 0, as bits. All of them are there.
#[inline]
fn whole_blocks(above: &[usize], key: usize) -> usize
    requires { 16 * key + 16 ≤ length above.now }
    ensures { AreBlocks above.now key result }
{
    let mut blocks = 0;
    'words: for b in 0..CONTAINER_BLOCKS {
        blocks = with_bit(blocks, b, above[CONTAINER_BLOCKS * key + b] != 0);
    }
    blocks
}

// Which of the words of layer 1 over a container are not 0, as bits. Those past the end are 0.
#[inline]
fn last_blocks(above: &[usize], key: usize) -> usize
    requires { key < 65536 }
    ensures { AreBlocks above.now key result }
{
    let mut blocks = 0;
    'words: for b in 0..CONTAINER_BLOCKS {
        blocks = with_bit(
            blocks,
            b,
            word_or_zero(above, CONTAINER_BLOCKS * key + b) != 0,
        );
    }
    blocks
}

// Which of the words of layer 1 over a container are not 0, as bits.
#[inline]
pub(crate) fn blocks_over(above: &[usize], key: usize) -> usize
    requires { key < 65536 }
    ensures { AreBlocks above.now key result }
{
    if CONTAINER_BLOCKS * key + CONTAINER_BLOCKS <= above.len() {
        whole_blocks(above, key)
    } else {
        last_blocks(above, key)
    }
}

// The first slot of a container, from a word of layer 1 on, over which the bit of layer 1 is set; or 1,024. All words
// between are 0. `rest` has then the bits of layer 1 that are left over the slot.
#[inline]
pub(crate) fn slot_from(
    above: &[usize],
    key: usize,
    blocks: usize,
    from: usize,
    rest: &mut usize,
) -> usize
    requires key { key < 65536 }
    requires blocks { AreBlocks above.now key blocks }
    requires from { from ≤ 16 }
    ensures order { 64 * from ≤ result }
    ensures within { result ≤ 1024 }
    ensures skips { (words : List ℕ) → AreSummaries words above.now → (q : ℕ) → 64 * from ≤ q
        → q < result → get_or words (1024 * key + q) 0 ≡ 0 }
    ensures rest { result < 1024 → IsRest above.now key result rest.new }
{
    let block = next_bit(blocks, from);
    if block == 64 {
        return CONTAINER_WORDS;
    }
    *rest = word_or_zero(above, CONTAINER_BLOCKS * key + block);
    64 * block + take_bit(rest)
}

// The next slot behind one over which the bit of layer 1 is set, or 1,024. All words between are 0. `rest` has the bits
// of layer 1 that are left over the slot, and then over the one that is found.
#[inline]
pub(crate) fn slot_after(
    above: &[usize],
    key: usize,
    blocks: usize,
    slot: usize,
    rest: &mut usize,
) -> usize
    requires key { key < 65536 }
    requires blocks { AreBlocks above.now key blocks }
    requires slot { slot < 1024 }
    requires rest { IsRest above.now key slot rest.old }
    ensures order { slot < result }
    ensures within { result ≤ 1024 }
    ensures skips { (words : List ℕ) → AreSummaries words above.now → (q : ℕ) → slot + 1 ≤ q
        → q < result → get_or words (1024 * key + q) 0 ≡ 0 }
    ensures rest { result < 1024 → IsRest above.now key result rest.new }
{
    let block = slot / 64;
    if *rest != 0 {
        return 64 * block + take_bit(rest);
    }
    slot_from(above, key, blocks, block + 1, rest)
}
