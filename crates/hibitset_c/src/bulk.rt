//! Calls that read many indices or words of a set at once.
#![tactic(auto)]

ghost use Rattle.std.specs.Prelude.{◌≡◌, ℕ, ◌+◌, ◌<◌, length, map, slice_index};
ghost use Rattle.hibitset_base.specs.Sets.{bit_of};
ghost use Rattle.hibitset_c.specs.Buffer.{Fills};
ghost use Rattle.hibitset_c.specs.LentSet.{has, word_of};

use crate::lent_set::LentSet;
use crate::lookups::contains_each;

/// Writes for each index of a list whether it is a member, 1 or 0, until the buffer is full or there are no more.
/// Returns how many.
#[unsafe(no_mangle)]
pub extern "C" fn hibitset_contains_many(
    set: &LentSet<'_>,
    indices: &[u32],
    found: &mut [u8],
) -> usize
    ensures { Fills (map (λ i. bit_of (has set.now i)) indices.now) found.old result found.new }
{
    contains_each(set, indices, found)
}

/// Fills the buffer with the words of layer 0 from position `start` on, which are 0 past the set's last.
#[unsafe(no_mangle)]
pub extern "C" fn hibitset_copy_words(set: &LentSet<'_>, start: usize, buffer: &mut [usize])
    ensures { (p : ℕ) → p < length buffer.old
        → slice_index buffer.new p ≡ word_of set.now 0 (start + p) }
{
    let words = &set.layer0[start.min(set.layer0.len())..];
    let count = words.len().min(buffer.len());
    buffer[..count].copy_from_slice(&words[..count]);
    buffer[count..].fill(0);
}
