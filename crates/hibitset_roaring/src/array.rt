//! Members written as an array.

ghost use Rattle.std.specs.Prelude.{◌≡◌, ℕ, ◌+◌, ◌-◌, ◌*◌, ◌^◌, ◌<◌, ◌≤◌, ◌||◌, ◌&&◌, nat_lt, length};
ghost use Rattle.std.specs.Int.RustNames.{count_ones};
ghost use Rattle.hibitset.specs.WordBits.{stands_in};
ghost use Rattle.hibitset_roaring.specs.Numbers.{u16_at};
ghost use Rattle.hibitset_roaring.specs.Format.{in_array, IsArray};
ghost use Rattle.hibitset_roaring.specs.Streams.{SameBefore};
ghost use Rattle.hibitset_roaring.specs.Words.{in_word, ones_from, ones_under, AreSummaries};

use crate::layout::CONTAINER_WORDS;
use crate::nonzero_words::{blocks_over, slot_after, slot_from};
use crate::number::put_u16;
use hibitset_base::bits::{take_bit, word_or_zero};

// Writes the bits of a word, whose first bit has the number `first`, behind the `len` numbers of an array, and returns
// how many it has then.
#[inline]
fn write_word(out: &mut [u8], at: usize, len: usize, first: usize, word: usize) -> usize
    requires long_enough { at + 2 * (len + count_ones word) ≤ length out.old }
    requires first { first + 64 ≤ 65536 }
    ensures len { result ≡ len + count_ones word }
    ensures before { SameBefore (at + 2 * len) out.old out.new }
    ensures members { (v : ℕ) → in_array out.new at result v
        ≡ (in_array out.old at len v || in_word first word v) }
    ensures low { (i : ℕ) → len ≤ i → i < result → first ≤ u16_at out.new (at + 2 * i) }
    ensures high { (i : ℕ) → len ≤ i → i < result → u16_at out.new (at + 2 * i) < first + 64 }
    ensures ascending { (i : ℕ) → len ≤ i → i + 1 < result
        → u16_at out.new (at + 2 * i) < u16_at out.new (at + 2 * (i + 1)) }
{
    let mut end = len;
    let mut rest = word;
    'bits: while rest != 0 {
        let bit = take_bit(&mut rest);
        put_u16(out, at + 2 * end, first + bit);
        end += 1;
    }
    end
}

// Writes the members with these high bits as an array.
pub(crate) fn write_array(out: &mut [u8], at: usize, words: &[usize], above: &[usize], key: usize)
    requires long_enough { at + 2 * ones_under words.now key ≤ length out.old }
    requires key { key < 65536 }
    requires summaries { AreSummaries words.now above.now }
    ensures before { SameBefore at out.old out.new }
    ensures array { IsArray out.new at (ones_under words.now key) }
    ensures members { (v : ℕ) → v < 65536
        → in_array out.new at (ones_under words.now key) v ≡ stands_in words.now (65536 * key + v) }
{
    let base = CONTAINER_WORDS * key;
    let blocks = blocks_over(above, key);
    let mut len = 0;
    let mut rest = 0;
    let mut slot = slot_from(above, key, blocks, 0, &mut rest);
    'slots: while slot < CONTAINER_WORDS {
        len = write_word(out, at, len, 64 * slot, word_or_zero(words, base + slot));
        slot = slot_after(above, key, blocks, slot, &mut rest);
    }
}
