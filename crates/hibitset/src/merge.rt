//! Words of layer 0 merged with those of any other set.
ghost use Rattle.std.specs.Prelude.{◌≡◌, ℕ, ◌-◌, ◌^◌, ◌<◌, ◌≤◌, ◌↔◌, get_or, length};
ghost use Rattle.hibitset_base.specs.Sets.{bit_of};
ghost use Rattle.hibitset_base.specs.declared.util.TheConstants.{LAYERS};
ghost use Rattle.hibitset.specs.Merge.{prefix_word, AreWords, MergedUnder, MergedAt, Summarizes};

use crate::word_op::Operator;
use hibitset_base::bits::{take_bit, with_bit};
use hibitset_base::like::BitSetLike;

// Merges one of the first `len` words, and returns whether it is not 0 then.
#[inline]
fn merge_word<O: Operator, B: BitSetLike>(
    words: &mut [usize],
    len: usize,
    other: &B,
    place: usize,
) -> bool
    requires long_enough { len ≤ length words.old }
    requires fits { len ≤ place → O.merged 0 (B.word other.now 0 place) ≡ 0 }
    ensures length { length words.new ≡ length words.old }
    ensures words { MergedUnder O.merged (B.word other.now 0) (prefix_word len words.old)
        (prefix_word len words.new) 1 place }
    ensures nonzero { (bit_of result ≡ 1) ↔ (0 < prefix_word len words.new place) }
    ensures others { (p : ℕ) → len ≤ p → get_or words.new p 0 ≡ get_or words.old p 0 }
    ensures bounded { AreWords (λ p. get_or words.old p 0) → AreWords (λ p. get_or words.new p 0) }
{
    if len <= place {
        return false;
    }
    let word = O::merge(words[place], other.layer0(place));
    words[place] = word;
    word != 0
}

// Merges those of the first `len` words below word `place` of layer 1 whose bits are set in `bits`, and returns the
// summary of all 64, which was `summary`.
#[inline]
pub(crate) fn merge_words<O: Operator, B: BitSetLike>(
    words: &mut Vec<usize>,
    len: usize,
    other: &B,
    place: usize,
    bits: usize,
    summary: usize,
) -> usize
    requires long_enough { len ≤ length words.old.items }
    requires in_range { place < 64 ^ (LAYERS - 2) }
    requires exact { Summarizes (prefix_word len words.old.items) place summary }
    requires fits { (p : ℕ) → p < 64 ^ (LAYERS - 1) → len ≤ p
        → O.merged 0 (B.word other.now 0 p) ≡ 0 }
    ensures length { length words.new.items ≡ length words.old.items }
    ensures words { MergedAt O.merged (B.word other.now 0) (prefix_word len words.old.items)
        (prefix_word len words.new.items) 1 place bits }
    ensures exact { Summarizes (prefix_word len words.new.items) place result }
    ensures others { (p : ℕ) → len ≤ p → get_or words.new.items p 0 ≡ get_or words.old.items p 0 }
    ensures bounded { AreWords (λ p. get_or words.old.items p 0)
        → AreWords (λ p. get_or words.new.items p 0) }
{
    let slice = words.as_mut_slice();
    let mut above = summary;
    let mut left = bits;
    while left != 0 {
        let bit = take_bit(&mut left);
        let stands = merge_word::<O, B>(slice, len, other, 64 * place + bit);
        above = with_bit(above, bit, stands);
    }
    above
}
