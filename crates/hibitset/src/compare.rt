//! Comparisons of two sets, whole words at a time.
#![tactic(auto, unfolding(crate::specs::BitSet::has, crate::specs::BitSet::word_of))]

ghost use Rattle.std.specs.Prelude.{◌≡◌, ℕ, ◌+◌, ◌-◌, ◌*◌, ◌/◌, ◌%◌, ◌^◌, ◌<◌, ◌≤◌, ◌==◌, ◌↔◌, Bool, true, false, not, IsTrue, refl};
ghost use Rattle.std.specs.Int.{bit_at};
ghost use Rattle.std.specs.Ordering.{on};
ghost use Rattle.std.specs.Cmp.{partial_equiv_from_equiv};
ghost use Rattle.std.specs.Cmp.Lexicographic.{pointwise, on_texts_equal};
ghost use Rattle.hibitset_base.specs.declared.util.TheConstants.{LAYERS, MAX_EID};
ghost use Rattle.hibitset.specs.BitSet.{has, members_of, word_of, slice_len};
ghost use Rattle.hibitset.specs.Comparison.{BitsPass, includes, includes_rises, includes_alone, agree, agree_rises, agree_alone};

use crate::set::BitSet;
use hibitset_base::bits::take_bit;
use hibitset_base::like::BitSetLike;
use hibitset_base::util::{LAYERS, MAX_EID};

// How many words of a block are not 0 where it goes faster as a whole than word by word.
const MIN_NONZERO_WORDS: u32 = 8;

// What may be in two sets beside each other.
pub(crate) trait Comparison {
    // Whether an index may be in ours or not, and in theirs or not.
    ghost allowed: { Bool → Bool → Bool };

    // Zero exactly where all bits of the two words pass.
    fn misses(ours: usize, theirs: usize) -> usize
        ensures { (result ≡ 0) ↔ BitsPass allowed ours theirs };

    // Two sets with no members pass.
    ghost none: { allowed false false ≡ true };

    // Where the bits of two words pass, so do the bits over them.
    ghost rises: { (x y : ℕ) → x < 2 ^ 64 → y < 2 ^ 64 → BitsPass allowed x y
        → allowed (not (x == 0)) (not (y == 0)) ≡ true };

    // Where the comparison passed at a summary bit that theirs lacks, it passes for every word below it. So such
    // subtrees are skipped.
    ghost alone: { (a : Bool) (x b : ℕ) → allowed a false ≡ true → (0 < x → a ≡ true)
        → allowed (bit_at x b == 1) false ≡ true };
}

// Ours has each index that theirs has.
pub(crate) struct Superset;

impl Comparison for Superset {
    ghost allowed = { includes };

    ghost none = { refl };

    ghost rises = { includes_rises };

    ghost alone = { includes_alone };

    #[inline]
    fn misses(ours: usize, theirs: usize) -> usize {
        theirs & !ours
    }
}

// Both have the same indices.
pub(crate) struct Equality;

impl Comparison for Equality {
    ghost allowed = { agree };

    ghost none = { refl };

    ghost rises = { agree_rises };

    ghost alone = { agree_alone };

    #[inline]
    fn misses(ours: usize, theirs: usize) -> usize {
        ours ^ theirs
    }
}

// Compares the 64 words below word `place` of layer 1, all of which both sets have, with no test between them.
#[inline]
fn compare_block<C: Comparison>(ours: &BitSet, theirs: &BitSet, place: usize) -> bool
    requires ours { 64 * place + 64 ≤ slice_len ours.now 0 }
    requires theirs { 64 * place + 64 ≤ slice_len theirs.now 0 }
    ensures if_true { result ≡ true → (p : ℕ) → p / 64 ≡ place
        → BitsPass C.allowed (word_of ours.now 0 p) (word_of theirs.now 0 p) }
    ensures if_false { result ≡ false → ((p : ℕ)
        → BitsPass C.allowed (word_of ours.now 0 p) (word_of theirs.now 0 p)) → ⊥ }
{
    let ours = ours.layers.slice(0);
    let theirs = theirs.layers.slice(0);
    let mut missed = 0usize;
    let mut bit = 0;
    while bit < 64 {
        missed |= C::misses(ours[64 * place + bit], theirs[64 * place + bit]);
        bit += 1;
    }
    missed == 0
}

// Returns whether a set has all 64 words below word `place` of layer 1.
#[inline]
fn has_block(set: &BitSet, place: usize) -> bool
    requires { place < 64 ^ (LAYERS - 2) }
    ensures { IsTrue result ↔ 64 * place + 64 ≤ slice_len set.now 0 }
{
    64 * place + 64 <= set.layers.len()
}

// Compares the words below word `place` of layer 1 whose bits are set in `bits`.
#[inline]
fn compare_words<C: Comparison>(ours: &BitSet, theirs: &BitSet, place: usize, bits: usize) -> bool
    requires { place < 64 ^ (LAYERS - 2) }
    ensures if_true { result ≡ true → (p : ℕ) → p / 64 ≡ place → bit_at bits (p % 64) ≡ 1
        → BitsPass C.allowed (word_of ours.now 0 p) (word_of theirs.now 0 p) }
    ensures if_false { result ≡ false → ((p : ℕ)
        → BitsPass C.allowed (word_of ours.now 0 p) (word_of theirs.now 0 p)) → ⊥ }
{
    let mut left = bits;
    while left != 0 {
        let lower = 64 * place + take_bit(&mut left);
        if C::misses(ours.layer0(lower), theirs.layer0(lower)) != 0 {
            return false;
        }
    }
    true
}

// Compares the words below word `place` of layer 1, where theirs has the word `word`: as a block where many of them are
// not 0.
#[inline]
fn compare_lowest<C: Comparison>(ours: &BitSet, theirs: &BitSet, place: usize, word: usize) -> bool
    requires { place < 64 ^ (LAYERS - 2) }
    ensures if_true { result ≡ true → (p : ℕ) → p / 64 ≡ place → bit_at word (p % 64) ≡ 1
        → BitsPass C.allowed (word_of ours.now 0 p) (word_of theirs.now 0 p) }
    ensures if_false { result ≡ false → ((p : ℕ)
        → BitsPass C.allowed (word_of ours.now 0 p) (word_of theirs.now 0 p)) → ⊥ }
{
    if word.count_ones() >= MIN_NONZERO_WORDS
        && has_block(ours, place)
        && has_block(theirs, place)
    {
        compare_block::<C>(ours, theirs, place)
    } else {
        compare_words::<C>(ours, theirs, place, word)
    }
}

// Compares word `place` of a layer above layer 0, and then what lies under it.
fn compare_subtree<C: Comparison>(
    ours: &BitSet,
    theirs: &BitSet,
    layer: usize,
    place: usize,
) -> bool
    requires layer { (0 < layer) × (layer < LAYERS) }
    requires in_range { place < 64 ^ (LAYERS - 1 - layer) }
    ensures if_true { result ≡ true → (p : ℕ) → p / 64 ^ layer ≡ place
        → BitsPass C.allowed (word_of ours.now 0 p) (word_of theirs.now 0 p) }
    ensures if_false { result ≡ false → ((p : ℕ)
        → BitsPass C.allowed (word_of ours.now 0 p) (word_of theirs.now 0 p)) → ⊥ }
{
    let word = theirs.get_from_layer(layer, place);
    if C::misses(ours.get_from_layer(layer, place), word) != 0 {
        return false;
    }
    if layer == 1 {
        return compare_lowest::<C>(ours, theirs, place, word);
    }
    let mut left = word;
    while left != 0 {
        let bit = take_bit(&mut left);
        if !compare_subtree::<C>(ours, theirs, layer - 1, 64 * place + bit) {
            return false;
        }
    }
    true
}

// Compares two sets, from the top down to the first words that do not pass.
pub(crate) fn compare<C: Comparison>(ours: &BitSet, theirs: &BitSet) -> bool
    ensures { IsTrue result ↔ ((i : ℕ) → i < MAX_EID
        → C.allowed (has ours.now i) (has theirs.now i) ≡ true) }
{
    compare_subtree::<C>(ours, theirs, LAYERS - 1, 0)
}

impl BitSet {
    /// Returns whether each member of the other set is one of this set: `contains_set` of the original. It does not
    /// allocate, and skips regions in which the other set has no member.
    pub fn contains_set(&self, other: &BitSet) -> bool
        ensures { IsTrue result ↔ ((i : ℕ) → i < MAX_EID → has other.now i ≡ true
            → has self.now i ≡ true) }
    {
        compare::<Superset>(self, other)
    }
}

/// Sets are equal if they have the same members. It does not allocate.
impl PartialEq for BitSet {
    ghost eq = { on members_of (pointwise ◌==◌) };

    ghost laws = { partial_equiv_from_equiv (on_texts_equal members_of) };

    fn eq(&self, other: &BitSet) -> bool {
        compare::<Equality>(self, other)
    }
}

impl Eq for BitSet {
    ghost laws = { on_texts_equal members_of };
}
