//! The summaries over the words of a set: those of all words, and those over a word that has changed.
ghost use Rattle.std.specs.Prelude.{◌≡◌, ◌≢◌, ℕ, ◌+◌, ◌-◌, ◌/◌, ◌^◌, ◌<◌, ◌≤◌, ◌==◌, ◌↔◌, not, true, false, get_or, length, vec_capacity, IfOk, IsOk};
ghost use Rattle.std.specs.Int.{bit_at};
ghost use Rattle.hibitset_base.specs.Words.{SummariesExactEverywhere};
ghost use Rattle.hibitset_base.specs.declared.util.TheConstants.{LAYERS};
ghost use Rattle.hibitset.specs.Layout.{layer_start, SummariesExactExceptAt};
ghost use Rattle.hibitset.specs.Layers.{word_in, len_in};
ghost use Rattle.hibitset.specs.Merge.{Summarizes};

use crate::layers::Layers;
use hibitset_base::bits::with_bit;
use hibitset_base::util::LAYERS;
use std::alloc::{AllocError, Global};

// The words of one bit each, from bit 0 up.
#[rattlefmt::skip]
const ONE_BIT: [usize; 64] = [
    1, 1 << 1, 1 << 2, 1 << 3, 1 << 4, 1 << 5, 1 << 6, 1 << 7,
    1 << 8, 1 << 9, 1 << 10, 1 << 11, 1 << 12, 1 << 13, 1 << 14, 1 << 15,
    1 << 16, 1 << 17, 1 << 18, 1 << 19, 1 << 20, 1 << 21, 1 << 22, 1 << 23,
    1 << 24, 1 << 25, 1 << 26, 1 << 27, 1 << 28, 1 << 29, 1 << 30, 1 << 31,
    1 << 32, 1 << 33, 1 << 34, 1 << 35, 1 << 36, 1 << 37, 1 << 38, 1 << 39,
    1 << 40, 1 << 41, 1 << 42, 1 << 43, 1 << 44, 1 << 45, 1 << 46, 1 << 47,
    1 << 48, 1 << 49, 1 << 50, 1 << 51, 1 << 52, 1 << 53, 1 << 54, 1 << 55,
    1 << 56, 1 << 57, 1 << 58, 1 << 59, 1 << 60, 1 << 61, 1 << 62, 1 << 63,
];

// The summary of up to 64 words: the bit of each that is not 0. It comes from a table, since a loop that shifts by a
// count does not go by vectors.
#[inline]
fn summary_of(words: &[usize]) -> usize
    requires { length words.now ≤ 64 }
    ensures { (b : ℕ) → b < 64 → (bit_at result b ≡ 1) ↔ (0 < get_or words.now b 0) }
{
    let mut summary = 0;
    let mut at = 0;
    while at < words.len() {
        if words[at] != 0 {
            summary |= ONE_BIT[at];
        }
        at += 1;
    }
    summary
}

// The summary of the 64 words from a place on, or of those that are left. The 64 have a call of their own, whose loop
// is unrolled.
#[inline]
fn summary_at(words: &[usize], start: usize) -> usize
    requires { start ≤ length words.now }
    ensures { (b : ℕ) → b < 64 → (bit_at result b ≡ 1) ↔ (0 < get_or words.now (start + b) 0) }
{
    if words.len() - start < 64 {
        summary_of(&words[start..])
    } else {
        summary_of(&words[start..start + 64])
    }
}

// Returns whether a word becomes zero or nonzero as one of its bits is set or cleared: it is 0 before the one, and
// after the other.
#[inline]
fn became_zero_or_nonzero(before: usize, word: usize, stands: bool) -> bool
    requires set { stands ≡ true → 0 < word }
    requires cleared { stands ≡ false → 0 < word → 0 < before }
    ensures same_summary { result ≡ false → (0 < before) ↔ (0 < word) }
    ensures turned { result ≡ true → not (word == 0) ≡ stands }
{
    if stands { before == 0 } else { word == 0 }
}

impl Layers {
    /// These words in layer 0 with exact summaries over them, and no more capacity than they need. It allocates once.
    pub(crate) fn of_words(alloc: Global, words: &[usize]) -> Result<Layers, AllocError>
        requires { length words.now ≤ 64 ^ (LAYERS - 1) }
        ensures words { IfOk result (λ layers. (p : ℕ)
            → word_in layers 0 p ≡ get_or words.now p 0) }
        ensures summed { IfOk result (λ layers. SummariesExactEverywhere LAYERS (word_in layers)) }
        ensures length { IfOk result (λ layers. len_in layers 0 ≡ length words.now) }
    {
        Layers::of_vec(Layers::vec_of(alloc, words)?)
    }

    /// The words of a vector in layer 0 with exact summaries over them, which are appended. It allocates at most once,
    /// and not at all if the vector has capacity for the summaries.
    pub(crate) fn of_vec(words: Vec<usize>) -> Result<Layers, AllocError>
        requires { length words.items ≤ 64 ^ (LAYERS - 1) }
        ensures words { IfOk result (λ layers. (p : ℕ)
            → word_in layers 0 p ≡ get_or words.items p 0) }
        ensures summed { IfOk result (λ layers. SummariesExactEverywhere LAYERS (word_in layers)) }
        ensures length { IfOk result (λ layers. len_in layers 0 ≡ length words.items) }
        ensures succeeds { layer_start (LAYERS - 1) (length words.items) ≤ vec_capacity words
            → IsOk result }
    {
        let mut layers = Layers::before_zeros(words)?;
        layers.sum_layers();
        Ok(layers)
    }

    // Makes the words of a layer the summaries of those below.
    fn sum_layer(&mut self, layer: usize)
        requires layer { (0 < layer) × (layer < LAYERS - 1) }
        ensures exact { (p : ℕ) → Summarizes (word_in self.old (layer - 1)) p
            (word_in self.new layer p) }
        ensures layers { (l p : ℕ) → l ≢ layer → word_in self.new l p ≡ word_in self.old l p }
        ensures lengths { (l : ℕ) → len_in self.new l ≡ len_in self.old l }
    {
        let mut place = 0;
        while place < self.slice(layer).len() {
            let word = summary_at(self.slice(layer - 1), 64 * place);
            self.store_word(layer, place, word);
            place += 1;
        }
    }

    // Makes all summaries exact, from layer 1 up.
    fn sum_layers(&mut self)
        ensures summed { SummariesExactEverywhere LAYERS (word_in self.new) }
        ensures words { (p : ℕ) → word_in self.new 0 p ≡ word_in self.old 0 p }
        ensures lengths { (l : ℕ) → len_in self.new l ≡ len_in self.old l }
    {
        let mut layer = 1;
        while layer < LAYERS - 1 {
            self.sum_layer(layer);
            layer += 1;
        }
        self.store_top(summary_of(self.slice(LAYERS - 2)));
    }

    /// Stores a word of layer 0 in the place of the word `before`, of which one bit was set or cleared, and updates the
    /// summaries above, as far up as a word becomes zero or nonzero.
    #[inline]
    pub(crate) fn replace_word(&mut self, place: usize, before: usize, word: usize, stands: bool)
        requires in_range { place < len_in self.old 0 }
        requires before { before ≡ word_in self.old 0 place }
        requires set { stands ≡ true → 0 < word }
        requires cleared { stands ≡ false → 0 < before }
        requires summed { SummariesExactEverywhere LAYERS (word_in self.old) }
        ensures here { word_in self.new 0 place ≡ word }
        ensures others { (p : ℕ) → p ≢ place → word_in self.new 0 p ≡ word_in self.old 0 p }
        ensures summed { SummariesExactEverywhere LAYERS (word_in self.new) }
        ensures length { len_in self.new 0 ≡ len_in self.old 0 }
    {
        self.store_word(0, place, word);
        if became_zero_or_nonzero(before, word, stands) {
            self.update_above(0, place, stands);
        }
    }

    /// Updates the summary bits above a word that has just become zero or nonzero (`stands`: nonzero). The word that
    /// holds the first of them mostly stays nonzero, so only what lies above that one takes a call.
    #[inline]
    pub(crate) fn update_above(&mut self, layer: usize, place: usize, stands: bool)
        requires layer { layer + 2 < LAYERS }
        requires in_range { place < len_in self.old layer }
        requires stands { not (word_in self.old layer place == 0) ≡ stands }
        requires summed { SummariesExactExceptAt LAYERS (word_in self.old) layer place }
        ensures summed { SummariesExactEverywhere LAYERS (word_in self.new) }
        ensures lower { (l p : ℕ) → l ≤ layer → word_in self.new l p ≡ word_in self.old l p }
        ensures lengths { (l : ℕ) → len_in self.new l ≡ len_in self.old l }
    {
        if self.update_parent_bit(layer, place, stands) {
            self.update_summaries(layer + 1, place / 64, stands);
        }
    }

    // Updates the bit above a word that has just become zero or nonzero (`stands`: nonzero), and returns whether the
    // word with that bit became so too.
    #[inline]
    fn update_parent_bit(&mut self, layer: usize, place: usize, stands: bool) -> bool
        requires layer { layer + 2 < LAYERS }
        requires in_range { place < len_in self.old layer }
        requires stands { not (word_in self.old layer place == 0) ≡ stands }
        requires summed { SummariesExactExceptAt LAYERS (word_in self.old) layer place }
        ensures done { result ≡ false → SummariesExactEverywhere LAYERS (word_in self.new) }
        ensures above { result ≡ true → SummariesExactExceptAt LAYERS (word_in self.new) (layer + 1)
            (place / 64) }
        ensures stands { result ≡ true → not (word_in self.new (layer + 1) (place / 64) == 0)
            ≡ stands }
        ensures lower { (l p : ℕ) → l ≤ layer → word_in self.new l p ≡ word_in self.old l p }
        ensures lengths { (l : ℕ) → len_in self.new l ≡ len_in self.old l }
    {
        let before = self.slice(layer + 1)[place / 64];
        let word = with_bit(before, place % 64, stands);
        self.store_word(layer + 1, place / 64, word);
        became_zero_or_nonzero(before, word, stands)
    }

    // Updates the summary bits above a word that has just become zero or nonzero (`stands`: nonzero). It stops at the
    // first layer whose word does not. It is not inlined, to keep callers small.
    #[inline(never)]
    fn update_summaries(&mut self, layer: usize, place: usize, stands: bool)
        requires layer { layer < LAYERS - 1 }
        requires in_range { place < len_in self.old layer }
        requires stands { not (word_in self.old layer place == 0) ≡ stands }
        requires summed { SummariesExactExceptAt LAYERS (word_in self.old) layer place }
        ensures summed { SummariesExactEverywhere LAYERS (word_in self.new) }
        ensures lower { (l p : ℕ) → l ≤ layer → word_in self.new l p ≡ word_in self.old l p }
        ensures lengths { (l : ℕ) → len_in self.new l ≡ len_in self.old l }
    {
        let mut layer = layer;
        let mut place = place;
        while layer + 2 < LAYERS {
            if !self.update_parent_bit(layer, place, stands) {
                return;
            }
            layer += 1;
            place /= 64;
        }
        self.store_top(with_bit(self.top(), place, stands));
    }
}
