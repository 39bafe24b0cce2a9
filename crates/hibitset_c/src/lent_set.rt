//! A set that C lends to be read.
#![tactic(auto, unfolding(crate::specs::LentSet::has, crate::specs::LentSet::word_of))]

ghost use Rattle.std.specs.Prelude.{◌≡◌, ℕ, ◌-◌, ◌^◌, ◌≤◌, get_or, length};
ghost use Rattle.hibitset_base.specs.Words.{SummariesExactEverywhere, word_at};
ghost use Rattle.hibitset_base.specs.declared.util.TheConstants.{LAYERS};
ghost use Rattle.hibitset.specs.Layers.{piled, IsFitted};
ghost use Rattle.hibitset.specs.Merge.{AreWords};

use hibitset::{BitSetLike, Index};
use hibitset_base::bits::word_or_zero;

/// The words of a set, in the bytes of its `hibitset_t`.
///
/// C owes that the slices and the word of the top layer are those that the last call that changed the set left, or
/// those of `hibitset_new`, and that no call changes the set meanwhile.
#[repr(C)]
#[derive(Clone, Copy)]
pub struct LentSet<'a> {
    pub layer0: &'a [usize],
    pub layer1: &'a [usize],
    pub layer2: &'a [usize],
    pub layer3: &'a [usize],
    pub top: usize,
    at: *const usize,
    made: bool,
    ghost short: { length layer0.now ≤ 64 ^ (LAYERS - 1) },
    ghost fitted: { IsFitted LAYERS (piled layer0.now layer1.now layer2.now layer3.now top) },
    ghost summed: { SummariesExactEverywhere LAYERS
        (word_at (piled layer0.now layer1.now layer2.now layer3.now top)) },
}

// Does nothing: that the items of a slice are words is what its type says.
#[inline]
pub(crate) fn are_words(words: &[usize])
    ensures { AreWords (λ p. get_or words.now p 0) }
{}

impl<'a> BitSetLike for LentSet<'a> {
    ghost use Rattle.hibitset_c.specs.LentSet.{has, word_of, has_is_lawful};

    ghost holds = { has };

    ghost word = { word_of };

    ghost lawful = { has_is_lawful };

    #[inline]
    fn layer4(&self) -> usize {
        self.top
    }

    #[inline]
    fn layer3(&self, i: usize) -> usize {
        word_or_zero(self.layer3, i)
    }

    #[inline]
    fn layer2(&self, i: usize) -> usize {
        word_or_zero(self.layer2, i)
    }

    #[inline]
    fn layer1(&self, i: usize) -> usize {
        word_or_zero(self.layer1, i)
    }

    #[inline]
    fn layer0(&self, i: usize) -> usize {
        word_or_zero(self.layer0, i)
    }

    #[inline]
    fn contains(&self, i: Index) -> bool {
        let index = i as usize;
        self.layer0(index / 64) >> (index % 64) & 1 == 1
    }
}
