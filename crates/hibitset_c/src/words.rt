//! Where the words of a set lie.
#![tactic(auto)]

use hibitset::{BitSet, BitSetLike, Index};
use std::ptr;

// Where a layer without words begins, since a slice begins somewhere.
static NO_WORD: usize = 0;

/// The beginning and the length of each layer below the top, and the word of the top layer.
#[repr(C)]
#[derive(Drop)]
pub struct Words {
    layer0: *const usize,
    len0: usize,
    layer1: *const usize,
    len1: usize,
    layer2: *const usize,
    len2: usize,
    layer3: *const usize,
    len3: usize,
    top: usize,
}

// The pointers own nothing.
unsafe impl Send for Words {}

#[inline]
fn start_of(words: &[usize]) -> *const usize {
    match words.first() {
        Some(word) => ptr::from_ref(word),
        None => ptr::from_ref(&NO_WORD),
    }
}

impl Words {
    ghost use Rattle.std.specs.Prelude.{◌≡◌, ◌/◌, ◌<◌, ◌≤◌, true, false, None, Some};
    ghost use Rattle.hibitset.specs.BitSet.{slice_len};
    ghost use Rattle.hibitset.specs.declared.set.BitSet.{BitSet};
    ghost use Rattle.hibitset_c.specs.Words.{Shows};

    // Those of no set.
    pub(crate) fn none() -> Words
        ensures { Shows result None }
    {
        let start = ptr::from_ref(&NO_WORD);
        Words {
            layer0: start,
            len0: 0,
            layer1: start,
            len1: 0,
            layer2: start,
            len2: 0,
            layer3: start,
            len3: 0,
            top: 0,
        }
    }

    // Returns whether layer 0 has the word of an index.
    #[inline]
    pub(crate) fn has_word_of(&self, index: Index) -> bool
        ensures if_true { result ≡ true → index / 64 < self.now.len0 }
        ensures if_false { result ≡ false → self.now.len0 ≤ index / 64 }
    {
        (index as usize / 64) < self.len0
    }

    // Becomes those of a set.
    #[inline(never)]
    pub(crate) fn show(&mut self, set: &BitSet)
        ensures { Shows self.new (Some set.now) }
    {
        let layer0 = set.layer0_as_slice();
        let layer1 = set.layer1_as_slice();
        let layer2 = set.layer2_as_slice();
        let layer3 = set.layer3_as_slice();
        *self = Words {
            layer0: start_of(layer0),
            len0: layer0.len(),
            layer1: start_of(layer1),
            len1: layer1.len(),
            layer2: start_of(layer2),
            len2: layer2.len(),
            layer3: start_of(layer3),
            len3: layer3.len(),
            top: set.layer4(),
        };
    }

    // Follows a change that kept the length of layer 0, after which no layer lies elsewhere.
    #[inline]
    pub(crate) fn follow_top(&mut self, set: &BitSet)
        requires { slice_len set.now 0 ≡ self.old.len0 }
        ensures { (before : BitSet) → Shows self.old (Some before) → Shows self.new (Some set.now) }
    {
        self.top = set.layer4();
    }
}
