//! A set of the tests' own that tells a watch which of its words are read, and which indices are taken out.
use hibitset::{BitSet, BitSetLike, DrainableBitSet, Index, LAYERS};

// In the place of a layer: the set was asked whether it has the index that stands in the place of the position.
pub(super) const ASKED: usize = LAYERS;

// What is told of each word that is read, and of each index that is asked for.
pub(super) trait Watch: Drop {
    // A word of a layer was read, at a position, which is 0 in the top layer.
    fn see(&self, layer: usize, position: usize);

    // An index was taken out, or was to be.
    fn see_removal(&self, _index: Index) {}
}

// A set that tells its watch of each word that is read, and of each index that it is asked for.
#[derive(Drop)]
pub(super) struct Watched<W: Watch> {
    pub(super) set: BitSet,
    pub(super) watch: W,
}

impl<W: Watch> BitSetLike for Watched<W> {
    ghost use Rattle.hibitset.specs.BitSet.{has, has_is_lawful, word_of};

    ghost holds = { λ s. has s.set };

    ghost word = { λ s. word_of s.set };

    ghost lawful = { λ s. has_is_lawful s.set };

    fn layer4(&self) -> usize {
        self.watch.see(4, 0);
        self.set.layer4()
    }

    fn layer3(&self, i: usize) -> usize {
        self.watch.see(3, i);
        self.set.layer3(i)
    }

    fn layer2(&self, i: usize) -> usize {
        self.watch.see(2, i);
        self.set.layer2(i)
    }

    fn layer1(&self, i: usize) -> usize {
        self.watch.see(1, i);
        self.set.layer1(i)
    }

    fn layer0(&self, i: usize) -> usize {
        self.watch.see(0, i);
        self.set.layer0(i)
    }

    fn contains(&self, i: Index) -> bool {
        self.watch.see(ASKED, i as usize);
        self.set.contains(i)
    }
}

impl<W: Watch> DrainableBitSet for Watched<W> {
    ghost use Rattle.std.specs.Prelude.{◌≡◌, refl};
    ghost use Rattle.std.proofs.Common.{◌∙◌};
    ghost use Rattle.hibitset.specs.BitSet.{slice_len};

    ghost keeps_room = { λ old new. slice_len new.set 0 ≡ slice_len old.set 0 };

    ghost keeps_own = { λ s. refl };

    ghost keeps_both = { λ a b c first second. second ∙ first };

    fn remove(&mut self, i: Index) -> bool {
        self.watch.see_removal(i);
        self.set.remove(i)
    }
}
