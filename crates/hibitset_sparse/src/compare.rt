//! Comparisons with other sets.
#![tactic(auto, unfolding(crate::specs::SparseBitSet::has, crate::specs::SparseBitSet::word_of))]

ghost use Rattle.std.specs.Prelude.{◌≡◌, ℕ, ◌<◌, ◌==◌, ◌↔◌, true, IsTrue};
ghost use Rattle.std.specs.Ordering.{on};
ghost use Rattle.std.specs.Cmp.{partial_equiv_from_equiv};
ghost use Rattle.std.specs.Cmp.Lexicographic.{pointwise, on_texts_equal};
ghost use Rattle.hibitset_base.specs.declared.util.TheConstants.{MAX_EID};
ghost use Rattle.hibitset_sparse.specs.SparseBitSet.{has, members_of};

use crate::set::SparseBitSet;
use hibitset_base::like::BitSetLike;
use hibitset_base::util::MAX_EID;

impl SparseBitSet {
    /// Returns whether each member of the other set, of any type, is one of this set. It does not allocate.
    ///
    /// It looks at the words of the other set, and at those of this one in the same places of layer 0, down to the first
    /// member that this one lacks.
    pub fn contains_set<B: BitSetLike>(&self, other: &B) -> bool
        ensures { IsTrue result ↔ ((i : ℕ) → i < MAX_EID → B.holds other.now i ≡ true
            → has self.now i ≡ true) }
    {
        other.is_subset(self)
    }
}

/// Sets are equal if they have the same members. It does not allocate.
impl PartialEq for SparseBitSet {
    ghost eq = { on members_of (pointwise ◌==◌) };

    ghost laws = { partial_equiv_from_equiv (on_texts_equal members_of) };

    fn eq(&self, other: &SparseBitSet) -> bool {
        self.is_subset(other) && other.is_subset(self)
    }
}

impl Eq for SparseBitSet {
    ghost laws = { on_texts_equal members_of };
}
