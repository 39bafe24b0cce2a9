//! Assignments: a set put together with any other.
ghost use Rattle.std.specs.Prelude.{◌≡◌, ℕ, [], IfOk, IsOk, OnOk, OnErr};
ghost use Rattle.hibitset_base.specs.Connectives.{IsDifference, IsIntersection, IsSymmetricDifference, IsUnion, is_member};
ghost use Rattle.hibitset_base.specs.Members.{members_below};
ghost use Rattle.hibitset_base.specs.declared.util.TheConstants.{MAX_EID};
ghost use Rattle.hibitset_sparse.specs.SparseBitSet.{has};

use crate::gather::{chunks_from, chunks_of};
use crate::kept::{Alone, Both};
use crate::merge::{MergedWith, SymmetricDifference, Union};
use crate::set::SparseBitSet;
use hibitset_base::like::BitSetLike;
use std::alloc::{AllocError, Global};
use std::ops::{BitAndAssign, SubAssign};

impl SparseBitSet {
    /// A set of the members of any other below `MAX_EID`.
    ///
    /// # Errors
    ///
    /// An allocation fails. It can't fail if the other has no member.
    ///
    /// # Cost
    ///
    /// It goes through the words of the other once, and allocates for the chunks of 262,144 indices in which the other
    /// has members.
    pub fn from_set<B: BitSetLike>(alloc: Global, other: &B) -> Result<SparseBitSet, AllocError>
        ensures members { IfOk result (λ set. (i : ℕ)
            → has set i ≡ is_member (B.holds other.now) i) }
        ensures succeeds_empty { members_below MAX_EID (B.holds other.now) ≡ [] → IsOk result }
    {
        if other.is_empty() {
            return Ok(SparseBitSet::new(alloc));
        }
        let chunks = chunks_of(alloc, other)?;
        Ok(SparseBitSet::of_chunks(chunks))
    }

    /// Adds the members of any other set.
    ///
    /// # Errors
    ///
    /// An allocation fails: the members stay. It can't fail if the other has none.
    ///
    /// # Cost
    ///
    /// - It goes through the words of both sets once, in the chunks in which the other has members.
    /// - These are made anew, each beside its old form and the words of the other. If one of them is new, so is the list
    ///   of all chunks, 56 bytes each.
    pub fn bitor_assign<B: BitSetLike>(&mut self, other: &B) -> Result<(), AllocError>
        ensures members { OnOk result (IsUnion (has self.old) (is_member (B.holds other.now))
            (has self.new)) }
        ensures err { OnErr result ((i : ℕ) → has self.new i ≡ has self.old i) }
        ensures succeeds_empty { members_below MAX_EID (B.holds other.now) ≡ [] → IsOk result }
    {
        if other.is_empty() {
            return Ok(());
        }
        let alloc = self.allocator();
        let merged = MergedWith {
            own: &*self,
            other,
            by: Union,
        };
        let chunks = chunks_from(alloc, &merged, other)?;
        self.put_chunks(chunks)
    }

    /// Adds the members of any other set that were not there, and takes out those that were.
    ///
    /// # Errors
    ///
    /// An allocation fails: the members stay. It can't fail if the other has none.
    ///
    /// # Cost
    ///
    /// That of `bitor_assign`.
    pub fn bitxor_assign<B: BitSetLike>(&mut self, other: &B) -> Result<(), AllocError>
        ensures members { OnOk result (IsSymmetricDifference (has self.old)
            (is_member (B.holds other.now)) (has self.new)) }
        ensures err { OnErr result ((i : ℕ) → has self.new i ≡ has self.old i) }
        ensures succeeds_empty { members_below MAX_EID (B.holds other.now) ≡ [] → IsOk result }
    {
        if other.is_empty() {
            return Ok(());
        }
        let alloc = self.allocator();
        let merged = MergedWith {
            own: &*self,
            other,
            by: SymmetricDifference,
        };
        let chunks = chunks_from(alloc, &merged, other)?;
        self.put_chunks(chunks)
    }

    /// Takes out the members that are in the other set. It does not allocate.
    ///
    /// It goes through the words of this set once, in the chunks in which the other has members, and looks up those of
    /// the other. They are changed in place, and those that are left close up.
    pub fn subtract_assign<B: BitSetLike>(&mut self, other: &B)
        ensures { IsDifference (has self.old) (B.holds other.now) (has self.new) }
    {
        self.retain_chunks(&Alone(other));
    }
}

/// Takes out the members that are not in the other set. It does not allocate, and goes through the words of this set as
/// `subtract_assign` does.
impl<B: BitSetLike> BitAndAssign<&B> for SparseBitSet {
    ghost bitand_assign_gives = { λ old other new. IsIntersection (has old) (B.holds other.now) (has new) };

    fn bitand_assign(&mut self, other: &B) {
        self.retain_chunks(&Both(other));
    }
}

/// Takes out the members that are in the other set, as `subtract_assign` does. It does not allocate.
impl<B: BitSetLike> SubAssign<&B> for SparseBitSet {
    ghost sub_assign_gives = { λ old other new. IsDifference (has old) (B.holds other.now) (has new) };

    fn sub_assign(&mut self, other: &B) {
        self.subtract_assign(other);
    }
}
