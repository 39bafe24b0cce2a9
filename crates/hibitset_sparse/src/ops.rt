//! Operators over sparse sets:
//! `!`, `&`, `|`, `^` and `-` make a virtual set of their operands, and `into_iter` a walk.
//!
//! They are written out, for the set and for a reference to it: the toolchain refuses impls that a macro of the
//! repository writes.
ghost use Rattle.std.specs.Prelude.{◌≡◌};
ghost use Rattle.hibitset_base.specs.Connectives.{IsComplement, IsDifference, IsSymmetricDifference, IsIntersection, IsUnion};
ghost use Rattle.hibitset_base.specs.Walk.{StartsAtTop};
ghost use Rattle.hibitset_sparse.specs.SparseBitSet.{has, word_of};

use crate::set::SparseBitSet;
use hibitset_base::iter::BitIter;
use hibitset_base::like::BitSetLike;
use hibitset_base::util::Index;
use hibitset_base::virt::{BitSetAnd, BitSetNot, BitSetOr, BitSetXor};
use std::ops::{BitAnd, BitOr, BitXor, Not, Sub};

impl Not for SparseBitSet {
    type Output = BitSetNot<Self>;

    ghost not_gives = { λ set result. (result.0 ≡ set)
        × IsComplement (has set) (⟦<Self::Output as BitSetLike>⟧.holds result) };

    #[inline]
    fn not(self) -> BitSetNot<Self> {
        BitSetNot(self)
    }
}

impl<T: BitSetLike> BitAnd<T> for SparseBitSet {
    type Output = BitSetAnd<Self, T>;

    ghost bitand_gives = { λ set other result. (result.0 ≡ set) × (result.1 ≡ other)
        × IsIntersection (has set) (T.holds other) (⟦<Self::Output as BitSetLike>⟧.holds result) };

    #[inline]
    fn bitand(self, rhs: T) -> BitSetAnd<Self, T> {
        BitSetAnd(self, rhs)
    }
}

impl<T: BitSetLike> BitOr<T> for SparseBitSet {
    type Output = BitSetOr<Self, T>;

    ghost bitor_gives = { λ set other result. (result.0 ≡ set) × (result.1 ≡ other)
        × IsUnion (has set) (T.holds other) (⟦<Self::Output as BitSetLike>⟧.holds result) };

    #[inline]
    fn bitor(self, rhs: T) -> BitSetOr<Self, T> {
        BitSetOr(self, rhs)
    }
}

impl<T: BitSetLike> BitXor<T> for SparseBitSet {
    type Output = BitSetXor<Self, T>;

    ghost bitxor_gives = { λ set other result. (result.0 ≡ set) × (result.1 ≡ other)
        × IsSymmetricDifference (has set) (T.holds other)
        (⟦<Self::Output as BitSetLike>⟧.holds result) };

    #[inline]
    fn bitxor(self, rhs: T) -> BitSetXor<Self, T> {
        BitSetXor(self, rhs)
    }
}

impl<T: BitSetLike> Sub<T> for SparseBitSet {
    type Output = BitSetAnd<Self, BitSetNot<T>>;

    ghost sub_gives = { λ set other result. (result.0 ≡ set) × (result.1.0 ≡ other)
        × IsDifference (has set) (T.holds other) (⟦<Self::Output as BitSetLike>⟧.holds result) };

    #[inline]
    fn sub(self, rhs: T) -> BitSetAnd<Self, BitSetNot<T>> {
        BitSetAnd(self, BitSetNot(rhs))
    }
}

impl IntoIterator for SparseBitSet {
    type Item = Index;

    type IntoIter = BitIter<SparseBitSet>;

    ghost into_iter_gives = { StartsAtTop has word_of };

    #[inline]
    fn into_iter(self) -> BitIter<SparseBitSet> {
        self.iter()
    }
}

impl<'a> Not for &'a SparseBitSet {
    type Output = BitSetNot<Self>;

    ghost not_gives = { λ set result. (result.0 ≡ set)
        × IsComplement (has set.now) (⟦<Self::Output as BitSetLike>⟧.holds result) };

    #[inline]
    fn not(self) -> BitSetNot<Self> {
        BitSetNot(self)
    }
}

impl<'a, T: BitSetLike> BitAnd<T> for &'a SparseBitSet {
    type Output = BitSetAnd<Self, T>;

    ghost bitand_gives = { λ set other result. (result.0 ≡ set) × (result.1 ≡ other)
        × IsIntersection (has set.now) (T.holds other)
        (⟦<Self::Output as BitSetLike>⟧.holds result) };

    #[inline]
    fn bitand(self, rhs: T) -> BitSetAnd<Self, T> {
        BitSetAnd(self, rhs)
    }
}

impl<'a, T: BitSetLike> BitOr<T> for &'a SparseBitSet {
    type Output = BitSetOr<Self, T>;

    ghost bitor_gives = { λ set other result. (result.0 ≡ set) × (result.1 ≡ other)
        × IsUnion (has set.now) (T.holds other) (⟦<Self::Output as BitSetLike>⟧.holds result) };

    #[inline]
    fn bitor(self, rhs: T) -> BitSetOr<Self, T> {
        BitSetOr(self, rhs)
    }
}

impl<'a, T: BitSetLike> BitXor<T> for &'a SparseBitSet {
    type Output = BitSetXor<Self, T>;

    ghost bitxor_gives = { λ set other result. (result.0 ≡ set) × (result.1 ≡ other)
        × IsSymmetricDifference (has set.now) (T.holds other)
        (⟦<Self::Output as BitSetLike>⟧.holds result) };

    #[inline]
    fn bitxor(self, rhs: T) -> BitSetXor<Self, T> {
        BitSetXor(self, rhs)
    }
}

impl<'a, T: BitSetLike> Sub<T> for &'a SparseBitSet {
    type Output = BitSetAnd<Self, BitSetNot<T>>;

    ghost sub_gives = { λ set other result. (result.0 ≡ set) × (result.1.0 ≡ other)
        × IsDifference (has set.now) (T.holds other)
        (⟦<Self::Output as BitSetLike>⟧.holds result) };

    #[inline]
    fn sub(self, rhs: T) -> BitSetAnd<Self, BitSetNot<T>> {
        BitSetAnd(self, BitSetNot(rhs))
    }
}
