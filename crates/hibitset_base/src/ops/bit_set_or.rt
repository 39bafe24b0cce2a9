//! Operators over a union.
ghost use Rattle.std.specs.Prelude.{◌≡◌};
ghost use Rattle.hibitset_base.specs.Connectives.{IsComplement, IsDifference, IsSymmetricDifference, IsIntersection, IsUnion};
ghost use Rattle.hibitset_base.specs.Walk.{StartsAtTop};

use crate::iter::BitIter;
use crate::like::BitSetLike;
use crate::util::Index;
use crate::virt::{BitSetAnd, BitSetNot, BitSetOr, BitSetXor};
use std::ops::{BitAnd, BitOr, BitXor, Not, Sub};

impl<A: BitSetLike, B: BitSetLike> Not for BitSetOr<A, B> {
    type Output = BitSetNot<Self>;

    ghost not_gives = { λ set result. (result.0 ≡ set)
        × IsComplement (⟦<Self as BitSetLike>⟧.holds set)
        (⟦<Self::Output as BitSetLike>⟧.holds result) };

    #[inline]
    fn not(self) -> BitSetNot<Self> {
        BitSetNot(self)
    }
}

impl<A: BitSetLike, B: BitSetLike, T: BitSetLike> BitAnd<T> for BitSetOr<A, B> {
    type Output = BitSetAnd<Self, T>;

    ghost bitand_gives = { λ set other result. (result.0 ≡ set) × (result.1 ≡ other)
        × IsIntersection (⟦<Self as BitSetLike>⟧.holds set) (T.holds other)
        (⟦<Self::Output as BitSetLike>⟧.holds result) };

    #[inline]
    fn bitand(self, rhs: T) -> BitSetAnd<Self, T> {
        BitSetAnd(self, rhs)
    }
}

impl<A: BitSetLike, B: BitSetLike, T: BitSetLike> BitOr<T> for BitSetOr<A, B> {
    type Output = BitSetOr<Self, T>;

    ghost bitor_gives = { λ set other result. (result.0 ≡ set) × (result.1 ≡ other)
        × IsUnion (⟦<Self as BitSetLike>⟧.holds set) (T.holds other)
        (⟦<Self::Output as BitSetLike>⟧.holds result) };

    #[inline]
    fn bitor(self, rhs: T) -> BitSetOr<Self, T> {
        BitSetOr(self, rhs)
    }
}

impl<A: BitSetLike, B: BitSetLike, T: BitSetLike> BitXor<T> for BitSetOr<A, B> {
    type Output = BitSetXor<Self, T>;

    ghost bitxor_gives = { λ set other result. (result.0 ≡ set) × (result.1 ≡ other)
        × IsSymmetricDifference (⟦<Self as BitSetLike>⟧.holds set) (T.holds other)
        (⟦<Self::Output as BitSetLike>⟧.holds result) };

    #[inline]
    fn bitxor(self, rhs: T) -> BitSetXor<Self, T> {
        BitSetXor(self, rhs)
    }
}

impl<A: BitSetLike, B: BitSetLike, T: BitSetLike> Sub<T> for BitSetOr<A, B> {
    type Output = BitSetAnd<Self, BitSetNot<T>>;

    ghost sub_gives = { λ set other result. (result.0 ≡ set) × (result.1.0 ≡ other)
        × IsDifference (⟦<Self as BitSetLike>⟧.holds set) (T.holds other)
        (⟦<Self::Output as BitSetLike>⟧.holds result) };

    #[inline]
    fn sub(self, rhs: T) -> BitSetAnd<Self, BitSetNot<T>> {
        BitSetAnd(self, BitSetNot(rhs))
    }
}

impl<A: BitSetLike, B: BitSetLike> IntoIterator for BitSetOr<A, B> {
    type Item = Index;

    type IntoIter = BitIter<Self>;

    ghost into_iter_gives = { StartsAtTop ⟦<Self as BitSetLike>⟧.holds
        ⟦<Self as BitSetLike>⟧.word };

    #[inline]
    fn into_iter(self) -> BitIter<Self> {
        self.iter()
    }
}

impl<'a, A: BitSetLike, B: BitSetLike> Not for &'a BitSetOr<A, B> {
    type Output = BitSetNot<Self>;

    ghost not_gives = { λ set result. (result.0 ≡ set)
        × IsComplement (⟦<Self as BitSetLike>⟧.holds set)
        (⟦<Self::Output as BitSetLike>⟧.holds result) };

    #[inline]
    fn not(self) -> BitSetNot<Self> {
        BitSetNot(self)
    }
}

impl<'a, A: BitSetLike, B: BitSetLike, T: BitSetLike> BitAnd<T> for &'a BitSetOr<A, B> {
    type Output = BitSetAnd<Self, T>;

    ghost bitand_gives = { λ set other result. (result.0 ≡ set) × (result.1 ≡ other)
        × IsIntersection (⟦<Self as BitSetLike>⟧.holds set) (T.holds other)
        (⟦<Self::Output as BitSetLike>⟧.holds result) };

    #[inline]
    fn bitand(self, rhs: T) -> BitSetAnd<Self, T> {
        BitSetAnd(self, rhs)
    }
}

impl<'a, A: BitSetLike, B: BitSetLike, T: BitSetLike> BitOr<T> for &'a BitSetOr<A, B> {
    type Output = BitSetOr<Self, T>;

    ghost bitor_gives = { λ set other result. (result.0 ≡ set) × (result.1 ≡ other)
        × IsUnion (⟦<Self as BitSetLike>⟧.holds set) (T.holds other)
        (⟦<Self::Output as BitSetLike>⟧.holds result) };

    #[inline]
    fn bitor(self, rhs: T) -> BitSetOr<Self, T> {
        BitSetOr(self, rhs)
    }
}

impl<'a, A: BitSetLike, B: BitSetLike, T: BitSetLike> BitXor<T> for &'a BitSetOr<A, B> {
    type Output = BitSetXor<Self, T>;

    ghost bitxor_gives = { λ set other result. (result.0 ≡ set) × (result.1 ≡ other)
        × IsSymmetricDifference (⟦<Self as BitSetLike>⟧.holds set) (T.holds other)
        (⟦<Self::Output as BitSetLike>⟧.holds result) };

    #[inline]
    fn bitxor(self, rhs: T) -> BitSetXor<Self, T> {
        BitSetXor(self, rhs)
    }
}

impl<'a, A: BitSetLike, B: BitSetLike, T: BitSetLike> Sub<T> for &'a BitSetOr<A, B> {
    type Output = BitSetAnd<Self, BitSetNot<T>>;

    ghost sub_gives = { λ set other result. (result.0 ≡ set) × (result.1.0 ≡ other)
        × IsDifference (⟦<Self as BitSetLike>⟧.holds set) (T.holds other)
        (⟦<Self::Output as BitSetLike>⟧.holds result) };

    #[inline]
    fn sub(self, rhs: T) -> BitSetAnd<Self, BitSetNot<T>> {
        BitSetAnd(self, BitSetNot(rhs))
    }
}

impl<'a, A: BitSetLike, B: BitSetLike> IntoIterator for &'a BitSetOr<A, B> {
    type Item = Index;

    type IntoIter = BitIter<Self>;

    ghost into_iter_gives = { StartsAtTop ⟦<Self as BitSetLike>⟧.holds
        ⟦<Self as BitSetLike>⟧.word };

    #[inline]
    fn into_iter(self) -> BitIter<Self> {
        self.iter()
    }
}
