//! Sets that are made of other sets without copying. Each word is made of the operands' words when it is asked for.
//!
//! A bit above layer 0 may be set over a zero word in `BitSetAnd`, `BitSetXor`, `BitSetNot` and whatever is built over
//! them. The impls are written out for each: the toolchain refuses impls that a macro of the repository writes.
ghost use Rattle.std.specs.Prelude.{◌≡◌, ℕ, Bool, true, ◌==◌, ◌&&◌, ◌||◌, not, bit_and, bit_or, IfOk, IsOk};
ghost use Rattle.hibitset_base.specs.Sets.{SameSet, ClonesToSame};
ghost use Rattle.hibitset_base.specs.Virtual.{differ, xor_word, not_word, all_ones, and_lawful, or_lawful, xor_lawful, not_lawful, all_lawful};
ghost use Rattle.hibitset_base.specs.declared.util.TheConstants.{LAYERS};

use crate::like::{BitSetLike, DrainableBitSet};
use crate::util::Index;
use std::alloc::AllocError;

/// The intersection of two sets: the indices that are in both. `BitSetAnd` of the original.
#[derive(Debug, Drop)]
pub struct BitSetAnd<A: BitSetLike, B: BitSetLike>(pub A, pub B);

impl<A: BitSetLike + Clone, B: BitSetLike + Clone> BitSetAnd<A, B> {
    /// The same set over clones of the operands. It fails only if a clone of an operand does, which is the same set.
    pub fn clone(&self) -> Result<Self, AllocError>
        requires first { ClonesToSame A.is_clone A.holds self.now.0 }
        requires second { ClonesToSame B.is_clone B.holds self.now.1 }
        ensures same { IfOk result (λ copy. SameSet (⟦<Self as BitSetLike>⟧.holds self.now)
            (⟦<Self as BitSetLike>⟧.holds copy)) }
        ensures first { IfOk result (λ copy. A.is_clone self.now.0 copy.0) }
        ensures second { IfOk result (λ copy. B.is_clone self.now.1 copy.1) }
        ensures succeeds { A.is_infallible self.now.0 → B.is_infallible self.now.1 → IsOk result }
    {
        Ok(BitSetAnd(self.0.clone()?, self.1.clone()?))
    }
}

impl<A: BitSetLike, B: BitSetLike> BitSetLike for BitSetAnd<A, B> {
    ghost holds = { λ s i. A.holds s.0 i && B.holds s.1 i };

    ghost word = { λ s l p. bit_and (A.word s.0 l p) (B.word s.1 l p) };

    ghost lawful = { λ s. and_lawful LAYERS (A.lawful s.0) (B.lawful s.1) };

    #[inline]
    fn has_cheap_words(&self) -> bool {
        self.0.has_cheap_words() && self.1.has_cheap_words()
    }

    #[inline]
    fn layer4(&self) -> usize {
        self.0.layer4() & self.1.layer4()
    }

    #[inline]
    fn layer3(&self, i: usize) -> usize {
        self.0.layer3(i) & self.1.layer3(i)
    }

    #[inline]
    fn layer2(&self, i: usize) -> usize {
        self.0.layer2(i) & self.1.layer2(i)
    }

    #[inline]
    fn layer1(&self, i: usize) -> usize {
        self.0.layer1(i) & self.1.layer1(i)
    }

    #[inline]
    fn layer0(&self, i: usize) -> usize {
        self.0.layer0(i) & self.1.layer0(i)
    }

    #[inline]
    fn contains(&self, i: Index) -> bool {
        self.0.contains(i) && self.1.contains(i)
    }
}

impl<A: DrainableBitSet, B: DrainableBitSet> DrainableBitSet for BitSetAnd<A, B> {
    ghost keeps_room = { λ old new. A.keeps_room old.0 new.0 × B.keeps_room old.1 new.1 };

    ghost keeps_own = { λ s. (A.keeps_own s.0, B.keeps_own s.1) };

    ghost keeps_both = { λ a b c first second.
        (A.keeps_both a.0 b.0 c.0 first.0 second.0, B.keeps_both a.1 b.1 c.1 first.1 second.1) };

    /// Takes an index out of both operands, if both have it. They keep their capacity.
    #[inline]
    fn remove(&mut self, i: Index) -> bool
        ensures was_member { result ≡ (A.holds self.old.0 i && B.holds self.old.1 i) }
        ensures removed { (j : ℕ) → (A.holds self.new.0 j && B.holds self.new.1 j)
            ≡ (A.holds self.old.0 j && B.holds self.old.1 j && not (j == i)) }
        ensures keeps_room { A.keeps_room self.old.0 self.new.0 × B.keeps_room self.old.1 self.new.1 }
        ensures first { (j : ℕ) → A.holds self.new.0 j
            ≡ (A.holds self.old.0 j && not (result && j == i)) }
        ensures second { (j : ℕ) → B.holds self.new.1 j
            ≡ (B.holds self.old.1 j && not (result && j == i)) }
    {
        if !self.contains(i) {
            return false;
        }
        self.0.remove(i);
        self.1.remove(i);
        true
    }
}

/// The union of two sets: the indices that are in at least one. `BitSetOr` of the original.
#[derive(Debug, Drop)]
pub struct BitSetOr<A: BitSetLike, B: BitSetLike>(pub A, pub B);

impl<A: BitSetLike + Clone, B: BitSetLike + Clone> BitSetOr<A, B> {
    /// The same set over clones of the operands. It fails only if a clone of an operand does, which is the same set.
    pub fn clone(&self) -> Result<Self, AllocError>
        requires first { ClonesToSame A.is_clone A.holds self.now.0 }
        requires second { ClonesToSame B.is_clone B.holds self.now.1 }
        ensures same { IfOk result (λ copy. SameSet (⟦<Self as BitSetLike>⟧.holds self.now)
            (⟦<Self as BitSetLike>⟧.holds copy)) }
        ensures first { IfOk result (λ copy. A.is_clone self.now.0 copy.0) }
        ensures second { IfOk result (λ copy. B.is_clone self.now.1 copy.1) }
        ensures succeeds { A.is_infallible self.now.0 → B.is_infallible self.now.1 → IsOk result }
    {
        Ok(BitSetOr(self.0.clone()?, self.1.clone()?))
    }
}

impl<A: BitSetLike, B: BitSetLike> BitSetLike for BitSetOr<A, B> {
    ghost holds = { λ s i. A.holds s.0 i || B.holds s.1 i };

    ghost word = { λ s l p. bit_or (A.word s.0 l p) (B.word s.1 l p) };

    ghost lawful = { λ s. or_lawful LAYERS (A.lawful s.0) (B.lawful s.1) };

    #[inline]
    fn has_cheap_words(&self) -> bool {
        self.0.has_cheap_words() && self.1.has_cheap_words()
    }

    #[inline]
    fn layer4(&self) -> usize {
        self.0.layer4() | self.1.layer4()
    }

    #[inline]
    fn layer3(&self, i: usize) -> usize {
        self.0.layer3(i) | self.1.layer3(i)
    }

    #[inline]
    fn layer2(&self, i: usize) -> usize {
        self.0.layer2(i) | self.1.layer2(i)
    }

    #[inline]
    fn layer1(&self, i: usize) -> usize {
        self.0.layer1(i) | self.1.layer1(i)
    }

    #[inline]
    fn layer0(&self, i: usize) -> usize {
        self.0.layer0(i) | self.1.layer0(i)
    }

    #[inline]
    fn contains(&self, i: Index) -> bool {
        self.0.contains(i) || self.1.contains(i)
    }
}

impl<A: DrainableBitSet, B: DrainableBitSet> DrainableBitSet for BitSetOr<A, B> {
    ghost keeps_room = { λ old new. A.keeps_room old.0 new.0 × B.keeps_room old.1 new.1 };

    ghost keeps_own = { λ s. (A.keeps_own s.0, B.keeps_own s.1) };

    ghost keeps_both = { λ a b c first second.
        (A.keeps_both a.0 b.0 c.0 first.0 second.0, B.keeps_both a.1 b.1 c.1 first.1 second.1) };

    /// Takes an index out of each operand that has it. They keep their capacity.
    #[inline]
    fn remove(&mut self, i: Index) -> bool
        ensures was_member { result ≡ (A.holds self.old.0 i || B.holds self.old.1 i) }
        ensures removed { (j : ℕ) → (A.holds self.new.0 j || B.holds self.new.1 j)
            ≡ ((A.holds self.old.0 j || B.holds self.old.1 j) && not (j == i)) }
        ensures keeps_room { A.keeps_room self.old.0 self.new.0 × B.keeps_room self.old.1 self.new.1 }
        ensures first { (j : ℕ) → A.holds self.new.0 j ≡ (A.holds self.old.0 j && not (j == i)) }
        ensures second { (j : ℕ) → B.holds self.new.1 j ≡ (B.holds self.old.1 j && not (j == i)) }
    {
        let first = self.0.remove(i);
        let second = self.1.remove(i);
        first || second
    }
}

/// The symmetric difference of two sets: the indices that are in exactly one. `BitSetXor` of the original.
#[derive(Debug, Drop)]
pub struct BitSetXor<A: BitSetLike, B: BitSetLike>(pub A, pub B);

impl<A: BitSetLike + Clone, B: BitSetLike + Clone> BitSetXor<A, B> {
    /// The same set over clones of the operands. It fails only if a clone of an operand does, which is the same set.
    pub fn clone(&self) -> Result<Self, AllocError>
        requires first { ClonesToSame A.is_clone A.holds self.now.0 }
        requires second { ClonesToSame B.is_clone B.holds self.now.1 }
        ensures same { IfOk result (λ copy. SameSet (⟦<Self as BitSetLike>⟧.holds self.now)
            (⟦<Self as BitSetLike>⟧.holds copy)) }
        ensures first { IfOk result (λ copy. A.is_clone self.now.0 copy.0) }
        ensures second { IfOk result (λ copy. B.is_clone self.now.1 copy.1) }
        ensures succeeds { A.is_infallible self.now.0 → B.is_infallible self.now.1 → IsOk result }
    {
        Ok(BitSetXor(self.0.clone()?, self.1.clone()?))
    }
}

impl<A: BitSetLike, B: BitSetLike> BitSetLike for BitSetXor<A, B> {
    ghost holds = { λ s i. differ (A.holds s.0 i) (B.holds s.1 i) };

    ghost word = { λ s. xor_word (A.word s.0) (B.word s.1) };

    ghost lawful = { λ s. xor_lawful LAYERS (A.lawful s.0) (B.lawful s.1) };

    #[inline]
    fn has_cheap_words(&self) -> bool {
        self.0.has_cheap_words() && self.1.has_cheap_words()
    }

    #[inline]
    fn layer4(&self) -> usize {
        self.0.layer4() | self.1.layer4()
    }

    #[inline]
    fn layer3(&self, i: usize) -> usize {
        self.0.layer3(i) | self.1.layer3(i)
    }

    #[inline]
    fn layer2(&self, i: usize) -> usize {
        self.0.layer2(i) | self.1.layer2(i)
    }

    #[inline]
    fn layer1(&self, i: usize) -> usize {
        self.0.layer1(i) | self.1.layer1(i)
    }

    #[inline]
    fn layer0(&self, i: usize) -> usize {
        self.0.layer0(i) ^ self.1.layer0(i)
    }

    #[inline]
    fn contains(&self, i: Index) -> bool {
        self.0.contains(i) != self.1.contains(i)
    }
}

/// The complement of a set: the indices that are not in it, `BitSetNot` of the original. `contains` is also true from
/// `MAX_EID` on; walks, counts and lists stop there.
///
/// Above layer 0 it has every bit, so a walk over it reads all 2^24 words of layer 0. `&` with a set or a `BitSetRange`
/// bounds the walk.
#[derive(Debug, Drop)]
pub struct BitSetNot<A: BitSetLike>(pub A);

impl<A: BitSetLike + Clone> BitSetNot<A> {
    /// The same set over a clone of the operand. It fails only if the clone of the operand does, which is the same set.
    pub fn clone(&self) -> Result<Self, AllocError>
        requires { ClonesToSame A.is_clone A.holds self.now.0 }
        ensures same { IfOk result (λ copy. SameSet (⟦<Self as BitSetLike>⟧.holds self.now)
            (⟦<Self as BitSetLike>⟧.holds copy)) }
        ensures operand { IfOk result (λ copy. A.is_clone self.now.0 copy.0) }
        ensures succeeds { A.is_infallible self.now.0 → IsOk result }
    {
        Ok(BitSetNot(self.0.clone()?))
    }
}

impl<A: BitSetLike> BitSetLike for BitSetNot<A> {
    ghost holds = { λ s i. not (A.holds s.0 i) };

    ghost word = { λ s. not_word (A.word s.0) };

    ghost lawful = { λ s. not_lawful LAYERS (A.lawful s.0) };

    #[inline]
    fn has_cheap_words(&self) -> bool {
        self.0.has_cheap_words()
    }

    #[inline]
    fn layer4(&self) -> usize {
        !0
    }

    #[inline]
    fn layer3(&self, _i: usize) -> usize {
        !0
    }

    #[inline]
    fn layer2(&self, _i: usize) -> usize {
        !0
    }

    #[inline]
    fn layer1(&self, _i: usize) -> usize {
        !0
    }

    #[inline]
    fn layer0(&self, i: usize) -> usize {
        !self.0.layer0(i)
    }

    #[inline]
    fn contains(&self, i: Index) -> bool {
        !self.0.contains(i)
    }
}

/// The set of all indices, `BitSetAll` of the original. A walk stops below `MAX_EID`.
#[derive(Debug, Drop)]
pub struct BitSetAll;

impl BitSetAll {
    /// The same set. It can't fail.
    pub fn clone(&self) -> Result<Self, AllocError>
        ensures { IsOk result }
    {
        Ok(BitSetAll)
    }
}

impl BitSetLike for BitSetAll {
    ghost holds = { λ s i. true };

    ghost word = { λ s l p. all_ones };

    ghost lawful = { λ s. all_lawful LAYERS };

    #[inline]
    fn has_cheap_words(&self) -> bool {
        true
    }

    #[inline]
    fn layer4(&self) -> usize {
        !0
    }

    #[inline]
    fn layer3(&self, _i: usize) -> usize {
        !0
    }

    #[inline]
    fn layer2(&self, _i: usize) -> usize {
        !0
    }

    #[inline]
    fn layer1(&self, _i: usize) -> usize {
        !0
    }

    #[inline]
    fn layer0(&self, _i: usize) -> usize {
        !0
    }

    #[inline]
    fn contains(&self, _i: Index) -> bool {
        true
    }
}
