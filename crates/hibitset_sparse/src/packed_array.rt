//! Values of the 64 bits of a word: one for each bit that is set.
ghost use Rattle.std.specs.Prelude.{◌≡◌, ℕ, ◌+◌, ◌^◌, ◌<◌, ◌≤◌, ◌==◌, if◌then◌else◌, true, false, length, Some, None, IsOk, OnOk, OnErr, MatchOption};
ghost use Rattle.std.specs.Int.{bit_at};
ghost use Rattle.std.specs.Int.RustNames.{count_ones};

use crate::rank::{is_set, rank};
use hibitset_base::bits::with_bit;
use std::alloc::{AllocError, Global};

/// A word, and a value for each of its bits that is set. The values lie side by side, in the order of their bits.
#[derive(Drop)]
pub(crate) struct PackedArray<T: Drop> {
    pub(crate) word: usize,
    pub(crate) items: Vec<T>,
    ghost fits: { word < 2 ^ 64 },
    ghost counted: { length items.items ≡ count_ones word },
}

impl<T: Drop> PackedArray<T> {
    ghost use Rattle.hibitset_sparse.specs.Rank.{bit_is_set};
    ghost use Rattle.hibitset_sparse.specs.PackedArray.{HasRoomFor, value_in};

    /// No bit is set. It does not allocate.
    #[inline]
    pub(crate) fn new(alloc: Global) -> PackedArray<T>
        ensures word { result.word ≡ 0 }
        ensures empty { (bit : ℕ) → value_in result bit ≡ None }
    {
        PackedArray {
            word: 0,
            items: Vec::new(alloc),
        }
    }

    /// The value of a bit.
    #[inline]
    pub(crate) fn get(&self, bit: usize) -> Option<&T>
        requires { bit < 64 }
        ensures { MatchOption result (value_in self.now bit ≡ None)
            (λ value. value_in self.now bit ≡ Some value.now) }
    {
        if !is_set(self.word, bit) {
            return None;
        }
        Some(&self.items[rank(self.word, bit)])
    }

    /// Reserves capacity for `count` more values. Whatever it returns, the values are the same.
    #[inline]
    pub(crate) fn reserve(&mut self, count: usize) -> Result<(), AllocError>
        ensures word { self.new.word ≡ self.old.word }
        ensures items { self.new.items.items ≡ self.old.items.items }
    {
        self.items.reserve(count)
    }

    /// Gives a value to a bit that has none. If an allocation fails, nothing changes.
    pub(crate) fn insert(&mut self, bit: usize, value: T) -> Result<(), AllocError>
        requires bit { bit < 64 }
        requires free { bit_is_set self.old.word bit ≡ false }
        ensures put { OnOk result ((b : ℕ) → b < 64
            → value_in self.new b ≡ (if b == bit then Some value else value_in self.old b)) }
        ensures word { OnOk result ((b : ℕ) → b < 64
            → bit_is_set self.new.word b ≡ (if b == bit then true else bit_is_set self.old.word b)) }
        ensures err { OnErr result ((self.new.word ≡ self.old.word)
            × (self.new.items.items ≡ self.old.items.items)) }
        ensures succeeds { (n : ℕ) → HasRoomFor (n + 1) self.old → IsOk result × HasRoomFor n self.new }
    {
        self.items.insert(rank(self.word, bit), value)?;
        self.word = with_bit(self.word, bit, true);
        Ok(())
    }

    /// Gives a value to a bit above all that have one. It moves no value.
    #[inline]
    pub(crate) fn push(&mut self, bit: usize, value: T) -> Result<(), AllocError>
        requires bit { bit < 64 }
        requires none_above { (b : ℕ) → bit ≤ b → b < 64 → bit_at self.old.word b ≡ 0 }
        ensures put { OnOk result ((b : ℕ) → b < 64
            → value_in self.new b ≡ (if b == bit then Some value else value_in self.old b)) }
    {
        self.items.push(value)?;
        self.word = with_bit(self.word, bit, true);
        Ok(())
    }

    /// Takes the value of a bit out.
    pub(crate) fn remove(&mut self, bit: usize) -> T
        requires bit { bit < 64 }
        requires taken { bit_is_set self.old.word bit ≡ true }
        ensures old_value { value_in self.old bit ≡ Some result }
        ensures put { (b : ℕ) → b < 64
            → value_in self.new b ≡ (if b == bit then None else value_in self.old b) }
        ensures word { (b : ℕ) → b < 64
            → bit_is_set self.new.word b ≡ (if b == bit then false else bit_is_set self.old.word b) }
        ensures capacity { (n : ℕ) → HasRoomFor n self.old → HasRoomFor n self.new }
    {
        let value = self.items.remove(rank(self.word, bit));
        self.word = with_bit(self.word, bit, false);
        value
    }
}
