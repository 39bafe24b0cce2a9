//! Sets made of the items of an iterator or of a slice, or extended by them: one text for every set that keeps its words.
ghost use Rattle.std.specs.Prelude.{◌≡◌, ℕ, ◌<◌, ◌≤◌, ◌==◌, ◌||◌, ◌↔◌, true, false, Some, OnOk, OnErr, IfOk, IfErr, Contains, length, take};
ghost use Rattle.std.specs.Iterator.{IsFiniteIterable};
ghost use Rattle.hibitset_base.specs.Extension.{IsRefusalBelow, LiesApart, RefusesBelow, TakesAllBelow, StopsAtRefusedBelow, text_of};
ghost use Rattle.hibitset_base.specs.Slices.{AddsList, place_of, InRangeBefore, IsRefusalIn, LacksRoom, LiesApartIn};

use crate::like::BitSetLike;
use crate::util::Index;
use std::alloc::AllocError;
use std::error::Error;
use std::fmt;

/// Why an item of an iterator, or an index of a slice, was not added.
///
/// Places count the items from 0, and stay at `usize::MAX` once there.
#[derive(Clone, Copy, Debug, PartialEq, Eq)]
pub enum BuildError {
    /// The item at `place` is `index`, which lies past the range of the set.
    OutOfRange { place: usize, index: Index },
    /// The allocation for the item at `place` failed.
    Memory { place: usize },
}

impl fmt::Display for BuildError {
    ghost output = { λ error. Some (text_of error) };

    fn fmt<W: fmt::Write>(&self, f: &mut fmt::Formatter<W>) -> fmt::Result {
        match self {
            BuildError::OutOfRange { place, index } => {
                write!(f, "index {index} at place {place} is out of range")
            }
            BuildError::Memory { place } => write!(f, "no memory for the index at place {place}"),
        }
    }
}

impl Error for BuildError {}

/// A set that indices below a bound are added to, one by one.
#[doc(hidden)]
pub trait FallibleInsert: BitSetLike {
    // The bound below which an index can be added.
    ghost RANGE: { ℕ };

    // A set lacks room for an index if to add it takes memory.
    ghost needs_allocation: { Self → ℕ → Type 0 };

    // The room for the one index is none for the other.
    ghost need_separate_room: { ℕ → ℕ → Type 0 };

    /// The bound below which an index can be added.
    const RANGE: usize;

    /// Adds an index below the bound. If an allocation fails, the members stay.
    fn add_index(&mut self, index: Index) -> Result<bool, AllocError>
        requires { index < RANGE }
        ensures added { OnOk result ((i : ℕ)
            → Self.holds self.new i ≡ (Self.holds self.old i || i == index)) }
        ensures err { OnErr result ((i : ℕ) → Self.holds self.new i ≡ Self.holds self.old i) }
        ensures err_lacks_room { OnErr result (needs_allocation self.old index) }
        ensures frees_none { (j : ℕ) → needs_allocation self.new j → needs_allocation self.old j }
        ensures makes_no_more { OnOk result ((j : ℕ) → needs_allocation self.old j
            → need_separate_room index j → needs_allocation self.new j) }
        ensures err_makes_none { OnErr result ((j : ℕ) → needs_allocation self.old j
            → needs_allocation self.new j) };

    // Each member has room, and so has what does not lie apart from it.
    ghost apart: { (s : Self) (i j : ℕ) → Self.holds s i ≡ true → needs_allocation s j
        → need_separate_room i j };
}

// Adds the item at `place`, if it is in range and there is memory for it.
#[inline]
fn add_item<T: FallibleInsert>(set: &mut T, place: usize, index: Index) -> Result<(), BuildError>
    ensures added { OnOk result ((i : ℕ) → T.holds set.new i ≡ (T.holds set.old i || index == i)) }
    ensures in_range { OnOk result (index < T.RANGE) }
    ensures err { IfErr result (λ error. IsRefusalBelow T.RANGE (T.needs_allocation set.new)
        error place index × ((i : ℕ) → T.holds set.new i ≡ T.holds set.old i)) }
    ensures frees_none { (j : ℕ) → T.needs_allocation set.new j → T.needs_allocation set.old j }
    ensures makes_no_more { OnOk result ((j : ℕ) → T.needs_allocation set.old j
        → T.need_separate_room index j → T.needs_allocation set.new j) }
    ensures err_makes_none { OnErr result ((j : ℕ) → T.needs_allocation set.old j
        → T.needs_allocation set.new j) }
{
    if index as usize >= T::RANGE {
        return Err(BuildError::OutOfRange { place, index });
    }
    match set.add_index(index) {
        Ok(_) => Ok(()),
        Err(_) => Err(BuildError::Memory { place }),
    }
}

/// Adds the items of an iterator, up to the first that is not added.
#[doc(hidden)]
pub fn extend_indices<T: FallibleInsert, U: IntoIterator<Item = Index>>(
    set: &mut T,
    iter: U,
) -> Result<(), BuildError>
    requires { IsFiniteIterable U.into_iter_gives U.IntoIter.can_next U.IntoIter.remaining iter }
    ensures all { OnOk result (TakesAllBelow T.RANGE U.into_iter_gives U.IntoIter.next_gives
        (λ i. i) iter (T.holds set.old) (T.holds set.new)) }
    ensures stops { IfErr result (StopsAtRefusedBelow T.RANGE U.into_iter_gives
        U.IntoIter.next_gives (λ i. i) iter (T.holds set.old) (T.holds set.new)
        (T.needs_allocation set.new)) }
    ensures frees_none { (j : ℕ) → T.needs_allocation set.new j → T.needs_allocation set.old j }
    ensures makes_no_more { (j : ℕ) → T.needs_allocation set.old j
        → LiesApart T.need_separate_room (T.holds set.new) j → T.needs_allocation set.new j }
{
    let mut place = 0usize;
    for index in iter {
        add_item(set, place, index)?;
        place = place.saturating_add(1);
    }
    Ok(())
}

/// Adds the items that an iterator gives by reference, as `extend_indices` does.
#[doc(hidden)]
pub fn extend_index_refs<'a, T: FallibleInsert, U: IntoIterator<Item = &'a Index>>(
    set: &mut T,
    iter: U,
) -> Result<(), BuildError>
    requires { IsFiniteIterable U.into_iter_gives U.IntoIter.can_next U.IntoIter.remaining iter }
    ensures all { OnOk result (TakesAllBelow T.RANGE U.into_iter_gives U.IntoIter.next_gives
        (λ i. i.now) iter (T.holds set.old) (T.holds set.new)) }
    ensures stops { IfErr result (StopsAtRefusedBelow T.RANGE U.into_iter_gives
        U.IntoIter.next_gives (λ i. i.now) iter (T.holds set.old) (T.holds set.new)
        (T.needs_allocation set.new)) }
    ensures frees_none { (j : ℕ) → T.needs_allocation set.new j → T.needs_allocation set.old j }
    ensures makes_no_more { (j : ℕ) → T.needs_allocation set.old j
        → LiesApart T.need_separate_room (T.holds set.new) j → T.needs_allocation set.new j }
{
    let mut place = 0usize;
    for index in iter {
        add_item(set, place, *index)?;
        place = place.saturating_add(1);
    }
    Ok(())
}

/// A set without members, extended by the items of an iterator.
#[doc(hidden)]
pub fn from_indices<T: FallibleInsert, U: IntoIterator<Item = Index>>(
    mut set: T,
    iter: U,
) -> Result<T, BuildError>
    requires finite { IsFiniteIterable U.into_iter_gives U.IntoIter.can_next U.IntoIter.remaining
        iter }
    requires empty { (i : ℕ) → T.holds set i ≡ false }
    requires all_lack_room { (j : ℕ) → T.needs_allocation set j }
    ensures all { IfOk result (λ made. TakesAllBelow T.RANGE U.into_iter_gives U.IntoIter.next_gives
        (λ i. i) iter (λ _. false) (T.holds made)) }
    ensures makes_no_more { IfOk result (λ made. (j : ℕ) → LiesApart T.need_separate_room (T.holds made) j
        → T.needs_allocation made j) }
    ensures stops { IfErr result (RefusesBelow T.RANGE U.into_iter_gives U.IntoIter.next_gives
        (λ i. i) iter T.need_separate_room) }
{
    extend_indices(&mut set, iter)?;
    Ok(set)
}

/// A set without members, extended by the items that an iterator gives by reference.
#[doc(hidden)]
pub fn from_index_refs<'a, T: FallibleInsert, U: IntoIterator<Item = &'a Index>>(
    mut set: T,
    iter: U,
) -> Result<T, BuildError>
    requires finite { IsFiniteIterable U.into_iter_gives U.IntoIter.can_next U.IntoIter.remaining
        iter }
    requires empty { (i : ℕ) → T.holds set i ≡ false }
    requires all_lack_room { (j : ℕ) → T.needs_allocation set j }
    ensures all { IfOk result (λ made. TakesAllBelow T.RANGE U.into_iter_gives U.IntoIter.next_gives
        (λ i. i.now) iter (λ _. false) (T.holds made)) }
    ensures makes_no_more { IfOk result (λ made. (j : ℕ) → LiesApart T.need_separate_room (T.holds made) j
        → T.needs_allocation made j) }
    ensures stops { IfErr result (RefusesBelow T.RANGE U.into_iter_gives U.IntoIter.next_gives
        (λ i. i.now) iter T.need_separate_room) }
{
    extend_index_refs(&mut set, iter)?;
    Ok(set)
}

/// Adds the indices of a slice, up to the first that is not added.
#[doc(hidden)]
pub fn extend_from_slice<T: FallibleInsert>(
    set: &mut T,
    indices: &[Index],
) -> Result<(), BuildError>
    ensures added { OnOk result (AddsList (T.holds set.old) (T.holds set.new) indices.now) }
    ensures in_range { OnOk result (InRangeBefore T.RANGE indices.now (length indices.now)) }
    ensures added_before { IfErr result (λ error. AddsList (T.holds set.old) (T.holds set.new)
        (take (place_of error) indices.now)) }
    ensures error_place { IfErr result (λ error. place_of error < length indices.now) }
    ensures in_range_before { IfErr result (λ error. InRangeBefore T.RANGE indices.now
        (place_of error)) }
    ensures reason { IfErr result (IsRefusalIn T.RANGE indices.now) }
    ensures lacks_room { IfErr result (LacksRoom (T.needs_allocation set.new) indices.now) }
    ensures frees_none { (j : ℕ) → T.needs_allocation set.new j → T.needs_allocation set.old j }
    ensures makes_no_more { (j : ℕ) → T.needs_allocation set.old j
        → LiesApart T.need_separate_room (T.holds set.new) j → T.needs_allocation set.new j }
{
    extend_index_refs(set, indices)
}

/// A set without members, extended by the indices of a slice.
#[doc(hidden)]
pub fn from_slice<T: FallibleInsert>(set: T, indices: &[Index]) -> Result<T, BuildError>
    requires empty { (i : ℕ) → T.holds set i ≡ false }
    requires all_lack_room { (j : ℕ) → T.needs_allocation set j }
    ensures members { IfOk result (λ made. (i : ℕ)
        → (T.holds made i ≡ true) ↔ Contains indices.now i) }
    ensures in_range { IfOk result (λ _. InRangeBefore T.RANGE indices.now (length indices.now)) }
    ensures makes_no_more { IfOk result (λ made. (j : ℕ) → LiesApart T.need_separate_room (T.holds made) j
        → T.needs_allocation made j) }
    ensures error_place { IfErr result (λ error. place_of error < length indices.now) }
    ensures in_range_before { IfErr result (λ error. InRangeBefore T.RANGE indices.now
        (place_of error)) }
    ensures reason { IfErr result (IsRefusalIn T.RANGE indices.now) }
    ensures apart { IfErr result (LiesApartIn T.need_separate_room indices.now) }
{
    from_index_refs(set, indices)
}
