//! What the kernels share.
use hibitset::util::MAX_EID;
use hibitset::{BitSet, BitSetLike, Index};
use std::alloc::{AllocError, Global};

// What a kernel returns: a sum of what came out, or that an allocation failed.
pub(crate) type Sum = Result<u64, AllocError>;

// A set that indices are added to one at a time.
pub(crate) trait AnySet: BitSetLike {
    fn empty(alloc: Global) -> Result<Self, AllocError>;

    // Adds an index if it is in range, and returns whether it was there.
    fn add_in_range(&mut self, id: Index) -> Result<bool, AllocError>;

    // Takes all members out.
    fn clear(&mut self);
}

impl AnySet for BitSet {
    #[inline]
    fn empty(alloc: Global) -> Result<Self, AllocError> {
        Ok(BitSet::new(alloc))
    }

    #[inline]
    fn add_in_range(&mut self, id: Index) -> Result<bool, AllocError> {
        if (id as usize) < MAX_EID {
            self.add(id)
        } else {
            Ok(false)
        }
    }

    #[inline]
    fn clear(&mut self) {
        BitSet::clear(self);
    }
}

// Adds the indices that are in range, and counts those that were there.
#[inline]
pub(crate) fn add_all<S: AnySet>(set: &mut S, ids: &[Index]) -> Sum {
    let mut count = 0u64;
    for id in ids {
        count = count.wrapping_add(u64::from(set.add_in_range(*id)?));
    }
    Ok(count)
}

// The set of the indices that are in range.
pub(crate) fn set_of<S: AnySet>(alloc: Global, ids: &[Index]) -> Result<S, AllocError> {
    let mut set = S::empty(alloc)?;
    add_all(&mut set, ids)?;
    Ok(set)
}

// The sum of what `times` turns return.
#[inline]
pub(crate) fn sum_of_turns<F: FnMut() -> Sum>(times: usize, mut turn: F) -> Sum
    requires { F.IsAlwaysCallable turn }
{
    let mut sum = 0u64;
    for _ in 0..times {
        sum = sum.wrapping_add(turn()?);
    }
    Ok(sum)
}

// The sum of what is returned for each index, `times` times over.
#[inline]
pub(crate) fn sum_of_answers<F: Fn(Index) -> u64>(asked: &[Index], times: usize, answer: F) -> u64
    requires { F.IsAlwaysCallable answer }
{
    let mut sum = 0u64;
    for _ in 0..times {
        for id in asked {
            sum = sum.wrapping_add(answer(*id));
        }
    }
    sum
}

// The sum of the members.
#[inline]
pub(crate) fn sum_of<T: BitSetLike>(set: T) -> u64 {
    let mut sum = 0u64;
    for index in set.iter() {
        sum = sum.wrapping_add(u64::from(index));
    }
    sum
}

// Where the indices of the bench's sets end, however far a complement goes on.
pub(crate) const END: Index = 1 << 24;

// The sum of the members below that end.
#[inline]
pub(crate) fn sum_below_end<T: BitSetLike>(set: T) -> u64 {
    let mut sum = 0u64;
    for index in set.iter() {
        if index >= END {
            break;
        }
        sum = sum.wrapping_add(u64::from(index));
    }
    sum
}

// An index to ask for, so that no call is left out as having no use.
#[inline]
pub(crate) fn first_of(ids: &[Index]) -> Index {
    ids.first().copied().unwrap_or(0)
}
