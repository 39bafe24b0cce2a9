//! A set that can be shared, held alone.
use crate::sets::{AnySet, Sum, add_all, set_of, sum_of_turns};
use hibitset::atomic::ATOMIC_MAX_EID;
use hibitset::{AtomicBitSet, Index};
use std::alloc::{AllocError, Global};

impl AnySet for AtomicBitSet {
    #[inline]
    fn empty(alloc: Global) -> Result<Self, AllocError> {
        AtomicBitSet::new(alloc)
    }

    #[inline]
    fn add_in_range(&mut self, id: Index) -> Result<bool, AllocError> {
        if (id as usize) < ATOMIC_MAX_EID {
            self.add(id)
        } else {
            Ok(false)
        }
    }

    #[inline]
    fn clear(&mut self) {
        AtomicBitSet::clear(self);
    }
}

// Takes the indices out, and counts those that were there.
#[inline]
fn remove_all(set: &mut AtomicBitSet, ids: &[Index]) -> u64 {
    let mut count = 0u64;
    for id in ids {
        count = count.wrapping_add(u64::from(set.remove(*id)));
    }
    count
}

// Takes all out and adds them again.
pub(crate) fn renew(alloc: Global, ids: &[Index], times: usize) -> Sum {
    let mut set: AtomicBitSet = set_of(alloc, ids)?;
    sum_of_turns(times, || {
        let removed = remove_all(&mut set, ids);
        Ok(removed.wrapping_add(add_all(&mut set, ids)?))
    })
}
