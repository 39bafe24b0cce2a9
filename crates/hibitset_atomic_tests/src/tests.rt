//! Values from outside: worked rows, and each public call at least once.
ghost use Rattle.std.specs.Prelude.{◌≡◌, ◌<◌};
ghost use Rattle.hibitset_atomic.specs.Seats.{BelongsTo, weight_of};
ghost use Rattle.hibitset_atomic.specs.declared.atomic.TheConstants.{ATOMIC_MAX_EID};
ghost use Rattle.hibitset_atomic.specs.declared.shared.layout.TheConstants.{SHARES};

mod again;
mod building;
mod callers;
mod costs;
mod held;
mod orders;
mod shares;
mod worlds;

use hibitset_atomic::atomic::{ATOMIC_MAX_EID, AtomicBitSet};
use hibitset_atomic::{Seat, SharedBitSet};
use hibitset_base::{BitSetLike, Index};
use std::alloc::{AllocError, AllocGlobal, Global};
use std::process::Abort;

// What a walk over a set gives.
fn list<T: BitSetLike>(alloc: Global, set: T) -> Result<Vec<Index>, AllocError> {
    set.iter().collect(alloc)
}

// The set of these indices, those that are out of range left out.
fn set_of(alloc: Global, ids: &[Index]) -> Result<AtomicBitSet, AllocError> {
    let mut set = AtomicBitSet::new(alloc)?;
    for id in ids {
        if (*id as usize) < ATOMIC_MAX_EID {
            set.add(*id)?;
        }
    }
    Ok(set)
}

// The functions below compare for many tests: a comparison in a test makes the proof of all that follows there longer,
// and a call of one of these hardly does.

// Sees that a walk over a set gives these indices.
fn assert_members<T: BitSetLike>(
    rt: &(impl Abort + AllocGlobal),
    set: T,
    ids: &[Index],
) -> Result<(), AllocError> {
    let members: Vec<Index> = set.iter().collect(rt.alloc())?;
    assert_eq!(rt; members.as_slice(), ids);
    Ok(())
}

// Sees that walks over a set give so many indices, and that their sum is this one.
fn assert_sum(
    rt: &(impl Abort + AllocGlobal),
    set: &AtomicBitSet,
    count: usize,
    sum: u64,
) -> Result<(), AllocError> {
    assert_count(rt, list(rt.alloc(), set)?.len(), count);
    let found = set
        .iter()
        .fold(0u64, |sum, id| sum.wrapping_add(u64::from(id)));
    assert_eq!(rt; found, sum);
    Ok(())
}

// Sees that these indices were given.
fn assert_indices(rt: &impl Abort, found: &[Index], ids: &[Index]) {
    assert_eq!(rt; found, ids);
}

fn assert_words(rt: &impl Abort, found: &[usize], wanted: &[usize]) {
    assert_eq!(rt; found, wanted);
}

fn assert_count(rt: &impl Abort, found: usize, wanted: usize) {
    assert_eq!(rt; found, wanted);
}

// A set that many may add to, and its opening seat.
fn shared(rt: &impl Abort, set: AtomicBitSet) -> (SharedBitSet, Seat)
    ensures { BelongsTo result.0 result.1 × (weight_of result.1 ≡ SHARES) }
{
    let Ok(shared) = set.share() else {
        panic!(rt; "no memory")
    };
    shared
}

// The set held alone again.
fn settled(rt: &impl Abort, set: SharedBitSet, seat: Seat) -> AtomicBitSet
    requires { BelongsTo set seat }
{
    let Ok(set) = set.settle(seat) else {
        panic!(rt; "no memory")
    };
    set
}

// Adds an index, which is to be new.
fn assert_new(rt: &impl Abort, set: &SharedBitSet, seat: &mut Seat, id: Index)
    requires { BelongsTo set.now seat.old × (id < ATOMIC_MAX_EID) }
    ensures { BelongsTo set.now seat.new × (weight_of seat.new ≡ weight_of seat.old) }
{
    assert!(rt; !set.add_atomic(seat, id));
}
