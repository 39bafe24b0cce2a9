//! Walks of seats that add in turn; what else is called, in modules of its own.
ghost use Rattle.std.specs.Prelude.{◌≡◌, ◌<◌};
ghost use Rattle.hibitset_atomic.specs.declared.atomic.TheConstants.{ATOMIC_MAX_EID};
ghost use Rattle.hibitset_atomic.specs.Seats.{BelongsTo};

use hibitset::{AtomicBitSet, Index, Seat, SharedBitSet};
use std::test::Fail;
use uses::walks::{first, indices};

mod atomic_lists;
mod costs;
mod held;
mod ids;
mod marks;
mod meeting;
mod rows;
mod shared;
mod turns;
mod workers;

// Adds the indices below a count, and counts the answers false.
fn add_below(set: &SharedBitSet, seat: &mut Seat, count: u32) -> u32
    requires { BelongsTo set.now seat.old × (count < ATOMIC_MAX_EID) }
    ensures { BelongsTo set.now seat.new }
{
    let mut new = 0u32;
    for id in 0..count {
        if !set.add_atomic(seat, id) {
            new = new.wrapping_add(1);
        }
    }
    new
}

// How many of these indices are found.
fn found_of(set: &SharedBitSet, seat: &mut Seat, ids: &[Index]) -> usize
    requires { BelongsTo set.now seat.old }
    ensures { BelongsTo set.now seat.new }
{
    let mut found = 0usize;
    for id in ids {
        if set.contains(seat, *id) {
            found = found.wrapping_add(1);
        }
    }
    found
}

#[test]
fn old_and_added(rt: HostRuntime) -> Result<(), Fail> {
    let mut set = AtomicBitSet::new(rt.alloc())?;
    set.add(3)?;
    let Ok((set, mut seat)) = set.share() else {
        panic!(rt; "no memory")
    };
    assert!(rt; !set.add_atomic(&mut seat, 5));
    assert_eq!(rt; first(&set, &mut seat), Some(3));
    let all = indices(rt.alloc(), &set, &mut seat)?;
    assert_eq!(rt; all.as_slice(), [3, 5].as_slice());
    let mut walk = set.walk(&mut seat);
    assert_eq!(rt; walk.next(), Some(3));
    assert_eq!(rt; walk.next(), Some(5));
    assert_eq!(rt; walk.next(), None);
    assert_eq!(rt; walk.next(), None);
    Ok(())
}

#[test]
fn what_another_seat_added(rt: HostRuntime) -> Result<(), Fail> {
    let set = AtomicBitSet::new(rt.alloc())?;
    let Ok((set, mut seat)) = set.share() else {
        panic!(rt; "no memory")
    };
    assert_eq!(rt; first(&set, &mut seat), None);
    assert_eq!(rt; add_below(&set, &mut seat, 1000), 1000);
    let (mut a, b) = set.divide(seat);
    let Some(mut b) = b else {
        panic!(rt; "one part")
    };
    let all = indices(rt.alloc(), &set, &mut b)?;
    assert_eq!(rt; all.len(), 1000);
    assert_eq!(rt;
        all.iter()
            .fold(0u64, |sum, id| sum.wrapping_add(u64::from(*id))),
        499500
    );
    assert_eq!(rt; found_of(&set, &mut b, all.as_slice()), 1000);
    let again = indices(rt.alloc(), &set, &mut b)?;
    assert!(rt; again.len() >= 1000);
    assert!(rt; all.iter().all(|id| again.contains(id)));
    assert!(rt; !set.add_atomic(&mut b, 2000));
    let last = indices(rt.alloc(), &set, &mut a)?;
    assert!(rt; last.len() == 1001 && all.iter().all(|id| last.contains(id)));
    assert_eq!(rt; last.last().copied(), Some(2000));
    Ok(())
}

#[test]
fn far_apart(rt: HostRuntime) -> Result<(), Fail> {
    let mut set = AtomicBitSet::new(rt.alloc())?;
    set.add(0)?;
    set.add(63)?;
    set.add(4096)?;
    set.add(16777215)?;
    let Ok((set, mut seat)) = set.share() else {
        panic!(rt; "no memory")
    };
    assert!(rt; !set.add_atomic(&mut seat, 262144));
    let all = indices(rt.alloc(), &set, &mut seat)?;
    assert_eq!(rt; all.as_slice(), [0, 63, 4096, 262144, 16777215].as_slice());
    Ok(())
}
