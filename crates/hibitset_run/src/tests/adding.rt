//! Two threads that add to one set, each with a seat of its own, and look for what the other adds.
ghost use Rattle.std.specs.Prelude.{◌≡◌, ◌<◌, IfSome};
ghost use Rattle.hibitset_atomic.specs.Seats.{BelongsTo};
ghost use Rattle.hibitset_atomic.specs.declared.atomic.TheConstants.{ATOMIC_MAX_EID};

use hibitset::{AtomicBitSet, BitSetLike, Index, Seat, SharedBitSet};
use std::alloc::{AllocError, Global};
use std::sync::Wait;
use std::test::Fail;
use std::thread;
use std::thread::{Promise, Threads};

// How often a thread looks for an index, at most.
const TURNS: u32 = 200_000_000;

// How a thread looks for an index.
#[derive(Clone, Copy)]
enum Look {
    Asks,
    Walks,
}

// What one thread did: whether its add of 5 answered false, and whether it found the other's index.
#[derive(Drop)]
struct Done {
    seat: Seat,
    new: bool,
    found: bool,
}

// The seat that comes back is one of this set.
#[derive(Clone, Copy)]
struct Back<'a>(&'a SharedBitSet);

impl<'a> Promise<Done> for Back<'a> {
    ghost kept_by = { λ p r. BelongsTo p.0.now r.seat };
}

// Returns whether a walk gives an index. It is dropped there.
fn walks_to(set: &SharedBitSet, seat: &mut Seat, id: Index) -> bool
    requires { BelongsTo set.now seat.old }
    ensures { BelongsTo set.now seat.new }
{
    for index in set.walk(seat) {
        if index == id {
            return true;
        }
    }
    false
}

// Looks for an index until it is there: so often at most by `contains`, and a tenth as often by walks.
fn finds(set: &SharedBitSet, seat: &mut Seat, look: Look, id: Index) -> bool
    requires { BelongsTo set.now seat.old }
    ensures { BelongsTo set.now seat.new }
{
    for turn in 0..TURNS {
        let found = match look {
            Look::Asks => set.contains(seat, id),
            Look::Walks => turn % 10 == 0 && walks_to(set, seat, id),
        };
        if found {
            return true;
        }
    }
    false
}

// Adds 5 and an index of its own, and looks for the other's.
fn job(set: &SharedBitSet, seat: Seat, look: Look, mine: Index, other: Index) -> Done
    requires { BelongsTo set.now seat × (mine < ATOMIC_MAX_EID) }
    ensures { BelongsTo set.now result.seat }
{
    let mut seat = seat;
    let there = set.add_atomic(&mut seat, 5);
    set.add_atomic(&mut seat, mine);
    let found = finds(set, &mut seat, look, other);
    Done {
        seat,
        new: !there,
        found,
    }
}

// One thread adds 7 and asks for 9, the other adds 9 and looks for 7.
fn on_two_threads<R: Threads + Wait + Sync>(
    rt: &R,
    set: &SharedBitSet,
    a: Seat,
    b: Seat,
    look: Look,
) -> Option<(Done, Done)>
    requires { BelongsTo set.now a × BelongsTo set.now b }
    ensures { IfSome result (λ t. BelongsTo set.now t.0.seat × BelongsTo set.now t.1.seat) }
{
    thread::scope(
        thread::scope_env(),
        rt,
        |scope| -> Option<(Done, Done)>
            requires { BelongsTo set.now a × BelongsTo set.now b }
            ensures { IfSome result (λ t. BelongsTo set.entry.now t.0.seat
                × BelongsTo set.entry.now t.1.seat) }
        {
            let one = scope.spawn_with(
                Back(set),
                move || -> Done
                    requires { BelongsTo set.now a }
                    ensures { BelongsTo set.entry.now result.seat }
                { job(set, a, Look::Asks, 7, 9) },
            );
            let two = scope.spawn_with(
                Back(set),
                move || -> Done
                    requires { BelongsTo set.now b }
                    ensures { BelongsTo set.entry.now result.seat }
                { job(set, b, look, 9, 7) },
            );
            Some((one.ok()?.join(rt), two.ok()?.join(rt)))
        },
    )
}

// What came of two threads: whether both found, how many adds of 5 answered false, whether the seats joined are whole,
// and the set afterwards.
#[derive(Drop)]
struct Met {
    found: bool,
    new: u32,
    whole: bool,
    indices: Vec<Index>,
}

// None where there was no thread, or no memory for the set.
fn meet<R: Threads + Wait + Sync>(
    rt: &R,
    alloc: Global,
    look: Look,
) -> Result<Option<Met>, AllocError> {
    let Ok((set, seat)) = AtomicBitSet::new(alloc)?.share() else {
        return Ok(None);
    };
    let (a, b) = set.divide(seat);
    let Some(b) = b else {
        return Ok(None);
    };
    let Some((one, two)) = on_two_threads(rt, &set, a, b, look) else {
        return Ok(None);
    };
    let found = one.found && two.found;
    let new = u32::from(one.new) + u32::from(two.new);
    let seat = set.join(one.seat, two.seat);
    let whole = seat.is_whole();
    let Ok(set) = set.settle(seat) else {
        return Ok(None);
    };
    let indices = (&set).iter().collect(alloc)?;
    Ok(Some(Met {
        found,
        new,
        whole,
        indices,
    }))
}

#[test]
fn adds_meet(rt: HostRuntime) -> Result<(), Fail> {
    let Some(met) = meet(&rt, rt.alloc(), Look::Asks)? else {
        panic!(rt; "no thread or no memory")
    };
    assert!(rt; met.found && met.whole);
    assert_eq!(rt; met.new, 1);
    assert_eq!(rt; met.indices.as_slice(), [5, 7, 9].as_slice());
    Ok(())
}

// The same where one of the two looks by walks.
#[test]
fn a_walk_meets_an_add(rt: HostRuntime) -> Result<(), Fail> {
    let Some(met) = meet(&rt, rt.alloc(), Look::Walks)? else {
        panic!(rt; "no thread or no memory")
    };
    assert!(rt; met.found && met.whole);
    assert_eq!(rt; met.new, 1);
    assert_eq!(rt; met.indices.as_slice(), [5, 7, 9].as_slice());
    Ok(())
}
