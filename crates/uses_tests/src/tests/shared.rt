//! Two threads that take identifiers from one set, none of them twice.
//! The closure of each thread repeats the clauses of the other's, since those of a closure stand at it.
ghost use Rattle.std.specs.Prelude.{◌≡◌, ◌++◌, [], nat_eq, IfSome, reverse};
ghost use Rattle.std.specs.List.{IsDistinct};
ghost use Rattle.hibitset_atomic.specs.Seats.{BelongsTo, reports_of};

use hibitset::{AtomicBitSet, BitSetLike, Index, Seat, SharedBitSet};
use std::alloc::Global;
use std::sync::Wait;
use std::test::Fail;
use std::thread;
use std::thread::{Promise, Threads};
use uses::shared_ids::{Taken, take_fresh, take_many};

// A seat comes back to its set, and what was taken with it are its reports.
#[derive(Clone, Copy)]
struct ComesBack<'a>(&'a SharedBitSet);

impl<'a> Promise<Taken> for ComesBack<'a> {
    ghost kept_by = { λ p r. BelongsTo p.0.now r.seat × (reports_of r.seat ≡ reverse r.ids.items) };
}

// Each seat takes on a thread of its own.
fn on_two_threads<R: Threads + Wait + Sync>(
    rt: &R,
    alloc: Global,
    set: &SharedBitSet,
    a: Seat,
    b: Seat,
    count: usize,
) -> Option<(Taken, Taken)>
    requires a { BelongsTo set.now a × (reports_of a ≡ []) }
    requires b { BelongsTo set.now b × (reports_of b ≡ []) }
    ensures belongs { IfSome result (λ t. BelongsTo set.now t.0.seat × BelongsTo set.now t.1.seat) }
    ensures taken { IfSome result (λ t. (reports_of t.0.seat ≡ reverse t.0.ids.items)
        × (reports_of t.1.seat ≡ reverse t.1.ids.items)) }
{
    thread::scope(
        thread::scope_env(),
        rt,
        |scope| -> Option<(Taken, Taken)>
            requires a { BelongsTo set.now a × (reports_of a ≡ []) }
            requires b { BelongsTo set.now b × (reports_of b ≡ []) }
            ensures belongs { IfSome result (λ t. BelongsTo set.entry.now t.0.seat
                × BelongsTo set.entry.now t.1.seat) }
            ensures taken { IfSome result (λ t. (reports_of t.0.seat ≡ reverse t.0.ids.items)
                × (reports_of t.1.seat ≡ reverse t.1.ids.items)) }
        {
            let one = scope.spawn_with(
                ComesBack(set),
                move || -> Taken
                    requires { BelongsTo set.now a × (reports_of a ≡ []) }
                    ensures { BelongsTo set.entry.now result.seat
                        × (reports_of result.seat ≡ reverse result.ids.items) }
                { take_many(alloc, set, a, count) },
            );
            let two = scope.spawn_with(
                ComesBack(set),
                move || -> Taken
                    requires { BelongsTo set.now b × (reports_of b ≡ []) }
                    ensures { BelongsTo set.entry.now result.seat
                        × (reports_of result.seat ≡ reverse result.ids.items) }
                { take_many(alloc, set, b, count) },
            );
            Some((one.ok()?.join(rt), two.ok()?.join(rt)))
        },
    )
}

// What two threads took, and the seat of both.
#[derive(Drop)]
struct TakenByTwo {
    seat: Seat,
    one: Vec<Index>,
    two: Vec<Index>,
}

// Two threads take as many identifiers each, and none is taken twice, by one of them or by both.
fn take_by_two<R: Threads + Wait + Sync>(
    rt: &R,
    alloc: Global,
    set: &SharedBitSet,
    seat: Seat,
    count: usize,
) -> Option<TakenByTwo>
    requires { BelongsTo set.now seat × (reports_of seat ≡ []) }
    ensures belongs { IfSome result (λ r. BelongsTo set.now r.seat) }
    ensures distinct { IfSome result (λ r. IsDistinct nat_eq
        (reverse r.one.items ++ reverse r.two.items)) }
{
    let (a, b) = set.divide(seat);
    let (one, two) = on_two_threads(rt, alloc, set, a, b?, count)?;
    let seat = set.join(one.seat, two.seat);
    Some(TakenByTwo {
        seat,
        one: one.ids,
        two: two.ids,
    })
}

#[test]
fn no_identifier_is_taken_twice(rt: HostRuntime) -> Result<(), Fail> {
    let mut old = AtomicBitSet::new(rt.alloc())?;
    old.add(7)?;
    let Ok((set, seat)) = old.share() else {
        panic!(rt; "no memory")
    };
    let Some(taken) = take_by_two(&rt, rt.alloc(), &set, seat, 1_000) else {
        panic!(rt; "no thread")
    };
    assert_eq!(rt; taken.one.len(), 1_000);
    assert_eq!(rt; taken.two.len(), 1_000);
    assert!(rt; !taken.one.contains(&7) && !taken.two.contains(&7));
    let Ok(set) = set.settle(taken.seat) else {
        panic!(rt; "no memory")
    };
    assert_eq!(rt; set.len(), 2_001);
    Ok(())
}

#[test]
fn so_many_tries(rt: HostRuntime) -> Result<(), Fail> {
    let mut old = AtomicBitSet::new(rt.alloc())?;
    old.add(5)?;
    old.add(6)?;
    let Ok((set, mut seat)) = old.share() else {
        panic!(rt; "no memory")
    };
    assert_eq!(rt; take_fresh(&set, &mut seat, 5, 0), None);
    assert_eq!(rt; take_fresh(&set, &mut seat, 5, 2), None);
    assert_eq!(rt; take_fresh(&set, &mut seat, 5, 3), Some(7));
    assert_eq!(rt; take_fresh(&set, &mut seat, 5, 3), None);
    assert_eq!(rt;
        take_fresh(&set, &mut seat, 16_777_215, 9),
        Some(16_777_215)
    );
    assert_eq!(rt; take_fresh(&set, &mut seat, 16_777_215, 9), None);
    assert_eq!(rt; take_fresh(&set, &mut seat, 20_000_000, 9), None);
    Ok(())
}
