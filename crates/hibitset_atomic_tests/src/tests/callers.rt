//! Callers of both forms of the set, who prove what their contracts say from the public clauses alone.
//! The closure of each thread repeats the clauses of the other's, since those of a closure stand at it.
ghost use Rattle.std.specs.Prelude.{◌≡◌, ℕ, ◌+◌, ◌/◌, ◌≤◌, ◌⊎◌, ◌↔◌, [], true, length, nat_eq, Contains, IfSome, IfOk, IfErr, ◌<◌};
ghost use Rattle.hibitset_atomic.specs.declared.atomic.TheConstants.{ATOMIC_MAX_EID};
ghost use Rattle.hibitset_atomic.specs.AtomicBitSet.{has};
ghost use Rattle.std.specs.List.{IsDistinct};
ghost use Rattle.hibitset_atomic.specs.Seats.{IsOld, BelongsTo, reports_of, loads_by, exchanges_by};

use crate::tests::list;
use hibitset_atomic::laws::atomic_laws;
use hibitset_atomic::{AtomicBitSet, Seat, SharedBitSet};
use hibitset_base::BitSetLike;
use hibitset_base::util::Index;
use std::snapshot::Snapshot;
use std::sync::Wait;
use std::test::Fail;
use std::thread;
use std::thread::{Promise, Threads};

/// A seat that has added, and how many of its adds answered false.
#[derive(Drop)]
pub struct Added {
    seat: Seat,
    new: u32,
}

/// Promises that a seat comes back to its set, with as many reports as answers false.
#[derive(Clone, Copy)]
pub struct ComesBack<'a>(&'a SharedBitSet);

impl<'a> Promise<Added> for ComesBack<'a> {
    ghost kept_by = { λ p r. BelongsTo p.0.now r.seat × (length (reports_of r.seat) ≡ r.new) };
}

/// The set afterwards, the seat as it was before it settled, and how many adds answered false.
#[derive(Drop)]
pub struct Settled {
    pub set: AtomicBitSet,
    pub seat: Snapshot<Seat>,
    pub new: u64,
}

// Adds each index below a bound, and counts the answers false.
fn add_below(set: &SharedBitSet, seat: Seat, count: u32) -> Added
    requires belongs { BelongsTo set.now seat × (reports_of seat ≡ []) }
    requires count { count ≤ ATOMIC_MAX_EID }
    ensures { BelongsTo set.now result.seat × (length (reports_of result.seat) ≡ result.new) }
{
    let mut seat = seat;
    let mut new = 0;
    for id in 0..count {
        if !set.add_atomic(&mut seat, id) {
            new += 1;
        }
    }
    Added { seat, new }
}

// Each seat adds on a thread of its own.
fn on_two_threads<R: Threads + Wait + Sync>(
    rt: &R,
    set: &SharedBitSet,
    a: Seat,
    b: Seat,
    count: u32,
) -> Option<(Added, Added)>
    requires a { BelongsTo set.now a × (reports_of a ≡ []) }
    requires b { BelongsTo set.now b × (reports_of b ≡ []) }
    requires count { count ≤ ATOMIC_MAX_EID }
    ensures belongs { IfSome result (λ t. BelongsTo set.now t.0.seat × BelongsTo set.now t.1.seat) }
    ensures new { IfSome result (λ t. (length (reports_of t.0.seat) ≡ t.0.new)
        × (length (reports_of t.1.seat) ≡ t.1.new)) }
{
    thread::scope(
        thread::scope_env(),
        rt,
        |scope| -> Option<(Added, Added)>
            requires a { BelongsTo set.now a × (reports_of a ≡ []) }
            requires b { BelongsTo set.now b × (reports_of b ≡ []) }
            requires count { count ≤ ATOMIC_MAX_EID }
            ensures belongs { IfSome result (λ t. BelongsTo set.entry.now t.0.seat
                × BelongsTo set.entry.now t.1.seat) }
            ensures new { IfSome result (λ t. (length (reports_of t.0.seat) ≡ t.0.new)
                × (length (reports_of t.1.seat) ≡ t.1.new)) }
        {
            let one = scope.spawn_with(
                ComesBack(set),
                move || -> Added
                    requires { BelongsTo set.now a × (reports_of a ≡ [])
                        × (count ≤ ATOMIC_MAX_EID) }
                    ensures { BelongsTo set.entry.now result.seat
                        × (length (reports_of result.seat) ≡ result.new) }
                { add_below(set, a, count) },
            );
            let two = scope.spawn_with(
                ComesBack(set),
                move || -> Added
                    requires { BelongsTo set.now b × (reports_of b ≡ [])
                        × (count ≤ ATOMIC_MAX_EID) }
                    ensures { BelongsTo set.entry.now result.seat
                        × (length (reports_of result.seat) ≡ result.new) }
                { add_below(set, b, count) },
            );
            Some((one.ok()?.join(rt), two.ok()?.join(rt)))
        },
    )
}

/// Two threads add each index below a bound. No index is reported twice, and the set has exactly the old indices and
/// the reported ones.
pub fn add_from_two<R: Threads + Wait + Sync>(
    rt: &R,
    set: SharedBitSet,
    seat: Seat,
    count: u32,
) -> Option<Settled>
    requires belongs { BelongsTo set seat × (reports_of seat ≡ []) }
    requires count { count ≤ ATOMIC_MAX_EID }
    ensures distinct { IfSome result (λ r. IsDistinct nat_eq (reports_of r.seat.value)) }
    ensures new { IfSome result (λ r. length (reports_of r.seat.value) ≡ r.new) }
    ensures members { IfSome result (λ r. (i : ℕ)
        → (has r.set i ≡ true) ↔ (IsOld set i ⊎ Contains (reports_of r.seat.value) i)) }
{
    let (a, b) = set.divide(seat);
    let (one, two) = on_two_threads(rt, &set, a, b?, count)?;
    let new = u64::from(one.new) + u64::from(two.new);
    let seat = set.join(one.seat, two.seat);
    if !seat.is_whole() {
        return None;
    }
    let before = Snapshot::of(&seat);
    let set = set.settle(seat).ok()?;
    Some(Settled {
        set,
        seat: before,
        new,
    })
}

/// Settles, and puts one index more into the set, for which there is room by then.
pub fn settle_with(
    set: SharedBitSet,
    seat: Seat,
    id: Index,
) -> Result<AtomicBitSet, (SharedBitSet, Seat)>
    requires belongs { BelongsTo set seat }
    requires id { id < ATOMIC_MAX_EID }
    ensures added { IfOk result (λ r. has r id ≡ true) }
    ensures old { IfOk result (λ r. (i : ℕ) → IsOld set i → has r i ≡ true) }
    ensures value_returned { IfErr result (λ r. (r.0 ≡ set) × (r.1 ≡ seat)) }
{
    let mut set = set.settle(seat)?;
    set.remove(id);
    set.add(id).unwrap();
    Ok(set)
}

/// Adds an index twice. The second time it is read and nothing else, so there are no more exchanges than one add may
/// make.
pub fn add_again(set: &SharedBitSet, seat: &mut Seat, id: Index) -> bool
    requires belongs { BelongsTo set.now seat.old }
    requires id { id < ATOMIC_MAX_EID }
    ensures belongs { BelongsTo set.now seat.new }
    ensures there { result ≡ true }
    ensures loads { loads_by seat.new ≤ loads_by seat.old + 11 }
    ensures exchanges { exchanges_by seat.new ≤ exchanges_by seat.old + 4 }
{
    set.add_atomic(seat, id);
    set.add_atomic(seat, id)
}

/// Adds two indices whose bits lie in one word of layer 0. The second exchanges that word at most, so there are five
/// exchanges at most.
pub fn add_in_one_word(set: &SharedBitSet, seat: &mut Seat, first: Index, second: Index) -> bool
    requires belongs { BelongsTo set.now seat.old }
    requires first { first < ATOMIC_MAX_EID }
    requires second { second < ATOMIC_MAX_EID }
    requires word { first / 64 ≡ second / 64 }
    ensures belongs { BelongsTo set.now seat.new }
    ensures exchanges { exchanges_by seat.new ≤ exchanges_by seat.old + 5 }
{
    set.add_atomic(seat, first);
    set.add_atomic(seat, second)
}

/// The word of layer 0 at a position past the range, which is 0 in every set.
pub fn word_past_the_range(set: &AtomicBitSet, position: usize) -> usize
    requires { ATOMIC_MAX_EID / 64 ≤ position }
    ensures { result ≡ 0 }
{
    atomic_laws();
    set.layer0(position)
}

#[test]
fn two_threads_add_the_same(rt: HostRuntime) -> Result<(), Fail> {
    let Ok((set, seat)) = AtomicBitSet::new(rt.alloc())?.share() else {
        panic!(rt; "no memory")
    };
    let Some(settled) = add_from_two(&rt, set, seat, 1000) else {
        panic!(rt; "no thread, or no memory")
    };
    assert_eq!(rt; settled.new, 1000);
    assert_eq!(rt; list(rt.alloc(), &settled.set)?.len(), 1000);
    Ok(())
}

#[test]
fn one_more_after_settling(rt: HostRuntime) -> Result<(), Fail> {
    let Ok((set, mut seat)) = AtomicBitSet::new(rt.alloc())?.share() else {
        panic!(rt; "no memory")
    };
    assert!(rt; add_again(&set, &mut seat, 70_000));
    assert!(rt; !add_in_one_word(&set, &mut seat, 64, 65));
    let Ok(set) = settle_with(set, seat, 5) else {
        panic!(rt; "no memory")
    };
    assert_eq!(rt;
        list(rt.alloc(), &set)?.as_slice(),
        [5, 64, 65, 70_000].as_slice()
    );
    assert!(rt; word_past_the_range(&set, 262_144) == 0);
    Ok(())
}
