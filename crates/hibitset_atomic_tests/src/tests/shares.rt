//! A set that seats add to, and what it is afterwards.
ghost use Rattle.std.specs.Prelude.{◌≡◌, ◌+◌, ◌<◌, ◌≤◌, ◌++◌, All, length, IfSome};
ghost use Rattle.std.specs.List.{sum_by, flat_map};
ghost use Rattle.hibitset_atomic.specs.Seats.{BelongsTo, weight_of, reports_of};
ghost use Rattle.hibitset_atomic.specs.declared.atomic.TheConstants.{ATOMIC_MAX_EID};
ghost use Rattle.hibitset_atomic.specs.declared.shared.layout.TheConstants.{SHARES};

use crate::tests::{
    assert_count, assert_members, assert_new, assert_sum, assert_words, set_of, settled, shared,
};
use hibitset_atomic::{AtomicBitSet, Seat, SharedBitSet};
use hibitset_base::BitSetLike;
use std::alloc::{AllocError, AllocGlobal, Global};
use std::process::Abort;

// Adds each index below a bound twice and then asks for it, and counts the first answers false, the second ones true,
// and the last ones true.
fn add_twice(set: &SharedBitSet, seat: &mut Seat, count: u32) -> (u32, u32, u32)
    requires { BelongsTo set.now seat.old × (count < ATOMIC_MAX_EID) }
    ensures { BelongsTo set.now seat.new }
{
    let mut new = 0u32;
    let mut there = 0u32;
    let mut found = 0u32;
    for id in 0..count {
        if !set.add_atomic(seat, id) {
            new = new.wrapping_add(1);
        }
        if set.add_atomic(seat, id) {
            there = there.wrapping_add(1);
        }
        if set.contains(seat, id) {
            found = found.wrapping_add(1);
        }
    }
    (new, there, found)
}

#[test]
fn shared_adds(rt: HostRuntime) -> Result<(), AllocError> {
    let (set, mut seat) = shared(&rt, AtomicBitSet::new(rt.alloc())?);
    assert!(rt; add_twice(&set, &mut seat, 1000) == (1000, 1000, 1000));
    assert!(rt; seat.is_whole());
    let set = settled(&rt, set, seat);
    assert_sum(&rt, &set, 1000, 499500)?;
    let words = [set.layer3(0), set.layer2(0), set.layer1(0), set.layer0(15)];
    assert_words(&rt, &words, &[1, 1, 65535, (1 << 40) - 1]);
    Ok(())
}

// Divides a seat into two of this weight, and returns the first.
fn halved(rt: &impl Abort, set: &SharedBitSet, seat: Seat, weight: u32) -> Seat
    requires { BelongsTo set.now seat }
    ensures { BelongsTo set.now result }
{
    let (kept, given) = set.divide(seat);
    let Some(given) = given else {
        panic!(rt; "one part")
    };
    assert_eq!(rt; (kept.weight(), given.weight()), (weight, weight));
    kept
}

// Sees that a seat has one share, which cannot be divided, and gives it back.
fn undivided(rt: &impl Abort, set: &SharedBitSet, seat: Seat) -> Seat
    requires { BelongsTo set.now seat }
    ensures { BelongsTo set.now result }
{
    assert!(rt; seat.weight() == 1);
    let (last, none) = set.divide(seat);
    assert!(rt; none.is_none() && last.weight() == 1 && !last.is_whole());
    last
}

#[test]
fn divided_to_the_last_share(rt: HostRuntime) -> Result<(), AllocError> {
    let (set, seat) = shared(&rt, AtomicBitSet::new(rt.alloc())?);
    let mut first = seat;
    for weight in [
        32768, 16384, 8192, 4096, 2048, 1024, 512, 256, 128, 64, 32, 16, 8, 4, 2, 1,
    ] {
        first = halved(&rt, &set, first, weight);
    }
    let last = undivided(&rt, &set, first);
    assert!(rt; settled(&rt, set, last).is_empty());
    Ok(())
}

// Sees that a set fills a word of layer 3, and has as many members as that word has blocks.
fn assert_one_in_each_block(rt: &impl Abort, set: &AtomicBitSet) {
    assert!(rt; set.layer3(0) == !0);
    assert!(rt; set.len() == 4_096);
}

#[test]
fn a_member_in_each_block(rt: HostRuntime) -> Result<(), AllocError> {
    let mut set = AtomicBitSet::new(rt.alloc())?;
    for block in 0..4_096u32 {
        assert!(rt; !set.add(4_096 * block + 1)?);
    }
    assert_one_in_each_block(&rt, &set);
    let (set, seat) = shared(&rt, set);
    let set = settled(&rt, set, seat);
    assert_one_in_each_block(&rt, &set);
    assert!(rt; set.first() == Some(1) && set.contains(16_773_121));
    Ok(())
}

#[test]
fn a_seat_that_is_dropped(rt: HostRuntime) -> Result<(), AllocError> {
    let (set, mut seat) = shared(&rt, set_of(rt.alloc(), &[7])?);
    assert_new(&rt, &set, &mut seat, 5);
    let (mut a, b) = set.divide(seat);
    let Some(mut b) = b else {
        panic!(rt; "one part")
    };
    assert_new(&rt, &set, &mut b, 9);
    assert!(rt; set.add_atomic(&mut a, 9));
    assert!(rt;
        set.contains(&mut b, 5) && set.contains(&mut b, 7) && !set.contains(&mut a, 16777216)
    );
    drop(b);
    assert!(rt; a.weight() == 32768 && !a.is_whole());
    assert_members(&rt, &settled(&rt, set, a), &[5, 7, 9])
}

// The weights of n seats of a whole one, or none if an allocation failed.
fn weights_among(alloc: Global, n: usize) -> Option<Vec<u32>>
    requires { (0 < n) × (n ≤ SHARES) }
{
    let (set, seat) = AtomicBitSet::new(alloc).ok()?.share().ok()?;
    let seats = set.divide_among(alloc, seat, n).ok()?;
    seats.iter().map(|seat| seat.weight()).collect(alloc).ok()
}

// Sees that n seats of a whole one have these weights.
fn assert_weights(rt: &(impl Abort + AllocGlobal), n: usize, wanted: &[u32])
    requires { (0 < n) × (n ≤ SHARES) }
{
    let weights = weights_among(rt.alloc(), n);
    assert!(rt; weights.is_some_and(|weights| weights.as_slice() == wanted));
}

#[test]
fn divided_among_some(rt: HostRuntime) {
    assert_weights(&rt, 3, &[21_846, 21_845, 21_845]);
    assert_weights(&rt, 7, &[9_363, 9_363, 9_362, 9_362, 9_362, 9_362, 9_362]);
    assert_weights(&rt, 1, &[65_536]);
}

#[test]
fn divided_among_the_most(rt: HostRuntime) {
    let weights = weights_among(rt.alloc(), 65_536);
    assert!(rt;
        weights.is_some_and(|weights| weights.len() == 65_536
            && weights.iter().all(|weight| *weight == 1))
    );
}

#[test]
fn divided_among_as_many_as_it_has_shares(rt: HostRuntime) -> Result<(), AllocError> {
    let (set, seat) = shared(&rt, AtomicBitSet::new(rt.alloc())?);
    let mut eight = seat;
    'halves: for _ in 0..13u32 {
        let (kept, _) = set.divide(eight);
        eight = kept;
    }
    let shares = eight.weight() as usize;
    let Ok(seats) = set.divide_among(rt.alloc(), eight, shares) else {
        panic!(rt; "no memory")
    };
    assert_count(&rt, seats.len(), 8);
    assert!(rt; seats.iter().all(|seat| seat.weight() == 1));
    Ok(())
}

// A seat, and others that are joined to it.
fn joined(set: &SharedBitSet, first: Seat, others: Vec<Seat>) -> Seat
    requires first { BelongsTo set.now first }
    requires others { All (BelongsTo set.now) others.items }
    ensures belongs { BelongsTo set.now result }
    ensures weight { weight_of result ≡ weight_of first + sum_by weight_of others.items }
    ensures reports { reports_of result ≡ reports_of first ++ flat_map reports_of others.items }
{
    let mut all = first;
    'others: for seat in others {
        all = set.join(all, seat);
    }
    all
}

// Divided and joined again, a seat has the weight and the reports that it had.
fn divided_and_joined(set: &SharedBitSet, seat: Seat, n: usize, alloc: Global) -> Option<Seat>
    requires belongs { BelongsTo set.now seat }
    requires n { (0 < n) × (n ≤ weight_of seat) }
    ensures belongs { IfSome result (λ joined. BelongsTo set.now joined) }
    ensures weight { IfSome result (λ joined. weight_of joined ≡ weight_of seat) }
    ensures reports { IfSome result (λ joined. reports_of joined ≡ reports_of seat) }
{
    let Ok(mut seats) = set.divide_among(alloc, seat, n) else {
        return None;
    };
    let first = seats.remove(0);
    Some(joined(set, first, seats))
}

// Each seat adds an index below a thousand.
fn add_with_each(set: &SharedBitSet, seats: &mut Vec<Seat>)
    requires { All (BelongsTo set.now) seats.old.items }
    ensures belongs { All (BelongsTo set.now) seats.new.items }
    ensures number { length seats.new.items ≡ length seats.old.items }
{
    for place in 0..seats.len().min(1000) {
        set.add_atomic(&mut seats[place], place as u32);
    }
}

// A seat that was divided into five, each of which has added an index, and joined again.
fn added_and_joined(rt: &(impl Abort + AllocGlobal), set: &SharedBitSet, seat: Seat) -> Seat
    requires { BelongsTo set.now seat × (weight_of seat ≡ SHARES) }
    ensures { BelongsTo set.now result }
{
    let Ok(mut seats) = set.divide_among(rt.alloc(), seat, 5) else {
        panic!(rt; "no memory")
    };
    add_with_each(set, &mut seats);
    let first = seats.remove(0);
    joined(set, first, seats)
}

#[test]
fn divided_among_and_joined_again(rt: HostRuntime) -> Result<(), AllocError> {
    let (set, mut seat) = shared(&rt, AtomicBitSet::new(rt.alloc())?);
    assert_new(&rt, &set, &mut seat, 70_000);
    let Some(seat) = divided_and_joined(&set, seat, 1_000, rt.alloc()) else {
        panic!(rt; "no memory")
    };
    assert!(rt; seat.is_whole());
    let seat = added_and_joined(&rt, &set, seat);
    assert!(rt; seat.is_whole());
    assert_members(&rt, &settled(&rt, set, seat), &[0, 1, 2, 3, 4, 70_000])
}
