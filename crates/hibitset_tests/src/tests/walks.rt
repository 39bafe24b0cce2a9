//! Walks, drains and virtual sets over sets that keep their words.
ghost use Rattle.std.specs.Prelude.{◌≡◌, ◌≤◌, ℕ, length, min};
ghost use Rattle.hibitset_base.specs.WordsRead.{AreBoundByMembers, words_in};
ghost use Rattle.hibitset_base.specs.Walk.{words_read, words_ahead};
ghost use Rattle.hibitset_base.specs.declared.util.TheConstants.{LAYERS};
ghost use Rattle.hibitset.specs.BitSet.{has, members_of};
ghost use Rattle.hibitset.specs.Laws.{intersection_word};

use crate::tests::{
    assert_count, assert_index, assert_indices, assert_members, assert_that, every_second, gives,
};
use hibitset::laws::laws;
use hibitset::{
    BitIter, BitSet, BitSetAll, BitSetAnd, BitSetLike, BitSetNot, BitSetOr, BitSetXor,
    DrainableBitSet, Index,
};
use hibitset_base::util::LAYERS;
use hibitset_testing::sets::set_of;
use std::alloc::AllocError;

#[test]
fn three_operators(rt: HostRuntime) -> Result<(), AllocError> {
    let a = set_of(rt.alloc(), &[1, 3, 5, 15, 200, 50001])?;
    let b = set_of(rt.alloc(), &[1, 3, 50000, 50001])?;
    let either = [1, 3, 5, 15, 200, 50000, 50001];
    assert_members(&rt, &a | &b, &either);
    assert_members(&rt, &a & &b, &[1, 3, 50001]);
    assert_members(&rt, &a ^ &b, &[5, 15, 200, 50000]);
    assert_members(&rt, (&a | &b).clone()?, &either);
    Ok(())
}

#[test]
fn a_set_without_itself(rt: HostRuntime) -> Result<(), AllocError> {
    let a = set_of(rt.alloc(), &[1, 3, 5, 15, 200, 50001])?;
    let none = &a & !&a;
    assert_that(&rt, none.is_empty());
    assert_count(&rt, none.layer4(), 1);
    assert_members(&rt, none, &[]);
    Ok(())
}

#[test]
fn exclusive_or(rt: HostRuntime) -> Result<(), AllocError> {
    let a = set_of(rt.alloc(), &[2, 3, 50000])?;
    let b = set_of(rt.alloc(), &[1, 3, 50000, 50001])?;
    assert_members(&rt, BitSetXor(&a, &b), &[1, 2, 50001]);
    Ok(())
}

// Returns whether a set begins with so many even numbers.
fn begins_even<T: BitSetLike>(set: T, count: usize) -> bool {
    let mut next = 0u32;
    for index in set.iter().take(count) {
        if index != next {
            return false;
        }
        next = next.wrapping_add(2);
    }
    next as usize == count.wrapping_mul(2)
}

#[test]
fn the_complement_of_the_odd_numbers(rt: HostRuntime) -> Result<(), AllocError> {
    let odd = every_second(rt.alloc(), 1, 5_000)?;
    let even = BitSetNot(&odd);
    assert_that(&rt, even.contains(1073741824));
    assert_that(&rt, begins_even(&even, 5_000));
    Ok(())
}

#[test]
fn all_indices(rt: HostRuntime) {
    let mut walk = BitSetAll.iter();
    assert_index(&rt, walk.next(), Some(0));
    assert_index(&rt, walk.next(), Some(1));
    assert_index(&rt, walk.next(), Some(2));
    assert_that(&rt, BitSetAll.contains(1073741824));
}

// Returns what a drain gives that is dropped after three items.
fn first_three(set: &mut BitSet) -> [Option<Index>; 3] {
    let mut drain = set.drain();
    [drain.next(), drain.next(), drain.next()]
}

#[test]
fn drains_of_the_even_numbers(rt: HostRuntime) -> Result<(), AllocError> {
    let mut even = every_second(rt.alloc(), 0, 5_000)?;
    assert_that(&rt, first_three(&mut even) == [Some(0), Some(2), Some(4)]);
    assert_count(&rt, (&even).iter().count(), 4997);
    assert_count(&rt, even.drain().count(), 4997);
    assert_that(&rt, even.is_empty());
    Ok(())
}

// Takes an index out of two sets, where both have it.
fn remove_from_both(a: &mut BitSet, b: &mut BitSet, id: Index) -> bool {
    BitSetAnd(a, b).remove(id)
}

// Takes an index out of two sets, where one of them has it.
fn remove_from_either(a: &mut BitSet, b: &mut BitSet, id: Index) -> bool {
    BitSetOr(a, b).remove(id)
}

// Returns whether two sets have these members.
fn have(a: &BitSet, b: &BitSet, ours: &[Index], theirs: &[Index]) -> bool {
    gives(a, ours) && gives(b, theirs)
}

#[test]
fn removing_from_both_or_either(rt: HostRuntime) -> Result<(), AllocError> {
    let mut a = set_of(rt.alloc(), &[1, 2])?;
    let mut b = set_of(rt.alloc(), &[2, 3])?;
    assert_that(&rt, !remove_from_both(&mut a, &mut b, 1));
    assert_that(&rt, have(&a, &b, &[1, 2], &[2, 3]));
    assert_that(&rt, remove_from_both(&mut a, &mut b, 2));
    assert_that(&rt, have(&a, &b, &[1], &[3]));
    assert_that(&rt, remove_from_either(&mut a, &mut b, 3));
    assert_that(&rt, !remove_from_either(&mut a, &mut b, 9));
    assert_that(&rt, have(&a, &b, &[1], &[]));
    Ok(())
}

// Returns whether a full drain of a set gives these indices.
fn drains<T: DrainableBitSet>(set: &mut T, ids: &[Index]) -> bool {
    let mut place = 0usize;
    for index in set.drain() {
        if ids.get(place).copied() != Some(index) {
            return false;
        }
        place = place.wrapping_add(1);
    }
    place == ids.len()
}

#[test]
fn full_drains(rt: HostRuntime) -> Result<(), AllocError> {
    let mut a = set_of(rt.alloc(), &[1, 2])?;
    let mut b = set_of(rt.alloc(), &[2, 3])?;
    assert_that(&rt, drains(&mut BitSetAnd(&mut a, &mut b), &[2]));
    assert_that(&rt, have(&a, &b, &[1], &[3]));
    let mut a = set_of(rt.alloc(), &[1, 2])?;
    let mut b = set_of(rt.alloc(), &[2, 3])?;
    assert_that(&rt, drains(&mut BitSetOr(&mut a, &mut b), &[1, 2, 3]));
    assert_that(&rt, have(&a, &b, &[], &[]));
    Ok(())
}

// Returns the next two items of a walk, and whether it ends then.
fn last_two<'a>(walk: BitIter<&'a BitSet>) -> (Option<Index>, Option<Index>, bool) {
    let mut walk = walk;
    (walk.next(), walk.next(), walk.next().is_none())
}

#[test]
fn a_walk_and_its_copy(rt: HostRuntime) -> Result<(), AllocError> {
    let a = set_of(rt.alloc(), &[1, 3, 70])?;
    let mut walk = (&a).iter();
    assert_index(&rt, walk.next(), Some(1));
    assert_that(&rt, walk.contains(1));
    let rest = (Some(3), Some(70), true);
    assert_that(&rt, last_two(walk.clone()?) == rest);
    assert_that(&rt, last_two(walk) == rest);
    Ok(())
}

// The sum of the members of a set that is given up, which wraps.
fn added_up(set: BitSet) -> u32 {
    let mut total = 0u32;
    for index in set {
        total = total.wrapping_add(index);
    }
    total
}

#[test]
fn walks_by_value(rt: HostRuntime) -> Result<(), AllocError> {
    let mut a = set_of(rt.alloc(), &[1, 3, 70])?;
    assert_that(&rt, (&mut a).remove(3));
    assert_that(&rt, added_up(a) == 71);
    Ok(())
}

// A walk over an intersection, whose words all lie over members of the first set, and are at most four for each: in
// each layer at most as many as the smaller set has members.
fn walk_both<'a>(a: &'a BitSet, b: &'a BitSet) -> BitIter<BitSetAnd<&'a BitSet, &'a BitSet>>
    ensures read { words_read result ≡ 1 }
    ensures bound { AreBoundByMembers LAYERS (has a.now)
        (words_ahead (λ both. intersection_word both.0.now both.1.now) result) }
    ensures each { (l : ℕ) → words_in l
        (words_ahead (λ both. intersection_word both.0.now both.1.now) result)
        ≤ min (length (members_of a.now)) (length (members_of b.now)) }
{
    laws();
    (a & b).iter()
}

#[test]
fn a_walk_over_both(rt: HostRuntime) -> Result<(), AllocError> {
    let a = set_of(rt.alloc(), &[3, 70])?;
    let b = set_of(rt.alloc(), &[70, 71])?;
    let both: Vec<u32> = walk_both(&a, &b).collect(rt.alloc())?;
    assert_indices(&rt, both.as_slice(), &[70]);
    Ok(())
}
