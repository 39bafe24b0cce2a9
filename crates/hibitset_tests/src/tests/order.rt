//! Sets asked by order: places, ranges, the members before an index, and walks from the last member down.
use crate::tests::{assert_count, assert_index, assert_indices, assert_members, assert_that};
use hibitset::{
    BitSet, BitSetAll, BitSetAnd, BitSetLike, BitSetNot, BitSetRange, DrainableBitSet, Index,
    MAX_EID, Ranked,
};
use hibitset_testing::sets::{BORDERS, set_of};
use std::alloc::AllocError;

// How many of some indices lie before another.
fn before(ids: &[Index], end: Index) -> usize {
    let mut count = 0usize;
    for id in ids {
        if *id < end {
            count = count.wrapping_add(1);
        }
    }
    count
}

// The greatest of some ascending indices that lies before another.
fn last_of(ids: &[Index], end: Index) -> Option<Index> {
    let mut last = None;
    for id in ids {
        if *id < end {
            last = Some(*id);
        }
    }
    last
}

// Returns whether all answers at an index are those of a list.
fn answers_at<T: BitSetLike>(set: &T, ids: &[Index], index: Index) -> bool {
    set.rank(index) == before(ids, index)
        && set.last_before(index) == last_of(ids, index)
        && set.len_range(index, Index::MAX) == ids.len().wrapping_sub(before(ids, index))
}

#[test]
fn answers_at_borders(rt: HostRuntime) -> Result<(), AllocError> {
    let set = set_of(rt.alloc(), &BORDERS)?;
    for id in BORDERS {
        assert_that(&rt, answers_at(&set, &BORDERS, id));
        assert_that(&rt, answers_at(&set, &BORDERS, id.saturating_sub(1)));
        assert_that(&rt, answers_at(&set, &BORDERS, id.wrapping_add(1)));
    }
    Ok(())
}

#[test]
fn ranges_of_all(rt: HostRuntime) {
    assert_count(&rt, BitSetAll.len_range(5, 70_005), 70_000);
    assert_count(&rt, BitSetAll.len_range(1, Index::MAX), MAX_EID - 1);
}

// Returns whether a walk down over a set gives some indices from the last on, and no others.
fn gives_down<T: BitSetLike>(set: T, ids: &[Index]) -> bool {
    let mut left = ids.len();
    for index in set.iter_rev() {
        left = left.wrapping_sub(1);
        if ids.get(left).copied() != Some(index) {
            return false;
        }
    }
    left == 0
}

#[test]
fn walks_down_from_borders(rt: HostRuntime) -> Result<(), AllocError> {
    let set = set_of(rt.alloc(), &BORDERS)?;
    assert_that(&rt, gives_down(&set, &BORDERS));
    for id in BORDERS {
        let next = (&set).iter_rev_before(id).next();
        assert_index(&rt, next, last_of(&BORDERS, id));
    }
    Ok(())
}

// Returns whether a set gives the member at each position of a list, and none past its end.
fn gives_by_place<T: BitSetLike>(set: &T, ids: &[Index]) -> bool {
    for place in 0..ids.len() {
        if set.select(place) != ids.get(place).copied() {
            return false;
        }
    }
    set.select(ids.len()).is_none() && set.select(usize::MAX).is_none()
}

#[test]
fn places_of_a_list(rt: HostRuntime) -> Result<(), AllocError> {
    let set = set_of(rt.alloc(), &BORDERS)?;
    assert_that(&rt, gives_by_place(&set, &BORDERS));
    assert_index(&rt, BitSetNot(&set).select(3), Some(4));
    Ok(())
}

#[test]
fn a_list_of_members(rt: HostRuntime) -> Result<(), AllocError> {
    let set = set_of(rt.alloc(), &BORDERS)?;
    let listed = set.to_vec(rt.alloc())?;
    assert_indices(&rt, listed.as_slice(), &BORDERS);
    Ok(())
}

#[test]
fn ranges_as_sets(rt: HostRuntime) -> Result<(), AllocError> {
    let set = set_of(rt.alloc(), &BORDERS)?;
    let range = BitSetRange {
        start: 64,
        end: 4_097,
    };
    assert_members(&rt, &set & range, &[64, 4_095, 4_096]);
    assert_count(&rt, range.len(), 4_033);
    assert_index(&rt, range.first(), Some(64));
    assert_index(&rt, range.last(), Some(4_096));
    assert_members(&rt, BitSetRange { start: 70, end: 65 }, &[]);
    Ok(())
}

#[test]
fn ranges_flipped(rt: HostRuntime) -> Result<(), AllocError> {
    let mut set = set_of(rt.alloc(), &[3, 64, 200])?;
    set.flip_range(62, 67)?;
    assert_members(&rt, &set, &[3, 62, 63, 65, 66, 200]);
    Ok(())
}

#[test]
fn sets_taken_away(rt: HostRuntime) -> Result<(), AllocError> {
    let mut set = set_of(rt.alloc(), &[3, 64, 200, 70_000])?;
    let other = set_of(rt.alloc(), &[64, 65, 70_000])?;
    assert_members(&rt, &set - &other, &[3, 200]);
    set -= &other;
    assert_members(&rt, &set, &[3, 200]);
    assert_members(&rt, other - set, &[64, 65, 70_000]);
    Ok(())
}

// Returns the first and the last member of a set, which are taken out.
fn popped(set: &mut BitSet) -> (Option<Index>, Option<Index>) {
    (set.pop_first(), set.pop_last())
}

// Returns the last member of both, which is taken out of both.
fn popped_from_both(a: &mut BitSet, b: &mut BitSet) -> Option<Index> {
    BitSetAnd(a, b).pop_last()
}

#[test]
fn members_taken_from_the_ends(rt: HostRuntime) -> Result<(), AllocError> {
    let mut set = set_of(rt.alloc(), &[3, 63, 64, 70_000, 300_000])?;
    assert_that(&rt, popped(&mut set) == (Some(3), Some(300_000)));
    let mut other = set_of(rt.alloc(), &[64, 70_000])?;
    assert_index(&rt, popped_from_both(&mut set, &mut other), Some(70_000));
    assert_members(&rt, &set, &[63, 64]);
    assert_members(&rt, &other, &[64]);
    Ok(())
}

// Returns whether counts beside a set give what the list of its members gives at an index and around it.
fn ranks_around<T: BitSetLike>(ranked: &Ranked<T>, ids: &[Index], index: Index) -> bool {
    let below = index.saturating_sub(1);
    let above = index.saturating_add(1);
    ranked.rank(below) == before(ids, below)
        && ranked.rank(index) == before(ids, index)
        && ranked.rank(above) == before(ids, above)
}

// Returns whether counts beside a set give the member at each position of a list, and none past its end.
fn selects_all<T: BitSetLike>(ranked: &Ranked<T>, ids: &[Index]) -> bool {
    for place in 0..ids.len() {
        if ranked.select(place) != ids.get(place).copied() {
            return false;
        }
    }
    ranked.select(ids.len()).is_none() && ranked.select(usize::MAX).is_none()
}

#[test]
fn counts_beside_borders(rt: HostRuntime) -> Result<(), AllocError> {
    let set = set_of(rt.alloc(), &BORDERS)?;
    let ranked = Ranked::new(rt.alloc(), &set)?;
    for id in BORDERS {
        assert_that(&rt, ranks_around(&ranked, &BORDERS, id));
    }
    assert_that(&rt, selects_all(&ranked, &BORDERS));
    assert_that(&rt, ranked.set().contains(64));
    Ok(())
}
