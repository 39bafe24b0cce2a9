//! Which words are read for the last member, the last before an index, the members before one, a walk down, the first
//! gap, and a look for a common member.
use crate::tests::words::{Logging, OVER_64_AND_300000};
use crate::tests::{assert_count, assert_index};
use hibitset::{BitSetAnd, BitSetLike, DrainableBitSet, Index, Ranked};
use std::alloc::AllocError;

#[test]
fn the_last_member(rt: HostRuntime) -> Result<(), AllocError> {
    let set = Logging::over(rt.alloc(), &[64, 300_000])?;
    assert_index(&rt, set.last(), Some(300_000));
    set.assert_read(&rt, &[(4, 0), (3, 0), (2, 1), (1, 73), (0, 4_687)])
}

// To take it out takes one look for it, and so does the first.
#[test]
fn the_ends_that_are_taken_out(rt: HostRuntime) -> Result<(), AllocError> {
    let mut set = Logging::over(rt.alloc(), &[64, 300_000])?;
    assert_index(&rt, set.pop_last(), Some(300_000));
    set.assert_read(&rt, &[(4, 0), (3, 0), (2, 1), (1, 73), (0, 4_687)])?;
    assert_index(&rt, set.pop_first(), Some(64));
    set.assert_read(&rt, &[(4, 0), (3, 0), (2, 0), (1, 0), (0, 1)])?;
    assert_index(&rt, set.pop_last(), None);
    set.assert_read(&rt, &[(4, 0)])?;
    assert_index(&rt, set.pop_first(), None);
    set.assert_read(&rt, &[(4, 0)])
}

// Both have words under the last bits, and no member in common there.
#[test]
fn the_last_member_under_phantoms(rt: HostRuntime) -> Result<(), AllocError> {
    let a = Logging::over(rt.alloc(), &[64, 130, 300_000])?;
    let b = Logging::over(rt.alloc(), &[64, 131, 300_001])?;
    assert_index(&rt, BitSetAnd(&a, &b).last(), Some(64));
    a.assert_read(
        &rt,
        &[
            (4, 0),
            (3, 0),
            (2, 1),
            (1, 73),
            (0, 4_687),
            (2, 0),
            (1, 0),
            (0, 2),
            (0, 1),
        ],
    )
}

#[test]
fn the_first_gap(rt: HostRuntime) -> Result<(), AllocError> {
    let mut ids = Vec::new(rt.alloc());
    for id in 64..200 {
        ids.push(id)?;
    }
    let set = Logging::over(rt.alloc(), ids.as_slice())?;
    assert_index(&rt, set.first_gap(70), Some(200));
    set.assert_read(&rt, &[(0, 1), (0, 2), (0, 3)])
}

#[test]
fn a_common_member(rt: HostRuntime) -> Result<(), AllocError> {
    let a = Logging::over(rt.alloc(), &[64, 300_000])?;
    let b = Logging::over(rt.alloc(), &[65, 200_000])?;
    assert!(rt; a.is_disjoint(&b));
    a.assert_read(&rt, &[(4, 0), (3, 0), (2, 0), (1, 0), (0, 1)])?;
    let c = Logging::over(rt.alloc(), &[64, 200_000])?;
    assert!(rt; !a.is_disjoint(&c));
    c.assert_read(&rt, &[(4, 0), (3, 0), (2, 0), (1, 0), (0, 1)])
}

// Of the other only words of layer 0 are read, since a complement has every bit above.
#[test]
fn a_subset(rt: HostRuntime) -> Result<(), AllocError> {
    let a = Logging::over(rt.alloc(), &[64, 300_000])?;
    let b = Logging::over(rt.alloc(), &[64, 65, 300_000])?;
    assert!(rt; a.is_subset(&b));
    assert_count(&rt, a.read(rt.alloc())?.len(), 8);
    b.assert_read(&rt, &[(0, 1), (0, 4_687)])?;
    assert!(rt; !b.is_subset(&a));
    a.assert_read(&rt, &[(0, 1)])
}

// The way up and the way down again.
#[test]
fn the_last_before(rt: HostRuntime) -> Result<(), AllocError> {
    let set = Logging::over(rt.alloc(), &[64, 300_000])?;
    assert_index(&rt, set.last_before(66), Some(64));
    set.assert_read(&rt, &[(0, 1)])?;
    assert_index(&rt, set.last_before(300_000), Some(64));
    set.assert_read(
        &rt,
        &[(0, 4_687), (1, 73), (2, 1), (3, 0), (2, 0), (1, 0), (0, 1)],
    )?;
    assert_index(&rt, set.last_before(64), None);
    set.assert_read(&rt, &[(0, 1), (1, 0), (2, 0), (3, 0), (4, 0)])
}

// Nine words at most, where no summary bit is set over a zero word.
#[test]
fn the_last_before_a_far_one(rt: HostRuntime) -> Result<(), AllocError> {
    let set = Logging::over(rt.alloc(), &[64, 16_777_216])?;
    assert_index(&rt, set.last_before(16_777_216), Some(64));
    set.assert_read(
        &rt,
        &[
            (0, 262_144),
            (1, 4_096),
            (2, 64),
            (3, 1),
            (4, 0),
            (3, 0),
            (2, 0),
            (1, 0),
            (0, 1),
        ],
    )
}

// No word that begins at the index or after it is read, and none twice.
#[test]
fn the_members_before(rt: HostRuntime) -> Result<(), AllocError> {
    let set = Logging::over(rt.alloc(), &[64, 300_000])?;
    assert_count(&rt, set.rank(65), 1);
    set.assert_read(&rt, &[(0, 1), (1, 0)])?;
    assert_count(&rt, set.rank(300_001), 2);
    set.assert_read(
        &rt,
        &[(0, 4_687), (1, 73), (2, 1), (3, 0), (2, 0), (1, 0), (0, 1)],
    )?;
    assert_count(&rt, set.rank(0), 0);
    set.assert_read(&rt, &[])
}

// Only words that have an index of the range are read, and none twice.
#[test]
fn the_members_of_a_range(rt: HostRuntime) -> Result<(), AllocError> {
    let set = Logging::over(rt.alloc(), &[64, 300_000])?;
    assert_count(&rt, set.len_range(64, 70), 1);
    set.assert_read(&rt, &[(0, 1)])?;
    assert_count(&rt, set.len_range(65, 300_000), 0);
    set.assert_read(&rt, &[(0, 1), (0, 4_687), (1, 0), (1, 73), (2, 0), (2, 1)])?;
    assert_count(&rt, set.len_range(70, 70), 0);
    set.assert_read(&rt, &[])
}

#[test]
fn the_member_at_a_place(rt: HostRuntime) -> Result<(), AllocError> {
    let set = Logging::over(rt.alloc(), &[64, 300_000])?;
    assert_index(&rt, set.select(1), Some(300_000));
    let mut words = set.read(rt.alloc())?;
    assert!(rt; words.pop() == Some((0, 4_687)));
    assert!(rt; words.as_slice() == OVER_64_AND_300000.as_slice());
    Ok(())
}

#[test]
fn a_walk_down(rt: HostRuntime) -> Result<(), AllocError> {
    let set = Logging::over(rt.alloc(), &[64, 130, 300_000])?;
    let mut walk = (&set).iter_rev();
    set.assert_read(&rt, &[(4, 0)])?;
    assert_index(&rt, walk.next(), Some(300_000));
    set.assert_read(&rt, &[(3, 0), (2, 1), (1, 73), (0, 4_687)])?;
    assert_index(&rt, walk.next(), Some(130));
    set.assert_read(&rt, &[(2, 0), (1, 0), (0, 2)])?;
    assert_index(&rt, walk.next(), Some(64));
    set.assert_read(&rt, &[(0, 1)])?;
    assert_index(&rt, walk.next(), None);
    set.assert_read(&rt, &[])
}

#[test]
fn a_walk_down_from_an_index(rt: HostRuntime) -> Result<(), AllocError> {
    let set = Logging::over(rt.alloc(), &[64, 130, 300_000])?;
    let mut walk = (&set).iter_rev_before(300_000);
    set.assert_read(&rt, &[(4, 0), (3, 0), (2, 1), (1, 73), (0, 4_687)])?;
    assert_index(&rt, walk.next(), Some(130));
    set.assert_read(&rt, &[(2, 0), (1, 0), (0, 2)])
}

// A word of layer 1 and the words under it, up to the index. The counts tell which, and those of all are read nowhere.
#[test]
fn counts_beside_a_set(rt: HostRuntime) -> Result<(), AllocError> {
    let set = Logging::over(rt.alloc(), &[64, 300, 300_000])?;
    let ranked = Ranked::new(rt.alloc(), &set)?;
    assert_count(&rt, set.read(rt.alloc())?.len(), 82);
    assert_count(&rt, ranked.rank(301), 2);
    set.assert_read(&rt, &[(0, 4), (1, 0), (0, 1)])?;
    assert_index(&rt, ranked.select(1), Some(300));
    set.assert_read(&rt, &[(1, 0), (0, 1), (0, 4)])?;
    assert_count(&rt, ranked.rank(Index::MAX), 3);
    assert_index(&rt, ranked.select(3), None);
    set.assert_read(&rt, &[])
}
