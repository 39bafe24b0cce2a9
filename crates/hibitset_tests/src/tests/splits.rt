//! Walks that are split, and parts of them.
ghost use Rattle.std.specs.Prelude.{◌≡◌, ◌++◌, ◌<◌, length, IfOk, IfSome};
ghost use Rattle.hibitset_base.specs.Members.{members_below};
ghost use Rattle.hibitset_base.specs.Splits.{part_items, items_of_second};
ghost use Rattle.hibitset_base.specs.declared.util.TheConstants.{MAX_EID};

use crate::tests::{assert_count, assert_that};
use hibitset::laws::laws;
use hibitset::{BitIter, BitProducer, BitSet, BitSetLike, Index};
use hibitset_base::util::{LAYERS, MAX_EID, average_ones};
use hibitset_testing::parts::parts_to_the_end;
use hibitset_testing::sets::{run_of, set_of};
use std::alloc::{AllocError, Global};

#[test]
fn halving_bits(rt: HostRuntime) {
    for (word, half) in [
        (0b10110, Some(4)),
        (0b100010, Some(5)),
        (0, None),
        (1, None),
        (!0, Some(32)),
        ((1 << 63) + 1, Some(63)),
    ] {
        assert_that(&rt, average_ones(word) == half);
    }
}

#[test]
fn splitting_to_the_end(rt: HostRuntime) -> Result<(), AllocError> {
    let set = run_of(rt.alloc(), 524_288)?;
    for (layers, parts) in [(4, 8192), (3, 128), (2, 2), (1, 1), (0, 1)] {
        assert_count(&rt, parts_to_the_end(rt.alloc(), &set, layers)?, parts);
    }
    Ok(())
}

// Returns whether the two parts of a walk that has given some items already give these indices. There is no second part
// where none are named.
fn gives_parts(
    set: &BitSet,
    steps: usize,
    layers: u8,
    low: &[Index],
    high: Option<&[Index]>,
) -> bool {
    let mut walk = set.iter();
    for _ in 0..steps {
        walk.next();
    }
    if layers as usize >= LAYERS {
        return false;
    }
    let (first, second) = BitProducer(walk, layers).split();
    let is_second = match (second, high) {
        (None, None) => true,
        (Some(part), Some(ids)) => is_rest(part.0, ids),
        _ => false,
    };
    is_second && is_rest(first.0, low)
}

// Returns whether a walk goes on with these indices, and ends then.
fn is_rest<'a>(walk: BitIter<&'a BitSet>, ids: &[Index]) -> bool {
    let mut walk = walk;
    for id in ids {
        if walk.next() != Some(*id) {
            return false;
        }
    }
    walk.next().is_none()
}

#[test]
fn a_walk_already_begun(rt: HostRuntime) -> Result<(), AllocError> {
    let set = set_of(rt.alloc(), &[0, 64, 262_144])?;
    assert_that(&rt, gives_parts(&set, 1, 4, &[64, 262_144], None));
    Ok(())
}

#[test]
fn walks_in_strange_states(rt: HostRuntime) -> Result<(), AllocError> {
    let set = set_of(rt.alloc(), &[0, 1, 64, 128])?;
    assert_that(&rt, gives_parts(&set, 1, 4, &[1, 64, 128], None));
    assert_that(&rt, gives_parts(&set, 2, 4, &[64], Some(&[128])));
    assert_that(&rt, gives_parts(&set, 3, 4, &[128], None));
    assert_that(&rt, gives_parts(&set, 2, 1, &[64, 128], None));
    assert_that(&rt, gives_parts(&set, 2, 0, &[64, 128], None));
    Ok(())
}

// The items of a part that may be there.
fn list_of<'a, T: BitSetLike + Send + Sync>(
    alloc: Global,
    part: Option<BitProducer<'a, T>>,
) -> Result<Vec<Index>, AllocError>
    ensures { IfOk result (λ list. list.items ≡ items_of_second T.holds part.entry) }
{
    let mut list = Vec::new(alloc);
    let Some(part) = part else {
        return Ok(list);
    };
    for index in part.0 {
        list.push(index)?;
    }
    Ok(list)
}

// The members of a set in three lists, of which the first two come from one part of it.
struct Thirds {
    low: Vec<Index>,
    middle: Vec<Index>,
    high: Vec<Index>,
}

fn in_thirds<T: BitSetLike + Send + Sync>(alloc: Global, set: &T) -> Result<Thirds, AllocError>
    ensures { IfOk result (λ thirds. thirds.low.items ++ thirds.middle.items ++ thirds.high.items
        ≡ members_below MAX_EID (T.holds set.now)) }
{
    let whole = BitProducer(set.iter(), 4);
    let (lower, high) = whole.split();
    let (low, middle) = lower.split();
    Ok(Thirds {
        low: list_of(alloc, Some(low))?,
        middle: list_of(alloc, middle)?,
        high: list_of(alloc, high)?,
    })
}

// Two parts of a set: neither is empty, where there is a second one.
fn halves<'a>(set: &'a BitSet) -> (BitProducer<'a, BitSet>, Option<BitProducer<'a, BitSet>>)
    ensures { IfSome result.1 (λ other.
        (0 < length (part_items ⟦<BitSet as BitSetLike>⟧.holds result.0))
        × (0 < length (part_items ⟦<BitSet as BitSetLike>⟧.holds other))) }
{
    laws();
    BitProducer(set.iter(), 4).split()
}

// Returns whether a set in thirds gives these lists.
fn gives_thirds(alloc: Global, set: &BitSet, lists: [&[Index]; 3]) -> Result<bool, AllocError> {
    let Thirds { low, middle, high } = in_thirds(alloc, set)?;
    Ok(low.as_slice() == lists[0] && middle.as_slice() == lists[1] && high.as_slice() == lists[2])
}

// Returns whether there are two parts of a set.
fn has_two_halves(set: &BitSet) -> bool {
    let (_first, second) = halves(set);
    second.is_some()
}

#[test]
fn parts_of_callers(rt: HostRuntime) -> Result<(), AllocError> {
    let set = set_of(rt.alloc(), &[0, 64, 4_096, 262_144])?;
    let lists: [&[Index]; 3] = [&[0, 64], &[4_096], &[262_144]];
    assert_that(&rt, gives_thirds(rt.alloc(), &set, lists)?);
    assert_that(&rt, has_two_halves(&set));
    Ok(())
}
