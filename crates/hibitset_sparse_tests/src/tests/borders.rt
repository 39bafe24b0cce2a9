//! The first and the last places of tables, full tables, and parts of a set that are emptied and filled again.
use crate::tests::{
    BORDERS, agree, agree_at, both_of, dense_of, has_exactly, is_empty_at, sparse_of,
};
use hibitset::{BitSet, BitSetLike, Index, MAX_EID};
use hibitset_sparse::SparseBitSet;
use std::alloc::{AllocError, Global};
use std::test::Fail;

// Takes an index out, once and once more, and returns whether it was there the first time, and nothing is left then.
fn loses(set: &mut SparseBitSet, id: Index) -> bool {
    set.remove(id) && !set.remove(id) && is_empty_at(set, &BORDERS)
}

// Returns whether a set of one index has that one alone, and nothing after it is taken out.
fn has_one_alone(alloc: Global, id: Index) -> Result<bool, AllocError> {
    let (mut set, dense) = both_of(alloc, &[id])?;
    let is_there = set.first() == Some(id) && set.last() == Some(id);
    Ok(is_there && agree(alloc, &set, &dense, &BORDERS)? && loses(&mut set, id))
}

// Returns whether these indices are not there, and so can't be taken out.
fn lacks(set: &mut SparseBitSet, ids: &[Index]) -> bool {
    for id in ids {
        if set.contains(*id) || set.remove(*id) {
            return false;
        }
    }
    true
}

#[test]
fn each_border_alone(rt: HostRuntime) -> Result<(), Fail> {
    for id in BORDERS {
        assert!(rt; has_one_alone(rt.alloc(), id)?);
    }
    let mut set = sparse_of(rt.alloc(), &BORDERS)?;
    assert!(rt; lacks(&mut set, &[1_073_741_824, 2_147_483_648, Index::MAX]));
    Ok(())
}

// Places of a table, at the borders of its groups and within: ascending, descending, and from the middle outwards.
const UPWARD: [Index; 8] = [0, 1, 63, 64, 65, 2_000, 4_032, 4_095];

const DOWNWARD: [Index; 8] = [4_095, 4_032, 2_000, 65, 64, 63, 1, 0];

const OUTWARD: [Index; 8] = [64, 65, 63, 2_000, 1, 4_032, 0, 4_095];

// Adds indices `step` apart to both sets, one after the other, and returns whether these agree after each.
fn grow_alike(
    sparse: &mut SparseBitSet,
    dense: &mut BitSet,
    places: &[Index],
    step: Index,
) -> Result<bool, AllocError> {
    for place in places {
        let id = place.wrapping_mul(step);
        if (id as usize) >= MAX_EID || sparse.add(id)? || dense.add(id)? {
            return Ok(false);
        }
        if !agree_at(sparse, dense, &[id, 0, 64, 4_096, 262_144]) {
            return Ok(false);
        }
    }
    Ok(true)
}

// Takes indices `step` apart out of both sets, one after the other, and returns whether these agree after each.
fn shrink_alike(
    sparse: &mut SparseBitSet,
    dense: &mut BitSet,
    places: &[Index],
    step: Index,
) -> bool {
    for place in places {
        let id = place.wrapping_mul(step);
        if !sparse.remove(id) || !dense.remove(id) {
            return false;
        }
        if !agree_at(sparse, dense, &[id, 0, 64, 4_096, 262_144]) {
            return false;
        }
    }
    true
}

// Returns whether places that are added in one order and taken out in another agree with those of a dense set.
fn change_in_orders(
    alloc: Global,
    step: Index,
    added: &[Index],
    removed: &[Index],
) -> Result<bool, AllocError> {
    let mut sparse = SparseBitSet::new(alloc);
    let mut dense = BitSet::new(alloc);
    let have_grown = grow_alike(&mut sparse, &mut dense, added, step)?;
    let agree_full = agree(alloc, &sparse, &dense, &BORDERS)?;
    let have_shrunk = shrink_alike(&mut sparse, &mut dense, removed, step);
    Ok(have_grown && agree_full && have_shrunk && is_empty_at(&sparse, &BORDERS))
}

// Words of a chunk, and chunks of a set.
#[test]
fn places_in_any_order(rt: HostRuntime) -> Result<(), Fail> {
    for added in [&UPWARD, &DOWNWARD, &OUTWARD] {
        for removed in [&UPWARD, &DOWNWARD, &OUTWARD] {
            assert!(rt; change_in_orders(rt.alloc(), 64, added, removed)?);
        }
    }
    for (added, removed) in [
        (&UPWARD, &DOWNWARD),
        (&DOWNWARD, &OUTWARD),
        (&OUTWARD, &UPWARD),
    ] {
        assert!(rt; change_in_orders(rt.alloc(), 262_144, added, removed)?);
    }
    Ok(())
}

// One index under each of 4,096 places that lie `step` apart, from `first` on, in ascending order.
fn one_at_each_place(alloc: Global, first: Index, step: Index) -> Result<Vec<Index>, AllocError> {
    let mut ids = Vec::new(alloc);
    for place in 0..4_096u32 {
        ids.push(place.wrapping_mul(step).wrapping_add(first))?;
    }
    Ok(ids)
}

// Adds indices, the last one first.
fn add_downward(set: &mut SparseBitSet, ids: &[Index]) -> Result<(), AllocError> {
    for id in ids.iter().rev() {
        if (*id as usize) < MAX_EID {
            set.add(*id)?;
        }
    }
    Ok(())
}

// Takes the last index out, one in the middle and the first one, and returns whether the others are left.
fn leaves_all_but_three(
    alloc: Global,
    set: &mut SparseBitSet,
    ids: &[Index],
) -> Result<bool, AllocError> {
    let mut left = Vec::from_slice(alloc, ids)?;
    for at in [4_095, 2_048, 0] {
        if at >= left.len() || !set.remove(left[at]) {
            return Ok(false);
        }
        left.remove(at);
    }
    has_exactly(alloc, set, &left)
}

// Takes all indices out, those side by side far from one another, and returns whether the set is empty then, and not
// before.
fn is_emptied_at_last(set: &mut SparseBitSet, ids: &[Index]) -> bool {
    let mut at = 0usize;
    for _ in 0..ids.len() {
        if at >= ids.len() || set.is_empty() {
            return false;
        }
        set.remove(ids[at]);
        at = at.wrapping_add(1_597) % 4_096;
    }
    is_empty_at(set, ids)
}

// A set of these indices, of which the last one is added first.
fn filled(alloc: Global, ids: &[Index]) -> Result<SparseBitSet, AllocError> {
    let mut set = SparseBitSet::new(alloc);
    add_downward(&mut set, ids)?;
    Ok(set)
}

// Returns whether a set agrees with the dense one of these indices.
fn is_full(alloc: Global, set: &SparseBitSet, ids: &[Index]) -> Result<bool, AllocError> {
    let dense = dense_of(alloc, ids)?;
    Ok(agree_at(set, &dense, &BORDERS) && agree(alloc, set, &dense, ids)?)
}

// Returns whether a set of an index under each place is full, and emptied place by place.
fn is_filled_and_emptied(alloc: Global, first: Index, step: Index) -> Result<bool, AllocError> {
    let ids = one_at_each_place(alloc, first, step)?;
    let mut set = filled(alloc, &ids)?;
    Ok(
        is_full(alloc, &set, &ids)?
            && leaves_all_but_three(alloc, &mut set, &ids)?
            && is_emptied_at_last(&mut set, &ids),
    )
}

// A chunk of all its words, and a set of all its chunks.
#[test]
fn all_places_of_a_table(rt: HostRuntime) -> Result<(), Fail> {
    for (first, step) in [(262_144, 64), (262_143, 262_144)] {
        assert!(rt; is_filled_and_emptied(rt.alloc(), first, step)?);
    }
    Ok(())
}

// Takes indices out, and returns whether all were there.
fn remove_all(set: &mut SparseBitSet, ids: &[Index]) -> bool {
    for id in ids {
        if !set.remove(*id) {
            return false;
        }
    }
    true
}

// The dense set of both lists.
fn dense_of_both(alloc: Global, ids: &[Index], others: &[Index]) -> Result<BitSet, AllocError> {
    let mut set = dense_of(alloc, ids)?;
    for id in others {
        if (*id as usize) < MAX_EID {
            set.add(*id)?;
        }
    }
    Ok(set)
}

// Adds indices to a set and takes them out, and returns whether it agrees with the dense sets with and without them.
fn is_filled_and_as_before(
    alloc: Global,
    set: &mut SparseBitSet,
    with: &BitSet,
    without: &BitSet,
    others: &[Index],
) -> Result<bool, AllocError> {
    add_downward(set, others)?;
    Ok(
        agree(alloc, set, with, others)?
            && remove_all(set, others)
            && agree(alloc, set, without, others)?,
    )
}

// Returns whether a set that has `kept` has them alone each time that other indices were added and taken out.
fn is_filled_again(alloc: Global, kept: &[Index], others: &[Index]) -> Result<bool, AllocError> {
    let (mut set, without) = both_of(alloc, kept)?;
    let with = dense_of_both(alloc, kept, others)?;
    Ok(
        is_filled_and_as_before(alloc, &mut set, &with, &without, others)?
            && is_filled_and_as_before(alloc, &mut set, &with, &without, others)?,
    )
}

// A group, a chunk, and the whole set.
#[test]
fn what_was_emptied_is_filled_again(rt: HostRuntime) -> Result<(), Fail> {
    let rows: [(&[Index], &[Index]); 3] = [
        (
            &[0, 16_384, 20_479, 24_576, 262_143],
            &[20_480, 20_543, 20_544, 22_000, 24_511, 24_575],
        ),
        (
            &[0, 262_143, 524_288, 16_777_216],
            &[262_144, 262_208, 266_240, 400_000, 524_287],
        ),
        (&[], &BORDERS),
    ];
    for (kept, others) in rows {
        assert!(rt; is_filled_again(rt.alloc(), kept, others)?);
    }
    Ok(())
}

// A set that was cleared is as a new one.
#[test]
fn a_cleared_set_is_filled_again(rt: HostRuntime) -> Result<(), Fail> {
    let mut set = sparse_of(rt.alloc(), &BORDERS)?;
    set.clear();
    assert!(rt; is_empty_at(&set, &BORDERS));
    add_downward(&mut set, &BORDERS)?;
    assert!(rt; has_exactly(rt.alloc(), &set, &BORDERS)?);
    Ok(())
}
