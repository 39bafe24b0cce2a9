//! Sparse sets. Most tests are one call of a function that several share, with what is to stand then.
use crate::tests::{
    Drawn, ask, assert_has, assert_indices, assert_way, is_refused_there, say, way,
};
use hibitset::{BitSetLike, BuildError, Index, MAX_EID};
use hibitset_sparse::SparseBitSet;
use std::alloc::{AllocError, AllocGlobal, Global};
use std::io::Print;
use std::process::Abort;

// An index in a chunk far from those of the sets.
const FAR: Index = 20_000_000;

// The words on the way to it where a set has members in the first 64 chunks alone.
const UPPER: [usize; 5] = [1, 0, 0, 0, 0];

// The sparse set of these indices, those out of range left out.
fn sparse_of(alloc: Global, ids: &[Index]) -> Result<SparseBitSet, AllocError> {
    let mut set = SparseBitSet::new(alloc);
    for id in ids {
        if (*id as usize) < MAX_EID {
            set.add(*id)?;
        }
    }
    Ok(set)
}

// A call that adds to a set what it does not have: an index, the last word of a chunk and the first of the next one,
// each with one index, 19,999,999 and 20,000,000, or members of another set.
#[derive(Clone, Copy)]
enum Call {
    Add(Index),
    AddWords,
    AddRange,
    FlipRange,
    BitorAssign,
    BitxorAssign,
    UnionWith,
    SymmetricDifferenceWith,
}

// Makes a call, and returns whether it was refused.
fn is_refused(set: &mut SparseBitSet, other: &SparseBitSet, call: Call) -> bool {
    match call {
        Call::Add(id) => (id as usize) < MAX_EID && set.add(id) != Ok(false),
        Call::AddWords => set.add_words(4_095, &[1, 1]).is_err(),
        Call::AddRange => set.add_range(FAR - 1, FAR + 1).is_err(),
        Call::FlipRange => set.flip_range(FAR - 1, FAR + 1).is_err(),
        Call::BitorAssign => set.bitor_assign(other).is_err(),
        Call::BitxorAssign => set.bitxor_assign(other).is_err(),
        Call::UnionWith => set.union_with(other).is_err(),
        Call::SymmetricDifferenceWith => set.symmetric_difference_with(other).is_err(),
    }
}

// What a call does to a set, with another set: what the set has before, after it was refused, and after the call was
// made. Refused, the words on the way to an index are these, if any.
#[derive(Clone, Copy)]
struct Growth<'a> {
    call: Call,
    before: &'a [Index],
    other: &'a [Index],
    refused: &'a [Index],
    id: Index,
    words: &'a [usize],
    after: &'a [Index],
}

// Sees that a set is as a call that was refused leaves it.
fn assert_refused(rt: &impl Abort, set: &SparseBitSet, growth: &Growth) {
    assert_has(rt, set, growth.refused);
    let words = growth.words;
    assert!(rt; words.is_empty() || way(set, growth.id).as_slice() == words);
}

// Makes a call on a set, and again where it was refused.
fn assert_grows(
    rt: &(impl Abort + Print + AllocGlobal),
    growth: &Growth,
) -> Result<(), AllocError> {
    let mut set = sparse_of(rt.alloc(), growth.before)?;
    let other = sparse_of(rt.alloc(), growth.other)?;
    let refused = tried!(rt, is_refused(&mut set, &other, growth.call), |it| it);
    if refused {
        assert_refused(rt, &set, growth);
        assert!(rt; !is_refused(&mut set, &other, growth.call));
    }
    assert_has(rt, &set, growth.after);
    assert_has(rt, &other, growth.other);
    Ok(())
}

// Adds an index to a set, which is as before where that was refused.
fn assert_adds(
    rt: &(impl Abort + Print + AllocGlobal),
    id: Index,
    before: &[Index],
    words: &[usize],
    after: &[Index],
) -> Result<(), AllocError> {
    let growth = Growth {
        call: Call::Add(id),
        before,
        other: &[],
        refused: before,
        id,
        words,
        after,
    };
    assert_grows(rt, &growth)
}

// allocates: 4, 384 bytes: hibitset_sparse::SparseBitSet::add
#[test]
fn add_to_an_empty_set(rt: HostRuntime) -> Result<(), AllocError> {
    assert_adds(&rt, 5, &[], &[0; 5], &[5])
}

// allocates: 3, 544 bytes: hibitset_sparse::SparseBitSet::add
#[test]
fn add_a_chunk(rt: HostRuntime) -> Result<(), AllocError> {
    let after = [5, 300_000, 600_000, 900_000, FAR];
    assert_adds(&rt, FAR, &[5, 300_000, 600_000, 900_000], &UPPER, &after)
}

// allocates: 2, 192 bytes: hibitset_sparse::SparseBitSet::add
#[test]
fn add_a_group(rt: HostRuntime) -> Result<(), AllocError> {
    let words = [1, 1, 15, 0, 0];
    let after = [5, 5_000, 10_000, 15_000, 20_000];
    assert_adds(&rt, 20_000, &[5, 5_000, 10_000, 15_000], &words, &after)
}

// allocates: 1, 64 bytes: hibitset_sparse::SparseBitSet::add
#[test]
fn add_a_word(rt: HostRuntime) -> Result<(), AllocError> {
    let words = [1, 1, 1, 15, 0];
    assert_adds(
        &rt,
        260,
        &[5, 70, 130, 200],
        &words,
        &[5, 70, 130, 200, 260],
    )
}

// The groups and the words of a chunk that is new. Where one failed, the word before it is added.
// allocates: 2, 96 bytes: hibitset_sparse::SparseBitSet::add_words
#[test]
fn add_words(rt: HostRuntime) -> Result<(), AllocError> {
    let growth = Growth {
        call: Call::AddWords,
        before: &[5],
        other: &[],
        refused: &[5, 262_080],
        id: 0,
        words: &[],
        after: &[5, 262_080, 262_144],
    };
    assert_grows(&rt, &growth)
}

// allocates: 6, 672 bytes: hibitset_sparse::SparseBitSet::add_range
#[test]
fn add_range(rt: HostRuntime) -> Result<(), AllocError> {
    let growth = Growth {
        call: Call::AddRange,
        before: &[5],
        other: &[],
        refused: &[5],
        id: FAR,
        words: &UPPER,
        after: &[5, FAR - 1, FAR],
    };
    assert_grows(&rt, &growth)
}

// allocates: 6, 672 bytes: hibitset_sparse::SparseBitSet::flip_range
#[test]
fn flip_range(rt: HostRuntime) -> Result<(), AllocError> {
    let growth = Growth {
        call: Call::FlipRange,
        before: &[5],
        other: &[],
        refused: &[5],
        id: FAR,
        words: &UPPER,
        after: &[5, FAR - 1, FAR],
    };
    assert_grows(&rt, &growth)
}

// One chunk is in both sets, and one is new.
// allocates: 10, 864 bytes: hibitset_sparse::SparseBitSet::bitor_assign
#[test]
fn bitor_assign(rt: HostRuntime) -> Result<(), AllocError> {
    let growth = Growth {
        call: Call::BitorAssign,
        before: &[5],
        other: &[64, FAR],
        refused: &[5],
        id: FAR,
        words: &UPPER,
        after: &[5, 64, FAR],
    };
    assert_grows(&rt, &growth)
}

// One chunk is emptied, and one is new.
// allocates: 10, 864 bytes: hibitset_sparse::SparseBitSet::bitxor_assign
#[test]
fn bitxor_assign(rt: HostRuntime) -> Result<(), AllocError> {
    let growth = Growth {
        call: Call::BitxorAssign,
        before: &[5, 300_000],
        other: &[5, FAR],
        refused: &[5, 300_000],
        id: FAR,
        words: &UPPER,
        after: &[300_000, FAR],
    };
    assert_grows(&rt, &growth)
}

// allocates: 8, 696 bytes: hibitset_sparse::SparseBitSet::union_with
#[test]
fn union_with(rt: HostRuntime) -> Result<(), AllocError> {
    let growth = Growth {
        call: Call::UnionWith,
        before: &[5, 70],
        other: &[6, FAR],
        refused: &[5, 70],
        id: 0,
        words: &[],
        after: &[5, 6, 70, FAR],
    };
    assert_grows(&rt, &growth)
}

// The set has a chunk in the place of each that is made, so its list of chunks stays.
// allocates: 4, 384 bytes: hibitset_sparse::SparseBitSet::union_with
#[test]
fn union_within_own_chunks(rt: HostRuntime) -> Result<(), AllocError> {
    let growth = Growth {
        call: Call::UnionWith,
        before: &[5, 70],
        other: &[6],
        refused: &[5, 70],
        id: 0,
        words: &[],
        after: &[5, 6, 70],
    };
    assert_grows(&rt, &growth)
}

// allocates: 8, 696 bytes: hibitset_sparse::SparseBitSet::symmetric_difference_with
#[test]
fn symmetric_difference_with(rt: HostRuntime) -> Result<(), AllocError> {
    let growth = Growth {
        call: Call::SymmetricDifferenceWith,
        before: &[5, 70],
        other: &[5, FAR],
        refused: &[5, 70],
        id: 0,
        words: &[],
        after: &[70, FAR],
    };
    assert_grows(&rt, &growth)
}

// A call that takes members out of a set: those that another set lacks or has, or those from 70 to 1,000,000.
#[derive(Clone, Copy)]
enum Removal {
    BitandAssign,
    SubtractAssign,
    RemoveRange,
}

fn remove(set: &mut SparseBitSet, other: &SparseBitSet, removal: Removal) {
    match removal {
        Removal::BitandAssign => *set &= other,
        Removal::SubtractAssign => set.subtract_assign(other),
        Removal::RemoveRange => set.remove_range(70, 1_000_000),
    }
}

// Takes members out of {5, 70, 300,000, FAR}, and sees that these are left.
fn assert_removes(
    rt: &(impl Abort + Print + AllocGlobal),
    removal: Removal,
    other: &[Index],
    left: &[Index],
) -> Result<(), AllocError> {
    let mut set = sparse_of(rt.alloc(), &[5, 70, 300_000, FAR])?;
    let other = sparse_of(rt.alloc(), other)?;
    ask(rt);
    remove(&mut set, &other, removal);
    assert!(rt; set.len() == left.len());
    ask(rt);
    assert_way(rt, &set, left, 300_000, [3, 1, 0, 0, 0]);
    Ok(())
}

// allocates: none
#[test]
fn bitand_assign(rt: HostRuntime) -> Result<(), AllocError> {
    assert_removes(&rt, Removal::BitandAssign, &[70, 600_000, FAR], &[70, FAR])
}

// allocates: none
#[test]
fn subtract_assign(rt: HostRuntime) -> Result<(), AllocError> {
    let other = [5, 300_000, 600_000];
    assert_removes(&rt, Removal::SubtractAssign, &other, &[70, FAR])
}

// allocates: none
#[test]
fn remove_range(rt: HostRuntime) -> Result<(), AllocError> {
    assert_removes(&rt, Removal::RemoveRange, &[], &[5, FAR])
}

// Two in the first chunk, with one in another between them.
const ITEMS: [Index; 3] = [6, FAR, 7];

// What is made of the items, or of references to them.
fn of_items(alloc: Global, by_reference: bool) -> Drawn<SparseBitSet> {
    drawn!(
        ITEMS,
        by_reference,
        |left| SparseBitSet::from_index_refs(alloc, &mut left),
        SparseBitSet::from_indices(alloc, &mut left)
    )
}

// Sees that a set of the items is made, and that the iterator goes on after the item for which an allocation failed.
fn assert_builds(
    rt: &(impl Abort + Print + AllocGlobal),
    by_reference: bool,
) -> Result<(), BuildError> {
    let (built, next) = tried!(rt, of_items(rt.alloc(), by_reference), |it| it.0.is_err());
    if let Err(error) = &built {
        assert!(rt; is_refused_there(&ITEMS, *error, next, &[0, 1]));
    }
    let set = or_again!(built, of_items(rt.alloc(), by_reference).0);
    assert_has(rt, &set, &[6, 7, FAR]);
    Ok(())
}

// allocates: 6, 480 bytes: hibitset_sparse::SparseBitSet::from_indices
#[test]
fn from_indices(rt: HostRuntime) -> Result<(), BuildError> {
    assert_builds(&rt, false)
}

// allocates: 6, 480 bytes: hibitset_sparse::SparseBitSet::from_index_refs
#[test]
fn from_index_refs(rt: HostRuntime) -> Result<(), BuildError> {
    assert_builds(&rt, true)
}

// How a set is made of the items, or of another set.
#[derive(Clone, Copy)]
enum Making {
    Slice,
    FromSet,
    Clone,
}

// The set that is made, if no allocation failed.
fn made(alloc: Global, set: &SparseBitSet, making: Making) -> Option<SparseBitSet> {
    match making {
        Making::Slice => SparseBitSet::from_slice(alloc, &ITEMS).ok(),
        Making::FromSet => SparseBitSet::from_set(alloc, set).ok(),
        Making::Clone => set.clone().ok(),
    }
}

// Sees that a set of these members is made, over a set that stays as it is.
fn assert_makes(
    rt: &(impl Abort + Print + AllocGlobal),
    making: Making,
    from: &[Index],
    members: &[Index],
) -> Result<(), AllocError> {
    let set = sparse_of(rt.alloc(), from)?;
    let first = tried!(rt, made(rt.alloc(), &set, making), |it| it.is_none());
    let copy = match first {
        Some(copy) => copy,
        None => made(rt.alloc(), &set, making).ok_or(AllocError)?,
    };
    assert_has(rt, &set, from);
    assert_has(rt, &copy, members);
    assert!(rt; (copy == set) == (from == members));
    Ok(())
}

// allocates: 6, 480 bytes: hibitset_sparse::SparseBitSet::from_slice
#[test]
fn from_slice(rt: HostRuntime) -> Result<(), AllocError> {
    assert_makes(&rt, Making::Slice, &[], &[6, 7, FAR])
}

// allocates: 6, 480 bytes: hibitset_sparse::SparseBitSet::from_set
#[test]
fn from_set(rt: HostRuntime) -> Result<(), AllocError> {
    let members = [5, 70, 5_000, FAR];
    assert_makes(&rt, Making::FromSet, &members, &members)
}

// allocates: 6, 192 bytes: hibitset_sparse::SparseBitSet::clone
#[test]
fn copy_of_a_set(rt: HostRuntime) -> Result<(), AllocError> {
    assert_makes(&rt, Making::Clone, &[5, FAR], &[5, FAR])
}

// How a set is extended by the items.
#[derive(Clone, Copy, PartialEq)]
enum Extending {
    Indices,
    References,
    Slice,
}

// How a set took the items, and the one that is left; of a slice the one after that for which an allocation failed.
fn extended_by(set: &mut SparseBitSet, extending: Extending) -> Drawn<()> {
    if extending == Extending::Slice {
        return (set.extend_from_slice(&ITEMS), Some(7));
    }
    drawn!(
        ITEMS,
        extending == Extending::References,
        |left| set.extend_index_refs(&mut left),
        set.extend_indices(&mut left)
    )
}

// Sees that a set over 5 takes the items, and that it has those before the one for which an allocation failed.
fn assert_extends(
    rt: &(impl Abort + Print + AllocGlobal),
    extending: Extending,
) -> Result<(), AllocError> {
    let mut set = sparse_of(rt.alloc(), &[5])?;
    let (done, next) = tried!(rt, extended_by(&mut set, extending), |it| it.0.is_err());
    if let Err(error) = done {
        assert!(rt; is_refused_there(&ITEMS, error, next, &[1]));
        assert_way(rt, &set, &[5, 6], FAR, UPPER);
        assert!(rt; extended_by(&mut set, extending).0.is_ok());
    }
    assert_has(rt, &set, &[5, 6, 7, FAR]);
    Ok(())
}

// allocates: 2, 96 bytes: hibitset_sparse::SparseBitSet::add_index, hibitset_sparse::SparseBitSet::extend_indices
#[test]
fn extend_indices(rt: HostRuntime) -> Result<(), AllocError> {
    assert_extends(&rt, Extending::Indices)
}

// allocates: 2, 96 bytes: hibitset_sparse::SparseBitSet::extend_index_refs
#[test]
fn extend_index_refs(rt: HostRuntime) -> Result<(), AllocError> {
    assert_extends(&rt, Extending::References)
}

// allocates: 2, 96 bytes: hibitset_sparse::SparseBitSet::extend_from_slice
#[test]
fn extend_from_slice(rt: HostRuntime) -> Result<(), AllocError> {
    assert_extends(&rt, Extending::Slice)
}

fn listed(alloc: Global, set: &SparseBitSet) -> Result<Vec<Index>, AllocError> {
    set.to_vec(alloc)
}

// allocates: 1, 8 bytes: hibitset_sparse::SparseBitSet::to_vec
#[test]
fn list_of_a_set(rt: HostRuntime) -> Result<(), AllocError> {
    let set = sparse_of(rt.alloc(), &[5, FAR])?;
    let list = retried!(&rt, listed(rt.alloc(), &set));
    assert_indices(&rt, list.as_slice(), &[5, FAR]);
    Ok(())
}
