//! Sets that keep their words. Most tests are one call of a function that several share, with what is to stand then.
use crate::tests::{Drawn, ask, assert_has, assert_indices, assert_way, is_refused_there, say};
use hibitset::{BitSet, BitSetLike, BuildError, Index, MAX_EID, Ranked};
use hibitset_testing::sets::{copied_by_slices, set_of};
use std::alloc::{AllocError, AllocGlobal, Global};
use std::io::Print;
use std::process::Abort;

// An index far from those of the sets.
const FAR: Index = 5_000_000;

// The words on the way to it where a call was refused that had made room in the upper layers.
const UPPER: [usize; 5] = [1, 1, 0, 0, 0];

const ITEMS: [Index; 3] = [6, FAR, 7];

// How a set is made.
#[derive(Clone, Copy)]
enum Making {
    Capacity,
    Clone,
    Words,
    Layers,
    Slice,
}

fn copied(alloc: Global, set: &BitSet) -> Option<BitSet> {
    copied_by_slices(alloc, set).ok()
}

// The set that is made, if no allocation failed: of the words or the items below, or of another set.
fn made(alloc: Global, set: &BitSet, making: Making) -> Option<BitSet> {
    match making {
        Making::Capacity => BitSet::with_capacity(alloc, 5000).ok(),
        Making::Clone => set.clone().ok(),
        Making::Words => BitSet::from_words(alloc, [0, 8, 1].as_slice()).ok(),
        Making::Layers => copied(alloc, set),
        Making::Slice => BitSet::from_slice(alloc, &ITEMS).ok(),
    }
}

// Sees that a set of these members is made, over a set that stays as it is, with room for this many words at least.
fn assert_makes(
    rt: &(impl Abort + Print + AllocGlobal),
    making: Making,
    from: &[Index],
    members: &[Index],
    words: usize,
) -> Result<(), AllocError> {
    let set = set_of(rt.alloc(), from)?;
    let first = tried!(rt, made(rt.alloc(), &set, making), |it| it.is_none());
    let copy = match first {
        Some(copy) => copy,
        None => made(rt.alloc(), &set, making).ok_or(AllocError)?,
    };
    assert_has(rt, &set, from);
    assert_has(rt, &copy, members);
    assert!(rt; copy.layer0_as_slice().len() >= words);
    Ok(())
}

// allocates: 1, 664 bytes: hibitset::BitSet::with_capacity
#[test]
fn with_capacity(rt: HostRuntime) -> Result<(), AllocError> {
    assert_makes(&rt, Making::Capacity, &[], &[], 79)
}

// allocates: 1, 38_120 bytes: hibitset::BitSet::clone
#[test]
fn clone(rt: HostRuntime) -> Result<(), AllocError> {
    assert_makes(&rt, Making::Clone, &[1, 70, 300000], &[1, 70, 300000], 0)
}

// allocates: 1, 48 bytes: hibitset::BitSet::from_words
#[test]
fn from_words(rt: HostRuntime) -> Result<(), AllocError> {
    assert_makes(&rt, Making::Words, &[], &[67, 128], 0)
}

// allocates: 1, 634_944 bytes: hibitset::BitSet::from_layers
#[test]
fn from_layers(rt: HostRuntime) -> Result<(), AllocError> {
    assert_makes(&rt, Making::Layers, &[5, FAR], &[5, FAR], 0)
}

// allocates: 2, 635_000 bytes: hibitset::BitSet::from_slice, hibitset_base::from_slice
#[test]
fn from_slice(rt: HostRuntime) -> Result<(), AllocError> {
    assert_makes(&rt, Making::Slice, &[], &[6, 7, FAR], 0)
}

// allocates: 1, 48 bytes: hibitset::BitSet::from_vec
#[test]
fn from_vec(rt: HostRuntime) -> Result<(), AllocError> {
    let words = vec![in rt.alloc(); 0, 8, 1]?;
    let again = words.clone()?;
    let made = tried!(&rt, BitSet::from_vec(words));
    let set = or_again!(made, BitSet::from_vec(again));
    assert_has(&rt, &set, &[67, 128]);
    Ok(())
}

// allocates: 1, 48 bytes: hibitset::BitSet::vec_with_room
#[test]
fn vec_with_room(rt: HostRuntime) -> Result<(), AllocError> {
    let words = retried!(&rt, BitSet::vec_with_room(rt.alloc(), 3));
    assert!(rt; words.is_empty() && words.capacity() == 6);
    Ok(())
}

// How many members lie before the far one, by counts beside the set.
fn ranked_by_counts(alloc: Global, set: &BitSet) -> Result<usize, AllocError> {
    let ranked = Ranked::new(alloc, set)?;
    Ok(ranked.rank(FAR))
}

// allocates: 1, 4_888 bytes: hibitset_base::Ranked::new
#[test]
fn ranked(rt: HostRuntime) -> Result<(), AllocError> {
    let set = set_of(rt.alloc(), &[5, 70, FAR])?;
    let count = retried!(&rt, ranked_by_counts(rt.alloc(), &set));
    assert!(rt; count == 2);
    Ok(())
}

// A call that adds to a set what it does not have: an index, 4,999,999 and 5,000,000, or members of another set.
#[derive(Clone, Copy)]
enum Call {
    Add(Index),
    AddRange,
    FlipRange,
    Unite,
    Differ,
}

// Makes a call, and returns whether it was refused.
fn is_refused(set: &mut BitSet, other: &BitSet, call: Call) -> bool {
    match call {
        Call::Add(id) => (id as usize) < MAX_EID && set.add(id) != Ok(false),
        Call::AddRange => set.add_range(FAR - 1, FAR + 1).is_err(),
        Call::FlipRange => set.flip_range(FAR - 1, FAR + 1).is_err(),
        Call::Unite => set.bitor_assign(other).is_err(),
        Call::Differ => set.bitxor_assign(other).is_err(),
    }
}

// What a call does to a set, with another set: what they have before, and so after it was refused, and what the set has
// when the call was made. Refused, it may have made room in the upper layers for an index.
#[derive(Clone, Copy)]
struct Growth<'a> {
    call: Call,
    before: &'a [Index],
    other: &'a [Index],
    made_room_for: Option<Index>,
    after: &'a [Index],
}

// Sees that a set and its words are as before a call that was refused.
fn assert_as_before(rt: &impl Abort, set: &BitSet, growth: &Growth) {
    match growth.made_room_for {
        Some(id) => assert_way(rt, set, growth.before, id, UPPER),
        None => assert_has(rt, set, growth.before),
    }
}

// Makes a call on a set, if there was memory for that, and again where it was refused.
fn assert_grows_from(
    rt: &(impl Abort + Print + AllocGlobal),
    start: Result<BitSet, AllocError>,
    growth: &Growth,
) -> Result<(), AllocError> {
    let mut set = start?;
    let other = set_of(rt.alloc(), growth.other)?;
    let refused = tried!(rt, is_refused(&mut set, &other, growth.call), |it| it);
    if refused {
        assert_as_before(rt, &set, growth);
        assert!(rt; !is_refused(&mut set, &other, growth.call));
    }
    assert_has(rt, &set, growth.after);
    assert_has(rt, &other, growth.other);
    Ok(())
}

fn assert_grows(
    rt: &(impl Abort + Print + AllocGlobal),
    growth: &Growth,
) -> Result<(), AllocError> {
    assert_grows_from(rt, set_of(rt.alloc(), growth.before), growth)
}

fn copy_of(alloc: Global, ids: &[Index]) -> Result<BitSet, AllocError> {
    set_of(alloc, ids)?.clone()
}

// A copy has room for its own words alone.
// allocates: 1, 56 bytes: hibitset::BitSet::clone
#[test]
fn add_to_a_clone(rt: HostRuntime) -> Result<(), AllocError> {
    let growth = Growth {
        call: Call::Add(128),
        before: &[1, 70],
        other: &[],
        made_room_for: None,
        after: &[1, 70, 128],
    };
    assert_grows_from(&rt, copy_of(rt.alloc(), &[1, 70]), &growth)
}

// allocates: 1, 634_944 bytes: hibitset::BitSet::add
#[test]
fn add(rt: HostRuntime) -> Result<(), AllocError> {
    let growth = Growth {
        call: Call::Add(FAR),
        before: &[5],
        other: &[],
        made_room_for: Some(FAR),
        after: &[5, FAR],
    };
    assert_grows(&rt, &growth)
}

// A set with room for 16 words takes an index, and is refused one that is far, but not one that is near.
fn assert_takes_near(rt: &impl Abort, set: &mut BitSet) {
    assert_way(rt, set, &[999], FAR, UPPER);
    assert!(rt; set.add(998) == Ok(false) && set.add(FAR) == Ok(false) && set.remove(998));
}

// `allocation_failures.py` refuses one request at a time, and checks that the two calls make one alone: so where that
// is refused, every request of theirs is.
// allocates: 1, 634_944 bytes: hibitset::BitSet::add
#[test]
fn room_made_before(rt: HostRuntime) -> Result<(), AllocError> {
    let mut set = BitSet::with_capacity(rt.alloc(), 1000)?;
    ask(&rt);
    assert!(rt; set.add(999) == Ok(false));
    let refused = set.add(FAR).is_err();
    say(&rt, refused);
    ask(&rt);
    if refused {
        assert_takes_near(&rt, &mut set);
    }
    assert_has(&rt, &set, &[999, FAR]);
    Ok(())
}

// Room that was made before is for those words alone.
// allocates: 1, 88 bytes: hibitset::BitSet::with_capacity
#[test]
fn add_past_the_last_word(rt: HostRuntime) -> Result<(), AllocError> {
    let growth = Growth {
        call: Call::Add(320),
        before: &[],
        other: &[],
        made_room_for: None,
        after: &[320],
    };
    assert_grows_from(&rt, BitSet::with_capacity(rt.alloc(), 320), &growth)
}

// allocates: 1, 634_944 bytes: hibitset::BitSet::add_range
#[test]
fn add_range(rt: HostRuntime) -> Result<(), AllocError> {
    let growth = Growth {
        call: Call::AddRange,
        before: &[5],
        other: &[],
        made_room_for: Some(FAR),
        after: &[5, 4_999_999, FAR],
    };
    assert_grows(&rt, &growth)
}

// allocates: 1, 634_944 bytes: hibitset::BitSet::flip_range
#[test]
fn flip_range(rt: HostRuntime) -> Result<(), AllocError> {
    let growth = Growth {
        call: Call::FlipRange,
        before: &[5],
        other: &[],
        made_room_for: Some(FAR),
        after: &[5, 4_999_999, FAR],
    };
    assert_grows(&rt, &growth)
}

// allocates: 1, 127_008 bytes: hibitset::BitSet::bitor_assign
#[test]
fn bitor_assign(rt: HostRuntime) -> Result<(), AllocError> {
    let growth = Growth {
        call: Call::Unite,
        before: &[0],
        other: &[1_000_000],
        made_room_for: Some(1_000_000),
        after: &[0, 1_000_000],
    };
    assert_grows(&rt, &growth)
}

// allocates: 1, 127_008 bytes: hibitset::BitSet::bitxor_assign
#[test]
fn bitxor_assign(rt: HostRuntime) -> Result<(), AllocError> {
    let growth = Growth {
        call: Call::Differ,
        before: &[0, 3],
        other: &[0, 1_000_000],
        made_room_for: Some(1_000_000),
        after: &[3, 1_000_000],
    };
    assert_grows(&rt, &growth)
}

// A set with room for 64 words, which is more than half of what the other one needs.
fn with_half_of_the_room(alloc: Global) -> Result<BitSet, AllocError> {
    let mut set = BitSet::with_capacity(alloc, 4_096)?;
    set.add(3)?;
    Ok(set)
}

// It makes room for the 94 words that are needed, and those over them.
// allocates: 1, 784 bytes: hibitset::BitSet::bitor_assign
#[test]
fn bitor_assign_past_the_room(rt: HostRuntime) -> Result<(), AllocError> {
    let growth = Growth {
        call: Call::Unite,
        before: &[3],
        other: &[6_015],
        made_room_for: None,
        after: &[3, 6_015],
    };
    assert_grows_from(&rt, with_half_of_the_room(rt.alloc()), &growth)
}

// allocates: 1, 784 bytes: hibitset::BitSet::bitxor_assign
#[test]
fn bitxor_assign_past_the_room(rt: HostRuntime) -> Result<(), AllocError> {
    let growth = Growth {
        call: Call::Differ,
        before: &[3],
        other: &[3, 6_015],
        made_room_for: None,
        after: &[6_015],
    };
    assert_grows_from(&rt, with_half_of_the_room(rt.alloc()), &growth)
}

fn united_past_the_room(alloc: Global) -> Result<BitSet, AllocError> {
    let mut set = with_half_of_the_room(alloc)?;
    set.bitor_assign(&set_of(alloc, &[6_015])?)?;
    Ok(set)
}

// The next word then takes an allocation, of room for 128.
// allocates: 1, 1_056 bytes: hibitset::BitSet::add
#[test]
fn add_past_a_union(rt: HostRuntime) -> Result<(), AllocError> {
    let growth = Growth {
        call: Call::Add(6_016),
        before: &[3, 6_015],
        other: &[],
        made_room_for: None,
        after: &[3, 6_015, 6_016],
    };
    assert_grows_from(&rt, united_past_the_room(rt.alloc()), &growth)
}

// What is made of the items, or of references to them.
fn of_items(alloc: Global, by_reference: bool) -> Drawn<BitSet> {
    drawn!(
        ITEMS,
        by_reference,
        |left| BitSet::from_index_refs(alloc, &mut left),
        BitSet::from_indices(alloc, &mut left)
    )
}

// Sees that a set of the items is made, and that the iterator goes on after the item for which an allocation failed.
fn assert_builds(
    rt: &(impl Abort + Print + AllocGlobal),
    by_reference: bool,
) -> Result<(), BuildError> {
    let (built, next) = tried!(rt, of_items(rt.alloc(), by_reference), |it| it.0.is_err());
    if let Err(error) = &built {
        assert!(rt; is_refused_there(&ITEMS, *error, next, &[0, 1]));
    }
    let set = or_again!(built, of_items(rt.alloc(), by_reference).0);
    assert_has(rt, &set, &[6, 7, FAR]);
    Ok(())
}

// allocates: 2, 635_000 bytes: hibitset::BitSet::from_indices, hibitset_base::from_indices
#[test]
fn from_indices(rt: HostRuntime) -> Result<(), BuildError> {
    assert_builds(&rt, false)
}

// allocates: 2, 635_000 bytes: hibitset::BitSet::from_index_refs, hibitset_base::from_index_refs
#[test]
fn from_index_refs(rt: HostRuntime) -> Result<(), BuildError> {
    assert_builds(&rt, true)
}

// How a set is extended by the items.
#[derive(Clone, Copy, PartialEq)]
enum Extending {
    Indices,
    References,
    Slice,
}

// How a set took the items, and the one that is left; of a slice the one after that for which an allocation failed.
fn extended_by(set: &mut BitSet, extending: Extending) -> Drawn<()> {
    if extending == Extending::Slice {
        return (set.extend_from_slice(&ITEMS), Some(7));
    }
    drawn!(
        ITEMS,
        extending == Extending::References,
        |left| set.extend_index_refs(&mut left),
        set.extend_indices(&mut left)
    )
}

// Sees that a set over 5 takes the items, and that it has those before the one for which an allocation failed.
fn assert_extends(
    rt: &(impl Abort + Print + AllocGlobal),
    start: Result<BitSet, AllocError>,
    extending: Extending,
) -> Result<(), AllocError> {
    let mut set = start?;
    let (done, next) = tried!(rt, extended_by(&mut set, extending), |it| it.0.is_err());
    if let Err(error) = done {
        assert!(rt; is_refused_there(&ITEMS, error, next, &[1]));
        assert_way(rt, &set, &[5, 6], FAR, UPPER);
        assert!(rt; extended_by(&mut set, extending).0.is_ok());
    }
    assert_has(rt, &set, &[5, 6, 7, FAR]);
    Ok(())
}

// allocates: 1, 634_944 bytes: hibitset::BitSet::add_index, hibitset::BitSet::extend_indices,
//     hibitset_base::FallibleInsert::add_index, hibitset_base::extend_indices
#[test]
fn extend_indices(rt: HostRuntime) -> Result<(), AllocError> {
    assert_extends(&rt, set_of(rt.alloc(), &[5]), Extending::Indices)
}

// allocates: 1, 634_944 bytes: hibitset::BitSet::extend_index_refs, hibitset_base::extend_index_refs
#[test]
fn extend_index_refs(rt: HostRuntime) -> Result<(), AllocError> {
    assert_extends(&rt, set_of(rt.alloc(), &[5]), Extending::References)
}

// allocates: 1, 634_944 bytes: hibitset::BitSet::extend_from_slice, hibitset_base::extend_from_slice
#[test]
fn extend_from_slice(rt: HostRuntime) -> Result<(), AllocError> {
    assert_extends(&rt, set_of(rt.alloc(), &[5]), Extending::Slice)
}

fn extended_by_a_row(set: &mut BitSet) -> Result<(), BuildError> {
    set.extend_indices(0..4096)
}

// Returns whether an error is want of memory for the first index past 0, 4, 8, 16 or 32 words, and the set has the
// indices before it.
fn is_refused_in_the_row(error: BuildError, set: &BitSet) -> bool {
    match error {
        BuildError::Memory { place } => {
            [0, 256, 512, 1024, 2048].contains(&place) && set.len() == place
        }
        BuildError::OutOfRange { place: _, index: _ } => false,
    }
}

// The first word of 64 makes room for four, and the room is doubled where it is full.
// allocates: 5, 1_112 bytes: hibitset::BitSet::extend_indices
#[test]
fn extend_indices_by_a_row(rt: HostRuntime) {
    let mut set = BitSet::new(rt.alloc());
    let extended = tried!(&rt, extended_by_a_row(&mut set));
    if let Err(error) = extended {
        assert!(rt; is_refused_in_the_row(error, &set));
        assert!(rt; extended_by_a_row(&mut set).is_ok());
    }
    assert!(rt; set.len() == 4096 && set.last() == Some(4095));
}

fn list_of(alloc: Global, set: &BitSet) -> Result<Vec<Index>, AllocError> {
    set.to_vec(alloc)
}

// The list of a set, made again where it was refused.
fn list_again(
    rt: &(impl Abort + Print + AllocGlobal),
    set: &BitSet,
) -> Result<Vec<Index>, AllocError> {
    let list = retried!(rt, list_of(rt.alloc(), set));
    Ok(list)
}

// allocates: 1, 12 bytes: hibitset_base::BitSetLike::to_vec
#[test]
fn to_vec(rt: HostRuntime) -> Result<(), AllocError> {
    let set = set_of(rt.alloc(), &[5, 6, FAR])?;
    let list = list_again(&rt, &set)?;
    assert_indices(&rt, list.as_slice(), &[5, 6, FAR]);
    assert_has(&rt, &set, &[5, 6, FAR]);
    Ok(())
}

// Sees that the list of a set, if there was memory for that, has as many indices as the set, from 0 to this last one,
// and this capacity, where it is known.
fn assert_lists(
    rt: &(impl Abort + Print + AllocGlobal),
    set: Result<BitSet, AllocError>,
    count: usize,
    last: Index,
    capacity: Option<usize>,
) -> Result<(), AllocError> {
    let set = set?;
    let list = list_again(rt, &set)?;
    assert!(rt; list.len() == count && list.first() == Some(&0) && list.last() == Some(&last));
    assert!(rt; set.len() == count);
    assert!(rt; capacity.is_none() || capacity == Some(list.capacity()));
    Ok(())
}

fn one_a_word(alloc: Global) -> Result<BitSet, AllocError> {
    let mut set = BitSet::with_capacity(alloc, 4_000)?;
    for word in 0..40u32 {
        set.add(100 * word)?;
    }
    Ok(set)
}

// allocates: 2, 384 bytes: hibitset_base::BitSetLike::to_vec
#[test]
fn to_vec_of_a_member_a_word(rt: HostRuntime) -> Result<(), AllocError> {
    assert_lists(&rt, one_a_word(rt.alloc()), 40, 3_900, None)
}

// The set of so many members from the first on in each of 32 words.
fn few_a_word(alloc: Global, members: Index) -> Result<BitSet, AllocError> {
    let mut set = BitSet::with_capacity(alloc, 2_048)?;
    for word in 0..32u32 {
        for member in 0..members.min(64) {
            set.add(64 * word + member)?;
        }
    }
    Ok(set)
}

// allocates: 1, 256 bytes: hibitset_base::BitSetLike::to_vec
#[test]
fn to_vec_of_two_members_a_word(rt: HostRuntime) -> Result<(), AllocError> {
    assert_lists(&rt, few_a_word(rt.alloc(), 2), 64, 1_985, Some(64))
}

// allocates: 1, 384 bytes: hibitset_base::BitSetLike::to_vec
#[test]
fn to_vec_of_three_members_a_word(rt: HostRuntime) -> Result<(), AllocError> {
    assert_lists(&rt, few_a_word(rt.alloc(), 3), 96, 1_986, Some(96))
}

fn full_words(alloc: Global) -> Result<BitSet, AllocError> {
    let mut set = BitSet::with_capacity(alloc, 1_000)?;
    for id in 0..1_000u32 {
        set.add(id)?;
    }
    Ok(set)
}

// allocates: 1, 4_000 bytes: hibitset_base::BitSetLike::to_vec
#[test]
fn to_vec_of_full_words(rt: HostRuntime) -> Result<(), AllocError> {
    assert_lists(&rt, full_words(rt.alloc()), 1_000, 999, None)
}
