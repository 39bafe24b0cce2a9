//! What callers know of walks and assignments, from the public contracts alone.
ghost use Rattle.std.specs.Prelude.{◌≡◌, ℕ, ◌+◌, ◌-◌, ◌*◌, ◌^◌, ◌/◌, ◌<◌, ◌≤◌, ◌==◌, ◌&&◌, ◌||◌, true, false, [], ◌∷◌, ◌++◌, drop, length, IfOk, IfSome, IsOk, OnOk, OnErr};
ghost use Rattle.hibitset_base.specs.Connectives.{IsIntersection, IsUnion, IsSymmetricDifference};
ghost use Rattle.hibitset_base.specs.Members.{members, members_below};
ghost use Rattle.hibitset_base.specs.Walk.{BitsAreFromSet, words_read, words_ahead, items_left};
ghost use Rattle.hibitset_base.specs.declared.util.TheConstants.{LAYERS, MAX_EID};
ghost use Rattle.hibitset.specs.BitSet.{has, word_of, slice_len};
ghost use Rattle.hibitset.specs.Merge.{NoWordsFrom};

use crate::tests::{assert_that, gives};
use hibitset::laws::{laws, list_laws};
use hibitset::{BitIter, BitSet, BitSetLike, DrainableBitSet, Index, Ranked};
use hibitset_base::util::{MAX_EID, SHIFT2};
use hibitset_testing::sets::{copied_by_slices, set_of};
use std::alloc::{AllocError, Global};

// The members, by a loop.
fn looped(alloc: Global, set: &BitSet) -> Result<Vec<Index>, AllocError>
    ensures { IfOk result (λ list. list.items ≡ members_below MAX_EID (has set.now)) }
{
    let mut list = Vec::new(alloc);
    for index in set {
        list.push(index)?;
    }
    Ok(list)
}

// How many members there are.
fn counted(set: &BitSet) -> usize
    ensures { result ≡ length (members_below MAX_EID (has set.now)) }
{
    set.iter().count()
}

// The members, by the list of a walk.
fn collected(alloc: Global, set: &BitSet) -> Result<Vec<Index>, AllocError>
    ensures { IfOk result (λ list. list.items ≡ members_below MAX_EID (has set.now)) }
{
    set.iter().collect(alloc)
}

// The members of both, by the list of a walk.
fn shared_by(alloc: Global, a: &BitSet, b: &BitSet) -> Result<Vec<Index>, AllocError>
    ensures { IfOk result (λ list. list.items
        ≡ members_below MAX_EID (λ i. has a.now i && has b.now i)) }
{
    (a & b).iter().collect(alloc)
}

// The members from an index on, by the list of a walk.
fn collected_from(alloc: Global, set: &BitSet, start: Index) -> Result<Vec<Index>, AllocError>
    ensures { IfOk result (λ list. list.items ≡ members (has set.now) start (MAX_EID - start)) }
{
    set.iter_from(start).collect(alloc)
}

// The members, which are taken out.
fn drained(alloc: Global, set: &mut BitSet) -> Result<Vec<Index>, AllocError>
    ensures { IfOk result (λ list. list.items ≡ members_below MAX_EID (has set.old)) }
{
    set.drain().collect(alloc)
}

// One step of a walk, which reads at most a word of each layer below the top.
fn step<'a>(walk: &mut BitIter<&'a BitSet>) -> Option<Index>
    requires { BitsAreFromSet (λ set. word_of set.now) walk.old }
    ensures from_set { BitsAreFromSet (λ set. word_of set.now) walk.new }
    ensures reads_max { words_read walk.new ≤ words_read walk.old + (LAYERS - 1) }
{
    laws();
    walk.next()
}

// A copy of a walk, which has as many words ahead.
fn copied<'a>(walk: &BitIter<&'a BitSet>) -> Result<BitIter<&'a BitSet>, AllocError>
    ensures ahead { IfOk result (λ copy. words_ahead (λ set. word_of set.now) copy
        ≡ words_ahead (λ set. word_of set.now) walk.now) }
    ensures items { IfOk result (λ copy. items_left (λ set. has set.now) copy
        ≡ items_left (λ set. has set.now) walk.now) }
{
    walk.clone()
}

// Keeps what is in the other too.
fn narrow(set: &mut BitSet, other: &BitSet)
    ensures { IsIntersection (has set.old) (has other.now) (has set.new) }
{
    *set &= other;
}

// Adds what is in the other.
fn widen(set: &mut BitSet, other: &BitSet) -> Result<(), AllocError>
    ensures members { OnOk result (IsUnion (has set.old) (has other.now) (has set.new)) }
    ensures err { OnErr result ((i : ℕ) → has set.new i ≡ has set.old i) }
{
    laws();
    set.bitor_assign(other)
}

// Adds what is in the other alone, and takes out what is in both.
fn exchange(set: &mut BitSet, other: &BitSet) -> Result<(), AllocError>
    ensures members { OnOk result (IsSymmetricDifference (has set.old) (has other.now)
        (has set.new)) }
    ensures err { OnErr result ((i : ℕ) → has set.new i ≡ has set.old i) }
{
    laws();
    set.bitxor_assign(other)
}

// A set of one index below 64, which takes one word of each layer and no more.
fn alone(alloc: Global, id: Index) -> Result<BitSet, AllocError>
    requires { id < 64 }
    ensures member { IfOk result (λ set. has set id ≡ true) }
    ensures words { IfOk result (λ set. (l : ℕ) → l < LAYERS - 1 → slice_len set l ≤ 1) }
{
    let mut set = BitSet::new(alloc);
    set.add(id)?;
    Ok(set)
}

// Room for the indices below 4,096, which are 64 words of layer 0 and one of each layer above.
fn room_for_a_block(alloc: Global) -> Result<BitSet, AllocError>
    ensures lowest { IfOk result (λ set. slice_len set 0 ≡ 64) }
    ensures above { IfOk result (λ set. (slice_len set 1 ≤ 1) × (slice_len set 2 ≤ 1)
        × (slice_len set 3 ≤ 1)) }
{
    let set = BitSet::with_capacity(alloc, 4_096)?;
    Ok(set)
}

// A range of one index is that index.
fn add_one(set: &mut BitSet, id: Index) -> Result<(), AllocError>
    requires { id < MAX_EID }
    ensures added { OnOk result ((i : ℕ) → has set.new i ≡ (has set.old i || i == id)) }
    ensures succeeds { id / 64 < slice_len set.old 0 → IsOk result }
{
    set.add_range(id, id + 1)
}

// The range of all indices is all of a set.
fn remove_all(set: &mut BitSet)
    ensures { (i : ℕ) → has set.new i ≡ false }
{
    laws();
    set.remove_range(0, MAX_EID as Index)
}

// A set that is saved and read again, in the words of layer 0.
fn read_again(alloc: Global, set: &BitSet) -> Result<BitSet, AllocError>
    ensures members { IfOk result (λ again. (i : ℕ) → has again i ≡ has set.now i) }
    ensures length { IfOk result (λ again. slice_len again 0 ≡ slice_len set.now 0) }
{
    BitSet::from_words(alloc, set.layer0_as_slice())
}

// The first index of each block of 4,096 that has a member: layer 1 has a word for each block.
fn blocks_of(alloc: Global, set: &BitSet) -> Result<BitSet, AllocError> {
    let words = set.layer1_as_slice();
    let mut blocks = BitSet::new(alloc);
    for position in 0..words.len() {
        if words[position] != 0 {
            blocks.add((position << SHIFT2) as Index)?;
        }
    }
    Ok(blocks)
}

// The members that the list begins and ends with, if there is one.
fn ends(set: &BitSet) -> Option<(Index, Index)>
    ensures head { IfSome result (λ r. members_below MAX_EID (has set.now)
        ≡ r.0 ∷ drop 1 (members_below MAX_EID (has set.now))) }
    ensures end { IfSome result (λ r. members_below MAX_EID (has set.now)
        ≡ members_below r.1 (has set.now) ++ (r.1 ∷ [])) }
{
    list_laws();
    Some((set.first()?, set.last()?))
}

// The position of the member at a position is that position.
fn position_again(ranked: &Ranked<&BitSet>, at: usize) -> Option<usize>
    ensures { IfSome result (λ again. again ≡ at) }
{
    list_laws();
    let member = ranked.select(at)?;
    Some(ranked.rank(member))
}

// Adds a set without words from `end` on, in the words of layer 3.
fn widen_within(set: &mut BitSet, other: &BitSet, end: usize) -> Result<(), AllocError>
    requires ours { slice_len set.old 3 ≤ end }
    requires theirs { NoWordsFrom (word_of other.now) (64 ^ 3 * end) }
    ensures { slice_len set.new 3 ≤ end }
{
    set.bitor_assign(other)
}

// Returns whether sets are made, grow and shrink as their callers say.
fn are_made(alloc: Global) -> Result<bool, AllocError> {
    let room = room_for_a_block(alloc)?;
    let mut wide = alone(alloc, 6)?;
    widen_within(&mut wide, &alone(alloc, 5)?, 64)?;
    add_one(&mut wide, 7)?;
    let again = read_again(alloc, &wide)?;
    remove_all(&mut wide);
    Ok(room.layer0_as_slice().len() == 64 && gives(&again, &[5, 6, 7]) && wide.is_empty())
}

#[test]
fn sets_of_callers(rt: HostRuntime) -> Result<(), AllocError> {
    assert!(rt; are_made(rt.alloc())?);
    Ok(())
}

// Returns whether a set is the first index of each block of another, and a copy of itself.
fn has_blocks(alloc: Global, set: &BitSet, ids: &[Index]) -> Result<bool, AllocError> {
    let blocks = blocks_of(alloc, set)?;
    let copy = copied_by_slices(alloc, set)?;
    Ok(gives(&blocks, ids) && copy == *set)
}

#[test]
fn blocks_of_callers(rt: HostRuntime) -> Result<(), AllocError> {
    let set = set_of(rt.alloc(), &[3, 70, 4_095, 5_000, 1_000_000])?;
    assert_that(&rt, has_blocks(rt.alloc(), &set, &[0, 4_096, 999_424])?);
    Ok(())
}

// Returns whether the lists of a set are this one.
fn has_list(alloc: Global, set: &BitSet, ids: &[Index]) -> Result<bool, AllocError> {
    let is_looped = looped(alloc, set)?.as_slice() == ids;
    let is_collected = collected(alloc, set)?.as_slice() == ids;
    let is_from = collected_from(alloc, set, 0)?.as_slice() == ids;
    Ok(is_looped && is_collected && is_from && counted(set) == ids.len())
}

// Returns whether the first step of a walk gives an index, and a copy of it goes on with the next one.
fn steps_over(set: &BitSet, first: Index, second: Index) -> Result<bool, AllocError> {
    let mut walk = set.iter();
    let is_first = step(&mut walk) == Some(first);
    Ok(is_first && copied(&walk)?.next() == Some(second))
}

#[test]
fn walks_of_callers(rt: HostRuntime) -> Result<(), AllocError> {
    let set = set_of(rt.alloc(), &[3, 70, 700])?;
    assert_that(&rt, has_list(rt.alloc(), &set, &[3, 70, 700])?);
    assert_that(&rt, steps_over(&set, 3, 70)?);
    assert_that(&rt, ends(&set) == Some((3, 700)));
    Ok(())
}

// Returns whether a set becomes these, one after another, by the assignments, and is drained then.
fn becomes(
    alloc: Global,
    set: &mut BitSet,
    other: &BitSet,
    lists: [&[Index]; 3],
) -> Result<bool, AllocError> {
    let is_shared = shared_by(alloc, set, other)?.as_slice() == lists[0];
    narrow(set, other);
    let is_narrow = gives(&*set, lists[0]);
    widen(set, other)?;
    let is_wide = gives(&*set, lists[1]);
    exchange(set, &alone(alloc, 5)?)?;
    let is_exchanged = drained(alloc, set)?.as_slice() == lists[2];
    Ok(is_shared && is_narrow && is_wide && is_exchanged && set.is_empty())
}

#[test]
fn assignments_of_callers(rt: HostRuntime) -> Result<(), AllocError> {
    let mut set = set_of(rt.alloc(), &[3, 70])?;
    let other = set_of(rt.alloc(), &[70, 71])?;
    let lists: [&[Index]; 3] = [&[70], &[70, 71], &[5, 70, 71]];
    assert_that(&rt, becomes(rt.alloc(), &mut set, &other, lists)?);
    Ok(())
}

#[test]
fn positions_of_callers(rt: HostRuntime) -> Result<(), AllocError> {
    let set = set_of(rt.alloc(), &[3, 70, 4_095, 5_000, 1_000_000])?;
    let ranked = Ranked::new(rt.alloc(), &set)?;
    assert_that(&rt, position_again(&ranked, 3) == Some(3));
    Ok(())
}
