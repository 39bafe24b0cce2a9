//! Parts of a walk, in threads.
//!
//! The parts are made alone, in one thread, and each stage then goes through them side by side.
ghost use Rattle.std.specs.Prelude.{◌≡◌, ◌+◌, ◌++◌, ◌∷◌, [], ◌<◌, ◌≤◌, ℕ, length, flat_map, IfOk, MatchOption, Some, ◌^◌, max, All, sum, ⊤};
ghost use Rattle.std.specs.List.{FoldsTo};
ghost use Rattle.hibitset_base.specs.Folds.{FoldsFrom, FoldsOfParts, Combines, FoldsInParts};
ghost use Rattle.hibitset_base.specs.Parts.{items_if_some, AreCounts};
ghost use Rattle.hibitset_base.specs.Walk.{items_left};
ghost use Rattle.hibitset_base.specs.declared.util.TheConstants.{LAYERS};

use super::BitProducer;
use super::fill::{fill, halvings};
use super::workers::map_parts;
use crate::bulk::count::count_walk;
use crate::bulk::fold::{fold_walk, visit_walk};
use crate::iter::BitIter;
use crate::like::BitSetLike;
use crate::read_count::Reads;
use crate::util::{Index, LAYERS};
use std::alloc::{AllocError, Global};
use std::thread::Threads;

/// Where a walk is cut into parts: in how many layers from the top one on, and into how many parts at most. They are
/// cut in one thread.
#[derive(Clone, Copy)]
pub(crate) struct Cuts {
    pub(crate) layers: u8,
    pub(crate) max_parts: usize,
}

// Splits one part.
fn split<'a, T: BitSetLike + Send + Sync>(
    part: BitIter<&'a T>,
    layers: u8,
) -> (BitIter<&'a T>, Option<BitIter<&'a T>>)
    requires { layers < LAYERS }
    ensures { items_left (λ s. T.holds s.now) part.entry
        ≡ items_left (λ s. T.holds s.now) result.0 ++ items_if_some (λ s. T.holds s.now) result.1 }
{
    let (BitProducer(first, _), second) = BitProducer(part, layers).split();
    match second {
        None => (first, None),
        Some(BitProducer(other, _)) => (first, Some(other)),
    }
}

// Splits each part once from left to right, while there are fewer than `max_parts`.
fn split_each_once<'a, T: BitSetLike + Send + Sync>(
    alloc: Global,
    parts: Vec<BitIter<&'a T>>,
    layers: u8,
    max_parts: usize,
) -> Result<Vec<BitIter<&'a T>>, AllocError>
    requires { layers < LAYERS }
    ensures items { IfOk result (λ v. flat_map (items_left (λ s. T.holds s.now)) v.items
        ≡ flat_map (items_left (λ s. T.holds s.now)) parts.entry.items) }
    ensures grows { IfOk result (λ v. length parts.entry.items ≤ length v.items) }
    ensures len_max { IfOk result (λ v. length v.items ≤ max (length parts.entry.items) max_parts) }
{
    let mut total = parts.len();
    let mut next = Vec::new(alloc);
    for part in parts {
        if total < max_parts {
            let (first, second) = split(part, layers);
            next.push(first)?;
            if let Some(other) = second {
                next.push(other)?;
                total += 1;
            }
        } else {
            next.push(part)?;
        }
    }
    Ok(next)
}

// The parts after all rounds.
fn split_into_parts<'a, T: BitSetLike + Send + Sync>(
    alloc: Global,
    whole: BitIter<&'a T>,
    layers: u8,
    max_parts: usize,
) -> Result<Vec<BitIter<&'a T>>, AllocError>
    requires { layers < LAYERS }
    ensures { IfOk result (λ v. flat_map (items_left (λ s. T.holds s.now)) v.items
        ≡ items_left (λ s. T.holds s.now) whole.entry) }
{
    let mut parts = Vec::new(alloc);
    parts.push(whole)?;
    let mut before = 0;
    while before < parts.len() && parts.len() < max_parts {
        before = parts.len();
        parts = split_each_once(alloc, parts, layers, max_parts)?;
    }
    Ok(parts)
}

// A walk over the same set, with the same items left.
fn split_again<'a, T: BitSetLike>(part: &BitIter<&'a T>) -> BitIter<&'a T>
    ensures { items_left (λ s. T.holds s.now) result ≡ items_left (λ s. T.holds s.now) part.now }
{
    BitIter {
        set: part.set,
        cursor: part.cursor.copied(),
        reads: Reads::none(),
    }
}

// How many items each part has, where one thread counts all of them.
fn counts_alone<T: BitSetLike>(
    alloc: Global,
    parts: &[BitIter<&'_ T>],
) -> Result<Vec<usize>, AllocError>
    ensures { IfOk result (λ v. AreCounts (λ s. T.holds s.now) parts.now v.items) }
{
    let mut counts = Vec::with_capacity(alloc, parts.len())?;
    for part in parts {
        counts.push(count_walk(part))?;
    }
    Ok(counts)
}

// How many items each part has.
fn counts<'a, R: Threads + Sync, T: BitSetLike + Send + Sync>(
    rt: &R,
    alloc: Global,
    parts: &[BitIter<&'a T>],
) -> Result<Vec<usize>, AllocError>
    ensures { IfOk result (λ v. AreCounts (λ s. T.holds s.now) parts.now v.items) }
{
    let count = |part: &BitIter<&'_ T>| -> usize
        ensures { result ≡ length (items_left (λ s. T.holds s.now) part.now) }
    { count_walk(part) };
    map_parts(rt, alloc, parts, &count)
}

// The same, where one thread counts unless there is much to count.
fn counts_by_size<'a, R: Threads + Sync, T: BitSetLike + Send + Sync>(
    rt: &R,
    alloc: Global,
    parts: &[BitIter<&'a T>],
    is_large: bool,
) -> Result<Vec<usize>, AllocError>
    ensures { IfOk result (λ v. AreCounts (λ s. T.holds s.now) parts.now v.items) }
{
    if !is_large {
        return counts_alone(alloc, parts);
    }
    counts(rt, alloc, parts)
}

// The fold of each part.
fn fold_parts<
    'a,
    R: Threads + Sync,
    T: BitSetLike + Send + Sync,
    U: Send + Drop,
    I: Fn() -> U + Sync,
    F: Fn(U, Index) -> U + Sync,
>(rt: &R, alloc: Global, parts: &[BitIter<&'a T>], init: &I, step: &F) -> Result<Vec<U>, AllocError>
    requires init { I.IsAlwaysCallable init.now }
    requires step { F.IsAlwaysCallable step.now }
    ensures { IfOk result (λ v. FoldsOfParts (I.post init.now) (λ a x b. F.post step.now a x b)
        (flat_map (items_left (λ s. T.holds s.now)) parts.now) v.items) }
{
    let fold = |part: &BitIter<&'_ T>| -> U
        requires { I.IsAlwaysCallable init.now × F.IsAlwaysCallable step.now }
        ensures { FoldsFrom (I.post init.entry.now) (λ a x b. F.post step.entry.now a x b)
            (items_left (λ s. T.holds s.now) part.now) result }
    { fold_walk(split_again(part), init(), step) };
    map_parts(rt, alloc, parts, &fold)
}

// The sum of the numbers.
pub(super) fn sum_of_counts(counts: &[usize]) -> usize
    requires { sum counts.now < 2 ^ 64 }
    ensures { result ≡ sum counts.now }
{
    counts.iter().sum()
}

// How many items there are.
pub(crate) fn count<R: Threads + Sync, T: BitSetLike + Send + Sync>(
    rt: &R,
    alloc: Global,
    whole: BitIter<&'_ T>,
    cuts: Cuts,
) -> Result<usize, AllocError>
    requires layers { cuts.layers < LAYERS }
    requires len_max { length (items_left (λ s. T.holds s.now) whole) < 2 ^ 64 }
    ensures { IfOk result (λ n. n ≡ length (items_left (λ s. T.holds s.now) whole.entry)) }
{
    let parts = split_into_parts(alloc, whole, cuts.layers, cuts.max_parts)?;
    let counts = counts(rt, alloc, parts.as_slice())?;
    Ok(sum_of_counts(counts.as_slice()))
}

// The items, in order. Several threads count them too if there is much to count.
pub(crate) fn collect<R: Threads + Sync, T: BitSetLike + Send + Sync>(
    rt: &R,
    alloc: Global,
    whole: BitIter<&'_ T>,
    cuts: Cuts,
    is_large: bool,
) -> Result<Vec<Index>, AllocError>
    requires layers { cuts.layers < LAYERS }
    requires len_max { length (items_left (λ s. T.holds s.now) whole) < 2 ^ 64 }
    ensures { IfOk result (λ v. v.items ≡ items_left (λ s. T.holds s.now) whole.entry) }
{
    let parts = split_into_parts(alloc, whole, cuts.layers, cuts.max_parts)?;
    let counts = counts_by_size(rt, alloc, parts.as_slice(), is_large)?;
    let mut list = vec![in alloc; 0; sum_of_counts(counts.as_slice())]?;
    fill(
        rt,
        halvings(rt),
        parts.as_slice(),
        counts.as_slice(),
        list.as_mut_slice(),
    );
    Ok(list)
}

// Calls `f` at each item.
pub(crate) fn for_each<R: Threads + Sync, T: BitSetLike + Send + Sync, F: Fn(Index) + Sync>(
    rt: &R,
    alloc: Global,
    whole: BitIter<&'_ T>,
    cuts: Cuts,
    f: F,
) -> Result<(), AllocError>
    requires layers { cuts.layers < LAYERS }
    requires f { F.IsAlwaysCallable f }
{
    let parts = split_into_parts(alloc, whole, cuts.layers, cuts.max_parts)?;
    let visit = |part: &BitIter<&'_ T>|
        requires { F.IsAlwaysCallable f }
    { visit_walk(split_again(part), &f) };
    map_parts(rt, alloc, parts.as_slice(), &visit)?;
    Ok(())
}

// The folds of the parts, combined from left to right.
pub(crate) fn fold<
    R: Threads + Sync,
    T: BitSetLike + Send + Sync,
    U: Send + Drop,
    I: Fn() -> U + Sync,
    F: Fn(U, Index) -> U + Sync,
    C: Fn(U, U) -> U,
>(
    rt: &R,
    alloc: Global,
    whole: BitIter<&'_ T>,
    cuts: Cuts,
    init: I,
    step: F,
    combine: C,
) -> Result<U, AllocError>
    requires layers { cuts.layers < LAYERS }
    requires init { I.IsAlwaysCallable init }
    requires step { F.IsAlwaysCallable step }
    requires combine { C.IsAlwaysCallable combine }
    ensures { IfOk result (FoldsInParts (I.post init) (λ a x b. F.post step a x b)
        (λ a b c. C.post combine a b c) (items_left (λ s. T.holds s.now) whole.entry)) }
{
    let parts = split_into_parts(alloc, whole, cuts.layers, cuts.max_parts)?;
    let folds = fold_parts(rt, alloc, parts.as_slice(), &init, &step)?;
    match reduce(folds, &combine) {
        Some(result) => Ok(result),
        None => Ok(init()),
    }
}

// One more value.
fn reduce_step<U: Drop, C: Fn(U, U) -> U>(so_far: Option<U>, next: U, combine: &C) -> U
    requires { C.IsAlwaysCallable combine.now }
    ensures { MatchOption so_far (result ≡ next) (λ value. C.post combine.now value next result) }
{
    match so_far {
        None => next,
        Some(value) => combine(value, next),
    }
}

// The values combined from left to right.
fn reduce<U: Drop, C: Fn(U, U) -> U>(values: Vec<U>, combine: &C) -> Option<U>
    requires { C.IsAlwaysCallable combine.now }
    ensures { MatchOption result (values.items ≡ [])
        (Combines (λ a b r. C.post combine.now a b r) values.items) }
{
    let mut so_far = None;
    for next in values {
        so_far = Some(reduce_step(so_far, next, combine));
    }
    so_far
}
