//! Folds over members, by whole words.
#![tactic(auto, unfolding(crate::specs::Walk::items_left, crate::specs::Walk::set_of))]

ghost use Rattle.std.specs.Prelude.{◌≡◌, ◌+◌, ◌-◌, ◌%◌, ◌^◌, ◌<◌, ◌≤◌};
ghost use Rattle.std.specs.List.{FoldsTo};
ghost use Rattle.hibitset_base.specs.Members.{members_below};
ghost use Rattle.hibitset_base.specs.Places.{places_in, bits_from, items_of};
ghost use Rattle.hibitset_base.specs.Walk.{items_left};
ghost use Rattle.hibitset_base.specs.declared.util.TheConstants.{LAYERS, MAX_EID};

use crate::bulk::{take_child, take_index, take_lowest_word, take_next_block};
use crate::iter::BitIter;
use crate::like::BitSetLike;
use crate::util::Index;

// The indices of a word with all bits set, folded in order. The loop looks for no bit.
#[inline]
fn fold_all<R, F: Fn(R, Index) -> R>(start: Index, init: R, step: &F) -> R
    requires callable { F.IsAlwaysCallable step.now }
    requires within { start + 64 ≤ 2 ^ 32 }
    ensures { FoldsTo (λ a x b. F.post step.now a x b) init (bits_from start (2 ^ 64 - 1)) result }
{
    let mut so_far = init;
    'bits: for bit in 0..64u32 {
        so_far = step(so_far, start + bit);
    }
    so_far
}

// The indices of a word's bits, folded in order.
#[inline]
fn fold_word<R, F: Fn(R, Index) -> R>(start: Index, word: usize, init: R, step: &F) -> R
    requires callable { F.IsAlwaysCallable step.now }
    requires aligned { start % 64 ≡ 0 }
    requires within { start < MAX_EID }
    ensures { FoldsTo (λ a x b. F.post step.now a x b) init (bits_from start word) result }
{
    if word == usize::MAX {
        return fold_all(start, init, step);
    }
    let mut so_far = init;
    let mut rest = word;
    'bits: while rest != 0 {
        so_far = step(so_far, take_index(start, &mut rest));
    }
    so_far
}

// The members in the words of layer 0 under the bits of a word of layer 1, whose first bit is at `start`, folded in
// order.
#[inline]
fn fold_subtree<T: BitSetLike, R, F: Fn(R, Index) -> R>(
    set: &T,
    start: u32,
    word: usize,
    init: R,
    step: &F,
) -> R
    requires callable { F.IsAlwaysCallable step.now }
    requires aligned { start % 64 ≡ 0 }
    requires within { start < 64 ^ (LAYERS - 1) }
    ensures { FoldsTo (λ a x b. F.post step.now a x b) init
        (items_of (T.holds set.now) (places_in 1 (bits_from start word))) result }
{
    let mut so_far = init;
    let mut rest = word;
    'bits: while rest != 0 {
        let (first, lower) = take_child(set, start, &mut rest);
        so_far = fold_word(first, lower, so_far, step);
    }
    so_far
}

// The items of a walk, folded in order.
#[inline]
pub(crate) fn fold_walk<T: BitSetLike, R, F: Fn(R, Index) -> R>(
    walk: BitIter<T>,
    init: R,
    step: &F,
) -> R
    requires { F.IsAlwaysCallable step.now }
    ensures { FoldsTo (λ a x b. F.post step.now a x b) init (items_left T.holds walk) result }
{
    let BitIter {
        set,
        mut cursor,
        mut reads,
    } = walk;
    let (first, word) = take_lowest_word(&mut cursor);
    let mut so_far = fold_word(first, word, init, step);
    'parts: while let Some((start, word)) = take_next_block(&set, &mut cursor, &mut reads) {
        so_far = fold_subtree(&set, start, word, so_far, step);
    }
    so_far
}

// The members of a set, folded in order one by one. It is not inlined and begins the walk, so that the loop has the
// registers to itself.
#[inline(never)]
pub(crate) fn fold_members<T: BitSetLike, R, F: Fn(R, Index) -> R>(set: &T, init: R, step: &F) -> R
    requires { F.IsAlwaysCallable step.now }
    ensures { FoldsTo (λ a x b. F.post step.now a x b) init
        (members_below MAX_EID (T.holds set.now)) result }
{
    let mut so_far = init;
    'items: for item in BitIter::from_top(set) {
        so_far = step(so_far, item);
    }
    so_far
}

// Calls `f` at each item of a walk.
#[inline]
pub(crate) fn visit_walk<T: BitSetLike, F: Fn(Index)>(walk: BitIter<T>, f: &F)
    requires { F.IsAlwaysCallable f.now }
{
    let visit = |_so_far: (), index: Index|
        requires { F.IsAlwaysCallable f.now }
    { f(index) };
    fold_walk(walk, (), &visit);
}
