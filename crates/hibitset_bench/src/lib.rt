//! Kernels over the public calls of `hibitset` and `hibitset_store`, for a driver in Rust that measures them.
//!
//! Each makes its sets of the indices that it is given, does its work `times` times, and returns a sum of what came
//! out, by which the driver compares it with the same kernel over another crate. Nothing else is promised of the sum.
//! Indices out of range are left out. If an allocation fails, the sum is `u64::MAX`.
#![tactic(auto)]

mod atomic;
mod change;
mod columns;
mod compare;
mod copies;
mod order;
mod sets;
mod walk;

use hibitset::{AtomicBitSet, BitSet};
use std::alloc::Global;

/// Adds the indices to an empty set, `times` times over.
#[unsafe(no_mangle)]
pub extern "C" fn hibitset_bench_add(alloc: Global, ids: &[u32], times: usize) -> u64 {
    change::add::<BitSet>(alloc, ids, times).unwrap_or(u64::MAX)
}

/// Adds the indices to an empty set with room for all, `times` times over.
#[unsafe(no_mangle)]
pub extern "C" fn hibitset_bench_add_with_room(alloc: Global, ids: &[u32], times: usize) -> u64 {
    change::add_with_room(alloc, ids, times).unwrap_or(u64::MAX)
}

/// Adds the indices to a set that has them, `times` times over.
#[unsafe(no_mangle)]
pub extern "C" fn hibitset_bench_add_again(alloc: Global, ids: &[u32], times: usize) -> u64 {
    change::add_again::<BitSet>(alloc, ids, times).unwrap_or(u64::MAX)
}

/// Asks a set of `ids` for each of `asked`, `times` times over.
#[unsafe(no_mangle)]
pub extern "C" fn hibitset_bench_contains(
    alloc: Global,
    ids: &[u32],
    asked: &[u32],
    times: usize,
) -> u64 {
    change::contains::<BitSet>(alloc, ids, asked, times).unwrap_or(u64::MAX)
}

/// Counts the words that a set of the indices keeps, `times` times over.
#[unsafe(no_mangle)]
pub extern "C" fn hibitset_bench_words(alloc: Global, ids: &[u32], times: usize) -> u64 {
    copies::words(alloc, ids, times).unwrap_or(u64::MAX)
}

/// Walks over a set, `times` times over.
#[unsafe(no_mangle)]
pub extern "C" fn hibitset_bench_walk(alloc: Global, ids: &[u32], times: usize) -> u64 {
    walk::plain::<BitSet>(alloc, ids, times).unwrap_or(u64::MAX)
}

/// Counts the items of a walk over a set by `count`, `times` times over.
#[unsafe(no_mangle)]
pub extern "C" fn hibitset_bench_walk_count(alloc: Global, ids: &[u32], times: usize) -> u64 {
    walk::count(alloc, ids, times).unwrap_or(u64::MAX)
}

/// Adds up the items of a walk over a set by `fold`, `times` times over.
#[unsafe(no_mangle)]
pub extern "C" fn hibitset_bench_walk_fold(alloc: Global, ids: &[u32], times: usize) -> u64 {
    walk::fold(alloc, ids, times).unwrap_or(u64::MAX)
}

/// Collects the items of a walk over a set, `times` times over.
#[unsafe(no_mangle)]
pub extern "C" fn hibitset_bench_walk_collect(alloc: Global, ids: &[u32], times: usize) -> u64 {
    walk::collect(alloc, ids, times).unwrap_or(u64::MAX)
}

/// Asks a set how many members it has, `times` times over.
#[unsafe(no_mangle)]
pub extern "C" fn hibitset_bench_len(alloc: Global, ids: &[u32], times: usize) -> u64 {
    walk::len(alloc, ids, times).unwrap_or(u64::MAX)
}

/// Asks a set for its first member, `times` times over.
#[unsafe(no_mangle)]
pub extern "C" fn hibitset_bench_first(alloc: Global, ids: &[u32], times: usize) -> u64 {
    walk::first(alloc, ids, times).unwrap_or(u64::MAX)
}

/// Asks a walk for its first item, `times` times over.
#[unsafe(no_mangle)]
pub extern "C" fn hibitset_bench_walk_next(alloc: Global, ids: &[u32], times: usize) -> u64 {
    walk::first_of_walk(alloc, ids, times).unwrap_or(u64::MAX)
}

/// Lists the members of a set, `times` times over.
#[unsafe(no_mangle)]
pub extern "C" fn hibitset_bench_to_vec(alloc: Global, ids: &[u32], times: usize) -> u64 {
    walk::to_vec(alloc, ids, times).unwrap_or(u64::MAX)
}

/// Asks walks from each of `b` on over a set of `a` for their first item, `times` times over.
#[unsafe(no_mangle)]
pub extern "C" fn hibitset_bench_walk_from(
    alloc: Global,
    a: &[u32],
    b: &[u32],
    times: usize,
) -> u64 {
    walk::from_index(alloc, a, b, times).unwrap_or(u64::MAX)
}

/// Asks how many indices are in both of two sets, `times` times over.
#[unsafe(no_mangle)]
pub extern "C" fn hibitset_bench_and_len(alloc: Global, a: &[u32], b: &[u32], times: usize) -> u64 {
    walk::and_len(alloc, a, b, times).unwrap_or(u64::MAX)
}

/// Walks over what is not in a set, `times` times over.
#[unsafe(no_mangle)]
pub extern "C" fn hibitset_bench_walk_not(alloc: Global, ids: &[u32], times: usize) -> u64 {
    walk::not(alloc, ids, times).unwrap_or(u64::MAX)
}

/// Walks over the indices that are in both of two sets, `times` times over.
#[unsafe(no_mangle)]
pub extern "C" fn hibitset_bench_walk_and(
    alloc: Global,
    a: &[u32],
    b: &[u32],
    times: usize,
) -> u64 {
    walk::and(alloc, a, b, times).unwrap_or(u64::MAX)
}

/// Walks over the indices that are in either of two sets, `times` times over.
#[unsafe(no_mangle)]
pub extern "C" fn hibitset_bench_walk_or(alloc: Global, a: &[u32], b: &[u32], times: usize) -> u64 {
    walk::or(alloc, a, b, times).unwrap_or(u64::MAX)
}

/// Walks over the indices that are in exactly one of two sets, `times` times over.
#[unsafe(no_mangle)]
pub extern "C" fn hibitset_bench_walk_xor(
    alloc: Global,
    a: &[u32],
    b: &[u32],
    times: usize,
) -> u64 {
    walk::xor(alloc, a, b, times).unwrap_or(u64::MAX)
}

/// Makes a set of the items of an iterator, `times` times over.
#[unsafe(no_mangle)]
pub extern "C" fn hibitset_bench_build(alloc: Global, ids: &[u32], times: usize) -> u64 {
    change::build(alloc, ids, times).unwrap_or(u64::MAX)
}

/// Makes a copy of a set, `times` times over, and one more whose members are summed.
#[unsafe(no_mangle)]
pub extern "C" fn hibitset_bench_clone(alloc: Global, ids: &[u32], times: usize) -> u64 {
    copies::clone(alloc, ids, times).unwrap_or(u64::MAX)
}

/// Drains a copy of a set, as `hibitset_bench_clone` makes it.
#[unsafe(no_mangle)]
pub extern "C" fn hibitset_bench_drain(alloc: Global, ids: &[u32], times: usize) -> u64 {
    copies::drain(alloc, ids, times).unwrap_or(u64::MAX)
}

/// Clears a set and adds an index, `times` times over.
#[unsafe(no_mangle)]
pub extern "C" fn hibitset_bench_clear(alloc: Global, ids: &[u32], times: usize) -> u64 {
    change::clear::<BitSet>(alloc, ids, times).unwrap_or(u64::MAX)
}

/// Takes indices out of a copy of a set, as `hibitset_bench_clone` makes it.
#[unsafe(no_mangle)]
pub extern "C" fn hibitset_bench_remove(
    alloc: Global,
    ids: &[u32],
    removed: &[u32],
    times: usize,
) -> u64 {
    copies::remove(alloc, ids, removed, times).unwrap_or(u64::MAX)
}

/// Takes out of a copy of `a`, as `hibitset_bench_clone` makes it, what is not in `b`.
#[unsafe(no_mangle)]
pub extern "C" fn hibitset_bench_and_assign(
    alloc: Global,
    a: &[u32],
    b: &[u32],
    times: usize,
) -> u64 {
    copies::and_assign(alloc, a, b, times).unwrap_or(u64::MAX)
}

/// Puts into a copy of `a`, as `hibitset_bench_clone` makes it, what is in `b`.
#[unsafe(no_mangle)]
pub extern "C" fn hibitset_bench_or_assign(
    alloc: Global,
    a: &[u32],
    b: &[u32],
    times: usize,
) -> u64 {
    copies::or_assign(alloc, a, b, times).unwrap_or(u64::MAX)
}

/// Puts into a copy of `a`, as `hibitset_bench_clone` makes it, what is in `b` alone, and takes out what is in both.
#[unsafe(no_mangle)]
pub extern "C" fn hibitset_bench_xor_assign(
    alloc: Global,
    a: &[u32],
    b: &[u32],
    times: usize,
) -> u64 {
    copies::xor_assign(alloc, a, b, times).unwrap_or(u64::MAX)
}

/// Puts `b` into `a` exclusively, `times` times over, without a copy: each second time `a` is as it was.
#[unsafe(no_mangle)]
pub extern "C" fn hibitset_bench_xor_in_place(
    alloc: Global,
    a: &[u32],
    b: &[u32],
    times: usize,
) -> u64 {
    copies::xor_in_place(alloc, a, b, times).unwrap_or(u64::MAX)
}

/// Puts `b` into `a` and takes out again what was not there, `times` times over, without a copy.
#[unsafe(no_mangle)]
pub extern "C" fn hibitset_bench_or_and_in_place(
    alloc: Global,
    a: &[u32],
    b: &[u32],
    times: usize,
) -> u64 {
    copies::or_and_in_place(alloc, a, b, times).unwrap_or(u64::MAX)
}

/// Asks whether two sets are equal, `times` times over.
#[unsafe(no_mangle)]
pub extern "C" fn hibitset_bench_equal(alloc: Global, a: &[u32], b: &[u32], times: usize) -> u64 {
    compare::equal(alloc, a, b, times).unwrap_or(u64::MAX)
}

/// Asks whether the members of `b` are all in `a`, `times` times over.
#[unsafe(no_mangle)]
pub extern "C" fn hibitset_bench_contains_set(
    alloc: Global,
    a: &[u32],
    b: &[u32],
    times: usize,
) -> u64 {
    compare::contains_set(alloc, a, b, times).unwrap_or(u64::MAX)
}

/// Adds the range from the first index on before the last and takes it out, `times` times over.
#[unsafe(no_mangle)]
pub extern "C" fn hibitset_bench_ranges(alloc: Global, ids: &[u32], times: usize) -> u64 {
    change::ranges(alloc, ids, times).unwrap_or(u64::MAX)
}

/// Makes a set of the words of another, `times` times over.
#[unsafe(no_mangle)]
pub extern "C" fn hibitset_bench_from_words(alloc: Global, ids: &[u32], times: usize) -> u64 {
    change::from_words(alloc, ids, times).unwrap_or(u64::MAX)
}

/// Takes what is in `b` out of a copy of `a`, as `hibitset_bench_clone` makes it.
#[unsafe(no_mangle)]
pub extern "C" fn hibitset_bench_subtract_assign(
    alloc: Global,
    a: &[u32],
    b: &[u32],
    times: usize,
) -> u64 {
    copies::subtract_assign(alloc, a, b, times).unwrap_or(u64::MAX)
}

/// Asks whether two sets have no member in common, `times` times over.
#[unsafe(no_mangle)]
pub extern "C" fn hibitset_bench_is_disjoint(
    alloc: Global,
    a: &[u32],
    b: &[u32],
    times: usize,
) -> u64 {
    compare::is_disjoint(alloc, a, b, times).unwrap_or(u64::MAX)
}

/// Asks whether the members of `a` are all in `b`, `times` times over.
#[unsafe(no_mangle)]
pub extern "C" fn hibitset_bench_is_subset(
    alloc: Global,
    a: &[u32],
    b: &[u32],
    times: usize,
) -> u64 {
    compare::is_subset(alloc, a, b, times).unwrap_or(u64::MAX)
}

/// The kernel `add` over a set that can be shared.
#[unsafe(no_mangle)]
pub extern "C" fn hibitset_bench_atomic_add(alloc: Global, ids: &[u32], times: usize) -> u64 {
    change::add::<AtomicBitSet>(alloc, ids, times).unwrap_or(u64::MAX)
}

/// The kernel `add_again` over a set that can be shared.
#[unsafe(no_mangle)]
pub extern "C" fn hibitset_bench_atomic_add_again(alloc: Global, ids: &[u32], times: usize) -> u64 {
    change::add_again::<AtomicBitSet>(alloc, ids, times).unwrap_or(u64::MAX)
}

/// The kernel `walk` over a set that can be shared.
#[unsafe(no_mangle)]
pub extern "C" fn hibitset_bench_atomic_walk(alloc: Global, ids: &[u32], times: usize) -> u64 {
    walk::plain::<AtomicBitSet>(alloc, ids, times).unwrap_or(u64::MAX)
}

/// The kernel `clear` over a set that can be shared.
#[unsafe(no_mangle)]
pub extern "C" fn hibitset_bench_atomic_clear(alloc: Global, ids: &[u32], times: usize) -> u64 {
    change::clear::<AtomicBitSet>(alloc, ids, times).unwrap_or(u64::MAX)
}

/// The kernel `renew` over a set that can be shared.
#[unsafe(no_mangle)]
pub extern "C" fn hibitset_bench_atomic_renew(alloc: Global, ids: &[u32], times: usize) -> u64 {
    atomic::renew(alloc, ids, times).unwrap_or(u64::MAX)
}

/// The kernel `contains` over a set that can be shared.
#[unsafe(no_mangle)]
pub extern "C" fn hibitset_bench_atomic_contains(
    alloc: Global,
    ids: &[u32],
    asked: &[u32],
    times: usize,
) -> u64 {
    change::contains::<AtomicBitSet>(alloc, ids, asked, times).unwrap_or(u64::MAX)
}

/// Gives each of the indices a value in an empty column, `times` times over.
#[unsafe(no_mangle)]
pub extern "C" fn hibitset_bench_column_insert(alloc: Global, ids: &[u32], times: usize) -> u64 {
    columns::insert(alloc, ids, times).unwrap_or(u64::MAX)
}

/// Gives each of the indices a value in a column that has one for each, `times` times over.
#[unsafe(no_mangle)]
pub extern "C" fn hibitset_bench_column_insert_again(
    alloc: Global,
    ids: &[u32],
    times: usize,
) -> u64 {
    columns::insert_again(alloc, ids, times).unwrap_or(u64::MAX)
}

/// Asks a column of `ids` for the value of each of `asked`, `times` times over.
#[unsafe(no_mangle)]
pub extern "C" fn hibitset_bench_column_get(
    alloc: Global,
    ids: &[u32],
    asked: &[u32],
    times: usize,
) -> u64 {
    columns::get(alloc, ids, asked, times).unwrap_or(u64::MAX)
}

/// Takes the values of all indices out of a column and puts them in again, `times` times over.
#[unsafe(no_mangle)]
pub extern "C" fn hibitset_bench_column_remove_and_insert(
    alloc: Global,
    ids: &[u32],
    times: usize,
) -> u64 {
    columns::remove_and_insert(alloc, ids, times).unwrap_or(u64::MAX)
}

/// Goes over what two columns have in common, `times` times over.
#[unsafe(no_mangle)]
pub extern "C" fn hibitset_bench_column_join(
    alloc: Global,
    a: &[u32],
    b: &[u32],
    times: usize,
) -> u64 {
    columns::join_of_two(alloc, a, b, times).unwrap_or(u64::MAX)
}

/// Asks a set of `ids` how many members lie before each of `asked`, `times` times over.
#[unsafe(no_mangle)]
pub extern "C" fn hibitset_bench_rank(
    alloc: Global,
    ids: &[u32],
    asked: &[u32],
    times: usize,
) -> u64 {
    order::rank(alloc, ids, asked, times).unwrap_or(u64::MAX)
}

/// Asks a set of `ids` for the member at each of the positions `asked`, `times` times over.
#[unsafe(no_mangle)]
pub extern "C" fn hibitset_bench_select(
    alloc: Global,
    ids: &[u32],
    asked: &[u32],
    times: usize,
) -> u64 {
    order::select(alloc, ids, asked, times).unwrap_or(u64::MAX)
}

/// Asks a set of `ids` how many members lie in a range from each of `asked` on, `times` times over.
#[unsafe(no_mangle)]
pub extern "C" fn hibitset_bench_len_range(
    alloc: Global,
    ids: &[u32],
    asked: &[u32],
    times: usize,
) -> u64 {
    order::len_range(alloc, ids, asked, times).unwrap_or(u64::MAX)
}

/// Asks a set of `ids` for the last member before each of `asked`, `times` times over.
#[unsafe(no_mangle)]
pub extern "C" fn hibitset_bench_last_before(
    alloc: Global,
    ids: &[u32],
    asked: &[u32],
    times: usize,
) -> u64 {
    order::last_before(alloc, ids, asked, times).unwrap_or(u64::MAX)
}

/// Walks over a set from the last member down, `times` times over.
#[unsafe(no_mangle)]
pub extern "C" fn hibitset_bench_walk_down(alloc: Global, ids: &[u32], times: usize) -> u64 {
    order::walk_down(alloc, ids, times).unwrap_or(u64::MAX)
}

/// Asks counts beside a set of `ids` how many members lie before each of `asked`, `times` times over.
#[unsafe(no_mangle)]
pub extern "C" fn hibitset_bench_ranked_rank(
    alloc: Global,
    ids: &[u32],
    asked: &[u32],
    times: usize,
) -> u64 {
    order::ranked_rank(alloc, ids, asked, times).unwrap_or(u64::MAX)
}

/// Asks counts beside a set of `ids` for the member at each of the positions `asked`, `times` times over.
#[unsafe(no_mangle)]
pub extern "C" fn hibitset_bench_ranked_select(
    alloc: Global,
    ids: &[u32],
    asked: &[u32],
    times: usize,
) -> u64 {
    order::ranked_select(alloc, ids, asked, times).unwrap_or(u64::MAX)
}

/// Flips the range from the first index on before the last, `times` times over.
#[unsafe(no_mangle)]
pub extern "C" fn hibitset_bench_flip(alloc: Global, ids: &[u32], times: usize) -> u64 {
    order::flip(alloc, ids, times).unwrap_or(u64::MAX)
}
