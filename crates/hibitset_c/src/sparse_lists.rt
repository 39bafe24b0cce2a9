//! Calls that take a list of indices, ends or positions, with a sparse set.
#![tactic(auto)]

ghost use Rattle.std.specs.Prelude.{◌≡◌, ◌+◌, ◌<◌, ◌≤◌, IfSome, length, map, min, slice_index, take};
ghost use Rattle.std.specs.List.{All};
ghost use Rattle.hibitset_base.specs.Members.{members_below};
ghost use Rattle.hibitset_base.specs.Ranked.{counted_set};
ghost use Rattle.hibitset_base.specs.Sets.{bit_of};
ghost use Rattle.hibitset_base.specs.declared.util.TheConstants.{MAX_EID};
ghost use Rattle.hibitset_sparse.specs.SparseBitSet.{has as sparse_has};
ghost use Rattle.hibitset_c.specs.Buffer.{Fills};
ghost use Rattle.hibitset_c.specs.List.{RemovesAll};
ghost use Rattle.hibitset_c.specs.Sparse.{has, IsSame};

use crate::lists::remove_list;
use crate::lookups::{contains_each, rank_each, select_each};
use crate::set_or_seat::SetOrSeat;
use crate::sparse_set::SparseSet;
use hibitset::{BitSetLike, Index, Ranked};
use hibitset_sparse::SparseBitSet;
use std::alloc::Global;

/// Writes for each index of a list whether it is a member, 1 or 0, until the buffer is full or there are no more.
/// Returns how many.
#[unsafe(no_mangle)]
pub extern "C" fn hibitset_sparse_contains_many(
    alloc: Global,
    set: &mut SparseSet,
    indices: &[u32],
    found: &mut [u8],
) -> usize
    ensures answer { Fills (map (λ i. bit_of (has set.old i)) indices.now) found.old result
        found.new }
    ensures same { IsSame set.old set.new }
{
    if !set.made {
        let none = SparseBitSet::new(alloc);
        return contains_each(&none, indices, found);
    }
    let SetOrSeat::Sparse(members) = set.handle.as_mut() else {
        unreachable!()
    };
    contains_each(&*members, indices, found)
}

// The fewest items of a list for which the members of a set are counted first.
const COUNTED_ITEMS: usize = 64;

// The counts of a set for a list of this length, if it is long enough and the allocation succeeds.
fn counts_for<T: BitSetLike + Copy>(alloc: Global, set: T, items: usize) -> Option<Ranked<T>>
    ensures { IfSome result (λ ranked. counted_set ranked ≡ set) }
{
    if items < COUNTED_ITEMS {
        return None;
    }
    Ranked::new(alloc, set).ok()
}

// Writes for each end of a list how many members lie before it. Returns how many were written.
fn rank_list(alloc: Global, members: &SparseBitSet, ends: &[Index], ranks: &mut [usize]) -> usize
    ensures { Fills (map (λ end. length (members_below (min end MAX_EID)
        (sparse_has members.now))) ends.now) ranks.old result ranks.new }
{
    let counted = counts_for(alloc, members, ends.len().min(ranks.len()));
    rank_each(&counted, &members, ends, ranks)
}

/// Writes for each end of a list how many members lie before it, until the buffer is full or there are no more ends.
/// Returns how many were written.
///
/// For 64 ends or more it counts the members of the set once, and then reads at most 65 words for an end. For fewer, or
/// if the allocation of the counts fails, 4 bytes for each 4,096 indices up to the last member, it counts anew for each
/// end.
#[unsafe(no_mangle)]
pub extern "C" fn hibitset_sparse_rank_many(
    alloc: Global,
    set: &mut SparseSet,
    ends: &[u32],
    ranks: &mut [usize],
) -> usize
    ensures answer { Fills (map (λ end. length (members_below (min end MAX_EID) (has set.old)))
        ends.now) ranks.old result ranks.new }
    ensures same { IsSame set.old set.new }
{
    if !set.made {
        let none = SparseBitSet::new(alloc);
        return rank_list(alloc, &none, ends, ranks);
    }
    let SetOrSeat::Sparse(members) = set.handle.as_mut() else {
        unreachable!()
    };
    rank_list(alloc, &*members, ends, ranks)
}

// Writes the member at each position of a list, up to the first that has none. Returns how many were written.
fn select_list(
    alloc: Global,
    members: &SparseBitSet,
    positions: &[usize],
    indices: &mut [Index],
) -> usize
    ensures count { result ≤ length positions.now }
    ensures found { All (λ at. at < length (members_below MAX_EID (sparse_has members.now)))
        (take result positions.now) }
    ensures written { Fills (map (λ at. slice_index (members_below MAX_EID
        (sparse_has members.now)) at) (take result positions.now)) indices.old result indices.new }
    ensures stops { result < min (length positions.now) (length indices.old)
        → length (members_below MAX_EID (sparse_has members.now))
        ≤ slice_index positions.now result }
{
    let counted = counts_for(alloc, members, positions.len().min(indices.len()));
    select_each(&counted, &members, positions, indices)
}

/// Writes the member at each position of a list, until the buffer is full, there are no more positions, or the set has
/// no member at one. Returns how many were written.
///
/// For 64 positions or more it counts the members of the set once, as `hibitset_sparse_rank_many` does.
#[unsafe(no_mangle)]
pub extern "C" fn hibitset_sparse_select_many(
    alloc: Global,
    set: &mut SparseSet,
    positions: &[usize],
    indices: &mut [u32],
) -> usize
    ensures count { result ≤ length positions.now }
    ensures found { All (λ at. at < length (members_below MAX_EID (has set.old)))
        (take result positions.now) }
    ensures written { Fills (map (λ at. slice_index (members_below MAX_EID (has set.old)) at)
        (take result positions.now)) indices.old result indices.new }
    ensures stops { result < min (length positions.now) (length indices.old)
        → length (members_below MAX_EID (has set.old)) ≤ slice_index positions.now result }
    ensures same { IsSame set.old set.new }
{
    if !set.made {
        let none = SparseBitSet::new(alloc);
        return select_list(alloc, &none, positions, indices);
    }
    let SetOrSeat::Sparse(members) = set.handle.as_mut() else {
        unreachable!()
    };
    select_list(alloc, &*members, positions, indices)
}

// Removes the indices of a list. Returns how many members that takes out.
fn remove_members(members: &mut SparseBitSet, list: &[Index]) -> usize
    ensures removed { RemovesAll list.now (sparse_has members.old) (sparse_has members.new) }
    ensures count { length (members_below MAX_EID (sparse_has members.old))
        ≡ result + length (members_below MAX_EID (sparse_has members.new)) }
{
    remove_list(members, list)
}

/// Removes the indices of a list. Returns how many members that takes out of the set.
#[unsafe(no_mangle)]
pub extern "C" fn hibitset_sparse_remove_many(set: &mut SparseSet, indices: &[u32]) -> usize
    ensures removed { RemovesAll indices.now (has set.old) (has set.new) }
    ensures count { length (members_below MAX_EID (has set.old))
        ≡ result + length (members_below MAX_EID (has set.new)) }
{
    if !set.made {
        return 0;
    }
    let SetOrSeat::Sparse(members) = set.handle.as_mut() else {
        unreachable!()
    };
    remove_members(members, indices)
}
