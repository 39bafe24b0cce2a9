//! Calls that look at a sparse set, and go by the order of its members.
#![tactic(auto)]

ghost use Rattle.std.specs.Prelude.{◌≡◌, ◌+◌, ◌-◌, ◌%◌, ◌^◌, ◌↔◌, true, false, [], None, Some, IsTrue, length, map, min, reverse, slice_get};
ghost use Rattle.hibitset_base.specs.First.{HasNone, IsFirst, IsLast};
ghost use Rattle.hibitset_base.specs.Members.{members, members_below};
ghost use Rattle.hibitset_base.specs.declared.util.TheConstants.{MAX_EID};
ghost use Rattle.hibitset_sparse.specs.Memory.{memory_of};
ghost use Rattle.hibitset_c.specs.Buffer.{Fills};
ghost use Rattle.hibitset_c.specs.Sparse.{has, word_of, IsSame};

use crate::fill::{fill, fill_above, fill_back};
use crate::set_or_seat::SetOrSeat;
use crate::sparse_set::SparseSet;
use hibitset::BitSetLike;
use hibitset_sparse::SparseBitSet;

/// Returns how many members there are.
#[tactic(auto, using(crate::proofs::EmptinessLemmas::len_no_sparse))]
#[unsafe(no_mangle)]
pub extern "C" fn hibitset_sparse_len(set: &mut SparseSet) -> usize
    ensures answer { result ≡ length (members_below MAX_EID (has set.old)) }
    ensures same { IsSame set.old set.new }
{
    if !set.made {
        return 0;
    }
    let SetOrSeat::Sparse(members) = set.handle.as_mut() else {
        unreachable!()
    };
    SparseBitSet::len(members)
}

/// Returns whether there is no member.
#[tactic(auto, using(crate::proofs::EmptinessLemmas::no_sparse))]
#[unsafe(no_mangle)]
pub extern "C" fn hibitset_sparse_is_empty(set: &mut SparseSet) -> bool
    ensures answer { IsTrue result ↔ (members_below MAX_EID (has set.old) ≡ []) }
    ensures same { IsSame set.old set.new }
{
    if !set.made {
        return true;
    }
    let SetOrSeat::Sparse(members) = set.handle.as_mut() else {
        unreachable!()
    };
    members.is_empty()
}

/// Leaves the least member in `index`, and returns whether there is one.
#[unsafe(no_mangle)]
pub extern "C" fn hibitset_sparse_first(set: &mut SparseSet, index: &mut u32) -> bool
    ensures found { result ≡ true → IsFirst MAX_EID (has set.old) index.new }
    ensures absent { result ≡ false → HasNone MAX_EID (has set.old) }
    ensures out_kept { result ≡ false → index.new ≡ index.old }
    ensures same { IsSame set.old set.new }
{
    if !set.made {
        return false;
    }
    let SetOrSeat::Sparse(members) = set.handle.as_mut() else {
        unreachable!()
    };
    match members.first() {
        Some(first) => {
            *index = first;
            true
        }
        None => false,
    }
}

/// Leaves the greatest member in `index`, and returns whether there is one.
#[unsafe(no_mangle)]
pub extern "C" fn hibitset_sparse_last(set: &mut SparseSet, index: &mut u32) -> bool
    ensures found { result ≡ true → IsLast MAX_EID (has set.old) index.new }
    ensures absent { result ≡ false → HasNone MAX_EID (has set.old) }
    ensures out_kept { result ≡ false → index.new ≡ index.old }
    ensures same { IsSame set.old set.new }
{
    if !set.made {
        return false;
    }
    let SetOrSeat::Sparse(members) = set.handle.as_mut() else {
        unreachable!()
    };
    match members.last() {
        Some(last) => {
            *index = last;
            true
        }
        None => false,
    }
}

/// Leaves the greatest member before `end` in `index`, and returns whether there is one.
#[unsafe(no_mangle)]
pub extern "C" fn hibitset_sparse_last_before(
    set: &mut SparseSet,
    end: u32,
    index: &mut u32,
) -> bool
    ensures found { result ≡ true → IsLast (min end MAX_EID) (has set.old) index.new }
    ensures absent { result ≡ false → HasNone (min end MAX_EID) (has set.old) }
    ensures out_kept { result ≡ false → index.new ≡ index.old }
    ensures same { IsSame set.old set.new }
{
    if !set.made {
        return false;
    }
    let SetOrSeat::Sparse(members) = set.handle.as_mut() else {
        unreachable!()
    };
    match members.last_before(end) {
        Some(last) => {
            *index = last;
            true
        }
        None => false,
    }
}

/// Returns how many members lie before `end`.
#[tactic(auto, using(crate::proofs::EmptinessLemmas::len_no_sparse))]
#[unsafe(no_mangle)]
pub extern "C" fn hibitset_sparse_rank(set: &mut SparseSet, end: u32) -> usize
    ensures answer { result ≡ length (members_below (min end MAX_EID) (has set.old)) }
    ensures same { IsSame set.old set.new }
{
    if !set.made {
        return 0;
    }
    let SetOrSeat::Sparse(members) = set.handle.as_mut() else {
        unreachable!()
    };
    SparseBitSet::rank(members, end)
}

/// Leaves the member at a position of the ascending list of all in `index`, and returns whether there is one.
#[tactic(auto, using(crate::proofs::EmptinessLemmas::none_at_no_sparse))]
#[unsafe(no_mangle)]
pub extern "C" fn hibitset_sparse_select(set: &mut SparseSet, at: usize, index: &mut u32) -> bool
    ensures found { result ≡ true → slice_get (members_below MAX_EID (has set.old)) at
        ≡ Some index.new }
    ensures absent { result ≡ false → slice_get (members_below MAX_EID (has set.old)) at ≡ None }
    ensures out_kept { result ≡ false → index.new ≡ index.old }
    ensures same { IsSame set.old set.new }
{
    if !set.made {
        return false;
    }
    let SetOrSeat::Sparse(members) = set.handle.as_mut() else {
        unreachable!()
    };
    match members.select(at) {
        Some(member) => {
            *index = member;
            true
        }
        None => false,
    }
}

/// Returns how many members lie from `start` on and before `end`.
#[tactic(auto, using(crate::proofs::EmptinessLemmas::len_no_sparse))]
#[unsafe(no_mangle)]
pub extern "C" fn hibitset_sparse_len_range(set: &mut SparseSet, start: u32, end: u32) -> usize
    ensures answer { result ≡ length (members (has set.old) start (min end MAX_EID - start)) }
    ensures same { IsSame set.old set.new }
{
    if !set.made {
        return 0;
    }
    let SetOrSeat::Sparse(members) = set.handle.as_mut() else {
        unreachable!()
    };
    members.len_range(start, end)
}

/// Writes the members from `start` on into the buffer, ascending, until it is full or there are no more. Returns how
/// many.
#[tactic(auto, using(crate::proofs::EmptinessLemmas::fills_no_sparse))]
#[unsafe(no_mangle)]
pub extern "C" fn hibitset_sparse_next_many(
    set: &mut SparseSet,
    start: u32,
    buffer: &mut [u32],
) -> usize
    ensures answer { Fills (members (has set.old) start (MAX_EID - start)) buffer.old result
        buffer.new }
    ensures same { IsSame set.old set.new }
{
    if !set.made {
        return 0;
    }
    let SetOrSeat::Sparse(members) = set.handle.as_mut() else {
        unreachable!()
    };
    fill(&*members, start, buffer)
}

/// Writes the members before `end` into the buffer, descending, until it is full or there are no more. Returns how
/// many.
#[tactic(auto, using(crate::proofs::EmptinessLemmas::fills_back_no_sparse))]
#[unsafe(no_mangle)]
pub extern "C" fn hibitset_sparse_prev_many(
    set: &mut SparseSet,
    end: u32,
    buffer: &mut [u32],
) -> usize
    ensures answer { Fills (reverse (members_below (min end MAX_EID) (has set.old))) buffer.old
        result buffer.new }
    ensures same { IsSame set.old set.new }
{
    if !set.made {
        return 0;
    }
    let SetOrSeat::Sparse(members) = set.handle.as_mut() else {
        unreachable!()
    };
    fill_back(&*members, end, buffer)
}

/// Writes the members from `start` on into the buffer as `hibitset_sparse_next_many` does, each plus `base`, modulo
/// 2^64. Returns how many.
#[tactic(auto, using(crate::proofs::EmptinessLemmas::fills_above_no_sparse))]
#[unsafe(no_mangle)]
pub extern "C" fn hibitset_sparse_next_many_u64(
    set: &mut SparseSet,
    start: u32,
    base: u64,
    buffer: &mut [u64],
) -> usize
    ensures answer { Fills (map (λ i. (base + i) % 2 ^ 64) (members (has set.old) start
        (MAX_EID - start))) buffer.old result buffer.new }
    ensures same { IsSame set.old set.new }
{
    if !set.made {
        return 0;
    }
    let SetOrSeat::Sparse(members) = set.handle.as_mut() else {
        unreachable!()
    };
    fill_above(&*members, start, base, buffer)
}

/// Returns how many bytes the nonzero words of a set and their tables take.
#[tactic(auto, using(crate::proofs::EmptinessLemmas::no_bytes))]
#[unsafe(no_mangle)]
pub extern "C" fn hibitset_sparse_memory(set: &mut SparseSet) -> usize
    ensures answer { result ≡ memory_of (word_of set.old) }
    ensures same { IsSame set.old set.new }
{
    if !set.made {
        return 0;
    }
    let SetOrSeat::Sparse(members) = set.handle.as_mut() else {
        unreachable!()
    };
    members.memory()
}
