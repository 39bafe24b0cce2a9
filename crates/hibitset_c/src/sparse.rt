//! Calls that change a sparse set, or look one index up.
#![tactic(auto)]

ghost use Rattle.std.specs.Prelude.{◌≡◌, ◌≢◌, ◌⊎◌, ◌↔◌, ℕ, ◌/◌, ◌<◌, ◌≤◌, ◌==◌, ◌||◌, ◌&&◌, not, true, false, length, All, take};
ghost use Rattle.hibitset_base.specs.First.{HasNone, IsFirst, IsLast};
ghost use Rattle.hibitset_base.specs.Ranges.{in_range};
ghost use Rattle.hibitset_base.specs.Virtual.{differ};
ghost use Rattle.hibitset_base.specs.declared.util.TheConstants.{MAX_EID};
ghost use Rattle.hibitset_sparse.specs.SparseBitSet.{has as sparse_has, word_of as sparse_word};
ghost use Rattle.hibitset_c.specs.List.{AddsFirst, StopsAt};
ghost use Rattle.hibitset_c.specs.Sparse.{has, SharesWordWithMember, OwnsNoMemory, IsSame};
ghost use Rattle.hibitset_c.specs.declared.status.TheConstants.{OK, PRESENT, NO_MEMORY, OUT_OF_RANGE};

use crate::set_or_seat::SetOrSeat;
use crate::sparse_set::SparseSet;
use crate::status::{NO_MEMORY, OK, OUT_OF_RANGE, PRESENT};
use hibitset::{DrainableBitSet, Index, MAX_EID};
use hibitset_base::build::BuildError;
use hibitset_sparse::SparseBitSet;
use std::alloc::Global;

/// Removes all members, and frees the memory.
#[unsafe(no_mangle)]
pub extern "C" fn hibitset_sparse_free(alloc: Global, set: &mut SparseSet)
    ensures empty { (i : ℕ) → has set.new i ≡ false }
    ensures freed { OwnsNoMemory set.new }
{
    set.release(alloc);
}

/// Removes all members.
#[unsafe(no_mangle)]
pub extern "C" fn hibitset_sparse_clear(set: &mut SparseSet)
    ensures { (i : ℕ) → has set.new i ≡ false }
{
    if set.made {
        let SetOrSeat::Sparse(members) = set.handle.as_mut() else {
            unreachable!()
        };
        members.clear();
    }
}

/// Gives back the memory that no member needs.
#[unsafe(no_mangle)]
pub extern "C" fn hibitset_sparse_shrink_to_fit(set: &mut SparseSet)
    ensures { (i : ℕ) → has set.new i ≡ has set.old i }
{
    if set.made {
        let SetOrSeat::Sparse(members) = set.handle.as_mut() else {
            unreachable!()
        };
        members.shrink_to_fit();
    }
}

/// Adds an index. Returns whether it was a member, or why it is none now.
#[tactic(auto, using(crate::proofs::SparseLemmas::word_of_near))]
#[unsafe(no_mangle)]
pub extern "C" fn hibitset_sparse_add(alloc: Global, set: &mut SparseSet, index: u32) -> u32
    ensures out_of_range { (result ≡ OUT_OF_RANGE) ↔ (MAX_EID ≤ index) }
    ensures was_member { result ≡ PRESENT → has set.old index ≡ true }
    ensures was_clear { result ≡ OK → has set.old index ≡ false }
    ensures added { result ≤ PRESENT → (i : ℕ) → has set.new i ≡ (has set.old i || i == index) }
    ensures err { PRESENT < result → (i : ℕ) → has set.new i ≡ has set.old i }
    ensures succeeds_near { SharesWordWithMember set.old index → result ≢ NO_MEMORY }
    ensures status { result ≤ OUT_OF_RANGE }
{
    if index as usize >= MAX_EID {
        return OUT_OF_RANGE;
    }
    if !set.make(alloc) {
        return NO_MEMORY;
    }
    let SetOrSeat::Sparse(members) = set.handle.as_mut() else {
        unreachable!()
    };
    match members.add(index) {
        Ok(was_member) => { if was_member { PRESENT } else { OK } }
        Err(_) => NO_MEMORY,
    }
}

// Adds the indices of a list in order until one is refused. Returns how many were added, and why no more.
fn add_list(members: &mut SparseBitSet, list: &[Index]) -> (usize, u32)
    ensures added { AddsFirst list.now result.0 (sparse_has members.old) (sparse_has members.new) }
    ensures count { result.0 ≤ length list.now }
    ensures in_range { All (λ i. i < MAX_EID) (take result.0 list.now) }
    ensures all { result.1 ≡ OK → result.0 ≡ length list.now }
    ensures out_of_range { result.1 ≡ OUT_OF_RANGE → StopsAt list.now result.0 (λ i. MAX_EID ≤ i) }
    ensures no_memory { result.1 ≡ NO_MEMORY → StopsAt list.now result.0
        (λ i. (i < MAX_EID) × (sparse_word members.new 0 (i / 64) ≡ 0)) }
    ensures status { (result.1 ≡ OK) ⊎ (NO_MEMORY ≤ result.1) × (result.1 ≤ OUT_OF_RANGE) }
{
    match members.extend_from_slice(list) {
        Ok(()) => (list.len(), OK),
        Err(BuildError::OutOfRange { place, index: _ }) => (place, OUT_OF_RANGE),
        Err(BuildError::Memory { place }) => (place, NO_MEMORY),
    }
}

/// Adds the indices of a list in order, up to the first that is not added. Leaves in `added` how many were added.
#[tactic(auto, using(crate::proofs::SparseLemmas::not_near))]
#[unsafe(no_mangle)]
pub extern "C" fn hibitset_sparse_add_many(
    alloc: Global,
    set: &mut SparseSet,
    indices: &[u32],
    added: &mut usize,
) -> u32
    ensures members { AddsFirst indices.now added.new (has set.old) (has set.new) }
    ensures count { added.new ≤ length indices.now }
    ensures in_range { All (λ i. i < MAX_EID) (take added.new indices.now) }
    ensures all { result ≡ OK → added.new ≡ length indices.now }
    ensures out_of_range { result ≡ OUT_OF_RANGE → StopsAt indices.now added.new (λ i. MAX_EID ≤ i) }
    ensures no_memory { result ≡ NO_MEMORY → StopsAt indices.now added.new
        (λ i. (i < MAX_EID) × ¬ SharesWordWithMember set.new i) }
    ensures status { (result ≡ OK) ⊎ (NO_MEMORY ≤ result) × (result ≤ OUT_OF_RANGE) }
{
    *added = 0;
    if indices.is_empty() {
        return OK;
    }
    // Before anything is allocated.
    if indices[0] as usize >= MAX_EID {
        return OUT_OF_RANGE;
    }
    if !set.make(alloc) {
        return NO_MEMORY;
    }
    let SetOrSeat::Sparse(members) = set.handle.as_mut() else {
        unreachable!()
    };
    let (count, status) = add_list(members, indices);
    *added = count;
    status
}

/// Removes an index. Returns whether it was a member.
#[unsafe(no_mangle)]
pub extern "C" fn hibitset_sparse_remove(set: &mut SparseSet, index: u32) -> bool
    ensures was_member { result ≡ has set.old index }
    ensures removed { (i : ℕ) → has set.new i ≡ (has set.old i && not (i == index)) }
{
    if !set.made {
        return false;
    }
    let SetOrSeat::Sparse(members) = set.handle.as_mut() else {
        unreachable!()
    };
    members.remove(index)
}

/// Returns whether an index is a member.
#[unsafe(no_mangle)]
pub extern "C" fn hibitset_sparse_contains(set: &mut SparseSet, index: u32) -> bool
    ensures answer { result ≡ has set.old index }
    ensures same { IsSame set.old set.new }
{
    if !set.made {
        return false;
    }
    let SetOrSeat::Sparse(members) = set.handle.as_mut() else {
        unreachable!()
    };
    members.contains(index)
}

/// Adds the indices from `start` on and below `end`.
#[unsafe(no_mangle)]
pub extern "C" fn hibitset_sparse_add_range(
    alloc: Global,
    set: &mut SparseSet,
    start: u32,
    end: u32,
) -> u32
    ensures out_of_range { (result ≡ OUT_OF_RANGE) ↔ (MAX_EID < end) }
    ensures added { result ≡ OK → (i : ℕ)
        → has set.new i ≡ (has set.old i || in_range start end i) }
    ensures err { result ≢ OK → (i : ℕ) → has set.new i ≡ has set.old i }
    ensures succeeds_empty { end ≤ start → result ≢ NO_MEMORY }
    ensures status { (result ≡ OK) ⊎ (NO_MEMORY ≤ result) × (result ≤ OUT_OF_RANGE) }
{
    if end as usize > MAX_EID {
        return OUT_OF_RANGE;
    }
    if start >= end {
        return OK;
    }
    if !set.make(alloc) {
        return NO_MEMORY;
    }
    let SetOrSeat::Sparse(members) = set.handle.as_mut() else {
        unreachable!()
    };
    match members.add_range(start, end) {
        Ok(()) => OK,
        Err(_) => NO_MEMORY,
    }
}

/// Removes the indices from `start` on and below `end`.
#[unsafe(no_mangle)]
pub extern "C" fn hibitset_sparse_remove_range(set: &mut SparseSet, start: u32, end: u32)
    ensures { (i : ℕ) → has set.new i ≡ (has set.old i && not (in_range start end i)) }
{
    if set.made {
        let SetOrSeat::Sparse(members) = set.handle.as_mut() else {
            unreachable!()
        };
        members.remove_range(start, end);
    }
}

/// Flips the indices from `start` on and below `end`: members are removed, the others are added.
#[unsafe(no_mangle)]
pub extern "C" fn hibitset_sparse_flip_range(
    alloc: Global,
    set: &mut SparseSet,
    start: u32,
    end: u32,
) -> u32
    ensures out_of_range { (result ≡ OUT_OF_RANGE) ↔ (MAX_EID < end) }
    ensures flipped { result ≡ OK → (i : ℕ)
        → has set.new i ≡ differ (has set.old i) (in_range start end i) }
    ensures err { result ≢ OK → (i : ℕ) → has set.new i ≡ has set.old i }
    ensures succeeds_empty { end ≤ start → result ≢ NO_MEMORY }
    ensures status { (result ≡ OK) ⊎ (NO_MEMORY ≤ result) × (result ≤ OUT_OF_RANGE) }
{
    if end as usize > MAX_EID {
        return OUT_OF_RANGE;
    }
    if start >= end {
        return OK;
    }
    if !set.make(alloc) {
        return NO_MEMORY;
    }
    let SetOrSeat::Sparse(members) = set.handle.as_mut() else {
        unreachable!()
    };
    match members.flip_range(start, end) {
        Ok(()) => OK,
        Err(_) => NO_MEMORY,
    }
}

/// Takes the least member out, leaves it in `index`, and returns whether there was one.
#[unsafe(no_mangle)]
pub extern "C" fn hibitset_sparse_pop_first(set: &mut SparseSet, index: &mut u32) -> bool
    ensures found { result ≡ true → IsFirst MAX_EID (has set.old) index.new }
    ensures absent { result ≡ false → HasNone MAX_EID (has set.old) }
    ensures removed { result ≡ true → (i : ℕ)
        → has set.new i ≡ (has set.old i && not (i == index.new)) }
    ensures unchanged { result ≡ false → (index.new ≡ index.old)
        × ((i : ℕ) → has set.new i ≡ has set.old i) }
{
    if !set.made {
        return false;
    }
    let SetOrSeat::Sparse(members) = set.handle.as_mut() else {
        unreachable!()
    };
    match members.pop_first() {
        Some(first) => {
            *index = first;
            true
        }
        None => false,
    }
}

/// Takes the greatest member out, leaves it in `index`, and returns whether there was one.
#[unsafe(no_mangle)]
pub extern "C" fn hibitset_sparse_pop_last(set: &mut SparseSet, index: &mut u32) -> bool
    ensures found { result ≡ true → IsLast MAX_EID (has set.old) index.new }
    ensures absent { result ≡ false → HasNone MAX_EID (has set.old) }
    ensures removed { result ≡ true → (i : ℕ)
        → has set.new i ≡ (has set.old i && not (i == index.new)) }
    ensures unchanged { result ≡ false → (index.new ≡ index.old)
        × ((i : ℕ) → has set.new i ≡ has set.old i) }
{
    if !set.made {
        return false;
    }
    let SetOrSeat::Sparse(members) = set.handle.as_mut() else {
        unreachable!()
    };
    match members.pop_last() {
        Some(last) => {
            *index = last;
            true
        }
        None => false,
    }
}
