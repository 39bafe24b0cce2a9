//! Calls that put two sparse sets together, or compare them.
#![tactic(auto)]

ghost use Rattle.std.specs.Prelude.{◌≡◌, ◌≢◌, ◌⊎◌, ◌↔◌, ℕ, [], IsTrue};
ghost use Rattle.hibitset_base.specs.Connectives.{AreDisjoint, IsDifference, IsIntersection, IsSubset, IsSymmetricDifference, IsUnion};
ghost use Rattle.hibitset_base.specs.Members.{members_below};
ghost use Rattle.hibitset_base.specs.declared.util.TheConstants.{MAX_EID};
ghost use Rattle.hibitset_c.specs.Sparse.{has, IsSame};
ghost use Rattle.hibitset_c.specs.declared.status.TheConstants.{OK, NO_MEMORY};

use crate::set_or_seat::SetOrSeat;
use crate::sparse_set::SparseSet;
use crate::status::{NO_MEMORY, OK};
use hibitset::BitSetLike;
use std::alloc::Global;

/// Makes it a copy of the other set.
#[unsafe(no_mangle)]
pub extern "C" fn hibitset_internal_sparse_assign(
    alloc: Global,
    set: &mut SparseSet,
    other: &mut SparseSet,
) -> u32
    ensures members { result ≡ OK → (i : ℕ) → has set.new i ≡ has other.old i }
    ensures err { result ≢ OK → (i : ℕ) → has set.new i ≡ has set.old i }
    ensures same { IsSame other.old other.new }
    ensures status { (result ≡ OK) ⊎ (result ≡ NO_MEMORY) }
{
    if !other.made {
        set.release(alloc);
        return OK;
    }
    let SetOrSeat::Sparse(others) = other.handle.as_mut() else {
        unreachable!()
    };
    let Ok(copy) = others.clone() else {
        return NO_MEMORY;
    };
    if set.replace(alloc, copy) {
        OK
    } else {
        NO_MEMORY
    }
}

/// Adds the members of the other set.
#[tactic(auto, using(crate::proofs::SparseLemmas::or_none))]
#[unsafe(no_mangle)]
pub extern "C" fn hibitset_internal_sparse_or_assign(
    alloc: Global,
    set: &mut SparseSet,
    other: &mut SparseSet,
) -> u32
    ensures members { result ≡ OK → IsUnion (has set.old) (has other.old) (has set.new) }
    ensures err { result ≢ OK → (i : ℕ) → has set.new i ≡ has set.old i }
    ensures succeeds_empty { members_below MAX_EID (has other.old) ≡ [] → result ≡ OK }
    ensures same { IsSame other.old other.new }
    ensures status { (result ≡ OK) ⊎ (result ≡ NO_MEMORY) }
{
    if !other.made {
        return OK;
    }
    let SetOrSeat::Sparse(others) = other.handle.as_mut() else {
        unreachable!()
    };
    if others.is_empty() {
        return OK;
    }
    if !set.make(alloc) {
        return NO_MEMORY;
    }
    let SetOrSeat::Sparse(members) = set.handle.as_mut() else {
        unreachable!()
    };
    match members.union_with(others) {
        Ok(()) => OK,
        Err(_) => NO_MEMORY,
    }
}

/// Adds the members of the other set that this one lacks, and removes those that both have.
#[tactic(auto, using(crate::proofs::SparseLemmas::xor_none))]
#[unsafe(no_mangle)]
pub extern "C" fn hibitset_internal_sparse_xor_assign(
    alloc: Global,
    set: &mut SparseSet,
    other: &mut SparseSet,
) -> u32
    ensures members { result ≡ OK → IsSymmetricDifference (has set.old) (has other.old)
        (has set.new) }
    ensures err { result ≢ OK → (i : ℕ) → has set.new i ≡ has set.old i }
    ensures succeeds_empty { members_below MAX_EID (has other.old) ≡ [] → result ≡ OK }
    ensures same { IsSame other.old other.new }
    ensures status { (result ≡ OK) ⊎ (result ≡ NO_MEMORY) }
{
    if !other.made {
        return OK;
    }
    let SetOrSeat::Sparse(others) = other.handle.as_mut() else {
        unreachable!()
    };
    if others.is_empty() {
        return OK;
    }
    if !set.make(alloc) {
        return NO_MEMORY;
    }
    let SetOrSeat::Sparse(members) = set.handle.as_mut() else {
        unreachable!()
    };
    match members.symmetric_difference_with(others) {
        Ok(()) => OK,
        Err(_) => NO_MEMORY,
    }
}

/// Removes the members that the other set lacks.
#[unsafe(no_mangle)]
pub extern "C" fn hibitset_internal_sparse_and_assign(set: &mut SparseSet, other: &mut SparseSet)
    ensures members { IsIntersection (has set.old) (has other.old) (has set.new) }
    ensures same { IsSame other.old other.new }
{
    if !set.made {
        return;
    }
    let SetOrSeat::Sparse(members) = set.handle.as_mut() else {
        unreachable!()
    };
    if !other.made {
        members.clear();
        return;
    }
    let SetOrSeat::Sparse(others) = other.handle.as_mut() else {
        unreachable!()
    };
    members.intersect_with(others);
}

/// Removes the members that the other set has.
#[unsafe(no_mangle)]
pub extern "C" fn hibitset_internal_sparse_andnot_assign(set: &mut SparseSet, other: &mut SparseSet)
    ensures members { IsDifference (has set.old) (has other.old) (has set.new) }
    ensures same { IsSame other.old other.new }
{
    if !set.made || !other.made {
        return;
    }
    let SetOrSeat::Sparse(members) = set.handle.as_mut() else {
        unreachable!()
    };
    let SetOrSeat::Sparse(others) = other.handle.as_mut() else {
        unreachable!()
    };
    members.difference_with(others);
}

/// Returns whether the two have no member in common.
#[unsafe(no_mangle)]
pub extern "C" fn hibitset_internal_sparse_is_disjoint(a: &mut SparseSet, b: &mut SparseSet) -> bool
    ensures answer { IsTrue result ↔ AreDisjoint MAX_EID (has a.old) (has b.old) }
    ensures same { IsSame a.old a.new × IsSame b.old b.new }
{
    if !a.made || !b.made {
        return true;
    }
    let SetOrSeat::Sparse(first) = a.handle.as_mut() else {
        unreachable!()
    };
    let SetOrSeat::Sparse(second) = b.handle.as_mut() else {
        unreachable!()
    };
    first.is_disjoint(&*second)
}

/// Returns whether each member of `a` is one of `b`.
#[unsafe(no_mangle)]
pub extern "C" fn hibitset_internal_sparse_is_subset(a: &mut SparseSet, b: &mut SparseSet) -> bool
    ensures answer { IsTrue result ↔ IsSubset MAX_EID (has a.old) (has b.old) }
    ensures same { IsSame a.old a.new × IsSame b.old b.new }
{
    if !a.made {
        return true;
    }
    let SetOrSeat::Sparse(first) = a.handle.as_mut() else {
        unreachable!()
    };
    if !b.made {
        return first.is_empty();
    }
    let SetOrSeat::Sparse(second) = b.handle.as_mut() else {
        unreachable!()
    };
    first.is_subset(&*second)
}

/// Returns whether the two have the same members.
#[unsafe(no_mangle)]
pub extern "C" fn hibitset_internal_sparse_equals(a: &mut SparseSet, b: &mut SparseSet) -> bool
    ensures answer { IsTrue result ↔ (IsSubset MAX_EID (has a.old) (has b.old)
        × IsSubset MAX_EID (has b.old) (has a.old)) }
    ensures same { IsSame a.old a.new × IsSame b.old b.new }
{
    hibitset_internal_sparse_is_subset(a, b) && hibitset_internal_sparse_is_subset(b, a)
}
