//! Calls that put a sparse set together with a dense one.
#![tactic(auto)]

ghost use Rattle.std.specs.Prelude.{◌≡◌, ◌≢◌, ◌⊎◌, ℕ, ◌≤◌, []};
ghost use Rattle.hibitset_base.specs.Connectives.{is_member, IsDifference, IsIntersection, IsSymmetricDifference, IsUnion};
ghost use Rattle.hibitset_base.specs.Members.{members_below};
ghost use Rattle.hibitset_base.specs.declared.util.TheConstants.{MAX_EID};
ghost use Rattle.hibitset.specs.Extension.{MembersEndBy};
ghost use Rattle.hibitset_c.specs.LentSet.{has as dense_has};
ghost use Rattle.hibitset_c.specs.Set.{has, layer0_len};
ghost use Rattle.hibitset_c.specs.Sparse.{has as sparse_has, IsSame};
ghost use Rattle.hibitset_c.specs.declared.status.TheConstants.{OK, NO_MEMORY};

use crate::combine::make_of;
use crate::lent_set::LentSet;
use crate::set::Set;
use crate::set_or_seat::SetOrSeat;
use crate::sparse_set::SparseSet;
use crate::status::{NO_MEMORY, OK};
use hibitset::BitSetLike;
use hibitset_base::range::BitSetRange;
use hibitset_sparse::SparseBitSet;
use std::alloc::Global;

/// Makes it a sparse set of the members of a dense one.
#[unsafe(no_mangle)]
pub extern "C" fn hibitset_sparse_assign_dense(
    alloc: Global,
    set: &mut SparseSet,
    other: &LentSet<'_>,
) -> u32
    ensures members { result ≡ OK → (i : ℕ)
        → sparse_has set.new i ≡ is_member (dense_has other.now) i }
    ensures err { result ≢ OK → (i : ℕ) → sparse_has set.new i ≡ sparse_has set.old i }
    ensures status { (result ≡ OK) ⊎ (result ≡ NO_MEMORY) }
{
    let Ok(copy) = SparseBitSet::from_set(alloc, other) else {
        return NO_MEMORY;
    };
    if set.replace(alloc, copy) {
        OK
    } else {
        NO_MEMORY
    }
}

/// Adds the members of a dense set.
#[tactic(auto, using(crate::proofs::NoMemberLemmas::or_stays))]
#[unsafe(no_mangle)]
pub extern "C" fn hibitset_sparse_or_assign_dense(
    alloc: Global,
    set: &mut SparseSet,
    other: &LentSet<'_>,
) -> u32
    ensures members { result ≡ OK → IsUnion (sparse_has set.old) (is_member (dense_has other.now))
        (sparse_has set.new) }
    ensures err { result ≢ OK → (i : ℕ) → sparse_has set.new i ≡ sparse_has set.old i }
    ensures succeeds_empty { members_below MAX_EID (dense_has other.now) ≡ [] → result ≡ OK }
    ensures status { (result ≡ OK) ⊎ (result ≡ NO_MEMORY) }
{
    if other.is_empty() {
        return OK;
    }
    if !set.make(alloc) {
        return NO_MEMORY;
    }
    let SetOrSeat::Sparse(members) = set.handle.as_mut() else {
        unreachable!()
    };
    match members.bitor_assign(other) {
        Ok(()) => OK,
        Err(_) => NO_MEMORY,
    }
}

/// Adds the members of a dense set that this one lacks, and removes those that both have.
#[tactic(auto, using(crate::proofs::NoMemberLemmas::xor_stays))]
#[unsafe(no_mangle)]
pub extern "C" fn hibitset_sparse_xor_assign_dense(
    alloc: Global,
    set: &mut SparseSet,
    other: &LentSet<'_>,
) -> u32
    ensures members { result ≡ OK → IsSymmetricDifference (sparse_has set.old)
        (is_member (dense_has other.now)) (sparse_has set.new) }
    ensures err { result ≢ OK → (i : ℕ) → sparse_has set.new i ≡ sparse_has set.old i }
    ensures succeeds_empty { members_below MAX_EID (dense_has other.now) ≡ [] → result ≡ OK }
    ensures status { (result ≡ OK) ⊎ (result ≡ NO_MEMORY) }
{
    if other.is_empty() {
        return OK;
    }
    if !set.make(alloc) {
        return NO_MEMORY;
    }
    let SetOrSeat::Sparse(members) = set.handle.as_mut() else {
        unreachable!()
    };
    match members.bitxor_assign(other) {
        Ok(()) => OK,
        Err(_) => NO_MEMORY,
    }
}

/// Removes the members that a dense set lacks.
#[unsafe(no_mangle)]
pub extern "C" fn hibitset_sparse_and_assign_dense(set: &mut SparseSet, other: &LentSet<'_>)
    ensures { IsIntersection (sparse_has set.old) (dense_has other.now) (sparse_has set.new) }
{
    if set.made {
        let SetOrSeat::Sparse(members) = set.handle.as_mut() else {
            unreachable!()
        };
        *members &= other;
    }
}

/// Removes the members that a dense set has.
#[unsafe(no_mangle)]
pub extern "C" fn hibitset_sparse_andnot_assign_dense(set: &mut SparseSet, other: &LentSet<'_>)
    ensures { IsDifference (sparse_has set.old) (dense_has other.now) (sparse_has set.new) }
{
    if set.made {
        let SetOrSeat::Sparse(members) = set.handle.as_mut() else {
            unreachable!()
        };
        members.subtract_assign(other);
    }
}

/// Makes it a dense set of the members of a sparse one.
#[unsafe(no_mangle)]
pub extern "C" fn hibitset_assign_sparse(alloc: Global, set: &mut Set, other: &mut SparseSet) -> u32
    ensures members { result ≡ OK → (i : ℕ) → has set.new i ≡ sparse_has other.old i }
    ensures err { result ≢ OK → (i : ℕ) → has set.new i ≡ has set.old i }
    ensures same { IsSame other.old other.new }
    ensures status { (result ≡ OK) ⊎ (result ≡ NO_MEMORY) }

    // How many words there are.
    ensures len_max { result ≡ OK → (end : ℕ) → MembersEndBy (sparse_has other.old) end
        → layer0_len set.new ≤ end }
    ensures err_len { result ≢ OK → layer0_len set.new ≡ layer0_len set.old }
{
    if !other.made {
        set.release(alloc);
        return OK;
    }
    let SetOrSeat::Sparse(members) = other.handle.as_mut() else {
        unreachable!()
    };
    make_of(alloc, set, &*members)
}

/// Adds the members of a sparse set.
#[unsafe(no_mangle)]
pub extern "C" fn hibitset_or_assign_sparse(
    alloc: Global,
    set: &mut Set,
    other: &mut SparseSet,
) -> u32
    ensures members { result ≡ OK → IsUnion (has set.old) (sparse_has other.old) (has set.new) }
    ensures err { result ≢ OK → (i : ℕ) → has set.new i ≡ has set.old i }
    ensures same { IsSame other.old other.new }
    ensures status { (result ≡ OK) ⊎ (result ≡ NO_MEMORY) }

    // How many words there are, and when none has to be allocated.
    ensures succeeds { MembersEndBy (sparse_has other.old) (layer0_len set.old) → result ≡ OK }
    ensures len_min { layer0_len set.old ≤ layer0_len set.new }
    ensures len_max { (end : ℕ) → layer0_len set.old ≤ end → MembersEndBy (sparse_has other.old) end
        → layer0_len set.new ≤ end }
    ensures err_len { result ≢ OK → layer0_len set.new ≡ layer0_len set.old }
{
    if !other.made {
        return OK;
    }
    let SetOrSeat::Sparse(members) = other.handle.as_mut() else {
        unreachable!()
    };
    if members.is_empty() {
        return OK;
    }
    if !set.make(alloc) {
        return NO_MEMORY;
    }
    let bits = set.handle.as_mut();
    let done = bits.bitor_assign(&*members);
    set.words.show(bits);
    match done {
        Ok(()) => OK,
        Err(_) => NO_MEMORY,
    }
}

/// Adds the members of a sparse set that this one lacks, and removes those that both have.
#[unsafe(no_mangle)]
pub extern "C" fn hibitset_xor_assign_sparse(
    alloc: Global,
    set: &mut Set,
    other: &mut SparseSet,
) -> u32
    ensures members { result ≡ OK → IsSymmetricDifference (has set.old) (sparse_has other.old)
        (has set.new) }
    ensures err { result ≢ OK → (i : ℕ) → has set.new i ≡ has set.old i }
    ensures same { IsSame other.old other.new }
    ensures status { (result ≡ OK) ⊎ (result ≡ NO_MEMORY) }

    // How many words there are, and when none has to be allocated.
    ensures succeeds { MembersEndBy (sparse_has other.old) (layer0_len set.old) → result ≡ OK }
    ensures len_min { layer0_len set.old ≤ layer0_len set.new }
    ensures len_max { (end : ℕ) → layer0_len set.old ≤ end → MembersEndBy (sparse_has other.old) end
        → layer0_len set.new ≤ end }
    ensures err_len { result ≢ OK → layer0_len set.new ≡ layer0_len set.old }
{
    if !other.made {
        return OK;
    }
    let SetOrSeat::Sparse(members) = other.handle.as_mut() else {
        unreachable!()
    };
    if members.is_empty() {
        return OK;
    }
    if !set.make(alloc) {
        return NO_MEMORY;
    }
    let bits = set.handle.as_mut();
    let done = bits.bitxor_assign(&*members);
    set.words.show(bits);
    match done {
        Ok(()) => OK,
        Err(_) => NO_MEMORY,
    }
}

/// Removes the members that a sparse set lacks.
#[unsafe(no_mangle)]
pub extern "C" fn hibitset_and_assign_sparse(set: &mut Set, other: &mut SparseSet)
    ensures members { IsIntersection (has set.old) (sparse_has other.old) (has set.new) }
    ensures length { layer0_len set.new ≡ layer0_len set.old }
    ensures same { IsSame other.old other.new }
{
    if !set.made {
        return;
    }
    let bits = set.handle.as_mut();
    if !other.made {
        *bits &= &BitSetRange { start: 0, end: 0 };
        set.words.follow_top(bits);
        return;
    }
    let SetOrSeat::Sparse(members) = other.handle.as_mut() else {
        unreachable!()
    };
    *bits &= &*members;
    set.words.follow_top(bits);
}

/// Removes the members that a sparse set has.
#[unsafe(no_mangle)]
pub extern "C" fn hibitset_andnot_assign_sparse(set: &mut Set, other: &mut SparseSet)
    ensures members { IsDifference (has set.old) (sparse_has other.old) (has set.new) }
    ensures length { layer0_len set.new ≡ layer0_len set.old }
    ensures same { IsSame other.old other.new }
{
    if !set.made || !other.made {
        return;
    }
    let SetOrSeat::Sparse(members) = other.handle.as_mut() else {
        unreachable!()
    };
    let bits = set.handle.as_mut();
    bits.subtract_assign(&*members);
    set.words.follow_top(bits);
}
