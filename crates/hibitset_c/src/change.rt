//! Calls that change a set.
#![tactic(auto)]

ghost use Rattle.std.specs.Prelude.{◌≡◌, ◌≢◌, ◌⊎◌, ◌↔◌, ℕ, ◌+◌, ◌-◌, ◌*◌, ◌/◌, ◌<◌, ◌≤◌, ◌==◌, ◌||◌, ◌&&◌, not, true, false, max};
ghost use Rattle.hibitset_base.specs.Connectives.{is_member, IsDifference, IsSymmetricDifference, IsIntersection, IsUnion};
ghost use Rattle.hibitset_base.specs.declared.util.TheConstants.{MAX_EID};
ghost use Rattle.hibitset.specs.Merge.{NoWordsFrom};
ghost use Rattle.hibitset.specs.WordBits.{in_range};
ghost use Rattle.hibitset_c.specs.LentSet.{has as other_has, word_of as other_word};
ghost use Rattle.hibitset_c.specs.Set.{has, layer0_len, OwnsNoMemory};
ghost use Rattle.hibitset_c.specs.declared.status.TheConstants.{OK, PRESENT, NO_MEMORY, OUT_OF_RANGE};

use crate::lent_set::LentSet;
use crate::set::Set;
use crate::status::{NO_MEMORY, OK, OUT_OF_RANGE, PRESENT};
use hibitset::{BitSetLike, MAX_EID};
use std::alloc::Global;

// Adds an index whose word layer 0 lacks.
#[inline(never)]
fn add_beyond(alloc: Global, set: &mut Set, index: u32) -> u32
    ensures out_of_range { (result ≡ OUT_OF_RANGE) ↔ (MAX_EID ≤ index) }
    ensures was_member { result ≡ PRESENT → has set.old index ≡ true }
    ensures was_clear { result ≡ OK → has set.old index ≡ false }
    ensures added { result ≤ PRESENT → (i : ℕ) → has set.new i ≡ (has set.old i || i == index) }
    ensures err { PRESENT < result → (i : ℕ) → has set.new i ≡ has set.old i }
    ensures status { result ≤ OUT_OF_RANGE }

    // How many words there are, and when none has to be allocated.
    ensures succeeds { index / 64 < layer0_len set.old → result ≢ NO_MEMORY }
    ensures len_min { layer0_len set.old ≤ layer0_len set.new }
    ensures len_max { layer0_len set.new ≤ max (layer0_len set.old) (index / 64 + 1) }
    ensures err_len { PRESENT < result → layer0_len set.new ≡ layer0_len set.old }
{
    if index as usize >= MAX_EID {
        return OUT_OF_RANGE;
    }
    if !set.make(alloc) {
        return NO_MEMORY;
    }
    let bits = set.handle.as_mut();
    let added = bits.add(index);
    set.words.show(bits);
    match added {
        Ok(was_member) => { if was_member { PRESENT } else { OK } }
        Err(_) => NO_MEMORY,
    }
}

// Adds an index whose word layer 0 has.
#[inline(never)]
fn add_within(set: &mut Set, index: u32) -> u32
    requires { index / 64 < set.old.words.len0 }
    ensures was_member { result ≡ PRESENT → has set.old index ≡ true }
    ensures was_clear { result ≡ OK → has set.old index ≡ false }
    ensures added { (i : ℕ) → has set.new i ≡ (has set.old i || i == index) }
    ensures length { layer0_len set.new ≡ layer0_len set.old }
    ensures in_range { index < MAX_EID }
    ensures status { result ≤ PRESENT }
{
    let bits = set.handle.as_mut();
    let was_member = bits.add(index).unwrap();
    set.words.follow_top(bits);
    if was_member { PRESENT } else { OK }
}

/// Adds an index. Returns whether it was a member, or why it is none now.
#[unsafe(no_mangle)]
pub extern "C" fn hibitset_add(alloc: Global, set: &mut Set, index: u32) -> u32
    ensures out_of_range { (result ≡ OUT_OF_RANGE) ↔ (MAX_EID ≤ index) }
    ensures was_member { result ≡ PRESENT → has set.old index ≡ true }
    ensures was_clear { result ≡ OK → has set.old index ≡ false }
    ensures added { result ≤ PRESENT → (i : ℕ) → has set.new i ≡ (has set.old i || i == index) }
    ensures err { PRESENT < result → (i : ℕ) → has set.new i ≡ has set.old i }
    ensures status { result ≤ OUT_OF_RANGE }

    // How many words there are, and when none has to be allocated.
    ensures succeeds { index / 64 < layer0_len set.old → result ≢ NO_MEMORY }
    ensures len_min { layer0_len set.old ≤ layer0_len set.new }
    ensures len_max { layer0_len set.new ≤ max (layer0_len set.old) (index / 64 + 1) }
    ensures err_len { PRESENT < result → layer0_len set.new ≡ layer0_len set.old }
{
    // What changes the set is apart, so that an index that is there is only looked up, and saves no registers.
    if !set.words.has_word_of(index) {
        return add_beyond(alloc, set, index);
    }
    if set.handle.as_mut().contains(index) {
        return PRESENT;
    }
    add_within(set, index)
}

/// Removes an index. Returns whether it was a member.
#[unsafe(no_mangle)]
pub extern "C" fn hibitset_remove(set: &mut Set, index: u32) -> bool
    ensures was_member { result ≡ has set.old index }
    ensures removed { (i : ℕ) → has set.new i ≡ (has set.old i && not (i == index)) }
    ensures length { layer0_len set.new ≡ layer0_len set.old }
{
    if !set.words.has_word_of(index) {
        return false;
    }
    let bits = set.handle.as_mut();
    let was_member = bits.remove(index);
    set.words.follow_top(bits);
    was_member
}

/// Removes all members. The memory is kept for later ones.
#[unsafe(no_mangle)]
pub extern "C" fn hibitset_clear(set: &mut Set)
    ensures empty { (i : ℕ) → has set.new i ≡ false }
    ensures length { layer0_len set.new ≡ 0 }
{
    if set.made {
        let bits = set.handle.as_mut();
        bits.clear();
        set.words.show(bits);
    }
}

/// Removes all members, and frees the memory.
#[unsafe(no_mangle)]
pub extern "C" fn hibitset_free(alloc: Global, set: &mut Set)
    ensures empty { (i : ℕ) → has set.new i ≡ false }
    ensures length { layer0_len set.new ≡ 0 }
    ensures freed { OwnsNoMemory set.new }
{
    set.release(alloc);
}

/// Adds the indices from `start` on and below `end`.
#[unsafe(no_mangle)]
pub extern "C" fn hibitset_add_range(alloc: Global, set: &mut Set, start: u32, end: u32) -> u32
    ensures out_of_range { (result ≡ OUT_OF_RANGE) ↔ (MAX_EID < end) }
    ensures added { result ≡ OK → (i : ℕ)
        → has set.new i ≡ (has set.old i || in_range start end i) }
    ensures err { result ≢ OK → (i : ℕ) → has set.new i ≡ has set.old i }
    ensures status { (result ≡ OK) ⊎ (NO_MEMORY ≤ result) × (result ≤ OUT_OF_RANGE) }

    // How many words there are, and when none has to be allocated.
    ensures succeeds { end ≤ 64 * layer0_len set.old → result ≢ NO_MEMORY }
    ensures succeeds_empty { end ≤ start → result ≢ NO_MEMORY }
    ensures len_min { layer0_len set.old ≤ layer0_len set.new }
    ensures len_max { layer0_len set.new ≤ max (layer0_len set.old) ((end - 1) / 64 + 1) }
    ensures err_len { result ≢ OK → layer0_len set.new ≡ layer0_len set.old }
{
    if end as usize > MAX_EID {
        return OUT_OF_RANGE;
    }
    if start >= end {
        return OK;
    }
    if !set.make(alloc) {
        return NO_MEMORY;
    }
    let bits = set.handle.as_mut();
    let done = bits.add_range(start, end);
    set.words.show(bits);
    match done {
        Ok(()) => OK,
        Err(_) => NO_MEMORY,
    }
}

/// Removes the indices from `start` on and below `end`.
#[unsafe(no_mangle)]
pub extern "C" fn hibitset_remove_range(set: &mut Set, start: u32, end: u32)
    ensures removed { (i : ℕ) → has set.new i ≡ (has set.old i && not (in_range start end i)) }
    ensures length { layer0_len set.new ≡ layer0_len set.old }
{
    if set.made {
        let bits = set.handle.as_mut();
        bits.remove_range(start, end);
        set.words.follow_top(bits);
    }
}

/// Removes the members that the other set lacks.
#[unsafe(no_mangle)]
pub extern "C" fn hibitset_internal_and_assign(set: &mut Set, other: &LentSet<'_>)
    ensures members { IsIntersection (has set.old) (other_has other.now) (has set.new) }
    ensures length { layer0_len set.new ≡ layer0_len set.old }
{
    if set.made {
        let bits = set.handle.as_mut();
        *bits &= other;
        set.words.follow_top(bits);
    }
}

/// Removes the members that the other set has.
#[unsafe(no_mangle)]
pub extern "C" fn hibitset_internal_andnot_assign(set: &mut Set, other: &LentSet<'_>)
    ensures members { IsDifference (has set.old) (other_has other.now) (has set.new) }
    ensures length { layer0_len set.new ≡ layer0_len set.old }
{
    if set.made {
        let bits = set.handle.as_mut();
        bits.subtract_assign(other);
        set.words.follow_top(bits);
    }
}

/// Adds the members of the other set.
#[unsafe(no_mangle)]
pub extern "C" fn hibitset_internal_or_assign(
    alloc: Global,
    set: &mut Set,
    other: &LentSet<'_>,
) -> u32
    ensures members { result ≡ OK → IsUnion (has set.old) (is_member (other_has other.now))
        (has set.new) }
    ensures err { result ≢ OK → (i : ℕ) → has set.new i ≡ has set.old i }
    ensures status { (result ≡ OK) ⊎ (result ≡ NO_MEMORY) }

    // How many words there are, and when none has to be allocated.
    ensures succeeds { NoWordsFrom (other_word other.now) (layer0_len set.old) → result ≡ OK }
    ensures len_min { layer0_len set.old ≤ layer0_len set.new }
    ensures len_max { (end : ℕ) → layer0_len set.old ≤ end → NoWordsFrom (other_word other.now) end
        → layer0_len set.new ≤ end }
    ensures err_len { result ≢ OK → layer0_len set.new ≡ layer0_len set.old }
{
    if other.is_empty() {
        return OK;
    }
    if !set.make(alloc) {
        return NO_MEMORY;
    }
    let bits = set.handle.as_mut();
    let done = bits.bitor_assign(other);
    set.words.show(bits);
    match done {
        Ok(()) => OK,
        Err(_) => NO_MEMORY,
    }
}

/// Adds the members of the other set that this one lacks, and removes those that both have.
#[unsafe(no_mangle)]
pub extern "C" fn hibitset_internal_xor_assign(
    alloc: Global,
    set: &mut Set,
    other: &LentSet<'_>,
) -> u32
    ensures members { result ≡ OK → IsSymmetricDifference (has set.old)
        (is_member (other_has other.now)) (has set.new) }
    ensures err { result ≢ OK → (i : ℕ) → has set.new i ≡ has set.old i }
    ensures status { (result ≡ OK) ⊎ (result ≡ NO_MEMORY) }

    // How many words there are, and when none has to be allocated.
    ensures succeeds { NoWordsFrom (other_word other.now) (layer0_len set.old) → result ≡ OK }
    ensures len_min { layer0_len set.old ≤ layer0_len set.new }
    ensures len_max { (end : ℕ) → layer0_len set.old ≤ end → NoWordsFrom (other_word other.now) end
        → layer0_len set.new ≤ end }
    ensures err_len { result ≢ OK → layer0_len set.new ≡ layer0_len set.old }
{
    if other.is_empty() {
        return OK;
    }
    if !set.make(alloc) {
        return NO_MEMORY;
    }
    let bits = set.handle.as_mut();
    let done = bits.bitxor_assign(other);
    set.words.show(bits);
    match done {
        Ok(()) => OK,
        Err(_) => NO_MEMORY,
    }
}
