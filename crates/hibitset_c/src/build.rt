//! Calls that make a set anew, or add a list of indices to one.
#![tactic(auto)]

ghost use Rattle.std.specs.Prelude.{◌≡◌, ◌≢◌, ◌⊎◌, ◌↔◌, ℕ, ◌+◌, ◌-◌, ◌/◌, ◌^◌, ◌<◌, ◌≤◌, false, length, All, take};
ghost use Rattle.hibitset_base.specs.declared.util.TheConstants.{LAYERS, MAX_EID};
ghost use Rattle.hibitset.specs.BitSet.{has as bits_have, slice_len};
ghost use Rattle.hibitset.specs.WordBits.{stands_in};
ghost use Rattle.hibitset_c.specs.LentSet.{has as other_has};
ghost use Rattle.hibitset_c.specs.List.{AddsFirst, StopsAt};
ghost use Rattle.hibitset_c.specs.Set.{has, layer0_len};
ghost use Rattle.hibitset_c.specs.declared.status.TheConstants.{OK, NO_MEMORY, OUT_OF_RANGE};

use crate::lent_set::LentSet;
use crate::set::Set;
use crate::status::{NO_MEMORY, OK, OUT_OF_RANGE};
use hibitset::{BitSet, Index, MAX_EID};
use std::alloc::Global;

const MAX_WORDS: usize = MAX_EID / 64;

/// Makes it an empty set with capacity for each index below `max`.
#[unsafe(no_mangle)]
pub extern "C" fn hibitset_with_capacity(alloc: Global, set: &mut Set, max: u32) -> u32
    ensures out_of_range { (result ≡ OUT_OF_RANGE) ↔ (MAX_EID < max) }
    ensures empty { result ≡ OK → (i : ℕ) → has set.new i ≡ false }
    ensures err { result ≢ OK → (i : ℕ) → has set.new i ≡ has set.old i }
    ensures status { (result ≡ OK) ⊎ (NO_MEMORY ≤ result) × (result ≤ OUT_OF_RANGE) }
    ensures length { result ≡ OK → layer0_len set.new ≡ (max + 63) / 64 }
    ensures capacity { result ≡ OK → (i : ℕ) → i < max → i / 64 < layer0_len set.new }
    ensures err_len { result ≢ OK → layer0_len set.new ≡ layer0_len set.old }
{
    if max as usize > MAX_EID {
        return OUT_OF_RANGE;
    }
    let Ok(made) = BitSet::with_capacity(alloc, max) else {
        return NO_MEMORY;
    };
    if set.replace(alloc, made) {
        OK
    } else {
        NO_MEMORY
    }
}

/// Makes it the set whose words of layer 0 are these: index `64 * p + b` is a member if bit `b` of word `p` is set.
#[unsafe(no_mangle)]
pub extern "C" fn hibitset_assign_words(alloc: Global, set: &mut Set, words: &[usize]) -> u32
    ensures out_of_range { (result ≡ OUT_OF_RANGE) ↔ (64 ^ (LAYERS - 1) < length words.now) }
    ensures members { result ≡ OK → (i : ℕ) → has set.new i ≡ stands_in words.now i }
    ensures err { result ≢ OK → (i : ℕ) → has set.new i ≡ has set.old i }
    ensures status { (result ≡ OK) ⊎ (NO_MEMORY ≤ result) × (result ≤ OUT_OF_RANGE) }
    ensures length { result ≡ OK → layer0_len set.new ≡ length words.now }
    ensures err_len { result ≢ OK → layer0_len set.new ≡ layer0_len set.old }
{
    if words.len() > MAX_WORDS {
        return OUT_OF_RANGE;
    }
    let Ok(made) = BitSet::from_words(alloc, words) else {
        return NO_MEMORY;
    };
    if set.replace(alloc, made) {
        OK
    } else {
        NO_MEMORY
    }
}

/// Makes it a copy of the other set.
#[tactic(auto, unfolding(crate::specs::LentSet::has, crate::specs::LentSet::word_of))]
#[unsafe(no_mangle)]
pub extern "C" fn hibitset_internal_assign(alloc: Global, set: &mut Set, other: &LentSet<'_>) -> u32
    ensures members { result ≡ OK → (i : ℕ) → has set.new i ≡ other_has other.now i }
    ensures err { result ≢ OK → (i : ℕ) → has set.new i ≡ has set.old i }
    ensures status { (result ≡ OK) ⊎ (result ≡ NO_MEMORY) }
    ensures length { result ≡ OK → layer0_len set.new ≡ length other.now.layer0.now }
    ensures err_len { result ≢ OK → layer0_len set.new ≡ layer0_len set.old }
{
    let Ok(made) = BitSet::from_layers(
        alloc,
        other.layer0,
        other.layer1,
        other.layer2,
        other.layer3,
        other.top,
    ) else {
        return NO_MEMORY;
    };
    if set.replace(alloc, made) {
        OK
    } else {
        NO_MEMORY
    }
}

// Adds the indices of a list in order until one is refused. Returns how many were added, and why no more.
#[inline]
fn add_list(set: &mut BitSet, list: &[Index]) -> (usize, u32)
    ensures added { AddsFirst list.now result.0 (bits_have set.old) (bits_have set.new) }
    ensures count { result.0 ≤ length list.now }
    ensures in_range { All (λ i. i < MAX_EID) (take result.0 list.now) }
    ensures all { result.1 ≡ OK → result.0 ≡ length list.now }
    ensures out_of_range { result.1 ≡ OUT_OF_RANGE → StopsAt list.now result.0 (λ i. MAX_EID ≤ i) }
    ensures no_memory { result.1 ≡ NO_MEMORY
        → StopsAt list.now result.0 (λ i. (i < MAX_EID) × (slice_len set.new 0 ≤ i / 64)) }
    ensures status { (result.1 ≡ OK) ⊎ (NO_MEMORY ≤ result.1) × (result.1 ≤ OUT_OF_RANGE) }
    ensures len_min { slice_len set.old 0 ≤ slice_len set.new 0 }
    ensures len_max { (end : ℕ) → slice_len set.old 0 ≤ end
        → All (λ i. i / 64 < end) (take result.0 list.now) → slice_len set.new 0 ≤ end }
{
    let mut count = 0;
    while count < list.len() {
        let index = list[count];
        if index as usize >= MAX_EID {
            return (count, OUT_OF_RANGE);
        }
        match set.add(index) {
            Ok(_) => count += 1,
            Err(_) => return (count, NO_MEMORY),
        }
    }
    (count, OK)
}

/// Adds the indices of a list in order, up to the first that is not added. Leaves in `added` how many were added.
#[unsafe(no_mangle)]
pub extern "C" fn hibitset_add_many(
    alloc: Global,
    set: &mut Set,
    indices: &[u32],
    added: &mut usize,
) -> u32
    ensures members { AddsFirst indices.now added.new (has set.old) (has set.new) }
    ensures count { added.new ≤ length indices.now }
    ensures in_range { All (λ i. i < MAX_EID) (take added.new indices.now) }
    ensures all { result ≡ OK → added.new ≡ length indices.now }
    ensures out_of_range { result ≡ OUT_OF_RANGE → StopsAt indices.now added.new (λ i. MAX_EID ≤ i) }
    ensures no_memory { result ≡ NO_MEMORY
        → StopsAt indices.now added.new (λ i. (i < MAX_EID) × (layer0_len set.new ≤ i / 64)) }
    ensures status { (result ≡ OK) ⊎ (NO_MEMORY ≤ result) × (result ≤ OUT_OF_RANGE) }
    ensures len_min { layer0_len set.old ≤ layer0_len set.new }
    ensures len_max { (end : ℕ) → layer0_len set.old ≤ end
        → All (λ i. i / 64 < end) (take added.new indices.now) → layer0_len set.new ≤ end }
{
    *added = 0;
    if indices.is_empty() {
        return OK;
    }
    // Before anything is allocated.
    if indices[0] as usize >= MAX_EID {
        return OUT_OF_RANGE;
    }
    if !set.make(alloc) {
        return NO_MEMORY;
    }
    let bits = set.handle.as_mut();
    let (count, status) = add_list(bits, indices);
    set.words.show(bits);
    *added = count;
    status
}
