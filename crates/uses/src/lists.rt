//! Sets made of lists and of ranges, and extended by lists.
ghost use Rattle.std.specs.Prelude.{◌≡◌, ℕ, ◌+◌, ◌-◌, ◌*◌, ◌/◌, ◌^◌, ◌<◌, ◌≤◌, ◌↔◌, ◌⊎◌, true, length, take, IfOk, IfErr, OnOk, Contains};
ghost use Rattle.hibitset.specs.Prelude.{place_of, InRangeBefore, IsRefusalIn, LacksRoom, LiesApartIn, LAYERS, MAX_EID, has, slice_len};
ghost use Rattle.uses.specs.Lists.{IsRefusalFrom, BeginsWord};

use hibitset::{BitSet, BuildError, Index};
use std::alloc::Global;

/// The set of the indices of a list, with no more words in a layer than they need.
///
/// # Errors
///
/// The place of the first index that is out of range, or whose allocation failed: then its word lies past those of all
/// before it.
pub fn set_of(alloc: Global, list: &[Index]) -> Result<BitSet, BuildError>
    ensures members { IfOk result (λ set. (i : ℕ) → (has set i ≡ true) ↔ Contains list.now i) }
    ensures upper_len_max { IfOk result (λ set. (l end : ℕ) → l < LAYERS - 1
        → ((i : ℕ) → Contains list.now i → i / 64 < 64 ^ l * end) → slice_len set l ≤ end) }
    ensures in_range { IfOk result (λ _. InRangeBefore MAX_EID list.now (length list.now)) }
    ensures error_place { IfErr result (λ error. place_of error < length list.now) }
    ensures before { IfErr result (λ error. InRangeBefore MAX_EID list.now (place_of error)) }
    ensures reason { IfErr result (IsRefusalIn MAX_EID list.now) }
    ensures apart { IfErr result (LiesApartIn (λ i j. i / 64 < j / 64) list.now) }
{
    BitSet::from_slice(alloc, list)
}

/// The set of the indices from `start` up to, but without, `end`, with no more words in a layer than those below `end`
/// need.
///
/// # Errors
///
/// The place of the first index that is out of range, or whose allocation failed: then it is `start`, or the first
/// index of a word.
pub fn set_of_range(alloc: Global, start: Index, end: Index) -> Result<BitSet, BuildError>
    ensures members { IfOk result (λ set. (i : ℕ)
        → (has set i ≡ true) ↔ ((start ≤ i) × (i < end))) }
    ensures upper_len_max { IfOk result (λ set. (l : ℕ) → l < LAYERS - 1 → (n : ℕ) → end ≤ 64 ^ (l + 1) * n
        → slice_len set l ≤ n) }
    ensures in_range { IfOk result (λ _. start < end → end ≤ MAX_EID) }
    ensures error_place { IfErr result (λ error. start + place_of error < end) }
    ensures before { IfErr result (λ error. (k : ℕ) → k < place_of error → start + k < MAX_EID) }
    ensures reason { IfErr result (IsRefusalFrom MAX_EID start) }
    ensures word { IfErr result (BeginsWord start) }
{
    BitSet::from_indices(alloc, start..end)
}

/// Adds the indices of a list to a set.
///
/// # Errors
///
/// The place of the first index that is out of range, or whose allocation failed: then the set has no word for it.
/// Those before it are added.
pub fn add_all(set: &mut BitSet, list: &[Index]) -> Result<(), BuildError>
    ensures added { OnOk result ((i : ℕ)
        → (has set.new i ≡ true) ↔ ((has set.old i ≡ true) ⊎ Contains list.now i)) }
    ensures in_range { OnOk result (InRangeBefore MAX_EID list.now (length list.now)) }
    ensures added_before { IfErr result (λ error. (i : ℕ)
        → (has set.new i ≡ true) ↔ ((has set.old i ≡ true)
        ⊎ Contains (take (place_of error) list.now) i)) }
    ensures error_place { IfErr result (λ error. place_of error < length list.now) }
    ensures before { IfErr result (λ error. InRangeBefore MAX_EID list.now (place_of error)) }
    ensures reason { IfErr result (IsRefusalIn MAX_EID list.now) }
    ensures lacks_room { IfErr result (LacksRoom (λ i. slice_len set.new 0 ≤ i / 64) list.now) }
{
    set.extend_from_slice(list)
}
