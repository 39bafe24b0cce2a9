//! Additions that do not allocate.
ghost use Rattle.std.specs.Prelude.{◌≡◌, ℕ, ◌/◌, ◌<◌, ◌==◌, ◌||◌, true, length, slice_index, IfOk};
ghost use Rattle.hibitset.specs.Prelude.{MAX_EID, has, word_of, slice_len};
ghost use Rattle.hibitset_atomic.specs.AtomicBitSet.{has as has_atomic};

use hibitset::laws::atomic_laws;
use hibitset::{AtomicBitSet, BitSet, Index};
use std::alloc::{AllocError, Global};

/// Adds an index for which the set has a word, and returns whether it was there. It can't fail, and the set has as many
/// words of layer 0 as before.
pub fn add_without_growth(set: &mut BitSet, id: Index) -> bool
    requires id { id < MAX_EID }
    requires has_word { id / 64 < slice_len set.old 0 }
    ensures was_member { result ≡ has set.old id }
    ensures added { (i : ℕ) → has set.new i ≡ (has set.old i || i == id) }
    ensures length { slice_len set.new 0 ≡ slice_len set.old 0 }
{
    set.add(id).unwrap()
}

/// A copy with one index more, for which the set has a word. The copy has as many words of layer 0.
pub fn with_one_more(set: &BitSet, id: Index) -> Result<BitSet, AllocError>
    requires id { id < MAX_EID }
    requires has_word { id / 64 < slice_len set.now 0 }
    ensures members { IfOk result (λ copy. (i : ℕ) → has copy i ≡ (has set.now i || i == id)) }
    ensures length { IfOk result (λ copy. slice_len copy 0 ≡ slice_len set.now 0) }
{
    let mut copy = set.clone()?;
    add_without_growth(&mut copy, id);
    Ok(copy)
}

/// The words of the two lowest layers, which are saved from a copy, so that the set can be changed meanwhile.
pub fn saved(alloc: Global, set: &BitSet) -> Result<(Vec<usize>, Vec<usize>), AllocError>
    ensures lengths { IfOk result (λ saved. (length saved.0.items ≡ slice_len set.now 0)
        × (length saved.1.items ≡ slice_len set.now 1)) }
    ensures words { IfOk result (λ saved. (p : ℕ)
        → (slice_index saved.0.items p ≡ word_of set.now 0 p)
        × (slice_index saved.1.items p ≡ word_of set.now 1 p)) }
{
    let copy = set.clone()?;
    let members = copy.layer0_as_slice().to_vec(alloc)?;
    let summaries = copy.layer1_as_slice().to_vec(alloc)?;
    Ok((members, summaries))
}

/// Adds an index that lies in the same 4,096 indices as a member, and returns whether it was there.
pub fn add_beside(set: &mut AtomicBitSet, member: Index, id: Index) -> bool
    requires member { has_atomic set.old member ≡ true }
    requires beside { member / 4096 ≡ id / 4096 }
    ensures was_member { result ≡ has_atomic set.old id }
    ensures added { (i : ℕ) → has_atomic set.new i ≡ (has_atomic set.old i || i == id) }
{
    atomic_laws();
    set.add(id).unwrap()
}
