//! Calls on the capacity of a set, and on the memory that it takes.
#![tactic(auto)]

ghost use Rattle.std.specs.Prelude.{◌≡◌, ◌≢◌, ◌⊎◌, ◌↔◌, ℕ, ◌+◌, ◌-◌, ◌*◌, ◌/◌, ◌<◌, ◌≤◌, max as greater};
ghost use Rattle.hibitset_base.specs.declared.util.TheConstants.{MAX_EID};
ghost use Rattle.hibitset_c.specs.LentSet.{word_count};
ghost use Rattle.hibitset_c.specs.Set.{has, layer0_len};
ghost use Rattle.hibitset_c.specs.declared.status.TheConstants.{OK, NO_MEMORY, OUT_OF_RANGE};

use crate::change::{hibitset_add, hibitset_remove};
use crate::lent_set::LentSet;
use crate::set::Set;
use crate::status::{NO_MEMORY, OK, OUT_OF_RANGE};
use hibitset::MAX_EID;
use std::alloc::Global;

/// Makes capacity for each index below `max`, and keeps the members and the capacity that there is.
#[unsafe(no_mangle)]
pub extern "C" fn hibitset_reserve(alloc: Global, set: &mut Set, max: u32) -> u32
    ensures out_of_range { (result ≡ OUT_OF_RANGE) ↔ (MAX_EID < max) }
    ensures members { (i : ℕ) → has set.new i ≡ has set.old i }
    ensures status { (result ≡ OK) ⊎ (NO_MEMORY ≤ result) × (result ≤ OUT_OF_RANGE) }
    ensures succeeds { max ≤ 64 * layer0_len set.old → result ≢ NO_MEMORY }
    ensures length { result ≡ OK
        → layer0_len set.new ≡ greater (layer0_len set.old) ((max + 63) / 64) }
    ensures err_len { result ≢ OK → layer0_len set.new ≡ layer0_len set.old }
{
    if max as usize > MAX_EID {
        return OUT_OF_RANGE;
    }
    if max == 0 || set.words.has_word_of(max - 1) {
        return OK;
    }
    // An addition makes layer 0 as long as its index needs, and a removal leaves it so.
    let last = max - 1;
    if hibitset_add(alloc, set, last) == NO_MEMORY {
        return NO_MEMORY;
    }
    hibitset_remove(set, last);
    OK
}

/// Returns how many bytes the words of a set take.
#[unsafe(no_mangle)]
pub extern "C" fn hibitset_memory(set: &LentSet<'_>) -> usize
    ensures { result ≡ 8 * word_count set.now }
{
    8 * (set.layer0.len() + set.layer1.len() + set.layer2.len() + set.layer3.len())
}
