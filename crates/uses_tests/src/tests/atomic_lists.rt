//! Atomic sets made of lists, and extended by them.
ghost use Rattle.std.specs.Prelude.{◌≡◌, ◌≢◌, ℕ, ◌/◌, ◌<◌, ◌↔◌, ◌⊎◌, true, length, take, IfOk, IfErr, OnOk, Contains};
ghost use Rattle.hibitset_base.specs.declared.build.BuildError.TheVariants.{Memory};
ghost use Rattle.hibitset_atomic.specs.declared.atomic.TheConstants.{ATOMIC_MAX_EID};
ghost use Rattle.hibitset_atomic.specs.AtomicBitSet.{has, NeedsAllocation};
ghost use Rattle.hibitset_base.specs.Slices.{place_of, InRangeBefore, IsRefusalIn, LacksRoom, LiesApartIn};

use hibitset::{AtomicBitSet, BitSetLike, BuildError, Index};
use std::alloc::Global;
use std::test::Fail;

// The set of the indices of a list. Where one is refused, it is the first out of range, or one for which there was no
// memory, and then it lies in other 4,096 indices than each before it. Want of memory at place 0 may also tell of the
// empty set.
fn set_of(alloc: Global, list: &[Index]) -> Result<AtomicBitSet, BuildError>
    ensures members { IfOk result (λ set. (i : ℕ) → (has set i ≡ true) ↔ Contains list.now i) }
    ensures error_place { IfErr result (λ error. (error ≡ Memory 0) ⊎ (place_of error < length list.now)) }
    ensures before { IfErr result (λ error. InRangeBefore ATOMIC_MAX_EID list.now
        (place_of error)) }
    ensures reason { IfErr result (λ error. (error ≡ Memory 0) ⊎ IsRefusalIn ATOMIC_MAX_EID list.now error) }
    ensures apart { IfErr result (LiesApartIn (λ i j. i / 4096 ≢ j / 4096) list.now) }
{
    AtomicBitSet::from_slice(alloc, list)
}

// Adds the indices of a list to a set. Where one is refused, those before it are added, and where there was no memory
// for it, its block is not made.
fn add_all(set: &mut AtomicBitSet, list: &[Index]) -> Result<(), BuildError>
    ensures added { OnOk result ((i : ℕ)
        → (has set.new i ≡ true) ↔ ((has set.old i ≡ true) ⊎ Contains list.now i)) }
    ensures added_before { IfErr result (λ error. (i : ℕ)
        → (has set.new i ≡ true) ↔ ((has set.old i ≡ true)
        ⊎ Contains (take (place_of error) list.now) i)) }
    ensures reason { IfErr result (IsRefusalIn ATOMIC_MAX_EID list.now) }
    ensures lacks_room { IfErr result (LacksRoom (NeedsAllocation set.new) list.now) }
{
    set.extend_from_slice(list)
}

#[test]
fn lists_of_callers(rt: HostRuntime) -> Result<(), Fail> {
    let mut set = set_of(rt.alloc(), &[70, 5, 70])?;
    assert_eq!(rt; set.to_vec(rt.alloc())?.as_slice(), [5, 70].as_slice());
    let out_of_range = BuildError::OutOfRange {
        place: 1,
        index: 16_777_216,
    };
    let list = [6, 16_777_216, 7];
    assert_eq!(rt; set_of(rt.alloc(), &list).err(), Some(out_of_range));
    assert_eq!(rt; add_all(&mut set, &list), Err(out_of_range));
    assert_eq!(rt; set.to_vec(rt.alloc())?.as_slice(), [5, 6, 70].as_slice());
    Ok(())
}
