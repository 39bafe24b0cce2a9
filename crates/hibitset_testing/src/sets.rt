//! Sets for tests, and the lists of their members.
ghost use Rattle.std.specs.Prelude.{◌≡◌, ℕ, ◌-◌, ◌<◌, IfOk};
ghost use Rattle.hibitset_base.specs.declared.util.TheConstants.{LAYERS};
ghost use Rattle.hibitset.specs.BitSet.{has, word_of, slice_len};

use hibitset::laws::slice_laws;
use hibitset::{BitSet, BitSetLike, Index, MAX_EID};
use std::alloc::{AllocError, Global};

/// The first and the last index under a word of each layer, and the middle of those under the first word of layer 3.
pub const BORDERS: [Index; 11] = [
    0,
    63,
    64,
    4_095,
    4_096,
    262_143,
    262_144,
    8_388_608,
    16_777_215,
    16_777_216,
    1_073_741_823,
];

/// The set of these indices, those out of range left out.
pub fn set_of(alloc: Global, ids: &[Index]) -> Result<BitSet, AllocError> {
    let mut set = BitSet::new(alloc);
    for id in ids {
        if (*id as usize) < MAX_EID {
            set.add(*id)?;
        }
    }
    Ok(set)
}

/// The set of all indices below a bound, and of all if it is out of range.
pub fn run_of(alloc: Global, end: Index) -> Result<BitSet, AllocError> {
    let mut set = BitSet::new(alloc);
    for id in 0..end {
        if (id as usize) < MAX_EID {
            set.add(id)?;
        }
    }
    Ok(set)
}

/// What a walk over a set gives.
pub fn list<T: BitSetLike>(alloc: Global, set: T) -> Result<Vec<Index>, AllocError> {
    set.iter().collect(alloc)
}

/// A copy of a set, by the slices of its layers.
pub fn copied_by_slices(alloc: Global, set: &BitSet) -> Result<BitSet, AllocError>
    ensures members { IfOk result (λ copy. (i : ℕ) → has copy i ≡ has set.now i) }
    ensures words { IfOk result (λ copy. (l p : ℕ) → l < LAYERS - 1
        → word_of copy l p ≡ word_of set.now l p) }
    ensures lengths { IfOk result (λ copy. (l : ℕ) → l < LAYERS - 1
        → slice_len copy l ≡ slice_len set.now l) }
{
    slice_laws();
    BitSet::from_layers(
        alloc,
        set.layer0_as_slice(),
        set.layer1_as_slice(),
        set.layer2_as_slice(),
        set.layer3_as_slice(),
        set.layer4(),
    )
}
