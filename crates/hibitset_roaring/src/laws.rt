//! What holds of reading and writing together.

ghost use Rattle.std.specs.Prelude.{◌≡◌, ℕ, IfOk, IfErr};
ghost use Rattle.hibitset.specs.BitSet.{has};
ghost use Rattle.hibitset_sparse.specs.SparseBitSet.{has as sparse_has};
ghost use Rattle.hibitset_roaring.specs.declared.error.ReadError.TheVariants as errors;

use crate::decode::read;
use crate::encode::{write, write_run_optimized};
use crate::encode_like::write_like;
use crate::error::ReadError;
use crate::sparse::read_sparse;
use hibitset::BitSet;
use hibitset_sparse::SparseBitSet;
use hibitset_sparse::laws::sparse_laws;
use std::alloc::Global;

/// A set, written and read again: it has the same members, and fails only if an allocation does.
pub fn round_trip(alloc: Global, set: &BitSet) -> Result<BitSet, ReadError>
    ensures members { IfOk result (λ copy. (i : ℕ) → has copy i ≡ has set.now i) }
    ensures reason { IfErr result (λ error. error ≡ errors.Memory) }
{
    let bytes = write(alloc, set)?;
    read(alloc, &bytes)
}

/// A set, written with runs where these are shorter and read again: it has the same members, and fails only if an
/// allocation does.
pub fn round_trip_optimized(alloc: Global, set: &BitSet) -> Result<BitSet, ReadError>
    ensures members { IfOk result (λ copy. (i : ℕ) → has copy i ≡ has set.now i) }
    ensures reason { IfErr result (λ error. error ≡ errors.Memory) }
{
    let bytes = write_run_optimized(alloc, set)?;
    read(alloc, &bytes)
}

/// A sparse set, written and read again: it has the same members, and fails only if an allocation does.
pub fn round_trip_sparse(alloc: Global, set: &SparseBitSet) -> Result<SparseBitSet, ReadError>
    ensures members { IfOk result (λ copy. (i : ℕ) → sparse_has copy i ≡ sparse_has set.now i) }
    ensures reason { IfErr result (λ error. error ≡ errors.Memory) }
{
    sparse_laws();
    let bytes = write_like(alloc, set)?;
    read_sparse(alloc, &bytes)
}
