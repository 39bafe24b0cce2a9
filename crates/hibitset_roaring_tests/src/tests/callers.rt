//! What callers know of streams, from the public contracts alone.
ghost use Rattle.std.specs.Prelude.{◌≡◌, ℕ, ◌*◌, ◌<◌, ◌≤◌, IfOk, IfErr, OnOk};
ghost use Rattle.hibitset.specs.BitSet.{has, slice_len};
ghost use Rattle.hibitset_roaring.specs.Format.{IsStream, HasKeysBelow, holds};
ghost use Rattle.hibitset_roaring.specs.Transfers.{IsOutside};
ghost use Rattle.hibitset_roaring.specs.declared.error.ReadError.TheVariants as errors;

use super::*;

// A copy by way of a stream: it has the same members, and fails only if an allocation does.
fn copied(alloc: Global, set: &BitSet) -> Result<BitSet, ReadError>
    ensures members { IfOk result (λ copy. (i : ℕ) → has copy i ≡ has set.now i) }
    ensures reason { IfErr result (λ error. error ≡ errors.Memory) }
{
    let stream = write(alloc, set)?;
    read(alloc, &stream)
}

// The streams of two sets of the same members are the same bytes.
fn written_twice(alloc: Global, a: &BitSet, b: &BitSet) -> Result<(Vec<u8>, Vec<u8>), AllocError>
    requires { (i : ℕ) → has a.now i ≡ has b.now i }
    ensures { IfOk result (λ streams. streams.0.items ≡ streams.1.items) }
{
    let first = write(alloc, a)?;
    let second = write(alloc, b)?;
    Ok((first, second))
}

// A stranger's bytes, with at most 64 keys: the set has at most 65,536 words of layer 0, which are 512 KB.
fn received(alloc: Global, bytes: &[u8]) -> Result<BitSet, ReadError>
    ensures members { IfOk result (λ set. (i : ℕ) → has set i ≡ holds bytes.now i) }
    ensures length { IfOk result (λ set. slice_len set 0 ≤ 65536) }
{
    read_below(alloc, bytes, 64)
}

// A copy by way of a writer and a reader in memory: it has the same members, and fails only if one of the two or an
// allocation does.
fn sent(alloc: Global, set: &BitSet) -> Result<BitSet, ReadFromError>
    ensures members { IfOk result (λ copy. (i : ℕ) → has copy i ≡ has set.now i) }
    ensures reason { IfErr result IsOutside }
{
    let mut pipe = Vec::new(alloc);
    write_into(alloc, set, &mut pipe)?;
    let mut received = pipe.as_slice();
    read_from(alloc, &mut received, KEYS)
}

#[test]
fn callers_run(rt: HostRuntime) -> Result<(), Fail> {
    let alloc = rt.alloc();
    let set = set_of(alloc, &[(5, 9), (70_000, 80_000)])?;
    let copy = copied(alloc, &set)?;
    assert!(rt; copy == set && sent(alloc, &set)? == set);
    let streams = written_twice(alloc, &copy, &set)?;
    assert!(rt; streams.0.as_slice() == streams.1.as_slice());
    let mut roomy = BitSet::with_capacity(alloc, 5_000_000)?;
    roomy.add_range(70_000, 80_001)?;
    roomy.add_range(5, 10)?;
    assert!(rt; write(alloc, &roomy)?.as_slice() == streams.0.as_slice());
    assert!(rt; received(alloc, &streams.0)? == set);
    Ok(())
}
