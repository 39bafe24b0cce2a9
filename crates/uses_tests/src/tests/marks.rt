//! Marks that few rows have, and keys that were seen.
use hibitset::BitSet;
use hibitset_sparse::SparseBitSet;
use std::test::Fail;
use uses::marks::{marked, unmarked};
use uses::seen::Seen;

#[test]
fn marks_of_rows(rt: HostRuntime) -> Result<(), Fail> {
    let alloc = rt.alloc();
    let rows = BitSet::from_slice(alloc, &[1, 70, 5_000, 70_000])?;
    let marks = SparseBitSet::from_slice(alloc, &[70, 71, 70_000, 1_073_741_823])?;
    assert_eq!(rt;
        unmarked(alloc, &rows, &marks)?.as_slice(),
        [1, 5_000].as_slice()
    );
    let found: Vec<u32> = marked(&rows, &marks).collect(alloc)?;
    assert_eq!(rt; found.as_slice(), [70, 70_000].as_slice());
    Ok(())
}

#[test]
fn keys_that_share_thirty_bits(rt: HostRuntime) -> Result<(), Fail> {
    let mut keys = Seen::new(rt.alloc());
    assert!(rt; !keys.see(7)? && keys.see(7)? && !keys.see(8)?);
    assert!(rt; keys.see((1 << 30) + 7)? && !keys.see(u64::MAX)?);
    Ok(())
}
