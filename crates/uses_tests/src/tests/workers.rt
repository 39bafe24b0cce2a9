//! Lists that workers put into a set.
ghost use Rattle.std.specs.Prelude.{◌≡◌, length, IfOk};

use hibitset::{ATOMIC_MAX_EID, AtomicBitSet, BitSetLike, Index};
use std::alloc::{AllocError, Global};
use std::test::Fail;
use uses::workers::{Refused, add_lists};

// A list of two indices.
fn pair(alloc: Global, a: Index, b: Index) -> Result<Vec<Index>, AllocError> {
    let mut list = Vec::with_capacity(alloc, 2)?;
    list.push(a)?;
    list.push(b)?;
    Ok(list)
}

#[test]
fn four_lists(rt: HostRuntime) -> Result<(), Fail> {
    let alloc = rt.alloc();
    let mut set = AtomicBitSet::new(alloc)?;
    set.add(5)?;
    let mut lists = Vec::with_capacity(alloc, 4)?;
    lists.push(pair(alloc, 5, 70_000)?)?;
    lists.push(pair(alloc, 70_000, 9)?)?;
    lists.push(pair(alloc, ATOMIC_MAX_EID as Index, 16_777_215)?)?;
    lists.push(Vec::new(alloc))?;
    let Ok(added) = add_lists(&rt, alloc, set, lists) else {
        panic!(rt; "refused")
    };
    assert_eq!(rt; added.new, 3);
    let all: Vec<Index> = (&added.set).iter().collect(alloc)?;
    assert_eq!(rt; all.as_slice(), [5, 9, 70_000, 16_777_215].as_slice());
    Ok(())
}

// A thousand lists of the same two indices.
fn many_lists(alloc: Global) -> Result<Vec<Vec<Index>>, AllocError>
    ensures { IfOk result (λ lists. length lists.items ≡ 1_000) }
{
    vec![in alloc; pair(alloc, 7, 70_000)?; 1_000]
}

#[test]
fn a_thousand_lists(rt: HostRuntime) -> Result<(), Fail> {
    let alloc = rt.alloc();
    let set = AtomicBitSet::new(alloc)?;
    let Ok(added) = add_lists(&rt, alloc, set, many_lists(alloc)?) else {
        panic!(rt; "refused")
    };
    assert_eq!(rt; (added.new, added.set.len()), (2, 2));
    Ok(())
}

#[test]
fn no_lists(rt: HostRuntime) -> Result<(), Fail> {
    let mut set = AtomicBitSet::new(rt.alloc())?;
    set.add(5)?;
    match add_lists(&rt, rt.alloc(), set, Vec::new(rt.alloc())) {
        Ok(added) => assert!(rt; added.new == 0 && added.set.len() == 1),
        Err(Refused::Sharing(_)) | Err(Refused::Working(_, _)) | Err(Refused::Settling(_, _)) => {
            panic!(rt; "refused")
        }
    }
    Ok(())
}
