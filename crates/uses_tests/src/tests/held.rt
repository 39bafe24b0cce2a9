//! Each module over sets that one thread holds, with values worked by hand.
ghost use Rattle.std.specs.Prelude.{◌≡◌, IfOk};
ghost use Rattle.uses.specs.Filter.{tags_of};

use hibitset::{BitSet, BitSetLike};
use std::alloc::{AllocError, Global};
use std::test::Fail;
use uses::filter::Tagged;
use uses::ids::Ids;
use uses::pages::Pages;
use uses::ready::Ready;

#[test]
fn identifiers_come_back(rt: HostRuntime) -> Result<(), Fail> {
    let mut ids = Ids::new(rt.alloc());
    assert!(rt; !ids.is_used(0));
    for id in 0..70 {
        assert_eq!(rt; ids.alloc()?, Some(id));
    }
    assert!(rt; ids.free(64));
    assert!(rt; ids.free(1));
    assert!(rt; !ids.free(1));
    assert_eq!(rt; ids.alloc()?, Some(1));
    assert_eq!(rt; ids.alloc()?, Some(64));
    assert_eq!(rt; ids.alloc()?, Some(70));
    assert!(rt; ids.is_used(70) && !ids.is_used(71));
    Ok(())
}

// Words and summaries of every layer below the top are passed: the identifiers of 66 words of layer 0.
#[test]
fn identifiers_past_a_block(rt: HostRuntime) -> Result<(), Fail> {
    let mut ids = Ids::new(rt.alloc());
    for id in 0..4_224 {
        assert_eq!(rt; ids.alloc()?, Some(id));
    }
    assert!(rt; ids.free(4_095) && ids.free(64));
    assert_eq!(rt; (ids.alloc()?, ids.alloc()?), (Some(64), Some(4_095)));
    assert_eq!(rt; ids.alloc()?, Some(4_224));
    Ok(())
}

#[test]
fn pages_are_flushed_in_order(rt: HostRuntime) -> Result<(), Fail> {
    let mut pages = Pages::new(rt.alloc());
    assert!(rt; !pages.mark(70_000)?);
    assert!(rt; !pages.mark(5)?);
    assert!(rt; !pages.mark(16_777_215)?);
    assert!(rt; pages.mark(5)?);
    assert!(rt; pages.is_dirty(5) && !pages.is_dirty(6));
    let mut out = Vec::new(rt.alloc());
    out.push(9)?;
    pages.flush(&mut out)?;
    assert_eq!(rt; out.as_slice(), [9, 5, 70_000, 16_777_215].as_slice());
    assert!(rt; !pages.is_dirty(5));
    pages.mark(6)?;
    pages.flush(&mut out)?;
    assert_eq!(rt; out.as_slice(), [9, 5, 70_000, 16_777_215, 6].as_slice());
    Ok(())
}

#[test]
fn many_pages_are_flushed(rt: HostRuntime) -> Result<(), Fail> {
    let mut pages = Pages::new(rt.alloc());
    for page in 0..5_000u32 {
        assert!(rt; !pages.mark(3 * page)?);
    }
    let mut out = Vec::new(rt.alloc());
    pages.flush(&mut out)?;
    let mut next = 0u32;
    for page in &out {
        assert_eq!(rt; *page, next);
        next = next.wrapping_add(3);
    }
    assert_eq!(rt; (out.len(), out.capacity()), (5_000, 5_000));
    assert!(rt; !pages.is_dirty(0) && !pages.is_dirty(14_997));
    Ok(())
}

// Tags 0 and 1 and 2, which these records have.
fn tagged(alloc: Global) -> Result<Tagged, AllocError>
    ensures { IfOk result (λ tagged. tags_of tagged ≡ 3) }
{
    let mut tagged = Tagged::new(alloc);
    tagged.new_tag()?;
    tagged.new_tag()?;
    tagged.new_tag()?;
    tagged.tag(1, 0)?;
    tagged.tag(2, 0)?;
    tagged.tag(3, 0)?;
    tagged.tag(70_000, 0)?;
    tagged.tag(2, 1)?;
    tagged.tag(3, 1)?;
    tagged.tag(70_000, 1)?;
    tagged.tag(3, 2)?;
    Ok(tagged)
}

#[test]
fn records_are_found(rt: HostRuntime) -> Result<(), Fail> {
    let mut records = tagged(rt.alloc())?;
    assert!(rt; records.tag(3, 2)?);
    assert_eq!(rt;
        records.find(rt.alloc(), 0, 1, 2)?.as_slice(),
        [2, 70_000].as_slice()
    );
    assert_eq!(rt; records.count(0, 1, 2), 2);
    assert_eq!(rt; records.count(0, 1, 0), 0);
    assert_eq!(rt; records.records(1).len(), 3);
    Ok(())
}

#[test]
fn tags_are_given_and_taken_by_sets(rt: HostRuntime) -> Result<(), Fail> {
    let mut records = tagged(rt.alloc())?;
    let mut set = BitSet::new(rt.alloc());
    set.add(2)?;
    set.add(5)?;
    records.widen(2, &set)?;
    assert_eq!(rt;
        records.records(2).to_vec(rt.alloc())?.as_slice(),
        [2, 3, 5].as_slice()
    );
    records.narrow(0, &set);
    assert_eq!(rt;
        records.records(0).to_vec(rt.alloc())?.as_slice(),
        [2].as_slice()
    );
    assert_eq!(rt; records.count(0, 1, 2), 0);
    Ok(())
}

#[test]
fn tasks_run_in_order(rt: HostRuntime) -> Result<(), Fail> {
    let mut ready = Ready::new(rt.alloc(), 100)?;
    assert_eq!(rt; ready.next_ready(), None);
    assert!(rt; !ready.wake(40)?);
    assert!(rt; !ready.wake(7)?);
    assert!(rt; ready.wake(40)?);
    assert!(rt; !ready.wake(5_000)?);
    assert_eq!(rt; ready.next_ready(), Some(7));
    assert_eq!(rt; ready.next_ready(), Some(40));
    assert!(rt; !ready.wake(40)?);
    assert_eq!(rt; ready.next_ready(), Some(40));
    assert_eq!(rt; ready.next_ready(), Some(5_000));
    assert_eq!(rt; ready.next_ready(), None);
    Ok(())
}

#[test]
fn each_task_has_its_turn(rt: HostRuntime) -> Result<(), Fail> {
    let mut ready = Ready::new(rt.alloc(), 100)?;
    ready.wake(7)?;
    ready.wake(40)?;
    assert_eq!(rt; ready.next_from(0), Some(7));
    ready.wake(7)?;
    assert_eq!(rt; ready.next_from(8), Some(40));
    assert_eq!(rt; ready.next_from(41), None);
    assert_eq!(rt; ready.next_from(7), Some(7));
    assert_eq!(rt; ready.next_ready(), None);
    Ok(())
}
