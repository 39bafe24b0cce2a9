//! Budgets, lists, room, turns and weights, with values worked by hand.
use crate::tests::turns::{
    add, add_all as add_in_turn, contains, ranges, read_all, read_next, times_reported,
};
use hibitset::steps::{Event, Reply, World};
use hibitset::{AtomicBitSet, BitSet, BitSetLike, BuildError};
use std::test::Fail;
use uses::budget::{halves, in_both, in_both_from};
use uses::lists::{add_all, set_of, set_of_range};
use uses::nested::chosen;
use uses::ready::Ready;
use uses::room::{add_beside, add_without_growth, saved, with_one_more};
use uses::weights::{weight_here, weight_of_both};

#[test]
fn what_both_have(rt: HostRuntime) -> Result<(), Fail> {
    let a = set_of(rt.alloc(), &[3, 70, 5_000])?;
    let b = set_of(rt.alloc(), &[70, 71, 5_000, 300_000])?;
    let mut walk = in_both(&a, &b);
    assert_eq!(rt;
        (walk.next(), walk.next(), walk.next()),
        (Some(70), Some(5_000), None)
    );
    let (mut whole, mut later) = in_both_from(&a, &b, 71);
    assert_eq!(rt; (whole.next(), later.next()), (Some(70), Some(5_000)));
    let both = &a & &b;
    let (first, other) = halves(&both);
    assert_eq!(rt;
        first.fold_with(0, |sum: u32, index| sum.wrapping_add(index)),
        70
    );
    assert!(rt; other.is_some());
    Ok(())
}

#[test]
fn what_both_have_below_an_end(rt: HostRuntime) -> Result<(), Fail> {
    let short = set_of_range(rt.alloc(), 3, 71)?;
    let long = set_of(rt.alloc(), &[2, 64, 70, 71, 4_096, 300_000])?;
    let mut walk = in_both(&short, &long);
    assert_eq!(rt;
        (walk.next(), walk.next(), walk.next()),
        (Some(64), Some(70), None)
    );
    let mut walk = in_both(&long, &short);
    assert_eq!(rt;
        (walk.next(), walk.next(), walk.next()),
        (Some(64), Some(70), None)
    );
    Ok(())
}

#[test]
fn what_three_have_and_a_fourth_has_not(rt: HostRuntime) -> Result<(), Fail> {
    let a = set_of(rt.alloc(), &[3, 70, 5_000, 300_000])?;
    let b = set_of(rt.alloc(), &[70, 71, 5_000, 300_000])?;
    let hidden = set_of(rt.alloc(), &[71, 5_000])?;
    let ready = set_of(rt.alloc(), &[3, 70, 5_000, 300_000])?;
    let mut walk = chosen(&a, &b, &hidden, &ready);
    assert_eq!(rt;
        (walk.next(), walk.next(), walk.next()),
        (Some(70), Some(300_000), None)
    );
    Ok(())
}

#[test]
fn sets_of_ranges(rt: HostRuntime) -> Result<(), Fail> {
    let set = set_of_range(rt.alloc(), 63, 66)?;
    assert_eq!(rt; set.to_vec(rt.alloc())?.as_slice(), [63, 64, 65].as_slice());
    let set = set_of_range(rt.alloc(), 60, 5_000)?;
    assert_eq!(rt; set.len(), 4_940);
    assert!(rt; set.contains(60) && set.contains(4_999));
    assert!(rt; !set.contains(59) && !set.contains(5_000));
    assert!(rt; set_of_range(rt.alloc(), 5, 5)?.is_empty());
    assert!(rt; set_of_range(rt.alloc(), 4_294_967_295, 3)?.is_empty());
    assert_eq!(rt;
        set_of_range(rt.alloc(), 1_073_741_822, 1_073_741_824)?.len(),
        2
    );
    assert_eq!(rt;
        set_of_range(rt.alloc(), 1_073_741_822, 1_073_741_826).err(),
        Some(BuildError::OutOfRange {
            place: 2,
            index: 1_073_741_824
        })
    );
    assert_eq!(rt;
        set_of_range(rt.alloc(), 1_073_741_824, 4_294_967_295).err(),
        Some(BuildError::OutOfRange {
            place: 0,
            index: 1_073_741_824
        })
    );
    Ok(())
}

#[test]
fn sets_of_lists(rt: HostRuntime) -> Result<(), Fail> {
    let mut set = set_of(rt.alloc(), &[70, 5, 70])?;
    assert_eq!(rt; set.to_vec(rt.alloc())?.as_slice(), [5, 70].as_slice());
    let out_of_range = BuildError::OutOfRange {
        place: 1,
        index: 1_073_741_824,
    };
    let list = [6, 1_073_741_824, 7];
    assert_eq!(rt; set_of(rt.alloc(), &list).err(), Some(out_of_range));
    assert_eq!(rt; add_all(&mut set, &list), Err(out_of_range));
    assert_eq!(rt; set.to_vec(rt.alloc())?.as_slice(), [5, 6, 70].as_slice());
    assert_eq!(rt; add_all(&mut set, &[1]), Ok(()));
    assert_eq!(rt; set.len(), 4);
    Ok(())
}

#[test]
fn additions_without_memory(rt: HostRuntime) -> Result<(), Fail> {
    let mut set = BitSet::with_capacity(rt.alloc(), 100)?;
    set.add(3)?;
    let Some(_) = set.layer0_as_slice().get(1) else {
        panic!(rt; "no room")
    };
    let (members, summaries) = saved(rt.alloc(), &set)?;
    assert_eq!(rt; members.as_slice(), [8, 0].as_slice());
    assert_eq!(rt; summaries.as_slice(), [1].as_slice());
    let copy = with_one_more(&set, 40)?;
    assert_eq!(rt; copy.to_vec(rt.alloc())?.as_slice(), [3, 40].as_slice());
    assert!(rt; !add_without_growth(&mut set, 100) && add_without_growth(&mut set, 100));
    assert_eq!(rt; set.to_vec(rt.alloc())?.as_slice(), [3, 100].as_slice());
    Ok(())
}

#[test]
fn indices_beside_members(rt: HostRuntime) -> Result<(), Fail> {
    let mut set = AtomicBitSet::new(rt.alloc())?;
    set.add(4_096)?;
    assert!(rt; !add_beside(&mut set, 4_096, 8_191));
    assert!(rt; add_beside(&mut set, 8_191, 4_096));
    assert_eq!(rt; set.len(), 2);
    Ok(())
}

#[test]
fn no_task_below(rt: HostRuntime) -> Result<(), Fail> {
    let mut ready = Ready::new(rt.alloc(), 100)?;
    assert_eq!(rt; ready.idle_below(), 1_073_741_824);
    ready.wake(70)?;
    ready.wake(7)?;
    assert_eq!(rt; ready.idle_below(), 7);
    Ok(())
}

#[test]
fn weights_of_what_both_have(rt: HostRuntime) -> Result<(), Fail> {
    let a = set_of(rt.alloc(), &[0, 1, 2])?;
    let b = set_of(rt.alloc(), &[1, 2, 3])?;
    let weights = [5, 4_294_967_295, 4_294_967_295, 8];
    assert_eq!(rt;
        weight_of_both(&rt, rt.alloc(), &a, &b, &weights)?,
        8_589_934_590
    );
    assert_eq!(rt; weight_here(&a, &b, &weights[..2]), 4_294_967_295);
    Ok(())
}

#[test]
fn a_world_comes_to_rest(rt: HostRuntime) -> Result<(), Fail> {
    let mut old = AtomicBitSet::new(rt.alloc())?;
    old.add(5)?;
    let mut world = World::new(rt.alloc(), old);
    assert_eq!(rt; add(&mut world, 1, 300_000), Ok(false));
    assert_eq!(rt; add(&mut world, 2, 5), Ok(true));
    assert_eq!(rt; world.apply(Event::Open { walk: 1 }), Ok(Reply::Opened));
    for word in [3, 1, 1, 32] {
        assert_eq!(rt; read_next(&mut world, 1), Ok(word));
    }
    assert_eq!(rt; read_all(&mut world, 2), Ok(()));
    let Some(items) = world.items(2) else {
        panic!(rt; "no walk")
    };
    assert_eq!(rt; items, [5, 300_000].as_slice());
    Ok(())
}

#[test]
fn sets_by_turns(rt: HostRuntime) -> Result<(), Fail> {
    let mut old = AtomicBitSet::new(rt.alloc())?;
    old.add(5)?;
    let Ok(set) = add_in_turn(rt.alloc(), old, &[70_000, 5, 6]) else {
        panic!(rt; "no memory")
    };
    assert_eq!(rt;
        set.to_vec(rt.alloc())?.as_slice(),
        [5, 6, 70_000].as_slice()
    );
    Ok(())
}

#[test]
fn what_a_world_at_rest_tells(rt: HostRuntime) -> Result<(), Fail> {
    let mut old = AtomicBitSet::new(rt.alloc())?;
    old.add(5)?;
    let mut kept = AtomicBitSet::new(rt.alloc())?;
    kept.add(5)?;
    let mut world = World::new(rt.alloc(), old);
    assert_eq!(rt; add(&mut world, 1, 300_000), Ok(false));
    if !world.is_at_rest() {
        panic!(rt; "not at rest")
    }
    assert!(rt; contains(&world, 5) && !contains(&world, 4_000_000_000));
    assert_eq!(rt; times_reported(&world, &kept, 300_000), 1);
    assert_eq!(rt; times_reported(&world, &kept, 5), 0);
    assert_eq!(rt; ranges(&mut world, 1), Ok(3));
    Ok(())
}
