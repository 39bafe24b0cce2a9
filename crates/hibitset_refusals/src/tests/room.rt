//! Calls that do not allocate, or none as things stand, between two requests of the test's own.
ghost use Rattle.std.specs.Prelude.{◌≡◌, ◌<◌, ◌≤◌, IfOk};
ghost use Rattle.hibitset_base.specs.declared.util.TheConstants.{MAX_EID};
ghost use Rattle.hibitset_atomic.specs.Seats.{BelongsTo};
ghost use Rattle.uses.specs.Filter.{tags_of};

use crate::tests::{ask, assert_has, atomic_of, has_exactly, has_values, shared_of, three_tags};
use hibitset::steps::{Event, StepError, World, path};
use hibitset::{
    AtomicBitSet, BitParIter, BitProducer, BitSet, BitSetAll, BitSetLike, DrainableBitSet, Index,
    Seat, SharedBitSet,
};
use hibitset_store::{Column, join, join_masked};
use hibitset_testing::columns::column_of;
use hibitset_testing::sets::set_of;
use std::alloc::{AllocError, Global};
use std::process::Abort;
use uses::filter::Tagged;
use uses::ids::Ids;
use uses::pages::Pages;
use uses::ready::Ready;

fn assert_takes_items(rt: &impl Abort, set: &mut BitSet) {
    assert!(rt; set.add(999) == Ok(false) && set.add(999) == Ok(true));
    assert!(rt; set.extend_indices(7..10) == Ok(()));
    assert!(rt; set.extend_index_refs(&[7, 70]) == Ok(()));
}

fn assert_takes_members(rt: &impl Abort, set: &mut BitSet, other: &BitSet) {
    assert!(rt; set.bitor_assign(other).is_ok() && set.contains(5));
    assert!(rt; set.bitxor_assign(other).is_ok() && !set.contains(5));
}

// Sets of no members.
fn assert_empty(rt: &impl Abort, alloc: Global) {
    assert!(rt; BitSet::with_capacity(alloc, 0).is_ok());
    assert!(rt; BitSet::from_indices(alloc, 0..0).is_ok());
    assert!(rt; BitSet::from_index_refs(alloc, &[]).is_ok());
    assert!(rt; BitSet::from_words(alloc, [].as_slice()).is_ok());
    let empty = BitSet::new(alloc);
    assert!(rt; empty.is_empty() && empty.clone().is_ok());
}

// allocates: none
#[test]
fn sets_with_room(rt: HostRuntime) -> Result<(), AllocError> {
    let mut set = BitSet::with_capacity(rt.alloc(), 1000)?;
    let other = set_of(rt.alloc(), &[5, 999])?;
    ask(&rt);
    assert_takes_items(&rt, &mut set);
    assert_takes_members(&rt, &mut set, &other);
    assert_has(&rt, &set, &[7, 8, 9, 70]);
    assert_empty(&rt, rt.alloc());
    ask(&rt);
    Ok(())
}

// Five words make room for eight.
// allocates: none
#[test]
fn sets_with_room_of_adds(rt: HostRuntime) -> Result<(), AllocError> {
    let mut set = BitSet::new(rt.alloc());
    set.add_range(0, 256)?;
    set.add(256)?;
    ask(&rt);
    assert!(rt; set.extend_indices(257..512) == Ok(()) && set.len() == 512);
    ask(&rt);
    Ok(())
}

// An assignment that needs one word more than there is room for makes room for an eighth more.
// allocates: none
#[test]
fn sets_with_room_of_assignments(rt: HostRuntime) -> Result<(), AllocError> {
    let mut set = BitSet::new(rt.alloc());
    set.add_range(0, 4096)?;
    set.bitor_assign(&set_of(rt.alloc(), &[4096])?)?;
    let other = set_of(rt.alloc(), &[4600])?;
    ask(&rt);
    assert!(rt; set.bitor_assign(&other).is_ok() && set.contains(4600));
    ask(&rt);
    Ok(())
}

// A vector with room for five words and those over them becomes a set of four as it is.
// allocates: none
#[test]
fn vectors_with_room(rt: HostRuntime) -> Result<(), AllocError> {
    let mut words = BitSet::vec_with_room(rt.alloc(), 5)?;
    words.resize(4, 1)?;
    ask(&rt);
    let set = BitSet::from_vec(words)?;
    assert_has(&rt, &set, &[0, 64, 128, 192]);
    ask(&rt);
    Ok(())
}

// The set is to be {5, 70, 300,000} and the other one the same without 5, and so they are afterwards.
fn assert_members(rt: &impl Abort, set: &mut BitSet, other: &BitSet) {
    assert!(rt; set.remove(5) && !set.remove(5) && !set.remove(4_294_967_295));
    assert!(rt; *set == *other && set.contains_set(other) && set.contains(70));
    assert!(rt; !set.contains(6) && !set.contains(1_073_741_824) && !set.contains(4_294_967_295));
}

fn assert_words(rt: &impl Abort, set: &BitSet) {
    assert!(rt;
        set.layer0_as_slice().len() + set.layer1_as_slice().len() + set.layer2_as_slice().len() > 0
            && set.layer3_as_slice().len() > 0
    );
}

// What {70, 300,000} tells, and the other set is the same.
fn assert_answers(rt: &impl Abort, set: &BitSet, other: &BitSet) {
    assert!(rt; set.len() == 2 && set.first() == Some(70) && !set.is_empty());
    assert!(rt; set.iter_from(71).next() == Some(300_000));
    assert!(rt; set.iter().count() == 2 && set.iter_from(300_001).next().is_none());
    assert!(rt; set.last() == Some(300_000) && set.first_gap(70) == Some(71));
    assert!(rt; set.is_subset(other) && !set.is_disjoint(other));
}

fn assert_ranges(rt: &impl Abort, set: &mut BitSet, other: &BitSet) {
    assert!(rt; set.add_range(0, 300_032).is_ok() && set.len() == 300_032);
    set.remove_range(71, 300_000);
    assert!(rt; set.add_range(9, 9).is_ok() && set.add_range(9, 3).is_ok());
    *set &= other;
    assert_has(rt, set, &[70, 300_000]);
}

// Drains {70, 300,000}, and empties it in other ways.
fn assert_drains(rt: &impl Abort, set: &mut BitSet, other: &BitSet) {
    assert!(rt; set.drain().next() == Some(70));
    assert!(rt; set.drain().count() == 1 && set.drain().next().is_none());
    set.subtract_assign(other);
    set.clear();
    assert_has(rt, set, &[]);
}

// allocates: none
#[test]
fn sets(rt: HostRuntime) -> Result<(), AllocError> {
    let mut set = set_of(rt.alloc(), &[5, 70, 300_000])?;
    let other = set_of(rt.alloc(), &[70, 300_000])?;
    ask(&rt);
    assert_members(&rt, &mut set, &other);
    assert_words(&rt, &set);
    assert_answers(&rt, &set, &other);
    assert_ranges(&rt, &mut set, &other);
    assert_drains(&rt, &mut set, &other);
    assert!(rt; set.to_vec(rt.alloc()).is_ok());
    assert!(rt; set.add(300_000) == Ok(false));
    assert_empty(&rt, rt.alloc());
    ask(&rt);
    Ok(())
}

fn assert_replaces(rt: &impl Abort, a: &mut Column<u32>) {
    assert!(rt; a.insert(5, 78) == Ok(Some(77)) && a.insert(300_000, 9) == Ok(Some(7)));
    assert!(rt; a.get(5) == Some(&78) && a.get(6).is_none() && a.mask().contains(5));
}

fn assert_joins(rt: &impl Abort, a: &Column<u32>, b: &Column<u32>, set: &BitSet) {
    assert!(rt; join(a, b).next() == Some((300_000, &9, &8)) && a.join(b).count() == 1);
    assert!(rt; join_masked(a, b, set).next().is_none() && a.iter().count() == 2);
}

fn assert_removes(rt: &impl Abort, a: &mut Column<u32>) {
    assert!(rt; a.remove(5) == Some(78) && a.remove(5).is_none() && a.len() == 1);
    a.clear();
    assert!(rt; a.is_empty() && has_values(a, &[]));
}

// allocates: none
#[test]
fn columns(rt: HostRuntime) -> Result<(), AllocError> {
    let mut a = column_of(rt.alloc(), &[(5, 77), (300_000, 7)])?;
    let b = column_of(rt.alloc(), &[(6, 78), (300_000, 8)])?;
    let set = set_of(rt.alloc(), &[5, 6])?;
    ask(&rt);
    assert_replaces(&rt, &mut a);
    assert_joins(&rt, &a, &b, &set);
    assert_removes(&rt, &mut a);
    assert!(rt; has_values(&b, &[(6, 78), (300_000, 8)]));
    assert!(rt; Column::<u32>::new(rt.alloc()).get(5).is_none());
    ask(&rt);
    Ok(())
}

// Once they lie in order, all pages of the table have their places.
// allocates: none
#[test]
fn columns_in_order(rt: HostRuntime) -> Result<(), AllocError> {
    let mut column = column_of(rt.alloc(), &[(450, 7), (400, 6), (350, 5)])?;
    ask(&rt);
    assert!(rt; column.insert(225, 3) == Ok(None) && column.insert(300, 4) == Ok(None));
    assert!(rt; column.insert(1, 0) == Ok(None) && column.insert(150, 2) == Ok(None));
    assert!(rt; column.insert(75, 1) == Ok(None));
    ask(&rt);
    Ok(())
}

// While there is room for one more page, pages are not laid out in order: three take room for four.
// allocates: none
#[test]
fn columns_with_room_for_a_page(rt: HostRuntime) -> Result<(), AllocError> {
    let mut column = column_of(rt.alloc(), &[(550, 5), (600, 6), (700, 7)])?;
    ask(&rt);
    assert!(rt; column.insert(750, 8) == Ok(None));
    ask(&rt);
    Ok(())
}

// Gives each of these indices its first value, and returns whether no allocation failed.
fn inserts_row(column: &mut Column<u32>, from: Index, to: Index) -> bool
    requires { to < MAX_EID }
{
    for id in from..to {
        if column.insert(id, 7) != Ok(None) {
            return false;
        }
    }
    true
}

// With 33 pages there is capacity for 64: of slots, of the table and of the mask.
// allocates: none
#[test]
fn columns_with_room_of_inserts(rt: HostRuntime) -> Result<(), AllocError> {
    let mut column = Column::new(rt.alloc());
    if !inserts_row(&mut column, 0, 2_112) {
        return Err(AllocError);
    }
    ask(&rt);
    assert!(rt; inserts_row(&mut column, 2_112, 4_096) && column.len() == 4_096);
    ask(&rt);
    Ok(())
}

// Gives three indices, each in a page of its own, their first values, and returns whether no allocation failed.
fn inserts_three(column: &mut Column<u32>) -> bool {
    column.insert(5, 1) == Ok(None)
        && column.insert(70, 2) == Ok(None)
        && column.insert(300_000, 3) == Ok(None)
}

// The memory of the pages, the table and the mask is kept for the same keys.
// allocates: none
#[test]
fn cleared_columns(rt: HostRuntime) -> Result<(), AllocError> {
    let mut column = Column::new(rt.alloc());
    if !inserts_three(&mut column) {
        return Err(AllocError);
    }
    ask(&rt);
    column.clear();
    assert!(rt; inserts_three(&mut column));
    assert!(rt; has_values(&column, &[(5, 1), (70, 2), (300_000, 3)]));
    ask(&rt);
    Ok(())
}

// Operators of {1, 2} and {2, 3}.
fn assert_operators(rt: &impl Abort, a: &BitSet, b: &BitSet) {
    assert!(rt; has_exactly(&(a & b), &[2]));
    assert!(rt; has_exactly(&(a | b), &[1, 2, 3]));
    assert!(rt; has_exactly(&(a ^ b), &[1, 3]));
    assert!(rt; (!a).contains(3));
}

fn assert_clones(rt: &impl Abort, a: &BitSet, b: &BitSet) {
    assert!(rt; (a & b).clone().is_ok() && (a | b).clone().is_ok());
    assert!(rt; (a ^ b).clone().is_ok() && (!a).clone().is_ok());
    assert!(rt; BitSetAll.clone().is_ok() && a.iter().clone().is_ok());
}

// allocates: none: hibitset_base::BitSetAll::clone
#[test]
fn virtual_sets(rt: HostRuntime) -> Result<(), AllocError> {
    let a = set_of(rt.alloc(), &[1, 2])?;
    let b = set_of(rt.alloc(), &[2, 3])?;
    ask(&rt);
    assert_operators(&rt, &a, &b);
    assert_clones(&rt, &a, &b);
    ask(&rt);
    Ok(())
}

fn assert_takes_near(rt: &impl Abort, set: &mut AtomicBitSet) {
    assert!(rt; set.add(4095) == Ok(false) && set.add(70) == Ok(true));
    assert!(rt; set.extend_indices(7..10) == Ok(()));
    assert!(rt; set.extend_index_refs(&[7, 300_001]) == Ok(()));
}

fn assert_gives_up(rt: &impl Abort, set: &mut AtomicBitSet) {
    assert!(rt; set.remove(300_001) && !set.remove(300_001) && set.contains(300_000));
    assert!(rt; !set.contains(6) && !set.contains(16_777_216) && !set.contains(4_294_967_295));
    assert_has(rt, set, &[5, 7, 8, 9, 70, 4095, 300_000, 600_000]);
}

// allocates: none
#[test]
fn atomic_sets(rt: HostRuntime) -> Result<(), AllocError> {
    let mut set = atomic_of(rt.alloc(), &[5, 70, 300_000, 600_000])?;
    ask(&rt);
    assert_takes_near(&rt, &mut set);
    assert_gives_up(&rt, &mut set);
    assert!(rt; set.drain().next() == Some(5));
    assert!(rt; set.drain().count() == 7 && set.drain().next().is_none());
    set.clear();
    assert!(rt; set.is_empty());
    ask(&rt);
    Ok(())
}

// Adds one index of each of these blocks, and returns whether no allocation failed.
fn adds_blocks(set: &mut AtomicBitSet, from: u32, to: u32) -> bool
    requires { to ≤ 4096 }
{
    for block in from..to {
        if set.add(4_096 * block) != Ok(false) {
            return false;
        }
    }
    true
}

// With 2,048 blocks and the one of zeros there is capacity for 4,096.
// allocates: none
#[test]
fn atomic_sets_with_room_of_adds(rt: HostRuntime) -> Result<(), AllocError> {
    let mut set = AtomicBitSet::new(rt.alloc())?;
    if !adds_blocks(&mut set, 0, 2_048) {
        return Err(AllocError);
    }
    ask(&rt);
    assert!(rt; adds_blocks(&mut set, 2_048, 4_095) && set.len() == 4_095);
    ask(&rt);
    Ok(())
}

// A settled set has room for all blocks, and keeps it.
// allocates: none
#[test]
fn settled_sets(rt: HostRuntime) -> Result<(), AllocError> {
    let (shared, seat) = shared_of(rt.alloc(), &[7])?;
    let Ok(mut set) = shared.settle(seat) else {
        return Err(AllocError);
    };
    ask(&rt);
    assert!(rt; adds_blocks(&mut set, 0, 4_096));
    assert!(rt; set.remove(7) && set.drain().count() == 4_096);
    set.clear();
    assert!(rt; set.add(16_777_215) == Ok(false));
    ask(&rt);
    Ok(())
}

// A seat of a set over 7.
fn assert_knows(rt: &impl Abort, set: &SharedBitSet, seat: &mut Seat)
    requires { BelongsTo set.now seat.old }
    ensures { BelongsTo set.now seat.new }
{
    assert!(rt; !set.add_atomic(seat, 70_000));
    assert!(rt; set.add_atomic(seat, 7));
    assert!(rt; set.contains(seat, 70_000) && seat.weight() == 65_536);
}

// Divides a seat and joins it again.
fn assert_parts(rt: &impl Abort, set: &SharedBitSet, seat: Seat)
    requires { BelongsTo set.now seat }
{
    let (mut seat, other) = set.divide(seat);
    assert!(rt; !seat.is_whole() && set.walk(&mut seat).next() == Some(7));
    if let Some(other) = other {
        assert!(rt; set.join(seat, other).is_whole());
    }
}

// allocates: none
#[test]
fn shared_sets(rt: HostRuntime) -> Result<(), AllocError> {
    let (set, mut seat) = shared_of(rt.alloc(), &[7])?;
    ask(&rt);
    assert_knows(&rt, &set, &mut seat);
    assert_parts(&rt, &set, seat);
    ask(&rt);
    Ok(())
}

// A seat of the last share, where there is one: half of half, sixteen times.
fn last_share(set: &SharedBitSet, seat: Seat) -> Seat
    requires { BelongsTo set.now seat }
    ensures { BelongsTo set.now result }
{
    let mut last = seat;
    'halves: for _ in 0..16u32 {
        let (kept, _) = set.divide(last);
        last = kept;
    }
    last
}

// allocates: none
#[test]
fn last_shares(rt: HostRuntime) -> Result<(), AllocError> {
    let (set, seat) = shared_of(rt.alloc(), &[7])?;
    ask(&rt);
    let (last, none) = set.divide(last_share(&set, seat));
    assert!(rt; none.is_none() && last.weight() == 1);
    ask(&rt);
    Ok(())
}

// A world over 7.
fn assert_new(rt: &impl Abort, world: &World) {
    assert!(rt; world.is_at_rest() && world.items(1).is_none());
    assert!(rt; world.stands(7) && !world.stands(8) && !world.stands(16_777_215));
}

// allocates: none
#[test]
fn new_worlds(rt: HostRuntime) -> Result<(), AllocError> {
    let set = atomic_of(rt.alloc(), &[7])?;
    ask(&rt);
    let world = World::new(rt.alloc(), set);
    assert_new(&rt, &world);
    assert!(rt; path(7)[3] == (3, 0, 1) && path(16_777_215)[3] == (3, 0, 1 << 63));
    ask(&rt);
    Ok(())
}

// A world in which a call has ended, and a walk that has given all.
fn world_at_rest(alloc: Global) -> Result<World, AllocError> {
    let mut world = World::new(alloc, atomic_of(alloc, &[7])?);
    let (step, read) = (Event::Step { call: 1 }, Event::Read { walk: 1 });
    let begin = Event::Begin { call: 1, id: 8 };
    let open = Event::Open { walk: 1 };
    for event in [begin, step, step, step, step, open, read, read, read, read] {
        if world.apply(event).is_err() {
            return Err(AllocError);
        }
    }
    Ok(world)
}

fn assert_refused(rt: &impl Abort, world: &mut World, event: Event, error: StepError) {
    assert!(rt; world.apply(event) == Err(error));
}

// Events that a world at rest refuses.
fn assert_refusals(rt: &impl Abort, world: &mut World) {
    let id = 16_777_216;
    assert_refused(rt, world, Event::Begin { call: 1, id: 5 }, StepError::Used);
    assert_refused(rt, world, Event::Begin { call: 2, id }, StepError::Range);
    assert_refused(rt, world, Event::Step { call: 2 }, StepError::Unknown);
    assert_refused(rt, world, Event::Step { call: 1 }, StepError::Ended);
    assert_refused(rt, world, Event::Open { walk: 1 }, StepError::Used);
    assert_refused(rt, world, Event::Read { walk: 2 }, StepError::Unknown);
    assert_refused(rt, world, Event::Read { walk: 1 }, StepError::Ended);
}

// allocates: none
#[test]
fn worlds(rt: HostRuntime) -> Result<(), AllocError> {
    let mut world = world_at_rest(rt.alloc())?;
    ask(&rt);
    assert_refusals(&rt, &mut world);
    assert!(rt; world.items(1) == Some(&[7, 8]) && world.items(2).is_none() && world.stands(8));
    if world.is_at_rest() {
        assert!(rt; has_exactly(&world.settle(), &[7, 8]));
    }
    ask(&rt);
    Ok(())
}

// Lets a walk read `count` words, and returns whether no allocation failed.
fn reads(world: &mut World, count: u32) -> bool {
    for _ in 0..count {
        if world.apply(Event::Read { walk: 1 }).is_err() {
            return false;
        }
    }
    true
}

// Behind the upper layers, each second read gives an item. After 2,100 reads there is capacity for 4,096 events and
// 2,048 items.
// allocates: none
#[test]
fn worlds_with_room_of_reads(rt: HostRuntime) -> Result<(), AllocError> {
    let mut set = AtomicBitSet::new(rt.alloc())?;
    if !adds_blocks(&mut set, 0, 2_100) {
        return Err(AllocError);
    }
    let mut world = World::new(rt.alloc(), set);
    if world.apply(Event::Open { walk: 1 }).is_err() || !reads(&mut world, 2_100) {
        return Err(AllocError);
    }
    ask(&rt);
    assert!(rt; reads(&mut world, 1_800));
    ask(&rt);
    Ok(())
}

// allocates: none
#[test]
fn parts(rt: HostRuntime) -> Result<(), AllocError> {
    let set = set_of(rt.alloc(), &[1, 70, 300_000])?;
    ask(&rt);
    let _walk = BitParIter::new(&set).layers_split(2);
    let _all = (&set).par_iter();
    let (first, second) = BitProducer((&set).iter(), 4).split();
    let add = |sum: u64, index: Index| sum.wrapping_add(u64::from(index));
    assert!(rt; first.fold_with(0u64, add) == 71);
    if let Some(second) = second {
        assert!(rt; second.fold_with(0u64, add) == 300_000);
    }
    ask(&rt);
    Ok(())
}

// Walks that are to take no threads, since they have fewer members than are asked for.
// allocates: none
#[test]
fn parts_in_one_thread(rt: HostRuntime) -> Result<(), AllocError> {
    let words = vec![in rt.alloc(); usize::MAX; 1_000]?;
    let set = BitSet::from_words(rt.alloc(), words.as_slice())?;
    let add = |sum: u64, index: Index| sum.wrapping_add(u64::from(index));
    let both = |sum: u64, other: u64| sum.wrapping_add(other);
    ask(&rt);
    let walk = (&set).par_iter().with_min_len(100_000).layers_split(2);
    walk.for_each(&rt, rt.alloc(), |_index: Index| {})?;
    let walk = (&set).par_iter().layers_split(2).with_min_len(100_000);
    let sum = walk.fold(&rt, rt.alloc(), || 0u64, add, both)?;
    assert!(rt; sum == 2_047_968_000);
    ask(&rt);
    Ok(())
}

fn assert_frees(rt: &impl Abort, ids: &mut Ids) {
    assert!(rt; ids.is_used(64) && !ids.is_used(65) && !ids.free(65) && ids.free(3));
    assert!(rt; ids.alloc() == Ok(Some(3)) && ids.alloc() == Ok(Some(65)));
}

fn assert_frees_runs(rt: &impl Abort, ids: &mut Ids) {
    ids.free_run(10, 20);
    assert!(rt; ids.alloc_run(10) == Ok(Some(10)) && ids.alloc_run(3) == Ok(Some(66)));
}

// allocates: none
#[test]
fn identifiers(rt: HostRuntime) -> Result<(), AllocError> {
    let mut ids = Ids::new(rt.alloc());
    for _ in 0..65u32 {
        ids.alloc()?;
    }
    ask(&rt);
    assert_frees(&rt, &mut ids);
    assert_frees_runs(&rt, &mut ids);
    assert!(rt; !Ids::new(rt.alloc()).free(0));
    ask(&rt);
    Ok(())
}

fn assert_marks(rt: &impl Abort, pages: &mut Pages) {
    assert!(rt; pages.mark(5) == Ok(false) && pages.mark(70_000) == Ok(true));
    assert!(rt; pages.is_dirty(5) && !pages.is_dirty(6));
}

fn assert_flushes(rt: &impl Abort, pages: &mut Pages, out: &mut Vec<Index>, pages_of: &[Index]) {
    assert!(rt; pages.flush(out).is_ok() && out.as_slice() == pages_of);
}

// allocates: none
#[test]
fn pages(rt: HostRuntime) -> Result<(), AllocError> {
    let mut pages = Pages::new(rt.alloc());
    pages.mark(70_000)?;
    let mut out = Vec::with_capacity(rt.alloc(), 2)?;
    let mut none = Vec::new(rt.alloc());
    ask(&rt);
    assert_marks(&rt, &mut pages);
    assert_flushes(&rt, &mut pages, &mut out, &[5, 70_000]);
    assert_flushes(&rt, &mut pages, &mut none, &[]);
    assert_flushes(&rt, &mut Pages::new(rt.alloc()), &mut none, &[]);
    ask(&rt);
    Ok(())
}

fn assert_wakes(rt: &impl Abort, ready: &mut Ready) {
    assert!(rt; ready.next_ready().is_none() && ready.next_from(7).is_none());
    assert!(rt; ready.wake(99) == Ok(false) && ready.wake(0) == Ok(false));
    assert!(rt; ready.next_from(1) == Some(99) && ready.next_ready() == Some(0));
    assert!(rt; ready.wake(99) == Ok(false));
}

// allocates: none
#[test]
fn tasks(rt: HostRuntime) -> Result<(), AllocError> {
    let mut ready = Ready::new(rt.alloc(), 100)?;
    ask(&rt);
    assert_wakes(&rt, &mut ready);
    assert!(rt; Ready::new(rt.alloc(), 0).is_ok());
    ask(&rt);
    Ok(())
}

// A record with each of three tags.
fn tagged(alloc: Global) -> Result<Tagged, AllocError>
    ensures { IfOk result (λ tagged. tags_of tagged ≡ 3) }
{
    let mut tagged = three_tags(alloc)?;
    tagged.tag(70, 0)?;
    tagged.tag(70, 1)?;
    tagged.tag(70, 2)?;
    Ok(tagged)
}

fn assert_tags(rt: &impl Abort, alloc: Global, tagged: &mut Tagged, more: &BitSet)
    requires { tags_of tagged.old ≡ 3 }
    ensures { tags_of tagged.new ≡ 3 }
{
    assert!(rt; tagged.count(0, 1, 2) == 0 && tagged.find(alloc, 0, 1, 2).is_ok());
    assert!(rt; tagged.tag(71, 0) == Ok(false) && tagged.widen(1, more).is_ok());
    assert!(rt; tagged.count(0, 1, 2) == 1 && tagged.records(1).len() == 2);
}

// allocates: none
#[test]
fn tags(rt: HostRuntime) -> Result<(), AllocError> {
    let mut tagged = tagged(rt.alloc())?;
    let more = set_of(rt.alloc(), &[70, 71])?;
    ask(&rt);
    assert_tags(&rt, rt.alloc(), &mut tagged, &more);
    tagged.narrow(0, &BitSet::new(rt.alloc()));
    assert!(rt; tagged.records(0).is_empty() && tagged.new_tag() == Ok(3));
    ask(&rt);
    Ok(())
}
