//! Callers of the library.
ghost use Rattle.std.specs.Prelude.{◌≡◌, length, IfOk};
ghost use Rattle.hibitset_atomic.specs.Seats.{BelongsTo};
ghost use Rattle.uses.specs.Filter.{tags_of};

use crate::tests::{
    ask, assert_has, assert_indices, atomic_of, has_exactly, say, shared_of, three_tags,
};
use hibitset::{AtomicBitSet, BitSet, BitSetLike, BuildError, Index, MAX_EID, Seat, SharedBitSet};
use hibitset_sparse::SparseBitSet;
use hibitset_testing::sets::set_of;
use std::alloc::{AllocError, AllocGlobal, Global};
use std::io::Print;
use std::process::Abort;
use uses::filter::Tagged;
use uses::ids::Ids;
use uses::lists;
use uses::marks::unmarked;
use uses::pages::Pages;
use uses::ready::Ready;
use uses::results::{both_within, histogram, page, page_before, page_from};
use uses::room::{saved, with_one_more};
use uses::seen::Seen;
use uses::shared_ids::take_many;
use uses::walks::indices;
use uses::workers::{Refused, add_lists};

// Gives an index, or a run of 100 of them, from 0 on, and returns whether that was refused.
fn is_gift_refused(ids: &mut Ids, by_run: bool) -> bool {
    let given = if by_run {
        ids.alloc_run(100)
    } else {
        ids.alloc()
    };
    given != Ok(Some(0))
}

// Sees that the indices up to this one are given, and none where an allocation failed.
fn assert_gives(rt: &(impl Abort + Print + AllocGlobal), by_run: bool, last: Index) {
    let mut ids = Ids::new(rt.alloc());
    let refused = tried!(rt, is_gift_refused(&mut ids, by_run), |it| it);
    if refused {
        assert!(rt; !ids.is_used(0) && !is_gift_refused(&mut ids, by_run));
    }
    assert!(rt; ids.is_used(0) && ids.is_used(last) && !ids.is_used(last.wrapping_add(1)));
}

// allocates: 1, 56 bytes: uses::Ids::alloc
#[test]
fn alloc(rt: HostRuntime) {
    assert_gives(&rt, false, 0);
}

// allocates: 1, 56 bytes: uses::Ids::alloc_run
#[test]
fn alloc_run(rt: HostRuntime) {
    assert_gives(&rt, true, 99);
}

fn marked(pages: &mut Pages) -> Result<bool, AllocError> {
    pages.mark(5)
}

// allocates: 1, 56 bytes: uses::Pages::mark
#[test]
fn mark(rt: HostRuntime) {
    let mut pages = Pages::new(rt.alloc());
    let first = tried!(&rt, marked(&mut pages));
    if first.is_err() {
        assert!(rt; !pages.is_dirty(5) && marked(&mut pages) == Ok(false));
    }
    assert!(rt; pages.is_dirty(5));
}

fn flushed(pages: &mut Pages, out: &mut Vec<Index>) -> Result<(), AllocError> {
    pages.flush(out)
}

fn marked_pages(alloc: Global) -> Result<Pages, AllocError> {
    let mut pages = Pages::new(alloc);
    pages.mark(5)?;
    pages.mark(70_000)?;
    Ok(pages)
}

// allocates: 1, 16 bytes: uses::Pages::flush
#[test]
fn flush(rt: HostRuntime) -> Result<(), AllocError> {
    let mut pages = marked_pages(rt.alloc())?;
    let mut out = Vec::new(rt.alloc());
    let first = tried!(&rt, flushed(&mut pages, &mut out));
    if first.is_err() {
        assert!(rt; out.is_empty() && pages.is_dirty(5) && pages.is_dirty(70_000));
        assert!(rt; flushed(&mut pages, &mut out).is_ok());
    }
    assert_indices(&rt, out.as_slice(), &[5, 70_000]);
    assert!(rt; !pages.is_dirty(5));
    Ok(())
}

fn ready_of(alloc: Global) -> Result<Ready, AllocError> {
    Ready::new(alloc, 100)
}

// allocates: 1, 40 bytes: uses::Ready::new
#[test]
fn ready(rt: HostRuntime) -> Result<(), AllocError> {
    let mut ready = retried!(&rt, ready_of(rt.alloc()));
    assert!(rt; ready.wake(99) == Ok(false) && ready.next_ready() == Some(99));
    Ok(())
}

fn woken(ready: &mut Ready) -> Result<bool, AllocError> {
    ready.wake(5_000)
}

// allocates: 1, 664 bytes: uses::Ready::wake
#[test]
fn wake(rt: HostRuntime) -> Result<(), AllocError> {
    let mut ready = ready_of(rt.alloc())?;
    let first = tried!(&rt, woken(&mut ready));
    if first.is_err() {
        assert!(rt; ready.next_ready().is_none() && woken(&mut ready) == Ok(false));
    }
    assert!(rt; ready.next_ready() == Some(5_000));
    Ok(())
}

// allocates: 1, 384 bytes: uses::Tagged::new_tag
#[test]
fn new_tag(rt: HostRuntime) {
    let mut tagged = Tagged::new(rt.alloc());
    let tag = tried!(&rt, tagged.new_tag());
    if tag.is_err() {
        assert!(rt; tagged.new_tag() == Ok(0));
    }
    assert!(rt; tagged.new_tag() == Ok(1));
}

// The records 1, 2 and 70,000 have both tags, 1 has the third too.
fn tagged(alloc: Global) -> Result<Tagged, AllocError>
    ensures { IfOk result (λ tagged. tags_of tagged ≡ 3) }
{
    let mut tagged = three_tags(alloc)?;
    let both = set_of(alloc, &[1, 2, 70_000])?;
    tagged.widen(0, &both)?;
    tagged.widen(1, &both)?;
    tagged.tag(1, 2)?;
    Ok(tagged)
}

// allocates: 1, 8_912 bytes: uses::Tagged::tag
#[test]
fn tag(rt: HostRuntime) -> Result<(), AllocError> {
    let mut tagged = tagged(rt.alloc())?;
    let had = tried!(&rt, tagged.tag(70_000, 2));
    if had.is_err() {
        assert_has(&rt, tagged.records(2), &[1]);
        assert!(rt; tagged.tag(70_000, 2) == Ok(false));
    }
    assert_has(&rt, tagged.records(2), &[1, 70_000]);
    Ok(())
}

fn found(alloc: Global, tagged: &Tagged) -> Result<Vec<Index>, AllocError>
    requires { tags_of tagged.now ≡ 3 }
{
    tagged.find(alloc, 0, 1, 2)
}

// allocates: 1, 8 bytes: uses::Tagged::find
#[test]
fn find(rt: HostRuntime) -> Result<(), AllocError> {
    let tagged = tagged(rt.alloc())?;
    let list = retried!(&rt, found(rt.alloc(), &tagged));
    assert_indices(&rt, list.as_slice(), &[2, 70_000]);
    assert!(rt; list.capacity() == 2);
    Ok(())
}

// allocates: 1, 8_912 bytes: uses::Tagged::widen
#[test]
fn widen(rt: HostRuntime) -> Result<(), AllocError> {
    let mut tagged = tagged(rt.alloc())?;
    let more = set_of(rt.alloc(), &[3, 70_000])?;
    let widened = tried!(&rt, tagged.widen(2, &more));
    if widened.is_err() {
        assert_has(&rt, tagged.records(2), &[1]);
        assert!(rt; tagged.widen(2, &more).is_ok());
    }
    assert_has(&rt, tagged.records(2), &[1, 3, 70_000]);
    Ok(())
}

fn of_list(alloc: Global) -> Result<BitSet, BuildError> {
    lists::set_of(alloc, &[5, 5_000_000])
}

// allocates: 2, 635_000 bytes: uses::set_of
#[test]
fn set_of_a_list(rt: HostRuntime) -> Result<(), BuildError> {
    let set = retried!(&rt, of_list(rt.alloc()));
    assert_has(&rt, &set, &[5, 5_000_000]);
    Ok(())
}

// The set of a range, if no allocation failed, or one of those that are made for an index or for the range.
fn of_range(rt: &impl Abort, alloc: Global) -> Option<BitSet> {
    match lists::set_of_range(alloc, 62, 1_000) {
        Ok(set) => Some(set),
        Err(BuildError::Memory { place }) => {
            assert!(rt; place == 0 || place % 64 == 2);
            None
        }
        Err(_) => panic!(rt; "out of range"),
    }
}

// allocates: 3, 296 bytes: uses::set_of_range
#[test]
fn set_of_a_range(rt: HostRuntime) {
    let made = tried!(&rt, of_range(&rt, rt.alloc()), |it| it.is_none());
    let Some(set) = made.or_else(|| of_range(&rt, rt.alloc())) else {
        panic!(rt; "refused twice")
    };
    assert!(rt; set.len() == 938 && set.contains(62) && set.contains(999));
}

fn with_list(set: &mut BitSet) -> Result<(), BuildError> {
    lists::add_all(set, &[6, 5_000_000, 7])
}

// Adds the list again to a set over 5 that lacked memory for its second index.
fn assert_takes_list(rt: &impl Abort, set: &mut BitSet, error: BuildError) {
    assert!(rt; error == BuildError::Memory { place: 1 });
    assert_has(rt, set, &[5, 6]);
    assert!(rt; with_list(set).is_ok());
}

// allocates: 1, 634_944 bytes: uses::add_all
#[test]
fn add_a_list(rt: HostRuntime) -> Result<(), AllocError> {
    let mut set = set_of(rt.alloc(), &[5])?;
    let added = tried!(&rt, with_list(&mut set));
    if let Err(error) = added {
        assert_takes_list(&rt, &mut set, error);
    }
    assert_has(&rt, &set, &[5, 6, 7, 5_000_000]);
    Ok(())
}

// allocates: 1, 32 bytes: uses::with_one_more
#[test]
fn one_more(rt: HostRuntime) -> Result<(), AllocError> {
    let mut set = BitSet::with_capacity(rt.alloc(), 64)?;
    set.add(5)?;
    let copy = retried!(&rt, with_one_more(&set, 7));
    assert_has(&rt, &copy, &[5, 7]);
    assert_has(&rt, &set, &[5]);
    Ok(())
}

// allocates: 3, 48 bytes: uses::saved
#[test]
fn save(rt: HostRuntime) -> Result<(), AllocError> {
    let set = set_of(rt.alloc(), &[3])?;
    let words = retried!(&rt, saved(rt.alloc(), &set));
    assert!(rt; words.0.as_slice() == [8].as_slice() && words.1.as_slice() == [1].as_slice());
    Ok(())
}

// What a walk gives that fails to allocate its seat knows.
// allocates: 1, 16 bytes: uses::indices
#[test]
fn walk(rt: HostRuntime) -> Result<(), AllocError> {
    let (set, mut seat) = shared_of(rt.alloc(), &[7, 70_000])?;
    let all = retried!(&rt, indices(rt.alloc(), &set, &mut seat));
    assert_indices(&rt, all.as_slice(), &[7, 70_000]);
    Ok(())
}

// Refused, it takes none, and what it took before stays with the seat.
// allocates: 1, 16 bytes
#[test]
fn take(rt: HostRuntime) -> Result<(), AllocError> {
    let (set, seat) = shared_of(rt.alloc(), &[0])?;
    let mut taken = tried!(
        &rt,
        take_many(rt.alloc(), &set, seat, 2),
        |it| it.ids.is_empty()
    );
    if taken.ids.is_empty() {
        assert!(rt; taken.seat.is_whole() && !set.contains(&mut taken.seat, 1));
    } else {
        assert!(rt; taken.ids.as_slice() == [1, 2].as_slice());
    }
    Ok(())
}

// One list of two indices.
fn one_list(alloc: Global) -> Result<Vec<Vec<Index>>, AllocError>
    ensures { IfOk result (λ lists. length lists.items ≡ 1) }
{
    let mut list = Vec::with_capacity(alloc, 2)?;
    list.push(7)?;
    list.push(70_000)?;
    let mut lists = Vec::with_capacity(alloc, 1)?;
    lists.push(list)?;
    Ok(lists)
}

fn settled(rt: &impl Abort, shared: SharedBitSet, seat: Seat) -> AtomicBitSet
    requires { BelongsTo shared seat }
{
    let Ok(set) = shared.settle(seat) else {
        panic!(rt; "refused twice")
    };
    set
}

// Refused, the set is as it was, or it settles with the seat that is left.
// allocates: 11, in threads: uses::add_lists
#[test]
fn lists_by_workers(rt: HostRuntime) -> Result<(), AllocError> {
    let lists = one_list(rt.alloc())?;
    let set = atomic_of(rt.alloc(), &[5])?;
    let added = tried!(&rt, add_lists(&rt, rt.alloc(), set, lists));
    match added {
        Ok(added) => {
            assert!(rt; added.new == 2 && has_exactly(&added.set, &[5, 7, 70_000]));
        }
        Err(Refused::Sharing(set)) => assert_has(&rt, &set, &[5]),
        Err(Refused::Working(shared, seat)) => {
            assert!(rt; settled(&rt, shared, seat).contains(5));
        }
        Err(Refused::Settling(shared, seat)) => {
            assert!(rt; seat.is_whole());
            assert_has(&rt, &settled(&rt, shared, seat), &[5, 7, 70_000]);
        }
    }
    Ok(())
}

fn seen(keys: &mut Seen) -> Result<bool, AllocError> {
    keys.see(12_345_678_901)
}

// allocates: 4, 384 bytes: uses::Seen::see
#[test]
fn see_a_key(rt: HostRuntime) {
    let mut keys = Seen::new(rt.alloc());
    let first = tried!(&rt, seen(&mut keys));
    if first.is_err() {
        assert!(rt; seen(&mut keys) == Ok(false));
    }
    assert!(rt; seen(&mut keys) == Ok(true));
}

const ROWS: [Index; 5] = [1, 2, 3, 5_000, 70_000];

// A list of rows: of a page of the rows found, of those that another set has too, or of those without a mark.
#[derive(Clone, Copy)]
enum Listing {
    Page,
    PageFrom,
    PageBefore,
    BothWithin,
    Unmarked,
}

// The list, if no allocation failed.
fn listed(
    alloc: Global,
    found: &BitSet,
    other: &BitSet,
    marks: &SparseBitSet,
    listing: Listing,
) -> Option<Vec<Index>> {
    match listing {
        Listing::Page => page(alloc, found, 1, 2).ok(),
        Listing::PageFrom => page_from(alloc, found, 3, 2).ok(),
        Listing::PageBefore => page_before(alloc, found, 5_000, 2).ok(),
        Listing::BothWithin => both_within(alloc, found, other, 2, 6_000).ok(),
        Listing::Unmarked => unmarked(alloc, found, marks).ok(),
    }
}

fn marks_of(alloc: Global, id: Index) -> Result<SparseBitSet, AllocError> {
    let mut marks = SparseBitSet::new(alloc);
    if (id as usize) < MAX_EID {
        marks.add(id)?;
    }
    Ok(marks)
}

// Sees that a list of these rows is made, or made again.
fn assert_lists(
    rt: &(impl Abort + Print + AllocGlobal),
    listing: Listing,
    rows: &[Index],
) -> Result<(), AllocError> {
    let found = set_of(rt.alloc(), &ROWS)?;
    let other = set_of(rt.alloc(), &[1, 3, 5_000, 5_001])?;
    let marks = marks_of(rt.alloc(), 3)?;
    let first = tried!(
        rt,
        listed(rt.alloc(), &found, &other, &marks, listing),
        |it| it.is_none()
    );
    let list = match first {
        Some(list) => list,
        None => listed(rt.alloc(), &found, &other, &marks, listing).ok_or(AllocError)?,
    };
    assert_indices(rt, list.as_slice(), rows);
    Ok(())
}

// allocates: 1, 16 bytes, or goes on: uses::page
#[test]
fn page_at_a_position(rt: HostRuntime) -> Result<(), AllocError> {
    assert_lists(&rt, Listing::Page, &[2, 3])
}

// allocates: 1, 16 bytes, or goes on: uses::page_from
#[test]
fn page_from_a_row(rt: HostRuntime) -> Result<(), AllocError> {
    assert_lists(&rt, Listing::PageFrom, &[3, 5_000])
}

// allocates: 1, 16 bytes, or goes on: uses::page_before
#[test]
fn page_before_a_row(rt: HostRuntime) -> Result<(), AllocError> {
    assert_lists(&rt, Listing::PageBefore, &[2, 3])
}

// allocates: 1, 8 bytes: uses::both_within
#[test]
fn rows_of_both(rt: HostRuntime) -> Result<(), AllocError> {
    assert_lists(&rt, Listing::BothWithin, &[3, 5_000])
}

// allocates: 1, 16 bytes: uses::unmarked
#[test]
fn rows_without_marks(rt: HostRuntime) -> Result<(), AllocError> {
    assert_lists(&rt, Listing::Unmarked, &[1, 2, 5_000, 70_000])
}

fn counts_of(alloc: Global, found: &BitSet) -> Result<Vec<usize>, AllocError> {
    histogram(alloc, found, 6_000, 3_000)
}

// allocates: 1, 32 bytes: uses::histogram
#[test]
fn windows(rt: HostRuntime) -> Result<(), AllocError> {
    let found = set_of(rt.alloc(), &ROWS)?;
    let made = retried!(&rt, counts_of(rt.alloc(), &found));
    assert!(rt; made.as_slice() == [3usize, 1].as_slice());
    Ok(())
}
