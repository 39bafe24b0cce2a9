//! What closures and iterators are asked: once for each member or item, in order.
use crate::tests::{assert_count, assert_members};
use hibitset::{AtomicBitSet, BitProducer, BitSet, BitSetLike, DrainableBitSet, Index};
use hibitset_testing::sets::{BORDERS, run_of, set_of};
use std::alloc::{AllocError, Global};
use std::cell::Cell;
use std::process::Abort;
use std::sync::atomic::{AtomicUsize, Ordering};
use std::test::Fail;
use std::thread::{Threads, available_parallelism};

// The first indices that a closure was asked for, and how many it was.
#[derive(Drop)]
struct Asked {
    indices: Cell<[Index; 16]>,
    count: Cell<usize>,
}

impl Asked {
    fn new() -> Asked {
        Asked {
            indices: Cell::new([0; 16]),
            count: Cell::new(0),
        }
    }

    fn note(&self, index: Index) {
        let count = self.count.get();
        let mut indices = self.indices.get();
        if let Some(place) = indices.get_mut(count) {
            *place = index;
        }
        self.indices.set(indices);
        self.count.set(count.wrapping_add(1));
    }

    // Sees that it was asked for these indices, in this order.
    fn assert_for(&self, rt: &impl Abort, ids: &[Index]) {
        let indices = self.indices.get();
        let asked = indices.get(..self.count.get());
        assert!(rt; asked == Some(ids), "{asked:?}");
    }
}

// Keeps the members that are even.
fn keep_even<T: DrainableBitSet>(set: &mut T, asked: &Asked) {
    set.retain(|index| {
        asked.note(index);
        index % 2 == 0
    });
}

#[test]
fn keep_is_asked_for_each_member(rt: HostRuntime) -> Result<(), Fail> {
    let mut set = set_of(rt.alloc(), &BORDERS)?;
    let asked = Asked::new();
    keep_even(&mut set, &asked);
    asked.assert_for(&rt, &BORDERS);
    let even = [0, 64, 4_096, 262_144, 8_388_608, 16_777_216];
    assert_members(&rt, &set, &even);
    let mut atomic = AtomicBitSet::from_index_refs(rt.alloc(), &[3, 64, 4_097])?;
    let asked = Asked::new();
    keep_even(&mut atomic, &asked);
    asked.assert_for(&rt, &[3, 64, 4_097]);
    Ok(())
}

#[test]
fn a_step_is_made_for_each_item(rt: HostRuntime) -> Result<(), AllocError> {
    let set = set_of(rt.alloc(), &BORDERS)?;
    let asked = Asked::new();
    let count = BitProducer((&set).iter(), 3).fold_with(0usize, |count: usize, index: Index| {
        asked.note(index);
        count.wrapping_add(1)
    });
    assert_count(&rt, count, BORDERS.len());
    asked.assert_for(&rt, &BORDERS);
    Ok(())
}

// How often a fold begins, makes a step and combines two results, and what comes of it.
fn calls_of(
    rt: &(impl Threads + Sync),
    alloc: Global,
    set: &BitSet,
) -> Result<[usize; 4], AllocError> {
    let (inits, steps, combines) = (
        AtomicUsize::new(0),
        AtomicUsize::new(0),
        AtomicUsize::new(0),
    );
    let count = set.par_iter().fold(
        rt,
        alloc,
        || {
            inits.fetch_add(1, Ordering::SeqCst);
            0usize
        },
        |count: usize, _index: Index| {
            steps.fetch_add(1, Ordering::SeqCst);
            count.wrapping_add(1)
        },
        |count: usize, other: usize| {
            combines.fetch_add(1, Ordering::SeqCst);
            count.wrapping_add(other)
        },
    )?;
    Ok([
        inits.load(Ordering::SeqCst),
        steps.load(Ordering::SeqCst),
        combines.load(Ordering::SeqCst),
        count,
    ])
}

// Few members one by one, and words with many of them.
#[test]
fn folds_in_one_thread_begin_once(rt: HostRuntime) -> Result<(), AllocError> {
    let none = calls_of(&rt, rt.alloc(), &BitSet::new(rt.alloc()))?;
    assert!(rt; none == [1, 0, 0, 0]);
    let few = calls_of(&rt, rt.alloc(), &set_of(rt.alloc(), &BORDERS)?)?;
    assert!(rt; few == [1, 11, 0, 11]);
    let many = calls_of(&rt, rt.alloc(), &run_of(rt.alloc(), 200)?)?;
    assert!(rt; many == [1, 200, 0, 200]);
    Ok(())
}

// 512 pieces, which are combined from left to right.
#[test]
fn folds_in_threads_begin_once_a_piece(rt: HostRuntime) -> Result<(), Fail> {
    let pieces = if available_parallelism(&rt)?.get() > 1 {
        512usize
    } else {
        1
    };
    let calls = calls_of(&rt, rt.alloc(), &run_of(rt.alloc(), 524_288)?)?;
    assert!(rt; calls == [pieces, 524_288, pieces.wrapping_sub(1), 524_288]);
    Ok(())
}

// Gives 2, 1 and 0, counts how often it is asked, and is at its end from then on.
#[derive(Drop)]
struct Items<'a> {
    left: u32,
    asked: &'a Cell<u32>,
}

impl Iterator for Items<'_> {
    ghost use Rattle.std.specs.Iterator.{at_most};

    type Item = Index;

    ghost remaining = { λ items. at_most items.left };

    fn next(&mut self) -> Option<Index> {
        self.asked.set(self.asked.get().saturating_add(1));
        if self.left == 0 {
            return None;
        }
        self.left -= 1;
        Some(self.left)
    }
}

// The same by references to the items of a slice.
#[derive(Drop)]
struct References<'a> {
    rest: &'a [Index],
    asked: &'a Cell<u32>,
}

impl<'a> Iterator for References<'a> {
    ghost use Rattle.std.specs.Prelude.{length};
    ghost use Rattle.std.specs.Iterator.{at_most};

    type Item = &'a Index;

    ghost remaining = { λ items. at_most (length items.rest.now) };

    fn next(&mut self) -> Option<&'a Index> {
        self.asked.set(self.asked.get().saturating_add(1));
        let (first, others) = self.rest.split_first()?;
        self.rest = others;
        Some(first)
    }
}

// Sees that an iterator was asked so often, since this was last seen.
fn assert_asked(rt: &impl Abort, asked: &Cell<u32>, times: u32) {
    assert!(rt; asked.replace(0) == times);
}

// Three items, and the end.
#[test]
fn an_iterator_is_asked_to_its_end(rt: HostRuntime) -> Result<(), Fail> {
    let asked = &Cell::new(0);
    let mut set = BitSet::from_indices(rt.alloc(), Items { left: 3, asked })?;
    assert_asked(&rt, asked, 4);
    set.extend_indices(Items { left: 3, asked })?;
    assert_asked(&rt, asked, 4);
    let rest = [2, 1, 0].as_slice();
    set.extend_index_refs(References { rest, asked })?;
    assert_asked(&rt, asked, 4);
    let other = BitSet::from_index_refs(rt.alloc(), References { rest, asked })?;
    assert_asked(&rt, asked, 4);
    assert!(rt; set == other && set.len() == 3);
    Ok(())
}

#[test]
fn an_iterator_is_asked_to_its_end_for_atomic_sets(rt: HostRuntime) -> Result<(), Fail> {
    let asked = &Cell::new(0);
    let mut set = AtomicBitSet::from_indices(rt.alloc(), Items { left: 3, asked })?;
    assert_asked(&rt, asked, 4);
    set.extend_indices(Items { left: 3, asked })?;
    assert_asked(&rt, asked, 4);
    let rest = [2, 1, 0].as_slice();
    set.extend_index_refs(References { rest, asked })?;
    assert_asked(&rt, asked, 4);
    let other = AtomicBitSet::from_index_refs(rt.alloc(), References { rest, asked })?;
    assert_asked(&rt, asked, 4);
    assert!(rt; set.len() == 3 && other.len() == 3);
    Ok(())
}

// Two items, of which the second is out of range.
#[test]
fn an_iterator_is_asked_up_to_the_item_that_is_refused(rt: HostRuntime) {
    let asked = &Cell::new(0);
    let rest = [2, 1_073_741_824, 0].as_slice();
    assert!(rt; BitSet::from_index_refs(rt.alloc(), References { rest, asked }).is_err());
    assert_asked(&rt, asked, 2);
    let mut set = BitSet::new(rt.alloc());
    assert!(rt; set.extend_index_refs(References { rest, asked }).is_err());
    assert_asked(&rt, asked, 2);
}
