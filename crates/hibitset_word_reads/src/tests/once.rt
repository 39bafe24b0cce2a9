//! Which indices a set of the tests' own is told to take out: each that goes, once, in order.
use crate::tests::assert_index;
use crate::tests::watched::{Watch, Watched};
use hibitset::{DrainableBitSet, Index};
use hibitset_testing::sets::set_of;
use std::alloc::{AllocError, Global};
use std::cell::Cell;
use std::process::Abort;

// The first indices that were taken out, and how many.
#[derive(Drop)]
struct Removals {
    indices: Cell<[Index; 8]>,
    count: Cell<usize>,
}

impl Watch for Removals {
    fn see(&self, _layer: usize, _position: usize) {}

    fn see_removal(&self, index: Index) {
        let count = self.count.get();
        let mut indices = self.indices.get();
        if let Some(place) = indices.get_mut(count) {
            *place = index;
        }
        self.indices.set(indices);
        self.count.set(count.wrapping_add(1));
    }
}

impl Watched<Removals> {
    fn over(alloc: Global, ids: &[Index]) -> Result<Watched<Removals>, AllocError> {
        let indices = Cell::new([0; 8]);
        let count = Cell::new(0);
        Ok(Watched {
            set: set_of(alloc, ids)?,
            watch: Removals { indices, count },
        })
    }

    // Sees that these indices were taken out since this was last asked, in this order.
    fn assert_removed(&self, rt: &impl Abort, ids: &[Index]) {
        let indices = self.watch.indices.get();
        let removed = indices.get(..self.watch.count.replace(0));
        assert!(rt; removed == Some(ids), "{removed:?}");
    }
}

#[test]
fn ends_that_are_taken_out(rt: HostRuntime) -> Result<(), AllocError> {
    let mut set = Watched::<Removals>::over(rt.alloc(), &[64, 130, 300_000])?;
    assert_index(&rt, set.pop_last(), Some(300_000));
    set.assert_removed(&rt, &[300_000]);
    assert_index(&rt, set.pop_first(), Some(64));
    set.assert_removed(&rt, &[64]);
    assert_index(&rt, set.pop_first(), Some(130));
    set.assert_removed(&rt, &[130]);
    assert_index(&rt, set.pop_last(), None);
    assert_index(&rt, set.pop_first(), None);
    set.assert_removed(&rt, &[]);
    Ok(())
}

#[test]
fn members_that_are_not_kept(rt: HostRuntime) -> Result<(), AllocError> {
    let mut set = Watched::<Removals>::over(rt.alloc(), &[0, 3, 64, 130, 4_097, 300_000])?;
    set.retain(|index| index % 2 == 1);
    set.assert_removed(&rt, &[0, 64, 130, 300_000]);
    set.retain(|_index| true);
    set.assert_removed(&rt, &[]);
    Ok(())
}

#[test]
fn members_that_are_drained(rt: HostRuntime) -> Result<(), AllocError> {
    let mut set = Watched::<Removals>::over(rt.alloc(), &[0, 64, 300_000])?;
    assert_index(&rt, set.drain().next(), Some(0));
    set.assert_removed(&rt, &[0]);
    assert!(rt; set.drain().count() == 2);
    set.assert_removed(&rt, &[64, 300_000]);
    Ok(())
}
