//! How often a set is cloned, counted by the set.
use crate::tests::watched::{Watch, Watched};
use crate::tests::{assert_count, assert_index, assert_indices};
use hibitset::{BitSetAnd, BitSetLike, BitSetNot, BitSetOr, BitSetXor, Index};
use hibitset_testing::sets::{list, set_of};
use std::alloc::{AllocError, Global};
use std::cell::Cell;
use std::process::Abort;

// Counts the clones of its set. Each of them begins to count anew.
#[derive(Drop)]
struct Clones {
    count: Cell<usize>,
}

impl Clones {
    fn new() -> Clones {
        Clones {
            count: Cell::new(0),
        }
    }
}

impl Watch for Clones {
    fn see(&self, _layer: usize, _position: usize) {}
}

// A set that counts its clones.
type Cloned = Watched<Clones>;

impl Watched<Clones> {
    fn over(alloc: Global, ids: &[Index]) -> Result<Cloned, AllocError> {
        Ok(Watched {
            set: set_of(alloc, ids)?,
            watch: Clones::new(),
        })
    }

    // How often it was cloned since this was last asked.
    fn clones(&self) -> usize {
        self.watch.count.replace(0)
    }
}

impl Clone for Watched<Clones> {
    ghost use Rattle.hibitset.specs.BitSet.{has};
    ghost use Rattle.hibitset_base.specs.Sets.{SameSet};

    ghost is_clone = { λ s copy. SameSet (has s.set) (has copy.set) };

    fn clone(&self) -> Result<Watched<Clones>, AllocError> {
        let count = &self.watch.count;
        count.set(count.get().wrapping_add(1));
        Ok(Watched {
            set: self.set.clone()?,
            watch: Clones::new(),
        })
    }
}

// Sees that two sets were cloned once each since this was last asked.
fn assert_cloned_once(rt: &impl Abort, a: &Cloned, b: &Cloned) {
    assert_count(rt, a.clones(), 1);
    assert_count(rt, b.clones(), 1);
}

#[test]
fn clones_of_virtual_sets(rt: HostRuntime) -> Result<(), AllocError> {
    let a = Cloned::over(rt.alloc(), &[1, 70])?;
    let b = Cloned::over(rt.alloc(), &[70, 300_000])?;
    let both = BitSetAnd(a, b);
    assert_indices(&rt, list(rt.alloc(), both.clone()?)?.as_slice(), &[70]);
    assert_cloned_once(&rt, &both.0, &both.1);
    let BitSetAnd(a, b) = both;
    let either = BitSetOr(a, b);
    assert_indices(
        &rt,
        list(rt.alloc(), either.clone()?)?.as_slice(),
        &[1, 70, 300_000],
    );
    assert_cloned_once(&rt, &either.0, &either.1);
    Ok(())
}

#[test]
fn clones_of_exclusive_ors_and_complements(rt: HostRuntime) -> Result<(), AllocError> {
    let a = Cloned::over(rt.alloc(), &[1, 70])?;
    let b = Cloned::over(rt.alloc(), &[70, 300_000])?;
    let one = BitSetXor(a, b);
    assert_indices(
        &rt,
        list(rt.alloc(), one.clone()?)?.as_slice(),
        &[1, 300_000],
    );
    assert_cloned_once(&rt, &one.0, &one.1);
    let BitSetXor(a, _b) = one;
    let others = BitSetNot(a);
    assert_index(&rt, others.clone()?.first(), Some(0));
    assert_count(&rt, others.0.clones(), 1);
    Ok(())
}
