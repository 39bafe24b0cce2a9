//! The reads of a walk, counted by the set that is read.
use crate::tests::strangers::Everywhere;
use crate::tests::watched::{Watch, Watched};
use crate::tests::{assert_count, assert_index};
use hibitset::{BitSet, BitSetLike};
use hibitset_testing::sets::set_of;
use std::alloc::AllocError;
use std::cell::Cell;

// Counts the words that are read and the indices that are asked for, in one number.
#[derive(Drop)]
pub(super) struct Count {
    reads: Cell<usize>,
}

impl Watch for Count {
    fn see(&self, _layer: usize, _position: usize) {
        self.reads.set(self.reads.get().wrapping_add(1));
    }
}

// A set that keeps such a count.
pub(super) type Counting = Watched<Count>;

impl Watched<Count> {
    pub(super) fn over(set: BitSet) -> Counting {
        let reads = Cell::new(0);
        Watched {
            set,
            watch: Count { reads },
        }
    }

    // How many words were read since this was last asked.
    pub(super) fn reads(&self) -> usize {
        self.watch.reads.replace(0)
    }
}

#[test]
fn one_word_and_then_four_a_step(rt: HostRuntime) -> Result<(), AllocError> {
    let counting = Counting::over(set_of(rt.alloc(), &[0, 1073741823])?);
    let mut walk = (&counting).iter();
    assert_count(&rt, counting.reads(), 1);
    assert_index(&rt, walk.next(), Some(0));
    assert_count(&rt, counting.reads(), 4);
    assert_index(&rt, walk.next(), Some(1073741823));
    assert_count(&rt, counting.reads(), 4);
    assert_index(&rt, walk.next(), None);
    assert_count(&rt, counting.reads(), 0);
    Ok(())
}

#[test]
fn one_word_and_then_four_to_an_index(rt: HostRuntime) -> Result<(), AllocError> {
    let counting = Counting::over(set_of(rt.alloc(), &[4_000])?);
    let mut walk = (&counting).iter();
    assert_count(&rt, counting.reads(), 1);
    assert_index(&rt, walk.next(), Some(4_000));
    assert_count(&rt, counting.reads(), 4);
    Ok(())
}

#[test]
fn all_words_under_bits_that_stand_everywhere(rt: HostRuntime) -> Result<(), AllocError> {
    let everywhere = Everywhere {
        set: Counting::over(set_of(rt.alloc(), &[0, 4096])?),
    };
    let mut walk = (&everywhere).iter();
    assert_index(&rt, walk.next(), Some(0));
    assert_index(&rt, walk.next(), Some(4096));
    assert_index(&rt, walk.next(), None);
    assert_count(&rt, everywhere.set.reads(), 17_043_521);
    Ok(())
}
