//! Which words are read, told by the set that is read.
use crate::tests::watched::{Watch, Watched};
use crate::tests::{assert_count, assert_index};
use hibitset::{
    BitIter, BitSetAnd, BitSetLike, BitSetNot, BitSetOr, BitSetXor, DrainableBitSet, Index,
};
use hibitset_testing::sets::set_of;
use std::alloc::{AllocError, AllocGlobal, Global};
use std::cell::Cell;
use std::process::Abort;

// A list of the words that were read, each by its layer and its position, and of the indices that were asked for.
#[derive(Drop)]
pub(super) struct Log {
    words: Cell<[(usize, usize); 32]>,
    count: Cell<usize>,
}

impl Watch for Log {
    fn see(&self, layer: usize, position: usize) {
        let count = self.count.get();
        let mut words = self.words.get();
        if let Some(word) = words.get_mut(count) {
            *word = (layer, position);
        }
        self.words.set(words);
        self.count.set(count.wrapping_add(1));
    }
}

// A set that keeps such a list.
pub(super) type Logging = Watched<Log>;

impl Watched<Log> {
    pub(super) fn over(alloc: Global, ids: &[Index]) -> Result<Logging, AllocError> {
        let words = Cell::new([(0, 0); 32]);
        let count = Cell::new(0);
        Ok(Watched {
            set: set_of(alloc, ids)?,
            watch: Log { words, count },
        })
    }

    // The words that were read since this was last asked.
    pub(super) fn read(&self, alloc: Global) -> Result<Vec<(usize, usize)>, AllocError> {
        let words = self.watch.words.get();
        let mut read = Vec::new(alloc);
        for n in 0..self.watch.count.replace(0) {
            // Past the end of the list there is no such word.
            read.push(words.get(n).copied().unwrap_or((9, n)))?;
        }
        Ok(read)
    }

    // Sees that these words were read since this was last asked.
    pub(super) fn assert_read(
        &self,
        rt: &(impl Abort + AllocGlobal),
        words: &[(usize, usize)],
    ) -> Result<(), AllocError> {
        let read = self.read(rt.alloc())?;
        assert_eq!(rt; read.as_slice(), words);
        Ok(())
    }
}

// The words over 64 and 300,000: the two at the top, and three on the way to each.
pub(super) const OVER_64_AND_300000: [(usize, usize); 8] = [
    (4, 0),
    (3, 0),
    (2, 0),
    (1, 0),
    (0, 1),
    (2, 1),
    (1, 73),
    (0, 4687),
];

// The words over 64, where it lies under the first bits.
const OVER_64: [(usize, usize); 5] = [(4, 0), (3, 0), (2, 0), (1, 0), (0, 1)];

// The words over 300,000 that are read after those over 64.
const OVER_300000_NEXT: [(usize, usize); 3] = [(2, 1), (1, 73), (0, 4687)];

// It looks down to the first member, and at no word twice.
#[test]
fn asked_whether_it_is_empty(rt: HostRuntime) -> Result<(), AllocError> {
    let some = Logging::over(rt.alloc(), &[70, 5000, 16777215])?;
    assert!(rt; !some.is_empty());
    some.assert_read(&rt, &OVER_64)?;
    let none = Logging::over(rt.alloc(), &[])?;
    assert!(rt; none.is_empty());
    none.assert_read(&rt, &[(4, 0)])
}

// Two sets that share the words of two blocks, and no member.
#[test]
fn asked_whether_an_intersection_is_empty(rt: HostRuntime) -> Result<(), AllocError> {
    let ours = Logging::over(rt.alloc(), &[64, 300000])?;
    let theirs = Logging::over(rt.alloc(), &[65, 300001])?;
    assert!(rt; BitSetAnd(&ours, &theirs).is_empty());
    ours.assert_read(&rt, &OVER_64_AND_300000)?;
    theirs.assert_read(&rt, &OVER_64_AND_300000)
}

#[test]
fn a_walk_over_an_intersection(rt: HostRuntime) -> Result<(), AllocError> {
    let ours = Logging::over(rt.alloc(), &[0, 64, 4096, 300000])?;
    let theirs = Logging::over(rt.alloc(), &[64, 300000, 300001, 16777215])?;
    let both = BitSetAnd(&ours, &theirs);
    let mut walk = (&both).iter();
    assert_index(&rt, walk.next(), Some(64));
    ours.assert_read(&rt, &OVER_64)?;
    theirs.assert_read(&rt, &OVER_64)?;
    assert_index(&rt, walk.next(), Some(300000));
    ours.assert_read(&rt, &OVER_300000_NEXT)?;
    theirs.assert_read(&rt, &OVER_300000_NEXT)?;
    assert_index(&rt, walk.next(), None);
    ours.assert_read(&rt, &[])?;
    theirs.assert_read(&rt, &[])
}

// Above layer 0 a complement has all bits, and asks its operand for none.
#[test]
fn a_walk_over_a_complement(rt: HostRuntime) -> Result<(), AllocError> {
    let set = Logging::over(rt.alloc(), &[0, 1, 3])?;
    let others = BitSetNot(&set);
    let mut walk = (&others).iter();
    set.assert_read(&rt, &[])?;
    assert_index(&rt, walk.next(), Some(2));
    set.assert_read(&rt, &[(0, 0)])?;
    for _ in 4..64u32 {
        walk.next();
    }
    set.assert_read(&rt, &[])?;
    assert_index(&rt, walk.next(), Some(64));
    set.assert_read(&rt, &[(0, 1)])
}

// Sees that a walk gives these two indices and no more.
fn assert_two<T: BitSetLike>(rt: &impl Abort, walk: BitIter<T>, first: Index, second: Index) {
    let mut walk = walk;
    assert_index(rt, walk.next(), Some(first));
    assert_index(rt, walk.next(), Some(second));
    assert_index(rt, walk.next(), None);
}

#[test]
fn walks_by_a_reference(rt: HostRuntime) -> Result<(), AllocError> {
    let mut set = Logging::over(rt.alloc(), &[64, 300000])?;
    assert_two(&rt, (&mut set).iter(), 64, 300000);
    set.assert_read(&rt, &OVER_64_AND_300000)
}

#[test]
fn a_walk_over_a_union_by_a_reference(rt: HostRuntime) -> Result<(), AllocError> {
    let set = Logging::over(rt.alloc(), &[64, 300000])?;
    let other = Logging::over(rt.alloc(), &[300000])?;
    let either = BitSetOr(&set, &other);
    let walk = (&either).into_iter();
    set.assert_read(&rt, &[(4, 0)])?;
    assert_two(&rt, walk, 64, 300000);
    set.assert_read(&rt, &OVER_64_AND_300000[1..])?;
    other.assert_read(&rt, &OVER_64_AND_300000)
}

#[test]
fn a_clone_of_a_walk(rt: HostRuntime) -> Result<(), AllocError> {
    let set = Logging::over(rt.alloc(), &[64, 300000])?;
    let mut walk = (&set).iter();
    assert_index(&rt, walk.next(), Some(64));
    assert_count(&rt, set.read(rt.alloc())?.len(), 5);
    let mut copy = walk.clone()?;
    set.assert_read(&rt, &[])?;
    assert_index(&rt, walk.next(), Some(300000));
    set.assert_read(&rt, &OVER_300000_NEXT)?;
    assert_index(&rt, copy.next(), Some(300000));
    set.assert_read(&rt, &OVER_300000_NEXT)
}

#[test]
fn a_drain(rt: HostRuntime) -> Result<(), AllocError> {
    let mut set = Logging::over(rt.alloc(), &[64, 300000])?;
    {
        let mut drain = (&mut set).drain();
        assert_index(&rt, drain.next(), Some(64));
        assert_index(&rt, drain.next(), Some(300000));
        assert_index(&rt, drain.next(), None);
    }
    set.assert_read(&rt, &OVER_64_AND_300000)?;
    assert!(rt; set.set.is_empty());
    Ok(())
}

// How often a word is among those that were read.
fn times(read: &[(usize, usize)], word: (usize, usize)) -> usize {
    let mut times = 0usize;
    for other in read {
        if *other == word {
            times = times.wrapping_add(1);
        }
    }
    times
}

// The way to the last word, which shows whether there is room.
const TO_THE_END: [(usize, usize); 4] = [(4, 0), (3, 0), (2, 1), (1, 73)];

// Returns whether of a set over 64 and 300,000 each word was read once, and those on the way to the last word once
// more.
fn was_put_in_once(alloc: Global, set: &Logging) -> Result<bool, AllocError> {
    let read = set.read(alloc)?;
    for word in &OVER_64_AND_300000 {
        let more = if TO_THE_END.contains(word) { 2 } else { 1 };
        if times(read.as_slice(), *word) != more {
            return Ok(false);
        }
    }
    Ok(read.len() == OVER_64_AND_300000.len() + TO_THE_END.len())
}

// Where there is room, no word of the other set is read in vain.
#[test]
fn assignments_with_room(rt: HostRuntime) -> Result<(), AllocError> {
    let other = Logging::over(rt.alloc(), &[64, 300_000])?;
    let mut set = set_of(rt.alloc(), &[5, 300_001])?;
    set.bitor_assign(&other)?;
    assert!(rt; was_put_in_once(rt.alloc(), &other)?);
    set.bitxor_assign(&other)?;
    assert!(rt; was_put_in_once(rt.alloc(), &other)?);
    Ok(())
}

// The same of a set that is put together.
#[test]
fn assignments_of_virtual_sets_with_room(rt: HostRuntime) -> Result<(), AllocError> {
    let other = Logging::over(rt.alloc(), &[64, 300_000])?;
    let more = Logging::over(rt.alloc(), &[65, 300_002])?;
    let mut set = set_of(rt.alloc(), &[5, 300_001])?;
    set.bitor_assign(&BitSetOr(&other, &more))?;
    assert!(rt; was_put_in_once(rt.alloc(), &other)?);
    assert!(rt; was_put_in_once(rt.alloc(), &more)?);
    set.bitxor_assign(&BitSetXor(&other, &more))?;
    assert!(rt; was_put_in_once(rt.alloc(), &other)?);
    assert!(rt; was_put_in_once(rt.alloc(), &more)?);
    Ok(())
}

// Sees that no word was read but those over 64 and 300,000, and each of them.
fn assert_read_of_both(rt: &(impl Abort + AllocGlobal), set: &Logging) -> Result<(), AllocError> {
    let read = set.read(rt.alloc())?;
    for word in read.as_slice() {
        assert!(rt; OVER_64_AND_300000.contains(word), "{word:?}");
    }
    for word in &OVER_64_AND_300000 {
        assert!(rt; read.contains(word), "{word:?}");
    }
    Ok(())
}

// Of the other set no word is read that it has not, and by `&=` none that ours has not.
#[test]
fn assignments(rt: HostRuntime) -> Result<(), AllocError> {
    let other = Logging::over(rt.alloc(), &[64, 300000])?;
    let mut set = set_of(rt.alloc(), &[5, 64, 4096, 16777215])?;
    set &= &other;
    other.assert_read(&rt, &OVER_64)?;
    let mut or = set_of(rt.alloc(), &[5, 4096, 16777215])?;
    or.bitor_assign(&other)?;
    assert_read_of_both(&rt, &other)?;
    let mut xor = set_of(rt.alloc(), &[5, 64, 4096])?;
    xor.bitxor_assign(&other)?;
    assert_read_of_both(&rt, &other)
}

// Takes another set's members out, and sees that its words were read where both have some, each once, and no other.
fn assert_subtracted(rt: &(impl Abort + AllocGlobal), by_name: bool) -> Result<(), AllocError> {
    let other = Logging::over(rt.alloc(), &[64, 300_000])?;
    let mut set = set_of(rt.alloc(), &[5, 64, 70, 4096, 16777215])?;
    if by_name {
        set.subtract_assign(&other);
    } else {
        set -= &other;
    }
    other.assert_read(rt, &OVER_64)?;
    assert_count(rt, set.len(), 4);
    Ok(())
}

#[test]
fn a_set_that_is_subtracted(rt: HostRuntime) -> Result<(), AllocError> {
    assert_subtracted(&rt, true)?;
    assert_subtracted(&rt, false)
}

// Sees how often each word over 64 and 300,000 was read, in the order of these words, and that no other was.
fn assert_times(
    rt: &(impl Abort + AllocGlobal),
    set: &Logging,
    wanted: [usize; 8],
) -> Result<(), AllocError> {
    let read = set.read(rt.alloc())?;
    let mut found = [0usize; 8];
    let mut sum = 0usize;
    for (count, word) in found.iter_mut().zip(OVER_64_AND_300000.iter()) {
        *count = times(read.as_slice(), *word);
        sum = sum.wrapping_add(*count);
    }
    assert_eq!(rt; found, wanted);
    assert_count(rt, read.len(), sum);
    Ok(())
}

// The words on the way to the last one are read to see that there is no room, again to see how much is to be made, and
// again to put them in. The last one itself is read to make room and to put it in, and all others are read once.
const WITHOUT_ROOM: [usize; 8] = [3, 3, 1, 1, 1, 3, 3, 2];

#[test]
fn assignments_without_room(rt: HostRuntime) -> Result<(), AllocError> {
    let other = Logging::over(rt.alloc(), &[64, 300_000])?;
    let mut or = set_of(rt.alloc(), &[5])?;
    or.bitor_assign(&other)?;
    assert_times(&rt, &other, WITHOUT_ROOM)?;
    let mut xor = set_of(rt.alloc(), &[5])?;
    xor.bitxor_assign(&other)?;
    assert_times(&rt, &other, WITHOUT_ROOM)
}

// Where the last word is 0 under a summary bit, it is read once, and each of those on the way to the word before it once
// more, to see how much room is to be made.
const UNDER_A_PHANTOM: [usize; 8] = [3, 3, 2, 2, 2, 3, 3, 1];

#[test]
fn assignments_without_room_for_phantoms(rt: HostRuntime) -> Result<(), AllocError> {
    let ours = Logging::over(rt.alloc(), &[64, 300_000])?;
    let theirs = Logging::over(rt.alloc(), &[64, 300_001])?;
    let mut or = set_of(rt.alloc(), &[5])?;
    or.bitor_assign(&BitSetAnd(&ours, &theirs))?;
    assert_times(&rt, &ours, UNDER_A_PHANTOM)?;
    assert_times(&rt, &theirs, UNDER_A_PHANTOM)?;
    let mut xor = set_of(rt.alloc(), &[5])?;
    xor.bitxor_assign(&BitSetAnd(&ours, &theirs))?;
    assert_times(&rt, &ours, UNDER_A_PHANTOM)?;
    assert_times(&rt, &theirs, UNDER_A_PHANTOM)
}

// Of a set without members the top is read alone.
#[test]
fn assignments_of_no_members(rt: HostRuntime) -> Result<(), AllocError> {
    let none = Logging::over(rt.alloc(), &[])?;
    let mut or = set_of(rt.alloc(), &[5, 64, 4096, 300000, 16777215])?;
    or.bitor_assign(&none)?;
    let mut xor = set_of(rt.alloc(), &[5, 4096, 300000])?;
    xor.bitxor_assign(&none)?;
    or &= &none;
    for word in none.read(rt.alloc())?.as_slice() {
        assert!(rt; *word == (4, 0));
    }
    Ok(())
}
