//! Walks in parts, over a set that is large enough for threads.
use crate::tests::{ask, say};
use hibitset::util::MAX_EID;
use hibitset::{BitSet, BitSetLike, Index};
use std::alloc::{AllocError, Global};
use std::sync::atomic::{AtomicUsize, Ordering};

const MEMBERS: u32 = 524_288;

// So many words are enough to be counted in several threads. They lie in three ranges of 16,777,216 indices, so three
// parts have one each.
const MANY_WORDS: usize = 786_432;

// The indices below `MEMBERS`.
fn many(alloc: Global) -> Result<BitSet, AllocError> {
    let mut set = BitSet::with_capacity(alloc, MEMBERS)?;
    for id in 0..MEMBERS {
        set.add(id)?;
    }
    Ok(set)
}

// The first index of each of `MANY_WORDS` words.
fn in_many_words(alloc: Global) -> Result<BitSet, AllocError> {
    let words = vec![in alloc; 1usize; MANY_WORDS]?;
    BitSet::from_words(alloc, words.as_slice())
}

// How many words of layer 0 a range of 16,777,216 indices has.
const RANGE: usize = 262_144;

// So many words of each of two such ranges, with every eighth bit, are enough to be collected or folded in several
// threads. Two parts have one range each.
const WORDS: usize = 32_768;

const EIGHTHS: usize = 0x0101_0101_0101_0101;

// The set of these words.
fn in_two_ranges(alloc: Global) -> Result<BitSet, AllocError> {
    let mut set = BitSet::new(alloc);
    for start in [0u32, 16_777_216] {
        for place in 0..262_144u32 {
            let id = start.wrapping_add(place.wrapping_mul(8));
            if (id as usize) < MAX_EID {
                set.add(id)?;
            }
        }
    }
    Ok(set)
}

// Returns whether a set has exactly these words. It does not allocate.
fn is_in_two_ranges(set: &BitSet) -> bool {
    let words = set.layer0_as_slice();
    for (at, word) in words.iter().enumerate() {
        let wanted = if at % RANGE < WORDS { EIGHTHS } else { 0 };
        if *word != wanted {
            return false;
        }
    }
    words.len() == RANGE + WORDS
}

// Returns whether a set has exactly so many indices, from 0 on, each so much after the one before.
fn is_evenly(set: &BitSet, distance: Index, members: usize) -> bool {
    let mut next = 0u32;
    let mut found = 0usize;
    for index in set {
        if index != next {
            return false;
        }
        next = next.wrapping_add(distance);
        found = found.wrapping_add(1);
    }
    found == members
}

// Returns whether a set has exactly the indices below `MEMBERS`.
fn is_many(set: &BitSet) -> bool {
    is_evenly(set, 1, MEMBERS as usize)
}

// allocates: 9 at most, 0 bytes on 1 processor: hibitset_base::BitParIter::count
#[test]
fn count(rt: HostRuntime) -> Result<(), AllocError> {
    let set = in_many_words(rt.alloc())?;
    let count = retried!(
        &rt,
        (&set).par_iter().layers_split(1).count(&rt, rt.alloc())
    );
    assert!(rt; count == MANY_WORDS);
    assert!(rt; is_evenly(&set, 64, MANY_WORDS));
    Ok(())
}

// allocates: 5 at most, 2_097_152 bytes on 1 processor: hibitset_base::BitParIter::collect
#[test]
fn collect(rt: HostRuntime) -> Result<(), AllocError> {
    let set = in_two_ranges(rt.alloc())?;
    let all = retried!(
        &rt,
        (&set).par_iter().layers_split(1).collect(&rt, rt.alloc())
    );
    assert!(rt; all.len() == 16 * WORDS);
    assert!(rt; is_in_two_ranges(&set));
    Ok(())
}

// allocates: 7 at most, 0 bytes on 1 processor: uses::weight_of_both, hibitset_base::BitParIter::fold
#[test]
fn fold(rt: HostRuntime) -> Result<(), AllocError> {
    let set = in_two_ranges(rt.alloc())?;
    let init = || 0u64;
    let step = |sum: u64, index: Index| sum.wrapping_add(u64::from(index));
    let combine = |sum: u64, other: u64| sum.wrapping_add(other);
    let sum = retried!(
        &rt,
        (&set)
            .par_iter()
            .layers_split(1)
            .fold(&rt, rt.alloc(), init, step, combine)
    );
    assert!(rt; sum == 4_947_800_227_840);
    assert!(rt; is_in_two_ranges(&set));
    Ok(())
}

// allocates: 7 at most, 0 bytes on 1 processor: hibitset_base::BitParIter::for_each
#[test]
fn for_each(rt: HostRuntime) -> Result<(), AllocError> {
    let set = many(rt.alloc())?;
    let visited = AtomicUsize::new(0);
    let visit = |_index: Index| {
        visited.fetch_add(1, Ordering::SeqCst);
    };
    let gone = tried!(
        &rt,
        (&set)
            .par_iter()
            .layers_split(2)
            .for_each(&rt, rt.alloc(), visit)
    );
    if gone.is_err() {
        visited.store(0, Ordering::SeqCst);
        (&set)
            .par_iter()
            .layers_split(2)
            .for_each(&rt, rt.alloc(), visit)?;
    }
    assert!(rt; visited.load(Ordering::SeqCst) == 524_288);
    assert!(rt; is_many(&set));
    Ok(())
}
