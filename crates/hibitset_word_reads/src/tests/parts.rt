//! How many words of each layer splits and walks in parts read.
use crate::tests::watched::{Watch, Watched};
use crate::tests::{assert_count, every_eighth};
use hibitset::{BitParIter, BitProducer, BitSet, BitSetLike, Index, LAYERS};
use hibitset_testing::parts::{parts_to_the_end, sum_of};
use hibitset_testing::sets::{run_of, set_of};
use std::alloc::AllocError;
use std::process::Abort;
use std::sync::atomic::{AtomicUsize, Ordering};
use std::thread::available_parallelism;

// Counts the words that are read of each layer, and at last the indices that are asked for. Threads can share it.
#[derive(Drop)]
struct Counts {
    counts: [AtomicUsize; LAYERS + 1],
}

impl Watch for Counts {
    fn see(&self, layer: usize, _position: usize) {
        if let Some(count) = self.counts.get(layer) {
            count.fetch_add(1, Ordering::SeqCst);
        }
    }
}

// A set that keeps such counts.
type Tally = Watched<Counts>;

impl Watched<Counts> {
    fn over(set: BitSet) -> Tally {
        let counts = [
            AtomicUsize::new(0),
            AtomicUsize::new(0),
            AtomicUsize::new(0),
            AtomicUsize::new(0),
            AtomicUsize::new(0),
            AtomicUsize::new(0),
        ];
        Watched {
            set,
            watch: Counts { counts },
        }
    }

    // How many words of each layer, from the lowest up, were read since this was last asked.
    fn read(&self) -> [usize; LAYERS + 1] {
        let mut read = [0; LAYERS + 1];
        for layer in 0..LAYERS + 1 {
            let count = self.watch.counts.get(layer);
            if let (Some(place), Some(count)) = (read.get_mut(layer), count) {
                *place = count.swap(0, Ordering::SeqCst);
            }
        }
        read
    }

    // Sees that so many words of each layer were read since this was last asked.
    fn assert_read(&self, rt: &impl Abort, counts: [usize; LAYERS + 1]) {
        assert_eq!(rt; self.read(), counts);
    }
}

const NOTHING: [usize; LAYERS + 1] = [0; LAYERS + 1];

#[test]
fn a_walk_in_parts_that_is_made(rt: HostRuntime) -> Result<(), AllocError> {
    let tally = Tally::over(set_of(rt.alloc(), &[64, 300_000])?);
    let _all = (&tally).par_iter();
    let _few = BitParIter::new(&tally).layers_split(2);
    tally.assert_read(&rt, NOTHING);
    Ok(())
}

// The choice of threads reads three words under each bit of layer 3, here all; then `collect` goes over the words twice
// below the top, and the others go once.
#[test]
fn small_sets(rt: HostRuntime) -> Result<(), AllocError> {
    let tally = Tally::over(set_of(rt.alloc(), &[64, 300_000])?);
    assert_count(&rt, (&tally).par_iter().count(&rt, rt.alloc())?, 2);
    tally.assert_read(&rt, [4, 4, 4, 2, 2, 0]);
    assert_count(&rt, (&tally).par_iter().collect(&rt, rt.alloc())?.len(), 2);
    tally.assert_read(&rt, [6, 6, 6, 3, 2, 0]);
    Ok(())
}

#[test]
fn small_sets_that_are_folded(rt: HostRuntime) -> Result<(), AllocError> {
    let tally = Tally::over(set_of(rt.alloc(), &[64, 300_000])?);
    assert!(rt; sum_of(&rt, rt.alloc(), &tally)? == 300_064);
    tally.assert_read(&rt, [4, 4, 4, 2, 2, 0]);
    Ok(())
}

#[test]
fn small_sets_that_are_visited(rt: HostRuntime) -> Result<(), AllocError> {
    let tally = Tally::over(set_of(rt.alloc(), &[64, 300_000])?);
    let sum = AtomicUsize::new(0);
    (&tally)
        .par_iter()
        .for_each(&rt, rt.alloc(), |index: Index| {
            sum.fetch_add(index as usize, Ordering::SeqCst);
        })?;
    assert_count(&rt, sum.load(Ordering::SeqCst), 300_064);
    tally.assert_read(&rt, [4, 4, 4, 2, 2, 0]);
    Ok(())
}

// However many words a set has, the choice reads three of them under a bit of layer 3: here one bit, and then two.
#[test]
fn a_choice_that_reads_few_words(rt: HostRuntime) -> Result<(), AllocError> {
    let tally = Tally::over(run_of(rt.alloc(), 262_144)?);
    assert_count(&rt, (&tally).par_iter().count(&rt, rt.alloc())?, 262_144);
    tally.assert_read(&rt, [4_096 + 1, 64 + 1, 1 + 1, 1 + 1, 1 + 1, 0]);
    let tally = Tally::over(run_of(rt.alloc(), 524_288)?);
    assert_count(&rt, (&tally).par_iter().count(&rt, rt.alloc())?, 524_288);
    tally.assert_read(&rt, [8_192 + 2, 128 + 2, 2 + 2, 1 + 1, 1 + 1, 0]);
    Ok(())
}

// Of a large set too `collect` reads a word of layer 0 once to count and once to list; one look at its size, here
// sixteen words of layer 0 and the top, tells of both. The words above are read once, where parts are cut; where there
// is one processor none are cut, and those below the top are read as often as the lowest.
#[test]
fn a_large_set_that_is_listed(rt: HostRuntime) -> Result<(), AllocError> {
    let tally = Tally::over(every_eighth(rt.alloc())?);
    let all = (&tally).par_iter().collect(&rt, rt.alloc())?;
    assert_count(&rt, all.len(), 524_288);
    assert_count(&rt, all.capacity(), 524_288);
    let is_alone = available_parallelism(&rt).map_or(true, |count| count.get() == 1);
    if is_alone {
        tally.assert_read(
            &rt,
            [
                2 * 65_536 + 16,
                2 * 1_024 + 16,
                2 * 16 + 16,
                2 + 1,
                1 + 1,
                0,
            ],
        );
    } else {
        tally.assert_read(
            &rt,
            [2 * 65_536 + 16, 2 * 1_024 + 16, 16 + 16, 1 + 1, 1 + 1, 0],
        );
    }
    Ok(())
}

// The choice goes on to the next bit of the top only where there is not enough below those before it.
#[test]
fn a_choice_that_ends_early_in_a_large_set(rt: HostRuntime) -> Result<(), AllocError> {
    let mut set = run_of(rt.alloc(), 262_144)?;
    set.add(16_777_216)?;
    let tally = Tally::over(set);
    assert_count(&rt, (&tally).par_iter().count(&rt, rt.alloc())?, 262_145);
    tally.assert_read(&rt, [4_097 + 1, 65 + 1, 2 + 1, 2 + 1, 1 + 1, 0]);
    Ok(())
}

// Closures at many members: the choice reads no more words than at few.
#[test]
fn large_sets_that_are_folded_and_visited(rt: HostRuntime) -> Result<(), AllocError> {
    let tally = Tally::over(run_of(rt.alloc(), 262_144)?);
    assert!(rt; sum_of(&rt, rt.alloc(), &tally)? == 34_359_607_296);
    tally.assert_read(&rt, [4_096 + 1, 64 + 1, 1 + 1, 1 + 1, 1 + 1, 0]);
    let sum = AtomicUsize::new(0);
    (&tally)
        .par_iter()
        .for_each(&rt, rt.alloc(), |index: Index| {
            sum.fetch_add(index as usize, Ordering::SeqCst);
        })?;
    assert_count(&rt, sum.load(Ordering::SeqCst), 34_359_607_296);
    tally.assert_read(&rt, [4_096 + 1, 64 + 1, 1 + 1, 1 + 1, 1 + 1, 0]);
    Ok(())
}

// The sum of the indices in a part.
fn sum_of_part<'a, T: BitSetLike + Send + Sync>(part: BitProducer<'a, T>) -> u64 {
    part.fold_with(
        0u64,
        |sum: u64, index: Index| sum.wrapping_add(u64::from(index)),
    )
}

// A split goes down under one bit and stops where it cuts; what is left is read once.
#[test]
fn parts_of_two_members(rt: HostRuntime) -> Result<(), AllocError> {
    let tally = Tally::over(set_of(rt.alloc(), &[64, 300_000])?);
    let whole = BitProducer((&tally).iter(), 4);
    tally.assert_read(&rt, [0, 0, 0, 0, 1, 0]);
    let (low, high) = whole.split();
    tally.assert_read(&rt, [0, 0, 0, 1, 0, 0]);
    assert!(rt; sum_of_part(low) == 64);
    tally.assert_read(&rt, [1, 1, 1, 0, 0, 0]);
    let Some(high) = high else {
        panic!(rt; "one part")
    };
    if high.1 as usize >= LAYERS {
        return Ok(());
    }
    // the second part, which is not cut
    let (last, none) = high.split();
    assert!(rt; none.is_none());
    tally.assert_read(&rt, [1, 1, 1, 0, 0, 0]);
    assert!(rt; sum_of_part(last) == 300_000);
    tally.assert_read(&rt, NOTHING);
    Ok(())
}

// The words of a set of 20,480 indices: 320 in layer 0, 5 over them in layer 1, and one in each layer above.
#[test]
fn parts_to_their_ends(rt: HostRuntime) -> Result<(), AllocError> {
    let tally = Tally::over(run_of(rt.alloc(), 20_480)?);
    let rows = [
        (4, 320, [320, 5, 1, 1, 1, 0]),
        (3, 5, [0, 5, 1, 1, 1, 0]),
        (2, 1, [0, 0, 1, 1, 1, 0]),
        (1, 1, [0, 0, 0, 1, 1, 0]),
    ];
    for (layers, parts, read) in rows {
        assert_count(&rt, parts_to_the_end(rt.alloc(), &tally, layers)?, parts);
        tally.assert_read(&rt, read);
    }
    Ok(())
}
