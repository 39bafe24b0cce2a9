//! Callers that work in several threads, which the system counts meanwhile: nothing runs in these threads that could
//! wait for another.
use hibitset::{AtomicBitSet, BitSet, Index};
use std::alloc::{AllocError, AllocGlobal, Global};
use std::fs;
use std::rt::Files;
use std::sync::atomic::{AtomicBool, Ordering};
use std::test::Fail;
use std::thread::{Threads, available_parallelism, join};
use uses::weights::weight_of_both;
use uses::workers::add_lists;

// How much each worker has to do, tried in this order until there is time enough to count threads.
const LENGTHS: [Index; 4] = [20_000, 200_000, 2_000_000, 8_000_000];

// No set has more words of layer 0.
const MOST_WORDS: usize = 16_777_216;

// No walk takes more threads, whatever the processors.
const MOST_THREADS: usize = 32;

// How often threads are counted, at most.
const TURNS: u32 = 1_000_000;

// How many threads there are now, 0 where the system doesn't tell.
fn count_threads(rt: &(impl Files + AllocGlobal)) -> usize {
    let Ok(status) = fs::read_to_string(rt, "/proc/self/status") else {
        return 0;
    };
    for line in status.as_str().lines() {
        if let Some(count) = line.strip_prefix("Threads:") {
            return count.trim().parse().unwrap_or(0);
        }
    }
    0
}

// The most threads that there are at a time until something is done.
fn most_threads(rt: &(impl Files + AllocGlobal), is_done: &AtomicBool) -> usize {
    let mut most = 0usize;
    for _ in 0..TURNS {
        if is_done.load(Ordering::SeqCst) {
            break;
        }
        most = most.max(count_threads(rt));
    }
    most
}

// The indices below an end.
fn list_below(alloc: Global, end: Index) -> Result<Vec<Index>, AllocError> {
    (0..end).collect(alloc)
}

// How many indices of four lists were new, each list with those below an end.
fn new_of_four_lists(
    rt: &(impl Threads + Sync),
    alloc: Global,
    end: Index,
) -> Result<usize, AllocError> {
    let mut lists = Vec::with_capacity(alloc, 4)?;
    lists.push(list_below(alloc, end)?)?;
    lists.push(list_below(alloc, end)?)?;
    lists.push(list_below(alloc, end)?)?;
    lists.push(list_below(alloc, end)?)?;
    let Ok(added) = add_lists(rt, alloc, AtomicBitSet::new(alloc)?, lists) else {
        return Err(AllocError);
    };
    Ok(added.new)
}

// The weight of the indices below an end, of which the first two have any.
fn weight_below(rt: &(impl Threads + Sync), alloc: Global, end: Index) -> Result<u64, AllocError> {
    let words = vec![in alloc; usize::MAX; (end as usize / 64).min(MOST_WORDS)]?;
    let set = BitSet::from_words(alloc, words.as_slice())?;
    weight_of_both(rt, alloc, &set, &set, &[5, 7])
}

// How many threads are to be there at once, so many more than before. Where other tests run beside this one, their threads
// end meanwhile, and two more are enough.
fn threads_wanted(before: usize, more: usize) -> usize {
    before.saturating_add(if before > 1 { more.min(2) } else { more })
}

// Returns whether so many threads were there at once, and never more, unless others run beside these.
fn were_there(before: usize, most: usize, wanted: usize) -> bool {
    most == wanted || (most > wanted && before > 1)
}

// One thread that is started here would do for lists one after the other. Beside it there are three for four lists, of
// which the calling thread takes the fourth.
#[test]
fn workers_meet(rt: HostRuntime) -> Result<(), Fail> {
    let before = count_threads(&rt);
    let wanted = threads_wanted(before, 4);
    let mut most = 0usize;
    for end in LENGTHS {
        if before == 0 || most >= wanted {
            break;
        }
        let is_done = AtomicBool::new(false);
        let (new, seen) = join(
            &rt,
            || -> Result<usize, AllocError> {
                let new = new_of_four_lists(&rt, rt.alloc(), end);
                is_done.store(true, Ordering::SeqCst);
                new
            },
            || most_threads(&rt, &is_done),
        );
        assert!(rt; new? == end as usize);
        most = most.max(seen);
    }
    assert!(rt;
        before == 0 || were_there(before, most, wanted),
        "{before} {most}"
    );
    Ok(())
}

// One thread that is started here would do for the walk in one thread. From half a million members on there is one for
// each processor beside it, of which the calling thread is one.
#[test]
fn weights_meet(rt: HostRuntime) -> Result<(), Fail> {
    let processors = available_parallelism(&rt).map_or(1, |count| count.get());
    let before = count_threads(&rt);
    if processors == 1 || before == 0 {
        return Ok(());
    }
    let wanted = threads_wanted(before, processors.min(MOST_THREADS));
    let mut most = 0usize;
    for end in LENGTHS {
        if most >= wanted {
            break;
        }
        let is_done = AtomicBool::new(false);
        let (weight, seen) = join(
            &rt,
            || -> Result<u64, AllocError> {
                let weight = weight_below(&rt, rt.alloc(), end.saturating_mul(50));
                is_done.store(true, Ordering::SeqCst);
                weight
            },
            || most_threads(&rt, &is_done),
        );
        assert!(rt; weight? == 12);
        most = most.max(seen);
    }
    assert!(rt; were_there(before, most, wanted), "{before} {most}");
    Ok(())
}
