//! Which words of their operands virtual sets read:
//! none when they are made, each once by a walk, and none by `contains`.
use crate::tests::watched::ASKED;
use crate::tests::words::{Logging, OVER_64_AND_300000};
use crate::tests::{assert_count, assert_index};
use hibitset::{
    AtomicBitSet, BitIter, BitSet, BitSetAll, BitSetAnd, BitSetLike, BitSetNot, BitSetOr,
    BitSetXor, DrainableBitSet, Index,
};
use std::alloc::{AllocError, AllocGlobal, Global};
use std::process::Abort;

// What is read of two sets by a walk over what both have, {300000}, where one of them has 64 too.
const OVER_300000: [(usize, usize); 5] = [(4, 0), (3, 0), (2, 1), (1, 73), (0, 4_687)];

// The sets {64, 300000} and {300000}.
fn operands(alloc: Global) -> Result<(Logging, Logging), AllocError> {
    Ok((
        Logging::over(alloc, &[64, 300_000])?,
        Logging::over(alloc, &[300_000])?,
    ))
}

// How many items a walk gives.
fn items_of<T: BitSetLike>(walk: BitIter<T>) -> usize {
    let mut items = 0usize;
    for _ in walk {
        items = items.wrapping_add(1);
    }
    items
}

// Sees that a walk that was just made gives so many items, and reads these words, each once, of both sets: the top when
// it is made, and the others as it goes.
fn assert_reads_each_once<T: BitSetLike>(
    rt: &(impl Abort + AllocGlobal),
    walk: BitIter<T>,
    sets: &(Logging, Logging),
    items: usize,
    words: &[(usize, usize)],
) -> Result<(), AllocError> {
    let Some((top, rest)) = words.split_first() else {
        panic!(rt; "a walk reads the top at least")
    };
    sets.0.assert_read(rt, &[*top])?;
    sets.1.assert_read(rt, &[*top])?;
    assert_count(rt, items_of(walk), items);
    sets.0.assert_read(rt, rest)?;
    sets.1.assert_read(rt, rest)
}

#[test]
fn walks_over_an_intersection(rt: HostRuntime) -> Result<(), AllocError> {
    let sets = operands(rt.alloc())?;
    let walk = BitSetAnd(&sets.0, &sets.1).into_iter();
    assert_reads_each_once(&rt, walk, &sets, 1, &OVER_300000)?;
    let both = BitSetAnd(&sets.0, &sets.1);
    let walk = (&both).into_iter();
    assert_reads_each_once(&rt, walk, &sets, 1, &OVER_300000)
}

#[test]
fn walks_over_a_union(rt: HostRuntime) -> Result<(), AllocError> {
    let sets = operands(rt.alloc())?;
    let walk = BitSetOr(&sets.0, &sets.1).into_iter();
    assert_reads_each_once(&rt, walk, &sets, 2, &OVER_64_AND_300000)?;
    let either = BitSetOr(&sets.0, &sets.1);
    let walk = (&either).into_iter();
    assert_reads_each_once(&rt, walk, &sets, 2, &OVER_64_AND_300000)
}

#[test]
fn walks_over_an_exclusive_or(rt: HostRuntime) -> Result<(), AllocError> {
    let sets = operands(rt.alloc())?;
    let walk = BitSetXor(&sets.0, &sets.1).into_iter();
    assert_reads_each_once(&rt, walk, &sets, 1, &OVER_64_AND_300000)?;
    let one = BitSetXor(&sets.0, &sets.1);
    let walk = (&one).into_iter();
    assert_reads_each_once(&rt, walk, &sets, 1, &OVER_64_AND_300000)
}

// Sees that a walk over what is not in {0} has read nothing when it was just made, and reads one word for its first
// item, 1.
fn assert_reads_for_one<T: BitSetLike>(
    rt: &(impl Abort + AllocGlobal),
    walk: BitIter<T>,
    set: &Logging,
) -> Result<(), AllocError> {
    let mut walk = walk;
    set.assert_read(rt, &[])?;
    assert_index(rt, walk.next(), Some(1));
    set.assert_read(rt, &[(0, 0)])
}

#[test]
fn walks_over_a_complement(rt: HostRuntime) -> Result<(), AllocError> {
    let set = Logging::over(rt.alloc(), &[0])?;
    assert_reads_for_one(&rt, BitSetNot(&set).into_iter(), &set)?;
    let others = BitSetNot(&set);
    assert_reads_for_one(&rt, (&others).into_iter(), &set)?;
    let walk = BitSetAnd(BitSetAll, BitSetNot(&set)).into_iter();
    assert_reads_for_one(&rt, walk, &set)
}

// To put sets together reads nothing of them.
#[test]
fn sets_that_are_put_together(rt: HostRuntime) -> Result<(), AllocError> {
    let (ours, theirs) = operands(rt.alloc())?;
    let (a, b) = (&ours, &theirs);
    let and = BitSetAnd(a, b);
    let _ = &and & b;
    let _ = &and | b;
    let _ = &and ^ b;
    let _ = !&and;
    let or = BitSetOr(a, b);
    let _ = &or & b;
    let _ = &or | b;
    let _ = &or ^ b;
    let _ = !&or;
    a.assert_read(&rt, &[])?;
    b.assert_read(&rt, &[])
}

#[test]
fn exclusive_ors_and_complements_put_together(rt: HostRuntime) -> Result<(), AllocError> {
    let (ours, theirs) = operands(rt.alloc())?;
    let (a, b) = (&ours, &theirs);
    let xor = BitSetXor(a, b);
    let _ = &xor & b;
    let _ = &xor | b;
    let _ = &xor ^ b;
    let _ = !&xor;
    let not = BitSetNot(a);
    let _ = &not & b;
    let _ = &not | b;
    let _ = &not ^ b;
    let _ = !&not;
    a.assert_read(&rt, &[])?;
    b.assert_read(&rt, &[])
}

// The same of sets that are given up.
#[test]
fn owned_sets_that_are_put_together(rt: HostRuntime) -> Result<(), AllocError> {
    let (ours, theirs) = operands(rt.alloc())?;
    let (a, b) = (&ours, &theirs);
    let _ = BitSetAnd(a, b) & b;
    let _ = BitSetAnd(a, b) | b;
    let _ = BitSetAnd(a, b) ^ b;
    let _ = !BitSetAnd(a, b);
    let _ = BitSetOr(a, b) & b;
    let _ = BitSetOr(a, b) | b;
    let _ = BitSetOr(a, b) ^ b;
    let _ = !BitSetOr(a, b);
    a.assert_read(&rt, &[])?;
    b.assert_read(&rt, &[])
}

#[test]
fn owned_exclusive_ors_and_complements_put_together(rt: HostRuntime) -> Result<(), AllocError> {
    let (ours, theirs) = operands(rt.alloc())?;
    let (a, b) = (&ours, &theirs);
    let _ = BitSetXor(a, b) & b;
    let _ = BitSetXor(a, b) | b;
    let _ = BitSetXor(a, b) ^ b;
    let _ = !BitSetXor(a, b);
    let _ = BitSetNot(a) & b;
    let _ = BitSetNot(a) | b;
    let _ = BitSetNot(a) ^ b;
    let _ = !BitSetNot(a);
    a.assert_read(&rt, &[])?;
    b.assert_read(&rt, &[])
}

// The same of the second operand alone, where the first is no virtual set over another.
#[test]
fn sets_that_are_put_with_another(rt: HostRuntime) -> Result<(), AllocError> {
    let other = Logging::over(rt.alloc(), &[64, 300_000])?;
    let set = BitSet::new(rt.alloc());
    let _ = &set & &other;
    let _ = &set | &other;
    let _ = &set ^ &other;
    let _ = set & &other;
    let _ = BitSet::new(rt.alloc()) | &other;
    let _ = BitSet::new(rt.alloc()) ^ &other;
    let _ = &BitSetAll & &other;
    let _ = &BitSetAll | &other;
    let _ = &BitSetAll ^ &other;
    let _ = BitSetAll & &other;
    let _ = BitSetAll | &other;
    let _ = BitSetAll ^ &other;
    other.assert_read(&rt, &[])
}

#[test]
fn atomic_sets_that_are_put_with_another(rt: HostRuntime) -> Result<(), AllocError> {
    let other = Logging::over(rt.alloc(), &[64, 300_000])?;
    let atomic = AtomicBitSet::new(rt.alloc())?;
    let _ = &atomic & &other;
    let _ = &atomic | &other;
    let _ = &atomic ^ &other;
    let _ = atomic & &other;
    let _ = AtomicBitSet::new(rt.alloc())? | &other;
    let _ = AtomicBitSet::new(rt.alloc())? ^ &other;
    other.assert_read(&rt, &[])
}

// Sees whether a set has an index, and that it asks the first operand for it, and the second only where that is to be
// asked.
fn assert_asks<T: BitSetLike>(
    rt: &(impl Abort + AllocGlobal),
    set: T,
    id: Index,
    has: bool,
    sets: &(Logging, Logging),
    is_second_asked: bool,
) -> Result<(), AllocError> {
    assert!(rt; set.contains(id) == has, "{id}");
    let asked = [(ASKED, id as usize)];
    sets.0.assert_read(rt, &asked)?;
    if is_second_asked {
        sets.1.assert_read(rt, &asked)
    } else {
        sets.1.assert_read(rt, &[])
    }
}

// Each operand is asked at most once, the second only where the first does not decide it, and no word is read.
#[test]
fn asked_whether_they_have_an_index(rt: HostRuntime) -> Result<(), AllocError> {
    let sets = operands(rt.alloc())?;
    let (a, b) = (&sets.0, &sets.1);
    // the index, and whether an intersection and a union ask the second set for it
    for (id, and, or) in [
        (64u32, true, false),
        (5, false, true),
        (300_000, true, false),
    ] {
        assert_asks(&rt, BitSetAnd(a, b), id, id == 300_000, &sets, and)?;
        assert_asks(&rt, BitSetOr(a, b), id, id != 5, &sets, or)?;
        assert_asks(&rt, BitSetXor(a, b), id, id == 64, &sets, true)?;
        assert_asks(&rt, BitSetNot(a), id, id == 5, &sets, false)?;
        assert_asks(&rt, a, id, id != 5, &sets, false)?;
    }
    Ok(())
}

// A walk that has begun is asked by its set alone.
#[test]
fn a_walk_that_is_asked(rt: HostRuntime) -> Result<(), AllocError> {
    let set = Logging::over(rt.alloc(), &[64])?;
    let walk = (&set).iter();
    set.assert_read(&rt, &[(4, 0)])?;
    assert!(rt; walk.contains(64) && !walk.contains(65));
    set.assert_read(&rt, &[(ASKED, 64), (ASKED, 65)])
}

// The words over 300,000, which both sets read, and that each was asked once for it, where it is taken out.
const TAKEN_300000: [(usize, usize); 6] = [
    (4, 0),
    (3, 0),
    (2, 1),
    (1, 73),
    (0, 4_687),
    (ASKED, 300_000),
];

// A drain of what both have asks each of them once for each item, where it takes it out.
#[test]
fn a_drain_of_an_intersection(rt: HostRuntime) -> Result<(), AllocError> {
    let (mut ours, mut theirs) = operands(rt.alloc())?;
    assert_count(&rt, items_drained(&mut ours, &mut theirs), 1);
    ours.assert_read(&rt, &TAKEN_300000)?;
    theirs.assert_read(&rt, &TAKEN_300000)
}

// How many indices a drain takes out of both.
fn items_drained(ours: &mut Logging, theirs: &mut Logging) -> usize {
    let mut items = 0usize;
    for _ in BitSetAnd(ours, theirs).drain() {
        items = items.wrapping_add(1);
    }
    items
}
