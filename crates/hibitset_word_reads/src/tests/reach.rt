//! The size of a set, its first member, the list of its members, and walks that begin at an index.
ghost use Rattle.std.specs.Prelude.{◌≡◌, ◌-◌, ◌≤◌, length, IfOk};
ghost use Rattle.hibitset_base.specs.Members.{members_below};
ghost use Rattle.hibitset_base.specs.WordsRead.{AreBoundByMembers};
ghost use Rattle.hibitset_base.specs.Walk.{words_read, words_ahead};
ghost use Rattle.hibitset_base.specs.declared.util.TheConstants.{LAYERS, MAX_EID};
ghost use Rattle.hibitset.specs.BitSet.{has};
ghost use Rattle.hibitset.specs.Laws.{intersection_word};

use crate::tests::reads::Counting;
use crate::tests::strangers::stranger_of;
use crate::tests::{assert_count, assert_index, assert_indices};
use hibitset::laws::laws;
use hibitset::{BitIter, BitSet, BitSetAll, BitSetAnd, BitSetLike, Index, LAYERS, MAX_EID};
use hibitset_testing::sets::{BORDERS, list, run_of, set_of};
use std::alloc::{AllocError, Global};

// What a walk from an index gives.
fn list_from<T: BitSetLike>(alloc: Global, set: T, start: Index) -> Result<Vec<Index>, AllocError> {
    set.iter_from(start).collect(alloc)
}

#[test]
fn constants_at_the_root(rt: HostRuntime) {
    assert_count(&rt, LAYERS, 5);
    assert_count(&rt, MAX_EID, 1_073_741_824);
}

#[test]
fn an_empty_set(rt: HostRuntime) -> Result<(), AllocError> {
    let none = BitSet::new(rt.alloc());
    assert_count(&rt, none.len(), 0);
    assert_index(&rt, none.first(), None);
    assert_count(&rt, none.to_vec(rt.alloc())?.len(), 0);
    for start in BORDERS {
        assert_index(&rt, (&none).iter_from(start).next(), None);
    }
    assert_index(&rt, (&none).iter_from(u32::MAX).next(), None);
    Ok(())
}

#[test]
fn one_member(rt: HostRuntime) -> Result<(), AllocError> {
    for id in BORDERS {
        let one = set_of(rt.alloc(), &[id])?;
        assert_count(&rt, one.len(), 1);
        assert_index(&rt, one.first(), Some(id));
        assert_indices(&rt, one.to_vec(rt.alloc())?.as_slice(), &[id]);
        assert_index(&rt, (&one).iter_from(0).next(), Some(id));
        assert_index(&rt, (&one).iter_from(id).next(), Some(id));
        assert_index(&rt, (&one).iter_from(id.saturating_add(1)).next(), None);
    }
    Ok(())
}

#[test]
fn borders_of_words(rt: HostRuntime) -> Result<(), AllocError> {
    let set = set_of(rt.alloc(), &BORDERS)?;
    assert_count(&rt, set.len(), 11);
    assert_index(&rt, set.first(), Some(0));
    assert_indices(&rt, set.to_vec(rt.alloc())?.as_slice(), &BORDERS);
    Ok(())
}

#[test]
fn walks_from_borders_of_words(rt: HostRuntime) -> Result<(), AllocError> {
    let set = set_of(rt.alloc(), &BORDERS)?;
    // how many of them lie before the index
    let before: [(Index, usize); 21] = [
        (0, 0),
        (1, 1),
        (63, 1),
        (64, 2),
        (65, 3),
        (4_095, 3),
        (4_096, 4),
        (4_097, 5),
        (262_143, 5),
        (262_144, 6),
        (262_145, 7),
        (8_388_607, 7),
        (8_388_608, 7),
        (8_388_609, 8),
        (16_777_214, 8),
        (16_777_215, 8),
        (16_777_216, 9),
        (16_777_217, 10),
        (1_073_741_823, 10),
        (1_073_741_824, 11),
        (u32::MAX, 11),
    ];
    for (start, passed) in before {
        let rest = list_from(rt.alloc(), &set, start)?;
        assert_indices(&rt, rest.as_slice(), &BORDERS[passed.min(11)..]);
    }
    Ok(())
}

#[test]
fn words_with_many_bits(rt: HostRuntime) -> Result<(), AllocError> {
    let dense = run_of(rt.alloc(), 5_000)?;
    assert_count(&rt, dense.len(), 5_000);
    let listed = dense.to_vec(rt.alloc())?;
    assert_indices(&rt, list(rt.alloc(), &dense)?.as_slice(), listed.as_slice());
    assert_index(&rt, listed.last().copied(), Some(4_999));
    assert_count(&rt, listed.capacity(), 5_000);
    let from = list_from(rt.alloc(), &dense, 4_321)?;
    let rest = &listed.as_slice()[4_321.min(listed.len())..];
    assert_indices(&rt, from.as_slice(), rest);
    Ok(())
}

#[test]
fn words_with_many_bits_and_with_few(rt: HostRuntime) -> Result<(), AllocError> {
    let mut mixed = BitSet::new(rt.alloc());
    let mut added = 0usize;
    for id in 0..20_000u32 {
        let ones = id / 64 % 64;
        if id % 64 <= ones {
            mixed.add(id)?;
            added = added.wrapping_add(1);
        }
    }
    assert_count(&rt, mixed.len(), added);
    let listed = mixed.to_vec(rt.alloc())?;
    assert_indices(&rt, list(rt.alloc(), &mixed)?.as_slice(), listed.as_slice());
    Ok(())
}

#[test]
fn over_intersections(rt: HostRuntime) -> Result<(), AllocError> {
    let a = set_of(rt.alloc(), &[0, 5, 63, 4_096, 262_144])?;
    let b = set_of(rt.alloc(), &[5, 64, 4_096, 16_777_215])?;
    assert_count(&rt, (&a & &b).len(), 2);
    assert_index(&rt, (&a & &b).first(), Some(5));
    let both = (&a & &b).to_vec(rt.alloc())?;
    assert_indices(&rt, both.as_slice(), &[5, 4_096]);
    assert_index(&rt, (&a & &b).iter_from(6).next(), Some(4_096));
    assert_index(&rt, (&a & &b).iter_from(4_097).next(), None);
    Ok(())
}

#[test]
fn over_unions_and_exclusive_ors(rt: HostRuntime) -> Result<(), AllocError> {
    let a = set_of(rt.alloc(), &[0, 5, 63, 4_096, 262_144])?;
    let b = set_of(rt.alloc(), &[5, 64, 4_096, 16_777_215])?;
    assert_count(&rt, (&a | &b).len(), 7);
    let either = list_from(rt.alloc(), &a | &b, 64)?;
    assert_indices(&rt, either.as_slice(), &[64, 4_096, 262_144, 16_777_215]);
    let one = (&a ^ &b).to_vec(rt.alloc())?;
    assert_indices(&rt, one.as_slice(), &[0, 63, 64, 262_144, 16_777_215]);
    assert_index(&rt, (&a ^ &b).first(), Some(0));
    Ok(())
}

#[test]
fn over_complements(rt: HostRuntime) -> Result<(), AllocError> {
    let a = set_of(rt.alloc(), &[0, 5, 63, 4_096, 262_144])?;
    let b = set_of(rt.alloc(), &[5, 64, 4_096, 16_777_215])?;
    assert_index(&rt, (&a & !&a).first(), None);
    assert_count(&rt, (&a & !&a).len(), 0);
    assert_index(&rt, (!&a).first(), Some(1));
    assert_index(&rt, (!&a).iter_from(63).next(), Some(64));
    assert_count(&rt, (!&a & &b).len(), 2);
    Ok(())
}

#[test]
fn over_all_indices(rt: HostRuntime) -> Result<(), AllocError> {
    let a = set_of(rt.alloc(), &[0, 5, 63, 4_096, 262_144])?;
    assert_count(&rt, BitSetAnd(BitSetAll, &a).len(), 5);
    let last = BitSetAll.iter_from(1_073_741_823).next();
    assert_index(&rt, last, Some(1_073_741_823));
    assert_index(&rt, BitSetAll.iter_from(1_073_741_824).next(), None);
    Ok(())
}

#[test]
fn over_a_stranger(rt: HostRuntime) -> Result<(), AllocError> {
    let everywhere = stranger_of(rt.alloc(), &[70, 4_096, 300_000])?;
    assert_index(&rt, everywhere.first(), Some(70));
    assert_index(&rt, (&everywhere).iter_from(71).next(), Some(4_096));
    assert_index(&rt, (&everywhere).iter_from(300_000).next(), Some(300_000));
    Ok(())
}

#[test]
fn over_what_a_stranger_has_too(rt: HostRuntime) -> Result<(), AllocError> {
    let everywhere = stranger_of(rt.alloc(), &[70, 4_096, 300_000])?;
    let near = set_of(rt.alloc(), &[0, 70, 4_096, 300_001])?;
    let both = BitSetAnd(&near, &everywhere);
    assert_count(&rt, both.len(), 2);
    assert_indices(&rt, both.to_vec(rt.alloc())?.as_slice(), &[70, 4_096]);
    Ok(())
}

#[test]
fn one_word_a_layer(rt: HostRuntime) -> Result<(), AllocError> {
    let counting = Counting::over(set_of(rt.alloc(), &[64, 70, 1_073_741_823])?);
    assert_index(&rt, counting.first(), Some(64));
    assert_count(&rt, counting.reads(), 5);
    // start, words read when the walk is made, the first item, and words read up to it
    let rows: [(Index, usize, Option<Index>, usize); 9] = [
        (0, 4, Some(64), 1),
        (64, 5, Some(64), 0),
        (65, 5, Some(70), 0),
        (71, 5, Some(1_073_741_823), 4),
        (4_096, 3, Some(1_073_741_823), 4),
        (262_144, 2, Some(1_073_741_823), 4),
        (16_777_216, 1, Some(1_073_741_823), 4),
        (1_073_741_823, 5, Some(1_073_741_823), 0),
        (1_073_741_824, 0, None, 0),
    ];
    for (start, made, first, later) in rows {
        let mut walk = (&counting).iter_from(start);
        assert_count(&rt, counting.reads(), made);
        assert_index(&rt, walk.next(), first);
        assert_count(&rt, counting.reads(), later);
    }
    let mut all = (&counting).iter();
    assert_index(&rt, all.nth(2), Some(1_073_741_823));
    assert_count(&rt, counting.reads(), 9);
    Ok(())
}

#[test]
fn each_word_once(rt: HostRuntime) -> Result<(), AllocError> {
    let counting = Counting::over(set_of(rt.alloc(), &[64, 70, 1_073_741_823])?);
    assert_count(&rt, counting.len(), 3);
    assert_count(&rt, counting.reads(), 9);
    // the top once, and each other word once to count and once to list
    let listed = counting.to_vec(rt.alloc())?;
    assert_indices(&rt, listed.as_slice(), &[64, 70, 1_073_741_823]);
    assert_count(&rt, counting.reads(), 17);
    assert_count(&rt, listed.capacity(), 3);
    Ok(())
}

// Of words with one bit each 32 are looked at before the list is made.
#[test]
fn words_with_one_bit(rt: HostRuntime) -> Result<(), AllocError> {
    let mut set = BitSet::new(rt.alloc());
    for word in 0..64u32 {
        set.add(64 * word)?;
    }
    let counting = Counting::over(set);
    assert_count(&rt, counting.to_vec(rt.alloc())?.len(), 64);
    assert_count(&rt, counting.reads(), 103);
    Ok(())
}

// Whole blocks, of 64 words each with all bits: the top once, and each of the 132 words below it once to count and once
// to list.
#[test]
fn a_large_set_of_full_blocks(rt: HostRuntime) -> Result<(), AllocError> {
    let counting = Counting::over(run_of(rt.alloc(), 8_192)?);
    assert_count(&rt, counting.to_vec(rt.alloc())?.len(), 8_192);
    assert_count(&rt, counting.reads(), 1 + 2 * 132);
    Ok(())
}

// A walk over an intersection from an index on: its words lie over members of the first set, and are at most four for
// each.
fn walk_both_from<'a>(
    a: &'a BitSet,
    b: &'a BitSet,
    start: Index,
) -> BitIter<BitSetAnd<&'a BitSet, &'a BitSet>>
    ensures read { words_read result ≤ LAYERS }
    ensures bound { AreBoundByMembers LAYERS (has a.now)
        (words_ahead (λ both. intersection_word both.0.now both.1.now) result) }
{
    laws();
    (a & b).iter_from(start)
}

#[test]
fn a_walk_over_both_from_an_index(rt: HostRuntime) -> Result<(), AllocError> {
    let a = set_of(rt.alloc(), &[3, 70, 4_096])?;
    let b = set_of(rt.alloc(), &[3, 70, 71])?;
    let both: Vec<u32> = walk_both_from(&a, &b, 4).collect(rt.alloc())?;
    assert_indices(&rt, both.as_slice(), &[70]);
    Ok(())
}

// A caller's own: what the contracts say is enough, without a proof by hand.
fn without_the_first<T: BitSetLike>(set: &T) -> usize
    ensures { result ≡ length (members_below MAX_EID (T.holds set.now)) - 1 }
{
    set.len().saturating_sub(1)
}

fn rest_of<T: BitSetLike>(alloc: Global, set: &T) -> Result<Vec<Index>, AllocError>
    ensures { IfOk result (λ v. v.items ≡ members_below MAX_EID (T.holds set.now)) }
{
    set.to_vec(alloc)
}

#[test]
fn callers(rt: HostRuntime) -> Result<(), AllocError> {
    let set = set_of(rt.alloc(), &[1, 2, 3])?;
    assert_count(&rt, without_the_first(&set), 2);
    assert_indices(&rt, rest_of(rt.alloc(), &set)?.as_slice(), &[1, 2, 3]);
    Ok(())
}
