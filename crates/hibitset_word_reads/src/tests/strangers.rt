//! Lawful sets that the library doesn't know.
ghost use Rattle.std.specs.Prelude.{◌<◌};
ghost use Rattle.hibitset_base.specs.declared.util.TheConstants.{LAYERS};

use crate::tests::{assert_count, assert_index, assert_indices, every_eighth};
use hibitset::{BitSet, BitSetAnd, BitSetLike, BitSetNot, BitSetOr, BitSetXor, Index};
use hibitset_testing::sets::{list, set_of};
use std::alloc::{AllocError, Global};
use std::thread::Threads;

// The set that it has, with all bits in the layers above the lowest. That set is asked for each word all the same.
#[derive(Drop)]
pub(super) struct Everywhere<S: BitSetLike> {
    pub(super) set: S,
}

impl<S: BitSetLike> BitSetLike for Everywhere<S> {
    ghost use Rattle.hibitset_word_reads.specs.Strangers.{full_word, full_lawful};
    ghost use Rattle.hibitset_base.specs.declared.util.TheConstants.{LAYERS};

    ghost holds = { λ s. S.holds s.set };

    ghost word = { λ s. full_word (S.word s.set) };

    ghost lawful = { λ s. full_lawful LAYERS (S.lawful s.set) };

    fn layer4(&self) -> usize {
        self.set.layer4();
        !0
    }

    fn layer3(&self, i: usize) -> usize {
        self.set.layer3(i);
        !0
    }

    fn layer2(&self, i: usize) -> usize {
        self.set.layer2(i);
        !0
    }

    fn layer1(&self, i: usize) -> usize {
        self.set.layer1(i);
        !0
    }

    fn layer0(&self, i: usize) -> usize {
        self.set.layer0(i)
    }

    fn contains(&self, i: Index) -> bool {
        self.set.contains(i)
    }
}

// The set of these indices, which reads over 17 million words in a whole walk.
pub(super) fn stranger_of(alloc: Global, ids: &[Index]) -> Result<Everywhere<BitSet>, AllocError> {
    Ok(Everywhere {
        set: set_of(alloc, ids)?,
    })
}

// What a walk over a stranger gives, in parts that are cut in so many layers.
fn in_parts(rt: &(impl Threads + Sync), alloc: Global, layers: u8) -> Result<Vec<Index>, AllocError>
    requires nonzero { 0 < layers }
    requires fits { layers < LAYERS }
{
    stranger_of(alloc, &[0, 4096])?
        .par_iter()
        .layers_split(layers)
        .collect(rt, alloc)
}

#[test]
fn a_stranger_is_walked(rt: HostRuntime) -> Result<(), AllocError> {
    let some = stranger_of(rt.alloc(), &[0, 4096])?;
    assert_indices(&rt, list(rt.alloc(), &some)?.as_slice(), &[0, 4096]);
    assert!(rt; !some.is_empty());
    Ok(())
}

#[test]
fn a_stranger_without_members(rt: HostRuntime) -> Result<(), AllocError> {
    assert!(rt; stranger_of(rt.alloc(), &[])?.is_empty());
    Ok(())
}

#[test]
fn a_stranger_in_parts_of_one_layer(rt: HostRuntime) -> Result<(), AllocError> {
    let items = in_parts(&rt, rt.alloc(), 1)?;
    assert_indices(&rt, items.as_slice(), &[0, 4096]);
    Ok(())
}

#[test]
fn a_stranger_in_parts_of_two_layers(rt: HostRuntime) -> Result<(), AllocError> {
    let items = in_parts(&rt, rt.alloc(), 2)?;
    assert_indices(&rt, items.as_slice(), &[0, 4096]);
    Ok(())
}

#[test]
fn a_stranger_in_parts_of_three_layers(rt: HostRuntime) -> Result<(), AllocError> {
    let items = in_parts(&rt, rt.alloc(), 3)?;
    assert_indices(&rt, items.as_slice(), &[0, 4096]);
    Ok(())
}

#[test]
fn a_stranger_in_parts_of_four_layers(rt: HostRuntime) -> Result<(), AllocError> {
    let items = in_parts(&rt, rt.alloc(), 4)?;
    assert_indices(&rt, items.as_slice(), &[0, 4096]);
    Ok(())
}

#[test]
fn a_large_stranger_in_parts(rt: HostRuntime) -> Result<(), AllocError> {
    let many = Everywhere {
        set: every_eighth(rt.alloc())?,
    };
    let all = (&many).par_iter().collect(&rt, rt.alloc())?;
    assert_count(&rt, all.len(), 524_288);
    assert_index(&rt, all.last().copied(), Some(4_194_296));
    Ok(())
}

#[test]
fn strangers_nested_four_deep(rt: HostRuntime) -> Result<(), AllocError> {
    let some = stranger_of(rt.alloc(), &[0, 9, 4096])?;
    let other = set_of(rt.alloc(), &[9, 300000])?;
    let nested = BitSetAnd(BitSetOr(BitSetXor(BitSetNot(&some), &other), &some), &other);
    assert_indices(&rt, list(rt.alloc(), &nested)?.as_slice(), &[9]);
    assert!(rt; nested.contains(9) && !nested.contains(0) && !nested.contains(300000));
    Ok(())
}

#[test]
fn a_stranger_is_put_in(rt: HostRuntime) -> Result<(), AllocError> {
    let stranger = stranger_of(rt.alloc(), &[0, 4096])?;
    let mut or = BitSet::new(rt.alloc());
    or.bitor_assign(&stranger)?;
    assert_indices(&rt, list(rt.alloc(), &or)?.as_slice(), &[0, 4096]);
    assert_count(&rt, or.layer4(), 1);
    assert_count(&rt, or.layer2(0), 3);
    let mut and = set_of(rt.alloc(), &[0, 9])?;
    and &= &stranger;
    assert_indices(&rt, list(rt.alloc(), &and)?.as_slice(), &[0]);
    Ok(())
}

#[test]
fn a_stranger_is_put_in_where_it_is_not(rt: HostRuntime) -> Result<(), AllocError> {
    let stranger = stranger_of(rt.alloc(), &[0, 4096])?;
    let mut xor = set_of(rt.alloc(), &[0, 9])?;
    xor.bitxor_assign(&stranger)?;
    assert_indices(&rt, list(rt.alloc(), &xor)?.as_slice(), &[9, 4096]);
    Ok(())
}
