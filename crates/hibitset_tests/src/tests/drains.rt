//! What a caller knows of its set after a drain.
ghost use Rattle.std.specs.Prelude.{◌≡◌, ℕ, ◌==◌, ◌&&◌, not, IfOk, OnOk, IfSome, IfNone};
ghost use Rattle.std.specs.List.{list_any};
ghost use Rattle.hibitset_base.specs.Members.{members_below};
ghost use Rattle.hibitset_base.specs.declared.util.TheConstants.{MAX_EID};
ghost use Rattle.hibitset.specs.BitSet.{has, slice_len};

use crate::tests::{assert_count, assert_index, assert_indices};
use hibitset::{BitSet, DrainableBitSet, Index};
use hibitset_base::util::MAX_EID;
use hibitset_testing::sets::set_of;
use std::alloc::{AllocError, Global};

// Takes the first member out, by a drain that is dropped early.
fn take_first(set: &mut BitSet) -> Option<Index>
    ensures gone { IfSome result (λ first. (i : ℕ)
        → has set.new i ≡ (has set.old i && not (i == first))) }
    ensures empty { IfNone result (set.new ≡ set.old) }
    ensures capacity { slice_len set.new 0 ≡ slice_len set.old 0 }
{
    set.drain().next()
}

// Takes all members out, in a loop.
fn take_all(alloc: Global, set: &mut BitSet) -> Result<Vec<Index>, AllocError>
    ensures items { IfOk result (λ items. items.items ≡ members_below MAX_EID (has set.old)) }
    ensures gone { IfOk result (λ items. (i : ℕ)
        → has set.new i ≡ (has set.old i && not (list_any (λ x. i == x) items.items))) }
    ensures capacity { slice_len set.new 0 ≡ slice_len set.old 0 }
{
    let mut items = Vec::new(alloc);
    for index in set.drain() {
        items.push(index)?;
    }
    Ok(items)
}

#[test]
fn members_are_taken_out(rt: HostRuntime) -> Result<(), AllocError> {
    let mut set = set_of(rt.alloc(), &[3, 70, 700])?;
    assert_index(&rt, take_first(&mut set), Some(3));
    let rest = take_all(rt.alloc(), &mut set)?;
    assert_indices(&rt, rest.as_slice(), &[70, 700]);
    assert_index(&rt, take_first(&mut set), None);
    assert_count(&rt, set.layer0_as_slice().len(), 11);
    Ok(())
}
