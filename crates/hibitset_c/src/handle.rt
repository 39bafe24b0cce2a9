//! A set on the heap behind one pointer, as C keeps it.
ghost use Rattle.std.specs.Prelude.{◌≡◌, true, is_some, None, Option, Some};
ghost use Rattle.std.specs.Borrow.{sem};
ghost use Rattle.hibitset.specs.declared.set.BitSet.{BitSet};
ghost use Rattle.hibitset.specs.contracts.set.BitSet.{the_row as set_row};
ghost use Rattle.hibitset_c.specs.Handle.{handle_owns};

use crate::raw_box::RawBox;
use hibitset::BitSet;
use std::alloc::Global;
use std::marker::Model;

/// A set, or none: then the pointer is never followed.
#[repr(C)]
#[derive(Drop)]
pub struct Handle {
    at: *const usize,
    pub ghost set: { Option BitSet },
}

impl Model for Handle {
    ghost also_owns = { λ h. handle_owns set_row h.at h.set };
}

// A set is plain memory, and its block may be freed on any thread.
unsafe impl Send for Handle {}

impl Handle {
    ghost use Rattle.hibitset_c.specs.SetLoan.{LendsSet};

    // Takes the set out.
    pub(crate) fn take(&mut self, alloc: Global) -> RawBox<BitSet, Global>
        requires { is_some self.old.set ≡ true }
        ensures taken { self.old.set ≡ Some result.value }
        ensures empty { self.new.set ≡ None }
    {
        let at = self.at as *mut BitSet;
        RawBox { at, alloc }
    }

    // A set that is on the heap.
    pub(crate) fn of(set: RawBox<BitSet, Global>) -> Handle
        ensures { result.set ≡ Some set.value }
    {
        let RawBox { at, alloc: _ } = set;
        let at = at as *const usize;
        Handle { at }
    }

    // The set, to be changed where it lies.
    #[inline]
    pub(crate) fn as_mut(&mut self) -> &mut BitSet
        requires { is_some self.old.set ≡ true }
        ensures* lends { sem 𝓛 (LendsSet self.entry result) }
        ensures value { self.old.set ≡ Some result.now }
    {
        let ptr = self.at as *mut BitSet;
        unsafe { &mut *ptr }
    }
}
