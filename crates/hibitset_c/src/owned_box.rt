//! An atomic set, a seat or a sparse set on the heap behind one pointer, as C keeps it.
ghost use Rattle.std.specs.Prelude.{◌≡◌, true, is_some, None, Option, Some};
ghost use Rattle.std.specs.Borrow.{sem};
ghost use Rattle.hibitset_c.specs.Handle.{handle_owns};
ghost use Rattle.hibitset_c.specs.contracts.set_or_seat.SetOrSeat.{the_row as content_row};
ghost use Rattle.hibitset_c.specs.declared.set_or_seat.SetOrSeat.{SetOrSeat};

use crate::raw_box::RawBox;
use crate::set_or_seat::SetOrSeat;
use std::alloc::Global;
use std::marker::Model;

/// An atomic set, a seat or a sparse set, or none of these: then the pointer is never followed.
#[repr(C)]
#[derive(Drop)]
pub struct OwnedBox {
    at: *const usize,
    pub ghost content: { Option SetOrSeat },
}

impl Model for OwnedBox {
    ghost also_owns = { λ h. handle_owns content_row h.at h.content };
}

// The content may go to another thread, and its block may be freed there.
unsafe impl Send for OwnedBox {}

impl OwnedBox {
    ghost use Rattle.hibitset_c.specs.OwnedBoxLoan.{LendsContent};

    // Takes the content out.
    pub(crate) fn take(&mut self, alloc: Global) -> RawBox<SetOrSeat, Global>
        requires { is_some self.old.content ≡ true }
        ensures taken { self.old.content ≡ Some result.value }
        ensures empty { self.new.content ≡ None }
    {
        let at = self.at as *mut SetOrSeat;
        RawBox { at, alloc }
    }

    // Content that is on the heap.
    pub(crate) fn of(content: RawBox<SetOrSeat, Global>) -> OwnedBox
        ensures { result.content ≡ Some content.value }
    {
        let RawBox { at, alloc: _ } = content;
        let at = at as *const usize;
        OwnedBox { at }
    }

    // The content, to be changed where it lies.
    #[inline]
    pub(crate) fn as_mut(&mut self) -> &mut SetOrSeat
        requires { is_some self.old.content ≡ true }
        ensures* lends { sem 𝓛 (LendsContent self.entry result) }
        ensures value { self.old.content ≡ Some result.now }
    {
        let ptr = self.at as *mut SetOrSeat;
        unsafe { &mut *ptr }
    }
}
