//! A seat that C keeps.
#![tactic(auto)]

ghost use Rattle.std.specs.Prelude.{◌≡◌, is_some};
ghost use Rattle.hibitset_c.specs.SetOrSeat.{is_seated_at};

use crate::owned_box::OwnedBox;
use crate::raw_box::RawBox;
use crate::set::sent;
use crate::set_or_seat::SetOrSeat;
use std::alloc::Global;

/// A seat of a shared set as C keeps it, or none.
///
/// C owes that the bytes are those that the last call with the seat left, or those of `hibitset_seat_new`, and that no
/// other call has the seat meanwhile. Other seats of the set may be in calls at the same time.
#[repr(C)]
#[derive(Drop)]
pub struct SeatSlot {
    pub(crate) handle: OwnedBox,
    pub(crate) made: bool,
    ghost tells: { made ≡ is_some handle.content },
    ghost seated: { made ≡ is_seated_at handle.content },
}

impl SeatSlot {
    ghost use Rattle.std.specs.Prelude.{true, None, Some};
    ghost use Rattle.hibitset_c.specs.SetOrSeat.{is_seated};

    // Takes the seat out.
    pub(crate) fn take(&mut self, alloc: Global) -> Box<SetOrSeat, Global>
        requires { self.old.made ≡ true }
        ensures taken { self.old.handle.content ≡ Some result.value }
        ensures empty { self.new.handle.content ≡ None }
    {
        self.made = false;
        self.handle.take(alloc).into_box()
    }

    // Gives the seat up, and with the last one of a set the set.
    pub(crate) fn release(&mut self, alloc: Global)
        ensures { self.new.handle.content ≡ None }
    {
        if self.made {
            drop(self.take(alloc));
        }
    }

    // Puts a seat in the place of what there is.
    pub(crate) fn replace(&mut self, alloc: Global, content: Box<SetOrSeat, Global>)
        requires { is_seated content.value ≡ true }
        ensures { self.new.handle.content ≡ Some content.value }
    {
        self.release(alloc);
        self.handle = OwnedBox::of(RawBox::from_box(content));
        self.made = true;
    }
}

// C may hand it on to another thread.
pub(crate) fn handed_on(seat: SeatSlot) -> SeatSlot
    ensures { result ≡ seat }
{
    sent(seat)
}
