//! An atomic set that C keeps.
#![tactic(auto)]

ghost use Rattle.std.specs.Prelude.{◌≡◌, is_some};
ghost use Rattle.hibitset_c.specs.SetOrSeat.{is_alone_at};

use crate::owned_box::OwnedBox;
use crate::raw_box::RawBox;
use crate::set::sent;
use crate::set_or_seat::SetOrSeat;
use hibitset::AtomicBitSet;
use std::alloc::Global;

/// An atomic set as C keeps it, once there is one. It is empty until then.
///
/// C owes that the bytes are those that the last call with the set left, or those of `hibitset_atomic_new`, and that no
/// other call has the set meanwhile.
#[repr(C)]
#[derive(Drop)]
pub struct AtomicSet {
    pub(crate) handle: OwnedBox,
    pub(crate) made: bool,
    ghost tells: { made ≡ is_some handle.content },
    ghost alone: { made ≡ is_alone_at handle.content },
}

impl AtomicSet {
    ghost use Rattle.std.specs.Prelude.{◌↔◌, ℕ, true, false, Some};
    ghost use Rattle.hibitset_c.specs.Atomic.{has, NeedsAllocation, AllBlocksReserved, OwnsNoMemory};
    ghost use Rattle.hibitset_c.specs.SetOrSeat.{is_alone};

    // Makes an empty set where there is none.
    #[inline(never)]
    fn make_first(&mut self, alloc: Global) -> bool
        requires { self.old.made ≡ false }
        ensures made { self.new.made ≡ result }
        ensures members { (i : ℕ) → has self.new i ≡ false }
        ensures all_lack_room { (i : ℕ) → NeedsAllocation self.new i }
    {
        let Ok(set) = AtomicBitSet::new(alloc) else {
            return false;
        };
        match Box::new(alloc, SetOrSeat::Alone(set)) {
            Ok(content) => {
                self.handle = OwnedBox::of(RawBox::from_box(content));
                self.made = true;
                true
            }
            Err(_) => false,
        }
    }

    // Makes an empty set where there is none. Returns whether there is one now.
    #[inline]
    pub(crate) fn make(&mut self, alloc: Global) -> bool
        ensures made { self.new.made ≡ result }
        ensures members { (i : ℕ) → has self.new i ≡ has self.old i }
        ensures blocks { (i : ℕ) → NeedsAllocation self.new i ↔ NeedsAllocation self.old i }
        ensures succeeds { AllBlocksReserved self.old → result ≡ true }
        ensures all_reserved { AllBlocksReserved self.old → AllBlocksReserved self.new }
        ensures err { result ≡ false → (i : ℕ) → NeedsAllocation self.old i }
        ensures empty { result ≡ false → (i : ℕ) → has self.old i ≡ false }
    {
        self.made || self.make_first(alloc)
    }

    // Gives the set up, with its memory.
    pub(crate) fn release(&mut self, alloc: Global)
        ensures freed { OwnsNoMemory self.new }
    {
        if self.made {
            drop(self.take(alloc));
        }
    }

    // Takes the set out.
    pub(crate) fn take(&mut self, alloc: Global) -> Box<SetOrSeat, Global>
        requires { self.old.made ≡ true }
        ensures taken { self.old.handle.content ≡ Some result.value }
        ensures freed { OwnsNoMemory self.new }
    {
        self.made = false;
        self.handle.take(alloc).into_box()
    }

    // Puts a set in the place of what there is.
    pub(crate) fn replace(&mut self, alloc: Global, content: Box<SetOrSeat, Global>)
        requires { is_alone content.value ≡ true }
        ensures { self.new.handle.content ≡ Some content.value }
    {
        self.release(alloc);
        self.handle = OwnedBox::of(RawBox::from_box(content));
        self.made = true;
    }
}

// C may hand it on to another thread.
pub(crate) fn handed_on(set: AtomicSet) -> AtomicSet
    ensures { result ≡ set }
{
    sent(set)
}
