//! A set that C lends to be changed.
#![tactic(auto)]

ghost use Rattle.std.specs.Prelude.{◌≡◌, is_some};
ghost use Rattle.hibitset_c.specs.Words.{Shows};

use crate::handle::Handle;
use crate::raw_box::RawBox;
use crate::words::Words;
use hibitset::BitSet;
use std::alloc::Global;

/// A set as C keeps it: where its words lie, and the set itself, once there is one. It is empty until then.
///
/// C owes that the bytes are those that the last call that changed the set left, or those of `hibitset_new`, and that
/// no other call has the set meanwhile.
#[repr(C)]
#[derive(Drop)]
pub struct Set {
    pub(crate) words: Words,
    pub(crate) handle: Handle,
    pub(crate) made: bool,
    ghost tells: { made ≡ is_some handle.set },
    ghost shows: { Shows words handle.set },
}

impl Set {
    ghost use Rattle.std.specs.Prelude.{ℕ, true, false};
    ghost use Rattle.hibitset.specs.BitSet.{has as bits_have, slice_len};
    ghost use Rattle.hibitset_c.specs.Set.{has, layer0_len, OwnsNoMemory};

    // Puts a set where there is none. Returns whether its block was allocated.
    fn put_first(&mut self, alloc: Global, set: BitSet) -> bool
        requires { self.old.made ≡ false }
        ensures made { self.new.made ≡ result }
        ensures members { result ≡ true → (i : ℕ) → has self.new i ≡ bits_have set i }
        ensures length { result ≡ true → layer0_len self.new ≡ slice_len set 0 }
    {
        match Box::new(alloc, set) {
            Ok(set) => {
                self.words.show(&set);
                self.handle = Handle::of(RawBox::from_box(set));
                self.made = true;
                true
            }
            Err(_) => false,
        }
    }

    // Makes an empty set where there is none. It is not inlined, so that an addition to a set keeps nothing for it on
    // the stack.
    #[inline(never)]
    fn make_first(&mut self, alloc: Global) -> bool
        requires { self.old.made ≡ false }
        ensures made { self.new.made ≡ result }
        ensures members { (i : ℕ) → has self.new i ≡ false }
        ensures length { layer0_len self.new ≡ 0 }
    {
        self.put_first(alloc, BitSet::new(alloc))
    }

    // Makes an empty set where there is none. Returns whether there is one now.
    #[inline]
    pub(crate) fn make(&mut self, alloc: Global) -> bool
        ensures made { self.new.made ≡ result }
        ensures members { (i : ℕ) → has self.new i ≡ has self.old i }
        ensures length { layer0_len self.new ≡ layer0_len self.old }
        ensures err { result ≡ false → layer0_len self.old ≡ 0 }
    {
        self.made || self.make_first(alloc)
    }

    // Puts a set in the place of what there is. Returns false if an allocation failed.
    pub(crate) fn replace(&mut self, alloc: Global, set: BitSet) -> bool
        ensures members { result ≡ true → (i : ℕ) → has self.new i ≡ bits_have set i }
        ensures length { result ≡ true → layer0_len self.new ≡ slice_len set 0 }
        ensures err { result ≡ false → (i : ℕ) → has self.new i ≡ has self.old i }
        ensures err_len { result ≡ false → layer0_len self.new ≡ layer0_len self.old }
    {
        if !self.made {
            return self.put_first(alloc, set);
        }
        self.words.show(&set);
        *self.handle.as_mut() = set;
        true
    }

    // Gives the set up, with its memory.
    pub(crate) fn release(&mut self, alloc: Global)
        ensures freed { OwnsNoMemory self.new }
    {
        if self.made {
            self.made = false;
            self.words = Words::none();
            drop(self.handle.take(alloc).into_box());
        }
    }
}

pub(crate) fn sent<T: Send>(value: T) -> T
    ensures { result ≡ value }
{
    value
}

// C may hand a set on to another thread: here it is checked that the set may go.
pub(crate) fn handed_on(set: Set) -> Set
    ensures { result ≡ set }
{
    sent(set)
}
