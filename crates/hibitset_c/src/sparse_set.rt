//! A sparse set that C keeps.
#![tactic(auto)]

ghost use Rattle.std.specs.Prelude.{◌≡◌, is_some};
ghost use Rattle.hibitset_c.specs.SetOrSeat.{is_sparse_at};

use crate::owned_box::OwnedBox;
use crate::raw_box::RawBox;
use crate::set::sent;
use crate::set_or_seat::SetOrSeat;
use hibitset_sparse::SparseBitSet;
use std::alloc::Global;

/// A sparse set as C keeps it, once there is one. It is empty until then.
///
/// C owes that the bytes are those that the last call with the set left, or those of `hibitset_sparse_new`, and that no
/// other call has the set meanwhile.
#[repr(C)]
#[derive(Drop)]
pub struct SparseSet {
    pub(crate) handle: OwnedBox,
    pub(crate) made: bool,
    ghost tells: { made ≡ is_some handle.content },
    ghost sparse: { made ≡ is_sparse_at handle.content },
}

impl SparseSet {
    ghost use Rattle.std.specs.Prelude.{ℕ, true, false};
    ghost use Rattle.hibitset_sparse.specs.SparseBitSet.{has as sparse_has};
    ghost use Rattle.hibitset_c.specs.Sparse.{has, OwnsNoMemory};

    // Puts a set where there is none. Returns whether its block was allocated.
    fn put_first(&mut self, alloc: Global, members: SparseBitSet) -> bool
        requires { self.old.made ≡ false }
        ensures made { self.new.made ≡ result }
        ensures members { result ≡ true → (i : ℕ) → has self.new i ≡ sparse_has members i }
        ensures err { result ≡ false → (i : ℕ) → has self.new i ≡ false }
    {
        match Box::new(alloc, SetOrSeat::Sparse(members)) {
            Ok(content) => {
                self.handle = OwnedBox::of(RawBox::from_box(content));
                self.made = true;
                true
            }
            Err(_) => false,
        }
    }

    // Makes an empty set where there is none. Returns whether there is one now.
    #[inline]
    pub(crate) fn make(&mut self, alloc: Global) -> bool
        ensures made { self.new.made ≡ result }
        ensures members { (i : ℕ) → has self.new i ≡ has self.old i }
        ensures empty { result ≡ false → (i : ℕ) → has self.old i ≡ false }
    {
        self.made || self.put_first(alloc, SparseBitSet::new(alloc))
    }

    // Puts a set in the place of what there is. Returns false if an allocation failed.
    pub(crate) fn replace(&mut self, alloc: Global, members: SparseBitSet) -> bool
        ensures members { result ≡ true → (i : ℕ) → has self.new i ≡ sparse_has members i }
        ensures err { result ≡ false → (i : ℕ) → has self.new i ≡ has self.old i }
    {
        if !self.made {
            return self.put_first(alloc, members);
        }
        *self.handle.as_mut() = SetOrSeat::Sparse(members);
        true
    }

    // Gives the set up, with its memory.
    pub(crate) fn release(&mut self, alloc: Global)
        ensures freed { OwnsNoMemory self.new }
    {
        if self.made {
            self.made = false;
            drop(self.handle.take(alloc).into_box());
        }
    }
}

// C may hand it on to another thread.
pub(crate) fn handed_on(set: SparseSet) -> SparseSet
    ensures { result ≡ set }
{
    sent(set)
}
