//! Pages that were changed and are to be written.
ghost use Rattle.std.specs.Prelude.{◌≡◌, ℕ, ◌<◌, ◌==◌, ◌||◌, false, ◌++◌, OnOk, OnErr, IfOk};
ghost use Rattle.hibitset.specs.Prelude.{members_below, MAX_EID};

use hibitset::laws::laws;
use hibitset::{BitSet, BitSetLike, DrainableBitSet, Index, MAX_EID};
use std::alloc::{AllocError, Global};

/// The pages that were changed since they were written.
#[derive(Debug, Drop)]
pub struct Pages {
    dirty: BitSet,
}

impl Pages {
    ghost use Rattle.uses.specs.Pages.{is_dirty};

    /// No page is dirty.
    pub fn new(alloc: Global) -> Pages
        ensures { (page : ℕ) → is_dirty result page ≡ false }
    {
        Pages {
            dirty: BitSet::new(alloc),
        }
    }

    /// Returns whether a page is to be written.
    pub fn is_dirty(&self, page: Index) -> bool
        ensures { result ≡ is_dirty self.now page }
    {
        self.dirty.contains(page)
    }

    /// Marks a page, and returns whether it was dirty. If an allocation fails, nothing changes.
    pub fn mark(&mut self, page: Index) -> Result<bool, AllocError>
        requires { page < MAX_EID }
        ensures was_dirty { IfOk result (λ was. was ≡ is_dirty self.old page) }
        ensures marked { OnOk result ((i : ℕ)
            → is_dirty self.new i ≡ (is_dirty self.old i || i == page)) }
        ensures err { OnErr result ((i : ℕ) → is_dirty self.new i ≡ is_dirty self.old i) }
    {
        self.dirty.add(page)
    }

    /// Moves all dirty pages to the end of `out`, in ascending order.
    ///
    /// # Errors
    ///
    /// The allocation fails, which is made first: nothing changes.
    pub fn flush(&mut self, out: &mut Vec<Index>) -> Result<(), AllocError>
        ensures flushed { OnOk result (out.new.items
            ≡ out.old.items ++ members_below MAX_EID (is_dirty self.old)) }
        ensures clean { OnOk result ((page : ℕ) → is_dirty self.new page ≡ false) }
        ensures kept { OnErr result (out.new.items ≡ out.old.items) }
        ensures still_dirty { OnErr result
            ((page : ℕ) → is_dirty self.new page ≡ is_dirty self.old page) }
    {
        laws();
        out.reserve(self.dirty.len())?;
        for page in self.dirty.drain() {
            out.push(page).unwrap();
        }
        Ok(())
    }
}
