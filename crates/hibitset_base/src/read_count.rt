//! How many words a walk has read. It takes no bytes, and contracts alone see it.
ghost use Rattle.std.specs.Prelude.{◌≡◌, ℕ, ◌+◌};
ghost use Rattle.std.specs.Borrow.{ftrue};

use std::marker::Model;

/// A count of words that were read.
#[derive(Debug, Drop)]
pub struct Reads {
    pub ghost count: { ℕ },
}

impl Model for Reads {
    ghost also_owns = { λ _. ftrue };
}

impl Reads {
    /// No word.
    pub fn none() -> Reads
        ensures { result.count ≡ 0 }
    {
        Reads {}
    }

    /// One word more.
    pub fn succ(_before: &Reads) -> Reads
        ensures { result.count ≡ _before.now.count + 1 }
    {
        Reads {}
    }
}
