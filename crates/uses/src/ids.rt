//! Identifiers that are given out and taken back, one by one or in runs, the lowest free ones first.
ghost use Rattle.std.specs.Prelude.{◌≡◌, ◌⊎◌, ℕ, ◌+◌, ◌<◌, ◌≤◌, ◌==◌, ◌||◌, ◌&&◌, not, true, false, IfOk, OnErr, MatchOption};
ghost use Rattle.hibitset.specs.Prelude.{IsFirst, HasNone, MAX_EID, in_range};

use hibitset::{BitSet, BitSetLike, Index, MAX_EID};
use std::alloc::{AllocError, Global};

/// The identifiers in use, all below `MAX_EID`.
#[derive(Debug, Drop)]
pub struct Ids {
    used: BitSet,
}

impl Ids {
    ghost use Rattle.uses.specs.Ids.{in_use, is_free, IsFirstRun, HasNoRun};

    /// No identifier is in use.
    pub fn new(alloc: Global) -> Ids
        ensures { (i : ℕ) → in_use result i ≡ false }
    {
        Ids {
            used: BitSet::new(alloc),
        }
    }

    /// Returns whether an identifier is in use.
    pub fn is_used(&self, id: Index) -> bool
        ensures { result ≡ in_use self.now id }
    {
        self.used.contains(id)
    }

    /// Gives the lowest free identifier, which is in use from then on, or `None` where all are in use. If an allocation
    /// fails, nothing changes. To find it, the words of all identifiers before it are read, since a complement has
    /// every summary bit; no contract says how many these are.
    pub fn alloc(&mut self) -> Result<Option<Index>, AllocError>
        ensures lowest { IfOk result (λ given. MatchOption given
            (HasNone MAX_EID (is_free self.old)) (IsFirst MAX_EID (is_free self.old))) }
        ensures taken { IfOk result (λ given. MatchOption given
            ((i : ℕ) → in_use self.new i ≡ in_use self.old i)
            (λ id. (i : ℕ) → in_use self.new i ≡ (in_use self.old i || i == id))) }
        ensures err { OnErr result ((i : ℕ) → in_use self.new i ≡ in_use self.old i) }
    {
        let Some(id) = (!&self.used).first() else {
            return Ok(None);
        };
        self.used.add(id)?;
        Ok(Some(id))
    }

    // Where the run ends that begins at a free identifier: at the next one in use, or at the bound of all.
    fn end_of_run(&self, start: Index) -> Index
        requires { start < MAX_EID }
        ensures from { start ≤ result }
        ensures in_range { result ≤ MAX_EID }
        ensures free { (i : ℕ) → start ≤ i → i < result → in_use self.now i ≡ false }
        ensures end { (in_use self.now result ≡ true) ⊎ (result ≡ MAX_EID) }
    {
        (&self.used)
            .iter_from(start)
            .next()
            .unwrap_or(MAX_EID as Index)
    }

    // Where the first run of so many free identifiers begins.
    fn first_run(&self, count: Index) -> Option<Index>
        requires { 0 < count }
        ensures { MatchOption result (HasNoRun (in_use self.now) count)
            (IsFirstRun (in_use self.now) count) }
    {
        let mut from = 0;
        while let Some(start) = self.used.first_gap(from) {
            let end = self.end_of_run(start);
            if end - start >= count {
                return Some(start);
            }
            from = end;
        }
        None
    }

    /// Gives the first run of so many free identifiers, at least one, which are in use from then on, by where it
    /// begins, or `None` where there is none. If an allocation fails, nothing changes. Runs in use, and free ones that
    /// are too short, are passed by whole words.
    pub fn alloc_run(&mut self, count: Index) -> Result<Option<Index>, AllocError>
        requires { 0 < count }
        ensures first { IfOk result (λ given. MatchOption given (HasNoRun (in_use self.old) count)
            (IsFirstRun (in_use self.old) count)) }
        ensures taken { IfOk result (λ given. MatchOption given
            ((i : ℕ) → in_use self.new i ≡ in_use self.old i)
            (λ start. (i : ℕ) → in_use self.new i
            ≡ (in_use self.old i || in_range start (start + count) i))) }
        ensures err { OnErr result ((i : ℕ) → in_use self.new i ≡ in_use self.old i) }
    {
        let Some(start) = self.first_run(count) else {
            return Ok(None);
        };
        self.used.add_range(start, start + count)?;
        Ok(Some(start))
    }

    /// Takes the identifiers from `start` on before `end` back, whether they were in use or not.
    pub fn free_run(&mut self, start: Index, end: Index)
        ensures { (i : ℕ) → in_use self.new i ≡ (in_use self.old i && not (in_range start end i)) }
    {
        self.used.remove_range(start, end)
    }

    /// Takes an identifier back, and returns whether it was in use.
    pub fn free(&mut self, id: Index) -> bool
        ensures was_in_use { result ≡ in_use self.old id }
        ensures freed { (i : ℕ) → in_use self.new i ≡ (in_use self.old i && not (i == id)) }
    {
        self.used.remove(id)
    }
}
