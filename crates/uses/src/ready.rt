//! Tasks that are ready to run, the lowest first.
ghost use Rattle.std.specs.Prelude.{◌≡◌, ℕ, ◌+◌, ◌/◌, ◌<◌, ◌≤◌, ◌==◌, ◌||◌, ◌&&◌, not, true, false, OnErr, IfOk, IsOk, OnOk, MatchOption};
ghost use Rattle.hibitset.specs.Prelude.{IsFirst, HasNone, MAX_EID, slice_len};

use hibitset::{BitSet, BitSetLike, Index, MAX_EID};
use std::alloc::{AllocError, Global};

/// The tasks that are ready, with capacity at all times for those below a limit.
#[derive(Debug, Drop)]
pub struct Ready {
    tasks: BitSet,
    limit: Index,
    ghost room: { (i : ℕ) → i < limit → i / 64 < slice_len tasks 0 },
}

impl Ready {
    ghost use Rattle.uses.specs.Ready.{is_ready, is_ready_from, limit_of, words_of};

    /// No task is ready, and there is capacity for those below `limit`, no more than their words need. It fails only if
    /// that allocation does.
    pub fn new(alloc: Global, limit: Index) -> Result<Ready, AllocError>
        requires { limit ≤ MAX_EID }
        ensures empty { IfOk result (λ ready. (i : ℕ) → is_ready ready i ≡ false) }
        ensures limit { IfOk result (λ ready. limit_of ready ≡ limit) }
        ensures words { IfOk result (λ ready. words_of ready ≡ (limit + 63) / 64) }
    {
        Ok(Ready {
            tasks: BitSet::with_capacity(alloc, limit)?,
            limit,
        })
    }

    /// Makes a task ready, and returns whether it was.
    ///
    /// # Errors
    ///
    /// An allocation fails: nothing changes. Below the limit it can't fail, at any time.
    pub fn wake(&mut self, task: Index) -> Result<bool, AllocError>
        requires { task < MAX_EID }
        ensures was_ready { IfOk result (λ was. was ≡ is_ready self.old task) }
        ensures woken { OnOk result ((i : ℕ)
            → is_ready self.new i ≡ (is_ready self.old i || i == task)) }
        ensures err { OnErr result ((i : ℕ) → is_ready self.new i ≡ is_ready self.old i) }
        ensures succeeds { task < limit_of self.old → IsOk result }
        ensures limit { limit_of self.new ≡ limit_of self.old }
    {
        self.tasks.add(task)
    }

    /// Takes the first task that is ready, or none if there is none.
    pub fn next_ready(&mut self) -> Option<Index>
        ensures first { MatchOption result (HasNone MAX_EID (is_ready self.old))
            (IsFirst MAX_EID (is_ready self.old)) }
        ensures taken { MatchOption result
            ((i : ℕ) → is_ready self.new i ≡ is_ready self.old i)
            (λ task. (i : ℕ) → is_ready self.new i ≡ (is_ready self.old i && not (i == task))) }
        ensures limit { limit_of self.new ≡ limit_of self.old }
    {
        let task = self.tasks.first()?;
        self.tasks.remove(task);
        Some(task)
    }

    /// No task below this one is ready. It is the first that is, or `MAX_EID` where none is.
    pub fn idle_below(&self) -> Index
        ensures idle { (task : ℕ) → task < result → is_ready self.now task ≡ false }
        ensures ready { result < MAX_EID → is_ready self.now result ≡ true }
        ensures in_range { result ≤ MAX_EID }
    {
        self.tasks.first().unwrap_or(MAX_EID as Index)
    }

    /// Takes the first ready task from `start` on, or none where none is ready there. A caller that goes on after the
    /// task that it was given, and from 0 where it was given none, gives each task its turn.
    pub fn next_from(&mut self, start: Index) -> Option<Index>
        ensures first { MatchOption result (HasNone MAX_EID (is_ready_from start self.old))
            (IsFirst MAX_EID (is_ready_from start self.old)) }
        ensures taken { MatchOption result
            ((i : ℕ) → is_ready self.new i ≡ is_ready self.old i)
            (λ task. (i : ℕ) → is_ready self.new i ≡ (is_ready self.old i && not (i == task))) }
        ensures limit { limit_of self.new ≡ limit_of self.old }
    {
        let task = (&self.tasks).iter_from(start).next()?;
        self.tasks.remove(task);
        Some(task)
    }
}
