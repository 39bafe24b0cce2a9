//! Records found by their tags.
ghost use Rattle.std.specs.Prelude.{◌≡◌, ℕ, ◌+◌, ◌<◌, ◌==◌, ◌||◌, ◌&&◌, not, false, true, length, vec_len, IfOk, OnOk, OnErr, ◌↔◌, Contains};
ghost use Rattle.std.specs.List.Sorted.{IsStrictlyIncreasing};
ghost use Rattle.hibitset.specs.Prelude.{members_below, MAX_EID};

use hibitset::laws::laws;
use hibitset::{BitSet, BitSetAnd, BitSetLike, BitSetNot, Index, MAX_EID};
use std::alloc::{AllocError, Global};

/// For each tag the records that have it.
#[derive(Debug, Drop)]
pub struct Tagged {
    records: Vec<BitSet>,
}

// The records that have two tags and lack a third, as a set that is not made.
type Wanted<'a> = BitSetAnd<BitSetAnd<&'a BitSet, &'a BitSet>, BitSetNot<&'a BitSet>>;

impl Tagged {
    ghost use Rattle.uses.specs.Filter.{is_tagged, is_wanted, tags_of};
    ghost use Rattle.hibitset.specs.Prelude.{has};

    /// There is no tag.
    pub fn new(alloc: Global) -> Tagged
        ensures { tags_of result ≡ 0 }
    {
        Tagged {
            records: Vec::new(alloc),
        }
    }

    /// Makes a tag that no record has, and gives its number, the next one. If an allocation fails, nothing changes.
    pub fn new_tag(&mut self) -> Result<usize, AllocError>
        ensures number { IfOk result (λ tag. tag ≡ tags_of self.old) }
        ensures count { OnOk result (tags_of self.new ≡ tags_of self.old + 1) }
        ensures err { OnErr result (tags_of self.new ≡ tags_of self.old) }
        ensures same { (t i : ℕ) → is_tagged self.new t i ≡ is_tagged self.old t i }
    {
        let tag = self.records.len();
        let alloc = *self.records.allocator();
        self.records.push(BitSet::new(alloc))?;
        Ok(tag)
    }

    /// Gives a record a tag, and returns whether it had it. If an allocation fails, nothing changes.
    pub fn tag(&mut self, id: Index, tag: usize) -> Result<bool, AllocError>
        requires tag { tag < tags_of self.old }
        requires id { id < MAX_EID }
        ensures was_tagged { IfOk result (λ was. was ≡ is_tagged self.old tag id) }
        ensures tagged { OnOk result ((t i : ℕ)
            → is_tagged self.new t i ≡ (is_tagged self.old t i || (t == tag && i == id))) }
        ensures err { OnErr result ((t i : ℕ)
            → is_tagged self.new t i ≡ is_tagged self.old t i) }
        ensures count { tags_of self.new ≡ tags_of self.old }
    {
        self.records[tag].add(id)
    }

    // The records that have both tags, and not the third.
    fn wanted(&self, first: usize, second: usize, without: usize) -> Wanted<'_>
        requires first { first < tags_of self.now }
        requires second { second < tags_of self.now }
        requires without { without < tags_of self.now }
        ensures { ⟦<Wanted<'static> as BitSetLike>⟧.holds result
            ≡ is_wanted self.now first second without }
    {
        &self.records[first] & &self.records[second] & !&self.records[without]
    }

    /// How many records have both tags, and not the third.
    pub fn count(&self, first: usize, second: usize, without: usize) -> usize
        requires first { first < tags_of self.now }
        requires second { second < tags_of self.now }
        requires without { without < tags_of self.now }
        ensures { result ≡ length (members_below MAX_EID
            (is_wanted self.now first second without)) }
    {
        self.wanted(first, second, without).len()
    }

    /// The records that have both tags, and not the third, in ascending order.
    pub fn find(
        &self,
        alloc: Global,
        first: usize,
        second: usize,
        without: usize,
    ) -> Result<Vec<Index>, AllocError>
        requires first { first < tags_of self.now }
        requires second { second < tags_of self.now }
        requires without { without < tags_of self.now }
        ensures ascending { IfOk result (λ found. IsStrictlyIncreasing found.items) }
        ensures found { IfOk result (λ found. (i : ℕ)
            → Contains found.items i ↔ ((i < MAX_EID)
            × (is_wanted self.now first second without i ≡ true))) }
    {
        self.wanted(first, second, without).to_vec(alloc)
    }

    /// The records that have a tag.
    pub fn records(&self, tag: usize) -> &BitSet
        requires { tag < tags_of self.now }
        ensures { (i : ℕ) → has result.now i ≡ is_tagged self.now tag i }
    {
        &self.records[tag]
    }

    /// Takes a tag from the records that are not in `kept`. It does not allocate.
    pub fn narrow(&mut self, tag: usize, kept: &BitSet)
        requires { tag < tags_of self.old }
        ensures narrowed { (t i : ℕ) → is_tagged self.new t i
            ≡ (is_tagged self.old t i && (not (t == tag) || has kept.now i)) }
        ensures count { tags_of self.new ≡ tags_of self.old }
    {
        self.records[tag] &= kept;
    }

    /// Gives a tag to the records in `more`. If an allocation fails, nothing changes.
    pub fn widen(&mut self, tag: usize, more: &BitSet) -> Result<(), AllocError>
        requires { tag < tags_of self.old }
        ensures widened { OnOk result ((t i : ℕ)
            → is_tagged self.new t i ≡ (is_tagged self.old t i || (t == tag && has more.now i))) }
        ensures err { OnErr result ((t i : ℕ)
            → is_tagged self.new t i ≡ is_tagged self.old t i) }
        ensures count { tags_of self.new ≡ tags_of self.old }
    {
        laws();
        self.records[tag].bitor_assign(more)
    }
}
