//! Counts of members beside a set that does not change.
#![tactic(auto, unfolding(crate::specs::Ranked::counted_set, crate::specs::Ranked::counts_len))]

ghost use Rattle.std.specs.Prelude.{◌≡◌, ℕ, ◌+◌, ◌-◌, ◌*◌, ◌/◌, ◌<◌, ◌≤◌, IfOk, length, min, nat_le, true, false, slice_get};
ghost use Rattle.std.specs.List.Sorted.{IsPartitionPoint};
ghost use Rattle.hibitset_base.specs.Members.{members_below};
ghost use Rattle.hibitset_base.specs.Ranks.{AreCounts, CountsBefore, block_size};
ghost use Rattle.hibitset_base.specs.declared.util.TheConstants.{LAYERS, MAX_EID};

use crate::iter::read;
use crate::like::BitSetLike;
use crate::ranks::{count_part, count_range, nth_under};
use crate::read_count::Reads;
use crate::util::Index;
use std::alloc::{AllocError, Global};

// Number of indices under a word of layer 1.
const INDICES_PER_BLOCK: usize = 64 * 64;

/// A set that does not change, with the number of members before each 4,096th index: for many calls of `rank` and
/// `select`.
///
/// The counts take 4 bytes for each 4,096 indices up to the last member, which is 0.8 % of what the set takes. Give a
/// set that changes later as a reference: the borrow checker keeps it as it is.
#[derive(Drop)]
pub struct Ranked<T: BitSetLike> {
    set: T,
    counts: Vec<u32>,
    ghost counted: { AreCounts (T.holds set) counts.items },
}

// Counts the members before each of so many blocks, and those before the end of the last one.
fn count_blocks<T: BitSetLike>(
    alloc: Global,
    set: &T,
    blocks: usize,
) -> Result<Vec<u32>, AllocError>
    requires { block_size * blocks ≤ MAX_EID }
    ensures length { IfOk result (λ counts. length counts.items ≡ blocks + 1) }
    ensures each { IfOk result (λ counts. CountsBefore (T.holds set.now) counts.items) }
{
    let mut counts = Vec::with_capacity(alloc, blocks + 1)?;
    counts.push(0)?;
    let mut count = 0;
    'starts: for block in 0..blocks {
        let from = 64 * block as u32;
        count += count_part(set, 1, from, from + 64) as u32;
        counts.push(count)?;
    }
    Ok(counts)
}

impl<T: BitSetLike> Ranked<T> {
    ghost use Rattle.hibitset_base.specs.Ranked.{counted_set, counts_len};

    /// Counts the members of a set.
    ///
    /// # Errors
    ///
    /// The one allocation fails; a set that was given by value is gone then.
    ///
    /// # Cost
    ///
    /// It reads the words on the way to the last member, and then, for each 4,096 indices up to it, a word of layer 1
    /// and the words under its bits.
    pub fn new(alloc: Global, set: T) -> Result<Ranked<T>, AllocError>
        ensures set { IfOk result (λ ranked. counted_set ranked ≡ set) }
        ensures len_bound { IfOk result (λ ranked. counts_len ranked ≤ MAX_EID / block_size + 1) }
        ensures len_max { IfOk result (λ ranked. (blocks : ℕ)
            → ((i : ℕ) → i < MAX_EID → T.holds set i ≡ true → i < block_size * blocks)
            → counts_len ranked ≤ blocks + 1) }
    {
        let blocks = match set.last() {
            Some(last) => last as usize / INDICES_PER_BLOCK + 1,
            None => 0,
        };
        let counts = count_blocks(alloc, &set, blocks)?;
        Ok(Ranked { set, counts })
    }

    /// The set.
    #[inline]
    pub fn set(&self) -> &T
        ensures { result.now ≡ counted_set self.now }
    {
        &self.set
    }

    /// How many members lie before `end` and below `MAX_EID`, as `rank` of the set. It reads at most 64 words of layer
    /// 0, and one of layer 1.
    #[inline]
    pub fn rank(&self, end: Index) -> usize
        ensures { result ≡ length (members_below (min end MAX_EID)
            (T.holds (counted_set self.now))) }
    {
        let block = end as usize / INDICES_PER_BLOCK;
        if block + 1 >= self.counts.len() {
            return self.counts[self.counts.len() - 1] as usize;
        }
        let start = (INDICES_PER_BLOCK * block) as Index;
        self.counts[block] as usize + count_range(&self.set, start, end)
    }

    // The number of counts that are `at` or less.
    #[inline]
    fn counts_upto(&self, at: usize) -> usize
        ensures bound { result ≤ length self.now.counts.items }
        ensures point { IsPartitionPoint (λ count. nat_le count at ≡ true)
            (λ count. nat_le count at ≡ false) self.now.counts.items result }
    {
        self.counts.partition_point(
            |count: &u32| -> bool
                ensures { result ≡ nat_le count.now at }
            { *count as usize <= at },
        )
    }

    /// The member at a position of the ascending list of all, as `select` of the set, or `None` past its end. It finds
    /// the block by a binary search over the counts, and reads at most 64 words of layer 0, and one of layer 1.
    #[inline]
    pub fn select(&self, at: usize) -> Option<Index>
        ensures { result ≡ slice_get (members_below MAX_EID (T.holds (counted_set self.now))) at }
    {
        let next = self.counts_upto(at);
        if next == self.counts.len() {
            return None;
        }
        let block = next - 1;
        let before = self.counts[block] as usize;
        let position = block as u32;
        let word = read(&self.set, &mut Reads::none(), 1, position);
        nth_under(&self.set, 64 * position, word, at - before)
    }
}
