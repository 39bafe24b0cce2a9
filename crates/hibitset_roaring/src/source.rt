//! What the containers of a stream are written of.

ghost use Rattle.std.specs.Prelude.{◌≡◌, ℕ, ◌+◌, ◌*◌, ◌^◌, ◌<◌, ◌≤◌, true, List, get_or, length};
ghost use Rattle.hibitset.specs.WordBits.{stands_in};
ghost use Rattle.hibitset_roaring.specs.Streams.{SameBefore, container_bytes, IsRunCount, IsKindWritten};
ghost use Rattle.hibitset_roaring.specs.Runs.{members_under, count_of_runs, are_runs_shorter};
ghost use Rattle.hibitset_roaring.specs.Words.{ones_under, AreSummaries};
ghost use Rattle.hibitset_roaring.specs.declared.header.TheConstants.{KEYS};

use crate::encode_container::write_kind;
use crate::header::KEYS;
use crate::key_counts::count_members;
use crate::layout::CONTAINER_WORDS;
use crate::runs::count_runs;
use hibitset::BitSet;

/// A set whose containers are counted and written.
pub(crate) trait ContainerSource {
    // All words of layer 0.
    ghost words: { Self → List ℕ };

    /// The first key from one on under which there may be members; or `KEYS`.
    fn next_key(&self, from: usize) -> usize
        requires { from ≤ KEYS }
        ensures order { from ≤ result }
        ensures within { result ≤ KEYS }
        ensures skips { (key : ℕ) → from ≤ key → key < result
            → ones_under (words self.now) key ≡ 0 };

    /// How many members have these high bits.
    fn count_under(&self, key: usize) -> usize
        requires { key < KEYS }
        ensures count { result ≡ ones_under (words self.now) key }
        ensures max { result ≤ 65536 };

    /// How many runs the `count` members with these high bits form; or at least as many, if runs are no shorter.
    fn count_runs(&self, key: usize, count: usize) -> usize
        requires { key < KEYS }
        ensures { IsRunCount (words self.now) key count result };

    /// Writes a container of `count` members in `runs` runs, as runs if these are shorter.
    fn write_container(&self, out: &mut [u8], at: usize, key: usize, count: usize, runs: usize)
        requires long_enough { at + container_bytes count runs ≤ length out.old }
        requires key { key < KEYS }
        requires count { count ≡ ones_under (words self.now) key }
        requires runs { are_runs_shorter runs count ≡ true
            → runs ≡ count_of_runs (members_under (stands_in (words self.now)) key) }
        ensures before { SameBefore at out.old out.new }
        ensures written { IsKindWritten (words self.now) out.new at key count runs };

    // There are no more words than layer 0 may have.
    ghost short: { (source : Self) → length (words source) ≤ 16777216 };

    ghost fits: { (source : Self) (p : ℕ) → get_or (words source) p 0 < 2 ^ 64 };
}

/// Words of layer 0, and those of layer 1 over them.
#[derive(Clone, Copy)]
pub(crate) struct WordSource<'a> {
    words: &'a [usize],
    above: &'a [usize],
    ghost short: { length words.now ≤ 16777216 },
    ghost fits: { (p : ℕ) → get_or words.now p 0 < 2 ^ 64 },
    ghost summed: { AreSummaries words.now above.now },
}

impl<'a> WordSource<'a> {
    ghost use Rattle.hibitset.specs.BitSet.{has};

    /// These words.
    #[inline]
    pub(crate) fn new(words: &'a [usize], above: &'a [usize]) -> WordSource<'a>
        requires len_max { length words.now ≤ 16777216 }
        requires summaries { AreSummaries words.now above.now }
        ensures { result.words.now ≡ words.now }
    {
        WordSource { words, above }
    }

    /// The words of a set.
    #[inline]
    pub(crate) fn of(set: &'a BitSet) -> WordSource<'a>
        ensures { (i : ℕ) → has set.now i ≡ stands_in result.words.now i }
    {
        WordSource::new(set.layer0_as_slice(), set.layer1_as_slice())
    }
}

impl ContainerSource for WordSource<'_> {
    ghost words = { λ source. source.words.now };

    ghost short = { λ source. source.short };

    ghost fits = { λ source. source.fits };

    #[inline]
    fn next_key(&self, from: usize) -> usize {
        if from < (self.words.len() + (CONTAINER_WORDS - 1)) / CONTAINER_WORDS {
            from
        } else {
            KEYS
        }
    }

    #[inline]
    fn count_under(&self, key: usize) -> usize {
        count_members(self.words, self.above, key)
    }

    #[inline]
    fn count_runs(&self, key: usize, count: usize) -> usize {
        count_runs(self.words, self.above, key, count)
    }

    #[inline]
    fn write_container(&self, out: &mut [u8], at: usize, key: usize, count: usize, runs: usize) {
        write_kind(out, at, self.words, self.above, key, count, runs);
    }
}
