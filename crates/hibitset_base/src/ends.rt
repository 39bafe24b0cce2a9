//! The first member of a set, the last one, and the last one before an index.
ghost use Rattle.std.specs.Prelude.{◌≡◌, ◌+◌, ◌-◌, ◌*◌, ◌<◌, ◌≤◌, MatchOption, min};
ghost use Rattle.hibitset_base.specs.First.{IsFirst, IsLast, HasNone};
ghost use Rattle.hibitset_base.specs.Sets.{SummariesExact};
ghost use Rattle.hibitset_base.specs.declared.util.TheConstants.{LAYERS, MAX_EID};

use crate::iter::{next_index, root_cursor, try_descend};
use crate::like::BitSetLike;
use crate::read_count::Reads;
use crate::rev_cursor::RevCursor;
use crate::rev_iter::{previous_index, put_head, start_at_end};
use crate::util::{Index, LAYERS, MAX_EID};

// The first member of a set. The masks below the top are empty, so the way down needs no test of them.
#[inline]
pub(crate) fn find_first<T: BitSetLike>(set: &T, reads: &mut Reads) -> Option<Index>
    ensures first { MatchOption result (HasNone MAX_EID (T.holds set.now))
        (IsFirst MAX_EID (T.holds set.now)) }
    ensures reads_max { SummariesExact LAYERS (T.word set.now)
        → reads.new.count ≤ reads.old.count + LAYERS }
{
    let mut cursor = root_cursor(set, reads);
    'looks: for look in 0..LAYERS - 2 {
        try_descend(set, &mut cursor, reads, LAYERS - 1 - look);
    }
    next_index(set, &mut cursor, reads)
}

// The last member of a set.
#[inline]
pub(crate) fn find_last<T: BitSetLike>(set: &T, reads: &mut Reads) -> Option<Index>
    ensures last { MatchOption result (HasNone MAX_EID (T.holds set.now))
        (IsLast MAX_EID (T.holds set.now)) }
    ensures reads_max { SummariesExact LAYERS (T.word set.now)
        → reads.new.count ≤ reads.old.count + LAYERS }
{
    let mut cursor = start_at_end(set, reads);
    previous_index(set, &mut cursor, reads)
}

// The last member before an index. It begins with the word of layer 0 over the index, and goes up until a word has a
// bit before the index.
fn find_last_before<T: BitSetLike>(set: &T, reads: &mut Reads, end: Index) -> Option<Index>
    requires { end < MAX_EID }
    ensures last { MatchOption result (HasNone end (T.holds set.now))
        (IsLast end (T.holds set.now)) }
    ensures reads_max { SummariesExact LAYERS (T.word set.now)
        → reads.new.count ≤ reads.old.count + 2 * LAYERS - 1 }
{
    'layers: for layer in 0..LAYERS {
        let mut cursor = RevCursor::<LAYERS>::empty();
        put_head(set, &mut cursor, reads, layer, end);
        if let Some(last) = previous_index(set, &mut cursor, reads) {
            return Some(last);
        }
    }
    None
}

// The last member before a number.
#[inline]
pub(crate) fn find_last_below<T: BitSetLike>(
    set: &T,
    reads: &mut Reads,
    end: Index,
) -> Option<Index>
    ensures last { MatchOption result (HasNone (min end MAX_EID) (T.holds set.now))
        (IsLast (min end MAX_EID) (T.holds set.now)) }
    ensures reads_max { SummariesExact LAYERS (T.word set.now)
        → reads.new.count ≤ reads.old.count + 2 * LAYERS - 1 }
{
    if end as usize >= MAX_EID {
        return find_last(set, reads);
    }
    find_last_before(set, reads, end)
}
