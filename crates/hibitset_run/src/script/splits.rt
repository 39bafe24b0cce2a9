//! The command that splits a set into parts.
ghost use Rattle.std.specs.Prelude.{◌≡◌};
ghost use Rattle.hibitset_run.specs.Script.{IsStep, answer_of, sets_of};
ghost use Rattle.hibitset_run.specs.Parts.{MaySplit, parts_of};

use super::{Command, Layers, Reply, Slot};
use hibitset::laws::laws;
use hibitset::{BitSet, BitSetLike};
use hibitset_base::BitProducer;

// Tells how many parts a set has that split no further.
pub(super) fn split(sets: &[BitSet; 8], slot: Slot, layers: Layers) -> Reply
    ensures { IsStep (Command.Split slot layers) (sets_of sets.now) (answer_of result)
        (sets_of sets.now) }
{
    let set = &sets[slot.number()];
    Reply::Count(count_parts(BitProducer(set.iter(), layers.number())))
}

// Splits a part until nothing of it splits further, and counts what there is then. Each split halves the bits of a
// word, so it goes at most 6 calls deep for each layer that is looked at.
fn count_parts(part: BitProducer<BitSet>) -> usize
    requires { MaySplit part }
    ensures { result ≡ parts_of part.entry }
{
    // Summaries are exact, so that no part is empty.
    laws();
    let (lower, higher) = part.split();
    match higher {
        None => 1,
        Some(higher) => count_parts(lower) + count_parts(higher),
    }
}
