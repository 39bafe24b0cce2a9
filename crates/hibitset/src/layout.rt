//! How the layers below the top lie in one vector, one behind the other.
ghost use Rattle.std.specs.Prelude.{◌≡◌, ℕ, ◌+◌, ◌-◌, ◌^◌, ◌<◌, ◌≤◌, List, get_or, length, vec_capacity, OnOk, OnErr, IsOk};
ghost use Rattle.hibitset_base.specs.declared.util.TheConstants.{LAYERS};
ghost use Rattle.hibitset.specs.Layout.{layer_start, room_of, count_of, AreStarts, AreLengths, AreMovedFrom, IsLayout};

use hibitset_base::util::{BITS, LAYERS};
use std::alloc::AllocError;

// How many words of layer 0 there is room for at least, where there is any.
const MIN_CAPACITY_WORDS: usize = 4;

// How many words of layer 0 there is room for at most.
const MAX_CAPACITY_WORDS: usize = 1 << (BITS * (LAYERS - 1));

// How many words each layer has over `len` words of layer 0.
pub(crate) fn lens_over(len: usize) -> [usize; LAYERS - 1]
    requires { len ≤ 64 ^ (LAYERS - 1) }
    ensures { AreLengths LAYERS result len }
{
    let mut lens = [0; LAYERS - 1];
    let mut words = len;
    let mut layer = 0;
    while layer < LAYERS - 1 {
        lens[layer] = words;
        words = (words + 63) / 64;
        layer += 1;
    }
    lens
}

// Where the layers begin in a vector with room for `room` words of layer 0, and where the last one ends.
pub(crate) fn starts_over(room: usize) -> ([usize; LAYERS - 1], usize)
    requires { room ≤ 64 ^ (LAYERS - 1) }
    ensures starts { AreStarts LAYERS result.0 room }
    ensures end { result.1 ≡ layer_start (LAYERS - 1) room }
{
    let mut starts = [0; LAYERS - 1];
    let mut at = 0;
    let mut words = room;
    let mut layer = 0;
    while layer < LAYERS - 1 {
        starts[layer] = at;
        at += words;
        words = (words + 63) / 64;
        layer += 1;
    }
    (starts, at)
}

// Room for `len` words of layer 0, and for as many as there is to be room for, where that is not too much.
pub(crate) fn next_capacity(capacity: usize, len: usize) -> usize
    requires { len ≤ 64 ^ (LAYERS - 1) }
    ensures enough { len ≤ result }
    ensures within { result ≤ 64 ^ (LAYERS - 1) }
{
    capacity
        .max(MIN_CAPACITY_WORDS)
        .min(MAX_CAPACITY_WORDS)
        .max(len)
}

// Lengthens a list by zero words. It allocates at most once, for no more than it needs; refused, nothing
// changes.
pub(crate) fn lengthen_to(words: &mut Vec<usize>, end: usize) -> Result<(), AllocError>
    requires { length words.old.items ≤ end }
    ensures same { (at : ℕ) → get_or words.new.items at 0 ≡ get_or words.old.items at 0 }
    ensures length { OnOk result (length words.new.items ≡ end) }
    ensures err { OnErr result (words.new.items ≡ words.old.items) }
    ensures succeeds { end ≤ vec_capacity words.old → IsOk result }
{
    words.reserve_exact(end - words.len())?;
    words.resize(end, 0)
}

// Makes the words from one place to another 0.
fn clear_range(words: &mut Vec<usize>, from: usize, to: usize)
    requires within { to ≤ length words.old.items }
    ensures length { length words.new.items ≡ length words.old.items }
    ensures inside { (at : ℕ) → from ≤ at → at < to → get_or words.new.items at 0 ≡ 0 }
    ensures before { (at : ℕ) → at < from
        → get_or words.new.items at 0 ≡ get_or words.old.items at 0 }
    ensures after { (at : ℕ) → from ≤ at → to ≤ at
        → get_or words.new.items at 0 ≡ get_or words.old.items at 0 }
{
    let mut at = from;
    while at < to {
        words[at] = 0;
        at += 1;
    }
}

// Moves `count` words from one place up to another, and makes 0 what they leave behind.
fn move_up(words: &mut Vec<usize>, from: usize, count: usize, to: usize)
    requires up { from ≤ to }
    requires within { to + count ≤ length words.old.items }
    ensures length { length words.new.items ≡ length words.old.items }
    ensures moved { (p : ℕ) → p < count
        → get_or words.new.items (to + p) 0 ≡ get_or words.old.items (from + p) 0 }
    ensures left { (at : ℕ) → from ≤ at → at < from + count → at < to
        → get_or words.new.items at 0 ≡ 0 }
    ensures same_before { (at : ℕ) → at < from
        → get_or words.new.items at 0 ≡ get_or words.old.items at 0 }
    ensures between { (at : ℕ) → from + count ≤ at → at < to
        → get_or words.new.items at 0 ≡ get_or words.old.items at 0 }
    ensures above { (at : ℕ) → to + count ≤ at
        → get_or words.new.items at 0 ≡ get_or words.old.items at 0 }
{
    if count == 0 {
        return;
    }
    words.copy_within(from..from + count, to);
    clear_range(words, from, to.min(from + count));
}

// Moves the layers to where they begin in more room, from the last one down, and makes 0 what they leave behind. Layer
// 0 begins at 0 and stays.
pub(crate) fn move_layers(
    words: &mut Vec<usize>,
    lens: [usize; LAYERS - 1],
    from: [usize; LAYERS - 1],
    to: [usize; LAYERS - 1],
)
    requires lens { AreLengths LAYERS lens (count_of lens) }
    requires from { AreStarts LAYERS from (room_of from) }
    requires to { AreStarts LAYERS to (room_of to) }
    requires fits { count_of lens ≤ room_of from }
    requires capacity_min { room_of from ≤ room_of to }
    requires length { length words.old.items ≡ layer_start (LAYERS - 1) (room_of to) }
    ensures { (old : List ℕ) (top : ℕ) → IsLayout LAYERS old (room_of from) (count_of lens) top
        → AreMovedFrom LAYERS lens from to (LAYERS - 1) old words.old.items
        → AreMovedFrom LAYERS lens from to 0 old words.new.items }
{
    let mut layer = LAYERS - 1;
    while layer > 1 {
        layer -= 1;
        let start = from[layer];
        let count = lens[layer];
        move_up(words, start, count, to[layer]);
    }
}
