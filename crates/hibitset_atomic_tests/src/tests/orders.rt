//! Every order in which the steps of two additions and the reads of a walk take turns, beside a model that keeps words
//! of its own.
//!
//! Both calls begin before all turns, and the walk opens right before its first read: these events touch no word, so
//! where they stand changes no answer.
use hibitset_atomic::{AtomicBitSet, Event, Reply, StepError, World};
use hibitset_base::{BitSetLike, Index};
use std::alloc::{AllocError, Global};
use std::process::Abort;

// Whose turn it is.
#[derive(Clone, Copy, Debug, Drop, PartialEq)]
enum Player {
    FirstCall,
    SecondCall,
    Walk,
}

use Player::{FirstCall, SecondCall, Walk};

impl Player {
    // Players in the manner of a dictionary.
    fn rank(self) -> u8 {
        match self {
            FirstCall => 0,
            SecondCall => 1,
            Walk => 2,
        }
    }

    fn event(self) -> Event {
        match self {
            FirstCall => Event::Step { call: 0 },
            SecondCall => Event::Step { call: 1 },
            Walk => Event::Read { walk: 0 },
        }
    }
}

// In what a world and the model differ.
#[derive(Debug, Drop, PartialEq)]
enum Difference {
    Beginning,
    Answer,
    Items,
    // the walk missed an index whose call had ended before it was opened
    Missing,
    Unrest,
    Words,
}

// An order of turns, and what differs in it.
#[derive(Debug, Drop, PartialEq)]
struct Failing {
    order: Vec<Player>,
    by: Difference,
}

// The words of four layers. Two words a layer are in use: the one at position 0, and one other.
#[derive(Drop)]
struct Words {
    words: [usize; 8],
}

// Where a word is kept.
fn slot(layer: u8, position: u32) -> usize {
    let other = if position == 0 { 0 } else { 1 };
    2 * layer as usize + other
}

impl Words {
    fn word(&self, layer: u8, position: u32) -> usize {
        self.words.get(slot(layer, position)).copied().unwrap_or(0)
    }

    // Sets a bit of a layer, and returns its word as it was.
    fn fetch_or(&mut self, layer: u8, bit: u32) -> usize {
        match self.words.get_mut(slot(layer, bit / 64)) {
            None => 0,
            Some(word) => {
                let before = *word;
                *word = before | (1 << (bit % 64));
                before
            }
        }
    }
}

// A call: its index, and how many layers it has passed.
#[derive(Drop)]
struct Adding {
    id: Index,
    passed: u8,
}

impl Adding {
    fn new(id: Index) -> Adding {
        Adding { id, passed: 0 }
    }

    fn step(&mut self, words: &mut Words) -> Result<Reply, StepError> {
        let layer = self.passed;
        if layer >= 4 {
            return Err(StepError::Ended);
        }
        let mut bit = self.id;
        for _ in 0..layer {
            bit /= 64;
        }
        let before = words.fetch_or(layer, bit);
        self.passed = layer + 1;
        if layer == 0 {
            return Ok(Reply::First {
                there: (before >> (bit % 64)) & 1 == 1,
            });
        }
        Ok(Reply::Path { left: 3 - layer })
    }
}

// A walk: the layers and positions of the words that it has still to read, in any order, and its items.
#[derive(Drop)]
struct Walking {
    left: Vec<(u8, u32)>,
    items: Vec<Index>,
}

impl Walking {
    // Reads the word that lies first in the lowest layer.
    fn read(&mut self, words: &Words) -> Result<Result<Reply, StepError>, AllocError> {
        let Some((layer, position)) = self.left.iter().copied().min() else {
            return Ok(Err(StepError::Ended));
        };
        self.left.retain(|place| *place != (layer, position));
        let word = words.word(layer, position);
        let mut rest = word;
        for _ in 0..word.count_ones() {
            let bit = position.wrapping_mul(64) | rest.trailing_zeros();
            rest &= rest.wrapping_sub(1);
            if layer == 0 {
                self.items.push(bit)?;
            } else {
                self.left.push((layer - 1, bit))?;
            }
        }
        Ok(Ok(Reply::Word {
            word,
            ended: self.left.is_empty(),
        }))
    }
}

// What a world of the calls 0 and 1 and the walk 0 has to answer.
#[derive(Drop)]
struct Model {
    words: Words,
    calls: (Adding, Adding),
    walk: Walking,
}

impl Model {
    fn new(alloc: Global, ids: (Index, Index)) -> Result<Model, AllocError> {
        Ok(Model {
            words: Words { words: [0; 8] },
            calls: (Adding::new(ids.0), Adding::new(ids.1)),
            walk: Walking {
                left: vec![in alloc; (3, 0)]?,
                items: Vec::new(alloc),
            },
        })
    }

    // What the next turn answers.
    fn turn(&mut self, player: Player) -> Result<Result<Reply, StepError>, AllocError> {
        match player {
            FirstCall => Ok(self.calls.0.step(&mut self.words)),
            SecondCall => Ok(self.calls.1.step(&mut self.words)),
            Walk => self.walk.read(&self.words),
        }
    }
}

// Whether the walk, where it has ended, has each of these indices.
fn misses_none(model: &Model, due: &[Index]) -> bool {
    !model.walk.left.is_empty() || due.iter().all(|id| model.walk.items.contains(id))
}

// The indices whose calls have ended.
fn ended(alloc: Global, model: &Model) -> Result<Vec<Index>, AllocError> {
    let mut due = Vec::new(alloc);
    for call in [&model.calls.0, &model.calls.1] {
        if call.passed == 4 {
            due.push(call.id)?;
        }
    }
    Ok(due)
}

// Whether a world answers an event so.
fn answers(world: &mut World, event: Event, wanted: Result<Reply, StepError>) -> bool {
    world.apply(event) == wanted
}

// Plays one order of turns, the walk opened right before its first, and returns the model after it, or in what the
// world differed from it.
fn play(
    alloc: Global,
    world: &mut World,
    ids: (Index, Index),
    turns: &[Player],
) -> Result<Result<Model, Difference>, AllocError> {
    let mut model = Model::new(alloc, ids)?;
    let mut due = Vec::new(alloc);
    let mut is_open = false;
    for (call, id) in [(0, ids.0), (1, ids.1)] {
        if !answers(world, Event::Begin { call, id }, Ok(Reply::Begun)) {
            return Ok(Err(Difference::Beginning));
        }
    }
    for player in turns {
        if *player == Walk && !is_open {
            is_open = true;
            if !answers(world, Event::Open { walk: 0 }, Ok(Reply::Opened)) {
                return Ok(Err(Difference::Beginning));
            }
            due = ended(alloc, &model)?;
        }
        let wanted = model.turn(*player)?;
        if !answers(world, player.event(), wanted) {
            return Ok(Err(Difference::Answer));
        }
    }
    if world.items(0) != Some(model.walk.items.as_slice()) {
        return Ok(Err(Difference::Items));
    }
    if !misses_none(&model, &due) {
        return Ok(Err(Difference::Missing));
    }
    Ok(Ok(model))
}

// Whether the set has the model's words.
fn has_words(set: &AtomicBitSet, words: &Words, other: Index) -> bool {
    let found = [
        set.layer4(),
        set.layer3(0),
        set.layer2(0),
        set.layer1(0),
        set.layer1(other as usize / 4096),
        set.layer0(0),
        set.layer0(other as usize / 64),
    ];
    let wanted = [
        usize::from(words.word(3, 0) != 0),
        words.word(3, 0),
        words.word(2, 0),
        words.word(1, 0),
        words.word(1, other / 4096),
        words.word(0, 0),
        words.word(0, other / 64),
    ];
    found == wanted
}

// Puts the turns into the next order in the manner of a dictionary; false where this is the last.
fn next_order(turns: &mut [Player]) -> bool {
    let mut last = 0;
    for place in 1..turns.len() {
        if turns[place - 1].rank() < turns[place].rank() {
            last = place;
        }
    }
    if last == 0 || last >= turns.len() {
        return false;
    }
    let before = turns[last - 1];
    let mut larger = last;
    for place in last..turns.len() {
        if turns[place].rank() > before.rank() {
            larger = place;
        }
    }
    if larger < turns.len() {
        turns.swap(last - 1, larger);
    }
    turns[last..].reverse();
    true
}

// Plays one order from a set that is empty and is so again afterwards. It answers the set, or in what the world
// differed from the model.
fn play_from(
    set: AtomicBitSet,
    alloc: Global,
    ids: (Index, Index),
    turns: &[Player],
) -> Result<Result<AtomicBitSet, Difference>, AllocError> {
    let mut world = World::new(alloc, set);
    let model = match play(alloc, &mut world, ids, turns)? {
        Ok(model) => model,
        Err(by) => return Ok(Err(by)),
    };
    if !world.is_at_rest() {
        return Ok(Err(Difference::Unrest));
    }
    let mut set = world.settle();
    if !has_words(&set, &model.words, ids.1) {
        return Ok(Err(Difference::Words));
    }
    set.clear();
    Ok(Ok(set))
}

// Plays the opening turns and then every order of the others, and returns how many orders there are, or the first in
// which the world differs from the model.
fn play_all(
    alloc: Global,
    ids: (Index, Index),
    opening: &[Player],
    turns: &mut [Player],
) -> Result<Result<u32, Failing>, AllocError> {
    let mut set = AtomicBitSet::new(alloc)?;
    let mut orders = 0;
    for played in 1..1_000_000 {
        let mut order = Vec::new(alloc);
        order.extend_from_slice(opening)?;
        order.extend_from_slice(turns)?;
        set = match play_from(set, alloc, ids, &order)? {
            Ok(set) => set,
            Err(by) => return Ok(Err(Failing { order, by })),
        };
        orders = played;
        if !next_order(turns) {
            break;
        }
    }
    Ok(Ok(orders))
}

// Sees that so many orders were played, and that nothing differed.
fn assert_played(rt: &impl Abort, played: Result<u32, Failing>, orders: u32) {
    assert_eq!(rt; played, Ok(orders));
}

// Every order of the four steps of each of two calls on two indices of one word and four reads of a walk: 12! / (4! 4!
// 4!).
#[test]
fn of_one_word(rt: HostRuntime) -> Result<(), AllocError> {
    let mut turns = [
        FirstCall, FirstCall, FirstCall, FirstCall, SecondCall, SecondCall, SecondCall, SecondCall,
        Walk, Walk, Walk, Walk,
    ];
    let played = play_all(rt.alloc(), (5, 6), &[], &mut turns)?;
    assert_played(&rt, played, 34_650);
    Ok(())
}

// The same for one index, where a step comes first, and is the first call's: of the orders left out, some only change
// the names of the calls, and in the others the walk reads an empty top word and has ended. 11! / (3! 4! 4!).
#[test]
fn of_the_same_index(rt: HostRuntime) -> Result<(), AllocError> {
    let mut turns = [
        FirstCall, FirstCall, FirstCall, SecondCall, SecondCall, SecondCall, SecondCall, Walk,
        Walk, Walk, Walk,
    ];
    let played = play_all(rt.alloc(), (5, 5), &[FirstCall], &mut turns)?;
    assert_played(&rt, played, 11_550);
    Ok(())
}

// Two indices of different blocks, where a walk that finds both makes six reads. The first two steps of each come
// first: they set bits of words of their own, to which no walk comes before the third. 10! / (2! 2! 6!).
#[test]
fn of_different_blocks(rt: HostRuntime) -> Result<(), AllocError> {
    let mut turns = [
        FirstCall, FirstCall, SecondCall, SecondCall, Walk, Walk, Walk, Walk, Walk, Walk,
    ];
    let opening = [FirstCall, SecondCall, FirstCall, SecondCall];
    let played = play_all(rt.alloc(), (5, 4096), &opening, &mut turns)?;
    assert_played(&rt, played, 1_260);
    Ok(())
}
