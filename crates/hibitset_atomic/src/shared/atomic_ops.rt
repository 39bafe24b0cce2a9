//! The single steps of the calls on a shared set: each reads or writes one word.
ghost use Rattle.std.specs.Prelude.{◌≡◌, ℕ, ◌+◌, ◌-◌, ◌*◌, ◌/◌, ◌%◌, ◌^◌, ◌<◌, ◌≤◌, true, false, [], ◌∷◌, length};
ghost use Rattle.std.specs.Int.{bit_at};
ghost use Rattle.hibitset_atomic.specs.Lists.{Has};
ghost use Rattle.hibitset_atomic.specs.Levels.{first_mark};
ghost use Rattle.hibitset_atomic.specs.Rule.{AllReportsKnown, Grew, Gap, Knows, IsSet, LoadAt, SparesSharedBit};
ghost use Rattle.hibitset_atomic.specs.declared.layers.TheConstants.{ATOMIC_LAYERS};
ghost use Rattle.hibitset_atomic.specs.declared.atomic.TheConstants.{ATOMIC_MAX_EID};
ghost use Rattle.hibitset_atomic.specs.declared.shared.layout.TheConstants.{ROW_WORDS};

use crate::atomic::ATOMIC_MAX_EID;
use crate::layers::ATOMIC_LAYERS;
use crate::shared::layout::{LAYER1_START, LAYER2_START, LAYER3_START};
use crate::shared::rule::{FetchOrLayer0, FetchOrSummary, Load};
use crate::shared::types::{SharedBitSet, TableSeat};
use crate::steps::bit_over;
use hibitset_base::util::Index;

// Where a layer begins in the row of all words.
#[inline]
pub(crate) fn first_word(layer: usize) -> usize
    requires { layer < 4 }
    ensures { result ≡ first_mark layer / 64 }
{
    match layer {
        0 => 0,
        1 => LAYER1_START,
        2 => LAYER2_START,
        _ => LAYER3_START,
    }
}

// The mark of the bit that an addition of an index sets in a layer, at its place of `path`.
#[inline]
pub(crate) fn mark_of(id: Index, layer: usize) -> u32
    requires id { id < ATOMIC_MAX_EID }
    requires layer { layer < ATOMIC_LAYERS }
    ensures mark { result ≡ first_mark layer + id / 64 ^ layer }
    ensures within { result < 64 * ROW_WORDS }
{
    let (place, bit) = bit_over(id, layer);
    ((first_word(layer) + place) * 64) as u32 + bit
}

impl SharedBitSet {
    // The exchange at layer 0.
    #[inline]
    pub(crate) fn fetch_or_layer0(&self, pass: &mut TableSeat, id: u32) -> bool
        requires same_table { pass.old.table_id ≡ self.now.table.shared.table_id }
        requires seat { (0 < length pass.old.me.0.shares) × AllReportsKnown pass.old.me.0 }
        requires id { id < ATOMIC_MAX_EID }
        ensures same { (pass.new.table_id ≡ pass.old.table_id) × (pass.new.id ≡ pass.old.id)
            × Grew pass.old.me pass.new.me × Has pass.new.me.0.seen id }
        ensures no_report { result ≡ true → pass.new.me.0.reports ≡ pass.old.me.0.reports }
        ensures new { result ≡ false → (pass.new.me.0.reports ≡ id ∷ pass.old.me.0.reports)
            × ¬ IsSet pass.old.me.0.old id × ¬ Has pass.old.me.0.seen id }
        ensures counts { (pass.new.me.0.loads ≡ pass.old.me.0.loads)
            × (pass.new.me.0.exchanges ≡ pass.old.me.0.exchanges + 1) }
    {
        let found = self
            .table
            .shared
            .fetch_or::<FetchOrLayer0>(pass, (id / 64) as usize, 1 << (id % 64));
        (found >> (id % 64)) & 1 != 0
    }

    // The exchange at a layer above 0, after that of the layer below.
    #[inline]
    fn fetch_or_summary(&self, pass: &mut TableSeat, id: Index, layer: usize)
        requires same_table { pass.old.table_id ≡ self.now.table.shared.table_id }
        requires id { id < ATOMIC_MAX_EID }
        requires layer { layer + 1 < ATOMIC_LAYERS }
        requires seen_below { Has pass.old.me.0.seen (first_mark layer + id / 64 ^ layer) }
        ensures same { (pass.new.table_id ≡ pass.old.table_id) × (pass.new.id ≡ pass.old.id)
            × Grew pass.old.me pass.new.me × (pass.new.me.0.reports ≡ pass.old.me.0.reports) }
        ensures mark { Has pass.new.me.0.seen (first_mark (layer + 1) + id / 64 ^ (layer + 1)) }
        ensures counts { (pass.new.me.0.loads ≡ pass.old.me.0.loads)
            × (pass.new.me.0.exchanges ≡ pass.old.me.0.exchanges + 1) }
    {
        let mark = mark_of(id, layer + 1);
        self.table
            .shared
            .fetch_or::<FetchOrSummary>(pass, (mark / 64) as usize, 1 << (mark % 64));
    }

    // Ensures that the bit at a layer above 0 is set, after that of the layer below: reads it, and exchanges where it
    // does not stand yet, so that threads whose indices lie under one word don't contend for it.
    #[inline]
    pub(crate) fn set_summary(&self, pass: &mut TableSeat, id: Index, layer: usize)
        requires same_table { pass.old.table_id ≡ self.now.table.shared.table_id }
        requires seat { 0 < length pass.old.me.0.shares }
        requires id { id < ATOMIC_MAX_EID }
        requires layer { layer + 1 < ATOMIC_LAYERS }
        requires seen_below { Has pass.old.me.0.seen (first_mark layer + id / 64 ^ layer) }
        ensures same { (pass.new.table_id ≡ pass.old.table_id) × (pass.new.id ≡ pass.old.id)
            × Grew pass.old.me pass.new.me × (pass.new.me.0.reports ≡ pass.old.me.0.reports) }
        ensures mark { Has pass.new.me.0.seen (first_mark (layer + 1) + id / 64 ^ (layer + 1)) }
        ensures counts { (pass.new.me.0.loads ≡ pass.old.me.0.loads + 1)
            × (pass.new.me.0.exchanges ≤ pass.old.me.0.exchanges + 1) }
        ensures spared { SparesSharedBit (layer + 1) id pass.old.me.0 pass.new.me.0 }
    {
        if !self.load_bit(pass, mark_of(id, layer + 1)) {
            self.fetch_or_summary(pass, id, layer);
        }
    }

    #[inline]
    pub(crate) fn load(&self, pass: &mut TableSeat, place: usize) -> u64
        requires same_table { pass.old.table_id ≡ self.now.table.shared.table_id }
        requires seat { 0 < length pass.old.me.0.shares }
        requires in_range { place < ROW_WORDS }
        ensures same { (pass.new.table_id ≡ pass.old.table_id) × (pass.new.id ≡ pass.old.id) }
        ensures found { LoadAt place pass.old.me result pass.new.me }
        ensures counts { (pass.new.me.0.loads ≡ pass.old.me.0.loads + 1)
            × (pass.new.me.0.exchanges ≡ pass.old.me.0.exchanges) }
    {
        self.table.shared.load::<Load>(pass, place)
    }

    #[inline]
    pub(crate) fn load_bit(&self, pass: &mut TableSeat, mark: u32) -> bool
        requires same_table { pass.old.table_id ≡ self.now.table.shared.table_id }
        requires seat { 0 < length pass.old.me.0.shares }
        requires mark { mark < 64 * ROW_WORDS }
        ensures same { (pass.new.table_id ≡ pass.old.table_id) × (pass.new.id ≡ pass.old.id)
            × Grew pass.old.me pass.new.me × (pass.new.me.0.reports ≡ pass.old.me.0.reports) }
        ensures stands { result ≡ true → Has pass.new.me.0.seen mark }
        ensures gap { result ≡ false → Gap pass.new.me.0 mark }
        ensures counts { (pass.new.me.0.loads ≡ pass.old.me.0.loads + 1)
            × (pass.new.me.0.exchanges ≡ pass.old.me.0.exchanges) }
    {
        let word = self.load(pass, (mark / 64) as usize);
        (word >> (mark % 64)) & 1 != 0
    }

    // The word of a layer at a position. Under a summary bit that the seat has seen it is not zero, and it has each bit
    // over an old or known index.
    #[inline]
    pub(crate) fn load_word(&self, pass: &mut TableSeat, layer: usize, position: u32) -> u64
        requires same_table { pass.old.table_id ≡ self.now.table.shared.table_id }
        requires seat { 0 < length pass.old.me.0.shares }
        requires layer { layer < 4 }
        requires position { position < 64 ^ (3 - layer) }
        ensures same { (pass.new.table_id ≡ pass.old.table_id) × (pass.new.id ≡ pass.old.id)
            × Grew pass.old.me pass.new.me × (pass.new.me.0.reports ≡ pass.old.me.0.reports) }
        ensures nonzero { Has pass.old.me.0.seen (first_mark (layer + 1) + position) → 0 < result }
        ensures seen { (b : ℕ) → b < 64 → bit_at result b ≡ 1
            → Has pass.new.me.0.seen (first_mark layer + (64 * position + b)) }
        ensures known { (i : ℕ) → Knows pass.old.me.0 i → i / 64 ^ (layer + 1) ≡ position
            → bit_at result (i / 64 ^ layer % 64) ≡ 1 }
        ensures old { (i : ℕ) → i < ATOMIC_MAX_EID → IsSet pass.old.me.0.old i
            → i / 64 ^ (layer + 1) ≡ position → bit_at result (i / 64 ^ layer % 64) ≡ 1 }
        ensures counts { (pass.new.me.0.loads ≡ pass.old.me.0.loads + 1)
            × (pass.new.me.0.exchanges ≡ pass.old.me.0.exchanges) }
    {
        self.load(pass, first_word(layer) + position as usize)
    }
}
