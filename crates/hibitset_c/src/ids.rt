//! Calls on ids of 64 bits, which are a shard's number above an index of the shard.
#![tactic(auto)]

ghost use Rattle.std.specs.Prelude.{◌≡◌, ◌+◌, ◌-◌, ◌/◌, ◌%◌, ◌^◌, ◌<◌, ◌≤◌, length, map, min, take};
ghost use Rattle.hibitset_base.specs.Members.{members};
ghost use Rattle.hibitset_base.specs.declared.util.TheConstants.{MAX_EID};
ghost use Rattle.hibitset_c.specs.Buffer.{Fills};
ghost use Rattle.hibitset_c.specs.LentSet.{has};
ghost use Rattle.hibitset_c.specs.declared.ids.TheConstants.{MAX_BITS};

use crate::fill::fill_above;
use crate::lent_set::LentSet;

/// Base two logarithm of `MAX_EID`.
pub const MAX_BITS: u32 = 30;

/// Writes the members from `start` on into the buffer as `hibitset_next_many` does, each plus `base`, modulo 2^64.
/// Returns how many.
#[unsafe(no_mangle)]
pub extern "C" fn hibitset_next_many_u64(
    set: &LentSet<'_>,
    start: u32,
    base: u64,
    buffer: &mut [u64],
) -> usize
    ensures { Fills (map (λ i. (base + i) % 2 ^ 64) (members (has set.now) start (MAX_EID - start)))
        buffer.old result buffer.new }
{
    fill_above(*set, start, base, buffer)
}

// The shard of an id, or `shards` if it lies past the last one.
#[inline]
fn shard_of(id: u64, bits: u32, shards: u32) -> u32
    requires { bits ≤ MAX_BITS }
    ensures { result ≡ min (id / 2 ^ bits) shards }
{
    (id >> bits).min(u64::from(shards)) as u32
}

// The index of an id in its shard.
#[inline]
fn index_of(id: u64, bits: u32) -> u32
    requires { bits ≤ MAX_BITS }
    ensures { result ≡ id % 2 ^ bits }
{
    (id % (1 << bits)) as u32
}

/// Writes of each id of a list its shard, the number above its low `bits` bits, and its index there, which these are,
/// until a buffer is full or there are no more. An id past the last shard has `shards` as its shard. Returns how many
/// were written, none if there are more than 30 bits.
#[unsafe(no_mangle)]
pub extern "C" fn hibitset_split_ids(
    ids: &[u64],
    bits: u32,
    shards: u32,
    highs: &mut [u32],
    lows: &mut [u32],
) -> usize
    ensures count { bits ≤ MAX_BITS → result ≡ min (length ids.now)
        (min (length highs.old) (length lows.old)) }
    ensures refuses { MAX_BITS < bits → result ≡ 0 }
    ensures highs { Fills (map (λ id. min (id / 2 ^ bits) shards) (take result ids.now)) highs.old
        result highs.new }
    ensures lows { Fills (map (λ id. id % 2 ^ bits) (take result ids.now)) lows.old result
        lows.new }
{
    if bits > MAX_BITS {
        return 0;
    }
    let count = ids.len().min(highs.len()).min(lows.len());
    for slot in 0..count {
        highs[slot] = shard_of(ids[slot], bits, shards);
        lows[slot] = index_of(ids[slot], bits);
    }
    count
}
