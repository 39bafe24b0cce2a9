//! Numbers in bytes, the lowest byte first.

ghost use Rattle.std.specs.Prelude.{◌≡◌, ◌+◌, ◌<◌, ◌≤◌, ◌^◌, get_or, length};
ghost use Rattle.hibitset_roaring.specs.Numbers.{u16_at, u32_at, u64_at};
ghost use Rattle.hibitset_roaring.specs.Streams.{SameBefore};

// The number of two bytes.
#[inline]
#[tactic(auto, unfolding(crate::specs::Numbers::u16_at))]
pub(crate) fn read_u16(bytes: &[u8], at: usize) -> usize
    requires { at + 2 ≤ length bytes.now }
    ensures number { result ≡ u16_at bytes.now at }
    ensures in_range { result < 65536 }
{
    u16::from_le_bytes([bytes[at], bytes[at + 1]]) as usize
}

// The number of four bytes.
#[inline]
#[tactic(auto, unfolding(crate::specs::Numbers::u16_at, crate::specs::Numbers::u32_at))]
pub(crate) fn read_u32(bytes: &[u8], at: usize) -> usize
    requires { at + 4 ≤ length bytes.now }
    ensures number { result ≡ u32_at bytes.now at }
    ensures in_range { result < 2 ^ 32 }
{
    u32::from_le_bytes([bytes[at], bytes[at + 1], bytes[at + 2], bytes[at + 3]]) as usize
}

// The number of eight bytes.
#[inline]
#[tactic(auto, unfolding(crate::specs::Numbers::u16_at, crate::specs::Numbers::u32_at, crate::specs::Numbers::u64_at))]
pub(crate) fn read_u64(bytes: &[u8], at: usize) -> usize
    requires { at + 8 ≤ length bytes.now }
    ensures { result ≡ u64_at bytes.now at }
{
    // One look at the length serves all eight bytes.
    let bytes = &bytes[at..at + 8];
    usize::from_le_bytes([
        bytes[0], bytes[1], bytes[2], bytes[3], bytes[4], bytes[5], bytes[6], bytes[7],
    ])
}

// Writes a number in a byte.
#[inline]
pub(crate) fn put_u8(out: &mut [u8], at: usize, number: usize)
    requires long_enough { at < length out.old }
    requires in_range { number < 256 }
    ensures here { get_or out.new at 0 ≡ number }
    ensures before { SameBefore at out.old out.new }
{
    out[at] = number as u8;
}

// Writes a number in two bytes.
#[inline]
#[tactic(auto, unfolding(crate::specs::Numbers::u16_at))]
pub(crate) fn put_u16(out: &mut [u8], at: usize, number: usize)
    requires long_enough { at + 2 ≤ length out.old }
    requires in_range { number < 65536 }
    ensures here { u16_at out.new at ≡ number }
    ensures before { SameBefore at out.old out.new }
{
    out[at] = (number % 256) as u8;
    out[at + 1] = (number / 256) as u8;
}

// Writes a number in four bytes.
#[inline]
pub(crate) fn put_u32(out: &mut [u8], at: usize, number: usize)
    requires long_enough { at + 4 ≤ length out.old }
    requires in_range { number < 2 ^ 32 }
    ensures here { u32_at out.new at ≡ number }
    ensures before { SameBefore at out.old out.new }
{
    put_u16(out, at, number % 65536);
    put_u16(out, at + 2, number / 65536);
}

// Writes a number in eight bytes.
#[inline]
pub(crate) fn put_u64(out: &mut [u8], at: usize, number: usize)
    requires long_enough { at + 8 ≤ length out.old }
    ensures here { u64_at out.new at ≡ number }
    ensures before { SameBefore at out.old out.new }
{
    // One look at the length serves all eight bytes.
    let place = &mut out[at..at + 8];
    put_u32(place, 0, number % 4294967296);
    put_u32(place, 4, number / 4294967296);
}
