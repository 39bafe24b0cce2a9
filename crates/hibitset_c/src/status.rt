//! What a call returns that can fail.

/// It is done; of an addition of one index, it was not a member before.
pub const OK: u32 = 0;

/// The index was a member before.
pub const PRESENT: u32 = 1;

/// An allocation failed. The call says what it leaves.
pub const NO_MEMORY: u32 = 2;

/// An index or a length is out of range. The call says what it leaves.
pub const OUT_OF_RANGE: u32 = 3;

/// Of a shared set: another seat has it still, and nothing was changed.
pub const SHARED: u32 = 4;

/// The seat has one share of its set, and can't be divided.
pub const ONE_SHARE: u32 = 5;

/// There is no seat.
pub const NO_SEAT: u32 = 6;

/// The buffer is shorter than what would be written, and is left as it was.
pub const SHORT_BUFFER: u32 = 7;

/// The bytes are no stream, or one with members out of range. The call says what is wrong, and where.
pub const MALFORMED: u32 = 8;
