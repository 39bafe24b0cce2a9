//! Indices and the layers of both sets: how many there are, and where in them an index lies.
pub use hibitset_atomic::ATOMIC_MAX_EID;
pub use hibitset_base::util::{
    BITS, Index, LAYERS, MAX, MAX_EID, Row, SHIFT0, SHIFT1, SHIFT2, SHIFT3, SHIFT4, average_ones,
    offsets,
};
