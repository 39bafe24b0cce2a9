//! Columns of values by index over the sets of `hibitset`, and what two of them have in common.
#![tactic(auto)]

pub mod columns;
pub mod joins;
mod pages;
pub mod walks;

pub use columns::Column;
pub use joins::{join, join_masked};
pub use pages::PAGE;
pub use walks::{Iter, Join, JoinMasked};
