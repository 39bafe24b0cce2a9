//! Callers of `hibitset`, each with a contract of its own that is proved from the public contracts alone.
#![tactic(auto)]

pub mod budget;
pub mod filter;
pub mod ids;
pub mod lists;
pub mod marks;
pub mod nested;
pub mod pages;
pub mod ready;
pub mod results;
pub mod room;
pub mod seen;
pub mod shared_ids;
pub mod walks;
pub mod weights;
pub mod workers;
