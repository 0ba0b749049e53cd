//! Steps on a table and its two vectors, forward and back: the mathematics of the ten kinds, and the
//! two laws that hold of every run of them. Nothing here touches memory.
#![tactic(auto)]

pub mod kind;
pub mod laws;

pub use kind::Kind;
pub use laws::{lanes_stay_apart, runs_are_transposed};
