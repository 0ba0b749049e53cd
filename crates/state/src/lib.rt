//! The memory of a state, or of its weights: a table and two vectors of its rows and lanes, each in
//! a slice of its own, and what a lane of it is. And a script of steps on it.
#![tactic(auto)]

pub mod parts;
pub mod record;

pub use parts::Parts;
pub use record::{Script, StepRecord};
