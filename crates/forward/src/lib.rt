//! The ten kinds of steps forward on lent memory, each by the call of the library that is named for
//! it.
#![tactic(auto)]

pub mod check;
pub mod step;
mod tables;
mod vectors;

pub use step::step_forward;
