//! Steps back on lent weights: each of the ten kinds by calls of the library, and a step of a script.
#![tactic(auto)]

pub mod check;
pub mod columns;
pub mod lists;
pub mod step;
pub mod tables;
pub mod vectors;

pub use step::step_back;
