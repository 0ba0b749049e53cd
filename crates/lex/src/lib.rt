//! The parts of a text: its lines, their fields, and the numbers that fields spell.
#![tactic(auto)]

pub mod fields;
pub mod numbers;

pub use fields::{Field, bytes_before, read_fields};
