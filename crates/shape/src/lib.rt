//! Shapes beside lent memory: where a cell lies, which lane a lane reads, and why a call refuses.
#![tactic(auto)]

pub mod check;
pub mod lanes;
pub mod operand;
pub mod refusal;

pub use operand::{Band, Column, TableShape};
pub use refusal::Refusal;
