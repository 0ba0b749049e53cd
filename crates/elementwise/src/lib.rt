//! The one mechanism of all elementwise calls: a rule says what an entry becomes, and the engine
//! carries it through rows, columns and lanes, over any element type and with broadcast.
#![tactic(auto)]

pub mod operand;
mod revised;
pub mod rules;
mod zipped;

pub use operand::Operand;
pub use rules::{Fill, Replace, Revision, Rule};
