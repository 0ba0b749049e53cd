//! Matrix-vector calls over any scalar: a table's columns summed into a column, and the outer
//! product that columns gain. Sources broadcast, and a refusal writes nothing.
#![tactic(auto)]

mod check;
mod gains;
pub mod multiply;
pub mod outer;
mod runs;
mod sums;

pub use multiply::{gemv, gemv_cols};
pub use outer::ger_cols;
