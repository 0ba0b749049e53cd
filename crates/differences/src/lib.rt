//! Calls on the first columns of a table of backward differences, over any scalar: their product by
//! a small matrix, the update of the differences, and the transposes of both.
#![tactic(auto)]

mod matrix;
pub mod multiply;
mod tile;
mod total;
pub mod transpose;
pub mod update;

pub use multiply::{mul_cols_by, mul_cols_by_transpose};
pub use transpose::update_backward_diff_transpose;
pub use update::update_backward_diff;
