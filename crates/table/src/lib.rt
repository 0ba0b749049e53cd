//! Calls on whole tables, over any scalar. Every source broadcasts where its lanes go into the
//! destination's; row and column counts must agree, and a refusal writes nothing. The elementwise
//! calls are those on vectors, which take a table's shape as their operand.
#![tactic(auto)]

mod check;
pub mod columns;
pub mod combine;
pub mod reshape;

pub use columns::{add_column_to_vector, add_columns_to_batched_vector, set_column};
pub use combine::scale_add_and_assign;
pub use index::cells::{gather, set_data_with_indices};
pub use reshape::{from_diagonal, resize_cols};
pub use vector::{add_assign, copy_from, fill, mul_assign, sub_assign, sub_into};
