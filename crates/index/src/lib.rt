//! Calls on lists of rows: gather, scatter and their kin. Row counts need not agree; every index
//! is tested before the first write. Module `cells` has those on tables.
#![tactic(auto)]

mod cell_check;
pub mod cells;
mod check;
mod lanes;
pub mod route;
pub mod rows;
mod runs;
pub mod transposes;

pub use check::has_outside;
pub use rows::{assign_at_indices, copy_from_indices, fill_index, gather, scatter};
pub use transposes::{gather_transpose, scatter_transpose};
