//! Scripts on memory of whole numbers, run forward and back in an exact ring.
#![tactic(auto)]

pub mod entry;
pub mod rings;
pub mod run;
pub mod task;

pub use entry::Entry;
pub use task::Task;
