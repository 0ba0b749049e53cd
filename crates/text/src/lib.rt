//! The text program: a text is read, its script is run forward and back in its ring, and what came of
//! it is written, in one call.
#![tactic(auto)]

mod lines;
mod program;
mod solution;
pub mod text;

pub use text::run_text;
