//! A text of the text program read into memory: its ring, its shape, its cells and its script.
#![tactic(auto)]

mod forms;
mod lines;
pub mod program;

pub use lines::read;
pub use program::{Fault, Program, Ring};
