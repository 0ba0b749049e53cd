//! The C interface: thirteen of the library's calls on numbers and slices, in f64 and in f32. Each
//! tests what it is handed and answers a number; nothing is required of a C caller but sound pointers.
#![tactic(auto)]

pub mod double;
mod operand;
pub mod single;
