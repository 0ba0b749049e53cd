//! Calls on vectors and on columns of tables, over any scalar. Each call is the elementwise
//! mechanism with a rule of its own; every source broadcasts, and a refusal writes nothing.
#![tactic(auto)]

pub mod arithmetic;
pub mod batch;
pub mod combine;
pub mod store;

pub use arithmetic::{
    add_assign, component_div_assign, component_mul_assign, div_assign, mul_assign, sub_assign,
    sub_into,
};
pub use batch::batched_axpy;
pub use combine::{axpy, gain};
pub use store::{copy_from, fill};
