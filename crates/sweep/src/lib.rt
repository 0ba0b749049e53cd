//! A sweep: steps of a script taken forward on a state, then carried back on weights, latest first.
//! The shape and the counts are kept here; memory is lent at each call.
#![tactic(auto)]

pub mod fault;
pub mod script;
pub mod sweep;

pub use fault::{StepFault, without_place};
pub use script::{laws_of_runs, run_script};
pub use sweep::{Sweep, Turned};
