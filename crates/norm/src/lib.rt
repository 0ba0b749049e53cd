//! The weighted norm of a solver's error, and where its functions change sign; over ordered scalars.
#![tactic(auto)]

pub mod norms;
pub mod roots;

pub use norms::squared_norm;
pub use roots::root_finding;
