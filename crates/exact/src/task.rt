//! A script with the state and the weights that it is run on, all of whole numbers.
use shape::TableShape;
use state::{Parts, Script};

/// A shape, a script, a state and weights of that shape. A whole number stands for what it means in
/// the ring that the task is run in.
#[derive(Clone, Copy)]
pub struct Task<'a> {
    pub shape: TableShape,
    pub script: Script<'a, i64>,
    pub state: Parts<&'a [i64]>,
    pub weights: Parts<&'a [i64]>,
}
