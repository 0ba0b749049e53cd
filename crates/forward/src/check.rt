//! The tests of a step on memory, which the way forward and the way back have in common.
ghost use Rattle.std.specs.Prelude.{◌≡◌, option_copied, OnOk};
ghost use Rattle.shape.specs.Refusals.{answer, first_of};
ghost use Rattle.steps.specs.Steps.{miscounted, fault};
ghost use Rattle.state.specs.Memory.{step_of};
ghost use Rattle.forward.specs.Tests.{memory_tests, Roomy};

use index::has_outside;
use scalar::Scalar;
use shape::{Refusal, TableShape};
use state::parts::check_parts;
use state::{Parts, Script, StepRecord};

/// Not `needed` entries, or past the array.
fn miscounted<T>(needed: usize, xs: Option<&[T]>) -> bool
    ensures { result ≡ miscounted needed (option_copied xs.entry) }
{
    match xs {
        Some(xs) => xs.len() != needed,
        None => true,
    }
}

/// The tests of a step of `rows` rows and `cols` columns, with the numbers and the indices of its
/// script. A list that is read has an index for each row, each below `rows`.
pub fn check_step<S: Scalar>(
    rows: usize,
    cols: usize,
    x: StepRecord,
    script: Script<S>,
) -> Result<(), Refusal>
    ensures { answer result ≡ fault rows cols (step_of S.means x script.entry) }
{
    if x.kind.misplaced(cols) {
        return Err(Refusal::NoColumn);
    }
    if x.kind.too_many() {
        return Err(Refusal::TooMany);
    }
    if miscounted(x.kind.needed(), script.numbers_of(x)) {
        return Err(Refusal::Numbers);
    }
    if !x.kind.reads_list() {
        return Ok(());
    }
    let list = script.list_of(x);
    if miscounted(rows, list) {
        return Err(Refusal::ListLength);
    }
    if has_outside(list.unwrap_or(&[]), rows) {
        return Err(Refusal::Index);
    }
    Ok(())
}

/// The tests of a table and two vectors of its rows and lanes, with eight scalars or more of work
/// memory, by the lengths of the memories; and what acceptance tells.
pub fn check_memory(t: TableShape, lens: Parts<usize>, work: usize) -> Result<(), Refusal>
    ensures verdict { answer result ≡ first_of (memory_tests t lens work) }
    ensures lawful { OnOk result (Roomy t lens work) }
{
    check_parts(t, lens)?;
    if work < 8 {
        return Err(Refusal::Memory);
    }
    Ok(())
}
