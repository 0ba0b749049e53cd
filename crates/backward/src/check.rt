//! The tests of the memories of a step back.
ghost use Rattle.std.specs.Prelude.{◌≡◌, OnOk};
ghost use Rattle.shape.specs.Refusals.{answer, first_of};
ghost use Rattle.backward.specs.Tests.{weights_tests, Lent};

use forward::check::check_memory;
use shape::check::misfits;
use shape::{Column, Refusal, TableShape};
use state::Parts;

/// The tests of a table, of three vectors of its rows and lanes and of eight scalars or more of work
/// memory, by the lengths of the memories; and what acceptance tells.
pub fn check_weights(
    t: TableShape,
    lens: Parts<usize>,
    sum: usize,
    work: usize,
) -> Result<(), Refusal>
    ensures verdict { answer result ≡ first_of (weights_tests t lens sum work) }
    ensures lawful { OnOk result (Lent t lens sum work) }
{
    check_memory(t, lens, work)?;
    if misfits(Column::vector(t.rows, t.lanes).of, sum) {
        return Err(Refusal::Memory);
    }
    Ok(())
}
