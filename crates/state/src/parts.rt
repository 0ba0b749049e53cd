//! The parts of a state or of weights, lent, shared or by their lengths, and the tests of them.
ghost use Rattle.std.specs.Prelude.{◌≡◌, OnOk};
ghost use Rattle.shape.specs.Refusals.{answer, first_of};
ghost use Rattle.state.specs.Memory.{lent, held, shown, lengths, parts_tests, Holds};

use shape::check::{check_shape, misfits};
use shape::{Column, Refusal, TableShape};

/// A table and two vectors of its rows and lanes: D, u and v of a state, or E, p and q of its
/// weights. Each is memory that is lent or shared, or the length of it.
#[derive(Clone, Copy, Drop)]
pub struct Parts<T> {
    pub table: T,
    pub first: T,
    pub second: T,
}

impl<'a, S> Parts<&'a mut [S]> {
    /// Three slices lent as the parts of a state or of weights: D, u and v, or E, p and q.
    pub fn lend(table: &'a mut [S], first: &'a mut [S], second: &'a mut [S]) -> Self
        ensures { result ≡ lent table.entry first.entry second.entry }
    {
        Parts {
            table,
            first,
            second,
        }
    }
}

impl<S> Parts<&mut [S]> {
    /// The same memory, shared.
    pub fn shared(&self) -> Parts<&[S]>
        ensures { shown result ≡ held self.now }
    {
        Parts {
            table: self.table,
            first: self.first,
            second: self.second,
        }
    }

    /// The lengths of lent memory.
    pub fn lens(&self) -> Parts<usize>
        ensures { result ≡ lengths (held self.now) }
    {
        self.shared().lens()
    }
}

impl<S> Parts<&[S]> {
    /// The lengths of shared memory.
    pub fn lens(&self) -> Parts<usize>
        ensures { result ≡ lengths (shown self.now) }
    {
        Parts {
            table: self.table.len(),
            first: self.first.len(),
            second: self.second.len(),
        }
    }
}

/// The tests of the numbers 1 to 3 over a table and two vectors of its rows and lanes, and what
/// acceptance tells.
pub fn check_parts(t: TableShape, lens: Parts<usize>) -> Result<(), Refusal>
    ensures verdict { answer result ≡ first_of (parts_tests t lens) }
    ensures lawful { OnOk result (Holds t lens) }
{
    check_shape(t, lens.table)?;
    let vector = Column::vector(t.rows, t.lanes).of;
    if misfits(vector, lens.first) || misfits(vector, lens.second) {
        return Err(Refusal::Memory);
    }
    Ok(())
}
