//! The first columns of every row times a small matrix.
ghost use Rattle.std.specs.Prelude.{◌≡◌, ◌*◌, map, length, OnOk, OnErr};
ghost use Rattle.shape.specs.Refusals.{answer, first_of};
ghost use Rattle.differences.specs.Rows.{number};
ghost use Rattle.differences.specs.Matrices.{sized, entry_of, Numbered};
ghost use Rattle.differences.specs.MulCols.{mul_cols_tests, MulColsLawful, Multiplied};

use crate::matrix::{Entries, Matrix};
use crate::tile::multiply_lane;
use scalar::Scalar;
use shape::{Refusal, TableShape, refuse_shapes};

/// The tests of a product with as many numbers as the matrix has entries, and what acceptance
/// tells.
fn check_mul_cols(
    t: TableShape,
    len: usize,
    m: Matrix,
    count: usize,
    work: usize,
) -> Result<(), Refusal>
    ensures verdict { answer result ≡ first_of (mul_cols_tests t len m.size count work) }
    ensures lawful { OnOk result (Numbered m → MulColsLawful t len m count work) }
{
    refuse_shapes!(t, len);
    if work < 8 {
        return Err(Refusal::Memory);
    }
    if m.size > t.cols {
        return Err(Refusal::NoColumn);
    }
    if m.size > 8 {
        return Err(Refusal::TooMany);
    }
    if count != m.size * m.size {
        return Err(Refusal::Numbers);
    }
    Ok(())
}

/// Every lane of an accepted call.
pub(crate) fn multiply_lanes<S: Scalar>(
    t: TableShape,
    ts: &mut [S],
    m: Matrix,
    numbers: &[S],
    work: &mut [S],
)
    requires { MulColsLawful t (length ts.old) m (length numbers.now) (length work.old) }
    ensures { Multiplied S.means S.ops t m.size (entry_of S.ops m (map S.means numbers.now)) ts.old ts.new }
{
    for lane in 0..t.lanes {
        multiply_lane(t, ts, lane, m, numbers, work);
    }
}

/// The product with a matrix of numbers, however they are read.
fn multiply<S: Scalar>(
    t: TableShape,
    ts: &mut [S],
    k: usize,
    entries: Entries,
    numbers: &[S],
    work: &mut [S],
) -> Result<(), Refusal>
    requires { Numbered (sized k entries) }
    ensures verdict { answer result ≡ first_of (mul_cols_tests t (length ts.old) k (length numbers.now) (length work.old)) }
    ensures accepted { OnOk result (Multiplied S.means S.ops t k (entry_of S.ops (sized k entries) (map S.means numbers.now)) ts.old ts.new) }
    ensures refused { OnErr result ((ts.new ≡ ts.old) × (work.new ≡ work.old)) }
{
    let m = Matrix { size: k, entries };
    check_mul_cols(t, ts.len(), m, numbers.len(), work.len())?;
    multiply_lanes(t, ts, m, numbers, work);
    Ok(())
}

/// New column j below k is the sum over l, from zero, of old column l times numbers[j·k + l].
pub fn mul_cols_by<S: Scalar>(
    t: TableShape,
    ts: &mut [S],
    k: usize,
    numbers: &[S],
    work: &mut [S],
) -> Result<(), Refusal>
    ensures verdict { answer result ≡ first_of (mul_cols_tests t (length ts.old) k (length numbers.now) (length work.old)) }
    ensures accepted { OnOk result (Multiplied S.means S.ops t k (number S.ops k (map S.means numbers.now)) ts.old ts.new) }
    ensures refused { OnErr result ((ts.new ≡ ts.old) × (work.new ≡ work.old)) }
{
    multiply(t, ts, k, Entries::ByRows, numbers, work)
}

/// The same with the transposed matrix: new column j below k is the sum over l, from zero, of old
/// column l times numbers[l·k + j].
pub fn mul_cols_by_transpose<S: Scalar>(
    t: TableShape,
    ts: &mut [S],
    k: usize,
    numbers: &[S],
    work: &mut [S],
) -> Result<(), Refusal>
    ensures verdict { answer result ≡ first_of (mul_cols_tests t (length ts.old) k (length numbers.now) (length work.old)) }
    ensures accepted { OnOk result (Multiplied S.means S.ops t k (λ j l. number S.ops k (map S.means numbers.now) l j) ts.old ts.new) }
    ensures refused { OnErr result ((ts.new ≡ ts.old) × (work.new ≡ work.old)) }
{
    multiply(t, ts, k, Entries::ByColumns, numbers, work)
}
