//! A table's columns and a vector.
ghost use Rattle.std.specs.Prelude.{◌≡◌, length, OnOk, OnErr};
ghost use Rattle.scalar.specs.Ops.{Ops};
ghost use Rattle.shape.specs.Shapes.{column_of};
ghost use Rattle.shape.specs.Refusals.{answer, first_of};
ghost use Rattle.shape.specs.Operands.{pair_tests};
ghost use Rattle.elementwise.specs.Entrywise.{Entrywise};
ghost use Rattle.table.specs.Tests.{columns_tests, ColumnsLawful};
ghost use Rattle.table.specs.Calls.{ColumnsAdded};

use crate::check::check_columns;
use scalar::Scalar;
use shape::{Column, Refusal, TableShape};

/// Column j of every lane of t becomes v, stored value by stored value.
pub fn set_column<S: Scalar>(
    j: usize,
    v: Column,
    vs: &[S],
    t: TableShape,
    ts: &mut [S],
) -> Result<(), Refusal>
    ensures verdict { answer result ≡ first_of (pair_tests v (length vs.now) (column_of t j) (length ts.old)) }
    ensures accepted { OnOk result (Entrywise v vs.now (column_of t j) (λ p q w. w ≡ p) ts.old ts.new) }
    ensures refused { OnErr result (ts.new ≡ ts.old) }
{
    vector::copy_from(v, vs, t.column(j), ts)
}

/// v gains column j of t.
pub fn add_column_to_vector<S: Scalar>(
    t: TableShape,
    ts: &[S],
    j: usize,
    v: Column,
    vs: &mut [S],
) -> Result<(), Refusal>
    ensures verdict { answer result ≡ first_of (pair_tests (column_of t j) (length ts.now) v (length vs.old)) }
    ensures accepted { OnOk result (Entrywise (column_of t j) ts.now v (λ p q w. S.means w ≡ S.ops.plus (S.means q) (S.means p)) vs.old vs.new) }
    ensures refused { OnErr result (vs.new ≡ vs.old) }
{
    vector::add_assign(t.column(j), ts, v, vs)
}

/// A table's lanes and columns lie as the lanes of a vector do, so this is a sum of vectors. The
/// shapes are lawful, so it is accepted.
fn add_columns<S: Scalar>(t: TableShape, ts: &[S], v: Column, vs: &mut [S])
    requires { ColumnsLawful t (length ts.now) v (length vs.old) }
    ensures { ColumnsAdded S.means S.ops t ts.now v vs.old vs.new }
{
    let _ = vector::add_assign(Column::vector(t.rows, v.of.lanes), ts, v, vs);
}

/// Lane b·c + j of v gains column j of lane b of t, which has c columns.
pub fn add_columns_to_batched_vector<S: Scalar>(
    t: TableShape,
    ts: &[S],
    v: Column,
    vs: &mut [S],
) -> Result<(), Refusal>
    ensures verdict { answer result ≡ first_of (columns_tests t (length ts.now) v (length vs.old)) }
    ensures accepted { OnOk result (ColumnsAdded S.means S.ops t ts.now v vs.old vs.new) }
    ensures refused { OnErr result (vs.new ≡ vs.old) }
{
    check_columns(t, ts.len(), v, vs.len())?;
    add_columns(t, ts, v, vs);
    Ok(())
}
