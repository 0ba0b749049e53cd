//! The kinds that name one column of the table E, on the way back.
ghost use Rattle.std.specs.Prelude.{◌≡◌, ℕ, ◌<◌, List, [], length};
ghost use Rattle.scalar.specs.Ops.{Ops};
ghost use Rattle.shape.specs.Shapes.{Fits};
ghost use Rattle.state.specs.Memory.{memory, vector_of};
ghost use Rattle.state.specs.Reach.{ColumnsKept};
ghost use Rattle.steps.specs.declared.kind.Kind.TheVariants.{AddCol, SetCol};
ghost use Rattle.backward.specs.Backs.{BackBy};

use scalar::Scalar;
use shape::{Column, TableShape};
use vector::{add_assign, fill};

/// Column j of E gains p.
pub(crate) fn add_column_back<S: Scalar>(t: TableShape, es: &mut [S], ps: &[S], j: usize)
    requires table { Fits t (length es.old) }
    requires first { Fits (vector_of t).of (length ps.now) }
    requires within { j < t.cols }
    ensures back { (qs : List S) → BackBy S.means S.ops t (AddCol j) [] [] (memory es.old ps.now qs) (memory es.new ps.now qs) }
    ensures kept { ColumnsKept t j 1 es.old es.new }
{
    let v = Column::vector(t.rows, t.lanes);
    let _ = add_assign(v, ps, t.column(j), es);
}

/// p gains column j of E, which becomes zero.
pub(crate) fn set_column_back<S: Scalar>(t: TableShape, es: &mut [S], ps: &mut [S], j: usize)
    requires table { Fits t (length es.old) }
    requires first { Fits (vector_of t).of (length ps.old) }
    requires within { j < t.cols }
    ensures back { (qs : List S) → BackBy S.means S.ops t (SetCol j) [] [] (memory es.old ps.old qs) (memory es.new ps.new qs) }
    ensures kept { ColumnsKept t j 1 es.old es.new }
{
    let v = Column::vector(t.rows, t.lanes);
    let column = t.column(j);
    let _ = add_assign(column, es, v, ps);
    let _ = fill(S::zero(), column, es);
}
