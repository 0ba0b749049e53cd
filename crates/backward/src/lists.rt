//! The kinds that read a list of rows, on the way back.
ghost use Rattle.std.specs.Prelude.{◌≡◌, false, List, [], length};
ghost use Rattle.scalar.specs.Ops.{Ops};
ghost use Rattle.shape.specs.Shapes.{Fits};
ghost use Rattle.index.specs.Indices.{outside};
ghost use Rattle.state.specs.Memory.{memory, vector_of};
ghost use Rattle.steps.specs.declared.kind.Kind.TheVariants.{Gather, Scatter};
ghost use Rattle.backward.specs.Backs.{BackBy};

use index::{gather_transpose, scatter_transpose};
use scalar::Scalar;
use shape::{Column, TableShape};
use vector::fill;

/// Row list(i) of q gains row i of p, then p becomes zero.
pub(crate) fn gather_back<S: Scalar>(t: TableShape, ps: &mut [S], qs: &mut [S], list: &[usize])
    requires first { Fits (vector_of t).of (length ps.old) }
    requires second { Fits (vector_of t).of (length qs.old) }
    requires long { length list.now ≡ t.rows }
    requires inside { outside t.rows list.now ≡ false }
    ensures { (es : List S) → BackBy S.means S.ops t Gather [] list.now (memory es ps.old qs.old) (memory es ps.new qs.new) }
{
    let v = Column::vector(t.rows, t.lanes);
    let _ = gather_transpose(list, v, ps, v, qs);
    let _ = fill(S::zero(), v, ps);
}

/// From the last entry to the first: row i of p gains row list(i) of q, which becomes zero.
pub(crate) fn scatter_back<S: Scalar>(t: TableShape, ps: &mut [S], qs: &mut [S], list: &[usize])
    requires first { Fits (vector_of t).of (length ps.old) }
    requires second { Fits (vector_of t).of (length qs.old) }
    requires long { length list.now ≡ t.rows }
    requires inside { outside t.rows list.now ≡ false }
    ensures { (es : List S) → BackBy S.means S.ops t Scatter [] list.now (memory es ps.old qs.old) (memory es ps.new qs.new) }
{
    let v = Column::vector(t.rows, t.lanes);
    let _ = scatter_transpose(list, v, ps, v, qs);
}
