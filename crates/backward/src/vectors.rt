//! The kinds that touch the vectors p and q alone, on the way back.
ghost use Rattle.std.specs.Prelude.{◌≡◌, ℕ, List, [], map, length};
ghost use Rattle.scalar.specs.Ops.{Ops};
ghost use Rattle.shape.specs.Shapes.{Fits};
ghost use Rattle.state.specs.Memory.{memory, vector_of};
ghost use Rattle.steps.specs.declared.kind.Kind.TheVariants.{Copy as Copied, Scale as Scaled, Axpy};
ghost use Rattle.backward.specs.Backs.{BackBy};

use scalar::{Scalar, Scale};
use shape::{Column, TableShape};
use vector::{add_assign, fill, gain, mul_assign};

/// p gains q, which becomes zero. Lawful operands are not refused, so the answers tell nothing.
pub(crate) fn copy_back<S: Scalar>(t: TableShape, ps: &mut [S], qs: &mut [S])
    requires first { Fits (vector_of t).of (length ps.old) }
    requires second { Fits (vector_of t).of (length qs.old) }
    ensures { (es : List S) → BackBy S.means S.ops t Copied [] [] (memory es ps.old qs.old) (memory es ps.new qs.new) }
{
    let v = Column::vector(t.rows, t.lanes);
    let _ = add_assign(v, qs, v, ps);
    let _ = fill(S::zero(), v, qs);
}

/// p becomes p·a.
pub(crate) fn scale_back<S: Scalar>(t: TableShape, ps: &mut [S], numbers: &[S])
    requires first { Fits (vector_of t).of (length ps.old) }
    requires numbers { length numbers.now ≡ 1 }
    ensures { (es qs : List S) → BackBy S.means S.ops t Scaled (map S.means numbers.now) [] (memory es ps.old qs) (memory es ps.new qs) }
{
    let v = Column::vector(t.rows, t.lanes);
    let _ = mul_assign(Scale(numbers[0]), v, ps);
}

/// q gains a·p, then p becomes p·b.
pub(crate) fn axpy_back<S: Scalar>(t: TableShape, ps: &mut [S], qs: &mut [S], numbers: &[S])
    requires first { Fits (vector_of t).of (length ps.old) }
    requires second { Fits (vector_of t).of (length qs.old) }
    requires numbers { length numbers.now ≡ 2 }
    ensures { (es : List S) → BackBy S.means S.ops t Axpy (map S.means numbers.now) [] (memory es ps.old qs.old) (memory es ps.new qs.new) }
{
    let v = Column::vector(t.rows, t.lanes);
    let _ = gain(Scale(numbers[0]), v, ps, v, qs);
    let _ = mul_assign(Scale(numbers[1]), v, ps);
}
