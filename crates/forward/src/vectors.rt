//! The kinds that write a vector. Their operands hold their shapes and have equal rows and lanes, so
//! the calls do not refuse, and their answers tell nothing.
ghost use Rattle.std.specs.Prelude.{◌≡◌, ◌+◌, ◌-◌, ◌<◌, ◌≤◌, Bool, false, List, [], ◌∷◌, map, length};
ghost use Rattle.shape.specs.Shapes.{Fits};
ghost use Rattle.index.specs.Indices.{outside};
ghost use Rattle.state.specs.Memory.{memory, vector_of};
ghost use Rattle.forward.specs.Forward.{Forward};
ghost use Rattle.steps.specs.declared.kind.Kind.TheVariants.{SumCol, AddCol, Axpy, Copy as Same, Scale as Times, Gather, Scatter};

use index::{gather, scatter};
use product::gemv_cols;
use scalar::{Scalar, Scale};
use shape::{Column, TableShape};
use vector::{add_assign, axpy, copy_from, mul_assign};

/// v becomes u.
pub(crate) fn copy_step<S: Scalar>(t: TableShape, us: &[S], vs: &mut [S])
    requires first { Fits (vector_of t).of (length us.now) }
    requires second { Fits (vector_of t).of (length vs.old) }
    ensures { (ds : List S) → Forward S.means S.ops t Same [] [] (memory ds us.now vs.old) (memory ds us.now vs.new) }
{
    let rows = Column::vector(t.rows, t.lanes);
    let _ = copy_from(rows, us, rows, vs);
}

/// u gains a column of D.
pub(crate) fn add_col_step<S: Scalar>(t: TableShape, ds: &[S], column: usize, us: &mut [S])
    requires table { Fits t (length ds.now) }
    requires first { Fits (vector_of t).of (length us.old) }
    requires within { column < t.cols }
    ensures { (vs : List S) → Forward S.means S.ops t (AddCol column) [] [] (memory ds.now us.old vs) (memory ds.now us.new vs) }
{
    let rows = Column::vector(t.rows, t.lanes);
    let _ = add_assign(t.column(column), ds, rows, us);
}

/// u becomes a·v + b·u for the numbers a and b.
pub(crate) fn axpy_step<S: Scalar>(t: TableShape, us: &mut [S], vs: &[S], numbers: &[S])
    requires first { Fits (vector_of t).of (length us.old) }
    requires second { Fits (vector_of t).of (length vs.now) }
    requires numbers { length numbers.now ≡ 2 }
    ensures { (ds : List S) → Forward S.means S.ops t Axpy (map S.means numbers.now) [] (memory ds us.old vs.now) (memory ds us.new vs.now) }
{
    let rows = Column::vector(t.rows, t.lanes);
    let a = Scale(numbers[0]);
    let b = Scale(numbers[1]);
    let _ = axpy(a, rows, vs, b, rows, us);
}

/// u becomes u·a for the number a.
pub(crate) fn scale_step<S: Scalar>(t: TableShape, us: &mut [S], numbers: &[S])
    requires first { Fits (vector_of t).of (length us.old) }
    requires numbers { length numbers.now ≡ 1 }
    ensures { (ds vs : List S) → Forward S.means S.ops t Times (map S.means numbers.now) [] (memory ds us.old vs) (memory ds us.new vs) }
{
    let rows = Column::vector(t.rows, t.lanes);
    let _ = mul_assign(Scale(numbers[0]), rows, us);
}

/// Row i of u becomes the row of v that the list names at i.
pub(crate) fn gather_step<S: Scalar>(t: TableShape, us: &mut [S], vs: &[S], list: &[usize])
    requires first { Fits (vector_of t).of (length us.old) }
    requires second { Fits (vector_of t).of (length vs.now) }
    requires long { length list.now ≡ t.rows }
    requires inside { outside t.rows list.now ≡ false }
    ensures { (ds : List S) → Forward S.means S.ops t Gather [] list.now (memory ds us.old vs.now) (memory ds us.new vs.now) }
{
    let rows = Column::vector(t.rows, t.lanes);
    let _ = gather(rows, vs, list, rows, us);
}

/// The row of v that the list names at i becomes row i of u, in the list's order.
pub(crate) fn scatter_step<S: Scalar>(t: TableShape, us: &[S], vs: &mut [S], list: &[usize])
    requires first { Fits (vector_of t).of (length us.now) }
    requires second { Fits (vector_of t).of (length vs.old) }
    requires long { length list.now ≡ t.rows }
    requires inside { outside t.rows list.now ≡ false }
    ensures { (ds : List S) → Forward S.means S.ops t Scatter [] list.now (memory ds us.now vs.old) (memory ds us.now vs.new) }
{
    let rows = Column::vector(t.rows, t.lanes);
    let _ = scatter(rows, us, list, rows, vs);
}

/// u becomes (a·D)·x + b·u over the columns `start` to `end` − 1, for the numbers a, b and x.
pub(crate) fn sum_col_step<S: Scalar>(
    t: TableShape,
    ds: &[S],
    start: usize,
    end: usize,
    us: &mut [S],
    numbers: &[S],
)
    requires table { Fits t (length ds.now) }
    requires first { Fits (vector_of t).of (length us.old) }
    requires order { start ≤ end }
    requires within { end ≤ t.cols }
    requires few { end - start ≤ 8 }
    requires numbers { length numbers.now ≡ 2 + (end - start) }
    ensures { (vs : List S) → Forward S.means S.ops t (SumCol start end) (map S.means numbers.now) [] (memory ds.now us.old vs) (memory ds.now us.new vs) }
{
    let rows = Column::vector(t.rows, t.lanes);
    let a = Scale(numbers[0]);
    let b = Scale(numbers[1]);
    let _ = gemv_cols(a, t, ds, start, end, &numbers[2..], b, rows, us);
}
