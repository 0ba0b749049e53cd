//! Tables made of other shapes: a diagonal, and another count of columns.
ghost use Rattle.std.specs.Prelude.{◌≡◌, length, OnOk, OnErr};
ghost use Rattle.scalar.specs.Ops.{Ops};
ghost use Rattle.shape.specs.Refusals.{answer, first_of};
ghost use Rattle.table.specs.Tests.{diagonal_tests, DiagonalLawful, resize_tests, ResizeLawful};
ghost use Rattle.table.specs.Calls.{Diagonal, Resized};

use crate::check::{check_diagonal, check_resize};
use index::copy_from_indices;
use scalar::Scalar;
use shape::{Column, Refusal, TableShape};
use vector::{copy_from, fill};

/// Zero everywhere, and then row i into column i. The shapes are lawful, so each call is accepted.
fn place_diagonal<S: Scalar>(v: Column, vs: &[S], t: TableShape, ts: &mut [S])
    requires { DiagonalLawful v (length vs.now) t (length ts.old) }
    ensures { Diagonal S.means S.ops v vs.now t ts.old ts.new }
{
    let _ = fill(S::zero(), t, ts);
    for i in 0..t.cols {
        let _ = copy_from_indices(v, vs, &[i], t.column(i), ts);
    }
}

/// Cell (i, i) of lane b becomes row i of lane b of v; every other cell becomes zero.
pub fn from_diagonal<S: Scalar>(
    v: Column,
    vs: &[S],
    t: TableShape,
    ts: &mut [S],
) -> Result<(), Refusal>
    ensures verdict { answer result ≡ first_of (diagonal_tests v (length vs.now) t (length ts.old)) }
    ensures accepted { OnOk result (Diagonal S.means S.ops v vs.now t ts.old ts.new) }
    ensures refused { OnErr result (ts.new ≡ ts.old) }
{
    check_diagonal(v, vs.len(), t, ts.len())?;
    place_diagonal(v, vs, t, ts);
    Ok(())
}

/// Zero everywhere, and then the columns that both have. The shapes are lawful, so each call is
/// accepted.
fn resize_cells<S: Scalar>(x: TableShape, xs: &[S], y: TableShape, ys: &mut [S])
    requires { ResizeLawful x (length xs.now) y (length ys.old) }
    ensures { Resized S.means S.ops x xs.now y ys.old ys.new }
{
    let _ = fill(S::zero(), y, ys);
    for j in 0..x.cols.min(y.cols) {
        let _ = copy_from(x.column(j), xs, y.column(j), ys);
    }
}

/// Into other memory: the columns that both tables have become x's; further columns of y become
/// zero.
pub fn resize_cols<S: Scalar>(
    x: TableShape,
    xs: &[S],
    y: TableShape,
    ys: &mut [S],
) -> Result<(), Refusal>
    ensures verdict { answer result ≡ first_of (resize_tests x (length xs.now) y (length ys.old)) }
    ensures accepted { OnOk result (Resized S.means S.ops x xs.now y ys.old ys.new) }
    ensures refused { OnErr result (ys.new ≡ ys.old) }
{
    check_resize(x, xs.len(), y, ys.len())?;
    resize_cells(x, xs, y, ys);
    Ok(())
}
