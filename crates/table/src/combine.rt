//! scale_add_and_assign: a table becomes x + b·y.
ghost use Rattle.std.specs.Prelude.{◌≡◌, length, OnOk, OnErr};
ghost use Rattle.scalar.specs.Ops.{Ops};
ghost use Rattle.shape.specs.Refusals.{answer, first_of};
ghost use Rattle.table.specs.Tests.{three_tests, ThreeLawful};
ghost use Rattle.table.specs.Calls.{ScaleAdded};

use crate::check::check_three;
use elementwise::{Operand, Replace};
use scalar::{Scalar, Scale};
use shape::{Refusal, TableShape};
use vector::combine::Gained;

/// The shapes are lawful, so both passes are accepted.
fn scale_add_cells<S: Scalar>(
    x: TableShape,
    xs: &[S],
    b: Scale<S>,
    y: TableShape,
    ys: &[S],
    t: TableShape,
    ts: &mut [S],
)
    requires { ThreeLawful x (length xs.now) y (length ys.now) t (length ts.old) }
    ensures { ScaleAdded S.means S.ops x xs.now (S.means b.0) y ys.now t ts.old ts.new }
{
    let _ = TableShape::zip(Replace, x, xs, t, ts);
    let _ = TableShape::zip(Gained { by: b }, y, ys, t, ts);
}

/// Every cell of t becomes x + b·y; y is read also where b is zero.
pub fn scale_add_and_assign<S: Scalar>(
    x: TableShape,
    xs: &[S],
    b: Scale<S>,
    y: TableShape,
    ys: &[S],
    t: TableShape,
    ts: &mut [S],
) -> Result<(), Refusal>
    ensures verdict { answer result ≡ first_of (three_tests x (length xs.now) y (length ys.now) t (length ts.old)) }
    ensures accepted { OnOk result (ScaleAdded S.means S.ops x xs.now (S.means b.0) y ys.now t ts.old ts.new) }
    ensures refused { OnErr result (ts.new ≡ ts.old) }
{
    check_three(x, xs.len(), y, ys.len(), t, ts.len())?;
    scale_add_cells(x, xs, b, y, ys, t, ts);
    Ok(())
}
