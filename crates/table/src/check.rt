//! The tests of the table calls that are not the elementwise ones.
ghost use Rattle.std.specs.Prelude.{◌≡◌, ℕ, ◌*◌, Bool, false, not, ◌==◌, OnOk};
ghost use Rattle.shape.specs.Shapes.{too_large};
ghost use Rattle.shape.specs.Refusals.{answer, first_of};
ghost use Rattle.table.specs.Tests.{three_tests, ThreeLawful, columns_tests, ColumnsLawful, diagonal_tests, DiagonalLawful, resize_tests, ResizeLawful};

use shape::check::{no_column, too_large};
use shape::lanes::no_broadcast;
use shape::{Column, Refusal, TableShape, refuse_shapes};

/// The tests of a call that reads tables x and y into table t, and what acceptance tells.
pub(crate) fn check_three(
    x: TableShape,
    x_len: usize,
    y: TableShape,
    y_len: usize,
    t: TableShape,
    t_len: usize,
) -> Result<(), Refusal>
    ensures verdict { answer result ≡ first_of (three_tests x x_len y y_len t t_len) }
    ensures lawful { OnOk result (ThreeLawful x x_len y y_len t t_len) }
{
    refuse_shapes!(x, x_len; y, y_len; t, t_len);
    if x.rows != t.rows || x.cols != t.cols || y.rows != t.rows || y.cols != t.cols {
        return Err(Refusal::Counts);
    }
    if no_broadcast(x.lanes, t.lanes) || no_broadcast(y.lanes, t.lanes) {
        return Err(Refusal::Lanes);
    }
    Ok(())
}

/// The lanes are not one for each column of each lane; asked after the limits, so that the
/// product cannot wrap.
fn not_by_column(t: TableShape, lanes: usize) -> bool
    ensures { too_large t ≡ false → result ≡ not (lanes == t.lanes * t.cols) }
{
    too_large(t) || lanes != t.lanes * t.cols
}

/// The tests of `add_columns_to_batched_vector`, and what acceptance tells.
pub(crate) fn check_columns(
    t: TableShape,
    t_len: usize,
    v: Column,
    v_len: usize,
) -> Result<(), Refusal>
    ensures verdict { answer result ≡ first_of (columns_tests t t_len v v_len) }
    ensures lawful { OnOk result (ColumnsLawful t t_len v v_len) }
{
    refuse_shapes!(t, t_len; v.of, v_len);
    if no_column(v) {
        return Err(Refusal::NoColumn);
    }
    if t.rows != v.of.rows {
        return Err(Refusal::Counts);
    }
    if not_by_column(t, v.of.lanes) {
        return Err(Refusal::Lanes);
    }
    Ok(())
}

/// The tests of `from_diagonal`, and what acceptance tells.
pub(crate) fn check_diagonal(
    v: Column,
    v_len: usize,
    t: TableShape,
    t_len: usize,
) -> Result<(), Refusal>
    ensures verdict { answer result ≡ first_of (diagonal_tests v v_len t t_len) }
    ensures lawful { OnOk result (DiagonalLawful v v_len t t_len) }
{
    refuse_shapes!(v.of, v_len; t, t_len);
    if no_column(v) {
        return Err(Refusal::NoColumn);
    }
    if t.rows != v.of.rows || t.cols != v.of.rows {
        return Err(Refusal::Counts);
    }
    if v.of.lanes != t.lanes {
        return Err(Refusal::Lanes);
    }
    Ok(())
}

/// The tests of `resize_cols`, and what acceptance tells.
pub(crate) fn check_resize(
    x: TableShape,
    x_len: usize,
    y: TableShape,
    y_len: usize,
) -> Result<(), Refusal>
    ensures verdict { answer result ≡ first_of (resize_tests x x_len y y_len) }
    ensures lawful { OnOk result (ResizeLawful x x_len y y_len) }
{
    refuse_shapes!(x, x_len; y, y_len);
    if x.rows != y.rows {
        return Err(Refusal::Counts);
    }
    if x.lanes != y.lanes {
        return Err(Refusal::Lanes);
    }
    Ok(())
}
