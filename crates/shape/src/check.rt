//! The tests that calls begin with. Each number is tested over all operands before the next.
ghost use Rattle.std.specs.Prelude.{◌≡◌, ℕ, Bool, false, OnOk};
ghost use Rattle.shape.specs.Shapes.{no_lanes, too_large, misfit, no_column, Fits, Lawful};
ghost use Rattle.shape.specs.Refusals.{answer, first_of};
ghost use Rattle.shape.specs.Operands.{shape_tests, column_tests, two_tests, TwoLawful, pair_tests, PairLawful, table_tests, TablesLawful};

use crate::lanes::no_broadcast;
use crate::{Column, Refusal, TableShape};

/// The tests of the numbers 1 to 3 over every shape that is named with its memory's length.
#[macro_export]
macro_rules! refuse_shapes {
    ($($t:expr, $len:expr);+) => {
        if $($crate::check::no_lanes($t))||+ {
            return Err($crate::Refusal::NoLanes);
        }
        if $($crate::check::too_large($t))||+ {
            return Err($crate::Refusal::TooLarge);
        }
        if $($crate::check::misfits($t, $len))||+ {
            return Err($crate::Refusal::Memory);
        }
    };
}

/// The tests of the numbers 1 to 4 over every column operand that is named with its memory's
/// length: one text for calls of any number of operands.
#[macro_export]
macro_rules! refuse_columns {
    ($($v:expr, $len:expr);+) => {
        $crate::refuse_shapes!($($v.of, $len);+);
        if $($crate::check::no_column($v))||+ {
            return Err($crate::Refusal::NoColumn);
        }
    };
}

pub fn no_lanes(t: TableShape) -> bool
    ensures { result ≡ no_lanes t }
{
    t.lanes == 0
}

pub fn too_large(t: TableShape) -> bool
    ensures { result ≡ too_large t }
{
    t.rows > 65536 || t.cols > 1024 || t.lanes > 4096
}

/// The memory does not hold exactly the shape's scalars; asked after the limits, so that the
/// product cannot wrap.
pub fn misfits(t: TableShape, len: usize) -> bool
    ensures { too_large t ≡ false → result ≡ misfit t len }
{
    too_large(t) || len != t.rows * t.cols * t.lanes
}

pub fn no_column(v: Column) -> bool
    ensures { result ≡ no_column v }
{
    v.col >= v.of.cols
}

/// The tests of a call on a whole table, and what acceptance tells.
pub fn check_shape(t: TableShape, len: usize) -> Result<(), Refusal>
    ensures verdict { answer result ≡ first_of (shape_tests t len) }
    ensures lawful { OnOk result (Fits t len) }
{
    refuse_shapes!(t, len);
    Ok(())
}

/// The tests of a call on a column, and what acceptance tells.
pub fn check_column(v: Column, len: usize) -> Result<(), Refusal>
    ensures verdict { answer result ≡ first_of (column_tests v len) }
    ensures lawful { OnOk result (Lawful v len) }
{
    check_shape(v.of, len)?;
    if no_column(v) {
        return Err(Refusal::NoColumn);
    }
    Ok(())
}

/// The tests that every call on two columns begins with, and what passing them tells.
pub fn check_two(
    first: Column,
    first_len: usize,
    second: Column,
    second_len: usize,
) -> Result<(), Refusal>
    ensures verdict { answer result ≡ first_of (two_tests first first_len second second_len) }
    ensures lawful { OnOk result (TwoLawful first first_len second second_len) }
{
    refuse_columns!(first, first_len; second, second_len);
    Ok(())
}

/// The tests of a call that reads column x row by row into column y, and what acceptance tells.
pub fn check_pair(x: Column, x_len: usize, y: Column, y_len: usize) -> Result<(), Refusal>
    ensures verdict { answer result ≡ first_of (pair_tests x x_len y y_len) }
    ensures lawful { OnOk result (PairLawful x x_len y y_len) }
{
    refuse_columns!(x, x_len; y, y_len);
    if x.of.rows != y.of.rows {
        return Err(Refusal::Counts);
    }
    if no_broadcast(x.of.lanes, y.of.lanes) {
        return Err(Refusal::Lanes);
    }
    Ok(())
}

/// The tests of a call that reads table x cell by cell into table y, and what acceptance tells.
pub fn check_tables(x: TableShape, x_len: usize, y: TableShape, y_len: usize) -> Result<(), Refusal>
    ensures verdict { answer result ≡ first_of (table_tests x x_len y y_len) }
    ensures lawful { OnOk result (TablesLawful x x_len y y_len) }
{
    refuse_shapes!(x, x_len; y, y_len);
    if x.rows != y.rows || x.cols != y.cols {
        return Err(Refusal::Counts);
    }
    if no_broadcast(x.lanes, y.lanes) {
        return Err(Refusal::Lanes);
    }
    Ok(())
}
