//! Operands from the numbers of a C call, and the number of an answer.
ghost use Rattle.std.specs.Prelude.{◌≡◌};
ghost use Rattle.shape.specs.Refusals.{answer};

use shape::Refusal;

/// A table's shape.
macro_rules! shaped {
    ($rows:expr, $cols:expr, $lanes:expr) => {
        shape::TableShape {
            rows: $rows,
            cols: $cols,
            lanes: $lanes,
        }
    };
}

/// A column of every lane of a table.
macro_rules! column {
    ($rows:expr, $cols:expr, $lanes:expr, $col:expr) => {
        shape::Column {
            of: $crate::operand::shaped!($rows, $cols, $lanes),
            col: $col,
        }
    };
}

pub(crate) use column;
pub(crate) use shaped;

/// The number of an answer, 0 where the call was accepted.
pub(crate) fn number(told: Result<(), Refusal>) -> u8
    ensures { result ≡ answer told }
{
    told.map_or_else(Refusal::number, |()| 0)
}
