//! Entries stored as they are, in columns or in whole tables: a copy, and one value for all.
ghost use Rattle.std.specs.Prelude.{◌≡◌, length, OnOk, OnErr};
ghost use Rattle.shape.specs.Refusals.{answer, first_of};

use elementwise::{Fill, Operand, Replace};
use scalar::Scalar;
use shape::Refusal;

/// y becomes x, stored value by stored value.
pub fn copy_from<S: Scalar, O: Operand>(x: O, xs: &[S], y: O, ys: &mut [S]) -> Result<(), Refusal>
    ensures verdict { answer result ≡ first_of (O.pair_tests x (length xs.now) y (length ys.old)) }
    ensures accepted { OnOk result (O.Entrywise S x xs.now y (λ p q v. v ≡ p) ys.old ys.new) }
    ensures refused { OnErr result (ys.new ≡ ys.old) }
{
    O::zip(Replace, x, xs, y, ys)
}

/// Every entry becomes `value`.
pub fn fill<S: Scalar, O: Operand>(value: S, y: O, ys: &mut [S]) -> Result<(), Refusal>
    ensures verdict { answer result ≡ first_of (O.tests y (length ys.old)) }
    ensures accepted { OnOk result (O.Revised S y (λ q v. v ≡ value) ys.old ys.new) }
    ensures refused { OnErr result (ys.new ≡ ys.old) }
{
    O::revise(Fill { value }, y, ys)
}
