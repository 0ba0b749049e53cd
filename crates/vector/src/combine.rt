//! axpy: y becomes a·x + b·y. And the gain of a multiple: y becomes y + a·x.
ghost use Rattle.std.specs.Prelude.{◌≡◌, length, OnOk, OnErr};
ghost use Rattle.scalar.specs.Ops.{Ops};
ghost use Rattle.shape.specs.Refusals.{answer, first_of};
ghost use Rattle.shape.specs.Operands.{pair_tests};
ghost use Rattle.elementwise.specs.Entrywise.{Entrywise};
ghost use Rattle.vector.specs.Rows.{blend};

use elementwise::{Operand, Rule};
use scalar::{Scalar, Scale};
use shape::{Column, Refusal};

/// a·x + b·y, and a·x alone where b is zero.
#[derive(Clone, Copy)]
pub struct Blend<S> {
    pub a: Scale<S>,
    pub b: Scale<S>,
}

impl<S: Scalar> Rule<S> for Blend<S> {
    ghost made = { λ f x y v. S.Scalar.means v ≡ blend S.Scalar.ops (S.Scalar.means f.a.0) (S.Scalar.means x) (S.Scalar.means f.b.0) (S.Scalar.means y) };

    // The test does not depend on the row: compiled, it stands before the loop.
    fn apply(self, x: S, y: S) -> S {
        let a = self.a.value();
        let b = self.b.value();
        if b.is_zero() {
            a.mul(x)
        } else {
            a.mul(x).add(b.mul(y))
        }
    }
}

/// y + a·x for a factor a.
#[derive(Clone, Copy)]
pub struct Gained<S> {
    pub by: Scale<S>,
}

impl<S: Scalar> Rule<S> for Gained<S> {
    ghost made = { λ f x y v. S.Scalar.means v ≡ S.Scalar.ops.plus (S.Scalar.means y) (S.Scalar.ops.times (S.Scalar.means f.by.0) (S.Scalar.means x)) };

    fn apply(self, x: S, y: S) -> S {
        y.add(self.by.0.mul(x))
    }
}

/// y becomes a·x + b·y, and a·x alone where b is zero.
pub fn axpy<S: Scalar>(
    a: Scale<S>,
    x: Column,
    xs: &[S],
    b: Scale<S>,
    y: Column,
    ys: &mut [S],
) -> Result<(), Refusal>
    ensures verdict { answer result ≡ first_of (pair_tests x (length xs.now) y (length ys.old)) }
    ensures accepted { OnOk result (Entrywise x xs.now y (λ p q v. S.means v ≡ blend S.ops (S.means a.0) (S.means p) (S.means b.0) (S.means q)) ys.old ys.new) }
    ensures refused { OnErr result (ys.new ≡ ys.old) }
{
    Column::zip(Blend { a, b }, x, xs, y, ys)
}

/// y becomes y + a·x: one product and one addition, where axpy would also multiply y by one.
pub fn gain<S: Scalar, O: Operand>(
    a: Scale<S>,
    x: O,
    xs: &[S],
    y: O,
    ys: &mut [S],
) -> Result<(), Refusal>
    ensures verdict { answer result ≡ first_of (O.pair_tests x (length xs.now) y (length ys.old)) }
    ensures accepted { OnOk result (O.Entrywise S x xs.now y (λ p q v. S.means v ≡ S.ops.plus (S.means q) (S.ops.times (S.means a.0) (S.means p))) ys.old ys.new) }
    ensures refused { OnErr result (ys.new ≡ ys.old) }
{
    O::zip(Gained { by: a }, x, xs, y, ys)
}
