//! Sums, differences, products and quotients, entry by entry, of columns or of whole tables.
ghost use Rattle.std.specs.Prelude.{◌≡◌, length, OnOk, OnErr};
ghost use Rattle.scalar.specs.Ops.{Ops};
ghost use Rattle.scalar.specs.Orders.{Order};
ghost use Rattle.shape.specs.Refusals.{answer, first_of};
ghost use Rattle.vector.specs.Rows.{less};

use elementwise::{Operand, Revision, Rule};
use scalar::{Ordered, Scalar, Scale};
use shape::Refusal;

/// y + x.
#[derive(Clone, Copy)]
pub struct Sum;

impl<S: Scalar> Rule<S> for Sum {
    ghost made = { λ _ x y v. S.Scalar.means v ≡ S.Scalar.ops.plus (S.Scalar.means y) (S.Scalar.means x) };

    fn apply(self, x: S, y: S) -> S {
        y.add(x)
    }
}

/// y − x.
#[derive(Clone, Copy)]
pub struct Difference;

impl<S: Scalar> Rule<S> for Difference {
    ghost made = { λ _ x y v. S.Scalar.means v ≡ less S.Scalar.ops (S.Scalar.means y) (S.Scalar.means x) };

    fn apply(self, x: S, y: S) -> S {
        y.add(x.neg())
    }
}

/// x − y.
#[derive(Clone, Copy)]
pub struct Reverse;

impl<S: Scalar> Rule<S> for Reverse {
    ghost made = { λ _ x y v. S.Scalar.means v ≡ less S.Scalar.ops (S.Scalar.means x) (S.Scalar.means y) };

    fn apply(self, x: S, y: S) -> S {
        x.add(y.neg())
    }
}

/// y·x.
#[derive(Clone, Copy)]
pub struct Product;

impl<S: Scalar> Rule<S> for Product {
    ghost made = { λ _ x y v. S.Scalar.means v ≡ S.Scalar.ops.times (S.Scalar.means y) (S.Scalar.means x) };

    fn apply(self, x: S, y: S) -> S {
        y.mul(x)
    }
}

/// y / x.
#[derive(Clone, Copy)]
pub struct Quotient;

impl<S: Ordered> Rule<S> for Quotient {
    ghost made = { λ _ x y v. S.Ordered.means v ≡ S.Ordered.order.over (S.Ordered.means y) (S.Ordered.means x) };

    fn apply(self, x: S, y: S) -> S {
        y.div(x)
    }
}

/// y·a for a factor a.
#[derive(Clone, Copy)]
pub struct Scaled<S> {
    pub by: Scale<S>,
}

impl<S: Scalar> Revision<S> for Scaled<S> {
    ghost made = { λ f y v. S.Scalar.means v ≡ S.Scalar.ops.times (S.Scalar.means y) (S.Scalar.means f.by.0) };

    fn apply(self, y: S) -> S {
        y.mul(self.by.0)
    }
}

/// y / a for a factor a.
#[derive(Clone, Copy)]
pub struct Divided<S> {
    pub by: Scale<S>,
}

impl<S: Ordered> Revision<S> for Divided<S> {
    ghost made = { λ f y v. S.Ordered.means v ≡ S.Ordered.order.over (S.Ordered.means y) (S.Ordered.means f.by.0) };

    fn apply(self, y: S) -> S {
        y.div(self.by.0)
    }
}

/// y becomes y + x.
pub fn add_assign<S: Scalar, O: Operand>(x: O, xs: &[S], y: O, ys: &mut [S]) -> Result<(), Refusal>
    ensures verdict { answer result ≡ first_of (O.pair_tests x (length xs.now) y (length ys.old)) }
    ensures accepted { OnOk result (O.Entrywise S x xs.now y (λ p q v. S.means v ≡ S.ops.plus (S.means q) (S.means p)) ys.old ys.new) }
    ensures refused { OnErr result (ys.new ≡ ys.old) }
{
    O::zip(Sum, x, xs, y, ys)
}

/// y becomes y − x.
pub fn sub_assign<S: Scalar, O: Operand>(x: O, xs: &[S], y: O, ys: &mut [S]) -> Result<(), Refusal>
    ensures verdict { answer result ≡ first_of (O.pair_tests x (length xs.now) y (length ys.old)) }
    ensures accepted { OnOk result (O.Entrywise S x xs.now y (λ p q v. S.means v ≡ less S.ops (S.means q) (S.means p)) ys.old ys.new) }
    ensures refused { OnErr result (ys.new ≡ ys.old) }
{
    O::zip(Difference, x, xs, y, ys)
}

/// The right operand y becomes x − y: the left one broadcasts into it.
pub fn sub_into<S: Scalar, O: Operand>(x: O, xs: &[S], y: O, ys: &mut [S]) -> Result<(), Refusal>
    ensures verdict { answer result ≡ first_of (O.pair_tests x (length xs.now) y (length ys.old)) }
    ensures accepted { OnOk result (O.Entrywise S x xs.now y (λ p q v. S.means v ≡ less S.ops (S.means p) (S.means q)) ys.old ys.new) }
    ensures refused { OnErr result (ys.new ≡ ys.old) }
{
    O::zip(Reverse, x, xs, y, ys)
}

/// y becomes y·x, entry by entry.
pub fn component_mul_assign<S: Scalar, O: Operand>(
    x: O,
    xs: &[S],
    y: O,
    ys: &mut [S],
) -> Result<(), Refusal>
    ensures verdict { answer result ≡ first_of (O.pair_tests x (length xs.now) y (length ys.old)) }
    ensures accepted { OnOk result (O.Entrywise S x xs.now y (λ p q v. S.means v ≡ S.ops.times (S.means q) (S.means p)) ys.old ys.new) }
    ensures refused { OnErr result (ys.new ≡ ys.old) }
{
    O::zip(Product, x, xs, y, ys)
}

/// y becomes y / x, entry by entry.
pub fn component_div_assign<S: Ordered, O: Operand>(
    x: O,
    xs: &[S],
    y: O,
    ys: &mut [S],
) -> Result<(), Refusal>
    ensures verdict { answer result ≡ first_of (O.pair_tests x (length xs.now) y (length ys.old)) }
    ensures accepted { OnOk result (O.Entrywise S x xs.now y (λ p q v. S.means v ≡ S.order.over (S.means q) (S.means p)) ys.old ys.new) }
    ensures refused { OnErr result (ys.new ≡ ys.old) }
{
    O::zip(Quotient, x, xs, y, ys)
}

/// y becomes y·by.
pub fn mul_assign<S: Scalar, O: Operand>(by: Scale<S>, y: O, ys: &mut [S]) -> Result<(), Refusal>
    ensures verdict { answer result ≡ first_of (O.tests y (length ys.old)) }
    ensures accepted { OnOk result (O.Revised S y (λ q v. S.means v ≡ S.ops.times (S.means q) (S.means by.0)) ys.old ys.new) }
    ensures refused { OnErr result (ys.new ≡ ys.old) }
{
    O::revise(Scaled { by }, y, ys)
}

/// y becomes y / by: each entry is divided, so 49 by 49 is 1.
pub fn div_assign<S: Ordered, O: Operand>(by: Scale<S>, y: O, ys: &mut [S]) -> Result<(), Refusal>
    ensures verdict { answer result ≡ first_of (O.tests y (length ys.old)) }
    ensures accepted { OnOk result (O.Revised S y (λ q v. S.means v ≡ S.order.over (S.means q) (S.means by.0)) ys.old ys.new) }
    ensures refused { OnErr result (ys.new ≡ ys.old) }
{
    O::revise(Divided { by }, y, ys)
}
