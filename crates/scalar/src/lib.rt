//! Scalars by their meaning: what an answer means is a function of what the operands mean.
//! Two traits, f64 and f32, two exact number types, pairs over any scalar, and the factor `Scale`.
#![tactic(auto)]

ghost use Rattle.std.specs.Prelude.{◌≡◌, ℕ, Bool, true, Decides};
ghost use Rattle.scalar.specs.Ops.{Ops, Ring};
ghost use Rattle.scalar.specs.Orders.{Order};

pub mod factor;
pub mod floats;
pub mod modular;
pub mod pairs;

pub use factor::Scale;
pub use modular::{Residue, Wrap};
pub use pairs::Pair;

/// A scalar type. `Meaning` is the set of values that it speaks of, `means` what a stored scalar
/// means, `ops` the operations on meanings. No call refuses or changes an operand.
pub trait Scalar: Copy {
    ghost Meaning: { Type 0 };

    ghost means: { Self → Meaning };

    ghost ops: { Ops Meaning };

    // The mark of an exact scalar: where it can be shown, the laws of a commutative ring hold.
    ghost exact: { Type 0 };

    fn zero() -> Self
        ensures { means result ≡ ops.zero };

    fn one() -> Self
        ensures { means result ≡ ops.one };

    fn add(self, other: Self) -> Self
        ensures { means result ≡ ops.plus (means self) (means other) };

    fn mul(self, other: Self) -> Self
        ensures { means result ≡ ops.times (means self) (means other) };

    fn neg(self) -> Self
        ensures { means result ≡ ops.minus (means self) };

    fn is_zero(self) -> bool
        ensures { result ≡ ops.is_zero (means self) };

    ghost set: { IsSet Meaning };

    ghost zero_is_zero: { ops.is_zero ops.zero ≡ true };

    // The operations of an exact scalar are those of a commutative ring.
    ghost ring: { exact → Ring ops };
}

/// A scalar type with an order, a quotient and a size, over a set of meanings of its own.
pub trait Ordered: Copy {
    ghost Meaning: { Type 0 };

    ghost means: { Self → Meaning };

    ghost ops: { Ops Meaning };

    ghost order: { Order Meaning };

    fn zero() -> Self
        ensures { means result ≡ ops.zero };

    fn one() -> Self
        ensures { means result ≡ ops.one };

    fn add(self, other: Self) -> Self
        ensures { means result ≡ ops.plus (means self) (means other) };

    fn mul(self, other: Self) -> Self
        ensures { means result ≡ ops.times (means self) (means other) };

    fn neg(self) -> Self
        ensures { means result ≡ ops.minus (means self) };

    fn is_zero(self) -> bool
        ensures { result ≡ ops.is_zero (means self) };

    fn div(self, other: Self) -> Self
        ensures { means result ≡ order.over (means self) (means other) };

    fn abs(self) -> Self
        ensures { means result ≡ order.size (means self) };

    fn less(self, other: Self) -> bool
        ensures { result ≡ order.less (means self) (means other) };

    /// Yes exactly where both mean the same: 0 and −0 differ, not-a-number equals itself.
    fn equal(self, other: Self) -> bool
        ensures { Decides result (means self ≡ means other) };

    /// Where one is not a number the other, where neither is greater the first.
    fn greater(self, other: Self) -> Self
        ensures { means result ≡ order.greater (means self) (means other) };

    /// The scalar of a row count.
    fn of_count(rows: usize) -> Self
        ensures { means result ≡ order.count rows };

    ghost set: { IsSet Meaning };
}
