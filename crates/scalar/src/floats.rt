//! f64 and f32 as scalars and as ordered scalars: each operation is IEEE 754's, rounded once.
ghost use Rattle.std.specs.Prelude.{◌≡◌, Float};
ghost use Rattle.std.specs.Float.{binary32, binary64};
ghost use Rattle.scalar.specs.Ops.{Ops};
ghost use Rattle.scalar.specs.Floats.{rounded, zero_float, one_float, is_zero_float};
ghost use Rattle.scalar.specs.Orders.{Order, ordered};
ghost use Rattle.scalar.specs.FloatValues.{float_set};
ghost use Rattle.std.proofs.Common.{rules};

use crate::{Ordered, Scalar};
use std::num;

impl Scalar for f64 {
    ghost Meaning = { Float };

    ghost means = { λ x. x };

    ghost ops = { rounded binary64 };

    ghost exact = { ⊥ };

    ghost set = { float_set };

    ghost zero_is_zero = { Prim.search rules };

    ghost ring = { Prim.search rules };

    fn zero() -> f64 {
        0.0
    }

    fn one() -> f64 {
        1.0
    }

    fn add(self, other: f64) -> f64 {
        self + other
    }

    fn mul(self, other: f64) -> f64 {
        self * other
    }

    fn neg(self) -> f64 {
        -self
    }

    fn is_zero(self) -> bool {
        self == 0.0
    }
}

impl Scalar for f32 {
    ghost Meaning = { Float };

    ghost means = { λ x. x };

    ghost ops = { rounded binary32 };

    ghost exact = { ⊥ };

    ghost set = { float_set };

    ghost zero_is_zero = { Prim.search rules };

    ghost ring = { Prim.search rules };

    fn zero() -> f32 {
        0.0
    }

    fn one() -> f32 {
        1.0
    }

    fn add(self, other: f32) -> f32 {
        self + other
    }

    fn mul(self, other: f32) -> f32 {
        self * other
    }

    fn neg(self) -> f32 {
        -self
    }

    fn is_zero(self) -> bool {
        self == 0.0
    }
}

impl Ordered for f64 {
    ghost Meaning = { Float };

    ghost means = { λ x. x };

    ghost ops = { rounded binary64 };

    ghost order = { ordered binary64 };

    ghost set = { float_set };

    fn zero() -> f64 {
        <f64 as Scalar>::zero()
    }

    fn one() -> f64 {
        <f64 as Scalar>::one()
    }

    fn add(self, other: f64) -> f64 {
        self + other
    }

    fn mul(self, other: f64) -> f64 {
        self * other
    }

    fn neg(self) -> f64 {
        -self
    }

    fn is_zero(self) -> bool {
        Scalar::is_zero(self)
    }

    fn div(self, other: f64) -> f64 {
        self / other
    }

    fn abs(self) -> f64 {
        f64::abs(self)
    }

    fn less(self, other: f64) -> bool {
        self < other
    }

    fn equal(self, other: f64) -> bool {
        num::f64_to_bits_with_nan(self) == num::f64_to_bits_with_nan(other)
    }

    fn greater(self, other: f64) -> f64 {
        if self.is_nan() || self < other {
            other
        } else {
            self
        }
    }

    fn of_count(rows: usize) -> f64 {
        num::nearest_u64_to_f64(rows as u64)
    }
}

impl Ordered for f32 {
    ghost Meaning = { Float };

    ghost means = { λ x. x };

    ghost ops = { rounded binary32 };

    ghost order = { ordered binary32 };

    ghost set = { float_set };

    fn zero() -> f32 {
        <f32 as Scalar>::zero()
    }

    fn one() -> f32 {
        <f32 as Scalar>::one()
    }

    fn add(self, other: f32) -> f32 {
        self + other
    }

    fn mul(self, other: f32) -> f32 {
        self * other
    }

    fn neg(self) -> f32 {
        -self
    }

    fn is_zero(self) -> bool {
        Scalar::is_zero(self)
    }

    fn div(self, other: f32) -> f32 {
        self / other
    }

    fn abs(self) -> f32 {
        f32::abs(self)
    }

    fn less(self, other: f32) -> bool {
        self < other
    }

    fn equal(self, other: f32) -> bool {
        num::f32_to_bits_with_nan(self) == num::f32_to_bits_with_nan(other)
    }

    fn greater(self, other: f32) -> f32 {
        if self.is_nan() || self < other {
            other
        } else {
            self
        }
    }

    fn of_count(rows: usize) -> f32 {
        num::nearest_u64_to_f32(rows as u64)
    }
}
