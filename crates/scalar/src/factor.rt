//! `Scale`, a factor: it is never passed as a bare scalar, so it cannot be taken for an entry.
ghost use Rattle.std.specs.Prelude.{◌≡◌};
ghost use Rattle.scalar.specs.Ops.{Ops};

use crate::Scalar;
use std::ops::{Add, Mul, Sub};

/// A factor around its scalar. Two factors compare as their scalars do under `==`.
#[derive(Clone, Copy, PartialEq, Debug)]
pub struct Scale<S>(pub S);

impl<S: Scalar> Scale<S> {
    pub fn value(self) -> S
        ensures { result ≡ self.0 }
    {
        self.0
    }
}

impl<S: Scalar> Add<Scale<S>> for Scale<S> {
    type Output = Scale<S>;

    ghost add_gives = { λ a b r. S.Scalar.means r.0 ≡ S.Scalar.ops.plus (S.Scalar.means a.0) (S.Scalar.means b.0) };

    fn add(self, rhs: Scale<S>) -> Scale<S> {
        Scale(self.0.add(rhs.0))
    }
}

impl<S: Scalar> Sub<Scale<S>> for Scale<S> {
    type Output = Scale<S>;

    ghost sub_gives = { λ a b r. S.Scalar.means r.0 ≡ S.Scalar.ops.plus (S.Scalar.means a.0) (S.Scalar.ops.minus (S.Scalar.means b.0)) };

    // A difference adds the negation.
    fn sub(self, rhs: Scale<S>) -> Scale<S> {
        Scale(self.0.add(rhs.0.neg()))
    }
}

impl<S: Scalar> Mul<Scale<S>> for Scale<S> {
    type Output = Scale<S>;

    ghost mul_gives = { λ a b r. S.Scalar.means r.0 ≡ S.Scalar.ops.times (S.Scalar.means a.0) (S.Scalar.means b.0) };

    fn mul(self, rhs: Scale<S>) -> Scale<S> {
        Scale(self.0.mul(rhs.0))
    }
}
