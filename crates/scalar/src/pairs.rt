//! A value and a slope over any scalar: the pair is exact where the scalar below is.
ghost use Rattle.scalar.specs.Pairs.{paired};
ghost use Rattle.scalar.specs.PairedRing.{paired_set, paired_ring};
ghost use Rattle.std.proofs.Common.{rules};

use crate::Scalar;

/// (value, slope), with (a, s)·(b, t) = (a·b, a·t + s·b). It means the meanings of its two parts.
#[derive(Clone, Copy, PartialEq, Debug)]
pub struct Pair<S> {
    pub value: S,
    pub slope: S,
}

impl<S: Scalar> Scalar for Pair<S> {
    ghost Meaning = { S.Scalar.Meaning × S.Scalar.Meaning };

    ghost means = { λ p. (S.Scalar.means p.value, S.Scalar.means p.slope) };

    ghost ops = { paired S.Scalar.ops };

    ghost exact = { S.Scalar.exact };

    ghost set = { paired_set S.Scalar.set };

    ghost zero_is_zero = { Prim.search rules };

    ghost ring = { λ e. paired_ring (S.Scalar.ring e) };

    fn zero() -> Pair<S> {
        Pair {
            value: S::zero(),
            slope: S::zero(),
        }
    }

    fn one() -> Pair<S> {
        Pair {
            value: S::one(),
            slope: S::zero(),
        }
    }

    fn add(self, other: Pair<S>) -> Pair<S> {
        Pair {
            value: self.value.add(other.value),
            slope: self.slope.add(other.slope),
        }
    }

    fn mul(self, other: Pair<S>) -> Pair<S> {
        Pair {
            value: self.value.mul(other.value),
            slope: self.value.mul(other.slope).add(self.slope.mul(other.value)),
        }
    }

    fn neg(self) -> Pair<S> {
        Pair {
            value: self.value.neg(),
            slope: self.slope.neg(),
        }
    }

    fn is_zero(self) -> bool {
        self.value.is_zero() && self.slope.is_zero()
    }
}
