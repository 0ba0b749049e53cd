//! Scalars of whole numbers: what a whole number is stored as, and the number that a scalar means.
ghost use Rattle.std.specs.Prelude.{◌≡◌, ℕ, ◌%◌, ◌^◌, ℤ, List, map, length};
ghost use Rattle.scalar.specs.Modular.{modulus};
ghost use Rattle.exact.specs.Values.{code};

use scalar::{Residue, Scalar, Wrap};

/// An exact scalar that whole numbers are read into, and whose meanings are written as numbers.
pub trait Entry: Scalar {
    // What a whole number is stored as: a negative one as the modulus less its size.
    ghost stored: { ℤ → Self };

    // The number below the modulus that is meant.
    ghost meant: { Self → ℕ };

    fn from_value(value: i64) -> Self
        ensures { result ≡ stored value };

    fn number(self) -> u64
        ensures { result ≡ meant self };
}

impl Entry for Wrap {
    ghost stored = { λ v. record { 0 = code (2 ^ 64) v } };

    ghost meant = { λ s. s.0 % 2 ^ 64 };

    fn from_value(value: i64) -> Wrap {
        let size = value.unsigned_abs();
        if value < 0 {
            Wrap(u64::MAX - size + 1)
        } else {
            Wrap(size)
        }
    }

    fn number(self) -> u64 {
        self.0
    }
}

const MODULUS: u64 = 2147483647;

impl Entry for Residue {
    ghost stored = { λ v. record { 0 = code modulus v } };

    ghost meant = { λ s. s.0 % modulus };

    fn from_value(value: i64) -> Residue {
        let size = value.unsigned_abs();
        if value < 0 {
            Residue(MODULUS - size % MODULUS)
        } else {
            Residue(size)
        }
    }

    fn number(self) -> u64 {
        self.0 % MODULUS
    }
}

/// Whole numbers into memory of as many scalars.
pub(crate) fn fill<S: Entry>(to: &mut [S], values: &[i64])
    requires { length to.old ≡ length values.now }
    ensures { to.new ≡ map S.stored values.now }
{
    for (place, entry) in to.iter_mut().enumerate() {
        *entry = S::from_value(values[place]);
    }
}

/// The numbers that scalars mean, into memory of as many numbers.
pub(crate) fn number_all<S: Entry>(to: &mut [u64], scalars: &[S])
    requires { length to.old ≡ length scalars.now }
    ensures { to.new ≡ map S.meant scalars.now }
{
    for (place, entry) in to.iter_mut().enumerate() {
        *entry = scalars[place].number();
    }
}
