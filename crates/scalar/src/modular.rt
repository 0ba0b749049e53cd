//! The two exact number types: 64-bit numbers modulo 2^64, and numbers modulo 2,147,483,647.
ghost use Rattle.std.specs.Prelude.{◌≡◌, ℕ, ◌^◌, ◌<◌, ◌==◌, Bool, true, Decides};
ghost use Rattle.scalar.specs.Ops.{Ops};
ghost use Rattle.scalar.specs.Modular.{Below, modulus, wrap, wraps, residue, residues};
ghost use Rattle.scalar.specs.ModularRing.{below_set, modular_ring};
ghost use Rattle.std.proofs.Common.{lit<, rules};
ghost use Rattle.std.specs.Cmp.Rules.{comparing};
ghost use Rattle.std.specs.Ordering.{on};

use crate::Scalar;

/// A number modulo 2^64. Every stored number is its own meaning.
#[derive(Clone, Copy, PartialEq, Debug)]
pub struct Wrap(pub u64);

impl Scalar for Wrap {
    ghost Meaning = { Below (2 ^ 64) };

    ghost means = { λ w. wrap w.0 };

    ghost ops = { wraps };

    ghost exact = { Unit {0} };

    ghost set = { below_set (2 ^ 64) };

    ghost zero_is_zero = { Prim.search rules };

    ghost ring = { λ _. modular_ring (2 ^ 64) (lit< tt) };

    fn zero() -> Wrap {
        Wrap(0)
    }

    fn one() -> Wrap {
        Wrap(1)
    }

    fn add(self, other: Wrap) -> Wrap {
        Wrap(self.0.wrapping_add(other.0))
    }

    fn mul(self, other: Wrap) -> Wrap {
        Wrap(self.0.wrapping_mul(other.0))
    }

    fn neg(self) -> Wrap {
        Wrap(self.0.wrapping_neg())
    }

    fn is_zero(self) -> bool {
        self.0 == 0
    }
}

const MODULUS: u64 = 2147483647;

/// A number modulo 2,147,483,647. A plain record: any stored number is lawful and means its
/// remainder, so 2,147,483,650 means 3. Every answer of an operation is stored below the modulus.
#[derive(Clone, Copy, Debug)]
pub struct Residue(pub u64);

impl From<u64> for Residue {
    // What any number means, stored below the modulus.
    ghost from_gives = { λ number r. (residue r.0 ≡ residue number) × (r.0 < modulus) };

    fn from(number: u64) -> Residue {
        Residue(number % MODULUS)
    }
}

impl PartialEq for Residue {
    // whether both mean the same
    ghost eq = { on (λ r. (residue r.0).number) ◌==◌ };

    ghost laws = { Prim.search (comparing, rules) };

    fn eq(&self, other: &Residue) -> bool
        ensures eq { result ≡ ((residue self.now.0).number == (residue other.now.0).number) }
        ensures meanings { Decides result (residue self.now.0 ≡ residue other.now.0) }
    {
        self.0 % MODULUS == other.0 % MODULUS
    }
}

impl Scalar for Residue {
    ghost Meaning = { Below modulus };

    ghost means = { λ w. residue w.0 };

    ghost ops = { residues };

    ghost exact = { Unit {0} };

    ghost set = { below_set modulus };

    ghost zero_is_zero = { Prim.search rules };

    ghost ring = { λ _. modular_ring modulus (lit< tt) };

    fn zero() -> Residue
        ensures means { residue result.0 ≡ residues.zero }
        ensures stored { result.0 < modulus }
    {
        Residue(0)
    }

    fn one() -> Residue
        ensures means { residue result.0 ≡ residues.one }
        ensures stored { result.0 < modulus }
    {
        Residue(1)
    }

    fn add(self, other: Residue) -> Residue
        ensures means { residue result.0 ≡ residues.plus (residue self.0) (residue other.0) }
        ensures stored { result.0 < modulus }
    {
        Residue::from(self.0 % MODULUS + other.0 % MODULUS)
    }

    fn mul(self, other: Residue) -> Residue
        ensures means { residue result.0 ≡ residues.times (residue self.0) (residue other.0) }
        ensures stored { result.0 < modulus }
    {
        Residue::from((self.0 % MODULUS) * (other.0 % MODULUS))
    }

    fn neg(self) -> Residue
        ensures means { residue result.0 ≡ residues.minus (residue self.0) }
        ensures stored { result.0 < modulus }
    {
        Residue::from(MODULUS - self.0 % MODULUS)
    }

    fn is_zero(self) -> bool {
        self.0 % MODULUS == 0
    }
}
