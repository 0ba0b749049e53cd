//! Floats as the lists write them: their bits in hexadecimal, with one not-a-number.

use scalar::{Ordered, Scalar};
use std::num;

/// A float of a list.
pub trait Stored: Scalar + Ordered {
    /// The bits, those of the one not-a-number for any.
    fn bits(self) -> u64;

    /// The float that a field stands for; a field that is too long stands for none.
    fn read(field: &str) -> Option<Self>;

    /// BLAS's own test takes this value where the other is published.
    fn passes(self, published: Self) -> bool;
}

impl Stored for f64 {
    fn bits(self) -> u64 {
        num::f64_to_bits_with_nan(self)
    }

    fn read(field: &str) -> Option<f64> {
        let bits = u64::from_str_radix(field, 16).ok()?;
        Some(num::f64_from_bits_with_nan(bits))
    }

    fn passes(self, published: f64) -> bool {
        let distance = 9.765625e-4 * f64::abs(self - published);
        distance <= 1.17 * 2.220446049250313e-16
    }
}

impl Stored for f32 {
    fn bits(self) -> u64 {
        num::f32_to_bits_with_nan(self) as u64
    }

    fn read(field: &str) -> Option<f32> {
        let bits = u32::from_str_radix(field, 16).ok()?;
        Some(num::f32_from_bits_with_nan(bits))
    }

    fn passes(self, published: f32) -> bool {
        let distance = 9.765625e-4 * f32::abs(self - published);
        distance <= 1.17 * 1.1920929e-7
    }
}
