//! What the scalars answer at their edges.
use scalar::{Ordered, Pair, Residue, Scalar, Scale, Wrap};
use std::ops::Mul;

#[test]
fn a_residue_means_its_remainder(rt: HostRuntime) {
    assert_eq!(rt; Residue(2147483650).add(Residue(0)).0, 3);
    assert_eq!(rt; Residue(2147483650).mul(Residue(5)).0, 15);
    assert_eq!(rt; Residue(2).neg().0, 2147483645);
    assert!(rt; Residue(2147483647).is_zero());
    assert!(rt; Residue(2147483650) == Residue(3));
}

#[test]
fn wraps_past_the_last(rt: HostRuntime) {
    assert_eq!(rt; Wrap(18446744073709551615).add(Wrap(3)).0, 2);
    assert_eq!(rt; Wrap(1).neg().0, 18446744073709551615);
    assert_eq!(rt; Wrap(4294967296).mul(Wrap(4294967296)).0, 0);
}

#[test]
fn a_pair_carries_the_slope_of_a_product(rt: HostRuntime) {
    let x = Pair {
        value: Wrap(5),
        slope: Wrap(1),
    };
    let cube = x.mul(x).mul(x);
    assert_eq!(rt; cube.value.0, 125);
    assert_eq!(rt; cube.slope.0, 75);
}

#[test]
fn floats_at_zero_and_not_a_number(rt: HostRuntime) {
    assert!(rt; Scalar::is_zero(-0.0f64));
    assert!(rt; !(-0.0f64).equal(0.0));
    assert!(rt; (0.0f64 / 0.0).equal(0.0 / 0.0));
    assert!(rt; Ordered::greater(0.0f64 / 0.0, 2.0) == 2.0);
    assert!(rt; Ordered::greater(2.0f64, 0.0 / 0.0) == 2.0);
    assert!(rt; <f32 as Ordered>::of_count(65536) == 65536.0);
}

#[test]
fn factors_combine_as_scalars(rt: HostRuntime) {
    assert!(rt; (Scale(2.0f64) * Scale(3.0)).value() == 6.0);
    assert!(rt; (Scale(Wrap(2)) - Scale(Wrap(3))).value().0 == 18446744073709551615);
    assert!(rt; Scale(0.0f64) == Scale(-0.0));
}
