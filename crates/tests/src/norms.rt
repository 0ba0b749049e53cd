//! The norm and the roots on small lanes.
use norm::{root_finding, squared_norm};
use scalar::Scale;
use shape::Column;
use std::test::Fail;

#[test]
fn a_norm_takes_the_greatest_lane(rt: HostRuntime) -> Result<(), Fail> {
    let x = [1.0, 1.0, 3.0, 1.0];
    let two = Column::vector(2, 2);
    let one = Column::vector(2, 1);
    let norm = squared_norm(two, &x, one, &[0.0, 0.0], Scale(0.5), one, &[1.0, 1.0])?;
    assert!(rt; norm == 5.0);
    Ok(())
}

#[test]
fn a_lone_lane_keeps_not_a_number(rt: HostRuntime) -> Result<(), Fail> {
    let one = Column::vector(1, 1);
    let norm: f64 = squared_norm(one, &[0.0], one, &[0.0], Scale(0.5), one, &[0.0])?;
    assert!(rt; norm.is_nan());
    let two = Column::vector(1, 2);
    let most = squared_norm(two, &[0.0, 2.0], one, &[0.0], Scale(0.5), two, &[0.0, 1.0])?;
    assert!(rt; most == 4.0);
    Ok(())
}

#[test]
fn roots_of_three_functions(rt: HostRuntime) -> Result<(), Fail> {
    let v = Column::vector(3, 1);
    let (found, fraction, row) = root_finding(v, &[1.0, -1.0, 2.0], v, &[-1.0, 3.0, 0.0])?;
    assert!(rt; found);
    assert!(rt; fraction == 0.75);
    assert_eq!(rt; row, 1);
    Ok(())
}

#[test]
fn lanes_must_say_the_same(rt: HostRuntime) -> Result<(), Fail> {
    let two = Column::vector(1, 2);
    let answer = root_finding(two, &[1.0, 1.0], two, &[-1.0, -3.0]);
    match answer {
        Ok(_) => Err(Fail::new("accepted")),
        Err(refusal) => {
            assert_eq!(rt; refusal.number(), 11);
            Ok(())
        },
    }
}
