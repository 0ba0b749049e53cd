//! What the vector calls write, keep and refuse.
use crate::number;
use scalar::{Residue, Scale, Wrap};
use shape::{Column, TableShape};
use std::test::Fail;
use vector::{axpy, copy_from, div_assign, sub_into};

#[test]
fn axpy_at_minus_zero_drops_y(rt: HostRuntime) -> Result<(), Fail> {
    let v = Column::vector(2, 1);
    let mut y = [0.0 / 0.0, 7.0];
    axpy(Scale(2.0), v, &[1.5, 2.5], Scale(-0.0), v, &mut y)?;
    assert!(rt; y[0] == 3.0);
    assert!(rt; y[1] == 5.0);
    Ok(())
}

#[test]
fn axpy_reads_any_stored_residue(rt: HostRuntime) -> Result<(), Fail> {
    let v = Column::vector(1, 1);
    let mut y = [Residue(2147483648)];
    let x = [Residue(2147483650)];
    axpy(Scale(Residue(2)), v, &x, Scale(Residue(4)), v, &mut y)?;
    assert_eq!(rt; y[0].0, 10);
    Ok(())
}

#[test]
fn two_lanes_go_into_six(rt: HostRuntime) -> Result<(), Fail> {
    let mut y = [Wrap(0); 6];
    copy_from(
        Column::vector(1, 2),
        &[Wrap(4), Wrap(9)],
        Column::vector(1, 6),
        &mut y,
    )?;
    assert_eq!(rt; y[0].0, 4);
    assert_eq!(rt; y[2].0, 4);
    assert_eq!(rt; y[3].0, 9);
    assert_eq!(rt; y[5].0, 9);
    Ok(())
}

#[test]
fn a_column_is_written_and_nothing_else(rt: HostRuntime) -> Result<(), Fail> {
    let t = TableShape {
        rows: 2,
        cols: 2,
        lanes: 2,
    };
    let mut cells = [
        Wrap(1),
        Wrap(2),
        Wrap(3),
        Wrap(4),
        Wrap(5),
        Wrap(6),
        Wrap(7),
        Wrap(8),
    ];
    sub_into(
        Column::vector(2, 1),
        &[Wrap(10), Wrap(20)],
        t.column(1),
        &mut cells,
    )?;
    assert_eq!(rt; cells[0].0, 1);
    assert_eq!(rt; cells[1].0, 2);
    assert_eq!(rt; cells[2].0, 7);
    assert_eq!(rt; cells[3].0, 16);
    assert_eq!(rt; cells[4].0, 5);
    assert_eq!(rt; cells[5].0, 6);
    assert_eq!(rt; cells[6].0, 3);
    assert_eq!(rt; cells[7].0, 12);
    Ok(())
}

#[test]
fn the_lowest_number_is_given(rt: HostRuntime) {
    let mut y = [1.0; 6];
    let six = Column::vector(1, 6);
    assert_eq!(rt;
        number(copy_from(Column::vector(1, 4), &[1.0; 4], six, &mut y)),
        8
    );
    assert_eq!(rt;
        number(copy_from(Column::vector(1, 4), &[1.0; 3], six, &mut y)),
        3
    );
    assert_eq!(rt;
        number(copy_from(Column::vector(2, 4), &[1.0; 8], six, &mut y)),
        7
    );
    assert_eq!(rt;
        number(copy_from(Column::vector(65537, 0), &[], six, &mut y)),
        1
    );
    assert_eq!(rt;
        number(copy_from(Column::vector(65537, 1), &[], six, &mut y)),
        2
    );
    let huge = Column::vector(18446744073709551615, 18446744073709551615);
    assert_eq!(rt; number(copy_from(huge, &[], six, &mut y)), 2);
    assert!(rt; y[0] + y[5] == 2.0);
}

#[test]
fn a_quotient_divides_each_entry(rt: HostRuntime) -> Result<(), Fail> {
    let v = Column::vector(2, 1);
    let mut y = [49.0, 1e-310];
    div_assign(Scale(49.0), v, &mut y)?;
    assert!(rt; y[0] == 1.0);
    let mut tiny = [1e-310, 0.0];
    div_assign(Scale(1e-310), v, &mut tiny)?;
    assert!(rt; tiny[0] == 1.0);
    assert!(rt; tiny[1] == 0.0);
    Ok(())
}
