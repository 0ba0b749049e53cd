//! What the index calls and batched_axpy write, keep and refuse.
use crate::number;
use index::{assign_at_indices, copy_from_indices, fill_index, gather, scatter};
use scalar::{Scale, Wrap};
use shape::Column;
use std::test::Fail;
use vector::batched_axpy;

#[test]
fn gather_repeats_a_row(rt: HostRuntime) -> Result<(), Fail> {
    let mut y = [Wrap(0); 3];
    let x = [Wrap(10), Wrap(20)];
    gather(
        Column::vector(2, 1),
        &x,
        &[1, 1, 0],
        Column::vector(3, 1),
        &mut y,
    )?;
    assert_eq!(rt; y[0].0, 20);
    assert_eq!(rt; y[1].0, 20);
    assert_eq!(rt; y[2].0, 10);
    Ok(())
}

#[test]
fn the_later_entry_of_scatter_wins(rt: HostRuntime) -> Result<(), Fail> {
    let mut y = [Wrap(1), Wrap(2), Wrap(3)];
    let x = [Wrap(10), Wrap(20)];
    scatter(
        Column::vector(2, 1),
        &x,
        &[2, 2],
        Column::vector(3, 1),
        &mut y,
    )?;
    assert_eq!(rt; y[0].0, 1);
    assert_eq!(rt; y[1].0, 2);
    assert_eq!(rt; y[2].0, 20);
    Ok(())
}

#[test]
fn the_length_comes_before_the_indices(rt: HostRuntime) {
    let mut y = [Wrap(1), Wrap(2)];
    let v = Column::vector(2, 1);
    let x = [Wrap(10), Wrap(20)];
    assert_eq!(rt; number(gather(v, &x, &[7], v, &mut y)), 9);
    assert_eq!(rt; number(gather(v, &x, &[0, 2], v, &mut y)), 10);
    assert_eq!(rt; number(copy_from_indices(v, &x, &[1, 2], v, &mut y)), 10);
    assert_eq!(rt; y[0].0, 1);
    assert_eq!(rt; y[1].0, 2);
}

#[test]
fn named_rows_only(rt: HostRuntime) -> Result<(), Fail> {
    let mut y = [Wrap(1), Wrap(2), Wrap(3), Wrap(4)];
    let v = Column::vector(2, 2);
    assign_at_indices(&[1], Wrap(9), v, &mut y)?;
    assert_eq!(rt; y[1].0, 9);
    fill_index(0, Wrap(7), v, &mut y)?;
    assert_eq!(rt; y[0].0, 7);
    assert_eq!(rt; y[2].0, 7);
    assert_eq!(rt; y[3].0, 9);
    Ok(())
}

#[test]
fn a_factor_for_each_lane(rt: HostRuntime) -> Result<(), Fail> {
    let mut y = [Wrap(1), Wrap(1)];
    let lanes = Column::vector(1, 2);
    let factors = [Wrap(3), Wrap(5)];
    let x = [Wrap(10)];
    batched_axpy(
        lanes,
        &factors,
        Column::vector(1, 1),
        &x,
        Scale(Wrap(1)),
        lanes,
        &mut y,
    )?;
    assert_eq!(rt; y[0].0, 31);
    assert_eq!(rt; y[1].0, 51);
    let one = Column::vector(1, 1);
    assert_eq!(rt;
        number(batched_axpy(one, &x, one, &x, Scale(Wrap(1)), lanes, &mut y)),
        8
    );
    Ok(())
}
