//! One load, broadcast by axpy to the rest times of three lanes: exact and in f64 side by side.
#![tactic(auto)]

use norm::{root_finding, squared_norm};
use scalar::{Residue, Scale};
use shape::{Column, Refusal};
use std::io;
use vector::axpy;

const ROWS: usize = 2;

const LANES: usize = 3;

/// Rest times in whole seconds, two repeats in each lane.
const REST: [Residue; 6] = [
    Residue(90),
    Residue(120),
    Residue(75),
    Residue(105),
    Residue(110),
    Residue(150),
];

fn show(rt: &HostRuntime, when: &str, exact: &[Residue; 6], float: &[f64; 6]) -> io::Result<()> {
    for lane in 0..LANES {
        let first = exact[lane * ROWS].0;
        let second = exact[lane * ROWS + 1].0;
        let near_first = float[lane * ROWS];
        let near_second = float[lane * ROWS + 1];
        println!(rt;
            "{when} lane {lane}: {first} {second} exact, {near_first} {near_second} in f64"
        )?;
    }
    Ok(())
}

fn told(rt: &HostRuntime, answer: Result<(), Refusal>) -> io::Result<()> {
    match answer {
        Ok(()) => println!(rt; "accepted"),
        Err(refusal) => {
            let number = refusal.number();
            println!(rt; "refused with {number}: {refusal}")
        }
    }
}

/// The error norm of a step over three lanes, and where two functions of it change sign.
fn judge(rt: &HostRuntime) -> io::Result<()> {
    let error = [0.5, 1.5, -0.25, 0.75, 1.0, -2.0];
    let rest = [90.0, 120.0, 75.0, 105.0, 110.0, 150.0];
    let three = Column::vector(ROWS, LANES);
    let one = Column::vector(ROWS, 1);
    match squared_norm(three, &error, three, &rest, Scale(0.01), one, &[0.1, 0.1]) {
        Ok(norm) => println!(rt; "squared norm of the error: {norm}")?,
        Err(refusal) => told(rt, Err(refusal))?,
    }
    match root_finding(one, &[1.0, -1.0], one, &[-1.0, 3.0]) {
        Ok((found, fraction, row)) => {
            println!(rt; "root: at zero {found}, fraction {fraction}, row {row}")
        }
        Err(refusal) => told(rt, Err(refusal)),
    }
}

/// One load for every lane, and then a load whose lanes do not fit.
fn spread_load(rt: &HostRuntime) -> io::Result<()> {
    let mut exact = REST;
    let mut float = [90.0, 120.0, 75.0, 105.0, 110.0, 150.0];
    let rest = Column::vector(ROWS, LANES);
    let load = Column::vector(ROWS, 1);
    show(rt, "before", &exact, &float)?;
    println!(rt; "rest becomes 2 load + 1 rest, one load of 10 15 for every lane")?;
    let x = [Residue(10), Residue(15)];
    told(
        rt,
        axpy(
            Scale(Residue(2)),
            load,
            &x,
            Scale(Residue(1)),
            rest,
            &mut exact,
        ),
    )?;
    told(
        rt,
        axpy(
            Scale(2.0),
            load,
            &[10.0, 15.0],
            Scale(1.0),
            rest,
            &mut float,
        ),
    )?;
    show(rt, "after", &exact, &float)?;
    println!(rt; "the same from a load of two lanes")?;
    let two = Column::vector(ROWS, 2);
    let xs = [10.0, 15.0, 20.0, 25.0];
    told(rt, axpy(Scale(2.0), two, &xs, Scale(1.0), rest, &mut float))?;
    show(rt, "still", &exact, &float)
}

fn main(rt: HostRuntime) -> io::Result<()> {
    spread_load(&rt)?;
    judge(&rt)
}
