//! A script of a step of each kind, and two that are refused, on three lanes: forward on a state and
//! back on weights, exactly and in f64. In each lane it prints what the state at the end pairs to with
//! the weights, and what the state at the beginning pairs to with the weights carried back.
#![tactic(auto)]

use pairing::pairings;
use scalar::Residue;
use shape::{Refusal, TableShape};
use state::{Parts, Script, StepRecord};
use std::{io, num};
use steps::Kind;
use sweep::run_script;

const LANES: usize = 3;

/// A table of two rows and four columns in each lane.
const SHAPE: TableShape = TableShape {
    rows: 2,
    cols: 4,
    lanes: LANES,
};

/// The table D, lane after lane and column after column, and the vectors u and v.
const TABLE: [u64; 24] = [
    90, 120, 3, 2, 1, 0, 0, 1, 75, 105, 2, 2, 0, 1, 1, 0, 110, 150, 4, 5, 1, 1, 0, 0,
];

const FIRST: [u64; 6] = [95, 126, 78, 108, 116, 157];

const SECOND: [u64; 6] = [10, 15, 10, 15, 10, 15];

/// The weights E, p and q.
const TABLE_WEIGHTS: [u64; 24] = [
    1, 2, 3, 4, 5, 6, 7, 8, 9, 10, 11, 12, 13, 14, 15, 16, 17, 18, 19, 20, 21, 22, 23, 24,
];

const FIRST_WEIGHTS: [u64; 6] = [6, 5, 4, 3, 2, 1];

const SECOND_WEIGHTS: [u64; 6] = [1, 1, 2, 2, 3, 3];

/// The numbers of the steps: M of two columns; a, b and two coefficients; a and b; a.
const NUMBERS: [u64; 11] = [1, 2, 0, 1, 2, 1, 3, 1, 2, 3, 5];

/// The lists of the steps, two rows each; the last names a row that is not there.
const INDICES: [usize; 6] = [1, 1, 1, 0, 0, 2];

const STEPS: usize = 12;

/// What each step answered.
type Answers = [Result<(), Refusal>; STEPS];

/// A step with `count` numbers from `place` on, and no list.
fn plain(kind: Kind, place: usize, count: usize) -> StepRecord {
    StepRecord {
        kind,
        numbers_at: place,
        number_count: count,
        list_at: 0,
        list_count: 0,
    }
}

/// A step with a list of two rows from `place` on, and no numbers.
fn listed(kind: Kind, place: usize) -> StepRecord {
    StepRecord {
        kind,
        numbers_at: 0,
        number_count: 0,
        list_at: place,
        list_count: 2,
    }
}

/// A step of each kind, and two that are refused.
fn steps() -> [StepRecord; STEPS] {
    [
        plain(Kind::Update { order: 1 }, 0, 0),
        plain(Kind::Cols { count: 2 }, 0, 4),
        plain(Kind::SumCol { start: 0, end: 2 }, 4, 4),
        plain(Kind::AddCol { column: 3 }, 0, 0),
        plain(Kind::AddCol { column: 4 }, 0, 0),
        plain(Kind::SetCol { column: 0 }, 0, 0),
        plain(Kind::Axpy, 8, 2),
        plain(Kind::Copy, 0, 0),
        plain(Kind::Scale, 10, 1),
        listed(Kind::Gather, 0),
        listed(Kind::Scatter, 2),
        listed(Kind::Gather, 4),
    ]
}

/// The script in the scalars that `$of` makes of whole numbers: each step's answer, the pairings of
/// the state at the end with the weights, and of the state at the beginning with the weights carried
/// back.
macro_rules! outcome {
    ($of:path, $zero:expr, $answers:expr, $after:expr, $before:expr) => {{
        let steps = steps();
        let numbers = NUMBERS.map($of);
        let indices = INDICES;
        let script = Script {
            steps: &steps,
            numbers: &numbers,
            indices: &indices,
        };
        let state = (TABLE.map($of), FIRST.map($of), SECOND.map($of));
        let weights = (
            TABLE_WEIGHTS.map($of),
            FIRST_WEIGHTS.map($of),
            SECOND_WEIGHTS.map($of),
        );
        let (mut d, mut u, mut v) = state;
        let (mut e, mut p, mut q) = weights;
        let mut sums = [$zero; 6];
        let mut work = [$zero; 8];
        let mut lent = Parts::lend(&mut d, &mut u, &mut v);
        let mut lent_weights = Parts::lend(&mut e, &mut p, &mut q);
        run_script(
            SHAPE,
            script,
            &mut lent,
            &mut lent_weights,
            &mut sums,
            &mut work,
            $answers,
        )?;
        let end = Parts {
            table: &d[..],
            first: &u[..],
            second: &v[..],
        };
        let given = Parts {
            table: &weights.0[..],
            first: &weights.1[..],
            second: &weights.2[..],
        };
        pairings(SHAPE, end, given, $after)?;
        let beginning = Parts {
            table: &state.0[..],
            first: &state.1[..],
            second: &state.2[..],
        };
        let carried = Parts {
            table: &e[..],
            first: &p[..],
            second: &q[..],
        };
        pairings(SHAPE, beginning, carried, $before)
    }};
}

fn exact(
    answers: &mut Answers,
    after: &mut [Residue; LANES],
    before: &mut [Residue; LANES],
) -> Result<(), Refusal> {
    outcome!(Residue::from, Residue(0), answers, after, before)
}

fn in_floats(
    answers: &mut Answers,
    after: &mut [f64; LANES],
    before: &mut [f64; LANES],
) -> Result<(), Refusal> {
    outcome!(num::nearest_u64_to_f64, 0.0, answers, after, before)
}

fn show_refused(rt: &HostRuntime, answers: &Answers) -> io::Result<()> {
    for (place, answer) in answers.iter().enumerate() {
        if let Err(refusal) = answer {
            let number = refusal.number();
            println!(rt; "step {place} refused with {number}: {refusal}")?;
        }
    }
    Ok(())
}

fn show_exact(rt: &HostRuntime) -> io::Result<()> {
    let mut answers = [Ok(()); STEPS];
    let mut after = [Residue(0); LANES];
    let mut before = [Residue(0); LANES];
    if let Err(refusal) = exact(&mut answers, &mut after, &mut before) {
        return println!(rt; "refused: {refusal}");
    }
    show_refused(rt, &answers)?;
    for (lane, (end, beginning)) in after.iter().zip(&before).enumerate() {
        let end = end.0;
        let beginning = beginning.0;
        println!(rt; "lane {lane}: pairing {end} after, {beginning} before, exact")?;
    }
    Ok(())
}

fn show_in_floats(rt: &HostRuntime) -> io::Result<()> {
    let mut answers = [Ok(()); STEPS];
    let mut after = [0.0; LANES];
    let mut before = [0.0; LANES];
    if let Err(refusal) = in_floats(&mut answers, &mut after, &mut before) {
        return println!(rt; "refused: {refusal}");
    }
    for (lane, (end, beginning)) in after.iter().zip(&before).enumerate() {
        let apart = *end - *beginning;
        println!(rt; "lane {lane}: pairing {end} after, {beginning} before, {apart} apart in f64")?;
    }
    Ok(())
}

fn main(rt: HostRuntime) -> io::Result<()> {
    println!(&rt;
        "a script of {STEPS} steps on {LANES} lanes, forward on a state and back on weights"
    )?;
    show_exact(&rt)?;
    show_in_floats(&rt)
}
