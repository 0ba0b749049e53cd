//! Pairings, and a script forward and back.
use by_hand::run_first;
use pairing::pairings;
use scalar::Wrap;
use shape::{Refusal, TableShape};
use state::{Parts, Script, StepRecord};
use std::test::Fail;
use steps::Kind;
use sweep::{Sweep, Turned, run_script};

const SHAPE: TableShape = TableShape {
    rows: 1,
    cols: 3,
    lanes: 1,
};

fn step(kind: Kind, number_count: usize, list_count: usize) -> StepRecord {
    StepRecord {
        kind,
        numbers_at: 0,
        number_count,
        list_at: 0,
        list_count,
    }
}

#[test]
fn a_pairing_adds_all_products(rt: HostRuntime) -> Result<(), Fail> {
    let d = [Wrap(2), Wrap(3), Wrap(5)];
    let e = [Wrap(1), Wrap(10), Wrap(100)];
    let mut sums = [Wrap(0)];
    let of = Parts {
        table: &d[..],
        first: &[Wrap(7)][..],
        second: &[Wrap(11)][..],
    };
    let with = Parts {
        table: &e[..],
        first: &[Wrap(1000)][..],
        second: &[Wrap(10000)][..],
    };
    pairings(SHAPE, of, with, &mut sums)?;
    assert_eq!(rt; sums[0].0, 117532);
    Ok(())
}

#[test]
fn a_run_keeps_the_pairing(rt: HostRuntime) -> Result<(), Fail> {
    let steps = [
        step(Kind::Update { order: 0 }, 0, 0),
        step(Kind::Update { order: 1 }, 0, 0),
        step(Kind::Scale, 1, 0),
        step(Kind::Copy, 0, 0),
    ];
    let numbers = [Wrap(3)];
    let script = Script {
        steps: &steps,
        numbers: &numbers,
        indices: &[],
    };
    let mut d = [Wrap(2), Wrap(3), Wrap(5)];
    let mut u = [Wrap(7)];
    let mut v = [Wrap(0)];
    let mut e = [Wrap(1), Wrap(10), Wrap(100)];
    let mut p = [Wrap(4)];
    let mut q = [Wrap(6)];
    let mut sums = [Wrap(0)];
    let mut work = [Wrap(0); 8];
    let mut answers = [Ok(()); 4];
    let mut state = Parts::lend(&mut d, &mut u, &mut v);
    let mut weights = Parts::lend(&mut e, &mut p, &mut q);
    run_script(
        SHAPE,
        script,
        &mut state,
        &mut weights,
        &mut sums,
        &mut work,
        &mut answers,
    )?;
    // The table becomes (9, 7, 4), the vectors 21.
    assert_eq!(rt; d[0].0, 9);
    assert_eq!(rt; d[1].0, 7);
    assert_eq!(rt; d[2].0, 4);
    assert_eq!(rt; u[0].0, 21);
    assert_eq!(rt; v[0].0, 21);
    // Back: p is (4 + 6)·3 and the sum 111 of the weights' columns.
    assert_eq!(rt; p[0].0, 141);
    assert_eq!(rt; q[0].0, 0);
    assert_eq!(rt; e[0].0, 1);
    assert_eq!(rt; e[1].0, 18446744073709551516);
    assert_eq!(rt; e[2].0, 0);
    assert!(rt; answers[0].is_ok());
    assert!(rt; answers[1] == Err(Refusal::NoColumn));
    assert!(rt; answers[3].is_ok());
    // The end with the weights, and the beginning with the weights carried back.
    let end = Parts {
        table: &d[..],
        first: &u[..],
        second: &v[..],
    };
    let given = Parts {
        table: &[Wrap(1), Wrap(10), Wrap(100)][..],
        first: &[Wrap(4)][..],
        second: &[Wrap(6)][..],
    };
    let mut pairing = [Wrap(0)];
    pairings(SHAPE, end, given, &mut pairing)?;
    assert_eq!(rt; pairing[0].0, 689);
    let beginning = Parts {
        table: &[Wrap(2), Wrap(3), Wrap(5)][..],
        first: &[Wrap(7)][..],
        second: &[Wrap(0)][..],
    };
    let carried = Parts {
        table: &e[..],
        first: &p[..],
        second: &q[..],
    };
    pairings(SHAPE, beginning, carried, &mut pairing)?;
    assert_eq!(rt; pairing[0].0, 689);
    Ok(())
}

#[test]
fn a_sweep_with_no_step_left(rt: HostRuntime) -> Result<(), Fail> {
    let script = Script {
        steps: &[],
        numbers: &[],
        indices: &[],
    };
    let mut d = [Wrap(2), Wrap(3), Wrap(5)];
    let mut u = [Wrap(7)];
    let mut v = [Wrap(0)];
    let mut work = [Wrap(0); 8];
    let mut sweep = Sweep::open(SHAPE).map_err(|_| Fail::new("refused"))?;
    let mut state = Parts::lend(&mut d, &mut u, &mut v);
    match sweep.step(script, &mut state, &mut work) {
        Ok(()) => Err(Fail::new("taken")),
        Err(fault) => {
            assert_eq!(rt; fault.refusal.number(), 12);
            assert_eq!(rt; fault.place, 0);
            Ok(())
        }
    }
}

#[test]
fn the_first_steps_by_hand(rt: HostRuntime) -> Result<(), Fail> {
    let steps = [
        step(Kind::Update { order: 0 }, 0, 0),
        step(Kind::Scale, 1, 0),
        step(Kind::Copy, 0, 0),
    ];
    let numbers = [Wrap(3)];
    let script = Script {
        steps: &steps,
        numbers: &numbers,
        indices: &[],
    };
    let mut d = [Wrap(2), Wrap(3), Wrap(5)];
    let mut u = [Wrap(7)];
    let mut v = [Wrap(0)];
    let mut e = [Wrap(1), Wrap(10), Wrap(100)];
    let mut p = [Wrap(4)];
    let mut q = [Wrap(6)];
    let mut sums = [Wrap(0)];
    let mut work = [Wrap(0); 8];
    let mut answers = [Err(Refusal::NoStep); 2];
    let mut state = Parts::lend(&mut d, &mut u, &mut v);
    let mut weights = Parts::lend(&mut e, &mut p, &mut q);
    run_first(
        SHAPE,
        script,
        &mut state,
        &mut weights,
        &mut sums,
        &mut work,
        &mut answers,
    )?;
    // The copy is not taken, so v is as it was, and its weight q too.
    assert_eq!(rt; d[0].0, 9);
    assert_eq!(rt; u[0].0, 21);
    assert_eq!(rt; v[0].0, 0);
    assert!(rt; answers[1].is_ok());
    // Back: p is 4·3 and the sum 111 of the weights' columns.
    assert_eq!(rt; p[0].0, 123);
    assert_eq!(rt; q[0].0, 6);
    assert_eq!(rt; e[0].0, 1);
    Ok(())
}

#[test]
fn a_sweep_goes_on_from_a_count(rt: HostRuntime) -> Result<(), Fail> {
    let steps = [
        step(Kind::Update { order: 0 }, 0, 0),
        step(Kind::Scale, 1, 0),
        step(Kind::Copy, 0, 0),
    ];
    let numbers = [Wrap(3)];
    let script = Script {
        steps: &steps,
        numbers: &numbers,
        indices: &[],
    };
    let mut d = [Wrap(9), Wrap(7), Wrap(4)];
    let mut u = [Wrap(7)];
    let mut v = [Wrap(0)];
    let mut e = [Wrap(1), Wrap(10), Wrap(100)];
    let mut p = [Wrap(4)];
    let mut q = [Wrap(6)];
    let mut sums = [Wrap(0)];
    let mut work = [Wrap(0); 8];
    let mut state = Parts::lend(&mut d, &mut u, &mut v);
    let mut weights = Parts::lend(&mut e, &mut p, &mut q);
    // The update was taken elsewhere: the scaling is the next step.
    let mut sweep = Sweep {
        shape: SHAPE,
        taken: 1,
    };
    assert!(rt; sweep.step(script, &mut state, &mut work).is_ok());
    assert_eq!(rt; sweep.taken, 2);
    assert_eq!(rt; sweep.shape.cols, 3);
    // Other weights go back through the first two steps, with no run forward.
    let mut turned = Turned {
        shape: SHAPE,
        left: 2,
    };
    assert!(rt;
        turned
            .back(script, &mut weights, &mut sums, &mut work)
            .is_ok()
    );
    assert_eq!(rt; turned.left, 1);
    assert_eq!(rt; d[0].0, 9);
    assert_eq!(rt; u[0].0, 21);
    assert_eq!(rt; v[0].0, 0);
    assert_eq!(rt; p[0].0, 12);
    assert_eq!(rt; e[2].0, 100);
    Ok(())
}
