//! root_finding: which function changed sign between two points, and how far along.
ghost use Rattle.std.specs.Prelude.{◌≡◌, ◌+◌, ◌<◌, ◌≤◌, length, IfOk, ◌≢◌, ◌↔◌, IsTrue};
ghost use Rattle.scalar.specs.Sums.{at};
ghost use Rattle.shape.specs.Refusals.{answer, first_of};
ghost use Rattle.shape.specs.Operands.{pair_tests, PairLawful};
ghost use Rattle.norm.specs.Roots.{fraction, replaces, Says, lane0, lane1, Agree};

use scalar::Ordered;
use shape::check::check_pair;
use shape::lanes::lane_for;
use shape::{Column, Refusal};

/// |g1 / (g1 − g0)|.
fn fraction_of<S: Ordered>(g0: S, g1: S) -> S
    ensures { S.means result ≡ fraction S.ops S.order (S.means g0) (S.means g1) }
{
    g1.div(g1.add(g0.neg())).abs()
}

/// The signs differ and the fraction is above the best so far.
fn is_better<S: Ordered>(best: S, g0: S, g1: S) -> bool
    ensures { result ≡ replaces S.ops S.order (S.means best) (S.means g0) (S.means g1) }
{
    g0.mul(g1).less(S::zero()) && best.less(fraction_of(g0, g1))
}

/// One lane's runs.
fn root_run<S: Ordered>(g0: &[S], g1: &[S]) -> (bool, S, i32)
    requires same { length g1.now ≡ length g0.now }
    requires few { length g0.now ≤ 65536 }
    ensures { Says S.means S.ops S.order (at S.means S.ops g0.now) (at S.means S.ops g1.now) (length g0.now) result.0 result.1 result.2 }
{
    let mut found = false;
    let mut part = S::zero();
    let mut row = -1;
    for (i, (a, b)) in g0.iter().zip(g1).enumerate() {
        found |= b.is_zero();
        if is_better(part, *a, *b) {
            part = fraction_of(*a, *b);
            row = i as i32;
        }
    }
    (found, part, row)
}

/// The runs of `rows` entries, lent from the whole memories.
fn root_part<S: Ordered>(
    g0s: &[S],
    from0: usize,
    g1s: &[S],
    from1: usize,
    rows: usize,
) -> (bool, S, i32)
    requires first { from0 + rows ≤ length g0s.now }
    requires second { from1 + rows ≤ length g1s.now }
    requires few { rows ≤ 65536 }
    ensures { Says S.means S.ops S.order (λ i. at S.means S.ops g0s.now (from0 + i)) (λ i. at S.means S.ops g1s.now (from1 + i)) rows result.0 result.1 result.2 }
{
    root_run(&g0s[from0..from0 + rows], &g1s[from1..from1 + rows])
}

/// One lane of an accepted call.
fn root_lane<S: Ordered>(
    g0: Column,
    g0s: &[S],
    g1: Column,
    g1s: &[S],
    lane: usize,
) -> (bool, S, i32)
    requires law { PairLawful g1 (length g1s.now) g0 (length g0s.now) }
    requires lane { lane < g0.of.lanes }
    ensures { Says S.means S.ops S.order (lane0 S.means S.ops g0 g0s.now lane) (lane1 S.means S.ops g0 g1 g1s.now lane) g0.of.rows result.0 result.1 result.2 }
{
    let from1 = g1.start(lane_for(lane, g1.of.lanes, g0.of.lanes));
    root_part(g0s, g0.start(lane), g1s, from1, g0.of.rows)
}

/// Both say the same.
fn alike<S: Ordered>(a: (bool, S, i32), b: (bool, S, i32)) -> bool
    ensures { IsTrue result ↔ ((a.0 ≡ b.0) × (S.means a.1 ≡ S.means b.1) × (a.2 ≡ b.2)) }
{
    let (found, part, row) = a;
    let (other_found, other_part, other_row) = b;
    (found == other_found) & (part.equal(other_part) & (row == other_row))
}

/// The lanes of an accepted call: lane 0's answer, where the others say the same.
fn root_lanes<S: Ordered>(
    g0: Column,
    g0s: &[S],
    g1: Column,
    g1s: &[S],
) -> Result<(bool, S, i32), Refusal>
    requires { PairLawful g1 (length g1s.now) g0 (length g0s.now) }
    ensures agree { Agree S.ops S.order (lane0 S.means S.ops g0 g0s.now) (lane1 S.means S.ops g0 g1 g1s.now) g0.of.rows g0.of.lanes → answer result ≡ 0 }
    ensures differ { (Agree S.ops S.order (lane0 S.means S.ops g0 g0s.now) (lane1 S.means S.ops g0 g1 g1s.now) g0.of.rows g0.of.lanes → ⊥) → answer result ≡ 11 }
    ensures accepted { IfOk result (λ v. Says S.means S.ops S.order (lane0 S.means S.ops g0 g0s.now 0) (lane1 S.means S.ops g0 g1 g1s.now 0) g0.of.rows v.0 v.1 v.2) }
{
    let first = root_lane(g0, g0s, g1, g1s, 0);
    for lane in 1..g0.of.lanes {
        if !alike(root_lane(g0, g0s, g1, g1s, lane), first) {
            return Err(Refusal::RootsDiffer);
        }
    }
    Ok(first)
}

/// Whether some g1 is zero, the greatest fraction |g1 / (g1 − g0)| over the rows whose signs
/// differ, and that row, −1 where there is none. g1 broadcasts into g0's lanes, which must say
/// the same.
pub fn root_finding<S: Ordered>(
    g0: Column,
    g0s: &[S],
    g1: Column,
    g1s: &[S],
) -> Result<(bool, S, i32), Refusal>
    ensures verdict { (first_of (pair_tests g1 (length g1s.now) g0 (length g0s.now)) ≢ 0) → answer result ≡ first_of (pair_tests g1 (length g1s.now) g0 (length g0s.now)) }
    ensures agree { first_of (pair_tests g1 (length g1s.now) g0 (length g0s.now)) ≡ 0 → Agree S.ops S.order (lane0 S.means S.ops g0 g0s.now) (lane1 S.means S.ops g0 g1 g1s.now) g0.of.rows g0.of.lanes → answer result ≡ 0 }
    ensures differ { first_of (pair_tests g1 (length g1s.now) g0 (length g0s.now)) ≡ 0 → (Agree S.ops S.order (lane0 S.means S.ops g0 g0s.now) (lane1 S.means S.ops g0 g1 g1s.now) g0.of.rows g0.of.lanes → ⊥) → answer result ≡ 11 }
    ensures accepted { IfOk result (λ v. Says S.means S.ops S.order (lane0 S.means S.ops g0 g0s.now 0) (lane1 S.means S.ops g0 g1 g1s.now 0) g0.of.rows v.0 v.1 v.2) }
{
    check_pair(g1, g1s.len(), g0, g0s.len())?;
    root_lanes(g0, g0s, g1, g1s)
}
