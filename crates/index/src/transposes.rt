//! The transposes of gather and scatter, on weights.
ghost use Rattle.std.specs.Prelude.{◌≡◌, ℕ, ◌+◌, ◌<◌, ◌≤◌, length, slice_index_or, OnOk, OnErr};
ghost use Rattle.shape.specs.Refusals.{answer, first_of};
ghost use Rattle.shape.specs.Changes.{RunChanged};
ghost use Rattle.index.specs.Indices.{Inside};
ghost use Rattle.index.specs.Transposes.{gathered_back, scattered_back, GatheredBack, ScatteredBack, back_tests, BackLawful};

use crate::check::has_outside;
use scalar::Scalar;
use shape::{Column, Refusal, refuse_columns};

/// The tests, and what acceptance tells.
fn check_back(
    p: Column,
    p_len: usize,
    list: &[usize],
    q: Column,
    q_len: usize,
) -> Result<(), Refusal>
    ensures verdict { answer result ≡ first_of (back_tests p p_len list.now q q_len) }
    ensures lawful { OnOk result (BackLawful p p_len list.now q q_len) }
{
    refuse_columns!(p, p_len; q, q_len);
    if p.of.lanes != q.of.lanes {
        return Err(Refusal::Lanes);
    }
    if list.len() != p.of.rows {
        return Err(Refusal::ListLength);
    }
    if has_outside(list, q.of.rows) {
        return Err(Refusal::Index);
    }
    Ok(())
}

/// Row list(i) of q gains row i of p.
fn gather_back_run<S: Scalar>(list: &[usize], p: &[S], q: &mut [S])
    requires long { length list.now ≡ length p.now }
    requires inside { Inside (length q.old) list.now }
    ensures { (k : ℕ) (d : S) → k < length q.old → S.means (slice_index_or q.new k d) ≡ gathered_back S.ops list.now 0 (λ i. S.means (slice_index_or p.now i d)) (λ l. S.means (slice_index_or q.old l d)) k }
{
    for (i, k) in list.iter().enumerate() {
        q[*k] = q[*k].add(p[i]);
    }
}

/// From the last entry to the first, row i of p gains row list(i) of q, which becomes zero.
#[tactic(auto, using(crate::proofs::Backs::returning_within))]
fn scatter_back_run<S: Scalar>(list: &[usize], p: &mut [S], q: &mut [S])
    requires long { length list.now ≡ length p.old }
    requires inside { Inside (length q.old) list.now }
    ensures first { (k : ℕ) (d : S) → k < length p.old → S.means (slice_index_or p.new k d) ≡ (scattered_back S.ops list.now 0 (λ i. S.means (slice_index_or p.old i d)) (λ l. S.means (slice_index_or q.old l d))).0 k }
    ensures second { (k : ℕ) (d : S) → k < length q.old → S.means (slice_index_or q.new k d) ≡ (scattered_back S.ops list.now 0 (λ i. S.means (slice_index_or p.old i d)) (λ l. S.means (slice_index_or q.old l d))).1 k }
{
    for (i, k) in list.iter().enumerate().rev() {
        p[i] = p[i].add(q[*k]);
        q[*k] = S::zero();
    }
}

/// The runs of m rows of p and n of q, lent from the whole memories.
fn gather_back_part<S: Scalar>(
    list: &[usize],
    ps: &[S],
    from: usize,
    m: usize,
    qs: &mut [S],
    to: usize,
    n: usize,
)
    requires long { length list.now ≡ m }
    requires inside { Inside n list.now }
    requires first { from + m ≤ length ps.now }
    requires second { to + n ≤ length qs.old }
    ensures { RunChanged to n (λ k v. (d : S) → S.means v ≡ gathered_back S.ops list.now 0 (λ i. S.means (slice_index_or ps.now (from + i) d)) (λ l. S.means (slice_index_or qs.old (to + l) d)) k) qs.old qs.new }
{
    gather_back_run(list, &ps[from..from + m], &mut qs[to..to + n]);
}

fn gather_back_lanes<S: Scalar>(list: &[usize], p: Column, ps: &[S], q: Column, qs: &mut [S])
    requires { BackLawful p (length ps.now) list.now q (length qs.old) }
    ensures { GatheredBack S.means S.ops list.now p ps.now q qs.old qs.new }
{
    for lane in 0..q.of.lanes {
        gather_back_part(
            list,
            ps,
            p.start(lane),
            p.of.rows,
            qs,
            q.start(lane),
            q.of.rows,
        );
    }
}

/// The transpose of gather: row list(i) of q gains row i of p, in list order.
pub fn gather_transpose<S: Scalar>(
    list: &[usize],
    p: Column,
    ps: &[S],
    q: Column,
    qs: &mut [S],
) -> Result<(), Refusal>
    ensures verdict { answer result ≡ first_of (back_tests p (length ps.now) list.now q (length qs.old)) }
    ensures accepted { OnOk result (GatheredBack S.means S.ops list.now p ps.now q qs.old qs.new) }
    ensures refused { OnErr result (qs.new ≡ qs.old) }
{
    check_back(p, ps.len(), list, q, qs.len())?;
    gather_back_lanes(list, p, ps, q, qs);
    Ok(())
}

fn scatter_back_part<S: Scalar>(
    list: &[usize],
    ps: &mut [S],
    from: usize,
    m: usize,
    qs: &mut [S],
    to: usize,
    n: usize,
)
    requires long { length list.now ≡ m }
    requires inside { Inside n list.now }
    requires first { from + m ≤ length ps.old }
    requires second { to + n ≤ length qs.old }
    ensures first { RunChanged from m (λ k v. (d : S) → S.means v ≡ (scattered_back S.ops list.now 0 (λ i. S.means (slice_index_or ps.old (from + i) d)) (λ l. S.means (slice_index_or qs.old (to + l) d))).0 k) ps.old ps.new }
    ensures second { RunChanged to n (λ k v. (d : S) → S.means v ≡ (scattered_back S.ops list.now 0 (λ i. S.means (slice_index_or ps.old (from + i) d)) (λ l. S.means (slice_index_or qs.old (to + l) d))).1 k) qs.old qs.new }
{
    scatter_back_run(list, &mut ps[from..from + m], &mut qs[to..to + n]);
}

fn scatter_back_lanes<S: Scalar>(list: &[usize], p: Column, ps: &mut [S], q: Column, qs: &mut [S])
    requires { BackLawful p (length ps.old) list.now q (length qs.old) }
    ensures { ScatteredBack S.means S.ops list.now p ps.old ps.new q qs.old qs.new }
{
    for lane in 0..q.of.lanes {
        scatter_back_part(
            list,
            ps,
            p.start(lane),
            p.of.rows,
            qs,
            q.start(lane),
            q.of.rows,
        );
    }
}

/// The transpose of scatter: from the last entry to the first, row i of p gains row list(i) of q,
/// which becomes zero.
pub fn scatter_transpose<S: Scalar>(
    list: &[usize],
    p: Column,
    ps: &mut [S],
    q: Column,
    qs: &mut [S],
) -> Result<(), Refusal>
    ensures verdict { answer result ≡ first_of (back_tests p (length ps.old) list.now q (length qs.old)) }
    ensures accepted { OnOk result (ScatteredBack S.means S.ops list.now p ps.old ps.new q qs.old qs.new) }
    ensures refused { OnErr result ((ps.new ≡ ps.old) × (qs.new ≡ qs.old)) }
{
    check_back(p, ps.len(), list, q, qs.len())?;
    scatter_back_lanes(list, p, ps, q, qs);
    Ok(())
}
