//! One pass over a run of memory, for every rule that makes an entry of its place and its old value.
ghost use Rattle.std.specs.Prelude.{ℕ, ◌<◌, length, slice_index_or};

/// Entry i of y becomes f of i and itself.
pub(crate) fn rewrite<S: Copy, F: Fn(usize, S) -> S>(y: &mut [S], f: F)
    requires { (i : ℕ) (v : S) → i < length y.old → F.pre f i v }
    ensures { (i : ℕ) (d : S) → i < length y.new → F.post f i (slice_index_or y.old i d) (slice_index_or y.new i d) }
{
    for (i, v) in y.iter_mut().enumerate() {
        *v = f(i, *v);
    }
}
