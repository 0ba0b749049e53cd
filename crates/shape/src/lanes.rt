//! The lane rule: how a source of few lanes is read into many.
ghost use Rattle.std.specs.Prelude.{◌≡◌, ℕ, ◌<◌, ◌≤◌, Bool};
ghost use Rattle.shape.specs.Lanes.{lane_for, no_broadcast};

/// A source of `source` lanes does not go into `lanes`: it does where the counts are the same,
/// where the source has one lane, and where `lanes` is a multiple.
pub fn no_broadcast(source: usize, lanes: usize) -> bool
    ensures { result ≡ no_broadcast source lanes }
{
    // Equal counts are the common case, and need no division.
    if source == lanes {
        return false;
    }
    if source == 0 {
        return true;
    }
    source != 1 && lanes % source != 0
}

/// The source lane that `lane`, of `lanes`, reads: ⌊lane·source/lanes⌋, so each source lane
/// serves lanes that lie side by side. Promised up to the limits of a shape.
pub fn lane_for(lane: usize, source: usize, lanes: usize) -> usize
    ensures { lane < lanes → lanes ≤ 4096 → source ≤ 4096 → result ≡ lane_for lane source lanes }
{
    // Equal counts are the common case, and need no division.
    if source == lanes {
        return lane;
    }
    if lanes == 0 {
        return 0;
    }
    lane.wrapping_mul(source) / lanes
}
