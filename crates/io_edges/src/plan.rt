//! Faults that are planned at a place in bytes, and counts of faults.
ghost use Rattle.std.specs.Prelude.{◌≡◌, ℕ, ◌≤◌, IfSome};
ghost use Rattle.io_edges.specs.Plan.{allowed, left_planned, one_more};

/// How many of `most` bytes a call behind `place` bytes moves. None where the fault planned at `fail_at` comes now.
pub fn count_allowed(fail_at: Option<u64>, place: usize, most: usize) -> Option<usize>
    ensures value { result ≡ allowed fail_at place most }
    ensures bound { IfSome result (λ n. n ≤ most) }
    ensures some_byte { IfSome result (λ n. n ≡ 0 → most ≡ 0) }
{
    let Some(at) = fail_at else {
        return Some(most);
    };
    let at = at as usize;
    if at <= place {
        return None;
    }
    Some(most.min(at - place))
}

/// What is planned behind a failed call at `place`: a fault that came is spent.
pub fn still_planned(fail_at: Option<u64>, place: usize) -> Option<u64>
    ensures { result ≡ left_planned fail_at place }
{
    let at = fail_at?;
    if at as usize <= place {
        return None;
    }
    Some(at)
}

/// A count of faults behind one more. It ends at the last value of its type.
pub fn count_one_more(faults: u64) -> u64
    ensures { result ≡ one_more faults }
{
    faults.saturating_add(1)
}
