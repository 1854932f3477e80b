//! The bounds of a range of keys.
ghost use Rattle.std.specs.Prelude.{◌≡◌};
ghost use Rattle.btree_walk.specs.Bounds.{bound_key, is_valid};

use std::ops::Bound;

/// Returns whether a range of keys may be asked for: its start is at most its end, and they are not equal if both are excluded. A bound
/// that is absent puts no limit on the other one.
pub fn is_valid_range<K: Ord>(range: (Bound<&K>, Bound<&K>)) -> bool
    ensures { result ≡ is_valid K.cmp (bound_key range.entry.0) (bound_key range.entry.1) }
{
    match range {
        (Bound::Excluded(start), Bound::Excluded(end)) => start.cmp(end).is_lt(),
        (Bound::Excluded(start), Bound::Included(end)) => start.cmp(end).is_le(),
        (Bound::Included(start), Bound::Excluded(end)) => start.cmp(end).is_le(),
        (Bound::Included(start), Bound::Included(end)) => start.cmp(end).is_le(),
        (Bound::Unbounded, _) => true,
        (_, Bound::Unbounded) => true,
    }
}
