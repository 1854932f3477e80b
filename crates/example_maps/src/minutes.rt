//! A log with a key in seconds, of which the entries of some minutes are listed by a query of this crate.
ghost use Rattle.std.specs.Prelude.{◌≡◌};
ghost use Rattle.btree_slab.specs.TreeState.{pairs_of};
ghost use Rattle.example_maps.specs.Minutes.{entries_from_to};

use btree_slab::generic::BTreeMap;
use btree_slab::generic::map::Range;
use btree_slab::query::Query;
use btree_slab::store::NodesMut;

/// The start of a minute, as a place between keys in seconds: those of earlier minutes come before it, and all others after it.
#[derive(Clone, Copy)]
pub struct Minute {
    pub number: u32,
}

impl Query<u64> for Minute {
    ghost use Rattle.example_maps.specs.Minutes.{side_of_minute, minutes_cut};

    ghost compare = { λ second minute. side_of_minute second minute.number };

    ghost cuts = { minutes_cut (λ minute. minute.number) };

    fn is_after(&self, second: &u64) -> bool {
        *second < u64::from(self.number) * 60
    }

    fn is_at(&self, second: &u64) -> bool {
        let _second = second;
        false
    }
}

/// Returns what was logged from one minute on, and before another, in order.
pub fn logged<'m, V, C: NodesMut<u64, V>>(
    log: &'m BTreeMap<u64, V, C>,
    from: Minute,
    to: Minute,
) -> Range<'m, u64, V, C>
    ensures { result ≡ entries_from_to from.number to.number (pairs_of log.now) }
{
    log.range_by(&from, &to)
}
