//! Visits at doors, counted in a fixed table of nodes: no memory is taken from an allocator.
ghost use Rattle.std.specs.Prelude.{◌≡◌, IfOk};
ghost use Rattle.std.specs.Ordering.{nat_cmp};
ghost use Rattle.example_maps.specs.Counts.{StoresCount, count_with_one};
ghost use Rattle.btree_slab.specs.TreeState.{pairs_of};
ghost use Rattle.btree_slab.specs.Capacity.{TakesFew};

use btree_slab::generic::map::Refused;
use btree_slab::{FixedMap, table};

/// Counts a visit at a door, in a table of `N` nodes. Returns how many there have been, at most `u64::MAX`.
///
/// It is not refused at the first 3N doors, whatever their numbers and their order, unless the map has a lower limit.
pub fn count_visit<const N: usize>(
    visits: &mut FixedMap<u32, u64, N>,
    door: u32,
) -> Result<u64, Refused<u32, u64>>
    ensures few { TakesFew visits.old N result }
    ensures stored { IfOk result (StoresCount nat_cmp door (pairs_of visits.old) (pairs_of visits.new)) }
    ensures counted { IfOk result (λ n. n ≡ count_with_one nat_cmp u64.MAX door (pairs_of visits.old)) }
{
    let before = visits.get(&door).copied().unwrap_or(0);
    let count = before.saturating_add(1);
    table::insert(visits, door, count)?;
    Ok(count)
}
