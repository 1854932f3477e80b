//! Numbered blocks, of which some are reserved: a set of ranges.
ghost use Rattle.std.specs.Prelude.{◌≡◌, IfOk, OnErr};
ghost use Rattle.example_maps.specs.Blocks.{Reserves};

use btree_slab::generic::map::Refused;
use btree_slab::range_set::RangeSet;
use btree_slab::store::NodesMut;

/// Reserves the first `size` blocks in a row below `end` that are free, and returns the number of the first one. Returns `None`, and nothing
/// changes, if there are no such blocks.
pub fn reserve<C: NodesMut<u64, u64>>(
    reserved: &mut RangeSet<C>,
    size: u64,
    end: u64,
) -> Result<Option<u64>, Refused<u64, u64>>
    ensures reserved { IfOk result (Reserves end size reserved.old reserved.new) }
    ensures kept { OnErr result (reserved.new.ranges ≡ reserved.old.ranges) }
{
    let Some(start) = reserved.first_fit(0, end, size) else {
        return Ok(None);
    };
    reserved.insert(start, start + size)?;
    Ok(Some(start))
}
