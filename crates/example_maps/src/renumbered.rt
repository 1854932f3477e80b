//! A part that gets another number: what look-ups find after an insertion and a removal.

ghost use Rattle.std.specs.Prelude.{◌≡◌, IfOk, OnErr};
ghost use Rattle.example_maps.specs.Stock.{IsRenumberedIf};
ghost use Rattle.btree_slab.specs.TreeState.{pairs_of};

use btree_slab::BTreeExt;
use btree_slab::generic::BTreeMap;
use btree_slab::generic::map::Refused;
use btree_slab::store::NodesMut;

/// Gives a part another number, in place of the part that has it. Returns whether the part was there and had another number.
pub fn renumber<C: NodesMut<u32, u64>>(
    stock: &mut BTreeMap<u32, u64, C>,
    part: u32,
    number: u32,
) -> Result<bool, Refused<u32, u64>>
    ensures renumbered { IfOk result (λ is.
        IsRenumberedIf part number (pairs_of stock.old) (pairs_of stock.new) is) }
    ensures kept { OnErr result (pairs_of stock.new ≡ pairs_of stock.old) }
{
    if part == number {
        return Ok(false);
    }
    let Some(count) = stock.get(&part).copied() else {
        return Ok(false);
    };
    stock.insert(number, count)?;
    stock.tell_well_formed();
    drop(stock.remove(&part));
    Ok(true)
}
