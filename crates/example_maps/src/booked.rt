//! Bookings that are made, and one that is cancelled at once.
ghost use Rattle.std.specs.Prelude.{◌≡◌, IfOk, OnErr, OnOk};
ghost use Rattle.btree_slab.specs.TreeState.{pairs_of};
ghost use Rattle.example_maps.specs.Bookings.{AreApart};

use btree_slab::generic::map::Refused;
use btree_slab::generic::node::Item;
use btree_slab::{BTreeExt, BTreeExtMut, BTreeMap};
use std::alloc::Global;

/// Returns three bookings, which do not overlap one another: from 9 to 11, from 11 to 12, and from 14 to 15.
pub fn three_bookings(alloc: Global) -> Result<BTreeMap<u32, u32>, Refused<u32, u32>>
    ensures { IfOk result (λ bookings. AreApart (pairs_of bookings)) }
{
    let mut bookings: BTreeMap<u32, u32> = BTreeMap::new(alloc);
    bookings.insert(14, 15)?;
    bookings.insert(9, 11)?;
    bookings.insert(11, 12)?;
    Ok(bookings)
}

/// Books the time from `start` to `end` and cancels that at once, to see that there is memory for it. Returns whether no booking begins at
/// `start` yet. The bookings are the same again: what is inserted at an address is removed at the address that the insertion returns.
pub fn book_and_cancel(
    bookings: &mut BTreeMap<u32, u32>,
    start: u32,
    end: u32,
) -> Result<bool, Refused<u32, u32>>
    ensures same { OnOk result (pairs_of bookings.new ≡ pairs_of bookings.old) }
    ensures kept { OnErr result (pairs_of bookings.new ≡ pairs_of bookings.old) }
{
    let Err(gap) = bookings.address_of(&start) else {
        return Ok(false);
    };
    let booking = bookings.insert_at(gap, Item::new(start, end))?;
    let Some(_cancelled) = bookings.remove_at(booking) else {
        unreachable!()
    };
    Ok(true)
}
