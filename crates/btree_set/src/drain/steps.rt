//! How a drain asks: the steps of the map's drain, on a set.
ghost use Rattle.std.specs.Prelude.{◌≡◌, ◌≤◌, length, slice_get};
ghost use Rattle.std.specs.Fn.{CalledAt};
ghost use Rattle.btree_laws.specs.TreeAddresses.{item_addresses_of};
ghost use Rattle.btree_set.specs.Drain.{CallableFrom, RunsOut, YieldsBy};

use crate::BTreeSet;
use crate::set::first_of;
use btree_item::Address;
use btree_map::{ByKey, run_out, seek_from};
use btree_node::NodesMut;

/// Asks at the elements from place `front` on until one is picked, and removes that one. Returns where the element after it is, too.
pub(crate) fn seek<T: Ord + Drop, C: NodesMut<T, ()>, F: FnMut(&T) -> bool>(
    set: &mut BTreeSet<T, C>,
    first: Option<Address>,
    front: usize,
    test: &mut ByKey<F>,
) -> (Option<Address>, usize, Option<T>)
    requires stands { first ≡ slice_get (item_addresses_of set.old.tree) front }
    requires within { front ≤ length (item_addresses_of set.old.tree) }
    requires callable { CallableFrom F.FnMut test.old front set.old }
    ensures stands { result.0 ≡ slice_get (item_addresses_of set.new.tree) result.1 }
    ensures within { result.1 ≤ length (item_addresses_of set.new.tree) }
    ensures callable { CallableFrom F.FnMut test.new result.1 set.new }
    ensures yields { YieldsBy F.FnMut test.old test.new set.old front set.new result.1 result.2 }
{
    let (first, front, pair) = seek_from(&mut set.map, first, front, test);
    (first, front, first_of(pair))
}

/// Asks at all elements from place `front` on, and removes those that are picked.
pub(crate) fn run_rest<T: Ord + Drop, C: NodesMut<T, ()>, F: FnMut(&T) -> bool>(
    set: &mut BTreeSet<T, C>,
    first: Option<Address>,
    front: usize,
    test: &mut ByKey<F>,
)
    requires stands { first ≡ slice_get (item_addresses_of set.old.tree) front }
    requires within { front ≤ length (item_addresses_of set.old.tree) }
    requires callable { CallableFrom F.FnMut test.old front set.old }
    ensures { RunsOut (CalledAt F.FnMut) test.old front set.old set.new }
{
    run_out(&mut set.map, first, front, test);
}
