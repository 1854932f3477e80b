//! Orders at a price, best price first: each is found again by its price and number, since no address survives the next order.
ghost use Rattle.std.specs.Prelude.{◌≡◌, slice_get};
ghost use Rattle.example_maps.specs.Orders.{by_rank, left_after, taken_of};
ghost use Rattle.btree_slab.specs.Pairs.{found_value};
ghost use Rattle.btree_slab.specs.Remove.{removed};
ghost use Rattle.btree_slab.specs.TreeState.{pairs_of};

use btree_slab::generic::BTreeMap;
use btree_slab::store::NodesMut;
use btree_slab::{BTreeExt, BTreeExtMut};

/// Cancels an order. Returns what was left of it, if it is there.
pub fn cancel<C: NodesMut<(u64, u64), u64>>(
    orders: &mut BTreeMap<(u64, u64), u64, C>,
    price: u64,
    number: u64,
) -> Option<u64>
    ensures amount { result ≡ found_value by_rank (price, number) (pairs_of orders.old) }
    ensures gone { pairs_of orders.new ≡ removed by_rank (price, number) (pairs_of orders.old) }
{
    orders.remove(&(price, number))
}

// Returns the first order's rank, and what is left of it.
fn first_of<C: NodesMut<(u64, u64), u64>>(
    orders: &BTreeMap<(u64, u64), u64, C>,
) -> Option<((u64, u64), u64)>
    ensures { result ≡ slice_get (pairs_of orders.now) 0 }
{
    match orders.first_key_value() {
        Some((rank, amount)) => Some((*rank, *amount)),
        None => None,
    }
}

/// Takes at most so much from the order with the least price, and of these from the one with the least number. An order of which nothing is
/// left is removed. Returns how much was taken.
pub fn take_best<C: NodesMut<(u64, u64), u64>>(
    orders: &mut BTreeMap<(u64, u64), u64, C>,
    wanted: u64,
) -> u64
    ensures left { pairs_of orders.new ≡ left_after wanted (pairs_of orders.old) }
    ensures taken { result ≡ taken_of wanted (pairs_of orders.old) }
{
    let Some((_, amount)) = first_of(orders) else {
        return 0;
    };
    if amount <= wanted {
        drop(orders.pop_first());
        return amount;
    }
    if let Some(at) = orders.first_item_address() {
        orders.replace_value_at(at, amount - wanted);
    }
    wanted
}
