//! What an editing cursor counts.
ghost use Rattle.std.specs.Prelude.{◌≡◌, ◌+◌, ◌<◌, ◌^◌, ◌-◌, IfSome, length, option_map};
ghost use Rattle.btree_laws.specs.TreeState.{pairs_of};
ghost use Rattle.btree_map.specs.Spans.{IsFirstListed, item_index};

use crate::BTreeMap;
use crate::cursor::pairs::address_after;
use btree_item::Address;
use btree_node::NodesMut;

/// Returns the count one higher, if it is known.
pub(crate) fn one_more(known: Option<usize>) -> Option<usize>
    requires { IfSome known (λ n. n < 2 ^ 64 - 1) }
    ensures { result ≡ option_map (λ n. n + 1) known }
{
    match known {
        Some(count) => Some(count + 1),
        None => None,
    }
}

/// Counts the items from an address on.
pub(crate) fn count_from<K: Ord, V, C: NodesMut<K, V>>(
    map: &BTreeMap<K, V, C>,
    first: Option<Address>,
) -> usize
    requires { IsFirstListed map.now first }
    ensures { item_index map.now first + result ≡ length (pairs_of map.now) }
{
    // For the prover: the length is a `usize`.
    let _len = map.len();
    let mut next = first;
    let mut count = 0;
    while let Some(at) = next {
        next = address_after(map, at);
        count += 1;
    }
    count
}
