//! The type of the editing cursor.
ghost use Rattle.std.specs.Prelude.{◌≡◌};
ghost use Rattle.std.specs.Option.{ForSome};
ghost use Rattle.btree_map.specs.Spans.{IsFirstListed, item_index};

use crate::BTreeMap;
use btree_item::Address;
use btree_node::NodesMut;

/// A cursor over the pairs of a map, in the order of the keys, that inserts and removes pairs where it is, and lends one value for writing
/// at a time. It stands between the pairs that it has passed and those that are left.
///
/// It is no `Iterator`, since a value is lent only until the next call. It allocates no memory of its own.
#[derive(Drop)]
pub struct EntriesMut<'a, K: Ord, V, C: NodesMut<K, V>> {
    pub(crate) map: &'a mut BTreeMap<K, V, C>,
    /// The address of the first item that is left.
    pub(crate) first: Option<Address>,
    /// How many pairs have been passed, if that is known.
    pub(crate) known: Option<usize>,
    ghost first_stands: { IsFirstListed map.now first },
    ghost counted: { ForSome known (λ n. n ≡ item_index map.now first) },
}
