//! The types of the cursors.
ghost use Rattle.std.specs.Prelude.{◌≡◌, ◌≤◌, length, nat_lt, slice_get};
ghost use Rattle.btree_laws.specs.TreeAddresses.{item_addresses_of};
ghost use Rattle.btree_laws.specs.Visits.{prior};
ghost use Rattle.btree_map.specs.Spans.{index_after, index_of};

mod counts;
mod editing;
mod editing_steps;
mod pairs;
mod range_pairs;
mod ranges;
mod starts;
mod values;

use crate::BTreeMap;
use btree_item::Address;
use btree_node::NodesMut;
pub use editing::EntriesMut;

/// A cursor over the pairs of a map, in the order of the keys and from both ends, that lends one value for writing at a time. A step reads
/// at most one node of each level, needs no new node and cannot fail.
///
/// It is no `Iterator`, since a value is lent only until the next call.
#[derive(Drop)]
pub struct IterMut<'a, K: Ord, V, C: NodesMut<K, V>> {
    pub(crate) map: &'a mut BTreeMap<K, V, C>,
    /// The address of the item at place `front`, and that of the item before place `back`.
    pub(crate) first: Option<Address>,
    pub(crate) last: Option<Address>,
    pub(crate) front: usize,
    pub(crate) back: usize,
    ghost first_stands: { first ≡ slice_get (item_addresses_of map.now) front },
    ghost last_stands: { last ≡ prior (item_addresses_of map.now) back },
    ghost within: { back ≤ length (item_addresses_of map.now) },
}

/// A cursor over the values of a map in the order of the keys, that lends one value for writing at a time. A step reads at most one node of
/// each level, needs no new node and cannot fail.
///
/// It is no `Iterator`, since a value is lent only until the next call.
#[derive(Drop)]
pub struct ValuesMut<'a, K: Ord, V, C: NodesMut<K, V>> {
    pub(crate) map: &'a mut BTreeMap<K, V, C>,
    /// The address of the item at place `front`.
    pub(crate) first: Option<Address>,
    pub(crate) front: usize,
    pub(crate) back: usize,
    ghost first_stands: { first ≡ slice_get (item_addresses_of map.now) front },
    ghost within: { back ≤ length (item_addresses_of map.now) },
}

/// A cursor over the pairs of a map between two bounds, in the order of the keys and from both ends, that lends one value for writing at a
/// time. A step reads at most one node of each level, compares no keys, needs no new node and cannot fail.
///
/// It is no `Iterator`, since a value is lent only until the next call.
#[derive(Drop)]
pub struct RangeMut<'a, K: Ord, V, C: NodesMut<K, V>> {
    pub(crate) map: &'a mut BTreeMap<K, V, C>,
    /// The address of the first item from the start on that is not passed, and that of the last one up to the end.
    pub(crate) first: Option<Address>,
    pub(crate) last: Option<Address>,
    pub(crate) any_left: bool,
    ghost first_stands: { first ≡
        slice_get (item_addresses_of map.now) (index_of (item_addresses_of map.now) first) },
    ghost last_stands: { last ≡
        prior (item_addresses_of map.now) (index_after (item_addresses_of map.now) last) },
    ghost ordered: { any_left ≡ nat_lt (index_of (item_addresses_of map.now) first)
        (index_after (item_addresses_of map.now) last) },
}
