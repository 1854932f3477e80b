//! What a caller learns of the list: with known types of key, value and store, and for any of them. Each contract is the test.
ghost use Rattle.std.specs.Prelude.{◌≡◌, ℕ, ◌+◌, ◌%◌, ◌^◌, IfErr, IfOk, IsTrue, None, OnErr, OnOk, false, is_some};
ghost use Rattle.std.specs.Iterator.{IsFinite};
ghost use Rattle.std.specs.Ordering.{nat_cmp};
ghost use Rattle.btree_item.specs.Pairs.{found, found_value, inserted};
ghost use Rattle.btree_laws.specs.TreeState.{IsOccupiedIn, pairs_of};
ghost use Rattle.btree_ext.specs.Exchange.{IsValueExchanged};
ghost use Rattle.btree_ext.specs.Outcomes.{WritesAtKey};
ghost use Rattle.btree_ext.specs.Update.{UpdatesAt, updated};

use btree_ext::BTreeExtMut;
use btree_item::{Address, Refused};
use btree_map::{BTreeMap, Entry};
use btree_node::{Node, NodesMut};
use btree_store::SlabStore;
use std::hash::{Hash, Hasher};

type Store = SlabStore<Node<u64, u64>>;

type Map = BTreeMap<u64, u64, Store>;

// Writes a value over the one that is there, by an entry. Returns whether the key is there.
pub(crate) fn overwrite(map: &mut Map, key: u64, value: u64) -> bool
    ensures there { result ≡ is_some (found nat_cmp key (pairs_of map.old)) }
    ensures written { IsTrue result → WritesAtKey nat_cmp key value map.old map.new }
    ensures absent { result ≡ false → map.new ≡ map.old }
{
    match map.entry(key) {
        Entry::Occupied(entry) => {
            *entry.into_mut() = value;
            true
        }
        Entry::Vacant(_) => false,
    }
}

// Does the same by an entry that is kept.
pub(crate) fn overwrite_kept(map: &mut Map, key: u64, value: u64) -> bool
    ensures written { IsTrue result → WritesAtKey nat_cmp key value map.old map.new }
    ensures absent { result ≡ false → map.new ≡ map.old }
{
    match map.entry(key) {
        Entry::Occupied(entry) => {
            let mut entry = entry;
            *entry.get_mut() = value;
            true
        }
        Entry::Vacant(_) => false,
    }
}

// Does the same without an entry.
pub(crate) fn write(map: &mut Map, key: u64, value: u64) -> bool
    ensures written { IsTrue result → WritesAtKey nat_cmp key value map.old map.new }
    ensures absent { result ≡ false → map.new ≡ map.old }
{
    match map.get_mut(&key) {
        Some(old) => {
            *old = value;
            true
        }
        None => false,
    }
}

// Sets the value at a key by an update. Returns the old value, if the key was there, or the key if it is refused.
pub(crate) fn set(map: &mut Map, key: u64, value: u64) -> Result<Option<u64>, u64>
    ensures old { IfOk result (λ old. old ≡ found_value nat_cmp key (pairs_of map.old)) }
    ensures set { OnOk result (pairs_of map.new ≡ inserted nat_cmp key value (pairs_of map.old)) }
    ensures returned { IfErr result (λ k. k ≡ key) }
    ensures kept { OnErr result (pairs_of map.new ≡ pairs_of map.old) }
{
    match map.update(key, |old| (Some(value), old)) {
        Ok(old) => Ok(old),
        Err(refused) => Err(refused.key),
    }
}

// Removes the pair with a key by an update. Returns its value, if the key was there. It can be refused only if the key is absent.
pub(crate) fn unset(map: &mut Map, key: u64) -> Result<Option<u64>, u64>
    ensures old { IfOk result (λ old. old ≡ found_value nat_cmp key (pairs_of map.old)) }
    ensures unset { OnOk result (pairs_of map.new ≡ updated nat_cmp key None (pairs_of map.old)) }
    ensures absent { OnErr result (found nat_cmp key (pairs_of map.old) ≡ None) }
    ensures kept { OnErr result (pairs_of map.new ≡ pairs_of map.old) }
{
    match map.update(key, |old| (None, old)) {
        Ok(old) => Ok(old),
        Err(refused) => Err(refused.key),
    }
}

// Sets the value at an address by an update. Returns the old one.
pub(crate) fn set_at(map: &mut Map, addr: Address, value: u64) -> u64
    requires { IsOccupiedIn map.old addr }
    ensures { IsValueExchanged map.old map.new addr nat_cmp result value }
{
    map.update_at(addr, |old| (Some(value), old))
}

// Removes the pair at an address by an update. Returns its value.
pub(crate) fn unset_at(map: &mut Map, addr: Address) -> u64
    requires { IsOccupiedIn map.old addr }
    ensures { (key : ℕ) × UpdatesAt nat_cmp map.old map.new addr (key, result) None }
{
    map.update_at(addr, |old| (None, old))
}

// Adds to the value at an address, for any keys and any store, and returns the old value.
pub(crate) fn add_at<K: Ord + Drop, C: NodesMut<K, u64>>(
    map: &mut BTreeMap<K, u64, C>,
    addr: Address,
    more: u64,
) -> u64
    requires { IsOccupiedIn map.old addr }
    ensures { IsValueExchanged map.old map.new addr K.cmp result ((result + more) % 2 ^ 64) }
{
    let (_key, value) = map.pair_mut(addr);
    let old = *value;
    *value = old.wrapping_add(more);
    old
}

// Extends a map, and, if a pair is refused, the other map by the pairs after it, for any store and any iterator.
pub(crate) fn extend_in_turn<
    V: Drop,
    C: NodesMut<u64, V>,
    D: NodesMut<u64, V>,
    I: Iterator<Item = (u64, V)>,
>(
    first: &mut BTreeMap<u64, V, C>,
    second: &mut BTreeMap<u64, V, D>,
    source: &mut I,
) -> Result<Option<(u64, V)>, Refused<u64, V>>
    requires can_step { I.can_next source.old }
    requires ends { IsFinite (I.remaining source.old) }
{
    match first.extend(source) {
        Ok(()) => Ok(None),
        Err(refused) => {
            second.extend(source)?;
            Ok(Some((refused.key, refused.value)))
        }
    }
}

// Feeds two maps, which may have different stores, to two hashers, and returns whether their pairs are equal: equal maps have equal hashes,
// whatever their trees.
pub(crate) fn hash_both<
    K: Ord + Hash,
    V: Eq + Hash,
    C: NodesMut<K, V>,
    D: NodesMut<K, V>,
    H: Hasher,
>(left: &BTreeMap<K, V, C>, right: &BTreeMap<K, V, D>, first: &mut H, second: &mut H) -> bool
    ensures { IsTrue result → first.old ≡ second.old → first.new ≡ second.new }
{
    left.hash(first);
    right.hash(second);
    left.same_items(right)
}
