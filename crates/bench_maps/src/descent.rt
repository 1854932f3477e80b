//! Insertion in descending order, by key and at the address of the item before.
ghost use Rattle.std.specs.Prelude.{◌≡◌, ◌<◌, [], IfOk};
ghost use Rattle.btree_laws.specs.TreeState.{pairs_of};
ghost use Rattle.bench_maps.specs.Begins.{BeginsAt};

use crate::tables::Table;
use btree_ext::{BTreeExt, BTreeExtMut};
use btree_item::{Address, Item};
use btree_map::BTreeMap;
use btree_node::NodesMut;
use std::alloc::AllocError;

/// Inserts the keys from `count` down to 1, by key. Returns how many were not there.
pub fn descend(table: &mut impl Table, count: u64) -> Result<u64, AllocError> {
    let mut key = count;
    let mut absent = 0u64;
    while key > 0 {
        if !table.put(key, key)? {
            absent = absent.wrapping_add(1);
        }
        key -= 1;
    }
    Ok(absent)
}

// Inserts a pair before the first item, whose address is known. Returns the address of the pair.
fn put_before<C: NodesMut<u64, u64>>(
    map: &mut BTreeMap<u64, u64, C>,
    at: Address,
    key: u64,
    first: u64,
) -> Result<Address, AllocError>
    requires begins { BeginsAt map.old at first }
    requires below { key < first }
    ensures { IfOk result (λ b. BeginsAt map.new b key) }
{
    Ok(map.insert_at(at, Item::new(key, key))?)
}

// Inserts a pair into the empty map. Returns its address.
fn put_first<C: NodesMut<u64, u64>>(
    map: &mut BTreeMap<u64, u64, C>,
    key: u64,
) -> Result<Address, AllocError>
    requires { pairs_of map.old ≡ [] }
    ensures { IfOk result (λ b. BeginsAt map.new b key) }
{
    let Err(gap) = map.address_of(&key) else {
        unreachable!()
    };
    Ok(map.insert_at(gap, Item::new(key, key))?)
}

/// Inserts the keys from `count` down to 1 into the empty map: the first by key, and each other at the address of the one before it. Returns
/// how many there are then.
pub fn descend_at<C: NodesMut<u64, u64>>(
    map: &mut BTreeMap<u64, u64, C>,
    count: u64,
) -> Result<u64, AllocError>
    requires { pairs_of map.old ≡ [] }
{
    if count == 0 {
        return Ok(0);
    }
    let mut at = put_first(map, count)?;
    let mut first = count;
    while first > 1 {
        at = put_before(map, at, first - 1, first)?;
        first -= 1;
    }
    Ok(map.len() as u64)
}
