//! How a drain asks. It reads and writes what a cursor does, allocates no memory and cannot fail.
ghost use Rattle.std.specs.Prelude.{◌≡◌, ◌<◌, ◌≤◌, Some, drop, length, slice_get, true};
ghost use Rattle.std.specs.Map.Calls.{CallableOnEachPair};
ghost use Rattle.btree_laws.specs.TreeAddresses.{item_addresses_of};
ghost use Rattle.btree_laws.specs.TreeState.{pairs_of};
ghost use Rattle.btree_map.specs.Drain.{AcceptsFirst, AsksFirst, EndsIn, RunsOut, Yields, YieldsIn};
ghost use Rattle.btree_map.specs.Editing.{entry_front, left_of};

use crate::BTreeMap;
use crate::cursor::EntriesMut;
use crate::pair_test::PairTest;
use btree_item::Address;
use btree_node::NodesMut;

// Asks at the first pair that is left.
fn ask<K: Ord + Drop, V: Drop, C: NodesMut<K, V>, P: PairTest<K, V>>(
    entries: &mut EntriesMut<'_, K, V, C>,
    test: &mut P,
) -> bool
    requires left { 0 < length (left_of entries.old) }
    requires accepts { AcceptsFirst P.accepts test.old (left_of entries.old) }
    ensures { AsksFirst P.step test.old test.new entries.old entries.new result }
{
    let (key, value) = entries.peek_pair();
    test.passes(key, value)
}

// Asks at the pairs that are left until one passes, and removes that one. The others are passed. Returns where the cursor is then, too.
fn seek<K: Ord + Drop, V: Drop, C: NodesMut<K, V>, P: PairTest<K, V>>(
    entries: &mut EntriesMut<'_, K, V, C>,
    test: &mut P,
) -> (Option<Address>, usize, Option<(K, V)>)
    requires { CallableOnEachPair P.step P.accepts test.old (left_of entries.old) }
    ensures first { result.0 ≡ entries.new.first }
    ensures front { result.1 ≡ entry_front entries.new }
    ensures same_map { entries.new.map.ghost_name ≡ entries.old.map.ghost_name }
    ensures yields { YieldsIn P.step test.old test.new entries.old entries.new result.2 }
    ensures callable { CallableOnEachPair P.step P.accepts test.new (left_of entries.new) }
{
    while !entries.is_empty() {
        if ask(entries, test) {
            let Some(item) = entries.remove() else {
                unreachable!();
            };
            return (
                entries.first,
                entries.count_passed(),
                Some(item.into_pair()),
            );
        }
        entries.pass();
    }
    (entries.first, entries.count_passed(), None)
}

/// Asks at all pairs that are left, and removes those with the answer `takes`. The others are passed.
pub(crate) fn run_rest<'a, 'b, 'c, K: Ord + Drop, V: Drop, C: NodesMut<K, V>, P: PairTest<K, V>>(
    entries: &'b mut EntriesMut<'a, K, V, C>,
    test: &'c mut P,
    takes: bool,
)
    requires { CallableOnEachPair P.step P.accepts test.old (left_of entries.old) }
    ensures same_map { entries.new.map.ghost_name ≡ entries.old.map.ghost_name }
    ensures ends { EndsIn P.step takes test.old test.new entries.old entries.new }
{
    while !entries.is_empty() {
        if ask(entries, test) == takes {
            let Some(_) = entries.remove() else {
                unreachable!();
            };
        } else {
            entries.pass();
        }
    }
}

/// Asks at all pairs of a map from place `front` on, and removes those that pass: the end of a drain, for types that stand on a map.
///
/// The address must be that of the item at the place.
pub fn run_out<'a, K: Ord + Drop, V: Drop, C: NodesMut<K, V>, P: PairTest<K, V>>(
    map: &'a mut BTreeMap<K, V, C>,
    first: Option<Address>,
    front: usize,
    test: &mut P,
)
    requires stands { first ≡ slice_get (item_addresses_of map.old) front }
    requires within { front ≤ length (item_addresses_of map.old) }
    requires callable { CallableOnEachPair
        P.step P.accepts test.old (drop front (pairs_of map.old)) }
    ensures { RunsOut P.step test.old front map.old map.new }
{
    let mut entries = EntriesMut::at(map, first, front);
    run_rest(&mut entries, test, true);
}

/// Asks at the pairs of a map from place `front` on until one passes, and removes and returns that one: a step of a drain, for types that
/// stand on a map. Returns where the pair after it is, too.
///
/// The address must be that of the item at the place.
pub fn seek_from<'a, K: Ord + Drop, V: Drop, C: NodesMut<K, V>, P: PairTest<K, V>>(
    map: &'a mut BTreeMap<K, V, C>,
    first: Option<Address>,
    front: usize,
    test: &mut P,
) -> (Option<Address>, usize, Option<(K, V)>)
    requires stands { first ≡ slice_get (item_addresses_of map.old) front }
    requires within { front ≤ length (item_addresses_of map.old) }
    requires callable { CallableOnEachPair
        P.step P.accepts test.old (drop front (pairs_of map.old)) }
    ensures stands { result.0 ≡ slice_get (item_addresses_of map.new) result.1 }
    ensures within { result.1 ≤ length (item_addresses_of map.new) }
    ensures callable { CallableOnEachPair
        P.step P.accepts test.new (drop result.1 (pairs_of map.new)) }
    ensures yields { Yields P.step true test.old test.new
        map.old front map.new result.1 result.2 }
{
    let mut entries = EntriesMut::at(map, first, front);
    seek(&mut entries, test)
}
