//! Look-up, insertion and removal in whole trees, and the tests of a key at an address, by keys that count how often they are compared.
ghost use Rattle.std.specs.Prelude.{◌≡◌, ◌+◌, IsTrue};
ghost use Rattle.std.specs.Ordering.{nat_cmp, on};
ghost use Rattle.btree_item.specs.Pairs.{Ascends};
ghost use Rattle.btree_node.specs.Node.{view_of};
ghost use Rattle.btree_view.specs.LookUp.{comparisons_in};
ghost use Rattle.btree_view.specs.View.{items_of};
ghost use Rattle.btree_laws.specs.TreeState.{IsUsed};
ghost use Rattle.btree_find.specs.Fits.{FitsIn};
ghost use Rattle.btree_find.specs.Levels.{comparisons_from};

use crate::asserts::{assert_same, assert_same_in, assert_true, some};
use btree_ext::{BTreeExt, BTreeExtMut, Tree};
use btree_item::{Address, Offset};
use btree_node::{Node, NodesMut};
use btree_steps::Steps;
use btree_store::SlabStore;
use std::cell::Cell;
use std::process::Abort;
use test_support::{COMPARISONS, Counted, promised_comparisons};

// Returns how many keys in a node are smaller than a number, and whether the number is one of them.
fn place_in(node: &Node<Counted<'_>, u32>, number: u32) -> (usize, bool) {
    let mut smaller = 0usize;
    for index in 0..node.item_count() {
        let Some(item) = node.item(Offset::from(index)) else {
            return (smaller, false);
        };
        let held = item.key().number;
        if held >= number {
            return (smaller, held == number);
        }
        smaller = smaller.wrapping_add(1);
    }
    (smaller, false)
}

// Returns how many keys a search from a node down is to compare: the sum of what the table has for the nodes on its path.
fn expected_from<'a, C: NodesMut<Counted<'a>, u32>>(
    rt: &impl Abort,
    tree: &Tree<Counted<'a>, u32, C>,
    top: usize,
    number: u32,
) -> usize {
    let mut id = top;
    let mut total = 0usize;
    for _ in 0..tree.height() {
        assert_true(rt, tree.has_node(id));
        let node = tree.node(id);
        let len = node.item_count();
        let (smaller, is_there) = place_in(node, number);
        assert_true(rt, len < 10 && smaller < 10);
        total = total.wrapping_add(COMPARISONS[len][smaller]);
        match node.child_id_opt(smaller) {
            Some(child) if !is_there => id = child,
            _ => return total,
        }
    }
    panic!(rt; "{number} is sought below the leaves")
}

fn assert_equal(rt: &impl Abort, left: usize, right: usize)
    ensures { left ≡ right }
{
    assert_eq!(rt; left, right);
}

fn sum(rt: &impl Abort, left: usize, right: usize) -> usize
    ensures { result ≡ left + right }
{
    match left.checked_add(right) {
        Some(sum) => sum,
        None => panic!(rt; "too many"),
    }
}

// Returns how many keys a look-up in a node promises to compare.
fn promised_in<'a>(node: &Node<Counted<'a>, u32>, key: &Counted<'a>) -> usize
    requires { Ascends (on (λ key. key.number) nat_cmp) (items_of (view_of node.now)) }
    ensures { result ≡ comparisons_in (on (λ key. key.number) nat_cmp) key.now (view_of node.now) }
{
    let len = node.item_count();
    match node.offset_of(key) {
        Ok(offset) => promised_comparisons(len, offset.value().unwrap_or(0)),
        Err((smaller, _)) => promised_comparisons(len, smaller),
    }
}

// Returns how many keys a search from a node down promises to compare.
fn promised_from<'a, C: NodesMut<Counted<'a>, u32>>(
    rt: &impl Abort,
    tree: &Tree<Counted<'a>, u32, C>,
    top: usize,
    key: &Counted<'a>,
) -> usize
    requires { IsUsed tree.now top }
    ensures { result ≡ comparisons_from (on (λ key. key.number) nat_cmp) key.now tree.now top }
{
    tree.tell_well_formed();
    let mut id = top;
    let mut total = 0usize;
    loop {
        let node = tree.node(id);
        total = sum(rt, total, promised_in(node, key));
        match node.offset_of(key) {
            Ok(_offset) => return total,
            Err((_, Some(child))) => id = child,
            Err((_, None)) => return total,
        }
    }
}

// Searches with a counter, and returns also how many comparisons the key counted. It ticks as often.
fn address_counted<'a, C: NodesMut<Counted<'a>, u32>>(
    rt: &impl Abort,
    tree: &Tree<Counted<'a>, u32, C>,
    key: &Counted<'a>,
    steps: &mut Steps,
) -> (Result<Address, Address>, usize)
    ensures { steps.new.count ≡ steps.old.count + result.1 }
{
    key.compared.set(0);
    let found = tree.address_of_counted(key, steps);
    let compared = key.compared.get() as usize;
    let Some(root) = tree.root_id() else {
        panic!(rt; "no root");
    };
    assert_true(rt, tree.has_node(root));
    assert_equal(rt, promised_from(rt, tree, root, key), compared);
    (found, compared)
}

/// A key with a number, which counts how often it is compared.
pub(crate) trait Counting<'a> {
    fn counting(number: u32, compared: &'a Cell<u32>) -> Self;

    fn number(&self) -> u32;
}

impl<'a> Counting<'a> for Counted<'a> {
    fn counting(number: u32, compared: &'a Cell<u32>) -> Counted<'a> {
        Counted { number, compared }
    }

    fn number(&self) -> u32 {
        self.number
    }
}

type Counters<'a> = Tree<Counted<'a>, u32, SlabStore<Node<Counted<'a>, u32>>>;

// Checks that at most so many keys were compared.
fn check_most(rt: &impl Abort, number: u32, compared: &Cell<u32>, most: usize) {
    assert_same_in(rt, number, compared.get() as usize <= most, true);
}

// Puts the keys 1, 3, 5 and so on up to 87, with the values 0, 1, 2 and so on, into a tree that is empty. An insertion compares at most six
// keys at each level of the tree that it makes.
fn put_odd_keys<'a, K: Ord + Drop + Counting<'a>, C: NodesMut<K, u32>>(
    rt: &impl Abort,
    compared: &'a Cell<u32>,
    tree: &mut Tree<K, u32, C>,
) {
    for value in 0..44u32 {
        let number = 2 * value + 1;
        compared.set(0);
        let old = tree.insert(K::counting(number, compared), value);
        assert_same(rt, old.ok(), Some(None));
        check_most(rt, number, compared, 6 * tree.height());
    }
}

// Checks `get`, which compares at most six keys at each of three levels, and the tests of a key at its own address or gap, which compare at
// most two.
fn check_at<'a, K: Ord + Counting<'a>, C: NodesMut<K, u32>>(
    rt: &impl Abort,
    tree: &Tree<K, u32, C>,
    addr: Address,
    key: &K,
    compared: &Cell<u32>,
) {
    let number = key.number();
    let is_there = number % 2 == 1;
    let value = if is_there { Some(number / 2) } else { None };
    compared.set(0);
    assert_same_in(rt, number, tree.get(key).copied(), value);
    check_most(rt, number, compared, 18);
    assert_true(rt, tree.is_valid(addr));
    compared.set(0);
    assert_same_in(rt, number, tree.fits_at(addr, key), !is_there);
    check_most(rt, number, compared, 2);
    compared.set(0);
    let replaces = tree.replaces_at(addr, key);
    assert_same_in(rt, number, replaces || !is_there, true);
    check_most(rt, number, compared, 2);
}

// Searches for a key with a counter and without one, which compares as many keys as the table has. Returns its address or gap.
fn search<'a, C: NodesMut<Counted<'a>, u32>>(
    rt: &impl Abort,
    tree: &Tree<Counted<'a>, u32, C>,
    root: usize,
    key: &Counted<'a>,
) -> Address {
    let expected = expected_from(rt, tree, root, key.number);
    let mut steps = Steps::new();
    let (found, ticks) = address_counted(rt, tree, key, &mut steps);
    assert_same_in(rt, key.number, (ticks, expected <= 18), (expected, true));
    key.compared.set(0);
    assert_true(rt, tree.address_of(key) == found);
    assert_same_in(rt, key.number, key.compared.get() as usize, expected);
    let (Ok(addr) | Err(addr)) = found;
    addr
}

// Searches for each of the keys and each number between.
fn search_each<'a, C: NodesMut<Counted<'a>, u32>>(
    rt: &impl Abort,
    compared: &'a Cell<u32>,
    tree: &Tree<Counted<'a>, u32, C>,
) {
    assert_same(rt, tree.height(), 3);
    let root = some(rt, tree.root_id());
    for number in 0..89u32 {
        let key = Counted { number, compared };
        let addr = search(rt, &*tree, root, &key);
        check_at(rt, &*tree, addr, &key, compared);
    }
}

#[test]
fn compares_as_many_keys_as_promised(rt: HostRuntime) {
    let compared = Cell::new(0);
    let mut tree: Counters<'_> = Tree::new(rt.alloc());
    put_odd_keys(&rt, &compared, &mut tree);
    search_each(&rt, &compared, &tree);
}

// Returns whether a key that is between the separators of a node, and not under it, fits where the look-up says that it would be.
fn fits_at_its_gap<K: Ord, V, C: NodesMut<K, V>>(tree: &Tree<K, V, C>, id: usize, key: &K) -> bool
    requires used { IsUsed tree.now id }
    requires fits { FitsIn K.cmp key.now tree.now id }
    ensures { IsTrue result }
{
    match tree.address_in(id, key) {
        Ok(_) => true,
        Err(addr) => tree.fits_at(addr, key),
    }
}

// Checks the calls under a node, which is in the tree, with one key. A search from there compares at most so many keys.
fn check_under<'a, K: Ord + Drop + Counting<'a>, C: NodesMut<K, u32>>(
    rt: &impl Abort,
    tree: &mut Tree<K, u32, C>,
    compared: &Cell<u32>,
    (id, promised): (usize, usize),
    key: &K,
) {
    let number = key.number();
    compared.set(0);
    assert_true(rt, tree.has_node(id));
    let is_there = tree.address_in(id, key).is_ok();
    assert_same_in(rt, (number, id), compared.get() as usize, promised);
    compared.set(0);
    assert_same(rt, tree.get_in(key, id).is_some(), is_there);
    check_most(rt, number, compared, promised);
    compared.set(0);
    let fits = tree.key_fits_in(id, key);
    check_most(rt, number, compared, 2);
    assert_same_in(rt, (number, id), fits || !is_there, true);
    if fits {
        assert_same_in(rt, (number, id), fits_at_its_gap(tree, id, key), true);
    }
    compared.set(0);
    assert_same(rt, tree.get_mut_in(key, id).is_some(), is_there);
    check_most(rt, number, compared, promised);
}

// Searches for each of the keys and each number between under each of the twelve nodes.
fn search_under<'a, C: NodesMut<Counted<'a>, u32>>(
    rt: &impl Abort,
    compared: &'a Cell<u32>,
    tree: &mut Tree<Counted<'a>, u32, C>,
) {
    assert_same(rt, tree.node_count(), 12);
    for id in 0..12usize {
        for number in 0..89u32 {
            let promised = expected_from(rt, &*tree, id, number);
            let key = Counted { number, compared };
            check_under(rt, tree, compared, (id, promised), &key);
        }
    }
}

#[test]
fn compares_no_more_keys_under_a_node_than_promised(rt: HostRuntime) {
    let compared = Cell::new(0);
    let mut tree: Counters<'_> = Tree::new(rt.alloc());
    put_odd_keys(&rt, &compared, &mut tree);
    search_under(&rt, &compared, &mut tree);
}

// Checks the pair that is removed for a number: an odd one has its value.
fn check_removed<K: Drop>(rt: &impl Abort, number: u32, removed: Option<(K, u32)>) {
    assert_same_in(rt, number, removed.is_some(), number % 2 == 1);
    if let Some((_key, value)) = removed {
        assert_same_in(rt, number, value, number / 2);
    }
}

// Removes each of the keys and each number between from a tree that was empty.
fn remove_each<'a, K: Ord + Drop + Counting<'a>, C: NodesMut<K, u32>>(
    rt: &impl Abort,
    compared: &'a Cell<u32>,
    tree: &mut Tree<K, u32, C>,
) {
    put_odd_keys(rt, compared, tree);
    for number in 0..89u32 {
        let most = 6 * tree.height();
        compared.set(0);
        let removed = tree.remove_entry(&K::counting(number, compared));
        check_most(rt, number, compared, most);
        check_removed(rt, number, removed);
    }
    assert_same(rt, (tree.len(), tree.node_count()), (0, 0));
}

// Removes each of the keys at its address, which compares no keys.
fn remove_each_at<'a, K: Ord + Drop + Counting<'a>, C: NodesMut<K, u32>>(
    rt: &impl Abort,
    compared: &'a Cell<u32>,
    tree: &mut Tree<K, u32, C>,
) {
    put_odd_keys(rt, compared, tree);
    for value in 0..44u32 {
        let key = K::counting(2 * value + 1, compared);
        let (Ok(addr) | Err(addr)) = tree.address_of(&key);
        assert_true(rt, tree.is_valid(addr));
        compared.set(0);
        let (item, _place) = some(rt, tree.remove_at(addr));
        assert_same(rt, (*item.value(), compared.get()), (value, 0));
    }
}

#[test]
fn compares_at_most_six_keys_a_level_to_remove(rt: HostRuntime) {
    let compared = Cell::new(0);
    let mut tree: Counters<'_> = Tree::new(rt.alloc());
    remove_each(&rt, &compared, &mut tree);
}

#[test]
fn compares_no_keys_to_remove_at_an_address(rt: HostRuntime) {
    let compared = Cell::new(0);
    let mut tree: Counters<'_> = Tree::new(rt.alloc());
    remove_each_at(&rt, &compared, &mut tree);
}
