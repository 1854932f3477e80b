//! How many keys a look-up in a node of either kind compares, by keys that count.
ghost use Rattle.std.specs.Prelude.{◌≡◌, ◌+◌, ◌<◌, ◌≤◌, Some};
ghost use Rattle.std.specs.Ordering.{nat_cmp, on};
ghost use Rattle.btree_item.specs.Pairs.{Ascends};
ghost use Rattle.btree_internal.specs.Internal.{internal_view};
ghost use Rattle.btree_node.specs.Node.{view_of};
ghost use Rattle.btree_view.specs.View.{items_of};

use crate::asserts::{assert_same_in, assert_true};
use btree_item::{Item, MAX_COMPARISONS, Offset};
use btree_node::{InternalNode, LeafNode, Node};
use btree_steps::Steps;
use std::cell::Cell;
use std::process::Abort;
use test_support::{COMPARISONS, Counted, promised_comparisons};

// What a look-up in a node answers.
type Place = Result<Offset, (usize, Option<usize>)>;

// Looks up with a counter, and returns also how often it ticks.
fn counted_of<'a>(
    node: &Node<Counted<'a>, u32>,
    key: &Counted<'a>,
    steps: &mut Steps,
) -> (Place, usize)
    requires { Ascends (on (λ key. key.number) nat_cmp) (items_of (view_of node.now)) }
    ensures { steps.new.count ≡ steps.old.count + result.1 }
{
    let len = node.item_count();
    match node.offset_of_counted(key, steps) {
        Ok(offset) => {
            let smaller = offset.value().unwrap_or(0);
            (Ok(offset), promised_comparisons(len, smaller))
        }
        Err((smaller, child)) => (Err((smaller, child)), promised_comparisons(len, smaller)),
    }
}

// Looks up without a counter and with one, which takes as many comparisons, and ticks for each. Returns both answers, and how many.
fn looked_up<'a>(
    rt: &impl Abort,
    node: &Node<Counted<'a>, u32>,
    key: Counted<'a>,
) -> (Place, Place, usize)
    requires { Ascends (on (λ key. key.number) nat_cmp) (items_of (view_of node.now)) }
{
    key.compared.set(0);
    let place = node.offset_of(&key);
    let compared = key.compared.get();
    key.compared.set(0);
    let mut steps = Steps::new();
    let (counted, ticks) = counted_of(node, &key, &mut steps);
    assert_same_in(rt, key.number, key.compared.get(), compared);
    assert_same_in(rt, key.number, ticks, compared as usize);
    assert_same_in(rt, key.number, ticks <= MAX_COMPARISONS, true);
    (place, counted, ticks)
}

// Checks that `get` compares at most six keys, and finds the value of a key that is there, or the child to look in.
fn check_get<'a>(rt: &impl Abort, node: &Node<Counted<'a>, u32>, key: Counted<'a>, place: Place)
    requires { Ascends (on (λ key. key.number) nat_cmp) (items_of (view_of node.now)) }
{
    key.compared.set(0);
    let found = node.get(&key).map(|value| value.copied());
    assert_same_in(rt, key.number, key.compared.get() <= 6, true);
    let expected = match place {
        Ok(_) => Ok(Some(key.number / 2)),
        Err((_, None)) => Ok(None),
        Err((_, Some(child))) => Err(child),
    };
    assert_same_in(rt, key.number, found, expected);
}

// Returns a leaf with this many keys, which are 1, 3, 5 and so on, with the values 0, 1, 2 and so on. An insertion by key compares at most
// six keys.
#[tactic(auto, using(btree_item::proofs::PairEdits::order_kept))]
fn leaf_of<'a>(rt: &impl Abort, compared: &'a Cell<u32>, count: u32) -> Node<Counted<'a>, u32>
    requires { count ≤ 9 }
    ensures { Ascends (on (λ key. key.number) nat_cmp) (items_of (view_of result)) }
{
    let mut leaf = LeafNode::empty(None);
    for index in 0..count {
        let key = Counted {
            number: 2 * index + 1,
            compared,
        };
        assert_true(rt, leaf.item_count() < 9);
        compared.set(0);
        let (_, old) = leaf.insert_by_key(key, index);
        assert_same_in(rt, index, old.is_none() && compared.get() <= 6, true);
    }
    Node::Leaf(leaf)
}

// Inserts an item with a new key at its place.
fn put<K: Ord + Drop, V: Drop>(
    node: &mut InternalNode<K, V>,
    key: K,
    value: V,
    right_id: usize,
) -> bool
    requires { Ascends K.cmp (items_of (internal_view node.old)) }
    ensures { Ascends K.cmp (items_of (internal_view node.new)) }
{
    match node.offset_of(&key) {
        Ok(_) => false,
        Err((index, _)) => {
            if node.item_count() < 8 {
                node.insert(at(index), Item::new(key, value), right_id);
                true
            } else {
                false
            }
        }
    }
}

fn at(index: usize) -> Offset
    requires { index < usize.MAX }
    ensures { result ≡ Some index }
{
    Offset::from(index)
}

// Returns an internal node with this many keys, which are 1, 3, 5 and so on, with the values 0, 1, 2 and so on, between the children 100,
// 101, 102 and so on.
#[tactic(auto, using(btree_item::proofs::PairEdits::order_kept))]
fn internal_of<'a>(rt: &impl Abort, compared: &'a Cell<u32>, count: u32) -> Node<Counted<'a>, u32>
    requires { count ≤ 8 }
    ensures { Ascends (on (λ key. key.number) nat_cmp) (items_of (view_of result)) }
{
    let first = Counted {
        number: 1,
        compared,
    };
    let mut node = InternalNode::binary(None, 100, Item::new(first, 0), 101);
    for index in 1..count {
        let key = Counted {
            number: 2 * index + 1,
            compared,
        };
        assert_true(rt, put(&mut node, key, index, (index as usize) + 101));
    }
    Node::Internal(node)
}

// Looks up each of the keys and each number between, in a node that holds this many.
fn look_up_each<'a>(
    rt: &impl Abort,
    node: &Node<Counted<'a>, u32>,
    compared: &'a Cell<u32>,
    held: u32,
)
    requires few { held ≤ 9 }
    requires ascends { Ascends (on (λ key. key.number) nat_cmp) (items_of (view_of node.now)) }
{
    let is_leaf = node.child_count() == 0;
    for number in 0..2 * held + 2 {
        let smaller = (number / 2).min(held) as usize;
        let child = if is_leaf { None } else { Some(smaller + 100) };
        let expected = if number % 2 == 1 && number < 2 * held {
            Ok(Offset::from(smaller))
        } else {
            Err((smaller, child))
        };
        let (place, counted, ticks) = looked_up(rt, node, Counted { number, compared });
        assert_same_in(rt, number, &place, &expected);
        assert_same_in(rt, number, &counted, &expected);
        assert_same_in(rt, number, ticks, COMPARISONS[held as usize][smaller]);
        check_get(rt, node, Counted { number, compared }, expected);
    }
}

#[test]
fn compares_as_many_keys_as_promised_in_a_leaf(rt: HostRuntime) {
    let compared = Cell::new(0);
    for held in 0..10u32 {
        let leaf = leaf_of(&rt, &compared, held);
        look_up_each(&rt, &leaf, &compared, held);
    }
}

#[test]
fn compares_as_many_keys_as_promised_in_an_internal_node(rt: HostRuntime) {
    let compared = Cell::new(0);
    for held in 1..9u32 {
        let node = internal_of(&rt, &compared, held);
        look_up_each(&rt, &node, &compared, held);
    }
}
