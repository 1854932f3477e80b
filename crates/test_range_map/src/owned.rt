//! Maps whose values own memory.
use crate::asserts::{assert_same, assert_true, given, refused, some};
use crate::texts::{IsText, Text};
use btree_node::{ClearNodes, Node, NodesMut};
use btree_range_map::{RangeCause, RangeMap, Span};
use btree_store::SlabStore;
use std::alloc::Global;
use std::process::Abort;

type Heap = SlabStore<Node<u64, Span<Text>>>;

// Returns a text. Of the allocations of its clone one may be refused.
fn text<V: IsText + Drop>(rt: &impl Abort, alloc: Global, refuses: u64, letters: &str) -> V {
    let mut text = V::empty(alloc, refuses);
    given(rt, text.push(letters));
    text
}

// Returns a text with one more mark at its end, or as much of it as there is memory for.
fn marked<V: IsText>(alloc: Global, text: &V) -> V {
    let mut longer = V::empty(alloc, 0);
    let _ = longer.push(text.letters());
    let _ = longer.push("!");
    longer
}

// Gives some numbers a text.
fn insert<V: Clone + Eq + Drop + IsText, C: NodesMut<u64, Span<V>>>(
    rt: &impl Abort,
    alloc: Global,
    map: &mut RangeMap<V, C>,
    start: u64,
    end: u64,
    letters: &str,
) {
    let text = text(rt, alloc, 0, letters);
    assert_true(rt, map.insert(start, end, text).is_ok());
}

// Checks a range and its text.
fn check_text<V: IsText>(
    rt: &impl Abort,
    range: Option<(u64, &Span<V>)>,
    (start, end, letters): (u64, u64, &str),
) {
    let (first, span) = some(rt, range);
    let found = (first, span.end, span.value.letters());
    assert_same(rt, found, (start, end, letters));
}

// Checks the ranges of a map, each with its text.
fn check_texts<V: Clone + Eq + IsText, C: NodesMut<u64, Span<V>>>(
    rt: &impl Abort,
    map: &RangeMap<V, C>,
    expected: &[(u64, u64, &str)],
) {
    let mut ranges = map.iter();
    for wanted in expected.iter().copied() {
        check_text(rt, ranges.next(), wanted);
    }
    assert_true(rt, ranges.next().is_none());
}

// Checks the text that a map lends for a number.
fn check_lent<V: Clone + Eq + IsText, C: NodesMut<u64, Span<V>>>(
    rt: &impl Abort,
    map: &RangeMap<V, C>,
    number: u64,
    expected: Option<&str>,
) {
    let lent = match map.get(number) {
        Some(text) => Some(text.letters()),
        None => None,
    };
    assert_same(rt, lent, expected);
}

// Both parts of a range that is cut have its text, each one of its own.
fn cut<V: Clone + Eq + Drop + IsText, C: NodesMut<u64, Span<V>>>(
    rt: &impl Abort,
    alloc: Global,
    map: &mut RangeMap<V, C>,
) {
    insert(rt, alloc, map, 10, 20, "old");
    insert(rt, alloc, map, 12, 15, "new");
    check_texts(
        rt,
        map,
        &[(10, 12, "old"), (12, 15, "new"), (15, 20, "old")],
    );
    assert_true(rt, map.remove(16, 18).is_ok());
    assert_true(rt, map.remove(0, 12).is_ok());
    check_texts(
        rt,
        map,
        &[(12, 15, "new"), (15, 16, "old"), (18, 20, "old")],
    );
    check_lent(rt, map, 14, Some("new"));
    check_lent(rt, map, 15, Some("old"));
    check_lent(rt, map, 16, None);
}

// Ranges that touch are one if their texts are equal, wherever these are.
fn join<V: Clone + Eq + Drop + IsText, C: NodesMut<u64, Span<V>>>(
    rt: &impl Abort,
    alloc: Global,
    map: &mut RangeMap<V, C>,
) {
    insert(rt, alloc, map, 10, 20, "one");
    insert(rt, alloc, map, 30, 40, "one");
    insert(rt, alloc, map, 20, 25, "two");
    insert(rt, alloc, map, 5, 10, "");
    insert(rt, alloc, map, 40, 50, "ones");
    assert_same(rt, map.len(), 5);
    insert(rt, alloc, map, 18, 33, "one");
    check_texts(rt, map, &[(5, 10, ""), (10, 40, "one"), (40, 50, "ones")]);
    insert(rt, alloc, map, 0, 60, "two");
    check_texts(rt, map, &[(0, 60, "two")]);
}

// Marks the texts of some numbers.
fn mark<V: Clone + Eq + Drop + IsText, C: NodesMut<u64, Span<V>>>(
    rt: &impl Abort,
    alloc: Global,
    map: &mut RangeMap<V, C>,
    start: u64,
    end: u64,
) {
    let outcome = map.update(start, end, &mut |text: &V| marked(alloc, text));
    assert_true(rt, outcome.is_ok());
}

// An update puts texts in place of those that it reads.
fn update<V: Clone + Eq + Drop + IsText, C: NodesMut<u64, Span<V>>>(
    rt: &impl Abort,
    alloc: Global,
    map: &mut RangeMap<V, C>,
) {
    insert(rt, alloc, map, 3, 9, "a");
    insert(rt, alloc, map, 9, 12, "a!");
    mark(rt, alloc, map, 5, 10);
    check_texts(
        rt,
        map,
        &[(3, 5, "a"), (5, 9, "a!"), (9, 10, "a!!"), (10, 12, "a!")],
    );
    mark(rt, alloc, map, 0, 5);
    check_texts(rt, map, &[(3, 9, "a!"), (9, 10, "a!!"), (10, 12, "a!")]);
}

// Texts in several nodes, of which one takes the place of all.
fn fill<V: Clone + Eq + Drop + IsText, C: NodesMut<u64, Span<V>>>(
    rt: &impl Abort,
    alloc: Global,
    map: &mut RangeMap<V, C>,
) {
    for number in 0..40u64 {
        let start = 10 * number;
        insert(rt, alloc, map, start, start + 5, "old");
    }
    assert_same(rt, map.len(), 40);
    check_lent(rt, map, 394, Some("old"));
    insert(rt, alloc, map, 2, 393, "new");
    check_texts(
        rt,
        map,
        &[(0, 2, "old"), (2, 393, "new"), (393, 395, "old")],
    );
}

// Where the clone of a text is refused its memory, an insertion into its range is refused, and so is a removal from it. Calls that cut no range
// in two clone no text, and are granted.
fn refuse<V: Clone + Eq + Drop + IsText, C: NodesMut<u64, Span<V>>>(
    rt: &impl Abort,
    alloc: Global,
    map: &mut RangeMap<V, C>,
) {
    let old = text(rt, alloc, 1, "old");
    assert_true(rt, map.insert(10, 20, old).is_ok());
    let new = text(rt, alloc, 0, "new");
    let back = refused(rt, map.insert(12, 15, new));
    check_texts(rt, map, &[(10, 20, "old")]);
    assert_same(rt, (back.cause, back.key), (RangeCause::Clone, 12));
    let Span { end, value } = back.value;
    assert_same(rt, (end, value.letters()), (15, "new"));
    assert_true(rt, map.remove(11, 19).is_err());
    assert_true(rt, map.insert(5, 12, value).is_ok());
    assert_true(rt, map.remove(18, 30).is_ok());
    insert(rt, alloc, map, 14, 15, "old");
    check_texts(rt, map, &[(5, 12, "new"), (12, 18, "old")]);
}

// All of these, in a map that is empty before each.
fn hold<V: Clone + Eq + Drop + IsText, C: ClearNodes<u64, Span<V>>>(
    rt: &impl Abort,
    alloc: Global,
    map: &mut RangeMap<V, C>,
) {
    cut(rt, alloc, map);
    map.clear();
    join(rt, alloc, map);
    map.clear();
    update(rt, alloc, map);
    map.clear();
    fill(rt, alloc, map);
    map.clear();
    refuse(rt, alloc, map);
}

#[test]
fn holds_texts(rt: HostRuntime) {
    let mut map: RangeMap<Text, Heap> = RangeMap::new(rt.alloc());
    hold(&rt, rt.alloc(), &mut map);
}
