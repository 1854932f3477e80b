//! Maps as text of several lines.
use crate::asserts::{assert_same, assert_true, given};
use crate::checks::Heap;
use btree_node::NodesMut;
use btree_range_map::{RangeMap, Span};
use std::alloc::{AllocError, Global};
use std::process::Abort;

// Returns the text of a map.
fn text_of<C: NodesMut<u64, Span<u64>>>(
    alloc: Global,
    map: &RangeMap<u64, C>,
) -> Result<String, AllocError> {
    format!(in alloc; "{map:#?}")
}

// Shows a map without ranges, and one of three.
fn show<C: NodesMut<u64, Span<u64>> + Drop>(
    rt: &impl Abort,
    alloc: Global,
    mut map: RangeMap<u64, C>,
) {
    let none = given(rt, text_of(alloc, &map));
    assert_same(rt, none.as_str(), "{}");
    assert_true(rt, map.insert(5, 9, 8).is_ok());
    assert_true(rt, map.insert(1, 3, 7).is_ok());
    assert_true(rt, map.insert(9, 30, 7).is_ok());
    let three = given(rt, text_of(alloc, &map));
    assert_same(
        rt,
        three.as_str(),
        "{\n    1..3: 7,\n    5..9: 8,\n    9..30: 7,\n}",
    );
}

#[test]
fn shows_ranges(rt: HostRuntime) {
    show::<Heap>(&rt, rt.alloc(), RangeMap::new(rt.alloc()));
}
