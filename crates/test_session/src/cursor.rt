//! A list of steps that a cursor runs, without memory for the replies.
use crate::asserts::{assert_same, assert_true};
use btree_map::BTreeMap;
use btree_node::{Node, NodesMut};
use btree_session::{CursorStep, Reply, run_cursor};
use btree_store::SlabStore;
use std::alloc::Global;
use std::process::Abort;
use test_support::Refusing;

// Without memory for the replies no step is run.
fn run_without_room<C: NodesMut<u64, u64> + Drop>(
    rt: &impl Abort,
    memory: &Refusing<Global>,
    origin: C::Origin,
) {
    let mut map: BTreeMap<u64, u64, C> = BTreeMap::new(origin);
    for (key, value) in [(1, 10), (2, 20), (4, 40)] {
        assert_true(rt, map.insert(key, value).is_ok());
    }
    let mut replies: Vec<Reply, &Refusing<Global>> = Vec::new(memory);
    let steps = [CursorStep::Remove, CursorStep::Next];
    memory.refuse(1);
    assert_true(rt, run_cursor(&mut map, &steps, &mut replies).is_err());
    assert_same(rt, memory.refuses(), 0);
    assert_same(rt, (map.len(), replies.len()), (3, 0));
    assert_true(rt, run_cursor(&mut map, &steps, &mut replies).is_ok());
    assert_same(
        rt,
        replies.as_slice(),
        [Reply::Pair(1, 10), Reply::Pair(2, 20)].as_slice(),
    );
    assert_same(rt, (map.len(), map.get(&1).copied()), (2, None));
}

#[test]
fn runs_nothing_without_room_for_the_replies(rt: HostRuntime) {
    let memory = Refusing::over(rt.alloc(), 0);
    run_without_room::<SlabStore<Node<u64, u64>>>(&rt, &memory, rt.alloc());
}
