//! A map over any store of nodes can be kept in a caller's type, and passed on by value.
ghost use Rattle.std.specs.Prelude.{◌≡◌};

use crate::asserts::assert_same;
use crate::samples::first_keys;
use btree_map::BTreeMap;
use btree_node::{Node, NodesMut};
use btree_store::SlabStore;

type Store = SlabStore<Node<u64, u64>>;

// Keeps a value of any type.
struct Owner<T> {
    inner: T,
}

impl<T> Owner<T> {
    fn new(inner: T) -> Self
        ensures { result.inner ≡ inner }
    {
        Owner { inner }
    }

    fn into_inner(self) -> T
        ensures { result ≡ self.inner }
    {
        let Owner { inner } = self;
        inner
    }
}

fn take<C: NodesMut<u64, u64> + Drop>(map: BTreeMap<u64, u64, C>) -> usize {
    map.len()
}

// Keeps a map and passes it on, for any store.
fn keep_and_take<C: NodesMut<u64, u64> + Drop>(map: BTreeMap<u64, u64, C>) -> usize {
    let owner = Owner::new(map);
    take(owner.into_inner())
}

#[test]
fn a_map_is_kept_and_handed_on_by_value(rt: HostRuntime) {
    for (keys, taken) in [(0, 0), (1, 1), (40, 40)] {
        let owner = Owner::new(first_keys::<Store>(&rt, rt.alloc(), keys));
        assert_same(&rt, take(owner.into_inner()), taken);
        let map = first_keys::<Store>(&rt, rt.alloc(), keys);
        assert_same(&rt, keep_and_take(map), taken);
    }
}
