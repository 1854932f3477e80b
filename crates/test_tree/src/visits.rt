//! Visits of whole trees by the calls that callers have: how many addresses they pass is proved.
ghost use Rattle.std.specs.Prelude.{◌≡◌, ◌≢◌, ◌+◌, length, None};
ghost use Rattle.std.specs.FinMap as map;
ghost use Rattle.btree_laws.specs.TreeState.{pairs_of};

use btree_ext::{BTreeExt, Tree};
use btree_node::NodesMut;
use btree_steps::Steps;

// Passes each back address, from the first one on, and counts them: as many as pairs and nodes together.
pub(crate) fn visit_backs<K: Ord, V, C: NodesMut<K, V>>(tree: &Tree<K, V, C>) -> Steps
    requires { tree.now.root ≢ None }
    ensures { result.count ≡ length (pairs_of tree.now) + map.len tree.now.nodes }
{
    let mut passed = Steps::new();
    let mut next = Some(tree.first_back_address());
    while let Some(at) = next {
        passed.tick();
        next = tree.next_back_address(at);
    }
    passed
}

// Passes each front address, from the last item backwards, and counts them: as many as pairs and nodes together.
pub(crate) fn visit_fronts<K: Ord, V, C: NodesMut<K, V>>(tree: &Tree<K, V, C>) -> Steps
    ensures { result.count ≡ length (pairs_of tree.now) + map.len tree.now.nodes }
{
    let mut passed = Steps::new();
    let mut next = tree.last_item_address();
    while let Some(at) = next {
        passed.tick();
        next = tree.previous_front_address(at);
    }
    passed
}
