//! What a caller knows of a set after a drain.
ghost use Rattle.std.specs.Prelude.{◌≡◌, false};
ghost use Rattle.std.specs.Fn.{CalledAt, TakesAt};
ghost use Rattle.btree_set.specs.Drain.{CallableOnEach, Selects};

use btree_node::NodesMut;
use btree_set::{BTreeSet, DrainFilter};

// Finishes a drain. What is left follows from the contracts of the drain alone.
pub(crate) fn drain_and_finish<T: Ord + Drop, C: NodesMut<T, ()>, F: FnMut(&T) -> bool>(
    set: &mut BTreeSet<T, C>,
    f: F,
)
    requires { CallableOnEach (CalledAt F.FnMut) (TakesAt F.FnMut) f set.old.elements }
    ensures kept { Selects (CalledAt F.FnMut) false f set.old.elements set.new.elements }
    ensures uncounted { set.new.kept ≡ set.old.kept }
{
    set.drain_filter(f).finish();
}

// Drops a drain, with the same outcome.
pub(crate) fn drain_and_drop<T: Ord + Drop, C: NodesMut<T, ()>, F: FnMut(&T) -> bool>(
    set: &mut BTreeSet<T, C>,
    f: F,
)
    requires { CallableOnEach (CalledAt F.FnMut) (TakesAt F.FnMut) f set.old.elements }
    ensures kept { Selects (CalledAt F.FnMut) false f set.old.elements set.new.elements }
    ensures uncounted { set.new.kept ≡ set.old.kept }
{
    let _drain = DrainFilter::new(set, f);
}
