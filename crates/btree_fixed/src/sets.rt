//! Insertions of elements into a set.
ghost use Rattle.std.specs.Prelude.{◌≡◌, ◌↔◌, IfErr, IfOk, IsTrue, None, OnErr, OnOk};
ghost use Rattle.btree_set.specs.Elements.{IsRefused, inserted, replaced, stored};
ghost use Rattle.btree_fixed.specs.Capacity.{HoldsAll, HoldsAtMost, RefusesElementExactly, TakesFewElements};

use crate::FixedSet;
use btree_item::Refused;

/// Inserts an element, as `BTreeSet::insert` does.
pub fn insert_element<T: Ord + Drop, const N: usize>(
    set: &mut FixedSet<T, N>,
    element: T,
) -> Result<bool, Refused<T, ()>>
    ensures exact { RefusesElementExactly T.cmp element set.old N result }
    ensures few { TakesFewElements set.old N result }
    ensures held { HoldsAtMost N set.new.tree.nodes }

    ensures new { IfOk result (λ new. IsTrue new ↔ (stored T.cmp element set.old.elements ≡ None)) }
    ensures inserted { OnOk result (set.new.elements ≡ inserted T.cmp element set.old.elements) }
    ensures uncounted { OnOk result (set.new.kept ≡ set.old.kept) }
    ensures returned { IfErr result (λ r. r.key ≡ element) }
    ensures absent { OnErr result (stored T.cmp element set.old.elements ≡ None) }
    ensures cause { IfErr result (λ r.
        IsRefused T.cmp (HoldsAll N) element set.old set.new r.cause) }
{
    let _before = set.node_count();
    let result = set.insert(element);
    let _count = set.node_count();
    result
}

/// Inserts an element in the place of an equal one, if there is one, as `BTreeSet::replace` does.
pub fn replace_element<T: Ord + Drop, const N: usize>(
    set: &mut FixedSet<T, N>,
    element: T,
) -> Result<Option<T>, Refused<T, ()>>
    ensures exact { RefusesElementExactly T.cmp element set.old N result }
    ensures few { TakesFewElements set.old N result }
    ensures held { HoldsAtMost N set.new.tree.nodes }

    ensures old { IfOk result (λ old. old ≡ stored T.cmp element set.old.elements) }
    ensures replaced { OnOk result (set.new.elements ≡ replaced T.cmp element set.old.elements) }
    ensures uncounted { OnOk result (set.new.kept ≡ set.old.kept) }
    ensures returned { IfErr result (λ r. r.key ≡ element) }
    ensures absent { OnErr result (stored T.cmp element set.old.elements ≡ None) }
    ensures cause { IfErr result (λ r.
        IsRefused T.cmp (HoldsAll N) element set.old set.new r.cause) }
{
    let _before = set.node_count();
    let result = set.replace(element);
    let _count = set.node_count();
    result
}
