//! What a caller learns of a table, and of a gate, beside what every store promises.
ghost use Rattle.std.specs.Prelude.{◌≡◌, ◌+◌, ◌↔◌, IsErr, OnErr};
ghost use Rattle.std.specs.FinMap as map;
ghost use Rattle.btree_store.specs.Content.{content_from};

use btree_more_stores::{FixedSlab, Gate};
use btree_store::SlabMut;

// Puts a value into a table, which refuses it exactly if each place has one.
pub(crate) fn insert_exactly<T, const N: usize>(
    table: &mut FixedSlab<T, N>,
    value: T,
) -> Result<usize, T>
    ensures { IsErr result ↔ (map.len (content_from 0 table.old.slots) ≡ N) }
{
    table.insert(value)
}

// Puts a value into a store behind a gate that refuses the next insertion, and asks again. Then only the store behind it may refuse.
pub(crate) fn insert_again<T, S: SlabMut<T>>(gate: &mut Gate<S>, value: T) -> Result<usize, T>
    requires { gate.old.refuses_at ≡ 1 }
    ensures passes { OnErr result (S.MayRefuse (S.content gate.old.inner)) }
    ensures spent { gate.new.refuses_at ≡ 0 }
    ensures counted_inside { S.refusals gate.new.inner + gate.old.refused + 1
        ≡ S.refusals gate.old.inner + gate.new.refused }
{
    match gate.insert(value) {
        Ok(_) => unreachable!(),
        Err(back) => gate.insert(back),
    }
}
