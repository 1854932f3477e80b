//! Two callers over any store, proved by its promises alone.
#![tactic(auto, using(btree_store::specs::ContentLaws::stores))]

ghost use Rattle.std.specs.Prelude.{◌≡◌, ℕ, ◌+◌, ◌<◌, ◌↔◌, Some, None, false, IsTrue, IsSome, IfSome, IfNone, OnSome, MatchOption};
ghost use Rattle.std.specs.FinMap as map;

use btree_store::SlabMut;

// Adds one to the value under `id`, if there is one that is not the greatest, and returns whether it did.
pub(crate) fn raise<S: SlabMut<u32>>(store: &mut S, id: usize) -> bool
    ensures raised { IsTrue result → IfSome (map.get (S.content store.old) id) (λ n.
        S.content store.new ≡ map.insert (S.content store.old) id (n + 1)) }
    ensures other { result ≡ false → S.content store.new ≡ S.content store.old }
    ensures when { MatchOption (map.get (S.content store.old) id) (result ≡ false) (λ n. IsTrue result ↔ (n < u32.MAX)) }
    ensures uncounted { S.refusals store.new ≡ S.refusals store.old }
{
    match store.get_mut(id) {
        Some(value) => {
            if *value == u32::MAX {
                return false;
            }
            *value += 1;
            true
        }
        None => false,
    }
}

// Stores both values or neither.
pub(crate) fn insert_both<S: SlabMut<u32>>(
    store: &mut S,
    first: u32,
    second: u32,
) -> Option<(usize, usize)>
    ensures stored { IfSome result (λ ids.
        S.content store.new ≡ map.insert (map.insert (S.content store.old) ids.0 first) ids.1 second) }
    ensures uncounted { OnSome result (S.refusals store.new ≡ S.refusals store.old) }
    ensures unchanged { IfNone result (S.content store.new ≡ S.content store.old) }
    ensures counted { IfNone result (S.refusals store.new ≡ S.refusals store.old + 1) }
{
    let Ok(at_first) = store.insert(first) else {
        return None;
    };
    match store.insert(second) {
        Ok(at_second) => Some((at_first, at_second)),
        Err(_) => {
            store.remove(at_first);
            None
        }
    }
}
