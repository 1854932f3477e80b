//! The iterator over the values in slots.
ghost use Rattle.std.specs.Prelude.{◌≡◌, Some, IfSome, length};
ghost use Rattle.std.specs.Iterator.SizeHint.{IsWithinCount};
ghost use Rattle.std.specs.Iterator.{YieldsFirstRef, YieldsLastRef, item_count, UpTo};

use std::iter::DoubleEndedIterator;
use std::marker::Model;
use std::slice;

/// An iterator over the values in slots, in order and from both ends, seen by contracts as the list of those that are left.
#[derive(Drop)]
pub struct SlotsIter<'a, T> {
    pub(crate) slots: slice::Iter<'a, Option<T>>,
}

impl<'a, T> Model for SlotsIter<'a, T> {
    ghost use Rattle.std.specs.Prelude.{List};
    ghost use Rattle.std.specs.Slice.Iter.{iter_rest};
    ghost use Rattle.btree_item.specs.Somes.{somes, AreSome};

    ghost Value = { List T };

    ghost view = { λ it. somes (iter_rest it.slots) };

    ghost invariant = { λ it. AreSome (iter_rest it.slots) };
}

#[tactic(auto, using(crate::proofs::IterLemmas::slot_steps))]
impl<'a, T> Iterator for SlotsIter<'a, T> {
    type Item = &'a T;

    ghost next_gives = { YieldsFirstRef (λ rest. rest) };

    ghost remaining = { item_count (λ rest. rest) };

    fn next(&mut self) -> Option<&'a T> {
        let Some(slot) = self.slots.next() else {
            return None;
        };
        slot.as_ref()
    }

    /// Returns how many values are left, as both bounds.
    fn size_hint(&self) -> (usize, Option<usize>)
        ensures exact { result ≡ (length self.now, Some (length self.now)) }
        ensures lower { IsWithinCount result.0 (item_count (λ rest. rest) self.now) }
        ensures upper { IfSome result.1 (UpTo (item_count (λ rest. rest) self.now)) }
    {
        let left = self.slots.len();
        (left, Some(left))
    }
}

#[tactic(auto, using(crate::proofs::IterLemmas::slot_steps_back))]
impl<'a, T> DoubleEndedIterator for SlotsIter<'a, T> {
    ghost next_back_gives = { YieldsLastRef (λ rest. rest) };

    fn next_back(&mut self) -> Option<&'a T> {
        let Some(slot) = self.slots.next_back() else {
            return None;
        };
        slot.as_ref()
    }
}
