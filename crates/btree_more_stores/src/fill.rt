//! Stores that take values under chosen numbers.
ghost use Rattle.std.specs.Prelude.{◌≡◌, ◌<◌, ◌≤◌, ◌⊎◌, ℕ, suc, None, IfErr, OnOk, OnErr};
ghost use Rattle.std.specs.FinMap as map;

use btree_store::SlabMut;

/// A store that can be filled under chosen numbers, from the lowest to the highest, and is then used as any other. A number that is left out
/// is free, and an `insert` may use it.
pub trait Fill<T>: SlabMut<T> {
    /// The numbers for which it may have no room. A number takes room for all below it.
    ghost MayLack: { ℕ → Type 0 };

    /// The number after the highest one that it ever used, or 0.
    ghost reached: { Self → ℕ };

    /// Returns a store without values, as `empty` does. It has used no number.
    fn unused(origin: Self::Origin) -> Self
        ensures content { Self.content result ≡ map.empty }
        ensures refusals { Self.refusals result ≡ 0 }
        ensures reached { Self.reached result ≡ 0 };

    /// Stores a value under `id`, or returns the value. A refusal is not counted.
    ///
    /// A store refuses a number below one that it ever used, and may refuse one for which it has no room. It refuses no other.
    fn insert_under(&mut self, id: usize, value: T) -> Result<(), T>
        ensures above { OnOk result (Self.reached self.old ≤ id) }
        ensures reached { OnOk result (Self.reached self.new ≡ suc id) }
        ensures unused { OnOk result (map.get (Self.content self.old) id ≡ None) }
        ensures stored { OnOk result (Self.content self.new ≡ map.insert (Self.content self.old) id value) }
        ensures can_hold { OnOk result (Self.CanHold (Self.content self.new)) }

        ensures returned { IfErr result (λ back. back ≡ value) }
        ensures refused { OnErr result ((id < Self.reached self.old) ⊎ MayLack id) }
        ensures unchanged { OnErr result (Self.content self.new ≡ Self.content self.old) }
        ensures stays { OnErr result (Self.reached self.new ≡ Self.reached self.old) }
        ensures uncounted { Self.refusals self.new ≡ Self.refusals self.old };
}
