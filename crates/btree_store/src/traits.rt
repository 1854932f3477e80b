//! The contracts of every store.
ghost use Rattle.std.specs.Prelude.{◌≡◌, ℕ, ◌+◌, ◌<◌, Some, None, IsSome, IfOk, IfErr, OnOk, OnErr, OnSome, option_copied};
ghost use Rattle.std.specs.Option.{option_copied_mut};
ghost use Rattle.std.specs.FinMap as map;
ghost use Rattle.std.specs.Borrow.{sem};
ghost use Rattle.std.specs.Mem.{FitsInMemory};
ghost use Rattle.btree_store.specs.Content.{Content, Gains, lends_under};

/// A store of values under numbers, for reading.
pub trait Slab<T> {
    /// The value under each number that is used.
    ghost content: { Self → Content T };

    /// How many values it has refused since it was made.
    ghost refusals: { Self → ℕ };

    /// The contents that it can have, for example those of at most N values. Each call that may add a value ensures that its content is
    /// one of them.
    ghost CanHold: { Content T → Type 0 };

    /// Returns how many numbers are used.
    fn len(&self) -> usize
        ensures len { result ≡ map.len (content self.now) }
        ensures can_hold { CanHold (content self.now) }
        ensures numbers { (id : ℕ) → IsSome (map.get (content self.now) id) → id < usize.MAX };

    /// Returns the value under `id`, or `None` if that number is not used.
    fn get(&self, id: usize) -> Option<&T>
        ensures value { option_copied result ≡ map.get (content self.now) id }
        ensures number { OnSome result (id < usize.MAX) };
}

/// A store of values under numbers, for changing.
pub trait SlabMut<T>: Slab<T> + Sized {
    /// What a store is made from, for example the allocator of its memory.
    type Origin;

    /// The contents in which it may refuse a value. In every other content it accepts one.
    ghost MayRefuse: { Content T → Type 0 };

    /// The fact that a value fits in memory, which calls that pass a value on require.
    ghost Fits: { Type 0 };

    /// The store with another value under a number that is used.
    ghost written: { Self → ℕ → T → Self };

    /// Records for the prover that a value fits in memory; called where the type is known. It does nothing at run time.
    fn note_fits()
        requires { FitsInMemory T.row }
        ensures { Fits };

    /// Gives the prover the fact that `note_fits` recorded; called where the type is a parameter. It does nothing at run time.
    fn tell_fits()
        requires { Fits }
        ensures { FitsInMemory T.row };

    /// Returns a store without values, which allocates no memory until the first `insert`.
    fn empty(origin: Self::Origin) -> Self
        ensures content { Self.content result ≡ map.empty }
        ensures refusals { Self.refusals result ≡ 0 };

    /// Returns the value under `id` for writing, or `None` if that number is not used. Its clause `writes_back` says what the store is when
    /// the reference is no longer used: `written` with the value that it then has.
    fn get_mut(&mut self, id: usize) -> Option<&mut T>
        ensures* writes_back { sem 𝓛 (lends_under Self.row T.row written self.entry id result) }
        ensures value { option_copied_mut result ≡ map.get (Self.content self.old) id };

    /// Stores `value` under a number that was not used and returns the number, or returns `value` if the store refuses it.
    fn insert(&mut self, value: T) -> Result<usize, T>
        ensures number { IfOk result (λ id. id < usize.MAX) }
        ensures unused { IfOk result (λ id. map.get (Self.content self.old) id ≡ None) }
        ensures stored { IfOk result (Gains (Self.content self.old) (Self.content self.new) value) }
        ensures can_hold { OnOk result (Self.CanHold (Self.content self.new)) }
        ensures uncounted { OnOk result (Self.refusals self.new ≡ Self.refusals self.old) }

        // A refusal is counted, and happens only if the store may refuse.
        ensures returned { IfErr result (λ back. back ≡ value) }
        ensures unchanged { OnErr result (Self.content self.new ≡ Self.content self.old) }
        ensures counted { OnErr result (Self.refusals self.new ≡ Self.refusals self.old + 1) }
        ensures may_refuse { OnErr result (MayRefuse (Self.content self.old)) };

    /// Removes and returns the value under `id`, a number that is used.
    fn remove(&mut self, id: usize) -> T
        requires { IsSome (map.get (Self.content self.old) id) }
        ensures value { map.get (Self.content self.old) id ≡ Some result }
        ensures removed { Self.content self.new ≡ map.remove (Self.content self.old) id }
        ensures uncounted { Self.refusals self.new ≡ Self.refusals self.old };

    // A write through `get_mut` changes that value alone, and counts no refusal.
    ghost content_written: { (store : Self) (id : ℕ) (value : T) → IsSome (map.get (Self.content store) id) →
        Self.content (written store id value) ≡ map.insert (Self.content store) id value };

    ghost refusals_written: { (store : Self) (id : ℕ) (value : T) →
        Self.refusals (written store id value) ≡ Self.refusals store };
}

/// A store that can be emptied.
pub trait Clear<T>: SlabMut<T> {
    /// Drops every value, so that no number is used.
    fn clear(&mut self)
        ensures content { Self.content self.new ≡ map.empty }
        ensures uncounted { Self.refusals self.new ≡ Self.refusals self.old };
}
