//! A counter that only contracts see.
#![tactic(auto)]

ghost use Rattle.std.specs.Prelude.{◌≡◌, ℕ, ◌+◌};

use std::marker::{Model, PhantomData};

/// A counter that takes no bytes and no time, for contracts to read. Only `tick` changes its count.
pub struct Steps {
    marker: PhantomData<()>,
    pub ghost count: { ℕ },
}

impl Model for Steps {
    ghost use base.Fml.{ftrue};

    ghost also_owns = { λ _. ftrue };
}

impl Steps {
    /// Returns a counter with the count 0.
    pub fn new() -> Steps
        ensures { result.count ≡ 0 }
    {
        Steps {
            marker: PhantomData,
        }
    }

    /// Counts one more step. It does nothing at run time.
    pub fn tick(&mut self)
        ensures { self.new.count ≡ self.old.count + 1 }
    {}
}

impl Drop for Steps {
    fn drop(self) {
        let Self { marker: _ } = self;
    }
}
